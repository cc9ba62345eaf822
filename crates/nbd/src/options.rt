//! The options that a client sends before its requests, and their replies.

ghost use Rattle.std.specs.Prelude.{true, ◌≡◌, ◌≤◌, ◌<◌, ◌^◌, ◌++◌, ℕ, List, length, IfErr, IfOk, OnOk};
ghost use Rattle.std.specs.Io.KnownBytes.{Appends};
ghost use Rattle.byteorder.specs.Endian.{big_bytes};
ghost use Rattle.nbd.specs.inside.Handshake.{TakesLastOption};
ghost use Rattle.nbd.specs.Contexts.{allocation};
ghost use Rattle.nbd.specs.Options.{block_bytes, context_replies, export_bytes, export_flags, info_in, info_replies, name_replies, next_of, option_error_number, option_header, option_reply, replies_to, wish_in};
ghost use Rattle.nbd.specs.inside.Options.{TakesOption, TakesOptionHeader};

use crate::End;
use crate::arrays::Sizes;
use crate::constants::{
    IHAVEOPT, LONGEST, LONGEST_OPTION, NBD_FLAG_HAS_FLAGS, NBD_FLAG_READ_ONLY, NBD_FLAG_SEND_FLUSH,
    NBD_FLAG_SEND_FUA, NBD_FLAG_SEND_WRITE_ZEROES, NBD_INFO_BLOCK_SIZE, NBD_INFO_EXPORT,
    NBD_OPT_ABORT, NBD_OPT_EXPORT_NAME, NBD_OPT_GO, NBD_OPT_INFO, NBD_OPT_LIST,
    NBD_OPT_LIST_META_CONTEXT, NBD_OPT_SET_META_CONTEXT, NBD_OPT_STRUCTURED_REPLY, NBD_REP_ACK,
    NBD_REP_ERR_INVALID, NBD_REP_ERR_TOO_BIG, NBD_REP_ERR_UNKNOWN, NBD_REP_ERR_UNSUP, NBD_REP_INFO,
    NBD_REP_MAGIC, NBD_REP_META_CONTEXT, NBD_REP_SERVER,
};
use crate::contexts::{ALLOCATION, parse_contexts};
use crate::streams::{skip, take};
use byteorder::{BigEndian, ByteOrder};
use std::io;
use std::io::{Read, Write};

/// What the server can do, but for writes.
const EXPORT_FLAGS: u16 = NBD_FLAG_HAS_FLAGS
    + NBD_FLAG_SEND_FLUSH
    + NBD_FLAG_SEND_FUA
    + NBD_FLAG_SEND_WRITE_ZEROES;

/// What an option asks for. There is one export, whose name is empty.
#[derive(Debug, Clone, Copy, PartialEq, Eq)]
pub enum Wish {
    /// NBD_OPT_EXPORT_NAME: to go on to requests.
    Export,
    /// NBD_OPT_ABORT.
    Leave,
    /// NBD_OPT_LIST: the names of the exports.
    Exports,
    /// NBD_OPT_INFO: what the export is.
    Info,
    /// NBD_OPT_GO: what the export is, and to go on to requests.
    Go,
    /// NBD_OPT_STRUCTURED_REPLY, which has no data: `bare` says that there are none.
    StructuredReplies { bare: bool },
    /// NBD_OPT_LIST_META_CONTEXT: whether it asks for the context `base:allocation`, or why it isn't done.
    ListContexts(Result<bool, OptionError>),
    /// NBD_OPT_SET_META_CONTEXT: whether it chooses the context `base:allocation`, or why it isn't done.
    SetContexts(Result<bool, OptionError>),
    /// An option that isn't done, for this reason.
    Refuse(OptionError),
    /// NBD_OPT_EXPORT_NAME of an export that isn't there, to which there is no reply.
    Close,
}

/// Why an option isn't done.
#[derive(Debug, Clone, Copy, PartialEq, Eq)]
pub enum OptionError {
    /// The option isn't known.
    Unsupported,
    /// The data aren't such as the option has.
    Invalid,
    /// The export isn't there.
    Unknown,
    /// The option has more data than are looked at.
    TooBig,
}

/// What comes after an option.
#[derive(Debug, Clone, Copy, PartialEq, Eq)]
pub enum Next {
    Options,
    Requests,
    Ended(End),
}

impl Wish {
    /// Returns what comes after the option.
    pub fn next(self) -> Next
        ensures { result ≡ next_of self }
    {
        match self {
            Wish::Export | Wish::Go => Next::Requests,
            Wish::Leave => Next::Ended(End::Left),
            Wish::Close => Next::Ended(End::Malformed),
            Wish::Exports
            | Wish::Info
            | Wish::StructuredReplies { .. }
            | Wish::ListContexts(_)
            | Wish::SetContexts(_)
            | Wish::Refuse(_) => Next::Options,
        }
    }
}

impl OptionError {
    /// The number of the error in a reply.
    pub fn number(self) -> u32
        ensures { result ≡ option_error_number self }
    {
        match self {
            OptionError::Unsupported => NBD_REP_ERR_UNSUP,
            OptionError::Invalid => NBD_REP_ERR_INVALID,
            OptionError::Unknown => NBD_REP_ERR_UNKNOWN,
            OptionError::TooBig => NBD_REP_ERR_TOO_BIG,
        }
    }
}

/// Returns what an option of this code with these data, at most 8,192 bytes, asks for.
pub fn parse_option(code: u32, bytes: &[u8]) -> Wish
    requires { length bytes.now ≤ LONGEST_OPTION }
    ensures { result ≡ wish_in code bytes.now }
{
    match code {
        NBD_OPT_EXPORT_NAME if bytes.is_empty() => Wish::Export,
        NBD_OPT_EXPORT_NAME => Wish::Close,
        NBD_OPT_ABORT => Wish::Leave,
        NBD_OPT_LIST if bytes.is_empty() => Wish::Exports,
        NBD_OPT_LIST => Wish::Refuse(OptionError::Invalid),
        NBD_OPT_INFO => parse_info(Wish::Info, bytes),
        NBD_OPT_GO => parse_info(Wish::Go, bytes),
        NBD_OPT_STRUCTURED_REPLY => Wish::StructuredReplies {
            bare: bytes.is_empty(),
        },
        NBD_OPT_LIST_META_CONTEXT => Wish::ListContexts(parse_contexts(false, bytes)),
        NBD_OPT_SET_META_CONTEXT => Wish::SetContexts(parse_contexts(true, bytes)),
        _ => Wish::Refuse(OptionError::Unsupported),
    }
}

/// Returns what the data of NBD_OPT_INFO or NBD_OPT_GO ask for.
fn parse_info(wish: Wish, bytes: &[u8]) -> Wish
    requires { length bytes.now ≤ LONGEST_OPTION }
    ensures { result ≡ info_in wish bytes.now }
{
    if bytes.len() < 6 {
        return Wish::Refuse(OptionError::Invalid);
    }
    let name = BigEndian::read_u32(bytes) as usize;
    if bytes.len() < 6 + name {
        return Wish::Refuse(OptionError::Invalid);
    }
    if name != 0 {
        return Wish::Refuse(OptionError::Unknown);
    }
    if bytes.len() != 6 + 2 * BigEndian::read_u16(&bytes[4..]) as usize {
        return Wish::Refuse(OptionError::Invalid);
    }
    wish
}

/// Takes the next option, and returns its code and what it asks for. The buffer takes its data.
///
/// # Errors
///
/// [`End::Malformed`] where none begins, and [`End::Input`].
pub(crate) fn next_option<R: Read>(input: &mut R, buffer: &mut [u8]) -> Result<(u32, Wish), End>
    requires { length buffer.old ≡ LONGEST_OPTION }
    ensures taken { IfOk result (λ found. TakesOption (R.remaining input.old) (R.remaining input.new) found.0 found.1) }
    ensures ended { IfErr result (TakesLastOption (R.remaining input.old)) }
{
    let (code, count) = next_header(input)?;
    if count > LONGEST_OPTION {
        skip(input, count)?;
        return Ok((code, too_long(code)));
    }
    let (data, _) = buffer.split_at_mut(count as usize);
    take(input, data)?;
    Ok((code, parse_option(code, data)))
}

/// Takes the header of the next option, and returns its code and how many bytes come behind it.
///
/// # Errors
///
/// [`End::Malformed`] where none begins, and [`End::Input`].
fn next_header<R: Read>(input: &mut R) -> Result<(u32, u32), End>
    ensures taken { IfOk result (λ found. TakesOptionHeader (R.remaining input.old) (R.remaining input.new) found.0 found.1) }
    ensures ended { IfErr result (TakesLastOption (R.remaining input.old)) }
{
    let mut header = [0; 16];
    take(input, &mut header)?;
    if BigEndian::read_u64(&header) != IHAVEOPT {
        return Err(End::Malformed);
    }
    Ok((
        BigEndian::read_u32(&header[8..]),
        BigEndian::read_u32(&header[12..]),
    ))
}

/// Returns what an option asks for that has more data than are looked at.
fn too_long(code: u32) -> Wish
    ensures { (bytes : List ℕ) → LONGEST_OPTION < length bytes → result ≡ wish_in code bytes }
{
    if code == NBD_OPT_EXPORT_NAME {
        Wish::Close
    } else {
        Wish::Refuse(OptionError::TooBig)
    }
}

/// Writes the replies to an option of this code, of an export of these sizes.
///
/// # Errors
///
/// The errors of the writer.
pub fn write_replies<W: Write>(
    out: &mut W,
    sizes: Sizes,
    no_zeroes: bool,
    code: u32,
    wish: Wish,
) -> io::Result<()>
    ensures { OnOk result (Appends (W.contents out.old) (W.contents out.new) (replies_to sizes no_zeroes code wish)) }
{
    match wish {
        Wish::Export => write_export(out, sizes, no_zeroes),
        Wish::Leave => write_option_reply(out, code, NBD_REP_ACK, &[]),
        Wish::Exports => write_exports(out, code),
        Wish::Info | Wish::Go => write_info(out, sizes, code),
        Wish::StructuredReplies { bare: true } => write_option_reply(out, code, NBD_REP_ACK, &[]),
        Wish::StructuredReplies { bare: false } => write_option_reply(
            out,
            code,
            NBD_REP_ERR_INVALID,
            &[],
        ),
        Wish::ListContexts(asked) => write_contexts(out, code, 0, asked),
        Wish::SetContexts(asked) => write_contexts(out, code, 1, asked),
        Wish::Refuse(error) => write_option_reply(out, code, error.number(), &[]),
        Wish::Close => Ok(()),
    }
}

/// Writes the context `base:allocation` under this number, if it was asked for.
///
/// # Errors
///
/// The errors of the writer.
fn write_contexts<W: Write>(
    out: &mut W,
    code: u32,
    id: u32,
    asked: Result<bool, OptionError>,
) -> io::Result<()>
    ensures { OnOk result (Appends (W.contents out.old) (W.contents out.new) (context_replies code id asked)) }
{
    match asked {
        Ok(true) => write_context(out, code, id),
        Ok(false) => write_option_reply(out, code, NBD_REP_ACK, &[]),
        Err(error) => write_option_reply(out, code, error.number(), &[]),
    }
}

/// Writes the context `base:allocation` under this number.
///
/// # Errors
///
/// The errors of the writer.
fn write_context<W: Write>(out: &mut W, code: u32, id: u32) -> io::Result<()>
    ensures { OnOk result (Appends (W.contents out.old) (W.contents out.new) (context_replies code id (Ok true))) }
{
    write_option_reply(out, code, NBD_REP_META_CONTEXT, &context_bytes(id))?;
    write_option_reply(out, code, NBD_REP_ACK, &[])?;
    Ok(())
}

/// The context's number and name.
fn context_bytes(id: u32) -> [u8; 19]
    ensures { result ≡ big_bytes 4 id ++ allocation }
{
    let mut bytes = [0; 19];
    BigEndian::write_u32(&mut bytes, id);
    bytes[4..].copy_from_slice(&ALLOCATION);
    bytes
}

/// Writes the reply to NBD_OPT_EXPORT_NAME.
///
/// # Errors
///
/// The errors of the writer.
fn write_export<W: Write>(out: &mut W, sizes: Sizes, no_zeroes: bool) -> io::Result<()>
    ensures { OnOk result (Appends (W.contents out.old) (W.contents out.new) (replies_to sizes no_zeroes 0 Wish.Export)) }
{
    out.write_all(&export(sizes))?;
    if !no_zeroes {
        out.write_all(&[0; 124])?;
    }
    Ok(())
}

/// Writes the names of the exports: one, which is empty.
///
/// # Errors
///
/// The errors of the writer.
fn write_exports<W: Write>(out: &mut W, code: u32) -> io::Result<()>
    ensures { OnOk result (Appends (W.contents out.old) (W.contents out.new) (name_replies code)) }
{
    write_option_reply(out, code, NBD_REP_SERVER, &[0; 4])?;
    write_option_reply(out, code, NBD_REP_ACK, &[])?;
    Ok(())
}

/// Writes what the export is.
///
/// # Errors
///
/// The errors of the writer.
fn write_info<W: Write>(out: &mut W, sizes: Sizes, code: u32) -> io::Result<()>
    ensures { OnOk result (Appends (W.contents out.old) (W.contents out.new) (info_replies sizes code)) }
{
    write_option_reply(out, code, NBD_REP_INFO, &export_info(sizes))?;
    write_option_reply(out, code, NBD_REP_INFO, &block_info(sizes.block))?;
    write_option_reply(out, code, NBD_REP_ACK, &[])?;
    Ok(())
}

/// Writes a reply.
///
/// # Errors
///
/// The errors of the writer.
fn write_option_reply<W: Write>(out: &mut W, code: u32, kind: u32, bytes: &[u8]) -> io::Result<()>
    requires { length bytes.now < 2 ^ 32 }
    ensures { OnOk result (Appends (W.contents out.old) (W.contents out.new) (option_reply code kind bytes.now)) }
{
    out.write_all(&header(code, kind, bytes.len() as u32))?;
    out.write_all(bytes)?;
    Ok(())
}

/// The bytes in front of a reply's data.
fn header(code: u32, kind: u32, count: u32) -> [u8; 20]
    ensures { result ≡ option_header code kind count }
{
    let mut bytes = [0; 20];
    BigEndian::write_u64(&mut bytes, NBD_REP_MAGIC);
    BigEndian::write_u32(&mut bytes[8..], code);
    BigEndian::write_u32(&mut bytes[12..], kind);
    BigEndian::write_u32(&mut bytes[16..], count);
    bytes
}

/// The transmission flags of an export.
fn flags_of(read_only: bool) -> u16
    ensures { result ≡ export_flags read_only }
{
    if read_only {
        EXPORT_FLAGS + NBD_FLAG_READ_ONLY
    } else {
        EXPORT_FLAGS
    }
}

/// The size of the export, and its transmission flags.
fn export(sizes: Sizes) -> [u8; 10]
    ensures { result ≡ export_bytes sizes }
{
    let mut bytes = [0; 10];
    BigEndian::write_u64(&mut bytes, sizes.bytes);
    BigEndian::write_u16(&mut bytes[8..], flags_of(sizes.read_only));
    bytes
}

/// Returns what NBD_INFO_EXPORT tells.
fn export_info(sizes: Sizes) -> [u8; 12]
    ensures { result ≡ big_bytes 2 NBD_INFO_EXPORT ++ export_bytes sizes }
{
    let mut bytes = [0; 12];
    BigEndian::write_u16(&mut bytes, NBD_INFO_EXPORT);
    BigEndian::write_u64(&mut bytes[2..], sizes.bytes);
    BigEndian::write_u16(&mut bytes[10..], flags_of(sizes.read_only));
    bytes
}

/// Returns what NBD_INFO_BLOCK_SIZE tells.
fn block_info(block: u32) -> [u8; 14]
    ensures { result ≡ big_bytes 2 NBD_INFO_BLOCK_SIZE ++ block_bytes block }
{
    let mut bytes = [0; 14];
    BigEndian::write_u16(&mut bytes, NBD_INFO_BLOCK_SIZE);
    BigEndian::write_u32(&mut bytes[2..], block);
    BigEndian::write_u32(&mut bytes[6..], 4096);
    BigEndian::write_u32(&mut bytes[10..], LONGEST);
    bytes
}
