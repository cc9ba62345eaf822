//! Structured replies to requests, each of one chunk.

ghost use Rattle.std.specs.Prelude.{◌≡◌, ◌≤◌, ◌<◌, ◌+◌, ◌^◌, ◌++◌, length, OnOk};
ghost use Rattle.std.specs.Io.KnownBytes.{Appends};
ghost use Rattle.byteorder.specs.Endian.{big_bytes};
ghost use Rattle.nbd.specs.Replies.{error_number, outcome_of};
ghost use Rattle.nbd.specs.Chunks.{chunk, chunk_header, chunk_of, content_chunk, error_chunk, has_chunks, reply_in};

use crate::constants::{
    LONGEST, NBD_CMD_BLOCK_STATUS, NBD_CMD_READ, NBD_REPLY_FLAG_DONE, NBD_REPLY_TYPE_BLOCK_STATUS,
    NBD_REPLY_TYPE_ERROR, NBD_REPLY_TYPE_OFFSET_DATA, NBD_STRUCTURED_REPLY_MAGIC,
};
use crate::dialects::Dialect;
use crate::replies::{Answer, write_reply};
use crate::requests::{ReplyError, Request};
use byteorder::{BigEndian, ByteOrder};
use std::io;
use std::io::Write;

/// Writes the reply to a request.
///
/// # Errors
///
/// The errors of the writer.
pub(crate) fn write_reply_in<W: Write>(
    out: &mut W,
    dialect: Dialect,
    request: Request,
    answer: &Answer,
) -> io::Result<()>
    requires { length (outcome_of answer.now).content ≤ LONGEST }
    ensures { OnOk result (Appends (W.contents out.old) (W.contents out.new) (reply_in dialect request (outcome_of answer.now))) }
{
    match dialect {
        Dialect::Structured { .. } if has_chunks(request.kind) => write_chunk_of(
            out, request, answer,
        ),
        _ => write_reply(out, request.cookie, answer),
    }
}

/// Whether requests of this kind have structured replies.
fn has_chunks(kind: u16) -> bool
    ensures { result ≡ has_chunks kind }
{
    kind == NBD_CMD_READ || kind == NBD_CMD_BLOCK_STATUS
}

/// Writes the chunk by which a request is answered.
///
/// # Errors
///
/// The errors of the writer.
fn write_chunk_of<W: Write>(out: &mut W, request: Request, answer: &Answer) -> io::Result<()>
    requires { length (outcome_of answer.now).content ≤ LONGEST }
    ensures { OnOk result (Appends (W.contents out.old) (W.contents out.new) (chunk_of request (outcome_of answer.now))) }
{
    match answer {
        Answer::Done => write_content(out, request, &[]),
        Answer::Data(bytes) => write_content(out, request, bytes.as_slice()),
        Answer::Refused(error) => write_error(out, request.cookie, *error),
    }
}

/// Writes what a request brought.
///
/// # Errors
///
/// The errors of the writer.
pub(crate) fn write_content<W: Write>(
    out: &mut W,
    request: Request,
    content: &[u8],
) -> io::Result<()>
    requires { length content.now ≤ LONGEST }
    ensures { OnOk result (Appends (W.contents out.old) (W.contents out.new) (content_chunk request content.now)) }
{
    if request.kind == NBD_CMD_READ {
        write_data(out, request.cookie, request.offset, content)
    } else {
        write_chunk(out, NBD_REPLY_TYPE_BLOCK_STATUS, request.cookie, content)
    }
}

/// Writes the bytes from byte `offset` on that a request read.
///
/// # Errors
///
/// The errors of the writer.
fn write_data<W: Write>(out: &mut W, cookie: u64, offset: u64, content: &[u8]) -> io::Result<()>
    requires { length content.now ≤ LONGEST }
    ensures { OnOk result (Appends (W.contents out.old) (W.contents out.new) (chunk NBD_REPLY_TYPE_OFFSET_DATA cookie (big_bytes 8 offset ++ content.now))) }
{
    out.write_all(&data_header(cookie, offset, content.len() as u32))?;
    out.write_all(content)?;
    Ok(())
}

/// Writes why a request was not done.
///
/// # Errors
///
/// The errors of the writer.
pub(crate) fn write_error<W: Write>(out: &mut W, cookie: u64, error: ReplyError) -> io::Result<()>
    ensures { OnOk result (Appends (W.contents out.old) (W.contents out.new) (error_chunk cookie (error_number error))) }
{
    write_chunk(out, NBD_REPLY_TYPE_ERROR, cookie, &error_bytes(error))
}

/// The number of an error, and the length of its message, which has no bytes.
fn error_bytes(error: ReplyError) -> [u8; 6]
    ensures { result ≡ big_bytes 4 (error_number error) ++ big_bytes 2 0 }
{
    let mut bytes = [0; 6];
    BigEndian::write_u32(&mut bytes, error.number());
    bytes
}

/// Writes a chunk.
///
/// # Errors
///
/// The errors of the writer.
fn write_chunk<W: Write>(out: &mut W, kind: u16, cookie: u64, bytes: &[u8]) -> io::Result<()>
    requires { length bytes.now < 2 ^ 32 }
    ensures { OnOk result (Appends (W.contents out.old) (W.contents out.new) (chunk kind cookie bytes.now)) }
{
    out.write_all(&chunk_header(kind, cookie, bytes.len() as u32))?;
    out.write_all(bytes)?;
    Ok(())
}

/// The bytes in front of a chunk's data.
fn chunk_header(kind: u16, cookie: u64, count: u32) -> [u8; 20]
    ensures { result ≡ chunk_header kind cookie count }
{
    let mut bytes = [0; 20];
    BigEndian::write_u32(&mut bytes, NBD_STRUCTURED_REPLY_MAGIC);
    BigEndian::write_u16(&mut bytes[4..], NBD_REPLY_FLAG_DONE);
    BigEndian::write_u16(&mut bytes[6..], kind);
    BigEndian::write_u64(&mut bytes[8..], cookie);
    BigEndian::write_u32(&mut bytes[16..], count);
    bytes
}

/// The bytes in front of those that were read, so many from byte `offset` on.
fn data_header(cookie: u64, offset: u64, count: u32) -> [u8; 28]
    requires { count ≤ LONGEST }
    ensures { result ≡ chunk_header NBD_REPLY_TYPE_OFFSET_DATA cookie (8 + count) ++ big_bytes 8 offset }
{
    let mut bytes = [0; 28];
    bytes[..20].copy_from_slice(&chunk_header(NBD_REPLY_TYPE_OFFSET_DATA, cookie, 8 + count));
    BigEndian::write_u64(&mut bytes[20..], offset);
    bytes
}
