//! What is said before a client's requests.

ghost use Rattle.std.specs.Prelude.{◌≡◌, [], length, IfErr, IfOk, OnOk};
ghost use Rattle.std.specs.Io.KnownBytes.{Appends};
ghost use Rattle.nbd.specs.declared.options.Next.TheVariants.{Requests};
ghost use Rattle.nbd.specs.Options.{greeting, replies_to};
ghost use Rattle.nbd.specs.Session.{IsTold};
ghost use Rattle.nbd.specs.Handshake.{EndsGreeting, EndsUnasked, Opens};
ghost use Rattle.nbd.specs.inside.Handshake.{AsksOnce, EndsHaggling, EndsUnaskedIn, Greets, Haggles, OpensIn, TakesLastOption};

use crate::End;
use crate::arrays::Sizes;
use crate::constants::{
    IHAVEOPT, LONGEST_OPTION, NBD_FLAG_C_FIXED_NEWSTYLE, NBD_FLAG_C_NO_ZEROES,
    NBD_FLAG_FIXED_NEWSTYLE, NBD_FLAG_NO_ZEROES, NBDMAGIC,
};
use crate::dialects::Dialect;
use crate::options::{Next, Wish, next_option, write_replies};
use crate::streams::take;
use byteorder::{BigEndian, ByteOrder};
use std::io::{Read, Write};

/// Greets a client and answers its options, of an export of these sizes, up to its first request. Simple replies are
/// offered, and no others.
///
/// # Errors
///
/// How the session ended before.
pub fn begin<R: Read, W: Write>(input: &mut R, out: &mut W, sizes: Sizes) -> Result<(), End>
    ensures opened { OnOk result (Opens sizes (R.remaining input.old) (W.contents out.old) (R.remaining input.new) (W.contents out.new)) }
    ensures ended { IfErr result (λ end. EndsUnasked sizes (R.remaining input.old) (W.contents out.old) end (W.contents out.new)) }
{
    match begin_in(input, out, sizes, Dialect::Plain) {
        Ok(_) => Ok(()),
        Err(end) => Err(end),
    }
}

/// Greets a client and answers its options as [`begin`] does, from this dialect on, and returns that of its requests.
///
/// # Errors
///
/// How the session ended before.
pub(crate) fn begin_in<R: Read, W: Write>(
    input: &mut R,
    out: &mut W,
    sizes: Sizes,
    dialect: Dialect,
) -> Result<Dialect, End>
    ensures opened { IfOk result (OpensIn sizes dialect (R.remaining input.old) (W.contents out.old) (R.remaining input.new) (W.contents out.new)) }
    ensures ended { IfErr result (λ end. EndsUnaskedIn sizes dialect (R.remaining input.old) (W.contents out.old) end (W.contents out.new)) }
{
    match greet(input, out) {
        Ok(no_zeroes) => answer_options(input, out, Offer { sizes, no_zeroes }, dialect),
        Err(end) => Err(end),
    }
}

/// What options are answered by.
#[derive(Clone, Copy)]
struct Offer {
    sizes: Sizes,
    /// Whether the client wants no zeros behind the reply to NBD_OPT_EXPORT_NAME.
    no_zeroes: bool,
}

/// Greets, and takes the client's flags: whether it wants no zeros behind the reply to NBD_OPT_EXPORT_NAME.
///
/// # Errors
///
/// [`End::Malformed`] where there is a flag that isn't known, [`End::Input`], [`End::Output`].
fn greet<R: Read, W: Write>(input: &mut R, out: &mut W) -> Result<bool, End>
    ensures greeted { IfOk result (Greets (R.remaining input.old) (W.contents out.old) (R.remaining input.new) (W.contents out.new)) }
    ensures ended { IfErr result (λ end. EndsGreeting (R.remaining input.old) (W.contents out.old) end (W.contents out.new)) }
{
    let written = out.write_all(&greeting_bytes());
    if written.is_err() || out.flush().is_err() {
        return Err(End::Output);
    }
    let mut bytes = [0; 4];
    take(input, &mut bytes)?;
    let flags = BigEndian::read_u32(&bytes);
    if flags & KNOWN_FLAGS != flags {
        return Err(End::Malformed);
    }
    Ok(flags & NBD_FLAG_C_NO_ZEROES != 0)
}

/// The flags that a client may send.
const KNOWN_FLAGS: u32 = NBD_FLAG_C_FIXED_NEWSTYLE + NBD_FLAG_C_NO_ZEROES;

/// The server's first bytes.
fn greeting_bytes() -> [u8; 18]
    ensures { result ≡ greeting }
{
    let mut bytes = [0; 18];
    BigEndian::write_u64(&mut bytes, NBDMAGIC);
    BigEndian::write_u64(&mut bytes[8..], IHAVEOPT);
    BigEndian::write_u16(
        &mut bytes[16..],
        NBD_FLAG_FIXED_NEWSTYLE + NBD_FLAG_NO_ZEROES,
    );
    bytes
}

/// Answers options until one leads to requests, and returns the dialect of these.
///
/// # Errors
///
/// How the session ends.
fn answer_options<R: Read, W: Write>(
    input: &mut R,
    out: &mut W,
    offer: Offer,
    dialect: Dialect,
) -> Result<Dialect, End>
    ensures opened { IfOk result (λ spoken. Haggles offer.sizes offer.no_zeroes dialect (R.remaining input.old) (W.contents out.old) (R.remaining input.new) (W.contents out.new) spoken Requests) }
    ensures ended { IfErr result (λ end. EndsHaggling offer.sizes offer.no_zeroes dialect (R.remaining input.old) (W.contents out.old) end (W.contents out.new)) }
{
    let mut buffer = [0; LONGEST_OPTION as usize];
    haggle(input, out, offer, dialect, &mut buffer)
}

/// Answers options until one leads to requests, and returns the dialect of these. The buffer takes the options' data.
///
/// # Errors
///
/// How the session ends.
fn haggle<R: Read, W: Write>(
    input: &mut R,
    out: &mut W,
    offer: Offer,
    dialect: Dialect,
    buffer: &mut [u8],
) -> Result<Dialect, End>
    requires { length buffer.old ≡ LONGEST_OPTION }
    ensures opened { IfOk result (λ spoken. Haggles offer.sizes offer.no_zeroes dialect (R.remaining input.old) (W.contents out.old) (R.remaining input.new) (W.contents out.new) spoken Requests) }
    ensures ended { IfErr result (λ end. EndsHaggling offer.sizes offer.no_zeroes dialect (R.remaining input.old) (W.contents out.old) end (W.contents out.new)) }
{
    let mut now = dialect;
    for _ in 0..u64::MAX {
        match haggle_once(input, out, offer, &mut now, buffer) {
            Ok(Next::Options) => {}
            Ok(Next::Requests) => return Ok(now),
            Ok(Next::Ended(end)) => return Err(end),
            Err(end) => return Err(end),
        }
    }
    Err(End::Input)
}

/// Answers an option, and returns what comes then.
///
/// # Errors
///
/// How the session ends.
fn haggle_once<R: Read, W: Write>(
    input: &mut R,
    out: &mut W,
    offer: Offer,
    dialect: &mut Dialect,
    buffer: &mut [u8],
) -> Result<Next, End>
    requires { length buffer.old ≡ LONGEST_OPTION }
    ensures asked { IfOk result (AsksOnce offer.sizes offer.no_zeroes dialect.old (R.remaining input.old) (W.contents out.old) (R.remaining input.new) (W.contents out.new) dialect.new) }
    ensures ended { IfErr result (TakesLastOption (R.remaining input.old)) }
    ensures told { IfErr result (λ end. IsTold end (W.contents out.old) (W.contents out.new) []) }
{
    let (code, wish) = next_option(input, buffer)?;
    reply(out, offer, code, dialect.hear(wish))?;
    *dialect = dialect.next(code, wish);
    Ok(wish.next())
}

/// Writes the replies to an option, and passes them on.
///
/// # Errors
///
/// [`End::Output`].
fn reply<W: Write>(out: &mut W, offer: Offer, code: u32, wish: Wish) -> Result<(), End>
    ensures told { OnOk result (Appends (W.contents out.old) (W.contents out.new) (replies_to offer.sizes offer.no_zeroes code wish)) }
    ensures ended { IfErr result (λ end. end ≡ End.Output) }
{
    let written = write_replies(out, offer.sizes, offer.no_zeroes, code, wish);
    if written.is_err() || out.flush().is_err() {
        return Err(End::Output);
    }
    Ok(())
}
