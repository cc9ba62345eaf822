//! Replies to requests.

ghost use Rattle.std.specs.Prelude.{◌≡◌, OnOk};
ghost use Rattle.std.specs.Io.KnownBytes.{Appends};
ghost use Rattle.nbd.specs.Replies.{outcome_of, reply_bytes, simple_bytes};

use crate::constants::NBD_SIMPLE_REPLY_MAGIC;
use crate::requests::ReplyError;
use byteorder::{BigEndian, ByteOrder};
use std::io;
use std::io::Write;

/// How a request ended.
#[derive(Debug, Drop)]
pub enum Answer {
    Done,
    /// The request read these bytes.
    Data(Vec<u8>),
    Refused(ReplyError),
}

/// Writes the simple reply to the request of this cookie.
///
/// # Errors
///
/// The errors of the writer.
pub fn write_reply<W: Write>(out: &mut W, cookie: u64, answer: &Answer) -> io::Result<()>
    ensures { OnOk result (Appends (W.contents out.old) (W.contents out.new) (reply_bytes cookie (outcome_of answer.now))) }
{
    match answer {
        Answer::Done => write_simple(out, cookie, 0, &[]),
        Answer::Data(bytes) => write_simple(out, cookie, 0, bytes.as_slice()),
        Answer::Refused(error) => write_simple(out, cookie, error.number(), &[]),
    }
}

/// Writes a simple reply with this error, and these bytes behind it.
///
/// # Errors
///
/// The errors of the writer.
fn write_simple<W: Write>(out: &mut W, cookie: u64, error: u32, content: &[u8]) -> io::Result<()>
    ensures { OnOk result (Appends (W.contents out.old) (W.contents out.new) (reply_bytes cookie (record { error = error; content = content.now }))) }
{
    out.write_all(&simple_reply(cookie, error))?;
    out.write_all(content)?;
    Ok(())
}

/// The bytes of a reply in front of what its request brought.
fn simple_reply(cookie: u64, error: u32) -> [u8; 16]
    ensures { result ≡ simple_bytes cookie error }
{
    let mut bytes = [0; 16];
    BigEndian::write_u32(&mut bytes, NBD_SIMPLE_REPLY_MAGIC);
    BigEndian::write_u32(&mut bytes[4..], error);
    BigEndian::write_u64(&mut bytes[8..], cookie);
    bytes
}
