//! When replies are passed on.

ghost use Rattle.std.specs.Io.KnownBytes.{Keeps};

use crate::constants::NBD_CMD_WRITE;
use crate::requests::parse_request;
use std::io;
use std::io::{BufReader, Read, Write};

/// A reader that tells what it has read ahead.
pub trait Ahead: Read {
    ghost use Rattle.std.specs.Prelude.{◌≡◌, IfErr, IfOk, IfSome, length};
    ghost use Rattle.std.specs.Io.{StartsWith};
    ghost use Rattle.std.specs.Io.KnownBytes.{Consumes};

    /// Returns the bytes that come next, as far as they are there already.
    fn ahead(&self) -> &[u8]
        ensures next { IfSome (Self.remaining self.now) (λ xs. StartsWith xs result.now) };

    /// Hands out the next `count` bytes, where they stand in memory of their own, for the memory that is given. Else it
    /// gives this memory back, and has read nothing.
    fn take_whole(&mut self, room: Vec<u8>, count: usize) -> Result<Vec<u8>, Vec<u8>>
        ensures long { IfOk result (λ bytes. length bytes.items ≡ count) }
        ensures taken { IfOk result (λ bytes. Consumes (Self.remaining self.old) (Self.remaining self.new) bytes.items) }
        ensures same { IfErr result (λ _. Self.remaining self.new ≡ Self.remaining self.old) }
    {
        let _count = count;
        Err(room)
    }

    /// Lets the reader read on while a command is carried out.
    fn read_on(&mut self)
        ensures same { Self.remaining self.new ≡ Self.remaining self.old }
    {}
}

impl<R: Read> Ahead for BufReader<R> {
    fn ahead(&self) -> &[u8] {
        self.buffer()
    }
}

/// Passes on what was written, unless two more writes are there already. The client is then woken less often, and it
/// still has these replies before the last of the writes is carried out.
///
/// # Errors
///
/// The errors of the writer.
pub(crate) fn pass_on<R: Ahead, W: Write>(input: &R, out: &mut W) -> io::Result<()>
    ensures { Keeps (W.contents out.old) (W.contents out.new) }
{
    if begins_with_two(input.ahead()) {
        return Ok(());
    }
    out.flush()
}

/// Whether these bytes begin with two writes.
fn begins_with_two(bytes: &[u8]) -> bool {
    match behind_write(bytes) {
        Some(rest) => behind_write(rest).is_some(),
        None => false,
    }
}

/// Returns the bytes behind the write that these begin with. It is all there, and it has no flags: it is soon done.
fn behind_write(bytes: &[u8]) -> Option<&[u8]> {
    let (header, rest) = bytes.split_at_checked(28)?;
    let request = parse_request(header)?;
    if request.kind != NBD_CMD_WRITE || request.flags != 0 {
        return None;
    }
    rest.get(request.count as usize..)
}
