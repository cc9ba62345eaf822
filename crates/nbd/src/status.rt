//! Which bytes of an array are known to be zeros.

ghost use Rattle.std.specs.Prelude.{◌≡◌, ◌+◌, if◌then◌else◌, IfErr, OnOk};
ghost use Rattle.std.specs.Io.KnownBytes.{Appends};
ghost use Rattle.nbd.specs.Chunks.{chunk_of};
ghost use Rattle.nbd.specs.Status.{TellsStatus, run_bytes};
ghost use Rattle.nbd.specs.inside.Status.{IsStatusTold, status_outcome};

use crate::End;
use crate::arrays::{Array, Run};
use crate::chunks::{write_content, write_error};
use crate::constants::{NBD_STATE_HOLE, NBD_STATE_ZERO};
use crate::requests::{ReplyError, Request, check_status};
use byteorder::{BigEndian, ByteOrder};
use std::io;
use std::io::Write;

/// Tells what is known of the bytes that a request names.
///
/// # Errors
///
/// [`End::Output`].
pub(crate) fn tell_status<A: Array, W: Write>(
    array: &A,
    out: &mut W,
    request: Request,
) -> Result<(), End>
    ensures told { OnOk result (IsStatusTold (A.content array.now) request (W.contents out.old) (W.contents out.new)) }
    ensures ended { IfErr result (λ end. end ≡ End.Output) }
{
    let status = status_of(array, request);
    let written = write_status(out, request, status);
    if written.is_err() || out.flush().is_err() {
        return Err(End::Output);
    }
    Ok(())
}

/// Returns the first run of the bytes that a request names.
///
/// # Errors
///
/// [`ReplyError::Einval`] where a flag is set that isn't known, or the bytes aren't whole blocks of the array.
fn status_of<A: Array>(array: &A, request: Request) -> Result<Run, ReplyError>
    ensures { TellsStatus (A.content array.now) request (status_outcome result) }
{
    check_status(request, array.sizes())?;
    Ok(array.run(request.offset, request.count))
}

/// Writes the reply to a request that asked for a run.
///
/// # Errors
///
/// The errors of the writer.
fn write_status<W: Write>(
    out: &mut W,
    request: Request,
    status: Result<Run, ReplyError>,
) -> io::Result<()>
    ensures { OnOk result (Appends (W.contents out.old) (W.contents out.new) (chunk_of request (status_outcome status))) }
{
    match status {
        Ok(run) => write_content(out, request, &run_bytes(run)),
        Err(error) => write_error(out, request.cookie, error),
    }
}

/// The bytes that tell of a run: the number of the context, how many bytes it has, and what they are.
fn run_bytes(run: Run) -> [u8; 12]
    ensures { result ≡ run_bytes run }
{
    let mut bytes = [0; 12];
    BigEndian::write_u32(&mut bytes, 1);
    BigEndian::write_u32(&mut bytes[4..], run.count);
    BigEndian::write_u32(&mut bytes[8..], state_of(run.are_zeros));
    bytes
}

/// What bytes are that are known to be zeros, or aren't.
fn state_of(are_zeros: bool) -> u32
    ensures { result ≡ (if are_zeros then NBD_STATE_HOLE + NBD_STATE_ZERO else 0) }
{
    if are_zeros {
        NBD_STATE_HOLE + NBD_STATE_ZERO
    } else {
        0
    }
}
