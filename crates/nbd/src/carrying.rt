//! What requests do to an array.

ghost use Rattle.std.specs.Prelude.{◌≡◌, ◌≤◌, ◌<◌, ◌^◌, length, replicate, IfErr, IfOk, MatchResult};
ghost use Rattle.std.specs.Bool.{OnTrue};
ghost use Rattle.nbd.specs.Content.{AreInBounds, IsBlockSize, IsSameOutside, written};
ghost use Rattle.nbd.specs.Replies.{outcome_of};
ghost use Rattle.nbd.specs.Carrying.{Clears, Flushes, Gets, IsFailure, Puts, error_of};
ghost use Rattle.nbd.specs.inside.Carrying.{IsCarried, IsServed, IsWritten};
ghost use Rattle.nbd.specs.Requests.{IsWithin};

use crate::End;
use crate::arrays::{Array, ArrayFault};
use crate::constants::LONGEST;
use crate::replies::Answer;
use crate::requests::{Command, ReplyError, Request, command_of, payload_count};
use crate::standing::{are_zeros, may_leave_out, stand_there};
use crate::streams::{skip, take_all, zeros};
use std::alloc::Global;
use std::io::Read;

/// How many zeros are written at once: whole blocks of either size.
const PIECE: u32 = 1_048_576;

/// Does what a request asks for, if it may be done. The bytes behind it are taken in each case.
///
/// # Errors
///
/// [`End::Input`] where the bytes behind it don't come. The array is then as it was.
pub(crate) fn serve_request<R: Read, A: Array>(
    alloc: Global,
    array: &mut A,
    input: &mut R,
    request: Request,
) -> Result<Answer, End>
    ensures short { IfOk result (λ answer. length (outcome_of answer).content ≤ LONGEST) }
    ensures served { IfOk result (λ answer. IsServed A.fails request (A.content array.old) (R.remaining input.old) (R.remaining input.new) (outcome_of answer) (A.content array.new)) }
    ensures ended { IfErr result (λ end. (end ≡ End.Input) × (A.content array.new ≡ A.content array.old)) }
{
    match command_of(request, array.sizes()) {
        Err(error) => {
            skip(input, payload_count(request))?;
            Ok(Answer::Refused(error))
        }
        Ok(command) => {
            let answer = carry_out(alloc, array, input, command)?;
            Ok(answer)
        }
    }
}

/// Carries a command out.
///
/// # Errors
///
/// [`End::Input`] where the bytes behind its request don't come.
fn carry_out<R: Read, A: Array>(
    alloc: Global,
    array: &mut A,
    input: &mut R,
    command: Command,
) -> Result<Answer, End>
    requires within { IsWithin (A.content array.old).block (length (A.content array.old).bytes) command }
    requires block { IsBlockSize (A.content array.old).block }
    requires small { length (A.content array.old).bytes < 2 ^ 64 }
    ensures short { IfOk result (λ answer. length (outcome_of answer).content ≤ LONGEST) }
    ensures carried { IfOk result (λ answer. IsCarried A.fails command (A.content array.old) (R.remaining input.old) (R.remaining input.new) (outcome_of answer) (A.content array.new)) }
    ensures ended { IfErr result (λ end. (end ≡ End.Input) × (A.content array.new ≡ A.content array.old)) }
{
    match command {
        Command::Read { offset, count } => Ok(read(alloc, array, offset, count)),
        Command::Write {
            offset,
            count,
            through,
        } => write(
            alloc,
            array,
            input,
            WriteCommand {
                offset,
                count,
                through,
            },
        ),
        Command::Flush => Ok(flush(alloc, array)),
        Command::WriteZeroes {
            offset,
            count,
            through,
        } => Ok(clear(alloc, array, offset, count, through)),
    }
}

/// Reads `count` bytes from byte `offset` on.
fn read<A: Array>(alloc: Global, array: &mut A, offset: u64, count: u32) -> Answer
    requires in_bounds { AreInBounds (A.content array.old).block (length (A.content array.old).bytes) offset count }
    requires short { count ≤ LONGEST }
    ensures gets { Gets A.fails (A.content array.old) offset count (outcome_of result) (A.content array.new) }
    ensures few { length (outcome_of result).content ≤ LONGEST }
{
    let Some(buffer) = zeros(alloc, count) else {
        return Answer::Refused(ReplyError::Enomem);
    };
    match array.read(alloc, offset, buffer) {
        Ok(bytes) => Answer::Data(bytes),
        Err(fault) => Answer::Refused(error_of(fault)),
    }
}

/// What a write asks for (NBD_CMD_WRITE): `count` bytes from byte `offset` on, past volatile caches if `through`
/// (NBD_CMD_FLAG_FUA).
#[derive(Clone, Copy)]
struct WriteCommand {
    offset: u64,
    count: u32,
    through: bool,
}

/// Writes the bytes that come.
///
/// # Errors
///
/// [`End::Input`] where the bytes don't come.
fn write<R: Read, A: Array>(
    alloc: Global,
    array: &mut A,
    input: &mut R,
    asked: WriteCommand,
) -> Result<Answer, End>
    requires in_bounds { AreInBounds (A.content array.old).block (length (A.content array.old).bytes) asked.offset asked.count }
    requires short { asked.count ≤ LONGEST }
    ensures few { IfOk result (λ answer. length (outcome_of answer).content ≤ LONGEST) }
    ensures written { IfOk result (λ answer. IsWritten A.fails asked.offset asked.count (A.content array.old) (R.remaining input.old) (R.remaining input.new) (outcome_of answer) (A.content array.new)) }
    ensures ended { IfErr result (λ end. (end ≡ End.Input) × (A.content array.new ≡ A.content array.old)) }
{
    let WriteCommand {
        offset,
        count,
        through,
    } = asked;
    match take_all(alloc, input, count)? {
        Some(bytes) => Ok(put(alloc, array, offset, bytes, through)),
        None => Ok(Answer::Refused(ReplyError::Enomem)),
    }
}

/// Writes bytes from byte `offset` on.
fn put<A: Array>(alloc: Global, array: &mut A, offset: u64, bytes: Vec<u8>, through: bool) -> Answer
    requires in_bounds { AreInBounds (A.content array.old).block (length (A.content array.old).bytes) offset (length bytes.items) }
    requires short { length bytes.items ≤ LONGEST }
    ensures puts { Puts A.fails (A.content array.old) offset bytes.items (outcome_of result) (A.content array.new) }
    ensures few { length (outcome_of result).content ≤ LONGEST }
{
    if needs_no_write(alloc, array, offset, bytes.as_slice(), through) {
        return Answer::Done;
    }
    match array.write(alloc, offset, bytes, through) {
        Ok(()) => Answer::Done,
        Err(fault) => Answer::Refused(error_of(fault)),
    }
}

/// Writes `count` zeros from byte `offset` on.
fn clear<A: Array>(alloc: Global, array: &mut A, offset: u64, count: u32, through: bool) -> Answer
    requires in_bounds { AreInBounds (A.content array.old).block (length (A.content array.old).bytes) offset count }
    requires block { IsBlockSize (A.content array.old).block }
    requires small { length (A.content array.old).bytes < 2 ^ 64 }
    ensures clears { Clears A.fails (A.content array.old) offset count (outcome_of result) (A.content array.new) }
    ensures few { length (outcome_of result).content ≤ LONGEST }
{
    let mut done = 0;
    while done < count {
        let piece = (count - done).min(PIECE);
        if let Err(error) = clear_piece(alloc, array, offset + done as u64, piece, through) {
            return Answer::Refused(error);
        }
        done += piece;
    }
    Answer::Done
}

/// Writes a piece of zeros.
///
/// # Errors
///
/// Why the piece was not written.
fn clear_piece<A: Array>(
    alloc: Global,
    array: &mut A,
    offset: u64,
    count: u32,
    through: bool,
) -> Result<(), ReplyError>
    requires in_bounds { AreInBounds (A.content array.old).block (length (A.content array.old).bytes) offset count }
    requires short { count ≤ LONGEST }
    ensures cleared { MatchResult result (λ _. A.content array.new ≡ written (A.content array.old) offset (replicate count 0)) (λ error. IsFailure A.fails (A.content array.old) error (A.content array.new)) }
    ensures outside { IfErr result (λ _. IsSameOutside (A.content array.old) offset count (A.content array.new)) }
{
    let Some(zeros) = zeros(alloc, count) else {
        return Err(ReplyError::Enomem);
    };
    if needs_no_write(alloc, array, offset, zeros.as_slice(), through) {
        return Ok(());
    }
    match array.write(alloc, offset, zeros, through) {
        Ok(()) => Ok(()),
        Err(fault) => Err(error_of(fault)),
    }
}

/// Whether the bytes are zeros that stand there already, so that a write would only take memory for them.
fn needs_no_write<A: Array>(
    alloc: Global,
    array: &mut A,
    offset: u64,
    bytes: &[u8],
    through: bool,
) -> bool
    requires in_bounds { AreInBounds (A.content array.old).block (length (A.content array.old).bytes) offset (length bytes.now) }
    requires short { length bytes.now ≤ LONGEST }
    ensures there { OnTrue result (A.content array.old ≡ written (A.content array.old) offset bytes.now) }
    ensures same { A.content array.new ≡ A.content array.old }
{
    if !may_leave_out(array, through) || !are_zeros(bytes) {
        return false;
    }
    stand_there(alloc, array, offset, bytes)
}

/// Brings what was written past volatile caches.
fn flush<A: Array>(alloc: Global, array: &mut A) -> Answer
    ensures flushes { Flushes A.fails (A.content array.old) (outcome_of result) (A.content array.new) }
    ensures few { length (outcome_of result).content ≤ LONGEST }
{
    match array.flush(alloc) {
        Ok(()) => Answer::Done,
        Err(fault) => Answer::Refused(error_of(fault)),
    }
}

/// The error by which a fault is answered.
fn error_of(fault: ArrayFault) -> ReplyError
    ensures { result ≡ error_of fault }
{
    match fault {
        ArrayFault::NoMemory => ReplyError::Enomem,
        ArrayFault::Protected => ReplyError::Eperm,
        ArrayFault::Gone => ReplyError::Eshutdown,
        ArrayFault::Failed => ReplyError::Eio,
    }
}
