//! Bytes from a reader.

ghost use Rattle.std.specs.Prelude.{◌≡◌, ◌≤◌, ◌<◌, IsNone, IfErr, IfOk, IfSome, MatchOption, OnOk, length, replicate};
ghost use Rattle.std.specs.Io.KnownBytes.{Consumes};
ghost use Rattle.nbd.specs.inside.Streams.{Skips, Takes};

use crate::End;
use crate::constants::LONGEST;
use crate::waiting::Ahead;
use std::alloc::Global;
use std::io::Read;

/// How many bytes are skipped at once.
const SKIPPED: u32 = 512;

/// How many bytes of a long write are read last, with those behind it that the reader has room for.
const LAST: usize = 4_096;

/// Fills the buffer.
///
/// # Errors
///
/// [`End::Input`].
pub(crate) fn take<R: Read>(input: &mut R, buffer: &mut [u8]) -> Result<(), End>
    ensures taken { OnOk result (Consumes (R.remaining input.old) (R.remaining input.new) buffer.new) }
    ensures ended { IfErr result (λ end. end ≡ End.Input) }
{
    match input.read_exact(buffer) {
        Ok(()) => Ok(()),
        Err(_) => Err(End::Input),
    }
}

/// Fills the buffer, its last bytes by a read of their own. A reader with a buffer of its own then takes what comes behind
/// them too, so that the client can send on before these bytes are used.
///
/// # Errors
///
/// [`End::Input`].
pub fn take_in_two<R: Read>(input: &mut R, buffer: &mut [u8]) -> Result<(), End>
    ensures taken { OnOk result (Consumes (R.remaining input.old) (R.remaining input.new) buffer.new) }
    ensures ended { IfErr result (λ end. end ≡ End.Input) }
{
    let apart = buffer.len().saturating_sub(LAST);
    let (first, last) = buffer.split_at_mut(apart);
    take(input, first)?;
    take(input, last)
}

/// Passes over this many bytes.
///
/// # Errors
///
/// [`End::Input`].
pub(crate) fn skip<R: Read>(input: &mut R, count: u32) -> Result<(), End>
    ensures taken { OnOk result (Skips count (R.remaining input.old) (R.remaining input.new)) }
    ensures ended { IfErr result (λ end. end ≡ End.Input) }
{
    let mut left = count;
    while left > 0 {
        let piece = left.min(SKIPPED);
        skip_piece(input, piece)?;
        left -= piece;
    }
    Ok(())
}

/// Passes over this many bytes, at most as many as are skipped at once.
///
/// # Errors
///
/// [`End::Input`].
fn skip_piece<R: Read>(input: &mut R, count: u32) -> Result<(), End>
    requires { count ≤ 512 }
    ensures taken { OnOk result (Skips count (R.remaining input.old) (R.remaining input.new)) }
    ensures ended { IfErr result (λ end. end ≡ End.Input) }
{
    let mut buffer = [0; 512];
    take(input, &mut buffer[..count as usize])
}

/// Returns this many zeros, or nothing where memory was refused.
pub(crate) fn zeros(alloc: Global, count: u32) -> Option<Vec<u8>>
    requires { count ≤ LONGEST }
    ensures { IfSome result (λ bytes. bytes.items ≡ replicate count 0) }
{
    vec![in alloc; 0; count as usize].ok()
}

/// Reads this many bytes. Where memory is refused they are passed over, and it returns nothing.
///
/// # Errors
///
/// [`End::Input`].
pub(crate) fn take_all<R: Read>(
    alloc: Global,
    input: &mut R,
    count: u32,
) -> Result<Option<Vec<u8>>, End>
    requires { count ≤ LONGEST }
    ensures taken { IfOk result (λ found. MatchOption found (Skips count (R.remaining input.old) (R.remaining input.new)) (λ bytes. Takes count (R.remaining input.old) (R.remaining input.new) bytes.items)) }
    ensures ended { IfErr result (λ end. end ≡ End.Input) }
{
    let Some(mut bytes) = zeros(alloc, count) else {
        skip(input, count)?;
        return Ok(None);
    };
    take(input, bytes.as_mut_slice())?;
    Ok(Some(bytes))
}

/// Returns memory that was kept with room for this many bytes, or nothing where more is refused.
fn sized(kept: Vec<u8>, count: u32) -> Option<Vec<u8>>
    ensures room { IfSome result (λ room. length room.items ≡ count) }
    ensures none { IsNone result → 0 < count }
{
    let mut room = kept;
    match room.resize(count as usize, 0) {
        Ok(()) => Some(room),
        Err(_) => None,
    }
}

/// Reads this many bytes into memory that was kept. Where more is refused they are passed over, and it returns nothing.
///
/// # Errors
///
/// [`End::Input`].
pub(crate) fn take_all_in<R: Ahead>(
    kept: Vec<u8>,
    input: &mut R,
    count: u32,
) -> Result<Option<Vec<u8>>, End>
    ensures none { IfOk result (λ found. IsNone found → 0 < count) }
    ensures taken { IfOk result (λ found. MatchOption found (Skips count (R.remaining input.old) (R.remaining input.new)) (λ bytes. Takes count (R.remaining input.old) (R.remaining input.new) bytes.items)) }
    ensures ended { IfErr result (λ end. end ≡ End.Input) }
{
    let room = match input.take_whole(kept, count as usize) {
        Ok(bytes) => return Ok(Some(bytes)),
        Err(room) => room,
    };
    let Some(mut room) = sized(room, count) else {
        skip(input, count)?;
        return Ok(None);
    };
    take_in_two(input, room.as_mut_slice())?;
    Ok(Some(room))
}
