//! The bytes of a piece, moved by as many calls as that takes.

ghost use Rattle.std.specs.Prelude.{◌≡◌, ◌<◌, ◌+◌, ◌^◌, length, MatchResult};
ghost use Rattle.file_disk.specs.Calls.{ReadsAll, StopsReading, WritesAll, StopsWriting, Since};

use crate::storage::{Failure, Storage};

/// Fills the buffer from byte `offset` on, to an end below 2^64.
///
/// # Errors
///
/// The failure of the call that failed, or [`Failure::Failed`] where one gave nothing.
pub fn read_all<S: Storage>(storage: &mut S, offset: u64, buffer: &mut [u8]) -> Result<(), Failure>
    requires { offset + length buffer.old < 2 ^ 64 }
    ensures { MatchResult result (λ _. Since (S.calls storage.old) (S.calls storage.new) (ReadsAll offset buffer.new)) (λ why. Since (S.calls storage.old) (S.calls storage.new) (StopsReading offset (length buffer.old) why)) }
{
    let mut done = 0;
    while done < buffer.len() {
        let count = storage.read_at(offset + done as u64, &mut buffer[done..])?;
        if count == 0 {
            return Err(Failure::Failed);
        }
        done += count;
    }
    Ok(())
}

/// Writes all bytes from byte `offset` on, to an end below 2^64.
///
/// # Errors
///
/// The failure of the call that failed, or [`Failure::Failed`] where one took nothing.
pub fn write_all<S: Storage>(storage: &mut S, offset: u64, bytes: &[u8]) -> Result<(), Failure>
    requires { offset + length bytes.now < 2 ^ 64 }
    ensures { MatchResult result (λ _. Since (S.calls storage.old) (S.calls storage.new) (WritesAll offset bytes.now)) (λ why. Since (S.calls storage.old) (S.calls storage.new) (StopsWriting offset bytes.now why)) }
{
    let mut done = 0;
    while done < bytes.len() {
        let count = storage.write_at(offset + done as u64, &bytes[done..])?;
        if count == 0 {
            return Err(Failure::Failed);
        }
        done += count;
    }
    Ok(())
}
