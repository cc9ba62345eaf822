//! What is asked of a file.

use crate::record::Record;
use thiserror::Error;

/// Why a call failed.
#[derive(Debug, Clone, Copy, PartialEq, Eq, Error)]
pub enum Failure {
    /// The file can't be written.
    #[error("write protected")]
    Protected,
    /// There is no room for what was to be written.
    #[error("no room")]
    Full,
    /// The call failed in another way.
    #[error("failed")]
    Failed,
}

/// Bytes that are read and written by offset, with a record of the calls so far.
pub trait Storage {
    ghost use Rattle.std.specs.Prelude.{◌≡◌, ◌<◌, ◌≤◌, ◌∷◌, List, IfOk, length};
    ghost use Rattle.std.specs.Result.{result_err};
    ghost use Rattle.file_disk.specs.Calls.{Call, ReadAt, WriteAt, Sync, given};

    /// Each call so far with what it gave, the newest first.
    ghost calls: { Self → List Call };

    /// Reads into the first bytes of a buffer that has some, from byte `offset` on, and returns how many. With 0 none
    /// are left there.
    ///
    /// # Errors
    ///
    /// As [`Failure`] says.
    fn read_at(&mut self, offset: u64, buffer: &mut [u8]) -> Result<usize, Failure>
        requires some { 0 < length buffer.old }
        ensures count { IfOk result (λ n. n ≤ length buffer.old) }
        ensures noted { calls self.new ≡ ReadAt offset (length buffer.old) (given result buffer.new) ∷ calls self.old };

    /// Writes the first of these bytes, of which there are some, from byte `offset` on, and returns how many. With 0
    /// the storage takes no more.
    ///
    /// # Errors
    ///
    /// As [`Failure`] says.
    fn write_at(&mut self, offset: u64, bytes: &[u8]) -> Result<usize, Failure>
        requires some { 0 < length bytes.now }
        ensures count { IfOk result (λ n. n ≤ length bytes.now) }
        ensures noted { calls self.new ≡ WriteAt offset bytes.now result ∷ calls self.old };

    /// Brings what was written past volatile caches.
    ///
    /// # Errors
    ///
    /// As [`Failure`] says.
    fn sync(&mut self) -> Result<(), Failure>
        ensures noted { calls self.new ≡ Sync (result_err result) ∷ calls self.old };

    /// The record of the calls so far.
    fn record(&self) -> &Record
        ensures same { result.now.calls ≡ calls self.now };
}
