//! A file of the system as a storage. Each method makes a call of the system, a read or a write again where a signal
//! interrupted it, and then notes it once with what it gave. Of a file that was just made, zeros behind all that was
//! written so far are noted as written, and aren't: the file reads so there, also after a loss of power.

ghost use Rattle.std.specs.Prelude.{◌≡◌, ◌≤◌, [], length, IfOk};
ghost use Rattle.std.specs.IoError.{error_kind, raw_os_error};
ghost use Rattle.file_disk.specs.Failing.{IsMeant, failure_of_kind};

use crate::record::Record;
use crate::storage::{Failure, Storage};
use crate::untouched::Untouched;
use std::alloc::{AllocError, Global};
use std::fs::File;
use std::io;
use std::io::ErrorKind;
use std::os::unix::fs::FileExt;

/// How often a call that signals interrupt is made at most.
const TRIES: u32 = 16;

/// EBADF of Linux: a descriptor that isn't open for what is asked of it.
const EBADF: i32 = 9;

/// An open file that nobody else reads or writes.
#[derive(Drop)]
pub struct DiskFile {
    file: File,
    untouched: Untouched,
    noted: Record,
}

impl DiskFile {
    /// A storage in an open file.
    pub fn new(file: File) -> DiskFile {
        DiskFile {
            file,
            untouched: Untouched::unknown(),
            noted: Record::new(),
        }
    }

    /// A storage in a file that was just made, whose bytes are all zeros that nobody wrote.
    ///
    /// # Errors
    ///
    /// Where memory was refused.
    pub fn made(alloc: Global, file: File) -> Result<DiskFile, AllocError> {
        Ok(DiskFile {
            file,
            untouched: Untouched::all(alloc)?,
            noted: Record::new(),
        })
    }

    /// The same open file for another thread, with a record of its own.
    ///
    /// # Errors
    ///
    /// Those of the system; [`ErrorKind::OutOfMemory`].
    pub fn another(&self) -> io::Result<DiskFile> {
        let Ok(untouched) = self.untouched.another() else {
            return Err(io::Error::from(ErrorKind::OutOfMemory));
        };
        Ok(DiskFile {
            file: self.file.try_clone()?,
            untouched,
            noted: Record::new(),
        })
    }
}

/// Returns what a failed call means.
fn failure_of(error: &io::Error) -> Failure
    ensures { IsMeant (raw_os_error error.now) (error_kind error.now) result }
{
    match error.raw_os_error() {
        Some(EBADF) => Failure::Protected,
        _ => failure_of_kind(error.kind()),
    }
}

/// Returns what a failure of this kind means.
fn failure_of_kind(kind: ErrorKind) -> Failure
    ensures { result ≡ failure_of_kind kind }
{
    match kind {
        ErrorKind::PermissionDenied | ErrorKind::ReadOnlyFilesystem => Failure::Protected,
        ErrorKind::StorageFull | ErrorKind::QuotaExceeded => Failure::Full,
        _ => Failure::Failed,
    }
}

fn read(file: &File, offset: u64, buffer: &mut [u8]) -> Result<usize, Failure>
    ensures { IfOk result (λ n. n ≤ length buffer.old) }
{
    for _ in 0..TRIES {
        match file.read_at(buffer, offset) {
            Ok(count) => return Ok(count),
            Err(error) if error.kind() == ErrorKind::Interrupted => {}
            Err(error) => return Err(failure_of(&error)),
        }
    }
    Err(Failure::Failed)
}

fn write(file: &File, untouched: &Untouched, offset: u64, bytes: &[u8]) -> Result<usize, Failure>
    ensures { IfOk result (λ n. n ≤ length bytes.now) }
{
    if untouched.has(offset, bytes) {
        return Ok(bytes.len());
    }
    for _ in 0..TRIES {
        match file.write_at(bytes, offset) {
            Ok(count) => return Ok(count),
            Err(error) if error.kind() == ErrorKind::Interrupted => {}
            Err(error) => return Err(failure_of(&error)),
        }
    }
    Err(Failure::Failed)
}

impl Storage for DiskFile {
    ghost calls = { λ f. f.noted.calls };

    fn read_at(&mut self, offset: u64, buffer: &mut [u8]) -> Result<usize, Failure> {
        let count = buffer.len() as u64;
        match read(&self.file, offset, buffer) {
            Ok(came) => {
                self.noted.note_read(offset, count, &buffer[..came]);
                Ok(came)
            }
            Err(why) => {
                self.noted.note_failed_read(offset, count, why);
                Err(why)
            }
        }
    }

    fn write_at(&mut self, offset: u64, bytes: &[u8]) -> Result<usize, Failure> {
        match write(&self.file, &self.untouched, offset, bytes) {
            Ok(took) => {
                self.noted.note_write(offset, bytes, took as u64);
                Ok(took)
            }
            Err(why) => {
                self.noted.note_failed_write(offset, bytes, why);
                Err(why)
            }
        }
    }

    fn sync(&mut self) -> Result<(), Failure> {
        match self.file.sync_data() {
            Ok(()) => {
                self.noted.note_sync();
                Ok(())
            }
            Err(error) => {
                let why = failure_of(&error);
                self.noted.note_failed_sync(why);
                Err(why)
            }
        }
    }

    fn record(&self) -> &Record {
        &self.noted
    }
}
