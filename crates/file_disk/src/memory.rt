//! A storage in memory.

ghost use Rattle.std.specs.Prelude.{◌≡◌, ◌≤◌, length};

use crate::record::Record;
use crate::storage::{Failure, Storage};

/// Bytes in memory, whose number never changes. It is for tests: it can be told how many bytes a call moves at most,
/// and which call fails.
#[derive(Drop)]
pub struct MemoryFile {
    bytes: Vec<u8>,
    /// The most bytes that a call moves.
    longest: usize,
    /// How many calls succeed before one fails.
    before: Option<u64>,
    /// Why every write fails, if it does.
    refused: Option<Failure>,
    noted: Record,
}

impl MemoryFile {
    /// A storage of these bytes.
    pub fn new(bytes: Vec<u8>) -> MemoryFile {
        MemoryFile {
            bytes,
            longest: usize::MAX,
            before: None,
            refused: None,
            noted: Record::new(),
        }
    }

    /// Makes each call move at most this many bytes.
    pub fn in_steps(self, longest: usize) -> MemoryFile {
        MemoryFile { longest, ..self }
    }

    /// Makes call number `before` fail, counted from 0.
    pub fn failing(self, before: u64) -> MemoryFile {
        MemoryFile {
            before: Some(before),
            ..self
        }
    }

    /// Makes every write fail, as a file does that can't be written.
    pub fn write_protected(self) -> MemoryFile {
        MemoryFile {
            refused: Some(Failure::Protected),
            ..self
        }
    }

    /// Makes every write fail, as one of a file does that has no room.
    pub fn full(self) -> MemoryFile {
        MemoryFile {
            refused: Some(Failure::Full),
            ..self
        }
    }

    /// Returns the bytes of the file.
    pub fn bytes(&self) -> &[u8] {
        self.bytes.as_slice()
    }

    /// Returns why the next write fails, if it does.
    fn refuses(&mut self) -> Option<Failure>
        ensures { self.new.noted ≡ self.old.noted }
    {
        if self.refused.is_some() {
            return self.refused;
        }
        match self.fails() {
            true => Some(Failure::Failed),
            false => None,
        }
    }

    /// Returns whether the next call fails, and counts it.
    fn fails(&mut self) -> bool
        ensures { self.new.noted ≡ self.old.noted }
    {
        let fails = self.before == Some(0);
        self.before = self.before.and_then(|before| before.checked_sub(1));
        fails
    }
}

/// Copies the bytes from `offset` on into the buffer, at most `longest`, and returns their number.
fn copy_from(bytes: &[u8], offset: u64, longest: usize, buffer: &mut [u8]) -> usize
    ensures { result ≤ length buffer.old }
{
    let first = offset.min(bytes.len() as u64) as usize;
    let count = (bytes.len() - first).min(buffer.len()).min(longest);
    buffer[..count].copy_from_slice(&bytes[first..first + count]);
    count
}

/// Copies the first bytes of `told` over those from `offset` on, at most `longest`, and returns their number.
fn copy_to(bytes: &mut [u8], offset: u64, longest: usize, told: &[u8]) -> usize
    ensures { result ≤ length told.now }
{
    let first = offset.min(bytes.len() as u64) as usize;
    let count = (bytes.len() - first).min(told.len()).min(longest);
    bytes[first..first + count].copy_from_slice(&told[..count]);
    count
}

impl Storage for MemoryFile {
    ghost calls = { λ f. f.noted.calls };

    fn read_at(&mut self, offset: u64, buffer: &mut [u8]) -> Result<usize, Failure> {
        let count = buffer.len() as u64;
        if self.fails() {
            self.noted.note_failed_read(offset, count, Failure::Failed);
            return Err(Failure::Failed);
        }
        let came = copy_from(self.bytes.as_slice(), offset, self.longest, buffer);
        self.noted.note_read(offset, count, &buffer[..came]);
        Ok(came)
    }

    fn write_at(&mut self, offset: u64, bytes: &[u8]) -> Result<usize, Failure> {
        if let Some(why) = self.refuses() {
            self.noted.note_failed_write(offset, bytes, why);
            return Err(why);
        }
        let took = copy_to(self.bytes.as_mut_slice(), offset, self.longest, bytes);
        self.noted.note_write(offset, bytes, took as u64);
        Ok(took)
    }

    fn sync(&mut self) -> Result<(), Failure> {
        if self.fails() {
            self.noted.note_failed_sync(Failure::Failed);
            return Err(Failure::Failed);
        }
        self.noted.note_sync();
        Ok(())
    }

    fn record(&self) -> &Record {
        &self.noted
    }
}
