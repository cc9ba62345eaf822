//! The calls of a storage, which contracts alone read.

ghost use Rattle.std.specs.Prelude.{◌≡◌, ◌==◌, false, [], ◌∷◌, List, None, Some, Ok, Err};
ghost use Rattle.std.specs.Borrow.{ftrue};
ghost use Rattle.file_disk.specs.Calls.{Call, ReadAt, WriteAt, Sync};
ghost use Rattle.file_disk.specs.Noting.{call_of, failure_of};

use crate::storage::Failure;
use std::marker::{Model, PhantomData};

/// How a call ended, in one number.
const DONE: u64 = 0;

const PROTECTED: u64 = 1;

const FULL: u64 = 2;

const FAILED: u64 = 3;

/// The calls so far, the newest first. It takes no memory: a storage notes what it did, and contracts alone read that.
#[derive(Drop)]
pub struct Record {
    marker: PhantomData<u8>,
    pub ghost calls: { List Call },
}

impl Model for Record {
    ghost also_owns = { λ _. ftrue };
}

// The type owns nothing, so it may go to another thread.
unsafe impl Send for Record {}

impl Record {
    /// A record of no calls.
    pub fn new() -> Record
        ensures { result.calls ≡ [] }
    {
        Record {
            marker: PhantomData,
        }
    }

    /// Notes a call, as its numbers and its bytes say.
    fn note(&mut self, _numbers: &[u64], _bytes: &[u8])
        ensures { self.new.calls ≡ call_of _numbers.now _bytes.now ∷ self.old.calls }
    {}

    /// Notes a read of this many bytes that gave these.
    pub fn note_read(&mut self, offset: u64, count: u64, gave: &[u8])
        ensures { self.new.calls ≡ ReadAt offset count (Ok gave.now) ∷ self.old.calls }
    {
        self.note(&read_numbers(offset, count, DONE), gave);
    }

    /// Notes a read of this many bytes that failed.
    pub fn note_failed_read(&mut self, offset: u64, count: u64, why: Failure)
        ensures { self.new.calls ≡ ReadAt offset count (Err why) ∷ self.old.calls }
    {
        self.note(&read_numbers(offset, count, code_of(why)), &[]);
    }

    /// Notes a write of these bytes that took this many of them.
    pub fn note_write(&mut self, offset: u64, bytes: &[u8], took: u64)
        ensures { self.new.calls ≡ WriteAt offset bytes.now (Ok took) ∷ self.old.calls }
    {
        self.note(&write_numbers(offset, took, DONE), bytes);
    }

    /// Notes a write of these bytes that failed.
    pub fn note_failed_write(&mut self, offset: u64, bytes: &[u8], why: Failure)
        ensures { self.new.calls ≡ WriteAt offset bytes.now (Err why) ∷ self.old.calls }
    {
        self.note(&write_numbers(offset, 0, code_of(why)), bytes);
    }

    /// Notes a sync.
    pub fn note_sync(&mut self)
        ensures { self.new.calls ≡ Sync None ∷ self.old.calls }
    {
        self.note(&sync_numbers(DONE), &[]);
    }

    /// Notes a sync that failed.
    pub fn note_failed_sync(&mut self, why: Failure)
        ensures { self.new.calls ≡ Sync (Some why) ∷ self.old.calls }
    {
        self.note(&sync_numbers(code_of(why)), &[]);
    }
}

/// Returns the number of a failure.
fn code_of(why: Failure) -> u64
    ensures some { (result == 0) ≡ false }
    ensures failure { failure_of result ≡ why }
{
    match why {
        Failure::Protected => PROTECTED,
        Failure::Full => FULL,
        Failure::Failed => FAILED,
    }
}

/// Returns the numbers of a read of this many bytes.
fn read_numbers(offset: u64, count: u64, code: u64) -> [u64; 4]
    ensures { result ≡ 0 ∷ offset ∷ count ∷ code ∷ [] }
{
    [0, offset, count, code]
}

/// Returns the numbers of a write that took this many bytes.
fn write_numbers(offset: u64, took: u64, code: u64) -> [u64; 4]
    ensures { result ≡ 1 ∷ offset ∷ took ∷ code ∷ [] }
{
    [1, offset, took, code]
}

/// Returns the numbers of a sync.
fn sync_numbers(code: u64) -> [u64; 4]
    ensures { result ≡ 2 ∷ 0 ∷ 0 ∷ code ∷ [] }
{
    [2, 0, 0, code]
}
