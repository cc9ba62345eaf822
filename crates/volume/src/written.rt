//! Where something may have been written since all bytes were zeros.

ghost use Rattle.std.specs.Prelude.{◌≡◌, ℕ, ◌+◌, ◌*◌, ◌/◌, ◌%◌, ◌≤◌, ◌<◌, ◌^◌, ◌⊎◌, IsTrue, IsFalse, OnOk};
ghost use Rattle.volume.specs.inside.Written.{AreUntouched, HasAll, IsFirstFrom, may_be_written};

use crate::Run;
use std::alloc::{AllocError, Global};
use std::collections::BTreeSet;

/// How many bytes a chunk has: 64 sectors of 512 bytes, or 8 of 4096.
const CHUNK: u64 = 32768;

/// How many chunks of a run that was written are looked at.
const LONGEST: u64 = 4096;

/// The chunks in which something may have been written.
pub(crate) struct Written {
    pub chunks: BTreeSet<u64>,
    /// Whether memory for a chunk's number was refused: then something may have been written anywhere.
    pub is_lost: bool,
}

// Written by hand: each crate above would prove a derived one again.
impl Drop for Written {
    fn drop(self) {
        let Written {
            chunks: _,
            is_lost: _,
        } = self;
    }
}

impl Written {
    /// Nothing was written.
    pub fn new(alloc: Global) -> Written {
        Written {
            chunks: BTreeSet::new(alloc),
            is_lost: false,
        }
    }

    /// Marks the chunks of `count` bytes from byte `offset` on, of `size` bytes in all.
    pub fn mark(&mut self, offset: u64, count: u64, size: u64)
        requires fits { size < 2 ^ 63 }
        ensures marks { (i : ℕ) → offset ≤ i → i < offset + count → i < size → IsTrue (may_be_written self.new (i / 32768)) }
        ensures keeps { (k : ℕ) → IsTrue (may_be_written self.old k) → IsTrue (may_be_written self.new k) }
    {
        if self.is_lost {
            return;
        }
        let end = offset.saturating_add(count).min(size);
        let end_chunk = (end + (CHUNK - 1)) / CHUNK;
        if insert_all(&mut self.chunks, offset / CHUNK, end_chunk).is_err() {
            self.chunks.clear();
            self.is_lost = true;
        }
    }

    /// How many bytes from byte `offset` on, at most `count`, are alike, and whether all are where nothing was written.
    pub fn run(&self, offset: u64, count: u64) -> Run
        requires some { 0 < count }
        requires fits { offset + count < 2 ^ 63 }
        ensures some { 0 < result.count }
        ensures few { result.count ≤ count }
        ensures whole { (result.count ≡ count) ⊎ ((offset + result.count) % 32768 ≡ 0) }
        ensures zeros { IsTrue result.are_zeros → AreUntouched self.now offset result.count }
    {
        if self.is_lost {
            return Run {
                count,
                are_zeros: false,
            };
        }
        let chunk = offset / CHUNK;
        let end = (offset + count - 1) / CHUNK + 1;
        let hole_end = first_from(&self.chunks, chunk, end);
        if hole_end > chunk {
            Run {
                count: (hole_end * CHUNK - offset).min(count),
                are_zeros: true,
            }
        } else {
            let written_end = end_of_written(&self.chunks, chunk, end);
            Run {
                count: (written_end * CHUNK - offset).min(count),
                are_zeros: false,
            }
        }
    }
}

/// Puts all numbers from `first` to before `end` into a set.
fn insert_all(chunks: &mut BTreeSet<u64>, first: u64, end: u64) -> Result<(), AllocError>
    ensures { OnOk result (HasAll chunks.old first end chunks.new) }
{
    for chunk in first..end {
        chunks.insert(chunk)?;
    }
    Ok(())
}

/// The set's first number from `from` on, or `end` if that comes before it.
fn first_from(chunks: &BTreeSet<u64>, from: u64, end: u64) -> u64
    requires { from ≤ end }
    ensures first { IsFirstFrom chunks.now from result }
    ensures within { result ≤ end }
{
    match chunks.range(from..).next() {
        Some(first) => end.min(*first),
        None => end,
    }
}

/// Where numbers that follow on `from` end in the set: at `end` at the latest, and after at most 4,096 of them.
fn end_of_written(chunks: &BTreeSet<u64>, from: u64, end: u64) -> u64
    requires { from < end }
    ensures some { from < result }
    ensures within { result ≤ end }
{
    let last = end.min(from.saturating_add(LONGEST));
    let mut reach = from + 1;
    while reach < last && chunks.contains(&reach) {
        reach += 1;
    }
    reach
}
