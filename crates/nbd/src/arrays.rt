//! What a server serves.

ghost use Rattle.std.specs.Prelude.{◌≡◌, ◌≤◌, ◌<◌, ◌+◌, ◌%◌, length, replicate, slice_range, IfErr, MatchResult};
ghost use Rattle.std.specs.Bool.{OnTrue};
ghost use Rattle.nbd.specs.Content.{AreInBounds, Content, IsBlockSize, IsSameOutside, written};
ghost use Rattle.nbd.specs.declared.arrays.ArrayFault.{ArrayFault};

use crate::constants::LONGEST;
use std::alloc::Global;
use thiserror::Error;

/// The sizes of an array, and whether it can be written.
#[derive(Debug, Clone, Copy, PartialEq, Eq)]
pub struct Sizes {
    /// The bytes of a block, 512 or 4096. Each request has whole blocks.
    pub block: u32,
    /// The bytes of the array.
    pub bytes: u64,
    /// Whether clients are told that it can't be written. A write that comes all the same is for the array to fail.
    pub read_only: bool,
}

/// Bytes that are alike: zeros, or not known to be zeros.
#[derive(Debug, Clone, Copy, PartialEq, Eq)]
pub struct Run {
    /// How many bytes.
    pub count: u32,
    /// Whether all of them are known to be zeros.
    pub are_zeros: bool,
}

/// Why an array did not do what it was asked to.
#[derive(Debug, Clone, Copy, PartialEq, Eq, Error)]
pub enum ArrayFault {
    /// Memory was refused.
    #[error("no memory")]
    NoMemory,
    /// The array can't be written.
    #[error("write protected")]
    Protected,
    /// The array isn't there any more.
    #[error("gone")]
    Gone,
    /// The array failed.
    #[error("failed")]
    Failed,
}

/// Bytes that are read and written in whole blocks inside the array: at least one, and 32 MiB at most.
pub trait Array {
    ghost content: { Self → Content };

    // how a call may fail that turns the first array into the second
    ghost fails: { Content → Content → ArrayFault → Type 0 };

    /// The sizes, which never change.
    fn sizes(&self) -> Sizes
        ensures block { result.block ≡ (content self.now).block }
        ensures bytes { result.bytes ≡ length (content self.now).bytes }
        ensures read_only { result.read_only ≡ (content self.now).read_only }
        ensures block_size { IsBlockSize result.block };

    /// Reads as many bytes as the buffer has, from byte `offset` on.
    ///
    /// # Errors
    ///
    /// As [`ArrayFault`] says.
    fn read(&mut self, alloc: Global, offset: u64, buffer: Vec<u8>) -> Result<Vec<u8>, ArrayFault>
        requires in_bounds { AreInBounds (content self.old).block (length (content self.old).bytes) offset (length buffer.items) }
        requires short { length buffer.items ≤ LONGEST }
        ensures reads { MatchResult result (λ bytes. bytes.items ≡ slice_range (content self.old).bytes offset (offset + length buffer.items)) (fails (content self.old) (content self.new)) }
        ensures same { content self.new ≡ content self.old };

    /// Writes bytes from byte `offset` on; with `through`, past volatile caches.
    ///
    /// # Errors
    ///
    /// As [`ArrayFault`] says. What stands outside the bytes that were to be written is as it was.
    fn write(
        &mut self,
        alloc: Global,
        offset: u64,
        bytes: Vec<u8>,
        through: bool,
    ) -> Result<(), ArrayFault>
        requires in_bounds { AreInBounds (content self.old).block (length (content self.old).bytes) offset (length bytes.items) }
        requires short { length bytes.items ≤ LONGEST }
        ensures written { MatchResult result (λ _. content self.new ≡ written (content self.old) offset bytes.items) (fails (content self.old) (content self.new)) }
        ensures outside { IfErr result (λ _. IsSameOutside (content self.old) offset (length bytes.items) (content self.new)) };

    /// Brings what was written past volatile caches.
    ///
    /// # Errors
    ///
    /// As [`ArrayFault`] says.
    fn flush(&mut self, alloc: Global) -> Result<(), ArrayFault>
        ensures fails { IfErr result (fails (content self.old) (content self.new)) }
        ensures same { content self.new ≡ content self.old };

    /// Tells how many bytes from byte `offset` on, at most `count`, in whole blocks, are alike: known to be zeros, or not
    /// known to be.
    fn run(&self, offset: u64, count: u32) -> Run
        requires in_bounds { AreInBounds (content self.now).block (length (content self.now).bytes) offset count }
        ensures some { 0 < result.count }
        ensures within { result.count ≤ count }
        ensures aligned { result.count % (content self.now).block ≡ 0 }
        ensures zeros { OnTrue result.are_zeros (slice_range (content self.now).bytes offset (offset + result.count) ≡ replicate result.count 0) };
}
