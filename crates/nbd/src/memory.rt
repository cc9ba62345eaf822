//! An array in memory.

ghost use Rattle.std.specs.Prelude.{◌≡◌, ◌≤◌, ◌<◌, ◌+◌, ◌%◌, ◌^◌, length, replicate, slice_range, take};
ghost use Rattle.std.specs.Bool.{OnTrue};
ghost use Rattle.nbd.specs.Content.{IsBlockSize, splice};

use crate::arrays::{Array, ArrayFault, Run, Sizes};
use crate::standing::are_zeros;
use std::alloc::Global;

/// Bytes in memory, in blocks of 512 or of 4096.
#[derive(Debug, Drop)]
pub struct MemArray {
    pub bytes: Vec<u8>,
    /// Whether a block has 4096 bytes.
    pub long_blocks: bool,
}

impl Array for MemArray {
    ghost use Rattle.std.specs.Prelude.{false, if◌then◌else◌};

    ghost content = { λ a. record { block = (if a.long_blocks then 4096 else 512); bytes = a.bytes.items; read_only = false } };

    ghost fails = { λ _ _ _. ⊥ };

    fn sizes(&self) -> Sizes {
        Sizes {
            block: if self.long_blocks { 4096 } else { 512 },
            bytes: self.bytes.len() as u64,
            read_only: false,
        }
    }

    fn read(
        &mut self,
        _alloc: Global,
        offset: u64,
        mut buffer: Vec<u8>,
    ) -> Result<Vec<u8>, ArrayFault> {
        let first = offset as usize;
        let end = first + buffer.len();
        buffer
            .as_mut_slice()
            .copy_from_slice(&self.bytes[first..end]);
        Ok(buffer)
    }

    fn write(
        &mut self,
        _alloc: Global,
        offset: u64,
        bytes: Vec<u8>,
        _through: bool,
    ) -> Result<(), ArrayFault> {
        put(self.bytes.as_mut_slice(), offset as usize, bytes.as_slice());
        Ok(())
    }

    fn flush(&mut self, _alloc: Global) -> Result<(), ArrayFault> {
        Ok(())
    }

    fn run(&self, offset: u64, count: u32) -> Run {
        let first = offset as usize;
        let block = self.sizes().block;
        first_run(&self.bytes[first..first + count as usize], block)
    }
}

/// Puts bytes in the place of as many from `first` on.
fn put(all: &mut [u8], first: usize, bytes: &[u8])
    requires { first + length bytes.now ≤ length all.old }
    ensures { all.new ≡ splice all.old first bytes.now }
{
    all[first..first + bytes.len()].copy_from_slice(bytes);
}

/// Returns the first run of some whole blocks.
fn first_run(blocks: &[u8], block: u32) -> Run
    requires block { IsBlockSize block }
    requires some { 0 < length blocks.now }
    requires short { length blocks.now < 2 ^ 32 }
    requires aligned { length blocks.now % block ≡ 0 }
    ensures some { 0 < result.count }
    ensures within { result.count ≤ length blocks.now }
    ensures aligned { result.count % block ≡ 0 }
    ensures zeros { OnTrue result.are_zeros (take result.count blocks.now ≡ replicate result.count 0) }
{
    let are_zeros = has_zeros(blocks, 0, block);
    let mut count = block;
    while (count as usize) < blocks.len() {
        if has_zeros(blocks, count, block) != are_zeros {
            break;
        }
        count += block;
    }
    Run { count, are_zeros }
}

/// Whether the block from byte `first` on has zeros alone.
fn has_zeros(blocks: &[u8], first: u32, block: u32) -> bool
    requires { first + block ≤ length blocks.now }
    ensures { OnTrue result (slice_range blocks.now first (first + block) ≡ replicate block 0) }
{
    let first = first as usize;
    are_zeros(&blocks[first..first + block as usize])
}
