//! A medium in memory that takes room only for what may be written.

ghost use Rattle.std.specs.Prelude.{◌≡◌, ℕ, ◌*◌, ◌/◌, ◌%◌, ◌<◌, ◌≤◌, ◌↔◌, [], length, IfOk, Contains};

use crate::bad_list::BadList;
use crate::chunks::Chunks;
use crate::{BadSector, Medium, NoMemory};
use sector::Extent;
use std::alloc::Global;

/// A disk in chunks of 64 sectors, of which only those that were reserved are in memory. A chunk that isn't there reads
/// as zeros.
#[derive(Debug)]
pub struct SparseDisk {
    chunks: Chunks,
    bad: BadList,
}

// By hand, so that no crate above proves it again, as it would a derived one.
impl Drop for SparseDisk {
    fn drop(self) {
        let SparseDisk { chunks: _, bad: _ } = self;
    }
}

impl SparseDisk {
    ghost use Rattle.disk.specs.Medium.{IsBlank, ReservesOnly, StartsWith};
    ghost use Rattle.disk.specs.SparseDisk.{shown};

    /// A disk of this many sectors of zeros, each of `sector_size` bytes, in which the sectors of the list are bad.
    /// Numbers past its end are ignored. It takes no memory.
    pub fn new(alloc: Global, sector_size: u32, sectors: u64, bad: Vec<u64>) -> SparseDisk
        ensures blank { IsBlank (shown result) sector_size sectors }
        ensures bad { (sector : ℕ) → Contains (shown result).bad sector ↔ Contains bad.items sector }
        ensures run { (shown result).run ≡ 64 }
        ensures unreserved { (shown result).reserved ≡ [] }
    {
        SparseDisk {
            chunks: Chunks::new(alloc, sector_size, sectors),
            bad: BadList::new(bad),
        }
    }

    /// A disk with these whole sectors, as many as fit, at its start before the bad list counts: they stand in bad
    /// sectors too.
    ///
    /// # Errors
    ///
    /// [`NoMemory`] where the memory for the chunks of these sectors was refused.
    pub fn starting_with(
        alloc: Global,
        sector_size: u32,
        sectors: u64,
        first: &[u8],
        bad: Vec<u64>,
    ) -> Result<SparseDisk, NoMemory>
        requires some { 0 < sector_size }
        requires whole { length first.now % sector_size ≡ 0 }
        requires fits { length first.now ≤ sectors * sector_size }
        ensures starts { IfOk result (λ disk. StartsWith (shown disk) sector_size sectors first.now) }
        ensures bad { IfOk result (λ disk. (sector : ℕ) → Contains (shown disk).bad sector ↔ Contains bad.items sector) }
        ensures run { IfOk result (λ disk. (shown disk).run ≡ 64) }
        ensures only { IfOk result (λ disk. ReservesOnly (shown disk) (record { first = 0; count = length first.now / sector_size })) }
    {
        let extent = Extent {
            first: 0,
            count: first.len() as u64 / sector_size as u64,
        };
        let mut chunks = Chunks::new(alloc, sector_size, sectors);
        chunks.reserve(extent)?;
        chunks.write(extent, first);
        Ok(SparseDisk {
            chunks,
            bad: BadList::new(bad),
        })
    }
}

impl Medium for SparseDisk {
    ghost use Rattle.disk.specs.SparseDisk.{shown};
    ghost use Rattle.disk.specs.inside.Chunks.{All-sectors_in_chunks};

    ghost view = { shown };

    fn sector_size(&self) -> u32 {
        self.chunks.sector_size
    }

    fn sectors(&self) -> u64 {
        self.chunks.sectors
    }

    fn failures(&self) -> u128 {
        self.bad.failures
    }

    /// Makes the chunks of the extent that are not there, filled with zeros.
    fn reserve(&mut self, extent: Extent) -> Result<(), NoMemory> {
        self.chunks.reserve(extent)?;
        Ok(())
    }

    fn read(&mut self, extent: Extent, buffer: &mut [u8]) -> Result<(), BadSector> {
        self.bad.check(extent)?;
        self.chunks.read(extent, buffer);
        Ok(())
    }

    fn write(&mut self, extent: Extent, bytes: &[u8]) -> Result<(), BadSector> {
        self.bad.check(extent)?;
        self.chunks.write(extent, bytes);
        Ok(())
    }

    ghost whole = { λ disk. All-sectors_in_chunks disk.chunks.sector_size disk.chunks.sectors disk.chunks.by_number disk.chunks.whole };
}
