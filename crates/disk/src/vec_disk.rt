//! A medium in memory.

ghost use Rattle.std.specs.Prelude.{◌≡◌, ℕ, ◌*◌, ◌<◌, ◌≤◌, ◌+◌, ◌^◌, ◌↔◌, length, IfOk, IsOk, IsErr, OnOk, OnErr, Contains};

use crate::bad_list::BadList;
use crate::places::places;
use crate::{BadSector, Medium, NoMemory};
use sector::Extent;
use std::alloc::Global;

/// A disk in one block of memory; all of it is reserved from the start.
#[derive(Debug, Drop)]
pub struct VecDisk {
    sector_size: u32,
    sectors: u64,
    bytes: Vec<u8>,
    bad: BadList,
    ghost filled: { length bytes.items ≡ sectors * sector_size },
}

impl VecDisk {
    ghost use Rattle.disk.specs.Medium.{IsBlank, StartsWith, IsWithin, IsReserved, HasBad, failed};
    ghost use Rattle.disk.specs.VecDisk.{shown};

    /// A disk of this many sectors of zeros, each of `sector_size` bytes, in which the sectors of the list are bad. It
    /// has fewer than 2^64 bytes. Numbers past its end are ignored.
    ///
    /// # Errors
    ///
    /// [`NoMemory`] where the memory for the sectors was refused.
    pub fn new(
        alloc: Global,
        sector_size: u32,
        sectors: u64,
        bad: Vec<u64>,
    ) -> Result<VecDisk, NoMemory>
        requires { sectors * sector_size < 2 ^ 64 }
        ensures blank { IfOk result (λ disk. IsBlank (shown disk) sector_size sectors) }
        ensures bad { IfOk result (λ disk. (sector : ℕ) → Contains (shown disk).bad sector ↔ Contains bad.items sector) }
        ensures reserved { IfOk result (λ disk. (extent : Extent) → IsWithin (shown disk) extent → IsReserved (shown disk) extent) }
    {
        VecDisk::starting_with(alloc, sector_size, sectors, &[], bad)
    }

    /// A disk of fewer than 2^64 bytes with these at its start, as many as fit, before the bad list counts: they stand
    /// in bad sectors too.
    ///
    /// # Errors
    ///
    /// [`NoMemory`] where the memory for the sectors was refused.
    pub fn starting_with(
        alloc: Global,
        sector_size: u32,
        sectors: u64,
        first: &[u8],
        bad: Vec<u64>,
    ) -> Result<VecDisk, NoMemory>
        requires countable { sectors * sector_size < 2 ^ 64 }
        requires fits { length first.now ≤ sectors * sector_size }
        ensures starts { IfOk result (λ disk. StartsWith (shown disk) sector_size sectors first.now) }
        ensures bad { IfOk result (λ disk. (sector : ℕ) → Contains (shown disk).bad sector ↔ Contains bad.items sector) }
        ensures reserved { IfOk result (λ disk. (extent : Extent) → IsWithin (shown disk) extent → IsReserved (shown disk) extent) }
    {
        let length = sectors * sector_size as u64;
        let mut bytes = Vec::with_capacity(alloc, length as usize)?;
        bytes.extend_from_slice(first)?;
        bytes.resize(length as usize, 0)?;
        Ok(VecDisk {
            sector_size,
            sectors,
            bytes,
            bad: BadList::new(bad),
        })
    }

    /// The places of the first byte of an extent and of the byte after its last.
    fn places(&self, extent: Extent) -> (usize, usize)
        requires { extent.first + extent.count ≤ self.now.sectors }
        ensures start { result.0 ≡ extent.first * self.now.sector_size }
        ensures end { result.1 ≡ (extent.first + extent.count) * self.now.sector_size }
        ensures ordered { result.0 ≤ result.1 }
        ensures within { result.1 ≤ length self.now.bytes.items }
    {
        let whole = Extent {
            first: 0,
            count: self.sectors,
        };
        places(self.sector_size, whole, extent)
    }
}

impl Medium for VecDisk {
    ghost use Rattle.disk.specs.Medium.{IsWithin, IsReserved, Reserves, ReservesNear};
    ghost use Rattle.disk.specs.VecDisk.{shown};
    ghost use Rattle.disk.specs.inside.Chunks.{All-first_chunks};

    ghost view = { shown };

    fn sector_size(&self) -> u32 {
        self.sector_size
    }

    fn sectors(&self) -> u64 {
        // Sectors, not bytes.
        self.sectors
    }

    fn failures(&self) -> u128 {
        self.bad.failures
    }

    /// Takes no memory, since the block holds all sectors.
    fn reserve(&mut self, _extent: Extent) -> Result<(), NoMemory>
        requires { IsWithin (shown self.old) _extent }
        ensures reserved { OnOk result (IsReserved (shown self.new) _extent) }
        ensures ready { IsReserved (shown self.old) _extent → IsOk result }
        ensures reserves { Reserves (shown self.old) (shown self.new) }
        ensures near { ReservesNear (shown self.old) _extent (shown self.new) }
        ensures takes_none { IsOk result }
    {
        // The block was taken whole.
        Ok(())
    }

    fn read(&mut self, extent: Extent, buffer: &mut [u8]) -> Result<(), BadSector> {
        self.bad.check(extent)?;
        let (start, end) = self.places(extent);
        buffer.copy_from_slice(&self.bytes[start..end]);
        Ok(())
    }

    fn write(&mut self, extent: Extent, bytes: &[u8]) -> Result<(), BadSector> {
        self.bad.check(extent)?;
        let (start, end) = self.places(extent);
        self.bytes[start..end].copy_from_slice(bytes);
        Ok(())
    }

    ghost whole = { λ disk. All-first_chunks disk.sector_size disk.sectors disk.bytes.items disk.filled };
}
