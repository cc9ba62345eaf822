//! A medium of which only the first sector is there.

ghost use Rattle.std.specs.Prelude.{◌≡◌, ◌<◌, ◌≤◌, ◌+◌, ◌^◌, ◌⊎◌, ◌↔◌, IsTrue, IfOk, length};

use disk::{BadSector, Medium, NoMemory};
use sector::Extent;

/// A disk whose first sector stands here and whose others stand elsewhere: they can be neither read nor written.
#[derive(Drop)]
pub(crate) struct FirstSector {
    sector_size: u32,
    sectors: u64,
    first: Vec<u8>,
    failures: u128,
    ghost filled: { length first.items ≡ sector_size },
    ghost some: { 1 ≤ sectors },
}

/// Whether the extent has a sector that isn't the first.
fn is_elsewhere(extent: Extent) -> bool
    requires { extent.first + extent.count < 2 ^ 64 }
    ensures { IsTrue result ↔ ((0 < extent.count) × (1 < extent.first + extent.count)) }
{
    extent.count > 0 && extent.first + extent.count > 1
}

impl FirstSector {
    ghost use Rattle.miniport.specs.FirstSector.{shown, IsFirst};

    /// The disk of this many sectors, of which the first has these bytes.
    pub fn new(first: Vec<u8>, sectors: u64) -> FirstSector
        requires some { 1 ≤ sectors }
        requires long { (length first.items ≡ 512) ⊎ (length first.items ≡ 4096) }
        ensures { IsFirst first.items sectors (shown result) }
    {
        FirstSector {
            sector_size: first.len() as u32,
            sectors,
            first,
            failures: 0,
        }
    }
}

impl Medium for FirstSector {
    ghost use Rattle.miniport.specs.FirstSector.{shown, all_whole};

    ghost view = { shown };

    fn sector_size(&self) -> u32 {
        self.sector_size
    }

    fn sectors(&self) -> u64 {
        self.sectors
    }

    fn failures(&self) -> u128 {
        self.failures
    }

    fn reserve(&mut self, _extent: Extent) -> Result<(), NoMemory> {
        Ok(())
    }

    fn read(&mut self, extent: Extent, buffer: &mut [u8]) -> Result<(), BadSector> {
        if is_elsewhere(extent) {
            self.failures += 1;
            return Err(BadSector);
        }
        if extent.count == 1 {
            buffer.copy_from_slice(self.first.as_slice());
        }
        Ok(())
    }

    fn write(&mut self, extent: Extent, bytes: &[u8]) -> Result<(), BadSector> {
        if is_elsewhere(extent) {
            self.failures += 1;
            return Err(BadSector);
        }
        if extent.count == 1 {
            self.first.as_mut_slice().copy_from_slice(bytes);
        }
        Ok(())
    }

    ghost whole = { λ disk. all_whole disk.sector_size disk.sectors disk.first.items disk.filled };
}
