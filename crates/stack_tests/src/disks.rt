//! Disks of 4,096 sectors of 512 bytes, and adapters over them.

ghost use Rattle.std.specs.Prelude.{◌≡◌, ◌≤◌, ◌^◌, IfOk};
ghost use Rattle.probe.specs.Exchange.{IsIdle};

use disk::{BadSector, Medium, NoMemory, VecDisk};
use miniport::MemAdapter;
use sector::Extent;
use std::alloc::{AllocError, Global};
use std::process::Abort;

/// An entry of a table: its type, its first sector and the number of its sectors.
pub(crate) type Entry = (u8, u32, u32);

/// The entries of a table, or none of a blank disk.
pub(crate) type Table<'a> = Option<&'a [Entry]>;

/// The sectors 2,048 to 3,071.
pub(crate) const MIDDLE: Entry = (7, 2048, 1024);

pub(crate) const ONE: Table<'static> = Some(&[MIDDLE]);

/// The second partition has the sectors 3,072 to 4,095.
pub(crate) const TWO: Table<'static> = Some(&[MIDDLE, (7, 3072, 1024)]);

/// Sector 0 with this table. Entries have sixteen bytes each from byte 446 on; their type is byte 4, the first sector and
/// the count are the bytes from 8 and 12 on, the lowest first.
pub(crate) fn sector_0(table: Table<'_>) -> [u8; 512] {
    let mut bytes = [0; 512];
    let Some(entries) = table else {
        return bytes;
    };
    for n in 0..4_usize {
        if let Some((kind, first, count)) = entries.get(n) {
            let entry = 446 + 16 * n;
            bytes[entry + 4] = *kind;
            bytes[entry + 8..entry + 12].copy_from_slice(&first.to_le_bytes());
            bytes[entry + 12..entry + 16].copy_from_slice(&count.to_le_bytes());
        }
    }
    bytes[510] = 0x55;
    bytes[511] = 0xAA;
    bytes
}

pub(crate) fn no_memory(_refused: NoMemory) -> AllocError {
    AllocError
}

/// A disk with this table, in which the sectors of the list are bad.
pub(crate) fn disk(alloc: Global, table: Table<'_>, bad: &[u64]) -> Result<VecDisk, AllocError> {
    let bad = Vec::from_slice(alloc, bad)?;
    VecDisk::starting_with(alloc, 512, 4096, &sector_0(table), bad).map_err(no_memory)
}

/// An adapter of two tags that moves this many sectors at most.
pub(crate) fn adapter<M: Medium>(
    rt: &impl Abort,
    alloc: Global,
    medium: M,
    max_transfer: u32,
    write_protected: bool,
) -> Result<MemAdapter<M>, AllocError>
    requires some { 1 ≤ max_transfer }
    requires short { max_transfer ≤ 2 ^ 16 }
    ensures idle { IfOk result (λ a. IsIdle a.shown) }
    ensures unasked { IfOk result (λ a. a.shown.accepted ≡ 0) }
{
    let sectors = medium.sectors();
    assert!(rt; 1 <= sectors && sectors <= 1 << 40);
    assert!(rt; medium.sector_size() == 512 && medium.failures() == 0);
    MemAdapter::new(alloc, medium, max_transfer, 2, write_protected).map_err(no_memory)
}

/// A medium that refuses to reserve sectors, this many times. Then it reserves them.
#[derive(Drop)]
pub(crate) struct Reluctant<M: Medium> {
    pub medium: M,
    pub refusals: u32,
}

impl<M: Medium> Medium for Reluctant<M> {
    ghost use Rattle.stack_tests.specs.Reluctance.{reluctant};

    ghost view = { λ m. reluctant m.refusals (M.view m.medium) };

    fn sector_size(&self) -> u32 {
        self.medium.sector_size()
    }

    fn sectors(&self) -> u64 {
        self.medium.sectors()
    }

    fn failures(&self) -> u128 {
        self.medium.failures()
    }

    fn reserve(&mut self, extent: Extent) -> Result<(), NoMemory> {
        if extent.count == 0 {
            return Ok(());
        }
        if self.refusals > 0 {
            self.refusals -= 1;
            return Err(NoMemory);
        }
        self.medium.reserve(extent)
    }

    fn read(&mut self, extent: Extent, buffer: &mut [u8]) -> Result<(), BadSector> {
        self.medium.read(extent, buffer)
    }

    fn write(&mut self, extent: Extent, bytes: &[u8]) -> Result<(), BadSector> {
        self.medium.write(extent, bytes)
    }

    ghost whole = { λ m. M.whole m.medium };
}
