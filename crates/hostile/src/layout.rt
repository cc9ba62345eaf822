//! Disks in memory, and adapters over them.

ghost use Rattle.std.specs.Prelude.{◌≡◌, IfOk};
ghost use Rattle.probe.specs.Exchange.{IsIdle};

use crate::fault::HostileFault;
use compose::Settings;
use disk::VecDisk;
use miniport::MemAdapter;
use std::alloc::Global;

/// The bytes of a sector.
pub const SECTOR: u32 = 512;

/// The first sector of a partition, and the number of its sectors, which is 0 where there is no partition.
pub type Partition = (u32, u32);

/// The number in a list of bad sectors that stands for none.
pub const NONE_BAD: u64 = u64::MAX;

/// A disk, an adapter and a stack.
#[derive(Clone, Copy)]
pub struct Layout {
    pub sectors: u32,
    pub partitions: [Partition; 4],
    pub bad: [u64; 2],
    pub max_transfer: u32,
    pub depth: u8,
    pub write_protected: bool,
    pub window: u32,
    pub open_requests: u32,
}

impl Layout {
    /// Sector 0. Entries have sixteen bytes each from byte 446 on; their type is byte 4, the first sector and the
    /// count are the bytes from 8 and 12 on, the lowest first.
    fn table(&self) -> [u8; 512] {
        let mut bytes = [0; 512];
        for n in 0..4 {
            let (first, count) = self.partitions[n];
            let entry = 446 + 16 * n;
            bytes[entry + 4] = if count > 0 { 7 } else { 0 };
            bytes[entry + 8..entry + 12].copy_from_slice(&first.to_le_bytes());
            bytes[entry + 12..entry + 16].copy_from_slice(&count.to_le_bytes());
        }
        bytes[510] = 0x55;
        bytes[511] = 0xAA;
        bytes
    }

    /// Returns the limits of the stack.
    pub fn settings(&self) -> Settings {
        Settings {
            window: self.window,
            open_requests: self.open_requests,
        }
    }
}

/// The adapter of a layout, over sectors of zeros with its partition table.
///
/// # Errors
///
/// [`HostileFault::NoDisk`] where the layout is out of the adapter's range; [`HostileFault::NoMemory`].
pub fn adapter(alloc: Global, layout: &Layout) -> Result<MemAdapter<VecDisk>, HostileFault>
    ensures idle { IfOk result (λ a. IsIdle a.shown) }
    ensures unasked { IfOk result (λ a. a.shown.accepted ≡ 0) }
{
    if layout.sectors < 1 || layout.max_transfer < 1 || layout.max_transfer > 65_536 {
        return Err(HostileFault::NoDisk);
    }
    if layout.depth < 1 || layout.depth > 32 {
        return Err(HostileFault::NoDisk);
    }
    let bad = Vec::from_slice(alloc, &layout.bad)?;
    let table = layout.table();
    let disk = VecDisk::starting_with(alloc, SECTOR, layout.sectors as u64, &table, bad)?;
    let (longest, protected) = (layout.max_transfer, layout.write_protected);
    let adapter = MemAdapter::new(alloc, disk, longest, layout.depth, protected)?;
    Ok(adapter)
}
