//! A stack whose sectors stand beside it, on the disk of some settings.

ghost use Rattle.std.specs.Prelude.{◌≡◌, ◌≤◌, [], IfErr, IfOk, get_or, length};
ghost use Rattle.disk.specs.SparseDisk.{shown};
ghost use Rattle.settings.specs.InRange.{AreInRange};
ghost use Rattle.settings.specs.Medium.{IsNewDisk};
ghost use Rattle.startup.specs.Started.{IsApartFault, IsStartApart, IsUnreadTable};

use crate::starting::limits_of;
use compose::{Stack, StartFault};
use disk::{BadSector, Medium, SparseDisk};
use miniport::BookedAdapter;
use ntstatus::NtStatus;
use sector::Extent;
use settings::{Config, new_disk};
use std::alloc::Global;

/// Makes the disk of the settings, of which nothing was asked but its first sector, and starts a stack over an adapter
/// beside it. The adapter holds a copy of that sector, and no other. Neither heeds `write_protected`.
///
/// # Errors
///
/// [`StartFault::Device`] where sector 0 is bad, or the adapter failed a command, [`StartFault::Mbr`] with what is
/// wrong with the partitions of the settings, [`StartFault::NoMemory`].
pub fn start_apart(
    alloc: Global,
    config: Config,
) -> Result<(Stack<BookedAdapter>, SparseDisk), StartFault>
    requires { AreInRange config }
    ensures stack { IfOk result (λ r. IsStartApart config r.0) }
    ensures disk { IfOk result (λ r. IsNewDisk config (shown r.1)) }
    ensures count { IfOk result (λ r. length (shown r.1).sectors ≡ config.sectors) }
    ensures fault { IfErr result (IsApartFault config) }
{
    let limits = limits_of(&config);
    let sectors = config.sectors;
    let max_transfer = config.max_transfer;
    let depth = config.depth;
    let Ok(mut disk) = new_disk(alloc, config) else {
        return Err(StartFault::NoMemory);
    };
    let first = first_sector(alloc, &mut disk)?;
    let Ok(adapter) = BookedAdapter::new(alloc, first, sectors, max_transfer, depth) else {
        return Err(StartFault::NoMemory);
    };
    let stack = Stack::start(alloc, adapter, limits)?;
    Ok((stack, disk))
}

/// Reads the bytes of sector 0.
///
/// # Errors
///
/// [`StartFault::Device`] where the sector is bad, [`StartFault::NoMemory`].
fn first_sector<M: Medium>(alloc: Global, disk: &mut M) -> Result<Vec<u8>, StartFault>
    requires some { 1 ≤ length (M.view disk.old).sectors }
    requires unfailed { (M.view disk.old).failures ≡ 0 }
    ensures bytes { IfOk result (λ first. first.items ≡ get_or (M.view disk.old).sectors 0 []) }
    ensures long { IfOk result (λ first. length first.items ≡ (M.view disk.old).sector_size) }
    ensures same { IfOk result (λ _. M.view disk.new ≡ M.view disk.old) }
    ensures fault { IfErr result (IsUnreadTable (M.view disk.old)) }
{
    let size = disk.sector_size() as usize;
    let Ok(mut first) = Vec::from_elem(alloc, 0, size) else {
        return Err(StartFault::NoMemory);
    };
    let extent = Extent { first: 0, count: 1 };
    match disk.read(extent, first.as_mut_slice()) {
        Ok(()) => Ok(first),
        Err(BadSector) => Err(StartFault::Device(NtStatus::DeviceDataError)),
    }
}
