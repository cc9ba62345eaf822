//! What C calls to open a disk in memory that it tells by numbers.

ghost use Rattle.std.specs.Prelude.{◌≡◌, ◌⊎◌, None, MatchBool, nat_eq};
ghost use Rattle.saddlemug.specs.Holding.{HoldsStack, HoldsVolume};
ghost use Rattle.saddlemug.specs.InMemory.{IsToldStack, IsToldStackStatus, IsToldVolume, IsToldVolumeStatus};
ghost use Rattle.saddlemug.specs.Statuses.{IsNumberOfStatus};

use crate::cell::Cell;
use crate::instance::Instance;
use crate::memory_disk::{MemoryDisk, told_stack, told_volume};
use std::alloc::Global;

/// Opens a volume into an empty cell: a partition, counted from 0, of a disk of zeros with its partition table and with
/// these bad sectors. Answers 0, or the status that says why there is none; the cell is then still empty.
#[unsafe(no_mangle)]
pub extern "C" fn saddlemug_memory_open_into(
    alloc: Global,
    cell: &mut Cell,
    disk: &MemoryDisk,
    bad: &[u64],
    partition: u8,
) -> u32
    requires { cell.old.held ≡ None }
    ensures held { MatchBool (nat_eq result 0) (HoldsVolume (IsToldVolume disk.now bad.now partition) cell.new.held) (cell.new.held ≡ None) }
    ensures status { (result ≡ 0) ⊎ IsNumberOfStatus (IsToldVolumeStatus disk.now bad.now partition) result }
{
    match told_volume(alloc, disk, bad, partition) {
        Ok(volume) => cell.fill(alloc, Instance::Volume(volume)),
        Err(status) => status.value(),
    }
}

/// Starts a stack into an empty cell, over such a disk. Answers 0, or the status that says why there is none; the cell
/// is then still empty.
#[unsafe(no_mangle)]
pub extern "C" fn saddlemug_stack_memory_open_into(
    alloc: Global,
    cell: &mut Cell,
    disk: &MemoryDisk,
    bad: &[u64],
) -> u32
    requires { cell.old.held ≡ None }
    ensures held { MatchBool (nat_eq result 0) (HoldsStack (IsToldStack disk.now bad.now) cell.new.held) (cell.new.held ≡ None) }
    ensures status { (result ≡ 0) ⊎ IsNumberOfStatus (IsToldStackStatus disk.now bad.now) result }
{
    match told_stack(alloc, disk, bad) {
        Ok(stack) => cell.fill(alloc, Instance::Stack(stack)),
        Err(status) => status.value(),
    }
}
