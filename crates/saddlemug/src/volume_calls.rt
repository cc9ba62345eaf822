//! What C calls on a volume.

ghost use Rattle.std.specs.Prelude.{◌≡◌, ◌⊎◌, ◌*◌, ⊤, None, MatchBool, length, nat_eq};
ghost use Rattle.volume.specs.Calls.{AreInBounds, IsFault, IsSameDisk, Reads, Writes, flush_of, read_of, write_of};
ghost use Rattle.saddlemug.specs.Calls.{IsNumberOf, IsReadFault, IsToldNumber, IsWriteFault, TellsRun};
ghost use Rattle.saddlemug.specs.Holding.{HoldsAnyVolume, HoldsVolume};
ghost use Rattle.saddlemug.specs.Opened.{IsNewVolume, IsVolumeStatus};
ghost use Rattle.saddlemug.specs.Statuses.{IsNumberOfStatus};

use crate::cell::Cell;
use crate::instance::Instance;
use crate::opening::new_volume;
use crate::status::number_of;
use ntstatus::NtStatus;
use std::alloc::Global;

/// The sizes of a partition.
#[repr(C)]
#[derive(Clone, Copy)]
pub struct DiskSizes {
    /// The bytes of a sector, 512 or 4096.
    pub sector_size: u64,
    /// The number of sectors, from 1 to 2^32 - 1.
    pub sectors: u64,
}

/// Bytes of a partition that are alike.
#[repr(C)]
#[derive(Clone, Copy)]
pub struct DiskRun {
    /// How many bytes.
    pub count: u64,
    /// Whether they are known to be zeros.
    pub are_zeros: bool,
}

/// Opens a volume into an empty cell: a partition, counted from 0, of a disk of zeros with the partition table of a
/// text's settings. Answers 0, or the status that says why there is none; the cell is then still empty.
#[unsafe(no_mangle)]
pub extern "C" fn saddlemug_open_into(
    alloc: Global,
    cell: &mut Cell,
    settings: &[u8],
    partition: u8,
) -> u32
    requires { cell.old.held ≡ None }
    ensures held { MatchBool (nat_eq result 0) (HoldsVolume (IsNewVolume settings.now partition) cell.new.held) (cell.new.held ≡ None) }
    ensures status { (result ≡ 0) ⊎ IsNumberOfStatus (IsVolumeStatus settings.now partition) result }
{
    match new_volume(alloc, settings, partition) {
        Ok(volume) => cell.fill(alloc, Instance::Volume(volume)),
        Err(status) => status.value(),
    }
}

/// Tells the sizes of the partition.
#[unsafe(no_mangle)]
pub extern "C" fn saddlemug_sizes(alloc: Global, cell: &mut Cell) -> DiskSizes
    requires { HoldsAnyVolume cell.old.held }
    ensures held { HoldsAnyVolume cell.new.held }
    ensures sector_size { HoldsVolume (λ v. result.sector_size ≡ v.content.sector_size) cell.old.held }
    ensures sectors { HoldsVolume (λ v. result.sectors * result.sector_size ≡ length v.content.bytes) cell.old.held }
    ensures same { cell.new.held ≡ cell.old.held }
{
    let held = cell.take(alloc);
    let sizes = held.sizes();
    cell.put(held);
    DiskSizes {
        sector_size: sizes.sector_size,
        sectors: sizes.sectors,
    }
}

/// Tells how many bytes from byte `offset` of the partition on, at most `count`, are alike: known to be zeros, or not
/// known to be. None where these are no whole sectors of the partition, one at least.
#[unsafe(no_mangle)]
pub extern "C" fn saddlemug_run(alloc: Global, cell: &mut Cell, offset: u64, count: u64) -> DiskRun
    requires { HoldsAnyVolume cell.old.held }
    ensures held { HoldsAnyVolume cell.new.held }
    ensures runs { HoldsVolume (λ v. TellsRun v.content offset count result) cell.old.held }
    ensures same { cell.new.held ≡ cell.old.held }
{
    let held = cell.take(alloc);
    let run = held.run(offset, count);
    cell.put(held);
    run
}

/// Reads as many bytes as the buffer has, from byte `offset` of the partition on. Answers the status; where it is not 0
/// the buffer is as it was.
#[unsafe(no_mangle)]
pub extern "C" fn saddlemug_read(
    alloc: Global,
    cell: &mut Cell,
    offset: u64,
    buffer: &mut [u8],
) -> u32
    requires { HoldsAnyVolume cell.old.held }
    ensures held { HoldsAnyVolume cell.new.held }
    ensures reads { HoldsVolume (λ v. MatchBool (nat_eq result 0) (Reads v.content offset (length buffer.old) buffer.new) (IsNumberOf (IsReadFault v offset (length buffer.old)) result)) cell.old.held }
    ensures answered { HoldsVolume (λ old. HoldsVolume (λ new. IsToldNumber old (read_of old offset (length buffer.old)) (IsReadFault old offset (length buffer.old)) new result) cell.new.held) cell.old.held }
    ensures as_it_was { (result ≡ 0) ⊎ (buffer.new ≡ buffer.old) }
    ensures same { HoldsVolume (λ old. HoldsVolume (IsSameDisk old) cell.new.held) cell.old.held }
{
    let mut held = cell.take(alloc);
    let outcome = held.read(alloc, offset, buffer);
    cell.put(held);
    number_of(outcome)
}

/// Writes bytes from byte `offset` of the partition on, past volatile caches if `through`. Answers the status.
#[unsafe(no_mangle)]
pub extern "C" fn saddlemug_write(
    alloc: Global,
    cell: &mut Cell,
    offset: u64,
    bytes: &[u8],
    through: bool,
) -> u32
    requires { HoldsAnyVolume cell.old.held }
    ensures held { HoldsAnyVolume cell.new.held }
    ensures in_bounds { HoldsVolume (λ v. MatchBool (nat_eq result 0) (AreInBounds v.content offset (length bytes.now)) ⊤) cell.old.held }
    ensures writes { HoldsVolume (λ old. HoldsVolume (λ new. MatchBool (nat_eq result 0) (Writes old offset bytes.now new) (IsNumberOf (λ fault. IsWriteFault old offset bytes.now fault new) result)) cell.new.held) cell.old.held }
    ensures answered { HoldsVolume (λ old. HoldsVolume (λ new. IsToldNumber old (write_of old offset bytes.now through) (λ fault. IsWriteFault old offset bytes.now fault new) new result) cell.new.held) cell.old.held }
{
    let mut held = cell.take(alloc);
    let outcome = held.write(alloc, offset, bytes, through);
    cell.put(held);
    number_of(outcome)
}

/// Flushes the disk's caches. Answers the status.
#[unsafe(no_mangle)]
pub extern "C" fn saddlemug_flush(alloc: Global, cell: &mut Cell) -> u32
    requires { HoldsAnyVolume cell.old.held }
    ensures held { HoldsAnyVolume cell.new.held }
    ensures flushes { HoldsVolume (λ v. MatchBool (nat_eq result 0) ⊤ (IsNumberOf (IsFault v ⊤) result)) cell.old.held }
    ensures answered { HoldsVolume (λ old. HoldsVolume (λ new. IsToldNumber old (flush_of old) (IsFault old ⊤) new result) cell.new.held) cell.old.held }
    ensures same { HoldsVolume (λ old. HoldsVolume (IsSameDisk old) cell.new.held) cell.old.held }
{
    let mut held = cell.take(alloc);
    let outcome = held.flush(alloc);
    cell.put(held);
    number_of(outcome)
}

/// Ends the volume, and its disk with it. Its cell is empty then.
#[unsafe(no_mangle)]
pub extern "C" fn saddlemug_close_full(alloc: Global, cell: &mut Cell)
    requires { HoldsAnyVolume cell.old.held }
    ensures { cell.new.held ≡ None }
{
    drop(cell.take(alloc));
}
