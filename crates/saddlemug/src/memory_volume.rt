//! A volume whose sectors stand in memory.

ghost use Rattle.std.specs.Prelude.{◌≡◌, ◌*◌, ⊤, length, IfErr, IfOk, MatchResult};
ghost use Rattle.volume.specs.Calls.{AreInBounds, IsFault, IsSameDisk, IsToldAsAnswered, Reads, WasSent, Writes, flush_of, read_of, write_of};
ghost use Rattle.volume.specs.Sparse.{AreZeros};
ghost use Rattle.saddlemug.specs.Calls.{IsReadFault, IsWriteFault, TellsRun};

use crate::bytes::copied;
use crate::volume_calls::DiskRun;
use adapter::Adapter;
use compose::Refusal;
use disk::SparseDisk;
use miniport::PlannedAdapter;
use sector::Bytes;
use std::alloc::Global;
use std::marker::Model;
use std::mem::replace;
use volume::{Error, Sizes, SparseVolume, Volume};

/// The most bytes of memory that are kept from one read to the next.
const KEPT: usize = 1 << 20;

/// A volume over a disk in memory, that was zeros when it was opened.
#[derive(Drop)]
pub struct MemoryVolume {
    volume: SparseVolume<PlannedAdapter<SparseDisk>>,
    /// The memory of the last read, with whatever stands in it.
    room: Vec<u8>,
}

impl Model for MemoryVolume {
    ghost use Rattle.volume.specs.Shown.{VolumeView};

    ghost Value = { VolumeView };

    ghost view = { λ v. v.volume };
}

impl MemoryVolume {
    /// Takes a volume of zeros.
    pub(crate) fn new(alloc: Global, volume: Volume<PlannedAdapter<SparseDisk>>) -> MemoryVolume
        requires { AreZeros volume.content.bytes }
        ensures { result ≡ volume }
    {
        MemoryVolume {
            volume: SparseVolume::new(alloc, volume),
            room: Vec::new(alloc),
        }
    }

    /// The sizes of the volume.
    pub(crate) fn sizes(&self) -> Sizes
        ensures sector_size { result.sector_size ≡ self.now.content.sector_size }
        ensures sectors { result.sectors * result.sector_size ≡ length self.now.content.bytes }
    {
        self.volume.sizes()
    }

    /// How many bytes from byte `offset` of the partition on, at most `count`, are alike, as [`SparseVolume::run`]. None
    /// where these are no whole sectors of it, one at least.
    pub(crate) fn run(&self, offset: u64, count: u64) -> DiskRun
        ensures { TellsRun self.now.content offset count result }
    {
        if self.volume.has_sectors(offset, count) {
            let run = self.volume.run(offset, count);
            DiskRun {
                count: run.count,
                are_zeros: run.are_zeros,
            }
        } else {
            DiskRun {
                count: 0,
                are_zeros: false,
            }
        }
    }

    /// Reads from the volume, as [`read_into`].
    ///
    /// # Errors
    ///
    /// As [`read_into`].
    pub(crate) fn read(
        &mut self,
        alloc: Global,
        offset: u64,
        buffer: &mut [u8],
    ) -> Result<(), Error>
        ensures reads { MatchResult result (λ _. Reads self.old.content offset (length buffer.old) buffer.new) (IsReadFault self.old offset (length buffer.old)) }
        ensures answered { IsToldAsAnswered self.old (read_of self.old offset (length buffer.old)) result self.new }
        ensures sent { IfErr result (WasSent self.old self.new) }
        ensures as_it_was { IfErr result (λ _. buffer.new ≡ buffer.old) }
        ensures same { IsSameDisk self.old self.new }
    {
        read_into(&mut self.volume, alloc, offset, buffer, &mut self.room)
    }

    /// Writes to the volume, as [`write_from`].
    ///
    /// # Errors
    ///
    /// As [`write_from`].
    pub(crate) fn write(
        &mut self,
        alloc: Global,
        offset: u64,
        bytes: &[u8],
        through: bool,
    ) -> Result<(), Error>
        ensures in_bounds { IfOk result (λ _. AreInBounds self.old.content offset (length bytes.now)) }
        ensures writes { MatchResult result (λ _. Writes self.old offset bytes.now self.new) (λ fault. IsWriteFault self.old offset bytes.now fault self.new) }
        ensures answered { IsToldAsAnswered self.old (write_of self.old offset bytes.now through) result self.new }
        ensures sent { IfErr result (WasSent self.old self.new) }
    {
        write_from(&mut self.volume, alloc, offset, bytes, through)
    }

    /// Flushes the disk's caches, as [`SparseVolume::flush`].
    ///
    /// # Errors
    ///
    /// As [`SparseVolume::flush`].
    pub(crate) fn flush(&mut self, alloc: Global) -> Result<(), Error>
        ensures flushes { IfErr result (IsFault self.old ⊤) }
        ensures answered { IsToldAsAnswered self.old (flush_of self.old) result self.new }
        ensures sent { IfErr result (WasSent self.old self.new) }
        ensures same { IsSameDisk self.old self.new }
    {
        self.volume.flush(alloc)
    }
}

/// Reads as many bytes as the buffer has, from byte `offset` of the partition on, by way of `room`.
///
/// # Errors
///
/// As [`Volume::read`], and [`Refusal::InsufficientResources`] where memory for the bytes was refused. The buffer is as
/// it was.
fn read_into<A: Adapter>(
    volume: &mut SparseVolume<A>,
    alloc: Global,
    offset: u64,
    buffer: &mut [u8],
    room: &mut Vec<u8>,
) -> Result<(), Error>
    ensures reads { MatchResult result (λ _. Reads volume.old.content offset (length buffer.old) buffer.new) (IsReadFault volume.old offset (length buffer.old)) }
    ensures answered { IsToldAsAnswered volume.old (read_of volume.old offset (length buffer.old)) result volume.new }
    ensures sent { IfErr result (WasSent volume.old volume.new) }
    ensures as_it_was { IfErr result (λ _. buffer.new ≡ buffer.old) }
    ensures same { IsSameDisk volume.old volume.new }
{
    let mut bytes = replace(room, Vec::new(alloc));
    // What stands in it is written over. Zeros are added only where it is too short.
    if bytes.resize(buffer.len(), 0).is_err() {
        return Err(Error::Refused(Refusal::InsufficientResources));
    }
    match volume.read(alloc, offset, Bytes::new(bytes)) {
        Ok(bytes) => {
            buffer.copy_from_slice(bytes.as_slice());
            keep(room, bytes.into_spare());
            Ok(())
        }
        Err(fault) => Err(fault),
    }
}

/// Keeps the memory of a read, unless it is much.
fn keep(room: &mut Vec<u8>, bytes: Vec<u8>) {
    if bytes.capacity() <= KEPT {
        *room = bytes;
    }
}

/// Writes these bytes from byte `offset` of the partition on, past volatile caches if `through`.
///
/// # Errors
///
/// As [`Volume::write`], and [`Refusal::InsufficientResources`] where memory for the bytes was refused; then nothing
/// has changed.
fn write_from<A: Adapter>(
    volume: &mut SparseVolume<A>,
    alloc: Global,
    offset: u64,
    bytes: &[u8],
    through: bool,
) -> Result<(), Error>
    ensures in_bounds { IfOk result (λ _. AreInBounds volume.old.content offset (length bytes.now)) }
    ensures writes { MatchResult result (λ _. Writes volume.old offset bytes.now volume.new) (λ fault. IsWriteFault volume.old offset bytes.now fault volume.new) }
    ensures answered { IsToldAsAnswered volume.old (write_of volume.old offset bytes.now through) result volume.new }
    ensures sent { IfErr result (WasSent volume.old volume.new) }
{
    match copied(alloc, bytes) {
        Ok(copy) => volume.write(alloc, offset, copy, through),
        Err(_) => Err(Error::Refused(Refusal::InsufficientResources)),
    }
}
