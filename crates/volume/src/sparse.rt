//! A volume that was zeros when it was opened, and knows where something may have been written since.

ghost use Rattle.std.specs.Prelude.{◌≡◌, ◌<◌, ◌≤◌, ◌⊎◌, ◌↔◌, ◌*◌, ◌+◌, ◌^◌, ⊤, length, IfOk, IfErr, IsTrue, MatchResult};
ghost use Rattle.volume.specs.Shown.{content_of, handle_count};
ghost use Rattle.volume.specs.Ready.{IsReady};
ghost use Rattle.volume.specs.Calls.{AreInBounds, IsFault, IsSameDisk, IsToldAsAnswered, IsWriteFault, Reads, WasSent, Writes, flush_of, read_of, write_of};
ghost use Rattle.volume.specs.Sparse.{AreSectors, AreZeros, IsRun};

use crate::written::Written;
use crate::{Error, Run, Sizes, Volume};
use adapter::Adapter;
use compose::Stack;
use sector::Bytes;
use std::alloc::Global;
use std::marker::Model;

/// A volume that was zeros when it was opened, and that tells where it still is.
pub struct SparseVolume<A: Adapter> {
    volume: Volume<A>,
    written: Written,
}

// Written by hand: each crate above would prove a derived one again.
impl<A: Adapter> Drop for SparseVolume<A> {
    fn drop(self) {
        let SparseVolume {
            volume: _,
            written: _,
        } = self;
    }
}

impl<A: Adapter> Model for SparseVolume<A> {
    ghost use Rattle.volume.specs.Shown.{VolumeView};
    ghost use Rattle.volume.specs.inside.Written.{HoldsZeros};

    ghost Value = { VolumeView };

    ghost view = { λ v. v.volume };

    ghost invariant = { λ v. HoldsZeros v.written v.volume.content.bytes };
}

impl<A: Adapter> SparseVolume<A> {
    /// Takes a volume of zeros.
    pub fn new(alloc: Global, volume: Volume<A>) -> SparseVolume<A>
        requires zeros { AreZeros volume.content.bytes }
        ensures { result ≡ volume }
    {
        SparseVolume {
            volume,
            written: Written::new(alloc),
        }
    }

    /// Whether `count` bytes from byte `offset` on are whole sectors of the partition, one at least.
    pub fn has_sectors(&self, offset: u64, count: u64) -> bool
        ensures { IsTrue result ↔ AreSectors self.now.content offset count }
    {
        let sector_size = self.sizes().sector_size;
        let size = self.size();
        let is_whole = offset % sector_size == 0 && count % sector_size == 0;
        is_whole && 0 < count && count <= size && offset <= size - count
    }

    /// How many bytes from byte `offset` of the partition on, at most `count`, are alike: known to be zeros, or not
    /// known to be. It asks nothing of the adapter, and takes no memory.
    ///
    /// # Example
    ///
    /// ```
    /// if volume.has_sectors(offset, count) {
    ///     Some(volume.run(offset, count))
    /// } else {
    ///     None
    /// }
    /// ```
    pub fn run(&self, offset: u64, count: u64) -> Run
        requires { AreSectors self.now.content offset count }
        ensures { IsRun self.now.content offset count result }
    {
        // What the sizes are is known once they are asked.
        let _size = self.size();
        let _sizes = self.sizes();
        self.written.run(offset, count)
    }

    /// How many bytes the partition has.
    fn size(&self) -> u64
        ensures size { result ≡ length self.now.content.bytes }
        ensures small { result < 2 ^ 63 }
    {
        let sizes = self.volume.sizes();
        sizes.sectors * sizes.sector_size
    }

    /// As [`Volume::sizes`].
    pub fn sizes(&self) -> Sizes
        ensures sector_size { result.sector_size ≡ self.now.content.sector_size }
        ensures sectors { result.sectors * result.sector_size ≡ length self.now.content.bytes }
        ensures usual { (result.sector_size ≡ 512) ⊎ (result.sector_size ≡ 4096) }
        ensures few { result.sectors ≤ 2 ^ 40 }
    {
        self.volume.sizes()
    }

    /// As [`Volume::read`].
    ///
    /// # Errors
    ///
    /// As [`Volume::read`].
    pub fn read(&mut self, alloc: Global, offset: u64, buffer: Bytes) -> Result<Bytes, Error>
        ensures reads { MatchResult result (Reads self.old.content offset (length buffer)) (IsFault self.old (AreInBounds self.old.content offset (length buffer))) }
        ensures answered { IsToldAsAnswered self.old (read_of self.old offset (length buffer)) result self.new }
        ensures sent { IfErr result (WasSent self.old self.new) }
        ensures same { IsSameDisk self.old self.new }
    {
        self.volume.read(alloc, offset, buffer)
    }

    /// As [`Volume::write`].
    ///
    /// # Errors
    ///
    /// As [`Volume::write`]. Where memory for what is known of zeros was refused no call fails, but nothing is known to
    /// be zeros from then on.
    pub fn write(
        &mut self,
        alloc: Global,
        offset: u64,
        bytes: Bytes,
        through: bool,
    ) -> Result<(), Error>
        ensures in_bounds { IfOk result (λ _. AreInBounds self.old.content offset (length bytes)) }
        ensures writes { MatchResult result (λ _. Writes self.old offset bytes self.new) (λ fault. IsWriteFault self.old offset bytes fault self.new) }
        ensures answered { IsToldAsAnswered self.old (write_of self.old offset bytes through) result self.new }
        ensures sent { IfErr result (WasSent self.old self.new) }
    {
        let size = self.size();
        self.written.mark(offset, bytes.len() as u64, size);
        self.volume.write(alloc, offset, bytes, through)
    }

    /// As [`Volume::flush`].
    ///
    /// # Errors
    ///
    /// As [`Volume::flush`].
    pub fn flush(&mut self, alloc: Global) -> Result<(), Error>
        ensures flushes { IfErr result (IsFault self.old ⊤) }
        ensures answered { IsToldAsAnswered self.old (flush_of self.old) result self.new }
        ensures sent { MatchResult result (λ _. self.old.state.next_piece < self.new.state.next_piece) (WasSent self.old self.new) }
        ensures same { IsSameDisk self.old self.new }
    {
        self.volume.flush(alloc)
    }

    /// As [`Volume::take_delay`].
    pub fn take_delay(&mut self) -> u64
        ensures { self.new ≡ self.old }
    {
        self.volume.take_delay()
    }

    /// As [`Volume::close`].
    pub fn close(self, alloc: Global) -> Stack<A>
        ensures ready { IsReady result }
        ensures same { content_of result self.partition ≡ self.content }
        ensures closed { handle_count result + 1 ≡ self.open_handles }
    {
        let SparseVolume { volume, written: _ } = self;
        volume.close(alloc)
    }
}
