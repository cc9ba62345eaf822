//! What the user of a volume calls.

ghost use Rattle.std.specs.Prelude.{◌≡◌, ◌<◌, ◌≤◌, ◌⊎◌, ◌*◌, ◌+◌, ◌^◌, ⊤, length, IfOk, IfErr, MatchResult};
ghost use Rattle.volume.specs.Shown.{content_of, handle_count};
ghost use Rattle.volume.specs.Ready.{IsReady};
ghost use Rattle.volume.specs.Calls.{AreInBounds, IsFault, IsSameDisk, IsToldAsAnswered, IsWriteFault, Reads, WasSent, Writes, flush_of, read_of, write_of};

use crate::carrying::{carry_out, step};
use crate::slowing::Slowing;
use crate::{Error, Sizes};
use adapter::Adapter;
use compose::{Event, Handle, Stack};
use injection::Rule;
use ntstatus::NtStatus;
use sector::Bytes;
use std::alloc::Global;
use std::marker::Model;

/// One partition of a stack, open for one user.
pub struct Volume<A: Adapter> {
    pub(crate) stack: Stack<A>,
    pub(crate) handle: Handle,
    pub(crate) partition: u8,
    pub(crate) sizes: Sizes,
    pub(crate) slowing: Slowing,
}

// Written by hand: each crate above would prove a derived one again.
impl<A: Adapter> Drop for Volume<A> {
    fn drop(self) {
        let Volume {
            stack: _,
            handle: _,
            partition: _,
            sizes: _,
            slowing: _,
        } = self;
    }
}

impl<A: Adapter> Model for Volume<A> {
    ghost use Rattle.volume.specs.Shown.{VolumeView, volume_over};
    ghost use Rattle.volume.specs.Ready.{VolumeKept};

    ghost Value = { VolumeView };

    ghost view = { λ v. volume_over v.stack v.partition };

    ghost invariant = { λ v. VolumeKept v.stack v.handle v.partition v.sizes };
}

impl<A: Adapter> Volume<A> {
    /// Has commands come back busy or take longer by these rules from now on, and by no others. A rule of another kind
    /// does nothing. A piece that came back busy is sent again, as often as the stack sends one; with
    /// [`NtStatus::DeviceBusy`] the request fails.
    pub fn with_rules(self, rules: Vec<Rule>) -> Volume<A>
        ensures { result ≡ self }
    {
        let mut volume = self;
        volume.slowing = Slowing::by(rules);
        volume
    }

    /// Returns by how many milliseconds rules delayed commands since this was asked last. Whoever serves the volume waits
    /// so long: a call only says so.
    pub fn take_delay(&mut self) -> u64
        ensures { self.new ≡ self.old }
    {
        self.slowing.take_delay()
    }

    /// Returns the bytes of a sector, and the number of sectors of the partition.
    pub fn sizes(&self) -> Sizes
        ensures sector_size { result.sector_size ≡ self.now.content.sector_size }
        ensures sectors { result.sectors * result.sector_size ≡ length self.now.content.bytes }
        ensures usual { (result.sector_size ≡ 512) ⊎ (result.sector_size ≡ 4096) }
        ensures few { result.sectors ≤ 2 ^ 40 }
    {
        self.sizes
    }

    /// Reads as many bytes as the buffer has, from byte `offset` of the partition on: whole sectors, 65,536 at most.
    ///
    /// # Errors
    ///
    /// As [`Error`] says. Nothing has changed.
    ///
    /// # Example
    ///
    /// ```
    /// let buffer = filled(alloc, 0, length)?;
    /// read_gives(volume.read(alloc, offset, buffer), given)
    /// ```
    pub fn read(&mut self, alloc: Global, offset: u64, buffer: Bytes) -> Result<Bytes, Error>
        ensures reads { MatchResult result (Reads self.old.content offset (length buffer)) (IsFault self.old (AreInBounds self.old.content offset (length buffer))) }
        ensures answered { IsToldAsAnswered self.old (read_of self.old offset (length buffer)) result self.new }
        ensures sent { IfErr result (WasSent self.old self.new) }
        ensures same { IsSameDisk self.old self.new }
    {
        let event = Event::Read {
            handle: self.handle,
            offset,
            buffer,
        };
        let answer = match carry_out(&mut self.stack, alloc, &mut self.slowing, event) {
            Ok(answer) => answer,
            Err(reason) => return Err(Error::Refused(reason)),
        };
        match answer.status {
            NtStatus::Success => Ok(answer.bytes),
            status => Err(Error::Failed(status)),
        }
    }

    /// Writes these bytes from byte `offset` of the partition on: whole sectors, 65,536 at most. With `through` they go
    /// past volatile caches (SBC: FUA).
    ///
    /// # Errors
    ///
    /// As [`Error`] says. A write that was refused has changed nothing. After one that failed, each sector of the write
    /// is as it was or was written, and nothing else has changed.
    ///
    /// # Example
    ///
    /// ```
    /// let bytes = filled(alloc, byte, length)?;
    /// gives(volume.write(alloc, offset, bytes, through), given)
    /// ```
    pub fn write(
        &mut self,
        alloc: Global,
        offset: u64,
        bytes: Bytes,
        through: bool,
    ) -> Result<(), Error>
        ensures in_bounds { IfOk result (λ _. AreInBounds self.old.content offset (length bytes)) }
        ensures writes { MatchResult result (λ _. Writes self.old offset bytes self.new) (λ fault. IsWriteFault self.old offset bytes fault self.new) }
        ensures answered { IsToldAsAnswered self.old (write_of self.old offset bytes through) result self.new }
        ensures sent { IfErr result (WasSent self.old self.new) }
    {
        let event = Event::Write {
            handle: self.handle,
            offset,
            bytes,
            through,
        };
        let written = match carry_out(&mut self.stack, alloc, &mut self.slowing, event) {
            Ok(answer) => answer,
            Err(reason) => return Err(Error::Refused(reason)),
        };
        match written.status {
            NtStatus::Success => Ok(()),
            status => Err(Error::Failed(status)),
        }
    }

    /// Flushes the disk's caches (SBC: SYNCHRONIZE CACHE). A flush that succeeds has sent the device a command.
    ///
    /// # Errors
    ///
    /// As [`Error`] says, but never [`Refusal::InvalidParameter`]. Nothing has changed.
    pub fn flush(&mut self, alloc: Global) -> Result<(), Error>
        ensures flushes { IfErr result (IsFault self.old ⊤) }
        ensures answered { IsToldAsAnswered self.old (flush_of self.old) result self.new }
        ensures sent { MatchResult result (λ _. self.old.state.next_piece < self.new.state.next_piece) (WasSent self.old self.new) }
        ensures same { IsSameDisk self.old self.new }
    {
        let event = Event::Flush {
            handle: self.handle,
        };
        let flushed = match carry_out(&mut self.stack, alloc, &mut self.slowing, event) {
            Ok(answer) => answer,
            Err(reason) => return Err(Error::Refused(reason)),
        };
        match flushed.status {
            NtStatus::Success => Ok(()),
            status => Err(Error::Failed(status)),
        }
    }

    /// Closes the handle, and gives the stack back with no request open and one handle fewer.
    pub fn close(self, alloc: Global) -> Stack<A>
        ensures ready { IsReady result }
        ensures same { content_of result self.partition ≡ self.content }
        ensures closed { handle_count result + 1 ≡ self.open_handles }
    {
        let Volume {
            mut stack,
            handle,
            partition: _,
            sizes: _,
            slowing: _,
        } = self;
        let _ = step(&mut stack, alloc, Event::Close { handle });
        stack
    }
}
