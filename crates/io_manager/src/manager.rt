//! Client calls and adapter steps over any device stack. Each call restores the manager's invariant.

ghost use Rattle.std.specs.Prelude.{◌≡◌, ◌<◌, [], false, length, option_copied, Some, None, IsTrue, MatchOption};
ghost use Rattle.adapter.specs.View.{IsInOrder};
ghost use Rattle.adapter.specs.Calls.{HasNoneFresh};
ghost use Rattle.adapter.specs.Booking.{IsArmed, handed};
ghost use Rattle.srb.specs.declared.Kind.TheVariants.{Read, Write, Flush};
ghost use Rattle.machine.specs.Rules.{sectors_of};
ghost use Rattle.machine.specs.Settled.{Settled, IsFinished};
ghost use Rattle.machine_laws.specs.Reached.{IsReached};
ghost use Rattle.io_manager.specs.Calls.{asked_on, call_on, without_bytes, opened_as, would_open};
ghost use Rattle.io_manager.specs.inside.Admitting.{asked_for, AreBoundsOf, Decides, IsAdmissible};
ghost use Rattle.io_manager.specs.Right.{IsRight, IsRightReset, Refuses, IsHandleOpen, CallReplies, OpenReplies};
ghost use Rattle.io_manager.specs.Right.{CloseReplies, CancelReplies, MarkReplies, ActReplies, BooksPiece};
ghost use Rattle.io_manager.specs.Right.{FinishReplies, FitsTogether, IsNextAnswer, TakesAnswer, TakesShown, TakesLabel as TakesFirst};

use crate::admission::{AtOnce, Bounds, Decision, refusal_of, request_below, request_for};
use crate::parts::Parts;
use crate::tables::{NUMBER_LIMIT, refused, refused_alone};
use crate::{Answer, Asked, Handle, Id, Refusal, Reply};
use device::{ClientRequest, Device, Kind, Label, Shown};
use sector::{Bytes, Extent};
use srb::{Booked, Srb};
use std::alloc::Global;
use std::marker::Model;

/// A device stack with the handles and requests that are open on it, between two steps. All labels of a step have to be
/// taken or forgotten before the next.
pub struct IoManager<D: Shown> {
    pub(crate) parts: Parts<D>,
}

// By hand, so that no crate above proves it again, as it would a derived one.
impl<D: Shown> Drop for IoManager<D> {
    fn drop(self) {
        let IoManager { parts: _ } = self;
    }
}

impl<D: Shown> Model for IoManager<D> {
    ghost use Rattle.std.specs.Prelude.{◌≤◌, IsFalse};
    ghost use Rattle.io_manager.specs.Shown.{ManagerView};
    ghost use Rattle.io_manager.specs.Opening.{HasNoRooms};
    ghost use Rattle.io_manager.specs.inside.Sound.{ManagerKept, view_of};

    ghost Value = { ManagerView };

    ghost view = { λ s. view_of s.parts.limits (D.view s.parts.device) s.parts.tables };

    ghost invariant = { λ s. record {
      takes_buffers : IsFalse D.takes_srb;
      locations : D.stack_size ≤ 4;
      vacant : HasNoRooms (D.view s.parts.device);
      kept : ManagerKept s.parts.limits (D.view s.parts.device) s.parts.tables;
    } };
}

impl<D: Shown> IoManager<D> {
    /// Gives the device back, as it is, with what was sent there. The handles, and the answers that nobody took, are
    /// gone.
    pub fn into_device(self) -> D
        ensures { (D.view result).adapter ≡ self.adapter }
    {
        let IoManager { parts } = self;
        let Parts {
            device,
            limits: _,
            tables: _,
            spare_packets: _,
        } = parts;
        device
    }
}

impl<D: Device> IoManager<D> {
    /// Gives a handle on a partition, counted from 0 (WDK: IRP_MJ_CREATE). It takes no memory.
    ///
    /// Refused, with nothing changed, as `DeletePending` while the device is being removed, `InvalidParameter` where
    /// there is no such partition, and `DeviceBusy` with 64 handles open or once handle numbers are used up.
    pub fn open(&mut self, alloc: Global, partition: u8) -> Reply
        requires taken { self.old.labels ≡ [] }
        ensures right { IsRight (OpenReplies self.old partition result self.new) self.old self.new }
    {
        let partitions = self.parts.device.volumes();
        self.parts
            .tables
            .open(alloc, partition, partitions as usize)
    }

    /// Cancels all requests that are open on a handle, by rising numbers, and closes it; their answers still come (WDK:
    /// IRP_MJ_CLEANUP). It takes no memory. Refused as `InvalidHandle`, with nothing changed.
    pub fn close(&mut self, alloc: Global, handle: Handle) -> Reply
        requires taken { self.old.labels ≡ [] }
        ensures right { IsRight (CloseReplies self.old handle result self.new) self.old self.new }
    {
        if self.parts.tables.partition_of(handle).is_none() {
            return refused_alone(alloc, Refusal::InvalidHandle);
        }
        self.parts.cancel_all_of(handle);
        self.parts.tables.close_handle(handle.slot);
        self.parts.collect();
        Reply::Ok
    }

    /// Reads as many bytes as the buffer has, from byte `offset` of the handle's partition on (WDK: IRP_MJ_READ).
    ///
    /// Refused, with a label for the call and one for its answer, by the first that fits: `InvalidHandle`,
    /// `DeletePending`, `InvalidParameter`, `DeviceBusy`. A read of no bytes succeeds at once. Refused with nothing
    /// changed and no label, as `DeviceBusy` once request numbers are used up, and as `InsufficientResources` where
    /// memory was refused.
    pub fn read(&mut self, alloc: Global, handle: Handle, offset: u64, buffer: Bytes) -> Reply
        requires taken { self.old.labels ≡ [] }
        ensures right { IsRight
            (CallReplies self.old handle (call_on self.old handle Read offset buffer false) buffer result self.new)
            self.old self.new }
    {
        let asked = Asked {
            kind: Kind::Read,
            offset,
            length: buffer.len() as u64,
            through: false,
        };
        self.call(alloc, handle, asked, buffer)
    }

    /// Writes these bytes from byte `offset` of the handle's partition on, past volatile caches if `through` (WDK:
    /// IRP_MJ_WRITE, SL_WRITE_THROUGH). Refused as [`IoManager::read`]. It reserves runs at the adapter that have a
    /// sector of its own, also where memory was then refused and the write with it; no other call reserves any.
    pub fn write(
        &mut self,
        alloc: Global,
        handle: Handle,
        offset: u64,
        bytes: Bytes,
        through: bool,
    ) -> Reply
        requires taken { self.old.labels ≡ [] }
        ensures right { IsRight
            (CallReplies self.old handle (call_on self.old handle Write offset bytes through) bytes result self.new)
            self.old self.new }
    {
        let asked = Asked {
            kind: Kind::Write,
            offset,
            length: bytes.len() as u64,
            through,
        };
        self.call(alloc, handle, asked, bytes)
    }

    /// Flushes the disk's caches (WDK: IRP_MJ_FLUSH_BUFFERS). Refused as [`IoManager::read`], but never as
    /// `InvalidParameter`.
    pub fn flush(&mut self, alloc: Global, handle: Handle) -> Reply
        requires taken { self.old.labels ≡ [] }
        ensures right { IsRight
            (CallReplies self.old handle (call_on self.old handle Flush 0 [] false) [] result self.new)
            self.old self.new }
    {
        let asked = Asked {
            kind: Kind::Flush,
            offset: 0,
            length: 0,
            through: false,
        };
        self.call(alloc, handle, asked, Bytes::new(Vec::new(alloc)))
    }

    /// Returns what a read, a write or a flush of this many bytes, from byte `offset` of the handle's partition on,
    /// would open if it were called now and no memory were refused: the number of pieces that its request is cut into,
    /// and its sectors of the disk, in order. For a flush `offset` and `length` are 0; it has one piece, and an empty
    /// extent where the partition begins. It takes no memory.
    ///
    /// `None` where the call would be refused for another cause or is a read or a write of no bytes, and once request
    /// numbers are used up.
    pub fn admits(
        &self,
        handle: Handle,
        kind: Kind,
        offset: u64,
        length: u64,
    ) -> Option<(u64, Extent)>
        requires plain { kind ≡ Flush → (offset ≡ 0) × (length ≡ 0) }
        ensures { result ≡ would_open self.now (asked_on self.now handle kind offset length false) }
    {
        let partition = self.parts.tables.partition_of(handle);
        let asked = Asked {
            kind,
            offset,
            length,
            through: false,
        };
        match self.decide(partition, asked) {
            Decision::Opens => Some(self.opened_by(partition, asked)),
            Decision::UsedUp | Decision::Ends(_) => None,
        }
    }

    /// Carries out a call without its buffer, where it is refused before it asks for memory, and returns the refusal: the
    /// step is that of the call with any buffer of this length. `None`, with nothing changed, where the call would not
    /// be refused so.
    pub fn refuse(&mut self, alloc: Global, handle: Handle, asked: Asked) -> Option<Refusal>
        requires taken { self.old.labels ≡ [] }
        requires plain { asked.kind ≡ Flush → (asked.offset ≡ 0) × (asked.length ≡ 0) }
        ensures right { MatchOption result (self.new ≡ self.old)
            (λ refusal. Refuses self.old handle asked refusal self.new) }
    {
        let partition = self.parts.tables.partition_of(handle);
        match self.decide(partition, asked) {
            Decision::UsedUp => Some(Refusal::DeviceBusy),
            Decision::Ends(at_once) => match at_once {
                AtOnce::Refused(refusal) => {
                    let request = request_for(alloc, partition, asked);
                    let _number = self
                        .parts
                        .tables
                        .tell_at_once(alloc, request, refusal.status());
                    Some(refusal)
                }
                AtOnce::Empty => None,
            },
            Decision::Opens => None,
        }
    }

    /// Bytes of a sector of the disk.
    pub fn sector_size(&self) -> u64
        ensures { result ≡ self.now.rules.sector_size }
    {
        self.parts.limits.sector_size
    }

    /// Tags of the adapter.
    pub fn depth(&self) -> u8
        ensures { result ≡ self.now.rules.depth }
    {
        self.parts.limits.depth
    }

    /// Sectors of a partition, counted from 0. There are none where there is no such partition.
    pub fn sectors(&self, partition: u8) -> u64
        ensures { result ≡ sectors_of self.now.rules (Some partition) }
    {
        self.parts.device.sectors(partition)
    }

    /// Cancels all requests that are open on a handle, by rising numbers, or the one that is given (CancelIoEx). It
    /// takes no memory, and succeeds where there is such a request, also one that was cancelled before. Refused, with
    /// nothing changed, as `InvalidHandle` or `NotFound`.
    pub fn cancel_io_ex(&mut self, alloc: Global, handle: Handle, target: Option<Id>) -> Reply
        requires taken { self.old.labels ≡ [] }
        ensures right { IsRight (CancelReplies self.old handle target result self.new) self.old self.new }
    {
        if self.parts.tables.partition_of(handle).is_none() {
            return refused_alone(alloc, Refusal::InvalidHandle);
        }
        match target {
            None => self.cancel_of(alloc, handle),
            Some(id) => self.cancel_one_of(alloc, handle, id),
        }
    }

    /// Cancels the open request of a number, whatever its handle. It takes no memory. Ignored where there is none.
    pub fn mark(&mut self, number: u64) -> Reply
        requires taken { self.old.labels ≡ [] }
        ensures right { IsRight (MarkReplies self.old number result self.new) self.old self.new }
    {
        let Some(slot) = self.parts.tables.slot_of(number) else {
            return Reply::Ignored;
        };
        self.parts.cancel_if_open(slot);
        self.parts.collect();
        Reply::Ok
    }

    /// Has the adapter carry out the command on a tag, or fail it. Ignored where the tag has no piece that could act.
    pub fn act(&mut self, tag: u8) -> Reply
        requires taken { self.old.labels ≡ [] }
        ensures right { IsRight (ActReplies self.old tag result self.new) self.old self.new }
    {
        self.parts.device.shows_order();
        if !self.parts.device.act(tag) {
            return Reply::Ignored;
        }
        self.parts.tell_device();
        Reply::Ok
    }

    /// The piece on a tag that could act, with its SRB.
    pub fn armed(&self, tag: u8) -> Option<(u128, &Srb)>
        ensures { MatchOption result (HasNoneFresh self.now.adapter tag)
            (λ found. IsArmed self.now.adapter tag found.0 found.1.now) }
    {
        self.parts.device.armed(tag)
    }

    /// Books what the act of a tag's piece did, or how it failed, with an adapter whose sectors stand elsewhere. It
    /// takes no memory, and changes nothing of the machine.
    pub fn book(&mut self, tag: u8, piece: u128, what: Booked<'_>)
        ensures { BooksPiece self.old tag piece (handed self.old.adapter tag piece what.entry) self.new }
    {
        self.parts.device.book(tag, piece, what);
    }

    /// Has the adapter hand back the piece on a tag. Ignored where the tag is free.
    pub fn finish(&mut self, tag: u8) -> Reply
        requires taken { self.old.labels ≡ [] }
        ensures right { IsRight (FinishReplies self.old tag result self.new) self.old self.new }
    {
        self.parts.device.shows_order();
        if !self.parts.device.finish(tag) {
            return Reply::Ignored;
        }
        self.parts.collect();
        Reply::Ok
    }

    /// Resets the adapter: each piece that has done nothing fails, and each piece out will come back as bad.
    pub fn reset(&mut self)
        requires taken { self.old.labels ≡ [] }
        ensures right { IsRightReset self.old self.new }
    {
        self.parts.device.shows_order();
        self.parts.device.reset();
        self.parts.tell_device();
    }

    /// From now on the labels of each step are kept until they are taken. Without `keep` none is kept and no bytes are
    /// copied for them, and contracts alone read them.
    pub fn keep_labels(&mut self, keep: bool)
        requires taken { self.old.labels ≡ [] }
        ensures keeps { self.new ≡ record self.old { keeps = keep } }
    {
        self.parts.tables.keep_labels(keep);
    }

    /// Takes the earliest label of the last step that was not taken yet, as memory has it: its bytes are there where
    /// labels keep theirs, and else none. Only while labels are kept ([`IoManager::keep_labels`]).
    pub fn take_shown(&mut self) -> Option<Label>
        requires kept { IsTrue self.old.keeps }
        ensures takes { TakesShown self.old result self.new }
    {
        self.parts.tables.labels.take_first()
    }

    /// Takes the earliest label of the last step that was not taken yet. Only while labels are kept
    /// ([`IoManager::keep_labels`]), with their bytes.
    pub fn take_label(&mut self) -> Option<Label>
        requires kept { IsTrue self.old.keeps }
        requires bytes { IsTrue self.old.rules.keeps_bytes }
        ensures takes { TakesFirst self.old result self.new }
    {
        self.take_shown()
    }

    /// Forgets all labels of the last step that were not taken.
    pub fn forget_labels(&mut self)
        ensures forgets { self.new ≡ record self.old { labels = [] } }
    {
        self.parts.tables.labels.forget();
    }

    /// The waiting answer with the lowest number, which [`IoManager::take_answer`] takes next.
    pub fn first_answer(&self) -> Option<&Answer>
        ensures next { IsNextAnswer self.now (option_copied result) }
    {
        self.parts.tables.untaken.front()
    }

    /// Takes the waiting answer with the lowest number.
    pub fn take_answer(&mut self) -> Option<Answer>
        ensures takes { TakesAnswer self.old result self.new }
    {
        self.parts.tables.untaken.pop_front()
    }

    /// Shows the caller that the view between two calls is settled and whole, that a removal with nothing open has
    /// ended, and that a run leads to it.
    pub fn shows_whole(&self)
        ensures settled { Settled self.now.rules self.now.state }
        ensures finished { IsFinished self.now.state }
        ensures whole { FitsTogether self.now }
        ensures reached { IsReached self.now.rules self.now.state }
        ensures in_order { IsInOrder self.now.adapter }
    {
        self.parts.device.shows_order();
    }

    /// Carries out a read, a write or a flush with this buffer.
    fn call(&mut self, alloc: Global, handle: Handle, asked: Asked, buffer: Bytes) -> Reply
        requires taken { self.old.labels ≡ [] }
        requires plain { asked.kind ≡ Flush → (asked.offset ≡ 0) × (buffer ≡ []) }
        requires length { asked.length ≡ length buffer }
        ensures right { IsRight
            (CallReplies self.old handle
            (call_on self.old handle asked.kind asked.offset buffer asked.through) buffer result self.new)
            self.old self.new }
    {
        let partition = self.parts.tables.partition_of(handle);
        match self.decide(partition, asked) {
            Decision::UsedUp => refused(Refusal::DeviceBusy, buffer),
            Decision::Ends(at_once) => {
                let request = request_for(alloc, partition, asked);
                self.parts
                    .tables
                    .answer_at_once(alloc, request, at_once, buffer)
            }
            Decision::Opens => {
                let request = request_for(alloc, partition, asked);
                self.admit(alloc, handle, request, buffer)
            }
        }
    }

    /// Returns what is decided of a call on a partition.
    fn decide(&self, partition: Option<u8>, asked: Asked) -> Decision
        ensures { Decides self.now (asked_for partition asked) result }
    {
        if self.parts.tables.next_request >= NUMBER_LIMIT {
            return Decision::UsedUp;
        }
        let bounds = self.bounds_of(partition);
        match refusal_of(&bounds, partition, asked) {
            Some(at_once) => Decision::Ends(at_once),
            None => Decision::Opens,
        }
    }

    /// Returns what bounds a request of a client on a partition.
    fn bounds_of(&self, partition: Option<u8>) -> Bounds
        ensures some_bytes { 0 < result.sector_size }
        ensures bounds { AreBoundsOf result partition self.now.rules self.now.state }
    {
        let sectors = match partition {
            Some(volume) => self.parts.device.sectors(volume),
            None => 0,
        };
        Bounds {
            sector_size: self.parts.limits.sector_size,
            sectors,
            longest: self.parts.device.longest(),
            open_requests: self.parts.limits.open_requests,
            open_count: self.parts.tables.requests.len(),
            removing: self.parts.tables.is_going(),
        }
    }

    /// The number of pieces and the sectors of the disk of a request that nothing refuses.
    fn opened_by(&self, partition: Option<u8>, asked: Asked) -> (u64, Extent)
        requires { IsAdmissible self.now (asked_for partition asked) }
        ensures { result ≡ opened_as self.now.rules (asked_for partition asked) }
    {
        let limits = &self.parts.limits;
        let first = limits.first_sector(partition) + asked.offset / limits.sector_size;
        let count = asked.length / limits.sector_size;
        let places = asked.place_count(limits.sector_size);
        let pieces = places.div_ceil(limits.max_transfer as u64);
        (pieces, Extent { first, count })
    }

    /// Opens a request and sends it down, or turns it away where memory was refused.
    fn admit(
        &mut self,
        alloc: Global,
        handle: Handle,
        request: ClientRequest,
        buffer: Bytes,
    ) -> Reply
        requires taken { self.old.labels ≡ [] }
        requires admissible { IsAdmissible self.old request }
        requires is_call { request ≡ without_bytes
            (call_on self.old handle request.kind request.offset buffer request.through) }
        ensures right { IsRight
            (CallReplies self.old handle
            (call_on self.old handle request.kind request.offset buffer request.through) buffer result self.new)
            self.old self.new }
    {
        let below = request_below(self.parts.limits.sector_size, &request);
        let Ok(prepared) = self.parts.reserve(alloc, below, &buffer) else {
            return refused(Refusal::InsufficientResources, buffer);
        };
        let id = self.parts.send(handle, request, buffer, prepared);
        self.parts.collect();
        Reply::Request(id)
    }

    /// Cancels all requests that are open on an open handle.
    fn cancel_of(&mut self, alloc: Global, handle: Handle) -> Reply
        requires taken { self.old.labels ≡ [] }
        requires open { IsHandleOpen self.old handle }
        ensures right { IsRight (CancelReplies self.old handle None result self.new) self.old self.new }
    {
        if !self.parts.tables.has_open(handle) {
            return refused_alone(alloc, Refusal::NotFound);
        }
        self.parts.cancel_all_of(handle);
        self.parts.collect();
        Reply::Ok
    }

    /// Cancels a request that is open on an open handle.
    fn cancel_one_of(&mut self, alloc: Global, handle: Handle, id: Id) -> Reply
        requires taken { self.old.labels ≡ [] }
        requires open { IsHandleOpen self.old handle }
        ensures right { IsRight (CancelReplies self.old handle (Some id) result self.new) self.old self.new }
    {
        if !self.parts.tables.holds_at(id, handle.number) {
            return refused_alone(alloc, Refusal::NotFound);
        }
        self.parts.cancel_if_open(id.slot as usize);
        self.parts.collect();
        Reply::Ok
    }
}
