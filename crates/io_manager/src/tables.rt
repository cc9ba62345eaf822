//! What the manager keeps beside the device: handles, open requests, the plug and play state, labels and answers.

ghost use Rattle.std.specs.Prelude.{◌≡◌, ◌≤◌, ◌<◌, ◌+◌, ◌^◌, ◌++◌, ◌∷◌, ◌&&◌, [], true, false, length, is_some, OnOk};
ghost use Rattle.std.specs.Prelude.{MatchBool};
ghost use Rattle.std.specs.VecDeque.{deque_len, deque_capacity};
ghost use Rattle.slab.specs.Slab.{HasRoomFor, slab_len};
ghost use Rattle.io_manager.specs.declared.Reply.TheVariants.{Refused as RefusedReply};
ghost use Rattle.io_manager.specs.Calls.{partition_of, are_used_up, handle_limit};
ghost use Rattle.io_manager.specs.inside.Chains.{AreChained, AreNumbered, AreCounted, remainder_of};
ghost use Rattle.io_manager.specs.inside.Cancelling.{ClosesSlot, HasSome, HasNoneOf, IsOpenAt, IsNotOpenAt};
ghost use Rattle.io_manager.specs.inside.Admitting.{AnswersAtOnce, KeepsAnswers, Admits, OpensHandle, status_at_once};
ghost use Rattle.io_manager.specs.inside.Admitting.{reply_at_once, is_going, IsCopied};
ghost use Rattle.io_manager.specs.inside.Queue.{SameQueue};
ghost use Rattle.machine.specs.Bare.{in_memory};
ghost use Rattle.machine.specs.declared.Label.TheVariants.{Call};

use crate::admission::{AtOnce, CallBytes, LabelBytes};
use crate::chains::{CHAIN_LIMIT, Chains, REQUEST_LIMIT};
use crate::label_queue::LabelQueue;
use crate::{Answer, Handle, Id, OpenHandle, Refusal, Reply};
use device::{ClientRequest, Kind, Label};
use ntstatus::NtStatus;
use pnp::State;
use sector::{Bytes, LabelRoom};
use slab::Slab;
use std::alloc::{AllocError, Global};
use std::collections::VecDeque;

/// Numbers of requests and of handles are below this one.
pub(crate) const NUMBER_LIMIT: u64 = 1 << 62;

/// How many handles may be open at once.
pub(crate) const HANDLE_LIMIT: usize = CHAIN_LIMIT;

/// The number of places for labels: more than a step tells.
pub(crate) const LABEL_PLACES: usize = 256;

/// An open request, at its slot.
#[derive(Debug, Drop)]
pub(crate) struct OpenRequest {
    pub(crate) number: u64,
    /// The number of its call's handle.
    pub(crate) handle: u64,
    /// The slot of its call's handle.
    pub(crate) handle_slot: u32,
    pub(crate) kind: Kind,
    /// The spot of its packet in the device below.
    pub(crate) spot: usize,
    pub(crate) cancelled: bool,
    /// Room for a read's bytes in the label of its answer; none for other kinds.
    pub(crate) label_bytes: LabelRoom,
}

/// All that the manager keeps itself. The places for what a step may add are made before the step.
#[derive(Drop)]
pub(crate) struct Tables {
    /// The number of the next request, from 1.
    pub(crate) next_request: u64,
    /// The number of the next handle, from 1.
    pub(crate) next_handle: u64,
    pub(crate) state: State,
    pub(crate) handles: Slab<OpenHandle>,
    pub(crate) requests: Slab<OpenRequest>,
    /// The requests that are not cancelled yet, by handle.
    pub(crate) chains: Chains,
    /// All open requests, by their number modulo 64.
    pub(crate) by_number: Chains,
    /// By slots: the requests that are open on the handle there.
    pub(crate) open_counts: [u8; HANDLE_LIMIT],
    /// The labels that were not taken yet, in order.
    pub(crate) labels: LabelQueue<Label>,
    /// The labels of the answers of this step, by rising numbers.
    pub(crate) answered: LabelQueue<Answer>,
    /// The answers that were not taken yet, by rising numbers.
    pub(crate) untaken: VecDeque<Answer>,
}

/// The chain that a request of this number stands in.
pub(crate) fn remainder_of(number: u64) -> usize
    ensures is { result ≡ remainder_of number }
    ensures in_range { result < 64 }
{
    number as usize % CHAIN_LIMIT
}

/// A refusal, with the caller's bytes.
pub(crate) fn refused(refusal: Refusal, bytes: Bytes) -> Reply
    ensures { result ≡ RefusedReply refusal bytes }
{
    Reply::Refused { refusal, bytes }
}

/// A refusal of a call that brought no bytes.
pub(crate) fn refused_alone(alloc: Global, refusal: Refusal) -> Reply
    ensures { result ≡ RefusedReply refusal [] }
{
    refused(refusal, Bytes::new(Vec::new(alloc)))
}

/// Tells a call, with the bytes that are told of it.
fn tell_call(labels: &mut LabelQueue<Label>, number: u64, request: ClientRequest, bytes: CallBytes)
    requires place { length labels.old.items < labels.old.places }
    requires copied { IsCopied (labels.old.keeps && labels.old.keeps_bytes) bytes }
    ensures tells { labels.new.items
        ≡ labels.old.items ++ Call number (record request { bytes = bytes.told.items }) ∷ [] }
    ensures one_more { length labels.new.items ≡ length labels.old.items + 1 }
    ensures same { SameQueue labels.old labels.new }
{
    let CallBytes { copy, told } = bytes;
    let request = ClientRequest {
        bytes: copy,
        ..request
    };
    labels.tell_as(Label::Call { number, request }, &told);
}

impl Tables {
    /// Whether the device is being removed, or is gone.
    pub(crate) fn is_going(&self) -> bool
        ensures { result ≡ is_going self.now.state }
    {
        match self.state {
            State::Started | State::RemovePending => false,
            State::Removing | State::Removed => true,
        }
    }

    /// From now on memory keeps what is told, or contracts alone read it.
    pub(crate) fn keep_labels(&mut self, keep: bool)
        requires labels { self.old.labels.items ≡ [] }
        requires answered { self.old.answered.items ≡ [] }
        ensures labels { self.new.labels ≡ record self.old.labels { keeps = keep } }
        ensures answered { self.new.answered ≡ record self.old.answered { keeps = keep } }
        ensures after { self.new ≡ record self.old { labels = self.new.labels; answered = self.new.answered } }
    {
        self.labels.keep(keep);
        self.answered.keep(keep);
    }

    /// Sets the PnP state and records its label.
    pub(crate) fn move_to(&mut self, state: State, label: Label)
        requires label_place { length self.old.labels.items < self.old.labels.places }
        requires plain { in_memory self.old.labels.keeps_bytes label ≡ label }
        ensures tells { self.new.labels.items ≡ self.old.labels.items ++ label ∷ [] }
        ensures one_more { length self.new.labels.items ≡ length self.old.labels.items + 1 }
        ensures label_places { SameQueue self.old.labels self.new.labels }
        ensures after { self.new ≡ record self.old { state = state; labels = self.new.labels } }
    {
        self.state = state;
        self.labels.tell(label);
    }

    /// The partition that a handle is open on.
    pub(crate) fn partition_of(&self, handle: Handle) -> Option<u8>
        ensures { result ≡ partition_of self.now.handles.slots handle }
    {
        let open = self.handles.get(handle.slot as usize)?;
        if open.number == handle.number {
            Some(open.partition)
        } else {
            None
        }
    }

    /// Gives a handle on a partition.
    pub(crate) fn open(&mut self, alloc: Global, partition: u8, partitions: usize) -> Reply
        requires { self.old.handles.capacity ≡ handle_limit }
        ensures { OpensHandle self.old partition partitions result self.new }
    {
        if self.next_handle >= NUMBER_LIMIT {
            return refused_alone(alloc, Refusal::DeviceBusy);
        }
        if self.is_going() {
            return refused_alone(alloc, Refusal::DeletePending);
        }
        if partition as usize >= partitions {
            return refused_alone(alloc, Refusal::InvalidParameter);
        }
        if self.handles.len() >= HANDLE_LIMIT {
            return refused_alone(alloc, Refusal::DeviceBusy);
        }
        let number = self.next_handle;
        self.next_handle += 1;
        let slot = self
            .handles
            .insert_reserved(OpenHandle { number, partition });
        self.open_counts[slot] = 0;
        Reply::Handle(Handle {
            slot: slot as u32,
            number,
        })
    }

    /// Closes the handle in a slot, where there is one.
    pub(crate) fn close_handle(&mut self, slot: u32)
        ensures { ClosesSlot self.old slot self.new }
    {
        let _ = self.handles.try_remove(slot as usize);
    }

    /// Whether an open handle has an open request.
    pub(crate) fn has_open(&self, handle: Handle) -> bool
        requires open { is_some (partition_of self.now.handles.slots handle) ≡ true }
        requires chained { AreChained self.now.handles self.now.requests self.now.next_handle self.now.chains }
        requires counted { AreCounted self.now.handles self.now.requests self.now.open_counts }
        ensures { MatchBool result (HasSome self.now.requests handle.number)
            (HasNoneOf self.now.requests handle.number) }
    {
        self.open_counts[handle.slot as usize] > 0
    }

    /// Whether this request is open, on a handle of this number.
    pub(crate) fn holds_at(&self, id: Id, handle: u64) -> bool
        ensures { MatchBool result (IsOpenAt self.now.requests id handle) (IsNotOpenAt self.now.requests id handle) }
    {
        match self.requests.get(id.slot as usize) {
            Some(request) => request.number == id.number && request.handle == handle,
            None => false,
        }
    }

    /// Tells a call that ends where it begins, and its answer of this status.
    pub(crate) fn tell_at_once(
        &mut self,
        alloc: Global,
        request: ClientRequest,
        status: NtStatus,
    ) -> u64
        requires numbers_last { are_used_up self.old.next_request ≡ false }
        requires places { length self.old.labels.items + 2 ≤ self.old.labels.places }
        requires no_bytes { request.bytes ≡ [] }
        ensures tells { AnswersAtOnce self.old request status self.new }
        ensures number { result ≡ self.old.next_request }
    {
        let number = self.next_request;
        self.next_request += 1;
        self.labels.tell(Label::Call { number, request });
        self.labels.tell(Label::Answer {
            number,
            status,
            information: 0,
            bytes: Bytes::new(Vec::new(alloc)),
        });
        number
    }

    /// Tells a call that is refused or has no bytes, and its answer.
    pub(crate) fn answer_at_once(
        &mut self,
        alloc: Global,
        request: ClientRequest,
        at_once: AtOnce,
        buffer: Bytes,
    ) -> Reply
        requires numbers_last { are_used_up self.old.next_request ≡ false }
        requires places { length self.old.labels.items + 2 ≤ self.old.labels.places }
        requires no_bytes { request.bytes ≡ [] }
        ensures tells { AnswersAtOnce self.old request (status_at_once at_once) self.new }
        ensures replies { result ≡ reply_at_once self.old.next_request buffer at_once }
    {
        let number = self.tell_at_once(alloc, request, at_once.status());
        match at_once {
            AtOnce::Empty => Reply::Answered(Answer {
                number,
                status: NtStatus::Success,
                information: 0,
                bytes: buffer.emptied(),
            }),
            AtOnce::Refused(refusal) => refused(refusal, buffer),
        }
    }

    /// Makes places for the answers of all open requests and of one more, and for 64 at most.
    ///
    /// # Errors
    ///
    /// [`AllocError`] where a place is missing and memory for it was refused.
    pub(crate) fn cover_answers(&mut self) -> Result<(), AllocError>
        requires few { slab_len self.old.requests < 64 }
        ensures keeps { KeepsAnswers self.old self.new }
        ensures places { OnOk result (deque_len self.new.untaken + (slab_len self.new.requests + 1)
            ≤ deque_capacity self.new.untaken) }
    {
        if self.requests.len() < self.untaken.capacity() - self.untaken.len() {
            return Ok(());
        }
        self.untaken.reserve_exact(REQUEST_LIMIT)?;
        Ok(())
    }

    /// Opens a request under the next number, with its packet at this spot below. Tells its call, and returns its slot.
    pub(crate) fn admit(
        &mut self,
        handle: Handle,
        request: ClientRequest,
        spot: usize,
        copies: LabelBytes,
    ) -> u32
        requires numbers_last { are_used_up self.old.next_request ≡ false }
        requires label_place { length self.old.labels.items < self.old.labels.places }
        requires copied { IsCopied (self.old.labels.keeps && self.old.labels.keeps_bytes) copies.call_bytes }
        requires free_slot { HasRoomFor self.old.requests 1 }
        requires slots { self.old.requests.capacity ≤ 64 }
        requires chained { AreChained self.old.handles self.old.requests self.old.next_handle self.old.chains }
        requires numbered { AreNumbered self.old.requests self.old.by_number }
        requires counted { AreCounted self.old.handles self.old.requests self.old.open_counts }
        requires open { is_some (partition_of self.old.handles.slots handle) ≡ true }
        ensures { Admits self.old handle request copies spot result self.new }
    {
        let LabelBytes {
            call_bytes,
            label_bytes,
        } = copies;
        let number = self.next_request;
        self.next_request = number + 1;
        let slot = self.requests.insert_reserved(OpenRequest {
            number,
            handle: handle.number,
            handle_slot: handle.slot,
            kind: request.kind,
            spot,
            cancelled: false,
            label_bytes,
        });
        self.chains.put_last(handle.slot as usize, slot);
        self.by_number.put_last(remainder_of(number), slot);
        self.open_counts[handle.slot as usize] += 1;
        tell_call(&mut self.labels, number, request, call_bytes);
        slot as u32
    }
}
