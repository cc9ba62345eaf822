//! What becomes of requests that have ended: their slots, their answers, and the labels of a step.

ghost use Rattle.std.specs.Prelude.{◌≡◌, ◌<◌, ◌≤◌, ◌+◌, ◌^◌, ◌++◌, ℕ, true, false, [], is_some, map, length};
ghost use Rattle.std.specs.Prelude.{slice_index, MatchBool, MatchOption, IsTrue};
ghost use Rattle.std.specs.VecDeque.{deque_len, deque_capacity};
ghost use Rattle.slab.specs.Slab.{slab_len};
ghost use Rattle.ntstatus.specs.declared.NtStatus.TheVariants.{Success};
ghost use Rattle.srb.specs.declared.Kind.TheVariants.{Read};
ghost use Rattle.device.specs.View.{payload_bytes};
ghost use Rattle.machine.specs.Step.{as_label};
ghost use Rattle.device.specs.Served.{HandsUpNone};
ghost use Rattle.machine.specs.Settled.{Settled};
ghost use Rattle.io_manager.specs.Calls.{partition_of};
ghost use Rattle.io_manager.specs.inside.Chains.{AreChained, AreNumbered, AreCounted};
ghost use Rattle.io_manager.specs.inside.Completion.{IsAt, HasNone, done_of, AreFilled, CountsOut, Closes, EndsRemoval};
ghost use Rattle.io_manager.specs.inside.Completion.{TakesEnded, Gathers, brought, shown_label, unlabelled};
ghost use Rattle.io_manager.specs.Right.{as_answer, AreRising, answer_number};
ghost use Rattle.io_manager.specs.inside.Queue.{SameQueue};
ghost use Rattle.io_manager.specs.inside.Sound.{IsSound, IsSoundWith, TakesLabels, Collects};

use crate::answer_queue::{insert_rising, put_by};
use crate::label_queue::LabelQueue;
use crate::noting::{note_answers, note_labels};
use crate::parts::Parts;
use crate::tables::{Tables, remainder_of};
use crate::{Answer, Handle};
use device::{Climb, Device, Kind, Label};
use irp::{Done, Irp, Payload};
use noted::Noted;
use ntstatus::NtStatus;
use sector::Bytes;
use std::alloc::Global;
use std::collections::VecDeque;
use std::mem;

/// The bytes that a packet brings back; none where it is at the adapter.
fn bytes_of(alloc: Global, payload: Payload) -> Bytes
    ensures { result ≡ payload_bytes payload }
{
    match payload {
        Payload::Srb(srb) => srb.data,
        Payload::Buffer(bytes) => bytes,
        Payload::Sent => Bytes::new(Vec::new(alloc)),
    }
}

/// Takes what is left of a packet that went out of the stack, out of the packet.
fn done_of(irp: &mut Irp) -> Done
    ensures { result ≡ done_of irp.old }
{
    Done {
        number: irp.number,
        status: irp.io_status.status,
        information: irp.io_status.information,
        payload: mem::replace(&mut irp.payload, Payload::Sent),
    }
}

/// The bytes of an answer: a read's where it succeeded, else none.
fn brought(kind: Kind, status: NtStatus, bytes: Bytes) -> Bytes
    ensures { result ≡ brought kind status bytes }
{
    match (kind, status) {
        (Kind::Read, NtStatus::Success) => bytes,
        _ => bytes.emptied(),
    }
}

impl Tables {
    /// The slot of the open request of a number, looked for among those of the same remainder.
    pub(crate) fn slot_of(&self, number: u64) -> Option<usize>
        requires numbered { AreNumbered self.now.requests self.now.by_number }
        ensures { MatchOption result (HasNone self.now.requests number) (λ slot. IsAt self.now.requests number slot) }
    {
        let mut next = self.by_number.first(remainder_of(number));
        while let Some(slot) = next {
            let Some(request) = self.requests.get(slot) else {
                unreachable!()
            };
            if request.number == number {
                return Some(slot);
            }
            if request.number > number {
                return None;
            }
            next = self.by_number.next(slot);
        }
        None
    }

    /// Counts one request fewer on a handle, where the handle is still open.
    fn count_out(&mut self, handle: Handle)
        requires { is_some (partition_of self.old.handles.slots handle) ≡ true
            → (handle.slot < 64) × (0 < slice_index self.old.open_counts handle.slot) }
        ensures counts { CountsOut self.old handle self.new }
        ensures after { self.new ≡ record self.old { open_counts = self.new.open_counts } }
    {
        if self.partition_of(handle).is_some() {
            self.open_counts[handle.slot as usize] -= 1;
        }
    }

    /// Closes a request that has ended. Its answer waits to be taken, and its label is deferred.
    fn close(&mut self, done: Done)
        requires number { done.number < 2 ^ 64 }
        requires chained { AreChained self.old.handles self.old.requests self.old.next_handle self.old.chains }
        requires numbered { AreNumbered self.old.requests self.old.by_number }
        requires counted { AreCounted self.old.handles self.old.requests self.old.open_counts }
        requires held { (slot : ℕ) × IsAt self.old.requests done.number slot }
        requires filled { AreFilled self.old.answered.keeps_bytes self.old.requests done }
        requires answered_place { length self.old.answered.items < self.old.answered.places }
        requires untaken_place { deque_len self.old.untaken < deque_capacity self.old.untaken }
        requires answered_rising { AreRising (map answer_number self.old.answered.items) }
        requires untaken_rising { AreRising (map answer_number self.old.untaken.items) }
        ensures { Closes self.old done self.new }
    {
        let Done {
            number,
            status,
            information,
            payload,
        } = done;
        let number = number as u64;
        let Some(slot) = self.slot_of(number) else {
            unreachable!()
        };
        let Some(open) = self.requests.try_remove(slot) else {
            unreachable!()
        };
        self.chains.take_out_unless(slot, open.cancelled);
        self.by_number.take_out(slot);
        self.count_out(Handle {
            slot: open.handle_slot,
            number: open.handle,
        });
        let bytes = bytes_of(*self.untaken.allocator(), payload);
        let bytes = brought(open.kind, status, bytes);
        let answer = Answer {
            number,
            status,
            information,
            bytes,
        };
        put_by(&mut self.answered, &answer, open.label_bytes);
        insert_rising(&mut self.untaken, answer);
    }
}

/// Moves answers to the end of labels, which have places for them.
fn move_answers(answered: &mut VecDeque<Answer>, labels: &mut VecDeque<Label>)
    requires places { length labels.old.items + length answered.old.items ≤ deque_capacity labels.old }
    ensures moved { labels.new.items ≡ labels.old.items ++ map as_answer answered.old.items }
    ensures none_left { answered.new.items ≡ [] }
    ensures label_places { deque_capacity labels.new ≡ deque_capacity labels.old }
    ensures answer_places { deque_capacity answered.new ≡ deque_capacity answered.old }
{
    while let Some(answer) = answered.pop_front() {
        let Answer {
            number,
            status,
            information,
            bytes,
        } = answer;
        labels.push_back_reserved(Label::Answer {
            number,
            status,
            information,
            bytes,
        });
    }
}

/// Moves the deferred answers to the end of the labels, which have places for them.
fn keep_answers(answered: &mut LabelQueue<Answer>, labels: &mut LabelQueue<Label>)
    requires kept { IsTrue answered.old.keeps }
    requires labels_kept { IsTrue labels.old.keeps }
    requires alike { answered.old.keeps_bytes ≡ labels.old.keeps_bytes }
    requires places { length labels.old.items + length answered.old.items ≤ labels.old.places }
    ensures told { labels.new.items ≡ labels.old.items ++ map as_answer answered.old.items }
    ensures none_left { answered.new.items ≡ [] }
    ensures labels { SameQueue labels.old labels.new }
    ensures answered { SameQueue answered.old answered.new }
{
    labels.told = labels.told.with(&answered.told);
    move_answers(&mut answered.queue, &mut labels.queue);
    answered.told = Noted::none();
}

/// Tells the deferred answers behind the labels, which have places for them.
fn tell_answers(answered: &mut LabelQueue<Answer>, labels: &mut LabelQueue<Label>)
    requires alike { answered.old.keeps ≡ labels.old.keeps }
    requires bytes_alike { answered.old.keeps_bytes ≡ labels.old.keeps_bytes }
    requires places { length labels.old.items + length answered.old.items ≤ labels.old.places }
    ensures told { labels.new.items ≡ labels.old.items ++ map as_answer answered.old.items }
    ensures none_left { answered.new.items ≡ [] }
    ensures labels_place { SameQueue labels.old labels.new }
    ensures answered_place { SameQueue answered.old answered.new }
{
    if labels.keeps() {
        keep_answers(answered, labels);
    } else {
        note_answers(labels, answered);
        answered.forget();
    }
}

/// Moves all labels of the device, as memory has them, to the end of these, which have places for them.
fn move_labels<D: Device>(device: &mut D, labels: &mut VecDeque<Label>)
    requires places { length labels.old.items + length (D.view device.old).adapter.labels ≤ deque_capacity labels.old }
    ensures moved { labels.new.items ≡ labels.old.items ++ map (shown_label (D.view device.old).rules.keeps_bytes) (D.view device.old).adapter.labels }
    ensures taken { D.view device.new ≡ unlabelled (D.view device.old) }
    ensures places { deque_capacity labels.new ≡ deque_capacity labels.old }
{
    while let Some(label) = device.take_label() {
        labels.push_back_reserved(Label::Device(label));
    }
}

/// Tells all labels of the device behind these, in a queue that memory keeps.
fn keep_device_labels<D: Device>(device: &mut D, labels: &mut LabelQueue<Label>)
    requires kept { IsTrue labels.old.keeps }
    requires alike { labels.old.keeps_bytes ≡ (D.view device.old).rules.keeps_bytes }
    requires places { length labels.old.items + length (D.view device.old).adapter.labels ≤ labels.old.places }
    ensures moved { labels.new.items ≡ labels.old.items ++ map as_label (D.view device.old).adapter.labels }
    ensures taken { D.view device.new ≡ unlabelled (D.view device.old) }
    ensures places { SameQueue labels.old labels.new }
{
    labels.told = labels.told.with(device);
    move_labels(device, &mut labels.queue);
}

/// Tells all labels of the device behind these, which have places for them.
fn tell_labels<D: Device>(device: &mut D, labels: &mut LabelQueue<Label>)
    requires alike { labels.old.keeps_bytes ≡ (D.view device.old).rules.keeps_bytes }
    requires places { length labels.old.items + length (D.view device.old).adapter.labels ≤ labels.old.places }
    ensures moved { labels.new.items ≡ labels.old.items ++ map as_label (D.view device.old).adapter.labels }
    ensures taken { D.view device.new ≡ unlabelled (D.view device.old) }
    ensures places { SameQueue labels.old labels.new }
{
    if labels.keeps() {
        keep_device_labels(device, labels);
    } else {
        note_labels(labels, device);
        device.forget_labels();
    }
}

impl Tables {
    /// Ends a removal once no request is open, and tells that.
    fn end_removal(&mut self)
        requires label_place { length self.old.labels.items < self.old.labels.places }
        ensures { EndsRemoval self.old self.new }
    {
        if !self.requests.is_empty() {
            return;
        }
        if let Ok(gone) = self.state.drained() {
            self.move_to(gone, Label::Removed);
        }
    }
}

impl<D: Device> Parts<D> {
    /// Takes a request that has ended and closes it; false where there is none.
    fn take_ended(&mut self) -> bool
        requires sound { IsSoundWith self.old.tables.answered.items self.old.limits (D.view self.old.device)
            self.old.tables }
        requires few { length self.old.tables.answered.items + slab_len self.old.tables.requests ≤ 64 }
        requires rising { AreRising (map answer_number self.old.tables.answered.items) }
        ensures limits { self.new.limits ≡ self.old.limits }
        ensures sound { IsSoundWith self.new.tables.answered.items self.new.limits (D.view self.new.device)
            self.new.tables }
        ensures few { length self.new.tables.answered.items + slab_len self.new.tables.requests ≤ 64 }
        ensures takes { MatchBool result
            (TakesEnded (D.view self.old.device) self.old.tables (D.view self.new.device) self.new.tables)
            (HandsUpNone (D.view self.old.device) (D.view self.new.device)) }
        ensures same { result ≡ false → self.new.tables ≡ self.old.tables }
    {
        self.device.shows_order();
        let Some((climb, room)) = self.device.take_done() else {
            return false;
        };
        let Climb::Finished(mut irp) = climb else {
            unreachable!()
        };
        self.device.shows_order();
        self.device.free(room);
        self.tables.close(done_of(&mut irp));
        self.spare_packets.keep(irp);
        true
    }

    /// Takes all requests that have ended, and closes them.
    fn take_all_ended(&mut self)
        requires sound { IsSound self.old.limits (D.view self.old.device) self.old.tables }
        ensures limits { self.new.limits ≡ self.old.limits }
        ensures sound { IsSoundWith self.new.tables.answered.items self.new.limits (D.view self.new.device)
            self.new.tables }
        ensures few { length self.new.tables.answered.items ≤ 64 }
        ensures gathers { Gathers (D.view self.old.device) self.old.tables (D.view self.new.device) self.new.tables }
        ensures settled { Settled (D.view self.new.device).rules (D.view self.new.device).state }
    {
        self.device.shows_order();
        'ended: while self.take_ended() {}
    }

    /// Tells what the device did, where no request can have ended.
    pub(crate) fn tell_device(&mut self)
        requires sound { IsSound self.old.limits (D.view self.old.device) self.old.tables }
        requires few_labels { length self.old.tables.labels.items ≤ 64 }
        ensures limits { self.new.limits ≡ self.old.limits }
        ensures sound { IsSound self.new.limits (D.view self.new.device) self.new.tables }
        ensures takes { TakesLabels (D.view self.old.device) self.old.tables (D.view self.new.device) self.new.tables }
    {
        self.device.shows_order();
        tell_labels(&mut self.device, &mut self.tables.labels);
    }

    /// Takes all requests that have ended, tells what the device did, then the answers, and then whether a removal
    /// ended.
    pub(crate) fn collect(&mut self)
        requires sound { IsSound self.old.limits (D.view self.old.device) self.old.tables }
        requires few_labels { length self.old.tables.labels.items ≤ 64 }
        ensures limits { self.new.limits ≡ self.old.limits }
        ensures sound { IsSound self.new.limits (D.view self.new.device) self.new.tables }
        ensures collects { Collects (D.view self.old.device) self.old.tables (D.view self.new.device) self.new.tables }
    {
        self.take_all_ended();
        self.device.shows_order();
        tell_labels(&mut self.device, &mut self.tables.labels);
        tell_answers(&mut self.tables.answered, &mut self.tables.labels);
        self.tables.end_removal();
    }
}
