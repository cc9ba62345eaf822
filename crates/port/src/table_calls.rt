//! The calls of the queues.

ghost use Rattle.std.specs.Prelude.{◌≡◌, ◌==◌, ◌&&◌, not, ◌<◌, ◌≤◌, ◌+◌, ◌^◌, ◌-◌, ℕ, [], All, Option, Some, None};
ghost use Rattle.std.specs.Prelude.{IfOk, IsSome, OnOk, OnErr, IsTrue, MatchBool, MatchOption, length};
ghost use Rattle.std.specs.Prelude.{slice_index_or};
ghost use Rattle.irp.specs.declared.Payload.TheVariants.{Srb as Packed};
ghost use Rattle.machine.specs.declared.Request.{Request};
ghost use Rattle.port.specs.inside.TableView.{books_of, visits_of, entry, entry_of};
ghost use Rattle.port.specs.inside.TableCalls.{IsEmpty, IsPacked, cancelled};
ghost use Rattle.port.specs.inside.TableCalls.{held_on};
ghost use Rattle.port.specs.inside.TableCalls.{AddsNone, AddsPlace, RemovesPlace, HasOtherSpot, IsEndedTaken, Queued, Starts};
ghost use Rattle.port.specs.inside.TableCalls.{StartsNot, Ends, TakesDone, TakesNone, drained, as_returned};
ghost use Rattle.port.specs.inside.TableCalls.{IsUncancelled};
ghost use Rattle.port.specs.inside.TableCalls.{Withdraws, WithdrawsNot, WithdrawsAt, WithdrawsNotAt, CancelsIn};
ghost use Rattle.port.specs.inside.TableCalls.{CancelsNotIn};
ghost use Rattle.port.specs.inside.TableCalls.{CancelsOn, CancelsNotOn, CancelsEnded, CancelsNoEnded};
ghost use Rattle.port.specs.Shown.{status_left};
ghost use Rattle.linked.specs.Queue.{VisitsAtMost};
ghost use Rattle.slab.specs.Slab.{get, slab_len, with_value, HasRoomFor};

use crate::ended::EndedList;
use crate::queues::{Ended, Outcome, PortPacket, Queues, Sizes, Waiting};
use device::Request;
use irp::{Irp, Payload};
use linked::Linked;
use ntstatus::NtStatus;
use slab::Slab;
use srb::{Class, Srb, SrbStatus};
use std::alloc::{AllocError, Global};
use std::mem;

impl Outcome {
    pub fn status(self) -> NtStatus
        ensures { result ≡ status_left self }
    {
        match self {
            Outcome::Returned(Class::Good) => NtStatus::Success,
            Outcome::Returned(Class::Busy) => NtStatus::DeviceBusy,
            Outcome::Returned(Class::Bad(completion)) => completion.status(),
            Outcome::Withdrawn => NtStatus::from_device(SrbStatus::RequestFlushed.code(), 0, None),
            Outcome::Gone => NtStatus::from_device(SrbStatus::NoDevice.code(), 0, None),
        }
    }
}

/// Takes the SRB out of a packet that carries one. All else of the packet stays, also its cancel routine.
fn take_srb(held: &mut PortPacket) -> Srb
    requires { IsPacked held.old }
    ensures srb { held.old.irp.value.payload ≡ Packed result }
    ensures same_entry { entry_of held.new ≡ entry_of held.old }
{
    match mem::replace(&mut held.irp.payload, Payload::Sent) {
        Payload::Srb(srb) => srb,
        Payload::Buffer(_) | Payload::Sent => unreachable!(),
    }
}

/// Makes the SRB of a piece that came back busy as it was, with no sense data, so that it can be sent again.
fn forget_sense(srb: &mut Srb, class: Class)
    ensures { srb.new ≡ as_returned class srb.old }
{
    if let Class::Busy = class {
        srb.sense = None;
    }
}

/// Marks the packet as cancelled. Its cancel routine stays, and isn't called.
pub(crate) fn mark_cancelled(irp: &mut Box<Irp>)
    ensures entry { (request : Request) (spot : ℕ)
        → entry irp.new.value request spot ≡ cancelled (entry irp.old.value request spot) }
    ensures payload { irp.new.value.payload ≡ irp.old.value.payload }
{
    irp.cancelled = true;
}

/// Whether the packet has this number and is not cancelled yet.
pub(crate) fn is_cancellable(irp: &Irp, number: u128) -> bool
    ensures { result ≡ ((irp.now.number == number) && not irp.now.cancelled) }
{
    irp.number == number && !irp.cancelled
}

/// Cancels the packet in a place, where it has this number and is not cancelled yet.
fn cancel_in(place: &mut Option<PortPacket>, number: u128) -> bool
    ensures { MatchBool result (CancelsIn place.old number place.new) (CancelsNotIn place.old number place.new) }
{
    let Some(held) = place else {
        return false;
    };
    if !is_cancellable(&held.irp, number) {
        return false;
    }
    mark_cancelled(&mut held.irp);
    true
}

/// How many spots are in use once one more is, where there is room for it.
fn count_with_one_more(rooms: &Slab<Option<Request>>) -> usize
    requires { HasRoomFor rooms.now 1 }
    ensures { result ≡ slab_len rooms.now + 1 }
{
    // A capacity is a number of this type, so the sum is one too.
    let _capacity = rooms.capacity();
    rooms.len() + 1
}

/// Takes the request of a spot that is reserved, for the packet that comes there.
fn take_room(rooms: &mut Slab<Option<Request>>, spot: usize) -> Request
    requires { (request : Request) × (get rooms.old spot ≡ Some (Some request)) }
    ensures was { get rooms.old spot ≡ Some (Some result) }
    ensures after { rooms.new ≡ with_value rooms.old spot None }
    ensures count { slab_len rooms.new ≡ slab_len rooms.old }
{
    let Some(room) = rooms.get_mut(spot) else {
        unreachable!()
    };
    let Some(request) = room.take() else {
        unreachable!()
    };
    request
}

/// The spot of a packet is reserved again.
fn put_room(rooms: &mut Slab<Option<Request>>, spot: usize, request: Request)
    requires { get rooms.old spot ≡ Some None }
    ensures after { rooms.new ≡ with_value rooms.old spot (Some request) }
    ensures count { slab_len rooms.new ≡ slab_len rooms.old }
{
    if let Some(room) = rooms.get_mut(spot) {
        *room = Some(request);
    }
}

impl Queues {
    /// Empty queues with places for no packet. Pieces and requests are numbered from 1.
    pub fn new(alloc: Global, sizes: Sizes) -> Result<Queues, AllocError>
        ensures { IfOk result (λ queues. IsEmpty sizes (books_of queues)) }
    {
        let mut started = Vec::with_capacity(alloc, sizes.depth as usize)?;
        for _ in 0..sizes.depth {
            started.push_reserved(None);
        }
        Ok(Queues {
            sizes,
            waiting: Linked::new(alloc),
            started,
            done: EndedList::new(alloc),
            last_request: 0,
            next_piece: 1,
            submitted: 0,
            removing: false,
            rooms: Slab::new(alloc),
        })
    }

    /// Reserves a spot for one more packet.
    ///
    /// # Errors
    ///
    /// [`AllocError`] where a queue has no room for it, and memory was refused.
    pub fn add_place(&mut self, request: Request) -> Result<usize, AllocError>
        requires { length (books_of self.old).waiting + length (books_of self.old).done ≤ (books_of self.old).places }
        ensures added { IfOk result (λ spot. AddsPlace (books_of self.old) spot request (books_of self.new)) }
        ensures refused { OnErr result (AddsNone (books_of self.old) (books_of self.new)) }
    {
        self.rooms.reserve(1)?;
        let places = count_with_one_more(&self.rooms);
        self.done.reserve(places - self.done.len())?;
        self.waiting.cover(self.rooms.vacant_key())?;
        Ok(self.rooms.insert_reserved(Some(request)))
    }

    /// Gives up a spot that is reserved.
    pub fn remove_place(&mut self, spot: usize)
        requires { (request : Request)
            × (slice_index_or (books_of self.old).rooms spot None ≡ Some (Some request)) }
        ensures { RemovesPlace (books_of self.old) spot (books_of self.new) }
    {
        self.rooms.remove(spot);
    }

    /// Queues the packet last, at a reserved spot.
    pub fn push(&mut self, irp: Box<Irp>, spot: usize)
        requires reserved { (request : Request)
            × (slice_index_or (books_of self.old).rooms spot None ≡ Some (Some request)) }
        requires apart { All (HasOtherSpot spot) (books_of self.old).waiting }
        requires few { (books_of self.old).submitted < 2 ^ 127 }
        ensures { (request : Request) → slice_index_or (books_of self.old).rooms spot None ≡ Some (Some request)
            → Queued (books_of self.old) irp request spot (books_of self.new) }
    {
        let request = take_room(&mut self.rooms, spot);
        self.last_request = irp.number;
        self.submitted += 1;
        self.waiting.push_back_at(spot, Waiting { irp, request });
    }

    /// Puts the packet that waited longest on this tag. Returns the number of its piece, and its SRB for the adapter.
    pub fn start(&mut self, tag: u8) -> Option<(u128, Srb)>
        requires packed { All IsPacked (books_of self.old).waiting }
        requires tag { tag < length (books_of self.old).started }
        requires few { (books_of self.old).next_piece < 2 ^ 127 }
        ensures { MatchOption result (StartsNot (books_of self.old) (books_of self.new))
            (λ start. Starts (books_of self.old) tag start.0 start.1 (books_of self.new)) }
    {
        let (spot, Waiting { irp, request }) = self.waiting.pop_front()?;
        let mut held = PortPacket { irp, request, spot };
        let srb = take_srb(&mut held);
        self.started[tag as usize] = Some(held);
        let piece = self.next_piece;
        self.next_piece += 1;
        Some((piece, srb))
    }

    /// The packet on this tag ends as its piece came back.
    pub fn end(&mut self, tag: u8, mut srb: Srb, class: Class)
        requires on_tag { IsSome (held_on (books_of self.old).started tag) }
        requires place { length (books_of self.old).done < (books_of self.old).places }
        ensures { Ends (books_of self.old) tag srb class (books_of self.new) }
    {
        let Some(
            PortPacket {
                mut irp,
                request,
                spot,
            },
        ) = self.started[tag as usize].take()
        else {
            unreachable!()
        };
        forget_sense(&mut srb, class);
        irp.payload = Payload::Srb(srb);
        let outcome = Outcome::Returned(class);
        self.done.push_back_reserved(Ended {
            irp,
            request,
            spot,
            outcome,
        });
    }

    /// Takes the packet that ended first; its spot is reserved again.
    pub fn take_done(&mut self) -> Option<Ended>
        requires { All (IsEndedTaken (books_of self.old).rooms) (books_of self.old).done }
        ensures { MatchOption result (TakesNone (books_of self.old) (books_of self.new))
            (λ ended. TakesDone (books_of self.old) ended (books_of self.new)) }
    {
        let ended = self.done.pop_front()?;
        put_room(&mut self.rooms, ended.spot, ended.request);
        Some(ended)
    }

    /// Removal: what waits ends.
    pub fn drain(&mut self)
        requires { length (books_of self.old).waiting + length (books_of self.old).done ≤ (books_of self.old).places }
        ensures { books_of self.new ≡ drained (books_of self.old) }
    {
        while let Some((spot, waiting)) = self.waiting.pop_front() {
            let Waiting { irp, request } = waiting;
            let outcome = Outcome::Gone;
            self.done.push_back_reserved(Ended {
                irp,
                request,
                spot,
                outcome,
            });
        }
        self.removing = true;
    }

    /// The packet of this number ends as cancelled, where it waits (WDK: SRB_STATUS_REQUEST_FLUSHED).
    pub fn withdraw(&mut self, number: u128) -> bool
        requires places { length (books_of self.old).waiting + length (books_of self.old).done ≤ (books_of self.old).places }
        requires not_cancelled { All IsUncancelled (books_of self.old).waiting }
        ensures { MatchBool result (Withdraws (books_of self.old) number (books_of self.new))
            (WithdrawsNot (books_of self.old) number (books_of self.new)) }
    {
        let Some(spot) = self.waiting.find(number) else {
            return false;
        };
        self.withdraw_at(spot, number)
    }

    /// The packet at this spot of the queue ends as cancelled, where it has this number.
    pub fn withdraw_at(&mut self, spot: usize, number: u128) -> bool
        requires places { length (books_of self.old).waiting + length (books_of self.old).done ≤ (books_of self.old).places }
        requires not_cancelled { All IsUncancelled (books_of self.old).waiting }
        ensures withdraws { MatchBool result (WithdrawsAt (books_of self.old) spot number (books_of self.new))
            (WithdrawsNotAt (books_of self.old) spot number (books_of self.new)) }
        ensures visits { VisitsAtMost 3 (visits_of self.old).queue (visits_of self.new).queue }
        ensures walks { (visits_of self.new).walks ≡ (visits_of self.old).walks }
    {
        let Some(Waiting { mut irp, request }) = self.waiting.remove_number(spot, number) else {
            return false;
        };
        mark_cancelled(&mut irp);
        let outcome = Outcome::Withdrawn;
        self.done.push_back_reserved(Ended {
            irp,
            request,
            spot,
            outcome,
        });
        true
    }

    /// The packet on this tag is cancelled, where it has this number and is not cancelled yet.
    pub fn cancel_on(&mut self, tag: u8, number: u128) -> bool
        requires { tag < length (books_of self.old).started }
        ensures cancels { MatchBool result (CancelsOn (books_of self.old) tag number (books_of self.new))
            (CancelsNotOn (books_of self.old) tag number (books_of self.new)) }
        ensures visits { visits_of self.new ≡ visits_of self.old }
    {
        cancel_in(&mut self.started[tag as usize], number)
    }

    /// The packet of this number is cancelled, where it has ended and is not cancelled yet.
    pub fn cancel_done(&mut self, number: u128) -> bool
        ensures cancels { MatchBool result (CancelsEnded (books_of self.old) number (books_of self.new))
            (CancelsNoEnded (books_of self.old) number (books_of self.new)) }
        ensures visits { (visits_of self.new).queue ≡ (visits_of self.old).queue }
        ensures walks { (visits_of self.new).walks ≡ (visits_of self.old).walks + 1 }
    {
        let Some(index) = self.done.find(number) else {
            return false;
        };
        self.done.mark(index);
        true
    }
}
