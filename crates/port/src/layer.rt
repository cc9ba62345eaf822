//! The port as a layer of the stack.

ghost use Rattle.std.specs.Prelude.{refl, ◌≡◌, ◌≢◌, ◌<◌, ◌≤◌, ◌*◌, ◌+◌, ◌^◌, ℕ, Bool, true, List, [], ◌∷◌, length};
ghost use Rattle.std.specs.Prelude.{OnOk, OnErr, MatchBool};
ghost use Rattle.adapter.specs.View.{IsInOrder, IsReserved, ReservesMore, ReservesNear};
ghost use Rattle.srb.specs.declared.Kind.TheVariants.{Write};
ghost use Rattle.machine.specs.declared.Request.{Request};
ghost use Rattle.port.specs.inside.TableView.{books_of, visits_of};
ghost use Rattle.port.specs.inside.Cancelling.{CancelsQueued, CancelsAt, CancelsNotAt, CancelsNoStarted};
ghost use Rattle.device.specs.Served.{CancelsAt as ShownCancelsAt};
ghost use Rattle.port.specs.inside.TableCalls.{WithdrawsNotAt};
ghost use Rattle.linked.specs.Queue.{VisitsAtMost};
ghost use Rattle.port.specs.inside.Invariant.{IsInHand, PortKept};
ghost use Rattle.port.specs.inside.Releases.{Releases, AreLowerInUse};

use crate::queues::{Ended, Sizes};
use crate::{Parts, Port};
use adapter::Adapter;
use device::{Climb, Device, Kind, Request, Room, Shown, complete, information};
use irp::Irp;
use srb::{Booked, Completion, DeviceLabel, Srb};
use std::alloc::AllocError;

/// Requests that may be submitted in all.
const MOST: u128 = 1 << 96;

impl<A: Adapter> Parts<A> {
    /// Starts the packet that waited longest on this tag, where one waits and the tag is free.
    fn start_one(&mut self, tag: u8)
        requires kept { (rooms : List Request) × PortKept (books_of self.old.queues) (A.view self.old.adapter) rooms }
        requires tag { tag < (A.view self.old.adapter).depth }
        requires lower { AreLowerInUse (books_of self.old.queues) (A.view self.old.adapter) tag }
        ensures rooms { (rooms : List Request) → PortKept (books_of self.old.queues) (A.view self.old.adapter) rooms
            → PortKept (books_of self.new.queues) (A.view self.new.adapter) rooms }
        ensures releases { Releases (books_of self.old.queues) (A.view self.old.adapter)
            (books_of self.new.queues) (A.view self.new.adapter) }
        ensures lower { AreLowerInUse (books_of self.new.queues) (A.view self.new.adapter) (tag + 1) }
    {
        if self.adapter.in_use(tag) {
            return;
        }
        if let Some((piece, srb)) = self.queues.start(tag) {
            self.adapter.accept(tag, piece, srb);
        }
    }

    /// Starts packets that wait as long as a tag is free, each on the lowest free tag.
    fn start_waiting(&mut self)
        requires { (rooms : List Request) × PortKept (books_of self.old.queues) (A.view self.old.adapter) rooms }
        ensures rooms { (rooms : List Request) → PortKept (books_of self.old.queues) (A.view self.old.adapter) rooms
            → IsInHand (books_of self.new.queues) (A.view self.new.adapter) rooms }
        ensures releases { Releases (books_of self.old.queues) (A.view self.old.adapter)
            (books_of self.new.queues) (A.view self.new.adapter) }
    {
        for tag in 0..self.queues.sizes.depth {
            if self.queues.waiting.len() == 0 {
                return;
            }
            self.start_one(tag);
        }
    }

    /// Has the adapter make room for a write; other requests need none, and are not refused.
    fn reserve_extent(&mut self, request: &Request) -> Result<(), AllocError>
        requires inside { request.now.extent.first + request.now.extent.count ≤ length (A.view self.old.adapter).sectors }
        requires order { IsInOrder (A.view self.old.adapter) }
        ensures queues { books_of self.new.queues ≡ books_of self.old.queues }
        ensures reserved { OnOk result
            (request.now.kind ≡ Write → IsReserved (A.view self.new.adapter) request.now.extent) }
        ensures reserves { ReservesMore (A.view self.old.adapter) (A.view self.new.adapter) }
        ensures near { ReservesNear (A.view self.old.adapter) request.now.extent (A.view self.new.adapter) }
        ensures unless_write { request.now.kind ≢ Write → A.view self.new.adapter ≡ A.view self.old.adapter }
        ensures order { IsInOrder (A.view self.new.adapter) }
        ensures refused { OnErr result (request.now.kind ≡ Write) }
    {
        if request.kind != Kind::Write {
            return Ok(());
        }
        self.adapter.reserve(request.extent)
    }

    /// Cancels the packet that waits at this spot, where it has this number; false where none does. At most three
    /// entries of the queue are visited.
    fn cancel_queued(&mut self, spot: usize, number: u128) -> bool
        requires in_order { (rooms : List Request)
            × IsInHand (books_of self.old.queues) (A.view self.old.adapter) rooms }
        ensures rooms { (rooms : List Request) → IsInHand (books_of self.old.queues) (A.view self.old.adapter) rooms
            → IsInHand (books_of self.new.queues) (A.view self.new.adapter) rooms }
        ensures adapter { A.view self.new.adapter ≡ A.view self.old.adapter }
        ensures cancels { MatchBool result
            (CancelsQueued (books_of self.old.queues) (A.view self.old.adapter) spot number (books_of self.new.queues))
            (WithdrawsNotAt (books_of self.old.queues) spot number (books_of self.new.queues)) }
        ensures visits { VisitsAtMost 3 (visits_of self.old.queues).queue (visits_of self.new.queues).queue }
        ensures walks { (visits_of self.new.queues).walks ≡ (visits_of self.old.queues).walks }
    {
        self.queues.withdraw_at(spot, number)
    }

    /// Cancels the packet on this tag, where the tag is in use and the packet has this number and is not cancelled yet.
    fn cancel_on_tag(&mut self, tag: u8, number: u128) -> bool
        requires { tag < length (books_of self.old.queues).started }
        ensures adapter { A.view self.new.adapter ≡ A.view self.old.adapter }
        ensures visits { visits_of self.new.queues ≡ visits_of self.old.queues }
        ensures cancels { MatchBool result
            (CancelsAt (books_of self.old.queues) (A.view self.old.adapter) tag number (books_of self.new.queues))
            (CancelsNotAt (books_of self.old.queues) (A.view self.old.adapter) tag number (books_of self.new.queues)) }
    {
        self.adapter.in_use(tag) && self.queues.cancel_on(tag, number)
    }

    /// Cancels the packet of this number that is at the adapter, where it is not cancelled yet.
    fn cancel_started(&mut self, number: u128) -> bool
        requires { (rooms : List Request) × IsInHand (books_of self.old.queues) (A.view self.old.adapter) rooms }
        ensures adapter { A.view self.new.adapter ≡ A.view self.old.adapter }
        ensures visits { visits_of self.new.queues ≡ visits_of self.old.queues }
        ensures cancels { MatchBool result
            ((tag : ℕ)
            × CancelsAt (books_of self.old.queues) (A.view self.old.adapter) tag number (books_of self.new.queues))
            (CancelsNoStarted (books_of self.old.queues) (A.view self.old.adapter) number (books_of self.new.queues)) }
    {
        for tag in 0..self.queues.sizes.depth {
            if self.cancel_on_tag(tag, number) {
                return true;
            }
        }
        false
    }
}

impl<A: Adapter> Shown for Port<A> {
    ghost view = { λ port. port.shown };

    ghost takes_srb = { true };

    ghost stack_size = { 1 };
}

impl<A: Adapter> Device for Port<A> {
    const TAKES_SRB: bool = true;

    ghost TAKES_SRB = { true };

    const STACK_SIZE: usize = 1;

    ghost STACK_SIZE = { 1 };

    fn shows_order(&self) {
        let _parts = &self.parts;
    }

    fn volumes(&self) -> u8 {
        // The view is known where a field is used.
        let _parts = &self.parts;
        1
    }

    fn sectors(&self, volume: u8) -> u64 {
        if volume == 0 {
            self.parts.queues.sizes.sectors
        } else {
            0
        }
    }

    fn longest(&self) -> u64 {
        self.parts.queues.sizes.max_transfer as u64
    }

    fn keeps_bytes(&self) -> bool {
        self.parts.queues.sizes.keeps_bytes
    }

    fn most(&self) -> u128 {
        let _parts = &self.parts;
        MOST
    }

    fn reserve(&mut self, request: &Request) -> Result<Room, AllocError> {
        self.parts.reserve_extent(request)?;
        let spot = self.parts.queues.add_place(*request)?;
        Ok(Room { spot })
    }

    fn submit(&mut self, irp: Box<Irp>, room: Room) {
        self.parts.queues.push(irp, room.spot);
        self.parts.start_waiting();
    }

    fn free(&mut self, room: Room) {
        self.parts.queues.remove_place(room.spot);
    }

    fn act(&mut self, tag: u8) -> bool {
        self.parts.adapter.act(tag)
    }

    fn armed(&self, tag: u8) -> Option<(u128, &Srb)> {
        self.parts.adapter.armed(tag)
    }

    fn book(&mut self, tag: u8, piece: u128, what: Booked<'_>) {
        self.parts.adapter.book(tag, piece, what);
    }

    fn finish(&mut self, tag: u8) -> bool {
        let Some((srb, completion)) = self.parts.adapter.finish(tag) else {
            return false;
        };
        self.parts.queues.end(tag, srb, completion.class());
        self.parts.start_waiting();
        true
    }

    fn reset(&mut self) {
        self.parts.adapter.reset();
    }

    fn cancel(&mut self, number: u128) {
        if self.parts.queues.withdraw(number) {
            return;
        }
        if self.parts.cancel_started(number) {
            return;
        }
        self.parts.queues.cancel_done(number);
    }

    /// At most three entries of the queue are visited, and the packets that ended are walked once.
    fn cancel_at(&mut self, spot: usize, number: u128)
        ensures cancels { ShownCancelsAt self.old.shown spot number self.new.shown }
        ensures visits { VisitsAtMost 3 self.old.visits self.new.visits }
        ensures walks { VisitsAtMost 1 self.old.walks self.new.walks }
    {
        if self.parts.cancel_queued(spot, number) {
            return;
        }
        if self.parts.cancel_started(number) {
            return;
        }
        self.parts.queues.cancel_done(number);
    }

    fn drain(&mut self) {
        self.parts.queues.drain();
    }

    fn take_done(&mut self) -> Option<(Climb, Room)> {
        let Some(
            Ended {
                irp,
                request,
                spot,
                outcome,
            },
        ) = self.parts.queues.take_done()
        else {
            return None;
        };
        let status = outcome.status();
        let information = information(self.parts.queues.sizes.sector_size, &request, status);
        Some((complete(irp, status, information), Room { spot }))
    }

    fn take_label(&mut self) -> Option<DeviceLabel> {
        self.parts.adapter.take_label()
    }

    fn forget_labels(&mut self) {
        self.parts.adapter.forget_labels();
    }

    ghost srb_is = { refl };

    ghost size_is = { refl };
}
