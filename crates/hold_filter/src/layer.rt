//! The filter as a layer of the stack.

ghost use Rattle.std.specs.Prelude.{◌⊎◌, ℕ, Bool, false, refl};
ghost use Rattle.std.proofs.Common.{ap};
ghost use Rattle.linked.specs.Queue.{VisitsAtMost};
ghost use Rattle.device.specs.Served.{CancelsAt};
ghost use Rattle.hold_filter.specs.Shown.{CancelsHeld, HoldsNone};
ghost use Rattle.hold_filter.specs.Opening.{stack_over};

use crate::filter::Filter;
use crate::packets::hand_up;
use device::{Climb, Device, Hold, Request, Room, Shown};
use irp::Irp;
use srb::{Booked, DeviceLabel, Srb};
use std::alloc::AllocError;

impl<D: Shown> Shown for Filter<D> {
    ghost view = { λ filter. filter.shown };

    ghost takes_srb = { false };

    ghost stack_size = { stack_over D.stack_size };
}

impl<D: Device> Device for Filter<D> {
    const TAKES_SRB: bool = false;

    ghost TAKES_SRB = { false };

    const STACK_SIZE: usize = if D::STACK_SIZE < 5 {
        D::STACK_SIZE + 1
    } else {
        D::STACK_SIZE
    };

    ghost STACK_SIZE = { stack_over D.STACK_SIZE };

    fn shows_order(&self) {
        let _parts = &self.parts;
    }

    fn volumes(&self) -> u8 {
        self.parts.device.volumes()
    }

    fn sectors(&self, volume: u8) -> u64 {
        self.parts.device.sectors(volume)
    }

    fn longest(&self) -> u64 {
        self.parts.device.longest()
    }

    fn keeps_bytes(&self) -> bool {
        self.parts.device.keeps_bytes()
    }

    fn most(&self) -> u128 {
        self.parts.device.most()
    }

    fn reserve(&mut self, request: &Request) -> Result<Room, AllocError> {
        let Ok(reserved) = self.parts.device.reserve(request) else {
            self.parts.device.shows_order();
            return Err(AllocError);
        };
        self.parts.device.shows_order();
        let Ok(()) = self.parts.table.cover(reserved.spot) else {
            self.parts.device.free(reserved);
            self.parts.device.shows_order();
            return Err(AllocError);
        };
        Ok(reserved)
    }

    fn submit(&mut self, irp: Box<Irp>, room: Room) {
        self.parts.table.count(irp.number);
        if self.parts.table.has_room() {
            self.parts.send(irp, room);
        } else {
            self.parts.table.take_in(irp, room);
        }
    }

    fn free(&mut self, room: Room) {
        self.parts.device.free(room);
        self.parts.device.shows_order();
    }

    fn act(&mut self, tag: u8) -> bool {
        let acted = self.parts.device.act(tag);
        self.parts.device.shows_order();
        acted
    }

    fn armed(&self, tag: u8) -> Option<(u128, &Srb)> {
        self.parts.device.armed(tag)
    }

    fn book(&mut self, tag: u8, piece: u128, what: Booked<'_>) {
        self.parts.device.book(tag, piece, what);
        self.parts.device.shows_order();
    }

    fn finish(&mut self, tag: u8) -> bool {
        let finished = self.parts.device.finish(tag);
        self.parts.device.shows_order();
        finished
    }

    fn reset(&mut self) {
        self.parts.device.reset();
        self.parts.device.shows_order();
    }

    fn cancel(&mut self, number: u128) {
        if let Some(spot) = self.parts.table.find_held(number) {
            self.parts.table.withdraw(spot, number);
            return;
        }
        self.parts.device.cancel(number);
        self.parts.device.shows_order();
    }

    /// A packet that is held leaves the queue. At most three entries of the queue are visited, and two of those that
    /// were cancelled while they were held.
    fn cancel_at(&mut self, spot: usize, number: u128)
        ensures cancels { CancelsAt self.old.shown spot number self.new.shown }
        ensures held { CancelsHeld self.old spot number self.new ⊎ HoldsNone self.old spot number self.new }
        ensures visits { VisitsAtMost 3 self.old.queue_visits self.new.queue_visits }
        ensures ended_visits { VisitsAtMost 2 self.old.ended_visits self.new.ended_visits }
    {
        if self.parts.table.withdraw(spot, number) {
            return;
        }
        self.parts.device.cancel_at(spot, number);
        self.parts.device.shows_order();
    }

    fn drain(&mut self) {
        self.parts.table.remove();
        self.parts.device.drain();
        self.parts.device.shows_order();
    }

    fn take_done(&mut self) -> Option<(Climb, Room)> {
        if let Some((held, status)) = self.parts.table.take_ended() {
            return Some(hand_up(held, status));
        }
        let (climb, room) = self.parts.device.take_done()?;
        self.parts.device.shows_order();
        self.parts.table.note_returned();
        self.parts.release();
        Some((climb, room))
    }

    fn take_label(&mut self) -> Option<DeviceLabel> {
        let label = self.parts.device.take_label();
        self.parts.device.shows_order();
        label
    }

    fn forget_labels(&mut self) {
        self.parts.device.forget_labels();
        self.parts.device.shows_order();
    }

    ghost srb_is = { refl };

    ghost size_is = { ap stack_over D.size_is };
}

impl<D: Device> Hold for Filter<D> {
    fn pause(&mut self) {
        self.parts.table.pause();
    }

    fn resume(&mut self) {
        self.parts.table.resume();
        self.parts.release();
    }
}
