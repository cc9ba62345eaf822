//! The partition driver as a layer of the stack.

ghost use Rattle.std.specs.Prelude.{◌≡◌, ◌<◌, ◌≤◌, ◌+◌, ◌-◌, ◌^◌, ℕ, Some, min, vec_capacity, MatchBool};
ghost use Rattle.std.proofs.Common.{ap};
ghost use Rattle.arrayvec.specs.ArrayVec.{array_vec_len};
ghost use Rattle.machine.specs.Rules.{home};
ghost use Rattle.device.specs.View.{label_places, KeepsOutside};
ghost use Rattle.device.specs.Served.{ActsOrFaults, ActsNot};
ghost use Rattle.partition.specs.OnDisk.{rules_over, on_disk};
ghost use Rattle.partition.specs.inside.Rooms.{wanted_at, wanted_by};

use crate::locations::pass_on;
use crate::wanted::note;
use crate::{Partitions, Parts};
use device::{Climb, Device, Hold, Request, Room, Shown, resume};
use irp::Irp;
use sector::Extent;
use srb::{Booked, DeviceLabel, Srb};
use std::alloc::AllocError;

impl<D: Shown> Parts<D> {
    /// The sectors of the disk that a request of a partition is for.
    fn extent_on_disk(&self, request: &Request) -> Extent
        requires known { request.now.volume < array_vec_len self.now.table }
        requires fits { let rules = rules_over self.now.table.items (D.view self.now.device).rules in
            home rules (Some request.now.volume) request.now.extent.first < 2 ^ 64 }
        ensures { result
            ≡ (on_disk (rules_over self.now.table.items (D.view self.now.device).rules) request.now).extent }
    {
        let partition = self.table[usize::from(request.volume)];
        request.extent.shift(partition.first)
    }

    /// Returns what a spot was last reserved for.
    fn wanted_at(&self, spot: usize) -> Option<Request>
        ensures { result ≡ wanted_at (wanted_by self.now.wanted.items (vec_capacity self.now.wanted)) spot }
    {
        self.wanted.get(spot).copied().flatten()
    }
}

impl<D: Shown> Shown for Partitions<D> {
    ghost view = { λ partitions. partitions };

    ghost takes_srb = { D.takes_srb };

    // One location more than the disk's; a packet has four at most.
    ghost stack_size = { min (D.stack_size + 1) (2 ^ 64 - 1) };
}

impl<D: Device> Device for Partitions<D> {
    const TAKES_SRB: bool = D::TAKES_SRB;

    ghost TAKES_SRB = { D.TAKES_SRB };

    const STACK_SIZE: usize = usize::saturating_add(D::STACK_SIZE, 1);

    ghost STACK_SIZE = { min (D.STACK_SIZE + 1) (2 ^ 64 - 1) };

    fn shows_order(&self) {
        let _parts = &self.parts;
    }

    fn volumes(&self) -> u8 {
        self.parts.table.len() as u8
    }

    fn sectors(&self, volume: u8) -> u64 {
        self.parts
            .table
            .get(usize::from(volume))
            .map_or(0, |extent| extent.count)
    }

    fn longest(&self) -> u64 {
        self.parts.device.longest()
    }

    fn keeps_bytes(&self) -> bool {
        self.parts.device.keeps_bytes()
    }

    fn most(&self) -> u128 {
        self.parts.device.most()
    }

    fn reserve(&mut self, request: &Request) -> Result<Room, AllocError> {
        let on_disk = Request {
            volume: 0,
            extent: self.parts.extent_on_disk(request),
            ..*request
        };
        let reserved = self.parts.device.reserve(&on_disk);
        self.parts.device.shows_order();
        let room = reserved?;
        if let Err(error) = note(&mut self.parts.wanted, room.spot, *request) {
            self.parts.device.free(room);
            self.parts.device.shows_order();
            return Err(error);
        }
        Ok(room)
    }

    fn submit(&mut self, mut irp: Box<Irp>, room: Room) {
        let Some(request) = self.parts.wanted_at(room.spot) else {
            unreachable!()
        };
        let extent = self.parts.extent_on_disk(&request);
        pass_on(&mut irp, request.kind, extent);
        self.parts.device.submit(irp, room);
        self.parts.device.shows_order();
    }

    fn free(&mut self, room: Room) {
        self.parts.device.free(room);
        self.parts.device.shows_order();
    }

    /// A sector of the disk that is in no partition stays as it is.
    fn act(&mut self, tag: u8) -> bool
        requires label_place { label_places self.old + 1 ≤ 64 }
        ensures acts { MatchBool result (ActsOrFaults self.old tag self.new) (ActsNot self.old tag self.new) }
        ensures outside { KeepsOutside self.old.rules.partitions self.old.adapter self.new.adapter }
    {
        let acted = self.parts.device.act(tag);
        self.parts.device.shows_order();
        acted
    }

    fn armed(&self, tag: u8) -> Option<(u128, &Srb)> {
        self.parts.device.armed(tag)
    }

    fn book(&mut self, tag: u8, piece: u128, what: Booked<'_>) {
        self.parts.device.book(tag, piece, what);
        self.parts.device.shows_order();
    }

    fn finish(&mut self, tag: u8) -> bool {
        let finished = self.parts.device.finish(tag);
        self.parts.device.shows_order();
        finished
    }

    fn reset(&mut self) {
        self.parts.device.reset();
        self.parts.device.shows_order();
    }

    fn cancel(&mut self, number: u128) {
        self.parts.device.cancel(number);
        self.parts.device.shows_order();
    }

    fn cancel_at(&mut self, spot: usize, number: u128) {
        self.parts.device.cancel_at(spot, number);
        self.parts.device.shows_order();
    }

    fn drain(&mut self) {
        self.parts.device.drain();
        self.parts.device.shows_order();
    }

    fn take_done(&mut self) -> Option<(Climb, Room)> {
        let done = self.parts.device.take_done();
        self.parts.device.shows_order();
        let (climb, room) = done?;
        let Climb::Routine { driver: _, irp } = climb else {
            unreachable!()
        };
        Some((resume(irp), room))
    }

    fn take_label(&mut self) -> Option<DeviceLabel> {
        let label = self.parts.device.take_label();
        self.parts.device.shows_order();
        label
    }

    fn forget_labels(&mut self) {
        self.parts.device.forget_labels();
        self.parts.device.shows_order();
    }

    ghost srb_is = { D.srb_is };

    ghost size_is = { ap (λ (n : ℕ). min (n + 1) (2 ^ 64 - 1)) D.size_is };
}

impl<D: Hold> Hold for Partitions<D> {
    fn pause(&mut self) {
        self.parts.device.pause();
        self.parts.device.shows_order();
    }

    fn resume(&mut self) {
        self.parts.device.resume();
        self.parts.device.shows_order();
    }
}
