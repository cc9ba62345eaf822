//! The class driver as a layer of the stack.

ghost use Rattle.std.specs.Prelude.{◌≡◌, refl, false};
ghost use Rattle.class_disk.specs.Opening.{TakesParts, IsFreshPort, opening_over};

use crate::parts::Way;
use crate::requests::Places;
use crate::spares::Spares;
use crate::table::Table;
use crate::{Disk, Extension, Sizes};
use device::{Climb, Device, Request, Room, Shown};
use irp::Irp;
use srb::{Booked, DeviceLabel, Srb};
use std::alloc::{AllocError, Global};

/// Sectors of the longest request.
const LONGEST: u64 = 65_536;

/// The most packets below for one request: its parts, and each that is sent again.
const PACKETS: u128 = 1 << 17;

/// The most requests that may be submitted, so that packets below have numbers.
const MOST: u128 = 1 << 63;

impl<D: Device> Disk<D> {
    /// The class driver over a port of which nothing was asked yet: a device that takes SRBs, is one whole disk and
    /// takes each request as one piece. `sector_size` is its own.
    pub fn new(alloc: Global, device: D, sector_size: u32) -> Disk<D>
        requires takes { TakesParts D.takes_srb D.stack_size }
        requires fresh { IsFreshPort (D.view device) }
        requires size { sector_size ≡ (D.view device).rules.sector_size }
        ensures { result ≡ opening_over (D.view device) }
    {
        device.shows_order();
        let sizes = Sizes {
            sector_size,
            max_transfer: device.longest(),
            disk_sectors: device.sectors(0),
            keeps_bytes: device.keeps_bytes(),
        };
        Disk {
            extension: Extension {
                alloc,
                device,
                table: Table::new(alloc, sizes),
                spares: Spares::new(alloc),
            },
        }
    }
}

impl<D: Shown> Shown for Disk<D> {
    ghost view = { λ shown. shown };

    ghost takes_srb = { false };

    ghost stack_size = { 1 };
}

impl<D: Device> Device for Disk<D> {
    const TAKES_SRB: bool = false;

    ghost TAKES_SRB = { false };

    const STACK_SIZE: usize = 1;

    ghost STACK_SIZE = { 1 };

    fn shows_order(&self) {
        let _extension = &self.extension;
    }

    fn volumes(&self) -> u8 {
        // The view is known where a field is used.
        let _extension = &self.extension;
        1
    }

    fn sectors(&self, volume: u8) -> u64 {
        self.extension.device.sectors(volume)
    }

    fn longest(&self) -> u64 {
        let _extension = &self.extension;
        LONGEST
    }

    fn keeps_bytes(&self) -> bool {
        self.extension.device.keeps_bytes()
    }

    fn most(&self) -> u128 {
        (self.extension.device.most() / PACKETS).min(MOST)
    }

    fn reserve(&mut self, request: &Request) -> Result<Room, AllocError> {
        let slot = self.extension.table.make_slot()?;
        let parts = self.extension.reserve_parts(request, slot)?;
        let places = Places {
            request: *request,
            parts,
        };
        self.extension.table.fill(slot, places);
        Ok(Room { spot: slot })
    }

    fn submit(&mut self, irp: Box<Irp>, room: Room) {
        self.extension.table.open(room.spot, irp);
        self.extension.send_parts(room.spot);
        self.extension.settle();
    }

    fn free(&mut self, room: Room) {
        let places = self.extension.table.give_up(room.spot);
        self.extension.free_parts(places.parts);
    }

    fn act(&mut self, tag: u8) -> bool {
        let acted = self.extension.device.act(tag);
        self.extension.device.shows_order();
        acted
    }

    fn armed(&self, tag: u8) -> Option<(u128, &Srb)> {
        self.extension.device.armed(tag)
    }

    fn book(&mut self, tag: u8, piece: u128, what: Booked<'_>) {
        self.extension.device.book(tag, piece, what);
        self.extension.device.shows_order();
    }

    fn finish(&mut self, tag: u8) -> bool {
        if !self.extension.device.finish(tag) {
            return false;
        }
        self.extension.device.shows_order();
        self.extension.take_all(Way::Returned);
        true
    }

    fn reset(&mut self) {
        self.extension.device.reset();
        self.extension.device.shows_order();
    }

    fn cancel(&mut self, number: u128) {
        if let Some(slot) = self.extension.table.find(number) {
            self.cancel_at(slot, number);
        }
    }

    fn cancel_at(&mut self, spot: usize, number: u128) {
        if !self.extension.table.cancel(spot, number) {
            return;
        }
        self.extension.cancel_parts(spot);
        self.extension.take_all(Way::Unsent);
    }

    fn drain(&mut self) {
        self.extension.table.removing = true;
        self.extension.device.drain();
        self.extension.device.shows_order();
        self.extension.take_all(Way::Unsent);
    }

    fn take_done(&mut self) -> Option<(Climb, Room)> {
        let (slot, transfer) = self.extension.table.take_ended()?;
        let request = transfer.request;
        let (climb, parts) = transfer.complete(&self.extension.table.sizes);
        let left = Places {
            request,
            parts: Vec::new(self.extension.alloc),
        };
        self.extension.table.fill(slot, left);
        self.extension.free_parts(parts);
        Some((climb, Room { spot: slot }))
    }

    fn take_label(&mut self) -> Option<DeviceLabel> {
        let label = self.extension.device.take_label();
        self.extension.device.shows_order();
        label
    }

    fn forget_labels(&mut self) {
        self.extension.device.forget_labels();
        self.extension.device.shows_order();
    }

    ghost srb_is = { refl };

    ghost size_is = { refl };
}
