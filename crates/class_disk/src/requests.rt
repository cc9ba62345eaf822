//! A request, by its parts in the order of their places: reserved, or open.

ghost use Rattle.std.specs.Prelude.{◌≡◌, ◌==◌, ◌<◌, ◌≤◌, ◌-◌, ◌*◌, ◌^◌, ℕ, true, false, List, Some, IfNone, IfSome};
ghost use Rattle.std.specs.Prelude.{length as list_length, slice_get, vec_capacity};
ghost use Rattle.ntstatus.specs.declared.NtStatus.TheVariants.{Success, DeviceBusy};
ghost use Rattle.irp.specs.declared.Payload.TheVariants.{Buffer};
ghost use Rattle.srb.specs.declared.Kind.TheVariants.{Read};
ghost use Rattle.device.specs.View.{payload_bytes};
ghost use Rattle.class_disk.specs.declared.parts.Part.{Part};
ghost use Rattle.class_disk.specs.declared.parts.Place.{Place};
ghost use Rattle.class_disk.specs.declared.parts.Progress.TheVariants.{Ready};
ghost use Rattle.class_disk.specs.declared.parts.Way.TheVariants.{Returned};
ghost use Rattle.class_disk.specs.inside.Parts.{EndsAs, EndsBack, HasReason, GoesAgain, joined_of, lowest_status};
ghost use Rattle.class_disk.specs.inside.TableView.{opened_of};
ghost use Rattle.class_disk.specs.inside.TableCalls.{new_opened, IsReadyAt, CanTake, IsDataOf, SendsAs, SendsAgain};
ghost use Rattle.class_disk.specs.inside.TableCalls.{ended_at, Completes};

use crate::Sizes;
use crate::blocks::{byte_count, ready_packet, srb_for};
use crate::buffers::{carried_up, data_of, lent};
use crate::noted::Noted;
use crate::parts::{Ended, Outcome, Part, Place, TransferPacket, Way};
use device::{Climb, Kind, Request, complete, information};
use irp::{Irp, Payload};
use ntstatus::NtStatus;
use sector::Bytes;
use std::mem;

/// How many restarts one request is allowed.
const RESTARTS: u8 = 16;

/// The parts of a request that has no packet here, each of which can be sent; none, once its packet has gone up.
#[derive(Drop)]
pub(crate) struct Places {
    pub request: Request,
    pub parts: Vec<Part>,
}

/// A request that is open, with its parts in the order of their places.
#[derive(Drop)]
pub(crate) struct Transfer {
    pub irp: Box<Irp>,
    pub request: Request,
    pub parts: Vec<Part>,
    /// How often a part was sent again.
    pub restarts: u8,
    /// How many parts have not ended.
    pub unfinished: usize,
    /// Whether the packet's buffer went below with the only part, and the bytes that it had then.
    pub lent: bool,
    pub noted: Noted,
}

/// What a slot has.
#[derive(Drop)]
pub(crate) enum Slot {
    /// A room.
    Reserved(Places),
    /// A packet.
    Open(Transfer),
}

impl Transfer {
    /// The transfer of a packet that came with its room, of which no part is sent yet.
    pub fn new(irp: Box<Irp>, places: Places) -> Transfer
        ensures { opened_of result ≡ new_opened irp.value places.request places.parts.items }
    {
        let Places { request, parts } = places;
        let unfinished = parts.len();
        Transfer {
            irp,
            request,
            parts,
            restarts: 0,
            unfinished,
            lent: false,
            noted: Noted::new(),
        }
    }

    /// Part k goes below for the first time, in a packet of this number.
    pub fn send(&mut self, sizes: &Sizes, k: usize, number: u128) -> TransferPacket
        requires { IsReadyAt sizes.now (opened_of self.old) k }
        ensures { (part : Part) (place : Place) → slice_get self.old.parts.items k ≡ Some part → part.progress
            ≡ Ready place
            → SendsAs sizes.now (opened_of self.old) k number part place result (opened_of self.new) }
    {
        let request = self.parts[k].request;
        let Place {
            mut packet,
            data,
            for_label,
        } = self.parts[k].send(number);
        let data = self.data_for(sizes, &request, data);
        let payload = Payload::Srb(srb_for(sizes.disk_sectors, &request, data, for_label));
        ready_packet(&mut packet.irp, number, &request, payload);
        packet
    }

    /// The data that a part takes along: the only one takes the request's buffer.
    fn data_for(&mut self, sizes: &Sizes, request: &Request, data: Vec<u8>) -> Bytes
        requires { CanTake sizes.now (opened_of self.old) request.now «data».items (vec_capacity «data») }
        ensures data { IsDataOf sizes.now.sector_size (payload_bytes (opened_of self.old).irp.payload) self.old.request
            request.now result }
        ensures after { opened_of self.new
            ≡ record (opened_of self.old) { lent = list_length self.old.parts.items == 1 } }
    {
        if self.parts.len() == 1 {
            return self.lend();
        }
        self.own_data(sizes, request, data)
    }

    /// Takes the packet's buffer, to go below.
    fn lend(&mut self) -> Bytes
        requires buffer { (bytes : List ℕ) × (self.old.irp.value.payload ≡ Buffer bytes) }
        requires here { self.old.lent ≡ false }
        ensures bytes { self.old.irp.value.payload ≡ Buffer result }
        ensures after { opened_of self.new ≡ record (opened_of self.old) { lent = true } }
    {
        let bytes = lent(&mut self.irp.payload);
        self.noted.note(bytes.as_slice());
        self.lent = true;
        bytes
    }

    /// The data of a part that has a buffer of its own: those of a write, copied from its request's.
    fn own_data(&self, sizes: &Sizes, request: &Request, data: Vec<u8>) -> Bytes
        requires can { CanTake sizes.now (opened_of self.now) request.now «data».items (vec_capacity «data») }
        requires several { (list_length self.now.parts.items == 1) ≡ false }
        ensures { IsDataOf sizes.now.sector_size (payload_bytes (opened_of self.now).irp.payload) self.now.request
            request.now result }
    {
        match (&self.irp.payload, request.kind) {
            (Payload::Buffer(bytes), Kind::Write) => {
                let whole = bytes.as_slice();
                let passed = request.extent.first - self.request.extent.first;
                let at = passed as usize * sizes.sector_size as usize;
                data_of(data, whole, at, byte_count(sizes, request))
            }
            _ => Bytes::new(data),
        }
    }

    /// Part k goes below again in a packet of this number, with the packet and the SRB that came back busy.
    pub fn send_again(
        &mut self,
        k: usize,
        number: u128,
        mut packet: TransferPacket,
    ) -> TransferPacket
        requires part { (part : Part) × ((slice_get self.old.parts.items k ≡ Some part) × (part.restarts < 255)) }
        requires few { self.old.restarts < 255 }
        ensures { (part : Part) → slice_get self.old.parts.items k ≡ Some part
            → SendsAgain (opened_of self.old) k number packet part result (opened_of self.new) }
    {
        let request = self.parts[k].request;
        self.restarts += 1;
        self.parts[k].send_again(number, packet.room.spot);
        let payload = mem::replace(&mut packet.irp.payload, Payload::Sent);
        ready_packet(&mut packet.irp, number, &request, payload);
        packet
    }

    /// Notes that part k has ended. Returns whether it was the last.
    pub fn end(&mut self, k: usize, ended: Ended) -> bool
        requires part { k < list_length self.old.parts.items }
        requires unfinished { 0 < self.old.unfinished }
        ensures ends { (part : Part) → slice_get self.old.parts.items k ≡ Some part
            → opened_of self.new ≡ ended_at k ended part (opened_of self.old) }
        ensures last { result ≡ (self.old.unfinished - 1 == 0) }
    {
        self.parts[k].end(ended);
        self.unfinished -= 1;
        self.unfinished == 0
    }

    /// Returns how a part that came back busy ends; `None` where it is sent again.
    fn busy_outcome(&self, removing: bool) -> Option<Outcome>
        ensures again { IfNone result (GoesAgain Returned self.now.irp.value.cancelled removing self.now.restarts DeviceBusy) }
        ensures ends { IfSome result (λ outcome. EndsBack DeviceBusy outcome
            × HasReason self.now.irp.value.cancelled removing self.now.restarts outcome) }
    {
        if self.irp.cancelled {
            Some(Outcome::Busy(NtStatus::Cancelled))
        } else if removing {
            Some(Outcome::Busy(NtStatus::NoSuchDevice))
        } else if self.restarts < RESTARTS {
            None
        } else {
            Some(Outcome::Busy(NtStatus::DeviceBusy))
        }
    }

    /// Returns how a part that came back with this status ends; `None` where it is sent again.
    fn returned(&self, removing: bool, status: NtStatus) -> Option<Outcome>
        ensures again { IfNone result (GoesAgain Returned self.now.irp.value.cancelled removing self.now.restarts status) }
        ensures ends { IfSome result (λ outcome. EndsBack status outcome
            × HasReason self.now.irp.value.cancelled removing self.now.restarts outcome) }
    {
        if status == NtStatus::Success {
            Some(Outcome::Good)
        } else if status == NtStatus::DeviceBusy {
            self.busy_outcome(removing)
        } else {
            Some(Outcome::Failed(status))
        }
    }

    /// Returns how a part ends whose packet ended in this way, with this status; `None` where it is sent again.
    pub fn outcome(&self, removing: bool, way: Way, status: NtStatus) -> Option<Outcome>
        ensures again { IfNone result (GoesAgain way self.now.irp.value.cancelled removing self.now.restarts status) }
        ensures ends { IfSome result (λ outcome. EndsAs way status outcome
            × HasReason self.now.irp.value.cancelled removing self.now.restarts outcome) }
    {
        match way {
            Way::Returned => self.returned(removing, status),
            Way::Unsent => Some(Outcome::Withdrawn(status)),
        }
    }

    /// The status that the request ends with: that of the lowest part that did not succeed.
    fn status(&self) -> NtStatus
        ensures { result ≡ lowest_status self.now.parts.items }
    {
        for part in &self.parts {
            if let Some(status) = part.failure() {
                return status;
            }
        }
        NtStatus::Success
    }

    /// Completes the packet of a request, all of whose parts have ended (WDK: IoCompleteRequest). The parts are left
    /// behind.
    pub fn complete(self, sizes: &Sizes) -> (Climb, Vec<Part>)
        requires small { self.request.extent.count * sizes.now.sector_size < 2 ^ 64 }
        requires some { self.lent ≡ true → 0 < list_length self.parts.items }
        requires room { (bytes : List ℕ) → self.lent ≡ false → self.irp.value.payload ≡ Buffer bytes
            → self.request.kind ≡ Read → lowest_status self.parts.items ≡ Success
            → list_length (joined_of self.parts.items) ≤ list_length bytes }
        ensures { Completes sizes.now (opened_of self) result.0 result.1.items }
    {
        let status = self.status();
        let information = information(sizes.sector_size, &self.request, status);
        let Transfer {
            mut irp,
            request,
            mut parts,
            lent,
            ..
        } = self;
        let joins = request.kind == Kind::Read && status == NtStatus::Success;
        let payload = mem::replace(&mut irp.payload, Payload::Sent);
        irp.payload = carried_up(payload, lent, joins, &mut parts);
        (complete(irp, status, information), parts)
    }
}
