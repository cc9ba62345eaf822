//! What the class driver does with its parts.

ghost use Rattle.std.specs.Global.{Box};
ghost use Rattle.std.specs.Prelude.{◌≡◌, ◌≢◌, ◌<◌, ◌≤◌, ◌*◌, ◌^◌, ℕ, List, [], ◌∷◌, ◌++◌, All, IfOk, OnOk, OnErr};
ghost use Rattle.std.specs.Prelude.{MatchBool, length, map, slice_get, vec_capacity};
ghost use Rattle.irp.specs.declared.Irp.{Irp};
ghost use Rattle.device.specs.declared.climbing.Climb.TheVariants.{Finished};
ghost use Rattle.srb.specs.declared.Kind.TheVariants.{Write};
ghost use Rattle.machine.specs.State.{State};
ghost use Rattle.srb.specs.declared.DeviceLabel.{DeviceLabel};
ghost use Rattle.device.specs.View.{IsBounded, IsOrderly, IsReserved};
ghost use Rattle.device.specs.inside.Out.{Ticket};
ghost use Rattle.class_disk.specs.inside.Rooms.{AllOut};
ghost use Rattle.device.specs.Served.{Frees, ReservesNear};
ghost use Rattle.class_disk.specs.declared.parts.Part.{Part};
ghost use Rattle.class_disk.specs.declared.parts.Place.{Place};
ghost use Rattle.class_disk.specs.declared.parts.Progress.TheVariants.{Ready};
ghost use Rattle.class_disk.specs.Opening.{TakesParts};
ghost use Rattle.class_disk.specs.inside.Blocks.{part_count_of};
ghost use Rattle.class_disk.specs.inside.Invariant.{EndedBy, IsNothing};
ghost use Rattle.class_disk.specs.inside.Parts.{IsHere, tickets_of, below_by};
ghost use Rattle.class_disk.specs.inside.TableView.{Opened, books_of, open_at};
ghost use Rattle.class_disk.specs.inside.TableCalls.{IsPartAt};
ghost use Rattle.class_disk.specs.inside.DuringACall.{IsMidway, TakesOne, TakesAll, FindsNone};
ghost use Rattle.class_disk.specs.inside.DuringACall.{ChangesRooms, CanSendPart, CanSendAgain, CancelsBelow};
ghost use Rattle.class_disk.specs.inside.DuringACall.{CancelsAll};
ghost use Rattle.class_disk.specs.inside.DuringACall.{packet_of_part, IsOpening, OpeningSoFar};
ghost use Rattle.class_disk.specs.inside.DuringACall.{SendsAll, SendsDown, SendsDownAgain, IsNewPart, AreNewParts};
ghost use Rattle.class_disk.specs.inside.DuringACall.{CanCut, MakesNone, MakesRoom, MakesParts};

use crate::Extension;
use crate::blocks::{byte_count, part_count, part_request};
use crate::buffers::{data_buffer, label_room, own_bytes};
use crate::parts::{Ended, Part, PartId, Place, Progress, TransferPacket, Way};
use device::{Climb, Device, Request};
use irp::Irp;
use std::alloc::AllocError;

/// The packet that is finished: one of the class driver's own has no completion routine above (the WDK's has one, which
/// returns STATUS_MORE_PROCESSING_REQUIRED); `take_done` brings it.
fn finished(climb: Climb) -> Box<Irp>
    requires { (irp : Box Irp) × (climb ≡ Finished irp) }
    ensures { climb ≡ Finished result }
{
    match climb {
        Climb::Finished(irp) => irp,
        Climb::Routine { .. } => unreachable!(),
    }
}

impl<D: Device> Extension<D> {
    /// Gives a room back, and keeps its packet.
    fn give_back(&mut self, packet: TransferPacket)
        requires { IsReserved (D.view self.old.device).rooms packet.room.spot }
        ensures table { self.new.table ≡ self.old.table }
        ensures order { IsOrderly (D.view self.new.device) }
        ensures frees { Frees (D.view self.old.device) packet.room.spot (D.view self.new.device) }
    {
        let TransferPacket { irp, room } = packet;
        self.device.free(room);
        self.device.shows_order();
        self.spares.keep_packet(irp);
    }

    /// The packet of a part, with a room below for what the part asks for.
    fn reserve_packet(
        &mut self,
        request: &Request,
        id: PartId,
    ) -> Result<TransferPacket, AllocError>
        requires { IsBounded (D.view self.old.device).rules request.now }
        ensures table { self.new.table ≡ record self.old.table { owners = self.new.table.owners } }
        ensures refused { OnErr result (MakesNone (D.view self.old.device) self.old.table.owners.items
            (D.view self.new.device) self.new.table.owners.items) }
        ensures makes { IfOk result (λ packet. MakesRoom (D.view self.old.device)
            self.old.table.owners.items id request.now
            packet.room.spot (D.view self.new.device) self.new.table.owners.items) }
        ensures near { ReservesNear (D.view self.old.device) request.now (D.view self.new.device) }
        ensures unless_write { request.now.kind ≢ Write
            → (D.view self.new.device).adapter ≡ (D.view self.old.device).adapter }
    {
        let irp = self.spares.packet(self.alloc)?;
        let reserved = self.device.reserve(request);
        self.device.shows_order();
        let room = reserved?;
        let packet = TransferPacket { irp, room };
        let Ok(()) = self.table.own(packet.room.spot, id) else {
            self.give_back(packet);
            return Err(AllocError);
        };
        Ok(packet)
    }

    /// Places for one part: the only one of a request takes the request's buffer, and needs none of its own.
    fn reserve_part(
        &mut self,
        request: &Request,
        id: PartId,
        is_only: bool,
    ) -> Result<Part, AllocError>
        requires bounded { IsBounded (D.view self.old.device).rules request.now }
        requires small { request.now.extent.count * self.old.table.sizes.sector_size < 2 ^ 64 }
        ensures table { self.new.table ≡ record self.old.table { owners = self.new.table.owners } }
        ensures part { IfOk result (λ part. IsNewPart self.old.table.sizes.keeps_bytes is_only self.old.table.sizes.sector_size request.now part) }
        ensures refused { OnErr result (MakesNone (D.view self.old.device) self.old.table.owners.items
            (D.view self.new.device) self.new.table.owners.items) }
        ensures makes { IfOk result (λ part. MakesParts (D.view self.old.device)
            self.old.table.owners.items id.slot id.part
            (part ∷ []) (D.view self.new.device) self.new.table.owners.items) }
        ensures near { ReservesNear (D.view self.old.device) request.now (D.view self.new.device) }
        ensures unless_write { request.now.kind ≢ Write
            → (D.view self.new.device).adapter ≡ (D.view self.old.device).adapter }
    {
        let length = byte_count(&self.table.sizes, request);
        let data = data_buffer(self.alloc, request.kind, own_bytes(is_only, length))?;
        let for_label = label_room(self.alloc, self.table.sizes.keeps_bytes, length)?;
        let packet = self.reserve_packet(request, id)?;
        let place = Place {
            packet,
            data,
            for_label,
        };
        Ok(Part {
            request: *request,
            restarts: 0,
            progress: Progress::Ready(place),
        })
    }

    /// Gives the rooms of parts back, and keeps their list.
    pub fn free_parts(&mut self, mut parts: Vec<Part>)
        requires out { (others : List Ticket) × AllOut (D.view self.old.device) (tickets_of parts.items ++ others) }
        requires here { All IsHere parts.items }
        ensures table { self.new.table ≡ self.old.table }
        ensures out { (others : List Ticket) → AllOut (D.view self.old.device) (tickets_of parts.items ++ others)
            → AllOut (D.view self.new.device) others }
        ensures same { ChangesRooms (D.view self.old.device) (D.view self.new.device) }
    {
        while let Some(part) = parts.pop() {
            self.give_back(part.into_packet());
        }
        self.spares.keep_parts(parts);
    }

    /// Adds places for the parts of the request in a slot behind those that are there.
    fn add_parts(
        &mut self,
        request: &Request,
        slot: usize,
        parts: &mut Vec<Part>,
    ) -> Result<(), AllocError>
        requires in_order { (others : List Ticket) × AllOut (D.view self.old.device) others }
        requires cuts { CanCut self.old.table.sizes (D.view self.old.device).rules request.now }
        requires none { parts.old.items ≡ [] }
        requires places { part_count_of self.old.table.sizes.max_transfer request.now ≤ vec_capacity parts.old }
        ensures table { self.new.table ≡ record self.old.table { owners = self.new.table.owners } }
        ensures count { OnOk result (length parts.new.items
            ≡ part_count_of self.old.table.sizes.max_transfer request.now) }
        ensures parts { AreNewParts self.old.table.sizes request.now (length parts.new.items) parts.new.items }
        ensures makes { MakesParts (D.view self.old.device) self.old.table.owners.items slot 0 parts.new.items
            (D.view self.new.device) self.new.table.owners.items }
        ensures near { ReservesNear (D.view self.old.device) request.now (D.view self.new.device) }
        ensures unless_write { request.now.kind ≢ Write
            → (D.view self.new.device).adapter ≡ (D.view self.old.device).adapter }
    {
        let count = part_count(&self.table.sizes, request);
        for k in 0..count {
            let below = part_request(&self.table.sizes, request, k);
            let part = self.reserve_part(
                &below,
                PartId {
                    slot,
                    part: k as usize,
                },
                count == 1,
            )?;
            parts.push_reserved(part);
        }
        Ok(())
    }

    /// Places for all parts of the request in a slot.
    pub fn reserve_parts(&mut self, request: &Request, slot: usize) -> Result<Vec<Part>, AllocError>
        requires in_order { (others : List Ticket) × AllOut (D.view self.old.device) others }
        requires cuts { CanCut self.old.table.sizes (D.view self.old.device).rules request.now }
        ensures table { self.new.table ≡ record self.old.table { owners = self.new.table.owners } }
        ensures parts { IfOk result (λ parts. AreNewParts self.old.table.sizes request.now
            (part_count_of self.old.table.sizes.max_transfer request.now) parts.items) }
        ensures makes { IfOk result (λ parts. MakesParts (D.view self.old.device)
            self.old.table.owners.items slot 0 parts.items
            (D.view self.new.device) self.new.table.owners.items) }
        ensures refused { OnErr result (MakesNone (D.view self.old.device) self.old.table.owners.items
            (D.view self.new.device) self.new.table.owners.items) }
        ensures near { ReservesNear (D.view self.old.device) request.now (D.view self.new.device) }
        ensures unless_write { request.now.kind ≢ Write
            → (D.view self.new.device).adapter ≡ (D.view self.old.device).adapter }
    {
        let count = part_count(&self.table.sizes, request) as usize;
        let mut parts = self.spares.parts(self.alloc, count)?;
        let added = self.add_parts(request, slot, &mut parts);
        match added {
            Ok(()) => Ok(parts),
            Err(error) => {
                self.free_parts(parts);
                Err(error)
            }
        }
    }

    /// Sends a part for the first time.
    fn send_part(&mut self, id: PartId)
        requires takes { TakesParts D.takes_srb D.stack_size }
        requires can { (others : List Ticket) × (o : Opened) × (part : Part) × (place : Place)
            × CanSendPart (D.view self.old.device) (books_of self.old.table) id.slot id.part others o part place }
        ensures { (o : Opened) (part : Part) (place : Place) → open_at id.slot (books_of self.old.table).opens ≡ Some o
            → slice_get o.parts id.part ≡ Some part → part.progress ≡ Ready place
            → SendsDown (D.view self.old.device) (books_of self.old.table) id.slot id.part o part place
            (D.view self.new.device) (books_of self.new.table) }
    {
        let TransferPacket { irp, room } = self.table.send(id);
        self.device.submit(irp, room);
        self.device.shows_order();
    }

    /// Sends all parts of the request in a slot, in rising order.
    pub fn send_parts(&mut self, slot: usize)
        requires takes { TakesParts D.takes_srb D.stack_size }
        requires opening { IsOpening (D.view self.old.device) (books_of self.old.table) slot 0 }
        ensures { (first : State) (labels : List DeviceLabel)
            → OpeningSoFar (D.view self.old.device) (books_of self.old.table) first labels
            → SendsAll first labels (D.view self.old.device) (books_of self.old.table) slot
            (D.view self.new.device) (books_of self.new.table) }
    {
        for part in 0..self.table.part_count(slot) {
            self.send_part(PartId { slot, part });
        }
    }

    /// Asks the layer below for an ended packet. It has none, so it is settled.
    pub fn settle(&mut self)
        requires { (first : State) × (labels : List DeviceLabel)
            × IsMidway IsNothing first labels (D.view self.old.device) (books_of self.old.table) }
        ensures { FindsNone (D.view self.old.device) (books_of self.old.table) (D.view self.new.device)
            (books_of self.new.table) }
    {
        if let Some(_ended) = self.device.take_done() {
            unreachable!()
        }
    }

    /// Sends a part again, with the packet and the SRB that came back busy.
    fn send_again(&mut self, id: PartId, packet: TransferPacket)
        requires takes { TakesParts D.takes_srb D.stack_size }
        requires can { (others : List Ticket) × (o : Opened) × (part : Part)
            × CanSendAgain (D.view self.old.device) (books_of self.old.table) id.slot id.part packet others o part }
        ensures { (o : Opened) (part : Part) → open_at id.slot (books_of self.old.table).opens ≡ Some o
            → slice_get o.parts id.part ≡ Some part
            → SendsDownAgain (D.view self.old.device) (books_of self.old.table) id.slot id.part packet o part
            (D.view self.new.device) (books_of self.new.table) }
    {
        let TransferPacket { irp, room } = self.table.send_again(id, packet);
        self.device.submit(irp, room);
        self.device.shows_order();
    }

    /// Takes a packet that ended in this way, where there is one: its part is sent again, or has ended.
    fn take_one(&mut self, way: Way) -> bool
        requires takes { TakesParts D.takes_srb D.stack_size }
        requires midway { (first : State) × (labels : List DeviceLabel)
            × IsMidway (EndedBy way) first labels (D.view self.old.device) (books_of self.old.table) }
        ensures { MatchBool result
            (TakesOne way (D.view self.old.device) (books_of self.old.table) (D.view self.new.device)
            (books_of self.new.table))
            (FindsNone (D.view self.old.device) (books_of self.old.table) (D.view self.new.device)
            (books_of self.new.table)) }
    {
        let Some((climb, room)) = self.device.take_done() else {
            return false;
        };
        self.device.shows_order();
        let packet = TransferPacket {
            irp: finished(climb),
            room,
        };
        let status = packet.irp.io_status.status;
        let id = self.table.owner(packet.room.spot);
        match self.table.outcome(id.slot, way, status) {
            None => self.send_again(id, packet),
            Some(outcome) => self.table.end(id, Ended { packet, outcome }),
        }
        true
    }

    /// Takes all packets that ended, in this way.
    pub fn take_all(&mut self, way: Way)
        requires takes { TakesParts D.takes_srb D.stack_size }
        requires midway { (first : State) × (labels : List DeviceLabel)
            × IsMidway (EndedBy way) first labels (D.view self.old.device) (books_of self.old.table) }
        ensures { TakesAll way (D.view self.old.device) (books_of self.old.table)
            (D.view self.new.device) (books_of self.new.table) }
    {
        'taking: while self.take_one(way) {}
    }

    /// Cancels the packet of a part, where it is below.
    fn cancel_part(&mut self, id: PartId)
        requires { (part : Part) × IsPartAt (books_of self.old.table) id.slot id.part part }
        ensures table { self.new.table ≡ self.old.table }
        ensures cancels { (part : Part) → IsPartAt (books_of self.old.table) id.slot id.part part
            → CancelsBelow (D.view self.old.device) (below_by part.progress) (D.view self.new.device) }
    {
        if let Some((number, spot)) = self.table.packet_below(id) {
            self.device.cancel_at(spot, number);
        }
    }

    /// Cancels the parts below of the request in a slot.
    pub fn cancel_parts(&mut self, slot: usize)
        requires { (o : Opened) × (open_at slot (books_of self.old.table).opens ≡ Some o) }
        ensures table { self.new.table ≡ self.old.table }
        ensures order { IsOrderly (D.view self.new.device) }
        ensures cancels { (o : Opened) → open_at slot (books_of self.old.table).opens ≡ Some o
            → CancelsAll (D.view self.old.device) (map packet_of_part o.parts) (D.view self.new.device) }
    {
        for part in 0..self.table.part_count(slot) {
            self.cancel_part(PartId { slot, part });
        }
        self.device.shows_order();
    }
}
