//! The calls of the table for the parts of an open request.

ghost use Rattle.std.specs.Prelude.{◌≡◌, ◌<◌, ◌+◌, ℕ, Some, All, IfNone, IfSome, IsTrue, MatchBool, length, slice_get};
ghost use Rattle.class_disk.specs.declared.parts.Part.{Part};
ghost use Rattle.class_disk.specs.declared.parts.Place.{Place};
ghost use Rattle.class_disk.specs.declared.parts.Progress.TheVariants.{Ready};
ghost use Rattle.class_disk.specs.inside.Parts.{EndsAs, HasReason, GoesAgain, below_by};
ghost use Rattle.class_disk.specs.inside.TableView.{Opened, books_of, opened_of, open_at};
ghost use Rattle.class_disk.specs.inside.TableCalls.{IsReadyAt, IsPartAt, CanNumber, SendsPart, SendsPartAgain};
ghost use Rattle.class_disk.specs.inside.TableCalls.{ended_at, ended_books};
ghost use Rattle.class_disk.specs.inside.TableCalls.{is_cancellable, can_cancel, CannotCancel, CanCancelAt};
ghost use Rattle.class_disk.specs.inside.TableCalls.{CannotCancelAt, CancelsAtSlot, CancelsNoneAt};

use crate::parts::{Ended, Outcome, PartId, TransferPacket, Way};
use crate::requests::{Slot, Transfer};
use crate::table::Table;
use ntstatus::NtStatus;

/// Whether there is an open request of this number that is not cancelled yet.
fn is_open_under(slot: &Slot, number: u128) -> bool
    ensures { result ≡ can_cancel number slot.now }
{
    match slot {
        Slot::Open(transfer) => transfer.irp.number == number && !transfer.irp.cancelled,
        Slot::Reserved(_) => false,
    }
}

impl Table {
    /// The open request of a slot.
    fn at(&self, slot: usize) -> &Transfer
        requires { (o : Opened) × (open_at slot (books_of self.now).opens ≡ Some o) }
        ensures { (o : Opened) → open_at slot (books_of self.now).opens ≡ Some o → opened_of result.now ≡ o }
    {
        let Some(Slot::Open(transfer)) = self.slots.get(slot) else {
            unreachable!()
        };
        transfer
    }

    /// Returns how many parts the request of a slot has.
    pub fn part_count(&self, slot: usize) -> usize
        requires { (o : Opened) × (open_at slot (books_of self.now).opens ≡ Some o) }
        ensures { (o : Opened) → open_at slot (books_of self.now).opens ≡ Some o → result ≡ length o.parts }
    {
        self.at(slot).parts.len()
    }

    /// Takes the number of the next packet below.
    fn take_number(&mut self) -> u128
        requires { CanNumber (books_of self.old) }
        ensures number { result ≡ self.old.next_packet }
        ensures after { self.new ≡ record self.old { next_packet = self.old.next_packet + 1 } }
    {
        let number = self.next_packet;
        self.next_packet += 1;
        number
    }

    /// Notes that a part goes below for the first time, and returns what goes.
    pub fn send(&mut self, id: PartId) -> TransferPacket
        requires number { CanNumber (books_of self.old) }
        requires ready { (o : Opened) × ((open_at id.slot (books_of self.old).opens ≡ Some o)
            × IsReadyAt self.old.sizes o id.part) }
        ensures { (o : Opened) (part : Part) (place : Place) → open_at id.slot (books_of self.old).opens ≡ Some o
            → slice_get o.parts id.part ≡ Some part → part.progress ≡ Ready place
            → SendsPart (books_of self.old) id.slot id.part o part place result (books_of self.new) }
    {
        let number = self.take_number();
        let mut transfer = self.take_open(id.slot);
        let packet = transfer.send(&self.sizes, id.part, number);
        self.put_open(id.slot, transfer);
        packet
    }

    /// Notes that a part goes below again, with the packet and the SRB that came back busy.
    pub fn send_again(&mut self, id: PartId, packet: TransferPacket) -> TransferPacket
        requires number { CanNumber (books_of self.old) }
        requires part { (o : Opened) × (part : Part) × (open_at id.slot (books_of self.old).opens ≡ Some o)
            × (slice_get o.parts id.part ≡ Some part) × (part.restarts < 255) × (o.restarts < 255) }
        ensures { (o : Opened) (part : Part) → open_at id.slot (books_of self.old).opens ≡ Some o
            → slice_get o.parts id.part ≡ Some part
            → SendsPartAgain (books_of self.old) id.slot id.part packet o part result (books_of self.new) }
    {
        let number = self.take_number();
        let mut transfer = self.take_open(id.slot);
        let packet = transfer.send_again(id.part, number, packet);
        self.put_open(id.slot, transfer);
        packet
    }

    /// Returns how a part of the request in a slot ends, where its packet ended in this way, with this status; `None`
    /// where it is sent again.
    pub fn outcome(&self, slot: usize, way: Way, status: NtStatus) -> Option<Outcome>
        requires { (o : Opened) × (open_at slot (books_of self.now).opens ≡ Some o) }
        ensures again { (o : Opened) → open_at slot (books_of self.now).opens ≡ Some o
            → IfNone result (GoesAgain way o.irp.cancelled self.now.removing o.restarts status) }
        ensures ends { (o : Opened) → open_at slot (books_of self.now).opens ≡ Some o
            → IfSome result (λ outcome. EndsAs way status outcome
            × HasReason o.irp.cancelled self.now.removing o.restarts outcome) }
    {
        self.at(slot).outcome(self.removing, way, status)
    }

    /// Notes that a part has ended. The request ends with its last part.
    pub fn end(&mut self, id: PartId, ended: Ended)
        requires part { (o : Opened) × (part : Part) × (open_at id.slot (books_of self.old).opens ≡ Some o)
            × (slice_get o.parts id.part ≡ Some part) × (0 < o.unfinished) }
        requires place { length (books_of self.old).ended < (books_of self.old).ended_places }
        ensures { (o : Opened) (part : Part) → open_at id.slot (books_of self.old).opens ≡ Some o
            → slice_get o.parts id.part ≡ Some part
            → books_of self.new ≡ ended_books id.slot (ended_at id.part ended part o) (books_of self.old) }
    {
        let mut transfer = self.take_open(id.slot);
        let last = transfer.end(id.part, ended);
        self.put_open(id.slot, transfer);
        if last {
            self.ended.push_back_reserved(id.slot);
        }
    }

    /// The number and the spot of a part's packet, where it is below.
    pub fn packet_below(&self, id: PartId) -> Option<(u128, usize)>
        requires { (part : Part) × IsPartAt (books_of self.now) id.slot id.part part }
        ensures { (part : Part) → IsPartAt (books_of self.now) id.slot id.part part → result ≡ below_by part.progress }
    {
        self.at(id.slot).parts[id.part].packet_below()
    }

    /// The slot of the open request of this number that is not cancelled yet.
    pub fn find(&self, number: u128) -> Option<usize>
        ensures found { IfSome result (λ slot. (o : Opened) × ((open_at slot (books_of self.now).opens ≡ Some o)
            × IsTrue (is_cancellable number (slot, o)))) }
        ensures none { IfNone result (All (CannotCancel number) (books_of self.now).opens) }
    {
        for (key, slot) in self.slots.iter() {
            if is_open_under(slot, number) {
                return Some(key);
            }
        }
        None
    }

    /// Whether a slot has an open request of this number that is not cancelled yet.
    fn can_cancel(&self, slot: usize, number: u128) -> bool
        ensures { MatchBool result (CanCancelAt (books_of self.now) slot number) (CannotCancelAt
            (books_of self.now) slot number) }
    {
        match self.slots.get(slot) {
            Some(found) => is_open_under(found, number),
            None => false,
        }
    }

    /// Marks the request in a slot as cancelled, where it has this number and is not cancelled yet.
    pub fn cancel(&mut self, slot: usize, number: u128) -> bool
        ensures { MatchBool result (CancelsAtSlot (books_of self.old) slot number (books_of self.new))
            (CancelsNoneAt (books_of self.old) slot number (books_of self.new)) }
    {
        if !self.can_cancel(slot, number) {
            return false;
        }
        let mut transfer = self.take_open(slot);
        transfer.irp.mark_cancelled();
        self.put_open(slot, transfer);
        true
    }
}
