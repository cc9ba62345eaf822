//! The requests, by their slots.

ghost use Rattle.std.specs.Prelude.{◌≡◌, ◌<◌, ◌≤◌, ◌+◌, ◌^◌, ℕ, Some, IfOk, IfSome, IsOk, IsSome, OnOk, OnErr};
ghost use Rattle.std.specs.Prelude.{MatchOption, Contains, length};
ghost use Rattle.slab.specs.Slab.{get};
ghost use Rattle.device.specs.View.{IsReady, IsReserved};
ghost use Rattle.class_disk.specs.declared.requests.Transfer.{Transfer};
ghost use Rattle.class_disk.specs.declared.requests.Slot.TheVariants.{Open as IsOpen};
ghost use Rattle.class_disk.specs.inside.Owners.{owner_at, KeepsOwners, OwnsSpot};
ghost use Rattle.class_disk.specs.inside.TableView.{books_of, opened_of, open_at, held_as, HasRoomForMore};
ghost use Rattle.class_disk.specs.inside.TableView.{HasPlaceForMore, IsVacantFor, TakesOut, PutsBack};
ghost use Rattle.class_disk.specs.inside.TableCalls.{empty_books, AddsSlot, AddsNoSlot, RemovesSlot, OpensAt};
ghost use Rattle.class_disk.specs.inside.TableCalls.{TakesEnded, TakesNone};

use crate::Sizes;
use crate::parts::PartId;
use crate::requests::{Places, Slot, Transfer};
use irp::Irp;
use slab::Slab;
use std::alloc::{AllocError, Global};
use std::collections::VecDeque;

/// The requests that are reserved or open, and their slots. Only `make_slot` makes slots.
#[derive(Drop)]
pub(crate) struct Table {
    pub sizes: Sizes,
    /// The slots, by the class driver's own spots.
    pub slots: Slab<Slot>,
    /// By the spots below: the part that the room there is for.
    pub owners: Vec<PartId>,
    /// The slots of requests all of whose parts have ended, the first to end in front.
    pub ended: VecDeque<usize>,
    /// The last number submitted; 0 before the first.
    pub last_request: u128,
    /// The number of the next packet: one more than were sent so far.
    pub next_packet: u128,
    pub submitted: u128,
    pub removing: bool,
}

impl Table {
    /// A table with nothing reserved and no slots. Packets below are counted from 1.
    pub fn new(alloc: Global, sizes: Sizes) -> Table
        ensures { books_of result ≡ empty_books sizes }
    {
        Table {
            sizes,
            slots: Slab::new(alloc),
            owners: Vec::new(alloc),
            ended: VecDeque::from_vec(Vec::new(alloc)),
            last_request: 0,
            next_packet: 1,
            submitted: 0,
            removing: false,
        }
    }

    /// Makes a slot for one more request and returns it.
    ///
    /// # Errors
    ///
    /// [`AllocError`] where memory was refused.
    pub fn make_slot(&mut self) -> Result<usize, AllocError>
        requires { length (books_of self.old).ended ≤ length (books_of self.old).opens }
        ensures slot { IfOk result (λ slot. IsVacantFor self.new slot) }
        ensures place { OnOk result (HasPlaceForMore self.new) }
        ensures same { AddsNoSlot (books_of self.old) (books_of self.new) }
        ensures succeeds { HasRoomForMore self.old → IsOk result }
    {
        self.slots.reserve(1)?;
        // A capacity is a number of this type, so one more slot can be counted.
        let _capacity = self.slots.capacity();
        let count = self.slots.len() + 1;
        self.ended.reserve(count - self.ended.len())?;
        Ok(self.slots.vacant_key())
    }

    /// Reserves a vacant slot, with these parts.
    pub fn fill(&mut self, slot: usize, places: Places)
        requires { IsVacantFor self.old slot }
        ensures { AddsSlot (books_of self.old) (held_as slot places) (books_of self.new) }
    {
        let _slot = self.slots.insert_reserved(Slot::Reserved(places));
    }

    /// Gives up a slot that has no packet.
    pub fn give_up(&mut self, slot: usize) -> Places
        requires { IsReserved (books_of self.old).rooms slot }
        ensures { RemovesSlot (books_of self.old) slot result (books_of self.new) }
    {
        let Some(Slot::Reserved(places)) = self.slots.try_remove(slot) else {
            unreachable!()
        };
        places
    }

    /// Takes in a packet at a slot that is reserved.
    pub fn open(&mut self, slot: usize, irp: Box<Irp>)
        requires ready { IsReady (books_of self.old).rooms slot }
        requires few { (books_of self.old).submitted < 2 ^ 127 }
        ensures { OpensAt (books_of self.old) slot irp.value (books_of self.new) }
    {
        let Some(Slot::Reserved(places)) = self.slots.try_remove(slot) else {
            unreachable!()
        };
        self.last_request = irp.number;
        self.submitted += 1;
        let _slot = self
            .slots
            .insert_reserved(Slot::Open(Transfer::new(irp, places)));
    }

    /// Takes the open request out of its slot.
    pub fn take_open(&mut self, slot: usize) -> Transfer
        requires { (t : Transfer) × (get self.old.slots slot ≡ Some (IsOpen t)) }
        ensures was { get self.old.slots slot ≡ Some (IsOpen result) }
        ensures gone { TakesOut self.old slot self.new }
    {
        let Some(Slot::Open(transfer)) = self.slots.try_remove(slot) else {
            unreachable!()
        };
        transfer
    }

    /// Puts an open request back into its slot.
    pub fn put_open(&mut self, slot: usize, transfer: Transfer)
        requires { IsVacantFor self.old slot }
        ensures { PutsBack self.old slot transfer self.new }
    {
        let _slot = self.slots.insert_reserved(Slot::Open(transfer));
    }

    /// Takes the request that ended first out of its slot.
    pub fn take_ended(&mut self) -> Option<(usize, Transfer)>
        requires { (slot : ℕ) → Contains (books_of self.old).ended slot → IsSome (open_at slot
            (books_of self.old).opens) }
        ensures takes { MatchOption result (TakesNone (books_of self.old) (books_of self.new))
            (λ taken. TakesEnded (books_of self.old) taken.0 (opened_of taken.1) (books_of self.new)) }
        ensures slot { IfSome result (λ taken. IsVacantFor self.new taken.0) }
    {
        let slot = self.ended.pop_front()?;
        let transfer = self.take_open(slot);
        Some((slot, transfer))
    }

    /// Makes a place for the owner of a spot below.
    fn cover(&mut self, spot: usize) -> Result<(), AllocError>
        ensures keeps { KeepsOwners self.old.owners.items self.new.owners.items }
        ensures covers { OnOk result (spot < length self.new.owners.items) }
        ensures same { self.new ≡ record self.old { owners = self.new.owners } }
    {
        'covering: while self.owners.len() <= spot {
            self.owners.push(PartId { slot: 0, part: 0 })?;
        }
        Ok(())
    }

    /// Gives the room at a spot below to this part.
    ///
    /// # Errors
    ///
    /// [`AllocError`] where memory was refused; each spot then keeps its owner.
    pub fn own(&mut self, spot: usize, id: PartId) -> Result<(), AllocError>
        ensures owns { OnOk result (OwnsSpot self.old.owners.items spot id self.new.owners.items) }
        ensures keeps { OnErr result (KeepsOwners self.old.owners.items self.new.owners.items) }
        ensures same { self.new ≡ record self.old { owners = self.new.owners } }
    {
        self.cover(spot)?;
        self.owners[spot] = id;
        Ok(())
    }

    /// Returns the part that the room at a spot below is for.
    pub fn owner(&self, spot: usize) -> PartId
        requires { spot < length self.now.owners.items }
        ensures { result ≡ owner_at self.now.owners.items spot }
    {
        self.owners[spot]
    }
}
