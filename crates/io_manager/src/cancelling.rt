//! Cancellation of open requests, each by the spot of its packet below.

ghost use Rattle.std.specs.Prelude.{◌≡◌, ◌≤◌, ◌<◌, true, length, is_some, MatchBool, MatchOption};
ghost use Rattle.io_manager.specs.Calls.{partition_of};
ghost use Rattle.io_manager.specs.inside.Chains.{AreChained};
ghost use Rattle.io_manager.specs.inside.Cancelling.{IsUsed, IsToMark, IsMarkedOrNone, IsLowestToMark, HasNoneToMark};
ghost use Rattle.io_manager.specs.inside.Cancelling.{MarksAt, CancelsSlot, CancelsUnlessMarked, CancelsAll};
ghost use Rattle.io_manager.specs.inside.Sound.{IsSound};

use crate::Handle;
use crate::parts::Parts;
use crate::tables::Tables;
use device::{Device, Label};

/// A packet below, by its spot and its number.
#[derive(Debug, Clone, Copy, PartialEq, Eq)]
pub(crate) struct PacketBelow {
    pub(crate) spot: usize,
    pub(crate) number: u64,
}

impl Tables {
    /// The slot of the open request of an open handle that is not cancelled yet and has the lowest number.
    pub(crate) fn next_to_mark(&self, handle: Handle) -> Option<usize>
        requires chained { AreChained self.now.handles self.now.requests self.now.next_handle self.now.chains }
        requires open { is_some (partition_of self.now.handles.slots handle) ≡ true }
        ensures { MatchOption result (HasNoneToMark self.now.requests handle.number)
            (λ slot. IsLowestToMark self.now.requests handle.number slot) }
    {
        self.chains.first(handle.slot as usize)
    }

    /// Whether the open request in a slot is cancelled, or there is none.
    fn is_marked(&self, slot: usize) -> bool
        ensures { MatchBool result (IsMarkedOrNone self.now.requests slot) (IsToMark self.now.requests slot) }
    {
        match self.requests.get(slot) {
            Some(request) => request.cancelled,
            None => true,
        }
    }

    /// Sets the cancel flag of an open request, and tells its label.
    fn mark_at(&mut self, slot: usize) -> PacketBelow
        requires chained { AreChained self.old.handles self.old.requests self.old.next_handle self.old.chains }
        requires there { IsToMark self.old.requests slot }
        requires label_place { length self.old.labels.items < self.old.labels.places }
        ensures { MarksAt self.old slot result self.new }
    {
        let Some(request) = self.requests.get_mut(slot) else {
            unreachable!()
        };
        request.cancelled = true;
        let place = PacketBelow {
            spot: request.spot,
            number: request.number,
        };
        self.chains.take_out(slot);
        self.labels.tell(Label::Cancel {
            number: place.number,
        });
        place
    }
}

impl<D: Device> Parts<D> {
    /// Cancels an open request.
    pub(crate) fn cancel_slot(&mut self, slot: usize)
        requires sound { IsSound self.old.limits (D.view self.old.device) self.old.tables }
        requires there { IsToMark self.old.tables.requests slot }
        requires label_place { length self.old.tables.labels.items < self.old.tables.labels.places }
        ensures limits { self.new.limits ≡ self.old.limits }
        ensures sound { IsSound self.new.limits (D.view self.new.device) self.new.tables }
        ensures cancels { CancelsSlot (D.view self.old.device) self.old.tables slot (D.view self.new.device)
            self.new.tables }
    {
        self.device.shows_order();
        let place = self.tables.mark_at(slot);
        self.device.cancel_at(place.spot, place.number as u128);
    }

    /// Cancels an open request, unless it is cancelled already.
    pub(crate) fn cancel_if_open(&mut self, slot: usize)
        requires sound { IsSound self.old.limits (D.view self.old.device) self.old.tables }
        requires there { IsUsed self.old.tables.requests slot }
        requires label_place { length self.old.tables.labels.items < self.old.tables.labels.places }
        ensures limits { self.new.limits ≡ self.old.limits }
        ensures sound { IsSound self.new.limits (D.view self.new.device) self.new.tables }
        ensures cancels { CancelsUnlessMarked (D.view self.old.device) self.old.tables slot (D.view self.new.device)
            self.new.tables }
    {
        if !self.tables.is_marked(slot) {
            self.cancel_slot(slot);
        }
    }

    /// Cancels all open requests of an open handle that are not cancelled yet, by rising numbers.
    pub(crate) fn cancel_all_of(&mut self, handle: Handle)
        requires sound { IsSound self.old.limits (D.view self.old.device) self.old.tables }
        requires open { is_some (partition_of self.old.tables.handles.slots handle) ≡ true }
        requires untold { length self.old.tables.labels.items ≡ 0 }
        ensures limits { self.new.limits ≡ self.old.limits }
        ensures sound { IsSound self.new.limits (D.view self.new.device) self.new.tables }
        ensures cancels { CancelsAll (D.view self.old.device) self.old.tables handle.number (D.view self.new.device)
            self.new.tables }
        ensures few_labels { length self.new.tables.labels.items ≤ 64 }
        ensures none_left { HasNoneToMark self.new.tables.requests handle.number }
    {
        'next: while let Some(slot) = self.tables.next_to_mark(handle) {
            self.device.shows_order();
            self.cancel_slot(slot);
        }
    }
}
