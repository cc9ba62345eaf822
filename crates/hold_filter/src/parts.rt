//! The filter within a call: the device below and the table, and what moves packets from the one to the other.

ghost use Rattle.std.specs.Prelude.{◌≡◌, ◌<◌, ◌+◌, IsFalse, MatchBool};
ghost use Rattle.device.specs.View.{IsOrderly};
ghost use Rattle.hold_filter.specs.inside.TableView.{books_of};
ghost use Rattle.hold_filter.specs.inside.Invariant.{FilterKept, IsInHand};
ghost use Rattle.hold_filter.specs.inside.View.{view_of};
ghost use Rattle.hold_filter.specs.inside.Releases.{MaySend, Sends, Releases, LetsOneGo, NoneMayGo, Spares};

use crate::packets::{give_back, pass_down};
use crate::table::{Held, Table};
use device::{Device, Room, Shown};
use irp::Irp;

/// The device below, and the packets of the filter.
pub(crate) struct Parts<D: Shown> {
    pub device: D,
    pub table: Table,
}

impl<D: Shown> Drop for Parts<D> {
    fn drop(self) {
        let Parts {
            device: _,
            table: _,
        } = self;
    }
}

impl<D: Shown> Parts<D> {
    pub fn into_device(self) -> D
        ensures { D.view result ≡ D.view self.device }
    {
        let Parts { device, table: _ } = self;
        device
    }
}

impl<D: Device> Parts<D> {
    /// Sends a packet to the device below.
    pub fn send(&mut self, irp: Box<Irp>, room: Room)
        requires buffers { IsFalse D.takes_srb }
        requires may_send { MaySend D.stack_size (D.view self.old.device) irp.value room.spot }
        requires window { (books_of self.old.table).below < (books_of self.old.table).window }
        ensures sends { Sends (D.view self.old.device) irp.value room.spot (D.view self.new.device) }
        ensures order { IsOrderly (D.view self.new.device) }
        ensures table { books_of self.new.table ≡ record (books_of self.old.table) {
          below = (books_of self.old.table).below + 1;
        } }
    {
        let mut irp = irp;
        pass_down(&mut irp);
        self.device.submit(irp, room);
        self.device.shows_order();
        self.table.note_sent();
    }

    /// Sends the packet that was held longest to the device below, where it may go.
    pub fn release_one(&mut self) -> bool
        requires buffers { IsFalse D.takes_srb }
        requires kept { FilterKept D.stack_size (D.view self.old.device) (books_of self.old.table) }
        ensures kept { FilterKept D.stack_size (D.view self.new.device) (books_of self.new.table) }
        ensures releases { Releases (view_of (D.view self.old.device) (books_of self.old.table))
            (view_of (D.view self.new.device) (books_of self.new.table)) }
        ensures spares { Spares (D.view self.old.device) (books_of self.old.table)
            (D.view self.new.device) (books_of self.new.table) }
        ensures goes { MatchBool result (LetsOneGo (books_of self.old.table) (books_of self.new.table))
            (NoneMayGo (D.view self.new.device) (books_of self.new.table)) }
    {
        if !self.table.has_room() {
            return false;
        }
        let Some(
            Held {
                mut irp,
                routine,
                room,
            },
        ) = self.table.let_go()
        else {
            return false;
        };
        give_back(&mut irp, routine);
        self.send(irp, room);
        true
    }

    /// Sends held packets to the device below, first in, first out, as long as one may go.
    pub fn release(&mut self)
        requires buffers { IsFalse D.takes_srb }
        requires kept { FilterKept D.stack_size (D.view self.old.device) (books_of self.old.table) }
        ensures in_hand { IsInHand D.stack_size (D.view self.new.device) (books_of self.new.table) }
        ensures releases { Releases (view_of (D.view self.old.device) (books_of self.old.table))
            (view_of (D.view self.new.device) (books_of self.new.table)) }
        ensures spares { Spares (D.view self.old.device) (books_of self.old.table)
            (D.view self.new.device) (books_of self.new.table) }
    {
        while self.release_one() {}
    }
}
