//! The calls of the table.

ghost use Rattle.std.specs.Prelude.{◌≡◌, ◌<◌, ◌+◌, ◌^◌, ◌-◌, ◌&&◌, not, nat_lt, true, false};
ghost use Rattle.std.specs.Prelude.{IsOk, OnOk, MatchBool, MatchOption, All};
ghost use Rattle.linked.specs.Queue.{IsVacant, VisitsAtMost};
ghost use Rattle.hold_filter.specs.inside.TableView.{books_of};
ghost use Rattle.hold_filter.specs.inside.TableCalls.{empty, counted, Covers, IsCovered, MayEnd, LacksNumber, HoldsAt};
ghost use Rattle.hold_filter.specs.inside.TableCalls.{TakesIn, LetsGo, LetsNoneGo};
ghost use Rattle.hold_filter.specs.inside.TableCalls.{Withdraws, WithdrawsNot, Hands, HandsNone};

use crate::packets::take_over;
use crate::table::{Held, Table};
use device::Room;
use irp::Irp;
use linked::Linked;
use ntstatus::NtStatus;
use std::alloc::{AllocError, Global};

impl Table {
    /// An empty table with places for no packet.
    pub fn new(alloc: Global, window: usize) -> Table
        ensures { books_of result ≡ empty window }
    {
        Table {
            window,
            held: Linked::new(alloc),
            ended: Linked::new(alloc),
            below: 0,
            last_number: 0,
            submitted: 0,
            paused: false,
            removing: false,
        }
    }

    /// Makes places for packets up to this spot, and no more.
    ///
    /// # Errors
    ///
    /// [`AllocError`] where the spot has no place yet and memory was refused. No place is lost.
    pub fn cover(&mut self, spot: usize) -> Result<(), AllocError>
        ensures places { Covers (books_of self.old) spot (books_of self.new) }
        ensures succeeds { IsCovered (books_of self.old).places spot → IsOk result }
        ensures covers { OnOk result (IsCovered (books_of self.new).places spot) }
    {
        self.held.cover(spot)?;
        self.ended.cover(spot)?;
        Ok(())
    }

    /// Counts one more packet as submitted.
    pub fn count(&mut self, number: u128)
        requires { (books_of self.old).submitted + 1 < 2 ^ 128 }
        ensures { books_of self.new ≡ counted number (books_of self.old) }
    {
        self.last_number = number;
        self.submitted += 1;
    }

    /// Queues the packet last.
    pub fn take_in(&mut self, irp: Box<Irp>, room: Room)
        requires covered { IsCovered (books_of self.old).places room.spot }
        requires vacant { IsVacant room.spot (books_of self.old).held }
        ensures { TakesIn (books_of self.old) irp room (books_of self.new) }
    {
        let mut irp = irp;
        let routine = take_over(&mut irp);
        let spot = room.spot;
        self.held.push_back_at(spot, Held { irp, routine, room });
    }

    /// Takes the packet that was held longest, to go below.
    pub fn let_go(&mut self) -> Option<Held>
        ensures { MatchOption result (LetsNoneGo (books_of self.old) (books_of self.new))
            (λ held. LetsGo (books_of self.old) held (books_of self.new)) }
    {
        let (_, held) = self.held.pop_front()?;
        Some(held)
    }

    /// Counts a packet that went below.
    pub fn note_sent(&mut self)
        requires { (books_of self.old).below < (books_of self.old).window }
        ensures { books_of self.new ≡ record (books_of self.old) { below = (books_of self.old).below + 1 } }
    {
        self.below += 1;
    }

    /// Counts a packet that came back from below.
    pub fn note_returned(&mut self)
        requires { 0 < (books_of self.old).below }
        ensures { books_of self.new ≡ record (books_of self.old) { below = (books_of self.old).below - 1 } }
    {
        self.below -= 1;
    }

    /// Cancels the packet that is held at this spot, where it has this number. At most three entries of the queue are
    /// visited, and two of those that have ended.
    pub fn withdraw(&mut self, spot: usize, number: u128) -> bool
        requires may_end { All (MayEnd (books_of self.old)) (books_of self.old).held }
        ensures withdraws { MatchBool result (Withdraws (books_of self.old) spot number (books_of self.new))
            (WithdrawsNot (books_of self.old) spot number (books_of self.new)) }
        ensures visits { VisitsAtMost 3 self.old.held.visits self.new.held.visits }
        ensures ended_visits { VisitsAtMost 2 self.old.ended.visits self.new.ended.visits }
    {
        let Some(mut held) = self.held.remove_number(spot, number) else {
            return false;
        };
        held.irp.mark_cancelled();
        self.ended.push_back_at(spot, held);
        true
    }

    /// Takes a packet that ended here, with its status: one that was cancelled while it was held or, once the device is
    /// removed, the one that was held longest.
    pub fn take_ended(&mut self) -> Option<(Held, NtStatus)>
        ensures { MatchOption result (HandsNone (books_of self.old) (books_of self.new))
            (λ done. Hands (books_of self.old) done.0 done.1 (books_of self.new)) }
    {
        if let Some((_, held)) = self.ended.pop_front() {
            return Some((held, NtStatus::Cancelled));
        }
        if !self.removing {
            return None;
        }
        let (_, held) = self.held.pop_front()?;
        Some((held, NtStatus::DeletePending))
    }

    /// Returns the spot of the held packet of this number.
    pub fn find_held(&mut self, number: u128) -> Option<usize>
        ensures found { MatchOption result (LacksNumber number (books_of self.old).held)
            (λ at. HoldsAt number at (books_of self.old).held) }
        ensures same { books_of self.new ≡ books_of self.old }
    {
        self.held.find(number)
    }

    /// Whether the window has room for one packet more below.
    pub fn has_room(&self) -> bool
        ensures { result ≡ (not (books_of self.now).paused && not (books_of self.now).removing
            && nat_lt (books_of self.now).below (books_of self.now).window) }
    {
        !self.paused && !self.removing && self.below < self.window
    }

    pub fn pause(&mut self)
        ensures { books_of self.new ≡ record (books_of self.old) { paused = true } }
    {
        self.paused = true;
    }

    pub fn resume(&mut self)
        ensures { books_of self.new ≡ record (books_of self.old) { paused = false } }
    {
        self.paused = false;
    }

    /// Removal: nothing goes below any more.
    pub fn remove(&mut self)
        ensures { books_of self.new ≡ record (books_of self.old) { paused = false; removing = true } }
    {
        self.paused = false;
        self.removing = true;
    }
}
