//! The holds of a client on the gate: one for each of its tickets.

ghost use Rattle.std.specs.Prelude.{◌≡◌, ◌<◌, ◌+◌, ◌-◌, IfErr, IfOk};
ghost use Rattle.remove_lock.specs.Answers.{IsHeld};
ghost use Rattle.remove_lock.specs.Gate.{without_hold};
ghost use Rattle.host.specs.Accounts.{EndsWithAnswer};
ghost use Rattle.host.specs.Clients.{HasNoHold};

use crate::account::Account;
use crate::call::Reason;
use crate::name::HostNaming;
use crate::shared::HostGate;
use compose::Refusal as Why;
use remove_lock::{AcquireFault, Pass};
use std::marker::Model;

/// A pass of the gate, and how many of its holds are those of tickets that are out. Nothing else gives a hold back.
#[derive(Drop)]
pub(crate) struct Holds {
    pass: Pass,
    out: usize,
}

impl Model for Holds {
    ghost use Rattle.host.specs.Clients.{HoldsView};

    ghost Value = { HoldsView };

    ghost view = { λ h. record { pass = h.pass; out = h.out } };
}

impl Holds {
    /// A pass with no ticket.
    pub(crate) fn new(pass: Pass) -> Holds
        ensures { result ≡ record { pass = pass; out = 0 } }
    {
        Holds { pass, out: 0 }
    }

    /// Returns how many tickets are out.
    pub(crate) fn out(&self) -> usize
        ensures { result ≡ self.now.out }
    {
        self.out
    }

    /// Takes a hold for a ticket.
    pub(crate) fn take<N: HostNaming>(&mut self, gate: &HostGate<N>) -> Result<(), Reason>
        requires gate { self.old.pass.gate ≡ N.gate }
        ensures gate { self.new.pass.gate ≡ N.gate }
        ensures out { self.new.out ≡ self.old.out }
        ensures held { IfOk result (λ _. IsHeld self.old.pass.view self.new.pass.view) }
        ensures spare { IfOk result (λ _. self.new.pass.view.holds ≡ self.old.pass.view.holds + 1) }
        ensures refused { IfErr result (λ reason. HasNoHold reason self.old.pass.view self.new.pass.view) }
    {
        match gate.lock.acquire(&mut self.pass) {
            Ok(()) => Ok(()),
            Err(AcquireFault::DeletePending) => Err(Reason::Refused(Why::DeletePending)),
            Err(AcquireFault::TooManyHolds) => Err(Reason::TooManyTickets),
        }
    }

    /// Gives the last hold to a ticket.
    pub(crate) fn give_out(&mut self)
        requires few { self.old.out < 64 }
        ensures pass { self.new.pass ≡ self.old.pass }
        ensures out { self.new.out ≡ self.old.out + 1 }
    {
        self.out += 1;
    }

    /// Takes the last hold back from a call that got no ticket.
    pub(crate) fn take_back<N: HostNaming>(&mut self, gate: &HostGate<N>)
        requires gate { self.old.pass.gate ≡ N.gate }
        requires spare { self.old.out < self.old.pass.view.holds }
        ensures gate { self.new.pass.gate ≡ N.gate }
        ensures out { self.new.out ≡ self.old.out }
        ensures back { self.new.pass.view ≡ without_hold self.old.pass.view self.new.pass.view.found }
    {
        gate.lock.release(&mut self.pass);
    }

    /// Gives back the hold of a ticket, of those that are out, once the client has the receipt of its answer.
    pub(crate) fn give_back<N: HostNaming>(
        &mut self,
        gate: &HostGate<N>,
        _account: &Account<N>,
        _number: u64,
    )
        requires gate { self.old.pass.gate ≡ N.gate }
        requires out { self.old.out ≡ self.old.pass.view.holds }
        requires told { EndsWithAnswer _number _account.now.answered.list }
        ensures gate { self.new.pass.gate ≡ N.gate }
        ensures quota { self.new.pass.view.quota ≡ self.old.pass.view.quota }
        ensures holds { (self.new.out ≡ self.new.pass.view.holds) × (self.new.out ≡ self.old.out - 1) }
        ensures closed { self.new.pass.view.closed ≡ self.old.pass.view.closed }
    {
        if self.out == 0 {
            return;
        }
        self.out -= 1;
        self.take_back(gate);
    }
}
