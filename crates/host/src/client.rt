//! A client of a host.

ghost use Rattle.std.specs.Prelude.{◌≡◌, IfErr, IfOk};
ghost use Rattle.host.specs.Accounts.{partition_of};
ghost use Rattle.host.specs.Clients.{IsIssued, IsMarked, IsRefused, IsWaited};
ghost use Rattle.host.specs.Receipts.{places_of};
ghost use Rattle.host.specs.Tickets.{IsBusy, WasOpen, WasUsedUp};

use crate::account::Account;
use crate::call::{Answered, Call, Reason, Refusal};
use crate::holds::Holds;
use crate::host::Host;
use crate::name::HostNaming;
use crate::ticket::Ticket;
use cancel_marks::{Marking, Seat};
use compose::Refusal as Why;
use disk::Medium;
use std::marker::Model;
use std::sync::Wait;

/// A client of a host. Contracts see it as its number, its receipts, and what it knows of the gate and of the marks.
#[derive(Drop)]
pub struct Client<N: HostNaming> {
    pub(crate) account: Account<N>,
    pub(crate) holds: Holds,
    pub(crate) seat: Seat,
}

impl<N: HostNaming> Model for Client<N> {
    ghost use Rattle.host.specs.Clients.{ClientView, ClientKept};

    ghost Value = { ClientView };

    ghost view = { λ c. record {
      client = c.account.share.client;
      called = c.account.called.list;
      answered = c.account.answered.list;
      pass = c.holds.pass.view;
      seat = c.seat.view;
    } };

    ghost invariant = { λ c. ClientKept N.gate N.marks c.account c.holds c.seat };
}

impl<N: HostNaming> Client<N> {
    /// Its number, from 0.
    pub fn client(&self) -> usize
        ensures { result ≡ self.now.client }
    {
        self.account.share.client()
    }

    /// The places of its calls in the trace, rising.
    pub fn calls(&self) -> &[usize]
        ensures { result.now ≡ places_of self.now.called }
    {
        self.account.called.places()
    }

    /// The places of the answers to its calls, in the order in which it was told of them.
    pub fn answers(&self) -> &[usize]
        ensures { result.now ≡ places_of self.now.answered }
    {
        self.account.answered.places()
    }

    /// Issues a call on the client's partition. The ticket holds the gate until it was waited for.
    ///
    /// # Errors
    ///
    /// As the stack refuses calls. A call that reached the trace is refused with the places of its two labels. With
    /// none: `DeletePending` where the gate is closed, [`Reason::TooManyTickets`] with 64 tickets out,
    /// `InsufficientResources` where any memory for it was refused, and `DeviceBusy` once numbers are used up.
    ///
    /// # Example
    ///
    /// ```
    /// let buffer = bytes(bench.alloc, 0, 512)?;
    /// match client.issue(bench.rt, bench.host, Call::Read { offset, buffer }) {
    ///     Ok(ticket) => Ok(ticket),
    ///     Err(_) => Err(AllocError),
    /// }
    /// ```
    pub fn issue<M: Medium, R: Wait>(
        &mut self,
        rt: &R,
        host: &Host<M, N>,
        call: Call,
    ) -> Result<Ticket<N>, Refusal>
        ensures issued { IfOk result (λ t. IsIssued (partition_of N.partitions self.old.client) self.old t call self.new) }
        ensures was_open { IfOk result (λ t. WasOpen N.rules N.start N.partitions N.handles t) }
        ensures used_up { IfErr result (λ r. IsBusy r → WasUsedUp N.rules N.start N.partitions N.handles self.old.called self.old.answered) }
        ensures refused { IfErr result (λ r. IsRefused (partition_of N.partitions self.old.client) self.old call r self.new) }
    {
        let Ok(()) = self.account.make_places(self.holds.out()) else {
            return Err(call.refused(host.alloc, Reason::Refused(Why::InsufficientResources)));
        };
        match self.holds.take(&host.gate) {
            Ok(()) => {}
            Err(reason) => return Err(call.refused(host.alloc, reason)),
        }
        let (issued, concerned) = self
            .account
            .issue_and_note(rt, host, &mut host.book.lock(rt), call);
        host.condvars.notify(rt, concerned);
        match issued {
            Ok(ticket) => {
                self.holds.give_out();
                Ok(ticket)
            }
            Err(refusal) => {
                self.holds.take_back(&host.gate);
                Err(refusal)
            }
        }
    }

    /// Waits for the answer to a call of this client. It takes no memory.
    #[tactic(auto, using(crate::proofs::Accounts::ends_with_taken))]
    pub fn wait<M: Medium, R: Wait>(
        &mut self,
        rt: &R,
        host: &Host<M, N>,
        ticket: Ticket<N>,
    ) -> Answered
        requires ticket { ticket.client ≡ self.old.client }
        ensures waited { IsWaited self.old ticket result self.new }
    {
        let number = ticket.number();
        self.account.await_place(rt);
        let answered = self.account.answer_of(rt, host, ticket);
        self.holds.give_back(&host.gate, &self.account, number);
        answered
    }

    /// Marks the ticket's request for cancellation, with no lock: `Gone` where it was answered. The next step that
    /// looks under the book's lock carries it out; the mark itself makes none.
    ///
    /// # Example
    ///
    /// ```
    /// let marking = first.mark_cancel(host, &ticket);
    /// let refused = read_past(bench, second);
    /// holding.let_go(rt);
    /// let answered = first.wait(rt, host, ticket);
    /// ```
    pub fn mark_cancel<M: Medium>(&mut self, host: &Host<M, N>, ticket: &Ticket<N>) -> Marking
        ensures marked { IsMarked ticket.now.slot ticket.now.number self.old.seat result self.new.seat }
        ensures same { self.new ≡ record self.old { seat = self.new.seat } }
    {
        if ticket.early.is_some() {
            return Marking::Gone;
        }
        host.table
            .marks
            .mark(&mut self.seat, ticket.slot, ticket.number)
    }
}
