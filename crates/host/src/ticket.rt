//! The ticket of a call.

ghost use Rattle.std.specs.Prelude.{◌≡◌};

use crate::name::HostNaming;
use chronicle::Claims;
use compose::Answer;
use std::marker::Model;
use traced::TraceEntry;

/// A call that was issued and is not waited for yet. It can't be copied, and `wait` spends it; it holds the gate until
/// then. One that is dropped keeps its hold, so that a removal never ends. Contracts see it as its client, its
/// request's number, the place of its call, its slot where its call opened a request, and the receipt of its call.
#[derive(Drop)]
pub struct Ticket<N: HostNaming> {
    pub(crate) client: usize,
    pub(crate) number: u64,
    pub(crate) place: usize,
    pub(crate) claim: Claims<TraceEntry, N>,
    // the slot of its request, where it opened one
    pub(crate) slot: usize,
    // the answer of a call that opened none, right behind it
    pub(crate) early: Option<(Answer, Claims<TraceEntry, N>)>,
}

impl<N: HostNaming> Model for Ticket<N> {
    ghost use Rattle.host.specs.Tickets.{TicketView, TicketKept, slot_of};

    ghost Value = { TicketView };

    ghost view = { λ t. record { client = t.client; number = t.number; place = t.place; slot = slot_of t.slot t.early; call = t.claim } };

    ghost invariant = { λ t. TicketKept N.slots t.client t.number t.place t.claim t.slot t.early };
}

impl<N: HostNaming> Ticket<N> {
    /// The number of the request.
    pub fn number(&self) -> u64
        ensures { result ≡ self.now.number }
    {
        self.number
    }
}
