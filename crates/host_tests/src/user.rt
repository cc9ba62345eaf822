//! A client of a host, and what a test has it do.

ghost use Rattle.std.specs.Prelude.{◌≡◌, IfOk, ℕ};

use crate::orders::bytes;
use crate::texts;
use cancel_marks::Marking;
use compose::Refusal as Why;
use disk::Medium;
use host::{Answered, Call, Client, Host, HostNaming, Reason, Refusal, Ticket};
use script::Order;
use sector_journal::{OfArmings, OfEntries};
use std::alloc::{AllocError, Global};
use std::marker::Model;
use std::process::Abort;
use std::sync::Wait;

/// A client, whatever host it is of: what plays a test is proved over this alone, and not over a host's types.
pub(crate) trait Caller {
    type Ticket: Drop;

    /// The client's number.
    ghost number: { Self → ℕ };

    /// The number of a ticket's client.
    ghost owner: { Self.Ticket → ℕ };

    fn issue(&mut self, call: Call) -> Result<Self::Ticket, Refusal>
        ensures number { number self.new ≡ number self.old }
        ensures ticket { IfOk result (λ t. owner t ≡ number self.old) };

    fn wait(&mut self, ticket: Self::Ticket) -> Answered
        requires ticket { owner ticket ≡ number self.old }
        ensures number { number self.new ≡ number self.old };

    fn mark(&mut self, ticket: &Self::Ticket) -> Marking
        ensures number { number self.new ≡ number self.old };

    /// The number of a ticket's request.
    fn request(ticket: &Self::Ticket) -> u64;

    /// The client's number, and the places of its calls and of the answers that it was told of.
    fn told(&self, alloc: Global) -> Result<Told, AllocError>;
}

/// What a client told of itself: its number, and the places of its calls and of the answers that it was told of.
pub(crate) type Told = (usize, Vec<usize>, Vec<usize>);

/// A client of a host.
#[derive(Drop)]
pub(crate) struct Hosted<'r, 'h, M: Medium, N: HostNaming, R>
where
    OfArmings<N>: chronicle::Naming,
    OfEntries<N>: chronicle::Naming,
{
    pub rt: &'r R,
    pub host: &'h Host<M, N>,
    pub client: Client<N>,
}

impl<'r, 'h, M: Medium, N: HostNaming, R: Wait> Caller for Hosted<'r, 'h, M, N, R> {
    type Ticket = Ticket<N>;

    ghost number = { λ h. h.client.client };

    ghost owner = { λ t. t.client };

    fn issue(&mut self, call: Call) -> Result<Ticket<N>, Refusal> {
        self.client.issue(self.rt, self.host, call)
    }

    fn wait(&mut self, ticket: Ticket<N>) -> Answered {
        self.client.wait(self.rt, self.host, ticket)
    }

    fn mark(&mut self, ticket: &Ticket<N>) -> Marking {
        self.client.mark_cancel(self.host, ticket)
    }

    fn request(ticket: &Ticket<N>) -> u64 {
        ticket.number()
    }

    fn told(&self, alloc: Global) -> Result<Told, AllocError> {
        let calls = Vec::from_slice(alloc, self.client.calls())?;
        let answers = Vec::from_slice(alloc, self.client.answers())?;
        Ok((self.client.client(), calls, answers))
    }
}

/// What a client does.
#[derive(Clone, Copy)]
pub(crate) enum Deed {
    /// Issues the call of an order. It leaves a ticket, which a mark looks at and a wait spends.
    Call(Order),
    /// Sixty-four reads of a sector each, from the first on. The ticket of the last one is left.
    Fill,
    /// Marks the request of the last call.
    Mark,
    /// Waits for the answer to the last call.
    Wait,
}

/// A client, and the ticket of its last call unless it was waited for.
#[derive(Drop)]
pub(crate) struct User<C: Caller> {
    client: C,
    ticket: Option<C::Ticket>,
}

impl<C: Caller> Model for User<C> {
    ghost use Rattle.std.specs.Prelude.{◌≡◌, ℕ, IfSome};

    ghost Value = { ℕ };

    ghost view = { λ u. C.number u.client };

    ghost invariant = { λ u. IfSome u.ticket (λ t. C.owner t ≡ C.number u.client) };
}

impl<C: Caller> User<C> {
    pub(crate) fn new(client: C) -> User<C> {
        User {
            client,
            ticket: None,
        }
    }

    pub(crate) fn into_client(self) -> C {
        self.client
    }

    // Issues a call.
    fn issue(&mut self, alloc: Global, call: Call) -> Result<String, AllocError> {
        match self.client.issue(call) {
            Ok(ticket) => {
                let number = C::request(&ticket);
                self.ticket = Some(ticket);
                format!(in alloc; "request {number}")
            }
            Err(refusal) => told_of(alloc, &refusal),
        }
    }

    fn fill(&mut self, alloc: Global) -> Result<String, AllocError> {
        let mut text = String::new(alloc);
        for n in 0..64_u64 {
            text = self.issue(alloc, read(alloc, n * 512, 512)?)?;
        }
        Ok(text)
    }

    fn wait(&mut self, rt: &impl Abort, alloc: Global) -> Result<String, AllocError> {
        let Some(ticket) = self.ticket.take() else {
            panic!(rt; "no ticket")
        };
        texts::answered(alloc, self.client.wait(ticket))
    }

    fn mark(&mut self, rt: &impl Abort, alloc: Global) -> Result<String, AllocError> {
        let Some(ticket) = &self.ticket else {
            panic!(rt; "no ticket")
        };
        let marking = self.client.mark(ticket);
        format!(in alloc; "{marking:?}")
    }

    pub(crate) fn act(
        &mut self,
        rt: &impl Abort,
        alloc: Global,
        deed: Deed,
    ) -> Result<String, AllocError> {
        match deed {
            Deed::Call(order) => self.issue(alloc, call_of(rt, alloc, order)?),
            Deed::Fill => self.fill(alloc),
            Deed::Mark => self.mark(rt, alloc),
            Deed::Wait => self.wait(rt, alloc),
        }
    }

    pub(crate) fn told(&self, alloc: Global) -> Result<Told, AllocError> {
        self.client.told(alloc)
    }
}

/// A read of equal bytes.
pub(crate) fn read(alloc: Global, offset: u64, length: u64) -> Result<Call, AllocError> {
    let buffer = bytes(alloc, 0, length)?;
    Ok(Call::Read { offset, buffer })
}

/// The call of an order of a client.
pub(crate) fn call_of(rt: &impl Abort, alloc: Global, order: Order) -> Result<Call, AllocError> {
    Ok(match order {
        Order::Read { offset, length, .. } => read(alloc, offset, length)?,
        Order::Write {
            offset,
            length,
            byte,
            through,
            ..
        } => Call::Write {
            offset,
            bytes: bytes(alloc, byte, length)?,
            through,
        },
        Order::Flush { .. } => Call::Flush,
        _ => panic!(rt; "no call"),
    })
}

/// Why there is no ticket, as text. Want of memory is an error.
pub(crate) fn told_of(alloc: Global, refusal: &Refusal) -> Result<String, AllocError> {
    match refusal.reason {
        Reason::Refused(Why::InsufficientResources) => Err(AllocError),
        _ => texts::refusal(alloc, refusal),
    }
}
