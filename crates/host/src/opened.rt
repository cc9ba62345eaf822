//! A host as it is opened.

ghost use Rattle.std.specs.Prelude.{◌≡◌, ◌≤◌, ◌+◌, Some, All, IfOk, IfErr, IsFalse, length, max};
ghost use Rattle.cancel_marks.specs.Marks.{IsOther, standing, starting};
ghost use Rattle.traced.specs.Opening.{AreOpened, IsNew};
ghost use Rattle.traced.specs.Sizes.{AreSizes, sizes_of};
ghost use Rattle.host.specs.Opening.{IsClientPass, AreResources, IsHostFault, client_limit};
ghost use Rattle.host.specs.declared.opened.HostFault.TheVariants.{NoMemory};

use cancel_marks::{Marks, Seat};
use compose::{Handle, Stack};
use miniport::BookedAdapter;
use remove_lock::{Gate, Pass};
use std::alloc::{AllocError, Global};
use std::marker::{Brand, Model};
use std::sync::ledger::{Blank, Ledger};
use thiserror::Error;
use traced::{OpenFault, StackSizes, TraceEntry, open_handles};

/// How many clients there may be.
const CLIENTS: usize = 64;

/// How many tickets a client may have out.
const TICKETS: u32 = 64;

/// Why there is no host.
#[derive(Debug, Clone, Copy, PartialEq, Eq, Drop, Error)]
pub enum HostFault {
    /// There are more than 64 clients.
    #[error("more than 64 clients")]
    TooManyClients,
    /// The stack doesn't have the partition of one of them.
    #[error("no such partition")]
    NoPartition,
    /// Memory was refused.
    #[error("no memory")]
    NoMemory,
}

impl From<AllocError> for HostFault {
    ghost use Rattle.std.specs.Prelude.{◌≡◌};
    ghost use Rattle.host.specs.declared.opened.HostFault.TheVariants.{NoMemory};

    ghost from_gives = { λ _ fault. fault ≡ NoMemory };

    fn from(_refused: AllocError) -> HostFault {
        HostFault::NoMemory
    }
}

/// What a host hands out: a handle and a seat for each client, and a pass for each and for the keeper.
#[derive(Drop)]
pub(crate) struct ClientResources {
    pub handles: Vec<Handle>,
    pub seats: Vec<Seat>,
    pub passes: Vec<Pass>,
}

/// A stack with a handle open for each client, and all that its threads will share, which has no name yet. Contracts
/// see it as the names that a host of it has.
pub struct Opened {
    pub(crate) stack: Stack<BookedAdapter>,
    pub(crate) for_clients: ClientResources,
    pub(crate) partitions: Vec<u8>,
    pub(crate) sizes: StackSizes,
    pub(crate) slots: usize,
    pub(crate) history: chronicle::Opened<TraceEntry>,
    pub(crate) ledger: Blank,
    pub(crate) keeping: Blank,
    pub(crate) marks: Marks,
    pub(crate) owner: Seat,
    pub(crate) gate: Gate,
}

impl Model for Opened {
    ghost use Rattle.host.specs.Opening.{IsReady, Names};

    ghost Value = { Names };

    ghost view = { λ o. record {
      rules = o.stack.rules;
      opening = o.stack.state;
      partitions = o.partitions.items;
      handles = o.stack.handles;
      marks = o.marks.0;
      slots = o.slots;
      table = o.history;
      name = o.ledger.name;
      parts = o.ledger.parts;
      gate = o.gate;
      keeper = o.keeping.name;
    } };

    ghost invariant = { λ o. IsReady o.partitions.items o.stack o.for_clients.handles.items o.sizes o.slots o.ledger.parts o.keeping.parts o.marks o.owner o.for_clients.seats.items o.gate o.for_clients.passes.items };
}

// Makes a table of this many slots, with the owner's seat and one for each client.
fn make_marks(
    alloc: Global,
    slots: usize,
    clients: usize,
) -> Result<(Marks, Seat, Vec<Seat>), HostFault>
    requires few { clients ≤ client_limit }
    ensures slots { IfOk result (λ r. r.0.1 ≡ slots) }
    ensures owner { IfOk result (λ r. r.1 ≡ standing r.0.0 0 (starting (max slots 1))) }
    ensures count { IfOk result (λ r. length r.2.items ≡ clients) }
    ensures seats { IfOk result (λ r. All (IsOther r.0.0) r.2.items) }
    ensures fault { IfErr result (λ fault. fault ≡ NoMemory) }
{
    let Ok((marks, mut seats)) = Marks::new(alloc, slots, clients + 1) else {
        return Err(HostFault::NoMemory);
    };
    let owner = seats.remove(0);
    Ok((marks, owner, seats))
}

// Makes an open gate, with a pass for each client and one for the keeper.
fn make_gate(alloc: Global, clients: usize) -> Result<(Gate, Vec<Pass>), HostFault>
    requires few { clients ≤ client_limit }
    ensures count { IfOk result (λ r. length r.1.items ≡ clients + 1) }
    ensures passes { IfOk result (λ r. All (IsClientPass r.0) r.1.items) }
    ensures fault { IfErr result (λ fault. fault ≡ NoMemory) }
{
    let quotas = Vec::from_elem(alloc, TICKETS, clients + 1)?;
    match Gate::new(alloc, quotas.as_slice()) {
        Ok((gate, passes)) => Ok((gate, passes)),
        Err(_) => Err(HostFault::NoMemory),
    }
}

/// What the threads of a host will share, a handle, a seat and a pass for each client, and a list of their partitions.
#[derive(Drop)]
struct Resources {
    partitions: Vec<u8>,
    handles: Vec<Handle>,
    marks: Marks,
    owner: Seat,
    seats: Vec<Seat>,
    gate: Gate,
    passes: Vec<Pass>,
}

// Makes all resources for clients on these partitions, with their handles open on the stack.
fn make_resources(
    alloc: Global,
    stack: &mut Stack<BookedAdapter>,
    slots: usize,
    partitions: &[u8],
) -> Result<Resources, HostFault>
    requires { IsNew stack.old }
    ensures few { IfOk result (λ _. length partitions.now ≤ client_limit) }
    ensures resources { IfOk result (λ resources. AreResources partitions.now slots resources) }
    ensures opened { IfOk result (λ resources. AreOpened partitions.now resources.handles.items stack.old stack.new) }
    ensures apart { IfOk result (λ _. IsFalse stack.old.adapter.faithful → IsFalse stack.new.adapter.faithful) }
    ensures fault { IfErr result (IsHostFault stack.old.rules partitions.now) }
{
    if partitions.len() > CLIENTS {
        return Err(HostFault::TooManyClients);
    }
    let (marks, owner, seats) = make_marks(alloc, slots, partitions.len())?;
    let (gate, passes) = make_gate(alloc, partitions.len())?;
    let mut kept = Vec::new(alloc);
    kept.extend_from_slice(partitions)?;
    let handles = match open_handles(alloc, stack, partitions) {
        Ok(handles) => handles,
        Err(OpenFault::Refused(_)) => return Err(HostFault::NoPartition),
        Err(OpenFault::NoMemory) => return Err(HostFault::NoMemory),
    };
    Ok(Resources {
        partitions: kept,
        handles,
        marks,
        owner,
        seats,
        gate,
        passes,
    })
}

impl Opened {
    /// Opens handle c + 1 on `partitions[c]` for client c, and makes what the threads of a host will share. The stack
    /// is as it was started over an adapter without sectors; it has these sizes, and this many slots for open requests.
    ///
    /// # Errors
    ///
    /// [`HostFault::TooManyClients`] for more than 64 partitions; [`HostFault::NoPartition`] where the stack doesn't
    /// have one of them; [`HostFault::NoMemory`].
    pub fn new(
        alloc: Global,
        stack: Stack<BookedAdapter>,
        sizes: StackSizes,
        slots: usize,
        partitions: &[u8],
    ) -> Result<Opened, HostFault>
        requires new { IsNew stack }
        requires apart { IsFalse stack.adapter.faithful }
        requires sizes { (sizes ≡ sizes_of stack.rules) × AreSizes sizes }
        requires slots { stack.rules.open_requests ≡ Some slots }
        ensures partitions { IfOk result (λ o. (o.partitions ≡ partitions.now) × (o.parts ≡ length partitions.now + 1)) }
        ensures stack { IfOk result (λ o. (o.rules ≡ stack.rules) × (o.opening ≡ stack.state)) }
        ensures fault { IfErr result (IsHostFault stack.rules partitions.now) }
    {
        let mut stack = stack;
        let resources = make_resources(alloc, &mut stack, slots, partitions)?;
        let history = chronicle::Opened::new(alloc)?;
        Ok(Opened {
            stack,
            for_clients: ClientResources {
                handles: resources.handles,
                seats: resources.seats,
                passes: resources.passes,
            },
            partitions: resources.partitions,
            sizes,
            slots,
            history,
            ledger: Blank::new(partitions.len() as u64 + 1),
            keeping: Blank::new(1),
            marks: resources.marks,
            owner: resources.owner,
            gate: resources.gate,
        })
    }

    /// Ends all of it, where no host is made of it.
    pub fn end(self) {
        let Opened {
            stack: _,
            for_clients: _,
            partitions: _,
            sizes: _,
            slots: _,
            history,
            ledger,
            keeping,
            marks: _,
            owner: _,
            gate: _,
        } = self;
        end_history::<Brand>(history);
        end_ledger::<Brand>(ledger);
        end_keeping::<Brand>(keeping);
    }
}

// Ends a history that nobody needs.
fn end_history<N: chronicle::Naming>(history: chronicle::Opened<TraceEntry>)
    requires { history ≡ N.table }
{
    let (_history, _whole) = history.named::<N>();
}

// Ends a ledger that nobody needs.
fn end_ledger<L: Ledger>(ledger: Blank)
    requires { (ledger.name ≡ L.name) × (ledger.parts ≡ L.parts) }
{
    let (_tally, _all) = ledger.open::<L>();
}

// Ends a ledger of a keeper's steps that nobody needs.
fn end_keeping<L: Ledger>(keeping: Blank)
    requires { (keeping.name ≡ L.name) × (keeping.parts ≡ L.parts) }
{
    let (_tally, _all) = keeping.open::<L>();
}
