//! A host of two clients, and what is asked of it.

ghost use Rattle.std.specs.Prelude.{◌≡◌, ◌≤◌, [], length, vec_capacity};
ghost use Rattle.host.specs.Clients.{AreNumbered};
ghost use Rattle.host.specs.Opening.{IsDiskFor};

use crate::expect::same;
use crate::opening::{Ready, open_host};
use crate::orders::{client_of, order_of, tag_of};
use crate::replaying::{compare_acts, compare_rows, places_of, replay};
use crate::texts;
use crate::user::{Caller, Deed, Hosted, Told, User};
use compose::{Refusal as Why, Reply};
use disk::Medium;
use host::{Client, Closed, Host, HostNaming, Keeper};
use lanes::{Desk, Step};
use machine::Label;
use rounds::remove;
use script::Order;
use sector_journal::{OfArmings, OfEntries};
use std::alloc::{AllocError, Global};
use std::process::Abort;
use std::sync::Wait;
use traced::TraceEntry;

/// A host with its keeper, whatever its types: steps that are no client's.
pub(crate) trait Keeps {
    /// Takes a step.
    fn take(&mut self, order: Order) -> Reply;

    /// Removes the device, or pulls it out where a query is refused.
    fn end(&mut self);
}

/// A host with its keeper.
#[derive(Drop)]
pub(crate) struct Kept<'r, 'h, M: Medium, N: HostNaming, R>
where
    OfArmings<N>: chronicle::Naming,
    OfEntries<N>: chronicle::Naming,
{
    pub rt: &'r R,
    pub host: &'h Host<M, N>,
    pub keeper: Keeper<N>,
}

impl<'r, 'h, M: Medium, N: HostNaming, R: Wait + Abort> Keeps for Kept<'r, 'h, M, N, R> {
    fn take(&mut self, order: Order) -> Reply {
        let (rt, host) = (self.rt, self.host);
        match order {
            Order::Act { tag } => host.act(rt, tag_of(tag)),
            Order::Finish { tag } => host.finish(rt, tag_of(tag)),
            Order::Reset => host.reset(rt),
            Order::QueryRemove => host.query_remove(rt, &mut self.keeper),
            Order::CancelRemove => host.cancel_remove(rt, &mut self.keeper),
            Order::Remove => host.remove(rt, &mut self.keeper),
            Order::SurpriseRemove => host.surprise_remove(rt, &mut self.keeper),
            _ => panic!(rt; "no step of a host"),
        }
    }

    fn end(&mut self) {
        remove(self.rt, self.host, &mut self.keeper);
    }
}

/// What a test runs in, and the desk of its lanes.
#[derive(Drop)]
pub(crate) struct Bench<'a, R, D> {
    pub rt: &'a R,
    pub alloc: Global,
    pub desk: &'a D,
}

/// One row of a test, with its outcome.
#[derive(Clone, Copy)]
pub(crate) enum Row<'a> {
    /// A line of a script. Client 0 has handle 1, and client 1 handle 2.
    Line(&'a str, &'a str),
    /// What a client does.
    By(usize, Deed, &'a str),
    /// A tag's lane does what it has to do.
    Lane(u8, Step),
}

/// The keeper and both clients of a test.
#[derive(Drop)]
struct Users<K: Keeps, C: Caller> {
    keeper: K,
    first: User<C>,
    second: User<C>,
}

/// The rows of a test, and the whole trace.
#[derive(Clone, Copy)]
pub(crate) struct Run<'a> {
    pub rows: &'a [Row<'a>],
    pub trace: &'a str,
}

// Takes a step that is no client's, and returns its reply as text.
fn drive<K: Keeps>(alloc: Global, keeper: &mut K, order: Order) -> Result<String, AllocError> {
    let reply = keeper.take(order);
    if let Reply::Refused {
        refusal: Why::InsufficientResources,
        ..
    } = &reply
    {
        return Err(AllocError);
    }
    texts::reply(alloc, &reply)
}

// Takes a lane's step.
fn serve<D: Desk, R: Wait + Abort>(rt: &R, desk: &D, tag: u8, want: Step) {
    let step = desk.next(rt, tag);
    same(rt, &step, &want);
    if step == Step::Ready {
        desk.act(rt, tag);
        desk.finish(rt, tag);
    }
    if step == Step::Ended {
        assert!(rt; desk.wait_for_signal(rt, 0).is_removed);
    }
}

// Has a client do something.
fn act<K: Keeps, C: Caller>(
    rt: &impl Abort,
    alloc: Global,
    users: &mut Users<K, C>,
    client: usize,
    deed: Deed,
) -> Result<String, AllocError> {
    if client == 0 {
        users.first.act(rt, alloc, deed)
    } else {
        users.second.act(rt, alloc, deed)
    }
}

// Carries a row out, and checks its outcome.
fn go<K: Keeps, C: Caller, D: Desk, R: Wait + Abort>(
    bench: &Bench<R, D>,
    users: &mut Users<K, C>,
    row: Row<'_>,
) -> Result<(), AllocError> {
    let (rt, alloc) = (bench.rt, bench.alloc);
    let (text, want) = match row {
        Row::Line(line, want) => {
            let order = order_of(rt, alloc, line)?;
            match client_of(order) {
                Some(client) => (act(rt, alloc, users, client, Deed::Call(order))?, want),
                None => (drive(alloc, &mut users.keeper, order)?, want),
            }
        }
        Row::By(client, deed, want) => (act(rt, alloc, users, client, deed)?, want),
        Row::Lane(tag, want) => {
            serve(rt, bench.desk, tag, want);
            return Ok(());
        }
    };
    same(rt, &text.as_str(), &want);
    Ok(())
}

// Carries the rows of a test out one by one. Returns what both clients were told.
fn play<K: Keeps, C: Caller, D: Desk, R: Wait + Abort>(
    bench: &Bench<R, D>,
    users: &mut Users<K, C>,
    rows: &[Row],
) -> Result<[Told; 2], AllocError> {
    for row in rows {
        go(bench, users, *row)?;
    }
    Ok([
        users.first.told(bench.alloc)?,
        users.second.told(bench.alloc)?,
    ])
}

// The keeper and two clients play the rows, and come back.
fn play_by_two<K: Keeps, C: Caller, D: Desk, R: Wait + Abort>(
    bench: &Bench<R, D>,
    company: Company<K, C>,
    rows: &[Row],
) -> (Company<K, C>, Result<[Told; 2], AllocError>) {
    let Company {
        keeper,
        first,
        second,
    } = company;
    let mut users = Users {
        keeper,
        first: User::new(first),
        second: User::new(second),
    };
    let played = play(bench, &mut users, rows);
    let Users {
        keeper,
        first,
        second,
    } = users;
    let company = Company {
        keeper,
        first: first.into_client(),
        second: second.into_client(),
    };
    (company, played)
}

/// A host's keeper and both its clients.
#[derive(Drop)]
pub(crate) struct Company<K, C> {
    pub keeper: K,
    pub first: C,
    pub second: C,
}

/// The keeper and the clients of a host, in order.
pub(crate) fn company_of<'r, 'h, M: Medium, N: HostNaming, R: Abort>(
    rt: &'r R,
    host: &'h Host<M, N>,
    keeper: Keeper<N>,
    clients: Vec<Client<N>>,
) -> Company<Kept<'r, 'h, M, N, R>, Hosted<'r, 'h, M, N, R>> {
    let mut clients = clients;
    let second = clients.pop();
    let first = clients.pop();
    let (Some(first), Some(second)) = (first, second) else {
        panic!(rt; "not two clients")
    };
    Company {
        keeper: Kept { rt, host, keeper },
        first: Hosted {
            rt,
            host,
            client: first,
        },
        second: Hosted {
            rt,
            host,
            client: second,
        },
    }
}

/// The keeper and the clients, apart from their host.
pub(crate) fn parted<M: Medium, N: HostNaming, R>(
    company: Company<Kept<'_, '_, M, N, R>, Hosted<'_, '_, M, N, R>>,
) -> (Keeper<N>, Client<N>, Client<N>) {
    (
        company.keeper.keeper,
        company.first.client,
        company.second.client,
    )
}

/// Both clients, in order, at places that were made for them.
pub(crate) fn given_back<N: HostNaming>(
    rt: &impl Abort,
    mut back: Vec<Client<N>>,
    first: Client<N>,
    second: Client<N>,
) -> Vec<Client<N>>
    requires places { (back.items ≡ []) × (2 ≤ vec_capacity back) }
    ensures { AreNumbered 2 result.items }
{
    let (one, two) = (first.client(), second.client());
    assert!(rt; one == 0 && two == 1);
    back.push_reserved(first);
    back.push_reserved(second);
    back
}

// Plays the rows on a host of two clients, and closes it.
fn play_and_close<M: Medium, N: HostNaming, R: Wait + Abort>(
    rt: &R,
    alloc: Global,
    ready: Ready<M>,
    run: &Run,
) -> Result<(Closed<M, N>, [Told; 2]), AllocError>
    requires named { ready.opened ≡ record { rules = N.rules; opening = N.start; partitions = N.partitions; handles = N.handles; marks = N.marks; slots = N.slots; table = N.table; name = N.name; parts = N.parts; gate = N.gate; keeper = N.keeper } }
    requires histories { ready.histories ≡ record { armings = N.armings; entries = N.entries } }
    requires sectors { (M.view ready.medium).sectors ≡ N.opening }
    requires unfailed { (M.view ready.medium).failures ≡ 0 }
    requires disk { IsDiskFor N.rules (M.view ready.medium) }
    requires depth { N.rules.depth ≡ 2 }
    requires partitions { length N.partitions ≡ 2 }
{
    let (host, keeper, clients) = open_host::<M, N>(alloc, ready, 2)?;
    let back = Vec::with_capacity(alloc, 2)?;
    let bench = Bench {
        rt,
        alloc,
        desk: &host,
    };
    let company = company_of(rt, &host, keeper, clients);
    let (company, told) = play_by_two(&bench, company, run.rows);
    let (keeper, first, second) = parted(company);
    let back = given_back(rt, back, first, second);
    Ok((host.close(keeper, back), told?))
}

// The places of the calls in a trace that a client made, and of the answers to them.
fn calls_and_answers(
    alloc: Global,
    trace: &[TraceEntry],
    client: usize,
) -> Result<Told, AllocError> {
    let (mut calls, mut answers) = (Vec::new(alloc), Vec::new(alloc));
    for place in places_of(alloc, trace, client)? {
        match trace.get(place) {
            Some(
                TraceEntry {
                    label: Label::Call { .. },
                    ..
                },
            ) => calls.push(place)?,
            _ => answers.push(place)?,
        }
    }
    Ok((client, calls, answers))
}

/// A host of two clients carries the rows out.
pub(crate) fn carry_out<M: Medium, N: HostNaming, R: Wait + Abort>(
    rt: &R,
    alloc: Global,
    ready: Ready<M>,
    run: &Run,
) -> Result<(), AllocError>
    requires named { ready.opened ≡ record { rules = N.rules; opening = N.start; partitions = N.partitions; handles = N.handles; marks = N.marks; slots = N.slots; table = N.table; name = N.name; parts = N.parts; gate = N.gate; keeper = N.keeper } }
    requires histories { ready.histories ≡ record { armings = N.armings; entries = N.entries } }
    requires sectors { (M.view ready.medium).sectors ≡ N.opening }
    requires unfailed { (M.view ready.medium).failures ≡ 0 }
    requires disk { IsDiskFor N.rules (M.view ready.medium) }
    requires depth { N.rules.depth ≡ 2 }
    requires partitions { length N.partitions ≡ 2 }
{
    let (closed, told) = play_and_close::<M, N, R>(rt, alloc, ready, run)?;
    let Closed {
        trace,
        rows,
        entries,
        receipts: _,
        medium,
    } = closed;
    replay(rt, alloc, medium, entries.as_slice())?;
    compare_acts(rt, trace.as_slice(), entries.as_slice());
    same(
        rt,
        &texts::trace(alloc, trace.as_slice())?.as_str(),
        &run.trace,
    );
    for (client, told) in told.iter().enumerate() {
        same(
            rt,
            told,
            &calls_and_answers(alloc, trace.as_slice(), client)?,
        );
    }
    compare_rows(rt, alloc, trace.as_slice(), rows)
}
