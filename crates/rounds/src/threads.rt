//! The threads: lanes, a completion worker, and clients.

ghost use Rattle.std.specs.Prelude.{◌≡◌, ◌≤◌, ◌<◌, ◌*◌, ℕ, [], suc, false, IfErr, IfOk, IfSome, IsTrue, MatchBool, get_or, length};
ghost use Rattle.lanes.specs.Queue.{fresh_lane, issued, lanes_of, standing};
ghost use Rattle.host.specs.Clients.{AreFresh, AreNumbered};
ghost use Rattle.host.specs.Closing.{IsFaithfulRun};
ghost use Rattle.host.specs.Opening.{IsDiskFor};
ghost use Rattle.sector_journal.specs.Journal.{entries_in};
ghost use Rattle.srb.specs.Replaying.{Replays};
ghost use Rattle.traced.specs.Entries.{labels_of};
ghost use Rattle.host.specs.Keepers.{IsPulledOut, IsQueriedFirst};
ghost use Rattle.pnp.specs.Laws.{is_going};
ghost use Rattle.rounds.specs.Tallies.{AreCounted, HasCounted, IsTallied};
ghost use Rattle.rounds.specs.declared.RoundsFault.TheVariants.{NoMemory};

use crate::client::{Served, Shared, serve_client};
use crate::{Done, Plan, RoundsFault, Tally};
use compose::Reply;
use disk::Medium;
use host::{Client, Host, HostFault, HostNaming, Keeper, Opened};
use lanes::{Completions, Desk, Lane, Pass, Turnstile, serve_completions, serve_lane};
use sector_journal::Journal;
use std::alloc::{AllocError, Global};
use std::sync::Wait;
use std::thread;
use std::thread::{Promise, PromisedHandle, Scope, Threads};

/// A turnstile that holds nobody.
#[derive(Drop)]
struct Open;

impl Turnstile for Open {
    fn pass<R: Wait>(&self, _: &R, _: u8) {}
}

/// What a client's thread gives: the client of this number, with no more successes than it made calls.
#[derive(Clone, Copy, Drop)]
struct OfClient {
    number: usize,
    rounds: u16,
}

impl<N: HostNaming> Promise<Served<N>> for OfClient {
    ghost kept_by = { λ p served. (served.client.client ≡ p.number)
        × (served.tally.differing ≤ served.tally.answered) × (served.tally.answered ≤ 2 * p.rounds)
        × (served.has_wanted ≡ false → HasCounted p.rounds served.client served.tally) };
}

/// Takes the pass of the highest tag that is left.
fn last_lane(passes: &mut Vec<Pass>, completions: &Completions, tag: u8) -> Option<Pass>
    requires { passes.old.items ≡ lanes_of completions.now.id (suc tag) }
    ensures lane { IfSome result (λ pass. pass ≡ standing completions.now.id (fresh_lane tag)) }
    ensures rest { passes.new.items ≡ lanes_of completions.now.id tag }
{
    passes.pop()
}

/// What lanes and their completion worker work for, with the queue from the lanes to the worker.
#[derive(Drop)]
pub struct Lanes<'s, D, T, W> {
    pub desk: &'s D,
    pub completions: &'s Completions,
    /// Each lane passes it with each piece.
    pub turnstile: &'s T,
    /// The worker passes it with each completion.
    pub at_worker: &'s W,
}

/// Starts a lane for each of `depth` tags, and the completion worker. Each goes on until it sees that the device is
/// removed. Returns false where a thread could not be started: then not all of them are there.
pub fn start_lanes<
    's,
    E,
    D: Desk + Sync,
    T: Turnstile + Sync,
    W: Turnstile + Sync,
    R: Threads + Wait + Sync,
>(
    rt: &'s R,
    scope: &'s Scope<'s, E>,
    lanes: Lanes<'s, D, T, W>,
    passes: Vec<Pass>,
    depth: u8,
) -> bool
    requires { passes.items ≡ issued lanes.completions.now.id depth }
{
    let Lanes {
        desk,
        completions,
        turnstile,
        at_worker,
    } = lanes;
    let mut passes = passes;
    let Some(worker) = passes.pop() else {
        return false;
    };
    if scope
        .spawn(move || serve_completions(rt, desk, completions, worker, at_worker))
        .is_err()
    {
        return false;
    }
    for started in 0..depth {
        let tag = depth - 1 - started;
        let Some(pass) = last_lane(&mut passes, completions, tag) else {
            return false;
        };
        if scope
            .spawn(move || {
                let lane = Lane {
                    tag,
                    desk,
                    turnstile,
                    completions,
                };
                serve_lane(rt, &lane, pass)
            })
            .is_err()
        {
            return false;
        }
    }
    true
}

/// Starts the clients' rounds.
fn start_clients<'s, E, M: Medium + Send, N: HostNaming + Send + Sync, R: Threads + Wait + Sync>(
    shared: &'s Shared<'s, M, N, R>,
    scope: &'s Scope<'s, E>,
    clients: Vec<Client<N>>,
) -> Result<Vec<PromisedHandle<Served<N>, OfClient>>, AllocError>
    requires fresh { AreFresh shared.now.plan.clients clients.items }
    requires few { shared.now.plan.clients ≤ 64 }
    ensures all { IfOk result (λ handles. length handles.items ≡ shared.now.plan.clients) }
    ensures numbers { IfOk result (λ handles. (k : ℕ) (d : _) → k < shared.now.plan.clients → (get_or handles.items k d).promise.number ≡ k) }
    ensures rounds { IfOk result (λ handles. (k : ℕ) (d : _) → k < shared.now.plan.clients → (get_or handles.items k d).promise.rounds ≡ shared.now.plan.rounds) }
{
    let mut handles = Vec::new(shared.alloc);
    for client in clients {
        let of = OfClient {
            number: client.client(),
            rounds: shared.plan.rounds,
        };
        let Ok(handle) = scope.spawn_with(
            of,
            move ||
                requires { (client.client < 64) × (client.answered ≡ []) }
            { serve_client(shared, client) },
        ) else {
            return Err(AllocError);
        };
        handles.push(handle)?;
    }
    Ok(handles)
}

/// Waits for the clients to be done.
#[tactic(auto, using(crate::proofs::Counting::no_clients))]
fn join_clients<N: HostNaming, R: Threads>(
    rt: &R,
    alloc: Global,
    handles: Vec<PromisedHandle<Served<N>, OfClient>>,
    plan: Plan,
) -> Result<(Tally, Vec<Client<N>>), AllocError>
    requires all { length handles.items ≡ plan.clients }
    requires numbers { (k : ℕ) (d : _) → k < plan.clients → (get_or handles.items k d).promise.number ≡ k }
    requires rounds { (k : ℕ) (d : _) → k < plan.clients → (get_or handles.items k d).promise.rounds ≡ plan.rounds }
    requires few { plan.clients ≤ 64 }
    ensures clients { IfOk result (λ r. AreNumbered plan.clients r.1.items) }
    ensures most { IfOk result (λ r. r.0.answered ≤ 2 * (plan.clients * plan.rounds)) }
    ensures counted { IfOk result (λ r. AreCounted plan.clients plan.rounds r.1.items r.0) }
{
    let mut clients = Vec::new(alloc);
    let mut tally = Tally {
        answered: 0,
        differing: 0,
    };
    let mut has_wanted = false;
    for handle in handles {
        let served = handle.join(rt);
        tally.answered += served.tally.answered;
        tally.differing += served.tally.differing;
        has_wanted |= served.has_wanted;
        clients.push(served.client)?;
    }
    if has_wanted {
        return Err(AllocError);
    }
    Ok((tally, clients))
}

/// Removes the device, by surprise where the query is refused. Returns whether the query was granted; the keeper has
/// receipts of it then, and of the removal. The device is gone then.
pub fn remove<M: Medium, N: HostNaming, R: Wait>(
    rt: &R,
    host: &Host<M, N>,
    keeper: &mut Keeper<N>,
) -> bool
    ensures told { MatchBool result (IsQueriedFirst keeper.old.told keeper.new.told) (IsPulledOut keeper.old.told keeper.new.told) }
    ensures removed { IsTrue (is_going keeper.new.standing) }
{
    let asked = host.query_remove(rt, keeper);
    if let Reply::Ok = asked {
        host.remove(rt, keeper);
        return true;
    }
    host.surprise_remove(rt, keeper);
    false
}

/// Starts the lanes and the worker, and has the clients do their rounds.
fn serve_clients<'s, E, M: Medium + Send, N: HostNaming + Send + Sync, R: Threads + Wait + Sync>(
    shared: &'s Shared<'s, M, N, R>,
    scope: &'s Scope<'s, E>,
    lanes: Lanes<'s, Host<M, N>, Open, Open>,
    passes: Vec<Pass>,
    clients: Vec<Client<N>>,
) -> Result<(Tally, Vec<Client<N>>), AllocError>
    requires passes { passes.items ≡ issued lanes.completions.now.id shared.now.plan.depth }
    requires clients { AreFresh shared.now.plan.clients clients.items }
    requires few { shared.now.plan.clients ≤ 64 }
    ensures clients { IfOk result (λ r. AreNumbered shared.now.plan.clients r.1.items) }
    ensures most { IfOk result (λ r. r.0.answered ≤ 2 * (shared.now.plan.clients * shared.now.plan.rounds)) }
    ensures counted { IfOk result (λ r. AreCounted shared.now.plan.clients shared.now.plan.rounds r.1.items r.0) }
{
    if !start_lanes(shared.rt, scope, lanes, passes, shared.plan.depth) {
        return Err(AllocError);
    }
    let handles = start_clients(shared, scope, clients)?;
    join_clients(shared.rt, shared.alloc, handles, shared.plan)
}

/// Runs all threads until the device is removed.
fn run_threads<M: Medium + Send, N: HostNaming + Send + Sync, R: Threads + Wait + Sync>(
    shared: &Shared<M, N, R>,
    completions: &Completions,
    passes: Vec<Pass>,
    keeper: Keeper<N>,
    clients: Vec<Client<N>>,
) -> (Keeper<N>, Result<(Tally, Vec<Client<N>>), AllocError>)
    requires passes { passes.items ≡ issued completions.now.id shared.now.plan.depth }
    requires clients { AreFresh shared.now.plan.clients clients.items }
    requires few { shared.now.plan.clients ≤ 64 }
    ensures clients { IfOk result.1 (λ r. AreNumbered shared.now.plan.clients r.1.items) }
    ensures most { IfOk result.1 (λ r. r.0.answered ≤ 2 * (shared.now.plan.clients * shared.now.plan.rounds)) }
    ensures counted { IfOk result.1 (λ r. AreCounted shared.now.plan.clients shared.now.plan.rounds r.1.items r.0) }
{
    let open = Open;
    thread::scope(
        thread::scope_env(),
        shared.rt,
        |scope| -> (Keeper<N>, Result<(Tally, Vec<Client<N>>), AllocError>)
            requires passes { passes.items ≡ issued completions.now.id shared.now.plan.depth }
            requires clients { AreFresh shared.now.plan.clients clients.items }
            requires few { shared.now.plan.clients ≤ 64 }
            ensures clients { IfOk result.1 (λ r. AreNumbered shared.entry.now.plan.clients r.1.items) }
            ensures most { IfOk result.1 (λ r. r.0.answered ≤ 2 * (shared.entry.now.plan.clients * shared.entry.now.plan.rounds)) }
            ensures counted { IfOk result.1 (λ r. AreCounted shared.entry.now.plan.clients shared.entry.now.plan.rounds r.1.items r.0) }
        {
            let mut keeper = keeper;
            let lanes = Lanes {
                desk: shared.host,
                completions,
                turnstile: &open,
                at_worker: &open,
            };
            let served = serve_clients(shared, scope, lanes, passes, clients);
            // The lanes and the worker end with the removal, also where not all threads are there.
            if remove(shared.rt, shared.host, &mut keeper) {
                (keeper, served)
            } else {
                (keeper, Err(AllocError))
            }
        },
    )
}

/// What a journal is made of: its histories, which have no name yet, and the medium of its sectors.
pub(crate) struct Blank<M: Medium> {
    pub histories: sector_journal::Opened,
    pub medium: M,
}

/// Serves a stack: its clients do their rounds, and then its device is removed.
pub(crate) fn serve<M: Medium + Send, N: HostNaming + Send + Sync, R: Threads + Wait + Sync>(
    rt: &R,
    alloc: Global,
    opened: Opened,
    blank: Blank<M>,
    plan: Plan,
) -> Result<Done<M>, RoundsFault>
    requires named { opened ≡ record { rules = N.rules; opening = N.start; partitions = N.partitions; handles = N.handles; marks = N.marks; slots = N.slots; table = N.table; name = N.name; parts = N.parts; gate = N.gate; keeper = N.keeper } }
    requires histories { blank.histories ≡ record { armings = N.armings; entries = N.entries } }
    requires sectors { (M.view blank.medium).sectors ≡ N.opening }
    requires unfailed { (M.view blank.medium).failures ≡ 0 }
    requires disk { IsDiskFor N.rules (M.view blank.medium) }
    requires clients { length N.partitions ≡ plan.clients }
    requires depth { plan.depth ≡ N.rules.depth }
    requires plan { (plan.clients ≤ 32) × (1 ≤ plan.depth) × (plan.depth ≤ 32) }
    ensures most { IfOk result (λ done. done.tally.answered ≤ 2 * (plan.clients * plan.rounds)) }
    ensures tallied { IfOk result (λ done. IsTallied plan.clients plan.rounds done.trace.items done.tally) }
    ensures replays { IfOk result (λ done. Replays (M.view done.medium).sector_size N.opening (entries_in done.entries.items) (M.view done.medium).sectors) }
    ensures run { IfOk result (λ done. IsFaithfulRun N.rules N.opening (labels_of done.trace.items) done.entries.items (M.view done.medium).sectors) }
    ensures fault { IfErr result (λ fault. fault ≡ NoMemory) }
{
    let Blank { histories, medium } = blank;
    let Ok((journal, words)) = Journal::<M, N>::new(
        alloc,
        histories,
        medium,
        plan.depth,
        plan.write_protected,
    ) else {
        opened.end();
        return Err(RoundsFault::NoMemory);
    };
    let sector_size = journal.sector_size();
    let Ok((host, keeper, clients)) = Host::<M, N>::new(alloc, opened, journal, words) else {
        return Err(RoundsFault::NoMemory);
    };
    let capacity = (usize::from(plan.depth) + 1) / 2;
    let Ok((completions, passes)) = Completions::new(alloc, capacity, plan.depth) else {
        return Err(RoundsFault::NoMemory);
    };
    let shared = Shared {
        rt,
        alloc,
        host: &host,
        plan,
        sector_size,
    };
    let (keeper, served) = run_threads(&shared, &completions, passes, keeper, clients);
    let Ok((tally, clients)) = served else {
        return Err(RoundsFault::NoMemory);
    };
    let closed = host.close(keeper, clients);
    Ok(Done {
        tally,
        trace: closed.trace,
        entries: closed.entries,
        medium: closed.medium,
    })
}
