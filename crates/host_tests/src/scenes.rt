//! A host of two clients on one partition, over lanes and a worker of their own.

ghost use Rattle.std.specs.Prelude.{◌≡◌, length};
ghost use Rattle.lanes.specs.Queue.{issued};
ghost use Rattle.host.specs.Opening.{IsDiskFor};

use crate::beside::{Scene, play};
use crate::desk::{Bench, Company, Keeps, company_of, given_back, parted};
use crate::expect::same;
use crate::holding::Holding;
use crate::opening::{Ready, open_host};
use crate::replaying::{compare_acts, replay};
use crate::texts;
use crate::user::Caller;
use disk::Medium;
use host::{Client, Closed, Host, HostNaming, Keeper};
use lanes::{Completions, Desk, Pass, Signals, Step, Turn, Turnstile};
use rounds::{Lanes, start_lanes};
use std::alloc::{AllocError, Global};
use std::process::Abort;
use std::sync::Wait;
use std::thread;
use std::thread::Threads;
use std::time::Clock;
use traced::TraceEntry;

/// What is held of a thread that comes to a turnstile.
#[derive(Clone, Copy)]
pub(crate) enum Held {
    Nobody,
    Tag0,
    Anyone,
}

/// A turnstile that holds the first thread that it is to hold.
#[derive(Drop)]
struct Gate<'a, C: Clock> {
    holding: &'a Holding<'a, C>,
    held: Held,
}

impl<'a, C: Clock> Turnstile for Gate<'a, C> {
    fn pass<R: Wait>(&self, rt: &R, tag: u8) {
        match self.held {
            Held::Anyone => self.holding.hold(rt),
            Held::Tag0 if tag == 0 => self.holding.hold(rt),
            _ => {}
        }
    }
}

/// A scene, where its threads are held, and who is held there: of the lanes, and of the worker.
#[derive(Drop)]
pub(crate) struct Setting<'a, C: Clock> {
    pub scene: Scene,
    pub holding: &'a Holding<'a, C>,
    pub at_lanes: Held,
    pub at_worker: Held,
}

/// A desk of lanes and of a worker. Where the worker is to be held, so is a lane that has the turn; the finish of a piece
/// that was handed over lets go who is held.
#[derive(Drop)]
struct LetsGo<'a, 'b, D, C: Clock> {
    desk: &'a D,
    holding: &'b Holding<'b, C>,
    at_worker: Held,
}

impl<'a, 'b, D: Desk, C: Clock> Desk for LetsGo<'a, 'b, D, C> {
    fn next<R: Wait>(&self, rt: &R, tag: u8) -> Step {
        self.desk.next(rt, tag)
    }

    fn act<R: Wait>(&self, rt: &R, tag: u8) {
        self.desk.act(rt, tag);
    }

    fn finish<R: Wait>(&self, rt: &R, tag: u8) {
        self.desk.finish(rt, tag);
        if let Held::Anyone = self.at_worker {
            self.holding.let_go(rt);
        }
    }

    fn act_in_turn<R: Wait>(&self, rt: &R, tag: u8, turn: &Turn) -> bool {
        let Held::Anyone = self.at_worker else {
            return self.desk.act_in_turn(rt, tag, turn);
        };
        let taken = turn.try_take();
        if taken.is_some() {
            self.holding.hold(rt);
        }
        self.desk.act_in_turn(rt, tag, turn)
    }

    fn signal<R: Wait>(&self, rt: &R) {
        self.desk.signal(rt);
    }

    fn wait_for_signal<R: Wait>(&self, rt: &R, seen: u64) -> Signals {
        self.desk.wait_for_signal(rt, seen)
    }
}

/// The queue from the lanes to the worker, with the passes of both.
struct Queue<'a> {
    completions: &'a Completions,
    passes: Vec<Pass>,
}

// Plays the scene, and removes the device. Nobody is held any more then.
fn play_and_remove<K: Keeps, C: Caller, R: Wait, T: Clock>(
    rt: &R,
    alloc: Global,
    company: &mut Company<K, C>,
    setting: &Setting<'_, T>,
    has_lanes: bool,
) -> Result<String, AllocError> {
    let seen = if has_lanes {
        play(rt, alloc, setting, company)
    } else {
        Err(AllocError)
    };
    setting.holding.let_go(rt);
    company.keeper.end();
    seen
}

// Four lanes and the worker, the two clients, and the removal.
fn run_threads<
    D: Desk + Sync,
    K: Keeps + Drop,
    C: Caller + Drop,
    R: Threads + Wait + Sync,
    T: Clock + Sync,
>(
    bench: &Bench<R, D>,
    queue: Queue<'_>,
    company: Company<K, C>,
    setting: &Setting<'_, T>,
) -> (Company<K, C>, Result<String, AllocError>)
    requires { queue.passes.items ≡ issued queue.completions.now.id 4 }
{
    let Queue {
        completions,
        passes,
    } = queue;
    let desk = LetsGo {
        desk: bench.desk,
        holding: setting.holding,
        at_worker: setting.at_worker,
    };
    let (at_lanes, at_worker) = (
        Gate {
            holding: setting.holding,
            held: setting.at_lanes,
        },
        Gate {
            holding: setting.holding,
            held: setting.at_worker,
        },
    );
    thread::scope(
        thread::scope_env(),
        bench.rt,
        |scope| -> (Company<K, C>, Result<String, AllocError>)
            requires { passes.items ≡ issued completions.now.id 4 }
        {
            let mut company = company;
            let lanes = Lanes {
                desk: &desk,
                completions,
                turnstile: &at_lanes,
                at_worker: &at_worker,
            };
            let has_lanes = start_lanes(bench.rt, scope, lanes, passes, 4);
            let seen = play_and_remove(bench.rt, bench.alloc, &mut company, setting, has_lanes);
            (company, seen)
        },
    )
}

// The threads, with one place in the queue; then the host is closed.
fn play_and_close<
    M: Medium + Send,
    N: HostNaming + Send + Sync,
    R: Threads + Wait + Sync + Abort,
    C: Clock + Sync,
>(
    rt: &R,
    alloc: Global,
    opened: (Host<M, N>, Keeper<N>, Vec<Client<N>>),
    setting: &Setting<'_, C>,
) -> Result<(String, Closed<M, N>), AllocError>
    requires partitions { length N.partitions ≡ 2 }
{
    let back = Vec::with_capacity(alloc, 2)?;
    let Ok((completions, passes)) = Completions::new(alloc, 1, 4) else {
        return Err(AllocError);
    };
    let (host, keeper, clients) = opened;
    let bench = Bench {
        rt,
        alloc,
        desk: &host,
    };
    let queue = Queue {
        completions: &completions,
        passes,
    };
    let company = company_of(rt, &host, keeper, clients);
    let (company, seen) = run_threads(&bench, queue, company, setting);
    let (keeper, first, second) = parted(company);
    let back = given_back(rt, back, first, second);
    let closed = host.close(keeper, back);
    Ok((seen?, closed))
}

/// What is wanted of a scene: what its clients see, the trace where threads don't race, and the number of entries.
#[derive(Clone, Copy)]
pub(crate) struct Want<'a> {
    pub seen: &'a str,
    pub trace: Option<&'a str>,
    pub entries: usize,
}

// A trace as text. A device is pulled out where its removal wants memory.
fn trace_of(alloc: Global, trace: &[TraceEntry]) -> Result<String, AllocError> {
    let text = texts::trace(alloc, trace)?;
    if text.as_str().ends_with("surprise / removed") {
        return Err(AllocError);
    }
    Ok(text)
}

/// A host of two clients on one partition plays a scene.
pub(crate) fn play_scene<
    M: Medium + Send,
    N: HostNaming + Send + Sync,
    R: Threads + Wait + Sync + Abort,
    C: Clock + Sync,
>(
    rt: &R,
    alloc: Global,
    ready: Ready<M>,
    setting: &Setting<'_, C>,
    want: &Want,
) -> Result<(), AllocError>
    requires named { ready.opened ≡ record { rules = N.rules; opening = N.start; partitions = N.partitions; handles = N.handles; marks = N.marks; slots = N.slots; table = N.table; name = N.name; parts = N.parts; gate = N.gate; keeper = N.keeper } }
    requires histories { ready.histories ≡ record { armings = N.armings; entries = N.entries } }
    requires sectors { (M.view ready.medium).sectors ≡ N.opening }
    requires unfailed { (M.view ready.medium).failures ≡ 0 }
    requires disk { IsDiskFor N.rules (M.view ready.medium) }
    requires depth { N.rules.depth ≡ 4 }
    requires partitions { length N.partitions ≡ 2 }
{
    let opened = open_host::<M, N>(alloc, ready, 4)?;
    let (seen, closed) = play_and_close(rt, alloc, opened, setting)?;
    let trace = trace_of(alloc, closed.trace.as_slice())?;
    same(rt, &seen.as_str(), &want.seen);
    if let Some(wanted) = want.trace {
        same(rt, &trace.as_str(), &wanted);
    }
    same(rt, &closed.entries.len(), &want.entries);
    compare_acts(rt, closed.trace.as_slice(), closed.entries.as_slice());
    replay(rt, alloc, closed.medium, closed.entries.as_slice())?;
    Ok(())
}
