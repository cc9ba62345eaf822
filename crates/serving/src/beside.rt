//! A partition of a disk in a storage, served with requests side by side. One thread has the stack. Threads move the
//! bytes of its pieces, and one reads the client's next request meanwhile.

ghost use Rattle.std.specs.Prelude.{◌≡◌, All, IfErr, IfOk, false};
ghost use Rattle.std.specs.Result.{result_err};
ghost use Rattle.read_ahead.specs.Standing.{behind};
ghost use Rattle.serving.specs.declared.faults.Error.TheVariants.{NoMemory};
ghost use Rattle.serving.specs.Beside.{none_aloft};
ghost use Rattle.serving.specs.BesideFile.{IsFileSessionBeside, begun};
ghost use Rattle.serving.specs.inside.Dues.{IsFree};
ghost use Rattle.serving.specs.inside.First.{IsFirst, IsSessionFrom};

use crate::busy::Busy;
use crate::doors::{Door, Errand, Lent, Message, read_requests};
use crate::dues::Due;
use crate::engine::Engine;
use crate::faults::Error;
use crate::filed::Filed;
use crate::flying::Flying;
use crate::moving::forget_answers;
use crate::pace::Pace;
use crate::pens::Silent;
use crate::serving::outcome;
use chronicle::{Naming as AskNaming, Opened};
use crossbeam_channel::{Receiver, Sender, unbounded};
use file_disk::{DiskFile, FileDisk, Storage};
use movers::{Ask, Asks, Movers, Task, start};
use nbd::{Ahead, Sizes, makes_a_session, serve_beside};
use read_ahead::Naming;
use std::alloc::Global;
use std::io::Write;
use std::sync::Wait;
use std::thread;
use std::thread::Threads;
use std::time::Clock;

/// A partition of a disk in a storage, with a disk of the same file for each thread that moves its pieces.
#[derive(Drop)]
pub struct Threaded<S: Storage + Drop> {
    pub alloc: Global,
    pub filed: Filed<S, Silent>,
    pub disks: Vec<FileDisk<S>>,
}

/// Adds a disk of the same file for each tag of the stack.
///
/// # Errors
///
/// [`Error::NoMemory`] where the system refused another handle, or memory.
pub fn disks_beside(
    alloc: Global,
    filed: Filed<DiskFile, Silent>,
) -> Result<Threaded<DiskFile>, Error>
    ensures same { IfOk result (λ threaded. threaded.filed ≡ filed) }
    ensures fault { IfErr result (λ fault. fault ≡ NoMemory) }
{
    let mut disks = Vec::new(alloc);
    for _ in 0..filed.stack.depth() {
        let Ok(storage) = filed.disk.storage().another() else {
            return Err(Error::NoMemory);
        };
        if disks
            .push(FileDisk::new(alloc, storage, filed.disk.sizes()))
            .is_err()
        {
            return Err(Error::NoMemory);
        }
    }
    Ok(Threaded {
        alloc,
        filed,
        disks,
    })
}

/// The ends of what the threads of a session send each other.
#[derive(Drop)]
struct Ends<N: AskNaming, J: Naming, I: Ahead + Drop> {
    tasks: Sender<Task<N>>,
    inbox: Receiver<Message<N, J, I>>,
    lend: Sender<Errand<J, I>>,
}

/// Starts a thread for each disk, and one that reads requests.
///
/// # Errors
///
/// [`Error::NoMemory`] where a thread or memory for it was refused.
fn started<
    N: AskNaming + Send + Sync + 'static,
    J: Naming + Send + Sync + 'static,
    S: Storage + Drop + Send + 'static,
    H: Threads + Wait + Copy + Drop + Send + 'static,
    I: Ahead + Drop + Send + 'static,
>(alloc: Global, rt: H, disks: Vec<FileDisk<S>>, sizes: Sizes) -> Result<Ends<N, J, I>, Error>
    ensures fault { IfErr result (λ fault. fault ≡ NoMemory) }
{
    let Ok((post, inbox)) = unbounded::<Message<N, J, I>, Global>(alloc) else {
        return Err(Error::NoMemory);
    };
    let Ok((lend, errands)) = unbounded::<Errand<J, I>, Global>(alloc) else {
        return Err(Error::NoMemory);
    };
    let Ok((tasks, next)) = unbounded::<Task<N>, Global>(alloc) else {
        return Err(Error::NoMemory);
    };
    for disk in disks {
        match start(rt, &next, &post, disk) {
            Ok(mover) => drop(mover),
            Err(_) => return Err(Error::NoMemory),
        }
    }
    match thread::spawn(&rt, move || read_requests(&rt, alloc, sizes, errands, post)) {
        Ok(reader) => drop(reader),
        Err(_) => return Err(Error::NoMemory),
    }
    Ok(Ends { tasks, inbox, lend })
}

/// Returns as many slots as requests may be open, at most.
///
/// # Errors
///
/// [`Error::NoMemory`].
fn slots_for(alloc: Global, open_requests: u32) -> Result<Vec<Option<Due>>, Error>
    ensures free { IfOk result (λ slots. All IsFree slots.items) }
    ensures fault { IfErr result (λ fault. fault ≡ NoMemory) }
{
    let mut slots = Vec::new(alloc);
    for _ in 0..open_requests {
        if slots.push(None).is_err() {
            return Err(Error::NoMemory);
        }
    }
    Ok(slots)
}

/// Serves a client over a partition, with a thread for each of its disks. It also returns whether the client sent
/// nothing.
///
/// # Errors
///
/// How the session ended, where the client did not leave by the protocol; [`Error::NoMemory`] where a thread or memory
/// for it was refused, before anything was read or written.
#[tactic(auto, using(crate::proofs::Whole::of_filed, crate::proofs::Whole::behind_none))]
pub fn serve_file_beside<
    N: AskNaming + Send + Sync + 'static,
    J: Naming + Send + Sync + 'static,
    S: Storage + Drop + Send + 'static,
    H: Threads + Wait + Clock + Copy + Drop + Send + 'static,
    I: Ahead + Drop + Send + 'static,
    W: Write,
>(
    rt: H,
    opened: Opened<Ask>,
    threaded: Threaded<S>,
    input: I,
    out: &mut W,
) -> (Result<(), Error>, bool)
    requires opened { opened ≡ N.table }
    requires given { I.remaining input ≡ J.given }
    ensures { IsFileSessionBeside threaded.filed (I.remaining input) (W.contents out.old) (result_err result.0) (W.contents out.new) }
{
    let asks: Asks<N> = Asks::new(opened);
    let busy: Result<Busy<N, J, H, S, I>, Error> = busy_over(rt, asks, threaded);
    match busy {
        Ok(busy) => serve_busy(&rt, busy, Lent::new(input), out),
        Err(fault) => (Err(fault), true),
    }
}

/// Serves a client from its greeting on.
#[tactic(auto, using(crate::proofs::Whole::unasked, crate::proofs::Whole::asked))]
fn serve_busy<
    N: AskNaming,
    J: Naming,
    S: Storage + Drop,
    H: Wait + Clock + Copy + Drop,
    I: Ahead + Drop,
    W: Write,
>(rt: &H, busy: Busy<N, J, H, S, I>, lent: Lent<J, I>, out: &mut W) -> (Result<(), Error>, bool)
    requires { behind lent J.given ≡ busy.left }
    ensures { IsSessionFrom busy (W.contents out.old) (result_err result.0) (W.contents out.new) }
{
    makes_a_session();
    let mut busy = busy;
    if let Err(end) = busy.begin(lent, out) {
        let unread = busy.is_unread();
        return (outcome(end), unread);
    }
    (outcome(serve_beside(rt, &mut busy, out)), false)
}

/// Returns the owner of a stack, with its threads, for a client that hasn't sent anything.
///
/// # Errors
///
/// [`Error::NoMemory`].
#[tactic(auto, using(crate::proofs::Whole::first_desk))]
fn busy_over<
    N: AskNaming + Send + Sync + 'static,
    J: Naming + Send + Sync + 'static,
    S: Storage + Drop + Send + 'static,
    H: Threads + Wait + Clock + Copy + Drop + Send + 'static,
    I: Ahead + Drop + Send + 'static,
>(rt: H, asks: Asks<N>, threaded: Threaded<S>) -> Result<Busy<N, J, H, S, I>, Error>
    ensures first { IfOk result (IsFirst threaded.filed (behind 0 J.given)) }
    ensures fault { IfErr result (λ fault. fault ≡ NoMemory) }
{
    let Threaded {
        alloc,
        filed,
        disks,
    } = threaded;
    let sizes = filed.sizes;
    let handle = filed.handle;
    let slots = slots_for(alloc, filed.open_requests)?;
    let ends: Ends<N, J, I> = started(alloc, rt, disks, sizes)?;
    let engine = engine_over(alloc, rt, asks, filed, ends.tasks)?;
    Ok(Busy {
        alloc,
        rt,
        engine,
        door: Door {
            alloc,
            rt,
            sizes,
            here: None,
            at: 0,
            ended: None,
            inbox: ends.inbox,
            lend: ends.lend,
        },
        handle,
        slots,
        ready: None,
        read: 0,
        spoiled: 0,
        bytes: 0,
        kept: Vec::new(alloc),
        passed_on: true,
    })
}

/// Returns the engine of a partition's stack, on which no answer waits.
///
/// # Errors
///
/// [`Error::NoMemory`].
fn engine_over<N: AskNaming, S: Storage + Drop, H: Copy + Drop>(
    alloc: Global,
    rt: H,
    asks: Asks<N>,
    filed: Filed<S, Silent>,
    tasks: Sender<Task<N>>,
) -> Result<Engine<N, H, S>, Error>
    ensures stack { IfOk result (λ e. e.stack ≡ begun filed.carried.stack) }
    ensures disk { IfOk result (λ e. e.disk ≡ filed.carried.disk) }
    ensures aloft { IfOk result (λ e. e.aloft ≡ none_aloft filed.carried.stack.rules.depth) }
    ensures not_full { IfOk result (λ e. e.full ≡ false) }
    ensures fault { IfErr result (λ fault. fault ≡ NoMemory) }
{
    let Filed { stack, disk, .. } = filed;
    let mut stack = stack;
    forget_answers(&mut stack);
    let depth = stack.depth();
    let movers = Movers::new(asks, disk.sizes(), tasks);
    let Ok(flying) = Flying::new(alloc, depth) else {
        return Err(Error::NoMemory);
    };
    Ok(Engine {
        alloc,
        rt,
        stack,
        disk,
        movers,
        flying,
        pace: Pace::new(),
        full: false,
    })
}
