//! Lanes: one thread for each tag of a disk, which has the adapter carry out the pieces started on it, and a worker,
//! which finishes the pieces that the lanes hand over through a bounded queue. A lane that finds nobody completing a
//! piece finishes its own at once, so that no second thread is woken. A lane stands for what a device does with one tag
//! on its own; an item in the queue for a completed SRB that StorPortNotification (RequestComplete) hands to the port;
//! the worker for the port's completion DPC.
//!
//! A [`Pass`] stands for the right to put items of one tag, or, the worker's, to take items; its view is what it put or
//! took.
//!
//! # Promises
//!
//! Each lane's items are taken in the order in which it put them (`QueueKept`, `taken_is_put`, `in_order`).
//! `serve_lane` puts items of its own tag alone (`lane`, `put`). `serve_completions` ends only where it knew the queue
//! empty (`took`, `emptied`). `new`: `capacity`, `passes`. What the desk is asked to do, and when, is only tested.
#![tactic(auto)]

ghost use Rattle.std.specs.Prelude.{◌≡◌, ◌≤◌, ◌+◌, ◌^◌, ◌⊎◌, [], IfErr, IfOk, MatchOption, MatchResult, false, true, length};
ghost use Rattle.lanes.specs.Laws.{InOrder, TakenIsPut};
ghost use Rattle.lanes.specs.Queue.{HasPut, HasTaken, IsLane, IsWorker, QueueView, Standing, StoodAt, fresh_worker, issued, item_of, lanes_of, with_put, with_taken};

mod rule;

use rule::{Another, Item, Put, Queue, QueuePass, Take};
use std::alloc::{AllocError, Global};
use std::marker::Model;
use std::sync::{Mutex, MutexGuard, Wait};
use thiserror::Error;

/// There was no memory.
#[derive(Debug, Clone, Copy, PartialEq, Eq, Drop, Error)]
#[error("no memory")]
pub struct NoMemory;

impl From<AllocError> for NoMemory {
    fn from(_: AllocError) -> NoMemory {
        NoMemory
    }
}

/// Where a thread may be held before it goes on.
pub trait Turnstile {
    /// Returns once the tag may pass. It is called with no lock held.
    fn pass<R: Wait>(&self, rt: &R, tag: u8);
}

/// What a tag's lane has to do next.
#[derive(Debug, Clone, Copy, PartialEq, Eq, Drop)]
pub enum Step {
    /// A piece was started on the tag.
    Ready,
    /// The disk is removed: no piece will be started on the tag.
    Ended,
}

/// What is signalled to the worker.
#[derive(Clone, Copy, Drop)]
pub struct Signals {
    /// How often an item was put, counted modulo 2^64.
    pub count: u64,
    /// Whether the disk is removed: no piece will be started.
    pub is_removed: bool,
}

/// Where the pieces of a disk's tags are carried out and finished. Many threads share one.
pub trait Desk {
    /// Waits for the tag's next step. It is [`Step::Ready`] once for each piece started on the tag, also one that a reset
    /// met. It is [`Step::Ended`] once the disk is removed.
    fn next<R: Wait>(&self, rt: &R, tag: u8) -> Step;

    /// Has the adapter carry out the piece on the tag.
    fn act<R: Wait>(&self, rt: &R, tag: u8);

    /// Completes the piece on the tag.
    fn finish<R: Wait>(&self, rt: &R, tag: u8);

    /// Has the adapter carry out the piece on the tag. Where the turn is free then, it completes the piece, too, and
    /// returns true.
    fn act_in_turn<R: Wait>(&self, rt: &R, tag: u8, turn: &Turn) -> bool;

    /// Signals to the worker that an item was put.
    fn signal<R: Wait>(&self, rt: &R);

    /// The worker sleeps until the count of signals is another than this, or the disk is removed.
    fn wait_for_signal<R: Wait>(&self, rt: &R, seen: u64) -> Signals;
}

/// The turn to complete a piece. The worker has it while it finishes one, and so has a lane that found it free.
#[derive(Drop)]
pub struct Turn {
    held: Mutex<()>,
}

impl Turn {
    /// A turn that is free.
    pub fn new() -> Turn {
        Turn {
            held: Mutex::new(()),
        }
    }

    /// Takes the turn until what it returns is dropped; nothing where it isn't free.
    pub fn try_take(&self) -> Option<MutexGuard<'_, ()>> {
        self.held.try_lock()
    }

    // Waits until the turn is free, and takes it.
    fn take<R: Wait>(&self, rt: &R) -> MutexGuard<'_, ()> {
        self.held.lock(rt)
    }
}

/// The queue from the lanes to the worker. Contracts see it as its identity and its capacity.
#[derive(Drop)]
pub struct Completions {
    queue: Queue,
    turn: Turn,
}

impl Model for Completions {
    ghost Value = { QueueView };

    ghost view = { λ c. record { id = c.queue.table.shared.table_id; capacity = c.queue.cap } };
}

/// The right to put items of one tag, or, the worker's, to take items. Contracts see it as its queue and what it put or
/// took.
#[derive(Drop)]
pub struct Pass {
    queue_pass: QueuePass,
    /// The count of the next item that it puts.
    count: u64,
}

impl Model for Pass {
    ghost use Rattle.std.specs.Prelude.{◌≡◌, [], length};
    ghost use Rattle.lanes.specs.Queue.{Standing};

    ghost Value = { Standing };

    ghost view = { λ p. record { queue = p.queue_pass.table_id; view = p.queue_pass.me.0.client } };

    ghost invariant = { λ p. (p.queue_pass.me.1 ≡ []) × (length p.queue_pass.me.0.client.put ≡ p.count) };
}

// The passes of that many lanes, by rising tags.
fn lane_passes(
    alloc: Global,
    queue: &Queue,
    worker: &mut QueuePass,
    lanes: u8,
) -> Result<Vec<Pass>, NoMemory>
    requires queue { (worker.old.table_id ≡ queue.now.table.shared.table_id) × (worker.old.me.1 ≡ []) }
    requires worker { worker.old.me.0.client ≡ fresh_worker 0 }
    ensures queue { (worker.new.table_id ≡ worker.old.table_id) × (worker.new.me.1 ≡ []) }
    ensures worker { IfOk result (λ _. worker.new.me.0.client ≡ fresh_worker lanes) }
    ensures passes { IfOk result (λ v. v.items ≡ lanes_of queue.now.table.shared.table_id lanes) }
{
    let mut passes = Vec::new(alloc);
    for _ in 0..lanes {
        let queue_pass = queue.another::<Another>(worker);
        if passes
            .push(Pass {
                queue_pass,
                count: 0,
            })
            .is_err()
        {
            return Err(NoMemory);
        }
    }
    Ok(passes)
}

/// What the worker took of a lane, and what the queue holds of it, is what the lane put.
pub fn taken_is_put()
    ensures { TakenIsPut }
{}

/// The worker takes a lane's items in the order of their counts, and each of them once.
pub fn in_order()
    ensures { InOrder }
{}

impl Completions {
    /// A queue with room for that many items, from 1 to 32. The pass at a tag's index is that tag's lane's; the last one is
    /// the worker's.
    ///
    /// # Errors
    ///
    /// [`NoMemory`] where the memory for the queue or the passes was refused.
    #[tactic(auto, using(crate::proofs::Steps::opens))]
    pub fn new(
        alloc: Global,
        capacity: usize,
        lanes: u8,
    ) -> Result<(Completions, Vec<Pass>), NoMemory>
        requires { (1 ≤ capacity) × (capacity ≤ 32) }
        ensures capacity { IfOk result (λ r. r.0.capacity ≡ capacity) }
        ensures passes { IfOk result (λ r. r.1.items ≡ issued r.0.id lanes) }
    {
        let (queue, mut worker) = Queue::ruled(alloc, capacity)?;
        let mut passes = lane_passes(alloc, &queue, &mut worker, lanes)?;
        let worker = Pass {
            queue_pass: worker,
            count: 0,
        };
        if passes.push(worker).is_err() {
            return Err(NoMemory);
        }
        let turn = Turn::new();
        Ok((Completions { queue, turn }, passes))
    }

    // Puts the lane's next item. It comes back where the queue was full at one moment of the call, or where the lane's counts
    // have run out.
    fn put<R: Wait>(&self, rt: &R, pass: &mut Pass, tag: u8) -> Result<(), Item>
        requires lane { IsLane self.now.id tag pass.old }
        ensures lane { IsLane self.now.id tag pass.new }
        ensures put { MatchResult result (λ _. pass.new.view ≡ with_put pass.old.view (item_of tag (length pass.old.view.put))) (λ x. (x.tag ≡ tag) × (pass.new.view ≡ pass.old.view)) }
        ensures full { IfErr result (λ _. StoodAt self.now.capacity pass.old.view ⊎ (length pass.old.view.put + 1 ≡ 2 ^ 64)) }
    {
        let item = Item {
            tag,
            count: pass.count,
        };
        if pass.count == u64::MAX {
            return Err(item);
        }
        self.push(rt, &mut pass.queue_pass, item)?;
        pass.count += 1;
        Ok(())
    }

    // The two kinds of step on the queue.

    fn push<R: Wait>(&self, rt: &R, queue_pass: &mut QueuePass, item: Item) -> Result<(), Item>
        requires queue { (queue_pass.old.table_id ≡ self.now.id) × (queue_pass.old.me.1 ≡ []) }
        requires lane { queue_pass.old.me.0.client.takes ≡ false }
        requires next { item ≡ item_of queue_pass.old.me.0.client.tag (length queue_pass.old.me.0.client.put) }
        ensures queue { (queue_pass.new.table_id ≡ self.now.id) × (queue_pass.new.me.1 ≡ []) }
        ensures put { MatchResult result (λ _. queue_pass.new.me.0.client ≡ with_put queue_pass.old.me.0.client item) (λ x. (x ≡ item) × (queue_pass.new.me.0.client ≡ queue_pass.old.me.0.client) × StoodAt self.now.capacity queue_pass.old.me.0.client) }
    {
        self.queue.push_as::<Put, R>(rt, queue_pass, item)
    }

    // There is no item only where the queue was empty at one moment of the call.
    fn pop<R: Wait>(&self, rt: &R, queue_pass: &mut QueuePass) -> Option<Item>
        requires queue { (queue_pass.old.table_id ≡ self.now.id) × (queue_pass.old.me.1 ≡ []) }
        requires worker { queue_pass.old.me.0.client.takes ≡ true }
        ensures queue { (queue_pass.new.table_id ≡ self.now.id) × (queue_pass.new.me.1 ≡ []) }
        ensures taken { MatchOption result ((queue_pass.new.me.0.client ≡ queue_pass.old.me.0.client) × StoodAt 0 queue_pass.old.me.0.client) (λ x. queue_pass.new.me.0.client ≡ with_taken queue_pass.old.me.0.client x) }
    {
        self.queue.pop_as::<Take, R>(rt, queue_pass)
    }
}

/// What the lane of a tag works for, with the queue to the worker.
#[derive(Drop)]
pub struct Lane<'l, D, T> {
    pub tag: u8,
    pub desk: &'l D,
    /// The lane passes it with each piece.
    pub turnstile: &'l T,
    pub completions: &'l Completions,
}

impl<'l, D: Desk, T: Turnstile> Lane<'l, D, T> {
    // Has the tag's piece carried out, and finished where nobody else completes one. Else it puts an item for the worker; where
    // the queue is full it finishes the piece.
    fn carry_out<R: Wait>(&self, rt: &R, pass: &mut Pass)
        requires lane { IsLane self.now.completions.now.id self.now.tag pass.old }
        ensures lane { IsLane self.now.completions.now.id self.now.tag pass.new }
        ensures put { (pass.new.view ≡ pass.old.view) ⊎ (pass.new.view ≡ with_put pass.old.view (item_of self.now.tag (length pass.old.view.put))) }
    {
        self.turnstile.pass(rt, self.tag);
        let completions: &Completions = self.completions;
        if self.desk.act_in_turn(rt, self.tag, &completions.turn) {
            return;
        }
        match completions.put(rt, pass, self.tag) {
            Ok(()) => self.desk.signal(rt),
            Err(item) => self.desk.finish(rt, item.tag),
        }
    }
}

/// A tag's lane. For each piece started on the tag it passes the turnstile, and has the piece carried out. Where nobody else
/// completes a piece then, it finishes it at once; else it puts an item for the worker, and where the queue is full it finishes
/// the piece itself. It ends once the disk is removed, and gives its pass back.
pub fn serve_lane<R: Wait, D: Desk, T: Turnstile>(rt: &R, lane: &Lane<D, T>, mut pass: Pass) -> Pass
    requires lane { IsLane lane.now.completions.now.id lane.now.tag pass }
    ensures lane { IsLane lane.now.completions.now.id lane.now.tag result }
    ensures put { HasPut pass.view result.view }
{
    for _ in rt.forever() {
        match lane.desk.next(rt, lane.tag) {
            Step::Ended => break,
            Step::Ready => lane.carry_out(rt, &mut pass),
        }
    }
    pass
}

/// The worker. It takes items, passes its own turnstile with the tag of each, and finishes the piece on that tag in its turn. Where there
/// is none it sleeps until a lane signals. It ends where a look at the queue that began after the disk was removed finds none,
/// and gives its pass back.
pub fn serve_completions<R: Wait, D: Desk, T: Turnstile>(
    rt: &R,
    desk: &D,
    completions: &Completions,
    mut pass: Pass,
    turnstile: &T,
) -> Pass
    requires worker { IsWorker completions.now.id pass }
    ensures worker { IsWorker completions.now.id result }
    ensures took { HasTaken pass.view result.view }
    ensures emptied { StoodAt 0 result.view }
{
    let mut signals = Signals {
        count: 0,
        is_removed: false,
    };
    for _ in rt.forever() {
        let Some(item) = completions.pop(rt, &mut pass.queue_pass) else {
            if signals.is_removed {
                return pass;
            }
            signals = desk.wait_for_signal(rt, signals.count);
            continue;
        };
        turnstile.pass(rt, item.tag);
        let _turn = completions.turn.take(rt);
        desk.finish(rt, item.tag);
    }
    unreachable!()
}
