//! The rule of the queue, and its kinds of step.

ghost use Rattle.std.specs.Prelude.{◌≡◌};
ghost use Rattle.lanes.specs.Queue.{QueueKept, Stands, fresh_lane, fresh_worker, with_lane, with_put, with_taken};

use crossbeam_queue::protocol::{Lesson, Outcome, Protocol, Split};
use crossbeam_queue::{Pass, RuledArrayQueue};
use std::collections::LinkedList;

/// A completion on its way to the worker.
#[derive(Clone, Copy)]
pub struct Item {
    pub tag: u8,
    /// The items that its lane had put before it.
    pub count: u64,
}

/// What a pass knows. No value of it is made.
pub struct View {
    /// Whether it is the worker's, the one pass that takes.
    pub takes: bool,
    /// The tag of a lane.
    pub tag: u64,
    /// The number of lanes, for the worker.
    pub lanes: u64,
    /// What it put, the oldest first.
    pub put: LinkedList<Item>,
    /// What it took, the oldest first.
    pub taken: LinkedList<Item>,
}

pub struct QueueRule;

impl Protocol<Item, View> for QueueRule {
    ghost holds = { QueueKept };

    ghost first = { fresh_worker 0 };
}

pub type Queue = RuledArrayQueue<Item, View, QueueRule>;

pub type QueuePass = Pass<Item, View>;

/// A lane puts an item.
pub struct Put;

impl Outcome<Item, View> for Put {
    ghost then = { λ v x w. w ≡ with_put v x };
}

impl Lesson<Item, View> for Put {
    ghost fact = { Stands };
}

/// The worker takes an item.
pub struct Take;

impl Outcome<Item, View> for Take {
    ghost then = { λ v x w. w ≡ with_taken v x };
}

impl Lesson<Item, View> for Take {
    ghost fact = { Stands };
}

/// The worker makes the pass of one more lane.
pub struct Another;

impl Split<View> for Another {
    ghost left = { with_lane };

    ghost right = { λ v. fresh_lane v.lanes };
}
