//! Queues of what a step tells. Memory keeps it until it is taken, with its bytes or without, or contracts alone read it.

ghost use Rattle.std.specs.Prelude.{◌≡◌, ◌<◌, ◌≤◌, ◌+◌, ◌++◌, ◌∷◌, [], true, Bool, List, length, IfOk, IsTrue, IsFalse, map};
ghost use Rattle.std.specs.VecDeque.{deque_capacity};
ghost use Rattle.machine.specs.Bare.{in_memory as label_in_memory};
ghost use Rattle.io_manager.specs.inside.Queue.{QueueView, SameQueue, TakesFirst, answer_in_memory};

use crate::Answer;
use device::Label;
use noted::Noted;
use std::alloc::{AllocError, Global};
use std::collections::VecDeque;
use std::marker::Model;

/// What has bytes that memory may keep or not.
pub(crate) trait Told: Drop {
    /// What memory has of it.
    ghost in_memory: { Bool → Self → Self };
}

impl Told for Label {
    ghost in_memory = { label_in_memory };
}

impl Told for Answer {
    ghost in_memory = { answer_in_memory };
}

/// What was told, in order. The queue holds it where memory keeps it, and else nothing.
#[derive(Drop)]
pub(crate) struct LabelQueue<T: Told> {
    pub(crate) queue: VecDeque<T>,
    pub(crate) keeps: bool,
    /// Whether memory keeps the bytes of what it keeps.
    pub(crate) keeps_bytes: bool,
    pub(crate) told: Noted<T>,
}

impl<T: Told> Model for LabelQueue<T> {
    ghost use Rattle.std.specs.Prelude.{◌≡◌, [], IsTrue, IsFalse, map};
    ghost use Rattle.std.specs.VecDeque.{deque_capacity};
    ghost use Rattle.io_manager.specs.inside.Queue.{QueueView};

    ghost Value = { QueueView T };

    ghost view = { λ q. record { items = q.told.items; places = deque_capacity q.queue; keeps = q.keeps; keeps_bytes = q.keeps_bytes } };

    ghost invariant = { λ q. record {
      kept : IsTrue q.keeps → q.queue.items ≡ map (T.in_memory q.keeps_bytes) q.told.items;
      quiet : IsFalse q.keeps → q.queue.items ≡ [];
    } };
}

impl<T: Told> LabelQueue<T> {
    /// A queue that keeps what is told, with this many places.
    ///
    /// # Errors
    ///
    /// [`AllocError`] where memory for these was refused.
    pub(crate) fn new(
        alloc: Global,
        places: usize,
        keeps_bytes: bool,
    ) -> Result<LabelQueue<T>, AllocError>
        ensures { IfOk result (λ queue. queue ≡ record { items = []; places = places; keeps = true; keeps_bytes = keeps_bytes }) }
    {
        Ok(LabelQueue {
            queue: VecDeque::with_capacity(alloc, places)?,
            keeps: true,
            keeps_bytes,
            told: Noted::none(),
        })
    }

    /// Whether memory keeps what is told.
    pub(crate) fn keeps(&self) -> bool
        ensures { result ≡ self.now.keeps }
    {
        self.keeps
    }

    /// Whether memory keeps the bytes of what it keeps.
    pub(crate) fn keeps_bytes(&self) -> bool
        ensures { result ≡ self.now.keeps_bytes }
    {
        self.keeps_bytes
    }

    /// From now on memory keeps what is told, or contracts alone read it.
    pub(crate) fn keep(&mut self, keep: bool)
        requires empty { self.old.items ≡ [] }
        ensures { self.new ≡ record self.old { keeps = keep } }
    {
        self.queue.clear();
        self.keeps = keep;
    }

    /// Tells one more, which has no bytes.
    pub(crate) fn tell(&mut self, item: T)
        requires place { length self.old.items < self.old.places }
        requires plain { T.in_memory self.old.keeps_bytes item ≡ item }
        ensures tells { self.new.items ≡ self.old.items ++ item ∷ [] }
        ensures one_more { length self.new.items ≡ length self.old.items + 1 }
        ensures same { SameQueue self.old self.new }
    {
        self.told = self.told.with(&item);
        if self.keeps {
            self.queue.push_back_reserved(item);
        }
    }

    /// Tells one more, of which memory gets this. The caller reads what is told off this and off what it lends.
    pub(crate) fn tell_as<S>(&mut self, item: T, from: &S)
        ghost told: { T }
        requires place { length self.old.items < self.old.places }
        requires shown { IsTrue self.old.keeps → item ≡ T.in_memory self.old.keeps_bytes told }
        ensures tells { self.new.items ≡ self.old.items ++ told ∷ [] }
        ensures one_more { length self.new.items ≡ length self.old.items + 1 }
        ensures same { SameQueue self.old self.new }
    {
        self.told = self.told.with(from);
        if self.keeps {
            self.queue.push_back_reserved(item);
        }
    }

    /// Makes what is told these items, in a queue of which memory keeps none. The caller reads them off what it lends.
    pub(crate) fn note<S>(&mut self, from: &S)
        ghost items: { List T }
        requires quiet { IsFalse self.old.keeps }
        ensures tells { self.new.items ≡ items }
        ensures same { SameQueue self.old self.new }
    {
        self.told = self.told.with(from);
    }

    /// Takes the earliest item, as memory has it.
    pub(crate) fn take_first(&mut self) -> Option<T>
        requires kept { IsTrue self.old.keeps }
        ensures takes { TakesFirst (T.in_memory self.old.keeps_bytes) self.old.items result self.new.items }
        ensures same { SameQueue self.old self.new }
    {
        let first = self.queue.pop_front();
        self.told = self.told.with(&first);
        first
    }

    /// Takes all items, in an empty queue that has places for them. It takes no memory.
    pub(crate) fn take_all(&mut self, mut into: VecDeque<T>) -> Vec<T>
        requires kept { IsTrue self.old.keeps }
        requires empty { into.items ≡ [] }
        requires places { self.old.places ≤ deque_capacity into }
        ensures all { result.items ≡ map (T.in_memory self.old.keeps_bytes) self.old.items }
        ensures taken { self.new ≡ record self.old { items = [] } }
    {
        let Ok(()) = into.append(&mut self.queue) else {
            unreachable!()
        };
        self.told = Noted::none();
        into.into_vec()
    }

    /// Forgets all items.
    pub(crate) fn forget(&mut self)
        ensures { self.new ≡ record self.old { items = [] } }
    {
        self.queue.clear();
        self.told = Noted::none();
    }
}
