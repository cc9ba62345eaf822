//! All that was asked.

ghost use Rattle.std.specs.Prelude.{◌≡◌, ◌∷◌, ◌++◌, [], Some, length, slice_get, MatchOption};

use crate::ask::Ask;
use crate::done::Done;
use crate::task::Task;
use chronicle::{History, Naming, Opened, Whole};
use std::marker::Model;

/// All that was asked so far. Contracts see it as the asks, in order; no ask is kept here.
#[derive(Drop)]
pub struct Asks<N: Naming> {
    count: usize,
    history: History<Ask, N>,
    whole: Whole<Ask, N>,
}

impl<N: Naming> Model for Asks<N> {
    ghost use Rattle.std.specs.Prelude.{◌≡◌, List, length};
    ghost use Rattle.movers.specs.declared.ask.Ask.{Ask};

    ghost Value = { List Ask };

    ghost view = { λ a. a.whole };

    ghost invariant = { λ a. a.count ≡ length a.whole };
}

impl<N: Naming> Asks<N> {
    /// Nothing was asked yet.
    pub fn new(opened: Opened<Ask>) -> Asks<N>
        requires { opened ≡ N.table }
        ensures { result ≡ [] }
    {
        let (history, whole) = opened.named();
        Asks {
            count: 0,
            history,
            whole,
        }
    }

    /// Notes what is asked, and makes a task of it. There are at most 2^64 - 1.
    pub fn task(&mut self, ask: Ask) -> Option<Task<N>>
        ensures { MatchOption result (self.new ≡ self.old) (λ t. (self.new ≡ self.old ++ ask ∷ []) × (t ≡ (length self.old, ask))) }
    {
        let at = self.count;
        let count = at.checked_add(1)?;
        self.whole.add(&self.history, &ask);
        self.count = count;
        let claims = self.whole.claim(&self.history, at, &ask);
        Some(Task { at, ask, claims })
    }

    /// Shows the caller that what came back is what came of the ask at its place.
    pub fn check(&mut self, done: &mut Done<N>)
        ensures same { (self.new ≡ self.old) × (done.new ≡ done.old) }
        ensures stands { slice_get self.old done.old.at ≡ Some done.old.ask }
    {
        self.whole.check(&self.history, &mut done.claims);
    }
}
