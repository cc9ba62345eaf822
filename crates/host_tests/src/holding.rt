//! What holds one thread until another has done what it is to do, for a limited number of turns.

use std::sync::{Mutex, Wait};
use std::thread;
use std::time::{Clock, Duration};

/// How many turns of a millisecond a thread is held at most.
const TURNS: u32 = 10_000;

#[derive(Debug, Clone, Copy, PartialEq, Eq, Drop)]
pub(crate) enum Hold {
    /// Nobody has come yet.
    Free,
    Held,
    LetGo,
}

/// Where a thread is held.
#[derive(Drop)]
pub(crate) struct Holding<'a, C: Clock> {
    clock: &'a C,
    hold: Mutex<Hold>,
    given_up: Mutex<bool>,
}

impl<'a, C: Clock> Holding<'a, C> {
    pub(crate) fn new(clock: &'a C) -> Holding<'a, C> {
        Holding {
            clock,
            hold: Mutex::new(Hold::Free),
            given_up: Mutex::new(false),
        }
    }

    fn put<R: Wait>(&self, rt: &R, hold: Hold) {
        *self.hold.lock(rt) = hold;
    }

    // Waits until this was put, or until the turns have run out.
    fn wait_for<R: Wait>(&self, rt: &R, hold: Hold) {
        for _ in 0..TURNS {
            if *self.hold.lock(rt) == hold {
                return;
            }
            thread::sleep(self.clock, Duration::from_millis(1));
        }
        *self.given_up.lock(rt) = true;
    }

    /// Holds the thread that comes first until it is let go, and no other.
    pub(crate) fn hold<R: Wait>(&self, rt: &R) {
        if self.comes_first(rt) {
            self.wait_for(rt, Hold::LetGo);
        }
    }

    fn comes_first<R: Wait>(&self, rt: &R) -> bool {
        let mut hold = self.hold.lock(rt);
        let first = *hold == Hold::Free;
        if first {
            *hold = Hold::Held;
        }
        first
    }

    /// Waits until somebody is held.
    pub(crate) fn await_held<R: Wait>(&self, rt: &R) {
        self.wait_for(rt, Hold::Held);
    }

    pub(crate) fn let_go<R: Wait>(&self, rt: &R) {
        self.put(rt, Hold::LetGo);
    }

    /// Whether the turns have run out.
    pub(crate) fn has_given_up<R: Wait>(&self, rt: &R) -> bool {
        *self.given_up.lock(rt)
    }
}
