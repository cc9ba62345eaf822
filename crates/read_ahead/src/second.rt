//! The second thread, and what the two hand each other.

use crate::Naming;
use nbd::{Ahead, take_in_two};
use std::alloc::{AllocError, Global};
use std::marker::{Model, PhantomData};
use std::sync::{Arc, Condvar, Mutex, Wait};
use std::thread::Threads;
use std::{mem, thread};

/// An input at a place in its bytes, and memory to be filled with the next ones.
#[derive(Drop)]
pub(crate) struct Asked<J: Naming, I: Ahead + Drop> {
    pub(crate) input: I,
    pub(crate) room: Vec<u8>,
    /// How many bytes the input gave before.
    pub(crate) at: u64,
    pub(crate) name: PhantomData<J>,
}

impl<J: Naming, I: Ahead + Drop> Model for Asked<J, I> {
    ghost use Rattle.std.specs.Prelude.{ℕ, []};
    ghost use Rattle.std.specs.Io.KnownBytes.{Consumes};
    ghost use Rattle.read_ahead.specs.Standing.{behind};

    ghost Value = { ℕ };

    ghost view = { λ a. a.at };

    ghost invariant = { λ a. Consumes (behind a.at J.given) (I.remaining a.input) [] };
}

/// The bytes of an input from a place on, and the input behind them.
#[derive(Drop)]
pub(crate) struct Filled<J: Naming, I: Ahead + Drop> {
    pub(crate) input: I,
    pub(crate) bytes: Vec<u8>,
    /// How many bytes the input gave before these.
    pub(crate) at: u64,
    pub(crate) name: PhantomData<J>,
}

impl<J: Naming, I: Ahead + Drop> Model for Filled<J, I> {
    ghost use Rattle.std.specs.Prelude.{ℕ};
    ghost use Rattle.std.specs.Io.KnownBytes.{Consumes};
    ghost use Rattle.read_ahead.specs.Standing.{behind};

    ghost Value = { ℕ };

    ghost view = { λ f. f.at };

    ghost invariant = { λ f. Consumes (behind f.at J.given) (I.remaining f.input) f.bytes.items };
}

/// Whose turn it is.
#[derive(Drop)]
enum Turn<J: Naming, I: Ahead + Drop> {
    /// Nobody's.
    Idle,
    /// The second thread's: it is to fill the memory.
    Asked(Asked<J, I>),
    /// The first thread's.
    Filled(Filled<J, I>),
    /// The first thread's: the input failed.
    Failed,
}

/// What both threads have.
#[derive(Drop)]
pub(crate) struct Shared<J: Naming, I: Ahead + Drop> {
    turn: Mutex<Turn<J, I>>,
    asked: Condvar,
    filled: Condvar,
}

impl<J: Naming, I: Ahead + Drop> Shared<J, I> {
    /// Has the second thread fill the memory.
    pub(crate) fn ask<H: Wait>(&self, rt: &H, asked: Asked<J, I>) {
        *self.turn.lock(rt) = Turn::Asked(asked);
        self.asked.notify_one();
    }

    /// Waits for what the second thread has read, or until it failed.
    pub(crate) fn await_filled<H: Wait>(&self, rt: &H) -> Option<Filled<J, I>> {
        let mut turn = self.turn.lock(rt);
        for _ in rt.forever() {
            match mem::replace(&mut *turn, Turn::Idle) {
                Turn::Filled(filled) => return Some(filled),
                Turn::Failed => return None,
                other => *turn = other,
            }
            turn = self.filled.wait(rt, turn);
        }
        None
    }

    /// Waits for what is to be read.
    fn await_asked<H: Wait>(&self, rt: &H) -> Option<Asked<J, I>> {
        let mut turn = self.turn.lock(rt);
        for _ in rt.forever() {
            match mem::replace(&mut *turn, Turn::Idle) {
                Turn::Asked(asked) => return Some(asked),
                other => *turn = other,
            }
            turn = self.asked.wait(rt, turn);
        }
        None
    }

    /// Hands back what was read.
    fn tell<H: Wait>(&self, rt: &H, filled: Option<Filled<J, I>>) {
        *self.turn.lock(rt) = match filled {
            Some(filled) => Turn::Filled(filled),
            None => Turn::Failed,
        };
        self.filled.notify_one();
    }

    /// Reads what is asked for, as long as the input doesn't fail.
    fn serve<H: Wait>(&self, rt: &H) {
        for _ in rt.forever() {
            let Some(asked) = self.await_asked(rt) else {
                return;
            };
            let filled = fill(asked);
            let failed = filled.is_none();
            self.tell(rt, filled);
            if failed {
                return;
            }
        }
    }
}

/// Fills the memory, if the input doesn't fail.
fn fill<J: Naming, I: Ahead + Drop>(asked: Asked<J, I>) -> Option<Filled<J, I>> {
    let Asked {
        mut input,
        mut room,
        at,
        name,
    } = asked;
    match take_in_two(&mut input, room.as_mut_slice()) {
        Ok(()) => Some(Filled {
            input,
            bytes: room,
            at,
            name,
        }),
        Err(_) => None,
    }
}

/// Starts the second thread. It ends with the program, or where the input fails.
///
/// # Errors
///
/// Where memory was refused, or no thread could be started.
pub(crate) fn start<
    J: Naming + Send + Sync + 'static,
    H: Threads + Wait + Copy + Send + 'static,
    I: Ahead + Send + Drop + 'static,
>(alloc: Global, rt: H) -> Result<Arc<Shared<J, I>>, AllocError> {
    let shared = Arc::new(
        alloc,
        Shared {
            turn: Mutex::new(Turn::Idle),
            asked: Condvar::new(),
            filled: Condvar::new(),
        },
    )?;
    let other = Arc::try_clone(&shared)?;
    let started = thread::spawn(&rt, move || other.serve(&rt))?;
    drop(started);
    Ok(shared)
}
