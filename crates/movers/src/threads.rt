//! The threads, and their owner's end.

ghost use Rattle.std.specs.Prelude.{◌≡◌, ◌∷◌, ◌++◌, [], Some, length, slice_get, IfSome, IsTrue};
ghost use Rattle.movers.specs.Moving.{DoneView, IsMade, MadeTasks};

use crate::ask::Ask;
use crate::asks::Asks;
use crate::done::Done;
use crate::task::Task;
use chronicle::Naming;
use crossbeam_channel::{Receiver, Sender};
use file_disk::{FileDisk, Sizes, Storage};
use std::alloc::AllocError;
use std::marker::Model;
use std::sync::Wait;
use std::thread;
use std::thread::{JoinHandle, Threads};

/// Carries out tasks until there are no more, or nobody takes what came of them. The disk is asked for nothing else.
pub fn serve<H: Wait, N: Naming, S: Storage + Drop, M: From<Done<N>> + Drop>(
    rt: &H,
    tasks: Receiver<Task<N>>,
    out: Sender<M>,
    disk: FileDisk<S>,
) -> FileDisk<S>
    ensures { MadeTasks disk result }
{
    let mut disk = disk;
    for _ in rt.forever() {
        let Ok(task) = tasks.recv(rt) else {
            break;
        };
        if !serve_one(rt, task, &out, &mut disk) {
            break;
        }
    }
    disk
}

/// Carries out a task, and says whether somebody took what came of it.
fn serve_one<H: Wait, N: Naming, S: Storage + Drop, M: From<Done<N>> + Drop>(
    rt: &H,
    task: Task<N>,
    out: &Sender<M>,
    disk: &mut FileDisk<S>,
) -> bool
    ensures { (done : DoneView) × IsMade disk.old done disk.new }
{
    let done = task.carry_out(disk);
    done.shows_moved();
    out.send(rt, M::from(done)).is_ok()
}

/// Starts a thread that carries out tasks. It ends once the owner's end is gone.
///
/// # Errors
///
/// Where memory or the thread was refused.
pub fn start<
    H: Threads + Wait + Copy + Send + 'static,
    N: Naming + Send + Sync + 'static,
    S: Storage + Drop + Send + 'static,
    M: From<Done<N>> + Drop + Send + 'static,
>(
    rt: H,
    tasks: &Receiver<Task<N>>,
    out: &Sender<M>,
    disk: FileDisk<S>,
) -> Result<JoinHandle<FileDisk<S>>, AllocError> {
    let tasks = tasks.clone()?;
    let out = out.clone()?;
    let started = thread::spawn(&rt, move || serve(&rt, tasks, out, disk))?;
    Ok(started)
}

/// The owner's end of threads that carry out tasks. Contracts see it as all that was asked, and the sizes of the disk.
#[derive(Drop)]
pub struct Movers<N: Naming> {
    asks: Asks<N>,
    sizes: Sizes,
    tasks: Sender<Task<N>>,
}

impl<N: Naming> Model for Movers<N> {
    ghost use Rattle.movers.specs.Moving.{MoversView};

    ghost Value = { MoversView };

    ghost view = { λ m. record { asks = m.asks; sizes = m.sizes } };
}

impl<N: Naming> Movers<N> {
    /// The end of threads that take their tasks from here, over disks of these sizes.
    pub fn new(asks: Asks<N>, sizes: Sizes, tasks: Sender<Task<N>>) -> Movers<N>
        ensures { result ≡ record { asks = asks; sizes = sizes } }
    {
        Movers { asks, sizes, tasks }
    }

    /// Hands a piece to whichever thread is free first, and returns its place among all. It is not handed out where no
    /// thread is left.
    pub fn hand<H: Wait>(&mut self, rt: &H, ask: Ask) -> Option<usize>
        ensures handed { IfSome result (λ at. (self.new ≡ record self.old { asks = self.old.asks ++ ask ∷ [] }) × (at ≡ length self.old.asks)) }
        ensures sizes { self.new.sizes ≡ self.old.sizes }
    {
        let task = self.asks.task(ask)?;
        let at = task.at();
        match self.tasks.send(rt, task) {
            Ok(()) => Some(at),
            Err(_) => None,
        }
    }

    /// Shows the caller that what came back is what came of the ask at its place, and says whether that was done on a
    /// disk of these sizes.
    pub fn check(&mut self, done: &mut Done<N>) -> bool
        ensures same { (self.new ≡ self.old) × (done.new ≡ done.old) }
        ensures stands { slice_get self.old.asks done.old.at ≡ Some done.old.ask }
        ensures sizes { IsTrue result → done.old.sizes ≡ self.old.sizes }
    {
        self.asks.check(done);
        done.sizes() == self.sizes
    }
}
