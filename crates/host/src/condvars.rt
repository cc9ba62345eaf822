//! Who is woken by a step. Each lane, each client, the worker and the keeper sleep on a condition variable of their own,
//! which is notified where a label concerns them and at no other time.

use crate::kept::KeptBook;
use crate::name::HostNaming;
use lanes::Signals;
use machine::Label;
use srb::DeviceLabel;
use std::alloc::{AllocError, Global};
use std::sync::{Condvar, Mutex, Wait};
use traced::TraceEntry;

/// The most tags that an adapter has.
const TAGS: usize = 32;

/// The bit of a lane or a client.
fn bit(number: usize) -> u64 {
    if number < 64 { 1 << number } else { 0 }
}

/// Whom the labels of a step concern: the lanes of tags on which a piece was started, the clients that were answered,
/// and everybody once the removal has ended.
#[derive(Clone, Copy)]
pub(crate) struct Concerned {
    lanes: u64,
    clients: u64,
    is_removed: bool,
}

impl Concerned {
    /// Returns whom the labels of the trace from a place on concern.
    pub(crate) fn since<N: HostNaming>(book: &KeptBook<N>, from: usize) -> Concerned {
        let mut concerned = Concerned {
            lanes: 0,
            clients: 0,
            is_removed: false,
        };
        for place in from..book.len() {
            concerned.note(book.entry(place));
        }
        concerned
    }

    fn note(&mut self, entry: &TraceEntry) {
        match &entry.label {
            Label::Device(DeviceLabel::Start { tag, .. }) => self.lanes |= bit(usize::from(*tag)),
            Label::Answer { .. } => self.note_answer(entry.row),
            Label::Removed => self.is_removed = true,
            _ => {}
        }
    }

    fn note_answer(&mut self, row: Option<usize>) {
        if let Some(client) = row {
            self.clients |= bit(client);
        }
    }
}

/// The condition variables.
#[derive(Drop)]
pub(crate) struct Condvars {
    /// The conditions of lanes, by tags.
    lanes: Vec<Condvar>,
    /// The conditions of clients, by their numbers.
    clients: Vec<Condvar>,
    keeper: Condvar,
    signals: Mutex<Signals>,
    worker: Condvar,
}

/// Makes this many conditions.
fn conditions(alloc: Global, count: usize) -> Result<Vec<Condvar>, AllocError> {
    let mut all = Vec::new(alloc);
    for _ in 0..count {
        all.push(Condvar::new())?;
    }
    Ok(all)
}

impl Condvars {
    /// The conditions of this many clients.
    ///
    /// # Errors
    ///
    /// Where memory was refused.
    pub(crate) fn new(alloc: Global, clients: usize) -> Result<Condvars, AllocError> {
        let lanes = conditions(alloc, TAGS)?;
        let clients = conditions(alloc, clients)?;
        Ok(Condvars {
            lanes,
            clients,
            keeper: Condvar::new(),
            signals: Mutex::new(Signals {
                count: 0,
                is_removed: false,
            }),
            worker: Condvar::new(),
        })
    }

    /// The condition of a tag's lane.
    pub(crate) fn lane(&self, tag: u8) -> &Condvar {
        self.lanes.get(usize::from(tag)).unwrap_or(&self.keeper)
    }

    /// The condition of a client.
    pub(crate) fn client(&self, client: usize) -> &Condvar {
        self.clients.get(client).unwrap_or(&self.keeper)
    }

    /// The condition of the keeper.
    pub(crate) fn keeper(&self) -> &Condvar {
        &self.keeper
    }

    /// Wakes those whom a step concerns. The caller no longer holds the book's lock.
    pub(crate) fn notify<R: Wait>(&self, rt: &R, concerned: Concerned) {
        if concerned.is_removed {
            return self.notify_everybody(rt);
        }
        notify_some(&self.lanes, concerned.lanes);
        notify_some(&self.clients, concerned.clients);
    }

    fn notify_everybody<R: Wait>(&self, rt: &R) {
        notify_some(&self.lanes, u64::MAX);
        notify_some(&self.clients, u64::MAX);
        self.keeper.notify_all();
        self.signals.lock(rt).is_removed = true;
        self.worker.notify_all();
    }

    /// Wakes the worker.
    pub(crate) fn notify_worker<R: Wait>(&self, rt: &R) {
        self.count_signal(rt);
        self.worker.notify_all();
    }

    fn count_signal<R: Wait>(&self, rt: &R) {
        let mut signals = self.signals.lock(rt);
        signals.count = signals.count.wrapping_add(1);
    }

    /// Has the worker sleep until the count of its signals is another than this, or the removal has ended.
    pub(crate) fn wait_for_signal<R: Wait>(&self, rt: &R, seen: u64) -> Signals {
        let mut signals = self.signals.lock(rt);
        for _ in rt.forever() {
            let now = *signals;
            if now.is_removed || now.count != seen {
                return now;
            }
            signals = self.worker.wait(rt, signals);
        }
        unreachable!()
    }
}

/// Notifies those whose bit is set.
fn notify_some(conditions: &[Condvar], which: u64) {
    if which == 0 {
        return;
    }
    for number in 0..conditions.len() {
        if which & bit(number) != 0 {
            conditions[number].notify_all();
        }
    }
}
