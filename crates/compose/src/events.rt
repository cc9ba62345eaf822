//! Events carried out one by one over any device stack.

ghost use Rattle.std.specs.Prelude.{◌≡◌, ◌≤◌, [], IsTrue, MatchResult};
ghost use Rattle.std.specs.VecDeque.{deque_capacity};
ghost use Rattle.machine.specs.Settled.{Settled, IsFinished};
ghost use Rattle.io_manager.specs.Right.{FitsTogether};
ghost use Rattle.compose.specs.Right.{IsRight, StepsUntraced, opened_by};
ghost use Rattle.compose.specs.Runs.{Carries, CarriesAll, IsLawful, RunsAreQuietOnceRemoved, RunsObeyLaws};
ghost use Rattle.compose.specs.Runs.{StopsAfter};

use crate::{Event, Reply, RunStopped, Shown};
use device::{Hold, Kind, Label};
use io_manager::IoManager;
use sector::Extent;
use std::alloc::Global;
use std::collections::VecDeque;

/// Carries out one event; its labels and answers then wait to be taken. All labels of the step before have to be taken.
/// Only a read, a write or a flush takes memory, before anything is changed but what the adapter has reserved for a
/// write.
pub(crate) fn step<D: Hold>(manager: &mut IoManager<D>, alloc: Global, event: Event) -> Reply
    requires taken { manager.old.labels ≡ [] }
    ensures right { IsRight manager.old event result manager.new }
    ensures settled { Settled manager.new.rules manager.new.state }
    ensures finished { IsFinished manager.new.state }
    ensures whole { FitsTogether manager.new }
{
    let reply = match event {
        Event::Open { partition } => manager.open(alloc, partition),
        Event::Close { handle } => manager.close(alloc, handle),
        Event::Read {
            handle,
            offset,
            buffer,
        } => manager.read(alloc, handle, offset, buffer),
        Event::Write {
            handle,
            offset,
            bytes,
            through,
        } => manager.write(alloc, handle, offset, bytes, through),
        Event::Flush { handle } => manager.flush(alloc, handle),
        Event::CancelIoEx { handle, target } => manager.cancel_io_ex(alloc, handle, target),
        Event::Mark { number } => manager.mark(number),
        Event::QueryRemove => manager.query_remove(alloc),
        Event::CancelRemove => manager.cancel_remove(alloc),
        Event::Remove => manager.remove(alloc),
        Event::SurpriseRemove => manager.surprise_remove(alloc),
        Event::Act { tag } => manager.act(tag),
        Event::Finish { tag } => manager.finish(tag),
        Event::Reset => {
            manager.reset();
            Reply::Ok
        }
    };
    manager.shows_whole();
    reply
}

/// Carries out one event as [`step`] does, and forgets its labels: none is kept, and no bytes are copied for them.
pub(crate) fn step_untraced<D: Hold>(
    manager: &mut IoManager<D>,
    alloc: Global,
    event: Event,
) -> Reply
    requires taken { manager.old.labels ≡ [] }
    ensures untraced { StepsUntraced manager.old event result manager.new }
    ensures settled { Settled manager.new.rules manager.new.state }
    ensures finished { IsFinished manager.new.state }
    ensures whole { FitsTogether manager.new }
{
    manager.keep_labels(false);
    let reply = step(manager, alloc, event);
    manager.forget_labels();
    manager.keep_labels(true);
    manager.shows_whole();
    reply
}

/// Returns what the next call of an event would open, if anything: the number of pieces, and the sectors of the disk.
pub(crate) fn admits<D: Hold>(manager: &IoManager<D>, event: &Event) -> Option<(u64, Extent)>
    ensures { result ≡ opened_by manager.now event.now }
{
    match event {
        Event::Read {
            handle,
            offset,
            buffer,
        } => manager.admits(*handle, Kind::Read, *offset, buffer.len() as u64),
        Event::Write {
            handle,
            offset,
            bytes,
            through: _,
        } => manager.admits(*handle, Kind::Write, *offset, bytes.len() as u64),
        Event::Flush { handle } => manager.admits(*handle, Kind::Flush, 0, 0),
        _ => None,
    }
}

/// Carries out events one after another, and gives the reply and the labels of each, which are then taken. All labels
/// of the step before have to be taken.
///
/// # Errors
///
/// [`RunStopped`] where memory for the result was refused. Just the first `done` events were carried out, and not all.
pub(crate) fn run<D: Hold>(
    manager: &mut IoManager<D>,
    alloc: Global,
    events: Vec<Event>,
) -> Result<Vec<Shown>, RunStopped>
    requires taken { manager.old.labels ≡ [] }
    requires kept { IsTrue manager.old.keeps }
    requires bytes { IsTrue manager.old.rules.keeps_bytes }
    ensures carries { MatchResult result (λ shown. CarriesAll manager.old events.items shown.items manager.new)
        (λ stopped. StopsAfter manager.old events.items stopped manager.new) }
    ensures lawful { MatchResult result (λ shown. IsLawful manager.old shown.items manager.new)
        (λ stopped. IsLawful manager.old stopped.shown.items manager.new) }
    ensures taken { manager.new.labels ≡ [] }
    ensures kept { IsTrue manager.new.keeps }
    ensures bytes { IsTrue manager.new.rules.keeps_bytes }
    ensures settled { Settled manager.new.rules manager.new.state }
    ensures finished { IsFinished manager.new.state }
    ensures whole { FitsTogether manager.new }
{
    laws_of_runs();
    manager.shows_whole();
    let result = carry_all(manager, alloc, events);
    manager.shows_whole();
    result
}

/// Carries out events one after another, as [`run`] does.
///
/// # Errors
///
/// Where [`run`] stops.
fn carry_all<D: Hold>(
    manager: &mut IoManager<D>,
    alloc: Global,
    events: Vec<Event>,
) -> Result<Vec<Shown>, RunStopped>
    requires taken { manager.old.labels ≡ [] }
    requires kept { IsTrue manager.old.keeps }
    requires bytes { IsTrue manager.old.rules.keeps_bytes }
    ensures carries { MatchResult result (λ shown. CarriesAll manager.old events.items shown.items manager.new)
        (λ stopped. StopsAfter manager.old events.items stopped manager.new) }
    ensures taken { manager.new.labels ≡ [] }
    ensures kept { IsTrue manager.new.keeps }
    ensures bytes { IsTrue manager.new.rules.keeps_bytes }
{
    if events.is_empty() {
        return Ok(Vec::new(alloc));
    }
    let Ok(mut shown) = Vec::with_capacity(alloc, events.len()) else {
        return Err(RunStopped {
            shown: Vec::new(alloc),
            done: 0,
        });
    };
    for event in events {
        let Ok(spare) = IoManager::<D>::spare_labels(alloc) else {
            let done = shown.len();
            return Err(RunStopped { shown, done });
        };
        shown.push_reserved(carry_out(manager, alloc, event, spare));
    }
    Ok(shown)
}

/// Carries out one event and takes its labels, in an empty queue with places for them.
fn carry_out<D: Hold>(
    manager: &mut IoManager<D>,
    alloc: Global,
    event: Event,
    spare: VecDeque<Label>,
) -> Shown
    requires taken { manager.old.labels ≡ [] }
    requires empty { spare.items ≡ [] }
    requires places { 256 ≤ deque_capacity spare }
    requires kept { IsTrue manager.old.keeps }
    requires bytes { IsTrue manager.old.rules.keeps_bytes }
    ensures carries { Carries manager.old event result manager.new }
    ensures taken { manager.new.labels ≡ [] }
    ensures kept { IsTrue manager.new.keeps }
    ensures bytes { IsTrue manager.new.rules.keeps_bytes }
{
    let reply = step(manager, alloc, event);
    let labels = manager.take_labels(spare);
    Shown { reply, labels }
}

/// Shows the caller the laws of whole runs.
fn laws_of_runs()
    ensures laws { RunsObeyLaws }
    ensures quiet { RunsAreQuietOnceRemoved }
{
    machine_laws::answered_was_moved();
    machine_laws::acts_were_asked();
    machine_laws::solo_reads();
    machine_laws::solo_writes();
    machine_laws::failed_writes();
    machine_laws::keeps_arrays();
    machine_laws::keeps_sectors();
    machine_laws::answered_are_over();
    machine_laws::removed_is_last();
    machine_laws::labels_are_of_one();
    machine_laws::goes_on();
}
