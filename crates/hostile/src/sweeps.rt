//! Runs worked by hand, with something put in at every place in turn.

ghost use Rattle.std.specs.Prelude.{◌≡◌};
ghost use Rattle.probe.specs.Exchange.{IsIdle};

use crate::fault::HostileFault;
use crate::layout::adapter;
use crate::playing::{Told, play};
use crate::rows::{FIRST, Row};
use crate::steps::Step;
use crate::tally::{Case, Tally};
use crate::verdicts::{Goes, wrong_of};
use machine::Label;
use miniport::{Adapter, PlannedAdapter};
use srb::DeviceLabel;
use std::alloc::{AllocError, Global};

/// What is put in, and its steps.
const INSERTIONS: [(&str, &[Step]); 4] = [
    ("reset", &[Step::Reset]),
    ("mark 1", &[Step::Mark(1)]),
    ("close 1", &[Step::Close(FIRST)]),
    ("query-remove, remove", &[Step::QueryRemove, Step::Remove]),
];

/// How many times each tag acts and is finished after a row. No row has more pieces.
const ROUNDS: usize = 8;

/// More acts than the longest row has.
const MOST_ACTS: u64 = 64;

/// The steps before this one, and the others.
fn cut(steps: &[Step], before: usize) -> (&[Step], &[Step]) {
    steps.split_at_checked(before).unwrap_or((steps, &[]))
}

/// Plays a row with some steps put in before this one of its own.
fn insert(
    alloc: Global,
    row: &Row,
    (what, inserted): (&'static str, &[Step]),
    before: usize,
    tally: &mut Tally,
) -> Result<(), HostileFault> {
    let steps = row.steps(alloc)?;
    let (head, tail) = cut(steps.as_slice(), before);
    let adapter = adapter(alloc, &row.layout())?;
    let told = play_row(alloc, row, adapter, &[head, inserted, tail])?;
    let wrong = wrong_of(alloc, &row.layout(), Goes::ToItsEnd, &told)?;
    tally.add_run(Case::Inserted { what, before }, &told, wrong);
    Ok(())
}

/// Plays a row with each insertion before each of its steps and at its end.
pub fn insertions(alloc: Global, row: &Row) -> Result<Tally, HostileFault> {
    let mut tally = Tally::new();
    let count = row.steps(alloc)?.len();
    for insertion in INSERTIONS {
        for before in 0..=count {
            insert(alloc, row, insertion, before, &mut tally)?;
        }
    }
    Ok(tally)
}

/// Plays a row with each of its acts failing in turn, the acts of the start too.
pub fn failures(alloc: Global, row: &Row) -> Result<Tally, HostileFault> {
    let mut tally = Tally::new();
    let steps = row.steps(alloc)?;
    for act in 0..MOST_ACTS {
        let adapter = PlannedAdapter::failing_once(alloc, adapter(alloc, &row.layout())?, act)?;
        let told = play_row(alloc, row, adapter, &[steps.as_slice()])?;
        let wrong = wrong_of(alloc, &row.layout(), Goes::ToItsEnd, &told)?;
        tally.add_run(Case::Failing { act }, &told, wrong);
        if acts(&told) <= act {
            break;
        }
    }
    Ok(tally)
}

/// Returns how many acts came, with the two of a start.
fn acts(told: &Told) -> u64 {
    let mut acts: u64 = 2;
    for label in &told.labels {
        if let Label::Device(DeviceLabel::Act { .. } | DeviceLabel::Fault { .. }) = label {
            acts = acts.saturating_add(1);
        }
    }
    acts
}

/// Plays steps one after the other, and then all that is out acts and is finished.
fn play_row<A: Adapter>(
    alloc: Global,
    row: &Row,
    adapter: A,
    parts: &[&[Step]],
) -> Result<Told, HostileFault>
    requires idle { IsIdle (A.view adapter) }
    requires unasked { (A.view adapter).accepted ≡ 0 }
{
    let layout = row.layout();
    let mut steps = Vec::new(alloc);
    for part in parts {
        steps.extend_from_slice(*part)?;
    }
    for _ in 0..ROUNDS {
        push_round(&mut steps, layout.depth)?;
    }
    play(alloc, adapter, layout.settings(), steps.as_slice())
}

/// Adds an act and a finish of each tag.
pub fn push_round(steps: &mut Vec<Step>, depth: u8) -> Result<(), AllocError> {
    for tag in 0..depth {
        steps.push(Step::Act(tag))?;
        steps.push(Step::Finish(tag))?;
    }
    Ok(())
}
