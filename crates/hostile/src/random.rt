//! Runs of random settings and events.

use crate::agreeing::judges_agree;
use crate::dice::Dice;
use crate::fault::HostileFault;
use crate::layout::{Layout, NONE_BAD, Partition, SECTOR, adapter};
use crate::playing::{Told, play};
use crate::steps::{On, Step, Target};
use crate::sweeps::push_round;
use crate::tally::{Case, Tally};
use crate::verdicts::{Goes, Wrong, wrong_of};
use compose::{Handle, Id};
use std::alloc::{AllocError, Global};

/// The number of runs that both judges are asked of, where as many are made.
const AGREEING: u64 = 10;

/// Makes this many runs, from this seed on.
pub fn random_runs(alloc: Global, seed: u64, runs: u64) -> Result<Tally, HostileFault> {
    let mut tally = Tally::new();
    for n in 0..runs {
        let seed = seed.wrapping_add(n);
        let run = run_of(alloc, seed)?;
        let mut wrong = wrong_of(alloc, &run.layout, run.goes, &run.told)?;
        if n < AGREEING && wrong.is_none() && !judges_agree(alloc, &run)? {
            wrong = Some(Wrong::Judges);
        }
        tally.add_run(Case::Seeded { seed }, &run.told, wrong);
    }
    Ok(tally)
}

/// A run that was played.
#[derive(Drop)]
pub struct Run {
    pub layout: Layout,
    pub goes: Goes,
    pub told: Told,
}

/// The random run of a seed.
pub fn run_of(alloc: Global, seed: u64) -> Result<Run, HostileFault> {
    let mut dice = Dice::new(seed);
    let layout = layout(&mut dice);
    let goes = if dice.one_of(2) {
        Goes::ToItsEnd
    } else {
        Goes::NotSoFar
    };
    let steps = steps(alloc, &mut dice, &layout, goes)?;
    let adapter = adapter(alloc, &layout)?;
    let told = play(alloc, adapter, layout.settings(), steps.as_slice())?;
    Ok(Run { layout, goes, told })
}

/// The longest transfer where little is open at once. Pieces of two reads are often alike then, and the judge follows
/// each way in which they may be of either read. Where much is open, reads of the same sectors have to be rare.
const SHORT_TRANSFER: u32 = 4;

fn is_wide(layout: &Layout) -> bool {
    layout.max_transfer > SHORT_TRANSFER
}

/// A small disk with few requests at once, or a larger one with many.
fn layout(dice: &mut Dice) -> Layout {
    if dice.one_of(8) {
        wide_layout(dice)
    } else {
        narrow_layout(dice)
    }
}

fn narrow_layout(dice: &mut Dice) -> Layout {
    let sectors = dice.below(60).saturating_add(8);
    Layout {
        sectors,
        partitions: partitions(dice, sectors),
        bad: [bad(dice, sectors), bad(dice, sectors)],
        max_transfer: dice.from_one_to(SHORT_TRANSFER),
        depth: u8::try_from(dice.from_one_to(3)).unwrap_or(1),
        write_protected: dice.one_of(16),
        window: dice.from_one_to(3),
        open_requests: dice.from_one_to(6),
    }
}

fn wide_layout(dice: &mut Dice) -> Layout {
    Layout {
        sectors: 1000,
        partitions: [(10, 600), (700, 300), (0, 0), (0, 0)],
        bad: [bad(dice, 1000), bad(dice, 1000)],
        max_transfer: 64,
        depth: u8::try_from(dice.from_one_to(32)).unwrap_or(1),
        write_protected: false,
        window: dice.from_one_to(64),
        open_requests: dice.from_one_to(64),
    }
}

/// One to four partitions, one behind the other; seldom none.
fn partitions(dice: &mut Dice, sectors: u32) -> [Partition; 4] {
    let mut partitions = [(0, 0); 4];
    let used = if dice.one_of(16) {
        0
    } else {
        dice.from_one_to(4)
    };
    let mut next = dice.below(3).saturating_add(1);
    for n in 0..4 {
        let count = dice.below(16).saturating_add(1);
        let end = next.saturating_add(count);
        if n < used && end <= sectors {
            partitions[n as usize] = (next, count);
            next = end.saturating_add(dice.below(3));
        }
    }
    partitions
}

/// A bad sector, mostly none, seldom the one of the partition table.
fn bad(dice: &mut Dice, sectors: u32) -> u64 {
    if !dice.one_of(4) {
        return NONE_BAD;
    }
    let sector = dice.below(sectors);
    if sector == 0 && !dice.one_of(8) {
        return NONE_BAD;
    }
    sector as u64
}

/// Some hundred steps. Where they go to the end, all that is held is let go, and all that is out acts and is finished.
fn steps(
    alloc: Global,
    dice: &mut Dice,
    layout: &Layout,
    goes: Goes,
) -> Result<Vec<Step>, AllocError> {
    let mut steps = Vec::new(alloc);
    steps.push(Step::Open(0))?;
    let count = dice.below(200).saturating_add(50);
    for _ in 0..count {
        push_any(&mut steps, dice, layout)?;
    }
    if goes == Goes::ToItsEnd {
        push_end(&mut steps, layout)?;
    }
    Ok(steps)
}

/// A step of any kind. A finish mostly has an act in front.
fn push_any(steps: &mut Vec<Step>, dice: &mut Dice, layout: &Layout) -> Result<(), AllocError> {
    if !dice.one_of(3) {
        steps.push(step(dice, layout))?;
        return Ok(());
    }
    let tag = tag(dice, layout);
    if acts_first(dice, layout) {
        steps.push(Step::Act(tag))?;
    }
    steps.push(Step::Finish(tag))?;
    Ok(())
}

/// Whether a piece acts before it is finished; else it comes back busy. Pieces come back busy often only where one
/// request is alone.
fn acts_first(dice: &mut Dice, layout: &Layout) -> bool {
    if layout.open_requests == 1 {
        dice.one_of(30)
    } else {
        !dice.one_of(10)
    }
}

/// More pieces than the longest request that dice make has.
const PIECES: u32 = 5;

/// Held requests go on, and then each tag acts and is finished as often as there can be pieces: one piece may be out
/// at a time.
fn push_end(steps: &mut Vec<Step>, layout: &Layout) -> Result<(), AllocError> {
    steps.push(Step::CancelRemove)?;
    for _ in 0..layout.open_requests.saturating_mul(PIECES) {
        push_round(steps, layout.depth)?;
    }
    Ok(())
}

/// A step of any kind.
fn step(dice: &mut Dice, layout: &Layout) -> Step {
    match dice.below(1000) {
        0..260 if layout.open_requests > 1 => Step::Act(tag(dice, layout)),
        0..260 => Step::Finish(tag(dice, layout)),
        260..460 => Step::Read(handle(dice), offset(dice, layout), length(dice, layout)),
        460..660 => write(dice, layout),
        660..690 if is_wide(layout) => write(dice, layout),
        660..690 => Step::Flush(handle(dice)),
        690..700 => Step::Mark(dice.below(40) as u64),
        700..780 => Step::Open(dice.byte(5)),
        780..790 => Step::Close(handle(dice)),
        790..860 => Step::Cancel(handle(dice), target(dice)),
        860..890 => Step::QueryRemove,
        890..960 => Step::CancelRemove,
        960..968 => Step::Remove,
        968..972 => Step::SurpriseRemove,
        _ => Step::Reset,
    }
}

fn write(dice: &mut Dice, layout: &Layout) -> Step {
    Step::Write(
        handle(dice),
        offset(dice, layout),
        length(dice, layout),
        dice.byte(256),
        dice.one_of(8),
    )
}

/// A tag of the adapter, seldom one that isn't there.
fn tag(dice: &mut Dice, layout: &Layout) -> u8 {
    if dice.one_of(30) {
        dice.byte(256)
    } else {
        dice.byte(layout.depth as u32)
    }
}

/// A handle of the last ones that were given, seldom any other.
fn handle(dice: &mut Dice) -> On {
    if dice.one_of(12) {
        On::Made(Handle {
            slot: dice.below(4),
            number: dice.below(12) as u64,
        })
    } else {
        On::Given(dice.below(4))
    }
}

fn target(dice: &mut Dice) -> Target {
    match dice.below(8) {
        0 => Target::All,
        1 => Target::Made(Id {
            slot: dice.below(8),
            number: dice.below(60) as u64,
        }),
        _ => Target::Given(dice.below(6)),
    }
}

/// A number of bytes to the start of a sector, mostly of the partition, seldom to the middle of one.
fn offset(dice: &mut Dice, layout: &Layout) -> u64 {
    let most = if is_wide(layout) { 610 } else { 10 };
    let sector = dice.below(most) as u64;
    let within = if dice.one_of(40) {
        dice.below(SECTOR)
    } else {
        0
    };
    sector
        .saturating_mul(SECTOR as u64)
        .saturating_add(within as u64)
}

/// A number of bytes, from no sector up to several pieces, seldom not of whole sectors.
fn length(dice: &mut Dice, layout: &Layout) -> u32 {
    let most = layout.max_transfer.saturating_mul(3).saturating_add(2);
    let most = if dice.one_of(3) { most } else { 4 };
    let sectors = dice.below(most);
    let within = if dice.one_of(40) {
        dice.below(SECTOR)
    } else {
        0
    };
    sectors.saturating_mul(SECTOR).saturating_add(within)
}
