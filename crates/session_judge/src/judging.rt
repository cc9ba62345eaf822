//! Verdicts of sessions.

ghost use Rattle.std.specs.Prelude.{◌≡◌, IfOk};
ghost use Rattle.judge.specs.Views.{rules_of};
ghost use Rattle.session_judge.specs.Verdicts.{IsRight};
ghost use Rattle.session_judge.specs.inside.Reading.{IsRead, IsSaid, verdict_by};

use crate::deeds::Deed;
use crate::numbers::{are_numbered, happenings_of, tables_of};
use crate::walk::{Line, Stop, Walk};
use judge::{MachineRules, NoVerdict, Rule};
use std::alloc::{AllocError, Global};

/// What the judge says of lines, which are counted from 0.
#[derive(Debug, Clone, Copy, PartialEq, Eq)]
pub enum Verdict {
    /// Each session is a run, and each sector can have held what was read.
    Passed,
    /// No run of its session has this line: it breaks the rule.
    Breaks { line: usize, rule: Rule },
    /// By this line the sector can't have held what was told.
    Refused { line: usize, sector: usize },
    /// The line is a start that several requests may have made, and names none.
    Unnamed { line: usize },
}

/// What was read, up to the line that stops it.
#[derive(Debug, Drop)]
pub(crate) struct Reading {
    pub deeds: Vec<Deed>,
    /// How many deeds there were behind each line.
    pub ends: Vec<usize>,
    /// How many lines were read.
    count: usize,
    stop: Option<Stop>,
}

#[tactic(auto, using(crate::proofs::Walking::walked_next, crate::proofs::Saying::read_to, crate::proofs::Saying::read_all))]
pub(crate) fn read(
    alloc: Global,
    rules: &MachineRules,
    lines: &[Line],
) -> Result<Reading, NoVerdict>
    ensures { IfOk result (IsRead (rules_of rules.now) lines.now) }
{
    let mut walk = Walk::opening(alloc, rules)?;
    let mut ends = Vec::new(alloc);
    for count in 0..lines.len() {
        if let Some(stop) = walk.take(alloc, rules, &lines[count])? {
            return Ok(Reading {
                deeds: walk.deeds,
                ends,
                count,
                stop: Some(stop),
            });
        }
        ends.push(walk.deeds.len())?;
    }
    Ok(Reading {
        deeds: walk.deeds,
        ends,
        count: lines.len(),
        stop: None,
    })
}

/// The line by which this many deeds were told.
pub(crate) fn line_of(ends: &[usize], taken: usize) -> usize {
    for line in 0..ends.len() {
        if taken <= ends[line] {
            return line;
        }
    }
    ends.len()
}

/// What is said where all sectors can have held what was told.
fn stopped(count: usize, stop: Option<Stop>) -> Verdict
    ensures { result ≡ verdict_by count stop }
{
    match stop {
        Some(Stop::Breaks(rule)) => Verdict::Breaks { line: count, rule },
        Some(Stop::Unnamed) => Verdict::Unnamed { line: count },
        None => Verdict::Passed,
    }
}

/// What is said of what was read.
#[tactic(auto, using(crate::proofs::Saying::cant_have, crate::proofs::Saying::can_have, crate::proofs::Saying::said))]
fn verdict_of(alloc: Global, reading: &Reading) -> Result<Verdict, AllocError>
    ensures { IfOk result (IsSaid reading.now.deeds.items reading.now.count reading.now.stop) }
{
    let deeds = reading.deeds.as_slice();
    let tables = tables_of(alloc, deeds)?;
    let tables = tables.as_slice();
    let happenings = happenings_of(alloc, tables, deeds)?;
    let count = tables.len();
    match disk_judge::judge(alloc, count, happenings.as_slice())? {
        disk_judge::Verdict::Refused { taken, sector } => {
            let line = line_of(reading.ends.as_slice(), taken);
            Ok(Verdict::Refused { line, sector })
        }
        disk_judge::Verdict::Passed => {
            if !are_numbered(tables, deeds) {
                return Err(AllocError);
            }
            Ok(stopped(reading.count, reading.stop))
        }
    }
}

/// Judges lines of sessions, by the rules of a machine that is not faithful: its sectors stand elsewhere.
///
/// # Errors
///
/// [`NoVerdict`] where memory was refused, or a number is too large.
#[tactic(auto, using(crate::proofs::Saying::right))]
pub fn judge(alloc: Global, rules: &MachineRules, lines: &[Line]) -> Result<Verdict, NoVerdict>
    ensures right { IfOk result (IsRight (rules_of rules.now) lines.now) }
{
    let reading = read(alloc, rules, lines)?;
    let verdict = verdict_of(alloc, &reading)?;
    Ok(verdict)
}
