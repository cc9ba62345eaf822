//! Verdicts of histories over sessions.

ghost use Rattle.std.specs.Prelude.{◌≡◌, ◌∷◌, ℕ, [], IfOk, IfSome, List, Some};
ghost use Rattle.register.specs.Values.{code};
ghost use Rattle.history_loss_judge.specs.Verdicts.{IsRight};
ghost use Rattle.history_loss_judge.specs.inside.Cells.{cell_at};
ghost use Rattle.history_loss_judge.specs.inside.Histories.{IsWhole};
ghost use Rattle.history_loss_judge.specs.inside.Lines.{lines_in};
ghost use Rattle.history_loss_judge.specs.inside.Judging.{
  IsOneOf,
  IsRightOf,
  IsVerdictOf,
  is_passed,
  owed_by,
  with_owing,
};

use crate::recorded::{Fitted, owing_after};
use history_fitting::Misfit;
use history_loss_kept::{kept_tell_all, kept_tell_steady};
use history_loss_sector::{Judged, Seen};
use history_loss_shown::refused_have_no_sessions;
use register_loss_judge::SoFar;
use std::alloc::{AllocError, Global};

/// What the judge says of a history over sessions. A line is the number that a label, or an end, was given with; a sector
/// is its number on the disk.
#[derive(Debug, Clone, Copy, PartialEq, Eq)]
pub enum Verdict {
    /// Calls carry their bytes, answers are to open calls and of their sizes, and each sector has a schedule.
    Passed,
    /// The label of this line can't come behind those before it, whatever the sectors hold: no sessions explain the history.
    Misfit { line: u64, why: Misfit },
    /// The sector has no schedule, and had none behind this line: no sessions explain the history.
    Refused { sector: u64, line: u64 },
    /// Too many of the sector's requests were open at once.
    Undecided { sector: u64 },
    /// The sector has a schedule with flushes and writes past volatile caches that did not succeed, and none without them.
    Open { sector: u64 },
    /// Each sector has a schedule, but a refused call was not answered before its session ended, at this line, or not yet, and
    /// then the line is 0.
    Owing { line: u64 },
}

/// Which of two verdicts goes before the other; a refusal before all others.
fn rank(verdict: Verdict) -> u8 {
    match verdict {
        Verdict::Refused { .. } => 0,
        Verdict::Undecided { .. } => 1,
        Verdict::Open { .. } => 2,
        _ => 3,
    }
}

/// The sector of a verdict.
fn sector_in(verdict: Verdict) -> u64 {
    match verdict {
        Verdict::Refused { sector, .. }
        | Verdict::Undecided { sector }
        | Verdict::Open { sector } => sector,
        _ => 0,
    }
}

/// Whether a verdict goes before another.
fn is_before(a: Verdict, b: Verdict) -> bool {
    if let (
        Verdict::Refused { line, .. },
        Verdict::Refused {
            line: other_line,
            ..
        },
    ) = (a, b)
        && line != other_line
    {
        return line < other_line;
    }
    (rank(a), sector_in(a)) < (rank(b), sector_in(b))
}

fn is_passed(verdict: Verdict) -> bool
    ensures { result ≡ is_passed verdict }
{
    matches!(verdict, Verdict::Passed)
}

/// The refusal at the earlier line, else what is undecided, else what is open, if one of two verdicts is that; of two that are
/// alike that of the sector that comes first.
#[tactic(auto, using(crate::proofs::Judged::second_of_passed, crate::proofs::Judged::first_of_others, crate::proofs::Judged::second_of_others))]
fn first_of(a: Verdict, b: Verdict) -> Verdict
    ensures { IsOneOf a b result }
{
    if is_passed(a) {
        return b;
    }
    if is_passed(b) {
        return a;
    }
    if is_before(b, a) { b } else { a }
}

/// What is said where each sector has a schedule.
fn owed_by(owing: Option<u64>) -> Verdict
    ensures { result ≡ owed_by owing }
{
    match owing {
        Some(line) => Verdict::Owing { line },
        None => Verdict::Passed,
    }
}

/// What is said of all, where this is said of each sector.
fn with_owing(verdict: Verdict, owing: Option<u64>) -> Verdict
    ensures { result ≡ with_owing verdict owing }
{
    if is_passed(verdict) {
        owed_by(owing)
    } else {
        verdict
    }
}

/// The number of a sector, if it has 64 bits.
fn number_of(sector: u128) -> Option<u64>
    ensures { IfSome result (λ number. number ≡ sector) }
{
    if sector > u64::MAX as u128 {
        return None;
    }
    Some((sector % (1 << 64)) as u64)
}

/// What is said of a sector.
fn verdict_of(sector: u64, judged: Judged) -> Verdict
    ensures { IsVerdictOf sector judged.all judged.steady result }
{
    let line = judged.line;
    match (judged.all, judged.steady) {
        (SoFar::Refused, _) => Verdict::Refused { sector, line },
        (_, SoFar::Passed) => Verdict::Passed,
        (SoFar::Passed, SoFar::Refused) => Verdict::Open { sector },
        _ => Verdict::Undecided { sector },
    }
}

/// Judges one sector, of which this was seen.
fn judge_cell(
    alloc: Global,
    fitted: &Fitted,
    sector: u64,
    seen: &Seen,
) -> Result<Verdict, AllocError>
    requires whole { IsWhole fitted.now }
    requires there { cell_at fitted.now.cells sector ≡ Some seen.now }
    ensures { (start : List ℕ) → fitted.now.basis.start ≡ code start → IfOk result (IsRightOf fitted.now.basis.service start (lines_in fitted.now.lines.items) (sector ∷ [])) }
{
    kept_tell_all();
    kept_tell_steady();
    refused_have_no_sessions();
    let judged = seen.judge(alloc, fitted.syncs.shared.as_slice())?;
    Ok(verdict_of(sector, judged))
}

/// The same of a sector.
fn judge_sector(alloc: Global, fitted: &Fitted, sector: u128) -> Result<Verdict, AllocError>
    requires { IsWhole fitted.now }
    ensures { (start : List ℕ) → fitted.now.basis.start ≡ code start → IfOk result (IsRightOf fitted.now.basis.service start (lines_in fitted.now.lines.items) (sector ∷ [])) }
{
    let Some(number) = number_of(sector) else {
        return Ok(Verdict::Undecided { sector: u64::MAX });
    };
    match fitted.cells.get(sector) {
        Some(seen) => judge_cell(alloc, fitted, number, seen),
        None => Ok(Verdict::Undecided { sector: number }),
    }
}

/// Judges these sectors.
fn judge_all(alloc: Global, fitted: &Fitted, sectors: &[u128]) -> Result<Verdict, AllocError>
    requires { IsWhole fitted.now }
    ensures { (start : List ℕ) → fitted.now.basis.start ≡ code start → IfOk result (IsRightOf fitted.now.basis.service start (lines_in fitted.now.lines.items) sectors.now) }
{
    let mut verdict = Verdict::Passed;
    for sector in sectors {
        let other = judge_sector(alloc, fitted, *sector)?;
        verdict = first_of(verdict, other);
    }
    Ok(verdict)
}

/// Judges lines that fit.
pub(crate) fn judge_sectors(alloc: Global, fitted: &Fitted) -> Result<Verdict, AllocError>
    requires { IsWhole fitted.now }
    ensures { (start : List ℕ) → fitted.now.basis.start ≡ code start → IfOk result (IsRight fitted.now.basis.service start (lines_in fitted.now.lines.items)) }
{
    kept_tell_steady();
    let verdict = judge_all(alloc, fitted, fitted.cells.sectors.as_slice())?;
    let owing = owing_after(fitted.owing, fitted.known.owed, 0);
    Ok(with_owing(verdict, owing))
}
