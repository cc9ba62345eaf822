//! Verdicts of histories.

ghost use Rattle.std.specs.Prelude.{◌≡◌, ◌∷◌, ℕ, [], IfOk, List, Some};
ghost use Rattle.history_judge.specs.inside.Cells.{cell_at};
ghost use Rattle.history_judge.specs.inside.Histories.{IsWhole};
ghost use Rattle.history_judge.specs.Verdicts.{IsRightBy};
ghost use Rattle.history_judge.specs.inside.Judging.{IsOneOf, IsRightOf, IsVerdictOf};
ghost use Rattle.register.specs.Values.{code};

use crate::cell::Cell;
use crate::recorded::Fitted;
use crate::trying::Tried;
use history::{refused_are_unexplained_by_any, shown_by_waits};
use history_fitting::{Misfit, Place};
use register_judge::SoFar;
use std::alloc::{AllocError, Global};

/// What the judge says of a history. A line is the number that a label was given with.
#[derive(Debug, Clone, Copy, PartialEq, Eq)]
pub enum Verdict {
    /// Calls carry their bytes, answers are to open calls and of their sizes, and what each sector shows that it touches has a
    /// schedule.
    Passed,
    /// The label of this line can't come behind those before it, whatever the sectors hold: no run explains the history.
    Misfit { line: u64, why: Misfit },
    /// What the sector shows has no schedule, and had none behind the answer of this line: no run explains the history.
    Refused { place: Place, line: u64 },
    /// Too many of the sector's requests were open at once.
    Undecided { place: Place },
}

/// Whether one place comes before another.
fn is_before(a: Place, b: Place) -> bool {
    a.partition < b.partition || (a.partition == b.partition && a.sector < b.sector)
}

/// The refusal at the earlier line, else what is undecided, if one of two verdicts is that; of two that are alike that of the
/// sector that comes first.
fn first_of(a: Verdict, b: Verdict) -> Verdict
    ensures { IsOneOf a b result }
{
    let swaps = match (a, b) {
        (
            Verdict::Refused { place, line },
            Verdict::Refused {
                place: other,
                line: next,
            },
        ) => next < line || (next == line && is_before(other, place)),
        (Verdict::Undecided { place }, Verdict::Undecided { place: other }) => {
            is_before(other, place)
        }
        (_, Verdict::Refused { .. }) | (Verdict::Passed, _) => true,
        _ => false,
    };
    if swaps { b } else { a }
}

/// What is said of a sector.
fn verdict_of(place: Place, tried: Tried) -> Verdict
    ensures { IsVerdictOf place tried.so_far result }
{
    match tried.so_far {
        SoFar::Passed => Verdict::Passed,
        SoFar::Refused => Verdict::Refused {
            place,
            line: tried.line,
        },
        SoFar::Undecided => Verdict::Undecided { place },
    }
}

/// Judges one sector, of which this was seen.
fn judge_cell(
    alloc: Global,
    fitted: &Fitted,
    place: Place,
    cell: &Cell,
) -> Result<Verdict, AllocError>
    requires whole { IsWhole fitted.now }
    requires there { cell_at fitted.now.cells place.partition place.sector ≡ Some cell.now }
    ensures { (start : List ℕ) → fitted.now.basis.start.bytes ≡ code start → IfOk result (IsRightOf fitted.now.basis.start.any fitted.now.basis.service start fitted.now.gaps.items fitted.now.labels.items (place ∷ [])) }
{
    refused_are_unexplained_by_any();
    shown_by_waits();
    let tried = cell.judge(alloc, &fitted.basis)?;
    Ok(verdict_of(place, tried))
}

/// The same of a sector at a place.
fn judge_sector(alloc: Global, fitted: &Fitted, place: Place) -> Result<Verdict, AllocError>
    requires { IsWhole fitted.now }
    ensures { (start : List ℕ) → fitted.now.basis.start.bytes ≡ code start → IfOk result (IsRightOf fitted.now.basis.start.any fitted.now.basis.service start fitted.now.gaps.items fitted.now.labels.items (place ∷ [])) }
{
    match fitted.cells.get(place) {
        Some(cell) => judge_cell(alloc, fitted, place, cell),
        None => Ok(Verdict::Undecided { place }),
    }
}

/// Judges these sectors.
fn judge_all(alloc: Global, fitted: &Fitted, places: &[Place]) -> Result<Verdict, AllocError>
    requires { IsWhole fitted.now }
    ensures { (start : List ℕ) → fitted.now.basis.start.bytes ≡ code start → IfOk result (IsRightOf fitted.now.basis.start.any fitted.now.basis.service start fitted.now.gaps.items fitted.now.labels.items places.now) }
{
    let mut verdict = Verdict::Passed;
    for place in places {
        let other = judge_sector(alloc, fitted, *place)?;
        verdict = first_of(verdict, other);
    }
    Ok(verdict)
}

/// Judges labels that fit.
pub(crate) fn judge_sectors(alloc: Global, fitted: &Fitted) -> Result<Verdict, AllocError>
    requires { IsWhole fitted.now }
    ensures { (start : List ℕ) → fitted.now.basis.start.bytes ≡ code start → IfOk result (IsRightBy fitted.now.basis.start.any fitted.now.basis.service start fitted.now.gaps.items fitted.now.labels.items) }
{
    shown_by_waits();
    judge_all(alloc, fitted, fitted.cells.places.as_slice())
}
