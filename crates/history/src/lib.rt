//! What a history shows of each sector, as of a register, that a judge of registers may judge.
//!
//! # Promises
//!
//! If what some sector shows (`sights_of`) has no schedule, no run explains the history (`refused_are_unexplained`). What it
//! shows can be kept label by label (`waits_of`), where reads wait for their answers (`shown_by_waits`).
//!
//! Of labels whose bytes were not recorded, none stand in their place. If a run explains a history with some bytes there
//! (`IsExplainedBySome`), its labels fit (`explained_by_some_fit`), and what each sector shows has a schedule in which such
//! bytes are any (`refused_are_unexplained_by_any`).
#![tactic(auto)]

ghost use Rattle.history.specs.Filling.{
  BlanksAreScheduled,
  ExplainedBySomeFit,
  FilledFit,
  RefusedAreUnexplainedByAny,
};
ghost use Rattle.history.specs.Refusing.{RefusedAreUnexplained, SightsAreScheduled};
ghost use Rattle.history.specs.Waits.{ShownByWaits};

use register::Sight;

/// What is seen of a sector, label by label.
#[derive(Drop)]
pub enum Wait {
    /// It is known.
    Known(Sight),
    /// The call of a read that isn't answered yet, which has the sector at this place.
    Awaits { number: u64, place: u64 },
}

/// What a sector with a schedule shows has a schedule as a register, whatever numbers stand for its bytes.
pub fn sights_are_scheduled()
    ensures { SightsAreScheduled }
{}

/// A history of which some sector has no schedule is explained by no run.
pub fn refused_are_unexplained()
    ensures { RefusedAreUnexplained }
{}

/// What a sector shows, by a look ahead to answers, is what is known in the end where each label is taken by itself.
pub fn shown_by_waits()
    ensures { ShownByWaits }
{}

/// Where what a sector shows with some bytes has a schedule, it has one without those that were not recorded.
pub fn blanks_are_scheduled()
    ensures { BlanksAreScheduled }
{}

/// Labels that fit with some bytes do without those that were not recorded.
pub fn filled_fit()
    ensures { FilledFit }
{}

/// A history of which some sector has no schedule is explained by no run, whatever the bytes were that were not recorded.
pub fn refused_are_unexplained_by_any()
    ensures { RefusedAreUnexplainedByAny }
{}

/// Each label of a history that a run explains with some bytes may come behind those before it.
pub fn explained_by_some_fit()
    ensures { ExplainedBySomeFit }
{}
