//! What a history over sessions shows of a sector, as of a register over losses of power, that a judge of registers may
//! judge.
//!
//! Each sector chooses by itself when a sync fails that is answered with an error. So a history may be passed of whose
//! sectors each has a schedule, but with other such moments; no history is refused that sessions explain.
//!
//! # Promises
//!
//! What a sector with a schedule shows (`sights_of`) has one as a register (`sights_are_scheduled`). If what some sector
//! shows has no schedule, no sessions explain the history (`refused_are_unexplained`).
#![tactic(auto)]

ghost use Rattle.history_loss_sights.specs.Refusing.{RefusedAreUnexplained, SightsAreScheduled};

/// What a sector with a schedule shows has a schedule as a register, whatever numbers stand for its bytes.
pub fn sights_are_scheduled()
    ensures { SightsAreScheduled }
{}

/// A history of which some sector has no schedule is explained by no sessions.
pub fn refused_are_unexplained()
    ensures { RefusedAreUnexplained }
{}
