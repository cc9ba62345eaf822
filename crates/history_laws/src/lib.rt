//! Histories: what the clients of a service saw of it, calls and answers with their bytes, and no label of its device.
//!
//! A history is explained where some run of the sector machine has just these calls and answers (`IsExplained`). Each
//! sector of an explained history has a schedule: the history with the moments at which its requests take effect on
//! that sector, as on a register (Herlihy and Wing: a linearization). So a history of which some sector has no schedule
//! is explained by no run, however the service cuts and orders its requests.
//!
//! # Promises
//!
//! Each sector of an explained history has a schedule as a register (`explained_are_scheduled`), so a history of which
//! some sector has none is explained by no run. Calls count from 1 (`explained_are_numbered`). A schedule stays one
//! where a call is seen earlier or an answer later (`schedules_widen`). The crate
//! history_runs says that schedules of all sectors make a run.
#![tactic(auto)]

ghost use Rattle.history_laws.specs.Laws.{ExplainedAreNumbered, ExplainedAreScheduled, ExplainedFit};
ghost use Rattle.history_laws.specs.Widening.{AnswersMoveDown, CallsMoveUp};

use srb::Kind;

/// What an open request asks for.
#[derive(Debug, Clone, Copy, PartialEq, Eq)]
pub struct Asked {
    pub kind: Kind,
    /// In bytes.
    pub length: u64,
}

/// Each sector of an explained history has a schedule, from the bytes that it had at the start.
pub fn explained_are_scheduled()
    ensures { ExplainedAreScheduled }
{}

/// The calls of an explained history count 1, 2 and on.
pub fn explained_are_numbered()
    ensures { ExplainedAreNumbered }
{}

/// Each label of an explained history may come behind those before it, whatever the sectors hold.
pub fn explained_fit()
    ensures { ExplainedFit }
{}

/// A schedule holds where a call is seen earlier or an answer later: so a recorder anywhere above the service accuses it of
/// nothing that it hasn't done.
pub fn schedules_widen()
    ensures calls { CallsMoveUp }
    ensures answers { AnswersMoveDown }
{}
