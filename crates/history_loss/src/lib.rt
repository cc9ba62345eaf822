//! Histories over several sessions: what the clients of a service saw of it, and that power was lost, or that its
//! process ended.
//!
//! Such a history is explained where some sessions of the sector machine, beside which the table of the crate loss
//! stands, have just these calls, answers, losses and ends (`IsExplained`). A schedule of one sector is the history with
//! the moments at which requests take effect on the sector, or fail. A flush that is answered SUCCESS ends what was
//! overwritten before its call, on each sector by itself. One that fails, as a failed write past volatile caches, puts
//! all sectors in doubt, so the sectors share the moments of failures, and nothing else but what clients saw.
//!
//! # Promises
//!
//! The sectors of an explained history have schedules that share the moments of failures (`explained_are_scheduled`):
//! so a history of which some sector has none is explained by no sessions. They keep them where a call is seen earlier
//! or an answer later (`schedules_widen`).
#![tactic(auto)]

ghost use Rattle.history_loss.specs.Laws.{ExplainedAreScheduled};
ghost use Rattle.history_loss.specs.Widening.{AnswersMoveDown, CallsMoveUp};
ghost use Rattle.history_loss.specs.Worked.{AreChangedByHand, AreRefutedByHand, AreScheduledByHand};

/// The sectors of an explained history have schedules, which share the moments at which requests fail.
pub fn explained_are_scheduled()
    ensures { ExplainedAreScheduled }
{}

/// Schedules hold where a call is seen earlier or an answer later in its session.
pub fn schedules_widen()
    ensures calls { CallsMoveUp }
    ensures answers { AnswersMoveDown }
{}

/// What events make of a sector, schedules of it and what is none, worked out by hand.
pub fn works_out()
    ensures changes { AreChangedByHand }
    ensures scheduled { AreScheduledByHand }
    ensures refuted { AreRefutedByHand }
{}
