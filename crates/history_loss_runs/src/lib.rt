//! The sessions of a history with losses whose sectors have schedules: so it is explained exactly where they have.
//!
//! Behind each call the first place of its request starts; a flush's piece stays out until its answer, so that what was
//! overwritten before its call is what it ends, and no more.
//!
//! # Promises
//!
//! A history of calls and answers, losses and ends, that fit behind each other (`Fits`) is explained by some sessions
//! exactly where its sectors have schedules that share the moments of failures (`scheduled_are_explained`). It stays
//! explained where a call is seen earlier or an answer later (`explained_widen`). Each sector of a partition must have
//! an address of 64 bits; a refused call is answered before its session ends, and no answer is DEVICE_BUSY.
#![tactic(auto)]

ghost use Rattle.history_loss_runs.specs.Laws.{AnswersMoveDown, CallsMoveUp, ScheduledAreExplained};

/// A history that fits is explained exactly where its sectors have schedules that share the moments of failures.
pub fn scheduled_are_explained()
    ensures { ScheduledAreExplained }
{}

/// An explained history stays one where a call is seen earlier or an answer later in its session.
pub fn explained_widen()
    ensures calls { CallsMoveUp }
    ensures answers { AnswersMoveDown }
{}
