//! The run of a history whose sectors have schedules: so a history is legal exactly where a run explains it.
//!
//! # Promises
//!
//! A history is explained by some run of the sector machine exactly where it is of calls and answers that fit, and each
//! sector has a schedule (`legal_are_explained`). A write that is answered DEVICE_BUSY has no effect at one of its places.
//! Each sector of a partition must have an address of 64 bits. `scheduled_are_explained` and `explained_leave_places` are
//! the two directions.
#![tactic(auto)]

ghost use Rattle.history_runs.specs.Laws.{
  ExplainedLeavePlaces,
  LegalAreExplained,
  ScheduledAreExplained,
};

/// Where each sector has a schedule, and each label may come behind those before it, some run of the machine has just these
/// calls and answers.
pub fn scheduled_are_explained()
    ensures { ScheduledAreExplained }
{}

/// Each sector of an explained history has a schedule, by which a write that is answered DEVICE_BUSY has no effect at one of
/// its places.
pub fn explained_leave_places()
    ensures { ExplainedLeavePlaces }
{}

/// A history is legal exactly where some run of the machine has just these calls and answers.
pub fn legal_are_explained()
    ensures { LegalAreExplained }
{}
