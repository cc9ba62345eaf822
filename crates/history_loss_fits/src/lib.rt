//! What sessions explain fits: calls count and carry their bytes, refused calls are answered at once, and answers are to
//! open calls and of their sizes. So what doesn't fit is refused, whatever the sectors hold.
//!
//! # Promises
//!
//! The labels of a history over sessions that is explained fit behind each other, in each session anew
//! (`explained_labels_fit`). If besides each refused call is answered before its session ends, and no answer is
//! DEVICE_BUSY, it fits as history_loss_runs has it (`explained_fit`).
#![tactic(auto)]

ghost use Rattle.history_loss_fits.specs.Laws.{ExplainedFit, LabelsFit};

/// The labels of an explained history fit behind each other, in each session anew.
pub fn explained_labels_fit()
    ensures { LabelsFit }
{}

/// An explained history fits, if each refused call is answered before its session ends and no answer is DEVICE_BUSY.
pub fn explained_fit()
    ensures { ExplainedFit }
{}
