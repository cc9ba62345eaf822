//! One sector of a history over sessions, between which power was lost or the process ended.
//!
//! # Promises
//!
//! A `Seen` has just what it was given: the calls and ends that the sector sees (`call`, `answer`), and at the end of each
//! session these among the syncs that all sectors see (`turn`). `judge` says whether what was seen so far has a schedule,
//! with all syncs and with those alone that succeed. The line that it tells is only tested. `answer` wants that no request
//! was called twice: so it is where each call has the next number (`numbers_stay_apart`).
#![tactic(auto)]

ghost use Rattle.history_loss_sector.specs.Numbers.{AnswersStayApart, CallsStayApart, NoneAreApart};

mod filling;
mod merging;
mod seen;
mod watched;

pub use filling::Answered;
pub use merging::SharedAt;
pub use seen::{Judged, Seen, Turned};

/// Where each call has the next number, a sector sees no request called twice.
pub fn numbers_stay_apart()
    ensures none { NoneAreApart }
    ensures calls { CallsStayApart }
    ensures answers { AnswersStayApart }
{}
