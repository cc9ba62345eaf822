//! Whether each label of a history may come behind those before it, whatever the sectors hold: what judges of histories
//! keep of the calls so far.
//!
//! # Promises
//!
//! `Known::may_come` says whether a call or an answer may come, `take` takes it, and `request` has what is open by its
//! number. A label may come just where it fits behind those that were taken (`known_fit`). `may_come_blank` says the same of
//! one whose bytes were not recorded (`known_fit_by`).
//!
//! A `Service` tells which sectors a request moves (`moved`), and `contents_of` the bytes of one of them. Why a label can't
//! come (`why_not`) is only tested.
#![tactic(auto)]

ghost use Rattle.history_fitting.specs.Laws.{KnownFit, KnownFitBy};

mod contents;
mod fitting;
mod parts;
mod service;

pub use contents::contents_of;
pub use fitting::{Known, Misfit};
pub use service::{Place, Service};

/// What is known of the calls tells how labels fit.
pub fn known_fit()
    ensures { KnownFit }
{}

/// The same of labels of which some have no bytes, since these were not recorded.
pub fn known_fit_by()
    ensures { KnownFitBy }
{}
