//! A judge of histories: it says of what clients saw of a service, calls and answers with their bytes, whether each sector
//! has a schedule. A `History` takes labels one by one. It keeps what is open, and of each sector what a read's answer holds up,
//! its last sights, and the bytes that it may have.
//!
//! # Promises
//!
//! A `History` has just the labels that it took (`new`, `push`). `misfit` tells only of one that no run of the sector machine
//! explains, however the service cuts its requests and whatever it has open at once: a call has not the next number or not
//! its bytes, a refused one isn't answered at once, an answer is to no open call, or by a status or with a length that no
//! run gives. `judge` (`right`) refuses the labels so far only for that, or where no run from the given bytes explains a
//! sector. It passes them only if they fit (`all_fit_by_at_first`), and what each sector shows that they touch has a schedule
//! (`Passes`). Of a history whose sectors began with anything it says so of any bytes: each has a schedule from some on
//! (`PassesFromSome`), or one has none from any (`IsUnexplainedFromAny`).
//!
//! Bytes that were not recorded may have been any: what is refused no run explains with whatever bytes
//! (`IsExplainedBySome`).
//!
//! The crate history_legal says that a run explains what passes, where no write is answered DEVICE_BUSY. A sector that may be
//! in more than 1,024 states is undecided. What is told of lines, bytes and DEVICE_BUSY is only tested.
#![tactic(auto)]

mod cell;
mod cells;
mod judging;
mod past;
mod recorded;
mod telling;
mod trying;
mod waits;

pub use history_fitting::{Misfit, Place, Service};
pub use judging::Verdict;
pub use recorded::History;
pub use telling::{Found, Refusal, Source};
