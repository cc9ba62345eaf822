//! A judge of traces over several sessions: between two of them power was lost, or the process ended, and requests, pieces
//! and numbers begin anew.
//!
//! The labels of each session are judged as a run of a machine whose sectors stand elsewhere. What pieces do to sectors is
//! judged beside that, for each sector by itself, over all sessions.
//!
//! # Promises
//!
//! `judge` passes only lines of which each session is a run, and whose deeds can have happened to each sector
//! (`Passes`). It refuses only a line that no run of its session has (`IsBroken`), or deeds that can't have happened to
//! the sector that it names (`IsRefused`). Deeds are what the labels say of the disk (`AreDeedsOf`), in the words of
//! `loss`. Of a start that names no request (`Unnamed`) nothing is promised.
//!
//! It doesn't promise that the line of a refused deed is the first such line. What `reason_of` tells is only tested.
#![tactic(auto)]

mod deeds;
mod judging;
mod numbers;
mod reasons;
mod walk;

pub use deeds::{Deed, Way};
pub use judging::{Verdict, judge};
pub use reasons::{Held, Reason, reason_of};
pub use walk::Line;
