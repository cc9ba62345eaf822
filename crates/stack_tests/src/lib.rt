//! Tests of the whole stack, over a disk in memory and over a journal: calls that no program makes, pieces that fail,
//! refused memory, and entries that replay or don't. What a script shows stands in `examples/rows`.
//!
//! # Promises
//!
//! Nothing.
#![tactic(auto)]

#[cfg(test)]
mod calls;
#[cfg(test)]
mod disks;
#[cfg(test)]
mod expect;
#[cfg(test)]
mod journals;
#[cfg(test)]
mod playing;
#[cfg(test)]
mod replays;
