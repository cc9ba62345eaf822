//! Bytes of a history that were not recorded can be found, where its sectors have schedules.
//!
//! # Promises
//!
//! In a history of calls and answers some bytes were not recorded, and none stand in their place. Where the rest fits, and
//! what each sector shows has a schedule as a register, there are bytes for each gap, with which the history fits, and its
//! sectors have schedules from the same bytes at the start (`gaps_are_filled`). It doesn't say that these are the bytes that were
//! moved.
#![tactic(auto)]

ghost use Rattle.history_filled.specs.Laws.{GapsAreFilled};

/// A history whose sectors have schedules has bytes for its gaps.
pub fn gaps_are_filled()
    ensures { GapsAreFilled }
{}
