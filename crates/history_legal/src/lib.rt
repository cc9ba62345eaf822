//! What the judge of histories passes is explained by a run.
//!
//! # Promises
//!
//! A history of calls and answers that `judge` of history_judge passes is explained by a run of the sector machine
//! (`passed_are_explained`), from arrays of which each sector has the bytes that the judge was given, as many as a sector
//! has. Where some bytes were not recorded, there are bytes for their place with which it is. Each sector must have an
//! address of 64 bits, and no write be answered DEVICE_BUSY. What `judge` where any start will do passes is explained so from some arrays, whose sectors have
//! the right size (`passed_from_some_are_explained`).
#![tactic(auto)]

ghost use Rattle.history_legal.specs.Laws.{PassedAreExplained, PassedFromSomeAreExplained};

use history_filled::gaps_are_filled;
use history_shown::{moved_are_explained, shown_are_scheduled};
use register::codes_tell;

/// What passes is explained.
pub fn passed_are_explained()
    ensures { PassedAreExplained }
{
    codes_tell();
    gaps_are_filled();
    shown_are_scheduled();
    moved_are_explained();
}

/// What passes from any bytes is explained from some.
pub fn passed_from_some_are_explained()
    ensures { PassedFromSomeAreExplained }
{
    codes_tell();
    gaps_are_filled();
    shown_are_scheduled();
    moved_are_explained();
}
