//! What a history shows of each sector tells whether a run explains it.
//!
//! # Promises
//!
//! Where what a sector shows has a schedule as a register, in which different bytes are different values, and all its bytes
//! were recorded, the sector has a schedule (`shown_are_scheduled`). A history that fits, each sector of which that calls move has a schedule, is explained
//! by a run (`moved_are_explained`), where no write is answered DEVICE_BUSY and each sector has an address of 64 bits.
#![tactic(auto)]

ghost use Rattle.history_shown.specs.Laws.{MovedAreExplained, ShownAreScheduled};

/// A sector that shows what has a schedule as a register has one, in a history that fits and whose bytes were recorded.
pub fn shown_are_scheduled()
    ensures { ShownAreScheduled }
{}

/// A history that fits is explained by a run, where each sector that it moves has a schedule.
pub fn moved_are_explained()
    ensures { MovedAreExplained }
{}
