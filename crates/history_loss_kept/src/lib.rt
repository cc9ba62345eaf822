//! What has to be kept of a history over sessions to judge one sector: its own sights, and the syncs that all sectors see.
//!
//! Calls and answers of other requests are left out, and reads that fail. So are the syncs of writes past volatile caches
//! (SBC: FUA) that succeed, and each session in which the sector saw nothing alone: there it holds one value for certain,
//! and no sync changes that.
//!
//! # Promises
//!
//! What is kept, with all syncs or only those that succeed, has a schedule exactly where all that the sector shows has one
//! (`kept_tell_all`, `kept_tell_steady`), for a history whose labels fit. `works_out` has what is kept of some by hand.
#![tactic(auto)]

ghost use Rattle.history_loss_kept.specs.Laws.{KeptTellAll, KeptTellSteady};
ghost use Rattle.history_loss_kept.specs.Worked.{AreKeptByHand};

use register_loss::Sight;

/// What is seen of one sector, line by line.
#[derive(Drop)]
pub enum Wait {
    /// It is known.
    Known(Sight),
    /// The call of a read that isn't answered yet, which has the sector at this place.
    Awaits { number: u64, place: u64 },
}

/// What one sector alone sees.
#[derive(Drop)]
pub struct Own {
    /// How much of what all sectors see in the session came before.
    pub behind: u64,
    pub wait: Wait,
}

/// How a sync ended.
#[derive(Debug, Clone, Copy, PartialEq, Eq)]
pub enum Outcome {
    /// It was not answered yet.
    Open,
    Done,
    Failed,
}

/// What all sectors see.
#[derive(Debug, Clone, Copy, PartialEq, Eq)]
pub enum Shared {
    /// The call of a flush, or of a write past volatile caches.
    Call {
        number: u64,
        is_flush: bool,
        outcome: Outcome,
    },
    /// The end of one of these.
    End {
        number: u64,
        is_success: bool,
    },
}

/// What is kept with all syncs tells whether what the sector shows has a schedule.
pub fn kept_tell_all()
    ensures { KeptTellAll }
{}

/// The same where syncs that do not succeed are left out.
pub fn kept_tell_steady()
    ensures { KeptTellSteady }
{}

/// What is kept of some histories, worked out by hand.
pub fn works_out()
    ensures { AreKeptByHand }
{}
