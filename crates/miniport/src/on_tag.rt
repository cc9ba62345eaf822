//! A piece on a tag of the adapter in memory.

ghost use Rattle.std.specs.Prelude.{◌≡◌, ◌↔◌, IsTrue};

use crate::completion::{met_reset, succeeded, was_busy};
use srb::{Completion, Srb};

/// What a piece has done.
#[derive(Clone, Copy, PartialEq, Eq)]
pub(crate) enum Progress {
    Untouched,
    /// Its command was carried out.
    Moved,
    /// It will never be carried out, and comes back with this completion.
    Failed(Completion),
}

/// What was booked of a piece.
#[derive(Clone, Copy, PartialEq, Eq)]
pub(crate) enum Booking {
    Nothing,
    /// The bytes of its act, which stand in the data of its SRB.
    Bytes,
    /// How it failed.
    Failure(Completion),
}

#[derive(Drop)]
pub(crate) struct OnTag {
    pub piece: u128,
    pub srb: Srb,
    pub progress: Progress,
    /// The failures counted when it was accepted.
    pub failures_before: u128,
    pub was_reset: bool,
    pub booking: Booking,
}

impl OnTag {
    ghost use Rattle.miniport.specs.inside.Slots.{completion_of};

    /// The completion with which the piece would come back now.
    pub fn completion(&self) -> Completion
        ensures { result ≡ completion_of self.now }
    {
        match self.progress {
            _ if self.was_reset => met_reset(),
            Progress::Untouched => was_busy(),
            Progress::Moved => succeeded(),
            Progress::Failed(completion) => completion,
        }
    }
}
