//! A judge of histories over sessions: it says of what clients saw of a service, calls and answers with their bytes, losses of
//! power and ends of its process among them, whether sessions explain it.
//!
//! A `SessionHistory` takes lines one by one. It keeps what is open, the flushes and writes past volatile caches (SBC: FUA) of
//! the session, and of each sector what it may have.
//!
//! # Promises
//!
//! A `SessionHistory` has just the lines that it took (`new`, `push`, `lost`, `ended`). `misfit` tells only of one that no sessions
//! explain: in one of them a call has not the next number or not its bytes, a refused one isn't answered at once, an answer is
//! to no open call, or by a status or with a length that no run gives. `judge` (`right`) refuses the lines so far only for that, or
//! where no sessions over a disk on which the sector had the given bytes explain it. It passes them only if they fit, each
//! refused call is answered in its session (`all_fit_over`), and each sector has a schedule without the flushes and such writes that
//! did not succeed (`IsPassed`). Where a sector has one with these alone, `judge` says so (`Open`).
//!
//! Some sessions explain what passes (`passed_are_explained`), where no answer is DEVICE_BUSY. A sector that may be in too many
//! states is undecided, as one whose number has more than 64 bits. What is told of lines is only tested.
#![tactic(auto)]

ghost use Rattle.history_loss_judge.specs.Laws.{PassedAreExplained};

mod cells;
mod judging;
mod lines;
mod recorded;
mod spans;
mod syncs;
mod telling;

pub use history_fitting::{Misfit, Service};
use history_loss_shown::shown_are_explained;
pub use judging::Verdict;
pub use recorded::SessionHistory;
use register::codes_tell;

/// What passes is explained.
pub fn passed_are_explained()
    ensures { PassedAreExplained }
{
    codes_tell();
    shown_are_explained();
}
