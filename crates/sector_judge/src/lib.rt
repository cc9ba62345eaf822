//! What one sector may hold over several sessions, by what is told of it, each value as a number that stands for it.
//!
//! Between two sessions power was lost or the process ended, and what that left is not told. A read that gives what
//! can't be there is refused, and no other is.
//!
//! # Promises
//!
//! [`Known`] takes events one by one (`take`), and has just what the sector may hold behind them: `judges_exactly` says
//! so of all lists of events, both ways. `judge` passes only what can have happened to some sector, and refuses only
//! what can't (`right`).
#![tactic(auto)]

mod candidates;
mod known;

ghost use Rattle.std.specs.Prelude.{IfOk};
ghost use Rattle.sector_judge.specs.Known.{JudgesExactly};
ghost use Rattle.sector_judge.specs.Verdicts.{IsRight};

pub use candidates::Candidate;
pub use known::Known;
use std::alloc::{AllocError, Global};

/// What happens to a sector, or is told of it.
#[derive(Debug, Clone, Copy, PartialEq, Eq)]
pub enum Event {
    /// A write put this value there; the next piece to start has this number.
    Put { value: u64, next: u128 },
    /// A write put it there, past volatile caches.
    Secured { value: u64 },
    /// A write failed that may have put it there, or was cut off.
    Tried { value: u64 },
    /// The flush of this piece is done.
    Synced { flush: u128 },
    /// A flush or a write past volatile caches failed, or was cut off.
    Doubted,
    /// A read gave this value.
    Given { value: u64 },
    /// Power was lost, and a session began anew.
    Lost,
    /// The process ended, and a session began anew.
    Ended,
}

/// What the judge says of some events.
#[derive(Debug, Clone, Copy, PartialEq, Eq)]
pub enum Verdict {
    /// They can have happened.
    Passed,
    /// The first so many can't.
    Refused { events: usize },
}

/// Judges what happened to a sector of which nothing is known at first.
pub fn judge(alloc: Global, events: &[Event]) -> Result<Verdict, AllocError>
    ensures right { IfOk result (λ verdict. IsRight events.now verdict) }
{
    let mut known = Known::nothing(alloc)?;
    for (index, event) in events.iter().enumerate() {
        if !known.take(alloc, *event)? {
            return Ok(Verdict::Refused { events: index + 1 });
        }
    }
    Ok(Verdict::Passed)
}

/// From some first value on, events lead to just what is known behind them.
pub fn judges_exactly()
    ensures { JudgesExactly }
{}
