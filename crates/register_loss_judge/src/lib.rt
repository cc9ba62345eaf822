//! A judge of one register over several sessions: it says of what was seen of it, losses of power among it, whether some
//! schedule explains that.
//!
//! It keeps each state that the register may have, with all that open operations may have done unseen. A state goes where
//! whatever may come of it may come of another one that is left (`specs/inside/Covering`).
//!
//! # Promises
//!
//! `judge` passes only what some schedule explains, refuses only what none does, and tells how many sights suffice
//! (`right`). It is `Undecided` where the register may have 512 states or more: from five writes on that are open at once.
//! An `Observed` takes sights one by one (`see`), and says the same of those so far (`so_far`).
#![tactic(auto)]

mod closing;
mod covering;
mod observed;
mod states;
mod turning;
mod values;

ghost use Rattle.std.specs.Prelude.{IfOk};
ghost use Rattle.register_loss_judge.specs.Verdicts.{IsRight};

use closing::see;
pub use observed::{Observed, SoFar};
use register::Contents;
use register_loss::Sight;
use states::opening;
use std::alloc::{AllocError, Global};

/// What the judge says of some sights.
#[derive(Debug, Clone, Copy, PartialEq, Eq)]
pub enum Verdict {
    /// Some schedule explains them.
    Passed,
    /// The first so many have no schedule.
    Refused { sights: usize },
    /// The register may have too many states.
    Undecided,
}

/// Judges what was seen of a register that had this value at the start.
///
/// # Errors
///
/// [`AllocError`] where memory was refused.
pub fn judge(alloc: Global, start: &Contents, sights: &[Sight]) -> Result<Verdict, AllocError>
    ensures right { IfOk result (λ verdict. IsRight start.now sights.now verdict) }
{
    let mut states = Vec::new(alloc);
    states.push(opening(alloc, start)?)?;
    for (index, sight) in sights.iter().enumerate() {
        let Some(next) = see(alloc, sight, states.as_slice())? else {
            return Ok(Verdict::Undecided);
        };
        states = next;
        if states.is_empty() {
            return Ok(Verdict::Refused { sights: index + 1 });
        }
    }
    Ok(Verdict::Passed)
}
