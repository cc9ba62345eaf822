//! A judge of one register: it says of what was seen of it, calls and answers, whether some schedule explains them.
//!
//! It lets no operation take effect before an end asks for it, and keeps of each state that the register may have what may
//! have taken effect unseen (`specs/inside/States`): so many open writes are one state. Where the bytes of a write were not
//! recorded, the state that it leaves has any value until a read tells it.
//!
//! # Promises
//!
//! `judge` passes only what some schedule explains, refuses only what none does, and tells how many sights suffice
//! (`right`). It is `Undecided` with more than 1,024 states left, or where numbers don't rise or what isn't open ends. An
//! `Observed` takes sights one by one (`see`), and says the same of those so far (`so_far`). It keeps what is open, and the
//! values that the register may have: bytes that none of its states has are freed.
#![tactic(auto)]

mod covering;
mod keeping;
mod observed;
mod states;

ghost use Rattle.std.specs.Prelude.{IfOk};
ghost use Rattle.register_judge.specs.Verdicts.{IsRight};

use keeping::Register;
pub use observed::{Observed, SoFar};
use register::{Contents, Sight};
use std::alloc::{AllocError, Global};

/// What the judge says of some sights.
#[derive(Debug, Clone, Copy, PartialEq, Eq)]
pub enum Verdict {
    /// Some schedule explains them.
    Passed,
    /// The first so many have no schedule.
    Refused { sights: usize },
    /// The register may have too many states, numbers don't rise, or what isn't open ends.
    Undecided,
}

/// Judges what was seen of a register that had this value at the start.
pub fn judge(alloc: Global, start: &Contents, sights: &[Sight]) -> Result<Verdict, AllocError>
    ensures right { IfOk result (λ verdict. IsRight start.now sights.now verdict) }
{
    let mut register = Register::new(alloc, start)?;
    for (index, sight) in sights.iter().enumerate() {
        if !register.see(alloc, sight)? {
            return Ok(Verdict::Undecided);
        }
        if register.has_none() {
            return Ok(Verdict::Refused { sights: index + 1 });
        }
    }
    Ok(Verdict::Passed)
}
