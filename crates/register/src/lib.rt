//! What was seen of one register, calls and answers, and its schedules: moments between each call and its answer at
//! which the operations take effect one after the other (Herlihy and Wing: linearizations).
//!
//! An operation that failed or was never answered may have taken effect, once, before its end.
//!
//! # Promises
//!
//! Values are bytes (`Contents`), of which contracts see a number that differs where they do (`codes_tell`). No bytes, whose
//! number is 0, stand for those that were not recorded.
#![tactic(auto)]

mod contents;

ghost use Rattle.register.specs.Schedules.{PrefixesAreScheduled};
ghost use Rattle.register.specs.Values.{CodesTell};

pub use contents::Contents;

/// What is seen of a register. Where a value is no bytes, its bytes were not recorded: such a write may take effect with
/// any, and such a read may have had any.
#[derive(Drop)]
pub enum Sight {
    /// A write of this value is called.
    Write { number: u64, value: Contents },
    /// A read is called that will succeed with this value.
    Read { number: u64, value: Contents },
    /// The operation succeeds.
    Done { number: u64 },
    /// The operation fails.
    Failed { number: u64 },
}

/// What has a schedule had one at each moment before.
pub fn prefixes_are_scheduled()
    ensures { PrefixesAreScheduled }
{}

/// Different bytes have different numbers.
#[tactic(auto, using(crate::proofs::Coding::codes_tell))]
pub fn codes_tell()
    ensures { CodesTell }
{}
