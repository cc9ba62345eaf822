//! What was seen of one register over several sessions, between which power was lost or its process ended, and its
//! schedules: moments at which its operations take effect, or fail.
//!
//! A register has what a read may give, and older values that a loss may leave besides, each with the number of the next
//! call when it was overwritten. A flush that succeeds ends those from before its call. One that fails, as a failed
//! write past volatile caches (SBC: FUA), leaves it open which of them stands there.
//!
//! # Promises
//!
//! What has a schedule had one at each moment before (`prefixes_are_scheduled`). `works_out` has schedules, and what has
//! none, by hand.
#![tactic(auto)]

ghost use Rattle.register_loss.specs.Schedules.{PrefixesAreScheduled};
ghost use Rattle.register_loss.specs.Worked.{AreChangedByHand, AreRefutedByHand, AreScheduledByHand};

use register::Contents;

/// What an operation is to do.
#[derive(Drop)]
pub enum What {
    /// A read that will succeed with this value.
    Read { value: Contents },
    /// A write of this value. One `through` volatile caches, with FUA, is called as [`What::Sync`], too.
    Write { value: Contents, through: bool },
    /// A flush.
    Flush,
    /// A write with FUA, of whatever registers: it may fail at any of them.
    Sync,
}

/// An operation that was called and not yet answered. A read leaves when it is given its value, a write when it takes
/// effect.
#[derive(Drop)]
pub struct Open {
    pub number: u64,
    pub what: What,
    pub failed: bool,
}

/// What an open operation does unseen.
#[derive(Debug, Clone, Copy, PartialEq, Eq)]
pub enum Turn {
    /// It takes effect.
    Acts,
    /// It fails: a write may have left its value, a sync any older one.
    Fails,
}

/// What is seen of a register. Calls count from 1 in each session.
#[derive(Drop)]
pub enum Sight {
    Call { number: u64, what: What },
    /// A call that is no matter of the register, or a read that won't succeed.
    Elsewhere { number: u64 },
    /// The operation succeeds.
    Done { number: u64 },
    /// The operation fails.
    Failed { number: u64 },
    /// Power was lost, and a session began anew.
    Lost,
    /// The process ended, and a session began anew.
    Ended,
}

/// What has a schedule had one at each moment before.
pub fn prefixes_are_scheduled()
    ensures { PrefixesAreScheduled }
{}

/// What sights and turns make of a register, schedules and what is none, worked out by hand.
pub fn works_out()
    ensures changes { AreChangedByHand }
    ensures scheduled { AreScheduledByHand }
    ensures refuted { AreRefutedByHand }
{}
