//! Clients of one stack, each in a thread of its own, which write, read and compare in rounds, over lanes and a
//! completion worker. A program with clients of its own starts the lanes by [`start_lanes`], and ends them by
//! [`remove`].
//!
//! # Promises
//!
//! `remove`: which receipts the keeper has then (`told`), and that the device goes (`removed`). `run`: no more succeed
//! than two a round and client (`most`); the tally is what the clients' answers in the trace brought, round by round
//! (`tallied`); the journal's entries give the sectors (`replays`); the trace is a faithful run
//! (`run`); a partition is missed only where there is none (`fault`).
#![tactic(auto)]

mod client;
mod threads;

ghost use Rattle.std.specs.Prelude.{◌≡◌, ◌≤◌, ◌*◌, IfErr, IfOk, IsFalse, Some};
ghost use Rattle.sector_journal.specs.Journal.{entries_in};
ghost use Rattle.srb.specs.Replaying.{Replays};
ghost use Rattle.traced.specs.Entries.{labels_of};
ghost use Rattle.traced.specs.Opening.{IsNew};
ghost use Rattle.traced.specs.Sizes.{AreSizes, sizes_of};
ghost use Rattle.host.specs.Closing.{IsFaithfulRun};
ghost use Rattle.host.specs.Opening.{IsDiskFor};
ghost use Rattle.rounds.specs.Faults.{IsRoundsFault};
ghost use Rattle.rounds.specs.Tallies.{IsTallied};

use crate::threads::{Blank, serve};
pub use crate::threads::{Lanes, remove, start_lanes};
use compose::Stack;
use disk::Medium;
use host::{HostFault, Opened};
use miniport::BookedAdapter;
use sector_journal::Entered;
use std::alloc::Global;
use std::marker::Brand;
use std::sync::Wait;
use std::thread::Threads;
use thiserror::Error;
use traced::{StackSizes, TraceEntry};

/// What the clients do.
#[derive(Clone, Copy, Drop)]
pub struct Plan {
    /// How many clients there are, 1 to 32.
    pub clients: u16,
    /// How many rounds each client does, of two calls.
    pub rounds: u16,
    /// How many lanes there are, one for each tag of the adapter, 1 to 32.
    pub depth: u8,
    /// Whether the disk fails each write as WRITE PROTECTED.
    pub write_protected: bool,
}

/// A disk for the clients: its stack as it was started, beside the medium of its sectors.
pub struct Disk<M: Medium> {
    pub stack: Stack<BookedAdapter>,
    pub medium: M,
    /// The stack's sizes.
    pub sizes: StackSizes,
    /// How many requests may be open.
    pub slots: usize,
}

/// What came of the rounds.
#[derive(Clone, Copy, Drop)]
pub struct Tally {
    /// How many calls were answered with success.
    pub answered: u64,
    /// How many reads succeeded with other bytes than their client wrote in that round.
    pub differing: u64,
}

/// What is left of the rounds: their tally, the trace, what acts did to the sectors, in order, and the medium.
#[derive(Drop)]
pub struct Done<M: Medium> {
    pub tally: Tally,
    pub trace: Vec<TraceEntry>,
    pub entries: Vec<Entered>,
    pub medium: M,
}

/// Why there is no tally.
#[derive(Debug, Drop, Error)]
pub enum RoundsFault {
    /// The stack has no partition 0.
    #[error("no such partition")]
    NoPartition,
    /// Memory was refused, or a thread could not be started.
    #[error("no memory")]
    NoMemory,
}

/// Runs clients on partition 0 of a stack, beside a journal of the medium's sectors, and removes the device. Client c
/// writes in round j its sector c full of the byte (c + j) mod 256, waits, reads the sector, waits and compares.
/// Clients and rounds count from 0.
///
/// # Errors
///
/// [`RoundsFault::NoPartition`]; [`RoundsFault::NoMemory`] where memory was refused or a thread could not be started.
pub fn run<M: Medium + Send, R: Threads + Wait + Sync>(
    rt: &R,
    alloc: Global,
    over: Disk<M>,
    plan: Plan,
) -> Result<Done<M>, RoundsFault>
    requires new { IsNew over.stack }
    requires apart { IsFalse over.stack.adapter.faithful }
    requires unfailed { (M.view over.medium).failures ≡ 0 }
    requires disk { IsDiskFor over.stack.rules (M.view over.medium) }
    requires sizes { (over.sizes ≡ sizes_of over.stack.rules) × AreSizes over.sizes }
    requires slots { over.stack.rules.open_requests ≡ Some over.slots }
    requires depth { plan.depth ≡ over.stack.rules.depth }
    requires plan { (1 ≤ plan.clients) × (plan.clients ≤ 32) × (1 ≤ plan.depth) × (plan.depth ≤ 32) }
    ensures most { IfOk result (λ done. done.tally.answered ≤ 2 * (plan.clients * plan.rounds)) }
    ensures tallied { IfOk result (λ done. IsTallied plan.clients plan.rounds done.trace.items done.tally) }
    ensures replays { IfOk result (λ done. Replays (M.view done.medium).sector_size (M.view over.medium).sectors (entries_in done.entries.items) (M.view done.medium).sectors) }
    ensures run { IfOk result (λ done. IsFaithfulRun over.stack.rules (M.view over.medium).sectors (labels_of done.trace.items) done.entries.items (M.view done.medium).sectors) }
    ensures fault { IfErr result (IsRoundsFault over.stack.rules) }
{
    let Disk {
        stack,
        medium,
        sizes,
        slots,
    } = over;
    let Ok(partitions) = Vec::from_elem(alloc, 0, usize::from(plan.clients)) else {
        return Err(RoundsFault::NoMemory);
    };
    match Opened::new(alloc, stack, sizes, slots, partitions.as_slice()) {
        Ok(opened) => match sector_journal::Opened::new(alloc) {
            Ok(histories) => {
                let blank = Blank { histories, medium };
                serve::<M, Brand, R>(rt, alloc, opened, blank, plan)
            }
            Err(_) => {
                opened.end();
                Err(RoundsFault::NoMemory)
            }
        },
        Err(HostFault::NoMemory) => Err(RoundsFault::NoMemory),
        Err(HostFault::NoPartition) => Err(RoundsFault::NoPartition),
        // There are 32 clients at most.
        Err(HostFault::TooManyClients) => unreachable!(),
    }
}
