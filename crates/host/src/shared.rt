//! What the threads of a host share beside the locks: the table of marks, the gate, and what is known of the disk.

ghost use Rattle.std.specs.Prelude.{◌≡◌, ◌<◌, ◌+◌, Some, length};
ghost use Rattle.host.specs.Opening.{IsDiskOf, IsJournalFor, IsOpening};

use crate::name::HostNaming;
use cancel_marks::Marks;
use disk::Medium;
use remove_lock::Gate;
use sector_journal::Journal;
use std::marker::{Model, PhantomData};

/// The table of marks, with a slot for each request that may be open.
#[derive(Drop)]
pub(crate) struct Table<N: HostNaming> {
    pub marks: Marks,
    pub of: PhantomData<N>,
    pub ghost is: { marks ≡ (N.marks, N.slots) },
    pub ghost slots: { N.rules.open_requests ≡ Some N.slots },
    pub ghost bytes: { 0 < N.rules.sector_size },
    pub ghost opening: { IsOpening N.start },
    pub ghost parts: { N.parts ≡ length N.partitions + 1 },
}

/// The gate that tickets hold.
#[derive(Drop)]
pub(crate) struct HostGate<N: HostNaming> {
    pub lock: Gate,
    pub of: PhantomData<N>,
    pub ghost is: { lock ≡ N.gate },
}

impl<N: HostNaming> Table<N> {
    /// The table of a host whose stack may have as many requests open as it has slots.
    pub(crate) fn new(marks: Marks) -> Table<N>
        requires named { marks ≡ (N.marks, N.slots) }
        requires slots { N.rules.open_requests ≡ Some N.slots }
        requires bytes { 0 < N.rules.sector_size }
        requires opening { IsOpening N.start }
        requires parts { N.parts ≡ length N.partitions + 1 }
    {
        Table {
            marks,
            of: PhantomData,
        }
    }

    /// Shows the caller what is known of the names.
    pub(crate) fn shows_opening(&self)
        ensures slots { N.rules.open_requests ≡ Some N.slots }
        ensures bytes { 0 < N.rules.sector_size }
        ensures opening { IsOpening N.start }
        ensures parts { N.parts ≡ length N.partitions + 1 }
    {}
}

impl<N: HostNaming> HostGate<N> {
    /// The gate that is named.
    pub(crate) fn new(gate: Gate) -> HostGate<N>
        requires named { gate ≡ N.gate }
    {
        HostGate {
            lock: gate,
            of: PhantomData,
        }
    }
}

/// What is known of the sectors that the journal was opened with. Contracts see it as these sectors.
#[derive(Drop)]
pub(crate) struct Disk<N: HostNaming> {
    of: PhantomData<N>,
}

impl<N: HostNaming> Model for Disk<N> {
    ghost use Rattle.std.specs.Prelude.{ℕ, List};
    ghost use Rattle.host.specs.Opening.{IsDiskOf};

    ghost Value = { List (List ℕ) };

    ghost view = { λ d. N.opening };

    ghost invariant = { λ d. IsDiskOf N.rules N.opening };
}

impl<N: HostNaming> Disk<N> {
    /// The sectors of a journal in which nothing was entered.
    pub(crate) fn of<M: Medium>(journal: &Journal<M, N>) -> Disk<N>
        requires disk { IsJournalFor N.rules journal.now }
    {
        journal.shows_rule();
        journal.shows_opening();
        Disk { of: PhantomData }
    }

    /// Shows the caller that these sectors are those of the stack's disk.
    pub(crate) fn shows_disk(&self)
        ensures { IsDiskOf N.rules N.opening }
    {
        let _of = &self.of;
    }
}
