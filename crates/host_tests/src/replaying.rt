//! What a trace, its rows and the entries of a journal have to do with one another, and rounds of clients in threads of
//! their own.

use crate::disks::{disk, start_for};
use crate::expect::same;
use disk::Medium;
use journal_replay::ReplayFault;
use machine::Label;
use rounds::{Disk, Done, Plan, RoundsFault, run};
use sector::Extent;
use sector_journal::Entered;
use srb::DeviceLabel;
use std::alloc::{AllocError, Global};
use std::process::Abort;
use std::sync::Wait;
use std::test::Fail;
use std::thread::Threads;
use traced::{Row, TraceEntry};

/// The first sectors of both partitions.
const MOVED: [Extent; 2] = [
    Extent {
        first: 2048,
        count: 64,
    },
    Extent {
        first: 3072,
        count: 64,
    },
];

/// Replays the entries, one after the other, on a disk as it was. Each read gives the bytes of its entry, and in the
/// end the sectors are those of the journal's medium.
pub(crate) fn replay<M: Medium>(
    rt: &impl Abort,
    alloc: Global,
    medium: M,
    entries: &[Entered],
) -> Result<(), AllocError> {
    let mut medium = medium;
    let mut fresh = disk(alloc, &[])?;
    match journal_replay::replay(alloc, entries, &mut fresh, &mut medium, &MOVED) {
        Ok(()) => Ok(()),
        Err(ReplayFault::NoMemory) => Err(AllocError),
        Err(fault) => panic!(rt; "{fault}"),
    }
}

/// The acts of a trace are of all entries, in order.
pub(crate) fn compare_acts(rt: &impl Abort, trace: &[TraceEntry], entries: &[Entered]) {
    let mut entries = entries.iter();
    for entry in trace {
        if let Label::Device(DeviceLabel::Act { piece, bytes }) = &entry.label {
            let Some(entered) = entries.next() else {
                panic!(rt; "more acts than entries")
            };
            assert!(rt; *piece == entered.entry.piece);
            assert!(rt; bytes.as_slice() == entered.entry.bytes.as_slice());
        }
    }
    assert!(rt; entries.next().is_none(), "more entries than acts");
}

/// The places of a row in a trace.
pub(crate) fn places_of(
    alloc: Global,
    trace: &[TraceEntry],
    row: usize,
) -> Result<Vec<usize>, AllocError> {
    let mut places = Vec::new(alloc);
    for (place, entry) in trace.iter().enumerate() {
        if entry.row == Some(row) {
            places.push(place)?;
        }
    }
    Ok(places)
}

/// Both rows beside a trace have the places that they have in it.
pub(crate) fn compare_rows(
    rt: &impl Abort,
    alloc: Global,
    trace: &[TraceEntry],
    rows: Vec<Row>,
) -> Result<(), AllocError> {
    let mut rows = rows;
    let (Some(second), Some(first), None) = (rows.pop(), rows.pop(), rows.pop()) else {
        panic!(rt; "not two rows")
    };
    same(rt, &first.into_places(), &places_of(alloc, trace, 0)?);
    same(rt, &second.into_places(), &places_of(alloc, trace, 1)?);
    Ok(())
}

const PLAN: Plan = Plan {
    clients: 2,
    rounds: 3,
    depth: 2,
    write_protected: false,
};

// Two clients write and read three times each: each call has an entry, and they replay to the sectors.
fn run_and_replay<M: Medium + Send, R: Threads + Wait + Sync + Abort>(
    rt: &R,
    alloc: Global,
    medium: M,
) -> Result<(), AllocError> {
    let (stack, sizes) = start_for(rt, alloc, &medium, 2)?;
    let over = Disk {
        stack,
        medium,
        sizes,
        slots: 64,
    };
    match run(rt, alloc, over, PLAN) {
        Ok(done) => {
            let Done {
                tally,
                trace: _,
                entries,
                medium,
            } = done;
            assert!(rt; tally.answered == 12 && tally.differing == 0);
            assert!(rt; entries.len() == 12);
            replay(rt, alloc, medium, entries.as_slice())
        }
        Err(RoundsFault::NoMemory) => Err(AllocError),
        Err(fault) => panic!(rt; "{fault}"),
    }
}

#[test]
fn twelve_entries_replay(rt: HostRuntime) -> Result<(), Fail> {
    let alloc = rt.alloc();
    run_and_replay(&rt, alloc, disk(alloc, &[])?)?;
    Ok(())
}
