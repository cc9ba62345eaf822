//! Entries that replay, and entries that don't.

ghost use Rattle.std.specs.Prelude.{◌≤◌, length};

use crate::disks::no_memory;
use disk::{Medium, VecDisk};
use journal_replay::{ReplayFault, replay};
use sector::{Bytes, Extent};
use sector_journal::Entered;
use srb::{Entry, Kind};
use std::alloc::{AllocError, Global};
use std::process::Abort;
use std::test::Fail;

/// An entry of one sector: what it did, the sector, a byte, and how many of it.
type Act = (Kind, u64, u8, usize);

/// A name, entries, and what their replay on a disk of zeros comes to.
type Case = (&'static str, &'static [Act], Result<(), ReplayFault>);

/// The sectors that are compared in the end.
static MOVED: [Extent; 2] = [Extent { first: 0, count: 1 }, Extent { first: 1, count: 2 }];

/// The journal's medium has 5 in each byte of sector 1.
static CASES: [Case; 13] = [
    (
        "a write and a read",
        &[
            (Kind::Read, 1, 0, 512),
            (Kind::Write, 1, 5, 512),
            (Kind::Read, 1, 5, 512),
        ],
        Ok(()),
    ),
    (
        "a flush",
        &[(Kind::Write, 1, 5, 512), (Kind::Flush, 0, 0, 0)],
        Ok(()),
    ),
    (
        "a flush of some bytes",
        &[(Kind::Write, 1, 5, 512), (Kind::Flush, 0, 5, 512)],
        Err(ReplayFault::Differs),
    ),
    ("no write", &[], Err(ReplayFault::Differs)),
    (
        "a write of other bytes",
        &[(Kind::Write, 1, 6, 512)],
        Err(ReplayFault::Differs),
    ),
    (
        "a write of another sector",
        &[(Kind::Write, 1, 5, 512), (Kind::Write, 2, 5, 512)],
        Err(ReplayFault::Differs),
    ),
    (
        "a write of the first sector",
        &[(Kind::Write, 1, 5, 512), (Kind::Write, 0, 5, 512)],
        Err(ReplayFault::Differs),
    ),
    (
        "a read of other bytes",
        &[(Kind::Read, 1, 5, 512), (Kind::Write, 1, 5, 512)],
        Err(ReplayFault::Differs),
    ),
    (
        "a read of half a sector",
        &[(Kind::Write, 1, 5, 512), (Kind::Read, 1, 5, 256)],
        Err(ReplayFault::Differs),
    ),
    (
        "a read of a sector and a half",
        &[(Kind::Write, 1, 5, 512), (Kind::Read, 1, 5, 768)],
        Err(ReplayFault::Differs),
    ),
    (
        "a bad sector",
        &[(Kind::Write, 1, 5, 512), (Kind::Read, 3, 0, 512)],
        Err(ReplayFault::Unfit),
    ),
    (
        "a sector past the end",
        &[(Kind::Write, 4, 5, 512)],
        Err(ReplayFault::Unfit),
    ),
    (
        "half a sector",
        &[(Kind::Write, 1, 5, 256)],
        Err(ReplayFault::Unfit),
    ),
];

/// A disk of four sectors that begins with these bytes. The last sector is bad.
fn disk(alloc: Global, first: &[u8]) -> Result<VecDisk, AllocError>
    requires { length first.now ≤ 2048 }
{
    let bad = Vec::from_slice(alloc, &[3])?;
    VecDisk::starting_with(alloc, 512, 4, first, bad).map_err(no_memory)
}

/// A disk with 5 in each byte of sector 1.
fn disk_after(alloc: Global) -> Result<VecDisk, AllocError> {
    let mut first = [0; 1024];
    first[512..].fill(5);
    disk(alloc, &first)
}

/// The entries of these acts.
fn entries(alloc: Global, acts: &[Act]) -> Result<Vec<Entered>, AllocError> {
    let mut entries = Vec::new(alloc);
    for (kind, first, byte, length) in acts {
        let bytes = Bytes::new(vec![in alloc; *byte; *length]?);
        let count = if *kind == Kind::Flush { 0 } else { 1 };
        let entry = Entry {
            piece: 1,
            tag: 0,
            extent: Extent {
                first: *first,
                count,
            },
            kind: *kind,
            bytes,
        };
        entries.push(Entered { arming: 0, entry })?;
    }
    Ok(entries)
}

/// What the replay of these acts comes to.
fn outcome<F: Medium, M: Medium>(
    alloc: Global,
    acts: &[Act],
    fresh: &mut F,
    medium: &mut M,
) -> Result<Result<(), ReplayFault>, AllocError> {
    let entries = entries(alloc, acts)?;
    match replay(alloc, entries.as_slice(), fresh, medium, &MOVED) {
        Err(ReplayFault::NoMemory) => Err(AllocError),
        outcome => Ok(outcome),
    }
}

fn outcome_of(alloc: Global, acts: &[Act]) -> Result<Result<(), ReplayFault>, AllocError> {
    let mut fresh = disk(alloc, &[])?;
    let mut medium = disk_after(alloc)?;
    outcome(alloc, acts, &mut fresh, &mut medium)
}

fn check(rt: &impl Abort, alloc: Global, case: &Case) -> Result<(), AllocError> {
    let (name, acts, wanted) = *case;
    let outcome = outcome_of(alloc, acts)?;
    assert_eq!(rt; outcome, wanted, "{name}");
    Ok(())
}

#[test]
fn entries_replay(rt: HostRuntime) -> Result<(), Fail> {
    for case in &CASES {
        check(&rt, rt.alloc(), case)?;
    }
    Ok(())
}
