//! Runs worked by hand, on a disk of 4,096 sectors.

use crate::layout::{Layout, NONE_BAD};
use crate::steps::{On, Step, Target};
use compose::{Handle, Id};
use std::alloc::{AllocError, Global};

/// A run worked by hand.
pub struct Row {
    pub name: &'static str,
    /// A bad sector, if one is.
    bad: u64,
    begins: &'static [Step],
    /// How often the piece on tag 0 then comes back busy.
    busy: usize,
    ends: &'static [Step],
}

impl Row {
    /// Two partitions of 1,024 sectors, two tags, and two requests at work at once.
    pub fn layout(&self) -> Layout {
        Layout {
            sectors: 4096,
            partitions: [(2048, 1024), (3072, 1024), (0, 0), (0, 0)],
            bad: [self.bad, NONE_BAD],
            max_transfer: 64,
            depth: 2,
            write_protected: false,
            window: 2,
            open_requests: 64,
        }
    }

    /// All steps of the run.
    pub fn steps(&self, alloc: Global) -> Result<Vec<Step>, AllocError> {
        let mut steps = Vec::from_slice(alloc, self.begins)?;
        for _ in 0..self.busy {
            steps.push(Step::Finish(0))?;
        }
        steps.extend_from_slice(self.ends)?;
        Ok(steps)
    }
}

/// The first handle that a stack gives.
pub const FIRST: On = On::Made(Handle { slot: 0, number: 1 });

const ONE: Target = Target::Made(Id { slot: 0, number: 1 });

const WRITE: [Step; 2] = [Step::Open(0), Step::Write(FIRST, 0, 512, 0xA5, false)];

const SERVE: [Step; 2] = [Step::Act(0), Step::Finish(0)];

const SERVE_BOTH: [Step; 4] = [Step::Act(0), Step::Finish(0), Step::Act(1), Step::Finish(1)];

/// All rows: a write of four pieces, two of them started, is cancelled; a read of three pieces, the second over a bad
/// sector; a write that comes back busy sixteen times, and then acts, or seventeen times; a removal with one read at work
/// and one held.
pub const ROWS: [Row; 5] = [
    Row {
        name: "four pieces, cancelled",
        bad: NONE_BAD,
        begins: &[
            Step::Open(0),
            Step::Write(FIRST, 0, 131_072, 0xA5, false),
            Step::Cancel(FIRST, ONE),
        ],
        busy: 0,
        ends: &SERVE_BOTH,
    },
    Row {
        name: "a bad sector",
        bad: 2120,
        begins: &[
            Step::Open(0),
            Step::Read(FIRST, 0, 98_304),
            Step::Act(0),
            Step::Finish(0),
            Step::Act(1),
            Step::Finish(1),
        ],
        busy: 0,
        ends: &SERVE,
    },
    Row {
        name: "busy sixteen times",
        bad: NONE_BAD,
        begins: &WRITE,
        busy: 16,
        ends: &SERVE,
    },
    Row {
        name: "busy too often",
        bad: NONE_BAD,
        begins: &WRITE,
        busy: 17,
        ends: &[],
    },
    Row {
        name: "a removal",
        bad: NONE_BAD,
        begins: &[
            Step::Open(0),
            Step::Remove,
            Step::Read(FIRST, 0, 512),
            Step::QueryRemove,
            Step::Read(FIRST, 512, 512),
            Step::Remove,
        ],
        busy: 0,
        ends: &[Step::Act(0), Step::Finish(0), Step::Read(FIRST, 0, 512)],
    },
];
