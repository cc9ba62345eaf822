//! What one sector saw over sessions, that has a schedule, and that has none.

use history_loss_kept::{Outcome, Shared, Wait};
use history_loss_sector::{Answered, Judged, Seen, SharedAt, Turned};
use ntstatus::NtStatus;
use register::Contents;
use register_loss::{Sight, What};
use register_loss_judge::SoFar;
use std::alloc::{AllocError, Global};
use std::test::Fail;

/// What a sector of one byte sees, line by line.
enum Step {
    Write {
        number: u64,
        value: u8,
    },
    /// With FUA, and how it ends for all sectors.
    Through {
        number: u64,
        value: u8,
        outcome: Outcome,
    },
    /// A read that has the sector at this place.
    Read {
        number: u64,
        place: u64,
    },
    /// A flush, and how it ends.
    Flush {
        number: u64,
        outcome: Outcome,
    },
    Done {
        number: u64,
    },
    Brings {
        number: u64,
        bytes: &'static [u8],
    },
    Fails {
        number: u64,
    },
    /// The end of a sync, for all sectors.
    Synced {
        number: u64,
        is_success: bool,
    },
    /// The answer to a write with FUA, whose end all sectors see.
    Passes {
        number: u64,
    },
    Lost,
    Ended,
}

/// What is to be known of a sector.
#[derive(Clone, Copy)]
enum Wanted {
    Passed,
    /// Nothing explains it behind this line.
    Refused { line: u64 },
    /// A sync that did not succeed is what explains it.
    Unsteady,
}

/// What a sector saw that had 7 at the start, and what is known of it.
static CASES: [(&str, &[Step], Wanted); 14] = [
    ("nothing", &[], Wanted::Passed),
    (
        "a read of the start, beside other sectors",
        &[
            Step::Read {
                number: 1,
                place: 1,
            },
            Step::Brings {
                number: 1,
                bytes: &[9, 7, 9],
            },
        ],
        Wanted::Passed,
    ),
    (
        "a read of what nobody wrote",
        &[
            Step::Read {
                number: 1,
                place: 1,
            },
            Step::Brings {
                number: 1,
                bytes: &[7, 9, 7],
            },
        ],
        Wanted::Refused { line: 2 },
    ),
    (
        "a read that failed, and one that waits",
        &[
            Step::Read {
                number: 1,
                place: 0,
            },
            Step::Read {
                number: 2,
                place: 0,
            },
            Step::Fails { number: 1 },
        ],
        Wanted::Passed,
    ),
    (
        "the later of two reads at once is answered first",
        &[
            Step::Write {
                number: 1,
                value: 5,
            },
            Step::Read {
                number: 2,
                place: 0,
            },
            Step::Read {
                number: 3,
                place: 1,
            },
            Step::Brings {
                number: 3,
                bytes: &[0, 5],
            },
            Step::Brings {
                number: 2,
                bytes: &[7, 0],
            },
            Step::Done { number: 1 },
        ],
        Wanted::Passed,
    ),
    (
        "a read behind another sees an older value",
        &[
            Step::Write {
                number: 1,
                value: 5,
            },
            Step::Read {
                number: 2,
                place: 0,
            },
            Step::Brings {
                number: 2,
                bytes: &[5],
            },
            Step::Read {
                number: 3,
                place: 0,
            },
            Step::Brings {
                number: 3,
                bytes: &[7],
            },
            Step::Done { number: 1 },
        ],
        Wanted::Refused { line: 6 },
    ),
    (
        "a loss takes a write back",
        &[
            Step::Write {
                number: 1,
                value: 5,
            },
            Step::Done { number: 1 },
            Step::Lost,
            Step::Read {
                number: 1,
                place: 0,
            },
            Step::Brings {
                number: 1,
                bytes: &[7],
            },
        ],
        Wanted::Passed,
    ),
    (
        "the end of a process takes nothing back",
        &[
            Step::Write {
                number: 1,
                value: 5,
            },
            Step::Done { number: 1 },
            Step::Ended,
            Step::Read {
                number: 1,
                place: 0,
            },
            Step::Brings {
                number: 1,
                bytes: &[7],
            },
        ],
        Wanted::Refused { line: 5 },
    ),
    (
        "a flush behind a write keeps it",
        &[
            Step::Write {
                number: 1,
                value: 5,
            },
            Step::Done { number: 1 },
            Step::Flush {
                number: 2,
                outcome: Outcome::Done,
            },
            Step::Synced {
                number: 2,
                is_success: true,
            },
            Step::Lost,
            Step::Read {
                number: 1,
                place: 0,
            },
            Step::Brings {
                number: 1,
                bytes: &[7],
            },
        ],
        Wanted::Refused { line: 7 },
    ),
    (
        "a flush before a write doesn't",
        &[
            Step::Flush {
                number: 1,
                outcome: Outcome::Done,
            },
            Step::Synced {
                number: 1,
                is_success: true,
            },
            Step::Write {
                number: 2,
                value: 5,
            },
            Step::Done { number: 2 },
            Step::Lost,
            Step::Read {
                number: 1,
                place: 0,
            },
            Step::Brings {
                number: 1,
                bytes: &[7],
            },
        ],
        Wanted::Passed,
    ),
    (
        "a write with FUA stays",
        &[
            Step::Through {
                number: 1,
                value: 5,
                outcome: Outcome::Done,
            },
            Step::Passes { number: 1 },
            Step::Synced {
                number: 1,
                is_success: true,
            },
            Step::Lost,
            Step::Read {
                number: 1,
                place: 0,
            },
            Step::Brings {
                number: 1,
                bytes: &[7],
            },
        ],
        Wanted::Refused { line: 6 },
    ),
    (
        "a flush that failed, with which a write may be gone",
        &[
            Step::Write {
                number: 1,
                value: 5,
            },
            Step::Done { number: 1 },
            Step::Flush {
                number: 2,
                outcome: Outcome::Failed,
            },
            Step::Synced {
                number: 2,
                is_success: false,
            },
            Step::Read {
                number: 3,
                place: 0,
            },
            Step::Brings {
                number: 3,
                bytes: &[7],
            },
        ],
        Wanted::Unsteady,
    ),
    (
        "the same in a session before",
        &[
            Step::Write {
                number: 1,
                value: 5,
            },
            Step::Done { number: 1 },
            Step::Flush {
                number: 2,
                outcome: Outcome::Failed,
            },
            Step::Synced {
                number: 2,
                is_success: false,
            },
            Step::Ended,
            Step::Read {
                number: 1,
                place: 0,
            },
            Step::Brings {
                number: 1,
                bytes: &[7],
            },
        ],
        Wanted::Unsteady,
    ),
    (
        "nothing that others see is seen in a session without own sights",
        &[
            Step::Write {
                number: 1,
                value: 5,
            },
            Step::Done { number: 1 },
            Step::Ended,
            Step::Flush {
                number: 1,
                outcome: Outcome::Done,
            },
            Step::Synced {
                number: 1,
                is_success: true,
            },
            Step::Lost,
            Step::Read {
                number: 1,
                place: 0,
            },
            Step::Brings {
                number: 1,
                bytes: &[5],
            },
        ],
        Wanted::Passed,
    ),
];

/// A sector, and what all sectors see in the session.
#[derive(Drop)]
struct Sector {
    seen: Seen,
    shared: Vec<SharedAt>,
}

fn share(sector: &mut Sector, line: u64, shared: Shared) -> Result<(), AllocError> {
    sector.shared.push(SharedAt { line, shared })?;
    Ok(())
}

fn write(
    alloc: Global,
    sector: &mut Sector,
    line: u64,
    number: u64,
    what: (u8, bool),
) -> Result<(), AllocError> {
    let (value, through) = what;
    let value = Contents::new(alloc, &[value])?;
    let what = What::Write { value, through };
    let wait = Wait::Known(Sight::Call { number, what });
    sector.seen.call(line, sector.shared.len() as u64, wait)
}

fn answer(
    alloc: Global,
    sector: &mut Sector,
    line: u64,
    number: u64,
    ended: (NtStatus, Option<&[u8]>, bool),
) -> Result<(), AllocError> {
    let (status, bytes, is_sync) = ended;
    let answered = Answered {
        line,
        number,
        status,
        bytes,
        behind: sector.shared.len() as u64,
        is_sync,
    };
    sector.seen.answer(alloc, 1, answered)
}

fn turn(alloc: Global, sector: &mut Sector, line: u64, how: Turned) -> Result<(), AllocError> {
    let shared = sector.shared.as_slice();
    sector.seen.turn(alloc, line, shared, how)?;
    sector.shared = Vec::new(alloc);
    Ok(())
}

fn take_call(alloc: Global, sector: &mut Sector, line: u64, step: &Step) -> Result<(), AllocError> {
    match *step {
        Step::Write { number, value } => write(alloc, sector, line, number, (value, false)),
        Step::Through {
            number,
            value,
            outcome,
        } => {
            let call = Shared::Call {
                number,
                is_flush: false,
                outcome,
            };
            share(sector, line, call)?;
            write(alloc, sector, line, number, (value, true))
        }
        Step::Read { number, place } => {
            let behind = sector.shared.len() as u64;
            sector
                .seen
                .call(line, behind, Wait::Awaits { number, place })
        }
        Step::Flush { number, outcome } => {
            let call = Shared::Call {
                number,
                is_flush: true,
                outcome,
            };
            share(sector, line, call)
        }
        _ => Ok(()),
    }
}

fn take_end(alloc: Global, sector: &mut Sector, line: u64, step: &Step) -> Result<(), AllocError> {
    let good = NtStatus::Success;
    match *step {
        Step::Done { number } => answer(alloc, sector, line, number, (good, Some(&[]), false)),
        Step::Brings { number, bytes } => {
            answer(alloc, sector, line, number, (good, Some(bytes), false))
        }
        Step::Fails { number } => {
            let bad = NtStatus::IoDeviceError;
            answer(alloc, sector, line, number, (bad, None, false))
        }
        Step::Passes { number } => answer(alloc, sector, line, number, (good, Some(&[]), true)),
        Step::Synced { number, is_success } => share(
            sector,
            line,
            Shared::End { number, is_success },
        ),
        Step::Lost => turn(alloc, sector, line, Turned::Lost),
        Step::Ended => turn(alloc, sector, line, Turned::Ended),
        _ => Ok(()),
    }
}

fn judged_as(wanted: Wanted) -> Judged {
    let (all, steady, line) = match wanted {
        Wanted::Passed => (SoFar::Passed, SoFar::Passed, 0),
        Wanted::Refused { line } => (SoFar::Refused, SoFar::Refused, line),
        Wanted::Unsteady => (SoFar::Passed, SoFar::Refused, 0),
    };
    Judged { all, steady, line }
}

/// What is known of the sector behind these, of which the line counts only if it is refused.
fn judged_of(alloc: Global, steps: &[Step]) -> Result<Judged, AllocError> {
    let start = Contents::new(alloc, &[7])?;
    let mut sector = Sector {
        seen: Seen::new(alloc, &start)?,
        shared: Vec::new(alloc),
    };
    for (index, step) in steps.iter().enumerate() {
        let line = index as u64 + 1;
        take_call(alloc, &mut sector, line, step)?;
        take_end(alloc, &mut sector, line, step)?;
        sector.seen.judge(alloc, sector.shared.as_slice())?;
    }
    let judged = sector.seen.judge(alloc, sector.shared.as_slice())?;
    Ok(match judged.all {
        SoFar::Refused => judged,
        _ => Judged { line: 0, ..judged },
    })
}

#[test]
fn sectors_are_judged_over_sessions(rt: HostRuntime) -> Result<(), Fail> {
    let alloc = rt.alloc();
    for (name, steps, wanted) in CASES {
        let judged = judged_of(alloc, steps)?;
        assert_eq!(&rt; judged, judged_as(wanted), "{name}");
    }
    Ok(())
}
