//! Histories over sessions that are legal, and such that are not.

use history_loss_judge::{Misfit, Service, SessionHistory, Verdict};
use machine::{ClientRequest, Kind, Label};
use ntstatus::NtStatus;
use sector::{Bytes, Extent};
use std::alloc::{AllocError, Global};
use std::test::Fail;

/// A line. A sector has two bytes, and the first of the partition is sector 1 of the disk.
enum Step {
    Write {
        number: u64,
        sector: u64,
        through: bool,
        bytes: &'static [u8],
    },
    Read {
        number: u64,
        sector: u64,
    },
    Flush {
        number: u64,
    },
    /// A success that brings bytes, or none.
    Good {
        number: u64,
        bytes: &'static [u8],
    },
    Written {
        number: u64,
    },
    Bad {
        number: u64,
    },
    Busy {
        number: u64,
    },
    /// A request that is refused is answered.
    Invalid {
        number: u64,
    },
    Lost,
    Ended,
}

/// Two bytes are written to the first sector, which is answered.
const WRITE: [Step; 2] = [
    Step::Write {
        number: 1,
        sector: 0,
        through: false,
        bytes: &[1, 2],
    },
    Step::Written { number: 1 },
];

/// The same past volatile caches.
const THROUGH: [Step; 2] = [
    Step::Write {
        number: 1,
        sector: 0,
        through: true,
        bytes: &[1, 2],
    },
    Step::Written { number: 1 },
];

/// A flush that succeeds.
const FLUSHED: [Step; 2] = [
    Step::Flush { number: 2 },
    Step::Good {
        number: 2,
        bytes: &[],
    },
];

/// The first sector has zeros.
const ZEROS: [Step; 2] = [
    Step::Read {
        number: 1,
        sector: 0,
    },
    Step::Good {
        number: 1,
        bytes: &[0, 0],
    },
];

/// It has what was written.
const KEPT: [Step; 2] = [
    Step::Read {
        number: 1,
        sector: 0,
    },
    Step::Good {
        number: 1,
        bytes: &[1, 2],
    },
];

/// What clients saw of four sectors of zeros, in parts, and the verdict.
static CASES: [(&str, &[&[Step]], Verdict); 19] = [
    (
        "what was flushed stands there",
        &[&WRITE, &FLUSHED, &[Step::Lost], &KEPT],
        Verdict::Passed,
    ),
    (
        "what was flushed is lost",
        &[&WRITE, &FLUSHED, &[Step::Lost], &ZEROS],
        Verdict::Refused { sector: 1, line: 6 },
    ),
    (
        "what was not flushed is lost",
        &[&WRITE, &[Step::Lost], &ZEROS],
        Verdict::Passed,
    ),
    (
        "what was lost stands there again",
        &[&WRITE, &[Step::Lost], &ZEROS, &[Step::Lost], &KEPT],
        Verdict::Refused { sector: 1, line: 7 },
    ),
    (
        "a process that ends loses nothing",
        &[&WRITE, &[Step::Ended], &ZEROS],
        Verdict::Refused { sector: 1, line: 4 },
    ),
    (
        "what stands in a cache outlives the process, not the loss",
        &[&WRITE, &[Step::Ended], &KEPT, &[Step::Lost], &ZEROS],
        Verdict::Refused { sector: 1, line: 7 },
    ),
    (
        "a write past volatile caches is lost",
        &[&THROUGH, &[Step::Lost], &ZEROS],
        Verdict::Refused { sector: 1, line: 4 },
    ),
    (
        "it stands there",
        &[&THROUGH, &[Step::Lost], &KEPT],
        Verdict::Passed,
    ),
    (
        "a write was open when power was lost",
        &[
            &[Step::Write {
                number: 1,
                sector: 0,
                through: true,
                bytes: &[1, 2],
            }],
            &[Step::Lost],
            &KEPT,
            &[Step::Lost],
            &KEPT,
        ],
        Verdict::Passed,
    ),
    (
        "a flush was cut off",
        &[&WRITE, &[Step::Flush { number: 2 }, Step::Lost], &ZEROS],
        Verdict::Passed,
    ),
    (
        "a flush fails, and what was written is lost",
        &[
            &WRITE,
            &[
                Step::Flush { number: 2 },
                Step::Bad { number: 2 },
                Step::Lost,
            ],
            &ZEROS,
        ],
        Verdict::Passed,
    ),
    (
        "a flush fails, and an older value is read at once",
        &[
            &WRITE,
            &[
                Step::Flush { number: 2 },
                Step::Bad { number: 2 },
                Step::Read {
                    number: 3,
                    sector: 0,
                },
                Step::Good {
                    number: 3,
                    bytes: &[0, 0],
                },
            ],
        ],
        Verdict::Open { sector: 1 },
    ),
    (
        "a busy write may have acted",
        &[
            &[
                Step::Write {
                    number: 1,
                    sector: 0,
                    through: false,
                    bytes: &[1, 2],
                },
                Step::Busy { number: 1 },
                Step::Ended,
            ],
            &KEPT,
        ],
        Verdict::Passed,
    ),
    (
        "numbers go on over a loss",
        &[
            &WRITE,
            &[
                Step::Lost,
                Step::Read {
                    number: 2,
                    sector: 0,
                },
            ],
        ],
        Verdict::Misfit {
            line: 3,
            why: Misfit::Number,
        },
    ),
    (
        "what was open before a loss is answered",
        &[&[
            Step::Flush { number: 1 },
            Step::Lost,
            Step::Good {
                number: 1,
                bytes: &[],
            },
        ]],
        Verdict::Misfit {
            line: 2,
            why: Misfit::NotOpen,
        },
    ),
    (
        "a write beyond the end is answered",
        &[&[
            Step::Read {
                number: 1,
                sector: 4,
            },
            Step::Invalid { number: 1 },
            Step::Lost,
        ]],
        Verdict::Passed,
    ),
    (
        "power is lost before that",
        &[
            &[
                Step::Read {
                    number: 1,
                    sector: 4,
                },
                Step::Lost,
            ],
            &ZEROS,
        ],
        Verdict::Owing { line: 1 },
    ),
    (
        "no answer came yet",
        &[&[Step::Read {
            number: 1,
            sector: 4,
        }]],
        Verdict::Owing { line: 0 },
    ),
    (
        "two writes race, one wins, and then the other",
        &[&[
            Step::Write {
                number: 1,
                sector: 0,
                through: false,
                bytes: &[1, 2],
            },
            Step::Write {
                number: 2,
                sector: 0,
                through: false,
                bytes: &[3, 4],
            },
            Step::Written { number: 1 },
            Step::Written { number: 2 },
            Step::Read {
                number: 3,
                sector: 0,
            },
            Step::Good {
                number: 3,
                bytes: &[1, 2],
            },
            Step::Flush { number: 4 },
            Step::Good {
                number: 4,
                bytes: &[],
            },
            Step::Ended,
            Step::Read {
                number: 1,
                sector: 0,
            },
            Step::Good {
                number: 1,
                bytes: &[3, 4],
            },
        ]],
        Verdict::Refused {
            sector: 1,
            line: 10,
        },
    ),
];

fn request(kind: Kind, sector: u64, length: u64, through: bool, bytes: Bytes) -> ClientRequest {
    ClientRequest {
        partition: Some(0),
        kind,
        offset: sector.saturating_mul(2),
        length,
        through,
        bytes,
    }
}

fn answer(number: u64, status: NtStatus, information: u64, bytes: Bytes) -> Label {
    Label::Answer {
        number,
        status,
        information,
        bytes,
    }
}

/// The label of a step, unless a session ends there.
fn label_of(alloc: Global, step: &Step) -> Result<Option<Label>, AllocError> {
    let none = Bytes::new(Vec::new(alloc));
    Ok(Some(match *step {
        Step::Write {
            number,
            sector,
            through,
            bytes,
        } => {
            let bytes = Bytes::new(Vec::from_slice(alloc, bytes)?);
            Label::Call {
                number,
                request: request(Kind::Write, sector, 2, through, bytes),
            }
        }
        Step::Read { number, sector } => Label::Call {
            number,
            request: request(Kind::Read, sector, 2, false, none),
        },
        Step::Flush { number } => Label::Call {
            number,
            request: request(Kind::Flush, 0, 0, false, none),
        },
        Step::Good { number, bytes } => {
            let length = bytes.len() as u64;
            let bytes = Bytes::new(Vec::from_slice(alloc, bytes)?);
            answer(number, NtStatus::Success, length, bytes)
        }
        Step::Written { number } => answer(number, NtStatus::Success, 2, none),
        Step::Bad { number } => answer(number, NtStatus::IoDeviceError, 0, none),
        Step::Busy { number } => answer(number, NtStatus::DeviceBusy, 0, none),
        Step::Invalid { number } => answer(number, NtStatus::InvalidParameter, 0, none),
        Step::Lost | Step::Ended => return Ok(None),
    }))
}

/// No line yet.
fn no_line(alloc: Global) -> Result<SessionHistory, AllocError> {
    let service = Service {
        sector_size: 2,
        partitions: vec![in alloc; Extent { first: 1, count: 4 }]?,
        longest: 8,
    };
    SessionHistory::new(alloc, service, &[0, 0])
}

/// One line more.
fn with(
    alloc: Global,
    history: SessionHistory,
    line: u64,
    step: &Step,
) -> Result<SessionHistory, AllocError> {
    match (step, label_of(alloc, step)?) {
        (_, Some(label)) => history.push(alloc, line, &label),
        (Step::Lost, None) => history.lost(alloc, line),
        (_, None) => history.ended(alloc, line),
    }
}

/// The history of these steps, of four sectors of zeros.
fn recorded(alloc: Global, parts: &[&[Step]]) -> Result<SessionHistory, AllocError> {
    let mut history = no_line(alloc)?;
    let mut line: u64 = 0;
    for part in parts {
        for step in *part {
            history = with(alloc, history, line, step)?;
            line = line.saturating_add(1);
        }
    }
    Ok(history)
}

#[test]
fn histories_over_sessions_are_judged(rt: HostRuntime) -> Result<(), Fail> {
    let alloc = rt.alloc();
    for (name, parts, wanted) in CASES {
        let verdict = recorded(alloc, parts)?.judge(alloc)?;
        assert_eq!(&rt; verdict, wanted, "{name}");
    }
    Ok(())
}

#[test]
fn what_is_told_is_counted(rt: HostRuntime) -> Result<(), Fail> {
    let alloc = rt.alloc();
    let history = recorded(
        alloc,
        &[&WRITE, &[Step::Lost], &KEPT, &[Step::Written { number: 7 }]],
    )?;
    assert_eq!(&rt; history.count(), 5);
    assert_eq!(&rt; history.requests(), 2);
    assert_eq!(&rt; history.sectors(), 1);
    assert_eq!(&rt; history.stopped(), 7);
    assert_eq!(&rt; history.misfit(), Some(Misfit::NotOpen));
    Ok(())
}
