//! Histories that are legal, and histories that are not.

use history_judge::{History, Misfit, Place, Service, Verdict};
use machine::{ClientRequest, Kind, Label};
use ntstatus::NtStatus;
use sector::{Bytes, Extent};
use std::alloc::{AllocError, Global};
use std::test::Fail;

/// A call or an answer. A sector has two bytes.
enum Step {
    Write {
        number: u64,
        sector: u64,
        bytes: &'static [u8],
    },
    Read {
        number: u64,
        sector: u64,
        count: u64,
    },
    Good {
        number: u64,
        bytes: &'static [u8],
    },
    Written {
        number: u64,
        length: u64,
    },
    Bad {
        number: u64,
    },
    /// A write whose bytes were not recorded.
    WriteSome {
        number: u64,
        sector: u64,
        count: u64,
    },
    /// A read was answered, with bytes that were not recorded.
    GoodSome {
        number: u64,
        length: u64,
    },
}

/// The second sector of the first partition.
const SECOND: Place = Place {
    partition: 0,
    sector: 1,
};

/// What clients saw of four sectors of zeros, and the verdict.
static CASES: [(&str, &[Step], Verdict); 14] = [
    (
        "a write is read back",
        &[
            Step::Write {
                number: 1,
                sector: 0,
                bytes: &[1, 2, 3, 4],
            },
            Step::Written {
                number: 1,
                length: 4,
            },
            Step::Read {
                number: 2,
                sector: 1,
                count: 2,
            },
            Step::Good {
                number: 2,
                bytes: &[3, 4, 0, 0],
            },
        ],
        Verdict::Passed,
    ),
    (
        "a write is lost",
        &[
            Step::Write {
                number: 1,
                sector: 0,
                bytes: &[1, 2, 3, 4],
            },
            Step::Written {
                number: 1,
                length: 4,
            },
            Step::Read {
                number: 2,
                sector: 0,
                count: 2,
            },
            Step::Good {
                number: 2,
                bytes: &[1, 2, 0, 0],
            },
        ],
        Verdict::Refused {
            place: SECOND,
            line: 3,
        },
    ),
    (
        "a write is torn beside a read, sector by sector",
        &[
            Step::Write {
                number: 1,
                sector: 0,
                bytes: &[1, 2, 3, 4],
            },
            Step::Read {
                number: 2,
                sector: 0,
                count: 2,
            },
            Step::Good {
                number: 2,
                bytes: &[0, 0, 3, 4],
            },
        ],
        Verdict::Passed,
    ),
    (
        "a sector is torn",
        &[
            Step::Write {
                number: 1,
                sector: 1,
                bytes: &[3, 4],
            },
            Step::Read {
                number: 2,
                sector: 1,
                count: 1,
            },
            Step::Good {
                number: 2,
                bytes: &[3, 0],
            },
        ],
        Verdict::Refused {
            place: SECOND,
            line: 2,
        },
    ),
    (
        "a failed write acts later",
        &[
            Step::Write {
                number: 1,
                sector: 1,
                bytes: &[3, 4],
            },
            Step::Bad { number: 1 },
            Step::Read {
                number: 2,
                sector: 1,
                count: 1,
            },
            Step::Good {
                number: 2,
                bytes: &[0, 0],
            },
            Step::Read {
                number: 3,
                sector: 1,
                count: 1,
            },
            Step::Good {
                number: 3,
                bytes: &[3, 4],
            },
        ],
        Verdict::Refused {
            place: SECOND,
            line: 5,
        },
    ),
    (
        "one that is never answered acts later",
        &[
            Step::Write {
                number: 1,
                sector: 1,
                bytes: &[3, 4],
            },
            Step::Read {
                number: 2,
                sector: 1,
                count: 1,
            },
            Step::Good {
                number: 2,
                bytes: &[0, 0],
            },
            Step::Read {
                number: 3,
                sector: 1,
                count: 1,
            },
            Step::Good {
                number: 3,
                bytes: &[3, 4],
            },
        ],
        Verdict::Passed,
    ),
    (
        "the earlier of two refusals is told",
        &[
            Step::Read {
                number: 1,
                sector: 1,
                count: 1,
            },
            Step::Good {
                number: 1,
                bytes: &[5, 5],
            },
            Step::Read {
                number: 2,
                sector: 0,
                count: 1,
            },
            Step::Good {
                number: 2,
                bytes: &[6, 6],
            },
        ],
        Verdict::Refused {
            place: SECOND,
            line: 1,
        },
    ),
    (
        "a write beyond the end is refused, and has no bytes",
        &[Step::Write {
            number: 1,
            sector: 3,
            bytes: &[1, 2, 3, 4],
        }],
        Verdict::Misfit {
            line: 0,
            why: Misfit::Bytes,
        },
    ),
    (
        "a read of two sectors brings one",
        &[
            Step::Read {
                number: 1,
                sector: 0,
                count: 2,
            },
            Step::Good {
                number: 1,
                bytes: &[0, 0],
            },
        ],
        Verdict::Misfit {
            line: 1,
            why: Misfit::Answer,
        },
    ),
    (
        "what was not called is answered",
        &[Step::Bad { number: 1 }],
        Verdict::Misfit {
            line: 0,
            why: Misfit::NotOpen,
        },
    ),
    (
        "a number is left out",
        &[
            Step::Read {
                number: 1,
                sector: 0,
                count: 1,
            },
            Step::Read {
                number: 3,
                sector: 0,
                count: 1,
            },
        ],
        Verdict::Misfit {
            line: 1,
            why: Misfit::Number,
        },
    ),
    (
        "a write whose bytes were not recorded is read as one thing",
        &[
            Step::WriteSome {
                number: 1,
                sector: 1,
                count: 1,
            },
            Step::Written {
                number: 1,
                length: 2,
            },
            Step::Read {
                number: 2,
                sector: 1,
                count: 1,
            },
            Step::Good {
                number: 2,
                bytes: &[5, 6],
            },
            Step::Read {
                number: 3,
                sector: 1,
                count: 1,
            },
            Step::GoodSome {
                number: 3,
                length: 2,
            },
        ],
        Verdict::Passed,
    ),
    (
        "it is read as two things",
        &[
            Step::WriteSome {
                number: 1,
                sector: 1,
                count: 1,
            },
            Step::Written {
                number: 1,
                length: 2,
            },
            Step::Read {
                number: 2,
                sector: 1,
                count: 1,
            },
            Step::Good {
                number: 2,
                bytes: &[5, 6],
            },
            Step::Read {
                number: 3,
                sector: 1,
                count: 1,
            },
            Step::Good {
                number: 3,
                bytes: &[5, 7],
            },
        ],
        Verdict::Refused {
            place: SECOND,
            line: 5,
        },
    ),
    (
        "a read of one sector brings two that were not recorded",
        &[
            Step::Read {
                number: 1,
                sector: 0,
                count: 1,
            },
            Step::GoodSome {
                number: 1,
                length: 4,
            },
        ],
        Verdict::Misfit {
            line: 1,
            why: Misfit::Answer,
        },
    ),
];

/// The call of a transfer from one sector on.
fn call(number: u64, kind: Kind, sector: u64, length: u64, bytes: Bytes) -> Label {
    Label::Call {
        number,
        request: ClientRequest {
            partition: Some(0),
            kind,
            offset: sector.saturating_mul(2),
            length,
            through: false,
            bytes,
        },
    }
}

fn answer(number: u64, status: NtStatus, information: u64, bytes: Bytes) -> Label {
    Label::Answer {
        number,
        status,
        information,
        bytes,
    }
}

fn label_of(alloc: Global, step: &Step) -> Result<Label, AllocError> {
    let none = Bytes::new(Vec::new(alloc));
    Ok(match *step {
        Step::Write {
            number,
            sector,
            bytes,
        } => {
            let length = bytes.len() as u64;
            let bytes = Bytes::new(Vec::from_slice(alloc, bytes)?);
            call(number, Kind::Write, sector, length, bytes)
        }
        Step::Read {
            number,
            sector,
            count,
        } => call(number, Kind::Read, sector, count.saturating_mul(2), none),
        Step::Good { number, bytes } => {
            let length = bytes.len() as u64;
            let bytes = Bytes::new(Vec::from_slice(alloc, bytes)?);
            answer(number, NtStatus::Success, length, bytes)
        }
        Step::Written { number, length } => answer(number, NtStatus::Success, length, none),
        Step::Bad { number } => answer(number, NtStatus::IoDeviceError, 0, none),
        Step::WriteSome {
            number,
            sector,
            count,
        } => call(number, Kind::Write, sector, count.saturating_mul(2), none),
        Step::GoodSome { number, length } => answer(number, NtStatus::Success, length, none),
    })
}

/// Whether the bytes of a step were recorded.
fn is_recorded(step: &Step) -> bool {
    !matches!(step, Step::WriteSome { .. } | Step::GoodSome { .. })
}

/// The history of these steps, of four sectors of zeros.
fn recorded(alloc: Global, steps: &[Step]) -> Result<History, AllocError> {
    let service = Service {
        sector_size: 2,
        partitions: vec![in alloc; Extent { first: 1, count: 4 }]?,
        longest: 8,
    };
    let mut history = History::new(alloc, service, &[0, 0], false)?;
    for (line, step) in steps.iter().enumerate() {
        let label = label_of(alloc, step)?;
        history = history.push(alloc, line as u64, &label, is_recorded(step))?;
    }
    Ok(history)
}

#[test]
fn histories_are_judged(rt: HostRuntime) -> Result<(), Fail> {
    let alloc = rt.alloc();
    for (name, steps, wanted) in CASES {
        let verdict = recorded(alloc, steps)?.judge(alloc)?;
        assert_eq!(&rt; verdict, wanted, "{name}");
    }
    Ok(())
}
