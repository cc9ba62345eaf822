//! Sights that have a schedule, and sights that have none.

use register::{Contents, Sight};
use register_judge::{Observed, SoFar, Verdict, judge};
use std::alloc::{AllocError, Global};
use std::test::Fail;

/// The value of bytes that were not recorded.
const UNRECORDED: u8 = 0;

/// What is seen of a register of one byte.
enum Step {
    Write { number: u64, value: u8 },
    Read { number: u64, value: u8 },
    Done { number: u64 },
    Failed { number: u64 },
}

/// What is seen of a register that has 7 at the start, and the verdict.
static CASES: [(&str, &[Step], Verdict); 26] = [
    (
        "a read of the start",
        &[
            Step::Read {
                number: 1,
                value: 7,
            },
            Step::Done { number: 1 },
        ],
        Verdict::Passed,
    ),
    (
        "a read of what nobody wrote",
        &[
            Step::Read {
                number: 1,
                value: 9,
            },
            Step::Done { number: 1 },
        ],
        Verdict::Refused { sights: 2 },
    ),
    (
        "a read behind a write",
        &[
            Step::Write {
                number: 1,
                value: 5,
            },
            Step::Done { number: 1 },
            Step::Read {
                number: 2,
                value: 7,
            },
            Step::Done { number: 2 },
        ],
        Verdict::Refused { sights: 4 },
    ),
    (
        "a read beside a write that has not acted",
        &[
            Step::Write {
                number: 1,
                value: 5,
            },
            Step::Read {
                number: 2,
                value: 7,
            },
            Step::Done { number: 1 },
            Step::Done { number: 2 },
        ],
        Verdict::Passed,
    ),
    (
        "a read beside a write that has",
        &[
            Step::Write {
                number: 1,
                value: 5,
            },
            Step::Read {
                number: 2,
                value: 5,
            },
            Step::Done { number: 2 },
            Step::Done { number: 1 },
        ],
        Verdict::Passed,
    ),
    (
        "two reads of one write in the wrong order",
        &[
            Step::Write {
                number: 1,
                value: 5,
            },
            Step::Read {
                number: 2,
                value: 5,
            },
            Step::Done { number: 2 },
            Step::Read {
                number: 3,
                value: 7,
            },
            Step::Done { number: 3 },
            Step::Done { number: 1 },
        ],
        Verdict::Refused { sights: 5 },
    ),
    (
        "a read of a write called after its answer",
        &[
            Step::Read {
                number: 1,
                value: 5,
            },
            Step::Done { number: 1 },
            Step::Write {
                number: 2,
                value: 5,
            },
        ],
        Verdict::Refused { sights: 2 },
    ),
    (
        "a write that failed and acted",
        &[
            Step::Write {
                number: 1,
                value: 5,
            },
            Step::Failed { number: 1 },
            Step::Read {
                number: 2,
                value: 5,
            },
            Step::Done { number: 2 },
        ],
        Verdict::Passed,
    ),
    (
        "a write that failed and did not",
        &[
            Step::Write {
                number: 1,
                value: 5,
            },
            Step::Failed { number: 1 },
            Step::Read {
                number: 2,
                value: 7,
            },
            Step::Done { number: 2 },
        ],
        Verdict::Passed,
    ),
    (
        "a write that failed and acted later",
        &[
            Step::Write {
                number: 1,
                value: 5,
            },
            Step::Failed { number: 1 },
            Step::Read {
                number: 2,
                value: 7,
            },
            Step::Done { number: 2 },
            Step::Read {
                number: 3,
                value: 5,
            },
            Step::Done { number: 3 },
        ],
        Verdict::Refused { sights: 6 },
    ),
    (
        "a write that is never answered and acted late",
        &[
            Step::Write {
                number: 1,
                value: 5,
            },
            Step::Read {
                number: 2,
                value: 7,
            },
            Step::Done { number: 2 },
            Step::Read {
                number: 3,
                value: 5,
            },
            Step::Done { number: 3 },
        ],
        Verdict::Passed,
    ),
    (
        "eight open writes of values of their own",
        &[
            Step::Write {
                number: 1,
                value: 1,
            },
            Step::Write {
                number: 2,
                value: 2,
            },
            Step::Write {
                number: 3,
                value: 3,
            },
            Step::Write {
                number: 4,
                value: 4,
            },
            Step::Write {
                number: 5,
                value: 5,
            },
            Step::Write {
                number: 6,
                value: 6,
            },
            Step::Write {
                number: 7,
                value: 7,
            },
            Step::Write {
                number: 8,
                value: 8,
            },
        ],
        Verdict::Passed,
    ),
    (
        "a read that was not recorded",
        &[
            Step::Read {
                number: 1,
                value: UNRECORDED,
            },
            Step::Done { number: 1 },
        ],
        Verdict::Passed,
    ),
    (
        "a write that was not recorded, read twice",
        &[
            Step::Write {
                number: 1,
                value: UNRECORDED,
            },
            Step::Done { number: 1 },
            Step::Read {
                number: 2,
                value: 9,
            },
            Step::Done { number: 2 },
            Step::Read {
                number: 3,
                value: 9,
            },
            Step::Done { number: 3 },
        ],
        Verdict::Passed,
    ),
    (
        "a write that was not recorded, read as two values",
        &[
            Step::Write {
                number: 1,
                value: UNRECORDED,
            },
            Step::Done { number: 1 },
            Step::Read {
                number: 2,
                value: 9,
            },
            Step::Done { number: 2 },
            Step::Read {
                number: 3,
                value: 8,
            },
            Step::Done { number: 3 },
        ],
        Verdict::Refused { sights: 6 },
    ),
    (
        "a write that was not recorded, overwritten",
        &[
            Step::Write {
                number: 1,
                value: UNRECORDED,
            },
            Step::Done { number: 1 },
            Step::Write {
                number: 2,
                value: 5,
            },
            Step::Done { number: 2 },
            Step::Read {
                number: 3,
                value: 9,
            },
            Step::Done { number: 3 },
        ],
        Verdict::Refused { sights: 6 },
    ),
    (
        "a write that was not recorded, read beside it",
        &[
            Step::Write {
                number: 1,
                value: UNRECORDED,
            },
            Step::Read {
                number: 2,
                value: 9,
            },
            Step::Done { number: 1 },
            Step::Done { number: 2 },
            Step::Read {
                number: 3,
                value: 9,
            },
            Step::Done { number: 3 },
        ],
        Verdict::Passed,
    ),
    (
        "a write that was not recorded, read before another acts",
        &[
            Step::Write {
                number: 1,
                value: UNRECORDED,
            },
            Step::Write {
                number: 2,
                value: 5,
            },
            Step::Read {
                number: 3,
                value: 9,
            },
            Step::Done { number: 2 },
            Step::Read {
                number: 4,
                value: 5,
            },
            Step::Done { number: 4 },
            Step::Done { number: 3 },
            Step::Done { number: 1 },
        ],
        Verdict::Passed,
    ),
    (
        "a write that was not recorded and failed, read",
        &[
            Step::Write {
                number: 1,
                value: UNRECORDED,
            },
            Step::Failed { number: 1 },
            Step::Read {
                number: 2,
                value: 9,
            },
            Step::Done { number: 2 },
        ],
        Verdict::Passed,
    ),
    (
        "a write that was not recorded, of what was there",
        &[
            Step::Write {
                number: 1,
                value: UNRECORDED,
            },
            Step::Done { number: 1 },
            Step::Read {
                number: 2,
                value: 7,
            },
            Step::Done { number: 2 },
            Step::Read {
                number: 3,
                value: 7,
            },
            Step::Done { number: 3 },
        ],
        Verdict::Passed,
    ),
    (
        "two reads called before a write that was not recorded is told",
        &[
            Step::Write {
                number: 1,
                value: UNRECORDED,
            },
            Step::Done { number: 1 },
            Step::Read {
                number: 2,
                value: 8,
            },
            Step::Read {
                number: 3,
                value: 9,
            },
            Step::Done { number: 2 },
            Step::Done { number: 3 },
        ],
        Verdict::Refused { sights: 6 },
    ),
    (
        "the same, and a write of the second's value",
        &[
            Step::Write {
                number: 1,
                value: UNRECORDED,
            },
            Step::Done { number: 1 },
            Step::Read {
                number: 2,
                value: 8,
            },
            Step::Read {
                number: 3,
                value: 9,
            },
            Step::Write {
                number: 4,
                value: 9,
            },
            Step::Done { number: 2 },
            Step::Done { number: 3 },
        ],
        Verdict::Passed,
    ),
    (
        "a write that was told before another can't come back",
        &[
            Step::Write {
                number: 1,
                value: UNRECORDED,
            },
            Step::Read {
                number: 2,
                value: 9,
            },
            Step::Done { number: 2 },
            Step::Write {
                number: 3,
                value: 5,
            },
            Step::Done { number: 3 },
            Step::Read {
                number: 4,
                value: 9,
            },
            Step::Done { number: 4 },
        ],
        Verdict::Refused { sights: 7 },
    ),
    (
        "a read that was not recorded tells nothing",
        &[
            Step::Write {
                number: 1,
                value: UNRECORDED,
            },
            Step::Done { number: 1 },
            Step::Read {
                number: 2,
                value: UNRECORDED,
            },
            Step::Done { number: 2 },
            Step::Read {
                number: 3,
                value: 9,
            },
            Step::Done { number: 3 },
            Step::Read {
                number: 4,
                value: 8,
            },
            Step::Done { number: 4 },
        ],
        Verdict::Refused { sights: 8 },
    ),
    (
        "a number that was given",
        &[
            Step::Write {
                number: 2,
                value: 5,
            },
            Step::Read {
                number: 2,
                value: 5,
            },
        ],
        Verdict::Undecided,
    ),
    (
        "an end of what isn't open",
        &[Step::Done { number: 1 }],
        Verdict::Undecided,
    ),
];

/// One byte, or none where it was not recorded.
fn contents_of(alloc: Global, value: u8) -> Result<Contents, AllocError> {
    if value == UNRECORDED {
        return Contents::none(alloc);
    }
    Contents::new(alloc, &[value])
}

fn sight_of(alloc: Global, step: &Step) -> Result<Sight, AllocError> {
    Ok(match *step {
        Step::Write { number, value } => Sight::Write {
            number,
            value: contents_of(alloc, value)?,
        },
        Step::Read { number, value } => Sight::Read {
            number,
            value: contents_of(alloc, value)?,
        },
        Step::Done { number } => Sight::Done { number },
        Step::Failed { number } => Sight::Failed { number },
    })
}

fn sights_of(alloc: Global, steps: &[Step]) -> Result<Vec<Sight>, AllocError> {
    let mut sights = Vec::new(alloc);
    for step in steps {
        sights.push(sight_of(alloc, step)?)?;
    }
    Ok(sights)
}

/// What is known of a register behind these sights.
fn so_far_of(alloc: Global, start: &Contents, sights: &[Sight]) -> Result<SoFar, AllocError> {
    let mut observed = Observed::new(alloc, start)?;
    for sight in sights {
        observed.see(alloc, sight)?;
    }
    Ok(observed.so_far())
}

fn wanted_of(verdict: Verdict) -> SoFar {
    match verdict {
        Verdict::Passed => SoFar::Passed,
        Verdict::Refused { .. } => SoFar::Refused,
        Verdict::Undecided => SoFar::Undecided,
    }
}

#[test]
fn bytes_are_there_or_not(rt: HostRuntime) -> Result<(), Fail> {
    let alloc = rt.alloc();
    assert!(&rt; Contents::none(alloc)?.is_none());
    assert!(&rt; !Contents::new(alloc, &[0])?.is_none());
    Ok(())
}

#[test]
fn registers_are_judged(rt: HostRuntime) -> Result<(), Fail> {
    let alloc = rt.alloc();
    let start = Contents::new(alloc, &[7])?;
    for (name, steps, wanted) in CASES {
        let sights = sights_of(alloc, steps)?;
        let verdict = judge(alloc, &start, sights.as_slice())?;
        assert_eq!(&rt; verdict, wanted, "{name}");
        let so_far = so_far_of(alloc, &start, sights.as_slice())?;
        assert_eq!(&rt; so_far, wanted_of(wanted), "{name}");
    }
    Ok(())
}
