//! Sights over losses of power that have a schedule, and sights that have none.

use register::Contents;
use register_loss::{Sight, What};
use register_loss_judge::{Observed, SoFar, Verdict, judge};
use std::alloc::{AllocError, Global};
use std::test::Fail;

/// What is seen of a register of one byte. A write `Through` volatile caches is one with FUA.
enum Step {
    Write { number: u64, value: u8 },
    Through { number: u64, value: u8 },
    Read { number: u64, value: u8 },
    Flush { number: u64 },
    Elsewhere { number: u64 },
    Done { number: u64 },
    Failed { number: u64 },
    Lost,
    Ended,
}

/// What is seen of a register that has 7 at the start, and the verdict.
static CASES: [(&str, &[Step], Verdict); 22] = [
    (
        "a loss takes a write back",
        &[
            Step::Write {
                number: 1,
                value: 5,
            },
            Step::Done { number: 1 },
            Step::Lost,
            Step::Read {
                number: 1,
                value: 7,
            },
            Step::Done { number: 1 },
        ],
        Verdict::Passed,
    ),
    (
        "or leaves it",
        &[
            Step::Write {
                number: 1,
                value: 5,
            },
            Step::Done { number: 1 },
            Step::Lost,
            Step::Read {
                number: 1,
                value: 5,
            },
            Step::Done { number: 1 },
        ],
        Verdict::Passed,
    ),
    (
        "but not now this and now that",
        &[
            Step::Write {
                number: 1,
                value: 5,
            },
            Step::Done { number: 1 },
            Step::Lost,
            Step::Read {
                number: 1,
                value: 5,
            },
            Step::Done { number: 1 },
            Step::Read {
                number: 2,
                value: 7,
            },
            Step::Done { number: 2 },
        ],
        Verdict::Refused { sights: 7 },
    ),
    (
        "the end of a process takes nothing back",
        &[
            Step::Write {
                number: 1,
                value: 5,
            },
            Step::Done { number: 1 },
            Step::Ended,
            Step::Read {
                number: 1,
                value: 7,
            },
            Step::Done { number: 1 },
        ],
        Verdict::Refused { sights: 5 },
    ),
    (
        "a flush keeps what was written before its call",
        &[
            Step::Write {
                number: 1,
                value: 5,
            },
            Step::Done { number: 1 },
            Step::Flush { number: 2 },
            Step::Done { number: 2 },
            Step::Lost,
            Step::Read {
                number: 1,
                value: 7,
            },
            Step::Done { number: 1 },
        ],
        Verdict::Refused { sights: 7 },
    ),
    (
        "and not what may have been written behind that",
        &[
            Step::Flush { number: 1 },
            Step::Write {
                number: 2,
                value: 5,
            },
            Step::Done { number: 2 },
            Step::Done { number: 1 },
            Step::Lost,
            Step::Read {
                number: 1,
                value: 7,
            },
            Step::Done { number: 1 },
        ],
        Verdict::Passed,
    ),
    (
        "a flush called behind another call",
        &[
            Step::Write {
                number: 1,
                value: 5,
            },
            Step::Elsewhere { number: 2 },
            Step::Done { number: 1 },
            Step::Flush { number: 3 },
            Step::Done { number: 3 },
            Step::Lost,
            Step::Read {
                number: 1,
                value: 7,
            },
            Step::Done { number: 1 },
        ],
        Verdict::Refused { sights: 8 },
    ),
    (
        "a write with FUA is kept",
        &[
            Step::Through {
                number: 1,
                value: 5,
            },
            Step::Done { number: 1 },
            Step::Lost,
            Step::Read {
                number: 1,
                value: 7,
            },
            Step::Done { number: 1 },
        ],
        Verdict::Refused { sights: 6 },
    ),
    (
        "a flush between two writes",
        &[
            Step::Write {
                number: 1,
                value: 5,
            },
            Step::Done { number: 1 },
            Step::Flush { number: 2 },
            Step::Done { number: 2 },
            Step::Write {
                number: 3,
                value: 6,
            },
            Step::Done { number: 3 },
            Step::Lost,
            Step::Read {
                number: 1,
                value: 5,
            },
            Step::Done { number: 1 },
        ],
        Verdict::Passed,
    ),
    (
        "leaves no older value",
        &[
            Step::Write {
                number: 1,
                value: 5,
            },
            Step::Done { number: 1 },
            Step::Flush { number: 2 },
            Step::Done { number: 2 },
            Step::Write {
                number: 3,
                value: 6,
            },
            Step::Done { number: 3 },
            Step::Lost,
            Step::Read {
                number: 1,
                value: 7,
            },
            Step::Done { number: 1 },
        ],
        Verdict::Refused { sights: 9 },
    ),
    (
        "a loss leaves any value since the last flush",
        &[
            Step::Write {
                number: 1,
                value: 5,
            },
            Step::Done { number: 1 },
            Step::Write {
                number: 2,
                value: 6,
            },
            Step::Done { number: 2 },
            Step::Lost,
            Step::Read {
                number: 1,
                value: 5,
            },
            Step::Done { number: 1 },
        ],
        Verdict::Passed,
    ),
    (
        "a write that a loss cuts off may be there",
        &[
            Step::Write {
                number: 1,
                value: 5,
            },
            Step::Lost,
            Step::Read {
                number: 1,
                value: 5,
            },
            Step::Done { number: 1 },
        ],
        Verdict::Passed,
    ),
    (
        "and no more behind a read without it",
        &[
            Step::Write {
                number: 1,
                value: 5,
            },
            Step::Lost,
            Step::Read {
                number: 1,
                value: 7,
            },
            Step::Done { number: 1 },
            Step::Read {
                number: 2,
                value: 5,
            },
            Step::Done { number: 2 },
        ],
        Verdict::Refused { sights: 6 },
    ),
    (
        "a write that failed leaves either value",
        &[
            Step::Write {
                number: 1,
                value: 5,
            },
            Step::Failed { number: 1 },
            Step::Read {
                number: 2,
                value: 5,
            },
            Step::Done { number: 2 },
            Step::Read {
                number: 3,
                value: 7,
            },
            Step::Done { number: 3 },
            Step::Read {
                number: 4,
                value: 5,
            },
            Step::Done { number: 4 },
        ],
        Verdict::Passed,
    ),
    (
        "until the next write",
        &[
            Step::Write {
                number: 1,
                value: 5,
            },
            Step::Failed { number: 1 },
            Step::Write {
                number: 2,
                value: 6,
            },
            Step::Done { number: 2 },
            Step::Read {
                number: 3,
                value: 7,
            },
            Step::Done { number: 3 },
        ],
        Verdict::Refused { sights: 6 },
    ),
    (
        "a flush that failed leaves the older one as well",
        &[
            Step::Write {
                number: 1,
                value: 5,
            },
            Step::Done { number: 1 },
            Step::Flush { number: 2 },
            Step::Failed { number: 2 },
            Step::Read {
                number: 3,
                value: 7,
            },
            Step::Done { number: 3 },
            Step::Read {
                number: 4,
                value: 5,
            },
            Step::Done { number: 4 },
        ],
        Verdict::Passed,
    ),
    (
        "one that succeeded doesn't",
        &[
            Step::Write {
                number: 1,
                value: 5,
            },
            Step::Done { number: 1 },
            Step::Flush { number: 2 },
            Step::Done { number: 2 },
            Step::Read {
                number: 3,
                value: 7,
            },
            Step::Done { number: 3 },
        ],
        Verdict::Refused { sights: 6 },
    ),
    (
        "a read before the flush fails",
        &[
            Step::Write {
                number: 1,
                value: 5,
            },
            Step::Done { number: 1 },
            Step::Flush { number: 2 },
            Step::Read {
                number: 3,
                value: 7,
            },
            Step::Done { number: 3 },
            Step::Failed { number: 2 },
        ],
        Verdict::Passed,
    ),
    (
        "a read of an older value while a flush is open that succeeds",
        &[
            Step::Write {
                number: 1,
                value: 5,
            },
            Step::Done { number: 1 },
            Step::Flush { number: 2 },
            Step::Read {
                number: 3,
                value: 7,
            },
            Step::Done { number: 3 },
            Step::Done { number: 2 },
        ],
        Verdict::Refused { sights: 6 },
    ),
    (
        "two writes at once, in either order",
        &[
            Step::Write {
                number: 1,
                value: 5,
            },
            Step::Write {
                number: 2,
                value: 6,
            },
            Step::Done { number: 1 },
            Step::Done { number: 2 },
            Step::Read {
                number: 3,
                value: 5,
            },
            Step::Done { number: 3 },
        ],
        Verdict::Passed,
    ),
    (
        "and not back and forth",
        &[
            Step::Write {
                number: 1,
                value: 5,
            },
            Step::Write {
                number: 2,
                value: 6,
            },
            Step::Done { number: 1 },
            Step::Done { number: 2 },
            Step::Read {
                number: 3,
                value: 5,
            },
            Step::Done { number: 3 },
            Step::Read {
                number: 4,
                value: 6,
            },
            Step::Done { number: 4 },
        ],
        Verdict::Refused { sights: 8 },
    ),
    (
        "three writes at once",
        &[
            Step::Write {
                number: 1,
                value: 11,
            },
            Step::Write {
                number: 2,
                value: 12,
            },
            Step::Write {
                number: 3,
                value: 13,
            },
            Step::Done { number: 1 },
            Step::Done { number: 2 },
            Step::Done { number: 3 },
            Step::Read {
                number: 4,
                value: 12,
            },
            Step::Done { number: 4 },
        ],
        Verdict::Passed,
    ),
];

fn call(number: u64, what: What) -> Sight {
    Sight::Call { number, what }
}

fn add_sights(alloc: Global, sights: &mut Vec<Sight>, step: &Step) -> Result<(), AllocError> {
    match *step {
        Step::Write { number, value } => sights.push(call(
            number,
            What::Write {
                value: Contents::new(alloc, &[value])?,
                through: false,
            },
        ))?,
        Step::Through { number, value } => {
            sights.push(call(
                number,
                What::Write {
                    value: Contents::new(alloc, &[value])?,
                    through: true,
                },
            ))?;
            sights.push(call(number, What::Sync))?;
        }
        Step::Read { number, value } => sights.push(call(
            number,
            What::Read {
                value: Contents::new(alloc, &[value])?,
            },
        ))?,
        Step::Flush { number } => sights.push(call(number, What::Flush))?,
        Step::Elsewhere { number } => sights.push(Sight::Elsewhere { number })?,
        Step::Done { number } => sights.push(Sight::Done { number })?,
        Step::Failed { number } => sights.push(Sight::Failed { number })?,
        Step::Lost => sights.push(Sight::Lost)?,
        Step::Ended => sights.push(Sight::Ended)?,
    }
    Ok(())
}

fn sights_of(alloc: Global, steps: &[Step]) -> Result<Vec<Sight>, AllocError> {
    let mut sights = Vec::new(alloc);
    for step in steps {
        add_sights(alloc, &mut sights, step)?;
    }
    Ok(sights)
}

/// What is known of a register behind these sights.
fn so_far_of(alloc: Global, start: &Contents, sights: &[Sight]) -> Result<SoFar, AllocError> {
    let mut observed = Observed::new(alloc, start)?;
    for sight in sights {
        observed.see(alloc, sight)?;
    }
    Ok(observed.so_far())
}

fn wanted_of(verdict: Verdict) -> SoFar {
    match verdict {
        Verdict::Passed => SoFar::Passed,
        Verdict::Refused { .. } => SoFar::Refused,
        Verdict::Undecided => SoFar::Undecided,
    }
}

#[test]
fn sessions_of_registers_are_judged(rt: HostRuntime) -> Result<(), Fail> {
    let alloc = rt.alloc();
    let start = Contents::new(alloc, &[7])?;
    for (name, steps, wanted) in CASES {
        let sights = sights_of(alloc, steps)?;
        let verdict = judge(alloc, &start, sights.as_slice())?;
        assert_eq!(&rt; verdict, wanted, "{name}");
        let so_far = so_far_of(alloc, &start, sights.as_slice())?;
        assert_eq!(&rt; so_far, wanted_of(wanted), "{name}");
    }
    Ok(())
}
