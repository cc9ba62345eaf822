//! What can have happened to a disk of two sectors, and what can't.

use disk_judge::{Happening, Verdict, judge};
use sector_judge::Event;
use std::alloc::{AllocError, Global};
use std::process::Abort;
use std::test::Fail;

const FIRST_READS_OLD: Happening = Happening::At {
    sector: 0,
    event: Event::Given { value: 9 },
};

const FIRST_IS_PUT: Happening = Happening::At {
    sector: 0,
    event: Event::Put { value: 1, next: 5 },
};

const FIRST_READS: Happening = Happening::At {
    sector: 0,
    event: Event::Given { value: 1 },
};

const SECOND_READS_OLD: Happening = Happening::At {
    sector: 1,
    event: Event::Given { value: 9 },
};

const SECOND_IS_PUT: Happening = Happening::At {
    sector: 1,
    event: Event::Put { value: 1, next: 5 },
};

const THIRD_READS: Happening = Happening::At {
    sector: 2,
    event: Event::Given { value: 1 },
};

const FLUSHED: Happening = Happening::Flushed { flush: 5 };

const FAILED: Happening = Happening::SyncFailed;

const LOST: Happening = Happening::PowerLost;

const ENDED: Happening = Happening::ProcessEnded;

/// A name, what happened, how much of it is refused, or 0, and at which sector.
type Case = (&'static str, &'static [Happening], usize, usize);

static CASES: [Case; 7] = [
    (
        "one is lost and its neighbour is not",
        &[
            SECOND_READS_OLD,
            FIRST_IS_PUT,
            SECOND_IS_PUT,
            LOST,
            FIRST_READS,
            SECOND_READS_OLD,
        ],
        0,
        0,
    ),
    (
        "one is lost behind a flush",
        &[
            SECOND_READS_OLD,
            FIRST_IS_PUT,
            SECOND_IS_PUT,
            FLUSHED,
            LOST,
            FIRST_READS,
            SECOND_READS_OLD,
        ],
        7,
        1,
    ),
    (
        "a flush that failed is of all",
        &[
            FIRST_READS_OLD,
            FIRST_IS_PUT,
            FAILED,
            FLUSHED,
            LOST,
            FIRST_READS_OLD,
        ],
        0,
        0,
    ),
    (
        "an end loses nothing",
        &[FIRST_IS_PUT, ENDED, FIRST_READS_OLD],
        3,
        0,
    ),
    (
        "the other is another",
        &[FIRST_IS_PUT, SECOND_READS_OLD],
        0,
        0,
    ),
    (
        "the other is the first",
        &[SECOND_IS_PUT, FIRST_IS_PUT, SECOND_READS_OLD],
        3,
        1,
    ),
    ("a third is not followed", &[THIRD_READS, THIRD_READS], 0, 0),
];

fn wanted_of(taken: usize, sector: usize) -> Verdict {
    if taken == 0 {
        Verdict::Passed
    } else {
        Verdict::Refused { taken, sector }
    }
}

fn check(rt: &impl Abort, alloc: Global, case: &Case) -> Result<(), AllocError> {
    let (name, happenings, taken, sector) = *case;
    let verdict = judge(alloc, 2, happenings)?;
    assert_eq!(rt; verdict, wanted_of(taken, sector), "{name}");
    Ok(())
}

#[test]
fn disks_are_judged(rt: HostRuntime) -> Result<(), Fail> {
    for case in &CASES {
        check(&rt, rt.alloc(), case)?;
    }
    Ok(())
}
