//! Events that can have happened, and events that can't.

use sector_judge::{Event, Verdict, judge};
use std::alloc::{AllocError, Global};
use std::process::Abort;
use std::test::Fail;

// Piece 5 starts behind the first of these writes, piece 6 behind the second.
const PUT_ONE: Event = Event::Put { value: 1, next: 5 };

const PUT_TWO: Event = Event::Put { value: 2, next: 6 };

const SECURED: Event = Event::Secured { value: 1 };

const TRIED: Event = Event::Tried { value: 1 };

const FLUSH_4: Event = Event::Synced { flush: 4 };

const FLUSH_5: Event = Event::Synced { flush: 5 };

const FLUSH_6: Event = Event::Synced { flush: 6 };

const FAILED: Event = Event::Doubted;

const OLD: Event = Event::Given { value: 9 };

const ONE: Event = Event::Given { value: 1 };

const TWO: Event = Event::Given { value: 2 };

const LOST: Event = Event::Lost;

const ENDED: Event = Event::Ended;

/// A name, events, and how many of them are refused, or 0.
type Case = (&'static str, &'static [Event], usize);

static CASES: [Case; 24] = [
    ("what was written", &[PUT_ONE, ONE], 0),
    ("what was never written", &[PUT_ONE, TWO], 2),
    ("two first values", &[OLD, ONE], 2),
    ("a write is kept", &[PUT_ONE, LOST, ONE], 0),
    ("a write is lost", &[PUT_ONE, LOST, TWO], 0),
    ("lost and found", &[PUT_ONE, LOST, TWO, ONE], 4),
    ("lost to the value before", &[OLD, PUT_ONE, LOST, OLD], 0),
    ("lost to another value", &[OLD, PUT_ONE, LOST, TWO], 4),
    ("lost behind a flush", &[PUT_ONE, FLUSH_5, LOST, TWO], 4),
    (
        "lost behind an early flush",
        &[OLD, PUT_ONE, FLUSH_4, LOST, OLD],
        0,
    ),
    ("lost with FUA", &[SECURED, LOST, LOST, TWO], 4),
    (
        "a flush between writes",
        &[OLD, PUT_ONE, PUT_TWO, FLUSH_5, LOST, ONE],
        0,
    ),
    (
        "lost below the flush",
        &[OLD, PUT_ONE, PUT_TWO, FLUSH_5, LOST, OLD],
        6,
    ),
    (
        "an early flush that ends late",
        &[OLD, PUT_ONE, FLUSH_5, FLUSH_4, LOST, OLD],
        6,
    ),
    ("what only a loss leaves", &[OLD, PUT_ONE, OLD], 3),
    ("ended", &[PUT_ONE, ENDED, TWO], 3),
    (
        "a loss below a loss",
        &[OLD, PUT_ONE, LOST, PUT_TWO, LOST, ONE],
        0,
    ),
    ("a write that failed", &[OLD, TRIED, OLD, ONE], 0),
    ("a write that never was", &[OLD, TRIED, TWO], 3),
    ("doubt", &[OLD, PUT_ONE, FAILED, OLD], 0),
    (
        "a flush in doubt",
        &[OLD, PUT_ONE, FAILED, FLUSH_6, LOST, OLD],
        0,
    ),
    (
        "a flush that was at work",
        &[OLD, PUT_ONE, FAILED, FLUSH_5, LOST, OLD],
        0,
    ),
    ("doubt at an end", &[OLD, PUT_ONE, FAILED, ENDED, OLD], 0),
    (
        "written again",
        &[OLD, PUT_ONE, FAILED, PUT_TWO, FLUSH_6, LOST, ONE],
        7,
    ),
];

fn wanted_of(events: usize) -> Verdict {
    if events == 0 {
        Verdict::Passed
    } else {
        Verdict::Refused { events }
    }
}

fn check(rt: &impl Abort, alloc: Global, case: &Case) -> Result<(), AllocError> {
    let (name, events, wanted) = *case;
    let verdict = judge(alloc, events)?;
    assert_eq!(rt; verdict, wanted_of(wanted), "{name}");
    Ok(())
}

#[test]
fn sectors_are_judged(rt: HostRuntime) -> Result<(), Fail> {
    for case in &CASES {
        check(&rt, rt.alloc(), case)?;
    }
    Ok(())
}
