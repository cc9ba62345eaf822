//! Runs of a book beside its journal, worked by hand.

ghost use Rattle.std.specs.Prelude.{◌≡◌, ◌≤◌, IfOk, length};
ghost use Rattle.cancel_marks.specs.Marks.{standing, starting};

use crate::book_desk::{BookParts, Row, Run, carry_out};
use crate::disks::disk;
use crate::opened::open_two;
use cancel_marks::{Marks, Seat};
use chronicle::Opened;
use disk::Medium;
use std::alloc::{AllocError, Global};
use std::marker::Brand;
use std::process::Abort;
use std::sync::Wait;
use std::sync::ledger::Blank;
use std::test::Fail;
use traced::TraceEntry;

// Sixty-four slots, with the owner's seat.
fn slots(alloc: Global) -> Result<(Marks, Seat), AllocError>
    ensures slots { IfOk result (λ t. t.0.1 ≡ 64) }
    ensures owner { IfOk result (λ t. t.1 ≡ standing t.0.0 0 (starting 64)) }
{
    let Ok((marks, mut seats)) = Marks::new(alloc, 64, 1) else {
        return Err(AllocError);
    };
    let owner = seats.pop().ok_or(AllocError)?;
    Ok((marks, owner))
}

// A history that nobody wants.
fn end<N: chronicle::Naming>(opened: Opened<TraceEntry>)
    requires { opened ≡ N.table }
{
    let (_history, _whole) = opened.named::<N>();
}

// The histories of a book and of its journal.
fn histories(alloc: Global) -> Result<(Opened<TraceEntry>, sector_journal::Opened), AllocError> {
    let opened = Opened::new(alloc)?;
    match sector_journal::Opened::new(alloc) {
        Ok(journal) => Ok((opened, journal)),
        Err(refused) => {
            end::<Brand>(opened);
            Err(refused)
        }
    }
}

// A book of two clients beside a journal of this medium carries the rows out.
fn run_on<M: Medium, R: Wait + Abort>(
    rt: &R,
    alloc: Global,
    medium: M,
    run: &Run,
) -> Result<(), AllocError>
    requires some { 1 ≤ length (M.view medium).sectors }
    requires unfailed { (M.view medium).failures ≡ 0 }
{
    let ready = open_two(rt, alloc)?;
    let (marks, owner) = slots(alloc)?;
    let (opened, journal) = histories(alloc)?;
    let parts = BookParts {
        history: opened,
        ledger: Blank::new(3),
        marks,
        owner,
        journal,
        medium,
    };
    carry_out::<M, Brand, R>(rt, alloc, ready, parts, run)
}

// A run beside a journal of a disk in memory. Sector 2,120 is bad.
fn run_on_disk<R: Wait + Abort>(rt: &R, alloc: Global, run: &Run) -> Result<(), AllocError> {
    let medium = disk(alloc, &[2120])?;
    assert!(rt; medium.sectors() == 4096 && medium.failures() == 0);
    run_on(rt, alloc, medium, run)
}

// Two writes, by two clients. The lane of tag 1 comes first to the journal and last to the book.
const LATER_LANE_FIRST: Run = Run {
    rows: &[
        Row::Line("write 1 0 512 01", "request 1 at 0"),
        Row::Line("write 2 512 512 02", "request 2 at 1"),
        Row::Room(2),
        Row::Lane(1, 0),
        Row::Lane(0, 1),
        Row::Line("act 0", "ok"),
        Row::Line("act 1", "ignored"),
        Row::Room(2),
        Row::Line("finish 0", "ok"),
        Row::Room(1),
        Row::Line("finish 1", "ok"),
        Row::Room(0),
    ],
    trace: "call 1 write 0 512 of 0 / start 1 tag 0 2a000000080000000100 / call 2 write 512 512 of 1 / start 2 tag 1 2a000000080100000100 / act 2 / act 1 / return 1 good / answer 1 SUCCESS 512 of 0 / return 2 good / answer 2 SUCCESS 512 of 1",
};

// A read of what the other client wrote. No lane has it act, and its step does. A finish books what a lane left there.
const NO_LANE: Run = Run {
    rows: &[
        Row::Line("write 1 512 512 a5", "request 1 at 0"),
        Row::Line("act 0", "ok"),
        Row::Line("finish 0", "ok"),
        Row::Room(0),
        Row::Line("read 2 512 512", "request 2 at 0"),
        Row::Line("flush 1", "request 3 at 1"),
        Row::Line("act 0", "ok"),
        Row::Lane(1, 2),
        Row::Line("finish 0", "ok"),
        Row::Room(1),
        Row::Line("finish 1", "ok"),
        Row::Room(0),
    ],
    trace: "call 1 write 512 512 of 0 / start 1 tag 0 2a000000080100000100 / act 1 / return 1 good / answer 1 SUCCESS 512 of 0 / call 2 read 512 512 of 1 / start 2 tag 0 28000000080100000100 / call 3 flush of 0 / start 3 tag 1 35000000000000000000 / act 2 / act 3 / return 2 good / answer 2 SUCCESS 512 a5*512 of 1 / return 3 good / answer 3 SUCCESS 0 of 0",
};

// A reset: the piece on the tag fails, and may act in the journal no more.
const RESET: Run = Run {
    rows: &[
        Row::Line("write 1 0 512 04", "request 1 at 0"),
        Row::Line("reset", "ok"),
        Row::Rests(0, 1),
        Row::Line("act 0", "ignored"),
        Row::Room(1),
        Row::Line("finish 0", "ok"),
        Row::Room(0),
    ],
    trace: "call 1 write 0 512 of 0 / start 1 tag 0 2a000000080000000100 / fault 1 / return 1 bad / answer 1 IO_DEVICE_ERROR 0 of 0",
};

// A read of bad sector 2,120 fails in a lane, a second one in its step; a write beside it acts.
const BAD_SECTOR: Run = Run {
    rows: &[
        Row::Line("read 1 36864 512", "request 1 at 0"),
        Row::Line("write 2 512 512 05", "request 2 at 1"),
        Row::LaneFails(0, "ok"),
        Row::Room(2),
        Row::Line("finish 0", "ok"),
        Row::Room(1),
        Row::Line("read 1 36864 512", "request 3 at 0"),
        Row::Line("act 0", "ok"),
        Row::Line("act 1", "ok"),
    ],
    trace: "call 1 read 36864 512 of 0 / start 1 tag 0 28000000084800000100 / call 2 write 512 512 of 1 / start 2 tag 1 2a000000080100000100 / fault 1 / return 1 bad / answer 1 DEVICE_DATA_ERROR 0 of 0 / call 3 read 36864 512 of 0 / start 3 tag 0 28000000084800000100 / fault 3 / act 2",
};

// A read beyond the partition is refused, and needs no room.
const REFUSED: Run = Run {
    rows: &[
        Row::Line("read 1 524288 512", "refused InvalidParameter 512"),
        Row::Room(0),
        Row::Line("flush 2", "request 2 at 0"),
        Row::Line("read 1 524288 512", "refused InvalidParameter 512"),
        Row::Room(1),
    ],
    trace: "call 1 read 524288 512 of 0 / answer 1 INVALID_PARAMETER 0 of 0 / call 2 flush of 1 / start 1 tag 0 35000000000000000000 / call 3 read 524288 512 of 0 / answer 3 INVALID_PARAMETER 0 of 0",
};

// A read that is cancelled while a lane has it act: the entry is there, and booked at the end.
const LEFT_OVER: Run = Run {
    rows: &[
        Row::Line("read 1 0 512", "request 1 at 0"),
        Row::Lane(0, 0),
        Row::Line("cancel 1 1", "ok"),
    ],
    trace: "call 1 read 0 512 of 0 / start 1 tag 0 28000000080000000100 / cancel 1 / act 1",
};

#[test]
fn books_in_the_order_of_entries(rt: HostRuntime) -> Result<(), Fail> {
    for run in [&LATER_LANE_FIRST, &NO_LANE, &LEFT_OVER] {
        run_on_disk(&rt, rt.alloc(), run)?;
    }
    Ok(())
}

#[test]
fn fails_what_did_not_act(rt: HostRuntime) -> Result<(), Fail> {
    for run in [&REFUSED, &RESET, &BAD_SECTOR] {
        run_on_disk(&rt, rt.alloc(), run)?;
    }
    Ok(())
}
