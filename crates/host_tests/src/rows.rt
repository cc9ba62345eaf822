//! Runs of a host, worked by hand.

use crate::desk::{Row, Run, carry_out};
use crate::disks::{disk, start};
use crate::expect::same;
use crate::opening::ready_over;
use crate::user::Deed;
use disk::Medium;
use host::{HostFault, Opened};
use lanes::Step;
use std::alloc::{AllocError, Global};
use std::marker::Brand;
use std::process::Abort;
use std::sync::Wait;
use std::test::Fail;

// A host of a client on each of two partitions, over this medium, carries the rows out.
fn run_over<M: Medium, R: Wait + Abort>(
    rt: &R,
    alloc: Global,
    medium: M,
    run: &Run,
) -> Result<(), AllocError> {
    let ready = ready_over(rt, alloc, medium, 2, &[0, 1])?;
    carry_out::<M, Brand, R>(rt, alloc, ready, run)
}

fn run_on_disk<R: Wait + Abort>(rt: &R, alloc: Global, run: &Run) -> Result<(), AllocError> {
    let medium = disk(alloc, &[])?;
    run_over(rt, alloc, medium, run)
}

// A read by one client, a write by the other, which is answered first.
const TWO_CLIENTS: Run = Run {
    rows: &[
        Row::Line("read 1 0 512", "request 1"),
        Row::Line("write 2 512 512 a5", "request 2"),
        Row::Line("act 1", "ok"),
        Row::Line("finish 1", "ok"),
        Row::Line("act 0", "ok"),
        Row::Line("finish 0", "ok"),
        Row::By(0, Deed::Wait, "answer 1 SUCCESS 512 00*512 at 0, 9"),
        Row::By(1, Deed::Wait, "answer 2 SUCCESS 512 at 2, 6"),
    ],
    trace: "call 1 read 0 512 of 0 / start 1 tag 0 28000000080000000100 / call 2 write 512 512 of 1 / start 2 tag 1 2a0000000c0100000100 / act 2 / return 2 good / answer 2 SUCCESS 512 of 1 / act 1 / return 1 good / answer 1 SUCCESS 512 00*512 of 0",
};

// A write past caches goes with FUA, and a read brings what it wrote.
const THROUGH: Run = Run {
    rows: &[
        Row::Line("write 1 0 512 a5 through", "request 1"),
        Row::Line("act 0", "ok"),
        Row::Line("finish 0", "ok"),
        Row::By(0, Deed::Wait, "answer 1 SUCCESS 512 at 0, 4"),
        Row::Line("read 1 0 512", "request 2"),
        Row::Line("act 0", "ok"),
        Row::Line("finish 0", "ok"),
        Row::By(0, Deed::Wait, "answer 2 SUCCESS 512 a5*512 at 5, 9"),
    ],
    trace: "call 1 write 0 512 through of 0 / start 1 tag 0 2a080000080000000100 / act 1 / return 1 good / answer 1 SUCCESS 512 of 0 / call 2 read 0 512 of 0 / start 2 tag 0 28000000080000000100 / act 2 / return 2 good / answer 2 SUCCESS 512 a5*512 of 0",
};

// A write of four pieces that is marked with two of them out. The next step cancels it first. Once it is answered, it
// is in its slot no more.
const MARKED: Run = Run {
    rows: &[
        Row::Line("write 1 0 131072 a5", "request 1"),
        Row::By(0, Deed::Mark, "Marked"),
        Row::By(0, Deed::Mark, "Already"),
        Row::Line("act 0", "ok"),
        Row::Line("finish 0", "ok"),
        Row::Line("act 1", "ok"),
        Row::Line("finish 1", "ok"),
        Row::By(0, Deed::Mark, "Gone"),
        Row::By(0, Deed::Wait, "answer 1 CANCELLED 0 at 0, 8"),
    ],
    trace: "call 1 write 0 131072 of 0 / start 1 tag 0 2a000000080000004000 / start 2 tag 1 2a000000084000004000 / cancel 1 / act 1 / return 1 good / act 2 / return 2 good / answer 1 CANCELLED 0 of 0",
};

// The second client marks its write of two pieces, beside a read of the first. The write is in another slot than the
// read.
const MARKED_BESIDE: Run = Run {
    rows: &[
        Row::Line("read 1 0 512", "request 1"),
        Row::Line("write 2 0 65536 a5", "request 2"),
        Row::By(1, Deed::Mark, "Marked"),
        Row::Line("act 0", "ok"),
        Row::By(1, Deed::Mark, "Already"),
        Row::Line("finish 0", "ok"),
        Row::By(0, Deed::Mark, "Gone"),
        Row::By(0, Deed::Wait, "answer 1 SUCCESS 512 00*512 at 0, 7"),
        Row::Line("act 1", "ok"),
        Row::Line("finish 1", "ok"),
        Row::By(1, Deed::Mark, "Gone"),
        Row::By(1, Deed::Wait, "answer 2 CANCELLED 0 at 2, 10"),
    ],
    trace: "call 1 read 0 512 of 0 / start 1 tag 0 28000000080000000100 / call 2 write 0 65536 of 1 / start 2 tag 1 2a0000000c0000004000 / cancel 2 / act 1 / return 1 good / answer 1 SUCCESS 512 00*512 of 0 / act 2 / return 2 good / answer 2 CANCELLED 0 of 1",
};

// A read past the partition is refused with both of its places. A flush goes by its lane, and then nothing is out.
const PAST: Run = Run {
    rows: &[
        Row::Line("read 1 524288 512", "InvalidParameter 512 at 0, 1"),
        Row::Line("flush 2", "request 2"),
        Row::Lane(0, Step::Ready),
        Row::By(1, Deed::Wait, "answer 2 SUCCESS 0 at 2, 6"),
        Row::Line("act 0", "ignored"),
        Row::Line("finish 0", "ignored"),
        Row::Line("reset", "ok"),
    ],
    trace: "call 1 read 524288 512 of 0 / answer 1 INVALID_PARAMETER 0 of 0 / call 2 flush of 1 / start 1 tag 0 35000000000000000000 / act 1 / return 1 good / answer 2 SUCCESS 0 of 1",
};

// A read that is answered at once, a flush with no lane, and a removal, after which no call reaches the trace. Calls
// still do after a removal that is refused.
const REMOVED: Run = Run {
    rows: &[
        Row::Line("read 2 0 0", "request 1"),
        Row::By(1, Deed::Mark, "Gone"),
        Row::By(1, Deed::Wait, "answer 1 SUCCESS 0 at 0, 1"),
        Row::Line("flush 2", "request 2"),
        Row::Line("act 0", "ok"),
        Row::Line("finish 0", "ok"),
        Row::By(1, Deed::Wait, "answer 2 SUCCESS 0 at 2, 6"),
        Row::Line("query-remove", "ok"),
        Row::Line("cancel-remove", "ok"),
        Row::Line("remove", "refused InvalidDeviceRequest 0"),
        Row::Line("read 2 0 0", "request 3"),
        Row::By(1, Deed::Wait, "answer 3 SUCCESS 0 at 9, 10"),
        Row::Line("query-remove", "ok"),
        Row::Line("remove", "ok"),
        Row::Lane(1, Step::Ended),
        Row::Line("read 2 0 512", "DeletePending 512"),
    ],
    trace: "call 1 read 0 0 of 1 / answer 1 SUCCESS 0 of 1 / call 2 flush of 1 / start 1 tag 0 35000000000000000000 / act 1 / return 1 good / answer 2 SUCCESS 0 of 1 / pause / resume / call 3 read 0 0 of 1 / answer 3 SUCCESS 0 of 1 / pause / remove / removed",
};

// While a piece is out a client waits, and a query is asked, which holds a read, and taken back. No call does more than
// it says.
const RECALLED: Run = Run {
    rows: &[
        Row::Line("read 1 0 512", "request 1"),
        Row::Line("read 2 0 0", "request 2"),
        Row::By(1, Deed::Wait, "answer 2 SUCCESS 0 at 2, 3"),
        Row::Line("query-remove", "ok"),
        Row::Line("read 2 512 512", "request 3"),
        Row::Line("cancel-remove", "ok"),
        Row::Line("act 0", "ok"),
        Row::Line("finish 0", "ok"),
        Row::By(0, Deed::Wait, "answer 1 SUCCESS 512 00*512 at 0, 10"),
        Row::Line("act 1", "ok"),
        Row::Line("finish 1", "ok"),
        Row::By(1, Deed::Wait, "answer 3 SUCCESS 512 00*512 at 5, 13"),
    ],
    trace: "call 1 read 0 512 of 0 / start 1 tag 0 28000000080000000100 / call 2 read 0 0 of 1 / answer 2 SUCCESS 0 of 1 / pause / call 3 read 512 512 of 1 / resume / start 2 tag 1 280000000c0100000100 / act 1 / return 1 good / answer 1 SUCCESS 512 00*512 of 0 / act 2 / return 2 good / answer 3 SUCCESS 512 00*512 of 1",
};

// The device is pulled out under clients that have called nothing.
const SURPRISED: Run = Run {
    rows: &[
        Row::Line("surprise-remove", "ok"),
        Row::Line("flush 1", "DeletePending 0"),
    ],
    trace: "surprise / removed",
};

// Sixty-four tickets of one client, and one more.
const TICKETS: Run = Run {
    rows: &[
        Row::By(0, Deed::Fill, "request 64"),
        Row::Line("read 1 0 512", "TooManyTickets 512"),
    ],
    trace: "call 1 read 0 512 of 0 / start 1 tag 0 28000000080000000100 / call 2 read 512 512 of 0 / start 2 tag 1 28000000080100000100 / call 3 read 1024 512 of 0 / call 4 read 1536 512 of 0 / call 5 read 2048 512 of 0 / call 6 read 2560 512 of 0 / call 7 read 3072 512 of 0 / call 8 read 3584 512 of 0 / call 9 read 4096 512 of 0 / call 10 read 4608 512 of 0 / call 11 read 5120 512 of 0 / call 12 read 5632 512 of 0 / call 13 read 6144 512 of 0 / call 14 read 6656 512 of 0 / call 15 read 7168 512 of 0 / call 16 read 7680 512 of 0 / call 17 read 8192 512 of 0 / call 18 read 8704 512 of 0 / call 19 read 9216 512 of 0 / call 20 read 9728 512 of 0 / call 21 read 10240 512 of 0 / call 22 read 10752 512 of 0 / call 23 read 11264 512 of 0 / call 24 read 11776 512 of 0 / call 25 read 12288 512 of 0 / call 26 read 12800 512 of 0 / call 27 read 13312 512 of 0 / call 28 read 13824 512 of 0 / call 29 read 14336 512 of 0 / call 30 read 14848 512 of 0 / call 31 read 15360 512 of 0 / call 32 read 15872 512 of 0 / call 33 read 16384 512 of 0 / call 34 read 16896 512 of 0 / call 35 read 17408 512 of 0 / call 36 read 17920 512 of 0 / call 37 read 18432 512 of 0 / call 38 read 18944 512 of 0 / call 39 read 19456 512 of 0 / call 40 read 19968 512 of 0 / call 41 read 20480 512 of 0 / call 42 read 20992 512 of 0 / call 43 read 21504 512 of 0 / call 44 read 22016 512 of 0 / call 45 read 22528 512 of 0 / call 46 read 23040 512 of 0 / call 47 read 23552 512 of 0 / call 48 read 24064 512 of 0 / call 49 read 24576 512 of 0 / call 50 read 25088 512 of 0 / call 51 read 25600 512 of 0 / call 52 read 26112 512 of 0 / call 53 read 26624 512 of 0 / call 54 read 27136 512 of 0 / call 55 read 27648 512 of 0 / call 56 read 28160 512 of 0 / call 57 read 28672 512 of 0 / call 58 read 29184 512 of 0 / call 59 read 29696 512 of 0 / call 60 read 30208 512 of 0 / call 61 read 30720 512 of 0 / call 62 read 31232 512 of 0 / call 63 read 31744 512 of 0 / call 64 read 32256 512 of 0",
};

// The stack or the host refuses these partitions.
fn compare_fault(
    rt: &impl Abort,
    alloc: Global,
    partitions: &[u8],
    want: HostFault,
) -> Result<(), AllocError> {
    let (stack, sizes) = start(rt, alloc, 2)?;
    match Opened::new(alloc, stack, sizes, 64, partitions) {
        Ok(_) => panic!(rt; "opened"),
        Err(HostFault::NoMemory) => Err(AllocError),
        Err(fault) => {
            same(rt, &fault, &want);
            Ok(())
        }
    }
}

#[test]
fn serves_two_clients(rt: HostRuntime) -> Result<(), Fail> {
    for run in [
        &TWO_CLIENTS,
        &PAST,
        &THROUGH,
        &MARKED,
        &MARKED_BESIDE,
        &RECALLED,
    ] {
        run_on_disk(&rt, rt.alloc(), run)?;
    }
    Ok(())
}

#[test]
fn removes_with_nothing_open(rt: HostRuntime) -> Result<(), Fail> {
    for run in [&REMOVED, &SURPRISED, &TICKETS] {
        run_on_disk(&rt, rt.alloc(), run)?;
    }
    Ok(())
}

#[test]
fn opens_no_host(rt: HostRuntime) -> Result<(), Fail> {
    let alloc = rt.alloc();
    compare_fault(&rt, alloc, &[0, 2], HostFault::NoPartition)?;
    compare_fault(&rt, alloc, &[0; 65], HostFault::TooManyClients)?;
    Ok(())
}
