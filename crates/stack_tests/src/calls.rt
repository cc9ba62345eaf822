//! What a stack can't be started over; what it tells beforehand of a call; events in one run; and an act that fails in
//! the middle of a request.

ghost use Rattle.std.specs.Prelude.{◌≡◌};
ghost use Rattle.probe.specs.Exchange.{IsIdle};

use crate::disks::{MIDDLE, TWO, Table, adapter, disk};
use crate::expect::{same, same_text};
use crate::playing::{play, run, stack_on};
use adapter::Adapter;
use compose::{Event, Handle, MbrFault, NotStarted, Settings, Stack, StartFault};
use miniport::PlannedAdapter;
use ntstatus::NtStatus;
use sector::Bytes;
use std::alloc::{AllocError, Global};
use std::process::Abort;
use std::test::Fail;

const UNUSED: (u8, u32, u32) = (0, 0, 0);

/// A disk by its table and its bad sector, the limits of requests at work and open, and what stops a start.
type Start<'a> = (Table<'a>, u64, (u32, u32), Option<StartFault>);

/// Returns what stops a start, if anything. The adapter comes back either way.
fn fault<A: Adapter>(
    rt: &impl Abort,
    alloc: Global,
    adapter: A,
    settings: Settings,
) -> Result<Option<StartFault>, AllocError>
    requires idle { IsIdle (A.view adapter) }
    requires unasked { (A.view adapter).accepted ≡ 0 }
{
    let sectors = adapter.sectors();
    let (adapter, fault) = match Stack::start(alloc, adapter, settings) {
        Ok(stack) => (stack.into_adapter(), None),
        Err(NotStarted { fault, adapter }) => (adapter, Some(fault)),
    };
    same(rt, &adapter.sectors(), &sectors);
    match fault {
        Some(StartFault::NoMemory) => Err(AllocError),
        fault => Ok(fault),
    }
}

/// Starts a stack over each disk, and checks what stops it.
fn start_all(rt: &impl Abort, alloc: Global, rows: &[Start]) -> Result<(), AllocError> {
    for (table, bad, (window, open_requests), wanted) in rows {
        let medium = disk(alloc, *table, &[*bad])?;
        let adapter = adapter(rt, alloc, medium, 2, false)?;
        let settings = Settings {
            window: *window,
            open_requests: *open_requests,
        };
        same(rt, &fault(rt, alloc, adapter, settings)?, wanted);
    }
    Ok(())
}

// Settings are looked at before the disk, and the disk before its table. Of four partitions the last begins at sector 2.
#[test]
fn starts_or_says_why(rt: HostRuntime) -> Result<(), Fail> {
    let past_end = [(7, 4095, 2)];
    let overlapping = [MIDDLE, UNUSED, (7, 3000, 10)];
    let four = [(7, 1, 1), (7, 4095, 1), MIDDLE, (0xEE, 2, 2046)];
    let out = Some(StartFault::Settings);
    let unread = Some(StartFault::Device(NtStatus::DeviceDataError));
    let no_signature = Some(StartFault::Mbr(MbrFault::NoSignature));
    let past = Some(StartFault::Mbr(MbrFault::PastEnd));
    let overlap = Some(StartFault::Mbr(MbrFault::Overlap));
    start_all(
        &rt,
        rt.alloc(),
        &[
            (None, 0, (0, 1), out),
            (None, 0, (1, 0), out),
            (None, 0, (65, 64), out),
            (None, 0, (64, 65), out),
            (None, 0, (1, 1), unread),
            (None, 1, (64, 1), no_signature),
            (Some(&past_end), 1, (1, 64), past),
            (Some(&overlapping), 1, (64, 64), overlap),
            (Some(&[]), 1, (1, 1), None),
            (Some(&four), 1, (64, 64), None),
        ],
    )?;
    Ok(())
}

// What a call would open: its pieces, of 64 sectors at most, and its sectors of the disk.
#[test]
fn tells_what_a_call_would_open(rt: HostRuntime) -> Result<(), Fail> {
    let alloc = rt.alloc();
    let adapter = adapter(&rt, alloc, disk(alloc, TWO, &[])?, 64, false)?;
    let mut stack = stack_on(&rt, alloc, adapter)?;
    play(&rt, alloc, &mut stack, "open 1")?;
    let handle = Handle { slot: 0, number: 1 };
    let calls = [(1024, 33_280, Some((2, 3074, 65))), (1, 512, None)];
    for (offset, length, wanted) in calls {
        let buffer = Bytes::new(vec![in alloc; 0; length]?);
        let event = Event::Read {
            handle,
            offset,
            buffer,
        };
        let told = stack
            .admits(&event)
            .map(|(pieces, it)| (pieces, it.first, it.count));
        same(&rt, &told, &wanted);
    }
    Ok(())
}

pub(crate) const WRITE_AND_READ: &str =
    "open 0\nwrite 1 0 512 a5\nact 0\nfinish 0\nread 1 0 512\nact 0\nfinish 0";

const WRITTEN_AND_READ: &[u8] = b"> open 0\nhandle 1\n> write 1 0 512 a5\nrequest 1\n\
    call 1 write 0 512\nstart 1 tag 0 2a000000080000000100\n> act 0\nok\nact 1\n\
    > finish 0\nok\nreturn 1 good\nanswer 1 SUCCESS 512\n> read 1 0 512\nrequest 2\n\
    call 2 read 0 512\nstart 2 tag 0 28000000080000000100\n> act 0\nok\nact 2\n\
    > finish 0\nok\nreturn 2 good\nanswer 2 SUCCESS 512 a5*512\n";

#[test]
fn carries_events_out_in_one_run(rt: HostRuntime) -> Result<(), Fail> {
    let alloc = rt.alloc();
    let adapter = adapter(&rt, alloc, disk(alloc, TWO, &[])?, 64, false)?;
    let mut stack = stack_on(&rt, alloc, adapter)?;
    run(&rt, alloc, &mut stack, WRITE_AND_READ, WRITTEN_AND_READ)?;
    Ok(())
}

/// How many acts go before the one that fails: two of the start, and the first of the write.
const BEFORE: u64 = 3;

// A write of four pieces is cancelled with two of them started, and the second one fails. It is the lowest that did not
// succeed, below the two that were never sent. What the first piece wrote stands, and the failed act wrote nothing.
const SECOND_PIECE_FAILS: &str =
    "open 0\nwrite 1 0 131072 a5\ncancel 1 1\nact 0\nfinish 0\nact 1\nfinish 1\n\
    read 1 0 65536\nact 0\nfinish 0\nact 1\nfinish 1";

const SECOND_PIECE_FAILED: &[u8] = b"> open 0\nhandle 1\n> write 1 0 131072 a5\nrequest 1\n\
    call 1 write 0 131072\nstart 1 tag 0 2a000000080000004000\n\
    start 2 tag 1 2a000000084000004000\n> cancel 1 1\nok\ncancel 1\n> act 0\nok\nact 1\n\
    > finish 0\nok\nreturn 1 good\n> act 1\nok\nfault 2\n\
    > finish 1\nok\nreturn 2 bad\nanswer 1 IO_DEVICE_ERROR 0\n\
    > read 1 0 65536\nrequest 2\ncall 2 read 0 65536\nstart 3 tag 0 28000000080000004000\n\
    start 4 tag 1 28000000084000004000\n> act 0\nok\nact 3\n> finish 0\nok\nreturn 3 good\n\
    > act 1\nok\nact 4\n> finish 1\nok\nreturn 4 good\n\
    answer 2 SUCCESS 65536 a5*32768,00*32768\n\
    answer 1 IO_DEVICE_ERROR 0\nanswer 2 SUCCESS 65536 a5*32768,00*32768\n";

#[test]
fn one_act_fails_in_a_cancelled_write(rt: HostRuntime) -> Result<(), Fail> {
    let alloc = rt.alloc();
    let medium = disk(alloc, TWO, &[])?;
    let adapter = PlannedAdapter::failing_once(
        alloc,
        adapter(&rt, alloc, medium, 64, false)?,
        BEFORE,
    )?;
    let mut stack = stack_on(&rt, alloc, adapter)?;
    let shown = play(&rt, alloc, &mut stack, SECOND_PIECE_FAILS)?;
    same_text(&rt, shown.as_slice(), SECOND_PIECE_FAILED);
    Ok(())
}
