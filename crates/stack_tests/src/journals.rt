//! Stacks whose sectors stand in a journal: they show the same as stacks over a disk, row by row, and the entries of
//! the journal, replayed on a fresh disk, read the same bytes and leave the same sectors.

ghost use Rattle.std.specs.Prelude.{◌≡◌, [], IfOk, IsFalse, IsTrue};
ghost use Rattle.disk.specs.Medium.{HasWholeSectors};
ghost use Rattle.probe.specs.Exchange.{IsIdle};
ghost use Rattle.journaled.specs.Opening.{IsStarted};

use crate::calls::WRITE_AND_READ;
use crate::disks::{ONE, Reluctant, adapter, disk, sector_0};
use crate::expect::{same, same_text};
use crate::playing::{Carrier, play, stack_on};
use adapter::Adapter;
use compose::{Answer, Event, Reply, Settings, Stack, StartFault};
use disk::{Medium, VecDisk};
use journal_replay::ReplayFault;
use journaled::Journaled;
use machine::Label;
use miniport::BookedAdapter;
use sector::Extent;
use sector_journal::{Entered, Journal, Naming, Opened};
use std::alloc::{AllocError, Global};
use std::marker::Brand;
use std::process::Abort;
use std::test::Fail;

impl<M: Medium, N: Naming> Carrier for Journaled<M, N> {
    ghost labels = { λ j. j.stack.labels };

    fn step(&mut self, alloc: Global, event: Event) -> Reply {
        self.step(alloc, event)
    }

    fn take_label(&mut self) -> Option<Label> {
        self.take_label()
    }

    fn take_answer(&mut self) -> Option<Answer> {
        self.take_answer()
    }
}

/// A medium's sectors are whole.
fn has_whole_sectors<M: Medium>(_medium: &M)
    ensures { HasWholeSectors (M.view _medium.now) }
{}

/// A stack over an adapter without sectors, for a disk of 4,096 of 512 bytes.
fn started_apart<A: Adapter>(
    rt: &impl Abort,
    alloc: Global,
    adapter: A,
) -> Result<Stack<A>, AllocError>
    requires idle { IsIdle (A.view adapter) }
    requires unasked { (A.view adapter).accepted ≡ 0 }
    ensures started { IfOk result IsStarted }
    ensures apart { IfOk result (λ s. IsFalse s.adapter.faithful) }
    ensures bytes { IfOk result (λ s. IsTrue s.rules.keeps_bytes) }
    ensures sizes { IfOk result (λ s. (s.rules.sector_size ≡ 512) × (s.rules.disk_sectors ≡ 4096) × (s.rules.max_transfer ≡ 2)) }
    ensures taken { IfOk result (λ s. s.labels ≡ []) }
{
    let keeps_bytes = adapter.keeps_bytes();
    assert!(rt; keeps_bytes);
    let size = adapter.sector_size();
    let sectors = adapter.sectors();
    let faithful = adapter.is_faithful();
    let most = adapter.max_transfer();
    assert!(rt; size == 512 && sectors == 4096);
    assert!(rt; most == 2 && !faithful);
    let settings = Settings {
        window: 2,
        open_requests: 4,
    };
    match Stack::start(alloc, adapter, settings) {
        Ok(stack) => Ok(stack),
        Err(why) => match why.fault {
            StartFault::NoMemory => Err(AllocError),
            fault => panic!(rt; "{fault:?}"),
        },
    }
}

/// An adapter of two tags without sectors, which moves two at most.
fn adapter_apart(alloc: Global) -> Result<BookedAdapter, AllocError>
    ensures idle { IfOk result (λ a. IsIdle a.shown) }
    ensures unasked { IfOk result (λ a. a.shown.accepted ≡ 0) }
{
    let first = Vec::from_slice(alloc, &sector_0(ONE))?;
    BookedAdapter::new(alloc, first, 4096, 2, 2).map_err(|_| AllocError)
}

/// A stack over such an adapter.
fn stack_apart(rt: &impl Abort, alloc: Global) -> Result<Stack<BookedAdapter>, AllocError>
    ensures started { IfOk result IsStarted }
    ensures apart { IfOk result (λ s. IsFalse s.adapter.faithful) }
    ensures bytes { IfOk result (λ s. IsTrue s.rules.keeps_bytes) }
    ensures sizes { IfOk result (λ s. (s.rules.sector_size ≡ 512) × (s.rules.disk_sectors ≡ 4096) × (s.rules.max_transfer ≡ 2)) }
    ensures taken { IfOk result (λ s. s.labels ≡ []) }
{
    let adapter = adapter_apart(alloc)?;
    started_apart(rt, alloc, adapter)
}

/// The stack over a journal of this medium, of 4,096 sectors of 512 bytes.
fn journaled_on<M: Medium, N: Naming>(
    rt: &impl Abort,
    alloc: Global,
    opened: Opened,
    medium: M,
    write_protected: bool,
) -> Result<Journaled<M, N>, AllocError>
    requires named { opened ≡ record { armings = N.armings; entries = N.entries } }
    requires opening { (M.view medium).sectors ≡ N.opening }
    ensures { IfOk result (λ j. j.stack.labels ≡ []) }
{
    has_whole_sectors(&medium);
    let sectors = medium.sectors();
    let size = medium.sector_size();
    assert!(rt; size == 512 && sectors == 4096);
    assert!(rt; medium.failures() == 0);
    let (journal, history) = Journal::new(alloc, opened, medium, 2, write_protected)?;
    let stack = stack_apart(rt, alloc)?;
    Ok(Journaled::new(stack, journal, history, 2))
}

/// The sectors that a test may move.
const MOVED: Extent = Extent {
    first: 2048,
    count: 64,
};

/// Replays the entries, one after the other, on a disk as it was. Each read gives the bytes of its entry, and in the
/// end the sectors are those of the journal's medium.
fn replay<M: Medium>(
    rt: &impl Abort,
    alloc: Global,
    medium: &mut M,
    entries: &[Entered],
) -> Result<(), AllocError> {
    let mut fresh = disk(alloc, ONE, &[])?;
    match journal_replay::replay(alloc, entries, &mut fresh, medium, &[MOVED]) {
        Ok(()) => Ok(()),
        Err(ReplayFault::NoMemory) => Err(AllocError),
        Err(fault) => panic!(rt; "{fault}"),
    }
}

/// A script, and what it is to show.
#[derive(Clone, Copy)]
struct Case<'a> {
    script: &'a str,
    is_write_protected: bool,
    wanted: &'a [u8],
}

/// How many of the labels that a text shows are acts.
fn acts_in(text: &[u8]) -> usize {
    let lines = text.split(|byte| *byte == b'\n');
    lines.filter(|line| line.starts_with(b"act ")).count()
}

/// Checks that a script over a journal of this medium shows just what is wanted, with an entry for each act.
fn play_named<M: Medium, N: Naming>(
    rt: &impl Abort,
    alloc: Global,
    opened: Opened,
    medium: M,
    case: &Case<'_>,
) -> Result<(), AllocError>
    requires named { opened ≡ record { armings = N.armings; entries = N.entries } }
    requires opening { (M.view medium).sectors ≡ N.opening }
{
    let mut journaled: Journaled<M, N> = journaled_on(
        rt,
        alloc,
        opened,
        medium,
        case.is_write_protected,
    )?;
    let shown = play(rt, alloc, &mut journaled, case.script);
    let (_stack, mut medium, entries) = journaled.into_parts();
    same_text(rt, shown?.as_slice(), case.wanted);
    same(rt, &entries.len(), &acts_in(case.wanted));
    replay(rt, alloc, &mut medium, entries.as_slice())
}

fn play_over<M: Medium>(
    rt: &impl Abort,
    alloc: Global,
    medium: M,
    case: &Case<'_>,
) -> Result<(), AllocError> {
    let opened = Opened::new(alloc)?;
    play_named::<M, Brand>(rt, alloc, opened, medium, case)
}

/// What a script shows over a medium, with no journal.
fn shown_over<M: Medium>(
    rt: &impl Abort,
    alloc: Global,
    medium: M,
    script: &str,
    is_write_protected: bool,
) -> Result<Vec<u8>, AllocError> {
    let adapter = adapter(rt, alloc, medium, 2, is_write_protected)?;
    let mut stack = stack_on(rt, alloc, adapter)?;
    play(rt, alloc, &mut stack, script)
}

// These stand in `examples/rows/every_event`, with what each shows.
const ALL_IN_ONE_RUN: &str =
    "open 0\nopen 0\nwrite 1 0 1024 11\ncancel 1 2\ncancel 2 1\ncancel 1 1\ncancel 1 1\n\
    write 1 1024 512 22 through\nact 0\nfinish 0\nact 1\nfinish 1\nread 1 0 1536\nact 1\nfinish 1\nfinish 0\n\
    act 0\nfinish 0\nflush 1\nread 1 0 512\nread 2 512 512\nwrite 1 0 512 33\nwrite 1 0 512 44\nmark 6\nmark 6\n\
    cancel 2\ncancel 1\nact 0\nfinish 0\nfinish 1\nfinish 1\nread 1 0 2048\nwrite 1 0 512 55\nmark 10\n\
    write 1 512 512 66\nact 0\nreset\nfinish 0\nfinish 1\nact 0\nfinish 0\nremove\nwrite 1 0 512 77\n\
    query-remove\nquery-remove\nread 1 0 512\nact 0\nfinish 0\ncancel-remove\ncancel-remove\nread 2 512 512\n\
    write 2 0 512 88\nclose 2\nclose 2\nfinish 1\nread 1 0 2048\nwrite 1 0 512 99\nquery-remove\nremove\n\
    surprise-remove\ncancel-remove\nopen 0\nread 1 0 512\nact 1\nfinish 1\nfinish 0";

const PULLED_OUT: &str = "open 0\nread 1 0 1024\nsurprise-remove\nact 0\nfinish 0\nflush 1";

const BAD_SECTOR: &str =
    "open 0\nread 1 36864 512\nact 0\nact 0\nfinish 0\nflush 1\nact 0\nfinish 0";

// Sector 2,120 is bad.
#[test]
fn a_journal_shows_what_a_disk_does(rt: HostRuntime) -> Result<(), Fail> {
    let alloc = rt.alloc();
    let scripts = [
        (ALL_IN_ONE_RUN, false),
        (PULLED_OUT, false),
        (BAD_SECTOR, false),
        (WRITE_AND_READ, false),
        (WRITE_AND_READ, true),
    ];
    for (script, is_write_protected) in scripts {
        let medium = disk(alloc, ONE, &[2120])?;
        let wanted = shown_over(&rt, alloc, medium, script, is_write_protected)?;
        let case = Case {
            script,
            is_write_protected,
            wanted: wanted.as_slice(),
        };
        play_over(&rt, alloc, disk(alloc, ONE, &[2120])?, &case)?;
    }
    Ok(())
}

// Two writes are refused by a medium that has no memory for them, each time it is asked. They leave nothing behind: the
// next call has the first number, and goes as ever.
const REFUSED_TWICE: Case<'static> = Case {
    script: "open 0\nwrite 1 0 512 a5\nread 1 512 512\nwrite 1 0 512 a5\nwrite 1 0 512 a5\nact 1\nfinish 1",
    is_write_protected: false,
    wanted: b"> open 0\nhandle 1\n> write 1 0 512 a5\nrefused E5\n\
    > read 1 512 512\nrequest 1\ncall 1 read 512 512\nstart 1 tag 0 28000000080100000100\n\
    > write 1 0 512 a5\nrefused E5\n\
    > write 1 0 512 a5\nrequest 2\ncall 2 write 0 512\nstart 2 tag 1 2a000000080000000100\n\
    > act 1\nok\nact 2\n> finish 1\nok\nreturn 2 good\nanswer 2 SUCCESS 512\n\
    answer 2 SUCCESS 512\n",
};

/// A disk that refuses four times to reserve sectors: a script asks twice for each write.
fn reluctant(alloc: Global) -> Result<Reluctant<VecDisk>, AllocError> {
    Ok(Reluctant {
        medium: disk(alloc, ONE, &[])?,
        refusals: 4,
    })
}

#[test]
fn a_medium_refuses_a_write_twice(rt: HostRuntime) -> Result<(), Fail> {
    let alloc = rt.alloc();
    let shown = shown_over(&rt, alloc, reluctant(alloc)?, REFUSED_TWICE.script, false)?;
    same_text(&rt, shown.as_slice(), REFUSED_TWICE.wanted);
    play_over(&rt, alloc, reluctant(alloc)?, &REFUSED_TWICE)?;
    Ok(())
}
