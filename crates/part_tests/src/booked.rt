//! Acts that are booked, of a disk whose sectors stand elsewhere.

ghost use Rattle.std.specs.Prelude.{◌≡◌, ◌≤◌, ◌<◌, ◌^◌, length, IfOk};

use crate::adapters::{End, SCSI, act, completion_of, finish, put, srb_of};
use crate::expect::same;
use miniport::{Adapter, BookedAdapter, may_be_entry_of};
use sector::{Bytes, Extent};
use srb::{Booked, Completion, DeviceLabel, Entry, Kind, Srb};
use std::alloc::{AllocError, Global};
use std::process::Abort;
use std::test::Fail;

/// An adapter of two tags for a disk of four sectors, which stand elsewhere. The first of them is full of 11h.
fn elsewhere(alloc: Global) -> Result<BookedAdapter, Fail>
    ensures accepted { IfOk result (λ a. a.shown.accepted ≡ 0) }
    ensures labels { IfOk result (λ a. length a.shown.labels ≡ 0) }
{
    let first = Vec::from_slice(alloc, &[0x11; 512])?;
    Ok(BookedAdapter::new(alloc, first, 4, 64, 2)?)
}

/// A command: its flags, its block and the length of its data.
type Asked<'a> = (u8, &'a [u8], usize);

/// An entry: its kind, its first sector, the number of its sectors, the number of its bytes, and the value of each
/// byte.
type Done = (Kind, u64, u64, usize, u8);

/// How an act is handed over.
#[derive(Clone, Copy)]
enum How {
    /// It hands its entry over, to be copied.
    Copied,
    /// It hands its entry over, whose bytes may be taken.
    Taken,
    /// It says that it moved what the SRB sends.
    Sent,
    /// It fails in this way.
    Fails(End),
}

use End::{Checked, Good};
use How::{Copied, Fails, Sent, Taken};

/// The entry of piece 1 on tag 0.
fn entry(alloc: Global, done: Done) -> Result<Entry, AllocError>
    requires { done.3 < 2 ^ 40 }
{
    let (kind, first, count, length, byte) = done;
    let bytes = vec![in alloc; byte; length]?;
    Ok(Entry {
        piece: 1,
        tag: 0,
        extent: Extent { first, count },
        kind,
        bytes: Bytes::new(bytes),
    })
}

/// Books on a tag that a piece did this.
fn book_as<A: Adapter>(adapter: &mut A, tag: u8, piece: u128, entry: &mut Entry, how: How) {
    match how {
        Copied => adapter.book(tag, piece, Booked::Copied(entry)),
        Taken => adapter.book(tag, piece, Booked::Taken(entry)),
        Sent => adapter.book(tag, piece, Booked::Sent),
        Fails(end) => adapter.book(tag, piece, Booked::Failed(completion_of(end))),
    }
}

/// Checks that piece 1 was started, on tag 0.
fn is_started<A: Adapter>(rt: &impl Abort, adapter: &mut A) {
    assert!(rt; matches!(adapter.take_label(), Some(DeviceLabel::Start { .. })));
    assert!(rt; adapter.armed(1).is_none());
    assert!(rt; matches!(adapter.armed(0), Some((1, _))));
}

/// Books this of piece 1 on tag 0, which was started, and of two pieces that are not there. No label is left.
fn book<A: Adapter>(rt: &impl Abort, adapter: &mut A, entry: &mut Entry, how: How)
    ensures { length (A.view adapter.new).labels ≡ 0 }
{
    is_started(rt, adapter);
    book_as(adapter, 1, 1, entry, how);
    book_as(adapter, 0, 2, entry, how);
    book_as(adapter, 0, 1, entry, how);
    assert!(rt; adapter.take_label().is_none());
}

/// The first of some bytes, or 0 where there are none.
fn first_of(bytes: &Bytes) -> u8 {
    bytes.as_slice().first().copied().unwrap_or(0)
}

/// The SRB of a command, with its data full of A5h.
fn srb_for(alloc: Global, asked: Asked) -> Result<Srb, Fail>
    requires { asked.2 ≤ 512 }
    ensures { IfOk result (λ s. length s.data ≤ s.for_label) }
{
    let (flags, block, count) = asked;
    srb_of(alloc, SCSI, flags, block, count, 0xA5)
}

/// Books the act of piece 1 on tag 0. Returns whether it acted, with what first byte the SRB comes back, and how it ends.
fn acts_as<A: Adapter>(
    rt: &impl Abort,
    adapter: &mut A,
    entry: &mut Entry,
    how: How,
) -> Result<(bool, u8, Completion), Fail> {
    book(rt, adapter, entry, how);
    act(rt, adapter, 0);
    assert!(rt; adapter.armed(0).is_none());
    let acted = matches!(adapter.take_label(), Some(DeviceLabel::Act { .. }));
    let (srb, completion) = finish(adapter, 0)?;
    Ok((acted, first_of(&srb.data), completion))
}

/// Books what a row says of an SRB's act, and checks how the SRB comes back, whether it acted, and with what the entry
/// is left.
fn comes_back<A: Adapter>(
    rt: &impl Abort,
    alloc: Global,
    mut adapter: A,
    row: &Row,
) -> Result<(), Fail>
    requires few { (A.view adapter).accepted ≡ 0 }
    requires place { length (A.view adapter).labels ≡ 0 }
{
    let (asked, done, how, (byte, end, acts), left) = *row;
    assert!(rt; asked.2 <= 512 && done.3 <= 512);
    let mut entry = entry(alloc, done)?;
    put(rt, &mut adapter, 0, 1, srb_for(alloc, asked)?)?;
    let (acted, first, completion) = acts_as(rt, &mut adapter, &mut entry, how)?;
    same(rt, &first, &byte);
    same(rt, &completion, &completion_of(end));
    same(rt, &acted, &acts);
    same(rt, &first_of(&entry.bytes), &left);
    Ok(())
}

const A_READ: Asked<'static> = (0x40, &[0x28, 0, 0, 0, 0, 0, 0, 0, 1, 0], 512);

const A_WRITE: Asked<'static> = (0x80, &[0x2A, 0, 0, 0, 0, 0, 0, 0, 1, 0], 512);

const A_FLUSH: Asked<'static> = (0, &[0x35, 0, 0, 0, 0, 0, 0, 0, 0, 0], 0);

const A_QUESTION: Asked<'static> = (0x40, &[0x25, 0, 0, 0, 0, 0, 0, 0, 0, 0], 8);

const ONE_READ: Done = (Kind::Read, 0, 1, 512, 0x5A);

const OTHER_READ: Done = (Kind::Read, 1, 1, 512, 0x5A);

const ONE_WRITE: Done = (Kind::Write, 0, 1, 512, 0xA5);

/// What an SRB asks for, what is booked of its act, and how that is handed over. Then the first byte that the SRB comes
/// back with, how it ends, and whether it acted. Last the first byte that the entry is left with.
type Row = (Asked<'static>, Done, How, (u8, End, bool), u8);

/// How a piece comes back that sent its bytes, that read, of which nothing could be booked, and that failed.
const ACTED: (u8, End, bool) = (0xA5, Good, true);

const READ: (u8, End, bool) = (0x5A, Good, true);

const UNBOOKED: (u8, End, bool) = (0xA5, Checked(4, 0), false);

const FAILED: (u8, End, bool) = (0xA5, Checked(3, 0x11), false);

const BOOKED: &[Row] = &[
    (A_READ, ONE_READ, Copied, READ, 0x5A),
    (A_READ, ONE_READ, Taken, READ, 0xA5),
    (A_READ, ONE_READ, Sent, UNBOOKED, 0x5A),
    (A_READ, OTHER_READ, Copied, UNBOOKED, 0x5A),
    (A_READ, ONE_READ, Fails(Checked(3, 0x11)), FAILED, 0x5A),
    (A_READ, ONE_READ, Fails(Good), UNBOOKED, 0x5A),
    (A_WRITE, ONE_READ, Taken, UNBOOKED, 0x5A),
    (A_WRITE, ONE_READ, Sent, ACTED, 0x5A),
    (A_WRITE, ONE_WRITE, Copied, ACTED, 0xA5),
    (A_FLUSH, ONE_READ, Sent, (0, Good, true), 0x5A),
    (A_QUESTION, ONE_READ, Sent, UNBOOKED, 0x5A),
];

#[test]
fn acts_are_as_booked(rt: HostRuntime) -> Result<(), Fail> {
    let alloc = rt.alloc();
    for row in BOOKED {
        comes_back(&rt, alloc, elsewhere(alloc)?, row)?;
    }
    Ok(())
}

const OTHER_WRITE: Done = (Kind::Write, 0, 1, 512, 0x5A);

const A_SYNC: Done = (Kind::Flush, 0, 0, 0, 0);

/// What an SRB asks for, an entry, of how many sectors the disk is, and whether the entry may be of an act of it.
type OfRow = (Asked<'static>, Done, u64, bool);

const OF_ACTS: &[OfRow] = &[
    (A_READ, ONE_READ, 4, true),
    (A_READ, ONE_READ, 1, true),
    (A_READ, ONE_READ, 0, false),
    (A_READ, ONE_READ, u64::MAX, true),
    (A_READ, OTHER_READ, 4, false),
    (A_READ, OTHER_READ, u64::MAX, false),
    (A_READ, ONE_WRITE, 4, false),
    (A_WRITE, ONE_WRITE, 4, true),
    (A_WRITE, OTHER_WRITE, 4, false),
    (A_WRITE, ONE_READ, 4, false),
    (A_FLUSH, A_SYNC, 4, true),
    (A_FLUSH, ONE_READ, 4, false),
    (A_QUESTION, ONE_READ, 4, false),
];

/// Says whether the entry of a row may be of its SRB's act, as the row has it.
fn is_of(rt: &impl Abort, alloc: Global, row: &OfRow) -> Result<(), Fail> {
    let (asked, done, sectors, expected) = *row;
    assert!(rt; asked.2 <= 512 && done.3 <= 512);
    let srb = srb_for(alloc, asked)?;
    let entry = entry(alloc, done)?;
    same(rt, &may_be_entry_of(512, sectors, &srb, &entry), &expected);
    Ok(())
}

#[test]
fn entries_may_be_of_acts(rt: HostRuntime) -> Result<(), Fail> {
    let alloc = rt.alloc();
    for row in OF_ACTS {
        is_of(&rt, alloc, row)?;
    }
    Ok(())
}
