//! Each row of the table, runs of two tags, resets, and what is due where nothing was done.

ghost use Rattle.std.specs.Prelude.{◌≡◌, ◌≤◌, ◌<◌, ◌^◌, ◌+◌, length, IfOk, IsTrue, OnOk};

use crate::expect::{same, same_at};
use crate::steps::Told::{Acts, Bad, Faults, Starts};
use crate::steps::{Told, is_told};
use arrayvec::ArrayVec;
use disk::VecDisk;
use miniport::{Adapter, MemAdapter, PlannedAdapter};
use ntstatus::Sense;
use sector::{Bytes, Extent, LabelRoom};
use srb::{CommandBlock, Completion, DeviceLabel, Srb, SrbFlags, SrbFunction};
use std::alloc::Global;
use std::process::Abort;
use std::test::Fail;

/// How a piece comes back.
#[derive(Clone, Copy)]
pub(crate) enum End {
    Good,
    Busy,
    Invalid,
    Reset,
    /// CHECK CONDITION, with sense data of this key and code.
    Checked(u8, u8),
}

use End::{Busy, Checked, Good, Invalid, Reset};

/// The completion of an end.
pub(crate) fn completion_of(end: End) -> Completion {
    let (srb_status, scsi_status, sense) = match end {
        Good => (0x01, 0x00, None),
        Busy => (0x05, 0x08, None),
        Invalid => (0x06, 0x00, None),
        Reset => (0x0E, 0x00, None),
        Checked(key, asc) => (0x84, 0x02, Some(Sense { key, asc, ascq: 0 })),
    };
    Completion {
        srb_status,
        scsi_status,
        sense,
    }
}

/// An SRB with as many bytes of a value as are given, and room for as many in its label.
pub(crate) fn srb_of(
    alloc: Global,
    function: SrbFunction,
    flags: u8,
    block: &[u8],
    count: usize,
    byte: u8,
) -> Result<Srb, Fail>
    requires { count < 2 ^ 40 }
    ensures { IfOk result (λ s. length s.data ≤ s.for_label) }
{
    let mut bytes = ArrayVec::new();
    bytes
        .try_extend_from_slice(block)
        .ok()
        .ok_or("a long block")?;
    let data = vec![in alloc; byte; count]?;
    let for_label = LabelRoom::new(alloc, count)?;
    Ok(Srb {
        function,
        flags: SrbFlags(flags),
        block: CommandBlock::new(bytes),
        data: Bytes::new(data),
        for_label,
        sense: None,
    })
}

/// A disk of four sectors of 512 bytes, the last one bad.
fn disk_of(alloc: Global, depth: u8, write_protected: bool) -> Result<MemAdapter<VecDisk>, Fail>
    requires deep { 1 ≤ depth }
    requires shallow { depth ≤ 32 }
    ensures accepted { IfOk result (λ a. a.shown.accepted ≡ 0) }
    ensures labels { IfOk result (λ a. length a.shown.labels ≡ 0) }
{
    let bad = vec![in alloc; 3]?;
    let disk = VecDisk::new(alloc, 512, 4, bad)?;
    Ok(MemAdapter::new(alloc, disk, 64, depth, write_protected)?)
}

/// Puts a piece on a tag that is free, with all of the disk reserved.
pub(crate) fn put<A: Adapter>(
    rt: &impl Abort,
    adapter: &mut A,
    tag: u8,
    piece: u128,
    srb: Srb,
) -> Result<(), Fail>
    requires few { (A.view adapter.old).accepted < 2 ^ 100 }
    requires place { length (A.view adapter.old).labels < 64 }
    requires buffers { IsTrue (A.view adapter.old).keeps_bytes → length srb.data ≤ srb.for_label }
    ensures accepted { OnOk result ((A.view adapter.new).accepted ≡ (A.view adapter.old).accepted + 1) }
    ensures labels { OnOk result (length (A.view adapter.new).labels ≡ length (A.view adapter.old).labels + 1) }
{
    let whole = Extent {
        first: 0,
        count: adapter.sectors(),
    };
    adapter.reserve(whole)?;
    assert!(rt; tag < adapter.depth());
    assert!(rt; !adapter.in_use(tag));
    adapter.accept(tag, piece, srb);
    assert!(rt; adapter.in_use(tag));
    Ok(())
}

pub(crate) fn act<A: Adapter>(rt: &impl Abort, adapter: &mut A, tag: u8)
    requires { length (A.view adapter.old).labels < 64 }
    ensures labels { length (A.view adapter.new).labels ≤ length (A.view adapter.old).labels + 1 }
    ensures accepted { (A.view adapter.new).accepted ≡ (A.view adapter.old).accepted }
{
    assert!(rt; adapter.act(tag));
}

pub(crate) fn finish<A: Adapter>(adapter: &mut A, tag: u8) -> Result<(Srb, Completion), Fail>
    requires { length (A.view adapter.old).labels < 64 }
    ensures labels { length (A.view adapter.new).labels ≤ length (A.view adapter.old).labels + 1 }
    ensures accepted { (A.view adapter.new).accepted ≡ (A.view adapter.old).accepted }
{
    Ok(adapter.finish(tag).ok_or("a free tag")?)
}

/// The completion of one SRB, and how many failures were counted.
fn carried_out<A: Adapter>(
    rt: &impl Abort,
    mut adapter: A,
    srb: Srb,
) -> Result<(Completion, u128), Fail>
    requires few { (A.view adapter).accepted ≡ 0 }
    requires place { length (A.view adapter).labels ≡ 0 }
    requires buffers { length srb.data ≤ srb.for_label }
{
    put(rt, &mut adapter, 0, 1, srb)?;
    act(rt, &mut adapter, 0);
    let (srb, completion) = finish(&mut adapter, 0)?;
    same(rt, &srb.sense, &completion.sense);
    assert!(rt; !adapter.in_use(0));
    Ok((completion, adapter.failures()))
}

pub(crate) const SCSI: SrbFunction = SrbFunction::ExecuteScsi;

/// A case: the flags of an SRB; its block's code, second byte, first sector and count; the length of its data; and how it
/// ends.
type Case = (u8, u8, u8, u8, u8, usize, End);

/// Checks what becomes of a case on a disk of four sectors, the last one bad. A count is an allocation length where the
/// command has one.
fn completes(
    rt: &impl Abort,
    alloc: Global,
    protected: bool,
    function: SrbFunction,
    case: &Case,
) -> Result<(), Fail> {
    let (flags, code, option, first, blocks, count, end) = *case;
    assert!(rt; count <= 1536);
    let short = [code, option, 0, 0, 0, first, 0, 0, blocks, 0];
    let long = [
        code, option, 0, 0, 0, 0, 0, 0, 0, first, 0, 0, 0, blocks, 0, 0,
    ];
    let block = if code < 0x80 {
        short.as_slice()
    } else {
        long.as_slice()
    };
    let srb = srb_of(alloc, function, flags, block, count, 0xA5)?;
    let adapter = disk_of(alloc, 1, protected)?;
    let (completion, failures) = carried_out(rt, adapter, srb)?;
    same_at(rt, &completion, &completion_of(end), &block);
    let failed = if let Good = end { 0 } else { 1 };
    same_at(rt, &failures, &failed, &block);
    Ok(())
}

/// Each way to fail, and each command carried out. No sectors at the end of a disk are in it, and a write that passes the
/// cache writes.
const CASES: &[Case] = &[
    (0x40, 0x12, 0, 0, 36, 36, Checked(5, 0x20)),
    (0x40, 0x28, 0x20, 0, 1, 512, Checked(5, 0x24)),
    (0x40, 0x28, 0, 3, 2, 1024, Checked(5, 0x21)),
    (0x80, 0x28, 0, 0, 1, 512, Invalid),
    (0x40, 0x28, 0, 0, 1, 511, Invalid),
    (0x40, 0x35, 0, 0, 0, 0, Invalid),
    (0x40, 0x9E, 0x10, 0, 32, 8, Invalid),
    (0x40, 0x28, 0, 2, 2, 1024, Checked(3, 0x11)),
    (0x80, 0x8A, 8, 3, 1, 512, Checked(3, 0x0C)),
    (0x40, 0x28, 0, 4, 0, 0, Good),
    (0x80, 0x2A, 8, 0, 3, 1536, Good),
    (0x00, 0x35, 0, 0, 0, 0, Good),
    (0x40, 0x25, 0, 0, 0, 8, Good),
    (0x40, 0x88, 0, 0, 3, 1536, Good),
    (0x80, 0x8A, 8, 0, 3, 1536, Good),
    (0x00, 0x91, 0, 0, 0, 0, Good),
    (0x40, 0x9E, 0x10, 0, 32, 32, Good),
];

/// A read, a write of a protected disk, and an SRB with another function.
const A_READ: Case = (0x40, 0x28, 0, 0, 1, 512, Good);

const PROTECTED: Case = (0x80, 0x2A, 0, 3, 1, 512, Checked(7, 0x27));

const UNKNOWN: Case = (0x40, 0x28, 0, 0, 1, 512, Invalid);

// Proved: clause `by_table` of `act`.
#[test]
fn ends_by_the_first_row_that_fits(rt: HostRuntime) -> Result<(), Fail> {
    let alloc = rt.alloc();
    for case in CASES {
        completes(&rt, alloc, false, SCSI, case)?;
    }
    completes(&rt, alloc, true, SCSI, &A_READ)?;
    completes(&rt, alloc, true, SCSI, &PROTECTED)?;
    completes(&rt, alloc, false, SrbFunction::ResetBus, &UNKNOWN)
}

/// Takes the labels, and checks that just the wanted ones are there.
fn tells<A: Adapter>(rt: &impl Abort, adapter: &mut A, want: &[Told])
    ensures labels { length (A.view adapter.new).labels ≡ 0 }
    ensures accepted { (A.view adapter.new).accepted ≡ (A.view adapter.old).accepted }
{
    for w in want {
        let label = adapter.take_label();
        assert!(rt; is_told(label, w));
    }
    assert!(rt; adapter.take_label().is_none());
}

/// What is done to an adapter, and what it must answer. The first number is a tag, except in a reset. Each piece is of one
/// sector.
#[derive(Clone, Copy)]
enum Step {
    /// A write is put on a tag: its piece, its sector, and the byte that is written.
    Write(u8, u128, u8, u8),
    /// A read is put on a tag: its piece and its sector.
    Read(u8, u128, u8),
    /// Whether the piece of a tag acts.
    Act(u8, bool),
    /// The tag's piece comes back with its sector full of a byte.
    Back(u8, End, u8),
    /// No piece is on the tag.
    Free(u8),
    /// After a reset this many failures are counted, and just these labels are there.
    AllReset(u128, &'static [Told<'static>]),
    /// The labels are forgotten.
    Forget,
}

use Step::{Act, AllReset, Back, Forget, Free, Read, Write};

/// A step. Just these labels are there after it, where they are looked at.
type Row = (Step, Option<&'static [Told<'static>]>);

/// The SRB of a transfer of one sector, with data full of a byte.
fn transfer(alloc: Global, code: u8, first: u8, byte: u8) -> Result<Srb, Fail>
    ensures { IfOk result (λ s. length s.data ≤ s.for_label) }
{
    let flags = if code == 0x2A { 0x80 } else { 0x40 };
    let block = [code, 0, 0, 0, 0, first, 0, 0, 1, 0];
    srb_of(alloc, SCSI, flags, &block, 512, byte)
}

/// Checks how the piece of a tag comes back, with its data full of the byte. The label's room is whole where nothing was
/// done, and used where all was.
fn is_back<A: Adapter>(
    rt: &impl Abort,
    adapter: &mut A,
    tag: u8,
    end: End,
    byte: u8,
) -> Result<(), Fail>
    requires { length (A.view adapter.old).labels < 64 }
    ensures labels { length (A.view adapter.new).labels ≤ length (A.view adapter.old).labels + 1 }
    ensures accepted { (A.view adapter.new).accepted ≡ (A.view adapter.old).accepted }
{
    let (srb, completion) = finish(adapter, tag)?;
    same_at(rt, &completion, &completion_of(end), &tag);
    let for_label = srb.for_label.capacity();
    match end {
        Busy => same(rt, &for_label, &512),
        Good => same(rt, &for_label, &0),
        _ => {}
    }
    same(rt, &srb.data.as_slice(), &[byte; 512].as_slice());
    Ok(())
}

/// Checks that no piece is on a tag.
fn is_free<A: Adapter>(rt: &impl Abort, adapter: &mut A, tag: u8) -> Result<(), Fail>
    requires { length (A.view adapter.old).labels < 64 }
    ensures labels { length (A.view adapter.new).labels ≤ length (A.view adapter.old).labels + 1 }
    ensures accepted { (A.view adapter.new).accepted ≡ (A.view adapter.old).accepted }
{
    assert!(rt; adapter.finish(tag).is_none());
    assert!(rt; !adapter.in_use(tag));
    Ok(())
}

/// Resets the adapter, and checks that this many failures are counted, and which labels are there.
fn is_reset<A: Adapter>(
    rt: &impl Abort,
    adapter: &mut A,
    failures: u128,
    want: &[Told],
) -> Result<(), Fail>
    requires { length (A.view adapter.old).labels ≤ 32 }
    ensures labels { length (A.view adapter.new).labels ≡ 0 }
    ensures accepted { (A.view adapter.new).accepted ≡ (A.view adapter.old).accepted }
{
    assert!(rt; adapter.depth() <= 32);
    adapter.reset();
    same(rt, &adapter.failures(), &failures);
    tells(rt, adapter, want);
    Ok(())
}

/// Checks whether the piece of a tag acts.
fn acts<A: Adapter>(rt: &impl Abort, adapter: &mut A, tag: u8, want: bool) -> Result<(), Fail>
    requires { length (A.view adapter.old).labels < 64 }
    ensures labels { length (A.view adapter.new).labels ≤ length (A.view adapter.old).labels + 1 }
    ensures accepted { (A.view adapter.new).accepted ≡ (A.view adapter.old).accepted }
{
    let done = adapter.act(tag);
    assert!(rt; done == want);
    Ok(())
}

fn take<A: Adapter>(rt: &impl Abort, alloc: Global, adapter: &mut A, step: Step) -> Result<(), Fail>
    requires few { (A.view adapter.old).accepted < 2 ^ 100 }
    requires labels { length (A.view adapter.old).labels ≤ 32 }
    ensures accepted { OnOk result ((A.view adapter.new).accepted ≤ (A.view adapter.old).accepted + 1) }
    ensures labels { OnOk result (length (A.view adapter.new).labels ≤ length (A.view adapter.old).labels + 1) }
{
    match step {
        Write(tag, piece, first, byte) => {
            let srb = transfer(alloc, 0x2A, first, byte)?;
            put(rt, adapter, tag, piece, srb)
        }
        Read(tag, piece, first) => {
            let srb = transfer(alloc, 0x28, first, 0x3C)?;
            put(rt, adapter, tag, piece, srb)
        }
        Act(tag, want) => acts(rt, adapter, tag, want),
        Back(tag, end, byte) => is_back(rt, adapter, tag, end, byte),
        Free(tag) => is_free(rt, adapter, tag),
        AllReset(failures, want) => is_reset(rt, adapter, failures, want),
        Forget => {
            adapter.forget_labels();
            Ok(())
        }
    }
}

/// Checks that just the wanted labels are there, where some are wanted.
fn looks<A: Adapter>(rt: &impl Abort, adapter: &mut A, want: Option<&[Told]>)
    ensures labels { length (A.view adapter.new).labels ≤ length (A.view adapter.old).labels }
    ensures accepted { (A.view adapter.new).accepted ≡ (A.view adapter.old).accepted }
{
    if let Some(want) = want {
        tells(rt, adapter, want);
    }
}

/// Takes the steps one after the other, and checks the labels of each.
fn run<A: Adapter>(
    rt: &impl Abort,
    alloc: Global,
    mut adapter: A,
    steps: &[Row],
) -> Result<(), Fail>
    requires few { (A.view adapter).accepted ≡ 0 }
    requires labels { length (A.view adapter).labels ≡ 0 }
{
    assert!(rt; steps.len() <= 32);
    for step in steps {
        take(rt, alloc, &mut adapter, step.0)?;
        looks(rt, &mut adapter, step.1);
    }
    Ok(())
}

/// A read between two writes sees the first alone. Labels wait, are forgotten, or are taken. A reset faults a piece that did
/// nothing and marks those that acted, each counted once; a piece that did nothing comes back busy.
const THREE_TAGS: &[Row] = &[
    (Write(0, 1, 0, 0xA5), Some(&[Starts(1, 0)])),
    (Write(1, 2, 1, 0x5A), Some(&[Starts(2, 1)])),
    (Read(2, 3, 0), Some(&[Starts(3, 2)])),
    (Act(1, true), Some(&[Acts(2)])),
    (Back(1, Good, 0x5A), Some(&[Told::Good(2)])),
    (Act(2, true), Some(&[Acts(3)])),
    (Act(0, true), Some(&[Acts(1)])),
    (Back(2, Good, 0), Some(&[Told::Good(3)])),
    (Act(0, false), Some(&[])),
    (Act(99, false), Some(&[])),
    (Free(1), Some(&[])),
    (Free(99), Some(&[])),
    (Read(1, 4, 1), None),
    (Write(2, 5, 1, 0x77), None),
    (Act(2, true), Some(&[Starts(4, 1), Starts(5, 2), Acts(5)])),
    (AllReset(3, &[Faults(4)]), None),
    (AllReset(3, &[]), None),
    (Act(1, false), Some(&[])),
    (Back(0, Reset, 0xA5), Some(&[Bad(1)])),
    (Back(1, Reset, 0x3C), Some(&[Bad(4)])),
    (Back(2, Reset, 0x77), Some(&[Bad(5)])),
    (Write(0, 6, 0, 0xC3), None),
    (Act(0, true), None),
    (Forget, Some(&[])),
    (Back(0, Good, 0xC3), None),
    (Write(0, 7, 0, 0x11), Some(&[Told::Good(6), Starts(7, 0)])),
    (Back(0, Busy, 0x11), Some(&[Told::Busy(7)])),
    (Read(0, 8, 0), None),
    (Read(1, 9, 1), None),
    (Act(0, true), Some(&[Starts(8, 0), Starts(9, 1), Acts(8)])),
    (Back(0, Good, 0xC3), Some(&[Told::Good(8)])),
];

/// The second act fails though nothing is wrong with its command, and moves nothing; acts that were ignored don't count.
/// All else is as with the adapter in memory.
const SECOND_ACT_FAILS: &[Row] = &[
    (Write(0, 1, 0, 0xA5), Some(&[Starts(1, 0)])),
    (Act(0, true), Some(&[Acts(1)])),
    (Act(0, false), Some(&[])),
    (Back(0, Good, 0xA5), Some(&[Told::Good(1)])),
    (Write(0, 2, 0, 0x5A), Some(&[Starts(2, 0)])),
    (Act(0, true), Some(&[Faults(2)])),
    (Back(0, Checked(4, 0), 0x5A), Some(&[Bad(2)])),
    (Read(1, 3, 0), Some(&[Starts(3, 1)])),
    (AllReset(2, &[Faults(3)]), None),
    (Back(1, Reset, 0x3C), Some(&[Bad(3)])),
    (Read(1, 4, 0), Some(&[Starts(4, 1)])),
    (Act(1, true), Some(&[Acts(4)])),
    (Back(1, Good, 0xA5), Some(&[Told::Good(4)])),
];

/// Takes the steps of three tags. A table and the type of an adapter stand in functions of their own: together they are
/// dear to prove.
fn run_three_tags<A: Adapter>(rt: &impl Abort, alloc: Global, adapter: A) -> Result<(), Fail>
    requires few { (A.view adapter).accepted ≡ 0 }
    requires labels { length (A.view adapter).labels ≡ 0 }
{
    run(rt, alloc, adapter, THREE_TAGS)
}

/// Takes the steps on a disk whose second act fails, and which tells of itself what the one in memory does.
fn run_failing<A: Adapter>(rt: &impl Abort, alloc: Global, adapter: A) -> Result<(), Fail>
    requires few { (A.view adapter).accepted ≡ 0 }
    requires labels { length (A.view adapter).labels ≡ 0 }
{
    same(rt, &adapter.sector_size(), &512);
    same(rt, &adapter.max_transfer(), &64);
    assert!(rt; adapter.is_faithful() && adapter.failures() == 0);
    run(rt, alloc, adapter, SECOND_ACT_FAILS)
}

/// A disk whose second act fails.
fn failing_disk(alloc: Global) -> Result<PlannedAdapter<VecDisk>, Fail>
    ensures accepted { IfOk result (λ a. a.inner.shown.accepted ≡ 0) }
    ensures labels { IfOk result (λ a. length a.inner.shown.labels ≡ 0) }
{
    let disk = disk_of(alloc, 2, false)?;
    Ok(PlannedAdapter::failing_once(alloc, disk, 1)?)
}

#[test]
fn tags_serve_at_once_and_resets_are_met(rt: HostRuntime) -> Result<(), Fail> {
    let alloc = rt.alloc();
    run_three_tags(&rt, alloc, disk_of(alloc, 3, false)?)?;
    run_failing(&rt, alloc, failing_disk(alloc)?)
}

/// The disk of an adapter of one tag, of whose labels contracts alone read the bytes.
fn noting_disk(alloc: Global) -> Result<MemAdapter<VecDisk>, Fail>
    ensures accepted { IfOk result (λ a. a.shown.accepted ≡ 0) }
    ensures labels { IfOk result (λ a. length a.shown.labels ≡ 0) }
{
    let bad = vec![in alloc; 3]?;
    let disk = VecDisk::new(alloc, 512, 4, bad)?;
    let adapter = MemAdapter::new(alloc, disk, 64, 1, false)?;
    Ok(adapter.noting())
}

/// The SRB of a write, with room for its label's bytes or none.
fn write_with(alloc: Global, room: bool) -> Result<Srb, Fail>
    ensures { IfOk result (λ s. IsTrue room → length s.data ≤ s.for_label) }
{
    let srb = transfer(alloc, 0x2A, 0, 0xA5)?;
    if room {
        return Ok(srb);
    }
    let for_label = LabelRoom::none(alloc);
    Ok(Srb { for_label, ..srb })
}

/// Whether a label is of an act that tells these bytes.
fn is_act_with(label: &Option<DeviceLabel>, want: &[u8]) -> bool {
    match label {
        Some(DeviceLabel::Act { bytes, .. }) => bytes.as_slice() == want,
        _ => false,
    }
}

/// Checks the label of a write's act, and the SRB that comes back.
fn acts_with<A: Adapter>(
    rt: &impl Abort,
    alloc: Global,
    mut adapter: A,
    want: &[u8],
) -> Result<(), Fail>
    requires few { (A.view adapter).accepted ≡ 0 }
    requires labels { length (A.view adapter).labels ≡ 0 }
{
    let srb = write_with(alloc, adapter.keeps_bytes())?;
    put(rt, &mut adapter, 0, 1, srb)?;
    act(rt, &mut adapter, 0);
    assert!(rt; is_told(adapter.take_label(), &Starts(1, 0)));
    assert!(rt; is_act_with(&adapter.take_label(), want));
    let (srb, _) = finish(&mut adapter, 0)?;
    same(rt, &srb.data.as_slice(), &[0xA5; 512].as_slice());
    Ok(())
}

#[test]
fn labels_keep_their_bytes_or_none(rt: HostRuntime) -> Result<(), Fail> {
    let alloc = rt.alloc();
    acts_with(&rt, alloc, disk_of(alloc, 1, false)?, &[0xA5; 512])?;
    acts_with(&rt, alloc, noting_disk(alloc)?, &[])
}
