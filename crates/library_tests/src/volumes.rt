//! Volumes over disks in memory of 4,096 sectors of 512 bytes, in pieces of two sectors, on two tags.

ghost use Rattle.std.specs.Prelude.{◌≡◌, IfOk, IsTrue};
ghost use Rattle.probe.specs.Exchange.{IsIdle};

use adapter::Adapter;
use compose::{Refusal, Settings, StartFault};
use disk::{Medium, NoMemory, VecDisk};
use injection::{Kind, Rule};
use miniport::MemAdapter;
use ntstatus::NtStatus;
use sector::Bytes;
use settings::ConfigFault;
use startup::{open, settings_of};
use std::alloc::{AllocError, Global};
use std::process::Abort;
use std::test::Fail;
use volume::{Error, OpenFault, Run, SparseVolume, Volume};

/// Sector 0 with one partition, of the sectors 2,048 to 3,071. An entry has its type in byte 4, its first sector in the
/// bytes from 8 on and their number in those from 12 on, the lowest first.
fn table() -> [u8; 512] {
    let mut bytes = [0; 512];
    let first: u32 = 2048;
    let count: u32 = 1024;
    bytes[450] = 7;
    bytes[454..458].copy_from_slice(&first.to_le_bytes());
    bytes[458..462].copy_from_slice(&count.to_le_bytes());
    bytes[510..].copy_from_slice(&[0x55, 0xAA]);
    bytes
}

fn no_memory(_refused: NoMemory) -> AllocError {
    AllocError
}

/// An adapter over such a disk, in which these sectors are bad.
fn disk_adapter(
    rt: &impl Abort,
    alloc: Global,
    bad: &[u64],
) -> Result<MemAdapter<VecDisk>, AllocError>
    ensures idle { IfOk result (λ a. IsIdle a.shown) }
    ensures unasked { IfOk result (λ a. a.shown.accepted ≡ 0) }
    ensures faithful { IfOk result (λ a. IsTrue a.shown.faithful) }
{
    let bad = Vec::from_slice(alloc, bad)?;
    let medium = VecDisk::starting_with(alloc, 512, 4096, &table(), bad).map_err(no_memory)?;
    let sectors = medium.sectors();
    assert!(rt; 1 <= sectors && sectors <= 1 << 40);
    assert!(rt; medium.sector_size() == 512 && medium.failures() == 0);
    MemAdapter::new(alloc, medium, 2, 2, false).map_err(no_memory)
}

/// A volume of its partition.
fn volume_on<A: Adapter>(
    rt: &impl Abort,
    alloc: Global,
    adapter: A,
) -> Result<Volume<A>, AllocError>
    requires idle { IsIdle (A.view adapter) }
    requires unasked { (A.view adapter).accepted ≡ 0 }
    requires faithful { IsTrue (A.view adapter).faithful }
{
    let settings = Settings {
        window: 1,
        open_requests: 1,
    };
    match Volume::start(alloc, adapter, settings, 0) {
        Ok(volume) => Ok(volume),
        Err(why) => match why.fault {
            OpenFault::Start(StartFault::NoMemory) => Err(AllocError),
            OpenFault::Refused(Refusal::InsufficientResources) => Err(AllocError),
            fault => panic!(rt; "{fault:?}"),
        },
    }
}

/// This many equal bytes.
fn filled(alloc: Global, byte: u8, length: usize) -> Result<Bytes, AllocError> {
    Ok(Bytes::new(vec![in alloc; byte; length]?))
}

/// A call on a volume.
#[derive(Debug, Clone, Copy)]
enum Call {
    /// A read of this many bytes from this byte on.
    Read(u64, usize),
    /// A write of this many equal bytes from this byte on, past volatile caches or not.
    Write(u64, usize, u8, bool),
    Flush,
}

/// What a call must give.
#[derive(Clone, Copy, PartialEq, Eq)]
enum Given {
    Done,
    /// This many equal bytes.
    Bytes(u8, usize),
    /// This many bytes of one value, and then this many of another.
    Two(u8, usize, u8, usize),
    Fault(Error),
}

/// Whether there are first this many bytes of one value, and then this many of the other.
fn are(bytes: &[u8], first: u8, count: usize, second: u8, more: usize) -> bool {
    bytes.len() == count.saturating_add(more)
        && bytes.iter().take(count).all(|b| *b == first)
        && bytes.iter().skip(count).all(|b| *b == second)
}

/// Whether a read gave what it must.
fn read_gives(read: Result<Bytes, Error>, given: Given) -> Result<bool, AllocError> {
    match read {
        Ok(bytes) => {
            let bytes = bytes.into_vec();
            match given {
                Given::Bytes(byte, count) => Ok(are(bytes.as_slice(), byte, count, byte, 0)),
                Given::Two(first, count, second, more) => {
                    Ok(are(bytes.as_slice(), first, count, second, more))
                }
                _ => Ok(false),
            }
        }
        Err(Error::Refused(Refusal::InsufficientResources)) => Err(AllocError),
        Err(fault) => Ok(given == Given::Fault(fault)),
    }
}

/// Whether a write or a flush gave what it must.
fn gives(done: Result<(), Error>, given: Given) -> Result<bool, AllocError> {
    match done {
        Ok(()) => Ok(given == Given::Done),
        Err(Error::Refused(Refusal::InsufficientResources)) => Err(AllocError),
        Err(fault) => Ok(given == Given::Fault(fault)),
    }
}

/// Makes a call.
fn make<A: Adapter>(
    alloc: Global,
    volume: &mut Volume<A>,
    asked: Call,
    given: Given,
) -> Result<bool, AllocError> {
    match asked {
        Call::Read(offset, length) => {
            let buffer = filled(alloc, 0, length)?;
            read_gives(volume.read(alloc, offset, buffer), given)
        }
        Call::Write(offset, length, byte, through) => {
            let bytes = filled(alloc, byte, length)?;
            gives(volume.write(alloc, offset, bytes, through), given)
        }
        Call::Flush => gives(volume.flush(alloc), given),
    }
}

/// Makes the calls of all rows.
fn make_all<A: Adapter>(
    rt: &impl Abort,
    alloc: Global,
    volume: &mut Volume<A>,
    rows: &[(Call, Given)],
) -> Result<(), AllocError> {
    let sizes = volume.sizes();
    assert!(rt; sizes.sector_size == 512 && sizes.sectors == 1024);
    for row in rows {
        let (asked, given) = *row;
        let right = make(alloc, volume, asked, given)?;
        assert!(rt; right, "{asked:?}");
    }
    Ok(())
}

/// Makes calls one after the other.
fn run<A: Adapter>(
    rt: &impl Abort,
    alloc: Global,
    adapter: A,
    rows: &[(Call, Given)],
) -> Result<(), AllocError>
    requires idle { IsIdle (A.view adapter) }
    requires unasked { (A.view adapter).accepted ≡ 0 }
    requires faithful { IsTrue (A.view adapter).faithful }
{
    let mut volume = volume_on(rt, alloc, adapter)?;
    make_all(rt, alloc, &mut volume, rows)?;
    drop(volume.close(alloc));
    Ok(())
}

const OUT_OF_BOUNDS: Given = Given::Fault(Error::Refused(Refusal::InvalidParameter));

const UNREAD: Given = Given::Fault(Error::Failed(NtStatus::DeviceDataError));

/// Sector 4 of the partition is bad.
const ROWS: [(Call, Given); 23] = [
    (Call::Read(0, 512), Given::Bytes(0, 512)),
    (Call::Write(512, 512, 0xA5, false), Given::Done),
    (Call::Read(0, 1024), Given::Two(0, 512, 0xA5, 512)),
    (Call::Flush, Given::Done),
    (Call::Write(0, 512, 0x11, true), Given::Done),
    (Call::Read(0, 1024), Given::Two(0x11, 512, 0xA5, 512)),
    // Nine sectors go in five pieces.
    (Call::Write(4096, 4608, 0x22, false), Given::Done),
    (Call::Read(3584, 5120), Given::Two(0, 512, 0x22, 4608)),
    (Call::Read(4096, 5120), Given::Two(0x22, 4608, 0, 512)),
    // The last sector.
    (Call::Write(523_776, 512, 0x33, false), Given::Done),
    (Call::Read(523_776, 512), Given::Bytes(0x33, 512)),
    // Past the end, and no whole sectors.
    (Call::Write(523_776, 1024, 0x44, false), OUT_OF_BOUNDS),
    (Call::Read(524_288, 512), OUT_OF_BOUNDS),
    (Call::Read(100, 512), OUT_OF_BOUNDS),
    (Call::Write(0, 100, 0x44, false), OUT_OF_BOUNDS),
    // No bytes.
    (Call::Read(524_288, 0), Given::Bytes(0, 0)),
    (Call::Read(523_776, 512), Given::Bytes(0x33, 512)),
    // The piece with the bad sector wrote nothing, the other did.
    (Call::Write(1024, 2048, 0x55, false), UNREAD),
    (Call::Read(2048, 512), UNREAD),
    (Call::Read(1024, 1024), Given::Bytes(0x55, 1024)),
    (Call::Read(2560, 512), Given::Bytes(0, 512)),
    (Call::Flush, Given::Done),
    (Call::Read(0, 512), Given::Bytes(0x11, 512)),
];

#[test]
fn reads_writes_and_flushes(rt: HostRuntime) -> Result<(), Fail> {
    let alloc = rt.alloc();
    let adapter = disk_adapter(&rt, alloc, &[2052])?;
    run(&rt, alloc, adapter, &ROWS)?;
    Ok(())
}

/// The rule for each so many-th command, so many times.
fn rule(kind: Kind, every: u64, times: u64) -> Rule {
    Rule {
        sectors: None,
        every,
        times,
        kind,
        wait: every.saturating_sub(1),
    }
}

/// Seven commands: three of them come back busy, and one of four takes longer.
const SLOWED: [(Call, Given); 2] = [
    (Call::Write(0, 2048, 0xA5, false), Given::Done),
    (Call::Read(0, 2048), Given::Bytes(0xA5, 2048)),
];

const BUSY: Given = Given::Fault(Error::Failed(NtStatus::DeviceBusy));

/// Each command comes back busy.
const TURNED_BACK: [(Call, Given); 3] = [
    (Call::Write(0, 1024, 0x5A, true), BUSY),
    (Call::Read(0, 1024), BUSY),
    (Call::Flush, BUSY),
];

/// What the last write left that was carried out.
const LEFT: [(Call, Given); 2] = [
    (Call::Flush, Given::Done),
    (Call::Read(0, 2048), Given::Bytes(0xA5, 2048)),
];

#[test]
fn commands_come_back_busy_or_take_longer_by_rules(rt: HostRuntime) -> Result<(), Fail> {
    let alloc = rt.alloc();
    let adapter = disk_adapter(&rt, alloc, &[])?;
    let volume = volume_on(&rt, alloc, adapter)?;
    let slow = [
        rule(Kind::Busy, 1, 3),
        rule(Kind::Delay { ms: 7 }, 2, u64::MAX),
    ];
    let mut slowed = volume.with_rules(Vec::from_slice(alloc, &slow)?);
    make_all(&rt, alloc, &mut slowed, &SLOWED)?;
    assert!(rt; slowed.take_delay() == 14);
    assert!(rt; slowed.take_delay() == 0);
    let busy = [rule(Kind::Busy, 1, u64::MAX)];
    let mut turned = slowed.with_rules(Vec::from_slice(alloc, &busy)?);
    make_all(&rt, alloc, &mut turned, &TURNED_BACK)?;
    let mut left = turned.with_rules(Vec::new(alloc));
    make_all(&rt, alloc, &mut left, &LEFT)?;
    Ok(())
}

/// A partition of 1,024 sectors: sixteen parts of 32,768 bytes.
const WRITTEN: &str =
    "sector_size = 512\nsectors = 1025\nmax_transfer = 2\ndepth = 2\nwindow = 1\n[[partition]]\nfirst = 1\n\
    count = 1024\n";

/// A run of bytes that are zeros, or not known to be.
fn run_of(count: u64, are_zeros: bool) -> Option<Run> {
    Some(Run { count, are_zeros })
}

/// The run that begins at this byte, of so many bytes at most, if they are sectors.
fn run_at<A: Adapter>(volume: &SparseVolume<A>, offset: u64, count: u64) -> Option<Run> {
    if volume.has_sectors(offset, count) {
        Some(volume.run(offset, count))
    } else {
        None
    }
}

/// Writes, and asks where nothing was written.
fn tell_runs<A: Adapter>(
    rt: &impl Abort,
    alloc: Global,
    volume: &mut SparseVolume<A>,
) -> Result<(), AllocError> {
    for (offset, length) in [(32_768, 32_768), (65_536, 512), (523_776, 512)] {
        let bytes = filled(alloc, 0xA5, length)?;
        let written = volume.write(alloc, offset, bytes, false);
        assert!(rt; gives(written, Given::Done)?);
    }
    let rows = [
        (0, 524_288, run_of(32_768, true)),
        (0, 512, run_of(512, true)),
        // The second part and the third were written, the third by one sector.
        (32_768, 491_520, run_of(65_536, false)),
        (66_048, 512, run_of(512, false)),
        (97_792, 426_496, run_of(512, false)),
        (98_304, 425_984, run_of(393_216, true)),
        // The last sector was written.
        (491_520, 32_768, run_of(32_768, false)),
        (491_008, 1024, run_of(512, true)),
        // No sectors of the partition.
        (0, 0, None),
        (100, 512, None),
        (0, 100, None),
        (523_776, 1024, None),
    ];
    for (offset, count, run) in rows {
        let told = run_at(volume, offset, count);
        assert!(rt; told == run, "{offset} {count}: {told:?}");
    }
    Ok(())
}

#[test]
fn tells_what_was_never_written(rt: HostRuntime) -> Result<(), Fail> {
    let alloc = rt.alloc();
    let config = match settings_of(alloc, WRITTEN.as_bytes()) {
        Ok(config) => config,
        Err(ConfigFault::NoMemory) => return Err(Fail::from(AllocError)),
        Err(fault) => panic!(rt; "{fault:?}"),
    };
    let volume = match open(alloc, config, 0) {
        Ok(volume) => volume,
        Err(OpenFault::Start(StartFault::NoMemory)) => return Err(Fail::from(AllocError)),
        Err(fault) => panic!(rt; "{fault:?}"),
    };
    let mut volume = SparseVolume::new(alloc, volume);
    tell_runs(&rt, alloc, &mut volume)?;
    drop(volume.close(alloc));
    Ok(())
}
