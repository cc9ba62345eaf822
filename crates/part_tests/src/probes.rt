//! Disks in memory that are probed, and each fault of a probe.

ghost use Rattle.std.specs.Prelude.{◌≡◌, IfOk};
ghost use Rattle.probe.specs.Exchange.{IsIdle};

use crate::expect::{prints, same};
use crate::tables::{extent, table};
use disk::{Medium, NoMemory, SparseDisk, VecDisk};
use mbr::MbrFault;
use miniport::{Adapter, MemAdapter, PlannedAdapter};
use ntstatus::NtStatus;
use probe::{ProbeFault, probe};
use sector::Extent;
use std::alloc::{AllocError, Global};
use std::process::Abort;
use std::test::Fail;

fn no_memory(_refused: NoMemory) -> AllocError {
    AllocError
}

/// An adapter of two tags that moves 64 sectors at most.
fn adapter<M: Medium>(
    rt: &impl Abort,
    alloc: Global,
    medium: M,
) -> Result<MemAdapter<M>, AllocError>
    ensures idle { IfOk result (λ a. IsIdle a.shown) }
    ensures unasked { IfOk result (λ a. a.shown.accepted ≡ 0) }
{
    let sectors = medium.sectors();
    assert!(rt; 1 <= sectors && sectors <= 1 << 40);
    assert!(rt; medium.sector_size() == 512 || medium.sector_size() == 4096);
    assert!(rt; medium.failures() == 0);
    MemAdapter::new(alloc, medium, 64, 2, false).map_err(no_memory)
}

/// An adapter of a disk of this many sectors of 512 bytes with one partition, the sectors 2,048 to 3,071, in which the
/// sectors of a list are bad.
fn partitioned(
    rt: &impl Abort,
    alloc: Global,
    sectors: u64,
    bad: &[u64],
) -> Result<MemAdapter<SparseDisk>, AllocError>
    ensures idle { IfOk result (λ a. IsIdle a.shown) }
    ensures unasked { IfOk result (λ a. a.shown.accepted ≡ 0) }
{
    assert!(rt; 1 <= sectors);
    let bad = Vec::from_slice(alloc, bad)?;
    let table = table(rt, &[(7, extent(2048, 1024))]);
    let first = table.as_slice();
    assert!(rt; first.len() == 512);
    let disk = SparseDisk::starting_with(alloc, 512, sectors, first, bad);
    adapter(rt, alloc, disk.map_err(no_memory)?)
}

/// Probes a disk, and checks its partitions or the fault, and how many failures are then counted.
fn tells<A: Adapter>(
    rt: &impl Abort,
    alloc: Global,
    mut adapter: A,
    want: Result<&[Extent], ProbeFault>,
    failures: u128,
) -> Result<(), AllocError>
    requires idle { IsIdle (A.view adapter) }
    requires unasked { (A.view adapter).accepted ≡ 0 }
{
    match probe(alloc, &mut adapter) {
        Ok(found) => {
            same(rt, &found.sectors, &adapter.sectors());
            same(rt, &found.sector_size, &(adapter.sector_size() as u64));
            same(rt, &Ok(found.partitions.as_slice()), &want);
        }
        Err(ProbeFault::NoMemory) => return Err(AllocError),
        Err(fault) => same(rt, &Err(fault), &want),
    }
    same(rt, &adapter.failures(), &failures);
    assert!(rt; adapter.take_label().is_none() && !adapter.in_use(0));
    Ok(())
}

/// The least number of sectors that READ CAPACITY(10) can't tell.
const FAR: u64 = 0x1_0000_0000;

/// A disk's sectors, and how many commands a probe sends to it.
const SENT: &[(u64, u64)] = &[(4096, 2), (FAR - 1, 2), (FAR, 3), (1 << 40, 3)];

const ONE: &[Extent] = &[Extent {
    first: 2048,
    count: 1024,
}];

// Probes a disk of this many sectors, of which the command behind so many fails, if that many are sent.
fn fails_or_is_probed(
    rt: &impl Abort,
    alloc: Global,
    sectors: u64,
    commands: u64,
    before: u64,
) -> Result<(), AllocError> {
    let disk = partitioned(rt, alloc, sectors, &[])?;
    let once = PlannedAdapter::failing_once(alloc, disk, before)?;
    if before < commands {
        let failed = Err(ProbeFault::Device(NtStatus::IoDeviceError));
        return tells(rt, alloc, once, failed, 1);
    }
    tells(rt, alloc, once, Ok(ONE), 0)
}

fn a_short_disk_is_refused(rt: &impl Abort, alloc: Global) -> Result<(), AllocError> {
    let past_end = Err(ProbeFault::Mbr(MbrFault::PastEnd));
    tells(rt, alloc, partitioned(rt, alloc, 3000, &[])?, past_end, 0)
}

fn a_table_is_unread(rt: &impl Abort, alloc: Global) -> Result<(), AllocError> {
    let unread = Err(ProbeFault::Device(NtStatus::DeviceDataError));
    tells(rt, alloc, partitioned(rt, alloc, 4096, &[0])?, unread, 1)
}

fn large_sectors_are_probed(rt: &impl Abort, alloc: Global) -> Result<(), AllocError> {
    let first = table(rt, &[]);
    let large = VecDisk::starting_with(alloc, 4096, 8, first.as_slice(), Vec::new(alloc));
    let large = large.map_err(no_memory)?;
    tells(rt, alloc, adapter(rt, alloc, large)?, Ok(&[]), 0)
}

// Each command fails in turn: two are sent to a disk that READ CAPACITY(10) tells of, and three to a longer one.
#[test]
fn a_disk_is_probed_or_a_command_fails(rt: HostRuntime) -> Result<(), Fail> {
    let alloc = rt.alloc();
    for &(sectors, commands) in SENT {
        for before in 0..4 {
            fails_or_is_probed(&rt, alloc, sectors, commands, before)?;
        }
    }
    a_short_disk_is_refused(&rt, alloc)?;
    a_table_is_unread(&rt, alloc)?;
    large_sectors_are_probed(&rt, alloc)?;
    Ok(())
}

// A fault of the probe, and of the table within it.
const TEXTS: &[(ProbeFault, &str)] = &[
    (
        ProbeFault::Device(NtStatus::DeviceDataError),
        "the device failed a command of the probe: DEVICE_DATA_ERROR",
    ),
    (
        ProbeFault::Mbr(MbrFault::NoSignature),
        "the partition table is wrong: no signature",
    ),
    (ProbeFault::NoMemory, "no memory"),
];

#[test]
fn faults_are_told(rt: HostRuntime) -> Result<(), Fail> {
    for (fault, want) in TEXTS {
        prints(&rt, rt.alloc(), fault, want)?;
    }
    Ok(())
}
