//! Tests of disks.

ghost use Rattle.std.specs.Prelude.{◌≡◌, ◌*◌, ◌<◌, ◌^◌, length, OnOk};
ghost use Rattle.disk.specs.Medium.{IsWithin, IsReserved};

use crate::expect::{prints, same, same_at};
use disk::{BadSector, Medium, NoMemory, SparseDisk, VecDisk};
use sector::Extent;
use std::alloc::Global;
use std::process::Abort;
use std::test::Fail;

// What was written is read.
fn write_then_read<M: Medium>(
    medium: &mut M,
    extent: Extent,
    bytes: &[u8],
    buffer: &mut [u8],
) -> Result<(), BadSector>
    requires within { IsWithin (M.view medium.old) extent }
    requires reserved { IsReserved (M.view medium.old) extent }
    requires bytes { length bytes.now ≡ extent.count * (M.view medium.old).sector_size }
    requires buffer { length buffer.old ≡ extent.count * (M.view medium.old).sector_size }
    requires countable { (M.view medium.old).failures < 2 ^ 120 }
    ensures { OnOk result (buffer.new ≡ bytes.now) }
{
    medium.write(extent, bytes)?;
    medium.read(extent, buffer)
}

// Fills an extent with a byte and reads it back, or sees both calls fail and be counted.
fn fills<M: Medium>(
    rt: &impl Abort,
    alloc: Global,
    medium: &mut M,
    extent: Extent,
) -> Result<bool, Fail> {
    assert!(rt; extent.is_within(medium.sectors()));
    assert!(rt; extent.count <= 16 && medium.sector_size() <= 4096 && medium.failures() < 1000);
    let length = extent.count as usize * medium.sector_size() as usize;
    let before = medium.failures();
    medium.reserve(extent)?;
    let bytes = vec![in alloc; 0x5a; length]?;
    let mut buffer = vec![in alloc; 0; length]?;
    let done = write_then_read(medium, extent, &bytes, &mut buffer).is_ok();
    same_at(rt, &(buffer == bytes), &(done || length == 0), &extent);
    is_counted(rt, done, before, medium.failures());
    Ok(done)
}

// Checks that what is not done is counted as a failure.
fn is_counted(rt: &impl Abort, done: bool, before: u128, failures: u128)
    requires { before < 1000 }
{
    let count = if done { 0 } else { 1 };
    same(rt, &failures, &(before + count));
}

// Extents of a disk of sixteen sectors, of which 3 and 7 are bad, and whether they can be written and read.
const EXTENTS: &[(u64, u64, bool)] = &[
    (4, 3, true),
    (8, 8, true),
    (16, 0, true),
    (3, 1, false),
    (2, 3, false),
    (7, 9, false),
];

// Checks that a disk starts with these bytes and zeros behind them.
fn starts_with<M: Medium>(rt: &impl Abort, disk: &mut M, first: &[u8]) {
    assert!(rt; disk.sectors() == 16 && disk.sector_size() == 512 && disk.failures() == 0);
    let mut buffer = [0xff; 1024];
    let two = Extent { first: 0, count: 2 };
    assert!(rt; disk.read(two, &mut buffer).is_ok());
    let mut want = [0; 1024];
    assert!(rt; first.len() <= 1024);
    want[..first.len()].copy_from_slice(first);
    assert!(rt; buffer == want);
}

// Checks with which bytes a disk starts, and which extents can be filled.
fn serves<M: Medium>(
    rt: &impl Abort,
    alloc: Global,
    disk: &mut M,
    first: &[u8],
) -> Result<(), Fail> {
    starts_with(rt, disk, first);
    for &(first, count, want) in EXTENTS {
        let extent = Extent { first, count };
        let done = fills(rt, alloc, disk, extent)?;
        same_at(rt, &done, &want, &extent);
    }
    Ok(())
}

fn a_whole_disk_serves(rt: &impl Abort, alloc: Global) -> Result<(), Fail> {
    let bad = vec![in alloc; 7, 3, 7]?;
    let first = [0xa5; 600];
    let mut disk = VecDisk::starting_with(alloc, 512, 16, &first, bad)?;
    serves(rt, alloc, &mut disk, &first)
}

fn a_sparse_disk_serves(rt: &impl Abort, alloc: Global) -> Result<(), Fail> {
    let bad = vec![in alloc; 7, 3, 7]?;
    let first = [0x5a; 512];
    let mut disk = SparseDisk::starting_with(alloc, 512, 16, &first, bad)?;
    serves(rt, alloc, &mut disk, &first)
}

#[test]
fn disks_serve_all_but_bad_sectors(rt: HostRuntime) -> Result<(), Fail> {
    let alloc = rt.alloc();
    a_whole_disk_serves(&rt, alloc)?;
    a_sparse_disk_serves(&rt, alloc)?;
    let huge = VecDisk::new(alloc, 4096, 1 << 50, Vec::new(alloc));
    assert!(rt; matches!(huge, Err(NoMemory)));
    prints(&rt, alloc, &NoMemory, "no memory")?;
    prints(&rt, alloc, &BadSector, "bad sector")
}
