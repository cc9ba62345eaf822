//! Tables by hand.

ghost use Rattle.std.specs.Prelude.{◌↔◌, IsTrue};
ghost use Rattle.mbr.specs.Table.{FitsEntry};

use crate::expect::{prints, same};
use arrayvec::ArrayVec;
use mbr::MbrFault::{CoversTable, EmptyEntry, NoSignature, Overlap, PastEnd, ShortSector};
use mbr::{MbrFault, parse, render};
use sector::Extent;
use std::alloc::Global;
use std::process::Abort;
use std::test::Fail;

pub(crate) const fn extent(first: u64, count: u64) -> Extent {
    Extent { first, count }
}

/// The partitions that a sector tells of, or what is wrong with it.
type Told<'a> = Result<&'a [Extent], MbrFault>;

/// Checks what a sector says on a disk of 4,096 sectors.
fn says(rt: &impl Abort, sector: &[u8], want: Told) {
    match parse(sector, 4096) {
        Ok(found) => same(rt, &Ok(found.as_slice()), &want),
        Err(found) => same(rt, &Err(found), &want),
    }
}

/// Whether the numbers of an entry have four bytes each.
fn fits(entry: &(u8, Extent)) -> bool
    ensures { IsTrue result ↔ FitsEntry entry.now }
{
    entry.1.first <= 0xFFFF_FFFF && entry.1.count <= 0xFFFF_FFFF
}

/// A table of entries that fit in one.
pub(crate) fn table(rt: &impl Abort, entries: &[(u8, Extent)]) -> ArrayVec<u8, 512> {
    assert!(rt; entries.len() <= 4);
    assert!(rt; entries.iter().all(|entry| fits(entry)));
    render(entries)
}

// An unused entry counts for nothing.
#[test]
fn a_table_says_its_partitions_or_its_fault(rt: HostRuntime) {
    let (low, high) = (extent(2048, 1024), extent(3072, 1024));
    let entries = [(7, high), (0, low), (0xEE, low)];
    says(&rt, table(&rt, &entries).as_slice(), Ok(&[high, low]));
    says(&rt, &[0x55; 511], Err(ShortSector));
    says(&rt, &[0x55; 512], Err(NoSignature));
    for (second, fault) in [
        (extent(5000, 0), EmptyEntry),
        (extent(0, 5000), CoversTable),
        (extent(4095, 2), PastEnd),
        (extent(3071, 1), Overlap),
    ] {
        let sector = table(&rt, &[(7, low), (7, second)]);
        says(&rt, sector.as_slice(), Err(fault));
    }
}

/// The texts of faults.
const TEXTS: &[(MbrFault, &str)] = &[
    (ShortSector, "short sector"),
    (NoSignature, "no signature"),
    (EmptyEntry, "empty entry"),
    (CoversTable, "covers table"),
    (PastEnd, "past end"),
    (Overlap, "overlap"),
];

fn faults_have_texts(rt: &impl Abort, alloc: Global) -> Result<(), Fail> {
    for (fault, want) in TEXTS {
        prints(rt, alloc, fault, want)?;
    }
    Ok(())
}

#[test]
fn a_table_has_its_bytes_and_faults_their_texts(rt: HostRuntime) -> Result<(), Fail> {
    let entries = [(0, extent(1, 2)), (0xEE, extent(0xFFFF_FFFF, 0x8070_6050))];
    let sector = table(&rt, &entries);
    let mut bytes = [0; 512];
    bytes[446..478].copy_from_slice(&[
        0, 0, 0, 0, 0, 0, 0, 0, 1, 0, 0, 0, 2, 0, 0, 0, // unused
        0, 0, 0, 0, 0xEE, 0, 0, 0, 0xFF, 0xFF, 0xFF, 0xFF, 0x50, 0x60, 0x70, 0x80,
    ]);
    bytes[510..].copy_from_slice(&[0x55, 0xAA]);
    same(&rt, &sector.as_slice(), &bytes.as_slice());
    faults_have_texts(&rt, rt.alloc())
}
