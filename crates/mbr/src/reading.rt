//! What sector 0 says.

ghost use Rattle.std.specs.Prelude.{◌≡◌, ◌≤◌, ◌+◌, ◌*◌, ◌<◌, IfOk, length, drop};
ghost use Rattle.std.specs.List.{list_any};
ghost use Rattle.std.specs.Result.{result_err, result_map_both};
ghost use Rattle.machine.specs.Map.{IsMap};
ghost use Rattle.mbr.specs.Table.{entry_of, entries_of, is_signed, partitions_of};
ghost use Rattle.mbr.specs.Faults.{any_share, extent_fault, partitions_fault, share, told_by};

use crate::{COUNT, ENTRIES, ENTRY_SIZE, FIRST, KIND, MbrFault, SIGNATURE, SIGNED};
use arrayvec::ArrayVec;
use byteorder::{ByteOrder, LittleEndian};
use sector::Extent;

/// The partitions that sector 0 of a disk of this many sectors gives: those of the used entries, in table order. Bytes
/// after the 512th are ignored.
///
/// # Errors
///
/// The first fault: [`MbrFault::ShortSector`], [`MbrFault::NoSignature`]; then for each used entry in table order
/// [`MbrFault::EmptyEntry`], [`MbrFault::CoversTable`], [`MbrFault::PastEnd`]; then [`MbrFault::Overlap`] of any two.
pub fn parse(sector: &[u8], sectors: u64) -> Result<ArrayVec<Extent, 4>, MbrFault>
    ensures answer { result_map_both (λ found. found.items) (λ fault. fault) result ≡ told_by sectors sector.now }
    ensures map { IfOk result (λ found. IsMap sectors found.items) }
{
    if sector.len() < 512 {
        return Err(MbrFault::ShortSector);
    }
    if !has_signature(sector) {
        return Err(MbrFault::NoSignature);
    }
    let partitions = partitions(sector);
    check(partitions.as_slice(), sectors)?;
    Ok(partitions)
}

/// Whether bytes 510 and 511 are the signature.
fn has_signature(sector: &[u8]) -> bool
    requires { 512 ≤ length sector.now }
    ensures { result ≡ is_signed sector.now }
{
    sector[SIGNATURE] == SIGNED[0] && sector[SIGNATURE + 1] == SIGNED[1]
}

/// The sectors of the used entries.
fn partitions(sector: &[u8]) -> ArrayVec<Extent, 4>
    requires { 512 ≤ length sector.now }
    ensures { result.items ≡ partitions_of (entries_of sector.now) }
{
    let mut partitions = ArrayVec::new();
    for n in 0..4 {
        let (kind, extent) = entry(&sector[ENTRIES + n * ENTRY_SIZE..]);
        if kind != 0 {
            partitions.push(extent);
        }
    }
    partitions
}

/// The type and the sectors that an entry gives; its bytes come first.
fn entry(bytes: &[u8]) -> (u8, Extent)
    requires { 16 ≤ length bytes.now }
    ensures { result ≡ entry_of bytes.now }
{
    let extent = Extent {
        first: LittleEndian::read_u32(&bytes[FIRST..]) as u64,
        count: LittleEndian::read_u32(&bytes[COUNT..]) as u64,
    };
    (bytes[KIND], extent)
}

/// Looks for the first fault of partitions.
fn check(partitions: &[Extent], sectors: u64) -> Result<(), MbrFault>
    ensures { result_err result ≡ partitions_fault sectors partitions.now }
{
    for partition in partitions {
        check_extent(*partition, sectors)?;
    }
    if any_overlap(partitions) {
        return Err(MbrFault::Overlap);
    }
    Ok(())
}

/// Looks for the first fault of a partition by itself.
fn check_extent(extent: Extent, sectors: u64) -> Result<(), MbrFault>
    ensures { result_err result ≡ extent_fault sectors extent }
{
    if extent.count == 0 {
        return Err(MbrFault::EmptyEntry);
    }
    if extent.first == 0 {
        return Err(MbrFault::CoversTable);
    }
    if !extent.is_within(sectors) {
        return Err(MbrFault::PastEnd);
    }
    Ok(())
}

/// Whether any two share a sector.
fn any_overlap(extents: &[Extent]) -> bool
    ensures { result ≡ any_share extents.now }
{
    for (n, extent) in extents.iter().enumerate() {
        if overlaps_any(*extent, &extents[n + 1..]) {
            return true;
        }
    }
    false
}

/// Whether one shares a sector with any of the others.
fn overlaps_any(extent: Extent, others: &[Extent]) -> bool
    ensures { result ≡ list_any (share extent) others.now }
{
    others.iter().any(|other| overlap(extent, *other))
}

/// Whether the two share a sector.
fn overlap(one: Extent, other: Extent) -> bool
    ensures { result ≡ share one other }
{
    one.overlaps(other)
}
