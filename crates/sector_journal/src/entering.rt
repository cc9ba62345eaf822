//! What an act does to the sectors, and its entry.

ghost use Rattle.std.specs.Prelude.{◌≡◌, ◌≤◌, ◌<◌, ◌^◌, ◌*◌, ◌+◌, ℕ, Bool, length, MatchResult, Some, IfSome};
ghost use Rattle.cdb.specs.declared.Cdb.{Cdb};
ghost use Rattle.cdb.specs.Meaning.{Means};
ghost use Rattle.sector.specs.declared.Extent.{Extent};
ghost use Rattle.srb.specs.declared.Kind.{Kind};
ghost use Rattle.disk.specs.Medium.{IsReserved};
ghost use Rattle.miniport.specs.Checking.{Passes};
ghost use Rattle.miniport.specs.Carrying.{Ends, IsReady, Reads, Writes, sizes_of};
ghost use Rattle.sector_journal.specs.Entering.{named, Names, Enters, Refuses, outcome_of};

use cdb::{Cdb, decode};
use disk::Medium;
use miniport::{MEDIUM_ERROR, check_on, failed_with};
use sector::{Bytes, Extent};
use srb::{Completion, Entry, Kind, Srb};

fn extent(first: u64, count: u32) -> Extent
    ensures { result ≡ record { first = first; count = count } }
{
    Extent {
        first,
        count: count as u64,
    }
}

/// Returns the kind and the extent that a command names. A READ CAPACITY names none.
fn named_by(command: Cdb) -> Option<(Kind, Extent)>
    ensures { result ≡ named command }
{
    match command {
        Cdb::Read10 { lba, count, .. } => Some((Kind::Read, extent(lba as u64, count as u32))),
        Cdb::Write10 { lba, count, .. } => Some((Kind::Write, extent(lba as u64, count as u32))),
        Cdb::Sync10 { lba, blocks } => Some((Kind::Flush, extent(lba as u64, blocks as u32))),
        Cdb::Read16 { lba, count, .. } => Some((Kind::Read, extent(lba, count))),
        Cdb::Write16 { lba, count, .. } => Some((Kind::Write, extent(lba, count))),
        Cdb::Sync16 { lba, blocks } => Some((Kind::Flush, extent(lba, blocks))),
        Cdb::ReadCapacity10 => None,
        Cdb::ReadCapacity16 { .. } => None,
    }
}

/// Returns the kind and the extent that a block names, where it asks for a transfer or a flush.
pub(crate) fn named_in(block: &[u8]) -> Option<(Kind, Extent)>
    ensures by_meaning { (command : Cdb) → Means block.now command → result ≡ named command }
    ensures names { IfSome result (λ what. Names block.now what) }
{
    match decode(block) {
        Ok(command) => named_by(command),
        Err(_) => None,
    }
}

/// Reads sectors into the SRB's data.
fn read<M: Medium>(medium: &mut M, lba: u64, count: u32, srb: Srb) -> Result<Bytes, Completion>
    requires within { lba + count ≤ length (M.view medium.old).sectors }
    requires long { length srb.data ≡ count * (M.view medium.old).sector_size }
    requires countable { (M.view medium.old).failures < 2 ^ 120 }
    ensures { Reads (M.view medium.old) (record { first = lba; count = count }) srb (outcome_of srb result) (M.view medium.new) }
{
    let mut bytes = srb.data.into_vec();
    match medium.read(extent(lba, count), bytes.as_mut_slice()) {
        Ok(()) => Ok(Bytes::new(bytes)),
        Err(_) => Err(failed_with(MEDIUM_ERROR, 0x11)),
    }
}

/// Writes the SRB's data over sectors.
fn write<M: Medium>(medium: &mut M, lba: u64, count: u32, srb: Srb) -> Result<Bytes, Completion>
    requires within { lba + count ≤ length (M.view medium.old).sectors }
    requires reserved { IsReserved (M.view medium.old) (record { first = lba; count = count }) }
    requires long { length srb.data ≡ count * (M.view medium.old).sector_size }
    requires countable { (M.view medium.old).failures < 2 ^ 120 }
    ensures { Writes (M.view medium.old) (record { first = lba; count = count }) srb (outcome_of srb result) (M.view medium.new) }
{
    match medium.write(extent(lba, count), srb.data.as_slice()) {
        Ok(()) => Ok(srb.data),
        Err(_) => Err(failed_with(MEDIUM_ERROR, 0x0C)),
    }
}

/// Carries out a command that only a bad sector can fail. Returns the bytes that it moved, in the SRB's own memory.
fn perform<M: Medium>(medium: &mut M, command: Cdb, srb: Srb) -> Result<Bytes, Completion>
    requires passes { (write_protected : Bool) × Passes (sizes_of (M.view medium.old) write_protected) srb command }
    requires ready { IsReady (M.view medium.old) srb }
    requires countable { (M.view medium.old).failures < 2 ^ 120 }
    requires names { (what : Kind × Extent) × (named command ≡ Some what) }
    ensures { (write_protected : Bool) → Passes (sizes_of (M.view medium.old) write_protected) srb command → Ends (M.view medium.old) write_protected srb (outcome_of srb result) (M.view medium.new) }
{
    match command {
        Cdb::Read10 { lba, count, .. } => read(medium, lba as u64, count as u32, srb),
        Cdb::Write10 { lba, count, .. } => write(medium, lba as u64, count as u32, srb),
        Cdb::Read16 { lba, count, .. } => read(medium, lba, count, srb),
        Cdb::Write16 { lba, count, .. } => write(medium, lba, count, srb),
        Cdb::Sync10 { .. } => Ok(srb.data),
        Cdb::Sync16 { .. } => Ok(srb.data),
        Cdb::ReadCapacity10 => unreachable!(),
        Cdb::ReadCapacity16 { .. } => unreachable!(),
    }
}

/// Carries out the SRB of a piece on a medium, by the table of the adapter in memory. Its block asks for a read, a
/// write or a flush; what a write moves is reserved; the medium has counted fewer than 2^120 failures. Returns its
/// entry, or how it failed. The entry has the very memory of the SRB's data: a read's bytes are copied once, out of the
/// medium, and a write's once, into it.
pub fn enter<M: Medium>(
    medium: &mut M,
    write_protected: bool,
    tag: u8,
    piece: u128,
    srb: Srb,
) -> Result<Entry, Completion>
    requires ready { IsReady (M.view medium.old) srb }
    requires countable { (M.view medium.old).failures < 2 ^ 120 }
    requires names { (command : Cdb) → Means srb.block command → (what : _) × (named command ≡ Some what) }
    ensures { MatchResult result (λ entry. Enters (M.view medium.old) write_protected tag piece srb entry (M.view medium.new)) (λ completion. Refuses (M.view medium.old) write_protected srb completion (M.view medium.new)) }
{
    let named = named_in(srb.block.as_slice());
    match check_on(medium, write_protected, &srb) {
        Err(completion) => Err(completion),
        Ok(command) => {
            let Some((kind, extent)) = named else {
                unreachable!()
            };
            match perform(medium, command, srb) {
                Ok(bytes) => Ok(Entry {
                    piece,
                    tag,
                    extent,
                    kind,
                    bytes,
                }),
                Err(completion) => Err(completion),
            }
        }
    }
}
