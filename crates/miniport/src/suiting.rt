//! Whether something may be booked of an SRB.

ghost use Rattle.std.specs.Prelude.{◌≡◌, ◌≤◌, ◌+◌, ◌*◌, ℕ, List, length};
ghost use Rattle.std.specs.Bool.{Decides};
ghost use Rattle.srb.specs.declared.Class.TheVariants.{Bad};
ghost use Rattle.srb.specs.Fate.{class_of};
ghost use Rattle.srb.specs.declared.Kind.TheVariants.{Read, Write};
ghost use Rattle.adapter.specs.Booking.{IsOfSrb, SendsAll, SendsFor, Suits, handed_of};
ghost use Rattle.miniport.specs.inside.Suiting.{agree, is_at, is_as_long, is_transfer_of, is_flush_of, is_sent_by, is_whole_of, may_be_of};

use crate::check::Sizes;
use cdb::{Cdb, decode};
use srb::{Booked, Class, Completion, Entry, Kind, Srb};

fn has_kind(entry: &Entry, kind: Kind) -> bool
    ensures { result ≡ agree entry.now.kind kind }
{
    match (entry.kind, kind) {
        (Kind::Read, Kind::Read) => true,
        (Kind::Write, Kind::Write) => true,
        (Kind::Flush, Kind::Flush) => true,
        _ => false,
    }
}

fn stands_at(entry: &Entry, lba: u64, count: u32) -> bool
    ensures { result ≡ is_at lba count entry.now }
{
    entry.extent.first == lba && entry.extent.count == count as u64
}

/// Whether the sectors lie in the disk, and the SRB and the entry have just their bytes.
fn has_length(sizes: &Sizes, bytes: &[u8], entry: &Entry, lba: u64, count: u32) -> bool
    ensures { result ≡ is_as_long sizes.now.sector_size sizes.now.sectors bytes.now lba count entry.now }
{
    let length = count as u64 * sizes.sector_size as u64;
    lba as u128 + count as u128 <= sizes.sectors as u128
        && bytes.len() as u64 == length
        && entry.bytes.len() == bytes.len()
}

/// What a command asks to move: `count` sectors from `lba` on.
#[derive(Clone, Copy)]
struct Transfer {
    kind: Kind,
    lba: u64,
    count: u32,
}

fn reads(lba: u64, count: u32) -> Transfer
    ensures { result ≡ record { kind = Read; lba = lba; count = count } }
{
    Transfer {
        kind: Kind::Read,
        lba,
        count,
    }
}

fn writes(lba: u64, count: u32) -> Transfer
    ensures { result ≡ record { kind = Write; lba = lba; count = count } }
{
    Transfer {
        kind: Kind::Write,
        lba,
        count,
    }
}

fn is_transfer(sizes: &Sizes, bytes: &[u8], entry: &Entry, transfer: Transfer) -> bool
    ensures { result ≡ is_transfer_of sizes.now.sector_size sizes.now.sectors bytes.now transfer.kind transfer.lba transfer.count entry.now }
{
    let Transfer { kind, lba, count } = transfer;
    has_kind(entry, kind)
        && stands_at(entry, lba, count)
        && has_length(sizes, bytes, entry, lba, count)
}

fn is_flush(bytes: &[u8], entry: &Entry, lba: u64, count: u32) -> bool
    ensures { result ≡ is_flush_of bytes.now lba count entry.now }
{
    has_kind(entry, Kind::Flush)
        && stands_at(entry, lba, count)
        && bytes.len() == 0
        && entry.bytes.len() == 0
}

/// Whether an entry may be of an act of this command, sent with these bytes.
fn may_be(sizes: &Sizes, bytes: &[u8], entry: &Entry, command: Cdb) -> bool
    ensures { result ≡ may_be_of sizes.now.sector_size sizes.now.sectors bytes.now entry.now command }
{
    match command {
        Cdb::Read10 { lba, count, .. } => {
            is_transfer(sizes, bytes, entry, reads(lba as u64, count as u32))
        }
        Cdb::Read16 { lba, count, .. } => is_transfer(sizes, bytes, entry, reads(lba, count)),
        Cdb::Write10 { lba, count, .. } => {
            is_transfer(sizes, bytes, entry, writes(lba as u64, count as u32))
                && entry.bytes.as_slice() == bytes
        }
        Cdb::Write16 { lba, count, .. } => {
            is_transfer(sizes, bytes, entry, writes(lba, count)) && entry.bytes.as_slice() == bytes
        }
        Cdb::Sync10 { lba, blocks } => is_flush(bytes, entry, lba as u64, blocks as u32),
        Cdb::Sync16 { lba, blocks } => is_flush(bytes, entry, lba, blocks),
        Cdb::ReadCapacity10 | Cdb::ReadCapacity16 { .. } => false,
    }
}

/// Whether an entry may be of an act that the SRB asks for.
fn suits_entry(sizes: &Sizes, srb: &Srb, entry: &Entry) -> bool
    ensures { Decides result (IsOfSrb sizes.now.sector_size sizes.now.sectors srb.now entry.now) }
{
    match decode(srb.block.as_slice()) {
        Ok(command) => may_be(sizes, srb.data.as_slice(), entry, command),
        Err(_) => false,
    }
}

/// Whether an entry may be of an act that the SRB asks for, on a disk of this many sectors, each of so many bytes.
pub fn may_be_entry_of(sector_size: u32, sectors: u64, srb: &Srb, entry: &Entry) -> bool
    ensures { Decides result (IsOfSrb sector_size sectors srb.now entry.now) }
{
    let sizes = Sizes {
        sector_size,
        sectors,
        write_protected: false,
    };
    suits_entry(&sizes, srb, entry)
}

/// Whether sectors lie in the disk, and the SRB has just their bytes.
fn is_whole(sizes: &Sizes, bytes: &[u8], lba: u64, count: u32) -> bool
    ensures { result ≡ is_whole_of sizes.now.sector_size sizes.now.sectors bytes.now lba count }
{
    let length = count as u64 * sizes.sector_size as u64;
    lba as u128 + count as u128 <= sizes.sectors as u128 && bytes.len() as u64 == length
}

/// Whether a command writes all these bytes, or flushes and there are none.
fn is_sent(sizes: &Sizes, bytes: &[u8], command: Cdb) -> bool
    ensures { result ≡ is_sent_by sizes.now.sector_size sizes.now.sectors bytes.now command }
{
    match command {
        Cdb::Write10 { lba, count, .. } => is_whole(sizes, bytes, lba as u64, count as u32),
        Cdb::Write16 { lba, count, .. } => is_whole(sizes, bytes, lba, count),
        Cdb::Sync10 { .. } => bytes.len() == 0,
        Cdb::Sync16 { .. } => bytes.len() == 0,
        Cdb::Read10 { .. } => false,
        Cdb::Read16 { .. } => false,
        Cdb::ReadCapacity10 => false,
        Cdb::ReadCapacity16 { .. } => false,
    }
}

/// Whether the SRB asks to write all that it sends, or to flush.
fn sends(sizes: &Sizes, srb: &Srb) -> bool
    ensures { Decides result (SendsAll sizes.now.sector_size sizes.now.sectors srb.now) }
{
    match decode(srb.block.as_slice()) {
        Ok(command) => is_sent(sizes, srb.data.as_slice(), command),
        Err(_) => false,
    }
}

fn is_bad(completion: &Completion) -> bool
    ensures { Decides result (class_of completion.now ≡ Bad completion.now) }
{
    match completion.class() {
        Class::Good | Class::Busy => false,
        Class::Bad(_) => true,
    }
}

/// Whether this may be booked of the SRB.
pub(crate) fn suits(sizes: &Sizes, srb: &Srb, what: &Booked<'_>) -> bool
    ensures { (tag : ℕ) (piece : ℕ) → Decides result (Suits sizes.now.sector_size sizes.now.sectors srb.now (handed_of tag piece srb.now what.now)) }
{
    match what {
        Booked::Copied(entry) => suits_entry(sizes, srb, entry),
        Booked::Taken(entry) => suits_entry(sizes, srb, entry),
        Booked::Sent => sends(sizes, srb),
        Booked::Failed(completion) => is_bad(completion),
    }
}
