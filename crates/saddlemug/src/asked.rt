//! What a piece asks for, and the piece as C is told it.

ghost use Rattle.std.specs.Prelude.{◌≡◌, ◌≤◌, ◌-◌, IfSome, None, Some, drop, length, replicate, take};
ghost use Rattle.cdb.specs.declared.Cdb.{Cdb};
ghost use Rattle.cdb.specs.declared.CdbFault.{CdbFault};
ghost use Rattle.cdb.specs.Faults.{HasFault};
ghost use Rattle.cdb.specs.Meaning.{Means};
ghost use Rattle.saddlemug.specs.Asking.{IsToldOf, asked_by, shown_asked, to_move};

use cdb::{Cdb, decode};
use sector::Extent;
use srb::{Kind, Srb};

/// What a command block asks to move.
#[derive(Clone, Copy)]
pub(crate) struct Asked {
    pub(crate) kind: Kind,
    /// The sectors of the disk.
    pub(crate) extent: Extent,
    /// Whether it goes past volatile caches (SBC: FUA).
    pub(crate) through: bool,
}

/// What C is told of what a command block asks for.
#[repr(C)]
#[derive(Clone, Copy)]
pub struct StackAsked {
    /// The kind: 0 read, 1 write, 2 flush; 3 where the block asks for none of these.
    pub kind: u32,
    /// 1 where it goes past volatile caches, else 0.
    pub through: u32,
    /// The first sector of the disk.
    pub first: u64,
    /// The number of sectors; for a flush 0 is all from the first on.
    pub count: u64,
}

/// A piece that could act, as C is told it.
#[repr(C)]
#[derive(Clone, Copy, Drop)]
pub struct StackArmed {
    /// The low and the high 64 bits of the piece's number.
    pub piece_low: u64,
    pub piece_high: u64,
    pub asked: StackAsked,
    /// Where the piece's bytes stand.
    pub bytes: *mut u8,
    /// The number of these bytes.
    pub length: u64,
    /// The number of bytes of the command block, at most 16.
    pub block_length: u32,
    /// The command block, and zeros behind it.
    pub block: [u8; 16],
}

fn to_move(kind: Kind, first: u64, count: u32, through: bool) -> Asked
    ensures { result ≡ to_move kind first count through }
{
    Asked {
        kind,
        extent: Extent {
            first,
            count: count as u64,
        },
        through,
    }
}

/// Returns what a command asks to move. A READ CAPACITY asks to move nothing.
fn asked_by(command: Cdb) -> Option<Asked>
    ensures { result ≡ asked_by command }
{
    match command {
        Cdb::Read10 { lba, count, fua } => Some(to_move(Kind::Read, lba as u64, count as u32, fua)),
        Cdb::Write10 { lba, count, fua } => Some(to_move(
            Kind::Write,
            lba as u64,
            count as u32,
            fua,
        )),
        Cdb::Sync10 { lba, blocks } => Some(to_move(Kind::Flush, lba as u64, blocks as u32, false)),
        Cdb::Read16 { lba, count, fua } => Some(to_move(Kind::Read, lba, count, fua)),
        Cdb::Write16 { lba, count, fua } => Some(to_move(Kind::Write, lba, count, fua)),
        Cdb::Sync16 { lba, blocks } => Some(to_move(Kind::Flush, lba, blocks, false)),
        Cdb::ReadCapacity10 => None,
        Cdb::ReadCapacity16 { .. } => None,
    }
}

/// Returns what a block asks to move.
pub(crate) fn asked_in(block: &[u8]) -> Option<Asked>
    ensures by_meaning { (command : Cdb) → Means block.now command → result ≡ asked_by command }
    ensures by_fault { (fault : CdbFault) → HasFault block.now fault → result ≡ None }
    ensures asks { IfSome result (λ asked. (command : Cdb) × Means block.now command × (asked_by command ≡ Some asked)) }
{
    match decode(block) {
        Ok(command) => asked_by(command),
        Err(_) => None,
    }
}

/// Returns what a block asks for, as C is told it.
fn told_asked(asked: Option<Asked>) -> StackAsked
    ensures { result ≡ shown_asked asked }
{
    match asked {
        Some(
            Asked {
                kind,
                extent,
                through,
            },
        ) => StackAsked {
            kind: match kind {
                Kind::Read => 0,
                Kind::Write => 1,
                Kind::Flush => 2,
            },
            through: u32::from(through),
            first: extent.first,
            count: extent.count,
        },
        None => StackAsked {
            kind: 3,
            through: 0,
            first: 0,
            count: 0,
        },
    }
}

/// A block, and zeros behind it.
#[tactic(auto, using(crate::proofs::Padding::zeros_behind))]
fn padded(block: &[u8]) -> [u8; 16]
    requires { length block.now ≤ 16 }
    ensures block { take (length block.now) result ≡ block.now }
    ensures behind { drop (length block.now) result ≡ replicate (16 - length block.now) 0 }
{
    let mut padded = [0; 16];
    padded[..block.len()].copy_from_slice(block);
    padded
}

/// A piece with its SRB, whose bytes stand at this address.
pub(crate) fn told_armed(piece: u128, srb: &Srb, bytes: *mut u8) -> StackArmed
    ensures told { IsToldOf piece srb.now result }
    ensures address { result.bytes ≡ bytes }
{
    let block = srb.block.as_slice();
    StackArmed {
        piece_low: (piece % (1 << 64)) as u64,
        piece_high: (piece >> 64) as u64,
        asked: told_asked(asked_in(block)),
        bytes,
        length: srb.data.len() as u64,
        block_length: block.len() as u32,
        block: padded(block),
    }
}
