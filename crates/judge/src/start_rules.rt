//! The rules that a start can break.

use crate::label_rules::Difference;
use cdb::CdbFault;
use machine::Kind;

/// What is asked of a start.
#[derive(Debug, Clone, Copy, PartialEq, Eq)]
pub enum StartRule {
    /// Pieces are numbered from 1, one by one.
    Number { due: u128, told: u128 },
    /// The adapter has fewer tags.
    Depth { tag: u8, depth: u32 },
    TagInUse { tag: u8, piece: u128 },
    Tag { lowest: u8, told: u8 },
    /// The block asks for no command.
    Block(CdbFault),
    /// A block holds its command and nothing else: 0 in each field that this machine doesn't ask for, as DPO, GROUP
    /// NUMBER and CONTROL (SBC, SAM), and no byte behind it.
    NotPlain(Difference),
    /// The line names a request that isn't open.
    NotOpen { number: u64 },
    /// No open request asks for the block, or not the one that the line names.
    NotAsked(Misfit),
    /// The request asks for it, and may not start it now.
    Held { number: u64, hindrance: Hindrance },
}

/// Why no open request asks for a command block.
#[derive(Debug, Clone, Copy, PartialEq, Eq)]
pub enum Misfit {
    /// The command is no read, no write and no flush.
    Command,
    /// The command has sixteen bytes where ten have room for its numbers, or the other way round.
    Form,
    /// A flush is of the whole disk: address 0, and 0 blocks (SBC: SYNCHRONIZE CACHE).
    Range,
    /// No open request is of this kind.
    Kind(Kind),
    /// No open request has all these sectors.
    Sectors { lba: u64, count: u64 },
    /// A request has them, and its write-through (WDK: SL_WRITE_THROUGH) is another than the FUA bit.
    Fua { number: u64, due: bool },
}

/// What holds a request back that asks for a command block. Places are sectors of the request, counted from 0.
#[derive(Debug, Clone, Copy, PartialEq, Eq)]
pub enum Hindrance {
    Cancelled,
    Removing,
    /// The request came in a pause, or was held back by it.
    Late,
    /// Requests start in the order of their calls.
    Earlier { number: u64 },
    /// The piece is longer than the adapter's longest transfer.
    Long { longest: u64, count: u64 },
    Out { place: u64 },
    Done { place: u64 },
    Failed { place: u64 },
    /// A request is cut at each multiple of the longest transfer.
    OffGrid { place: u64, grid: u64 },
    /// The sector came back busy, and the request has spent its restarts.
    Worn { place: u64 },
    /// The request goes as one piece.
    NotWhole { due: u64, count: u64 },
    Again,
}
