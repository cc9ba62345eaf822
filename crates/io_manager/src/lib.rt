//! The I/O manager of a disk's device stack: handles on its partitions, the requests that are open on them, and the
//! plug and play calls of its removal. Calls and adapter steps go in; answers, bytes and labels come out.
//!
//! # Promises
//!
//! Each call is `right`: its labels, then the device's, answers by rising number and a removal's end are a run of the
//! machine; the adapter moved by just its own; no sector outside all partitions changed; its row of `specs/Right`
//! holds. A close, cancel, mark or query starts nothing (`no_device`), an act or reset answers nothing (`ends_none`).
//! Between calls all is settled and fits together (`shows_whole`, `in_order`). `take_answer_of` takes just that answer
//! (`takes`), `first_answer` shows the next (`IsNextAnswer`). `admits` tells what a call would open; `book` books alone
//! (`BooksPiece`). `refuse` is the step of the refused call, with any buffer of that length (`Refuses`). With no label
//! kept (`keep_labels`) each call is the same. A refused call opens nothing and gives its bytes back: for want of
//! numbers nothing changed (`IsTurnedAway`, `IsUnmoved`), for want of memory only places and a write's reservations
//! (`ReservesAlone`). A call alone asks for memory (`reserves_none`), and no other step changes the room of a table
//! (`SamePlacesUnless`); a write's reserves sectors, in runs with a sector of its own (`AdapterMoves`). Not promised: that a cancelled request is answered CANCELLED where another cause fits too.
#![tactic(auto)]

mod admission;
mod answer_queue;
mod cancelling;
mod chains;
mod completion;
mod handover;
mod label_queue;
mod manager;
mod noting;
mod opening;
mod parts;
mod removal;
mod spare_packets;
mod tables;

use device::Kind;
pub use manager::IoManager;
use ntstatus::NtStatus;
use sector::Bytes;

/// An open handle: its slot in the manager's table, and its number. Numbers rise from 1 to 2^62 - 1. No number is given
/// twice; a slot may be.
#[derive(Debug, Clone, Copy, PartialEq, Eq)]
pub struct Handle {
    pub slot: u32,
    pub number: u64,
}

/// An open request: its slot in the manager's table, and its number. Numbers rise from 1 to 2^62 - 1. No number is
/// given twice; a slot may be.
#[derive(Debug, Clone, Copy, PartialEq, Eq)]
pub struct Id {
    pub slot: u32,
    pub number: u64,
}

/// An open handle at its slot: its number, and the partition that it is open on, counted from 0.
#[derive(Debug, Clone, Copy, PartialEq, Eq)]
pub struct OpenHandle {
    pub number: u64,
    pub partition: u8,
}

/// The sizes that a manager keeps, and where its partitions begin.
#[derive(Debug, Clone, Copy, PartialEq, Eq)]
pub struct Limits {
    /// Bytes of a sector of the disk.
    pub sector_size: u64,
    /// Sectors of the longest piece, from 1 on.
    pub max_transfer: u32,
    /// Tags of the adapter.
    pub depth: u8,
    /// How many requests may be open at once, 1 to 64.
    pub open_requests: u32,
    /// Whether labels keep their bytes in memory, as those of the adapter do.
    pub keeps_bytes: bool,
    /// The sector of the disk where each partition begins, by the partition's number.
    pub first_sectors: [u64; 4],
}

/// What a read, a write or a flush asks of a partition, without its bytes. Of a flush offset and length are 0.
#[derive(Debug, Clone, Copy, PartialEq, Eq)]
pub struct Asked {
    pub kind: Kind,
    /// In bytes, from the start of the partition.
    pub offset: u64,
    /// In bytes.
    pub length: u64,
    /// Whether a write goes past volatile caches (WDK: SL_WRITE_THROUGH).
    pub through: bool,
}

/// Why a call was refused.
#[derive(Debug, Clone, Copy, PartialEq, Eq)]
pub enum Refusal {
    /// The handle isn't open.
    InvalidHandle,
    /// Offset or length is no multiple of the sector size, the end is past the partition, or the length is above the
    /// longest that the device takes; or there is no such partition to open.
    InvalidParameter,
    /// The device is being removed, or is gone.
    DeletePending,
    /// The limits allow no more open requests, or 64 handles are open; or the numbers are used up.
    DeviceBusy,
    /// Memory for the call was refused.
    InsufficientResources,
    /// A plug and play call came in the wrong state.
    InvalidDeviceRequest,
    /// There is no open request to cancel.
    NotFound,
}

/// How a request ended.
#[derive(Debug, Drop)]
pub struct Answer {
    /// The number of the request.
    pub number: u64,
    pub status: NtStatus,
    /// The number of bytes transferred (WDK: IO_STATUS_BLOCK): the length of a read or write that succeeded, else 0.
    pub information: u64,
    /// The bytes of a read that succeeded; none for any other request.
    pub bytes: Bytes,
}

/// The reply to a call.
#[derive(Debug, Drop)]
pub enum Reply {
    /// The handle that `open` gave.
    Handle(Handle),
    /// The call was carried out.
    Ok,
    /// The request is open; its answer comes later.
    Request(Id),
    /// The answer to a call of no bytes. It opens no request, and has no other answer.
    Answered(Answer),
    /// The call was refused. The caller's bytes come back unchanged.
    Refused { refusal: Refusal, bytes: Bytes },
    /// There is no piece to act on or to hand back, or no request to mark.
    Ignored,
}
