//! The sector machine: partitions of sectors, open requests with a mark on each sector, pieces at the adapter, and
//! three flags, moved by labels.
//!
//! In `specs/` stand the definitions that the contracts of all layers cite: requests, labels, the state, the rule of
//! each label, runs and settled states. The machine knows no packet, no queue and no lock.
//!
//! # Promises
//!
//! Definitions alone.
#![tactic(auto)]

use ntstatus::NtStatus;
use sector::{Bytes, Extent};
use srb::DeviceLabel;
pub use srb::Kind;

/// A request as a layer takes it: sectors of one of its volumes.
#[derive(Debug, Clone, Copy, PartialEq, Eq)]
pub struct Request {
    /// From 0.
    pub volume: u8,
    pub kind: Kind,
    /// Counted in the volume; empty for a flush.
    pub extent: Extent,
    /// Write-through (WDK: SL_WRITE_THROUGH): the command goes with FUA.
    pub through: bool,
}

/// A request as its client made it.
#[derive(Debug, Drop)]
pub struct ClientRequest {
    /// None where the handle of the call isn't open.
    pub partition: Option<u8>,
    pub kind: Kind,
    /// In bytes, from the start of the partition.
    pub offset: u64,
    /// In bytes.
    pub length: u64,
    /// Write-through, as in [`Request`].
    pub through: bool,
    /// The bytes of a write that was taken in; for any other request none.
    pub bytes: Bytes,
}

/// What a stack tells of a step: one move of the sector machine.
#[derive(Debug, Drop)]
pub enum Label {
    /// A client called.
    Call {
        number: u64,
        request: ClientRequest,
    },
    /// The adapter recorded this.
    Device(DeviceLabel),
    /// A request ended; the bytes are those of a read that succeeded, else none.
    Answer {
        number: u64,
        status: NtStatus,
        /// The number of bytes transferred (WDK: IO_STATUS_BLOCK): the length of a read or write that succeeded, else 0.
        information: u64,
        bytes: Bytes,
    },
    /// The cancel flag of an open request was set.
    Cancel {
        number: u64,
    },
    /// WDK: IRP_MN_QUERY_REMOVE_DEVICE.
    Pause,
    /// WDK: IRP_MN_CANCEL_REMOVE_DEVICE.
    Resume,
    /// WDK: IRP_MN_REMOVE_DEVICE.
    Remove,
    /// WDK: IRP_MN_SURPRISE_REMOVAL.
    Surprise,
    /// The removal has ended: nothing is open.
    Removed,
}
