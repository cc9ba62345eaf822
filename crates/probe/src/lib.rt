//! What a disk says of itself: its sizes and its partitions, asked of an adapter before anything else is, by READ
//! CAPACITY(10), where that can't tell the number of sectors READ CAPACITY(16) as well, and READ(10) of sector 0. No
//! table within a partition is read.
//!
//! # Promises
//!
//! `probe` finds just the disk's sizes and partitions (`probed`), by plain commands one by one, each as piece 0 on tag
//! 0 (`read`, `IsReading`). The disk stays as it was (`same`). A fault has its cause, after which no command was sent
//! (`fault`).
#![tactic(auto)]

mod capacity;
mod exchange;
mod probing;

use arrayvec::ArrayVec;
use mbr::MbrFault;
use ntstatus::NtStatus;
pub use probing::probe;
use sector::Extent;
use thiserror::Error;

/// What a disk says of itself.
#[derive(Debug, Drop)]
pub struct Probed {
    /// Bytes of a sector, 512 or 4096.
    pub sector_size: u64,
    /// The number of sectors, from 1 to 2^40.
    pub sectors: u64,
    /// The extents of the used entries of the partition table, in table order.
    pub partitions: ArrayVec<Extent, 4>,
}

/// Why a disk could not be probed.
#[derive(Debug, Clone, Copy, PartialEq, Eq, Error)]
pub enum ProbeFault {
    /// The adapter failed READ CAPACITY or the read of sector 0, with this status.
    #[error("the device failed a command of the probe: {0}")]
    Device(NtStatus),
    /// Sector 0 holds no partition table that is right.
    #[error("the partition table is wrong: {0}")]
    Mbr(MbrFault),
    /// Memory was refused.
    #[error("no memory")]
    NoMemory,
}
