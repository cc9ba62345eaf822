//! One partition of a stack as an array of bytes. Each call carries its request from its call to its answer.
//!
//! A [`Volume`] owns a stack on which nothing else is open, and a handle on one partition of it.
//!
//! # Promises
//!
//! Over a faithful adapter with nothing else open: a read gives just its bytes (`reads`), a write replaces its own
//! (`writes`), else the disk stays (`same`). A failed write leaves each of its sectors old or new (`WritesSome`). Each
//! result is its request's one answer, with write-through as asked (`answered`). A refused request sent no command, a
//! failed one or a done flush some (`sent`). `open`, `start`: the disk's bytes and one handle more (`content`,
//! `handles`), or why not (`why`, `fault`). `close`: one handle fewer (`closed`), the bytes as they were (`same`). A
//! [`SparseVolume`], which was zeros at first, promises the same, and that what it tells as zeros is (`IsRun`).
#![tactic(auto)]

use adapter::Adapter;
use compose::{Stack, StartFault};
use io_manager::Refusal;
use ntstatus::NtStatus;

mod carrying;
mod opening;
mod slowing;
mod sparse;
mod volume;
mod written;

pub use sparse::SparseVolume;
pub use volume::Volume;

/// The sizes of a partition.
#[derive(Debug, Clone, Copy, PartialEq, Eq)]
pub struct Sizes {
    /// The bytes of a sector, 512 or 4096.
    pub sector_size: u64,
    /// The number of sectors, from 1 to 2^40.
    pub sectors: u64,
}

/// Bytes of a volume that are alike.
#[derive(Debug, Clone, Copy, PartialEq, Eq)]
pub struct Run {
    /// How many bytes.
    pub count: u64,
    /// Whether they are known to be zeros.
    pub are_zeros: bool,
}

/// Why a request did not succeed.
#[derive(Debug, Clone, Copy, PartialEq, Eq, thiserror::Error)]
pub enum Error {
    /// The request was not sent, and nothing changed. [`Refusal::InvalidParameter`] just where its bytes are no whole
    /// sectors of the partition, or more than 65,536 sectors; [`Refusal::InsufficientResources`] where memory was
    /// refused; [`Refusal::DeviceBusy`] once 2^62 - 1 requests were made.
    #[error("the request was refused: {0:?}")]
    Refused(Refusal),
    /// The request was sent, and ended with this status.
    #[error("the request failed: {0}")]
    Failed(NtStatus),
}

/// Why no volume could be opened over an adapter.
#[derive(Debug, Clone, Copy, PartialEq, Eq, thiserror::Error)]
pub enum OpenFault {
    /// No stack could be started.
    #[error("{0}")]
    Start(StartFault),
    /// There is no such partition.
    #[error("the partition was refused: {0:?}")]
    Refused(Refusal),
}

/// Why no volume could be opened over an adapter, and the adapter.
#[derive(Drop)]
pub struct NotOpened<A: Adapter> {
    pub fault: OpenFault,
    pub adapter: A,
}

/// Why a partition of a stack could not be opened, and the stack.
#[derive(Drop)]
pub struct Unopened<A: Adapter> {
    pub reason: Refusal,
    pub stack: Stack<A>,
}
