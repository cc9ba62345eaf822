//! Why there was no verdict.

use disk::NoMemory;
use judge::NoVerdict;
use std::alloc::{AllocError, AllocFailed};
use std::io;
use thiserror::Error;

/// Why the runs were not made, or not judged.
#[derive(Debug, Clone, Copy, Error)]
pub enum HostileFault {
    #[error("usage: hostile [SEED RUNS]")]
    Usage,
    #[error("no memory")]
    NoMemory,
    /// A layout is out of the adapter's range.
    #[error("no such disk")]
    NoDisk,
    #[error("output failed")]
    OutputFailed,
}

impl From<AllocError> for HostileFault {
    fn from(_refused: AllocError) -> HostileFault {
        HostileFault::NoMemory
    }
}

impl<T: Drop> From<AllocFailed<T>> for HostileFault {
    fn from(_refused: AllocFailed<T>) -> HostileFault {
        HostileFault::NoMemory
    }
}

impl From<NoMemory> for HostileFault {
    fn from(_refused: NoMemory) -> HostileFault {
        HostileFault::NoMemory
    }
}

impl From<NoVerdict> for HostileFault {
    fn from(_refused: NoVerdict) -> HostileFault {
        HostileFault::NoMemory
    }
}

impl From<io::Error> for HostileFault {
    fn from(_failed: io::Error) -> HostileFault {
        HostileFault::OutputFailed
    }
}
