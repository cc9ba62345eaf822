//! What tests of journals compare: [`replay`] puts the entries of a journal, one after the other, on a disk as it was
//! before.
//!
//! # Promises
//!
//! Nothing: tests call it.
#![tactic(auto)]

use disk::{BadSector, Medium, NoMemory};
use sector::Extent;
use sector_journal::Entered;
use srb::{Entry, Kind};
use std::alloc::{AllocError, Global};
use thiserror::Error;

/// Why entries don't replay.
#[derive(Debug, Clone, Copy, PartialEq, Eq, Error)]
pub enum ReplayFault {
    #[error("no memory")]
    NoMemory,
    /// A read gives other bytes than its entry has, or other sectors stand there in the end.
    #[error("the entries replay to something else")]
    Differs,
    /// Sectors that aren't there or are bad, or more than 64; a write's bytes of another length; sectors not of 512
    /// bytes.
    #[error("an entry can't be replayed")]
    Unfit,
}

impl From<AllocError> for ReplayFault {
    fn from(_refused: AllocError) -> ReplayFault {
        ReplayFault::NoMemory
    }
}

/// Reads the bytes of sectors.
fn read_all<M: Medium>(
    alloc: Global,
    medium: &mut M,
    extent: Extent,
) -> Result<Vec<u8>, ReplayFault> {
    if !extent.is_within(medium.sectors()) {
        return Err(ReplayFault::Unfit);
    }
    if extent.count > 64 || medium.sector_size() != 512 || medium.failures() >= 1000 {
        return Err(ReplayFault::Unfit);
    }
    let mut bytes = vec![in alloc; 0; extent.count as usize * 512]?;
    match medium.read(extent, bytes.as_mut_slice()) {
        Ok(()) => Ok(bytes),
        Err(BadSector) => Err(ReplayFault::Unfit),
    }
}

/// Writes sectors.
fn write_all<M: Medium>(medium: &mut M, extent: Extent, bytes: &[u8]) -> Result<(), ReplayFault> {
    if !extent.is_within(medium.sectors()) {
        return Err(ReplayFault::Unfit);
    }
    if let Err(NoMemory) = medium.reserve(extent) {
        return Err(ReplayFault::NoMemory);
    }
    if extent.count > 64 || medium.sector_size() != 512 || medium.failures() >= 1000 {
        return Err(ReplayFault::Unfit);
    }
    if bytes.len() != extent.count as usize * 512 {
        return Err(ReplayFault::Unfit);
    }
    match medium.write(extent, bytes) {
        Ok(()) => Ok(()),
        Err(BadSector) => Err(ReplayFault::Unfit),
    }
}

/// Compares bytes that have to be the same.
fn compare(got: &[u8], wanted: &[u8]) -> Result<(), ReplayFault> {
    if got == wanted {
        return Ok(());
    }
    Err(ReplayFault::Differs)
}

/// Replays an entry on a disk as it was before. The bytes of a read are read again and compared.
fn replay_one<M: Medium>(alloc: Global, fresh: &mut M, entry: &Entry) -> Result<(), ReplayFault> {
    match entry.kind {
        Kind::Read => {
            let bytes = read_all(alloc, fresh, entry.extent)?;
            compare(bytes.as_slice(), entry.bytes.as_slice())
        }
        Kind::Write => write_all(fresh, entry.extent, entry.bytes.as_slice()),
        Kind::Flush => compare(entry.bytes.as_slice(), &[]),
    }
}

/// Replays the entries, one after the other, on a disk as it was before the first. Each read has to give the bytes of
/// its entry, and in the end the sectors of `moved` have to be those of the journal's medium.
///
/// # Errors
///
/// [`ReplayFault::Differs`] where a read or a sector is another, [`ReplayFault::Unfit`], [`ReplayFault::NoMemory`].
pub fn replay<M: Medium, F: Medium>(
    alloc: Global,
    entries: &[Entered],
    fresh: &mut F,
    medium: &mut M,
    moved: &[Extent],
) -> Result<(), ReplayFault> {
    for entered in entries {
        replay_one(alloc, fresh, &entered.entry)?;
    }
    compare_sectors(alloc, fresh, medium, moved)
}

/// Compares these sectors of both media.
fn compare_sectors<M: Medium, F: Medium>(
    alloc: Global,
    fresh: &mut F,
    medium: &mut M,
    moved: &[Extent],
) -> Result<(), ReplayFault> {
    for extent in moved {
        let one = read_all(alloc, medium, *extent)?;
        let other = read_all(alloc, fresh, *extent)?;
        compare(one.as_slice(), other.as_slice())?;
    }
    Ok(())
}
