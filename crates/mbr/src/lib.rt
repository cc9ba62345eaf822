//! The partition table of a master boot record: 512 bytes of sector 0, with four entries and a signature.
//!
//! Nothing is said of the code in front of the table, nor of the bytes of an entry for cylinder, head and sector: they
//! are written as 0 and ignored when read. A type is used or unused and no more: a table within an extended partition
//! (05h, 0Fh) and one behind a protective entry (EEh) are not looked for.
//!
//! # Promises
//!
//! `parse` says exactly what sector 0 says (`answer`, `told_by`): disjoint extents in the disk without sector 0
//! (`map`), or the first fault. `render` writes one list of 512 bytes (`bytes`, `whole`), which says just its entries,
//! faults too (`read_back`), also where bytes follow (`followed`).
#![tactic(auto)]

mod reading;
mod writing;

pub use reading::parse;
use thiserror::Error;
pub use writing::render;

/// What is wrong with a partition table; of several the first that [`parse`] meets: entry by entry, overlaps last.
#[derive(Debug, Clone, Copy, PartialEq, Eq, Error)]
pub enum MbrFault {
    /// There are fewer than 512 bytes.
    #[error("short sector")]
    ShortSector,
    /// Bytes 510 and 511 are not 55h AAh.
    #[error("no signature")]
    NoSignature,
    /// A used entry has 0 sectors.
    #[error("empty entry")]
    EmptyEntry,
    /// A used entry begins at sector 0, where the table stands.
    #[error("covers table")]
    CoversTable,
    /// A used entry ends past the disk.
    #[error("past end")]
    PastEnd,
    /// Two used entries share a sector.
    #[error("overlap")]
    Overlap,
}

/// The byte where the entries begin.
const ENTRIES: usize = 446;

/// The bytes of an entry.
const ENTRY_SIZE: usize = 16;

/// The type in an entry, one byte; 0 is unused.
const KIND: usize = 4;

/// The first sector in an entry, four bytes, the lowest first.
const FIRST: usize = 8;

/// The number of sectors in an entry, likewise.
const COUNT: usize = 12;

/// The byte where the signature begins.
const SIGNATURE: usize = 510;

/// The signature.
const SIGNED: [u8; 2] = [0x55, 0xAA];
