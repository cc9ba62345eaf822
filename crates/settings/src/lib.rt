//! The settings of a disk in memory, of the adapter over it and of the stack over both: how they are read, and the
//! adapter that they give.
//!
//! # Promises
//!
//! `document::config`: the settings of a document without a fault (`settings`), each in its range (`in_range`), else
//! its first fault, or want of memory (`fault`). `new_disk` gives zeros behind a table that says the settings'
//! partitions, with their bad sectors, and `new_adapter` a fresh adapter over them, with their rules that fail commands
//! (`new`, `rules`, `says`, `extents`, `blank`); `table_sector` is that sector 0 (`bytes`, `says`). `slowing`: just
//! their other rules, in order (`slows`); `has_slowing`: whether there is one.
#![tactic(auto)]

pub mod document;
mod medium;
mod planned;
mod rules;
mod table;

use injection::Rule;
pub use medium::{new_adapter, new_disk, table_sector};
pub use rules::{has_slowing, slowing};
use std::error::Error;
use std::fmt;

/// A partition of the disk.
#[derive(Debug, Clone, Copy, PartialEq, Eq)]
pub struct Partition {
    /// The type byte of its entry in the partition table, 1 to 255.
    pub kind: u8,
    /// Its first sector.
    pub first: u32,
    /// The number of its sectors.
    pub count: u32,
}

/// A disk, an adapter and a stack.
#[derive(Debug, Drop)]
pub struct Config {
    /// Bytes of a sector, 512 or 4096.
    pub sector_size: u32,
    /// Sectors of the disk, 1 to 1,099,511,627,776.
    pub sectors: u64,
    /// Sectors of the longest transfer of the adapter, 1 to 65,536.
    pub max_transfer: u32,
    /// Tags of the adapter, 1 to 32.
    pub depth: u8,
    /// Requests at work at once, 1 to 64.
    pub window: u32,
    /// Requests open at once, 1 to 64.
    pub open_requests: u32,
    pub write_protected: bool,
    /// Sectors that can't be read or written, each below `sectors`.
    pub bad_sectors: Vec<u64>,
    /// The rules by which commands fail or are slowed, the first first.
    pub faults: Vec<Rule>,
    /// At most four, in the order of their entries in the partition table.
    pub partitions: Vec<Partition>,
}

/// Why settings were refused.
#[derive(Debug, Clone, Copy, PartialEq, Eq)]
pub enum ConfigFault {
    /// The text is no TOML document.
    NotToml,
    /// There is a key that no setting has.
    UnknownKey,
    /// A key is not there that has to be.
    MissingKey,
    /// A value is not in its range, or of another kind.
    OutOfRange,
    /// There are more than four partitions.
    TooManyPartitions,
    /// Memory was refused.
    NoMemory,
}

impl fmt::Display for ConfigFault {
    ghost use Rattle.std.specs.Prelude.{Some};
    ghost use Rattle.settings.specs.FaultTexts.{text_of};

    ghost output = { λ fault. Some (text_of fault) };

    fn fmt<W: fmt::Write>(&self, f: &mut fmt::Formatter<W>) -> fmt::Result {
        match self {
            ConfigFault::NotToml => f.write_str("config: not TOML"),
            ConfigFault::UnknownKey => f.write_str("config: unknown key"),
            ConfigFault::MissingKey => f.write_str("config: missing key"),
            ConfigFault::OutOfRange => f.write_str("config: out of range"),
            ConfigFault::TooManyPartitions => f.write_str("config: too many partitions"),
            ConfigFault::NoMemory => f.write_str("no memory"),
        }
    }
}

impl Error for ConfigFault {}
