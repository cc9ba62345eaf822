//! What a command says of its blocks and its data, whichever form it has.

ghost use Rattle.std.specs.Prelude.{◌≡◌};
ghost use Rattle.cdb.specs.Facts.{lba_of, blocks_of, direction_of, bytes_of};

use crate::{Cdb, Direction};

impl Cdb {
    /// The first block that the command names; 0 where it names none.
    pub fn lba(&self) -> u64
        ensures { result ≡ lba_of self.now }
    {
        match *self {
            Cdb::Read10 { lba, .. } | Cdb::Write10 { lba, .. } | Cdb::Sync10 { lba, .. } =>
                lba as u64,
            Cdb::Read16 { lba, .. } | Cdb::Write16 { lba, .. } | Cdb::Sync16 { lba, .. } => lba,
            Cdb::ReadCapacity10 | Cdb::ReadCapacity16 { .. } => 0,
        }
    }

    /// How many blocks the command names; 0 of SYNCHRONIZE CACHE stands for all from there on.
    pub fn blocks(&self) -> u32
        ensures { result ≡ blocks_of self.now }
    {
        match *self {
            Cdb::Read10 { count, .. } | Cdb::Write10 { count, .. } => count as u32,
            Cdb::Read16 { count, .. } | Cdb::Write16 { count, .. } => count,
            Cdb::Sync10 { blocks, .. } => blocks as u32,
            Cdb::Sync16 { blocks, .. } => blocks,
            Cdb::ReadCapacity10 | Cdb::ReadCapacity16 { .. } => 0,
        }
    }

    /// The direction of the command's data.
    pub fn direction(&self) -> Direction
        ensures { result ≡ direction_of self.now }
    {
        match *self {
            Cdb::Read10 { .. } | Cdb::Read16 { .. } => Direction::DataIn,
            Cdb::ReadCapacity10 | Cdb::ReadCapacity16 { .. } => Direction::DataIn,
            Cdb::Write10 { .. } | Cdb::Write16 { .. } => Direction::DataOut,
            Cdb::Sync10 { .. } | Cdb::Sync16 { .. } => Direction::NoData,
        }
    }

    /// The bytes of the command's data, on a disk whose blocks have `block_size` bytes.
    pub fn data_length(&self, block_size: u32) -> u64
        ensures { result ≡ bytes_of block_size self.now }
    {
        match *self {
            Cdb::Read10 { .. } | Cdb::Write10 { .. } | Cdb::Read16 { .. } | Cdb::Write16 { .. } => {
                self.blocks() as u64 * block_size as u64
            }
            Cdb::Sync10 { .. } | Cdb::Sync16 { .. } => 0,
            Cdb::ReadCapacity10 => 8,
            Cdb::ReadCapacity16 { allocation } => allocation as u64,
        }
    }
}
