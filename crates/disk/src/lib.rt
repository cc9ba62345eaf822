//! A medium: the sectors of a disk, read and written by extents.
//!
//! # Promises
//!
//! `VecDisk` and `SparseDisk` keep [`Medium`]: a call fails exactly where its extent has a bad sector, and then only
//! counts (`refused`, `fails`, `buffer`); else it reads or replaces its extent (`reads`, `writes`). `VecDisk::reserve`
//! never fails (`takes_none`). `SparseDisk::reserve` changes nothing that is read (`reserves`), takes just the chunks
//! of its extent (`near`, `run`), and doesn't fail where they are there (`ready`). `SparseDisk::new` is blank, with no
//! chunk (`blank`, `unreserved`); `starting_with` adds the first sectors' chunks alone (`starts`, `only`).
#![tactic(auto)]

mod bad_list;
mod chunks;
mod places;
mod sparse_disk;
mod vec_disk;

use sector::Extent;
pub use sparse_disk::SparseDisk;
use std::alloc::AllocError;
use thiserror::Error;
pub use vec_disk::VecDisk;

/// The memory for a reservation was refused.
#[derive(Debug, Clone, Copy, PartialEq, Eq, Error)]
#[error("no memory")]
pub struct NoMemory;

impl From<AllocError> for NoMemory {
    fn from(_: AllocError) -> NoMemory {
        NoMemory
    }
}

/// The extent of the call holds a sector that can't be read or written.
#[derive(Debug, Clone, Copy, PartialEq, Eq, Error)]
#[error("bad sector")]
pub struct BadSector;

/// The sectors of a disk.
pub trait Medium: Drop {
    ghost use Rattle.std.specs.Prelude.{◌≡◌, ◌<◌, ◌^◌, ◌*◌, ◌↔◌, ℕ, length, IsOk, IsErr, OnOk, OnErr};
    ghost use Rattle.disk.specs.Medium.{MediumView, HasWholeSectors, IsWithin, IsReserved, HasBad, Reserves, ReservesNear, Reads, Writes, failed};

    ghost view: { Self → MediumView };

    /// The bytes of one sector.
    fn sector_size(&self) -> u32
        ensures { result ≡ (view self.now).sector_size };

    /// The number of sectors.
    fn sectors(&self) -> u64
        ensures { result ≡ length (view self.now).sectors };

    /// The number of reads and writes that failed.
    fn failures(&self) -> u128
        ensures { result ≡ (view self.now).failures };

    /// Makes room for writes of an extent, for good: for the runs of sectors that the extent has a part in, and no
    /// others.
    ///
    /// # Errors
    ///
    /// [`NoMemory`] where a growth was refused; room may then have been made for a part of the extent. Never where the
    /// extent was reserved before.
    fn reserve(&mut self, extent: Extent) -> Result<(), NoMemory>
        requires { IsWithin (view self.old) extent }
        ensures reserved { OnOk result (IsReserved (view self.new) extent) }
        ensures ready { IsReserved (view self.old) extent → IsOk result }
        ensures reserves { Reserves (view self.old) (view self.new) }
        ensures near { ReservesNear (view self.old) extent (view self.new) };

    /// Reads the bytes of an extent within the medium into a buffer of just as many bytes.
    ///
    /// # Errors
    ///
    /// [`BadSector`], counted, exactly where a sector of the extent is bad; the buffer then stays as it was.
    fn read(&mut self, extent: Extent, buffer: &mut [u8]) -> Result<(), BadSector>
        requires within { IsWithin (view self.old) extent }
        requires long { length buffer.old ≡ extent.count * (view self.old).sector_size }
        requires countable { (view self.old).failures < 2 ^ 120 }
        ensures refused { IsErr result ↔ HasBad (view self.old) extent }
        ensures reads { OnOk result (Reads (view self.old) extent buffer.new (view self.new)) }
        ensures buffer { OnErr result (buffer.new ≡ buffer.old) }
        ensures fails { OnErr result (view self.new ≡ failed (view self.old)) };

    /// Writes the bytes of an extent within the medium, which was reserved before.
    ///
    /// # Errors
    ///
    /// [`BadSector`], counted, exactly where a sector of the extent is bad; nothing is then written.
    fn write(&mut self, extent: Extent, bytes: &[u8]) -> Result<(), BadSector>
        requires within { IsWithin (view self.old) extent }
        requires reserved { IsReserved (view self.old) extent }
        requires long { length bytes.now ≡ extent.count * (view self.old).sector_size }
        requires countable { (view self.old).failures < 2 ^ 120 }
        ensures refused { IsErr result ↔ HasBad (view self.old) extent }
        ensures writes { OnOk result (Writes (view self.old) extent bytes.now (view self.new)) }
        ensures fails { OnErr result (view self.new ≡ failed (view self.old)) };

    ghost whole: { (medium : Self) → HasWholeSectors (view medium) };
}
