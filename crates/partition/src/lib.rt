//! The partition driver: one volume for each partition of a disk, over the layer that has the whole disk as its one
//! volume.
//!
//! # Promises
//!
//! `Partitions<D>` is a `Device` over a whole disk, and a `Hold` over one (`opening`). No act changes another
//! partition's sectors (`acts`) or those of none (`outside`). Sector i of a partition is the disk's sector `first + i`
//! (`on_disk`). Requests keep their numbers and spots.
#![tactic(auto)]

ghost use Rattle.std.specs.Prelude.{◌≡◌, ◌<◌};
ghost use Rattle.partition.specs.Opening.{IsFreshDisk, opening_view};

mod layer;
mod locations;
mod wanted;

use arrayvec::ArrayVec;
use device::{Device, Request, Shown};
use sector::Extent;
use std::alloc::Global;
use std::marker::Model;

/// The layer below with its partitions, which are in order between two calls and not within one.
#[derive(Drop)]
struct Parts<D: Shown> {
    device: D,
    /// The partitions, in table order.
    table: ArrayVec<Extent, 4>,
    /// By spots: the request that the spot was last reserved for.
    wanted: Vec<Option<Request>>,
}

/// The partitions of a disk.
pub struct Partitions<D: Shown> {
    parts: Parts<D>,
}

// By hand, so that no crate above proves it again, as it would a derived one.
impl<D: Shown> Drop for Partitions<D> {
    fn drop(self) {
        let Partitions { parts: _ } = self;
    }
}

impl<D: Shown> Model for Partitions<D> {
    ghost use Rattle.device.specs.View.{DeviceView};
    ghost use Rattle.std.specs.Prelude.{vec_capacity};
    ghost use Rattle.partition.specs.Shown.{shown_of};
    ghost use Rattle.partition.specs.inside.Rooms.{wanted_by};
    ghost use Rattle.partition.specs.inside.Invariant.{IsKept};

    ghost Value = { DeviceView };

    ghost view = { λ s. shown_of s.parts.table.items
        (wanted_by s.parts.wanted.items (vec_capacity s.parts.wanted)) (D.view s.parts.device) };

    ghost invariant = { λ s. IsKept D.stack_size s.parts.table.items
        (wanted_by s.parts.wanted.items (vec_capacity s.parts.wanted)) (D.view s.parts.device) };
}

impl<D: Shown> Partitions<D> {
    /// Gives the layer below back, as it is.
    pub fn into_device(self) -> D
        ensures adapter { (D.view result).adapter ≡ self.adapter }
    {
        let Partitions { parts } = self;
        let Parts {
            device,
            table: _,
            wanted: _,
        } = parts;
        device
    }
}

impl<D: Device> Partitions<D> {
    /// The partitions of a table, each a volume by its number in the table, over a disk of which nothing was asked yet.
    /// The extents lie in the disk, behind its first sector, and share no sector. The device's one volume is the whole
    /// disk, and nothing is reserved there.
    pub fn new(alloc: Global, device: D, table: ArrayVec<Extent, 4>) -> Partitions<D>
        requires locations { 0 < D.stack_size }
        requires fresh { IsFreshDisk table.items (D.view device) }
        ensures opening { result ≡ opening_view table.items (D.view device) }
    {
        device.shows_order();
        let parts = Parts {
            device,
            table,
            wanted: Vec::new(alloc),
        };
        Partitions { parts }
    }
}
