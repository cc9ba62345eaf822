//! The class driver of a disk: it cuts long transfers into pieces, each an SRB of its own to the port below.
//!
//! # Promises
//!
//! `Disk<D>` is a `Device` over any that takes SRBs, shows one whole disk and answers a first busy return: it takes
//! requests of up to 65,536 sectors (`opening_over`). With a tag free no part waits that may go (`IsSending`). A busy
//! part goes again, sixteen times a request, unless it is cancelled or removed (`IsSendable`: `begins`, `spare`); a
//! failure ends no other. A request goes up with SUCCESS where all its parts succeeded, else with the lowest failure's
//! status, a read's bytes in order (`hands_up`: `answers`, `brings`). A cancel ends what waits of it (`cancels`), a
//! removal all that waits (`drains`). `unsafe`: `Send` for `Noted`.
#![tactic(auto)]

ghost use Rattle.std.specs.Prelude.{◌≡◌};

mod blocks;
mod buffers;
mod layer;
mod noted;
mod parts;
mod requests;
mod spares;
mod table;
mod table_calls;
mod transfers;

use device::Shown;
use spares::Spares;
use std::alloc::Global;
use std::marker::Model;
use table::Table;

/// What the class driver knows of the disk below.
#[derive(Debug, Clone, Copy, PartialEq, Eq)]
pub struct Sizes {
    /// Bytes of a sector.
    pub sector_size: u32,
    /// Sectors of the longest transfer below.
    pub max_transfer: u64,
    /// Sectors of the disk.
    pub disk_sectors: u64,
    /// Whether the bytes of labels stand in memory.
    pub keeps_bytes: bool,
}

/// The layer below and the requests (WDK: DeviceExtension), which are in order between two calls of the class driver
/// and not within one.
struct Extension<D: Shown> {
    alloc: Global,
    device: D,
    table: Table,
    spares: Spares,
}

// By hand, for the same reason as the drop of `Disk`.
impl<D: Shown> Drop for Extension<D> {
    fn drop(self) {
        let Extension {
            alloc: _,
            device: _,
            table: _,
            spares: _,
        } = self;
    }
}

impl<D: Shown> Extension<D> {
    fn into_device(self) -> D
        ensures { D.view result ≡ D.view self.device }
    {
        let Extension {
            alloc: _,
            device,
            table: _,
            spares: _,
        } = self;
        device
    }
}

/// The class driver over a port.
pub struct Disk<D: Shown> {
    extension: Extension<D>,
}

// By hand, so that no crate above proves it again, as it would a derived one.
impl<D: Shown> Drop for Disk<D> {
    fn drop(self) {
        let Disk { extension: _ } = self;
    }
}

impl<D: Shown> Model for Disk<D> {
    ghost use Rattle.device.specs.View.{DeviceView};
    ghost use Rattle.class_disk.specs.inside.TableView.{books_of};
    ghost use Rattle.class_disk.specs.inside.Driver.{IsDriver, view_of};

    ghost Value = { DeviceView };

    ghost view = { λ s. view_of (D.view s.extension.device) (books_of s.extension.table) };

    ghost invariant = { λ s. IsDriver D.takes_srb D.stack_size (D.view s.extension.device)
        (books_of s.extension.table) };
}

impl<D: Shown> Disk<D> {
    /// Gives the layer below back, as it is. What the driver knows of its requests is gone.
    pub fn into_device(self) -> D
        ensures adapter { (D.view result).adapter ≡ self.adapter }
    {
        let Disk { extension } = self;
        extension.into_device()
    }
}
