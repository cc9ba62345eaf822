//! The filter, and what its owner calls.

ghost use Rattle.std.specs.Prelude.{◌≡◌, ◌<◌, ◌^◌, [], IsFalse};
ghost use Rattle.hold_filter.specs.Shown.{held_count};
ghost use Rattle.hold_filter.specs.Opening.{IsFreshBelow, opening_over};

use crate::parts::Parts;
use crate::table::Table;
use device::{Device, Shown};
use std::alloc::Global;
use std::marker::Model;

/// The filter over a device.
pub struct Filter<D: Shown> {
    pub(crate) parts: Parts<D>,
}

// By hand, so that no crate above proves it again, as it would a derived one.
impl<D: Shown> Drop for Filter<D> {
    fn drop(self) {
        let Filter { parts: _ } = self;
    }
}

impl<D: Shown> Model for Filter<D> {
    ghost use Rattle.hold_filter.specs.Shown.{FilterView};
    ghost use Rattle.hold_filter.specs.inside.TableView.{books_of};
    ghost use Rattle.hold_filter.specs.inside.View.{shown_of};
    ghost use Rattle.hold_filter.specs.inside.Invariant.{IsFilter};

    ghost Value = { FilterView };

    ghost view = { λ s. shown_of (D.view s.parts.device) s.parts.table };

    ghost invariant = { λ s. IsFilter D.takes_srb D.stack_size (D.view s.parts.device) (books_of s.parts.table) };
}

/// Shows the caller that a device takes fewer requests in all than a number can count.
fn most_fits<D: Device>(device: &D)
    ensures fits { (D.view device.now).most < 2 ^ 128 }
{
    let _most = device.most();
}

impl<D: Device> Filter<D> {
    /// The filter over a device to which nothing was submitted yet and that takes packets without an SRB, with at most
    /// `window` requests below, one at least. The device has no window of its own, and nothing reserved. It takes no
    /// memory.
    pub fn new(alloc: Global, device: D, window: usize) -> Filter<D>
        requires locations { 0 < D.stack_size }
        requires buffers { IsFalse D.takes_srb }
        requires device { IsFreshBelow (D.view device) }
        requires some { 0 < window }
        ensures opening { result.shown ≡ opening_over window (D.view device) }
        ensures none_held { result.queue ≡ [] }
    {
        device.shows_order();
        most_fits(&device);
        let table = Table::new(alloc, window);
        let parts = Parts { device, table };
        Filter { parts }
    }
}

impl<D: Shown> Filter<D> {
    /// Gives the device below back, as it is. The packets that the filter has are gone.
    pub fn into_device(self) -> D
        ensures adapter { (D.view result).adapter ≡ self.shown.adapter }
    {
        let Filter { parts } = self;
        parts.into_device()
    }

    /// How many requests the filter holds: none once the device is removed, since those that it held have ended.
    pub fn held(&self) -> usize
        ensures { result ≡ held_count self.now }
    {
        if self.parts.table.removing {
            0
        } else {
            self.parts.table.held.len()
        }
    }
}
