//! An adapter that has the first sector alone: what its acts do is booked, but for piece 0.

ghost use Rattle.std.specs.Prelude.{◌≡◌, ◌⊎◌, ◌≤◌, ◌^◌, [], false, true, length, IfOk, IsTrue};
ghost use Rattle.miniport.specs.Memory.{MemView};
ghost use Rattle.miniport.specs.Apart.{IsNewBooked};

use crate::first_sector::FirstSector;
use crate::memory::MemAdapter;
use adapter::Adapter;
use disk::NoMemory;
use sector::Extent;
use srb::{Booked, Completion, DeviceLabel, Srb};
use std::alloc::{AllocError, Global};
use std::marker::Model;

/// An adapter whose sectors stand elsewhere, except for a copy of the first. Piece 0, by which the disk is probed
/// before its first request, is carried out on that copy. Any other piece acts or fails as was booked of it; where
/// nothing was booked, it fails with a hardware error.
pub struct BookedAdapter {
    inner: MemAdapter<FirstSector>,
}

// By hand, so that no crate above proves it again, as it would a derived one.
impl Drop for BookedAdapter {
    fn drop(self) {
        let BookedAdapter { inner: _ } = self;
    }
}

impl Model for BookedAdapter {
    ghost Value = { MemView };

    ghost view = { λ a. a.inner };

    ghost invariant = { λ a. a.inner.write_protected ≡ true };
}

impl BookedAdapter {
    /// An adapter with no piece on any of its tags, for a disk of 1 to 2^40 sectors that begins with this one, of 512
    /// or 4096 bytes. `max_transfer` is in sectors, from 1 to 65,536; `depth` is the number of tags, from 1 to 32.
    ///
    /// # Errors
    ///
    /// Where the memory for tags and labels was refused.
    pub fn new(
        alloc: Global,
        first: Vec<u8>,
        sectors: u64,
        max_transfer: u32,
        depth: u8,
    ) -> Result<BookedAdapter, NoMemory>
        requires long { (length first.items ≡ 512) ⊎ (length first.items ≡ 4096) }
        requires some { 1 ≤ sectors }
        requires few { sectors ≤ 2 ^ 40 }
        requires transfer { 1 ≤ max_transfer }
        requires short { max_transfer ≤ 2 ^ 16 }
        requires deep { 1 ≤ depth }
        requires shallow { depth ≤ 32 }
        ensures new { IfOk result (IsNewBooked first.items sectors max_transfer depth) }
        ensures keeps { IfOk result (λ a. IsTrue a.shown.keeps_bytes) }
    {
        let medium = FirstSector::new(first, sectors);
        let inner = MemAdapter::new(alloc, medium, max_transfer, depth, true)?;
        Ok(BookedAdapter { inner })
    }

    /// The same adapter, of whose labels contracts alone read the bytes. No label waits.
    pub fn noting(self) -> BookedAdapter
        requires { self.shown.labels ≡ [] }
        ensures { result ≡ record self { shown = record self.shown { keeps_bytes = false } } }
    {
        let BookedAdapter { inner } = self;
        BookedAdapter {
            inner: inner.noting(),
        }
    }
}

impl Adapter for BookedAdapter {
    ghost use Rattle.miniport.specs.Apart.{apart};

    ghost view = { λ a. apart a.shown };

    fn sector_size(&self) -> u32 {
        self.inner.sector_size()
    }

    fn sectors(&self) -> u64 {
        self.inner.sectors()
    }

    fn max_transfer(&self) -> u32 {
        self.inner.max_transfer()
    }

    fn depth(&self) -> u8 {
        self.inner.depth()
    }

    fn is_faithful(&self) -> bool {
        let _inner = &self.inner;
        false
    }

    fn failures(&self) -> u128 {
        self.inner.failures()
    }

    fn reserve(&mut self, extent: Extent) -> Result<(), AllocError> {
        self.inner.reserve(extent)
    }

    fn keeps_bytes(&self) -> bool {
        self.inner.keeps_bytes()
    }

    fn in_use(&self, tag: u8) -> bool {
        self.inner.in_use(tag)
    }

    fn accept(&mut self, tag: u8, piece: u128, srb: Srb) {
        self.inner.accept(tag, piece, srb);
    }

    fn act(&mut self, tag: u8) -> bool {
        self.inner.act_apart(tag)
    }

    fn armed(&self, tag: u8) -> Option<(u128, &Srb)> {
        self.inner.armed(tag)
    }

    fn book(&mut self, tag: u8, piece: u128, what: Booked<'_>) {
        self.inner.book_apart(tag, piece, what);
    }

    fn finish(&mut self, tag: u8) -> Option<(Srb, Completion)> {
        self.inner.finish(tag)
    }

    fn reset(&mut self) {
        self.inner.reset();
    }

    fn take_label(&mut self) -> Option<DeviceLabel> {
        self.inner.take_label()
    }

    fn forget_labels(&mut self) {
        self.inner.forget_labels();
    }
}
