//! What a thread hands back.

ghost use Rattle.std.specs.Prelude.{◌≡◌, ◌∷◌, []};
ghost use Rattle.file_disk.specs.Transfers.{entry_moved};
ghost use Rattle.movers.specs.Moving.{IsMoved};

use crate::ask::Ask;
use chronicle::{Claims, Naming};
use file_disk::{Moved, Record, Sizes};
use noted::Noted;
use srb::Completion;
use std::marker::Model;

/// What came of a task. Its type says that a disk of these sizes made just these calls for it, and that this came of
/// it.
#[derive(Drop)]
pub struct Done<N: Naming> {
    pub(crate) at: usize,
    pub(crate) ask: Ask,
    pub(crate) moved: Result<Moved, Completion>,
    pub(crate) sizes: Sizes,
    /// Whether the disk's newest refused write had no room, before the task and after it.
    pub(crate) was_full: bool,
    pub(crate) full: bool,
    /// The record of the disk before it, and after it.
    pub(crate) before: Noted<Record>,
    pub(crate) after: Noted<Record>,
    pub(crate) claims: Claims<Ask, N>,
}

impl<N: Naming> Model for Done<N> {
    ghost use Rattle.std.specs.Prelude.{◌≡◌, ◌∷◌, []};
    ghost use Rattle.file_disk.specs.Transfers.{entry_moved};
    ghost use Rattle.movers.specs.Moving.{DoneView, IsMoved, calls_in, disk_of};

    ghost Value = { DoneView };

    ghost view = { λ d. record {
      at = d.at;
      ask = d.ask;
      what = entry_moved d.ask.tag d.ask.piece d.ask.srb d.moved;
      sizes = d.sizes;
      before = disk_of d.sizes d.was_full (calls_in d.before.items);
      after = disk_of d.sizes d.full (calls_in d.after.items);
    } };

    ghost invariant = { λ d. (d.claims ≡ (d.at, d.ask) ∷ []) × IsMoved d.sizes d.ask (entry_moved d.ask.tag d.ask.piece d.ask.srb d.moved) (disk_of d.sizes d.was_full (calls_in d.before.items)) (disk_of d.sizes d.full (calls_in d.after.items)) };
}

impl<N: Naming> Done<N> {
    /// The place of what was asked.
    pub fn at(&self) -> usize
        ensures { result ≡ self.now.at }
    {
        self.at
    }

    /// The tag of the piece that was asked for.
    pub fn tag(&self) -> u8
        ensures { result ≡ self.now.ask.tag }
    {
        self.ask.tag
    }

    /// The sizes of the disk that carried it out.
    pub fn sizes(&self) -> Sizes
        ensures { result ≡ self.now.sizes }
    {
        self.sizes
    }

    /// Whether that disk's storage had no room for the newest of the writes that it refused.
    pub fn is_full(&self) -> bool
        ensures { result ≡ self.now.after.full }
    {
        self.full
    }

    /// Shows the caller what its type says. It does nothing.
    pub fn shows_moved(&self)
        ensures { IsMoved self.now.sizes self.now.ask self.now.what self.now.before self.now.after }
    {
        let _sizes = self.sizes;
    }

    /// What was asked, and what came of it.
    pub fn into_parts(self) -> (Ask, Result<Moved, Completion>)
        ensures ask { result.0 ≡ self.ask }
        ensures what { entry_moved result.0.tag result.0.piece result.0.srb result.1 ≡ self.what }
        ensures moved { IsMoved self.sizes self.ask self.what self.before self.after }
    {
        (self.ask, self.moved)
    }
}

/// Notes a record as it is now.
pub(crate) fn note_of(noted: &Record) -> Noted<Record>
    ensures { result.items ≡ noted.now ∷ [] }
{
    Noted::none().with(noted)
}
