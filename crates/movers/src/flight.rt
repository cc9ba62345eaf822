//! The sectors that are being moved.

ghost use Rattle.std.specs.Prelude.{◌≡◌, ◌<◌, ◌+◌, ◌^◌, All, IsTrue, IfOk, None, Some, replicate, slice_set};
ghost use Rattle.movers.specs.Flight.{AllBeside, EndsInRange, MayRunBeside};

use sector::Extent;
use std::alloc::{AllocError, Global};
use std::marker::Model;

/// Sectors that a transfer reads or writes.
#[derive(Debug, Clone, Copy, PartialEq, Eq)]
pub struct Flown {
    pub extent: Extent,
    pub writes: bool,
    /// Whether it syncs the file: the system tells a sync's error once, so two of these don't run beside each other.
    pub syncs: bool,
}

impl Flown {
    /// Whether both may be moved at once.
    fn may_run_beside(&self, other: &Flown) -> bool
        requires one { self.now.extent.first + self.now.extent.count < 2 ^ 64 }
        requires other { other.now.extent.first + other.now.extent.count < 2 ^ 64 }
        ensures { IsTrue result → MayRunBeside self.now other.now }
    {
        if self.syncs && other.syncs {
            return false;
        }
        (!self.writes && !other.writes)
            || self.extent.first + self.extent.count <= other.extent.first
            || other.extent.first + other.extent.count <= self.extent.first
    }
}

/// Whether sectors may be moved beside those of a tag, if any.
fn is_beside(moving: &Option<Flown>, flown: &Flown) -> bool
    requires moving { EndsInRange moving.now }
    requires flown { flown.now.extent.first + flown.now.extent.count < 2 ^ 64 }
    ensures { IsTrue result → AllBeside flown.now moving.now }
{
    match moving {
        Some(other) => other.may_run_beside(flown),
        None => true,
    }
}

/// Whether sectors may be moved beside those of all tags.
fn all_beside(tags: &[Option<Flown>], flown: &Flown) -> bool
    requires tags { All EndsInRange tags.now }
    requires flown { flown.now.extent.first + flown.now.extent.count < 2 ^ 64 }
    ensures { IsTrue result → All (AllBeside flown.now) tags.now }
{
    for at in 0..tags.len() {
        if !is_beside(&tags[at], flown) {
            return false;
        }
    }
    true
}

/// For each tag the sectors that are being moved for it.
#[derive(Drop)]
pub struct Flight {
    tags: Vec<Option<Flown>>,
}

impl Model for Flight {
    ghost use Rattle.std.specs.Prelude.{List, Option, All};
    ghost use Rattle.movers.specs.declared.flight.Flown.{Flown};
    ghost use Rattle.movers.specs.Flight.{EndsInRange};

    ghost Value = { List (Option Flown) };

    ghost view = { λ f. f.tags.items };

    ghost invariant = { λ f. All EndsInRange f.tags.items };
}

impl Flight {
    /// Nothing on any of the tags.
    pub fn new(alloc: Global, depth: u8) -> Result<Flight, AllocError>
        ensures { IfOk result (λ f. f ≡ replicate depth None) }
    {
        Ok(Flight {
            tags: vec![in alloc; None; depth as usize]?,
        })
    }

    /// Whether these sectors may be moved beside all that are.
    pub fn has_room_for(&self, flown: Flown) -> bool
        requires { flown.extent.first + flown.extent.count < 2 ^ 64 }
        ensures { IsTrue result → All (AllBeside flown) self.now }
    {
        all_beside(self.tags.as_slice(), &flown)
    }

    /// Has sectors moved for a tag.
    pub fn begin(&mut self, tag: u8, flown: Flown)
        requires { flown.extent.first + flown.extent.count < 2 ^ 64 }
        ensures { self.new ≡ slice_set self.old tag (Some flown) }
    {
        if let Some(place) = self.tags.get_mut(tag as usize) {
            *place = Some(flown);
        }
    }

    /// Nothing is moved for the tag any more.
    pub fn end(&mut self, tag: u8)
        ensures { self.new ≡ slice_set self.old tag None }
    {
        if let Some(place) = self.tags.get_mut(tag as usize) {
            *place = None;
        }
    }
}
