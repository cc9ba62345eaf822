//! The pieces of a stack that threads move.

ghost use Rattle.std.specs.Prelude.{◌≡◌, ◌<◌, ◌+◌, ◌^◌, All, IfOk, IfSome, IsFalse, IsNone, IsTrue, None, Some, slice_get, slice_set};
ghost use Rattle.movers.specs.Flight.{AllBeside};
ghost use Rattle.serving.specs.Beside.{none_aloft, with_back};

use movers::{Flight, Flown};
use std::alloc::{AllocError, Global};
use std::marker::Model;

/// For each tag what a thread reads or writes for it, and the place of what it was handed.
#[derive(Drop)]
pub(crate) struct Flying {
    flight: Flight,
    places: Vec<Option<usize>>,
}

impl Model for Flying {
    ghost use Rattle.serving.specs.Beside.{Aloft};

    ghost Value = { Aloft };

    ghost view = { λ f. record { flown = f.flight; places = f.places.items } };
}

impl Flying {
    /// Nothing on any of the tags.
    pub(crate) fn new(alloc: Global, depth: u8) -> Result<Flying, AllocError>
        ensures { IfOk result (λ f. f ≡ none_aloft depth) }
    {
        Ok(Flying {
            flight: Flight::new(alloc, depth)?,
            places: vec![in alloc; None; depth as usize]?,
        })
    }

    /// Whether a thread has the piece of a tag, or there is no such tag.
    pub(crate) fn is_out(&self, tag: u8) -> bool
        ensures { IsFalse result → slice_get self.now.places tag ≡ Some None }
    {
        match self.places.as_slice().get(tag as usize) {
            Some(place) => place.is_some(),
            None => true,
        }
    }

    /// The place of what a thread was handed for a tag.
    pub(crate) fn place_of(&self, tag: u8) -> Option<usize>
        ensures { IfSome result (λ at. slice_get self.now.places tag ≡ Some (Some at)) }
    {
        match self.places.as_slice().get(tag as usize) {
            Some(place) => *place,
            None => None,
        }
    }

    /// Whether no thread has a piece.
    pub(crate) fn is_idle(&self) -> bool
        ensures { IsTrue result → All IsNone self.now.places }
    {
        are_none(self.places.as_slice())
    }

    /// Whether these sectors may be moved beside all that are.
    pub(crate) fn has_room_for(&self, flown: Flown) -> bool
        requires { flown.extent.first + flown.extent.count < 2 ^ 64 }
        ensures { IsTrue result → All (AllBeside flown) self.now.flown }
    {
        self.flight.has_room_for(flown)
    }

    /// A thread was handed the piece of a tag, at this place of all that was.
    pub(crate) fn begin(&mut self, tag: u8, at: usize, flown: Flown)
        requires { flown.extent.first + flown.extent.count < 2 ^ 64 }
        ensures { self.new ≡ record { flown = slice_set self.old.flown tag (Some flown); places = slice_set self.old.places tag (Some at) } }
    {
        self.flight.begin(tag, flown);
        self.note(tag, Some(at));
    }

    /// The piece of a tag is back.
    pub(crate) fn end(&mut self, tag: u8)
        ensures { self.new ≡ with_back tag self.old }
    {
        self.flight.end(tag);
        self.note(tag, None);
    }

    fn note(&mut self, tag: u8, place: Option<usize>)
        ensures { self.new ≡ record self.old { places = slice_set self.old.places tag place } }
    {
        if let Some(noted) = self.places.get_mut(tag as usize) {
            *noted = place;
        }
    }
}

/// Whether none is noted.
fn is_none(place: &Option<usize>) -> bool
    ensures { IsTrue result → IsNone place.now }
{
    match place {
        Some(_) => false,
        None => true,
    }
}

/// Whether no place is noted.
fn are_none(places: &[Option<usize>]) -> bool
    ensures { IsTrue result → All IsNone places.now }
{
    for at in 0..places.len() {
        if !is_none(&places[at]) {
            return false;
        }
    }
    true
}
