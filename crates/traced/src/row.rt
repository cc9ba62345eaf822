//! The row of a client.

ghost use Rattle.std.specs.Prelude.{◌≡◌, ◌<◌, ◌≤◌, ◌+◌, OnOk, OnErr, IfOk, replicate};
ghost use Rattle.traced.specs.Rows.{blank};
ghost use Rattle.traced.specs.inside.Rows.{called, answered};

use std::alloc::{AllocError, Global};
use std::marker::Model;

/// The places of a client's calls and of their answers in the trace, in rising order, with room for more.
#[derive(Drop)]
pub struct Row {
    places: Vec<usize>,
    // how many answers are still to come
    awaited: usize,
    room: usize,
}

impl Model for Row {
    ghost use Rattle.std.specs.Prelude.{◌≤◌, ◌+◌, vec_len, vec_capacity};
    ghost use Rattle.traced.specs.Rows.{RowView};

    ghost Value = { RowView };

    ghost view = { λ r. record { places = r.places.items; awaited = r.awaited; room = r.room } };

    ghost invariant = { λ r. (vec_len r.places + r.room ≤ vec_capacity r.places) × (r.awaited ≤ r.room) };
}

impl Row {
    pub(crate) fn new(alloc: Global) -> Row
        ensures { result ≡ blank }
    {
        Row {
            places: Vec::new(alloc),
            awaited: 0,
            room: 0,
        }
    }

    /// Makes the places for a call and its answer.
    pub(crate) fn reserve(&mut self) -> Result<(), AllocError>
        ensures places { self.new.places ≡ self.old.places }
        ensures awaited { self.new.awaited ≡ self.old.awaited }
        ensures kept { self.old.room ≤ self.new.room }
        ensures room { OnOk result (self.new.awaited + 2 ≤ self.new.room) }
    {
        let Some(most) = self.awaited.checked_add(2) else {
            return Err(AllocError);
        };
        if most <= self.room {
            return Ok(());
        }
        self.places.reserve(most)?;
        self.room = most;
        Ok(())
    }

    /// Adds a call.
    pub(crate) fn call(&mut self, place: usize)
        requires { self.old.awaited + 2 ≤ self.old.room }
        ensures { self.new ≡ called self.old place }
    {
        self.places.push_reserved(place);
        self.room -= 1;
        self.awaited += 1;
    }

    /// Adds an answer.
    pub(crate) fn answer(&mut self, place: usize)
        requires { (0 < self.old.awaited) × (self.old.awaited ≤ self.old.room) }
        ensures { self.new ≡ answered self.old place }
    {
        self.places.push_reserved(place);
        self.room -= 1;
        self.awaited -= 1;
    }

    pub(crate) fn places(&self) -> &[usize]
        ensures { result.now ≡ self.now.places }
    {
        self.places.as_slice()
    }

    /// The places of the row.
    pub fn into_places(self) -> Vec<usize>
        ensures { result.items ≡ self.places }
    {
        let Row { places, .. } = self;
        places
    }
}

/// Makes this many empty rows.
pub(crate) fn empty_rows(alloc: Global, count: usize) -> Result<Vec<Row>, AllocError>
    ensures { IfOk result (λ v. v.items ≡ replicate count blank) }
{
    let mut rows = Vec::new(alloc);
    for _ in 0..count {
        rows.push(Row::new(alloc))?;
    }
    Ok(rows)
}
