//! Pieces at the adapter.

ghost use Rattle.std.specs.Prelude.{◌≡◌, IfOk, map};
ghost use Rattle.std.specs.Bool.{OnTrue};
ghost use Rattle.machine.specs.State.{Done};
ghost use Rattle.srb.specs.Fate.{Acted, Faulted, is_fresh, class_of};
ghost use Rattle.machine.specs.Sending.{with_fate};
ghost use Rattle.judge.specs.Deciding.{is_piece, has_tag, is_bad};
ghost use Rattle.judge.specs.Next.{marks_left, marks_of_fate};
ghost use Rattle.judge.specs.PieceRuling.{has_acted};
ghost use Rattle.judge.specs.Views.{fresh_piece, fate_of};

use crate::copies::{Copied, all_copied};
use crate::open::alike;
use crate::places::Place;
use crate::sameness::{Compared, all_same};
use sector::{Bytes, Extent};
use srb::{Class, Completion};
use std::alloc::{AllocError, Global};
use std::marker::Model;

/// What a piece has done.
#[derive(Debug, Drop)]
enum Deed {
    /// It has done nothing yet.
    Fresh,
    /// It acted on these sectors.
    Acted(Vec<Bytes>),
    /// It faulted, and will never act.
    Faulted,
}

/// A piece at the adapter.
#[derive(Debug, Drop)]
pub struct Started {
    number: u128,
    tag: u8,
    owner: u64,
    places: Extent,
    deed: Deed,
}

impl Model for Started {
    ghost use Rattle.machine.specs.State.{Piece};

    ghost Value = { Piece };

    ghost use Rattle.judge.specs.Views.{fate_of};

    ghost view = { λ p. record {
      number = p.number;
      tag = p.tag;
      owner = p.owner;
      places = p.places;
      fate = fate_of p.deed;
    } };
}

/// The marks of places that were done.
fn done_marks(alloc: Global, sectors: Vec<Bytes>) -> Result<Vec<Place>, AllocError>
    ensures { IfOk result (λ places. places.items ≡ map Done sectors.items) }
{
    let mut places = Vec::new(alloc);
    for sector in sectors {
        places.push(Place::done(sector))?;
    }
    Ok(places)
}

/// The marks that a piece leaves by a good return, where it acted.
fn marks_of(alloc: Global, deed: Deed) -> Result<Vec<Place>, AllocError>
    ensures { IfOk result (λ marks. marks.items ≡ marks_of_fate (fate_of deed)) }
{
    match deed {
        Deed::Acted(sectors) => done_marks(alloc, sectors),
        Deed::Fresh | Deed::Faulted => Ok(Vec::new(alloc)),
    }
}

/// Whether the completion is a bad one.
pub(crate) fn is_bad(completion: &Completion) -> bool
    ensures { result ≡ is_bad (class_of completion.now) }
{
    match completion.class() {
        Class::Bad(_) => true,
        Class::Good | Class::Busy => false,
    }
}

impl Started {
    /// A piece that has done nothing yet.
    pub(crate) fn new(number: u128, tag: u8, owner: u64, places: Extent) -> Started
        ensures { result ≡ fresh_piece number tag owner places }
    {
        Started {
            number,
            tag,
            owner,
            places,
            deed: Deed::Fresh,
        }
    }

    /// Its number.
    pub fn number(&self) -> u128
        ensures { result ≡ self.now.number }
    {
        self.number
    }

    pub(crate) fn has_number(&self, number: u128) -> bool
        ensures { result ≡ is_piece number self.now }
    {
        self.number == number
    }

    /// The tag that it is on.
    pub fn tag(&self) -> u8
        ensures { result ≡ self.now.tag }
    {
        self.tag
    }

    pub(crate) fn has_tag(&self, tag: u8) -> bool
        ensures { result ≡ has_tag tag self.now }
    {
        self.tag == tag
    }

    /// The number of its request.
    pub fn owner(&self) -> u64
        ensures { result ≡ self.now.owner }
    {
        self.owner
    }

    /// The sectors of its request that it is of, counted from 0; of a flush the one place.
    pub fn places(&self) -> Extent
        ensures { result ≡ self.now.places }
    {
        self.places
    }

    /// Whether it has done nothing yet.
    pub fn is_fresh(&self) -> bool
        ensures { result ≡ is_fresh self.now.fate }
    {
        match self.deed {
            Deed::Fresh => true,
            Deed::Acted(_) | Deed::Faulted => false,
        }
    }

    /// Whether it has acted.
    pub(crate) fn has_acted(&self) -> bool
        ensures { result ≡ has_acted self.now.fate }
    {
        match self.deed {
            Deed::Acted(_) => true,
            Deed::Fresh | Deed::Faulted => false,
        }
    }

    /// The piece after its act on these sectors.
    pub(crate) fn acted(mut self, sectors: Vec<Bytes>) -> Started
        ensures { result ≡ with_fate (Acted sectors.items) self }
    {
        self.deed = Deed::Acted(sectors);
        self
    }

    /// The piece after its fault.
    pub(crate) fn faulted(mut self) -> Started
        ensures { result ≡ with_fate Faulted self }
    {
        self.deed = Deed::Faulted;
        self
    }

    /// The marks that it leaves by such a return.
    pub(crate) fn marks(self, alloc: Global, class: &Class) -> Result<Vec<Place>, AllocError>
        ensures { IfOk result (λ marks. marks.items ≡ marks_left self class.now) }
    {
        let count = self.places.count;
        match class {
            Class::Good => marks_of(alloc, self.deed),
            Class::Busy => alike(alloc, count, &Place::back()),
            Class::Bad(completion) => alike(alloc, count, &Place::failed(completion.status())),
        }
    }
}

impl Copied for Started {
    fn copied(&self, alloc: Global) -> Result<Started, AllocError> {
        let deed = match &self.deed {
            Deed::Fresh => Deed::Fresh,
            Deed::Acted(sectors) => Deed::Acted(all_copied(alloc, sectors.as_slice())?),
            Deed::Faulted => Deed::Faulted,
        };
        Ok(Started {
            number: self.number,
            tag: self.tag,
            owner: self.owner,
            places: self.places,
            deed,
        })
    }
}

/// Whether two deeds are the same.
fn are_same_deeds(a: &Deed, b: &Deed) -> bool
    ensures { OnTrue result (fate_of a.now ≡ fate_of b.now) }
{
    match (a, b) {
        (Deed::Fresh, Deed::Fresh) => true,
        (Deed::Acted(a), Deed::Acted(b)) => all_same(a.as_slice(), b.as_slice()),
        (Deed::Faulted, Deed::Faulted) => true,
        _ => false,
    }
}

impl Compared for Started {
    fn is_same(&self, other: &Started) -> bool {
        if self.number != other.number || self.tag != other.tag || self.owner != other.owner {
            return false;
        }
        if self.places.first != other.places.first || self.places.count != other.places.count {
            return false;
        }
        are_same_deeds(&self.deed, &other.deed)
    }
}
