//! Receipts of entries of the trace.

ghost use Rattle.std.specs.Prelude.{◌≡◌, ◌<◌, ◌≤◌, ◌+◌, ◌-◌, ◌∷◌, ◌++◌, [], Some, OnOk, length, slice_get};
ghost use Rattle.chronicle.specs.Claims.{AllStand};
ghost use Rattle.traced.specs.declared.TraceEntry.{TraceEntry as EntryView};
ghost use Rattle.host.specs.Receipts.{none_yet, places_of};

use crate::kept::KeptBook;
use crate::name::HostNaming;
use chronicle::{Claims, History};
use std::alloc::{AllocError, Global};
use std::marker::Model;
use traced::TraceEntry;

/// Receipts: places of the trace, with claims on the entries there, and room for more.
#[derive(Drop)]
pub(crate) struct Receipts<N: HostNaming> {
    places: Vec<usize>,
    room: usize,
    claims: Claims<TraceEntry, N>,
}

impl<N: HostNaming> Model for Receipts<N> {
    ghost use Rattle.std.specs.Prelude.{◌≡◌, ◌≤◌, ◌+◌, vec_len, vec_capacity};
    ghost use Rattle.host.specs.Receipts.{ReceiptsView, places_of};

    ghost Value = { ReceiptsView };

    ghost view = { λ r. record { list = r.claims; room = r.room } };

    ghost invariant = { λ r. (r.places.items ≡ places_of r.claims) × (vec_len r.places + r.room ≤ vec_capacity r.places) };
}

impl<N: HostNaming> Receipts<N> {
    /// No receipts yet.
    pub(crate) fn new(alloc: Global, claims: Claims<TraceEntry, N>) -> Receipts<N>
        requires { claims ≡ [] }
        ensures { result ≡ none_yet }
    {
        Receipts {
            places: Vec::new(alloc),
            room: 0,
            claims,
        }
    }

    /// Makes room for this many more.
    pub(crate) fn reserve(&mut self, room: usize) -> Result<(), AllocError>
        ensures list { self.new.list ≡ self.old.list }
        ensures no_less { self.old.room ≤ self.new.room }
        ensures room { OnOk result (room ≤ self.new.room) }
    {
        if room <= self.room {
            return Ok(());
        }
        self.places.reserve(room)?;
        self.room = room;
        Ok(())
    }

    /// The places, in the order in which they came.
    pub(crate) fn places(&self) -> &[usize]
        ensures { result.now ≡ places_of self.now.list }
    {
        self.places.as_slice()
    }

    /// The claims on their entries.
    pub(crate) fn into_claims(self) -> Claims<TraceEntry, N>
        ensures { result ≡ self.list }
    {
        self.claims
    }

    /// Keeps one more receipt.
    pub(crate) fn keep(
        &mut self,
        history: &History<TraceEntry, N>,
        place: usize,
        claim: Claims<TraceEntry, N>,
    )
        requires one { (e : EntryView) × (claim ≡ (place, e) ∷ []) }
        requires room { 0 < self.old.room }
        ensures { self.new ≡ record { list = self.old.list ++ claim; room = self.old.room - 1 } }
    {
        self.claims.join(history, claim);
        self.places.push_reserved(place);
        self.room -= 1;
    }

    /// Claims a place of the trace, keeps the receipt, and returns a copy of the claim.
    pub(crate) fn note(
        &mut self,
        history: &History<TraceEntry, N>,
        book: &mut KeptBook<N>,
        place: usize,
    ) -> Claims<TraceEntry, N>
        requires place { place < length book.old.traced.entries }
        requires room { 0 < self.old.room }
        ensures book { book.new ≡ book.old }
        ensures entry { (e : EntryView) × (slice_get book.old.traced.entries place ≡ Some e) × (result ≡ (place, e) ∷ []) }
        ensures noted { self.new ≡ record { list = self.old.list ++ result; room = self.old.room - 1 } }
    {
        let mut claim = book.claim(history, place);
        let again = claim.again(history);
        self.keep(history, place, again);
        claim
    }

    /// Shows the caller that all receipts stand in the trace.
    pub(crate) fn check(&mut self, history: &History<TraceEntry, N>, book: &mut KeptBook<N>)
        ensures same { (book.new ≡ book.old) × (self.new ≡ self.old) }
        ensures stand { AllStand book.old.traced.entries self.old.list }
    {
        book.check(history, &mut self.claims);
    }
}
