//! The journal: what acts did to the sectors, in their order.

ghost use Rattle.std.specs.Prelude.{◌≡◌, ℕ, ◌<◌, ◌≤◌, ◌+◌, ◌-◌, ◌^◌, ◌∷◌, [], None, Some, Ok, length, vec_len, vec_capacity, true, IfOk, OnOk, OnErr, IfSome, MatchOption, MatchBool, All, slice_get};
ghost use Rattle.std.specs.Bool.{Decides};
ghost use Rattle.std.specs.List.{list_any, position};
ghost use Rattle.std.specs.Option.{option_copied};
ghost use Rattle.chronicle.specs.Claims.{AllStand};
ghost use Rattle.sector_journal.specs.declared.acted.Entered.{Entered};
ghost use Rattle.srb.specs.declared.Kind.{Kind};
ghost use Rattle.sector.specs.Extents.{IsSector};
ghost use Rattle.disk.specs.Medium.{IsReserved, IsWithin, Reserves};
ghost use Rattle.srb.specs.Replaying.{Replays};
ghost use Rattle.sector_journal.specs.declared.reservation.Reservation.{Reservation};
ghost use Rattle.sector_journal.specs.declared.slots.Armed.{Armed};
ghost use Rattle.sector_journal.specs.Arming.{IsCopy};
ghost use Rattle.sector_journal.specs.Journal.{Acts, Admits, AreOfArmings, Arms, Disarms, GainsRoom, HoldsNear, IsNew, MayArm, Releases, entries_in, entries_of};
ghost use Rattle.sector_journal.specs.Reserving.{covers, is_of, of_length};
ghost use Rattle.sector_journal.specs.Slots.{HasNone, armed_at};
ghost use Rattle.sector_journal.specs.Pooling.{pieces_at, promised_at};
ghost use Rattle.sector_journal.specs.inside.Pooling.{IsOfLength};

use crate::acted::Entered;
use crate::buffer_pool::BufferPool;
use crate::entering::{enter, named_in};
use crate::name::{Naming, OfArmings, OfEntries};
use crate::opened::{History, Opened};
use crate::reservation::{Buffers, Reservation, is_write};
use crate::slots::{Armed, Slots};
use chronicle::{Claims, Whole};
use disk::Medium;
use sector::{Bytes, Extent, LabelRoom};
use srb::{Completion, Kind, Srb};
use std::alloc::{AllocError, Global};
use std::marker::Model;

/// The sectors, what acts did to them, and for each tag the piece that may act.
#[derive(Drop)]
pub struct Journal<M: Medium, N: Naming> {
    alloc: Global,
    medium: M,
    write_protected: bool,
    entries: Vec<Entered>,
    /// How many pieces the open requests have, those that acted among them.
    promised: usize,
    slots: Slots,
    /// How many armings there were so far.
    armings: u64,
    reservations: Vec<Reservation>,
    pool: BufferPool,
    armed: Whole<Armed, OfArmings<N>>,
    entered: Whole<Entered, OfEntries<N>>,
}

impl<M: Medium, N: Naming> Model for Journal<M, N> {
    ghost use Rattle.std.specs.Prelude.{◌≡◌, ℕ, length, vec_capacity};
    ghost use Rattle.std.specs.List.{sum_by};
    ghost use Rattle.sector_journal.specs.Reserving.{pieces_of, pieces_with};
    ghost use Rattle.sector_journal.specs.Pooling.{promised_at};
    ghost use Rattle.sector_journal.specs.Journal.{JournalView};
    ghost use Rattle.sector_journal.specs.inside.Journal.{JournalKept};

    ghost Value = { JournalView };

    ghost view = { λ j. record {
      medium = M.view j.medium;
      write_protected = j.write_protected;
      entered = j.entries.items;
      places = vec_capacity j.entries;
      slots = j.slots;
      armings = j.armed;
      reservations = j.reservations.items;
      room = j.pool;
    } };

    ghost invariant = { λ j. record {
      kept : JournalKept N.opening (M.view j.medium) j.entries.items (vec_capacity j.entries) j.slots j.armed j.reservations.items;
      numbers : j.armings ≡ length j.armed;
      promised : j.promised ≡ sum_by pieces_of j.reservations.items;
      entered : j.entered ≡ j.entries.items;
      booked : (long : ℕ) → promised_at j.pool long ≡ sum_by (pieces_with (M.view j.medium).sector_size long) j.reservations.items;
    } };
}

/// The bytes that a piece sends, in its own buffer; a read's place is left as it is.
fn own_data(srb: &Srb, kind: Kind, place: Bytes) -> Bytes
    requires { length place ≡ length srb.now.data }
    ensures { (length result ≡ length srb.now.data) × (kind ≡ Kind.Write → result ≡ srb.now.data) }
{
    match kind {
        Kind::Write => place.overwritten(srb.data.as_slice()),
        Kind::Read => place,
        Kind::Flush => place,
    }
}

/// The journal's own SRB of a piece, with this buffer. Its act has no label, and needs no room for one.
fn own_srb(alloc: Global, srb: &Srb, kind: Kind, place: Bytes) -> Srb
    requires { IsOfLength place (length srb.now.data) }
    ensures { IsCopy kind srb.now result }
{
    Srb {
        function: srb.function,
        flags: srb.flags,
        block: srb.block.copied(),
        data: own_data(srb, kind, place),
        for_label: LabelRoom::none(alloc),
        sense: None,
    }
}

/// How many pieces both are for.
fn pieces_in(both: &(Buffers, Buffers)) -> usize
    requires { both.now.0.pieces + both.now.1.pieces < 2 ^ 64 }
    ensures { result ≡ both.now.0.pieces + both.now.1.pieces }
{
    both.0.pieces + both.1.pieces
}

/// Reserves in the medium what a write may move.
fn hold<M: Medium>(medium: &mut M, kind: Kind, extent: Extent) -> Result<(), AllocError>
    requires { IsWithin (M.view medium.old) extent }
    ensures held { OnOk result (kind ≡ Kind.Write → IsReserved (M.view medium.new) extent) }
    ensures reserves { Reserves (M.view medium.old) (M.view medium.new) }
    ensures near { HoldsNear (M.view medium.old) kind extent (M.view medium.new) }
{
    if !is_write(kind) {
        return Ok(());
    }
    medium.reserve(extent).map_err(|_| AllocError)
}

/// Makes the buffers of these pieces, or of none.
fn promise(pool: &mut BufferPool, both: (Buffers, Buffers)) -> Result<(), AllocError>
    ensures made { OnOk result ((long : ℕ) → pieces_at pool.new long ≡ pieces_at pool.old long + (of_length both.0.pieces both.0.length long + of_length both.1.pieces both.1.length long)) }
    ensures refused { OnErr result ((long : ℕ) → pieces_at pool.new long ≡ pieces_at pool.old long) }
    ensures booked { OnOk result ((long : ℕ) → promised_at pool.new long ≡ promised_at pool.old long + (of_length both.0.pieces both.0.length long + of_length both.1.pieces both.1.length long)) }
    ensures unbooked { OnErr result ((long : ℕ) → promised_at pool.new long ≡ promised_at pool.old long) }
{
    let (full, last) = both;
    pool.promise(full)?;
    if pool.promise(last).is_err() {
        pool.forget(full);
        return Err(AllocError);
    }
    Ok(())
}

fn is_covered(reservations: &[Reservation], kind: Kind, extent: Extent) -> bool
    ensures { result ≡ list_any (covers kind extent) reservations.now }
{
    reservations
        .iter()
        .any(|reservation| reservation.covers(kind, extent))
}

fn find_request(reservations: &[Reservation], request: u64) -> Option<usize>
    ensures { result ≡ position (is_of request) reservations.now }
{
    reservations
        .iter()
        .position(|reservation| reservation.request == request)
}

impl<M: Medium, N: Naming> Journal<M, N> {
    /// A journal of these sectors, at least one, with no entry, no armed piece and no open request; and the words of
    /// its histories. The medium has counted no failure. `depth` is the number of tags.
    ///
    /// # Errors
    ///
    /// Where the memory for the tags was refused.
    pub fn new(
        alloc: Global,
        opened: Opened,
        medium: M,
        depth: u8,
        write_protected: bool,
    ) -> Result<(Journal<M, N>, History<N>), AllocError>
        requires named { opened ≡ record { armings = N.armings; entries = N.entries } }
        requires opening { (M.view medium).sectors ≡ N.opening }
        requires some { 1 ≤ length (M.view medium).sectors }
        requires unfailed { (M.view medium).failures ≡ 0 }
        ensures { IfOk result (λ r. IsNew (M.view medium) depth write_protected r.0) }
    {
        let Opened { armings, entries } = opened;
        let (armings, armed) = armings.named();
        let (entries, entered) = entries.named();
        let slots = Slots::new(alloc, depth)?;
        let journal = Journal {
            alloc,
            medium,
            write_protected,
            entries: Vec::new(alloc),
            promised: 0,
            slots,
            armings: 0,
            reservations: Vec::new(alloc),
            pool: BufferPool::new(alloc),
            armed,
            entered,
        };
        Ok((journal, History { armings, entries }))
    }

    /// The bytes of one sector.
    pub fn sector_size(&self) -> u32
        ensures { result ≡ self.now.medium.sector_size }
    {
        self.medium.sector_size()
    }

    /// The number of sectors.
    pub fn sectors(&self) -> u64
        ensures { result ≡ length self.now.medium.sectors }
    {
        self.medium.sectors()
    }

    /// The number of tags.
    pub fn depth(&self) -> u8
        ensures { result ≡ length self.now.slots }
    {
        self.slots.depth()
    }

    /// The piece that may act on a tag.
    pub fn armed(&self, tag: u8) -> Option<&Armed>
        ensures { option_copied result ≡ armed_at self.now.slots tag }
    {
        self.slots.get(tag)
    }

    /// What acts did, in their order; the number of an entry is its place here.
    pub fn entries(&self) -> &[Entered]
        ensures { result.now ≡ self.now.entered }
    {
        self.entries.as_slice()
    }

    /// How many reservations there are: one for each that was made and not released.
    pub fn reservations(&self) -> usize
        ensures { result ≡ length self.now.reservations }
    {
        self.reservations.len()
    }

    /// Shows the caller that the entries, replayed from the sectors that the journal was opened with, give its sectors.
    pub fn shows_rule(&self)
        ensures { Replays self.now.medium.sector_size N.opening (entries_of self.now) self.now.medium.sectors }
    {
        // The invariant is known where a field is used.
        let _slots = &self.slots;
    }

    /// Shows the caller that the journal was opened with sectors of the size of its medium's.
    pub fn shows_opening(&self)
        ensures { All (IsSector self.now.medium.sector_size) N.opening }
    {
        let _slots = &self.slots;
    }

    /// Shows the caller that each entry is of the piece that was armed under the number that it names, and of what its
    /// SRB asks for.
    pub fn shows_armings(&self)
        ensures { AreOfArmings self.now.medium self.now.armings self.now.entered }
    {
        let _slots = &self.slots;
    }

    /// Makes room for the acts of a request: for their entries beside those of all open requests, for the buffers of
    /// its pieces, and in the medium for a write. `extent` lies in the disk, that of a flush too, for which no
    /// sector is reserved. The pieces are cut by `max_transfer`, in sectors, at least 1. No other call takes memory.
    ///
    /// # Errors
    ///
    /// Where memory was refused; there may then be room for more entries and in the medium, and there are no more
    /// buffers.
    pub fn reserve(
        &mut self,
        request: u64,
        kind: Kind,
        extent: Extent,
        max_transfer: u32,
    ) -> Result<(), AllocError>
        requires within { extent.first + extent.count ≤ length self.old.medium.sectors }
        requires some { 1 ≤ max_transfer }
        ensures admits { OnOk result (Admits self.old (record { request = request; kind = kind; extent = extent; max_transfer = max_transfer }) self.new) }
        ensures refused { OnErr result (GainsRoom self.old self.new) }
        ensures near { HoldsNear self.old.medium kind extent self.new.medium }
    {
        let reservation = Reservation {
            request,
            kind,
            extent,
            max_transfer,
        };
        let both = reservation.buffers(self.medium.sector_size());
        self.reservations.reserve(1)?;
        let Some(wanted) = self.promised.checked_add(pieces_in(&both)) else {
            return Err(AllocError);
        };
        self.entries.reserve(wanted)?;
        hold(&mut self.medium, kind, extent)?;
        promise(&mut self.pool, both)?;
        self.promised = wanted;
        self.reservations.push_reserved(reservation);
        Ok(())
    }

    /// Notes that a request was answered. What was reserved for it and not used serves others, or is given back.
    pub fn release(&mut self, request: u64)
        ensures { Releases self.old request self.new }
    {
        let Some(at) = find_request(self.reservations.as_slice(), request) else {
            return;
        };
        let reservation = self.reservations.remove(at);
        let (full, last) = reservation.buffers(self.medium.sector_size());
        self.promised = self
            .promised
            .saturating_sub(full.pieces)
            .saturating_sub(last.pieces);
        self.pool.withdraw(full, self.slots.armed_with(full.length));
        self.pool.withdraw(last, self.slots.armed_with(last.length));
    }

    /// Lets a piece act on a tag, by a copy of its SRB in room that was reserved. True exactly where the tag is there
    /// and free, the block asks for a read, a write or a flush within an open request's, and there is a buffer for the
    /// length of its data, a place for its entry and a number for the arming. Else nothing changes.
    pub fn arm(&mut self, history: &History<N>, tag: u8, piece: u128, srb: &Srb) -> bool
        ensures decides { Decides result (MayArm self.old tag srb.now) }
        ensures arms { MatchBool result (Arms self.old tag piece srb.now self.new) (self.new ≡ self.old) }
    {
        let Some((kind, extent)) = named_in(srb.block.as_slice()) else {
            return false;
        };
        if !self.slots.is_free(tag)
            || self.armings == u64::MAX
            || self.entries.len() + self.slots.armed() >= self.entries.capacity()
            || !is_covered(self.reservations.as_slice(), kind, extent)
        {
            return false;
        }
        let Some(place) = self.pool.take(srb.data.len()) else {
            return false;
        };
        let armed = Armed {
            number: self.armings,
            tag,
            piece,
            srb: own_srb(self.alloc, srb, kind, place),
        };
        self.armed.add(&history.armings, &armed);
        self.armings += 1;
        self.slots.put(armed);
        true
    }

    /// Disarms a tag: no piece may act there until one is armed. Its buffer is there again where open requests may need
    /// it.
    pub fn disarm(&mut self, tag: u8)
        ensures { Disarms self.old tag self.new }
    {
        let Some(armed) = self.slots.clear(tag) else {
            return;
        };
        self.pool.put(armed.srb.data);
    }

    /// Lets the piece of a tag act. Returns the number of its entry, or how it failed. It may not act again. `None`,
    /// and nothing changes, where the tag isn't armed for this piece.
    pub fn act(
        &mut self,
        history: &History<N>,
        tag: u8,
        piece: u128,
    ) -> Option<Result<u64, Completion>>
        ensures { MatchOption result (HasNone self.old.slots tag piece × (self.new ≡ self.old)) (λ done. Acts self.old tag piece done self.new) }
    {
        let armed = self.slots.take(tag, piece)?;
        let arming = armed.number;
        match enter(
            &mut self.medium,
            self.write_protected,
            tag,
            piece,
            armed.srb,
        ) {
            Ok(entry) => {
                let number = self.entries.len() as u64;
                let entered = Entered { arming, entry };
                self.entered.add(&history.entries, &entered);
                self.entries.push_reserved(entered);
                Some(Ok(number))
            }
            Err(completion) => Some(Err(completion)),
        }
    }

    /// No receipts yet.
    pub fn no_receipts(&mut self, history: &History<N>) -> Claims<Entered, OfEntries<N>>
        ensures same { self.new ≡ self.old }
        ensures none { result ≡ [] }
    {
        self.entered.no_claims(&history.entries)
    }

    /// A receipt of an entry: its number and itself with its arming, for good.
    pub fn receipt(&mut self, history: &History<N>, number: u64) -> Claims<Entered, OfEntries<N>>
        requires { number < length self.old.entered }
        ensures same { self.new ≡ self.old }
        ensures receipt { (entered : Entered) × (slice_get self.old.entered number ≡ Some entered) × (result ≡ (number, entered) ∷ []) }
    {
        let at = number as usize;
        self.entered.claim(&history.entries, at, &self.entries[at])
    }

    /// Shows the caller that each entry that was receipted stands at its number.
    pub fn check(&mut self, history: &History<N>, receipts: &mut Claims<Entered, OfEntries<N>>)
        ensures same { (self.new ≡ self.old) × (receipts.new ≡ receipts.old) }
        ensures stand { AllStand self.old.entered receipts.old }
    {
        self.entered.check(&history.entries, receipts)
    }

    /// A receipt of the arming of the piece that may act on a tag: its number among all armings, and itself, for good.
    pub fn arming_receipt(
        &mut self,
        history: &History<N>,
        tag: u8,
    ) -> Option<Claims<Armed, OfArmings<N>>>
        ensures same { self.new ≡ self.old }
        ensures receipt { MatchOption result (armed_at self.old.slots tag ≡ None) (λ r. (armed : Armed) × (armed_at self.old.slots tag ≡ Some armed) × (r ≡ (armed.number, armed) ∷ [])) }
    {
        let armed = self.slots.get(tag)?;
        Some(
            self.armed
                .claim(&history.armings, armed.number as usize, armed),
        )
    }

    /// Shows the caller that each arming that was receipted stands at its number.
    pub fn check_armings(
        &mut self,
        history: &History<N>,
        receipts: &mut Claims<Armed, OfArmings<N>>,
    )
        ensures same { (self.new ≡ self.old) × (receipts.new ≡ receipts.old) }
        ensures stand { AllStand self.old.armings receipts.old }
    {
        self.armed.check(&history.armings, receipts)
    }

    /// The sectors as they are at the end, and what acts did to them.
    pub fn into_parts(self) -> (M, Vec<Entered>)
        ensures sectors { M.view result.0 ≡ self.medium }
        ensures entries { result.1.items ≡ self.entered }
        ensures rule { Replays (M.view result.0).sector_size N.opening (entries_in result.1.items) (M.view result.0).sectors }
        ensures opening { All (IsSector (M.view result.0).sector_size) N.opening }
    {
        let Journal {
            medium,
            entries,
            ..
        } = self;
        (medium, entries)
    }
}
