//! The trace, and the rows of all clients.

ghost use Rattle.std.specs.Prelude.{◌≡◌, ◌<◌, ◌≤◌, ◌+◌, ◌-◌, ◌∷◌, [], ℕ, Some, None, true, false, All, MatchBool, MatchOption, IfOk, IfSome, OnOk, length, slice_get, vec_len, vec_capacity};
ghost use Rattle.chronicle.specs.Claims.{AllStand};
ghost use Rattle.traced.specs.declared.TraceEntry.{TraceEntry};
ghost use Rattle.traced.specs.Entries.{AreRowed, IsAnswerAt, IsAnswerTo, IsNoAnswerTo, WasCalled, is_call, labels_of, owner_of, places, row_of};
ghost use Rattle.traced.specs.inside.Entries.{HasNoAnswer};
ghost use Rattle.traced.specs.Log.{owners_after, noted, ready_after};
ghost use Rattle.traced.specs.inside.Log.{IsLog, IsNext, MayNote};
ghost use Rattle.traced.specs.inside.Rows.{MayStand, rows_after};

use crate::TraceEntry;
use crate::name::TraceNaming;
use crate::row::{Row, empty_rows};
use chronicle::{Claims, History, Whole};
use machine::Label;
use std::alloc::{AllocError, Global};
use std::marker::Model;

/// The trace and the rows of all clients, with room for more.
#[derive(Drop)]
pub(crate) struct TraceLog<N: TraceNaming> {
    trace: Vec<TraceEntry>,
    // the clients of all requests, by number from 1
    owners: Vec<usize>,
    rows: Vec<Row>,
    // how many labels fit in the trace without more memory
    room: usize,
    // the client that has the places for a call
    ready: Option<usize>,
    whole: Whole<TraceEntry, N>,
}

impl<N: TraceNaming> Model for TraceLog<N> {
    ghost use Rattle.std.specs.Prelude.{◌≡◌, ◌+◌, ◌-◌, ◌≤◌, length, vec_len, vec_capacity};
    ghost use Rattle.traced.specs.Log.{AreKept, LogView};
    ghost use Rattle.traced.specs.inside.Log.{IsReady};

    ghost Value = { LogView };

    ghost view = { λ p. record { entries = p.trace.items; owners = p.owners.items; room = p.room; ready = p.ready } };

    ghost invariant = { λ p. record {
      whole : p.whole ≡ p.trace.items;
      kept : AreKept (length N.partitions) p.trace.items p.owners.items p.rows.items;
      places : vec_len p.trace + p.room ≤ vec_capacity p.trace;
      ready : IsReady p.rows.items (vec_capacity p.owners - vec_len p.owners) p.ready;
    } };
}

impl<N: TraceNaming> TraceLog<N> {
    /// An empty trace, with an empty row for each client.
    pub(crate) fn new(
        alloc: Global,
        whole: Whole<TraceEntry, N>,
        clients: usize,
    ) -> Result<TraceLog<N>, AllocError>
        requires clients { clients ≡ length N.partitions }
        requires none { whole ≡ [] }
        ensures { IfOk result (λ p. p ≡ record { entries = []; owners = []; room = 0; ready = None }) }
    {
        let rows = empty_rows(alloc, clients)?;
        Ok(TraceLog {
            trace: Vec::new(alloc),
            owners: Vec::new(alloc),
            rows,
            room: 0,
            ready: None,
            whole,
        })
    }

    /// Makes room for this many labels.
    pub(crate) fn reserve(&mut self, room: usize) -> Result<(), AllocError>
        ensures kept { self.new ≡ record self.old { room = self.new.room } }
        ensures no_less { self.old.room ≤ self.new.room }
        ensures room { OnOk result (room ≤ self.new.room) }
    {
        if room <= self.room {
            return Ok(());
        }
        self.trace.reserve(room)?;
        self.room = room;
        Ok(())
    }

    /// Makes the places of a call by this client and of its answer.
    pub(crate) fn make_ready(&mut self, client: usize) -> Result<(), AllocError>
        requires { client < length N.partitions }
        ensures kept { self.new ≡ record self.old { ready = self.new.ready } }
        ensures ready { OnOk result (self.new.ready ≡ Some client) }
    {
        self.ready = None;
        self.owners.reserve(1)?;
        self.rows[client].reserve()?;
        self.ready = Some(client);
        Ok(())
    }

    /// Returns how many more labels there is room for.
    pub(crate) fn room(&self) -> usize
        ensures { result ≡ self.now.room }
    {
        self.room
    }

    /// Returns how many calls there were.
    pub(crate) fn calls(&self) -> u64
        ensures { result ≡ length self.now.owners }
    {
        self.owners.len() as u64
    }

    /// Shows the caller that each label stands in its row.
    pub(crate) fn shows_rows(&self)
        ensures { AreRowed self.now.owners self.now.entries }
    {
        // The invariant is known where a field is used.
        let _trace = &self.trace;
    }

    /// The places of a client's calls and of their answers.
    pub(crate) fn row(&self, client: usize) -> &[usize]
        requires { client < length N.partitions }
        ensures { result.now ≡ places client 0 self.now.entries }
    {
        self.rows[client].places()
    }

    /// Returns where the answer to a request stands, if it has come.
    pub(crate) fn answer_place(&self, number: u64) -> Option<usize>
        ensures { MatchOption result (All (IsNoAnswerTo number) (labels_of self.now.entries)) (IsAnswerAt number self.now.entries) }
    {
        self.shows_rows();
        let client = self.client_of(number)?;
        last_answer(self.trace.as_slice(), self.row(client), number)
    }

    // The client of the request of a number, if it was called.
    fn client_of(&self, number: u64) -> Option<usize>
        ensures { MatchOption result (WasCalled self.now.owners number → ⊥) (λ c. (owner_of self.now.owners number ≡ Some c) × (c < length N.partitions)) }
    {
        let index = (number as usize).checked_sub(1)?;
        if index < self.owners.len() {
            Some(self.owners[index])
        } else {
            None
        }
    }

    /// Returns what stands at a place.
    pub(crate) fn entry(&self, place: usize) -> &TraceEntry
        requires { place < length self.now.entries }
        ensures { slice_get self.now.entries place ≡ Some result.now }
    {
        &self.trace[place]
    }

    /// Returns how many labels there are.
    pub(crate) fn len(&self) -> usize
        ensures { result ≡ length self.now.entries }
    {
        self.trace.len()
    }

    /// Adds a label: a call is by this client, an answer goes into the row of its call.
    pub(crate) fn note(&mut self, history: &History<TraceEntry, N>, label: Label, client: usize)
        requires may { MayNote (length N.partitions) client self.old label }
        requires room { 0 < self.old.room }
        ensures { self.new ≡ noted client self.old label }
    {
        let place = self.trace.len();
        let row = note_owner(&mut self.owners, &label, client);
        note_place(&mut self.rows, &label, row, place);
        self.ready = still_ready(self.ready, &label);
        let entry = TraceEntry { label, row };
        self.whole.add(history, &entry);
        self.trace.push_reserved(entry);
        self.room -= 1;
    }

    /// A claim on a place, by the entry there.
    pub(crate) fn claim(
        &mut self,
        history: &History<TraceEntry, N>,
        place: usize,
    ) -> Claims<TraceEntry, N>
        requires { place < length self.old.entries }
        ensures same { self.new ≡ self.old }
        ensures claim { (e : TraceEntry) × (slice_get self.old.entries place ≡ Some e) × (result ≡ (place, e) ∷ []) }
    {
        self.whole.claim(history, place, &self.trace[place])
    }

    /// Shows the caller that what was claimed stands in the trace.
    pub(crate) fn check(
        &mut self,
        history: &History<TraceEntry, N>,
        claims: &mut Claims<TraceEntry, N>,
    )
        ensures same { (self.new ≡ self.old) × (claims.new ≡ claims.old) }
        ensures stand { AllStand self.old.entries claims.old }
    {
        self.whole.check(history, claims)
    }

    /// The trace and its rows.
    pub(crate) fn into_rows(self) -> (Vec<TraceEntry>, Vec<Row>)
        ensures { IsLog (length N.partitions) self result.0.items result.1.items }
    {
        let TraceLog { trace, rows, .. } = self;
        (trace, rows)
    }
}

// Notes whose request a call is, and returns the row of the label.
fn note_owner(owners: &mut Vec<usize>, label: &Label, client: usize) -> Option<usize>
    requires next { IsNext owners.old.items label.now }
    requires place { is_call label.now ≡ true → vec_len owners.old < vec_capacity owners.old }
    ensures owners { owners.new.items ≡ owners_after client owners.old.items label.now }
    ensures row { result ≡ row_of owners.new.items label.now }
    ensures no_call { is_call label.now ≡ false → owners.new ≡ owners.old }
{
    match label {
        Label::Call { .. } => {
            owners.push_reserved(client);
            Some(client)
        }
        Label::Answer { number, .. } => Some(owners[*number as usize - 1]),
        _ => None,
    }
}

// The client that has the places for a call, once this label has come.
fn still_ready(ready: Option<usize>, label: &Label) -> Option<usize>
    ensures { result ≡ ready_after ready label.now }
{
    match label {
        Label::Call { .. } => None,
        _ => ready,
    }
}

// Adds a place to the row of a call or an answer.
fn note_place(rows: &mut Vec<Row>, label: &Label, row: Option<usize>, place: usize)
    requires { MayStand rows.old.items label.now row }
    ensures { rows.new.items ≡ rows_after rows.old.items label.now row place }
{
    let Some(row) = row else {
        return;
    };
    match label {
        Label::Call { .. } => rows[row].call(place),
        Label::Answer { .. } => rows[row].answer(place),
        _ => {}
    }
}

fn is_answer_to(label: &Label, number: u64) -> bool
    ensures { MatchBool result (IsAnswerTo number label.now) (IsNoAnswerTo number label.now) }
{
    match label {
        Label::Answer {
            number: answered,
            ..
        } => *answered == number,
        _ => false,
    }
}

// Where the answer to a request stands, among the places of a row.
fn last_answer(trace: &[TraceEntry], row: &[usize], number: u64) -> Option<usize>
    requires { (k place : ℕ) → slice_get row.now k ≡ Some place → place < length trace.now }
    ensures { MatchOption result (HasNoAnswer number trace.now row.now 0) (IsAnswerAt number trace.now) }
{
    let mut left = row.len();
    while left > 0 {
        left -= 1;
        let place = row[left];
        if is_answer_to(&trace[place].label, number) {
            return Some(place);
        }
    }
    None
}
