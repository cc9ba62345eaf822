//! The stack and its journal: what their user calls.

ghost use Rattle.std.specs.Prelude.{◌≡◌, ◌≤◌, ◌∷◌, [], List, ℕ, IsTrue, MatchOption};
ghost use Rattle.machine.specs.declared.Label.{Label as LabelOf};
ghost use Rattle.srb.specs.Replaying.{Replays};
ghost use Rattle.machine.specs.Settled.{Settled, IsFinished};
ghost use Rattle.machine_laws.specs.Reached.{IsReached};
ghost use Rattle.sector_journal.specs.Journal.{entries_in};
ghost use Rattle.io_manager.specs.Right.{FitsTogether, TakesAnswer, TakesLabel as TakesFirst};
ghost use Rattle.journaled.specs.Opening.{IsStarted, IsUnused};
ghost use Rattle.journaled.specs.Right.{HoldsRoom, IsServed};
ghost use Rattle.journaled.specs.Shown.{GivesBack, KeepsEntries, StandsIn, next_behind};
ghost use Rattle.journaled.specs.Told.{IsTold, RunsFaithfully, StaysTold, TellsOn};

use crate::acting::act;
use crate::reserving::carry;
use compose::{Answer, Event, Reply, Stack};
use disk::Medium;
use machine::Label;
use miniport::BookedAdapter;
use sector_journal::{Entered, History, Journal, Naming, OfArmings, OfEntries};
use std::alloc::Global;
use std::marker::Model;

/// A stack over an adapter that holds no sectors, and the journal that has them.
#[derive(Drop)]
pub struct Journaled<M: Medium, N: Naming>
where
    OfArmings<N>: chronicle::Naming,
    OfEntries<N>: chronicle::Naming,
{
    stack: Stack<BookedAdapter>,
    journal: Journal<M, N>,
    history: History<N>,
    /// Sectors of the longest piece.
    max_transfer: u32,
    /// The number of the next call.
    next_request: u64,
}

impl<M: Medium, N: Naming> Model for Journaled<M, N>
where
    OfArmings<N>: chronicle::Naming,
    OfEntries<N>: chronicle::Naming,
{
    ghost use Rattle.journaled.specs.Shown.{JournaledKept, JournaledView, over};

    ghost Value = { JournaledView };

    ghost view = { λ j. over j.stack j.journal };

    ghost invariant = { λ j. JournaledKept N.opening j.stack j.journal j.max_transfer j.next_request };
}

impl<M: Medium, N: Naming> Journaled<M, N> {
    /// A stack that was just started over an adapter without sectors that keeps the bytes of labels, and a journal of the sectors of its disk, in
    /// which nothing was entered or reserved yet. `max_transfer` is that of the stack's adapter, in sectors.
    pub fn new(
        stack: Stack<BookedAdapter>,
        journal: Journal<M, N>,
        history: History<N>,
        max_transfer: u32,
    ) -> Journaled<M, N>
        requires started { IsStarted stack }
        requires unused { IsUnused journal }
        requires stands { StandsIn stack journal }
        requires some { 1 ≤ max_transfer }
        requires longest { max_transfer ≡ stack.rules.max_transfer }
        requires bytes { IsTrue stack.rules.keeps_bytes }
        ensures stack { result.stack ≡ stack }
        ensures journal { result.journal ≡ journal }
        ensures told { (arrays : List (List (List ℕ))) × IsTold arrays [] result }
    {
        machine_laws::keeps_lengths();
        stack.shows_whole();
        journal.shows_rule();
        Journaled {
            stack,
            journal,
            history,
            max_transfer,
            next_request: 1,
        }
    }

    /// Carries one event out, as [`Stack::step`]. Where it would open a request the journal is first asked for room for
    /// its acts, under the request's own number. Where memory for that was refused the call is refused as
    /// `InsufficientResources`, with its bytes, no label and no number. A call that opens no request leaves no room
    /// reserved. A piece that the journal can't arm fails.
    pub fn step(&mut self, alloc: Global, event: Event) -> Reply
        requires taken { self.old.stack.labels ≡ [] }
        ensures right { IsServed self.old event result self.new }
        ensures room { HoldsRoom self.old event result self.new }
        ensures told { TellsOn self.old self.new }
    {
        match event {
            Event::Act { tag } => act(
                &mut self.stack,
                &mut self.journal,
                &self.history,
                alloc,
                tag,
            ),
            event => carry(
                &mut self.stack,
                &mut self.journal,
                alloc,
                self.next_request,
                self.max_transfer,
                event,
            ),
        }
    }

    /// What is shown between two steps is settled and fits together, a removal with nothing open has ended, and a run
    /// leads to it: available to the caller.
    pub fn shows_whole(&self)
        ensures settled { Settled self.now.stack.rules self.now.stack.state }
        ensures finished { IsFinished self.now.stack.state }
        ensures whole { FitsTogether self.now.stack }
        ensures reached { IsReached self.now.stack.rules self.now.stack.state }
    {
        self.stack.shows_whole();
    }

    /// The labels so far are a run of the machine whose acts read and write its arrays, from the sectors that the
    /// journal was opened with to those that it has now: available to the caller.
    pub fn shows_run(&self)
        ensures { RunsFaithfully N.opening self.now }
    {
        machine_laws::journals_close_runs();
        self.journal.shows_rule();
    }

    /// Takes the earliest label of the last step that was not taken yet. With the label of an answer the room of its
    /// request is given back.
    pub fn take_label(&mut self) -> Option<Label>
        ensures taken { TakesFirst self.old.stack result self.new.stack }
        ensures told { StaysTold self.old self.new }
        ensures entries { self.new.journal.entered ≡ self.old.journal.entered }
        ensures room { MatchOption result (self.new.journal ≡ self.old.journal) (λ label. GivesBack label self.old.journal.reservations self.new.journal.reservations) }
    {
        let label = self.stack.take_label()?;
        note(&mut self.journal, &mut self.next_request, &label);
        Some(label)
    }

    /// Takes the waiting answer with the lowest number, as [`Stack::take_answer`].
    pub fn take_answer(&mut self) -> Option<Answer>
        ensures taken { TakesAnswer self.old.stack result self.new.stack }
        ensures told { StaysTold self.old self.new }
        ensures entries { self.new.journal.entered ≡ self.old.journal.entered }
    {
        self.stack.take_answer()
    }

    /// Returns what the acts did to the sectors, in their order, each with its arming.
    pub fn entries(&self) -> &[Entered]
        ensures { result.now ≡ self.now.journal.entered }
    {
        self.journal.entries()
    }

    /// The stack, the sectors and what acts did to them.
    pub fn into_parts(self) -> (Stack<BookedAdapter>, M, Vec<Entered>)
        ensures stack { result.0 ≡ self.stack }
        ensures sectors { M.view result.1 ≡ self.journal.medium }
        ensures entries { result.2.items ≡ self.journal.entered }
        ensures replays { Replays (M.view result.1).sector_size N.opening (entries_in result.2.items)
            (M.view result.1).sectors }
    {
        let Journaled {
            stack,
            journal,
            history: _,
            max_transfer: _,
            next_request: _,
        } = self;
        let (medium, entries) = journal.into_parts();
        (stack, medium, entries)
    }
}

/// A call took its number, and an answered request needs no room any more.
fn note<M: Medium, N: Naming>(journal: &mut Journal<M, N>, next_request: &mut u64, label: &Label)
    ensures keeps { KeepsEntries journal.old journal.new }
    ensures room { GivesBack label.now journal.old.reservations journal.new.reservations }
    ensures next { (labels : List LabelOf) → next_behind next_request.new labels ≡ next_behind next_request.old (label.now ∷ labels) }
{
    match label {
        Label::Call { number, .. } => *next_request = number.saturating_add(1),
        Label::Answer { number, .. } => journal.release(*number),
        _ => (),
    }
}
