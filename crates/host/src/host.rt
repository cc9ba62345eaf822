//! The host, and its keeper.

ghost use Rattle.std.specs.Prelude.{◌≡◌, ◌+◌, [], All, IfErr, IfOk, None, false, length, true};
ghost use mathlib.Core.Logic.{inl};
ghost use Rattle.cancel_marks.specs.Marks.{IsOther};
ghost use Rattle.book.specs.Book.{IsStepped, call_handle};
ghost use Rattle.traced.specs.Serving.{is_handle_event};
ghost use Rattle.remove_lock.specs.Gate.{fresh as fresh_pass};
ghost use Rattle.host.specs.Clients.{AreFresh, AreNumbered, ticket_limit};
ghost use Rattle.host.specs.Opening.{AreHandlesFor, IsClientPass, IsJournalFor};
ghost use Rattle.host.specs.Standing.{is_others};
ghost use Rattle.host.specs.declared.opened.HostFault.TheVariants.{NoMemory};
ghost use Rattle.host.specs.Replies.{IsReplyTo};
ghost use Rattle.pnp.specs.declared.State.TheVariants.{Started};
ghost use Rattle.compose.specs.declared.Event.TheVariants.{Act, Finish, Reset};

use crate::account::Account;
use crate::client::Client;
use crate::condvars::{Concerned, Condvars};
use crate::desk::SharedTags;
use crate::holds::Holds;
use crate::kept::{KeptBook, OfKeeper, Standing};
use crate::name::HostNaming;
use crate::opened::{ClientResources, HostFault, Opened};
use crate::shared::{Disk, HostGate, Table};
use book::{Beside, Book, Records};
use chronicle::{Claims, History, Whole};
use compose::{Event, Reply};
use disk::Medium;
use remove_lock::Pass;
use sector_journal::{Journal, OfArmings, OfEntries};
use std::alloc::{AllocError, Global};
use std::marker::Model;
use std::sync::ledger::Share as Part;
use std::sync::{Mutex, Wait};
use traced::{Context, Owned, TraceEntry, Traced};

/// A book and its journal, each under its lock, and what threads share beside them.
#[derive(Drop)]
pub struct Host<M: Medium, N: HostNaming>
where
    OfArmings<N>: chronicle::Naming,
    OfEntries<N>: chronicle::Naming,
{
    pub(crate) book: Mutex<KeptBook<N>>,
    // Where both locks are held, the book's was taken first.
    pub(crate) journal: Mutex<Journal<M, N>>,
    pub(crate) words: sector_journal::History<N>,
    pub(crate) condvars: Condvars,
    pub(crate) history: History<TraceEntry, N>,
    pub(crate) table: Table<N>,
    pub(crate) gate: HostGate<N>,
    pub(crate) disk: Disk<N>,
    pub(crate) tags: SharedTags,
    pub(crate) alloc: Global,
}

/// What a keeper knows of the device: its receipts, and where its calls have left it.
#[derive(Drop)]
pub(crate) struct Known<N: HostNaming> {
    pub told: Claims<TraceEntry, N>,
    pub standing: Standing<N>,
}

/// The right to remove the device and to close the host: the part of the ledger that no client has, and a pass of the
/// gate. Contracts see it as what it knows of the gate, its receipts, and where its calls have left the device.
#[derive(Drop)]
pub struct Keeper<N: HostNaming> {
    pub(crate) part: Part<N>,
    pub(crate) pass: Pass,
    pub(crate) known: Known<N>,
}

impl<N: HostNaming> Model for Keeper<N> {
    ghost use Rattle.std.specs.Prelude.{◌≡◌};
    ghost use Rattle.host.specs.Keepers.{KeeperView};

    ghost Value = { KeeperView };

    ghost view = { λ k. record { pass = k.pass.view; told = k.known.told; standing = k.known.standing } };

    ghost invariant = { λ k. (k.part.parts ≡ 1) × (k.part.amount ≡ 0) × (k.pass.gate ≡ N.gate) };
}

// Makes a client for each handle, with a part of the ledger, a seat and a pass. The passes that are left come along.
fn make_clients<N: HostNaming>(
    alloc: Global,
    history: &History<TraceEntry, N>,
    whole: &mut Whole<TraceEntry, N>,
    all: &mut Part<N>,
    for_clients: ClientResources,
) -> Result<(Vec<Client<N>>, Vec<Pass>), AllocError>
    requires handles { AreHandlesFor N.partitions N.handles for_clients.handles.items }
    requires seats { (length for_clients.seats.items ≡ length N.partitions) × All (IsOther N.marks) for_clients.seats.items }
    requires passes { (length for_clients.passes.items ≡ length N.partitions + 1) × All (IsClientPass N.gate) for_clients.passes.items }
    requires parts { (all.old.parts ≡ length N.partitions + 1) × (all.old.amount ≡ 0) }
    ensures whole { whole.new ≡ whole.old }
    ensures rest { IfOk result (λ _. (all.new.parts ≡ 1) × (all.new.amount ≡ 0)) }
    ensures passes { IfOk result (λ r. (length r.1.items ≡ 1) × All (IsClientPass N.gate) r.1.items) }
    ensures clients { IfOk result (λ r. AreNumbered (length N.partitions) r.0.items) }
    ensures fresh { IfOk result (λ r. AreFresh (length N.partitions) r.0.items) }
{
    let ClientResources {
        handles,
        mut seats,
        mut passes,
    } = for_clients;
    let mut clients = Vec::new(alloc);
    for c in 0..handles.len() {
        clients.reserve(1)?;
        let (Some(seat), Some(pass)) = (seats.pop(), passes.pop()) else {
            unreachable!()
        };
        let account = Account::new(
            alloc,
            c,
            handles[c],
            all.split_off(1, 0),
            whole.no_claims(history),
            whole.no_claims(history),
        );
        let holds = Holds::new(pass);
        clients.push_reserved(Client {
            account,
            holds,
            seat,
        });
    }
    Ok((clients, passes))
}

/// All parts of the ledger of calls and of that of a keeper's steps.
#[derive(Drop)]
struct Parts<N: HostNaming> {
    calls: Part<N>,
    steps: Part<OfKeeper<N>>,
}

// Makes a client for each handle, and the keeper with what is left.
fn hand_out<N: HostNaming>(
    alloc: Global,
    history: &History<TraceEntry, N>,
    whole: &mut Whole<TraceEntry, N>,
    parts: Parts<N>,
    for_clients: ClientResources,
) -> Result<(Vec<Client<N>>, Keeper<N>), AllocError>
    requires handles { AreHandlesFor N.partitions N.handles for_clients.handles.items }
    requires seats { (length for_clients.seats.items ≡ length N.partitions) × All (IsOther N.marks) for_clients.seats.items }
    requires passes { (length for_clients.passes.items ≡ length N.partitions + 1) × All (IsClientPass N.gate) for_clients.passes.items }
    requires parts { (parts.calls.parts ≡ length N.partitions + 1) × (parts.calls.amount ≡ 0) }
    requires steps { (parts.steps.parts ≡ 1) × (parts.steps.amount ≡ 0) }
    ensures whole { whole.new ≡ whole.old }
    ensures clients { IfOk result (λ r. AreNumbered (length N.partitions) r.0.items) }
    ensures fresh { IfOk result (λ r. AreFresh (length N.partitions) r.0.items) }
    ensures keeper { IfOk result (λ r. r.1 ≡ record { pass = fresh_pass ticket_limit; told = []; standing = Started }) }
{
    let Parts {
        calls: mut all,
        steps,
    } = parts;
    let (clients, passes) = make_clients(alloc, history, whole, &mut all, for_clients)?;
    let mut passes = passes;
    let Some(pass) = passes.pop() else {
        unreachable!()
    };
    let known = Known {
        told: whole.no_claims(history),
        standing: Standing::new(steps),
    };
    let keeper = Keeper {
        part: all,
        pass,
        known,
    };
    Ok((clients, keeper))
}

impl<M: Medium, N: HostNaming> Host<M, N> {
    /// A host of a stack and of the journal of its disk, of the stack's depth, in which nothing was entered or armed, with
    /// its keeper and its clients, client c over the partition that was given as number c. None of them has made a step:
    /// the gate is open to all.
    ///
    /// # Errors
    ///
    /// [`HostFault::NoMemory`].
    ///
    /// # Example
    ///
    /// ```
    /// match Host::<M, N>::new(alloc, opened, journal, words) {
    ///     Ok((host, keeper, clients)) => Ok((host, keeper, clients)),
    ///     Err(_) => Err(AllocError),
    /// }
    /// ```
    pub fn new(
        alloc: Global,
        opened: Opened,
        mut journal: Journal<M, N>,
        words: sector_journal::History<N>,
    ) -> Result<(Host<M, N>, Keeper<N>, Vec<Client<N>>), HostFault>
        requires named { opened ≡ record { rules = N.rules; opening = N.start; partitions = N.partitions; handles = N.handles; marks = N.marks; slots = N.slots; table = N.table; name = N.name; parts = N.parts; gate = N.gate; keeper = N.keeper } }
        requires disk { IsJournalFor N.rules journal }
        ensures clients { IfOk result (λ r. AreNumbered (length N.partitions) r.2.items) }
        ensures fresh { IfOk result (λ r. AreFresh (length N.partitions) r.2.items) }
        ensures keeper { IfOk result (λ r. r.1 ≡ record { pass = fresh_pass ticket_limit; told = []; standing = Started }) }
        ensures fault { IfErr result (λ fault. fault ≡ NoMemory) }
    {
        let Opened {
            stack,
            for_clients,
            partitions,
            sizes,
            slots,
            history,
            ledger,
            keeping,
            marks,
            owner,
            gate,
        } = opened;
        let disk = Disk::of(&journal);
        let (history, mut whole) = history.named::<N>();
        let (tally, calls) = ledger.open::<N>();
        let (count, steps) = keeping.open::<OfKeeper<N>>();
        let parts = Parts { calls, steps };
        let condvars = Condvars::new(alloc, partitions.len())?;
        let (clients, keeper) = hand_out(alloc, &history, &mut whole, parts, for_clients)?;
        let owned = Owned {
            whole,
            seat: owner,
            slots,
            tally,
        };
        let traced = Traced::new(alloc, stack, owned, partitions.len(), sizes)?;
        let book = Book::new(alloc, traced, &mut journal, &words)?;
        let kept = KeptBook::new(book, count);
        let table = Table::new(marks);
        let host_gate = HostGate::new(gate);
        let host = Host {
            book: Mutex::new(kept),
            journal: Mutex::new(journal),
            words,
            condvars,
            history,
            table,
            gate: host_gate,
            disk,
            tags: SharedTags::blank(),
            alloc,
        };
        Ok((host, keeper, clients))
    }

    /// Has the adapter carry out the command of the piece on a tag, or fail it; `Ignored` where no piece there could
    /// act.
    pub fn act<R: Wait>(&self, rt: &R, tag: u8) -> Reply
        ensures reply { IsReplyTo (Act tag) result }
    {
        self.step(rt, Event::Act { tag })
    }

    /// Has the adapter hand back the piece on a tag; `Ignored` where there is none.
    pub fn finish<R: Wait>(&self, rt: &R, tag: u8) -> Reply
        ensures reply { IsReplyTo (Finish tag) result }
    {
        self.step(rt, Event::Finish { tag })
    }

    /// Resets the adapter.
    pub fn reset<R: Wait>(&self, rt: &R) -> Reply
        ensures reply { IsReplyTo Reset result }
    {
        self.step(rt, Event::Reset)
    }

    // What stands beside the book.
    pub(crate) fn beside(&self) -> Beside<M, N> {
        let context = Context::new(self.alloc, &self.history, &self.table.marks);
        Beside {
            records: Records::new(context, &self.words),
            journal: &self.journal,
        }
    }

    // The part of a step that holds the book's lock.
    pub(crate) fn step_in<R: Wait>(&self, rt: &R, book: &mut KeptBook<N>, event: Event) -> Reply
        requires { (is_handle_event event ≡ false) × (call_handle event ≡ None) × (is_others event ≡ true) }
        ensures stepped { IsStepped N.slots None (inl tt) book.old event result book.new }
        ensures reply { IsReplyTo event result }
    {
        book.step(rt, &self.beside(), event)
    }

    // Carries out the step, and tells whom it concerns.
    fn step_and_note<R: Wait>(
        &self,
        rt: &R,
        book: &mut KeptBook<N>,
        event: Event,
    ) -> (Reply, Concerned)
        requires { (is_handle_event event ≡ false) × (call_handle event ≡ None) × (is_others event ≡ true) }
        ensures reply { IsReplyTo event result.0 }
    {
        let from = book.len();
        let reply = self.step_in(rt, book, event);
        (reply, Concerned::since(book, from))
    }

    // Carries out a step that is no client's, and wakes those whom it concerns.
    pub(crate) fn step<R: Wait>(&self, rt: &R, event: Event) -> Reply
        requires { (is_handle_event event ≡ false) × (call_handle event ≡ None) × (is_others event ≡ true) }
        ensures reply { IsReplyTo event result }
    {
        let (reply, concerned) = self.step_and_note(rt, &mut self.book.lock(rt), event);
        self.condvars.notify(rt, concerned);
        reply
    }
}
