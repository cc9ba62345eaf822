//! What is left of a host that is closed.

ghost use Rattle.std.specs.Prelude.{◌≡◌, ◌+◌, length};
ghost use Rattle.chronicle.specs.Claims.{AllStand};
ghost use Rattle.host.specs.Clients.{AreNumbered, client_at};
ghost use Rattle.machine_laws.specs.EndLaws.{RemovedAreEmpty};
ghost use Rattle.machine_laws.specs.Reached.{RunsSplit};
ghost use Rattle.srb.specs.Replaying.{Replays};
ghost use Rattle.sector_journal.specs.Journal.{entries_in};
ghost use Rattle.traced.specs.Entries.{labels_of};
ghost use Rattle.host.specs.Closing.{AreFirst, AreBorneOut, HasReceiptsIn, IsClosed, IsFaithfulRun, SettledAtRemoved, total};

use crate::account::Account;
use crate::client::Client;
use crate::host::{Host, Keeper, Known};
use crate::name::HostNaming;
use book::{Book, Records};
use chronicle::{Claims, History};
use disk::Medium;
use sector_journal::{Entered, OfEntries};
use std::sync::ledger::Share as Part;
use traced::{Context, Row, TraceEntry};

/// What is left of a host: the trace, for each client the places of its calls and of their answers, what acts did to
/// the sectors, in their order, the receipts of the entries of the trace's acts, numbered from 0, and the medium.
#[derive(Drop)]
pub struct Closed<M: Medium, N: HostNaming> {
    pub trace: Vec<TraceEntry>,
    pub rows: Vec<Row>,
    pub entries: Vec<Entered>,
    pub receipts: Claims<Entered, OfEntries<N>>,
    pub medium: M,
}

// Checks all receipts against the book, and takes the parts of the ledger back.
fn collect<N: HostNaming>(
    history: &History<TraceEntry, N>,
    book: &mut Book<N>,
    all: &mut Part<N>,
    clients: Vec<Client<N>>,
)
    ensures same { book.new ≡ book.old }
    ensures parts { all.new.parts ≡ all.old.parts + length clients.items }
    ensures amount { all.new.amount ≡ all.old.amount + total (length clients.items) (λ c. length (client_at clients.items c).called) }
    ensures borne { AreBorneOut book.old.traced.entries (length clients.items) clients.items }
{
    for client in clients {
        let Client { account, .. } = client;
        collect_one(history, book, all, account);
    }
}

// Collects the claims of one client.
fn collect_one<N: HostNaming>(
    history: &History<TraceEntry, N>,
    book: &mut Book<N>,
    all: &mut Part<N>,
    account: Account<N>,
)
    ensures same { book.new ≡ book.old }
    ensures parts { all.new.parts ≡ all.old.parts + 1 }
    ensures amount { all.new.amount ≡ all.old.amount + length account.called.list }
    ensures borne { HasReceiptsIn book.old.traced.entries account.share.client account.called.list account.answered.list }
{
    let Account {
        share,
        called,
        answered,
    } = account;
    let mut called = called.into_claims();
    let mut answered = answered.into_claims();
    book.check(history, &mut called);
    book.check(history, &mut answered);
    all.merge(share.into_part());
}

// Shows the caller the laws on the end of a removal.
fn laws_of_removals()
    ensures empty { RemovedAreEmpty }
    ensures splits { RunsSplit }
{
    machine_laws::removed_is_last();
    machine_laws::goes_on();
}

impl<M: Medium, N: HostNaming> Host<M, N> {
    /// The trace, which is a run from the state that the host was opened with, and the rows, in which all receipts of
    /// the clients stand; the calls of each row are just its client's. From the end of a removal on, of which the
    /// keeper may have a receipt, nothing is open or out. It asks for all clients, in their order.
    ///
    /// Beside them what acts did: the acts of the trace, in order, are the first entries, and all entries, replayed
    /// from the sectors that the journal was opened with, give the sectors of the medium. So the trace is a run whose
    /// acts read and write sectors, from those that the journal was opened with on, to those of the medium where the trace
    /// has as many acts as there are entries.
    pub fn close(self, keeper: Keeper<N>, clients: Vec<Client<N>>) -> Closed<M, N>
        requires all { AreNumbered (length N.partitions) clients.items }
        ensures told { AllStand result.trace.items keeper.told }
        ensures closed { IsClosed N.rules N.start clients.items result.trace.items result.rows.items }
        ensures settled_at_removed { SettledAtRemoved N.rules N.start result.trace.items }
        ensures acts { AreFirst (labels_of result.trace.items) result.entries.items result.receipts }
        ensures replays { Replays (M.view result.medium).sector_size N.opening (entries_in result.entries.items) (M.view result.medium).sectors }
        ensures run { IsFaithfulRun N.rules N.opening (labels_of result.trace.items) result.entries.items (M.view result.medium).sectors }
    {
        laws_of_removals();
        machine_laws::journals_close_runs();
        let Host {
            book,
            journal,
            words,
            history,
            table,
            disk,
            alloc,
            ..
        } = self;
        table.shows_opening();
        disk.shows_disk();
        let mut book = book.into_inner().into_book();
        let mut journal = journal.into_inner();
        let context = Context::new(alloc, &history, &table.marks);
        let records = Records::new(context, &words);
        book.book_rest(&records, &mut journal);
        let Keeper {
            part: mut all,
            known,
            ..
        } = keeper;
        let Known { mut told, .. } = known;
        book.check(&history, &mut told);
        collect(&history, &mut book, &mut all, clients);
        book.audit(&mut all);
        let (trace, rows, receipts) = book.into_rows();
        let (medium, entries) = journal.into_parts();
        Closed {
            trace,
            rows,
            entries,
            receipts,
            medium,
        }
    }
}
