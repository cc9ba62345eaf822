//! A book of two clients beside its journal, and what its threads do, row by row.

ghost use Rattle.std.specs.Prelude.{◌≡◌, ◌≤◌, ◌∷◌, [], IfErr, IsFalse, None, Some, false, length};
ghost use Rattle.book.specs.Book.{call_handle};
ghost use Rattle.cancel_marks.specs.Marks.{standing, starting};
ghost use Rattle.machine.specs.State.{opening};
ghost use Rattle.srb.specs.declared.Class.TheVariants.{Bad};
ghost use Rattle.srb.specs.Fate.{class_of};
ghost use Rattle.traced.specs.Serving.{is_handle_event};
ghost use Rattle.traced.specs.Opening.{AreClientsOf, AreHandlesOf, IsFirst};
ghost use Rattle.traced.specs.Sizes.{AreSizes, sizes_of};
ghost use Rattle.traced.specs.Sound.{IsNamed};

use crate::expect::same;
use crate::opened::OpenStack;
use crate::orders::{client_of, order_of, tag_of};
use crate::replaying::{compare_acts, compare_rows, places_of, replay};
use crate::texts;
use crate::user::call_of;
use book::{Beside, Book, BookNaming, Records};
use cancel_marks::{Marks, Seat};
use chronicle::{History, Opened};
use compose::{Event, Handle, Id, Refusal, Reply};
use disk::Medium;
use host::Call;
use machine::Label;
use miniport::BookedAdapter;
use script::Order;
use sector_journal::{Journal, OfArmings, OfEntries};
use srb::Completion;
use std::alloc::{AllocError, Global};
use std::process::Abort;
use std::sync::ledger::Blank;
use std::sync::{Mutex, Wait};
use traced::{Context, Owned, Share, TraceEntry, Traced};

/// One row of a test.
#[derive(Clone, Copy)]
pub(crate) enum Row<'a> {
    /// A line of a script, and its reply. Client 0 has handle 1, and client 1 handle 2.
    Line(&'a str, &'a str),
    /// A lane has the piece of a tag act in the journal: it makes the entry of this number.
    Lane(u8, u64),
    /// A lane has the piece of a tag act, which fails, and hands the failure to the book, whose reply is this.
    LaneFails(u8, &'a str),
    /// No piece of the tag may act in the journal, this one neither.
    Rests(u8, u128),
    /// The journal has room for the acts of this many requests.
    Room(usize),
}

/// A book beside its journal, whatever their types: what plays a test is proved over this alone.
trait Clerk {
    type Share;

    /// A read, a write or a flush on a client's handle.
    fn call(&mut self, share: &mut Self::Share, call: Call) -> Reply;

    /// Any other event.
    fn other(&mut self, event: Event) -> Reply
        requires no_handle { is_handle_event event ≡ false }
        requires no_call { call_handle event ≡ None };

    /// A client's handle.
    fn handle(share: &Self::Share) -> Handle;

    /// The piece of a tag acts in the journal, under its lock alone.
    fn act(&mut self, tag: u8) -> Result<u64, Completion>
        ensures bad { IfErr result (λ completion. class_of completion ≡ Bad completion) };

    /// The act of a tag whose piece failed in the journal.
    fn act_failed(&mut self, tag: u8, completion: Completion) -> Reply
        requires bad { class_of completion ≡ Bad completion };

    /// Checks that no piece of the tag may act in the journal, this one neither.
    fn rests(&mut self, tag: u8, piece: u128);

    /// Of how many requests the journal has room for the acts.
    fn reservations(&self) -> usize;

    /// How many labels the trace has.
    fn len(&self) -> usize;
}

/// A book, and what stands beside it.
#[derive(Drop)]
struct Desk<'r, 'a, M: Medium, N: BookNaming, R>
where
    OfArmings<N>: chronicle::Naming,
    OfEntries<N>: chronicle::Naming,
{
    rt: &'r R,
    book: Book<N>,
    beside: Beside<'a, M, N>,
    /// The history of the journal.
    words: &'a sector_journal::History<N>,
}

impl<'r, 'a, M: Medium, N: BookNaming, R: Wait + Abort> Clerk for Desk<'r, 'a, M, N, R> {
    type Share = Share<N>;

    fn call(&mut self, share: &mut Share<N>, call: Call) -> Reply {
        let event = event_of(share.handle(), call);
        self.book.step(self.rt, &self.beside, Some(share), event)
    }

    fn other(&mut self, event: Event) -> Reply {
        self.book.step(self.rt, &self.beside, Share::none(), event)
    }

    fn handle(share: &Share<N>) -> Handle {
        share.handle()
    }

    fn act(&mut self, tag: u8) -> Result<u64, Completion> {
        let mut journal = self.beside.journal.lock(self.rt);
        let Some(piece) = armed_piece(&journal, tag) else {
            panic!(self.rt; "nothing may act on tag {tag}")
        };
        match journal.act(self.words, tag, piece) {
            Some(done) => done,
            None => panic!(self.rt; "the piece of tag {tag} didn't act"),
        }
    }

    fn act_failed(&mut self, tag: u8, completion: Completion) -> Reply {
        self.book.act_failed(self.rt, &self.beside, tag, completion)
    }

    fn rests(&mut self, tag: u8, piece: u128) {
        let mut journal = self.beside.journal.lock(self.rt);
        assert!(self.rt; journal.armed(tag).is_none(), "tag {tag}");
        assert!(self.rt; journal.act(self.words, tag, piece).is_none(), "tag {tag}");
    }

    fn reservations(&self) -> usize {
        let journal = self.beside.journal.lock(self.rt);
        journal.reservations()
    }

    fn len(&self) -> usize {
        self.book.len()
    }
}

// The piece that may act in the journal on a tag.
fn armed_piece<M: Medium, N: BookNaming>(journal: &Journal<M, N>, tag: u8) -> Option<u128> {
    let armed = journal.armed(tag)?;
    Some(armed.piece)
}

// The event of a call on a handle.
fn event_of(handle: Handle, call: Call) -> Event
    ensures no_handle { is_handle_event result ≡ false }
    ensures call { call_handle result ≡ Some handle }
{
    match call {
        Call::Read { offset, buffer } => Event::Read {
            handle,
            offset,
            buffer,
        },
        Call::Write {
            offset,
            bytes,
            through,
        } => Event::Write {
            handle,
            offset,
            bytes,
            through,
        },
        Call::Flush => Event::Flush { handle },
    }
}

// Whether memory was refused.
fn is_refused_for_memory(reply: &Reply) -> bool {
    matches!(
        reply,
        Reply::Refused {
            refusal: Refusal::InsufficientResources,
            ..
        }
    )
}

// A step on a client's handle.
fn step<C: Clerk>(
    rt: &impl Abort,
    alloc: Global,
    clerk: &mut C,
    share: &mut C::Share,
    order: Order,
) -> Result<Reply, AllocError> {
    if client_of(order).is_some() {
        let call = call_of(rt, alloc, order)?;
        return Ok(clerk.call(share, call));
    }
    let handle = C::handle(share);
    Ok(match order {
        Order::Cancel { request, .. } => cancel(rt, clerk, handle, request),
        _ => other(rt, clerk, other_event(rt, order)),
    })
}

// Cancels a request of a handle, or all.
fn cancel<C: Clerk>(rt: &impl Abort, desk: &mut C, handle: Handle, request: Option<u64>) -> Reply {
    let target = request.map(|number| Id { slot: 0, number });
    other(rt, desk, Event::CancelIoEx { handle, target })
}

// Any other event. The trace loses no label by it.
fn other<C: Clerk>(rt: &impl Abort, desk: &mut C, event: Event) -> Reply
    requires no_handle { is_handle_event event ≡ false }
    requires no_call { call_handle event ≡ None }
{
    let before = desk.len();
    let reply = desk.other(event);
    assert!(rt; before <= desk.len());
    reply
}

// The event of an order that is neither a call nor a cancel.
fn other_event(rt: &impl Abort, order: Order) -> Event
    ensures no_handle { is_handle_event result ≡ false }
    ensures no_call { call_handle result ≡ None }
{
    match order {
        Order::Act { tag } => Event::Act { tag: tag_of(tag) },
        Order::Finish { tag } => Event::Finish { tag: tag_of(tag) },
        Order::Reset => Event::Reset,
        _ => panic!(rt; "no order of a book's client"),
    }
}

// Checks that the step of a line has just this reply. Where it was refused for want of memory, the trace has not grown,
// and what was reserved for it was given back.
fn go<C: Clerk>(
    rt: &impl Abort,
    alloc: Global,
    clerk: &mut C,
    share: &mut C::Share,
    line: (Order, &str),
) -> Result<(), AllocError> {
    let (order, want) = line;
    let before = (clerk.len(), clerk.reservations());
    let reply = step(rt, alloc, clerk, share, order)?;
    if is_refused_for_memory(&reply) {
        assert!(rt; (clerk.len(), clerk.reservations()) == before);
        return Err(AllocError);
    }
    same(rt, &texts::reply(alloc, &reply)?.as_str(), &want);
    Ok(())
}

// The piece of a tag fails in the journal, and then in the book.
fn fail<C: Clerk>(
    rt: &impl Abort,
    alloc: Global,
    clerk: &mut C,
    tag: u8,
    want: &str,
) -> Result<(), AllocError> {
    let Err(completion) = clerk.act(tag) else {
        panic!(rt; "the piece of tag {tag} didn't fail")
    };
    let reply = clerk.act_failed(tag, completion);
    same(rt, &texts::reply(alloc, &reply)?.as_str(), &want);
    Ok(())
}

// Carries the rows of a test out one by one.
fn play<C: Clerk>(
    rt: &impl Abort,
    alloc: Global,
    clerk: &mut C,
    shares: (&mut C::Share, &mut C::Share),
    rows: &[Row],
) -> Result<(), AllocError> {
    let (first, second) = shares;
    for row in rows {
        match *row {
            Row::Line(line, want) => {
                let order = order_of(rt, alloc, line)?;
                if client_of(order) == Some(1) {
                    go(rt, alloc, clerk, second, (order, want))?;
                } else {
                    go(rt, alloc, clerk, first, (order, want))?;
                }
            }
            Row::Lane(tag, number) => {
                assert!(rt; clerk.act(tag) == Ok(number), "tag {tag}");
            }
            Row::LaneFails(tag, want) => fail(rt, alloc, clerk, tag, want)?,
            Row::Rests(tag, piece) => clerk.rests(tag, piece),
            Row::Room(requests) => {
                assert!(rt; clerk.reservations() == requests);
            }
        }
    }
    Ok(())
}

/// The rows of a test, and the whole trace once the book has all entries.
#[derive(Clone, Copy)]
pub(crate) struct Run<'a> {
    pub rows: &'a [Row<'a>],
    pub trace: &'a str,
}

// The label at a place was claimed, and stands there.
fn claim_first<N: BookNaming>(book: &mut Book<N>, history: &History<TraceEntry, N>) {
    if book.len() == 0 {
        return;
    }
    let mut claims = book.claim(history, 0);
    book.check(history, &mut claims);
}

// Books what is left of the entries.
fn book_rest<M: Medium, N: BookNaming, R: Wait>(desk: &mut Desk<M, N, R>) {
    let mut journal = desk.beside.journal.lock(desk.rt);
    desk.book.book_rest(&desk.beside.records, &mut journal);
}

/// What a book of two clients and its journal are made of beside a stack, which has no name yet: the history of the
/// trace, the ledger of the calls, sixty-four marks with the owner's seat, and the histories of the journal with the
/// medium of its sectors.
pub(crate) struct BookParts<M: Medium> {
    pub history: Opened<TraceEntry>,
    pub ledger: Blank,
    pub marks: Marks,
    pub owner: Seat,
    pub journal: sector_journal::Opened,
    pub medium: M,
}

/// A book over this stack, beside a journal, carries the rows out.
pub(crate) fn carry_out<M: Medium, N: BookNaming, R: Wait + Abort>(
    rt: &R,
    alloc: Global,
    ready: OpenStack<BookedAdapter>,
    parts: BookParts<M>,
    run: &Run,
) -> Result<(), AllocError>
    requires history { parts.history ≡ N.table }
    requires ledger { (parts.ledger.name ≡ N.name) × (parts.ledger.parts ≡ N.parts) × (N.parts ≡ 3) }
    requires named { IsNamed N.rules N.start N.handles N.slots ready.stack }
    requires partitions { N.partitions ≡ 0 ∷ 0 ∷ [] }
    requires slots { N.slots ≡ 64 }
    requires marks { parts.marks ≡ (N.marks, N.slots) }
    requires owner { parts.owner ≡ standing N.marks 0 (starting 64) }
    requires first { IsFirst ready.stack }
    requires opens { ready.stack.state ≡ opening ready.stack.state.arrays }
    requires clients { AreClientsOf (0 ∷ 0 ∷ []) ready.stack.handles }
    requires handles { AreHandlesOf (0 ∷ 0 ∷ []) ready.handles.items ready.stack }
    requires sizes { (ready.sizes ≡ sizes_of ready.stack.rules) × AreSizes ready.sizes }
    requires apart { IsFalse ready.stack.adapter.faithful }
    requires journal { parts.journal ≡ record { armings = N.armings; entries = N.entries } }
    requires medium { (M.view parts.medium).sectors ≡ N.opening }
    requires some { 1 ≤ length (M.view parts.medium).sectors }
    requires unfailed { (M.view parts.medium).failures ≡ 0 }
{
    let BookParts {
        history,
        ledger,
        marks,
        owner,
        journal,
        medium,
    } = parts;
    let (history, whole) = history.named::<N>();
    let (tally, mut all) = ledger.open::<N>();
    let (mut journal, words) = Journal::<M, N>::new(alloc, journal, medium, 2, false)?;
    let mut first = Share::new(0, ready.handles[0], all.split_off(1, 0));
    let mut second = Share::new(1, ready.handles[1], all.split_off(1, 0));
    let owned = Owned {
        whole,
        seat: owner,
        slots: 64,
        tally,
    };
    let traced = Traced::new(alloc, ready.stack, owned, 2, ready.sizes)?;
    let book = Book::new(alloc, traced, &mut journal, &words)?;
    let journal = Mutex::new(journal);
    let mut desk = Desk {
        rt,
        book,
        beside: Beside {
            records: Records::new(Context::new(alloc, &history, &marks), &words),
            journal: &journal,
        },
        words: &words,
    };
    play(rt, alloc, &mut desk, (&mut first, &mut second), run.rows)?;
    book_rest(&mut desk);
    let Desk { mut book, .. } = desk;
    claim_first(&mut book, &history);
    all.merge(first.into_part());
    all.merge(second.into_part());
    book.audit(&mut all);
    let (medium, entries) = journal.into_inner().into_parts();
    let trace = compare(rt, alloc, book, run)?;
    compare_acts(rt, trace.as_slice(), entries.as_slice());
    replay(rt, alloc, medium, entries.as_slice())
}

// Where the answer to request 1 stands in a trace, and how many bytes it tells; nowhere and 0 where there is none.
fn first_answer(trace: &[TraceEntry]) -> (Option<usize>, u64) {
    for (place, entry) in trace.iter().enumerate() {
        if let Label::Answer {
            number: 1,
            information,
            ..
        } = &entry.label
        {
            return (Some(place), *information);
        }
    }
    (None, 0)
}

// Returns the trace of a book, which is the one that is wanted. Its rows, and what is told of request 1, are those of
// that trace.
fn compare<N: BookNaming>(
    rt: &impl Abort,
    alloc: Global,
    book: Book<N>,
    run: &Run,
) -> Result<Vec<TraceEntry>, AllocError>
    requires { N.partitions ≡ 0 ∷ 0 ∷ [] }
{
    let mut book = book;
    let told = [
        Vec::from_slice(alloc, book.row(0))?,
        Vec::from_slice(alloc, book.row(1))?,
    ];
    let place = book.answer_place(1);
    let transferred = book.take_answer(1).map_or(0, |answer| answer.information);
    let (trace, rows, _receipts) = book.into_rows();
    same(
        rt,
        &texts::trace(alloc, trace.as_slice())?.as_str(),
        &run.trace,
    );
    same(rt, &(place, transferred), &first_answer(trace.as_slice()));
    for (row, told) in told.iter().enumerate() {
        same(rt, told, &places_of(alloc, trace.as_slice(), row)?);
    }
    compare_rows(rt, alloc, trace.as_slice(), rows)?;
    Ok(trace)
}
