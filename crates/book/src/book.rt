//! The book: what its threads call while they hold its lock.

ghost use Rattle.std.specs.Prelude.{◌≡◌, ◌<◌, ◌∷◌, ℕ, List, [], All, Contains, IfOk, IfSome, MatchOption, Some, None, false, true, length, slice_get};
ghost use Rattle.chronicle.specs.Claims.{AllStand};
ghost use Rattle.machine.specs.Step.{Run};
ghost use Rattle.io_manager.specs.declared.Refusal.TheVariants.{InsufficientResources};
ghost use Rattle.io_manager.specs.declared.Reply.TheVariants.{Refused as RefusedReply};
ghost use Rattle.io_manager.specs.Right.{TakesAnswerOf, as_answer};
ghost use Rattle.srb.specs.declared.Class.TheVariants.{Bad};
ghost use Rattle.srb.specs.Fate.{class_of};
ghost use Rattle.compose.specs.declared.Event.TheVariants.{Act};
ghost use Rattle.compose.specs.Journaled.{IsNoAct};
ghost use Rattle.traced.specs.declared.TraceEntry.{TraceEntry as EntryView};
ghost use Rattle.traced.specs.Entries.{IsAnswerAt, IsNoAnswerTo, calls, labels_of, places};
ghost use Rattle.traced.specs.Serving.{is_call_event, is_handle_event};
ghost use Rattle.traced.specs.Traced.{AreLooked, AreRowsOf, HasCounted, IsServed, IsTraced, TracedView, may_want};
ghost use Rattle.book.specs.Acting.{HasNoNext};
ghost use Rattle.book.specs.Book.{AreBooked, CallsAfter, ActsOrFails, FitsHandle, HasBooked, HoldsFailure, IsBlank, IsStepped, ServesAfter, ActsAreOf, book_of, call_handle};
ghost use Rattle.book.specs.Rooms.{FailsAs, KeepsRoom, Opens, next_number};
ghost use Rattle.book.specs.Taken.{BeginsWith, numbered_from};

use crate::booking::{book_all, has_acted};
use crate::failing::{fail, failure, transfer};
use crate::journal_room::{next_request, reserve};
use crate::name::BookNaming;
use crate::noting;
use crate::records::{Beside, Records};
use crate::settling::{arm_tag, settle_all};
use crate::tags::Tags;
use crate::taken::Taken;
use asking::refused;
use chronicle::{Claims, History};
use compose::{Answer, Event, Reply};
use disk::Medium;
use journaled::give_back;
use miniport::BookedAdapter;
use sector::Extent;
use sector_journal::{Entered, Journal, OfEntries};
use srb::Completion;
use std::alloc::{AllocError, Global};
use std::marker::Model;
use std::sync::{Wait, ledger};
use traced::{Row, Share, TraceEntry, Traced};

/// A stack that many threads share under a lock, with its trace, and what was booked of the journal's entries.
pub struct Book<N: BookNaming> {
    traced: Traced<BookedAdapter, N>,
    taken: Taken<N>,
    tags: Tags<N>,
    /// How many labels of the trace were looked at for what the journal is told.
    seen: usize,
}

// By hand, so that no crate above proves it again, as it would a derived one.
impl<N: BookNaming> Drop for Book<N> {
    fn drop(self) {
        let Book {
            traced: _,
            taken: _,
            tags: _,
            seen: _,
        } = self;
    }
}

impl<N: BookNaming> Model for Book<N> {
    ghost use Rattle.book.specs.Book.{BookView, IsKept, book_of};

    ghost Value = { BookView };

    ghost view = { λ b. book_of b.traced b.taken };

    ghost invariant = { λ b. IsKept N.rules N.start b.traced b.taken b.tags };
}

/// A call that would open a request, which lies at this extent of the disk.
struct Opening {
    event: Event,
    extent: Extent,
}

/// Whether an event may start or end a piece.
fn moves_pieces(event: &Event) -> bool {
    match event {
        Event::CancelIoEx { .. } | Event::Mark { .. } => false,
        Event::QueryRemove | Event::SurpriseRemove => false,
        _ => true,
    }
}

impl<N: BookNaming> Book<N> {
    /// A book of a stack of which nothing was told yet, beside a journal, whose tags it has.
    ///
    /// # Errors
    ///
    /// Where memory for the tags was refused.
    pub fn new<M: Medium>(
        alloc: Global,
        traced: Traced<BookedAdapter, N>,
        journal: &mut Journal<M, N>,
        words: &sector_journal::History<N>,
    ) -> Result<Book<N>, AllocError>
        requires blank { IsBlank N.start traced }
        ensures book { IfOk result (λ b. (b.traced ≡ traced) × (b.taken ≡ [])) }
        ensures same { journal.new ≡ journal.old }
    {
        machine_laws::keeps_lengths();
        traced.shows_whole();
        traced.shows_stack();
        let taken = Taken::new(journal, words);
        let tags = Tags::new(alloc, journal.depth())?;
        Ok(Book {
            traced,
            taken,
            tags,
            seen: 0,
        })
    }

    /// Returns how many labels the trace has.
    pub fn len(&self) -> usize
        ensures { result ≡ length self.now.traced.entries }
    {
        self.traced.len()
    }

    /// Returns what stands at a place of the trace.
    pub fn entry(&self, place: usize) -> &TraceEntry
        requires { place < length self.now.traced.entries }
        ensures { slice_get self.now.traced.entries place ≡ Some result.now }
    {
        self.traced.entry(place)
    }

    /// The places of a client's calls and of their answers so far, rising.
    pub fn row(&self, client: usize) -> &[usize]
        requires { client < length N.partitions }
        ensures { result.now ≡ places client 0 self.now.traced.entries }
    {
        self.traced.row(client)
    }

    /// Returns where the answer to a request stands in the trace, if it has come.
    pub fn answer_place(&self, number: u64) -> Option<usize>
        ensures { MatchOption result (All (IsNoAnswerTo number) (labels_of self.now.traced.entries)) (IsAnswerAt number self.now.traced.entries) }
    {
        self.traced.answer_place(number)
    }

    /// A claim on a place of the trace, by the entry there.
    pub fn claim(&mut self, history: &History<TraceEntry, N>, place: usize) -> Claims<TraceEntry, N>
        requires { place < length self.old.traced.entries }
        ensures same { self.new ≡ self.old }
        ensures claim { (e : EntryView) × (slice_get self.old.traced.entries place ≡ Some e) × (result ≡ (place, e) ∷ []) }
    {
        self.traced.claim(history, place)
    }

    /// Shows the caller that what was claimed stands in the trace.
    pub fn check(&mut self, history: &History<TraceEntry, N>, claims: &mut Claims<TraceEntry, N>)
        ensures same { (self.new ≡ self.old) × (claims.new ≡ claims.old) }
        ensures stand { AllStand self.old.traced.entries claims.old }
    {
        self.traced.check(history, claims)
    }

    /// Shows the caller that the parts of the ledger, once all have come back, have the number of calls.
    pub fn audit(&mut self, all: &mut ledger::Share<N>)
        requires { all.old.parts ≡ N.parts }
        ensures same { self.new ≡ self.old }
        ensures calls { all.new.amount ≡ calls self.old.traced.entries }
        ensures kept { all.new.amount ≡ all.old.amount }
    {
        self.traced.audit(all);
    }

    /// Takes the waiting answer of a request, whose label stands in the trace. It takes no memory.
    pub fn take_answer(&mut self, number: u64) -> Option<Answer>
        ensures takes { TakesAnswerOf self.old.traced.stack number result self.new.traced.stack }
        ensures entries { self.new.traced.entries ≡ self.old.traced.entries }
        ensures taken { self.new.taken ≡ self.old.taken }
        ensures stands { IfSome result (λ answer. Contains (labels_of self.old.traced.entries) (as_answer answer)) }
    {
        self.traced.take_answer(number)
    }

    /// Shows the caller that the trace of a book at rest is a run from the state that it was opened with to the state
    /// that the stack shows, each label in its row.
    pub fn shows_whole(&self)
        ensures { IsTraced N.rules N.start N.partitions N.handles self.now.traced }
    {
        self.traced.shows_whole();
    }
}

// Steps. Each of these is called with the book's lock held, and those that are handed a journal with its lock too.
impl<N: BookNaming> Book<N> {
    fn look(&mut self, records: &Records<N>)
        ensures looked { AreLooked N.slots self.old.traced self.new.traced }
        ensures taken { self.new.taken ≡ self.old.taken }
    {
        noting::look(&mut self.traced, &mut self.tags, records);
    }

    // Books all entries that are there, up to the first that the stack can't take. Returns the tag of the last that it
    // booked, if there was one.
    fn book_entries<M: Medium>(
        &mut self,
        records: &Records<N>,
        journal: &mut Journal<M, N>,
    ) -> Option<u8>
        ensures books { (count : ℕ) × HasBooked result count self.old self.new }
    {
        book_all(
            &mut self.traced,
            &mut self.taken,
            &mut self.tags,
            records,
            journal,
        )
    }

    // Tells the journal which pieces may act, and which requests were answered.
    fn settle<M: Medium>(&mut self, records: &Records<N>, journal: &mut Journal<M, N>)
        ensures { self.new ≡ self.old }
    {
        settle_all(
            &self.traced,
            &mut self.tags,
            journal,
            records.words,
            self.seen,
        );
        self.seen = self.traced.len();
    }

    // How the piece of a tag fails if no entry of it is booked: as it fails in the journal, where it acts now, unless
    // it did before.
    fn failure_of<M: Medium>(
        &mut self,
        records: &Records<N>,
        journal: &mut Journal<M, N>,
        tag: u8,
    ) -> Completion
        ensures same { self.new ≡ self.old }
        ensures bad { class_of result ≡ Bad result }
        ensures why { FailsAs self.old.traced.stack.adapter (length self.old.taken) tag journal.old result journal.new }
    {
        if has_acted(journal, self.taken.len(), tag) {
            return failure(None);
        }
        arm_tag(&self.traced, &mut self.tags, journal, records.words, tag);
        failure(transfer(&self.traced, journal, records.words, tag))
    }

    fn call_alone(&mut self, records: &Records<N>, share: &mut Share<N>, event: Event) -> Reply
        requires call { is_call_event event ≡ true }
        ensures served { IsServed share.old.client self.old.traced event result self.new.traced }
        ensures counted { HasCounted self.old.traced share.old share.new self.new.traced }
        ensures taken { self.new.taken ≡ self.old.taken }
    {
        noting::call(&mut self.traced, &mut self.tags, records, share, event)
    }

    // Carries out a call that would open a request, once the journal has room for its acts.
    fn call_reserved<M: Medium>(
        &mut self,
        records: &Records<N>,
        journal: &mut Journal<M, N>,
        share: &mut Share<N>,
        call: Opening,
    ) -> Reply
        requires call { is_call_event call.event ≡ true }
        ensures served { IsServed share.old.client self.old.traced call.event result self.new.traced }
        ensures counted { HasCounted self.old.traced share.old share.new self.new.traced }
        ensures taken { self.new.taken ≡ self.old.taken }
        ensures room { KeepsRoom (next_number self.old.traced.owners) call.event call.extent N.rules.max_transfer journal.old result journal.new }
    {
        let Opening { event, extent } = call;
        let number = next_request(&self.traced);
        let max_transfer = self.traced.sizes().max_transfer;
        if reserve(journal, number, &event, extent, max_transfer).is_err() {
            return refused(records.context.alloc(), event);
        }
        let reply = self.call_alone(records, share, event);
        give_back(journal, number, &reply);
        reply
    }

    fn call_in<M: Medium>(
        &mut self,
        records: &Records<N>,
        journal: &mut Journal<M, N>,
        share: &mut Share<N>,
        call: Opening,
    ) -> Reply
        requires call { is_call_event call.event ≡ true }
        requires opens { Opens self.old.traced.stack call.event call.extent }
        ensures { CallsAfter share.old share.new self.old call.event result self.new }
    {
        self.book_entries(records, journal);
        let reply = self.call_reserved(records, journal, share, call);
        self.settle(records, journal);
        reply
    }

    // The extent on the disk of the request that an event would open now.
    fn would_open(&self, event: &Event) -> Option<Extent>
        ensures { IfSome result (λ extent. Opens self.now.traced.stack event.now extent) }
    {
        match self.traced.admits(event) {
            Some((_, extent)) => Some(extent),
            None => None,
        }
    }

    // Carries out a read, a write or a flush. It takes the journal's lock where the call would open a request.
    fn call<M: Medium, R: Wait>(
        &mut self,
        rt: &R,
        beside: &Beside<M, N>,
        share: &mut Share<N>,
        event: Event,
    ) -> Reply
        requires call { is_call_event event ≡ true }
        ensures { CallsAfter share.old share.new self.old event result self.new }
    {
        let Some(extent) = self.would_open(&event) else {
            return self.call_alone(&beside.records, share, event);
        };
        let mut journal = beside.journal.lock(rt);
        let call = Opening { event, extent };
        self.call_in(&beside.records, &mut journal, share, call)
    }

    fn serve_alone(&mut self, records: &Records<N>, event: Event) -> Reply
        requires no_handle { is_handle_event event ≡ false }
        requires no_call { is_call_event event ≡ false }
        requires no_act { IsNoAct event }
        ensures served { IsServed 0 self.old.traced event result self.new.traced }
        ensures taken { self.new.taken ≡ self.old.taken }
    {
        noting::serve(&mut self.traced, &mut self.tags, records, event)
    }

    fn fail(&mut self, records: &Records<N>, tag: u8, completion: Completion) -> Reply
        requires bad { class_of completion ≡ Bad completion }
        ensures serves { (held : TracedView) × HoldsFailure (Some completion) self.old.traced (Act tag) held × IsServed 0 held (Act tag) result self.new.traced }
        ensures taken { self.new.taken ≡ self.old.taken }
    {
        fail(&mut self.traced, &mut self.tags, records, tag, completion)
    }

    // Books what is entered, and carries out the act of a tag, whose piece fails like this unless an entry of it is the
    // last that was booked.
    fn act_or_fail<M: Medium>(
        &mut self,
        records: &Records<N>,
        journal: &mut Journal<M, N>,
        tag: u8,
        completion: Completion,
    ) -> Reply
        requires bad { class_of completion ≡ Bad completion }
        ensures { ServesAfter (Some completion) self.old (Act tag) result self.new }
    {
        let last = self.book_entries(records, journal);
        if last == Some(tag) {
            self.settle(records, journal);
            return Reply::Ok;
        }
        let reply = self.fail(records, tag, completion);
        self.settle(records, journal);
        reply
    }

    // Carries out the act of a tag: its piece acts in the journal, and what is entered is booked.
    fn act_in<M: Medium>(
        &mut self,
        records: &Records<N>,
        journal: &mut Journal<M, N>,
        tag: u8,
    ) -> Reply
        ensures { ActsOrFails tag self.old journal.old result self.new }
    {
        let completion = self.failure_of(records, journal, tag);
        self.act_or_fail(records, journal, tag, completion)
    }

    fn serve_in<M: Medium>(
        &mut self,
        records: &Records<N>,
        journal: &mut Journal<M, N>,
        event: Event,
    ) -> Reply
        requires no_handle { is_handle_event event ≡ false }
        requires no_call { is_call_event event ≡ false }
        requires no_act { IsNoAct event }
        ensures { ServesAfter None self.old event result self.new }
    {
        self.book_entries(records, journal);
        let reply = self.serve_alone(records, event);
        self.settle(records, journal);
        reply
    }

    // Carries out any event but a call. It takes the journal's lock where the event may start or end a piece.
    fn serve<M: Medium, R: Wait>(&mut self, rt: &R, beside: &Beside<M, N>, event: Event) -> Reply
        requires no_handle { is_handle_event event ≡ false }
        requires no_call { is_call_event event ≡ false }
        ensures { ServesAfter None self.old event result self.new }
    {
        if let Event::Act { tag } = event {
            let mut journal = beside.journal.lock(rt);
            return self.act_in(&beside.records, &mut journal, tag);
        }
        if !moves_pieces(&event) {
            return self.serve_alone(&beside.records, event);
        }
        let mut journal = beside.journal.lock(rt);
        self.serve_in(&beside.records, &mut journal, event)
    }

    /// Carries out an event, any but an open and a close. First it looks once at each slot that has an open request,
    /// and carries out each mark that it sees there. Where the event may start or end a piece, it then takes the
    /// journal's lock, and books entries in the order of their numbers, up to the first that the stack can't take. For an
    /// act, the tag's piece first acts in the journal, if it may. A read, a write or a flush comes with the share of its
    /// handle's client, any other event with none.
    ///
    /// Reads, writes, flushes and query-remove are refused as `InsufficientResources`, before any step of theirs, where
    /// memory is refused for the labels that they may bring, or in the journal for their acts.
    pub fn step<M: Medium, R: Wait>(
        &mut self,
        rt: &R,
        beside: &Beside<M, N>,
        share: Option<&mut Share<N>>,
        event: Event,
    ) -> Reply
        requires no_handle { is_handle_event event ≡ false }
        requires share { FitsHandle (call_handle event) share }
        ensures stepped { IsStepped N.slots share.entry share.exit self.old event result self.new }
        ensures memory { (bytes : List ℕ) → result ≡ RefusedReply InsufficientResources bytes → may_want event ≡ true }
    {
        compose::steps_take_no_memory();
        self.look(&beside.records);
        match share {
            Some(share) => self.call(rt, beside, share, event),
            None => self.serve(rt, beside, event),
        }
    }

    /// Carries out the act of a tag whose piece failed in the journal, where a lane had it act: as [`Book::step`] does
    /// for an `Act`, and the piece fails as it did there.
    pub fn act_failed<M: Medium, R: Wait>(
        &mut self,
        rt: &R,
        beside: &Beside<M, N>,
        tag: u8,
        completion: Completion,
    ) -> Reply
        requires bad { class_of completion ≡ Bad completion }
        ensures { (marked : TracedView) × AreLooked N.slots self.old.traced marked × ServesAfter (Some completion) (book_of marked self.old.taken) (Act tag) result self.new }
    {
        self.look(&beside.records);
        let mut journal = beside.journal.lock(rt);
        self.act_or_fail(&beside.records, &mut journal, tag, completion)
    }

    /// Books all entries that are there, up to the first that the stack can't take: what was booked is then the front of
    /// the journal's. The caller holds both locks.
    pub fn book_rest<M: Medium>(&mut self, records: &Records<N>, journal: &mut Journal<M, N>)
        ensures books { (count : ℕ) × AreBooked count self.old self.new }
        ensures front { BeginsWith journal.old.entered self.new.taken }
        ensures ends { HasNoNext N.rules self.new.traced.stack.adapter journal.old (length self.new.taken) }
        ensures same { journal.new ≡ journal.old }
    {
        let _last = book_all(
            &mut self.traced,
            &mut self.taken,
            &mut self.tags,
            records,
            journal,
        );
        self.taken.check(journal, records.words);
    }

    /// The trace, the rows of all clients, and the receipts of the entries of its acts, numbered from 0.
    pub fn into_rows(self) -> (Vec<TraceEntry>, Vec<Row>, Claims<Entered, OfEntries<N>>)
        ensures rows { AreRowsOf (length N.partitions) self.traced result.0.items result.1.items }
        ensures run { Run N.rules N.start (labels_of result.0.items) self.traced.stack.state }
        ensures receipts { result.2 ≡ numbered_from 0 self.taken }
        ensures acts { ActsAreOf N.rules N.start (labels_of result.0.items) self.taken }
    {
        let Book {
            traced,
            taken,
            tags: _,
            seen: _,
        } = self;
        let (trace, rows) = traced.into_rows();
        (trace, rows, taken.into_receipts())
    }
}
