//! The book under the host's lock, and beside it a count of the keeper's steps, by which both know where the device is.

ghost use Rattle.std.specs.Prelude.{◌≡◌, ◌<◌, ◌∷◌, [], All, Contains, IfSome, MatchOption, None, Some, false, length, slice_get, true};
ghost use mathlib.Core.Logic.{inl};
ghost use Rattle.chronicle.specs.Claims.{AllStand};
ghost use Rattle.io_manager.specs.Right.{TakesAnswerOf, as_answer, pnp_state};
ghost use Rattle.pnp.specs.declared.State.TheVariants.{Started};
ghost use Rattle.srb.specs.declared.Class.TheVariants.{Bad};
ghost use Rattle.srb.specs.Fate.{class_of};
ghost use Rattle.compose.specs.declared.Event.TheVariants.{Act};
ghost use Rattle.traced.specs.declared.TraceEntry.{TraceEntry as EntryView};
ghost use Rattle.traced.specs.Entries.{IsAnswerAt, IsNoAnswerTo, labels_of};
ghost use Rattle.traced.specs.Serving.{is_handle_event};
ghost use Rattle.traced.specs.Traced.{AreLooked, IsTraced, TracedView};
ghost use Rattle.book.specs.Book.{CallsAfter, IsStepped, ServesAfter, book_of, call_handle};
ghost use Rattle.host.specs.Replies.{IsReplyTo};
ghost use Rattle.host.specs.Standing.{GoesBy, call_of, is_others, left_behind, left_by, steps_of};

use crate::account::laws_of_numbers;
use crate::name::HostNaming;
use book::{Beside, Book};
use chronicle::{Claims, History};
use compose::{Answer, Event, Reply};
use disk::Medium;
use pnp::{Request, State};
use srb::Completion;
use std::marker::{Model, PhantomData};
use std::sync::Wait;
use std::sync::ledger::{Book as Tally, Ledger, Share as Part};
use traced::{Share, TraceEntry};

/// The ledger of a keeper's steps. It has one part, which the keeper holds.
pub struct OfKeeper<N> {
    of: PhantomData<N>,
}

impl<N: HostNaming> Ledger for OfKeeper<N> {
    ghost name = { N.keeper };

    ghost parts = { 1 };
}

/// Where a keeper's calls have left the device. Contracts see it as this PnP state.
#[derive(Drop)]
pub(crate) struct Standing<N: HostNaming> {
    part: Part<OfKeeper<N>>,
    state: State,
}

impl<N: HostNaming> Model for Standing<N> {
    ghost use Rattle.std.specs.Prelude.{◌≡◌};
    ghost use Rattle.pnp.specs.declared.State.{State as PnpState};
    ghost use Rattle.host.specs.Standing.{steps_of};

    ghost Value = { PnpState };

    ghost view = { λ s. s.state };

    ghost invariant = { λ s. (s.part.parts ≡ 1) × (s.part.amount ≡ steps_of s.state) };
}

/// How many steps a PnP state is from the first. A device that goes is as far as one that is gone.
fn steps(state: State) -> u64
    ensures { result ≡ steps_of state }
{
    match state {
        State::Started => 0,
        State::RemovePending => 1,
        State::Removing | State::Removed => 2,
    }
}

/// A keeper's call as an event.
fn event(request: Request) -> Event
    ensures { result ≡ call_of request }
{
    match request {
        Request::QueryRemove => Event::QueryRemove,
        Request::CancelRemove => Event::CancelRemove,
        Request::Remove => Event::Remove,
        Request::SurpriseRemove => Event::SurpriseRemove,
    }
}

/// Where an accepted call leaves the device once it has returned.
fn state_after(request: Request) -> State
    ensures { result ≡ left_by request }
{
    match request {
        Request::QueryRemove => State::RemovePending,
        Request::CancelRemove => State::Started,
        Request::Remove | Request::SurpriseRemove => State::Removed,
    }
}

/// Where a call leaves the device, by its reply.
fn state_behind(before: State, reply: &Reply, request: Request) -> State
    ensures { result ≡ left_behind reply.now request before }
{
    match reply {
        Reply::Ok => state_after(request),
        Reply::Handle(_)
        | Reply::Request(_)
        | Reply::Answered(_)
        | Reply::Refused { .. }
        | Reply::Ignored => before,
    }
}

impl<N: HostNaming> Standing<N> {
    /// A device at work.
    pub(crate) fn new(part: Part<OfKeeper<N>>) -> Standing<N>
        requires part { (part.parts ≡ 1) × (part.amount ≡ 0) }
        ensures { result ≡ Started }
    {
        Standing {
            part,
            state: State::Started,
        }
    }

    fn state(&self) -> State
        ensures { result ≡ self.now }
    {
        self.state
    }

    // Shows the caller that the count is that of this state.
    fn agrees(&mut self, tally: &mut Tally<OfKeeper<N>>)
        ensures same { (self.new ≡ self.old) × (tally.new.total ≡ tally.old.total) }
        ensures agrees { tally.old.total ≡ steps_of self.old }
    {
        tally.audit(&mut self.part);
    }

    // Moves on to a state, and the count with it.
    fn move_to(&mut self, tally: &mut Tally<OfKeeper<N>>, state: State)
        ensures state { self.new ≡ state }
        ensures total { tally.new.total ≡ steps_of state }
    {
        tally.sub(&mut self.part, steps(self.state));
        tally.add(&mut self.part, steps(state));
        tally.audit(&mut self.part);
        self.state = state;
    }
}

/// A book whose device no call but the keeper's moves. Contracts see it as the book.
pub(crate) struct KeptBook<N: HostNaming> {
    book: Book<N>,
    tally: Tally<OfKeeper<N>>,
}

// By hand, so that no crate above proves it again, as it would a derived one.
impl<N: HostNaming> Drop for KeptBook<N> {
    fn drop(self) {
        let KeptBook { book: _, tally: _ } = self;
    }
}

impl<N: HostNaming> Model for KeptBook<N> {
    ghost use Rattle.std.specs.Prelude.{◌≡◌};
    ghost use Rattle.io_manager.specs.Right.{pnp_state};
    ghost use Rattle.book.specs.Book.{BookView};
    ghost use Rattle.host.specs.Standing.{steps_of};

    ghost Value = { BookView };

    ghost view = { λ k. k.book };

    ghost invariant = { λ k. k.tally.total ≡ steps_of (pnp_state k.book.traced.stack.state) };
}

impl<N: HostNaming> KeptBook<N> {
    /// The book of a device at work.
    pub(crate) fn new(book: Book<N>, tally: Tally<OfKeeper<N>>) -> KeptBook<N>
        requires started { pnp_state book.traced.stack.state ≡ Started }
        requires none { tally.total ≡ 0 }
        ensures { result ≡ book }
    {
        KeptBook { book, tally }
    }

    /// Returns how many labels the trace has.
    pub(crate) fn len(&self) -> usize
        ensures { result ≡ length self.now.traced.entries }
    {
        self.book.len()
    }

    /// Returns what stands at a place of the trace.
    pub(crate) fn entry(&self, place: usize) -> &TraceEntry
        requires { place < length self.now.traced.entries }
        ensures { slice_get self.now.traced.entries place ≡ Some result.now }
    {
        self.book.entry(place)
    }

    /// Returns where the answer to a request stands in the trace, if it has come.
    pub(crate) fn answer_place(&self, number: u64) -> Option<usize>
        ensures { MatchOption result (All (IsNoAnswerTo number) (labels_of self.now.traced.entries)) (IsAnswerAt number self.now.traced.entries) }
    {
        self.book.answer_place(number)
    }

    /// A claim on a place of the trace, by the entry there.
    pub(crate) fn claim(
        &mut self,
        history: &History<TraceEntry, N>,
        place: usize,
    ) -> Claims<TraceEntry, N>
        requires { place < length self.old.traced.entries }
        ensures same { self.new ≡ self.old }
        ensures claim { (e : EntryView) × (slice_get self.old.traced.entries place ≡ Some e) × (result ≡ (place, e) ∷ []) }
    {
        self.book.claim(history, place)
    }

    /// Shows the caller that what was claimed stands in the trace.
    pub(crate) fn check(
        &mut self,
        history: &History<TraceEntry, N>,
        claims: &mut Claims<TraceEntry, N>,
    )
        ensures same { (self.new ≡ self.old) × (claims.new ≡ claims.old) }
        ensures stand { AllStand self.old.traced.entries claims.old }
    {
        self.book.check(history, claims)
    }

    /// Takes the waiting answer of a request, whose label stands in the trace. It takes no memory.
    pub(crate) fn take_answer(&mut self, number: u64) -> Option<Answer>
        ensures takes { TakesAnswerOf self.old.traced.stack number result self.new.traced.stack }
        ensures entries { self.new.traced.entries ≡ self.old.traced.entries }
        ensures stands { IfSome result (λ answer. Contains (labels_of self.old.traced.entries) (as_answer answer)) }
    {
        self.book.take_answer(number)
    }

    /// Shows the caller that the trace is a run from the state that the book was opened with to the state that its
    /// stack shows, each label in its row.
    pub(crate) fn shows_whole(&self)
        ensures { IsTraced N.rules N.start N.partitions N.handles self.now.traced }
    {
        self.book.shows_whole();
    }

    /// Gives the book up.
    pub(crate) fn into_book(self) -> Book<N>
        ensures { result ≡ self }
    {
        let KeptBook { book, tally: _ } = self;
        book
    }
}

// Steps.
impl<N: HostNaming> KeptBook<N> {
    /// Carries out a client's call, as [`Book::step`] does.
    pub(crate) fn call<M: Medium, R: Wait>(
        &mut self,
        rt: &R,
        beside: &Beside<M, N>,
        share: &mut Share<N>,
        event: Event,
    ) -> Reply
        requires no_handle { is_handle_event event ≡ false }
        requires handle { call_handle event ≡ Some share.old.handle }
        requires others { is_others event ≡ true }
        ensures { (marked : TracedView) × AreLooked N.slots self.old.traced marked × CallsAfter share.old share.new (book_of marked self.old.taken) event result self.new }
    {
        laws_of_numbers();
        self.book.step(rt, beside, Some(share), event)
    }

    /// Carries out a step of the adapter, as [`Book::step`] does.
    pub(crate) fn step<M: Medium, R: Wait>(
        &mut self,
        rt: &R,
        beside: &Beside<M, N>,
        event: Event,
    ) -> Reply
        requires { (is_handle_event event ≡ false) × (call_handle event ≡ None) × (is_others event ≡ true) }
        ensures stepped { IsStepped N.slots None (inl tt) self.old event result self.new }
        ensures reply { IsReplyTo event result }
    {
        laws_of_numbers();
        self.book.step(rt, beside, Share::none(), event)
    }

    /// Carries out the act of a tag whose piece failed in the journal, as [`Book::act_failed`] does.
    pub(crate) fn act_failed<M: Medium, R: Wait>(
        &mut self,
        rt: &R,
        beside: &Beside<M, N>,
        tag: u8,
        completion: Completion,
    ) -> Reply
        requires bad { class_of completion ≡ Bad completion }
        ensures { (marked : TracedView) × AreLooked N.slots self.old.traced marked × ServesAfter (Some completion) (book_of marked self.old.taken) (Act tag) result self.new }
    {
        laws_of_numbers();
        self.book.act_failed(rt, beside, tag, completion)
    }

    /// Carries out a keeper's call.
    pub(crate) fn keep<M: Medium, R: Wait>(
        &mut self,
        rt: &R,
        beside: &Beside<M, N>,
        standing: &mut Standing<N>,
        request: Request,
    ) -> Reply
        ensures stepped { IsStepped N.slots None (inl tt) self.old (call_of request) result self.new }
        ensures reply { IsReplyTo (call_of request) result }
        ensures goes { GoesBy request standing.old result standing.new }
    {
        laws_of_numbers();
        let before = standing.state();
        standing.agrees(&mut self.tally);
        let reply = self.book.step(rt, beside, Share::none(), event(request));
        let after = state_behind(before, &reply, request);
        standing.move_to(&mut self.tally, after);
        reply
    }
}
