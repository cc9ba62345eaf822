//! A stack with its trace.

ghost use Rattle.std.specs.Prelude.{◌≡◌, ◌<◌, ◌≤◌, ◌+◌, ◌∷◌, ℕ, List, [], max, slice_get, All, Contains, IfOk, IfSome, MatchOption, OnOk, Some, None, false, true, length, replicate, IsFalse, IsTrue};
ghost use Rattle.cancel_marks.specs.Marks.{standing, starting};
ghost use Rattle.chronicle.specs.Claims.{AllStand};
ghost use Rattle.machine.specs.Step.{Run};
ghost use Rattle.machine_laws.specs.LabelsLeft.{labels_left, RunsUseUp};
ghost use Rattle.machine_laws.specs.NumberLaws.{CallsAwait, CallsCount, CallsRise};
ghost use Rattle.compose.specs.declared.Event.TheVariants.{Mark};
ghost use Rattle.io_manager.specs.declared.Reply.{Reply as ReplyView};
ghost use Rattle.io_manager.specs.Right.{BooksPiece, FitsTogether, TakesAnswerOf, as_answer};
ghost use Rattle.adapter.specs.View.{IsInOrder};
ghost use Rattle.adapter.specs.Calls.{HasNoneFresh};
ghost use Rattle.adapter.specs.Booking.{IsArmed, handed};
ghost use Rattle.machine_laws.specs.Reached.{IsReached};
ghost use Rattle.compose.specs.Right.{IsRight, opened_by};
ghost use Rattle.traced.specs.Opening.{AreClientsOf, IsFirst};
ghost use Rattle.traced.specs.Traced.{AreLooked, AreRowsOf, IsTraced, IsCarried, IsLooked, IsServed, IsWanting, HasCounted, may_want};
ghost use Rattle.traced.specs.declared.TraceEntry.{TraceEntry as EntryView};
ghost use Rattle.traced.specs.Entries.{IsAnswerAt, IsNoAnswerTo, calls, labels_of, places};
ghost use Rattle.traced.specs.Log.{noted_all};
ghost use Rattle.traced.specs.inside.Log.{MayNote};
ghost use Rattle.traced.specs.Sizes.{AreSizes, sizes_of};
ghost use Rattle.traced.specs.inside.Sizes.{brought_by};
ghost use Rattle.traced.specs.Serving.{is_call_event, is_handle_event, open_at};
ghost use Rattle.traced.specs.inside.Serving.{Serves, admitted_at, unless_told};
ghost use Rattle.traced.specs.Slots.{LooksNowhere};
ghost use Rattle.traced.specs.inside.Slots.{ArmedBelow, number_at};
ghost use Rattle.traced.specs.Told.{AreTold, MayCall, MayNoteAll};
ghost use Rattle.traced.specs.Sound.{IsNamed};
ghost use Rattle.traced.specs.inside.Sound.{IsSound, MayArm, IsGivenBelow, shown, unless_label};

use crate::TraceEntry;
use crate::context::Context;
use crate::name::TraceNaming;
use crate::row::Row;
use crate::share::Share;
use crate::sizes::StackSizes;
use crate::slots::Slots;
use crate::trace_log::TraceLog;
use adapter::Adapter;
use asking::refused;
use cancel_marks::{Marks, Seat};
use chronicle::{Claims, History, Whole};
use compose::{Answer, Event, Reply, Stack};
use machine::Label;
use sector::Extent;
use srb::{Booked, Srb};
use std::alloc::{AllocError, Global};
use std::marker::Model;
use std::sync::ledger;

/// What the holder of a traced stack's lock owns beside the stack: an end of each of what threads share.
pub struct Owned<N: TraceNaming> {
    /// The history of the trace.
    pub whole: Whole<TraceEntry, N>,
    /// The owner's seat at the table of marks.
    pub seat: Seat,
    /// How many slots that table has.
    pub slots: usize,
    /// The ledger of the calls.
    pub tally: ledger::Book<N>,
}

/// A stack that many threads share under a lock, the trace of all its labels, and the marks on its open requests.
pub struct Traced<A: Adapter, N: TraceNaming> {
    stack: Stack<A>,
    log: TraceLog<N>,
    slots: Slots<N>,
    tally: ledger::Book<N>,
    sizes: StackSizes,
}

// By hand, so that no crate above proves it again, as it would a derived one.
impl<A: Adapter, N: TraceNaming> Drop for Traced<A, N> {
    fn drop(self) {
        let Traced {
            stack: _,
            log: _,
            slots: _,
            tally: _,
            sizes: _,
        } = self;
    }
}

impl<A: Adapter, N: TraceNaming> Model for Traced<A, N> {
    ghost use Rattle.std.specs.Prelude.{◌≡◌, ◌≤◌, length};
    ghost use Rattle.traced.specs.Traced.{TracedView};
    ghost use Rattle.traced.specs.Opening.{AreClientsOf};
    ghost use Rattle.traced.specs.Sizes.{AreSizes, sizes_of};
    ghost use Rattle.traced.specs.inside.Sound.{IsSound, shown};

    ghost Value = { TracedView };

    ghost view = { λ b. shown b.stack b.log b.slots };

    ghost invariant = { λ b. record {
      sound : IsSound N.rules N.start N.handles N.slots b.stack b.log b.slots;
      tally : b.tally.total ≡ length b.log.owners;
      clients : AreClientsOf N.partitions N.handles;
      same_sizes : b.sizes ≡ sizes_of N.rules;
      sizes : AreSizes b.sizes;
    } };
}

// An event, and for a call the client whose call it is.
struct ClientEvent {
    client: usize,
    event: Event,
}

// How many labels may always come: those of a removal and of its end.
const REMOVAL_LABELS: usize = 2;

// Makes a log with room for a removal, and slots, all empty.
fn make_rows<N: TraceNaming>(
    alloc: Global,
    whole: Whole<TraceEntry, N>,
    seat: Seat,
    clients: usize,
    slots: usize,
) -> Result<(TraceLog<N>, Slots<N>), AllocError>
    requires clients { clients ≡ length N.partitions }
    requires whole { whole ≡ [] }
    requires slots { slots ≡ N.slots }
    requires seat { seat ≡ standing N.marks 0 (starting (max slots 1)) }
    ensures log { IfOk result (λ r. (r.0.entries ≡ []) × (r.0.owners ≡ []) × (2 ≤ r.0.room)) }
    ensures numbers { IfOk result (λ r. r.1.numbers ≡ replicate slots None) }
    ensures owner { IfOk result (λ r. r.1.owner ≡ starting (max slots 1)) }
{
    let mut log = TraceLog::new(alloc, whole, clients)?;
    log.reserve(REMOVAL_LABELS)?;
    let slots = Slots::new(alloc, seat, slots)?;
    Ok((log, slots))
}

// Shows the caller the laws on the numbers of a run.
fn laws_of_numbers()
    ensures rise { CallsRise }
    ensures count { CallsCount }
    ensures waiting { CallsAwait }
{
    machine_laws::numbers_rise();
    machine_laws::calls_await_answers();
}

// Carries out a right step of the stack, and shows what the trace, its rows and the slots need of it.
fn serve_right<A: Adapter>(stack: &mut Stack<A>, alloc: Global, event: Event) -> Reply
    requires taken { stack.old.labels ≡ [] }
    requires on_grid { IsFalse stack.old.rules.any_cut }
    requires given { (k number : ℕ) → open_at stack.old k ≡ Some number → number < stack.old.state.next_request }
    ensures right { IsRight stack.old event result stack.new }
    ensures serves { Serves stack.old event result stack.new }
{
    machine_laws::numbers_rise();
    machine_laws::labels_run_out();
    machine_laws::goes_on();
    stack.shows_whole();
    stack.step(alloc, event)
}

// Takes a request that is answered out of its slot.
fn retire_if_answered<N: TraceNaming>(slots: &mut Slots<N>, marks: &Marks, label: &Label)
    requires marks { marks.now ≡ (N.marks, N.slots) }
    ensures numbers { (k : ℕ) → number_at slots.new.numbers k ≡ unless_label label.now (number_at slots.old.numbers k) }
    ensures looks { LooksNowhere slots.old.owner slots.new.owner }
    ensures below { (next : ℕ) → ArmedBelow next slots.old.owner → ArmedBelow next slots.new.owner }
{
    if let Label::Answer { number, .. } = label {
        slots.retire(marks, *number);
    }
}

// Arms the slot of a request that was opened.
fn arm_if_opened<N: TraceNaming>(slots: &mut Slots<N>, marks: &Marks, reply: &Reply)
    requires marks { marks.now ≡ (N.marks, N.slots) }
    requires may { MayArm N.slots slots.old.owner reply.now }
    ensures numbers { (k : ℕ) → number_at slots.new.numbers k ≡ admitted_at reply.now k (number_at slots.old.numbers k) }
    ensures looks { LooksNowhere slots.old.owner slots.new.owner }
    ensures below { (next : ℕ) → IsGivenBelow next reply.now → ArmedBelow next slots.old.owner → ArmedBelow next slots.new.owner }
{
    if let Reply::Request(id) = reply {
        slots.arm(marks, id.slot as usize, id.number);
    }
}

// Takes all labels of a step, and notes them.
fn note_all<A: Adapter, N: TraceNaming>(
    stack: &mut Stack<A>,
    log: &mut TraceLog<N>,
    slots: &mut Slots<N>,
    context: &Context<N>,
    client: usize,
)
    requires may { MayNoteAll (length N.partitions) client log.old stack.old.labels }
    requires room { length stack.old.labels ≤ log.old.room }
    requires bytes { IsTrue stack.old.rules.keeps_bytes }
    ensures stack { stack.new ≡ record stack.old { labels = [] } }
    ensures log { log.new ≡ noted_all client log.old stack.old.labels }
    ensures numbers { (k : ℕ) → number_at slots.new.numbers k ≡ unless_told stack.old.labels (number_at slots.old.numbers k) }
    ensures looks { LooksNowhere slots.old.owner slots.new.owner }
    ensures below { (next : ℕ) → ArmedBelow next slots.old.owner → ArmedBelow next slots.new.owner }
{
    while let Some(label) = stack.take_label() {
        retire_if_answered(slots, context.marks, &label);
        log.note(context.history, label, client);
    }
}

// Carries out an event, and notes its labels.
fn carry<A: Adapter, N: TraceNaming>(
    stack: &mut Stack<A>,
    log: &mut TraceLog<N>,
    slots: &mut Slots<N>,
    context: &Context<N>,
    asked: ClientEvent,
) -> Reply
    requires sound { IsSound N.rules N.start N.handles N.slots stack.old log.old slots.old }
    requires no_handle { is_handle_event asked.event ≡ false }
    requires client { is_call_event asked.event ≡ true → (asked.client < length N.partitions) × (log.old.ready ≡ Some asked.client) }
    requires room { labels_left N.rules stack.old.state + brought_by (sizes_of N.rules) asked.event ≤ log.old.room }
    ensures sound { IsSound N.rules N.start N.handles N.slots stack.new log.new slots.new }
    ensures carried { IsCarried asked.client (shown stack.old log.old slots.old) asked.event result (shown stack.new log.new slots.new) }
    ensures no_call { is_call_event asked.event ≡ false → log.new.owners ≡ log.old.owners }
    ensures more { length log.old.owners ≤ length log.new.owners }
{
    let ClientEvent { client, event } = asked;
    laws_of_numbers();
    slots.shows_armed();
    let reply = serve_right(stack, context.alloc, event);
    arm_if_opened(slots, context.marks, &reply);
    note_all(stack, log, slots, context, client);
    reply
}

// Carries out a mark that was seen. It stands apart from the look, so that a look that sees none makes no event.
fn carry_mark<A: Adapter, N: TraceNaming>(
    stack: &mut Stack<A>,
    log: &mut TraceLog<N>,
    slots: &mut Slots<N>,
    context: &Context<N>,
    number: u64,
)
    requires sound { IsSound N.rules N.start N.handles N.slots stack.old log.old slots.old }
    ensures sound { IsSound N.rules N.start N.handles N.slots stack.new log.new slots.new }
    ensures carried { (reply : ReplyView) × IsCarried 0 (shown stack.old log.old slots.old) (Mark number) reply (shown stack.new log.new slots.new) }
    ensures no_call { log.new.owners ≡ log.old.owners }
{
    let event = Event::Mark { number };
    carry(stack, log, slots, context, ClientEvent { client: 0, event });
}

// Looks at a slot, and carries out a mark that it sees there.
fn look_at<A: Adapter, N: TraceNaming>(
    stack: &mut Stack<A>,
    log: &mut TraceLog<N>,
    slots: &mut Slots<N>,
    context: &Context<N>,
    slot: usize,
)
    requires sound { IsSound N.rules N.start N.handles N.slots stack.old log.old slots.old }
    requires slot { slot < N.slots }
    ensures sound { IsSound N.rules N.start N.handles N.slots stack.new log.new slots.new }
    ensures looked { IsLooked slot (shown stack.old log.old slots.old) (shown stack.new log.new slots.new) }
    ensures no_call { log.new.owners ≡ log.old.owners }
{
    if let Some(number) = slots.look(context.marks, slot) {
        carry_mark(stack, log, slots, context, number);
    }
}

// Looks once at each slot that has an open request, and carries out each mark that it sees.
fn look_all<A: Adapter, N: TraceNaming>(
    stack: &mut Stack<A>,
    log: &mut TraceLog<N>,
    slots: &mut Slots<N>,
    context: &Context<N>,
)
    requires sound { IsSound N.rules N.start N.handles N.slots stack.old log.old slots.old }
    ensures sound { IsSound N.rules N.start N.handles N.slots stack.new log.new slots.new }
    ensures looked { AreLooked N.slots (shown stack.old log.old slots.old) (shown stack.new log.new slots.new) }
    ensures no_call { log.new.owners ≡ log.old.owners }
{
    for slot in 0..slots.len() {
        if slot >= slots.end() {
            return;
        }
        look_at(stack, log, slots, context, slot);
    }
}

// Makes the places for all labels that an event may bring.
fn make_room<N: TraceNaming>(
    sizes: &StackSizes,
    log: &mut TraceLog<N>,
    event: &Event,
) -> Result<(), AllocError>
    requires sizes { AreSizes sizes.now }
    ensures kept { log.new ≡ record log.old { room = log.new.room } }
    ensures no_less { log.old.room ≤ log.new.room }
    ensures room { OnOk result (log.old.room + brought_by sizes.now event.now ≤ log.new.room) }
{
    let Some(room) = log.room().checked_add(sizes.labels_for(event)) else {
        return Err(AllocError);
    };
    log.reserve(room)
}

impl<A: Adapter, N: TraceNaming> Traced<A, N> {
    /// A traced stack on which the clients' handles are open, and nothing else. It owns an empty history, a seat at a
    /// table of as many slots as requests may be open, and a ledger that counted nothing. `clients` is their number,
    /// and `sizes` are the stack's.
    ///
    /// # Errors
    ///
    /// Where memory for its rows, its slots or the labels of a removal was refused.
    pub fn new(
        alloc: Global,
        stack: Stack<A>,
        owned: Owned<N>,
        clients: usize,
        sizes: StackSizes,
    ) -> Result<Traced<A, N>, AllocError>
        requires named { IsNamed N.rules N.start N.handles N.slots stack }
        requires first { IsFirst stack }
        requires handles { AreClientsOf N.partitions N.handles }
        requires whole { owned.whole ≡ [] }
        requires seat { owned.seat ≡ standing N.marks 0 (starting (max owned.slots 1)) }
        requires tally { owned.tally.total ≡ 0 }
        requires count { (clients ≡ length N.partitions) × (owned.slots ≡ N.slots) }
        requires sizes { (sizes ≡ sizes_of N.rules) × AreSizes sizes }
        ensures { IfOk result (λ b. (b.stack ≡ stack) × (b.entries ≡ []) × (b.owners ≡ [])) }
    {
        let Owned {
            whole,
            seat,
            slots,
            tally,
        } = owned;
        let (log, slots) = make_rows(alloc, whole, seat, clients, slots)?;
        Ok(Traced {
            stack,
            log,
            slots,
            tally,
            sizes,
        })
    }

    /// Returns how many labels the trace has.
    pub fn len(&self) -> usize
        ensures { result ≡ length self.now.entries }
    {
        self.log.len()
    }

    /// Returns what stands at a place of the trace.
    pub fn entry(&self, place: usize) -> &TraceEntry
        requires { place < length self.now.entries }
        ensures { slice_get self.now.entries place ≡ Some result.now }
    {
        self.log.entry(place)
    }

    /// The places of a client's calls and of their answers so far, rising.
    pub fn row(&self, client: usize) -> &[usize]
        requires { client < length N.partitions }
        ensures { result.now ≡ places client 0 self.now.entries }
    {
        self.log.row(client)
    }

    /// Returns where the answer to a request stands in the trace, if it has come. It looks through the row of the
    /// request's client from its end back.
    pub fn answer_place(&self, number: u64) -> Option<usize>
        ensures { MatchOption result (All (IsNoAnswerTo number) (labels_of self.now.entries)) (IsAnswerAt number self.now.entries) }
    {
        self.log.answer_place(number)
    }

    /// A claim on a place of the trace, by the entry there.
    pub fn claim(&mut self, history: &History<TraceEntry, N>, place: usize) -> Claims<TraceEntry, N>
        requires { place < length self.old.entries }
        ensures same { self.new ≡ self.old }
        ensures claim { (e : EntryView) × (slice_get self.old.entries place ≡ Some e) × (result ≡ (place, e) ∷ []) }
    {
        self.log.claim(history, place)
    }

    /// Shows the caller that what was claimed stands in the trace.
    pub fn check(&mut self, history: &History<TraceEntry, N>, claims: &mut Claims<TraceEntry, N>)
        ensures same { (self.new ≡ self.old) × (claims.new ≡ claims.old) }
        ensures stand { AllStand self.old.entries claims.old }
    {
        self.log.check(history, claims)
    }

    /// Shows the caller that the parts of the ledger, once all have come back, have the number of calls.
    pub fn audit(&mut self, all: &mut ledger::Share<N>)
        requires { all.old.parts ≡ N.parts }
        ensures same { self.new ≡ self.old }
        ensures calls { all.new.amount ≡ calls self.old.entries }
        ensures kept { all.new.amount ≡ all.old.amount }
    {
        self.tally.audit(all);
    }

    /// The trace and the rows of all clients.
    pub fn into_rows(self) -> (Vec<TraceEntry>, Vec<Row>)
        ensures rows { AreRowsOf (length N.partitions) self result.0.items result.1.items }
        ensures run { Run N.rules N.start (labels_of result.0.items) self.stack.state }
    {
        let Traced {
            stack: _,
            log,
            slots: _,
            tally: _,
            sizes: _,
        } = self;
        log.into_rows()
    }

    /// Looks once at each slot that has an open request, and carries out each mark that it sees there.
    pub fn look(&mut self, context: &Context<N>)
        ensures looked { AreLooked N.slots self.old self.new }
        ensures no_call { self.new.owners ≡ self.old.owners }
    {
        look_all(&mut self.stack, &mut self.log, &mut self.slots, context);
    }

    /// The piece on a tag that could act, with its SRB.
    pub fn armed(&self, tag: u8) -> Option<(u128, &Srb)>
        ensures { MatchOption result (HasNoneFresh self.now.stack.adapter tag) (λ found. IsArmed self.now.stack.adapter tag found.0 found.1.now) }
    {
        self.stack.armed(tag)
    }

    /// Returns what a read, a write or a flush would open if it were the next event, as [`Stack::admits`].
    pub fn admits(&self, event: &Event) -> Option<(u64, Extent)>
        ensures { result ≡ opened_by self.now.stack event.now }
    {
        self.stack.admits(event)
    }

    /// Books what the act of a tag's piece did, or how it failed, as [`Stack::book`].
    pub fn book(&mut self, tag: u8, piece: u128, what: Booked<'_>)
        ensures books { BooksPiece self.old.stack tag piece (handed self.old.stack.adapter tag piece what.entry) self.new.stack }
        ensures same { self.new ≡ record self.old { stack = self.new.stack } }
    {
        self.stack.book(tag, piece, what);
    }

    /// The sizes of the stack.
    pub fn sizes(&self) -> StackSizes
        ensures sizes { result ≡ sizes_of N.rules }
        ensures some { AreSizes result }
    {
        self.sizes
    }

    /// Returns how many requests were called.
    pub fn calls(&self) -> u64
        ensures { result ≡ length self.now.owners }
    {
        self.log.calls()
    }

    /// Shows the caller that the stack's view fits together, that a run leads to it, and that its adapter is in order.
    pub fn shows_stack(&self)
        ensures whole { FitsTogether self.now.stack }
        ensures reached { IsReached self.now.stack.rules self.now.stack.state }
        ensures in_order { IsInOrder self.now.stack.adapter }
    {
        self.stack.shows_whole();
    }

    /// Carries out a read, a write or a flush, and notes it as a call of the share's client, whichever handle it names.
    /// It is refused as `InsufficientResources`, before any step, where memory for the labels that it may bring is
    /// refused.
    pub fn call(&mut self, context: &Context<N>, share: &mut Share<N>, event: Event) -> Reply
        requires call { is_call_event event ≡ true }
        ensures served { IsServed share.old.client self.old event result self.new }
        ensures counted { HasCounted self.old share.old share.new self.new }
    {
        let client = share.client();
        if make_room(&self.sizes, &mut self.log, &event).is_err() {
            return refused(context.alloc, event);
        }
        if self.log.make_ready(client).is_err() {
            return refused(context.alloc, event);
        }
        let before = self.log.calls();
        let reply = carry(
            &mut self.stack,
            &mut self.log,
            &mut self.slots,
            context,
            ClientEvent { client, event },
        );
        let after = self.log.calls();
        share.count(&mut self.tally, after - before);
        reply
    }

    /// Carries out any event but a call, an open and a close. A query-remove is refused as `InsufficientResources`,
    /// before any step, where memory for its labels is refused.
    pub fn serve(&mut self, context: &Context<N>, event: Event) -> Reply
        requires no_handle { is_handle_event event ≡ false }
        requires no_call { is_call_event event ≡ false }
        ensures served { IsServed 0 self.old event result self.new }
    {
        if matches!(event, Event::QueryRemove)
            && make_room(&self.sizes, &mut self.log, &event).is_err()
        {
            return refused(context.alloc, event);
        }
        carry(
            &mut self.stack,
            &mut self.log,
            &mut self.slots,
            context,
            ClientEvent { client: 0, event },
        )
    }

    /// Takes the waiting answer of a request, whose label stands in the trace. It takes no memory.
    pub fn take_answer(&mut self, number: u64) -> Option<Answer>
        ensures takes { TakesAnswerOf self.old.stack number result self.new.stack }
        ensures same { self.new ≡ record self.old { stack = self.new.stack } }
        ensures stands { IfSome result (λ answer. Contains (labels_of self.old.entries) (as_answer answer)) }
    {
        self.stack.take_answer_of(number)
    }

    /// Shows the caller that the trace of a stack at rest is a run from the state that it was opened with to the state
    /// that the stack shows, each label in its row; that the handles are those that it was opened with; and that a slot
    /// is armed exactly with the open request there.
    pub fn shows_whole(&self)
        ensures { IsTraced N.rules N.start N.partitions N.handles self.now }
    {
        self.stack.shows_whole();
        self.log.shows_rows();
        self.slots.shows_armed();
    }
}
