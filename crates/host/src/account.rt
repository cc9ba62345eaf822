//! What a client has called and was answered.

ghost use Rattle.std.specs.Prelude.{◌≡◌, ◌<◌, ◌≤◌, ◌+◌, ◌-◌, ◌^◌, ◌++◌, ◌↔◌, ℕ, [], IfErr, IfOk, IfSome, IfNone, IsTrue, OnOk, length, true};
ghost use Rattle.chronicle.specs.Claims.{AllStand};
ghost use Rattle.machine.specs.declared.ClientRequest.{ClientRequest};
ghost use Rattle.machine.specs.declared.Label.TheVariants.{Call as CallLabel};
ghost use Rattle.machine_laws.specs.NumberLaws.{CallsCount};
ghost use Rattle.io_manager.specs.Right.{as_answer};
ghost use Rattle.traced.specs.Opening.{IsOpenOn};
ghost use Rattle.host.specs.Accounts.{IsCalled, IsTaken, IsTurnedDown, partition_of};
ghost use Rattle.host.specs.Calls.{AnswerLaws, FindsCall, IsTold, Stands, buffer_of, request_of};
ghost use Rattle.host.specs.Receipts.{none_yet, receipt};
ghost use Rattle.host.specs.Tickets.{HoldsRequest, IsBusy, WasOpen, WasUsedUp};
ghost use Rattle.io_manager.specs.Calls.{are_used_up};
ghost use Rattle.host.specs.Opening.{IsHandleFor};

use crate::call::{Answered, Call, Places, Refusal};
use crate::condvars::Concerned;
use crate::host::Host;
use crate::kept::KeptBook;
use crate::name::HostNaming;
use crate::receipts::Receipts;
use crate::ticket::Ticket;
use chronicle::{Claims, History};
use compose::{Answer, Handle, Reply};
use disk::Medium;
use machine::Label;
use std::alloc::{AllocError, Global};
use std::marker::Model;
use std::sync::Wait;
use std::sync::ledger::Share as Part;
use std::thread;
use traced::{Share, TraceEntry};

/// A client's share of the book, and its receipts.
#[derive(Drop)]
pub(crate) struct Account<N: HostNaming> {
    pub share: Share<N>,
    pub called: Receipts<N>,
    pub answered: Receipts<N>,
}

impl<N: HostNaming> Model for Account<N> {
    ghost use Rattle.host.specs.Accounts.{AccountView, AccountKept};

    ghost Value = { AccountView };

    ghost view = { λ a. record { share = a.share; called = a.called; answered = a.answered } };

    ghost invariant = { λ a. AccountKept N.handles N.partitions a.share a.called.list a.answered.list };
}

/// Shows the caller the laws on the numbers of a run.
pub(crate) fn laws_of_numbers()
    ensures count { CallsCount }
{
    machine_laws::numbers_rise();
}

// The laws of answers.
fn laws_of_answers()
    ensures laws { AnswerLaws }
{
    machine_laws::numbers_are_used_once();
    machine_laws::calls_await_answers();
}

// The place of the first call from a place of the trace on.
fn find_call<N: HostNaming>(book: &KeptBook<N>, from: usize) -> Option<usize>
    ensures finds { FindsCall from book.now.traced.entries result }
    ensures fits { IfSome result (λ place. place + 1 < 2 ^ 64) }
{
    for place in from..book.len() {
        if let Label::Call { .. } = &book.entry(place).label {
            return Some(place);
        }
    }
    None
}

/// A call that waits for its answer: the number of its request, the place of its label, and the receipt of that.
#[derive(Drop)]
struct Awaited<N: HostNaming> {
    number: u64,
    place: usize,
    claim: Claims<TraceEntry, N>,
}

// Carries out a call, and finds its label.
fn carry_call<M: Medium, N: HostNaming, R: Wait>(
    rt: &R,
    host: &Host<M, N>,
    book: &mut KeptBook<N>,
    share: &mut Share<N>,
    call: Call,
) -> (Reply, Option<usize>)
    requires open { IsOpenOn N.handles share.old.handle (partition_of N.partitions share.old.client) }
    ensures late { IfSome result.1 (λ place. length book.old.traced.entries ≤ place) }
    ensures fits { IfSome result.1 (λ place. place + 1 < 2 ^ 64) }
    ensures told { IsTold N.slots share.old share.new (request_of (partition_of N.partitions share.old.client) call) (buffer_of call) book.new.traced result.0 result.1 }
{
    laws_of_numbers();
    host.table.shows_opening();
    book.shows_whole();
    let from = book.len();
    let event = call.on(share.handle());
    let reply = book.call(rt, &host.beside(), share, event);
    book.shows_whole();
    let place = find_call(book, from);
    (reply, place)
}

// Takes the answer of a request whose call stands at this place, and finds the answer's own place.
fn take_answer<M: Medium, N: HostNaming>(
    host: &Host<M, N>,
    book: &mut KeptBook<N>,
    number: u64,
    call: usize,
) -> Option<(usize, Answer)>
    requires called { (q : ClientRequest) × (client : ℕ) × Stands book.old.traced.entries call (CallLabel number q) client }
    ensures entries { book.new.traced.entries ≡ book.old.traced.entries }
    ensures answer { IfSome result (λ r. (r.1.number ≡ number) × (call < r.0) × ((client : ℕ) (q : ClientRequest) → Stands book.old.traced.entries call (CallLabel number q) client → Stands book.old.traced.entries r.0 (as_answer r.1) client)) }
{
    laws_of_answers();
    host.table.shows_opening();
    book.shows_whole();
    let answer = book.take_answer(number)?;
    let Some(place) = book.answer_place(number) else {
        unreachable!()
    };
    Some((place, answer))
}

impl<N: HostNaming> Account<N> {
    /// The account of a client that has called nothing.
    pub(crate) fn new(
        alloc: Global,
        client: usize,
        handle: Handle,
        part: Part<N>,
        called: Claims<TraceEntry, N>,
        answered: Claims<TraceEntry, N>,
    ) -> Account<N>
        requires client { client < length N.partitions }
        requires handle { IsHandleFor N.partitions N.handles client handle }
        requires part { (part.parts ≡ 1) × (part.amount ≡ 0) }
        requires claims { (called ≡ []) × (answered ≡ []) }
        ensures { result ≡ record { share = record { client = client; handle = handle; calls = 0 }; called = none_yet; answered = none_yet } }
    {
        Account {
            share: Share::new(client, handle, part),
            called: Receipts::new(alloc, called),
            answered: Receipts::new(alloc, answered),
        }
    }

    /// Makes the places of a call's two receipts, beside those of the answers that are still to come.
    pub(crate) fn make_places(&mut self, awaited: usize) -> Result<(), AllocError>
        requires { awaited ≤ 64 }
        ensures share { self.new.share ≡ self.old.share }
        ensures lists { (self.new.called.list ≡ self.old.called.list) × (self.new.answered.list ≡ self.old.answered.list) }
        ensures no_less { self.old.answered.room ≤ self.new.answered.room }
        ensures room { OnOk result ((0 < self.new.called.room) × (awaited < self.new.answered.room)) }
    {
        self.called.reserve(1)?;
        self.answered.reserve(awaited + 1)?;
        Ok(())
    }

    // Makes the place of an answer's receipt, unless there is one.
    fn make_place(&mut self) -> Result<(), AllocError>
        ensures share { self.new.share ≡ self.old.share }
        ensures called { self.new.called ≡ self.old.called }
        ensures list { self.new.answered.list ≡ self.old.answered.list }
        ensures no_less { self.old.answered.room ≤ self.new.answered.room }
        ensures room { OnOk result (0 < self.new.answered.room) }
    {
        self.answered.reserve(1)?;
        Ok(())
    }

    /// Waits until there is a place for the receipt of one more answer. For a ticket that is out there is one already.
    pub(crate) fn await_place<R: Wait>(&mut self, rt: &R)
        ensures share { self.new.share ≡ self.old.share }
        ensures called { self.new.called ≡ self.old.called }
        ensures list { self.new.answered.list ≡ self.old.answered.list }
        ensures no_less { self.old.answered.room ≤ self.new.answered.room }
        ensures room { 0 < self.new.answered.room }
    {
        for _ in rt.forever() {
            if self.make_place().is_ok() {
                return;
            }
            thread::yield_now();
        }
        unreachable!()
    }

    // Shows the caller that all receipts stand in the trace.
    fn check_all(&mut self, history: &History<TraceEntry, N>, book: &mut KeptBook<N>)
        ensures same { (book.new ≡ book.old) × (self.new ≡ self.old) }
        ensures calls { AllStand book.old.traced.entries self.old.called.list }
        ensures answers { AllStand book.old.traced.entries self.old.answered.list }
    {
        self.called.check(history, book);
        self.answered.check(history, book);
    }

    /// The part of `issue` that holds the book's lock.
    pub(crate) fn issue_in<M: Medium, R: Wait>(
        &mut self,
        rt: &R,
        host: &Host<M, N>,
        book: &mut KeptBook<N>,
        call: Call,
    ) -> Result<Ticket<N>, Refusal>
        requires room { (0 < self.old.called.room) × (0 < self.old.answered.room) }
        ensures issued { IfOk result (λ t. IsCalled (partition_of N.partitions self.old.share.client) self.old t call self.new) }
        ensures stands { IfOk result (λ t. AllStand book.new.traced.entries t.call) }
        ensures held { IfOk result (λ t. HoldsRequest book.new.traced.stack t.slot t.number) }
        ensures used_up { IfErr result (λ r. IsBusy r → (AllStand book.new.traced.entries self.old.called.list) × (AllStand book.new.traced.entries self.old.answered.list) × (are_used_up book.new.traced.stack.state.next_request ≡ true)) }
        ensures refused { IfErr result (λ r. IsTurnedDown (partition_of N.partitions self.old.share.client) self.old call r self.new) }
    {
        self.called.check(&host.history, book);
        self.answered.check(&host.history, book);
        let client = self.share.client();
        let (reply, place) = carry_call(rt, host, book, &mut self.share, call);
        let Some(place) = place else {
            let Reply::Refused { refusal, bytes } = reply else {
                unreachable!()
            };
            self.check_all(&host.history, book);
            return Err(Refusal::of_stack(refusal, bytes, None));
        };
        let claim = self.called.note(&host.history, book, place);
        match reply {
            Reply::Request(id) => Ok(Ticket {
                client,
                number: id.number,
                place,
                claim,
                slot: id.slot as usize,
                early: None,
            }),
            Reply::Answered(answer) => {
                let number = answer.number;
                let told = book.claim(&host.history, place + 1);
                Ok(Ticket {
                    client,
                    number,
                    place,
                    claim,
                    slot: 0,
                    early: Some((answer, told)),
                })
            }
            Reply::Refused { refusal, bytes } => {
                self.answered.note(&host.history, book, place + 1);
                let places = Places::at_once(place);
                Err(Refusal::of_stack(refusal, bytes, Some(places)))
            }
            Reply::Handle(_) | Reply::Ok | Reply::Ignored => unreachable!(),
        }
    }

    /// Issues a call, and says whom it concerns.
    pub(crate) fn issue_and_note<M: Medium, R: Wait>(
        &mut self,
        rt: &R,
        host: &Host<M, N>,
        book: &mut KeptBook<N>,
        call: Call,
    ) -> (Result<Ticket<N>, Refusal>, Concerned)
        requires room { (0 < self.old.called.room) × (0 < self.old.answered.room) }
        ensures issued { IfOk result.0 (λ t. IsCalled (partition_of N.partitions self.old.share.client) self.old t call self.new) }
        ensures was_open { IfOk result.0 (λ t. WasOpen N.rules N.start N.partitions N.handles t) }
        ensures used_up { IfErr result.0 (λ r. IsBusy r → WasUsedUp N.rules N.start N.partitions N.handles self.old.called.list self.old.answered.list) }
        ensures refused { IfErr result.0 (λ r. IsTurnedDown (partition_of N.partitions self.old.share.client) self.old call r self.new) }
    {
        let from = book.len();
        let issued = self.issue_in(rt, host, book, call);
        book.shows_whole();
        (issued, Concerned::since(book, from))
    }

    /// Waits for the answer to a call of this account.
    pub(crate) fn answer_of<M: Medium, R: Wait>(
        &mut self,
        rt: &R,
        host: &Host<M, N>,
        ticket: Ticket<N>,
    ) -> Answered
        requires ticket { ticket.client ≡ self.old.share.client }
        requires room { 0 < self.old.answered.room }
        ensures taken { IsTaken self.old ticket.number ticket.place result self.new }
    {
        let Ticket {
            number,
            place,
            claim,
            early,
            ..
        } = ticket;
        if let Some((answer, told)) = early {
            return self.keep_answer(&host.history, Places::at_once(place), answer, told);
        }
        let mut awaited = Awaited {
            number,
            place,
            claim,
        };
        let client = self.share.client();
        let mut book = host.book.lock(rt);
        for _ in rt.forever() {
            if let Some(answered) = self.answer_in(host, &mut book, &mut awaited) {
                return answered;
            }
            book = host.condvars.client(client).wait(rt, book);
        }
        unreachable!()
    }

    // The part of `wait` that holds the book's lock.
    fn answer_in<M: Medium>(
        &mut self,
        host: &Host<M, N>,
        book: &mut KeptBook<N>,
        awaited: &mut Awaited<N>,
    ) -> Option<Answered>
        requires claim { (q : ClientRequest) × (awaited.old.claim ≡ receipt awaited.old.place (CallLabel awaited.old.number q) self.old.share.client) }
        requires room { 0 < self.old.answered.room }
        ensures awaited { awaited.new ≡ awaited.old }
        ensures taken { IfSome result (λ answered. IsTaken self.old awaited.old.number awaited.old.place answered self.new) }
        ensures none { IfNone result (self.new ≡ self.old) }
    {
        book.check(&host.history, &mut awaited.claim);
        let call = awaited.place;
        let (place, answer) = take_answer(host, book, awaited.number, call)?;
        let told = book.claim(&host.history, place);
        let places = Places {
            call,
            answer: place,
        };
        Some(self.keep_answer(&host.history, places, answer, told))
    }

    // Keeps the receipt of an answer that stands in the trace.
    fn keep_answer(
        &mut self,
        history: &History<TraceEntry, N>,
        places: Places,
        answer: Answer,
        claim: Claims<TraceEntry, N>,
    ) -> Answered
        requires claim { claim ≡ receipt places.answer (as_answer answer) self.old.share.client }
        requires room { 0 < self.old.answered.room }
        ensures result { result ≡ record { answer = answer; places = places } }
        ensures share { (self.new.share ≡ self.old.share) × (self.new.called ≡ self.old.called) }
        ensures kept { self.new.answered ≡ record { list = self.old.answered.list ++ claim; room = self.old.answered.room - 1 } }
    {
        self.answered.keep(history, places.answer, claim);
        Answered { answer, places }
    }
}
