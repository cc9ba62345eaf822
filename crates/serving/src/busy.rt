//! A session over a stack whose requests are served side by side.

ghost use Rattle.std.specs.Prelude.{◌≡◌, None, Some, slice_get, if◌then◌else◌, IfErr, IfSome, IsFalse, OnOk};
ghost use Rattle.nbd.specs.Handshake.{EndsUnasked, Opens};
ghost use Rattle.nbd.specs.Desks.{GoesOn};
ghost use Rattle.nbd.specs.declared.beside.Happening.TheVariants.{Answered};
ghost use Rattle.read_ahead.specs.Standing.{behind};
ghost use Rattle.serving.specs.inside.Busy.{AnswersBy, Begins, BeginsAs, Calls, GoesOnAt, Hears, IsCalm, IsFreePlace, Proceeds, Steps, filled, left_of};
ghost use Rattle.serving.specs.inside.Since.{SinceFirst};

use crate::doors::{Arrival, Door, Lent};
use crate::dues::{
    Due, Ready, Stage, answer_of, are_free, find_due, first_event, free_slot, has_more, next_event,
    put, ready_at, stage_of,
};
use crate::engine::Engine;
use chronicle::Naming as AskNaming;
use compose::{Answer as StackAnswer, Handle};
use file_disk::Storage;
use movers::Done;
use nbd::{Ahead, Answer, Command, Desk, End, Happening, Incoming, LONGEST, ReplyError, Sizes};
use read_ahead::Naming;
use std::alloc::Global;
use std::io::Write;
use std::marker::Model;
use std::mem;
use std::sync::Wait;
use std::time::Clock;

/// The owner of a stack, which has its client's requests served side by side.
#[derive(Drop)]
pub(crate) struct Busy<
    N: AskNaming,
    J: Naming,
    H: Copy + Drop,
    S: Storage + Drop,
    I: Ahead + Drop,
> {
    pub(crate) alloc: Global,
    pub(crate) rt: H,
    pub(crate) engine: Engine<N, H, S>,
    pub(crate) door: Door<N, J, H, I>,
    pub(crate) handle: Handle,
    /// A place for each request that may be read before those in front of it are answered.
    pub(crate) slots: Vec<Option<Due>>,
    /// An answer that is told next.
    pub(crate) ready: Option<Ready>,
    /// How many requests were read.
    pub(crate) read: u64,
    /// A sync failed while the requests in front of this place were out.
    pub(crate) spoiled: u64,
    /// The bytes of the reads and writes in the slots.
    pub(crate) bytes: u64,
    /// Memory for the bytes of a request.
    pub(crate) kept: Vec<u8>,
    /// Whether all that was written is passed on.
    pub(crate) passed_on: bool,
}

impl<N: AskNaming, J: Naming, H: Copy + Drop, S: Storage + Drop, I: Ahead + Drop> Model
    for Busy<N, J, H, S, I> {
    ghost use Rattle.serving.specs.inside.Since.{BusyView};

    ghost Value = { BusyView };

    ghost view = { λ b. record { engine = b.engine; handle = b.handle; sizes = b.door.sizes; slots = b.slots.items; ready = b.ready; read = b.read; spoiled = b.spoiled; left = b.door.left } };
}

/// The bytes that a command reads or writes, and that are held for it.
fn held_by(command: Command) -> u64 {
    match command {
        Command::Read { count, .. } | Command::Write { count, .. } => count as u64,
        Command::Flush | Command::WriteZeroes { .. } => 0,
    }
}

impl<
    N: AskNaming,
    J: Naming,
    H: Wait + Clock + Copy + Drop,
    S: Storage + Drop,
    I: Ahead + Drop,
> Busy<N, J, H, S, I> {
    /// Greets the client, and answers its options.
    ///
    /// # Errors
    ///
    /// How the session ended before its requests.
    pub(crate) fn begin<W: Write>(&mut self, lent: Lent<J, I>, out: &mut W) -> Result<(), End>
        requires { behind lent J.given ≡ self.old.left }
        ensures opened { OnOk result (Opens self.old.sizes self.old.left (W.contents out.old) self.new.left (W.contents out.new)) }
        ensures ended { IfErr result (λ end. EndsUnasked self.old.sizes self.old.left (W.contents out.old) end (W.contents out.new)) }
        ensures same { self.new ≡ record self.old { left = self.new.left } }
    {
        self.door.begin(lent, out)
    }

    /// Whether the client sent nothing.
    pub(crate) fn is_unread(&self) -> bool {
        self.door.is_unread()
    }

    /// Tells an answer, moves pieces, or reads a request or waits, and says what happened, if anything did.
    #[tactic(auto, using(crate::proofs::Since::tells_steps))]
    fn step(&mut self) -> Option<Happening>
        ensures { Steps self.old result self.new }
    {
        match self.ready.take() {
            Some(ready) => Some(self.tells(ready)),
            None => self.hears(),
        }
    }

    /// Says that a request is answered.
    fn tells(&mut self, ready: Ready) -> Happening
        ensures said { result ≡ Answered ready.place ready.cookie ready.answer }
        ensures same { self.new ≡ self.old }
    {
        self.passed_on = false;
        Happening::Answered {
            place: ready.place,
            cookie: ready.cookie,
            answer: ready.answer,
        }
    }

    /// Hears the next answer of the stack, or goes on.
    #[tactic(auto, using(crate::proofs::Since::takes_steps, crate::proofs::Since::steps_from))]
    fn hears(&mut self) -> Option<Happening>
        requires { self.old.ready ≡ None }
        ensures { Steps self.old result self.new }
    {
        match self.engine.take_answer() {
            Some(answer) => self.hear(answer),
            None => self.goes_on(),
        }
    }

    /// Moves pieces, or reads a request or waits.
    #[tactic(auto, using(crate::proofs::Since::steps_more))]
    fn goes_on(&mut self) -> Option<Happening>
        requires { IsCalm self.old }
        ensures { Steps self.old result self.new }
    {
        if let Some(happening) = self.ends() {
            return Some(happening);
        }
        self.reads_on();
        if self.moves() {
            return None;
        }
        self.read_or_wait()
    }

    /// Hears what the stack answered to a request.
    #[tactic(auto, using(crate::proofs::Since::hears_none, crate::proofs::Since::hears_more, crate::proofs::Since::hears_answer))]
    fn hear(&mut self, answer: StackAnswer) -> Option<Happening>
        requires { self.old.ready ≡ None }
        ensures { Hears self.old answer result self.new }
    {
        let (at, due) = find_due(self.slots.as_slice(), answer.number)?;
        if has_more(&due, answer.status) {
            self.go_on(at, due);
            return None;
        }
        Some(self.answer(at, due, answer))
    }

    /// Answers a request by what the stack answered.
    #[tactic(auto, using(crate::proofs::Since::answers_by))]
    fn answer(&mut self, at: usize, due: Due, answer: StackAnswer) -> Happening
        requires { slice_get self.old.slots at ≡ Some (Some due) }
        ensures { AnswersBy self.old at due answer result self.new }
    {
        let spoiled = due.place < self.spoiled;
        let (answer, spare) = answer_of(&due, self.engine.is_full(), spoiled, answer);
        self.keep(spare);
        put(&mut self.slots, at, None);
        self.bytes = self.bytes.saturating_sub(held_by(due.command));
        self.passed_on = false;
        Happening::Answered {
            place: due.place,
            cookie: due.cookie,
            answer,
        }
    }

    /// Keeps memory for a later request.
    fn keep(&mut self, spare: Option<Vec<u8>>)
        ensures { self.new ≡ self.old }
    {
        if let Some(spare) = spare {
            self.kept = spare;
        }
    }

    /// Asks the stack to write the next zeros of a request.
    fn go_on(&mut self, at: usize, due: Due)
        ensures { GoesOnAt self.old at due self.new }
    {
        let stage = self.next_stage(due);
        self.fill(at, stage);
    }

    /// Asks the stack to write the next zeros of a request, and returns where it stands behind that.
    fn next_stage(&mut self, due: Due) -> Stage
        ensures { Proceeds self.old due result self.new }
    {
        let Some((event, done)) = next_event(self.alloc, self.handle, &due) else {
            return ready_at(due, Answer::Refused(ReplyError::Enomem));
        };
        let reached = self.engine.ask(event);
        stage_of(Due { done, ..due }, self.engine.is_full(), reached)
    }

    /// Notes where the request of a slot stands.
    fn fill(&mut self, at: usize, stage: Stage)
        ensures { self.new ≡ filled self.old at stage }
    {
        match stage {
            Stage::Waits(due) => {
                self.bytes = self.bytes.saturating_add(held_by(due.command));
                put(&mut self.slots, at, Some(due));
                self.ready = None;
            }
            Stage::Ready(ready) => {
                put(&mut self.slots, at, None);
                self.ready = Some(ready);
            }
        }
    }

    /// Lets the thread read a long write that comes next, while a piece is moved here.
    fn reads_on(&mut self)
        ensures { self.new ≡ self.old }
    {
        if self.door.is_long() && self.place().is_some() {
            self.door.lend_on(&mut self.kept);
        }
    }

    /// Moves pieces, or hands them out. It says whether one has come back.
    #[tactic(auto, using(crate::proofs::Since::engine_steps, crate::proofs::Since::hands_step, crate::proofs::Since::hands_calm))]
    fn moves(&mut self) -> bool
        requires { IsCalm self.old }
        ensures steps { Steps self.old None self.new }
        ensures calm { IsFalse result → IsCalm self.new }
    {
        match self.engine.moves() {
            Some(failed) => {
                self.spoil(failed);
                true
            }
            None => false,
        }
    }

    /// Notes whether a sync failed while the requests that were read so far are out.
    fn spoil(&mut self, failed: bool)
        ensures { self.new ≡ record self.old { spoiled = if failed then self.old.read else self.old.spoiled } }
    {
        if failed {
            self.spoiled = self.read;
        }
    }

    /// Has a request that was read carried out.
    fn call(&mut self, at: usize, incoming: Incoming)
        requires { IsFreePlace self.old at }
        ensures { Calls self.old at incoming self.new }
    {
        let Incoming {
            request,
            asked,
            payload,
        } = incoming;
        let due = Due {
            place: self.read,
            cookie: request.cookie,
            command: Command::Flush,
            done: 0,
            number: 0,
        };
        self.read += 1;
        let stage = self.first_stage(due, asked, payload);
        self.fill(at, stage);
    }

    /// Asks the stack for what a request asks for first, and returns where it stands behind that.
    fn first_stage(
        &mut self,
        due: Due,
        asked: Result<Command, ReplyError>,
        payload: Vec<u8>,
    ) -> Stage
        ensures { BeginsAs self.old due asked payload.items result self.new }
    {
        match asked {
            Ok(command) => self.start(Due { command, ..due }, payload),
            Err(error) => ready_at(due, Answer::Refused(error)),
        }
    }

    /// Asks the stack for what a request's command says first.
    fn start(&mut self, due: Due, payload: Vec<u8>) -> Stage
        ensures { Begins self.old due payload.items result self.new }
    {
        let Some((event, done)) = first_event(self.alloc, self.handle, due.command, payload) else {
            return ready_at(due, Answer::Refused(ReplyError::Enomem));
        };
        let reached = self.engine.ask(event);
        stage_of(Due { done, ..due }, self.engine.is_full(), reached)
    }

    /// Returns a slot for one more request, if it may be read: at most as many as there are slots, and reads and writes
    /// of at most 64 MiB in all, aren't answered.
    fn place(&self) -> Option<usize>
        ensures { IfSome result (IsFreePlace self.now) }
    {
        if self.bytes > LONGEST as u64 || self.read == u64::MAX {
            return None;
        }
        free_slot(self.slots.as_slice())
    }

    /// Reads a request here, if one more may be read.
    #[tactic(auto, using(crate::proofs::Since::steps_none, crate::proofs::Since::reads_steps))]
    fn read_here(&mut self) -> Option<Happening>
        requires { IsCalm self.old }
        ensures { Steps self.old result self.new }
    {
        let at = self.place()?;
        let kept = mem::replace(&mut self.kept, Vec::new(self.alloc));
        let incoming = self.door.read_here(kept)?;
        self.call(at, incoming);
        Some(Happening::Read)
    }

    /// Waits for a request, or for what came of a piece.
    #[tactic(auto, using(crate::proofs::Since::steps_none, crate::proofs::Since::reads_steps))]
    fn wait(&mut self) -> Option<Happening>
        requires { IsCalm self.old }
        ensures { Steps self.old result self.new }
    {
        let Some(at) = self.place() else {
            return self.wait_alone();
        };
        self.door.lend_on(&mut self.kept);
        match self.door.wait() {
            Arrival::Request(incoming) => {
                self.call(at, incoming);
                Some(Happening::Read)
            }
            Arrival::Done(done) => {
                self.book(done);
                None
            }
            Arrival::Nothing => None,
        }
    }

    /// Waits for what came of a piece, while no request is read.
    #[tactic(auto, using(crate::proofs::Since::steps_none))]
    fn wait_alone(&mut self) -> Option<Happening>
        requires { IsCalm self.old }
        ensures { Steps self.old result self.new }
    {
        if let Some(done) = self.door.wait_alone() {
            self.book(done);
        }
        None
    }

    /// Books what came of a piece.
    #[tactic(auto, using(crate::proofs::Since::engine_steps))]
    fn book(&mut self, done: Done<N>)
        requires { IsCalm self.old }
        ensures { Steps self.old None self.new }
    {
        let failed = self.engine.book(done);
        self.spoil(failed);
    }

    /// Reads a request that is there, or waits.
    #[tactic(auto, using(crate::proofs::Since::idle_steps))]
    fn read_or_wait(&mut self) -> Option<Happening>
        requires { IsCalm self.old }
        ensures { Steps self.old result self.new }
    {
        if self.rests() {
            self.passed_on = true;
            return Some(Happening::Idle);
        }
        if self.reads_here() {
            self.read_here()
        } else {
            self.wait()
        }
    }

    /// Whether nothing comes for now, and what was written is to be passed on.
    fn rests(&self) -> bool {
        let reads = self.door.is_whole() && self.place().is_some();
        !self.passed_on && !reads && !self.door.has_mail()
    }

    /// Whether a request is read here next: a whole one has come, or nothing else is waited for. Where none may be read,
    /// what comes of pieces is waited for.
    fn reads_here(&self) -> bool {
        let awaited = self.door.is_whole() || self.engine.is_idle();
        awaited && self.door.is_here() && self.place().is_some()
    }

    /// Tells the client's end, once all is answered.
    #[tactic(auto, using(crate::proofs::Since::ends_steps))]
    fn ends(&self) -> Option<Happening>
        requires { IsCalm self.now }
        ensures { IfSome result (λ happening. GoesOn left_of SinceFirst self.now happening self.now) }
    {
        let end = self.door.end()?;
        if !are_free(self.slots.as_slice()) {
            return None;
        }
        Some(Happening::Ended(end))
    }
}

impl<
    N: AskNaming,
    J: Naming,
    H: Wait + Clock + Copy + Drop,
    S: Storage + Drop,
    I: Ahead + Drop,
> Desk for Busy<N, J, H, S, I> {
    ghost use Rattle.serving.specs.inside.Busy.{left_of};
    ghost use Rattle.serving.specs.inside.Since.{SinceFirst};

    ghost remaining = { λ b. left_of b };

    ghost Since = { λ first a now. SinceFirst first a now };

    #[tactic(auto, using(crate::proofs::Since::steps_none, crate::proofs::Since::steps_more))]
    fn next(&mut self) -> Happening {
        let rt = self.rt;
        for _ in rt.forever() {
            if let Some(happening) = self.step() {
                return happening;
            }
        }
        unreachable!()
    }

    #[tactic(auto, using(crate::proofs::Since::keeps_same))]
    fn take_back(&mut self, bytes: Vec<u8>) {
        self.kept = bytes;
    }
}
