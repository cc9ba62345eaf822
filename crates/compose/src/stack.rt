//! The stack over an adapter: what its user calls.

ghost use Rattle.std.specs.Prelude.{◌≡◌, [], IfOk, IfErr, IsTrue, MatchOption, MatchResult, Some, option_copied};
ghost use Rattle.srb.specs.declared.Kind.TheVariants.{Flush};
ghost use Rattle.adapter.specs.View.{IsInOrder};
ghost use Rattle.adapter.specs.Calls.{HasNoneFresh};
ghost use Rattle.adapter.specs.Booking.{IsArmed, handed};
ghost use Rattle.machine.specs.Rules.{sectors_of};
ghost use Rattle.machine.specs.Settled.{Settled, IsFinished};
ghost use Rattle.machine_laws.specs.Reached.{IsReached};
ghost use Rattle.probe.specs.Exchange.{IsIdle};
ghost use Rattle.io_manager.specs.Right.{BooksPiece, FitsTogether, IsNextAnswer, Refuses, TakesAnswer, TakesAnswerOf};
ghost use Rattle.io_manager.specs.Right.{TakesShown, TakesLabel as TakesFirst};
ghost use Rattle.compose.specs.Right.{IsRight, StepsUntraced, opened_by};
ghost use Rattle.compose.specs.Opening.{IsFirstView, IsSpent};
ghost use Rattle.compose.specs.Runs.{CarriesAll, IsLawful, StopsAfter};

use crate::start::{Manager, adapter_below, manager_over};
use crate::{
    Answer, Asked, Event, Handle, NotStarted, Refusal, Reply, RunStopped, Settings, Shown, events,
};
use adapter::Adapter;
use device::Label;
use sector::Extent;
use srb::{Booked, Srb};
use std::alloc::Global;
use std::marker::Model;

/// The device stack of one disk, with its handles and requests: partitions over a hold filter, the class driver of the
/// disk, and a port.
pub struct Stack<A: Adapter> {
    manager: Manager<A>,
}

// By hand, so that no crate above proves it again, as it would a derived one.
impl<A: Adapter> Drop for Stack<A> {
    fn drop(self) {
        let Stack { manager: _ } = self;
    }
}

impl<A: Adapter> Model for Stack<A> {
    ghost use Rattle.std.specs.Prelude.{IsTrue};
    ghost use Rattle.io_manager.specs.Shown.{ManagerView};

    ghost Value = { ManagerView };

    ghost view = { λ s. s.manager };

    ghost invariant = { λ s. IsTrue s.manager.keeps };
}

impl<A: Adapter> Stack<A> {
    /// A stack over an adapter that has accepted nothing, with the partitions of the table in sector 0. It sends READ
    /// CAPACITY(10) and, where that can't tell the number of sectors, READ CAPACITY(16). Then it sends READ(10) of
    /// sector 0. It takes the labels of all these.
    ///
    /// # Errors
    ///
    /// [`crate::StartFault`] says why: `Settings` just where a setting is out of range, before anything is sent; `Device`
    /// where the adapter failed a command; `Mbr` where the partition table is wrong; `NoMemory`. The adapter comes back
    /// as those of these commands left it that were sent.
    ///
    /// # Example
    ///
    /// ```
    /// let settings = Settings {
    ///     window: 2,
    ///     open_requests: 4,
    /// };
    /// match Stack::start(alloc, adapter, settings) {
    ///     Ok(stack) => Ok(stack),
    ///     Err(why) => match why.fault {
    ///         StartFault::NoMemory => Err(AllocError),
    ///         fault => panic!(rt; "{fault:?}"),
    ///     },
    /// }
    /// ```
    pub fn start(alloc: Global, adapter: A, settings: Settings) -> Result<Stack<A>, NotStarted<A>>
        requires idle { IsIdle (A.view adapter) }
        requires unasked { (A.view adapter).accepted ≡ 0 }
        ensures view { IfOk result (IsFirstView (A.view adapter) settings) }
        ensures fault { IfErr result (λ why. IsSpent (A.view adapter) settings why.fault (A.view why.adapter)) }
    {
        match manager_over(alloc, adapter, settings) {
            Ok(manager) => Ok(Stack { manager }),
            Err(why) => Err(why),
        }
    }

    /// Gives the adapter back, as it is, with what is on its tags. The handles, the open requests and the answers that
    /// nobody took are gone.
    pub fn into_adapter(self) -> A
        ensures { A.view result ≡ self.adapter }
    {
        let Stack { manager } = self;
        adapter_below(manager.into_device())
    }

    /// Carries out one event; its labels and answers then wait to be taken. All labels of the step before have to be
    /// taken. Only a read, a write or a flush takes memory, before anything is changed but what the adapter has
    /// reserved for a write.
    ///
    /// # Example
    ///
    /// ```
    /// let reply = carrier.step(alloc, event);
    /// let mut labels = Vec::new(alloc);
    /// while let Some(label) = carrier.take_label() {
    ///     labels.push(label)?;
    /// }
    /// ```
    pub fn step(&mut self, alloc: Global, event: Event) -> Reply
        requires taken { self.old.labels ≡ [] }
        ensures right { IsRight self.old event result self.new }
        ensures settled { Settled self.new.rules self.new.state }
        ensures finished { IsFinished self.new.state }
        ensures whole { FitsTogether self.new }
    {
        events::step(&mut self.manager, alloc, event)
    }

    /// Carries out one event as [`Stack::step`] does, and forgets its labels: no bytes are copied for them.
    pub fn step_untraced(&mut self, alloc: Global, event: Event) -> Reply
        requires taken { self.old.labels ≡ [] }
        ensures untraced { StepsUntraced self.old event result self.new }
        ensures settled { Settled self.new.rules self.new.state }
        ensures finished { IsFinished self.new.state }
        ensures whole { FitsTogether self.new }
    {
        events::step_untraced(&mut self.manager, alloc, event)
    }

    /// Carries out a read, a write or a flush without its buffer, where it is refused before it asks for memory, and
    /// returns the refusal: the step is that of the call with any buffer of this length. `None`, with nothing changed,
    /// where the call would not be refused so.
    pub fn refuse(&mut self, alloc: Global, handle: Handle, asked: Asked) -> Option<Refusal>
        requires taken { self.old.labels ≡ [] }
        requires plain { asked.kind ≡ Flush → (asked.offset ≡ 0) × (asked.length ≡ 0) }
        ensures right { MatchOption result (self.new ≡ self.old)
            (λ refusal. Refuses self.old handle asked refusal self.new) }
    {
        self.manager.refuse(alloc, handle, asked)
    }

    /// Returns what a read, a write or a flush would open if it were the next event: the number of pieces that its
    /// request is cut into, and its sectors of the disk, in order. A flush has one piece, and an empty extent where its
    /// partition begins. It takes no memory.
    ///
    /// `None` where it would be refused or asks for no bytes, once request numbers are used up, and for every other
    /// event. A step of the event then opens just this, unless memory is refused ([`crate::steps_open_as_told`]).
    pub fn admits(&self, event: &Event) -> Option<(u64, Extent)>
        ensures { result ≡ opened_by self.now event.now }
    {
        events::admits(&self.manager, event)
    }

    /// Bytes of a sector of the disk.
    pub fn sector_size(&self) -> u64
        ensures { result ≡ self.now.rules.sector_size }
    {
        self.manager.sector_size()
    }

    /// Tags of the adapter.
    pub fn depth(&self) -> u8
        ensures { result ≡ self.now.rules.depth }
    {
        self.manager.depth()
    }

    /// Sectors of a partition, counted from 0. There are none where there is no such partition.
    pub fn sectors(&self, partition: u8) -> u64
        ensures { result ≡ sectors_of self.now.rules (Some partition) }
    {
        self.manager.sectors(partition)
    }

    /// The piece on a tag that could act, with its SRB.
    pub fn armed(&self, tag: u8) -> Option<(u128, &Srb)>
        ensures { MatchOption result (HasNoneFresh self.now.adapter tag)
            (λ found. IsArmed self.now.adapter tag found.0 found.1.now) }
    {
        self.manager.armed(tag)
    }

    /// Books what the act of a tag's piece did, or how it failed, with an adapter whose sectors stand elsewhere: the
    /// next `Act` of the tag is that. It takes no memory, and changes nothing of the machine. It does nothing where
    /// this piece isn't on the tag, has acted or failed, or didn't ask for what is to be booked.
    pub fn book(&mut self, tag: u8, piece: u128, what: Booked<'_>)
        ensures { BooksPiece self.old tag piece (handed self.old.adapter tag piece what.entry) self.new }
    {
        self.manager.book(tag, piece, what);
    }

    /// Shows the caller that what is shown between two steps is settled and fits together, that a removal with no
    /// request open has ended, and that a run leads to it.
    pub fn shows_whole(&self)
        ensures settled { Settled self.now.rules self.now.state }
        ensures finished { IsFinished self.now.state }
        ensures whole { FitsTogether self.now }
        ensures reached { IsReached self.now.rules self.now.state }
        ensures in_order { IsInOrder self.now.adapter }
    {
        self.manager.shows_whole()
    }

    /// Takes the earliest label of the last step that was not taken yet, as memory has it: its bytes are there where
    /// labels keep theirs, and else none.
    pub fn take_shown(&mut self) -> Option<Label>
        ensures { TakesShown self.old result self.new }
    {
        self.manager.take_shown()
    }

    /// Takes the earliest label of the last step that was not taken yet, with its bytes.
    pub fn take_label(&mut self) -> Option<Label>
        requires bytes { IsTrue self.old.rules.keeps_bytes }
        ensures { TakesFirst self.old result self.new }
    {
        self.manager.take_label()
    }

    /// The waiting answer with the lowest number, which [`Stack::take_answer`] takes next.
    pub fn first_answer(&self) -> Option<&Answer>
        ensures { IsNextAnswer self.now (option_copied result) }
    {
        self.manager.first_answer()
    }

    /// Takes the waiting answer with the lowest number. Answers wait from step to step, one for each `Answer` label of
    /// a request that was open.
    ///
    /// # Example
    ///
    /// ```
    /// match carrier.take_answer() {
    ///     Some(answer) => tell_answer(&mut text, answer)?,
    ///     None => break,
    /// }
    /// ```
    pub fn take_answer(&mut self) -> Option<Answer>
        ensures { TakesAnswer self.old result self.new }
    {
        self.manager.take_answer()
    }

    /// Takes the waiting answer of a number.
    pub fn take_answer_of(&mut self, number: u64) -> Option<Answer>
        ensures { TakesAnswerOf self.old number result self.new }
    {
        self.manager.take_answer_of(number)
    }

    /// Carries out events one after another, and gives the reply and the labels of each, with their bytes, which are
    /// then taken. All labels of the step before have to be taken.
    ///
    /// # Errors
    ///
    /// [`RunStopped`] where memory for the result was refused: just the first `done` events were carried out, and not
    /// all; the others are dropped, with their bytes.
    pub fn run(&mut self, alloc: Global, events: Vec<Event>) -> Result<Vec<Shown>, RunStopped>
        requires taken { self.old.labels ≡ [] }
        requires bytes { IsTrue self.old.rules.keeps_bytes }
        ensures carries { MatchResult result (λ shown. CarriesAll self.old events.items shown.items self.new)
            (λ stopped. StopsAfter self.old events.items stopped self.new) }
        ensures lawful { MatchResult result (λ shown. IsLawful self.old shown.items self.new)
            (λ stopped. IsLawful self.old stopped.shown.items self.new) }
        ensures taken { self.new.labels ≡ [] }
        ensures settled { Settled self.new.rules self.new.state }
        ensures finished { IsFinished self.new.state }
        ensures whole { FitsTogether self.new }
    {
        events::run(&mut self.manager, alloc, events)
    }
}
