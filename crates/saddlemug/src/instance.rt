//! What C holds, and the calls on it.

ghost use Rattle.std.specs.Prelude.{◌≡◌, ◌≢◌, ◌*◌, ⊤, Err, length, IfErr, IfOk, MatchBool, MatchResult};
ghost use Rattle.volume.specs.Calls.{AreInBounds, IsFault, IsSameDisk, IsToldAsAnswered, Reads, WasSent, Writes, flush_of, read_of, write_of};
ghost use Rattle.saddlemug.specs.Calls.{IsReadFault, IsWriteFault, TellsRun};
ghost use Rattle.ntstatus.specs.declared.NtStatus.TheVariants.{InvalidDeviceRequest, Success};
ghost use Rattle.referee.specs.Taking.{LeavesNothing};
ghost use Rattle.saddlemug.specs.Holding.{IfInMemory, IfOver, IsAnyJudge, IsAnyStack, IsAnyVolume, IsJudge, IsOver, IsStack, IsVolume, places_in};
ghost use Rattle.saddlemug.specs.Judged.{TakesLabel, TakesText, TellsWhy};
ghost use Rattle.saddlemug.specs.Over.{BooksTold, IsArmedStatus, IsBookStatus, TellsArmed};
ghost use Rattle.saddlemug.specs.Stepping.{IsNotStepped, IsStepStatus, ShowsAnswer, Steps, TellsAnswer, TellsAnswerOf, TellsLabel};

use crate::asked::StackArmed;
use crate::booking::StackBooking;
use crate::events::{StackEvent, StackReply};
use crate::judged::{take_label, take_text, tell_why};
use crate::labels::{StackAnswer, StackLabel};
use crate::memory_stack::MemoryStack;
use crate::memory_volume::MemoryVolume;
use crate::over::Over;
use crate::volume_calls::DiskRun;
use ntstatus::NtStatus;
use referee::Referee;
use std::alloc::Global;
use volume::{Error, Sizes};

/// What C holds.
#[derive(Drop)]
pub enum Instance {
    /// One partition as an array of bytes, over a stack of its own.
    Volume(MemoryVolume),
    /// A whole stack, event by event.
    Stack(MemoryStack),
    /// A stack over storage of C's own.
    Over(Over),
    /// A judge of runs.
    Judge(Referee),
}

impl Instance {
    /// The sizes of the volume.
    pub fn sizes(&self) -> Sizes
        requires { IsAnyVolume self.now }
        ensures sector_size { IsVolume (λ v. result.sector_size ≡ v.content.sector_size) self.now }
        ensures sectors { IsVolume (λ v. result.sectors * result.sector_size ≡ length v.content.bytes) self.now }
    {
        match self {
            Instance::Volume(volume) => volume.sizes(),
            Instance::Stack(_) | Instance::Over(_) | Instance::Judge(_) => unreachable!(),
        }
    }

    /// How many bytes of the volume are alike, as [`MemoryVolume::run`].
    pub fn run(&self, offset: u64, count: u64) -> DiskRun
        requires { IsAnyVolume self.now }
        ensures { IsVolume (λ v. TellsRun v.content offset count result) self.now }
    {
        match self {
            Instance::Volume(volume) => volume.run(offset, count),
            Instance::Stack(_) | Instance::Over(_) | Instance::Judge(_) => unreachable!(),
        }
    }

    /// Reads from the volume, as [`MemoryVolume::read`].
    ///
    /// # Errors
    ///
    /// As [`MemoryVolume::read`].
    pub fn read(&mut self, alloc: Global, offset: u64, buffer: &mut [u8]) -> Result<(), Error>
        requires { IsAnyVolume self.old }
        ensures held { IsAnyVolume self.new }
        ensures reads { IsVolume (λ v. MatchResult result (λ _. Reads v.content offset (length buffer.old) buffer.new) (IsReadFault v offset (length buffer.old))) self.old }
        ensures answered { IsVolume (λ old. IsVolume (λ new. IsToldAsAnswered old (read_of old offset (length buffer.old)) result new) self.new) self.old }
        ensures sent { IsVolume (λ old. IsVolume (λ new. IfErr result (WasSent old new)) self.new) self.old }
        ensures as_it_was { IfErr result (λ _. buffer.new ≡ buffer.old) }
        ensures same { IsVolume (λ old. IsVolume (IsSameDisk old) self.new) self.old }
    {
        match self {
            Instance::Volume(volume) => volume.read(alloc, offset, buffer),
            Instance::Stack(_) | Instance::Over(_) | Instance::Judge(_) => unreachable!(),
        }
    }

    /// Writes to the volume, as [`MemoryVolume::write`].
    ///
    /// # Errors
    ///
    /// As [`MemoryVolume::write`].
    pub fn write(
        &mut self,
        alloc: Global,
        offset: u64,
        bytes: &[u8],
        through: bool,
    ) -> Result<(), Error>
        requires { IsAnyVolume self.old }
        ensures held { IsAnyVolume self.new }
        ensures in_bounds { IsVolume (λ v. IfOk result (λ _. AreInBounds v.content offset (length bytes.now))) self.old }
        ensures writes { IsVolume (λ old. IsVolume (λ new. MatchResult result (λ _. Writes old offset bytes.now new) (λ fault. IsWriteFault old offset bytes.now fault new)) self.new) self.old }
        ensures answered { IsVolume (λ old. IsVolume (λ new. IsToldAsAnswered old (write_of old offset bytes.now through) result new) self.new) self.old }
        ensures sent { IsVolume (λ old. IsVolume (λ new. IfErr result (WasSent old new)) self.new) self.old }
    {
        match self {
            Instance::Volume(volume) => volume.write(alloc, offset, bytes, through),
            Instance::Stack(_) | Instance::Over(_) | Instance::Judge(_) => unreachable!(),
        }
    }

    /// Flushes the disk's caches, as [`MemoryVolume::flush`].
    ///
    /// # Errors
    ///
    /// As [`MemoryVolume::flush`].
    pub fn flush(&mut self, alloc: Global) -> Result<(), Error>
        requires { IsAnyVolume self.old }
        ensures held { IsAnyVolume self.new }
        ensures flushes { IsVolume (λ v. IfErr result (IsFault v ⊤)) self.old }
        ensures answered { IsVolume (λ old. IsVolume (λ new. IsToldAsAnswered old (flush_of old) result new) self.new) self.old }
        ensures sent { IsVolume (λ old. IsVolume (λ new. IfErr result (WasSent old new)) self.new) self.old }
        ensures same { IsVolume (λ old. IsVolume (IsSameDisk old) self.new) self.old }
    {
        match self {
            Instance::Volume(volume) => volume.flush(alloc),
            Instance::Stack(_) | Instance::Over(_) | Instance::Judge(_) => unreachable!(),
        }
    }

    /// Carries an event out on the stack, as [`MemoryStack::step`].
    ///
    /// # Errors
    ///
    /// As [`MemoryStack::step`].
    pub fn step(
        &mut self,
        alloc: Global,
        event: &StackEvent,
        bytes: &[u8],
    ) -> Result<StackReply, NtStatus>
        requires { IsAnyStack self.old }
        ensures held { IsAnyStack self.new }
        ensures steps { IsStack (λ old. IsStack (λ new. MatchResult result (λ told. Steps old event.now bytes.now told new) (λ _. IsNotStepped old new)) self.new) self.old }
        ensures places { places_in self.new ≡ places_in self.old }
        ensures fault { IfErr result (λ status. status ≢ Success) }
        ensures why { IfErr result (IsStepStatus event.now bytes.now) }
    {
        match self {
            Instance::Stack(stack) => stack.step(alloc, event, bytes),
            Instance::Over(over) => over.step(alloc, event, bytes),
            Instance::Volume(_) | Instance::Judge(_) => unreachable!(),
        }
    }

    /// Takes the stack's next label, as [`MemoryStack::next_label`].
    pub fn next_label(&mut self, buffer: &mut [u8]) -> Option<StackLabel>
        requires { IsAnyStack self.old }
        ensures held { IsAnyStack self.new }
        ensures told { IsStack (λ old. IsStack (TellsLabel old buffer.old result buffer.new) self.new) self.old }
        ensures places { places_in self.new ≡ places_in self.old }
    {
        match self {
            Instance::Stack(stack) => stack.next_label(buffer),
            Instance::Over(over) => over.next_label(buffer),
            Instance::Volume(_) | Instance::Judge(_) => unreachable!(),
        }
    }

    /// Tells the stack's next answer, if there is one.
    pub fn first_answer(&self) -> Option<StackAnswer>
        requires { IsAnyStack self.now }
        ensures { IsStack (λ v. ShowsAnswer v result) self.now }
    {
        match self {
            Instance::Stack(stack) => stack.first_answer(),
            Instance::Over(over) => over.first_answer(),
            Instance::Volume(_) | Instance::Judge(_) => unreachable!(),
        }
    }

    /// Takes the stack's next answer, as [`MemoryStack::next_answer`].
    pub fn next_answer(&mut self, buffer: &mut [u8]) -> Option<StackAnswer>
        requires { IsAnyStack self.old }
        ensures held { IsAnyStack self.new }
        ensures told { IsStack (λ old. IsStack (TellsAnswer old buffer.old result buffer.new) self.new) self.old }
        ensures places { places_in self.new ≡ places_in self.old }
    {
        match self {
            Instance::Stack(stack) => stack.next_answer(buffer),
            Instance::Over(over) => over.next_answer(buffer),
            Instance::Volume(_) | Instance::Judge(_) => unreachable!(),
        }
    }

    /// Takes the stack's answer of a number, as [`MemoryStack::answer_of`].
    pub fn answer_of(&mut self, number: u64, buffer: &mut [u8]) -> Option<StackAnswer>
        requires { IsAnyStack self.old }
        ensures held { IsAnyStack self.new }
        ensures told { IsStack (λ old. IsStack (TellsAnswerOf old number buffer.old result buffer.new) self.new) self.old }
        ensures places { places_in self.new ≡ places_in self.old }
    {
        match self {
            Instance::Stack(stack) => stack.answer_of(number, buffer),
            Instance::Over(over) => over.answer_of(number, buffer),
            Instance::Volume(_) | Instance::Judge(_) => unreachable!(),
        }
    }

    /// Tells the piece on a tag that could act, as [`Over::armed`].
    ///
    /// # Errors
    ///
    /// As [`Over::armed`]; [`NtStatus::InvalidDeviceRequest`] where the sectors are not C's.
    pub fn armed(&mut self, alloc: Global, tag: u8) -> Result<StackArmed, NtStatus>
        requires { IsAnyStack self.old }
        ensures held { IsAnyStack self.new }
        ensures tells { IfOver (λ old. IsOver (λ new. MatchResult result (λ told. TellsArmed old tag told new) (λ status. (new ≡ old) × IsArmedStatus old tag status)) self.new) self.old }
        ensures refused { IfInMemory ((result ≡ Err InvalidDeviceRequest) × (self.new ≡ self.old)) self.old }
        ensures fault { IfErr result (λ status. status ≢ Success) }
    {
        match self {
            Instance::Over(over) => over.armed(alloc, tag),
            Instance::Stack(_) => Err(NtStatus::InvalidDeviceRequest),
            Instance::Volume(_) | Instance::Judge(_) => unreachable!(),
        }
    }

    /// Books what became of a piece, as [`Over::book`].
    ///
    /// # Errors
    ///
    /// As [`Over::book`]; [`NtStatus::InvalidDeviceRequest`] where the sectors are not C's.
    pub fn book(&mut self, booking: &StackBooking) -> Result<(), NtStatus>
        requires { IsAnyStack self.old }
        ensures held { IsAnyStack self.new }
        ensures books { IfOver (λ old. IsOver (λ new. MatchResult result (λ _. BooksTold old booking.now new) (λ status. (new ≡ old) × IsBookStatus old booking.now status)) self.new) self.old }
        ensures refused { IfInMemory ((result ≡ Err InvalidDeviceRequest) × (self.new ≡ self.old)) self.old }
        ensures fault { IfErr result (λ status. status ≢ Success) }
    {
        match self {
            Instance::Over(over) => over.book(booking),
            Instance::Stack(_) => Err(NtStatus::InvalidDeviceRequest),
            Instance::Volume(_) | Instance::Judge(_) => unreachable!(),
        }
    }

    /// Has the judge take a label, as [`take_label`].
    pub fn take_label(&mut self, alloc: Global, label: &StackLabel, bytes: &[u8]) -> u32
        requires { IsAnyJudge self.old }
        ensures held { IsAnyJudge self.new }
        ensures takes { IsJudge (λ old. IsJudge (TakesLabel old label.now bytes.now result) self.new) self.old }
    {
        match self {
            Instance::Judge(judge) => take_label(judge, alloc, label, bytes),
            Instance::Volume(_) | Instance::Stack(_) | Instance::Over(_) => unreachable!(),
        }
    }

    /// Has the judge take a line, as [`take_text`].
    pub fn take_text(&mut self, alloc: Global, text: &[u8]) -> u32
        requires { IsAnyJudge self.old }
        ensures held { IsAnyJudge self.new }
        ensures takes { IsJudge (λ old. IsJudge (TakesText old text.now result) self.new) self.old }
    {
        match self {
            Instance::Judge(judge) => take_text(judge, alloc, text),
            Instance::Volume(_) | Instance::Stack(_) | Instance::Over(_) => unreachable!(),
        }
    }

    /// Puts into a buffer why the judge didn't take what it was told last.
    pub fn tell_why(&self, alloc: Global, buffer: &mut [u8]) -> u64
        requires { IsAnyJudge self.now }
        ensures { IsJudge (λ judge. TellsWhy judge.why buffer.old result buffer.new) self.now }
    {
        match self {
            Instance::Judge(judge) => tell_why(alloc, judge.why(), buffer),
            Instance::Volume(_) | Instance::Stack(_) | Instance::Over(_) => unreachable!(),
        }
    }

    /// Whether what the judge has taken leaves nothing undone.
    pub fn is_settled(&self) -> bool
        requires { IsAnyJudge self.now }
        ensures { IsJudge (λ judge. MatchBool result (LeavesNothing judge) (¬ (LeavesNothing judge))) self.now }
    {
        match self {
            Instance::Judge(judge) => judge.is_settled(),
            Instance::Volume(_) | Instance::Stack(_) | Instance::Over(_) => unreachable!(),
        }
    }
}
