//! A stack whose sectors stand in memory.

ghost use Rattle.std.specs.Prelude.{◌≡◌, ◌≢◌, IfErr, IsTrue, MatchResult};
ghost use Rattle.ntstatus.specs.declared.NtStatus.TheVariants.{Success};
ghost use Rattle.saddlemug.specs.Stepping.{IsNotStepped, IsStepStatus, ShowsAnswer, Steps, TellsAnswer, TellsAnswerOf, TellsLabel};

use crate::events::{StackEvent, StackReply};
use crate::labels::{StackAnswer, StackLabel};
use crate::stepping::{first_answer, step_as_told, tell_answer, tell_answer_of, tell_label};
use compose::Stack;
use disk::SparseDisk;
use miniport::PlannedAdapter;
use ntstatus::NtStatus;
use std::alloc::Global;
use std::marker::Model;

/// A stack over a disk in memory, whose labels keep their bytes.
#[derive(Drop)]
pub struct MemoryStack {
    stack: Stack<PlannedAdapter<SparseDisk>>,
}

impl Model for MemoryStack {
    ghost use Rattle.std.specs.Prelude.{IsTrue};
    ghost use Rattle.io_manager.specs.Shown.{ManagerView};

    ghost Value = { ManagerView };

    ghost view = { λ m. m.stack };

    ghost invariant = { λ m. IsTrue m.stack.rules.keeps_bytes };
}

impl MemoryStack {
    /// A stack whose labels keep their bytes.
    pub(crate) fn new(stack: Stack<PlannedAdapter<SparseDisk>>) -> MemoryStack
        requires { IsTrue stack.rules.keeps_bytes }
        ensures { result ≡ stack }
    {
        MemoryStack { stack }
    }

    /// Carries an event out, as [`step_as_told`].
    ///
    /// # Errors
    ///
    /// As [`step_as_told`].
    pub(crate) fn step(
        &mut self,
        alloc: Global,
        event: &StackEvent,
        bytes: &[u8],
    ) -> Result<StackReply, NtStatus>
        ensures steps { MatchResult result (λ told. Steps self.old event.now bytes.now told self.new) (λ _. IsNotStepped self.old self.new) }
        ensures fault { IfErr result (λ status. status ≢ Success) }
        ensures why { IfErr result (IsStepStatus event.now bytes.now) }
    {
        compose::steps_keep_rules();
        step_as_told(&mut self.stack, alloc, event, bytes)
    }

    /// Takes the next label, as [`tell_label`].
    pub(crate) fn next_label(&mut self, buffer: &mut [u8]) -> Option<StackLabel>
        ensures { TellsLabel self.old buffer.old result buffer.new self.new }
    {
        tell_label(&mut self.stack, buffer)
    }

    /// Tells the next answer, as [`first_answer`].
    pub(crate) fn first_answer(&self) -> Option<StackAnswer>
        ensures { ShowsAnswer self.now result }
    {
        first_answer(&self.stack)
    }

    /// Takes the next answer, as [`tell_answer`].
    pub(crate) fn next_answer(&mut self, buffer: &mut [u8]) -> Option<StackAnswer>
        ensures { TellsAnswer self.old buffer.old result buffer.new self.new }
    {
        tell_answer(&mut self.stack, buffer)
    }

    /// Takes the answer of a number, as [`tell_answer_of`].
    pub(crate) fn answer_of(&mut self, number: u64, buffer: &mut [u8]) -> Option<StackAnswer>
        ensures { TellsAnswerOf self.old number buffer.old result buffer.new self.new }
    {
        tell_answer_of(&mut self.stack, number, buffer)
    }
}
