//! A stack's calls as C makes them, over any adapter.

ghost use Rattle.std.specs.Prelude.{◌≡◌, ◌≢◌, IfErr, IsTrue, MatchResult};
ghost use Rattle.ntstatus.specs.declared.NtStatus.TheVariants.{Success};
ghost use Rattle.saddlemug.specs.Stepping.{IsNotStepped, IsStepStatus, ShowsAnswer, Steps, TellsAnswer, TellsAnswerOf, TellsLabel, quiet};

use crate::events::{StackEvent, StackReply, event_of, told_reply};
use crate::labels::{StackAnswer, StackLabel, shown_answer, told_answer, told_label};
use adapter::Adapter;
use compose::Stack;
use ntstatus::NtStatus;
use std::alloc::Global;

/// Carries an event out, with the bytes of a write. Labels that were not taken are let go.
///
/// # Errors
///
/// As [`event_of`]. Nothing has changed.
pub(crate) fn step_as_told<A: Adapter>(
    stack: &mut Stack<A>,
    alloc: Global,
    event: &StackEvent,
    bytes: &[u8],
) -> Result<StackReply, NtStatus>
    ensures steps { MatchResult result (λ told. Steps stack.old event.now bytes.now told stack.new) (λ _. IsNotStepped stack.old stack.new) }
    ensures fault { IfErr result (λ status. status ≢ Success) }
    ensures why { IfErr result (IsStepStatus event.now bytes.now) }
{
    let size = stack.sector_size();
    match event_of(alloc, event, bytes, size) {
        Ok(event) => {
            drop_labels(stack);
            let reply = stack.step(alloc, event);
            Ok(told_reply(reply))
        }
        Err(status) => Err(status),
    }
}

/// Takes all labels that wait.
fn drop_labels<A: Adapter>(stack: &mut Stack<A>)
    ensures { stack.new ≡ quiet stack.old }
{
    while let Some(label) = stack.take_shown() {
        drop(label);
    }
}

/// Takes the earliest label that waits, and tells it.
pub(crate) fn tell_label<A: Adapter>(stack: &mut Stack<A>, buffer: &mut [u8]) -> Option<StackLabel>
    requires { IsTrue stack.old.rules.keeps_bytes }
    ensures { TellsLabel stack.old buffer.old result buffer.new stack.new }
{
    match stack.take_label() {
        Some(label) => Some(told_label(label, buffer)),
        None => None,
    }
}

/// Tells the waiting answer with the lowest number, which goes on waiting.
pub(crate) fn first_answer<A: Adapter>(stack: &Stack<A>) -> Option<StackAnswer>
    ensures { ShowsAnswer stack.now result }
{
    match stack.first_answer() {
        Some(answer) => Some(shown_answer(answer)),
        None => None,
    }
}

/// Takes the waiting answer with the lowest number, and tells it.
pub(crate) fn tell_answer<A: Adapter>(
    stack: &mut Stack<A>,
    buffer: &mut [u8],
) -> Option<StackAnswer>
    ensures { TellsAnswer stack.old buffer.old result buffer.new stack.new }
{
    match stack.take_answer() {
        Some(answer) => Some(told_answer(answer, buffer)),
        None => None,
    }
}

/// Takes the waiting answer of a number, and tells it.
pub(crate) fn tell_answer_of<A: Adapter>(
    stack: &mut Stack<A>,
    number: u64,
    buffer: &mut [u8],
) -> Option<StackAnswer>
    ensures { TellsAnswerOf stack.old number buffer.old result buffer.new stack.new }
{
    match stack.take_answer_of(number) {
        Some(answer) => Some(told_answer(answer, buffer)),
        None => None,
    }
}
