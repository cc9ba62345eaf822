//! What C calls on a whole stack.

ghost use Rattle.std.specs.Prelude.{◌≡◌, ◌⊎◌, None, Some, MatchBool, nat_eq, true};
ghost use Rattle.saddlemug.specs.Holding.{HoldsAnyStack, HoldsStack, places_held};
ghost use Rattle.saddlemug.specs.Opened.{IsNewStack, IsStackStatus};
ghost use Rattle.saddlemug.specs.Statuses.{IsNumberOfStatus};
ghost use Rattle.saddlemug.specs.Stepping.{IsNotStepped, IsStepStatus, ShowsAnswer, Steps, TellsAnswer, TellsAnswerOf, TellsLabel, told_if};

use crate::cell::Cell;
use crate::events::{StackEvent, StackReply};
use crate::instance::Instance;
use crate::labels::{StackAnswer, StackLabel};
use crate::opening::new_stack;
use ntstatus::NtStatus;
use std::alloc::Global;

/// Starts a stack into an empty cell, over a disk of zeros with the partition table of a text's settings. Answers 0, or
/// the status that says why there is none; the cell is then still empty.
#[unsafe(no_mangle)]
pub extern "C" fn saddlemug_stack_open_into(alloc: Global, cell: &mut Cell, settings: &[u8]) -> u32
    requires { cell.old.held ≡ None }
    ensures held { MatchBool (nat_eq result 0) (HoldsStack (IsNewStack settings.now) cell.new.held) (cell.new.held ≡ None) }
    ensures status { (result ≡ 0) ⊎ IsNumberOfStatus (IsStackStatus settings.now) result }
{
    match new_stack(alloc, settings) {
        Ok(stack) => cell.fill(alloc, Instance::Stack(stack)),
        Err(status) => status.value(),
    }
}

/// Carries an event out, with the bytes of a write, and tells the reply. Labels of the step before that were not taken
/// are let go. Answers 0, or the status that says why there was no event; then nothing has changed, and no reply is
/// told.
#[unsafe(no_mangle)]
pub extern "C" fn saddlemug_stack_step(
    alloc: Global,
    cell: &mut Cell,
    event: &StackEvent,
    bytes: &[u8],
    reply: &mut StackReply,
) -> u32
    requires { HoldsAnyStack cell.old.held }
    ensures held { HoldsAnyStack cell.new.held }
    ensures steps { HoldsStack (λ old. HoldsStack (λ new. MatchBool (nat_eq result 0) (Steps old event.now bytes.now reply.new new) (IsNotStepped old new)) cell.new.held) cell.old.held }
    ensures status { (result ≡ 0) ⊎ IsNumberOfStatus (IsStepStatus event.now bytes.now) result }
    ensures as_it_was { (result ≡ 0) ⊎ (reply.new ≡ reply.old) }
    ensures places { places_held cell.new.held ≡ places_held cell.old.held }
{
    let mut held = cell.take(alloc);
    let outcome = held.step(alloc, event, bytes);
    cell.put(held);
    match outcome {
        Ok(told) => {
            *reply = told;
            0
        }
        Err(status) => status.value(),
    }
}

/// Takes the earliest label of the last step that was not taken yet, if there is one. Its bytes go into the buffer, as
/// many as have room. Where there is none, label and buffer are as they were.
#[unsafe(no_mangle)]
pub extern "C" fn saddlemug_stack_take_label(
    alloc: Global,
    cell: &mut Cell,
    label: &mut StackLabel,
    buffer: &mut [u8],
) -> bool
    requires { HoldsAnyStack cell.old.held }
    ensures held { HoldsAnyStack cell.new.held }
    ensures told { HoldsStack (λ old. HoldsStack (TellsLabel old buffer.old (told_if result label.new) buffer.new) cell.new.held) cell.old.held }
    ensures as_it_was { (result ≡ true) ⊎ (label.new ≡ label.old) }
    ensures places { places_held cell.new.held ≡ places_held cell.old.held }
{
    let mut held = cell.take(alloc);
    let found = held.next_label(buffer);
    cell.put(held);
    match found {
        Some(told) => {
            *label = told;
            true
        }
        None => false,
    }
}

/// Tells the waiting answer with the lowest number, if there is one, which goes on waiting. Where there is none, the
/// answer is as it was.
#[unsafe(no_mangle)]
pub extern "C" fn saddlemug_stack_first_answer(
    alloc: Global,
    cell: &mut Cell,
    answer: &mut StackAnswer,
) -> bool
    requires { HoldsAnyStack cell.old.held }
    ensures held { cell.new.held ≡ cell.old.held }
    ensures told { HoldsStack (λ v. ShowsAnswer v (told_if result answer.new)) cell.old.held }
    ensures as_it_was { (result ≡ true) ⊎ (answer.new ≡ answer.old) }
{
    let held = cell.take(alloc);
    let found = held.first_answer();
    cell.put(held);
    match found {
        Some(told) => {
            *answer = told;
            true
        }
        None => false,
    }
}

/// Takes the waiting answer with the lowest number, if there is one. Its bytes go into the buffer, as many as have
/// room. Where there is none, answer and buffer are as they were.
#[unsafe(no_mangle)]
pub extern "C" fn saddlemug_stack_take_answer(
    alloc: Global,
    cell: &mut Cell,
    answer: &mut StackAnswer,
    buffer: &mut [u8],
) -> bool
    requires { HoldsAnyStack cell.old.held }
    ensures held { HoldsAnyStack cell.new.held }
    ensures told { HoldsStack (λ old. HoldsStack (TellsAnswer old buffer.old (told_if result answer.new) buffer.new) cell.new.held) cell.old.held }
    ensures as_it_was { (result ≡ true) ⊎ (answer.new ≡ answer.old) }
    ensures places { places_held cell.new.held ≡ places_held cell.old.held }
{
    let mut held = cell.take(alloc);
    let found = held.next_answer(buffer);
    cell.put(held);
    match found {
        Some(told) => {
            *answer = told;
            true
        }
        None => false,
    }
}

/// Takes the waiting answer of a request's number, in the same way.
#[unsafe(no_mangle)]
pub extern "C" fn saddlemug_stack_take_answer_of(
    alloc: Global,
    cell: &mut Cell,
    number: u64,
    answer: &mut StackAnswer,
    buffer: &mut [u8],
) -> bool
    requires { HoldsAnyStack cell.old.held }
    ensures held { HoldsAnyStack cell.new.held }
    ensures told { HoldsStack (λ old. HoldsStack (TellsAnswerOf old number buffer.old (told_if result answer.new) buffer.new) cell.new.held) cell.old.held }
    ensures as_it_was { (result ≡ true) ⊎ (answer.new ≡ answer.old) }
    ensures places { places_held cell.new.held ≡ places_held cell.old.held }
{
    let mut held = cell.take(alloc);
    let found = held.answer_of(number, buffer);
    cell.put(held);
    match found {
        Some(told) => {
            *answer = told;
            true
        }
        None => false,
    }
}

/// Ends the stack, and its disk with it. Its cell is empty then.
#[unsafe(no_mangle)]
pub extern "C" fn saddlemug_stack_close_full(alloc: Global, cell: &mut Cell)
    requires { HoldsAnyStack cell.old.held }
    ensures { cell.new.held ≡ None }
{
    drop(cell.take(alloc));
}
