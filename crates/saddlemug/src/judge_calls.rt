//! What C calls to have a run judged.

ghost use Rattle.std.specs.Prelude.{◌≡◌, ◌⊎◌, None, MatchBool, nat_eq};
ghost use Rattle.referee.specs.Taking.{LeavesNothing};
ghost use Rattle.saddlemug.specs.Holding.{HoldsAnyJudge, HoldsJudge};
ghost use Rattle.saddlemug.specs.Judged.{IsNewJudge, TakesLabel, TakesText, TellsWhy};
ghost use Rattle.saddlemug.specs.Opened.{IsJudgeStatus};
ghost use Rattle.saddlemug.specs.Statuses.{IsNumberOfStatus};
ghost use Rattle.saddlemug.specs.ToldLabels.{TellsLine};

use crate::cell::Cell;
use crate::instance::Instance;
use crate::judged::{new_judge, tell_line};
use crate::labels::StackLabel;
use std::alloc::Global;

/// Puts the line of a label into a buffer, with a line feed, as much of it as has room. Answers how long it is: 0 where
/// there is no such label, or memory for its line was refused.
#[unsafe(no_mangle)]
pub extern "C" fn saddlemug_label_words(
    alloc: Global,
    label: &StackLabel,
    bytes: &[u8],
    buffer: &mut [u8],
) -> u64
    ensures { TellsLine label.now bytes.now buffer.old result buffer.new }
{
    tell_line(alloc, label, bytes, buffer)
}

/// Opens a judge into an empty cell, of the stack of a text's settings, before its first label. Answers 0, or the status
/// that says why there is no such stack; the cell is then still empty.
#[unsafe(no_mangle)]
pub extern "C" fn saddlemug_judge_open_into(alloc: Global, cell: &mut Cell, settings: &[u8]) -> u32
    requires { cell.old.held ≡ None }
    ensures held { MatchBool (nat_eq result 0) (HoldsJudge (IsNewJudge settings.now) cell.new.held) (cell.new.held ≡ None) }
    ensures status { (result ≡ 0) ⊎ IsNumberOfStatus (IsJudgeStatus settings.now) result }
{
    match new_judge(alloc, settings) {
        Ok(judge) => cell.fill(alloc, Instance::Judge(judge)),
        Err(status) => status.value(),
    }
}

/// Has the judge take a label, with its bytes. Answers 0, or the number of why it isn't taken.
#[unsafe(no_mangle)]
pub extern "C" fn saddlemug_judge_take(
    alloc: Global,
    cell: &mut Cell,
    label: &StackLabel,
    bytes: &[u8],
) -> u32
    requires { HoldsAnyJudge cell.old.held }
    ensures held { HoldsAnyJudge cell.new.held }
    ensures takes { HoldsJudge (λ old. HoldsJudge (TakesLabel old label.now bytes.now result) cell.new.held) cell.old.held }
{
    let mut held = cell.take(alloc);
    let number = held.take_label(alloc, label, bytes);
    cell.put(held);
    number
}

/// Has the judge take what the text of a line tells, which is given without its end. Answers as
/// [`saddlemug_judge_take`].
#[unsafe(no_mangle)]
pub extern "C" fn saddlemug_judge_take_line(alloc: Global, cell: &mut Cell, text: &[u8]) -> u32
    requires { HoldsAnyJudge cell.old.held }
    ensures held { HoldsAnyJudge cell.new.held }
    ensures takes { HoldsJudge (λ old. HoldsJudge (TakesText old text.now result) cell.new.held) cell.old.held }
{
    let mut held = cell.take(alloc);
    let number = held.take_text(alloc, text);
    cell.put(held);
    number
}

/// Puts into a buffer the sentence that says why what was told last wasn't taken, as much of it as has room. Answers how
/// long it is: 0 where it was taken.
#[unsafe(no_mangle)]
pub extern "C" fn saddlemug_judge_words(alloc: Global, cell: &mut Cell, buffer: &mut [u8]) -> u64
    requires { HoldsAnyJudge cell.old.held }
    ensures held { cell.new.held ≡ cell.old.held }
    ensures told { HoldsJudge (λ judge. TellsWhy judge.why buffer.old result buffer.new) cell.old.held }
{
    let held = cell.take(alloc);
    let count = held.tell_why(alloc, buffer);
    cell.put(held);
    count
}

/// Whether what was taken, which is to be all of an event, leaves nothing undone.
#[unsafe(no_mangle)]
pub extern "C" fn saddlemug_judge_settled(alloc: Global, cell: &mut Cell) -> bool
    requires { HoldsAnyJudge cell.old.held }
    ensures held { cell.new.held ≡ cell.old.held }
    ensures settled { HoldsJudge (λ judge. MatchBool result (LeavesNothing judge) (¬ (LeavesNothing judge))) cell.old.held }
{
    let held = cell.take(alloc);
    let settled = held.is_settled();
    cell.put(held);
    settled
}

/// Ends the judge. Its cell is empty then.
#[unsafe(no_mangle)]
pub extern "C" fn saddlemug_judge_close_full(alloc: Global, cell: &mut Cell)
    requires { HoldsAnyJudge cell.old.held }
    ensures { cell.new.held ≡ None }
{
    drop(cell.take(alloc));
}
