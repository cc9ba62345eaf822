//! Queues of answers by rising numbers.

ghost use Rattle.std.specs.Prelude.{◌≡◌, ◌<◌, ◌≤◌, ◌+◌, [], IsTrue, length, map, if◌then◌else◌};
ghost use Rattle.std.specs.VecDeque.{deque_len, deque_capacity};
ghost use Rattle.io_manager.specs.inside.Ordering.{inserted, lower_first};
ghost use Rattle.io_manager.specs.inside.Queue.{SameQueue, answer_in_memory};
ghost use Rattle.io_manager.specs.Right.{AreRising, answer_number};

use crate::Answer;
use crate::label_queue::LabelQueue;
use sector::{Bytes, LabelRoom};
use std::collections::VecDeque;

/// Returns how many of the answers, which stand by rising numbers, have lower numbers. It looks from the back, only at
/// those that don't.
fn place_of(answers: &VecDeque<Answer>, number: u64) -> usize
    requires { AreRising (map answer_number answers.now.items) }
    ensures { result ≡ lower_first number answers.now.items }
{
    let mut place = answers.len();
    while place > 0 && answers[place - 1].number >= number {
        place -= 1;
    }
    place
}

/// Puts an answer behind those with lower numbers, in a queue by rising numbers that has a place for it. Only answers
/// with higher numbers are moved.
pub(crate) fn insert_rising(answers: &mut VecDeque<Answer>, answer: Answer)
    requires place { deque_len answers.old < deque_capacity answers.old }
    requires rising { AreRising (map answer_number answers.old.items) }
    ensures items { answers.new.items ≡ inserted answer answers.old.items }
    ensures len { deque_len answers.new ≡ deque_len answers.old + 1 }
    ensures capacity { deque_capacity answers.new ≡ deque_capacity answers.old }
{
    let place = place_of(answers, answer.number);
    if place == answers.len() {
        answers.push_back_reserved(answer);
        return;
    }
    // `insert` may take memory; these calls never do. Each rotation goes the shorter way.
    answers.rotate_left(place);
    answers.push_front_reserved(answer);
    answers.rotate_right(place);
}

/// Puts an answer behind those with lower numbers, in a queue of which memory keeps this.
fn keep_rising(answered: &mut LabelQueue<Answer>, shown: Answer, answer: &Answer)
    requires kept { IsTrue answered.old.keeps }
    requires shown { shown ≡ answer_in_memory answered.old.keeps_bytes answer.now }
    requires place { length answered.old.items < answered.old.places }
    requires rising { AreRising (map answer_number answered.old.items) }
    ensures items { answered.new.items ≡ inserted answer.now answered.old.items }
    ensures same { SameQueue answered.old answered.new }
{
    insert_rising(&mut answered.queue, shown);
    answered.told = answered.told.with(answer);
}

/// The bytes of an answer in its label, where they are kept; else none.
fn shown_bytes(keeps_bytes: bool, answer: &Answer, room: LabelRoom) -> Bytes
    requires room { IsTrue keeps_bytes → length answer.now.bytes ≤ room }
    ensures { result ≡ (if keeps_bytes then answer.now.bytes else []) }
{
    if keeps_bytes {
        room.filled(answer.bytes.as_slice())
    } else {
        room.filled(&[])
    }
}

/// Defers the label of an answer. Where labels keep their bytes, these are copied into the room for them.
pub(crate) fn put_by(answered: &mut LabelQueue<Answer>, answer: &Answer, room: LabelRoom)
    requires room { IsTrue answered.old.keeps_bytes → length answer.now.bytes ≤ room }
    requires place { length answered.old.items < answered.old.places }
    requires rising { AreRising (map answer_number answered.old.items) }
    ensures items { answered.new.items ≡ inserted answer.now answered.old.items }
    ensures same { SameQueue answered.old answered.new }
{
    if answered.keeps() {
        let copy = Answer {
            number: answer.number,
            status: answer.status,
            information: answer.information,
            bytes: shown_bytes(answered.keeps_bytes(), answer, room),
        };
        keep_rising(answered, copy, answer);
    } else {
        answered.note(answer);
    }
}
