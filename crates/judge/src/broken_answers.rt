//! The rules that answers break.

ghost use Rattle.std.specs.Prelude.{◌≡◌, ◌<◌, ◌≤◌, ◌+◌, ◌-◌, ◌^◌, List, length, take, drop};
ghost use Rattle.std.specs.Option.{option_copied};
ghost use Rattle.std.specs.List.{position};
ghost use Rattle.machine.specs.State.{Mark};
ghost use Rattle.machine.specs.Cutting.{mark_at};
ghost use Rattle.judge.specs.Deciding.{is_given_up, gives_up_as, is_worn_out};
ghost use Rattle.judge.specs.Ruling.{difference, is_byte, too_many, is_unended, is_undone, unended_rule, status_due, status_rule, information_rule, bytes_rule, ending_rule, answering_rule_of, answering_rule};
ghost use Rattle.judge.specs.Views.{rules_of, joined_marks};

use crate::answers::Answer;
use crate::call_rules::information_of;
use crate::label_rules::{AnswerRule, Difference};
use crate::machine_state::Machine;
use crate::open::Open;
use crate::places::{Place, are_same};
use crate::rules::MachineRules;
use machine::{ClientRequest, Kind};
use ntstatus::NtStatus;

/// The first byte in which the bytes told differ from the bytes due, counted from a number on.
pub(crate) fn difference(first: u64, due: &[u8], told: &[u8]) -> Option<Difference>
    requires { first + length told.now < 2 ^ 64 }
    ensures { result ≡ difference first due.now told.now }
{
    for place in 0..due.len() {
        let byte = due[place];
        let there = told.get(place).copied();
        if !is_byte(byte, there) {
            return Some(Difference {
                at: first + place as u64,
                due: Some(byte),
                told: there,
            });
        }
    }
    too_many(first + due.len() as u64, told.get(due.len()).copied())
}

/// Whether there is a byte and it is this one.
fn is_byte(byte: u8, there: Option<u8>) -> bool
    ensures { result ≡ is_byte byte there }
{
    match there {
        Some(found) => byte == found,
        None => false,
    }
}

/// A byte where none is due, if there is one.
fn too_many(at: u64, there: Option<u8>) -> Option<Difference>
    ensures { result ≡ too_many at there }
{
    let told = there?;
    Some(Difference {
        at,
        due: None,
        told: Some(told),
    })
}

/// The first byte in which the rest of the bytes told differs from a part of the bytes due, and what is left behind it.
pub(crate) fn next_difference<'t>(
    told: &'t [u8],
    rest: &'t [u8],
    due: &[u8],
) -> (Option<Difference>, &'t [u8])
    requires { length rest.now ≤ length told.now }
    ensures found { result.0 ≡ difference (length told.now - length rest.now) due.now (take (length due.now) rest.now) }
    ensures behind { result.1.now ≡ drop (length due.now) rest.now }
{
    let (here, behind) = rest.split_at(rest.len().min(due.len()));
    let found = difference((told.len() - rest.len()) as u64, due, here);
    (found, behind)
}

/// The first byte in which the bytes told differ from the bytes of the places, end to end.
fn joined_difference(marks: &[Place], told: &[u8]) -> Option<Difference>
    ensures { result ≡ difference 0 (joined_marks marks.now) told.now }
{
    let mut rest = told;
    for place in marks {
        let (found, behind) = next_difference(told, rest, place.bytes());
        if found.is_some() {
            return found;
        }
        rest = behind;
    }
    difference((told.len() - rest.len()) as u64, &[], rest)
}

/// The first place that has not ended.
fn first_unended(marks: &[Place], given_up: bool, worn_out: bool) -> Option<usize>
    ensures { result ≡ position (is_unended given_up worn_out) marks.now }
{
    marks
        .iter()
        .position(|place| !place.has_ended(given_up, worn_out))
}

/// The first place that isn't done.
fn first_undone(marks: &[Place]) -> Option<usize>
    ensures { result ≡ position is_undone marks.now }
{
    marks.iter().position(|place| !place.is_done())
}

/// Returns what is wrong with the number of bytes that an answer tells.
fn broken_information(q: &ClientRequest, status: NtStatus, information: u64) -> Option<AnswerRule>
    ensures { result ≡ information_rule q.now status information }
{
    let due = information_of(q, status);
    if information == due {
        None
    } else {
        Some(AnswerRule::Information {
            due,
            told: information,
        })
    }
}

/// Returns what is wrong with the bytes that an answer hands back.
fn broken_bytes(entry: &Open, bytes: &[u8]) -> Option<AnswerRule>
    ensures { result ≡ bytes_rule entry.now bytes.now }
{
    let found = match entry.request().kind {
        Kind::Read if entry.is_done() => joined_difference(entry.marks(), bytes),
        Kind::Read | Kind::Write | Kind::Flush => difference(0, &[], bytes),
    };
    Some(AnswerRule::Bytes(found?))
}

/// Returns what is wrong with the first place that has not ended, if there is one.
fn broken_place(entry: &Open, first: Option<usize>) -> Option<AnswerRule>
    ensures { result ≡ unended_rule entry.now first }
{
    let at = first?;
    let place = at as u64;
    if entry.is_out_at(at) {
        Some(AnswerRule::Out { place })
    } else {
        Some(AnswerRule::Waits { place })
    }
}

/// Whether busy returns have ended the request.
fn is_worn_out(rules: &MachineRules, entry: &Open) -> bool
    ensures { result ≡ is_worn_out (rules_of rules.now) entry.now }
{
    rules.busy_limit <= entry.busy_returns()
}

impl Machine {
    /// A status that this place of the request gives, if it has ended and isn't done.
    fn status_due(&self, entry: &Open, at: usize) -> NtStatus
        ensures { result ≡ status_due self.now entry.now (mark_at entry.now at) }
    {
        match entry.failure_at(at) {
            Some(failure) => failure,
            None if entry.is_cancelled() => NtStatus::Cancelled,
            None if self.removing && entry.is_late() => NtStatus::DeletePending,
            None if self.removing => NtStatus::NoSuchDevice,
            None => NtStatus::DeviceBusy,
        }
    }

    /// Returns what is wrong with a status, by the first place that isn't done.
    fn broken_status(
        &self,
        rules: &MachineRules,
        entry: &Open,
        status: NtStatus,
        first: Option<usize>,
    ) -> Option<AnswerRule>
        ensures { result ≡ status_rule (rules_of rules.now) self.now entry.now status first }
    {
        let succeeds = are_same(status, NtStatus::Success);
        let Some(at) = first else {
            return if succeeds {
                None
            } else {
                Some(AnswerRule::AllDone { told: status })
            };
        };
        let place = at as u64;
        if succeeds {
            return Some(AnswerRule::NotDone { place });
        }
        let given_up = self.gives_up_as(entry, status);
        let worn_out = is_worn_out(rules, entry);
        if entry.causes_at(at, given_up, worn_out, status) {
            None
        } else {
            Some(AnswerRule::Status {
                place,
                due: self.status_due(entry, at),
                told: status,
            })
        }
    }

    /// Whether this is the status by which a place of the request is given up.
    fn gives_up_as(&self, entry: &Open, status: NtStatus) -> bool
        ensures { result ≡ gives_up_as self.now entry.now status }
    {
        let removed_as = if entry.is_late() {
            NtStatus::DeletePending
        } else {
            NtStatus::NoSuchDevice
        };
        (entry.is_cancelled() && are_same(status, NtStatus::Cancelled))
            || (self.removing && are_same(status, removed_as))
    }

    /// Whether a place of the request that waits will never be sent.
    fn is_given_up(&self, entry: &Open) -> bool
        ensures { result ≡ is_given_up self.now entry.now }
    {
        entry.is_cancelled() || self.removing
    }

    /// Returns what is wrong with the answer of an open request.
    fn broken_ending(
        &self,
        rules: &MachineRules,
        entry: &Open,
        answer: Answer<'_>,
    ) -> Option<AnswerRule>
        ensures { let told = answer.entry in result
            ≡ ending_rule (rules_of rules.now) self.now entry.now told.status told.information told.bytes.now }
    {
        let given_up = self.is_given_up(entry);
        let worn_out = is_worn_out(rules, entry);
        let unended = broken_place(entry, first_unended(entry.marks(), given_up, worn_out));
        let wrong = self.broken_status(rules, entry, answer.status, first_undone(entry.marks()));
        let informed = broken_information(entry.request(), answer.status, answer.information);
        unended.or(wrong.or(informed.or(broken_bytes(entry, answer.bytes))))
    }

    /// Returns what is wrong with an answer.
    pub(crate) fn broken_answer(
        &self,
        rules: &MachineRules,
        answer: Answer<'_>,
    ) -> Option<AnswerRule>
        ensures { let told = answer.entry in result
            ≡ answering_rule (rules_of rules.now) self.now told.number told.status told.information told.bytes.now }
    {
        let Some(entry) = self.open(answer.number) else {
            return Some(AnswerRule::NotOpen {
                number: answer.number,
            });
        };
        self.broken_ending(rules, entry, answer)
    }
}
