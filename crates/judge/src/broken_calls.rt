//! The rules that calls, cancels, pauses and removals break, and labels where a refused call is owed its answer.

ghost use Rattle.std.specs.Prelude.{◌≡◌};
ghost use Rattle.std.specs.Option.{option_copied};
ghost use Rattle.std.specs.List.{find};
ghost use Rattle.judge.specs.Deciding.{has_number};
ghost use Rattle.judge.specs.Ruling.{unpaid_rule, owing_rule, carried_rule, calling_rule, cancelling_rule_of, cancelling_rule, pausing_rule, paused_rule, surprising_rule, removed_rule};
ghost use Rattle.judge.specs.Views.{rules_of, owed_of};

use crate::answers::Answer;
use crate::call_rules::bytes_carried;
use crate::finding::request_of;
use crate::label_rules::{CallRule, CancelRule, OwedRule, RemovalRule};
use crate::machine_state::{Debt, Machine};
use crate::open::Open;
use crate::places::are_same;
use crate::rules::MachineRules;
use machine::{ClientRequest, Label};
use ntstatus::NtStatus;

impl Debt {
    /// Returns what is wrong with an answer, where this one is owed.
    fn broken_by(self, answer: Answer<'_>) -> Option<OwedRule>
        ensures { let told = answer.entry in
            result ≡ unpaid_rule (owed_of self) told.number told.status told.information told.bytes.now }
    {
        let owed = self.number;
        let due = self.status;
        if owed != answer.number {
            Some(OwedRule::Other {
                number: owed,
                status: due,
            })
        } else if !are_same(due, answer.status) {
            Some(OwedRule::Status {
                number: owed,
                due,
                told: answer.status,
            })
        } else if answer.information != 0 {
            Some(OwedRule::Information {
                number: owed,
                told: answer.information,
            })
        } else if !answer.bytes.is_empty() {
            Some(OwedRule::Bytes {
                number: owed,
                count: answer.bytes.len() as u64,
            })
        } else {
            None
        }
    }

    /// Returns what is wrong with a label, where this answer is owed.
    pub(crate) fn broken(self, label: &Label) -> Option<OwedRule>
        ensures { result ≡ owing_rule (owed_of self) label.now }
    {
        match label {
            Label::Answer {
                number,
                status,
                information,
                bytes,
            } => self.broken_by(Answer {
                number: *number,
                status: *status,
                information: *information,
                bytes: bytes.as_slice(),
            }),
            _ => Some(OwedRule::Other {
                number: self.number,
                status: self.status,
            }),
        }
    }
}

/// Returns what is wrong with the bytes of a call that is refused with this status, or is not refused.
fn broken_bytes(q: &ClientRequest, refused: Option<NtStatus>) -> Option<CallRule>
    ensures { result ≡ carried_rule q.now refused }
{
    let count = q.bytes.len() as u64;
    match refused {
        None => {
            let due = bytes_carried(q.kind, q.length);
            if count == due {
                None
            } else {
                Some(CallRule::Bytes { due, told: count })
            }
        }
        Some(status) => {
            if count == 0 {
                None
            } else {
                Some(CallRule::Refused { status, count })
            }
        }
    }
}

/// Returns what is wrong with the cancel of the open request of a number, if there is one.
fn broken_cancel_of(number: u64, entry: Option<&Open>) -> Option<CancelRule>
    ensures { result ≡ cancelling_rule_of number (option_copied entry.entry) }
{
    let Some(entry) = entry else {
        return Some(CancelRule::NotOpen { number });
    };
    if entry.is_cancelled() {
        Some(CancelRule::Before { number })
    } else {
        None
    }
}

impl Machine {
    /// The open request of this number.
    pub(crate) fn open(&self, number: u64) -> Option<&Open>
        ensures { option_copied result ≡ find (has_number number) self.now.requests }
    {
        request_of(self.requests.as_slice(), number)
    }

    /// Returns what is wrong with a call.
    pub(crate) fn broken_call(
        &self,
        rules: &MachineRules,
        number: u64,
        q: &ClientRequest,
    ) -> Option<CallRule>
        ensures { result ≡ calling_rule (rules_of rules.now) self.now number q.now }
    {
        let due = self.next_request;
        if number != due {
            return Some(CallRule::Number { due, told: number });
        }
        broken_bytes(q, self.refusal(rules, q))
    }

    /// Returns what is wrong with a cancel.
    pub(crate) fn broken_cancel(&self, number: u64) -> Option<CancelRule>
        ensures { result ≡ cancelling_rule self.now number }
    {
        broken_cancel_of(number, self.open(number))
    }

    /// Returns what is wrong with a pause.
    pub(crate) fn broken_pause(&self) -> Option<RemovalRule>
        ensures { result ≡ pausing_rule self.now }
    {
        if self.paused {
            Some(RemovalRule::Paused)
        } else if self.removing {
            Some(RemovalRule::Removing)
        } else {
            None
        }
    }

    /// Returns what is wrong with the end of a pause, and with a removal.
    pub(crate) fn broken_resume(&self) -> Option<RemovalRule>
        ensures { result ≡ paused_rule self.now }
    {
        if self.paused {
            None
        } else {
            Some(RemovalRule::NotPaused)
        }
    }

    /// Returns what is wrong with a surprise removal.
    pub(crate) fn broken_surprise(&self) -> Option<RemovalRule>
        ensures { result ≡ surprising_rule self.now }
    {
        if self.removing {
            Some(RemovalRule::Removing)
        } else {
            None
        }
    }

    /// Returns what is wrong with the end of a removal.
    pub(crate) fn broken_end(&self) -> Option<RemovalRule>
        ensures { result ≡ removed_rule self.now }
    {
        if !self.removing {
            Some(RemovalRule::NotRemoving)
        } else if self.removed {
            Some(RemovalRule::Removed)
        } else {
            match self.requests.first() {
                Some(entry) => Some(RemovalRule::Open {
                    number: entry.number(),
                }),
                None => None,
            }
        }
    }
}
