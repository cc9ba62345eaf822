//! The rules that a label can break, each as a sentence.

use crate::piece_rules::{ActRule, ReturnRule};
use crate::rule_words::Hex;
use crate::start_rules::StartRule;
use ntstatus::NtStatus;
use std::fmt;

/// A rule of the machine that a label breaks.
#[derive(Debug, Clone, Copy, PartialEq, Eq)]
pub enum Rule {
    /// What is asked of any label while a refused call is owed its answer.
    Owed(OwedRule),
    Call(CallRule),
    Start(StartRule),
    /// What is asked of an act or a fault.
    Act(ActRule),
    Return(ReturnRule),
    Answer(AnswerRule),
    Cancel(CancelRule),
    /// What is asked of a pause and its end, of a removal and its end.
    Removal(RemovalRule),
}

/// The first byte in which bytes differ from those that are due.
#[derive(Debug, Clone, Copy, PartialEq, Eq)]
pub struct Difference {
    /// The place of the byte, counted from 0.
    pub at: u64,
    /// The byte that is due; none where the bytes that are due end before.
    pub due: Option<u8>,
    /// The byte of the label; none where its bytes end before.
    pub told: Option<u8>,
}

impl fmt::Display for Difference {
    ghost use Rattle.std.specs.Prelude.{Some};
    ghost use Rattle.judge.specs.RuleTexts.{difference_text};

    ghost output = { λ difference. Some (difference_text difference) };

    fn fmt<W: fmt::Write>(&self, f: &mut fmt::Formatter<W>) -> fmt::Result {
        let at = self.at;
        match (self.due, self.told) {
            (Some(due), Some(told)) => {
                let (due, told) = (Hex(due), Hex(told));
                write!(f, "byte {at} is {told}, and {due} is due")
            }
            (Some(due), None) => {
                let due = Hex(due);
                write!(f, "byte {at} is missing, and {due} is due")
            }
            (None, Some(told)) => {
                let told = Hex(told);
                write!(f, "byte {at} is {told}, and the bytes end before it")
            }
            (None, None) => write!(f, "byte {at} is missing"),
        }
    }
}

/// What is asked of the answer of a refused call, which comes before any other label.
#[derive(Debug, Clone, Copy, PartialEq, Eq)]
pub enum OwedRule {
    /// Another label came.
    Other {
        number: u64,
        status: NtStatus,
    },
    /// The answer has another status.
    Status {
        number: u64,
        due: NtStatus,
        told: NtStatus,
    },
    /// A refused call transfers nothing (WDK: IO_STATUS_BLOCK).
    Information {
        number: u64,
        told: u64,
    },
    Bytes {
        number: u64,
        count: u64,
    },
}

/// What is asked of a call.
#[derive(Debug, Clone, Copy, PartialEq, Eq)]
pub enum CallRule {
    /// Calls are numbered from 1, one by one.
    Number { due: u64, told: u64 },
    /// The bytes of a refused write go back.
    Refused { status: NtStatus, count: u64 },
    /// A write brings as many bytes as it is long, and no other call brings any.
    Bytes { due: u64, told: u64 },
}

/// What is asked of the answer of an open request. Places are sectors of the request, counted from 0; a flush has one.
#[derive(Debug, Clone, Copy, PartialEq, Eq)]
pub enum AnswerRule {
    NotOpen {
        number: u64,
    },
    /// A piece of the request is at the adapter.
    Out {
        place: u64,
    },
    /// The request isn't cancelled, its device isn't being removed, and busy returns haven't ended it.
    Waits {
        place: u64,
    },
    NotDone {
        place: u64,
    },
    AllDone {
        told: NtStatus,
    },
    /// The lowest sector that isn't done gives the status.
    Status {
        place: u64,
        due: NtStatus,
        told: NtStatus,
    },
    /// The answer tells how many bytes were transferred (WDK: the field Information of IO_STATUS_BLOCK).
    Information {
        due: u64,
        told: u64,
    },
    /// A read that succeeds hands its sectors back, and no other answer any byte.
    Bytes(Difference),
}

/// What is asked of a cancel.
#[derive(Debug, Clone, Copy, PartialEq, Eq)]
pub enum CancelRule {
    NotOpen { number: u64 },
    Before { number: u64 },
}

/// What is asked of a pause and of its end, of a removal and of its end.
#[derive(Debug, Clone, Copy, PartialEq, Eq)]
pub enum RemovalRule {
    Paused,
    NotPaused,
    Removing,
    NotRemoving,
    Removed,
    Open { number: u64 },
}
