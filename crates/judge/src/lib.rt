//! A checker of runs of the sector machine: it takes the rules of a machine, its sectors and a list of labels, whoever
//! recorded them, and says whether the labels are a run.
//!
//! Most labels lead to one state at most. A start may lead to several, one for each request that may make it: the
//! blocks of two flushes, or of two reads of one sector, are the same. The checker follows each of these states. A
//! block has to be the plain one of its command (`IsBlockOf`).
//!
//! Requests are cut as this stack cuts them: pieces begin at multiples of the longest transfer, and what came back busy
//! restarts as often as the busy limit allows. A stack that cuts elsewhere is refused for it, unless the rules say that
//! any cut will do (`any_cut`): a piece then begins at any place that waits to be sent, and restarts are not counted.
//!
//! # Promises
//!
//! `judge` answers a run exactly where some state follows by the labels (`exact`), with every such state, or else names
//! the first label that no step allows (`verdict`), and gives up for want of memory alone (`fault`).
//! `Machine::is_settled` is exact, and `Machine::undone` names nothing exactly where it holds (`exact`, `left`).
//! `Machine::broken` names no rule exactly where a step goes by the line (`exact`), else one that the line breaks
//! (`breaks`), which refutes each step (`breaking_refutes`); its words are those of the rule (`rule_text`).
//! `stepwise::Judge` goes label by label, or line by line: a line that names the request of its start is taken exactly
//! where a step makes a piece of that request (`taken`, `refused`), and of a refused one each reading breaks a rule
//! (`each`). `NoVerdict`: want of memory, at any time, or more than 1,024 readings (`IsRefusal`).
#![tactic(auto)]

mod adapter_labels;
mod answers;
mod arrays;
mod breaking;
mod broken_answers;
mod broken_calls;
mod broken_pieces;
mod broken_starts;
mod call_rules;
mod commands;
mod copies;
mod finding;
mod hindrances;
mod holding;
mod judging;
mod label_rules;
mod lists;
mod machine_state;
mod open;
mod piece_rules;
mod pieces;
mod places;
mod reading;
mod rule_words;
mod rules;
mod sameness;
mod sectors;
mod start_rules;
mod starts;
mod steps;
pub mod stepwise;
mod undone;
mod undone_rules;

pub use arrays::Sectors;
pub use breaking::breaking_refutes;
pub use judging::{Verdict, judge};
pub use label_rules::{AnswerRule, CallRule, CancelRule, Difference, OwedRule, RemovalRule, Rule};
pub use machine_state::Machine;
pub use open::Open as OpenRequest;
pub use piece_rules::{ActRule, ReturnRule};
pub use pieces::Started;
pub use rules::MachineRules;
pub use sectors::chunked;
pub use start_rules::{Hindrance, Misfit, StartRule};
use std::alloc::{AllocError, AllocFailed};
use thiserror::Error;
pub use undone_rules::Undone;

/// The most readings of a trace's starts that a [`stepwise::Judge`] follows.
pub const MOST_READINGS: u64 = 1024;

/// Why there is no verdict.
#[derive(Debug, Clone, Copy, PartialEq, Eq, Error)]
pub enum NoVerdict {
    /// Memory was refused, or the number of calls, of pieces or of a request's busy returns is the largest of its type,
    /// which takes as many labels.
    #[error("no memory for a verdict")]
    NoMemory,
    /// More requests might have made the starts than are followed.
    #[error("the starts have {readings} readings, and 1024 are the most: name the request of each")]
    Readings { readings: u64 },
}

impl From<AllocError> for NoVerdict {
    fn from(_refused: AllocError) -> NoVerdict {
        NoVerdict::NoMemory
    }
}

impl<T: Drop> From<AllocFailed<T>> for NoVerdict {
    fn from(_refused: AllocFailed<T>) -> NoVerdict {
        NoVerdict::NoMemory
    }
}
