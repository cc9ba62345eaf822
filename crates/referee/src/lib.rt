//! A referee for a test bench: it is opened over settings, is told the lines of a run one by one, and says at once
//! whether some step of their machine goes by each, and else which rule it breaks, by a number and a sentence.
//!
//! # Promises
//!
//! [`Referee::open`]: the machine is that of the stack that the settings start, before its first label (`IsOpened`);
//! else why no stack of theirs starts (`fault`). [`Referee::take_told`] returns 0 just where what is told is taken:
//! the lines before and this one are a run then (`goes`, `zero`). Else the number says why it isn't (`IsWhy`): a rule
//! that it breaks, so that no run goes on by it, or no such partition, and then nothing has changed; a bad line; or no
//! verdict, for want of memory or too many readings. [`told_by`]: a text is the one line whose text it is (`Tells`).
//! [`Why`]: its sentence is `why_text`, its number `number_of`. [`Referee::is_settled`]: whether the lines leave
//! nothing undone (`LeavesNothing`).
#![tactic(auto)]

mod numbers;
mod opening;
mod taking;
mod telling;
mod why;

pub use taking::Referee;
pub use telling::{Told, told_by};
pub use why::Why;
