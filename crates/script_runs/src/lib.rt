//! A script run from its inputs: its settings and its text are read, a stack of the settings is started, and the lines
//! are played.
//!
//! # Promises
//!
//! `run`: the texts of the script's lines, from the stack that its settings start (`text`), or why not all, settings
//! first (`fault`); only behind a failed output or refused memory may something be written then (`untold`).
#![tactic(auto)]

mod faults;
mod running;

pub use faults::Error;
pub use running::run;
