//! The words of a command line, and what they ask a program for.
//!
//! # Promises
//!
//! `read`: just what a program's grammar finds in the words (`asked`); words are refused where they ask for nothing,
//! or memory was refused (`fault`). `word`, `option`, `flag`: the grammar's rules (`rule`). `subcommand`: which one
//! was found (`some`, `none`).
#![tactic(auto)]

mod grammar;
mod reading;

pub use grammar::{flag, option, word};
pub use reading::{Parser, Refusal, read, subcommand};
