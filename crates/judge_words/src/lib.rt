//! The words of `stackjudge`, and what they ask for.
//!
//! # Promises
//!
//! `command` gives just what the grammar finds in the words (`asked`), and refuses only words that ask for no command
//! (`fault`).
#![tactic(auto)]

pub mod asked;
mod grammar;
mod reading;

pub use reading::command;
