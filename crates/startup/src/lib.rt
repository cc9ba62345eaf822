//! How a program begins and ends that runs a stack over a disk in memory. Its settings are read, the stack or a volume
//! of a partition is opened, and a fault is said, with an exit status.
//!
//! [`hold_standard`] keeps files off the numbers of standard descriptors that are closed; no contract says so.
//!
//! # Promises
//!
//! `contents`: all that an input has. `read_settings`: its settings (`read`, `in_range`), or why not (`fault`, `told`).
//! `settings_of`: those of a text, or its fault (`settings`, `fault`). `start`: the opening stack (`view`, `first`),
//! but none where a rule slows commands (`refused`); `start_apart`: the disk, and the opening stack beside it (`stack`,
//! `disk`, `count`); `open`: a volume of zeros (`volume`, `zeros`); each or `fault`. By which rules their commands
//! fail, come back busy or take longer is only tested. `Error` and `say`: the line of a fault (`output`). `ended`: the
//! exit status, and no line where no fault was (`status`, `silent`). `fault_of`: want of memory, or another fault
//! (`memory`, `otherwise`). `Input::of`: the file, or why not.
#![tactic(auto)]

mod apart;
mod ending;
mod faults;
mod file_input;
mod reading;
mod standard;
mod starting;

pub use apart::start_apart;
pub use ending::{Ending, Verdict, ended, fault_of, say};
pub use faults::{Error, words_for};
pub use file_input::{Input, open_input};
pub use reading::{contents, read_settings, settings_of};
pub use standard::{Standard, hold_standard};
pub use starting::{open, start};
