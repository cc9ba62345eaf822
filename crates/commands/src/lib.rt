//! What the program `stackrun` can be asked to do, but for its files and its output: a trace of a script, and clients
//! in threads of their own, each over a stack on a disk in memory. The crate also has the words that ask for them, and
//! what is said of a fault.
//!
//! # Promises
//!
//! `trace` printed its script's run (`text`); `clients` a tally of at most two calls a round (`printed`). It returns a
//! faithful run over the settings' disk, its trace, entries and last sectors (`run`), and a verdict that passes only
//! where the trace has as many acts as there are entries (`verdict`). The tally is what the clients' answers in the trace
//! brought (`tallied`). Or why not (`fault`), and then nothing is printed but behind a failed output or refused memory
//! (`untold`). `command`: what the words ask for (`asked`, `fault`). The usage line alone is told with status 2 (`usage`;
//! `output`, `from_gives`).
#![tactic(auto)]

pub mod clients;
mod faults;
pub mod trace;
pub mod words;

pub use faults::Error;
