//! A stack that many threads share under a lock, with its trace: all its labels, a row of places for each client, and
//! the marks on its open requests. [`Traced`] is the part of a book that knows no journal.
//!
//! Of what lies under a lock only its type's invariant is known. So a type parameter of the stack names what it was
//! opened with ([`TraceNaming`]), and a claim on a place of its trace is borne out later ([`Traced::claim`],
//! [`Traced::check`]).
//!
//! # Promises
//!
//! At rest its trace is a run to the state that its stack shows, which is settled; rows and slots are those of its
//! requests (`IsTraced`, `shows_whole`). `look` carries out each mark that it sees, once (`looked`). `serve` and `call`
//! make a right step, whose labels stand last, or lack memory before any step (`served`); the share counts it
//! (`counted`). `book` books what a piece did elsewhere, and changes nothing else (`books`, `same`). `take_answer`:
//! `takes`, `stands`. `open_handles`: `fault`. Not promised: that a mark made during a step is seen by it.
#![tactic(auto)]

mod context;
mod name;
mod opening;
mod row;
mod share;
mod sizes;
mod slots;
mod trace_log;
mod traced;

pub use context::Context;
use machine::Label;
pub use name::TraceNaming;
pub use opening::{OpenFault, open_handles};
pub use row::Row;
pub use share::Share;
pub use sizes::StackSizes;
pub use traced::{Owned, Traced};

/// A label of the trace, and the row that it stands in: for a call or an answer, its client's number.
#[derive(Drop)]
pub struct TraceEntry {
    pub label: Label,
    pub row: Option<usize>,
}
