//! A stack whose sectors stand in a journal, driven in one thread.
//!
//! A [`Journaled`] has a stack over an adapter that holds no sectors, and the [`Journal`](sector_journal::Journal) that
//! has them. An act is carried out in the journal, and what came of it is booked with the adapter, whose own act is
//! then just that; every other event is the stack's alone. Memory for the acts of a request is taken before its call
//! is.
//!
//! # Promises
//!
//! Each event is a right step, or memory is refused (`right`). Act n of all labels is of entry n (`told`). A step that
//! opens a request makes room for its pieces under its number; no other reserves anything (`room` of `step`). An
//! answer's label gives its request's room back, and no other does (`room` of `take_label`). All labels are a run of
//! the faithful machine over the journal's sectors (`shows_run`), which `into_parts` gives with their entries
//! (`replays`).
#![tactic(auto)]

mod acting;
mod journaled;
mod laws;
mod reserving;

pub use crate::journaled::Journaled;
pub use crate::laws::laws_of_entries;
pub use acting::HARDWARE_ERROR;
pub use reserving::give_back;
