//! Threads that move the bytes of a stack's pieces, while another thread owns the stack.
//!
//! The owner notes each piece that it hands out ([`Asks`]). A [`Task`] carries a claim on the piece's place among them,
//! and what comes back ([`Done`]) has it still.
//!
//! # Promises
//!
//! What comes back is what came of the ask at its place (`check`); a disk of these sizes made just the calls of
//! `FileDisk::transfer` for it (`moved`). A thread asks its disk for nothing else (`serve`). `has_room_for`: sectors
//! that may be moved beside all that are, with one sync at once. Calls of such may change places (`calls_change`).
#![tactic(auto)]

mod ask;
mod asks;
mod done;
mod flight;
mod laws;
mod task;
mod threads;

pub use ask::Ask;
pub use asks::Asks;
pub use done::Done;
pub use flight::{Flight, Flown};
pub use laws::calls_change;
pub use task::Task;
pub use threads::{Movers, serve, start};
