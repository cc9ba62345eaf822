//! The book of a stack whose sectors stand in a journal: stack and journal are each under a lock of its own, and the
//! book's is taken first.
//!
//! A [`Book`] is a [`traced::Traced`] stack over an adapter without sectors. While only its own lock is held, it knows
//! the journal by receipts: - for act n of its trace it has the receipt of entry n ([`Taken`]): whenever both locks are
//! held, what was booked is the front of the journal's entries ([`Taken::check`]); - for a piece that may act it has
//! the receipt of its arming ([`Arming`], and [`Tags`] of all tags): an entry that names the arming is of what was
//! armed ([`Tags::is_of`]), and the piece may act until a label tells that it acted, failed or came back
//! ([`armed_stays`]).
//!
//! # Promises
//!
//! `Book::step` carries out the marks that it sees, then right acts of entries that weren't booked yet, in order, and
//! then the event (`stepped`); only calls and queries want memory (`memory`). `act_failed` fails a piece by just the
//! completion that is handed in. `book_rest` leaves no entry, or a next one that the stack can't take (`ends`).
//! `into_rows`: act n is of the entry of receipt n (`receipts`, `acts`).
#![tactic(auto)]

mod arming;
mod book;
mod booking;
mod failing;
mod journal_room;
mod laws;
mod name;
mod noting;
mod records;
mod settling;
mod tags;
mod taken;

pub use arming::Arming;
pub use book::Book;
pub use laws::armed_stays;
pub use name::BookNaming;
pub use records::{Beside, Records};
pub use tags::Tags;
pub use taken::Taken;
