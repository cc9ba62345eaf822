//! The adapter in memory.
//!
//! # Promises
//!
//! `MemAdapter` keeps [`Adapter`], faithfully, over any medium. It faults exactly where its table or a reset says
//! (`by_table`, `completion`, `due`); failures stay within twice the pieces (`twice`). [`MemAdapter::noting`] keeps no
//! label's bytes. `PlannedAdapter` is that adapter, but acts fail by rules of `injection` (`planned`). `BookedAdapter`
//! acts as was booked; how a booked failure comes back, and what `Taken` leaves, is only tested. `may_be_entry_of` says
//! whether an entry may be booked of an SRB.
#![tactic(auto)]

mod booked;
mod carrying;
mod check;
mod completion;
mod first_sector;
mod memory;
mod on_tag;
mod planned;
mod recorded;
mod suiting;
mod table;

pub use adapter::Adapter;
pub use booked::BookedAdapter;
pub use carrying::{Outcome, carry_out, check_on};
pub use completion::{MEDIUM_ERROR, failed_with};
pub use memory::MemAdapter;
pub use planned::PlannedAdapter;
pub use suiting::may_be_entry_of;
