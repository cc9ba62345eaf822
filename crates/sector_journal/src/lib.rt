//! The sectors of a disk under a lock of their own, and the journal of what acts did there.
//!
//! A [`Journal`] has the sectors, an entry for each act, and for each tag the piece that may act. Whoever runs a stack
//! over an adapter that holds no sectors reserves room as a request is admitted, arms each piece as it starts, lets it
//! act here, and books what came of it with the adapter. Acts take no memory.
//!
//! # Promises
//!
//! Over any `Medium`, the entries always replay from the first sectors to the present ones (`shows_rule`). `act`
//! carries out the tag's armed piece, with its entry last, or fails it with none. `arm` is exact (`decides`, `arms`)
//! and takes one buffer of its length (`same_room`). Receipts stand (`receipt`, `check`, `arming_receipt`,
//! `check_armings`), and each entry names its arming (`shows_armings`). `reserve` makes places and just its request's
//! buffers (`admits`), none where it is refused (`refused`), and reserves only runs near its extent (`near`). `release`
//! keeps the buffers that other requests may yet need (`kept`), `disarm` its piece's (`back`).
#![tactic(auto)]

mod acted;
mod buffer_pool;
mod entering;
mod journal;
mod name;
mod opened;
mod reservation;
mod size_class;
mod slots;

pub use acted::Entered;
pub use entering::enter;
pub use journal::Journal;
pub use name::{Naming, OfArmings, OfEntries};
pub use opened::{History, Opened};
pub use reservation::Reservation;
pub use slots::Armed;
