//! A stack that many threads share, and the journal of its disk, each under a lock: each client issues calls, waits for
//! their answers and marks them for cancellation; a keeper removes the device; whoever drives the adapter acts and
//! finishes. Where both locks are held, the stack's was taken first; a lane has its piece act under the journal's
//! alone.
//!
//! Each client has a part of a ledger that nobody can copy, a pass of the remove lock, a seat at the cancel marks, and
//! receipts. A receipt is of a call or an answer that the client was told of: its place in the trace, and the entry
//! there. The keeper has receipts of each pause, of a removal and of its end. A receipt outlives the lock. It knows
//! where its calls have left the device, which nobody else moves: a ledger of its own says so, whose count stands
//! beside the book.
//!
//! # Promises
//!
//! `Opened::new` and `Host::new` are refused only for their causes (`fault`). At first the gate is open (`fresh`,
//! `keeper`). `issue` gives a ticket, takes one hold, and adds its call's receipt (`issued`); there was a moment when
//! the ticket's slot held its request (`was_open`). Or it gives the bytes back and takes no hold, with both receipts
//! or none (`refused`), and with none it is busy only where numbers were used up at a moment (`used_up`). `wait` gives
//! the answer and its receipt, and then the hold back (`waited`). Neither closes the gate (`closes_nothing`).
//! `mark_cancel` marks the ticket's request alone (`marked`). `query_remove` adds a receipt of its pause (`told`),
//! `remove` and `surprise_remove` add two, of the removal and its end (`told`), once the gate is seen drained
//! (`drained`); one that is refused leaves the gate (`refused`). Each goes by the PnP table from where the keeper's
//! calls have left the device (`goes`): what the table takes is refused for want of memory at most. `close` gives the
//! trace, a run with all receipts, in which row c has just client c's calls in order (`closed`, `told`); behind
//! `Removed` nothing is open or out (`settled_at_removed`). Act n is of the journal's entry n (`acts`), the entries
//! replay to the sectors (`replays`), and the trace is a run whose acts read and write sectors, to the medium's where
//! it has an act for each entry (`run`). Not promised: an order between clients that told each other nothing. What a
//! call that takes a [`Wait`](std::sync::Wait) promises holds if it returns.
#![tactic(auto)]

mod account;
mod call;
mod client;
mod closing;
mod condvars;
mod desk;
mod holds;
mod host;
mod kept;
mod name;
mod notice;
mod opened;
mod receipts;
mod removal;
mod shared;
mod ticket;

pub use call::{Answered, Call, Places, Reason, Refusal};
pub use client::Client;
pub use closing::Closed;
pub use host::{Host, Keeper};
pub use name::HostNaming;
pub use opened::{HostFault, Opened};
pub use ticket::Ticket;
