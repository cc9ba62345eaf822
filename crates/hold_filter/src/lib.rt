//! The hold filter: it lets at most a window of requests into the device below, and holds the others.
//!
//! # Promises
//!
//! `Filter<D>` is a `Device` and `Hold` over any that takes buffers and has no window (`opening`). At most `window`
//! requests are started, in the order of their numbers (`IsSending`, `MayStart`). During a pause new ones are held and
//! what is below goes on (`pauses`, `submits`, `hands_up`); its end releases them (`resumes`). A held one ends as
//! CANCELLED or DELETE_PENDING, with nothing moved, and its payload and cancel routine as they came (`answers`,
//! `brings_routine`). `cancel_at` takes it out of its queue by three visits at most, with two of the queue of the
//! cancelled (`held`, `visits`, `ended_visits`).
#![tactic(auto)]

mod filter;
mod layer;
mod packets;
mod parts;
mod table;
mod table_calls;

pub use filter::Filter;
