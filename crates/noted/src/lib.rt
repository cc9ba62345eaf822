//! A list that contracts alone read.
//!
//! # Promises
//!
//! A [`Noted`] is seen as the list that its maker names, and has no bytes. `unsafe`: `Send`.
#![tactic(auto)]

mod list;

pub use list::Noted;
