//! The contract between the port and any adapter: a disk that takes SRBs on tags, carries their commands out and hands
//! them back.
//!
//! # Promises
//!
//! Of the trait [`Adapter`]: its sectors move by just the labels that it records (`accepts`, `acts`, `finishes`,
//! `resets`, `takes`, `forgets`). A piece acts once, by what its block means, or faults and changes no sector; good
//! means that it acted (`MayReturn`). A failure spoils no write's data (`IsSpoiled`). Only `reserve` reserves
//! (`reserves`), just runs of which its extent has a part (`near`), and it doesn't fail where they are reserved
//! (`ready`). An adapter that isn't faithful hands over as many bytes as asked. Labels have their bytes where it
//! `keeps_bytes`. `armed` is `exact`. `book` takes just what suits the SRB (`books`), and what was booked acts
//! (`acts`).
#![tactic(auto)]

mod calls;
mod laws;

pub use calls::Adapter;
pub use laws::sent_suits;
