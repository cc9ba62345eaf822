//! Tests of a book beside its journal, and of a host over both: in one thread, and with lanes of its own. The traces
//! that they make are worked by hand.
//!
//! # Promises
//!
//! Nothing.
#![tactic(auto)]

#[cfg(test)]
mod beside;
#[cfg(test)]
mod book_desk;
#[cfg(test)]
mod book_rows;
#[cfg(test)]
mod desk;
#[cfg(test)]
mod disks;
#[cfg(test)]
mod expect;
#[cfg(test)]
mod holding;
#[cfg(test)]
mod opened;
#[cfg(test)]
mod opening;
#[cfg(test)]
mod orders;
#[cfg(test)]
mod removing;
#[cfg(test)]
mod replaying;
#[cfg(test)]
mod rows;
#[cfg(test)]
mod scenes;
#[cfg(test)]
mod shown;
#[cfg(test)]
mod texts;
#[cfg(test)]
mod user;
