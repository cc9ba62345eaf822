//! Worked cases of the judges of registers, histories, sectors and disks, each by its own name.
//!
//! # Promises
//!
//! Nothing.
#![tactic(auto)]

#[cfg(test)]
mod disks;
#[cfg(test)]
mod fitting;
#[cfg(test)]
mod histories;
#[cfg(test)]
mod registers;
#[cfg(test)]
mod sectors;
#[cfg(test)]
mod seen_sectors;
#[cfg(test)]
mod session_histories;
#[cfg(test)]
mod sessions;
