//! Tests of the libraries beside the stack and over it, by those of their public calls that no program makes, or only
//! where something fails: the judge by other rules, labels that no run has, readers and writers that fail, a second
//! thread, and volumes. What the programs print and say is compared by the cases in `examples/`.
//!
//! # Promises
//!
//! Nothing.
#![tactic(auto)]

pub mod desk;
#[cfg(test)]
mod expect;
#[cfg(test)]
mod failing;
#[cfg(test)]
mod labels;
#[cfg(test)]
mod one_block;
#[cfg(test)]
mod parts;
#[cfg(test)]
mod progress;
#[cfg(test)]
mod rules;
#[cfg(test)]
mod runs;
#[cfg(test)]
mod served;
#[cfg(test)]
mod sessions;
#[cfg(test)]
mod structured;
#[cfg(test)]
mod volumes;
