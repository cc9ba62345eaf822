//! Tests of the parts below the layers and beside them, by their public calls: statuses, sectors, command blocks, SRBs,
//! IRPs, disks, adapters, a disk in a file, queues, partition tables, the probe, removal, the gate, marks, histories,
//! movers and lanes. Tests of the layers `port`, `class_disk`, `hold_filter` and `partition`, each over an adapter in memory
//! and by the contract of a layer.
//!
//! A test ends well, or for want of memory: `.ci/refused_memory.py` refuses each request for memory in turn.
//!
//! # Promises
//!
//! Nothing.
#![tactic(auto)]

#[cfg(test)]
mod adapters;
#[cfg(test)]
mod asked;
#[cfg(test)]
mod booked;
#[cfg(test)]
mod commands;
#[cfg(test)]
mod disks;
#[cfg(test)]
mod expect;
#[cfg(test)]
mod extents;
#[cfg(test)]
mod files;
#[cfg(test)]
mod gates;
#[cfg(test)]
mod handed;
#[cfg(test)]
mod held;
#[cfg(test)]
mod histories;
#[cfg(test)]
mod layers;
#[cfg(test)]
mod links;
#[cfg(test)]
mod marks;
#[cfg(test)]
mod numbers;
#[cfg(test)]
mod packets;
#[cfg(test)]
mod probes;
#[cfg(test)]
mod session;
#[cfg(test)]
mod steps;
#[cfg(test)]
mod tables;
