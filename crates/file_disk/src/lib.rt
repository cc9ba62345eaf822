//! A disk in a file: the pieces of a stack are moved by three calls, which a file has.
//!
//! [`MemoryFile`] is a storage in memory, and [`DiskFile`] a file of the system. Each keeps its calls in a [`Record`],
//! as any other storage has to.
//!
//! # Promises
//!
//! `FileDisk::transfer` moves just what a piece asks for, by the calls of its storage (`transfers`), and what came of
//! it may be booked (`suits`). What was sent isn't handed back (`Moved`). A piece of which a call failed fails, and
//! only a read may lack memory. `is_full` tells whether the storage had no room for the newest write that it refused
//! (`room`). `Record` has each call, the newest first. What a disk did for a copy of an SRB, it did for the SRB itself
//! (`copies_do_the_same`).
#![tactic(auto)]

mod copies;
mod disk_file;
mod file_disk;
mod memory;
mod moving;
mod record;
mod storage;
mod untouched;

pub use copies::{copies_do_the_same, copy_of, is_copy};
pub use disk_file::DiskFile;
pub use file_disk::{FileDisk, Moved, Sizes, Task};
pub use memory::MemoryFile;
pub use moving::{read_all, write_all};
pub use record::Record;
pub use storage::{Failure, Storage};
