//! All of the program `nbd_disk` but its `main`: its command line, the session over the disk of some settings, in
//! memory or in a storage, and the faults that end it early.
//!
//! # Promises
//!
//! `serve_disk`: nothing read, or a session over the partition's zeros, with its fault (`served`); why a request fails
//! there is only tested. `open_file`: sector 0 alone was read and fits the settings, whose limits the stack has
//! (`IsOpened`), or why not, after which calls (`IsOpenFault`). `serve_file`: the stack answered each request that it
//! called, or refused it at once (`HasOneCall`); the file got just the calls of its pieces (`IsFileSession`); a write
//! is ENOSPC where the storage had no room for the newest that it refused (`status_error`). `put_table`: the table
//! written and synced, or the last call failed, or none was made (`synced`, `IsPutFault`). `check_apart` refuses an
//! image that is known to be CONFIG or the output. A session over a file that keeps to `Stored` is one of the table of
//! `loss`, behind what was told of each request and at any moment of it (`served_are_sessions`): what a loss of power
//! leaves is what that table lets it leave. Sessions one behind the other, of whatever partitions, are one trace of
//! that table, with a line for how each ended (`served_series_are_sessions`). So a write that a client was told as done
//! stays, at any later moment, until a request writes its sector: if it was write-through, or once a flush that came
//! behind it was told as done, with no failed sync between (`done_is_kept`, which says nothing of
//! NBD_CMD_WRITE_ZEROES); the end of the process alone loses nothing that was told as done, where no sync failed since
//! or was under way (`AnsweredIsKept`); and sessions in a row keep what one of them left (`StaysOverSessions`). A
//! `Trace`, if its writer took all, has the lines of the labels that a session over a file told, in order, and no
//! others (`traces_tell_sessions`). `command`: paths, partition and flags as found (`IsFoundIn`). All for readers and
//! writers that tell their bytes. `serve_file_beside`: requests side by side (`IsFileSessionBeside`). Each that was
//! read has just one reply, by its cookie: of success once the stack had answered it, and before another piece came
//! back (`ToldInTurn`), of failure also for want of memory, or once a piece had failed (`EndsIn`). Acts and faults of
//! the stack are pieces that were moved, each by its own calls (`GoesBeside`), and those that may not be moved side by
//! side weren't at the storage at once (`Deals`). Of a loss of power nothing is promised there.
#![tactic(auto)]

mod beside;
mod busy;
mod doors;
mod dues;
mod elsewhere;
mod engine;
mod faults;
mod filed;
mod flying;
mod moving;
mod on_disk;
mod pace;
mod pens;
mod same_file;
mod served;
mod serving;
mod words;

pub use beside::{Threaded, disks_beside, serve_file_beside};
pub use faults::{Difference, DiskFault, Error};
pub use filed::Filed;
pub use on_disk::{
    commands_by_hand, disk_bytes, done_is_kept, open_file, put_table, read_only, serve_file,
    served_are_sessions, served_series_are_sessions, traces_tell_sessions,
};
pub use pens::{Pen, Silent, Trace};
pub use same_file::{Inode, check_apart};
pub use serving::serve_disk;
pub use words::asked::Asked;
pub use words::command;
