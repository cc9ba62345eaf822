//! What `nbd_disk` reads ahead, passes on and says, and how long it waits.

mod ahead;
mod beside;
mod endings;
mod over;
mod second_thread;
mod waiting;
