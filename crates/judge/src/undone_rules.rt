//! What can be left undone at the end of an event, each as a sentence.

use ntstatus::NtStatus;
use thiserror::Error;

/// What should have gone before the event ended.
#[derive(Debug, Clone, Copy, PartialEq, Eq, Error)]
pub enum Undone {
    #[error("call {number} was refused with {status}, and is not answered")]
    Owed { number: u64, status: NtStatus },
    #[error("{started} requests are started, and {window} are the most")]
    Window { window: u64, started: u64 },
    #[error("request {number} is cancelled, and not answered, with nothing at the adapter")]
    Cancelled { number: u64 },
    #[error("the device is being removed, and request {number} not answered, with nothing at the adapter")]
    Removing { number: u64 },
    /// Each place of the request is done or failed, so nothing is left to wait for.
    #[error("each sector of request {number} has come back, and it is not answered")]
    Ended { number: u64 },
    #[error("nothing is at the adapter, and request {number} waits, which no pause holds")]
    Idle { number: u64 },
    #[error("a tag is free, and request {number} is started with nothing at the adapter")]
    AtRest { number: u64 },
    #[error("a tag is free, and a sector of request {number} waits to be sent")]
    Unsent { number: u64 },
    #[error("a tag is free, and request {number} waits to start")]
    Unstarted { number: u64 },
}
