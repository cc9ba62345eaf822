//! The whole stack of one disk over an adapter, seen as one sector machine: calls and adapter steps go in, answers,
//! bytes and labels come out.
//!
//! # Promises
//!
//! [`Stack::step`]: its labels are a run of the machine, and the adapter moved by just the device labels among them
//! (`right`); the stack is then settled (`settled`), a removal with nothing open has ended (`finished`), and all fits
//! together (`whole`). `step_untraced` is a step whose labels are forgotten. `run` carries out each event, or just the
//! first `done` (`carries`, `within`), and its labels obey the laws of whole runs, what SUCCESS means and what an act
//! was asked for among them (`lawful`). `start` gives the opening state (`view`), or fails by settings with nothing
//! sent, as `probe` does, or for memory (`fault`). A step makes one call at most, first (`steps_call_once`). Only a
//! read, a write or a flush wants memory; after each other step no table has grown (`steps_take_no_memory`). Each
//! answer waits, or the reply says it (`steps_leave_answers`). What opens is what `admits` told (`steps_open_as_told`). `first_answer` shows the next
//! answer (`IsNextAnswer`), and `refuse` is the step of a refused call without its buffer (`Refuses`). Over a journal:
//! `armed_may_be_booked`, `booked_acts_add_entries`, `steps_keep_entries`, `idle_acts_keep_entries`,
//! `steps_stay_apart`, `booked_acts_tell`; what is armed asks for its piece's places, with the bytes of its request
//! (`armed_ask_for_pieces`). Not promised: an order between requests that overlap.
#![tactic(auto)]

mod events;
mod laws;
mod stack;
mod start;

use adapter::Adapter;
use device::Label;
pub use io_manager::{Answer, Asked, Handle, Id, OpenHandle, Refusal, Reply};
pub use laws::{
    armed_ask_for_pieces, armed_may_be_booked, booked_acts_add_entries, booked_acts_tell,
    idle_acts_keep_entries, steps_call_once, steps_keep_entries, steps_keep_rules,
    steps_leave_answers, steps_open_as_told, steps_stay_apart, steps_take_no_memory,
};
pub use mbr::MbrFault;
use ntstatus::NtStatus;
use sector::Bytes;
pub use stack::Stack;
use thiserror::Error;

/// How many sectors the longest request of a stack has.
pub const LONGEST_REQUEST: u32 = 65_536;

/// Which busy return of a request ends it.
pub const LAST_BUSY_RETURN: u32 = 17;

/// Limits that the user of a stack chooses.
#[derive(Debug, Clone, Copy, PartialEq, Eq)]
pub struct Settings {
    /// How many requests are at work at once, 1 to 64; others are held.
    pub window: u32,
    /// How many requests may be open at once, 1 to 64.
    pub open_requests: u32,
}

/// What can happen to a stack.
#[derive(Debug, Drop)]
pub enum Event {
    /// A handle on a partition, counted from 0, is asked for (WDK: IRP_MJ_CREATE).
    Open {
        partition: u8,
    },
    /// A handle is closed; the requests that are open on it are cancelled first (WDK: IRP_MJ_CLEANUP).
    Close {
        handle: Handle,
    },
    /// A read of as many bytes as the buffer has, from byte `offset` of the handle's partition on (WDK: IRP_MJ_READ).
    Read {
        handle: Handle,
        offset: u64,
        buffer: Bytes,
    },
    /// A write of these bytes, from byte `offset` of the handle's partition on, past volatile caches if `through` (WDK:
    /// IRP_MJ_WRITE, SL_WRITE_THROUGH).
    Write {
        handle: Handle,
        offset: u64,
        bytes: Bytes,
        through: bool,
    },
    /// A flush of the disk's caches (WDK: IRP_MJ_FLUSH_BUFFERS).
    Flush {
        handle: Handle,
    },
    /// All requests that are open on a handle are cancelled, or the one that is given (CancelIoEx; WDK: IoCancelIrp).
    ///
    /// # Example
    ///
    /// ```
    /// let target = request.map(|number| Id { slot: 0, number });
    /// other(rt, desk, Event::CancelIoEx { handle, target })
    /// ```
    CancelIoEx {
        handle: Handle,
        target: Option<Id>,
    },
    /// The open request of a number is cancelled, whatever its handle (WDK: IoCancelIrp).
    Mark {
        number: u64,
    },
    /// Asks whether the device may go; where it may, new requests are then held (WDK:
    /// IRP_MN_QUERY_REMOVE_DEVICE).
    QueryRemove,
    /// The query is taken back, and held requests go on (WDK: IRP_MN_CANCEL_REMOVE_DEVICE).
    CancelRemove,
    /// The device is removed after a query (WDK: IRP_MN_REMOVE_DEVICE).
    Remove,
    /// The device was pulled out (WDK: IRP_MN_SURPRISE_REMOVAL and the IRP_MN_REMOVE_DEVICE behind it, in one).
    SurpriseRemove,
    /// The adapter carries out the command of the piece on a tag, or fails it. Tags count from 0.
    Act {
        tag: u8,
    },
    /// The adapter hands the piece on a tag back, whether or not it acted (WDK: StorPortNotification, RequestComplete).
    Finish {
        tag: u8,
    },
    /// The adapter is reset: each piece that has done nothing fails, and each piece out will come back as bad (WDK:
    /// HwStorResetBus).
    Reset,
}

/// The reply to an event, and the labels of its step in order.
#[derive(Debug, Drop)]
pub struct Shown {
    pub reply: Reply,
    pub labels: Vec<Label>,
}

/// A run that stopped because memory for its result was refused, after just the first `done` events and before the
/// last, with what each of these showed.
#[derive(Debug, Drop, Error)]
#[error("no memory for the result after {done} events")]
pub struct RunStopped {
    pub shown: Vec<Shown>,
    pub done: usize,
}

/// Why a stack could not be started.
#[derive(Debug, Clone, Copy, PartialEq, Eq, Error)]
pub enum StartFault {
    /// A setting is out of range; nothing was sent.
    #[error("a setting is out of range")]
    Settings,
    /// The adapter failed READ CAPACITY or the read of sector 0, with this status.
    #[error("the device failed a command of the start: {0}")]
    Device(NtStatus),
    /// Sector 0 holds no partition table that is right.
    #[error("the partition table is wrong: {0}")]
    Mbr(MbrFault),
    /// Memory was refused.
    #[error("no memory")]
    NoMemory,
}

/// Why a stack could not be started over an adapter, and the adapter.
#[derive(Drop)]
pub struct NotStarted<A: Adapter> {
    pub fault: StartFault,
    pub adapter: A,
}
