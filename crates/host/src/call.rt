//! A client's call, and what the client is told.

ghost use Rattle.std.specs.Prelude.{◌≡◌, ◌<◌, ◌+◌, ◌^◌, None, Some, false, true};
ghost use Rattle.traced.specs.Serving.{is_handle_event};
ghost use Rattle.book.specs.Book.{call_handle};
ghost use Rattle.host.specs.Calls.{buffer_of, event_of};
ghost use Rattle.host.specs.Standing.{is_others};
ghost use Rattle.host.specs.declared.call.Reason.TheVariants.{Refused};

use compose::{Answer, Event, Handle, Refusal as Why};
use sector::Bytes;
use std::alloc::Global;

/// What a client asks of its partition. Offsets and lengths are in bytes.
#[derive(Drop)]
pub enum Call {
    /// A read of as many bytes as the buffer has (WDK: IRP_MJ_READ).
    Read {
        offset: u64,
        buffer: Bytes,
    },
    /// A write of these bytes, past volatile caches if `through` (WDK: IRP_MJ_WRITE, SL_WRITE_THROUGH).
    Write {
        offset: u64,
        bytes: Bytes,
        through: bool,
    },
    /// A flush of the disk's caches (WDK: IRP_MJ_FLUSH_BUFFERS).
    Flush,
}

/// The places of a call and of its answer in the trace, counted from 0.
#[derive(Clone, Copy)]
pub struct Places {
    pub call: usize,
    pub answer: usize,
}

impl Places {
    /// The places of a call at this place and of an answer right behind it.
    pub(crate) fn at_once(call: usize) -> Places
        requires fits { call + 1 < 2 ^ 64 }
        ensures { result ≡ record { call = call; answer = call + 1 } }
    {
        Places {
            call,
            answer: call + 1,
        }
    }
}

/// How a call that was issued ended.
#[derive(Drop)]
pub struct Answered {
    pub answer: Answer,
    pub places: Places,
}

/// Why there is no ticket.
#[derive(Clone, Copy)]
pub enum Reason {
    /// The reason of the stack. Also `DeletePending` where the gate is closed, and `InsufficientResources` where memory
    /// for the call's receipts was refused.
    Refused(Why),
    /// The client has 64 tickets out, the most that it may have.
    TooManyTickets,
}

/// A call for which there is no ticket, with the caller's bytes. Where the call reached the trace, the refusal has the
/// places of its two labels there.
#[derive(Drop)]
pub struct Refusal {
    pub reason: Reason,
    pub bytes: Bytes,
    pub places: Option<Places>,
}

impl Refusal {
    /// The refusal of a call by the stack, with the places of its labels where it has any.
    pub(crate) fn of_stack(why: Why, bytes: Bytes, places: Option<Places>) -> Refusal
        ensures { result ≡ record { reason = Refused why; bytes = bytes; places = places } }
    {
        Refusal {
            reason: Reason::Refused(why),
            bytes,
            places,
        }
    }
}

impl Call {
    /// The call as an event on a handle.
    pub(crate) fn on(self, handle: Handle) -> Event
        ensures event { result ≡ event_of handle self }
        ensures call { (is_handle_event result ≡ false) × (call_handle result ≡ Some handle) × (is_others result ≡ true) }
    {
        match self {
            Call::Read { offset, buffer } => Event::Read {
                handle,
                offset,
                buffer,
            },
            Call::Write {
                offset,
                bytes,
                through,
            } => Event::Write {
                handle,
                offset,
                bytes,
                through,
            },
            Call::Flush => Event::Flush { handle },
        }
    }

    /// The refusal of a call that did not reach the book.
    pub(crate) fn refused(self, alloc: Global, reason: Reason) -> Refusal
        ensures { result ≡ record { reason = reason; bytes = buffer_of self; places = None } }
    {
        let bytes = match self {
            Call::Read { buffer, .. } => buffer,
            Call::Write { bytes, .. } => bytes,
            Call::Flush => Bytes::new(Vec::new(alloc)),
        };
        Refusal {
            reason,
            bytes,
            places: None,
        }
    }
}
