//! Steps as a table or dice write them.

use compose::{Event, Handle, Id};
use sector::Bytes;
use std::alloc::{AllocError, Global};

/// The handle of a step.
#[derive(Clone, Copy)]
pub enum On {
    /// This handle, open or not.
    Made(Handle),
    /// A handle that the stack gave, counted from the last back, and round.
    Given(u32),
}

/// The request of a cancel.
#[derive(Clone, Copy)]
pub enum Target {
    /// All requests on the handle.
    All,
    /// This request, open or not.
    Made(Id),
    /// A request that the stack gave, counted from the last back, and round.
    Given(u32),
}

/// What happens to a stack. Offsets and lengths are in bytes.
#[derive(Clone, Copy)]
pub enum Step {
    Open(u8),
    Close(On),
    Read(On, u64, u32),
    /// A write of equal bytes, write-through or not.
    Write(On, u64, u32, u8, bool),
    Flush(On),
    Cancel(On, Target),
    Mark(u64),
    QueryRemove,
    CancelRemove,
    Remove,
    SurpriseRemove,
    Act(u8),
    Finish(u8),
    Reset,
}

/// The handles and the requests that a stack gave so far.
#[derive(Drop)]
pub struct Given {
    pub handles: Vec<Handle>,
    pub requests: Vec<Id>,
}

/// An entry counted from the last back, and round; none where there is none.
fn from_back<T: Copy>(entries: &[T], back: u32) -> Option<T> {
    let back = (back as usize).checked_rem(entries.len())?;
    entries.iter().rev().nth(back).copied()
}

impl Given {
    /// No handles and no requests yet.
    pub fn new(alloc: Global) -> Given {
        Given {
            handles: Vec::new(alloc),
            requests: Vec::new(alloc),
        }
    }

    fn handle(&self, on: On) -> Handle {
        match on {
            On::Made(handle) => handle,
            On::Given(back) => match from_back(self.handles.as_slice(), back) {
                Some(handle) => handle,
                None => Handle { slot: 0, number: 1 },
            },
        }
    }

    fn target(&self, target: Target) -> Option<Id> {
        match target {
            Target::All => None,
            Target::Made(id) => Some(id),
            Target::Given(back) => from_back(self.requests.as_slice(), back),
        }
    }

    /// The event of a step.
    pub fn event(&self, alloc: Global, step: Step) -> Result<Event, AllocError> {
        Ok(match step {
            Step::Open(partition) => Event::Open { partition },
            Step::Close(on) => Event::Close {
                handle: self.handle(on),
            },
            Step::Read(on, offset, length) => Event::Read {
                handle: self.handle(on),
                offset,
                buffer: bytes(alloc, 0, length)?,
            },
            Step::Write(on, offset, length, byte, through) => Event::Write {
                handle: self.handle(on),
                offset,
                bytes: bytes(alloc, byte, length)?,
                through,
            },
            Step::Flush(on) => Event::Flush {
                handle: self.handle(on),
            },
            Step::Cancel(on, target) => Event::CancelIoEx {
                handle: self.handle(on),
                target: self.target(target),
            },
            Step::Mark(number) => Event::Mark { number },
            Step::QueryRemove => Event::QueryRemove,
            Step::CancelRemove => Event::CancelRemove,
            Step::Remove => Event::Remove,
            Step::SurpriseRemove => Event::SurpriseRemove,
            Step::Act(tag) => Event::Act { tag },
            Step::Finish(tag) => Event::Finish { tag },
            Step::Reset => Event::Reset,
        })
    }
}

fn bytes(alloc: Global, byte: u8, length: u32) -> Result<Bytes, AllocError> {
    Ok(Bytes::new(vec![in alloc; byte; length as usize]?))
}
