//! The events of a stack as C tells them, and the replies as C is told them.

ghost use Rattle.std.specs.Prelude.{◌≡◌, ◌≢◌, ◌≤◌, ◌+◌, ◌*◌, [], Some, IfErr, IfOk, slice_get};
ghost use Rattle.ntstatus.specs.declared.NtStatus.TheVariants.{InsufficientResources, Success};
ghost use Rattle.saddlemug.specs.Stepping.{IsStepStatus};
ghost use Rattle.saddlemug.specs.declared.events.EventKind.TheVariants.{Read, Write};
ghost use Rattle.saddlemug.specs.Stacks.{asked_event, bytes_called, event_by, kinds, replied, shown_reply};
ghost use Rattle.saddlemug.specs.TooLong.{IsRefusedAlike};

use crate::bytes::{copied, zeros};
use crate::status::refusal_status;
use compose::{Event, Handle, Id, Reply};
use ntstatus::NtStatus;
use std::alloc::Global;

/// A handle or an open request: its number, and its slot in the stack's table.
#[repr(C)]
#[derive(Clone, Copy, Drop)]
pub struct StackId {
    pub number: u64,
    pub slot: u32,
}

/// The kind of an event. C tells it by its place in this list, from 0.
#[derive(Clone, Copy)]
pub(crate) enum EventKind {
    Open,
    Close,
    Read,
    Write,
    Flush,
    CancelIoEx,
    Mark,
    QueryRemove,
    CancelRemove,
    Remove,
    SurpriseRemove,
    Act,
    Finish,
    Reset,
}

impl EventKind {
    /// The kind of a number.
    fn of(number: u32) -> Option<EventKind>
        ensures { result ≡ slice_get kinds number }
    {
        match number {
            0 => Some(EventKind::Open),
            1 => Some(EventKind::Close),
            2 => Some(EventKind::Read),
            3 => Some(EventKind::Write),
            4 => Some(EventKind::Flush),
            5 => Some(EventKind::CancelIoEx),
            6 => Some(EventKind::Mark),
            7 => Some(EventKind::QueryRemove),
            8 => Some(EventKind::CancelRemove),
            9 => Some(EventKind::Remove),
            10 => Some(EventKind::SurpriseRemove),
            11 => Some(EventKind::Act),
            12 => Some(EventKind::Finish),
            13 => Some(EventKind::Reset),
            _ => None,
        }
    }
}

/// An event. A field that its kind doesn't ask for is not read.
#[repr(C)]
#[derive(Clone, Copy)]
pub struct StackEvent {
    /// The number of its [`EventKind`].
    pub kind: u32,
    /// The partition of an open, counted from 0.
    pub partition: u8,
    /// The tag of an act or a finish.
    pub tag: u8,
    /// Whether a write goes past volatile caches.
    pub through: bool,
    /// Whether a CancelIoEx is for `request` alone.
    pub one: bool,
    pub handle: StackId,
    /// The request of a CancelIoEx for one alone. A mark reads its number.
    pub request: StackId,
    /// Where a read or a write begins, in bytes.
    pub offset: u64,
    /// The length of a read, in bytes.
    pub length: u64,
}

/// The reply to an event.
#[repr(C)]
#[derive(Clone, Copy)]
pub struct StackReply {
    /// The kind of the reply, by its place in [`Reply`], from 0.
    pub kind: u32,
    /// The status of a request that was answered at once, or of a refusal; else 0.
    pub status: u32,
    /// The handle or the request. Of a request that was answered at once only the number is told. Else it is 0.
    pub id: StackId,
}

/// The sectors of the longest request of the layers.
const LONGEST: u64 = 65_536;

/// How many bytes a read or a write of `count` bytes is called with, on sectors of `size` bytes: as many, or one alone
/// in place of more than 65,536 sectors have. One byte is no whole sector: it is refused as they would be
/// (`refused_alike`), and takes no memory to speak of.
fn bytes_called(size: u64, count: u64) -> u64
    ensures called { result ≡ bytes_called size count }
    ensures few { result ≤ 65536 * size + 1 }
    ensures among { result ≤ count }
    ensures refused_alike { IsRefusedAlike size count result }
{
    if u128::from(count) > u128::from(LONGEST) * u128::from(size) {
        1
    } else {
        count
    }
}

/// The event that C tells, with the bytes of a write, on sectors of `size` bytes.
///
/// # Errors
///
/// [`NtStatus::InvalidParameter`] where there is no such kind; [`NtStatus::InsufficientResources`] where memory was
/// refused.
pub(crate) fn event_of(
    alloc: Global,
    event: &StackEvent,
    bytes: &[u8],
    size: u64,
) -> Result<Event, NtStatus>
    ensures event { IfOk result (λ e. asked_event size event.now bytes.now ≡ Some e) }
    ensures fault { IfErr result (λ status. status ≢ Success) }
    ensures why { IfErr result (IsStepStatus event.now bytes.now) }
{
    let handle = handle_of(event.handle);
    let tag = event.tag;
    let Some(kind) = EventKind::of(event.kind) else {
        return Err(NtStatus::InvalidParameter);
    };
    match kind {
        EventKind::Open => Ok(Event::Open {
            partition: event.partition,
        }),
        EventKind::Close => Ok(Event::Close { handle }),
        EventKind::Read => read_of(alloc, event, size),
        EventKind::Write => write_of(alloc, event, bytes, size),
        EventKind::Flush => Ok(Event::Flush { handle }),
        EventKind::CancelIoEx => Ok(Event::CancelIoEx {
            handle,
            target: event.one.then_some(id_of(event.request)),
        }),
        EventKind::Mark => Ok(Event::Mark {
            number: event.request.number,
        }),
        EventKind::QueryRemove => Ok(Event::QueryRemove),
        EventKind::CancelRemove => Ok(Event::CancelRemove),
        EventKind::Remove => Ok(Event::Remove),
        EventKind::SurpriseRemove => Ok(Event::SurpriseRemove),
        EventKind::Act => Ok(Event::Act { tag }),
        EventKind::Finish => Ok(Event::Finish { tag }),
        EventKind::Reset => Ok(Event::Reset),
    }
}

/// The read that C tells.
fn read_of(alloc: Global, event: &StackEvent, size: u64) -> Result<Event, NtStatus>
    ensures event { IfOk result (λ e. e ≡ event_by size event.now [] Read) }
    ensures fault { IfErr result (λ status. status ≡ InsufficientResources) }
{
    match zeros(alloc, bytes_called(size, event.length)) {
        Ok(buffer) => Ok(Event::Read {
            handle: handle_of(event.handle),
            offset: event.offset,
            buffer,
        }),
        Err(_) => Err(NtStatus::InsufficientResources),
    }
}

/// The write that C tells, with its bytes.
fn write_of(alloc: Global, event: &StackEvent, bytes: &[u8], size: u64) -> Result<Event, NtStatus>
    ensures event { IfOk result (λ e. e ≡ event_by size event.now bytes.now Write) }
    ensures fault { IfErr result (λ status. status ≡ InsufficientResources) }
{
    let called = bytes_called(size, bytes.len() as u64);
    match copied(alloc, &bytes[..called as usize]) {
        Ok(bytes) => Ok(Event::Write {
            handle: handle_of(event.handle),
            offset: event.offset,
            bytes,
            through: event.through,
        }),
        Err(_) => Err(NtStatus::InsufficientResources),
    }
}

fn handle_of(id: StackId) -> Handle
    ensures slot { result.slot ≡ id.slot }
    ensures number { result.number ≡ id.number }
{
    Handle {
        slot: id.slot,
        number: id.number,
    }
}

fn id_of(id: StackId) -> Id
    ensures slot { result.slot ≡ id.slot }
    ensures number { result.number ≡ id.number }
{
    Id {
        slot: id.slot,
        number: id.number,
    }
}

/// A reply as C is told it. The bytes of a refused write are let go: C has its own.
pub(crate) fn told_reply(reply: Reply) -> StackReply
    ensures { result ≡ shown_reply reply }
{
    match reply {
        Reply::Handle(handle) => replied(0, 0, handle.number, handle.slot),
        Reply::Ok => replied(1, 0, 0, 0),
        Reply::Request(id) => replied(2, 0, id.number, id.slot),
        Reply::Answered(answer) => replied(3, answer.status.value(), answer.number, 0),
        Reply::Refused { refusal, .. } => replied(4, refusal_status(refusal).value(), 0, 0),
        Reply::Ignored => replied(5, 0, 0, 0),
    }
}

fn replied(kind: u32, status: u32, number: u64, slot: u32) -> StackReply
    ensures { result ≡ replied kind status number slot }
{
    StackReply {
        kind,
        status,
        id: StackId { number, slot },
    }
}
