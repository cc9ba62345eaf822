//! The requests of a session that were read and that aren't answered.

ghost use Rattle.std.specs.Prelude.{◌≡◌, ◌⊎◌, [], None, Some, if◌then◌else◌, length, slice_get, slice_set, IfSome, IsTrue};
ghost use Rattle.ntstatus.specs.declared.NtStatus.TheVariants.{Success};
ghost use Rattle.compose.specs.StepLaws.{IsTransferEvent};
ghost use Rattle.nbd.specs.Replies.{failure, outcome_of, success};
ghost use Rattle.nbd.specs.declared.requests.Command.TheVariants.{WriteZeroes};
ghost use Rattle.nbd.specs.declared.requests.ReplyError.TheVariants.{Eio, Enomem};
ghost use Rattle.serving.specs.inside.Dues.{BeginsBy, EndsAs, GoesOnBy, IsStageOf, due_places, success_at};
ghost use Rattle.serving.specs.declared.dues.Stage.TheVariants.{Ready as IsReady};

use crate::elsewhere::Reached;
use crate::filed::{PIECE, refusal_error, status_error, zeros};
use compose::{Answer as StackAnswer, Event, Handle};
use nbd::{Answer, Command, ReplyError};
use ntstatus::NtStatus;
use sector::Bytes;
use std::alloc::Global;

/// A request that the stack was asked for.
#[derive(Debug, Clone, Copy)]
pub(crate) struct Due {
    /// Its place among all that were read, counted from 0.
    pub(crate) place: u64,
    /// The client's name for it.
    pub(crate) cookie: u64,
    pub(crate) command: Command,
    /// How many zeros the stack was asked to write so far.
    pub(crate) done: u32,
    /// The number of the stack's request whose answer it waits for.
    pub(crate) number: u64,
}

/// An answer that is to be told.
#[derive(Debug, Drop)]
pub(crate) struct Ready {
    pub(crate) place: u64,
    pub(crate) cookie: u64,
    pub(crate) answer: Answer,
}

/// Where a request stands behind what the stack said to it.
#[derive(Debug, Drop)]
pub(crate) enum Stage {
    /// It waits for the stack's answer.
    Waits(Due),
    Ready(Ready),
}

impl Due {
    /// Whether it asked for what was written to go past volatile caches.
    pub(crate) fn syncs(&self) -> bool {
        match self.command {
            Command::Read { .. } => false,
            Command::Flush => true,
            Command::Write { through, .. } | Command::WriteZeroes { through, .. } => through,
        }
    }
}

/// Whether a slot has no request.
fn is_free(slot: &Option<Due>) -> bool
    ensures { IsTrue result → slot.now ≡ None }
{
    match slot {
        Some(_) => false,
        None => true,
    }
}

/// Returns a slot with no request.
pub(crate) fn free_slot(slots: &[Option<Due>]) -> Option<usize>
    ensures { IfSome result (λ at. slice_get slots.now at ≡ Some None) }
{
    for at in 0..slots.len() {
        if is_free(&slots[at]) {
            return Some(at);
        }
    }
    None
}

/// Returns whether no slot has a request.
pub(crate) fn are_free(slots: &[Option<Due>]) -> bool
    ensures { IsTrue result → due_places slots.now ≡ [] }
{
    for at in 0..slots.len() {
        if !is_free(&slots[at]) {
            return false;
        }
    }
    true
}

/// Returns the request that waits for the stack's answer of this number, and its slot.
pub(crate) fn find_due(slots: &[Option<Due>], number: u64) -> Option<(usize, Due)>
    ensures { IfSome result (λ found. (slice_get slots.now found.0 ≡ Some (Some found.1)) × (found.1.number ≡ number)) }
{
    for at in 0..slots.len() {
        if let Some(due) = &slots[at] {
            if due.number == number {
                return Some((at, *due));
            }
        }
    }
    None
}

/// Puts a request into a slot, or frees it.
pub(crate) fn put(slots: &mut Vec<Option<Due>>, at: usize, due: Option<Due>)
    ensures { slots.new.items ≡ slice_set slots.old.items at due }
{
    if let Some(place) = slots.get_mut(at) {
        *place = due;
    }
}

/// Returns what a command asks the stack for first, and how many zeros that writes; nothing where memory is refused.
pub(crate) fn first_event(
    alloc: Global,
    handle: Handle,
    command: Command,
    payload: Vec<u8>,
) -> Option<(Event, u32)>
    ensures begins { IfSome result (λ first. BeginsBy handle command payload.items first.1 first.0) }
    ensures transfer { IfSome result (λ first. IsTransferEvent first.0) }
{
    match command {
        Command::Read { offset, count } => {
            let buffer = Bytes::new(resized(payload, count)?);
            Some((
                Event::Read {
                    handle,
                    offset,
                    buffer,
                },
                0,
            ))
        }
        Command::Write {
            offset,
            through,
            ..
        } => {
            let bytes = Bytes::new(payload);
            Some((
                Event::Write {
                    handle,
                    offset,
                    bytes,
                    through,
                },
                0,
            ))
        }
        Command::Flush => Some((Event::Flush { handle }, 0)),
        Command::WriteZeroes {
            offset,
            count,
            through,
        } => first_zeros(alloc, handle, offset, count, through),
    }
}

/// Returns memory of this many bytes, with whatever bytes it has, or nothing where memory is refused.
fn resized(room: Vec<u8>, count: u32) -> Option<Vec<u8>>
    ensures { IfSome result (λ room. length room.items ≡ count) }
{
    let mut room = room;
    match room.resize(count as usize, 0) {
        Ok(()) => Some(room),
        Err(_) => None,
    }
}

/// Returns the write of the first zeros of a command, and how many they are.
fn first_zeros(
    alloc: Global,
    handle: Handle,
    offset: u64,
    count: u32,
    through: bool,
) -> Option<(Event, u32)>
    ensures begins { IfSome result (λ first. BeginsBy handle (WriteZeroes offset count through) [] first.1 first.0) }
    ensures transfer { IfSome result (λ first. IsTransferEvent first.0) }
{
    let piece = count.min(PIECE);
    let bytes = Bytes::new(zeros(alloc, piece)?);
    Some((
        Event::Write {
            handle,
            offset,
            bytes,
            through,
        },
        piece,
    ))
}

/// Whether zeros are left to be written, once the stack's answer with this status came.
pub(crate) fn has_more(due: &Due, status: NtStatus) -> bool
    ensures { IsTrue result → status ≡ Success }
{
    match status {
        NtStatus::Success => has_zeros_left(due),
        _ => false,
    }
}

/// Whether zeros are left to be written.
fn has_zeros_left(due: &Due) -> bool {
    match due.command {
        Command::WriteZeroes { count, .. } => due.done < count,
        Command::Read { .. } | Command::Write { .. } | Command::Flush => false,
    }
}

/// Returns the write of the next zeros of a command, and how many zeros the stack was asked for then; nothing where
/// there are none, or memory is refused.
pub(crate) fn next_event(alloc: Global, handle: Handle, due: &Due) -> Option<(Event, u32)>
    ensures goes_on { IfSome result (λ next. GoesOnBy handle due.now.command due.now.done next.1 next.0) }
    ensures transfer { IfSome result (λ next. IsTransferEvent next.0) }
{
    let Command::WriteZeroes {
        offset,
        count,
        through,
    } = due.command
    else {
        return None;
    };
    let piece = count.checked_sub(due.done)?.min(PIECE);
    let offset = offset.checked_add(due.done as u64)?;
    let bytes = Bytes::new(zeros(alloc, piece)?);
    Some((
        Event::Write {
            handle,
            offset,
            bytes,
            through,
        },
        due.done + piece,
    ))
}

/// Returns how a request ends by the stack's answer, with the memory that it gives back. With `full` the storage had no
/// room for the newest of the writes that it refused; with `spoiled` a sync failed since the request was read.
pub(crate) fn answer_of(
    due: &Due,
    full: bool,
    spoiled: bool,
    answer: StackAnswer,
) -> (Answer, Option<Vec<u8>>)
    ensures { EndsAs due.now full answer (outcome_of result.0) ⊎ (IsTrue spoiled × (outcome_of result.0 ≡ failure Eio)) }
{
    match answer.status {
        NtStatus::Success => {
            if spoiled && due.syncs() {
                return (Answer::Refused(ReplyError::Eio), None);
            }
            success_of(due, answer.bytes)
        }
        status => (Answer::Refused(status_error(full, status)), None),
    }
}

/// Returns how a request ends whose stack request succeeded, with the memory that it gives back.
fn success_of(due: &Due, bytes: Bytes) -> (Answer, Option<Vec<u8>>)
    ensures { outcome_of result.0 ≡ success_at due.now bytes }
{
    match due.command {
        Command::Read { .. } => (Answer::Data(bytes.into_vec()), None),
        Command::Write { .. } => (Answer::Done, Some(bytes.into_spare())),
        Command::Flush => (Answer::Done, None),
        Command::WriteZeroes { count, .. } => (zeros_answer(due.done == count), None),
    }
}

/// Returns how a write of zeros ends, with `whole` once all are written.
fn zeros_answer(whole: bool) -> Answer
    ensures { outcome_of result ≡ if whole then success [] else failure Enomem }
{
    if whole {
        Answer::Done
    } else {
        Answer::Refused(ReplyError::Enomem)
    }
}

/// Returns where a request stands behind what the stack said to it.
pub(crate) fn stage_of(due: Due, full: bool, reached: Reached) -> Stage
    ensures { IsStageOf due full reached result }
{
    match reached {
        Reached::Called(number) => Stage::Waits(Due { number, ..due }),
        Reached::Answered(answer) => {
            let (answer, _) = answer_of(&due, full, false, answer);
            ready_at(due, answer)
        }
        Reached::Refused(reason) => ready_at(due, Answer::Refused(refusal_error(reason))),
    }
}

/// Returns where a request stands whose answer is known.
pub(crate) fn ready_at(due: Due, answer: Answer) -> Stage
    ensures { result ≡ IsReady (record { place = due.place; cookie = due.cookie; answer = answer }) }
{
    Stage::Ready(Ready {
        place: due.place,
        cookie: due.cookie,
        answer,
    })
}
