//! A partition of a disk in a storage, served.

ghost use Rattle.std.specs.Prelude.{◌≡◌, ◌≤◌, ◌<◌, ◌+◌, ◌^◌, IfSome, length, replicate};
ghost use Rattle.std.specs.Result.{result_err, result_map_both};
ghost use Rattle.compose.specs.StepLaws.{IsTransferEvent};
ghost use Rattle.compose.specs.declared.Event.TheVariants.{Write as WriteEvent, Flush as FlushEvent};
ghost use Rattle.nbd.specs.Replies.{outcome_of};
ghost use Rattle.serving.specs.Filed.{ClearsBy, Flushes, IsAsked, IsDone, Reads, Writes, plain_outcome, read_outcome, refusal_error, status_error};

use crate::moving::carry_out;
use crate::pens::Pen;
use compose::{Event, Handle, Refusal, Stack};
use file_disk::{FileDisk, Storage};
use miniport::BookedAdapter;
use nbd::{Answer, Backing, Command, ReplyError, Sizes};
use ntstatus::NtStatus;
use sector::Bytes;
use std::alloc::Global;
use std::marker::Model;
use std::mem;

/// How many zeros are written at once: whole sectors of either size.
pub(crate) const PIECE: u32 = 1_048_576;

/// A partition of a stack whose sectors stand in a storage, open for one user. Its pen is told of each step.
#[derive(Drop)]
pub struct Filed<S: Storage + Drop, P: Pen + Drop> {
    pub(crate) stack: Stack<BookedAdapter>,
    pub(crate) disk: FileDisk<S>,
    pub(crate) pen: P,
    pub(crate) handle: Handle,
    pub(crate) sizes: Sizes,
    /// How many requests may be open at once.
    pub(crate) open_requests: u32,
    /// The memory for the bytes of the next request.
    pub(crate) kept: Vec<u8>,
}

impl<S: Storage + Drop, P: Pen + Drop> Model for Filed<S, P> {
    ghost use Rattle.serving.specs.Carried.{over};
    ghost use Rattle.serving.specs.Traces.{shown_to};
    ghost use Rattle.serving.specs.Filed.{FiledKept, FiledView};

    ghost Value = { FiledView };

    ghost view = { λ f. record { carried = over (shown_to P.keeps f.stack) f.disk (P.trace f.pen); handle = f.handle; sizes = f.sizes } };

    ghost invariant = { λ f. FiledKept (over (shown_to P.keeps f.stack) f.disk (P.trace f.pen)) f.sizes };
}

impl<S: Storage + Drop, P: Pen + Drop> Filed<S, P> {
    /// Gives the pen back.
    pub fn into_pen(self) -> P
        ensures { P.trace result ≡ self.carried.trace }
    {
        let Filed { pen, .. } = self;
        pen
    }

    /// Says that the partition's bytes can be counted. It does nothing; its contract is for callers.
    fn shows_few(&self)
        ensures { self.now.sizes.bytes ≤ 2 ^ 63 }
    {
        let _sizes = &self.sizes;
    }

    /// Carries a request out, and returns the bytes of its answer.
    ///
    /// # Errors
    ///
    /// The error by which the request's status, or the reason of its refusal, is told.
    fn ask(&mut self, alloc: Global, event: Event) -> Result<Bytes, ReplyError>
        requires { IsTransferEvent event }
        ensures asked { IsAsked self.old event result self.new }
        ensures same { self.new.sizes ≡ self.old.sizes }
    {
        match carry_out(&mut self.stack, &mut self.disk, &mut self.pen, alloc, event) {
            Ok(answer) => match answer.status {
                NtStatus::Success => Ok(answer.bytes),
                status => Err(status_error(self.disk.is_full(), status)),
            },
            Err(reason) => Err(refusal_error(reason)),
        }
    }

    /// Carries a request out that brings no bytes.
    ///
    /// # Errors
    ///
    /// As `ask`.
    fn finish(&mut self, alloc: Global, event: Event) -> Result<(), ReplyError>
        requires { IsTransferEvent event }
        ensures done { IsDone self.old event (result_err result) self.new }
        ensures same { self.new.sizes ≡ self.old.sizes }
    {
        match self.ask(alloc, event) {
            Ok(bytes) => {
                self.kept = bytes.into_spare();
                Ok(())
            }
            Err(error) => Err(error),
        }
    }

    /// Returns memory for this many bytes, with whatever bytes it has, or nothing where more is refused.
    fn take_room(&mut self, alloc: Global, count: u32) -> Option<Vec<u8>>
        ensures room { IfSome result (λ room. length room.items ≡ count) }
        ensures same { self.new ≡ self.old }
    {
        let mut room = mem::replace(&mut self.kept, Vec::new(alloc));
        match room.resize(count as usize, 0) {
            Ok(()) => Some(room),
            Err(_) => None,
        }
    }

    /// Reads `count` bytes from byte `offset` on.
    ///
    /// # Errors
    ///
    /// As `ask`; [`ReplyError::Enomem`].
    fn read(&mut self, alloc: Global, offset: u64, count: u32) -> Result<Bytes, ReplyError>
        ensures reads { Reads self.old offset count result self.new }
        ensures same { self.new.sizes ≡ self.old.sizes }
    {
        let Some(buffer) = self.take_room(alloc, count) else {
            return Err(ReplyError::Enomem);
        };
        let event = Event::Read {
            handle: self.handle,
            offset,
            buffer: Bytes::new(buffer),
        };
        self.ask(alloc, event)
    }

    /// Writes bytes from byte `offset` on; with `through`, past volatile caches.
    ///
    /// # Errors
    ///
    /// As `ask`.
    fn write(
        &mut self,
        alloc: Global,
        offset: u64,
        bytes: Vec<u8>,
        through: bool,
    ) -> Result<(), ReplyError>
        ensures writes { Writes self.old offset bytes.items through (result_err result) self.new }
        ensures same { self.new.sizes ≡ self.old.sizes }
    {
        let event = Event::Write {
            handle: self.handle,
            offset,
            bytes: Bytes::new(bytes),
            through,
        };
        self.finish(alloc, event)
    }

    /// Brings what was written past volatile caches.
    ///
    /// # Errors
    ///
    /// As `ask`.
    fn flush(&mut self, alloc: Global) -> Result<(), ReplyError>
        ensures flushes { Flushes self.old (result_err result) self.new }
        ensures same { self.new.sizes ≡ self.old.sizes }
    {
        let event = Event::Flush {
            handle: self.handle,
        };
        self.finish(alloc, event)
    }

    /// Writes `count` zeros from byte `offset` on, by one request after another.
    ///
    /// # Errors
    ///
    /// As `ask`; [`ReplyError::Enomem`].
    fn clear(
        &mut self,
        alloc: Global,
        offset: u64,
        count: u32,
        through: bool,
    ) -> Result<(), ReplyError>
        requires { offset + count < 2 ^ 64 }
        ensures clears { ClearsBy self.old offset count through (result_err result) self.new }
        ensures same { self.new.sizes ≡ self.old.sizes }
    {
        let mut done = 0;
        while done < count {
            let piece = (count - done).min(PIECE);
            let Some(zeros) = zeros(alloc, piece) else {
                return Err(ReplyError::Enomem);
            };
            if let Err(error) = self.write(alloc, offset + done as u64, zeros, through) {
                return Err(error);
            }
            done += piece;
        }
        Ok(())
    }
}

/// Returns this many zeros, or nothing where memory was refused.
pub(crate) fn zeros(alloc: Global, count: u32) -> Option<Vec<u8>>
    ensures { IfSome result (λ bytes. bytes.items ≡ replicate count 0) }
{
    vec![in alloc; 0; count as usize].ok()
}

/// Returns the error of a request that failed. With `full` the storage had no room for the newest of the writes that it
/// refused.
pub(crate) fn status_error(full: bool, status: NtStatus) -> ReplyError
    ensures { result ≡ status_error full status }
{
    match status {
        NtStatus::InsufficientResources => ReplyError::Enomem,
        NtStatus::MediaWriteProtected if full => ReplyError::Enospc,
        NtStatus::MediaWriteProtected => ReplyError::Eperm,
        NtStatus::NoSuchDevice => ReplyError::Eshutdown,
        NtStatus::DeletePending => ReplyError::Eshutdown,
        _ => ReplyError::Eio,
    }
}

/// Returns the error of a request that was refused.
pub(crate) fn refusal_error(reason: Refusal) -> ReplyError
    ensures { result ≡ refusal_error reason }
{
    match reason {
        Refusal::InsufficientResources => ReplyError::Enomem,
        _ => ReplyError::Eio,
    }
}

/// Returns the answer of a read.
fn read_answer(done: Result<Bytes, ReplyError>) -> Answer
    ensures { outcome_of result ≡ read_outcome done }
{
    match done {
        Ok(bytes) => Answer::Data(bytes.into_vec()),
        Err(error) => Answer::Refused(error),
    }
}

/// Returns the answer of a command that brings no bytes.
fn plain_answer(done: Result<(), ReplyError>) -> Answer
    ensures { outcome_of result ≡ plain_outcome (result_err done) }
{
    match done {
        Ok(()) => Answer::Done,
        Err(error) => Answer::Refused(error),
    }
}

impl<S: Storage + Drop, P: Pen + Drop> Backing for Filed<S, P> {
    ghost use Rattle.serving.specs.Filed.{CarriesBy};

    ghost shape = { λ f. f.sizes };

    ghost Carries = { λ command payload old o new. CarriesBy command payload old o new };

    fn sizes(&self) -> Sizes {
        self.sizes
    }

    fn carry_out(&mut self, alloc: Global, command: Command, payload: Vec<u8>) -> Answer {
        match command {
            Command::Read { offset, count } => read_answer(self.read(alloc, offset, count)),
            Command::Write {
                offset,
                through,
                ..
            } => plain_answer(self.write(alloc, offset, payload, through)),
            Command::Flush => plain_answer(self.flush(alloc)),
            Command::WriteZeroes {
                offset,
                count,
                through,
            } => {
                self.shows_few();
                plain_answer(self.clear(alloc, offset, count, through))
            }
        }
    }

    fn lend(&mut self, alloc: Global) -> Vec<u8> {
        mem::replace(&mut self.kept, Vec::new(alloc))
    }

    fn take_back(&mut self, bytes: Vec<u8>) {
        self.kept = bytes;
    }
}
