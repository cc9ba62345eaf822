//! Input that a second thread reads on from: while a command is carried out, it fetches the bytes of a long write that
//! comes next.
//!
//! # Promises
//!
//! `ReadAhead` gives just its input's bytes, in order (`given`; `Ahead`). Inside: just the payload of the write that
//! comes is taken ahead, at most 32 MiB, and what failed is told as UnexpectedEof (`brings`, `few`, `lost`).
#![tactic(auto)]

ghost use Rattle.std.specs.Prelude.{◌≡◌, ◌≤◌, IfErr, IfSome, length};
ghost use Rattle.std.specs.Io.{ReadsAtMost};
ghost use Rattle.std.specs.Io.KnownBytes.{Consumes, ReadConsumes};
ghost use Rattle.std.specs.IoError.{error_kind};
ghost use Rattle.read_ahead.specs.inside.Places.{Brings};
ghost use Rattle.std.specs.declared.io.ErrorKind.TheVariants.{UnexpectedEof};

mod place;
mod second;

use nbd::{Ahead, LONGEST, parse_request, payload_count};
use place::Place;
use second::{Asked, Filled, Shared, start};
use std::alloc::{AllocError, Global};
use std::io::{ErrorKind, Read};
use std::marker::{Brand, Model, PhantomData};
use std::sync::{Arc, Wait};
use std::thread::Threads;
use std::{io, mem};

/// The bytes of a request's header.
const HEADER: usize = 28;

/// How many bytes a write has, at least, that the second thread fetches.
const LONG: usize = 32_768;

/// Names the bytes that one input gives, for contracts alone. Each call of a program picks them.
pub trait Naming {
    ghost use Rattle.std.specs.Prelude.{ℕ, List, Option};

    ghost given: { Option (List ℕ) };
}

impl Naming for Brand {
    ghost use Rattle.std.specs.Prelude.{None};

    ghost given = { None };
}

/// Input that a second thread reads on from. Its value is the bytes that it has left, where they are known.
#[derive(Drop)]
pub struct ReadAhead<J: Naming, H: Copy, I: Ahead + Drop> {
    alloc: Global,
    rt: H,
    /// What the second thread has too, if it was started.
    shared: Option<Arc<Shared<J, I>>>,
    place: Place<I>,
    /// How many bytes were given.
    at: u64,
    /// Bytes that come before those of the input: a header, or what the second thread has fetched.
    fetched: Vec<u8>,
    /// How many of these were given.
    taken: usize,
    /// Memory for the next header, and for the bytes behind it.
    header: Vec<u8>,
    spare: Vec<u8>,
}

impl<J: Naming, H: Copy, I: Ahead + Drop> Model for ReadAhead<J, H, I> {
    ghost use Rattle.std.specs.Prelude.{◌≤◌, ℕ, List, Option, drop, length};
    ghost use Rattle.read_ahead.specs.Standing.{behind};
    ghost use Rattle.read_ahead.specs.inside.Places.{Stands};

    ghost Value = { Option (List ℕ) };

    ghost view = { λ r. behind r.at J.given };

    ghost invariant = { λ r. (r.taken ≤ length r.fetched.items) × Stands I.remaining J.given r.place r.at (drop r.taken r.fetched.items) };
}

impl<
    J: Naming + Send + Sync + 'static,
    H: Threads + Wait + Copy + Send + 'static,
    I: Ahead + Send + Drop + 'static,
> ReadAhead<J, H, I> {
    /// The input from its start on. Where no second thread can be started, the caller's reads all.
    pub fn new(alloc: Global, rt: H, input: I) -> ReadAhead<J, H, I>
        requires { I.remaining input ≡ J.given }
        ensures given { result ≡ J.given }
    {
        ReadAhead {
            alloc,
            rt,
            shared: start(alloc, rt).ok(),
            place: Place::Here(input),
            at: 0,
            fetched: Vec::new(alloc),
            taken: 0,
            header: Vec::new(alloc),
            spare: Vec::new(alloc),
        }
    }
}

impl<J: Naming, H: Wait + Copy, I: Ahead + Drop> ReadAhead<J, H, I> {
    /// Returns whether none of the bytes was given yet.
    pub fn is_unread(&self) -> bool {
        self.at == 0
    }

    /// Reads bytes that were fetched before.
    ///
    /// # Errors
    ///
    /// Where there are none, or the input failed.
    fn read_fetched(&mut self, buf: &mut [u8]) -> io::Result<usize>
        ensures bound { ReadsAtMost result buf.new }
        ensures bytes { ReadConsumes self.old self.new result buf.new }
        ensures kind { IfErr result (λ error. error_kind error ≡ UnexpectedEof) }
    {
        if self.place.is_lost() || self.taken >= self.fetched.len() {
            return Err(lost());
        }
        let mut left = &self.fetched.as_slice()[self.taken..];
        let count = left.read(buf)?;
        let Some(at) = self.at.checked_add(count as u64) else {
            return Err(lost());
        };
        self.taken += count;
        self.at = at;
        Ok(count)
    }

    /// Reads from the input itself.
    ///
    /// # Errors
    ///
    /// The input's own. Also where it isn't here, or other bytes come first.
    fn read_here(&mut self, buf: &mut [u8]) -> io::Result<usize>
        ensures bound { ReadsAtMost result buf.new }
        ensures bytes { ReadConsumes self.old self.new result buf.new }
    {
        if self.taken != self.fetched.len() {
            return Err(lost());
        }
        let Place::Here(input) = &mut self.place else {
            return Err(lost());
        };
        let count = input.read(buf)?;
        let Some(at) = self.at.checked_add(count as u64) else {
            self.place = Place::Lost;
            return Err(lost());
        };
        self.at = at;
        Ok(count)
    }

    /// Has the input here again, and what the second thread has read, if it is away.
    fn fetch(&mut self)
        ensures { self.new ≡ self.old }
    {
        if !matches!(self.place, Place::Away) {
            return;
        }
        self.place = Place::Lost;
        let Some(shared) = &self.shared else {
            return;
        };
        let Some(filled) = shared.await_filled(&self.rt) else {
            return;
        };
        if filled.at != self.at {
            return;
        }
        let Filled { input, bytes, .. } = filled;
        self.place = Place::Here(input);
        self.header = mem::replace(&mut self.fetched, bytes);
        self.taken = 0;
    }

    /// Has the second thread fetch the bytes of the write whose header comes next.
    ///
    /// # Errors
    ///
    /// Where memory was refused. Nothing was read.
    fn ask(&mut self, count: usize) -> Result<(), AllocError>
        requires few { count ≤ LONGEST }
        requires brings { IfSome self.old (λ xs. Brings xs count) }
        ensures { self.new ≡ self.old }
    {
        let mut room = mem::replace(&mut self.spare, Vec::new(self.alloc));
        room.resize(count, 0)?;
        let mut header = mem::replace(&mut self.header, Vec::new(self.alloc));
        header.resize(HEADER, 0)?;
        self.hand_over(header, room);
        Ok(())
    }

    /// Reads the header that comes next, and hands the input to the second thread.
    fn hand_over(&mut self, header: Vec<u8>, room: Vec<u8>)
        requires header { length header.items ≡ 28 }
        requires brings { IfSome self.old (λ xs. Brings xs (length room.items)) }
        ensures { self.new ≡ self.old }
    {
        let (Some(shared), Some(at)) = (&self.shared, self.at.checked_add(HEADER as u64)) else {
            return;
        };
        if self.taken != self.fetched.len() {
            return;
        }
        let Place::Here(mut input) = mem::replace(&mut self.place, Place::Lost) else {
            return;
        };
        let Some(header) = filled(&mut input, header) else {
            return;
        };
        self.fetched = header;
        self.taken = 0;
        self.place = Place::Away;
        let asked = Asked {
            input,
            room,
            at,
            name: PhantomData,
        };
        shared.ask(&self.rt, asked);
    }
}

/// Fills memory, if the input doesn't fail.
fn filled<I: Read>(input: &mut I, room: Vec<u8>) -> Option<Vec<u8>>
    ensures long { IfSome result (λ bytes. length bytes.items ≡ length room.items) }
    ensures taken { IfSome result (λ bytes. Consumes (I.remaining input.old) (I.remaining input.new) bytes.items) }
{
    let mut room = room;
    match input.read_exact(room.as_mut_slice()) {
        Ok(()) => Some(room),
        Err(_) => None,
    }
}

/// The error of an input that failed before. A reader that meets it doesn't ask again.
fn lost() -> io::Error
    ensures { error_kind result ≡ UnexpectedEof }
{
    io::Error::from(ErrorKind::UnexpectedEof)
}

impl<J: Naming, H: Wait + Copy, I: Ahead + Drop> Read for ReadAhead<J, H, I> {
    ghost remaining = { λ r. r };

    fn read(&mut self, buf: &mut [u8]) -> io::Result<usize> {
        if self.taken == self.fetched.len() {
            self.fetch();
        }
        if self.taken < self.fetched.len() {
            self.read_fetched(buf)
        } else {
            self.read_here(buf)
        }
    }
}

impl<J: Naming, H: Wait + Copy, I: Ahead + Drop> Ahead for ReadAhead<J, H, I> {
    fn ahead(&self) -> &[u8] {
        match &self.place {
            Place::Here(input) if self.taken == self.fetched.len() => input.ahead(),
            _ => &[],
        }
    }

    fn take_whole(&mut self, room: Vec<u8>, count: usize) -> Result<Vec<u8>, Vec<u8>> {
        if count == 0 {
            return Err(room);
        }
        if self.taken == self.fetched.len() {
            self.fetch();
        }
        if self.taken != 0 || self.fetched.len() != count || self.place.is_lost() {
            return Err(room);
        }
        let Some(at) = self.at.checked_add(count as u64) else {
            return Err(room);
        };
        self.at = at;
        self.spare = room;
        Ok(mem::replace(&mut self.fetched, Vec::new(self.alloc)))
    }

    fn read_on(&mut self) {
        if let Some(count) = long_write(self.ahead()) {
            // Where it is refused, this thread reads as ever.
            let _asked = self.ask(count);
        }
    }
}

/// The length of the write that begins, if it is long and not all there. Of more bytes than a write may have no memory
/// is taken.
fn long_write(bytes: &[u8]) -> Option<usize>
    ensures few { IfSome result (λ count. count ≤ LONGEST) }
    ensures brings { IfSome result (Brings bytes.now) }
{
    let (header, rest) = bytes.split_at_checked(HEADER)?;
    let count = payload_count(parse_request(header)?) as usize;
    if count < LONG || count > LONGEST as usize || count <= rest.len() {
        return None;
    }
    Some(count)
}
