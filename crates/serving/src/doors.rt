//! The input of a session. Its owner reads it, or lends it to a thread that reads the next request meanwhile.

ghost use Rattle.std.specs.Prelude.{◌≡◌, IfErr, IfOk, IfSome, MatchOption, OnOk};
ghost use Rattle.std.specs.IoError.{error_kind};
ghost use Rattle.std.specs.declared.io.ErrorKind.TheVariants.{UnexpectedEof};
ghost use Rattle.nbd.specs.Handshake.{EndsUnasked, Opens};
ghost use Rattle.nbd.specs.Session.{TakesLast};
ghost use Rattle.read_ahead.specs.Standing.{behind};
ghost use Rattle.serving.specs.inside.Doors.{ArrivesSo, TakesOne};

use chronicle::Naming as AskNaming;
use crossbeam_channel::{Receiver, Sender};
use movers::Done;
use nbd::{
    Ahead, End, Incoming, Sizes, begin, begins_whole, parse_request, payload_count, take_request,
};
use read_ahead::Naming;
use std::alloc::Global;
use std::io::{ErrorKind, Read, Write};
use std::marker::{Model, PhantomData};
use std::sync::Wait;
use std::{io, mem};

/// The bytes of a request's header.
const HEADER: usize = 28;

/// How many bytes a write has, at least, that the thread reads while its owner moves a piece.
const LONG: usize = 32_768;

/// An input at a place in its bytes. Contracts see it as that place.
#[derive(Drop)]
pub(crate) struct Lent<J: Naming, I: Ahead + Drop> {
    input: I,
    /// How many bytes were read.
    at: u64,
    /// Whether more bytes were read than can be counted. Then none is read any more.
    lost: bool,
    name: PhantomData<J>,
}

impl<J: Naming, I: Ahead + Drop> Model for Lent<J, I> {
    ghost use Rattle.std.specs.Prelude.{ℕ, [], IsFalse};
    ghost use Rattle.std.specs.Io.KnownBytes.{Consumes};
    ghost use Rattle.read_ahead.specs.Standing.{behind};

    ghost Value = { ℕ };

    ghost view = { λ l. l.at };

    ghost invariant = { λ l. IsFalse l.lost → Consumes (behind l.at J.given) (I.remaining l.input) [] };
}

impl<J: Naming, I: Ahead + Drop> Lent<J, I> {
    /// An input from its start on.
    pub(crate) fn new(input: I) -> Lent<J, I>
        requires { I.remaining input ≡ J.given }
        ensures { result ≡ 0 }
    {
        Lent {
            input,
            at: 0,
            lost: false,
            name: PhantomData,
        }
    }

    /// How many bytes were read.
    pub(crate) fn at(&self) -> u64
        ensures { result ≡ self.now }
    {
        self.at
    }

    /// Whether a whole request has been read ahead, or what is none.
    fn is_whole(&self) -> bool {
        begins_whole(self.input.ahead())
    }
}

impl<J: Naming, I: Ahead + Drop> Read for Lent<J, I> {
    ghost use Rattle.read_ahead.specs.Standing.{behind};

    ghost remaining = { λ at. behind at J.given };

    fn read(&mut self, buf: &mut [u8]) -> io::Result<usize> {
        if self.lost {
            return Err(lost());
        }
        let count = self.input.read(buf)?;
        match self.at.checked_add(count as u64) {
            Some(at) => {
                self.at = at;
                Ok(count)
            }
            None => {
                self.lost = true;
                Err(lost())
            }
        }
    }
}

impl<J: Naming, I: Ahead + Drop> Ahead for Lent<J, I> {
    fn ahead(&self) -> &[u8] {
        if self.lost {
            return &[];
        }
        self.input.ahead()
    }
}

/// The error of an input of which too many bytes were read. A reader that meets it doesn't ask again.
fn lost() -> io::Error
    ensures { error_kind result ≡ UnexpectedEof }
{
    io::Error::from(ErrorKind::UnexpectedEof)
}

/// An input on its way to the thread that reads, with memory for the bytes of a request.
#[derive(Drop)]
pub(crate) struct Errand<J: Naming, I: Ahead + Drop> {
    lent: Lent<J, I>,
    room: Vec<u8>,
}

/// A request that was read, and the input behind it.
#[derive(Drop)]
pub(crate) struct Brought<J: Naming, I: Ahead + Drop> {
    incoming: Incoming,
    sizes: Sizes,
    from: u64,
    lent: Lent<J, I>,
}

impl<J: Naming, I: Ahead + Drop> Model for Brought<J, I> {
    ghost use Rattle.nbd.specs.Incoming.{IsIncoming};
    ghost use Rattle.read_ahead.specs.Standing.{behind};
    ghost use Rattle.serving.specs.inside.Doors.{BroughtView};

    ghost Value = { BroughtView };

    ghost view = { λ b. record { incoming = b.incoming; sizes = b.sizes; from = b.from; to = b.lent } };

    ghost invariant = { λ b. IsIncoming b.sizes (behind b.from J.given) (behind b.lent J.given) b.incoming };
}

/// How a client's requests ended, at a place in its bytes.
#[derive(Drop)]
pub(crate) struct Last<J: Naming> {
    end: End,
    at: u64,
    name: PhantomData<J>,
}

impl<J: Naming> Model for Last<J> {
    ghost use Rattle.nbd.specs.Session.{TakesLast};
    ghost use Rattle.read_ahead.specs.Standing.{behind};
    ghost use Rattle.serving.specs.inside.Doors.{LastView};

    ghost Value = { LastView };

    ghost view = { λ l. record { end = l.end; at = l.at } };

    ghost invariant = { λ l. TakesLast (behind l.at J.given) l.end };
}

/// Reads the next request of an array of these sizes, with memory that was kept.
///
/// # Errors
///
/// How the client's requests ended.
fn bring<J: Naming, I: Ahead + Drop>(
    alloc: Global,
    kept: Vec<u8>,
    lent: Lent<J, I>,
    sizes: Sizes,
) -> Result<Brought<J, I>, End>
    ensures brought { IfOk result (λ b. (b.from ≡ lent) × (b.sizes ≡ sizes)) }
    ensures ended { IfErr result (TakesLast (behind lent J.given)) }
{
    if sizes.block == 0 {
        return Err(End::Input);
    }
    let mut lent = lent;
    let from = lent.at();
    let incoming = take_request(alloc, kept, &mut lent, sizes)?;
    Ok(Brought {
        incoming,
        sizes,
        from,
        lent,
    })
}

/// Whether these bytes begin with a long write, and not all of it.
fn begins_long(bytes: &[u8]) -> bool {
    let Some((header, rest)) = bytes.split_at_checked(HEADER) else {
        return false;
    };
    match parse_request(header) {
        Some(request) => {
            let count = payload_count(request) as usize;
            LONG <= count && rest.len() < count
        }
        None => false,
    }
}

/// What the owner of a session waits for.
#[derive(Drop)]
pub(crate) enum Message<N: AskNaming, J: Naming, I: Ahead + Drop> {
    Request(Brought<J, I>),
    Ended(Last<J>),
    /// What came of a piece.
    Done(Done<N>),
}

impl<N: AskNaming, J: Naming, I: Ahead + Drop> From<Done<N>> for Message<N, J, I> {
    fn from(done: Done<N>) -> Message<N, J, I> {
        Message::Done(done)
    }
}

/// Reads a request each time that the input is lent, until nobody lends it any more.
pub(crate) fn read_requests<H: Wait, N: AskNaming, J: Naming, I: Ahead + Drop>(
    rt: &H,
    alloc: Global,
    sizes: Sizes,
    errands: Receiver<Errand<J, I>>,
    out: Sender<Message<N, J, I>>,
) {
    for _ in rt.forever() {
        let Ok(errand) = errands.recv(rt) else {
            return;
        };
        if out.send(rt, message_of(alloc, errand, sizes)).is_err() {
            return;
        }
    }
}

/// Reads the next request, or hears how the client's requests ended.
fn message_of<N: AskNaming, J: Naming, I: Ahead + Drop>(
    alloc: Global,
    errand: Errand<J, I>,
    sizes: Sizes,
) -> Message<N, J, I> {
    let Errand { lent, room } = errand;
    let at = lent.at();
    match bring(alloc, room, lent, sizes) {
        Ok(brought) => Message::Request(brought),
        Err(end) => Message::Ended(Last {
            end,
            at,
            name: PhantomData,
        }),
    }
}

/// What came to the owner of a session.
#[derive(Drop)]
pub(crate) enum Arrival<D: Drop> {
    Request(Incoming),
    /// What came of a piece.
    Done(D),
    /// Nothing that it has to do with.
    Nothing,
}

/// A session's input, with what its owner waits for. Contracts see it as the bytes that weren't read yet.
#[derive(Drop)]
pub(crate) struct Door<N: AskNaming, J: Naming, H: Copy + Drop, I: Ahead + Drop> {
    pub(crate) alloc: Global,
    pub(crate) rt: H,
    pub(crate) sizes: Sizes,
    /// The input, while it isn't lent.
    pub(crate) here: Option<Lent<J, I>>,
    /// How many bytes were read.
    pub(crate) at: u64,
    /// How the client's requests ended, if they have.
    pub(crate) ended: Option<End>,
    pub(crate) inbox: Receiver<Message<N, J, I>>,
    pub(crate) lend: Sender<Errand<J, I>>,
}

impl<N: AskNaming, J: Naming, H: Copy + Drop, I: Ahead + Drop> Model for Door<N, J, H, I> {
    ghost use Rattle.std.specs.Prelude.{◌≡◌, IfSome};
    ghost use Rattle.nbd.specs.Session.{TakesLast};
    ghost use Rattle.read_ahead.specs.Standing.{behind};
    ghost use Rattle.serving.specs.inside.Doors.{DoorView};

    ghost Value = { DoorView };

    ghost view = { λ d. record { at = d.at; left = behind d.at J.given; sizes = d.sizes } };

    ghost invariant = { λ d. IfSome d.here (λ l. l ≡ d.at) × IfSome d.ended (TakesLast (behind d.at J.given)) };
}

impl<N: AskNaming, J: Naming, H: Wait + Copy + Drop, I: Ahead + Drop> Door<N, J, H, I> {
    /// Greets the client, and answers its options.
    ///
    /// # Errors
    ///
    /// How the session ended before its requests.
    pub(crate) fn begin<W: Write>(&mut self, lent: Lent<J, I>, out: &mut W) -> Result<(), End>
        requires { behind lent J.given ≡ self.old.left }
        ensures opened { OnOk result (Opens self.old.sizes self.old.left (W.contents out.old) self.new.left (W.contents out.new)) }
        ensures ended { IfErr result (λ end. EndsUnasked self.old.sizes self.old.left (W.contents out.old) end (W.contents out.new)) }
        ensures same { self.new.sizes ≡ self.old.sizes }
    {
        let mut lent = lent;
        let begun = begin(&mut lent, out, self.sizes);
        self.at = lent.at();
        self.here = Some(lent);
        self.ended = None;
        begun
    }

    /// Whether nothing was read.
    pub(crate) fn is_unread(&self) -> bool {
        self.at == 0
    }

    /// How the client's requests ended, if they have.
    pub(crate) fn end(&self) -> Option<End>
        ensures { IfSome result (TakesLast self.now.left) }
    {
        self.ended
    }

    /// Whether the input is here, and the client's requests haven't ended.
    pub(crate) fn is_here(&self) -> bool {
        self.here.is_some() && self.ended.is_none()
    }

    /// Whether a whole request has been read ahead, or what is none.
    pub(crate) fn is_whole(&self) -> bool {
        match &self.here {
            Some(lent) => self.ended.is_none() && lent.is_whole(),
            None => false,
        }
    }

    /// Whether something has come already.
    pub(crate) fn has_mail(&self) -> bool {
        !self.inbox.is_empty()
    }

    /// Reads a request here, with memory that was kept, or hears how the client's requests ended.
    pub(crate) fn read_here(&mut self, kept: Vec<u8>) -> Option<Incoming>
        ensures { MatchOption result (self.new ≡ self.old) (λ incoming. TakesOne self.old incoming self.new) }
    {
        let lent = self.here.take()?;
        match bring(self.alloc, kept, lent, self.sizes) {
            Ok(brought) => Some(self.accept(brought)),
            Err(end) => {
                self.ended = Some(end);
                None
            }
        }
    }

    /// Takes a request that was read from here on, and the input behind it.
    fn accept(&mut self, brought: Brought<J, I>) -> Incoming
        requires from { brought.from ≡ self.old.at }
        requires sizes { brought.sizes ≡ self.old.sizes }
        ensures { TakesOne self.old result self.new }
    {
        let Brought { incoming, lent, .. } = brought;
        self.at = lent.at();
        self.here = Some(lent);
        self.ended = None;
        incoming
    }

    /// Lends the input to the thread that reads, if it is here, with memory that was kept.
    pub(crate) fn lend_on(&mut self, kept: &mut Vec<u8>)
        ensures { self.new ≡ self.old }
    {
        if let Some(lent) = self.here.take() {
            let room = mem::replace(kept, Vec::new(self.alloc));
            // Where the thread is gone, nothing comes any more.
            let _ = self.lend.send(&self.rt, Errand { lent, room });
        }
    }

    /// Whether a long write has been read ahead in part.
    pub(crate) fn is_long(&self) -> bool {
        match &self.here {
            Some(lent) => self.ended.is_none() && begins_long(lent.ahead()),
            None => false,
        }
    }

    /// Waits for what comes next.
    pub(crate) fn wait(&mut self) -> Arrival<Done<N>>
        ensures { ArrivesSo self.old result self.new }
    {
        match self.inbox.recv(&self.rt) {
            Ok(Message::Request(brought)) => self.comes(brought),
            Ok(Message::Done(done)) => Arrival::Done(done),
            Ok(Message::Ended(last)) => {
                self.ends(last);
                Arrival::Nothing
            }
            Err(_) => {
                self.ended = Some(End::Input);
                Arrival::Nothing
            }
        }
    }

    /// Waits for what came of a piece. A request that comes is not read, and the client's end.
    pub(crate) fn wait_alone(&mut self) -> Option<Done<N>>
        ensures { self.new ≡ self.old }
    {
        match self.inbox.recv(&self.rt) {
            Ok(Message::Done(done)) => Some(done),
            Ok(Message::Request(_)) | Ok(Message::Ended(_)) | Err(_) => {
                self.ended = Some(End::Input);
                None
            }
        }
    }

    /// Takes a request that the thread has read, if it is one from here on. Else the client's end here.
    fn comes(&mut self, brought: Brought<J, I>) -> Arrival<Done<N>>
        ensures { ArrivesSo self.old result self.new }
    {
        if brought.from != self.at || brought.sizes != self.sizes {
            self.ended = Some(End::Input);
            return Arrival::Nothing;
        }
        Arrival::Request(self.accept(brought))
    }

    /// Hears how the client's requests ended.
    fn ends(&mut self, last: Last<J>)
        ensures { self.new ≡ self.old }
    {
        let Last { end, at, .. } = last;
        if at != self.at {
            self.ended = Some(End::Input);
            return;
        }
        self.ended = Some(end);
    }
}
