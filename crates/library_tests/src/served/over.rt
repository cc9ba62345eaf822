//! When the replies of a session over a storage's own relation are passed on.

use crate::expect::same_at;
use crate::parts::Part::{Fill, Reply, Request};
use crate::parts::{GO, Part, bytes_of, gone};
use nbd::{Ahead, Answer, Backing, Command, End, ReplyError, Sizes, serve_over};
use std::alloc::{AllocError, Global};
use std::io;
use std::io::{BufReader, Write};
use std::process::Abort;
use std::test::Fail;

/// Four blocks in memory.
#[derive(Drop)]
struct Blocks {
    bytes: Vec<u8>,
}

impl Blocks {
    /// Puts bytes in the place of those from `offset` on.
    fn put(&mut self, offset: u64, bytes: &[u8]) -> Answer {
        let first = offset as usize;
        let all = self.bytes.as_mut_slice();
        if first > all.len() || bytes.len() > all.len() - first {
            return Answer::Refused(ReplyError::Eio);
        }
        all[first..first + bytes.len()].copy_from_slice(bytes);
        Answer::Done
    }

    /// Returns `count` bytes from `offset` on.
    fn copy(&self, alloc: Global, offset: u64, count: u32) -> Answer {
        let first = offset as usize;
        match self.bytes.get(first..first.saturating_add(count as usize)) {
            Some(place) => match Vec::from_slice(alloc, place) {
                Ok(bytes) => Answer::Data(bytes),
                Err(_) => Answer::Refused(ReplyError::Enomem),
            },
            None => Answer::Refused(ReplyError::Eio),
        }
    }
}

impl Backing for Blocks {
    ghost use Rattle.std.specs.Prelude.{false, ⊤};

    ghost shape = { λ _. record { block = 512; bytes = 2048; read_only = false } };

    ghost Carries = { λ _ _ _ _ _. ⊤ };

    fn sizes(&self) -> Sizes {
        Sizes {
            block: 512,
            bytes: 2048,
            read_only: false,
        }
    }

    fn carry_out(&mut self, alloc: Global, command: Command, payload: Vec<u8>) -> Answer {
        match command {
            Command::Write { offset, .. } => self.put(offset, payload.as_slice()),
            Command::Read { offset, count } => self.copy(alloc, offset, count),
            _ => Answer::Done,
        }
    }

    fn lend(&mut self, alloc: Global) -> Vec<u8> {
        Vec::new(alloc)
    }

    fn take_back(&mut self, bytes: Vec<u8>) {
        drop(bytes);
    }
}

/// What a server has written, and how many bytes it had written each time that it passed them on.
#[derive(Drop)]
struct Passed {
    bytes: Vec<u8>,
    flushes: Vec<usize>,
}

impl Write for Passed {
    fn write(&mut self, buf: &[u8]) -> io::Result<usize> {
        self.bytes.extend_from_slice(buf)?;
        Ok(buf.len())
    }

    fn flush(&mut self) -> io::Result<()> {
        self.flushes.push(self.bytes.len())?;
        Ok(())
    }
}

/// The requests of a client, the replies, where they are passed on, and the end.
struct Session {
    name: &'static str,
    client: &'static [Part],
    server: &'static [Part],
    /// How many bytes are passed on, each time: those of the greeting, of the reply to NBD_OPT_GO, and of replies.
    flushes: &'static [usize],
    end: End,
}

const SESSIONS: [Session; 3] = [
    Session {
        name: "the third write is not all there: each reply is passed on by itself",
        client: &[
            Request(0, 1, 1, 0, 512),
            Fill(1, 512),
            Request(0, 1, 2, 512, 512),
            Fill(2, 512),
            Request(0, 1, 3, 1024, 512),
            Fill(3, 511),
        ],
        server: &[Reply(0, 1), Reply(0, 2)],
        flushes: &[18, 104, 120, 136],
        end: End::Input,
    },
    Session {
        name: "the second write has FUA: the reply to the first does not wait for it",
        client: &[
            Request(0, 1, 1, 0, 512),
            Fill(1, 512),
            Request(1, 1, 2, 512, 512),
            Fill(2, 512),
            Request(0, 1, 3, 1024, 512),
            Fill(3, 512),
        ],
        server: &[Reply(0, 1), Reply(0, 2), Reply(0, 3)],
        flushes: &[18, 104, 120, 136, 152],
        end: End::Input,
    },
    Session {
        name: "three writes are there: two replies are passed on together",
        client: &[
            Request(0, 1, 1, 0, 512),
            Fill(1, 512),
            Request(0, 1, 2, 512, 512),
            Fill(2, 512),
            Request(0, 1, 3, 1024, 512),
            Fill(3, 512),
            Request(0, 0, 4, 512, 1024),
            Request(0, 2, 5, 0, 0),
        ],
        server: &[
            Reply(0, 1),
            Reply(0, 2),
            Reply(0, 3),
            Reply(0, 4),
            Fill(2, 512),
            Fill(3, 512),
        ],
        flushes: &[18, 104, 136, 152, 1192],
        end: End::Left,
    },
];

/// Serves a client, and compares what it is told, and when.
fn serve_client<R: Ahead>(
    rt: &impl Abort,
    alloc: Global,
    input: &mut R,
    wanted: &[u8],
    session: &Session,
) -> Result<(), AllocError> {
    let mut blocks = Blocks {
        bytes: vec![in alloc; 0; 2048]?,
    };
    let mut out = Passed {
        bytes: Vec::new(alloc),
        flushes: Vec::new(alloc),
    };
    let end = serve_over(alloc, &mut blocks, input, &mut out);
    same_at(rt, &end, &session.end, &session.name);
    same_at(rt, &out.bytes.as_slice(), &wanted, &session.name);
    same_at(rt, &out.flushes.as_slice(), &session.flushes, &session.name);
    Ok(())
}

/// Runs a session whose client has sent all before it reads.
fn run(rt: &impl Abort, alloc: Global, session: &Session) -> Result<(), Fail> {
    let client = bytes_of(alloc, &GO, session.client)?;
    let wanted = bytes_of(alloc, &gone(2048), session.server)?;
    let mut input = BufReader::with_capacity(alloc, 8_192, client.as_slice())?;
    serve_client(rt, alloc, &mut input, wanted.as_slice(), session)?;
    Ok(())
}

#[test]
fn replies_are_passed_on(rt: HostRuntime) -> Result<(), Fail> {
    for session in &SESSIONS {
        run(&rt, rt.alloc(), session)?;
    }
    Ok(())
}
