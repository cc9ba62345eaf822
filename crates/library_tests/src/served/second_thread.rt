//! Input that a second thread reads on from.

ghost use Rattle.std.specs.Prelude.{◌≡◌};

use crate::expect::same;
use crate::parts::Part::{Fill, Long, Request, Short, Word};
use crate::parts::{Part, add};
use nbd::{Ahead, take_in_two};
use read_ahead::{Naming, ReadAhead};
use std::alloc::{AllocError, Global};
use std::io;
use std::io::{BufReader, Read};
use std::marker::Brand;
use std::process::Abort;
use std::sync::Wait;
use std::test::Fail;
use std::thread::Threads;

/// The header of a write of 36,864 bytes, and that of one of 40,000 behind it.
const FIRST: [Part; 1] = [Request(0, 1, 1, 0, 36_864)];

const SECOND: [Part; 1] = [Request(0, 1, 2, 36_864, 40_000)];

/// The second header in two pieces.
const SECOND_CUT: [[Part; 3]; 2] = [
    [Word(0x2560_9513), Short(0), Short(1)],
    [Long(2), Long(36_864), Word(40_000)],
];

/// The bytes of the second write, and three behind them.
const WHOLE: [Part; 2] = [Fill(0xB2, 40_000), Fill(b'x', 3)];

/// Bytes that a client sent.
#[derive(Drop)]
struct Sent {
    bytes: Vec<u8>,
    given: usize,
}

impl Read for Sent {
    ghost use Rattle.std.specs.Prelude.{None};

    ghost remaining = { λ s. None };

    fn read(&mut self, buf: &mut [u8]) -> io::Result<usize> {
        let mut left = self.bytes.as_slice().get(self.given..).unwrap_or(&[]);
        let count = left.read(buf)?;
        self.given = self.given.saturating_add(count);
        Ok(count)
    }
}

/// The bytes of some parts.
fn bytes_of(alloc: Global, parts: &[Part]) -> Result<Vec<u8>, AllocError> {
    let mut bytes = Vec::new(alloc);
    add(&mut bytes, parts)?;
    Ok(bytes)
}

/// Both writes, the first with its bytes, and what comes behind the second's header.
fn both_writes(alloc: Global, behind: &[Part]) -> Result<Sent, AllocError> {
    let mut bytes = Vec::new(alloc);
    add(&mut bytes, &FIRST)?;
    add(&mut bytes, &[Fill(0xA1, 36_864)])?;
    add(&mut bytes, &SECOND)?;
    add(&mut bytes, behind)?;
    Ok(Sent { bytes, given: 0 })
}

/// Takes as many bytes as there is room for, and compares them with those of some parts.
fn take_same<R: Read>(
    rt: &impl Abort,
    alloc: Global,
    input: &mut R,
    parts: &[Part],
) -> Result<(), Fail> {
    let wanted = bytes_of(alloc, parts)?;
    let mut got = vec![in alloc; 0; wanted.len()]?;
    input.read_exact(got.as_mut_slice())?;
    same(rt, &got, &wanted);
    Ok(())
}

/// Takes the first write, whose bytes nobody has fetched, and has the second thread fetch those of the second.
fn take_first<I: Ahead>(rt: &impl Abort, alloc: Global, input: &mut I) -> Result<(), Fail> {
    take_same(rt, alloc, input, &FIRST)?;
    let Err(mut room) = input.take_whole(vec![in alloc; 0; 36_864]?, 36_864) else {
        return Err(Fail::from("the bytes were not fetched before"));
    };
    if take_in_two(input, room.as_mut_slice()).is_err() {
        return Err(Fail::from("the input ended"));
    }
    same(rt, &room, &bytes_of(alloc, &[Fill(0xA1, 36_864)])?);
    let header = bytes_of(alloc, &SECOND)?;
    same(rt, &input.ahead().get(..28), &Some(header.as_slice()));
    input.read_on();
    same(rt, &input.ahead(), &&b""[..]);
    Ok(())
}

/// Takes the bytes of the second write in the memory that they were fetched to.
fn take_at_once<
    J: Naming + Send + Sync + 'static,
    H: Abort + Threads + Wait + Copy + Send + 'static,
    I: Ahead + Send + Drop + 'static,
>(rt: H, alloc: Global, input: I) -> Result<(), Fail>
    requires { I.remaining input ≡ J.given }
{
    let mut input: ReadAhead<J, H, I> = ReadAhead::new(alloc, rt, input);
    take_first(&rt, alloc, &mut input)?;
    take_same(&rt, alloc, &mut input, &SECOND)?;
    let Ok(bytes) = input.take_whole(Vec::new(alloc), 40_000) else {
        return Err(Fail::from("the bytes were fetched"));
    };
    same(&rt, &bytes, &bytes_of(alloc, &[Fill(0xB2, 40_000)])?);
    take_same(&rt, alloc, &mut input, &[Fill(b'x', 3)])?;
    same(&rt, &input.read(&mut [0; 8])?, &0);
    Ok(())
}

/// Takes the same bytes in pieces.
fn take_in_pieces<
    J: Naming + Send + Sync + 'static,
    H: Abort + Threads + Wait + Copy + Send + 'static,
    I: Ahead + Send + Drop + 'static,
>(rt: H, alloc: Global, input: I) -> Result<(), Fail>
    requires { I.remaining input ≡ J.given }
{
    let mut input: ReadAhead<J, H, I> = ReadAhead::new(alloc, rt, input);
    take_first(&rt, alloc, &mut input)?;
    take_same(&rt, alloc, &mut input, &SECOND_CUT[0])?;
    take_same(&rt, alloc, &mut input, &SECOND_CUT[1])?;
    let Err(_) = input.take_whole(Vec::new(alloc), 39_999) else {
        return Err(Fail::from("other bytes were fetched"));
    };
    for _ in 0..4 {
        take_same(&rt, alloc, &mut input, &[Fill(0xB2, 10_000)])?;
    }
    take_same(&rt, alloc, &mut input, &[Fill(b'x', 3)])?;
    same(&rt, &input.read(&mut [0; 8])?, &0);
    Ok(())
}

// An end in the bytes of a write is a session of `examples/`.
#[test]
fn fetches_the_bytes_of_a_write(rt: HostRuntime) -> Result<(), Fail> {
    let alloc = rt.alloc();
    let input = BufReader::with_capacity(alloc, 8_192, both_writes(alloc, &WHOLE)?)?;
    take_at_once::<Brand, _, _>(rt, alloc, input)
}

#[test]
fn gives_fetched_bytes_in_pieces(rt: HostRuntime) -> Result<(), Fail> {
    let alloc = rt.alloc();
    let input = BufReader::with_capacity(alloc, 8_192, both_writes(alloc, &WHOLE)?)?;
    take_in_pieces::<Brand, _, _>(rt, alloc, input)
}
