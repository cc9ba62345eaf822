//! Sessions over an array in memory, of clients that ask for structured replies and for `base:allocation`.

use crate::expect::{same, same_at};
use crate::parts::Part::{
    Allocation, Answers, Asks, Chunk, Fill, Long, Reply, Request, Short, Word,
};
use crate::parts::{GO, Part, add, gone};
use crate::sessions::{Counting, blocks};
use nbd::{ArrayFault, End, MemArray, serve};
use std::alloc::{AllocError, Global};
use std::process::Abort;

/// Asks for structured replies, and chooses the context.
const CHOOSE: [Part; 6] = [
    Asks(8, 0),
    Asks(10, 27),
    Word(0),
    Word(1),
    Word(15),
    Allocation,
];

/// What is answered: the context has number 1.
const CHOSEN: [Part; 5] = [
    Answers(8, 1, 0),
    Answers(10, 4, 19),
    Word(1),
    Allocation,
    Answers(10, 1, 0),
];

/// Reads, writes, and requests that ask which bytes are zeros, of blocks of 1, 0, 0 and 4.
const TELL: [Part; 11] = [
    Request(0, 7, 1, 0, 2048),
    Request(0, 7, 2, 512, 1536),
    Request(8, 7, 3, 1024, 512),
    Request(0, 0, 4, 1536, 512),
    Request(0, 1, 5, 0, 512),
    Fill(0, 512),
    Request(1, 7, 6, 0, 1536),
    Request(2, 7, 7, 0, 512),
    Request(0, 7, 8, 0, 511),
    Request(0, 7, 9, 1536, 1024),
    Request(0, 0, 10, 2048, 512),
];

/// What is answered: data, a hole of two blocks, one of one, the bytes of a read, and then what fails.
const TOLD: [Part; 32] = [
    Chunk(5, 1, 12),
    Word(1),
    Word(512),
    Word(0),
    Chunk(5, 2, 12),
    Word(1),
    Word(1024),
    Word(3),
    Chunk(5, 3, 12),
    Word(1),
    Word(512),
    Word(3),
    Chunk(1, 4, 520),
    Long(1536),
    Fill(4, 512),
    Reply(0, 5),
    Chunk(5, 6, 12),
    Word(1),
    Word(1536),
    Word(3),
    Chunk(0x8001, 7, 6),
    Word(22),
    Short(0),
    Chunk(0x8001, 8, 6),
    Word(22),
    Short(0),
    Chunk(0x8001, 9, 6),
    Word(22),
    Short(0),
    Chunk(0x8001, 10, 6),
    Word(22),
    Short(0),
];

/// Options that ask for contexts too early, by data that aren't such, of another export, and then for no context at last.
const ASK: [Part; 45] = [
    Asks(9, 8),
    Long(0),
    Asks(10, 27),
    Word(0),
    Word(1),
    Word(15),
    Allocation,
    Asks(8, 1),
    Fill(0, 1),
    Asks(8, 0),
    // The contexts of all kinds, those below `base:`, and those of another name.
    Asks(9, 8),
    Long(0),
    Asks(9, 17),
    Word(0),
    Word(1),
    Word(5),
    Word(0x6261_7365),
    Fill(b':', 1),
    Asks(9, 17),
    Word(0),
    Word(1),
    Word(5),
    Fill(b'q', 5),
    // Too short, a query too long, bytes behind the queries, and another export.
    Asks(9, 7),
    Fill(0, 7),
    Asks(10, 26),
    Word(0),
    Word(1),
    Word(15),
    Fill(b'b', 14),
    Asks(10, 9),
    Fill(0, 9),
    Asks(10, 9),
    Word(1),
    Fill(b'a', 1),
    Word(0),
    // The second of two queries, and then a choice of none.
    Asks(10, 32),
    Word(0),
    Word(2),
    Word(1),
    Fill(b'b', 1),
    Word(15),
    Allocation,
    Asks(10, 8),
    Long(0),
];

/// What is answered.
const ANSWERED: [Part; 22] = [
    Answers(9, 0x8000_0003, 0),
    Answers(10, 0x8000_0003, 0),
    Answers(8, 0x8000_0003, 0),
    Answers(8, 1, 0),
    Answers(9, 4, 19),
    Word(0),
    Allocation,
    Answers(9, 1, 0),
    Answers(9, 4, 19),
    Word(0),
    Allocation,
    Answers(9, 1, 0),
    Answers(9, 1, 0),
    Answers(9, 0x8000_0003, 0),
    Answers(10, 0x8000_0003, 0),
    Answers(10, 0x8000_0003, 0),
    Answers(10, 0x8000_0006, 0),
    Answers(10, 4, 19),
    Word(1),
    Allocation,
    Answers(10, 1, 0),
    Answers(10, 1, 0),
];

/// A request that asks which bytes are zeros, and a read.
const BOTH: [Part; 2] = [Request(0, 7, 1, 0, 512), Request(0, 0, 2, 0, 512)];

/// Plays a session of these options and requests, and compares what is answered.
fn plays(
    rt: &impl Abort,
    alloc: Global,
    fault: Option<ArrayFault>,
    asked: [&[Part]; 2],
    told: [&[Part]; 2],
) -> Result<(), AllocError> {
    let [options, requests] = asked;
    let [answers, replies] = told;
    let opened = gone(2048);
    let mut client = Vec::new(alloc);
    for parts in [&GO[..1], options, &GO[1..], requests] {
        add(&mut client, parts)?;
    }
    let mut wanted = Vec::new(alloc);
    for parts in [&opened[..3], answers, &opened[3..], replies] {
        add(&mut wanted, parts)?;
    }
    let mut array = Counting {
        array: MemArray {
            bytes: blocks(alloc, &[1, 0, 0, 4])?,
            long_blocks: false,
        },
        through: 0,
        flushes: 0,
        fault,
    };
    let mut out = Vec::new(alloc);
    let end = serve(alloc, &mut array, &mut client.as_slice(), &mut out);
    same(rt, &end, &End::Input);
    same_at(rt, &out.as_slice(), &wanted.as_slice(), &fault);
    Ok(())
}

#[test]
fn bytes_that_are_known_to_be_zeros_are_told(rt: HostRuntime) -> Result<(), AllocError> {
    plays(&rt, rt.alloc(), None, [&CHOOSE, &TELL], [&CHOSEN, &TOLD])
}

/// What is answered to both where no structured replies were asked for: an error, and the bytes of the read.
const SIMPLE: [Part; 3] = [Reply(22, 1), Reply(0, 2), Fill(1, 512)];

/// What is answered to both where no context was chosen.
const UNCHOSEN: [Part; 6] = [
    Chunk(0x8001, 1, 6),
    Word(22),
    Short(0),
    Chunk(1, 2, 520),
    Long(0),
    Fill(1, 512),
];

/// What is answered to both where the array fails.
const FAILED: [Part; 7] = [
    Chunk(5, 1, 12),
    Word(1),
    Word(512),
    Word(0),
    Chunk(0x8001, 2, 6),
    Word(5),
    Short(0),
];

#[test]
fn only_who_asks_has_structured_replies(rt: HostRuntime) -> Result<(), AllocError> {
    let alloc = rt.alloc();
    plays(&rt, alloc, None, [&[], &BOTH], [&[], &SIMPLE])?;
    plays(&rt, alloc, None, [&ASK, &BOTH], [&ANSWERED, &UNCHOSEN])
}

#[test]
fn a_read_that_fails_is_told_in_a_chunk(rt: HostRuntime) -> Result<(), AllocError> {
    let fault = Some(ArrayFault::Failed);
    plays(&rt, rt.alloc(), fault, [&CHOOSE, &BOTH], [&CHOSEN, &FAILED])
}
