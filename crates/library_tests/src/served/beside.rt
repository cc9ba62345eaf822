//! A session whose requests are answered in another order than they were read.

use crate::desk::Told;
use crate::expect::same;
use crate::parts::Part::{Fill, Reply, Request};
use crate::parts::{Part, bytes_of};
use nbd::{Ahead, Command, End, Sizes, begins_whole, serve_beside, take_request};
use std::alloc::Global;
use std::io::BufReader;
use std::process::Abort;
use std::test::Fail;

#[test]
fn the_second_is_answered_first(rt: HostRuntime) -> Result<(), Fail> {
    let alloc = rt.alloc();
    let mut desk = Told::new(alloc);
    let mut out = Vec::new(alloc);
    let end = serve_beside(&rt, &mut desk, &mut out);
    same(&rt, &end, &End::Input);
    let wanted = bytes_of(alloc, &[Reply(5, 8)], &[Reply(0, 7)])?;
    same(&rt, &out.as_slice(), &wanted.as_slice());
    same(&rt, &desk.handed(), &1);
    Ok(())
}

/// A write, and a read behind it.
const TWO: [Part; 3] = [
    Request(0, 1, 7, 512, 512),
    Fill(3, 512),
    Request(0, 0, 8, 0, 512),
];

const SIZES: Sizes = Sizes {
    block: 512,
    bytes: 2048,
    read_only: false,
};

/// Takes the next request, and returns its cookie, what it asks for and how many bytes came behind it.
fn taken<R: Ahead>(rt: &impl Abort, alloc: Global, input: &mut R) -> (u64, Option<Command>, usize) {
    match take_request(alloc, Vec::new(alloc), input, SIZES) {
        Ok(incoming) => {
            let all = incoming.payload.as_slice().iter().all(|byte| *byte == 3);
            same(rt, &all, &true);
            (
                incoming.request.cookie,
                incoming.asked.ok(),
                incoming.payload.len(),
            )
        }
        Err(_) => (0, None, 0),
    }
}

#[test]
fn requests_are_taken_one_by_one(rt: HostRuntime) -> Result<(), Fail> {
    let alloc = rt.alloc();
    let client = bytes_of(alloc, &TWO, &[])?;
    let mut input = BufReader::with_capacity(alloc, 1_024, client.as_slice())?;
    same(&rt, &begins_whole(input.ahead()), &false);
    let write = Command::Write {
        offset: 512,
        count: 512,
        through: false,
    };
    same(&rt, &taken(&rt, alloc, &mut input), &(7, Some(write), 512));
    same(&rt, &begins_whole(input.ahead()), &true);
    let read = Command::Read {
        offset: 0,
        count: 512,
    };
    same(&rt, &taken(&rt, alloc, &mut input), &(8, Some(read), 0));
    same(&rt, &taken(&rt, alloc, &mut input), &(0, None, 0));
    Ok(())
}
