//! What a reader has read ahead, by which a session tells which replies can wait.

use crate::expect::same;
use nbd::Ahead;
use std::io::{BufReader, Read};
use std::test::Fail;

#[test]
fn tells_what_was_read_ahead(rt: HostRuntime) -> Result<(), Fail> {
    let alloc = rt.alloc();
    let client: &[u8] = b"abcdefghij";
    let Ok(mut input) = BufReader::with_capacity(alloc, 8, client) else {
        return Err(Fail::from("no memory"));
    };
    same(&rt, &input.ahead(), &&b""[..]);
    let mut first = [0; 3];
    same(&rt, &input.read(&mut first).ok(), &Some(3));
    same(&rt, &input.ahead(), &&b"defgh"[..]);
    Ok(())
}
