//! What is said of `nbd_disk` where its settings can't be read, or its client can't be heard or answered.

use crate::failing::Torn;
use serving::{Error, serve_disk};
use startup::Error::ConfigUnreadable;
use std::io::ErrorKind;
use std::test::Fail;

const DISK: &str = "sector_size = 512\nsectors = 4\nmax_transfer = 1\ndepth = 1\nwindow = 1\n";

/// A file that can't be read, and a writer that takes nothing.
fn failing<'a>(kind: ErrorKind) -> Torn<'a> {
    Torn { bytes: &[], kind }
}

#[test]
fn says_what_cannot_be_read_or_written(rt: HostRuntime) -> Result<(), Fail> {
    let alloc = rt.alloc();
    let config = format!(in alloc; "{DISK}partition = [{{ first = 1, count = 1 }}]\n")?;
    let denied = ErrorKind::PermissionDenied;
    let memory = ErrorKind::OutOfMemory;
    let mut input = b"".as_slice();
    let mut out = Vec::new(alloc);
    let unread = serve_disk(rt, alloc, failing(denied), 0, &mut input, &mut out);
    assert!(rt; unread == Err(Error::Startup(ConfigUnreadable)));
    let refused = serve_disk(rt, alloc, failing(memory), 0, &mut input, &mut out);
    assert!(rt; refused == Err(Error::Startup(startup::Error::NoMemory)));
    let mut broken = failing(denied);
    let unwritten = serve_disk(rt, alloc, config.as_bytes(), 0, &mut input, &mut broken);
    assert!(rt; unwritten == Err(Error::OutputFailed));
    let mut broken_input = failing(denied);
    let unheard = serve_disk(rt, alloc, config.as_bytes(), 0, &mut broken_input, &mut out);
    assert!(rt; unheard == Err(Error::InputEnded));
    Ok(())
}
