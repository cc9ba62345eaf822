//! What is said of `stackrun trace`, and its exit status, where a file can't be read to its end, or what is printed
//! can't be written.

use crate::expect::{same, same_at};
use crate::failing::{Narrow, Stuck, Torn};
use commands::trace::trace;
use startup::{Input, Verdict, ended};
use std::alloc::Global;
use std::io;
use std::io::{ErrorKind, Read, Write};
use std::test::Fail;

/// What was said of a run, and its exit status.
#[derive(Drop)]
struct Outcome {
    faults: Vec<u8>,
    status: u8,
}

fn run<C: Read + Drop, S: Read + Drop, O: Write>(
    alloc: Global,
    config: C,
    script: S,
    out: &mut O,
) -> Outcome {
    let mut faults = Vec::new(alloc);
    let outcome = trace(alloc, config, script, out).map(|()| Verdict::Passed);
    let status = ended(outcome, &mut faults);
    Outcome { faults, status }
}

const DISK: &str =
    "sector_size = 512\nsectors = 4096\nmax_transfer = 64\ndepth = 1\nwindow = 1\nopen_requests = 1\n";

const PARTITION: &str = "[[partition]]\nfirst = 2048\ncount = 1024\n";

/// Kinds of a failed read, and what is told of it where the settings are read, and where the script is.
static READS: [(ErrorKind, &str, &str); 3] = [
    (
        ErrorKind::NotFound,
        "stackrun: cannot read CONFIG\n",
        "stackrun: cannot read SCRIPT\n",
    ),
    (
        ErrorKind::PermissionDenied,
        "stackrun: cannot read CONFIG\n",
        "stackrun: cannot read SCRIPT\n",
    ),
    (
        ErrorKind::OutOfMemory,
        "stackrun: no memory\n",
        "stackrun: no memory\n",
    ),
];

#[test]
fn says_what_cannot_be_read(rt: HostRuntime) -> Result<(), Fail> {
    let alloc = rt.alloc();
    let config = format!(in alloc; "{DISK}{PARTITION}")?;
    let mut out = Vec::new(alloc);
    for (kind, of_config, of_script) in READS {
        let bytes = b"sectors = 1\n".as_slice();
        let script = b"open\n".as_slice();
        let got = run(alloc, Torn { bytes, kind }, script, &mut out);
        same(&rt, &got.faults.as_slice(), &of_config.as_bytes());
        same(&rt, &got.status, &1);
        let bytes = b"open 0\nopen\n".as_slice();
        let got = run(alloc, config.as_bytes(), Torn { bytes, kind }, &mut out);
        same(&rt, &got.faults.as_slice(), &of_script.as_bytes());
        same(&rt, &got.status, &1);
    }
    same(&rt, &out.len(), &0);
    Ok(())
}

/// A file that was not opened.
fn refused<'a>(kind: ErrorKind) -> Input<&'a [u8]> {
    Input::of(Err(io::Error::from(kind)))
}

#[test]
fn says_what_was_not_opened(rt: HostRuntime) -> Result<(), Fail> {
    let alloc = rt.alloc();
    let config = format!(in alloc; "{DISK}{PARTITION}")?;
    let mut out = Vec::new(alloc);
    for (kind, of_config, of_script) in READS {
        let got = run(alloc, refused(kind), refused(kind), &mut out);
        same(&rt, &got.faults.as_slice(), &of_config.as_bytes());
        same(&rt, &got.status, &1);
        let opened = Input::of(Ok(config.as_bytes()));
        let got = run(alloc, opened, refused(kind), &mut out);
        same(&rt, &got.faults.as_slice(), &of_script.as_bytes());
        // Bad settings are told before a script that can't be read.
        let got = run(alloc, b"sectors = 1\n".as_slice(), refused(kind), &mut out);
        let wanted = b"stackrun: config: missing key\n";
        same(&rt, &got.faults.as_slice(), &wanted.as_slice());
        same(&rt, &got.status, &1);
    }
    same(&rt, &out.len(), &0);
    Ok(())
}

/// A disk of two sectors, of which the second is the partition.
const SMALL: &str =
    "sector_size = 512\nsectors = 2\nmax_transfer = 1\ndepth = 1\nwindow = 1\nopen_requests = 1\n\
    partition = [{ first = 1, count = 1 }]\n";

const SMALL_SCRIPT: &str = "open 0\nwrite 1 0 512 a5\nact 0\nfinish 0\n";

const SMALL_TRACE: &str =
    "> open 0\nhandle 1\n> write 1 0 512 a5\nrequest 1\ncall 1 write 0 512\nstart 1 tag 0 2a000000000100000100\n\
    > act 0\nok\nact 1\n> finish 0\nok\nreturn 1 good\nanswer 1 SUCCESS 512\n";

/// Kinds of a failed write or flush, and what is told of it.
static WRITES: [(ErrorKind, &str); 2] = [
    (ErrorKind::BrokenPipe, "stackrun: output failed\n"),
    (ErrorKind::OutOfMemory, "stackrun: no memory\n"),
];

#[test]
fn says_that_output_failed(rt: HostRuntime) -> Result<(), Fail> {
    let alloc = rt.alloc();
    let whole = SMALL_TRACE.as_bytes();
    for (kind, fault) in WRITES {
        for room in 0..=whole.len() {
            let mut taken = Vec::new(alloc);
            let mut out = Narrow {
                taken: &mut taken,
                room,
                kind,
            };
            let got = run(alloc, SMALL.as_bytes(), SMALL_SCRIPT.as_bytes(), &mut out);
            let (status, line) = match room < whole.len() {
                true => (1, fault),
                false => (0, ""),
            };
            same_at(&rt, &got.status, &status, &room);
            same_at(&rt, &got.faults.as_slice(), &line.as_bytes(), &room);
            same(&rt, &taken.len(), &room);
            assert!(rt; whole.starts_with(taken.as_slice()), "at {room}");
        }
    }
    Ok(())
}

#[test]
fn says_that_output_stays_behind(rt: HostRuntime) {
    let alloc = rt.alloc();
    for (kind, fault) in WRITES {
        let mut taken = Vec::new(alloc);
        let mut out = Stuck {
            taken: &mut taken,
            kind,
        };
        let got = run(alloc, SMALL.as_bytes(), SMALL_SCRIPT.as_bytes(), &mut out);
        same(&rt, &got.status, &1);
        same(&rt, &got.faults.as_slice(), &fault.as_bytes());
        same(&rt, &taken.as_slice(), &SMALL_TRACE.as_bytes());
    }
}
