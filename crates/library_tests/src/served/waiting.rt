//! How long `nbd_disk` waits where a rule delays commands.

use crate::expect::same;
use crate::parts::Part::{Fill, Reply, Request};
use crate::parts::{GO, Part, bytes_of, gone};
use serving::serve_disk;
use std::cell::Cell;
use std::io;
use std::test::Fail;
use std::time::{Clock, Duration};

/// How often a clock was to sleep, and how many milliseconds in all.
#[derive(Debug, Clone, Copy, PartialEq, Eq)]
struct Slept {
    times: u64,
    millis: u64,
}

/// A clock that doesn't sleep, but notes that it was to.
#[derive(Drop)]
struct Noting {
    slept: Cell<Slept>,
}

impl Clock for Noting {
    fn monotonic(&self) -> io::Result<Duration> {
        Ok(Duration::from_millis(0))
    }

    fn since_1970(&self) -> io::Result<Duration> {
        Ok(Duration::from_millis(0))
    }

    fn sleep(&self, duration: Duration) {
        let slept = self.slept.get();
        let millis = u64::try_from(duration.as_millis()).unwrap_or(u64::MAX);
        self.slept.set(Slept {
            times: slept.times.saturating_add(1),
            millis: slept.millis.saturating_add(millis),
        });
    }
}

/// Each second command takes 7 ms longer. The last of seven sectors is bad.
const LATE: &str =
    "sector_size = 512\nsectors = 8\nmax_transfer = 1\ndepth = 1\nwindow = 1\nbad_sectors = [7]\n\
    fault = [{ kind = \"delay\", ms = 7, every = 2 }]\n[[partition]]\nfirst = 1\ncount = 7\n";

const ASKED: [Part; 8] = [
    // One command, which isn't late.
    Request(0, 1, 1, 0, 512),
    Fill(0xA5, 512),
    // Four, of which two are: 14 ms at once.
    Request(0, 0, 2, 0, 2048),
    // A flush, which is: 7 ms.
    Request(0, 3, 3, 0, 0),
    // The bad sector: on time, and 7 ms late.
    Request(0, 0, 4, 3072, 512),
    Request(0, 0, 5, 3072, 512),
    // Past the end, of which no command is made.
    Request(0, 0, 6, 3584, 512),
    Request(0, 2, 7, 0, 0),
];

const ANSWERED: [Part; 8] = [
    Reply(0, 1),
    Reply(0, 2),
    Fill(0xA5, 512),
    Fill(0, 1536),
    Reply(0, 3),
    Reply(5, 4),
    Reply(5, 5),
    Reply(22, 6),
];

#[test]
fn waits_as_long_as_commands_are_late(rt: HostRuntime) -> Result<(), Fail> {
    let alloc = rt.alloc();
    let clock = Noting {
        slept: Cell::new(Slept {
            times: 0,
            millis: 0,
        }),
    };
    let asked = bytes_of(alloc, &GO, &ASKED)?;
    let mut input = asked.as_slice();
    let mut out = Vec::new(alloc);
    let end = serve_disk(&clock, alloc, LATE.as_bytes(), 0, &mut input, &mut out);
    same(&rt, &end, &Ok(()));
    let wanted = bytes_of(alloc, &gone(3584), &ANSWERED)?;
    same(&rt, &out.as_slice(), &wanted.as_slice());
    let slept = Slept {
        times: 3,
        millis: 28,
    };
    same(&rt, &clock.slept.get(), &slept);
    Ok(())
}
