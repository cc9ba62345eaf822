//! Scripts over a disk in one block of memory print what they print over a sparse one.

ghost use Rattle.std.specs.Prelude.{◌≡◌, IfOk};
ghost use Rattle.probe.specs.Exchange.{IsIdle};
ghost use Rattle.settings.specs.InRange.{AreInRange};

use crate::expect::same_at;
use adapter::Adapter;
use compose::{Settings, Stack};
use disk::{NoMemory, VecDisk};
use miniport::MemAdapter;
use script::{Line, Style, lines, play};
use settings::{Config, table_sector};
use startup::settings_of;
use std::alloc::Global;
use std::test::Fail;

/// The adapter of some settings, over a disk that keeps all its sectors: zeros, and the partition table in the first.
fn adapter_of(alloc: Global, config: Config) -> Result<MemAdapter<VecDisk>, NoMemory>
    requires { AreInRange config }
    ensures idle { IfOk result (λ a. IsIdle a.shown) }
    ensures unasked { IfOk result (λ a. a.shown.accepted ≡ 0) }
{
    let first = table_sector(alloc, &config)?;
    let medium = VecDisk::starting_with(
        alloc,
        config.sector_size,
        config.sectors,
        first.as_slice(),
        config.bad_sectors,
    )?;
    MemAdapter::new(
        alloc,
        medium,
        config.max_transfer,
        config.depth,
        config.write_protected,
    )
}

/// Plays lines through a stack over an adapter. Returns whether all were played.
fn play_on<A: Adapter>(
    alloc: Global,
    adapter: A,
    settings: Settings,
    lines: &[Line<'_>],
    out: &mut Vec<u8>,
) -> bool
    requires idle { IsIdle (A.view adapter) }
    requires unasked { (A.view adapter).accepted ≡ 0 }
{
    match Stack::start(alloc, adapter, settings) {
        Ok(mut stack) => play(alloc, &mut stack, lines, Style::Transcript, out).is_ok(),
        Err(_) => false,
    }
}

/// Reads settings and a script, and plays it. Returns whether all was played.
fn trace(alloc: Global, config: &str, script: &str, out: &mut Vec<u8>) -> bool {
    let Ok(config) = settings_of(alloc, config.as_bytes()) else {
        return false;
    };
    let Ok(lines) = lines(alloc, script) else {
        return false;
    };
    let settings = Settings {
        window: config.window,
        open_requests: config.open_requests,
    };
    let Ok(adapter) = adapter_of(alloc, config) else {
        return false;
    };
    play_on(alloc, adapter, settings, lines.as_slice(), out)
}

/// A disk of 4,096 sectors of 512 bytes with two tags and two requests at work.
const DISK: &str =
    "sector_size = 512\nsectors = 4096\nmax_transfer = 64\ndepth = 2\nwindow = 2\n[[partition]]\nfirst = 2048\n\
    count = 1024\n";

/// A setting more, a script and what is printed, as in `examples/rows`.
static ROWS: [(&str, &str, &str); 4] = [
    // Two pieces, joined by their place.
    (
        "",
        "open 0\nwrite 1 4096 32768 11\nact 0\nfinish 0\nwrite 1 36864 18432 22\nact 0\nfinish 0\n\
        read 1 4096 51200\nact 1\nfinish 1\nact 0\nfinish 0\n",
        "> open 0\nhandle 1\n> write 1 4096 32768 11\nrequest 1\ncall 1 write 4096 32768\n\
        start 1 tag 0 2a000000080800004000\n> act 0\nok\nact 1\n> finish 0\nok\nreturn 1 good\n\
        answer 1 SUCCESS 32768\n> write 1 36864 18432 22\nrequest 2\ncall 2 write 36864 18432\n\
        start 2 tag 0 2a000000084800002400\n> act 0\nok\nact 2\n> finish 0\nok\nreturn 2 good\n\
        answer 2 SUCCESS 18432\n> read 1 4096 51200\nrequest 3\ncall 3 read 4096 51200\n\
        start 3 tag 0 28000000080800004000\nstart 4 tag 1 28000000084800002400\n> act 1\nok\nact 4\n> finish 1\n\
        ok\nreturn 4 good\n> act 0\nok\nact 3\n> finish 0\nok\nreturn 3 good\n\
        answer 3 SUCCESS 51200 11*32768,22*18432\n",
    ),
    // The second of three pieces has a bad sector.
    (
        "bad_sectors = [2120]\n",
        "open 0\nread 1 0 98304\nact 0\nfinish 0\nact 1\nfinish 1\nact 0\nfinish 0\n",
        "> open 0\nhandle 1\n> read 1 0 98304\nrequest 1\ncall 1 read 0 98304\n\
        start 1 tag 0 28000000080000004000\nstart 2 tag 1 28000000084000004000\n> act 0\nok\nact 1\n> finish 0\n\
        ok\nreturn 1 good\nstart 3 tag 0 28000000088000004000\n> act 1\nok\nfault 2\n> finish 1\nok\n\
        return 2 bad\n> act 0\nok\nact 3\n> finish 0\nok\nreturn 3 good\nanswer 1 DEVICE_DATA_ERROR 0\n",
    ),
    // A write-protected disk.
    (
        "write_protected = true\n",
        "open 0\nwrite 1 0 512 a5\nact 0\nfinish 0\n",
        "> open 0\nhandle 1\n> write 1 0 512 a5\nrequest 1\ncall 1 write 0 512\n\
        start 1 tag 0 2a000000080000000100\n> act 0\nok\nfault 1\n> finish 0\nok\nreturn 1 bad\n\
        answer 1 MEDIA_WRITE_PROTECTED 0\n",
    ),
    // A reset after the act: the write failed, and its bytes stand.
    (
        "",
        "open 0\nwrite 1 0 512 a5\nact 0\nreset\nfinish 0\nread 1 0 512\nact 0\nfinish 0\n",
        "> open 0\nhandle 1\n> write 1 0 512 a5\nrequest 1\ncall 1 write 0 512\n\
        start 1 tag 0 2a000000080000000100\n> act 0\nok\nact 1\n> reset\nok\n> finish 0\nok\nreturn 1 bad\n\
        answer 1 IO_DEVICE_ERROR 0\n> read 1 0 512\nrequest 2\ncall 2 read 0 512\n\
        start 2 tag 0 28000000080000000100\n> act 0\nok\nact 2\n> finish 0\nok\nreturn 2 good\n\
        answer 2 SUCCESS 512 a5*512\n",
    ),
];

#[test]
fn prints_the_same_over_one_block(rt: HostRuntime) -> Result<(), Fail> {
    let alloc = rt.alloc();
    for (more, script, wanted) in ROWS {
        let config = format!(in alloc; "{more}{DISK}")?;
        let mut out = Vec::new(alloc);
        let played = trace(alloc, config.as_str(), script, &mut out);
        same_at(&rt, &out.as_slice(), &wanted.as_bytes(), &script);
        same_at(&rt, &played, &true, &script);
    }
    Ok(())
}
