//! Lines of labels: each is read, and written again as it stood and in short.

use crate::expect::same;
use label_text::{LineFault, is_told, read_line, write_line, write_short_line};
use std::alloc::Global;
use std::process::Abort;
use std::test::Fail;
use trace_line::Line;

/// A line of each kind, with and without what may be left away, and what a transcript prints of its label.
static LINES: [(&str, &str); 35] = [
    ("call 1 read 0 131072 in 0", "call 1 read 0 131072"),
    (
        "call 18446744073709551615 read 0 512 through in 255",
        "call 18446744073709551615 read 0 512",
    ),
    (
        "call 2 write 512 4 in 3 a5*2,00*1,ff*1",
        "call 2 write 512 4",
    ),
    (
        "call 3 write 0 512 through in -",
        "call 3 write 0 512 through",
    ),
    (
        "call 7 write 1024 512 through in 1 a5*512",
        "call 7 write 1024 512 through",
    ),
    ("call 4 flush in 1", "call 4 flush"),
    ("call 5 flush through in -", "call 5 flush"),
    ("call 6 flush at 0 512 in 1", "call 6 flush"),
    ("call 7 read 1 0 in 0 00*1", "call 7 read 1 0"),
    (
        "start 1 tag 0 28000000080000004000",
        "start 1 tag 0 28000000080000004000",
    ),
    (
        "start 340282366920938463463374607431768211455 tag 255 88000000000100000000000000010000",
        "start 340282366920938463463374607431768211455 tag 255 88000000000100000000000000010000",
    ),
    ("start 2 tag 31 2a0800ff", "start 2 tag 31 2a0800ff"),
    ("start 1 tag 31", "start 1 tag 31"),
    ("start 1 tag 31 of 0", "start 1 tag 31"),
    (
        "start 3 tag 1 28000000080000004000 of 18446744073709551615",
        "start 3 tag 1 28000000080000004000",
    ),
    ("act 1", "act 1"),
    ("act 2 00*512,a5*512", "act 2"),
    (
        "fault 340282366920938463463374607431768211455",
        "fault 340282366920938463463374607431768211455",
    ),
    ("fault 3", "fault 3"),
    ("return 1 good", "return 1 good"),
    ("return 2 busy", "return 2 busy"),
    ("return 3 bad 0e 00", "return 3 bad"),
    ("return 4 bad 84 02 03 11 00", "return 4 bad"),
    ("answer 1 SUCCESS 512 00*512", "answer 1 SUCCESS 512 00*512"),
    (
        "answer 1 SUCCESS 6 00*3,ff*1,0a*2",
        "answer 1 SUCCESS 6 00*3,ff*1,0a*2",
    ),
    ("answer 3 SUCCESS 512", "answer 3 SUCCESS 512"),
    ("answer 4 SUCCESS 0", "answer 4 SUCCESS 0"),
    ("answer 2 CANCELLED 0", "answer 2 CANCELLED 0"),
    (
        "answer 2 DEVICE_DATA_ERROR 0",
        "answer 2 DEVICE_DATA_ERROR 0",
    ),
    ("cancel 3", "cancel 3"),
    ("pause", "pause"),
    ("resume", "resume"),
    ("remove", "remove"),
    ("surprise", "surprise"),
    ("removed", "removed"),
];

/// What is written of a line, whole or short, without its end.
fn written(alloc: Global, line: &Line, whole: bool) -> Result<Vec<u8>, Fail> {
    let mut out = Vec::new(alloc);
    match whole {
        true => write_line(&mut out, &line.label, line.owner)?,
        false => write_short_line(&mut out, &line.label)?,
    }
    out.pop();
    Ok(out)
}

fn each_again(rt: &impl Abort, alloc: Global, lines: &[(&str, &str)]) -> Result<(), Fail> {
    for (text, short) in lines {
        let line = read_line(alloc, text).ok().ok_or("not read")?;
        same(
            rt,
            &written(alloc, &line, true)?.as_slice(),
            &text.as_bytes(),
        );
        same(
            rt,
            &written(alloc, &line, false)?.as_slice(),
            &short.as_bytes(),
        );
    }
    Ok(())
}

/// What is refused, and in which column: an empty line, an owner behind another label, none behind its word, and one
/// byte more than a label can have.
static REFUSED: [(&str, u64); 5] = [
    ("", 1),
    ("fault 1 of 1", 9),
    ("start 1 tag 31 of", 19),
    ("start 1 tag 31 28 of 01", 22),
    ("act 1 a5*268435457", 7),
];

/// Lines that tell nothing are passed over before they are read.
#[test]
fn a_line_is_read_and_written_again(rt: HostRuntime) -> Result<(), Fail> {
    each_again(&rt, rt.alloc(), &LINES)?;
    same(&rt, &is_told("# a remark"), &false);
    same(&rt, &is_told(""), &false);
    same(&rt, &is_told("pause"), &true);
    for (text, column) in &REFUSED {
        let fault = read_line(rt.alloc(), text).err();
        same(&rt, &fault, &Some(LineFault::BadWord { column: *column }));
    }
    Ok(())
}
