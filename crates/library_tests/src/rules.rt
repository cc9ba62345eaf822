//! Machines of rules that no program has.

use crate::expect::same_at;
use judge::stepwise::{Judge, Refusal};
use judge::{MachineRules, Rule, Sectors};
use label_text::read_line;
use machine::Label;
use sector::{Bytes, Extent};
use std::alloc::{AllocError, Global};
use std::process::Abort;
use std::test::Fail;

/// In what a machine differs from one of two tags and a window of four. It has a partition of four sectors of two
/// bytes, from block 2 on; pieces have two sectors at most, and a second busy return is the last.
#[derive(Debug, Clone, Copy, PartialEq, Eq)]
enum Kept {
    Plain,
    /// A request goes as one piece, once.
    Whole,
    /// The adapter's sectors stand elsewhere.
    Elsewhere,
    /// The window is of one request.
    Narrow,
    /// The judge is given no sectors.
    Bare,
}

/// Lines of labels; the rule that the last breaks, behind its place, or what they leave undone.
type Row = (Kept, &'static [&'static str], &'static str);

const READ: &str = "call 1 read 0 4 in 0";

const LONG: &str = "call 1 read 0 8 in 0";

const SECOND: &str = "call 2 read 0 4 in 0";

const START: &str = "start 1 tag 0 28000000000200000200";

static ROWS: [Row; 8] = [
    (
        Kept::Narrow,
        &[READ, SECOND, START, "start 2 tag 1 28000000000200000200"],
        "2 requests are started, and 1 are the most",
    ),
    // A second busy return is the last.
    (
        Kept::Plain,
        &[
            READ,
            START,
            "return 1 busy",
            "start 2 tag 0 28000000000200000200",
            "return 2 busy",
            "start 3 tag 0 28000000000200000200",
        ],
        "5: request 1 asks for it, but its sector 0 came back busy, and no restart is left",
    ),
    (
        Kept::Whole,
        &[LONG, START],
        "1: request 1 asks for it, but it goes as one piece of 4 sectors, and not of 2",
    ),
    (Kept::Whole, &[READ, START], ""),
    (
        Kept::Whole,
        &[READ, "start 1 tag 0 28000000000200000100"],
        "1: request 1 asks for it, but it goes as one piece of 2 sectors, and not of 1",
    ),
    (
        Kept::Whole,
        &[
            READ,
            START,
            "return 1 busy",
            "start 2 tag 0 28000000000200000200",
        ],
        "3: request 1 asks for it, but it goes as one piece, once, and was started before",
    ),
    (
        Kept::Bare,
        &[READ, START, "act 1 00*4"],
        "2: the disk has no such sectors as piece 1 asks for",
    ),
    // A read gives what it gives.
    (
        Kept::Elsewhere,
        &[
            READ,
            START,
            "act 1 07*4",
            "return 1 good",
            "answer 1 SUCCESS 4 07*4",
        ],
        "",
    ),
];

fn rules(alloc: Global, kept: Kept) -> Result<MachineRules, AllocError> {
    let mut partitions = Vec::new(alloc);
    partitions.push(Extent { first: 2, count: 4 })?;
    let window = if kept == Kept::Narrow { 1 } else { 4 };
    Ok(MachineRules {
        sector_size: 2,
        disk_sectors: 6,
        partitions,
        longest: 64,
        max_transfer: 2,
        depth: 2,
        open_requests: Some(4),
        window: Some(window),
        one_piece: kept == Kept::Whole,
        busy_limit: 2,
        any_cut: false,
        faithful: kept != Kept::Elsewhere,
    })
}

/// Four sectors of zeros, or none.
fn zeros(alloc: Global, kept: Kept) -> Result<Vec<Sectors>, AllocError> {
    let mut arrays = Vec::new(alloc);
    if kept == Kept::Bare {
        return Ok(arrays);
    }
    let mut sectors = Vec::new(alloc);
    for _ in 0..4 {
        sectors.push(Bytes::new(vec![in alloc; 0; 2]?))?;
    }
    arrays.push(Sectors::new(alloc, sectors)?)?;
    Ok(arrays)
}

fn label(alloc: Global, line: &str) -> Result<Label, Fail> {
    let line = read_line(alloc, line).ok().ok_or("not read")?;
    Ok(line.label)
}

fn judge_of(alloc: Global, kept: Kept) -> Result<Judge, Fail> {
    let judge = Judge::new(alloc, rules(alloc, kept)?, zeros(alloc, kept)?);
    Ok(judge.ok().ok_or("no judge")?)
}

/// The rule that a line's label breaks, if it does.
fn taken(judge: &mut Judge, alloc: Global, line: &str) -> Result<Option<Rule>, Fail> {
    let label = label(alloc, line)?;
    match judge.take(alloc, &label) {
        Ok(()) => Ok(None),
        Err(Refusal::Breaks(rule)) => Ok(Some(rule)),
        Err(Refusal::NoVerdict(_)) => Err("no verdict".into()),
    }
}

/// What is said of these labels.
fn said(alloc: Global, kept: Kept, lines: &[&str]) -> Result<String, Fail> {
    let mut judge = judge_of(alloc, kept)?;
    for (at, line) in lines.iter().enumerate() {
        if let Some(rule) = taken(&mut judge, alloc, line)? {
            return Ok(format!(in alloc; "{at}: {rule}")?);
        }
    }
    match judge.undone() {
        Some(undone) => Ok(format!(in alloc; "{undone}")?),
        None => Ok(String::new(alloc)),
    }
}

fn each_said(rt: &impl Abort, alloc: Global, rows: &[Row]) -> Result<(), Fail> {
    for (kept, lines, wanted) in rows {
        let got = said(alloc, *kept, lines)?;
        same_at(rt, &got.as_str(), wanted, lines);
    }
    Ok(())
}

#[test]
fn rules_that_no_program_has(rt: HostRuntime) -> Result<(), Fail> {
    each_said(&rt, rt.alloc(), &ROWS)
}
