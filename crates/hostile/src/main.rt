//! Hostile runs of the whole stack, judged. A run is made of steps: client calls, cancels, calls of plug and play,
//! acts, finishes and resets. There are runs worked by hand, with a reset, a cancel, a close or a removal put in at
//! every place in turn, and with each act failing in turn; and runs of random settings and steps.
//!
//! The program asks of each run whether its labels are a run of the sector machine, from sectors of zeros on (`judge`).
//! It asks whether the machine is settled where the labels end, and whether the answers that were taken after each step
//! are those of its labels. Where all that was out came back and nothing is held, it asks whether each request was
//! answered. Of a few random runs it asks whether the judge of a whole list stops where the judge of single labels does.
//!
//! `hostile` takes a fixed seed, and `hostile SEED RUNS` makes this many random runs. Run n has the seed SEED + n, so a
//! wrong one is made again by its own seed and 1. A line is printed for each sweep, and one for the first wrong run of
//! a sweep. The exit status is 1 where a run was wrong, and 2 where there is no verdict.
//!
//! # Promises
//!
//! Nothing: it is a test.
#![tactic(auto)]

mod agreeing;
mod dice;
mod fault;
mod layout;
mod playing;
mod random;
mod rows;
mod steps;
mod sweeps;
mod tally;
mod verdicts;

use crate::fault::HostileFault;
use crate::random::random_runs;
use crate::rows::{ROWS, Row};
use crate::sweeps::{failures, insertions};
use crate::tally::Tally;
use std::env;
use std::process::ExitCode;

/// The seed where none is given.
const SEED: u64 = 7;

/// The number of random runs where none is given.
const RUNS: u64 = 5000;

/// Returns what the command line asks for: a seed, and a number of runs.
fn asked(rt: &HostRuntime) -> Result<(u64, u64), HostileFault> {
    let words = match env::args(rt) {
        Ok(words) => words.collect::<Vec<String>>(rt.alloc())?,
        Err(_) => return Err(HostileFault::Usage),
    };
    match words.as_slice() {
        [] | [_] => Ok((SEED, RUNS)),
        [_, seed, runs] => Ok((number(seed)?, number(runs)?)),
        _ => Err(HostileFault::Usage),
    }
}

fn number(word: &String) -> Result<u64, HostileFault> {
    word.as_str()
        .parse::<u64>()
        .map_err(|_| HostileFault::Usage)
}

/// Names the first wrong run of a sweep, and says whether there is one.
fn is_wrong(rt: &HostRuntime, tally: &Tally) -> Result<bool, HostileFault> {
    let Some((case, wrong)) = tally.first else {
        return Ok(false);
    };
    println!(rt; "first wrong: {case}: {wrong}")?;
    Ok(true)
}

/// Makes both sweeps of a row.
fn sweep(rt: &HostRuntime, row: &Row) -> Result<bool, HostileFault> {
    let all = insertions(rt.alloc(), row)?;
    println!(rt;
        "{}: {} insertions, {} labels, {} wrong",
        row.name, all.runs, all.labels, all.wrong
    )?;
    let inserted = is_wrong(rt, &all)?;
    let all = failures(rt.alloc(), row)?;
    println!(rt;
        "{}: {} runs with one act failing, {} started, {} labels, {} wrong",
        row.name, all.runs, all.started, all.labels, all.wrong
    )?;
    let failing = is_wrong(rt, &all)?;
    Ok(inserted || failing)
}

/// Makes all sweeps and the random runs; returns whether anything was wrong.
fn run(rt: &HostRuntime) -> Result<bool, HostileFault> {
    let (seed, runs) = asked(rt)?;
    let mut any = false;
    for row in &ROWS {
        any |= sweep(rt, row)?;
    }
    let all = random_runs(rt.alloc(), seed, runs)?;
    println!(rt;
        "random: seed {seed}, {} runs, {} started, {} labels, {} wrong",
        all.runs, all.started, all.labels, all.wrong
    )?;
    any |= is_wrong(rt, &all)?;
    Ok(any)
}

fn main(rt: HostRuntime) -> ExitCode {
    match run(&rt) {
        Ok(false) => ExitCode::SUCCESS,
        Ok(true) => ExitCode::FAILURE,
        Err(fault) => {
            let _ = eprintln!(rt; "hostile: {fault}");
            ExitCode::from(2)
        }
    }
}
