//! This program runs a script of events through a stack over a disk in memory, and prints the trace. Or it runs clients
//! in threads of their own over such a stack, and prints their tally.
//!
//! # Promises
//!
//! What `commands` and `startup` promise. Of files, threads and output nothing is promised.
#![tactic(auto)]

use commands::Error;
use commands::clients::{Load, clients};
use commands::trace::trace;
use commands::words::asked::Command;
use commands::words::command;
use startup::{Verdict, ended, fault_of, hold_standard, open_input};
use std::env;
use std::io::{BufWriter, Write};
use std::process::ExitCode;
use std::sync::Wait;
use std::thread::Threads;

/// How many bytes of a transcript are written at once.
const BUFFER: usize = 65_536;

/// Does what the command line asks for. Clients run in threads of `host`.
fn run<H: Threads + Wait + Sync>(rt: &HostRuntime, host: &H) -> Result<Verdict, Error> {
    let alloc = rt.alloc();
    let words = match env::args(rt) {
        Ok(words) => words.collect::<Vec<String>>(alloc)?,
        Err(error) => return Err(fault_of(&error, Error::Usage)),
    };
    match command(alloc, words.as_slice())? {
        Command::Trace { config, script } => {
            let config = open_input(rt, config);
            let script = open_input(rt, script);
            let Ok(mut out) = BufWriter::with_capacity(alloc, BUFFER, rt.stdout()) else {
                return Err(Error::NoMemory);
            };
            trace(alloc, config, script, &mut out)?;
            Ok(Verdict::Passed)
        }
        Command::Clients {
            config,
            threads,
            rounds,
        } => {
            let config = open_input(rt, config);
            let outcome = clients(
                host,
                alloc,
                config,
                Load { threads, rounds },
                &mut rt.stdout(),
            )?;
            Ok(outcome.verdict)
        }
    }
}

fn main(rt: HostRuntime) -> ExitCode {
    match hold_standard(&rt) {
        // They are held until the run has ended.
        Ok(_standard) => ExitCode::from(ended(run(&rt, &rt), &mut rt.stderr())),
        Err(error) => {
            // Nobody is left to hear of a fault of this writer.
            let _ = writeln!(rt.stderr(), "stackrun: cannot open /dev/null: {error}");
            ExitCode::FAILURE
        }
    }
}
