//! This program says whether a trace is a run of the machine that some settings describe, and whether each sector of a
//! history has a schedule; it cuts a refused trace down, writes the trace of a script, or draws a trace.
//!
//! # Promises
//!
//! What `judging` and `startup` promise. Of files and output nothing is promised.
#![tactic(auto)]

use command_line::Refusal;
use judge_words::asked::{Asked, Command};
use judge_words::command;
use judging::Error;
use judging::checking::check;
use judging::cutting::cut;
use judging::drawing::{Drawn, draw, draw_judged, lines_in};
use judging::histories::{Listeners, Terms, judge_history};
use judging::opened::{Standard, read_standard};
use judging::progress::Progress;
use judging::scripts::record_script;
use judging::session_histories::judge_session_history;
use judging::sessions::check_sessions;
use startup::{Input, Verdict, ended, fault_of, hold_standard, open_input};
use std::alloc::Global;
use std::env;
use std::io::{BufWriter, Write};
use std::process::ExitCode;
use std::rt::Files;

/// How many bytes of output are written at once.
const BUFFER: usize = 65_536;

/// How many labels are between two lines of progress.
const EVERY: u64 = 100_000;

/// Does what the command line asks for.
fn run(rt: &HostRuntime) -> Result<Verdict, Error> {
    let alloc = rt.alloc();
    let words = match env::args(rt) {
        Ok(words) => words.collect::<Vec<String>>(alloc)?,
        Err(error) => return Err(fault_of(&error, Error::Usage)),
    };
    match asked_for(alloc, words.as_slice())? {
        Command::Check {
            config,
            trace,
            asked,
            progress,
            sessions,
        } => {
            if sessions {
                return judge_sessions(rt, config, trace, asked);
            }
            let mut progress = Progress {
                out: rt.stderr(),
                every: if progress { EVERY } else { 0 },
            };
            let standard = read_standard(alloc, open_input(rt, config), asked)?;
            judge(rt, &standard, trace, &mut progress)
        }
        Command::Cut {
            config,
            trace,
            asked,
        } => {
            let standard = read_standard(alloc, open_input(rt, config), asked)?;
            cut_trace(rt, &standard, trace)
        }
        Command::Record { config, script } => write_trace(rt, config, script),
        Command::History {
            config,
            history,
            any_start,
            progress,
            json,
            sessions,
        } => {
            let mut listeners = Listeners {
                out: rt.stdout(),
                progress: Progress {
                    out: rt.stderr(),
                    every: if progress { EVERY } else { 0 },
                },
            };
            let terms = Terms { any_start, json };
            if sessions {
                return judge_session_history_at(rt, config, history, terms, &mut listeners);
            }
            judge_history_at(rt, config, history, terms, &mut listeners)
        }
        Command::Picture {
            config,
            trace,
            asked,
            events,
            lines,
        } => {
            let drawn = drawn_of(events, lines)?;
            if let Some(config) = config {
                return draw_judged_trace(rt, config, trace, asked, drawn);
            }
            if asked != Asked::nothing() {
                return Err(Error::Usage);
            }
            draw_trace(rt, trace, drawn)
        }
    }
}

/// What words ask for.
fn asked_for<'a>(alloc: Global, words: &'a [String]) -> Result<Command<'a>, Error> {
    match command(alloc, words) {
        Ok(command) => Ok(command),
        Err(Refusal::Usage) => Err(Error::Usage),
        Err(Refusal::NoMemory) => Err(Error::NoMemory),
    }
}

/// What is drawn of a trace, where some lines may be asked for.
fn drawn_of(events: bool, lines: Option<&str>) -> Result<Drawn, Error> {
    let Some(text) = lines else {
        return Ok(Drawn {
            events,
            lines: None,
        });
    };
    let Some(lines) = lines_in(text) else {
        return Err(Error::Usage);
    };
    Ok(Drawn {
        events,
        lines: Some(lines),
    })
}

/// Judges the trace at a path, or the one on standard input.
fn judge<W: Write>(
    rt: &HostRuntime,
    standard: &Standard,
    trace: &str,
    progress: &mut Progress<W>,
) -> Result<Verdict, Error> {
    let alloc = rt.alloc();
    if trace == "-" {
        return check(alloc, standard, rt.stdin(), &mut rt.stdout(), progress);
    }
    let trace = open_input(rt, trace);
    check(alloc, standard, trace, &mut rt.stdout(), progress)
}

/// Writes what the trace at a path, or the one on standard input, is cut down to.
fn cut_trace(rt: &HostRuntime, standard: &Standard, trace: &str) -> Result<Verdict, Error> {
    let alloc = rt.alloc();
    if trace == "-" {
        return cut(alloc, standard, rt.stdin(), &mut rt.stdout());
    }
    cut(alloc, standard, open_input(rt, trace), &mut rt.stdout())
}

/// Judges the trace of several sessions at a path, or the one on standard input.
fn judge_sessions(
    rt: &HostRuntime,
    config: &str,
    trace: &str,
    asked: Asked,
) -> Result<Verdict, Error> {
    let alloc = rt.alloc();
    let standard = read_standard(alloc, open_input(rt, config), asked)?;
    if trace == "-" {
        return check_sessions(alloc, &standard, rt.stdin(), &mut rt.stdout());
    }
    check_sessions(alloc, &standard, open_input(rt, trace), &mut rt.stdout())
}

/// Writes the trace of the script at a path, or of the one on standard input.
fn write_trace(rt: &HostRuntime, config: &str, script: &str) -> Result<Verdict, Error> {
    let alloc = rt.alloc();
    let config = open_input(rt, config);
    let Ok(mut out) = BufWriter::with_capacity(alloc, BUFFER, rt.stdout()) else {
        return Err(Error::NoMemory);
    };
    if script == "-" {
        record_script(alloc, config, rt.stdin(), &mut out)?;
    } else {
        record_script(alloc, config, open_input(rt, script), &mut out)?;
    }
    Ok(Verdict::Passed)
}

/// Opens the file at a path, if one is given.
fn open_if<R: Files>(rt: &R, path: Option<&str>) -> Option<Input<R::File>> {
    match path {
        Some(path) => Some(open_input(rt, path)),
        None => None,
    }
}

/// Judges the history at a path, or the one on standard input.
fn judge_history_at<O: Write, W: Write>(
    rt: &HostRuntime,
    config: Option<&str>,
    history: &str,
    terms: Terms,
    listeners: &mut Listeners<O, W>,
) -> Result<Verdict, Error> {
    let alloc = rt.alloc();
    let config = open_if(rt, config);
    if history == "-" {
        return judge_history(alloc, config, rt.stdin(), terms, listeners);
    }
    judge_history(alloc, config, open_input(rt, history), terms, listeners)
}

/// Judges the history over several sessions at a path, or the one on standard input. Its sectors begin with zeros.
fn judge_session_history_at<O: Write, W: Write>(
    rt: &HostRuntime,
    config: Option<&str>,
    history: &str,
    terms: Terms,
    listeners: &mut Listeners<O, W>,
) -> Result<Verdict, Error> {
    let Terms { any_start, json } = terms;
    if any_start {
        return Err(Error::Usage);
    }
    let alloc = rt.alloc();
    let config = open_if(rt, config);
    if history == "-" {
        return judge_session_history(alloc, config, rt.stdin(), json, listeners);
    }
    judge_session_history(alloc, config, open_input(rt, history), json, listeners)
}

/// Draws the trace at a path, or the one on standard input.
fn draw_trace(rt: &HostRuntime, trace: &str, drawn: Drawn) -> Result<Verdict, Error> {
    let alloc = rt.alloc();
    let Ok(mut out) = BufWriter::with_capacity(alloc, BUFFER, rt.stdout()) else {
        return Err(Error::NoMemory);
    };
    if trace == "-" {
        return draw(alloc, rt.stdin(), drawn, &mut out);
    }
    draw(alloc, open_input(rt, trace), drawn, &mut out)
}

/// Draws the trace at a path, or the one on standard input, judged by the settings at a path and by what is asked of it.
fn draw_judged_trace(
    rt: &HostRuntime,
    config: &str,
    trace: &str,
    asked: Asked,
    drawn: Drawn,
) -> Result<Verdict, Error> {
    let alloc = rt.alloc();
    let Ok(mut out) = BufWriter::with_capacity(alloc, BUFFER, rt.stdout()) else {
        return Err(Error::NoMemory);
    };
    let standard = read_standard(alloc, open_input(rt, config), asked)?;
    if trace == "-" {
        return draw_judged(alloc, &standard, rt.stdin(), drawn, &mut out);
    }
    draw_judged(alloc, &standard, open_input(rt, trace), drawn, &mut out)
}

fn main(rt: HostRuntime) -> ExitCode {
    match hold_standard(&rt) {
        // They are held until the run has ended.
        Ok(_standard) => ExitCode::from(ended(run(&rt), &mut rt.stderr())),
        Err(error) => {
            // Nobody is left to hear of a fault of this writer.
            let _ = writeln!(rt.stderr(), "stackjudge: cannot open /dev/null: {error}");
            ExitCode::FAILURE
        }
    }
}
