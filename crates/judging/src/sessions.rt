//! A trace over several sessions, judged: between two of them power was lost, or the process ended.

ghost use Rattle.std.specs.Prelude.{IfOk};
ghost use Rattle.judging.specs.Sessions.{AreJudged, AreSessionRules};

use crate::Error;
use crate::fields::Fields;
use crate::opened::{Standard, rules_of};
use crate::reading::{is_ended, next_line, without_end};
use crate::told::{Told, told_whole};
use judge::MachineRules;
use judge_words::asked::Asked;
use session_judge::{Line, Reason, judge, reason_of};
use startup::Verdict;
use std::alloc::{AllocError, Global};
use std::io;
use std::io::{BufRead, BufReader, Read, Write};

/// How many bytes are read at once.
const BUFFER: usize = 65_536;
/// How many of the values that a sector may hold are written.
const MOST_HELD: usize = 8;

/// The lines of a trace that tell something.
#[derive(Drop)]
struct Recorded {
    lines: Vec<Line>,
    /// Their numbers, from 1.
    numbers: Vec<u64>,
}

impl Recorded {
    fn add(&mut self, number: u64, line: Line) -> Result<(), AllocError> {
        let Ok(()) = self.lines.push(line) else {
            return Err(AllocError);
        };
        self.numbers.push(number)?;
        Ok(())
    }

    /// Takes a line of this number.
    fn take(&mut self, alloc: Global, number: u64, line: &[u8]) -> Result<(), Error> {
        if matches!(line, [b'l', b'o', b's', b't']) {
            self.add(number, Line::Lost)?;
            return Ok(());
        }
        if matches!(line, [b'e', b'n', b'd', b'e', b'd']) {
            self.add(number, Line::Ended)?;
            return Ok(());
        }
        match told_whole(alloc, line)? {
            Told::Line(told) => self.add(number, Line::Told(told.line))?,
            Told::Nothing => {}
            Told::BadWord { column } => {
                return Err(Error::BadLine {
                    line: number,
                    column,
                });
            }
        }
        Ok(())
    }

    /// The number of a line.
    fn number_of(&self, line: usize) -> u64 {
        self.numbers.get(line).copied().unwrap_or(0)
    }

    /// How many lines tell a label.
    fn labels(&self) -> usize {
        let lines = self.lines.iter();
        lines.filter(|line| matches!(line, Line::Told(_))).count()
    }
}

/// Judges a trace over several sessions, and writes what it is: `legal` with the number of its labels, or the first line that is
/// refused. It has passed where it is legal. A line `lost` says that power was lost, a line `ended` that the process ended; behind
/// it requests, pieces and numbers begin anew. What the sectors hold before the first line isn't known.
///
/// Of what may be asked of a trace any cut, many requests and a whole disk can be asked for.
///
/// # Errors
///
/// The first of these that comes: something else is asked for ([`Error::Usage`]); the trace can't be read, or has a bad line; it has no label; `out` failed. Where memory was
/// refused, or a number is too large, [`Error::NoMemory`].
pub fn check_sessions<T: Read + Drop, O: Write>(
    alloc: Global,
    standard: &Standard,
    trace: T,
    out: &mut O,
) -> Result<Verdict, Error> {
    if is_unheard(standard.asked) {
        return Err(Error::Usage);
    }
    let Ok(mut input) = BufReader::with_capacity(alloc, BUFFER, trace) else {
        return Err(Error::NoMemory);
    };
    let recorded = read_sessions(alloc, &mut input)?;
    let labels = recorded.labels();
    if labels == 0 {
        return Err(Error::NoLabel);
    }
    let verdict = verdict_of(alloc, standard, recorded.lines.as_slice())?;
    write_verdict(out, &recorded, labels, verdict)?;
    if let session_judge::Verdict::Refused { .. } = verdict {
        write_reason(alloc, standard, &recorded, out)?;
    }
    out.flush()?;
    Ok(match verdict {
        session_judge::Verdict::Passed => Verdict::Passed,
        _ => Verdict::Failed,
    })
}

/// Whether something is asked for that can't be of several sessions.
fn is_unheard(asked: Asked) -> bool {
    asked.any_tag | asked.any_read | asked.gaps | asked.settled | asked.ended | asked.json
}

/// What the lines of an input tell.
fn read_sessions<B: BufRead>(alloc: Global, input: &mut B) -> Result<Recorded, Error> {
    let mut recorded = Recorded {
        lines: Vec::new(alloc),
        numbers: Vec::new(alloc),
    };
    let mut line = Vec::new(alloc);
    for index in 0..u64::MAX {
        next_line(input, &mut line)?;
        recorded.take(alloc, index + 1, without_end(line.as_slice()))?;
        if !is_ended(line.as_slice()) {
            return Ok(recorded);
        }
    }
    Err(Error::TraceUnreadable)
}

/// The rules of a trace, whose sectors stand elsewhere.
#[tactic(auto, using(crate::proofs::SessionsJudged::unfaithful))]
fn session_rules(alloc: Global, standard: &Standard) -> Result<MachineRules, AllocError>
    ensures { IfOk result (AreSessionRules standard.now) }
{
    let rules = rules_of(alloc, standard)?;
    Ok(MachineRules {
        faithful: false,
        ..rules
    })
}

/// What is said of a trace.
#[tactic(auto, using(crate::proofs::SessionsJudged::judged_by))]
fn verdict_of(
    alloc: Global,
    standard: &Standard,
    lines: &[Line],
) -> Result<session_judge::Verdict, Error>
    ensures { IfOk result (AreJudged standard.now lines.now) }
{
    let rules = session_rules(alloc, standard)?;
    match judge(alloc, &rules, lines) {
        Ok(verdict) => Ok(verdict),
        Err(_) => Err(Error::NoMemory),
    }
}

/// Writes what a sector may hold that can't hold what was told, and which line made that certain.
fn write_reason<O: Write>(
    alloc: Global,
    standard: &Standard,
    recorded: &Recorded,
    out: &mut O,
) -> Result<(), Error> {
    let rules = session_rules(alloc, standard)?;
    let Ok(reason) = reason_of(alloc, &rules, recorded.lines.as_slice()) else {
        return Err(Error::NoMemory);
    };
    if let Some(Reason { held, certain }) = reason {
        let mut fields = Fields::new(alloc, false);
        let others = held.len().saturating_sub(MOST_HELD);
        for held in held.iter().take(MOST_HELD) {
            let line = match held.line {
                Some(line) => Some(recorded.number_of(line)),
                None => None,
            };
            fields.bytes("it may hold", held.bytes.as_slice(), line)?;
        }
        if others > 0 {
            let others = format!(in alloc; "{others} other values")?;
            fields.word("it may hold", others.as_str())?;
        }
        if let Some(line) = certain {
            let line = format!(in alloc; "line {}", recorded.number_of(line))?;
            fields.word("certain since", line.as_str())?;
        }
        out.write_all(fields.text.as_bytes())?;
    }
    out.write_all(b"\n")?;
    Ok(())
}

/// Writes what is said of a trace.
fn write_verdict<O: Write>(
    out: &mut O,
    recorded: &Recorded,
    labels: usize,
    verdict: session_judge::Verdict,
) -> io::Result<()> {
    match verdict {
        session_judge::Verdict::Passed => writeln!(out, "legal: {labels} labels"),
        session_judge::Verdict::Breaks { line, rule } => {
            let line = recorded.number_of(line);
            writeln!(out, "line {line}: {rule}")
        }
        session_judge::Verdict::Refused { line, sector } => {
            let line = recorded.number_of(line);
            write!(
                out,
                "line {line}: sector {sector} of the disk can't hold that"
            )
        }
        session_judge::Verdict::Unnamed { line } => {
            let line = recorded.number_of(line);
            writeln!(
                out,
                "undecided: line {line}: several requests may have made the start: write its request behind it, as of 1"
            )
        }
    }
}
