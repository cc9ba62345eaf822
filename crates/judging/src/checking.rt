//! A trace, judged.

ghost use Rattle.std.specs.Prelude.{◌≡◌, ◌<◌, Any, IfErr, IfOk, MatchBool, OnOk, length, string_bytes};
ghost use Rattle.std.specs.List.{list_any};
ghost use Rattle.std.specs.Io.KnownBytes.{Appends};
ghost use Rattle.judge.specs.LeftUndone.{IsSettled};
ghost use Rattle.judging.specs.Checked.{IsCheckFault, IsToldBefore, Meets, PrintsVerdict, has_ended};
ghost use Rattle.judging.specs.inside.Checked.{IsCourseOf, IsLegalFault, IsSaysFault, SaysLegal, SaysOf, tally_line};

use crate::Error;
use crate::course::{Course, Tally, Trial};
use crate::opened::Standard;
use crate::progress::Progress;
use crate::reading::{is_ended, next_line, without_end};
use crate::told::told_by;
use judge::Machine;
use judge::stepwise::Judge;
use judge_words::asked::Asked;
use startup::Verdict;
use std::alloc::Global;
use std::io;
use std::io::{BufRead, BufReader, Read, Write};

/// How many bytes are read at once.
const BUFFER: usize = 65_536;

/// Judges a trace by the machine of some settings, and writes what it is: `legal` with its numbers and what it leaves,
/// or the number of the first line that is refused, why, and what was open and at the adapter there. A refusal is
/// written and flushed before the next line is read. Meanwhile `progress` is told how far the check came, of which
/// `out` has nothing.
///
/// The verdict has passed where the trace is a run that leaves what is asked for.
///
/// # Errors
///
/// The first of these that comes: the trace can't be read, or has a bad line; its starts have more readings than are
/// followed; it has no label; `out` failed. Where memory was refused, or a count of the trace is full,
/// [`Error::NoMemory`]. A line behind the one that is refused is only read, and may be bad.
pub fn check<T: Read + Drop, O: Write, W: Write>(
    alloc: Global,
    standard: &Standard,
    trace: T,
    out: &mut O,
    progress: &mut Progress<W>,
) -> Result<Verdict, Error>
    ensures printed { IfOk result (PrintsVerdict standard.now (T.remaining trace) (O.contents out.old) (O.contents out.new)) }
    ensures fault { IfErr result (IsCheckFault standard.now (T.remaining trace)) }
    ensures told { IfErr result (IsToldBefore standard.now (T.remaining trace) (O.contents out.old) (O.contents out.new)) }
{
    let Ok(mut input) = BufReader::with_capacity(alloc, BUFFER, trace) else {
        return Err(Error::NoMemory);
    };
    let course = course_of(alloc, standard, &mut input, out, progress)?;
    say_verdict(alloc, standard.asked, &course, out)
}

/// Returns what the lines of an input come to. One line at a time is held.
pub(crate) fn course_of<B: BufRead, O: Write, W: Write>(
    alloc: Global,
    standard: &Standard,
    input: &mut B,
    out: &mut O,
    progress: &mut Progress<W>,
) -> Result<Course, Error>
    ensures course { IfOk result (IsCourseOf standard.now (B.remaining input.old) (O.contents out.old) (O.contents out.new)) }
    ensures fault { IfErr result (IsCheckFault standard.now (B.remaining input.old)) }
    ensures told { IfErr result (IsToldBefore standard.now (B.remaining input.old) (O.contents out.old) (O.contents out.new)) }
{
    let mut course = Course::opening(alloc, standard)?;
    let mut line = Vec::new(alloc);
    for index in 0..u64::MAX {
        next_line(input, &mut line)?;
        if line.is_empty() {
            return Ok(course);
        }
        let ended = is_ended(line.as_slice());
        let told = told_by(alloc, without_end(line.as_slice()))?;
        course.say(&told, progress);
        course = course.after(alloc, told, index + 1, out)?;
        if !ended {
            return Ok(course);
        }
    }
    Err(Error::TraceUnreadable)
}

/// Writes what the lines of a trace are, unless that is written.
fn say_verdict<O: Write>(
    alloc: Global,
    asked: Asked,
    course: &Course,
    out: &mut O,
) -> Result<Verdict, Error>
    ensures said { IfOk result (SaysOf asked course.now (O.contents out.old) (O.contents out.new)) }
    ensures fault { IfErr result (IsSaysFault course.now (O.contents out.old) (O.contents out.new)) }
{
    match course {
        Course::Legal(trial) => say_legal(alloc, asked, trial, out),
        Course::Refused(_) => Ok(Verdict::Failed),
    }
}

/// Writes that lines are a run, and what they leave.
fn say_legal<O: Write>(
    alloc: Global,
    asked: Asked,
    trial: &Trial,
    out: &mut O,
) -> Result<Verdict, Error>
    ensures said { IfOk result (SaysLegal asked trial.now (O.contents out.old) (O.contents out.new)) }
    ensures fault { IfErr result (IsLegalFault trial.now (O.contents out.old) (O.contents out.new)) }
{
    if trial.tally.labels == 0 {
        return Err(Error::NoLabel);
    }
    let left = trial.left(alloc, asked)?;
    write_legal(out, asked.json, trial.tally, &left)?;
    if meets(asked, &trial.judge) {
        Ok(Verdict::Passed)
    } else {
        Ok(Verdict::Failed)
    }
}

/// Writes that labels are a run, with what they leave.
fn write_legal<O: Write>(out: &mut O, json: bool, tally: Tally, left: &String) -> io::Result<()>
    ensures { OnOk result (Appends (O.contents out.old) (O.contents out.new) (tally_line json tally (string_bytes left.now))) }
{
    let Tally {
        labels,
        calls,
        starts,
    } = tally;
    let left = left.as_str();
    if json {
        return writeln!(
            out,
            "{{\"verdict\": \"legal\", \"labels\": {labels}, \"requests\": {calls}, \"pieces\": {starts}{left}}}"
        );
    }
    writeln!(
        out,
        "legal: {labels} labels, {calls} requests, {starts} pieces{left}"
    )
}

/// Whether a judge holds what is asked for.
fn meets(asked: Asked, judge: &Judge) -> bool
    ensures { 0 < length judge.now.states → MatchBool result (Meets asked judge.now.rules judge.now.states) (¬ (Meets asked judge.now.rules judge.now.states)) }
{
    let settled = is_settled(judge);
    let ended = any_ended(judge.machines());
    (settled || !asked.settled) && (ended || !asked.ended)
}

/// Whether some machine of the judge is settled.
fn is_settled(judge: &Judge) -> bool
    ensures { 0 < length judge.now.states → MatchBool result (Any (IsSettled judge.now.rules) judge.now.states) (¬ (Any (IsSettled judge.now.rules) judge.now.states)) }
{
    let undone = judge.undone();
    undone.is_none()
}

/// Whether some of the machines has nothing open and nothing out.
fn any_ended(machines: &[Machine]) -> bool
    ensures { result ≡ list_any has_ended machines.now }
{
    machines.iter().any(|machine| has_ended(machine))
}

fn has_ended(machine: &Machine) -> bool
    ensures { result ≡ has_ended machine.now }
{
    machine.requests().is_empty() && machine.pieces().is_empty()
}
