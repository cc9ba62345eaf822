//! A trace cut down to what still breaks the same rule.

ghost use Rattle.std.specs.Prelude.{◌≡◌, filter, IfOk, IfSome, MatchOption};
ghost use Rattle.std.specs.Bool.{OnTrue};
ghost use Rattle.startup.specs.Reading.{IsAllOf};
ghost use Rattle.judging.specs.Checked.{misstep_text};
ghost use Rattle.judging.specs.Cutting.{IsRefusedIn, IsRunIn, IsSameRule, PrintsCut, is_no_digit};
ghost use Rattle.judging.specs.inside.Cut.{IsCut, SaysRun, WritesLeast, left_of, stop_of};

use crate::Error;
use crate::checking::course_of;
use crate::course::{Course, Stop};
use crate::details::difference_of;
use crate::misstep::Misstep;
use crate::opened::Standard;
use crate::progress::Progress;
use crate::pruning::{Part, Pruning};
use startup::{Verdict, contents, fault_of};
use std::alloc::{AllocError, Global};
use std::io::{Read, Write};

/// A text that breaks the rule that is sought, and its line that does.
#[derive(Drop)]
pub(crate) struct Remnant {
    pub text: Vec<u8>,
    pub stop: Stop,
}

/// What a trace is cut down to.
#[derive(Clone, Copy)]
pub(crate) struct Goal<'a> {
    pub alloc: Global,
    pub standard: &'a Standard,
    /// What has to be said of the line that is refused, but for its numbers.
    pub sought: Misstep,
}

/// Drops requests, pieces and labels of a trace as long as its last line is refused by the same rule, and writes what is
/// left: a trace by itself, whose requests and pieces are numbered from 1. It has passed then. Of a trace that is a run
/// only a remark is written. A trace is read to its end, and judged a thousand times at most.
///
/// # Errors
///
/// Those of [`crate::checking::check`] that come of its lines; `out` failed; memory was refused.
#[tactic(auto, using(crate::proofs::Cuts::cut_down, crate::proofs::Cuts::not_cut))]
pub fn cut<T: Read + Drop, O: Write>(
    alloc: Global,
    standard: &Standard,
    trace: T,
    out: &mut O,
) -> Result<Verdict, Error>
    ensures printed { IfOk result (PrintsCut standard.now (T.remaining trace) (O.contents out.old) (O.contents out.new)) }
{
    let text = all_of(alloc, trace)?;
    let Some(stop) = refusal_of(alloc, standard, text.as_slice())? else {
        return write_remark(out);
    };
    let goal = Goal {
        alloc,
        standard,
        sought: stop.misstep,
    };
    let least = least_of(goal, text.as_slice(), stop.line)?;
    write_least(out, text.as_slice(), &least)
}

/// Writes that there is nothing to cut.
fn write_remark<O: Write>(out: &mut O) -> Result<Verdict, Error>
    ensures { IfOk result (SaysRun (O.contents out.old) (O.contents out.new)) }
{
    out.write_all(b"# The trace is legal.\n")?;
    Ok(Verdict::Failed)
}

/// Writes what is left, or the text where nothing is.
fn write_least<O: Write>(
    out: &mut O,
    text: &[u8],
    least: &Option<Remnant>,
) -> Result<Verdict, Error>
    ensures { IfOk result (WritesLeast (left_of text.now least.now) (O.contents out.old) (O.contents out.new)) }
{
    match least {
        Some(least) => write_text(out, least.text.as_slice()),
        None => write_text(out, text),
    }
}

/// Writes a text that is refused.
fn write_text<O: Write>(out: &mut O, text: &[u8]) -> Result<Verdict, Error>
    ensures { IfOk result (WritesLeast text.now (O.contents out.old) (O.contents out.new)) }
{
    out.write_all(text)?;
    Ok(Verdict::Passed)
}

/// All bytes of an input.
fn all_of<T: Read + Drop>(alloc: Global, trace: T) -> Result<Vec<u8>, Error>
    ensures { IfOk result (λ text. IsAllOf (T.remaining trace) text.items) }
{
    match contents(alloc, trace) {
        Ok(text) => Ok(text),
        Err(error) => Err(fault_of(&error, Error::TraceUnreadable)),
    }
}

/// Returns where a text is refused, unless it is a run.
fn refusal_of(alloc: Global, standard: &Standard, text: &[u8]) -> Result<Option<Stop>, Error>
    ensures { IfOk result (λ found. MatchOption found (IsRunIn standard.now text.now) (λ stop. IsRefusedIn standard.now text.now stop.line stop.misstep)) }
{
    let mut input = text;
    let mut said = Vec::new(alloc);
    let mut progress = Progress {
        out: Vec::new(alloc),
        every: 0,
    };
    let course = course_of(alloc, standard, &mut input, &mut said, &mut progress)?;
    Ok(stop_of(course))
}

/// Where lines are refused, unless they are a run.
fn stop_of(course: Course) -> Option<Stop>
    ensures { result ≡ stop_of course }
{
    match course {
        Course::Legal(_) => None,
        Course::Refused(stop) => Some(stop),
    }
}

/// What is said of a misstep, but for its numbers.
fn without_digits(alloc: Global, misstep: Misstep) -> Result<Vec<u8>, AllocError>
    ensures { IfOk result (λ left. left.items ≡ filter is_no_digit (misstep_text misstep)) }
{
    let said = format!(in alloc; "{misstep}")?;
    let mut left = Vec::from_slice(alloc, said.as_bytes())?;
    drop_digits(&mut left);
    Ok(left)
}

fn drop_digits(bytes: &mut Vec<u8>)
    ensures { bytes.new.items ≡ filter is_no_digit bytes.old.items }
{
    bytes.retain(|byte| is_no_digit(*byte));
}

fn is_no_digit(byte: u8) -> bool
    ensures { result ≡ is_no_digit byte }
{
    byte < b'0' || byte > b'9'
}

/// Whether these are the same bytes.
fn are_same(a: &[u8], b: &[u8]) -> bool
    ensures { OnTrue result (a.now ≡ b.now) }
{
    a == b
}

/// Whether bytes differ in the same way.
fn differ_alike(a: Misstep, b: Misstep) -> bool {
    match (a, b) {
        (Misstep::Breaks(a), Misstep::Breaks(b)) | (Misstep::Blank(a), Misstep::Blank(b)) => {
            difference_of(a) == difference_of(b)
        }
        _ => true,
    }
}

/// Whether two missteps break the same rule, with the same bytes.
fn is_same(alloc: Global, a: Misstep, b: Misstep) -> Result<bool, AllocError>
    ensures { IfOk result (λ same. OnTrue same (IsSameRule a b)) }
{
    let of_a = without_digits(alloc, a)?;
    let of_b = without_digits(alloc, b)?;
    let same = are_same(of_a.as_slice(), of_b.as_slice());
    Ok(same && differ_alike(a, b))
}

impl Goal<'_> {
    /// The text, if it breaks the rule that is sought in its line of this number.
    pub(crate) fn met_by(&self, text: Vec<u8>, last: u64) -> Result<Option<Remnant>, Error>
        ensures { IfOk result (λ found. IfSome found (IsCut self.now.standard.now self.now.sought)) }
    {
        let Some(stop) = refusal_of(self.alloc, self.standard, text.as_slice())? else {
            return Ok(None);
        };
        let same = is_same(self.alloc, self.sought, stop.misstep)?;
        if same && stop.line == last {
            return Ok(Some(Remnant { text, stop }));
        }
        Ok(None)
    }
}

/// What is left of a text whose line of this number is refused, if its numbers could be changed at all.
fn least_of(goal: Goal<'_>, text: &[u8], last: u64) -> Result<Option<Remnant>, Error>
    ensures { IfOk result (λ found. IfSome found (IsCut goal.entry.standard.now goal.entry.sought)) }
{
    let Ok(text) = std::str::from_utf8(text) else {
        return Ok(None);
    };
    let mut pruning = Pruning::of(goal, text, last)?;
    let none = Part {
        chunks: &[],
        chunk: 0,
    };
    let Some(whole) = pruning.tried(goal, none)? else {
        return Ok(None);
    };
    let least = pruning.shrunk(goal, whole)?;
    Ok(Some(least))
}
