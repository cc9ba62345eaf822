//! A trace, drawn.

use crate::Error;
use crate::checking::course_of;
use crate::course::Course;
use crate::opened::Standard;
use crate::progress::Progress;
use crate::reading::{is_ended, next_line, without_end};
use crate::told::{Told, told_by};
use startup::{Verdict, fault_of};
use std::alloc::Global;
use std::io::{BufRead, BufReader, Read, Write};
use trace_picture::Picture;

/// How many bytes are read at once.
const BUFFER: usize = 65_536;

/// What is drawn of a trace.
#[derive(Debug, Clone, Copy, PartialEq, Eq)]
pub struct Drawn {
    /// Trace Event JSON, and not an SVG.
    pub events: bool,
    /// The first and the last line that are shown, where not all are.
    pub lines: Option<(u64, u64)>,
}

/// The first and the last of some lines, by their numbers: A-B.
pub fn lines_in(text: &str) -> Option<(u64, u64)> {
    let (first, last) = text.split_once('-')?;
    let first = first.parse::<u64>().ok()?;
    let last = last.parse::<u64>().ok()?;
    (0 < first && first <= last).then_some((first, last))
}

/// Writes the picture of a trace, legal or not. Where it is judged, and a label breaks a rule, that label has a ring. The
/// writer is flushed behind it.
///
/// # Errors
///
/// The first of these that fits: the trace can't be read, or has a bad line; `out` failed. Where memory was refused,
/// [`Error::NoMemory`] stands in place of any of them.
pub fn draw<T: Read + Drop, O: Write>(
    alloc: Global,
    trace: T,
    drawn: Drawn,
    out: &mut O,
) -> Result<Verdict, Error> {
    let Ok(mut input) = BufReader::with_capacity(alloc, BUFFER, trace) else {
        return Err(Error::NoMemory);
    };
    let picture = taken(alloc, &mut input)?;
    write_drawn(picture, drawn, out)
}

/// Writes the picture of a trace that is judged by a standard.
///
/// # Errors
///
/// Those of [`draw`], and that the starts of the trace have too many readings.
pub fn draw_judged<T: Read + Drop, O: Write>(
    alloc: Global,
    standard: &Standard,
    mut trace: T,
    drawn: Drawn,
    out: &mut O,
) -> Result<Verdict, Error> {
    let mut text = Vec::new(alloc);
    if let Err(error) = trace.read_to_end(&mut text) {
        return Err(fault_of(&error, Error::TraceUnreadable));
    }
    let mut picture = taken(alloc, &mut text.as_slice())?;
    let mut said = Vec::new(alloc);
    let mut progress = Progress {
        out: Vec::new(alloc),
        every: 0,
    };
    let course = course_of(
        alloc,
        standard,
        &mut text.as_slice(),
        &mut said,
        &mut progress,
    )?;
    if let Course::Refused(stop) = course
        && let Ok(said) = String::from_utf8(said)
    {
        picture.blame(stop.line, said);
    }
    write_drawn(picture, drawn, out)
}

fn write_drawn<O: Write>(
    mut picture: Picture,
    drawn: Drawn,
    out: &mut O,
) -> Result<Verdict, Error> {
    if let Some((first, last)) = drawn.lines {
        picture.show(first, last);
    }
    if drawn.events {
        picture.write_events(out)?;
    } else {
        picture.write_svg(out)?;
    }
    out.flush()?;
    Ok(Verdict::Passed)
}

/// The picture of the labels that the lines of an input tell, unless a line is bad.
fn taken<B: BufRead>(alloc: Global, input: &mut B) -> Result<Picture, Error> {
    let mut picture = Picture::new(alloc);
    let mut bad = None;
    let mut line = Vec::new(alloc);
    for index in 0..u64::MAX {
        next_line(input, &mut line)?;
        let told = told_by(alloc, without_end(line.as_slice()))?;
        match told {
            Told::Line(told) => {
                let line = &told.line;
                picture.take(index + 1, &line.label, line.owner)?;
            }
            Told::Nothing => {}
            Told::BadWord { column } => {
                let line = index + 1;
                bad = bad.or(Some(Error::BadLine { line, column }));
            }
        }
        if !is_ended(line.as_slice()) {
            return match bad {
                Some(fault) => Err(fault),
                None => Ok(picture),
            };
        }
    }
    Err(Error::TraceUnreadable)
}
