//! The picture as Trace Event JSON: a process for the device, one with a thread a tag, and one with a thread a row of
//! requests. A line of the trace takes one microsecond, and an arrow leads from each request to its pieces. No name or word
//! has a character that JSON escapes.

use crate::command::Command;
use crate::facts::{Answer, Piece, Request};
use crate::layout::Scene;
use crate::words::{Name, class_word};
use std::io;
use std::io::Write;

/// Where an event stands: a process, and a thread of it.
#[derive(Clone, Copy)]
struct Track(u64, u64);

/// The threads of the device: pauses and removals, and labels that fit nothing.
const PHASES: Track = Track(1, 1);

const OTHERS: Track = Track(1, 2);

fn tag_track(tag: u64) -> Track {
    Track(2, tag.saturating_add(1))
}

fn row_track(row: usize) -> Track {
    Track(3, (row as u64).saturating_add(1))
}

/// What stands before all that depends on the trace: the names of the processes, and of the device's threads.
const HEAD: &str = "{\"displayTimeUnit\":\"ns\",\"traceEvents\":[
{\"ph\":\"M\",\"pid\":1,\"name\":\"process_name\",\"args\":{\"name\":\"device\"}},
{\"ph\":\"M\",\"pid\":2,\"name\":\"process_name\",\"args\":{\"name\":\"tags\"}},
{\"ph\":\"M\",\"pid\":3,\"name\":\"process_name\",\"args\":{\"name\":\"requests\"}},
{\"ph\":\"M\",\"pid\":1,\"tid\":1,\"name\":\"thread_name\",\"args\":{\"name\":\"phase\"}},
{\"ph\":\"M\",\"pid\":1,\"tid\":2,\"name\":\"thread_name\",\"args\":{\"name\":\"others\"}}";

/// Writes all events, one a line.
pub(crate) fn write_events<W: Write>(out: &mut W, scene: Scene<'_>) -> io::Result<()> {
    out.write_all(HEAD.as_bytes())?;
    write_names(out, scene)?;
    write_bands(out, scene)?;
    for (request, row) in scene.facts.requests.iter().zip(scene.layout.places.iter()) {
        if scene.layout.shows(request.call, request.end()) {
            write_request(out, scene, request, row_track(*row))?;
        }
    }
    write_pieces(out, scene)?;
    for line in scene.facts.strays.iter() {
        if scene.layout.has(*line) {
            write_instant(out, OTHERS, *line, "fits nothing before it")?;
        }
    }
    if let Some(blamed) = &scene.facts.blamed
        && scene.layout.has(blamed.line)
    {
        write_instant(out, OTHERS, blamed.line, "breaks a rule")?;
    }
    out.write_all(b"\n]}\n")
}

/// Writes the times in which the device is paused or removed.
fn write_bands<W: Write>(out: &mut W, scene: Scene<'_>) -> io::Result<()> {
    for band in scene.facts.bands.iter() {
        if !scene.layout.shows(band.start, band.end) {
            continue;
        }
        let length = span_of(scene, band.start, band.end);
        begin_slice(out, PHASES, band.start, length)?;
        write!(out, "}},\"name\":\"{}\"}}", band.word)?;
    }
    Ok(())
}

/// Writes the names of threads of tags and rows.
fn write_names<W: Write>(out: &mut W, scene: Scene<'_>) -> io::Result<()> {
    for (tag, row) in scene.layout.tags.iter().enumerate() {
        if row.is_some() {
            write_name(out, tag_track(tag as u64), "tag", tag as u64)?;
        }
    }
    for row in 0..scene.layout.rows.len() {
        write_name(out, row_track(row), "row", row as u64)?;
    }
    Ok(())
}

fn write_name<W: Write>(out: &mut W, track: Track, word: &str, number: u64) -> io::Result<()> {
    begin_event(out, "M", track)?;
    write!(
        out,
        ",\"name\":\"thread_name\",\"args\":{{\"name\":\"{word} {number}\"}}}}"
    )
}

/// Writes the beginning of an event.
fn begin_event<W: Write>(out: &mut W, phase: &str, track: Track) -> io::Result<()> {
    let Track(process, thread) = track;
    write!(
        out,
        ",\n{{\"ph\":\"{phase}\",\"pid\":{process},\"tid\":{thread}"
    )
}

/// Writes the beginning of an event that takes a while, up to its first argument.
fn begin_slice<W: Write>(out: &mut W, track: Track, start: u64, length: u64) -> io::Result<()> {
    begin_event(out, "X", track)?;
    write!(out, ",\"ts\":{start},\"dur\":{length}")?;
    write!(out, ",\"args\":{{\"line\":{start}")
}

/// The lines from one to another, or to the end of the trace.
fn span_of(scene: Scene<'_>, start: u64, end: Option<u64>) -> u64 {
    let end = end.unwrap_or(scene.facts.line.saturating_add(1));
    end.saturating_sub(start)
}

/// Writes an event that happens in one line.
fn write_instant<W: Write>(out: &mut W, track: Track, line: u64, name: &str) -> io::Result<()> {
    begin_event(out, "i", track)?;
    write!(
        out,
        ",\"s\":\"t\",\"ts\":{line},\"name\":\"{name}\",\"args\":{{\"line\":{line}}}}}"
    )
}

/// Writes a request, and its cancel.
fn write_request<W: Write>(
    out: &mut W,
    scene: Scene<'_>,
    request: &Request,
    track: Track,
) -> io::Result<()> {
    let length = span_of(scene, request.call, request.end());
    begin_slice(out, track, request.call, length)?;
    write!(out, ",\"request\":{}", request.number)?;
    if let Some(partition) = request.partition {
        write!(out, ",\"partition\":{partition}")?;
    }
    if let Some(answer) = request.answer {
        write_answer(out, answer)?;
    }
    write!(out, "}},\"name\":\"{}\"}}", Name(request))?;
    match request.cancel {
        Some(line) => write_instant(out, track, line, "cancel"),
        None => Ok(()),
    }
}

fn write_answer<W: Write>(out: &mut W, answer: Answer) -> io::Result<()> {
    let (status, moved) = (answer.status.name(), answer.moved);
    write!(out, ",\"answer\":\"{status}\",\"bytes moved\":{moved}")
}

/// Writes the pieces, each with its arrow.
fn write_pieces<W: Write>(out: &mut W, scene: Scene<'_>) -> io::Result<()> {
    let mut number = 0_u64;
    for piece in scene.facts.pieces.iter() {
        if !scene.layout.shows(piece.start, piece.end()) {
            continue;
        }
        write_piece(out, scene, piece)?;
        number = number.saturating_add(1);
        if let Some(row) = scene.layout.row_of(piece) {
            write_arrow(out, piece, row_track(row), number)?;
        }
    }
    Ok(())
}

/// Writes a piece, and its act or fault.
fn write_piece<W: Write>(out: &mut W, scene: Scene<'_>, piece: &Piece) -> io::Result<()> {
    let track = tag_track(u64::from(piece.tag));
    let length = span_of(scene, piece.start, piece.end());
    begin_slice(out, track, piece.start, length)?;
    let (number, word) = (piece.number, class_word(piece.back));
    write!(out, ",\"piece\":{number},\"return\":\"{word}\"")?;
    write!(out, ",\"bytes\":{}", piece.bytes)?;
    if let Some(request) = scene.facts.owner_of(piece) {
        write!(out, ",\"request\":{}", request.number)?;
    }
    write!(out, ",\"command\":\"{}\"}}", Command(piece.command))?;
    write!(out, ",\"name\":\"piece {number} {word}\"}}")?;
    match piece.fate {
        Some((line, word)) => write_instant(out, track, line, word),
        None => Ok(()),
    }
}

/// Writes an arrow from the request of a piece to the piece.
fn write_arrow<W: Write>(out: &mut W, piece: &Piece, row: Track, number: u64) -> io::Result<()> {
    begin_event(out, "s", row)?;
    write_arrow_end(out, piece.start, number)?;
    begin_event(out, "f", tag_track(u64::from(piece.tag)))?;
    out.write_all(b",\"bp\":\"e\"")?;
    write_arrow_end(out, piece.start, number)
}

fn write_arrow_end<W: Write>(out: &mut W, line: u64, number: u64) -> io::Result<()> {
    write!(
        out,
        ",\"ts\":{line},\"id\":{number},\"cat\":\"piece\",\"name\":\"piece\"}}"
    )
}
