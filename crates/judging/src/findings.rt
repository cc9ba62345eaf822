//! What is told of a history, as text or as a JSON object.

use crate::fields::Fields;
use crate::histories::{Recorded, Said};
use history_judge::{Found, Misfit, Place, Refusal, Source};
use std::alloc::{AllocError, Global};
use std::io;
use std::io::Write;

/// What is told of a history.
#[derive(Debug, Drop)]
pub(crate) struct Finding {
    pub said: Said,
    pub refusal: Option<Refusal>,
}

/// Writes what is told of a history.
pub(crate) fn write_finding<O: Write>(
    out: &mut O,
    recorded: &Recorded,
    finding: &Finding,
) -> io::Result<()> {
    match finding.said {
        Said::By(verdict) => write_verdict(out, recorded, finding, verdict),
        Said::Busy(Place { partition, sector }) => writeln!(
            out,
            "undecided: a write that was answered DEVICE_BUSY had an effect on sector {sector} of partition {partition}"
        ),
    }
}

/// Writes a verdict.
fn write_verdict<O: Write>(
    out: &mut O,
    recorded: &Recorded,
    finding: &Finding,
    verdict: history_judge::Verdict,
) -> io::Result<()> {
    match verdict {
        history_judge::Verdict::Passed => {
            let requests = recorded.history.requests();
            let sectors = recorded.history.sectors();
            writeln!(out, "legal: {requests} requests, {sectors} sectors")
        }
        history_judge::Verdict::Misfit { line, why } => {
            let told = text_of(why);
            writeln!(out, "line {line}: {told}")
        }
        history_judge::Verdict::Refused { place, line } => {
            let Some(refusal) = &finding.refusal else {
                return writeln!(out, "line {line}: {NO_ORDER}");
            };
            write_refused(out, place, line, refusal)
        }
        history_judge::Verdict::Undecided { place } => {
            let Place { partition, sector } = place;
            writeln!(
                out,
                "undecided: sector {sector} of partition {partition} may be in too many states"
            )
        }
    }
}

/// Writes what a refused read might have seen instead.
fn write_allowed<O: Write>(out: &mut O, allowed: &[Source]) -> io::Result<()> {
    for source in allowed {
        write!(out, "allowed: as ")?;
        write_source(out, *source)?;
        writeln!(out)?;
    }
    Ok(())
}

/// Why a label can't come where it stands.
pub(crate) fn text_of(why: Misfit) -> &'static str {
    match why {
        Misfit::Number => "the call has not the next number",
        Misfit::Bytes =>
            "the call has not the bytes that it asks to write, or is refused and has some",
        Misfit::Owing => "the refused call before it is to be answered first",
        Misfit::NotOpen => "no request of this number is open",
        Misfit::Answer => "no run answers the request so",
    }
}

/// Writes of which sector no order of requests explains an answer, what it read there, and who wrote that.
fn write_refused<O: Write>(
    out: &mut O,
    place: Place,
    line: u64,
    refusal: &Refusal,
) -> io::Result<()> {
    let request = refusal.number;
    let Place { partition, sector } = place;
    write!(out, "line {line}: request {request} ")?;
    let Some(found) = &refusal.found else {
        return writeln!(
            out,
            "ended, and no order of the requests explains sector {sector} of partition {partition}"
        );
    };
    write!(out, "read sector {sector} of partition {partition} as ")?;
    write_source(out, found.source)?;
    writeln!(out, ", and no order of the requests explains that")?;
    write_allowed(out, found.allowed.as_slice())
}

/// Writes where bytes that were read are from.
fn write_source<O: Write>(out: &mut O, source: Source) -> io::Result<()> {
    match source {
        Source::Start => write!(out, "it was at the start"),
        Source::Nobody => write!(out, "nobody had written it"),
        Source::Unknown => write!(out, "none of its last writes left it"),
        Source::Call { number, line } => write!(out, "request {number} (line {line}) wrote it"),
    }
}

/// What is told of a history, as a JSON object.
pub(crate) fn object_of(
    alloc: Global,
    recorded: &Recorded,
    finding: &Finding,
) -> Result<String, AllocError> {
    match finding.said {
        Said::By(verdict) => verdict_object(alloc, recorded, finding, verdict),
        Said::Busy(place) => undecided_object(alloc, "busy", place),
    }
}

/// That a sector is undecided, and why.
fn undecided_object(alloc: Global, why: &str, place: Place) -> Result<String, AllocError> {
    let Place { partition, sector } = place;
    format!(in alloc;
        "{{\"verdict\": \"undecided\", \"why\": \"{why}\", \"partition\": {partition}, \"sector\": {sector}}}"
    )
}

/// A verdict.
fn verdict_object(
    alloc: Global,
    recorded: &Recorded,
    finding: &Finding,
    verdict: history_judge::Verdict,
) -> Result<String, AllocError> {
    match verdict {
        history_judge::Verdict::Passed => {
            let requests = recorded.history.requests();
            let sectors = recorded.history.sectors();
            format!(in alloc;
                "{{\"verdict\": \"legal\", \"requests\": {requests}, \"sectors\": {sectors}}}"
            )
        }
        history_judge::Verdict::Misfit { line, why } => {
            let fields = fields_of(alloc, recorded.history.stopped())?;
            broken_object(alloc, line, text_of(why), &fields)
        }
        history_judge::Verdict::Refused { place, line } => {
            let fields = refused_fields(alloc, place, finding.refusal.as_ref())?;
            broken_object(alloc, line, NO_ORDER, &fields)
        }
        history_judge::Verdict::Undecided { place } => undecided_object(alloc, "states", place),
    }
}

/// The rule of an answer that no order of requests explains.
const NO_ORDER: &str = "no order of the requests explains it";

/// Which request a refused line tells.
fn fields_of(alloc: Global, request: u64) -> Result<Fields, AllocError> {
    let mut fields = Fields::new(alloc, true);
    fields.number("request", Some(request as u128))?;
    Ok(fields)
}

/// The same of an answer that is not explained, with its sector, and what it read there, if it is of a read.
fn refused_fields(
    alloc: Global,
    place: Place,
    refusal: Option<&Refusal>,
) -> Result<Fields, AllocError> {
    let Some(refusal) = refusal else {
        return Ok(Fields::new(alloc, true));
    };
    let mut fields = fields_of(alloc, refusal.number)?;
    let Place { partition, sector } = place;
    fields.number("partition", Some(partition as u128))?;
    fields.number("sector", Some(sector as u128))?;
    if let Some(found) = &refusal.found {
        tell_found(found, &mut fields)?;
        tell_allowed(alloc, found.allowed.as_slice(), &mut fields)?;
    }
    Ok(fields)
}

/// Which line is refused, and why, with what more there is to tell.
pub(crate) fn broken_object(
    alloc: Global,
    line: u64,
    why: &str,
    fields: &Fields,
) -> Result<String, AllocError> {
    let more = fields.text.as_str();
    format!(in alloc; "{{\"verdict\": \"refused\", \"line\": {line}, \"rule\": \"{why}\"{more}}}")
}

/// A source of bytes.
fn source_word(alloc: Global, source: Source) -> Result<String, AllocError> {
    match source {
        Source::Call { number, .. } => format!(in alloc; "{number}"),
        Source::Start => format!(in alloc; "\"start\""),
        Source::Nobody | Source::Unknown => format!(in alloc; "\"nobody\""),
    }
}

/// Tells what a refused read might have seen instead, if there is something: requests, and `start`.
fn tell_allowed(alloc: Global, allowed: &[Source], fields: &mut Fields) -> Result<(), AllocError> {
    let mut sources = String::new(alloc);
    for source in allowed {
        if !sources.is_empty() {
            sources.push_str(", ")?;
        }
        let source = source_word(alloc, *source)?;
        sources.push_str(source.as_str())?;
    }
    if sources.is_empty() {
        return Ok(());
    }
    let sources = sources.as_str();
    let field = format!(in alloc; ", \"allowed\": [{sources}]")?;
    fields.text.push_str(field.as_str())
}

/// Tells what a read gave, and who wrote it.
fn tell_found(found: &Found, fields: &mut Fields) -> Result<(), AllocError> {
    let bytes = found.bytes.as_slice();
    match found.source {
        Source::Call { number, line } => {
            fields.bytes("found", bytes, Some(line))?;
            fields.number("writer", Some(number as u128))
        }
        Source::Start => tell_writer(fields, bytes, "start"),
        Source::Nobody => tell_writer(fields, bytes, "nobody"),
        Source::Unknown => fields.bytes("found", bytes, None),
    }
}

/// Tells bytes that no call wrote.
fn tell_writer(fields: &mut Fields, bytes: &[u8], writer: &str) -> Result<(), AllocError> {
    fields.bytes("found", bytes, None)?;
    fields.word("writer", writer)
}
