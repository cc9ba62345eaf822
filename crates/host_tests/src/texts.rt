//! Traces, and what a book or a host says, as text.

use compose::{Answer, Reply};
use host::{Answered, Reason, Refusal};
use label_text::write_short_line;
use machine::Label;
use std::alloc::{AllocError, Global};
use traced::TraceEntry;

// The line of a label.
fn line(alloc: Global, label: &Label) -> Result<String, AllocError> {
    let mut line = Vec::new(alloc);
    write_short_line(&mut line, label)?;
    line.pop();
    String::from_utf8(line).map_err(|_| AllocError)
}

/// A trace, label by label, as `call 1 flush of 0 / start 1 tag 0 35000000000000000000 / act 1`. A call and an answer
/// tell their row.
pub(crate) fn trace(alloc: Global, entries: &[TraceEntry]) -> Result<String, AllocError> {
    let mut text = String::new(alloc);
    for entry in entries {
        if !text.is_empty() {
            write!(text, " / ")?;
        }
        write!(text, "{}", line(alloc, &entry.label)?)?;
        if let Some(row) = entry.row {
            write!(text, " of {row}")?;
        }
    }
    Ok(text)
}

/// An answer, as `answer 1 SUCCESS 512 00*512`.
pub(crate) fn answer(alloc: Global, answer: Answer) -> Result<String, AllocError> {
    let label = Label::Answer {
        number: answer.number,
        status: answer.status,
        information: answer.information,
        bytes: answer.bytes,
    };
    line(alloc, &label)
}

/// An answer with its places, as `answer 1 SUCCESS 512 00*512 at 0, 9`.
pub(crate) fn answered(alloc: Global, answered: Answered) -> Result<String, AllocError> {
    let places = answered.places;
    let mut text = answer(alloc, answered.answer)?;
    write!(text, " at {}, {}", places.call, places.answer)?;
    Ok(text)
}

/// A refusal, as `InvalidParameter 512 at 0, 1`, with the number of the bytes that came back.
pub(crate) fn refusal(alloc: Global, refusal: &Refusal) -> Result<String, AllocError> {
    let mut text = String::new(alloc);
    match refusal.reason {
        Reason::Refused(why) => write!(text, "{why:?}")?,
        Reason::TooManyTickets => write!(text, "TooManyTickets")?,
    }
    write!(text, " {}", refusal.bytes.as_slice().len())?;
    if let Some(places) = refusal.places {
        write!(text, " at {}, {}", places.call, places.answer)?;
    }
    Ok(text)
}

/// A reply, as `request 1 at 0` with its slot, or `refused InvalidParameter 512`.
pub(crate) fn reply(alloc: Global, reply: &Reply) -> Result<String, AllocError> {
    let mut text = String::new(alloc);
    match reply {
        Reply::Ok => write!(text, "ok")?,
        Reply::Ignored => write!(text, "ignored")?,
        Reply::Request(id) => write!(text, "request {} at {}", id.number, id.slot)?,
        Reply::Refused { refusal, bytes } => {
            write!(text, "refused {refusal:?} {}", bytes.as_slice().len())?
        }
        _ => write!(text, "another reply")?,
    }
    Ok(text)
}
