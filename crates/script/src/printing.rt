//! What comes of a line in print: the line itself, its reply, and labels.

ghost use Rattle.std.specs.Prelude.{◌≡◌, ◌++◌, OnOk, codes};
ghost use Rattle.std.specs.Fmt.{decimal};
ghost use Rattle.label_text.specs.Lines.{line_end};
ghost use Rattle.script.specs.Printing.{label_line, number_of, reply_line};

use crate::Style;
use compose::{Refusal, Reply};
use label_text::{write_line, write_number, write_short_line};
use machine::Label;
use std::alloc::AllocError;

/// Writes a line of the script.
pub(crate) fn write_event(text: &mut Vec<u8>, line: &str) -> Result<(), AllocError>
    ensures { OnOk result (text.new.items ≡ text.old.items ++ (codes "> " ++ (line.now ++ line_end))) }
{
    text.extend_from_slice(b"> ")?;
    text.extend_from_slice(line.as_bytes())?;
    text.extend_from_slice(b"\n")
}

/// Writes the line of a reply.
pub fn write_reply(text: &mut Vec<u8>, reply: &Reply) -> Result<(), AllocError>
    ensures { OnOk result (text.new.items ≡ text.old.items ++ reply_line reply.now) }
{
    match reply {
        Reply::Handle(handle) => {
            text.extend_from_slice(b"handle ")?;
            write_last(text, handle.number)
        }
        Reply::Ok => text.extend_from_slice(b"ok\n"),
        Reply::Request(id) => {
            text.extend_from_slice(b"request ")?;
            write_last(text, id.number)
        }
        Reply::Answered(_) => text.extend_from_slice(b"answered\n"),
        Reply::Refused { refusal, .. } => {
            text.extend_from_slice(b"refused E")?;
            write_last(text, number_of(*refusal) as u64)
        }
        Reply::Ignored => text.extend_from_slice(b"ignored\n"),
    }
}

/// Writes a number, and ends the line.
fn write_last(text: &mut Vec<u8>, number: u64) -> Result<(), AllocError>
    ensures { OnOk result (text.new.items ≡ text.old.items ++ (decimal number ++ line_end)) }
{
    write_number(text, number)?;
    text.extend_from_slice(b"\n")
}

/// The number of a refusal, as it is printed after its E.
fn number_of(refusal: Refusal) -> u8
    ensures { result ≡ number_of refusal }
{
    match refusal {
        Refusal::InvalidHandle => 1,
        Refusal::InvalidParameter => 2,
        Refusal::DeletePending => 3,
        Refusal::DeviceBusy => 4,
        Refusal::InsufficientResources => 5,
        Refusal::InvalidDeviceRequest => 6,
        Refusal::NotFound => 7,
    }
}

/// Writes the line of a label.
pub(crate) fn write_label(text: &mut Vec<u8>, style: Style, label: &Label) -> Result<(), AllocError>
    ensures { OnOk result (text.new.items ≡ text.old.items ++ label_line style label.now) }
{
    match style {
        Style::Transcript => write_short_line(text, label),
        Style::Trace => write_line(text, label, None),
    }
}
