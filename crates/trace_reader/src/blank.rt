//! Lines with zeros for their bytes.

ghost use Rattle.std.specs.Prelude.{◌≡◌, IfOk, Some};
ghost use Rattle.trace_reader.specs.Gaps.{blank_device, blank_label, blank_with, due_count, due_device, zeros_for};

use crate::Recorded;
use crate::known::Known;
use machine::{ClientRequest, Label};
use sector::Bytes;
use srb::DeviceLabel;
use std::alloc::{AllocError, Global};
use trace_line::Line;

/// No label has more bytes.
const MOST_BYTES: u128 = 1 << 28;

/// Zeros in place of the bytes: as many as were told, or else as many as are due.
fn zeros_for(alloc: Global, untold: bool, due: u128, bytes: &[u8]) -> Result<Bytes, AllocError>
    ensures { IfOk result (λ zeros. zeros ≡ zeros_for untold due bytes.now) }
{
    let count = if untold {
        due.min(MOST_BYTES) as usize
    } else {
        bytes.len()
    };
    let zeros = vec![in alloc; 0; count]?;
    Ok(Bytes::new(zeros))
}

impl Known {
    fn due_device(&self, label: &DeviceLabel) -> u128
        ensures { result ≡ due_device self.now label.now }
    {
        match label {
            DeviceLabel::Act { piece, .. } => self.bytes_of(*piece),
            _ => 0,
        }
    }

    /// How many bytes a label has where they were not recorded.
    pub fn due_count(&self, label: &Label) -> u128
        ensures { result ≡ due_count self.now label.now }
    {
        match label {
            Label::Call { request, .. } => request.length as u128,
            Label::Device(label) => self.due_device(label),
            Label::Answer { information, .. } => *information as u128,
            _ => 0,
        }
    }
}

fn blank_device(
    alloc: Global,
    untold: bool,
    due: u128,
    label: DeviceLabel,
) -> Result<DeviceLabel, AllocError>
    ensures { IfOk result (λ blank. blank ≡ blank_device untold due label) }
{
    match label {
        DeviceLabel::Act { piece, bytes } => {
            let bytes = zeros_for(alloc, untold, due, bytes.as_slice())?;
            Ok(DeviceLabel::Act { piece, bytes })
        }
        label => Ok(label),
    }
}

fn blank_request(
    alloc: Global,
    untold: bool,
    due: u128,
    request: ClientRequest,
) -> Result<ClientRequest, AllocError>
    ensures { IfOk result (λ blank. blank ≡ record request { bytes = zeros_for untold due request.bytes }) }
{
    let bytes = zeros_for(alloc, untold, due, request.bytes.as_slice())?;
    Ok(ClientRequest { bytes, ..request })
}

fn blank_label(alloc: Global, untold: bool, due: u128, label: Label) -> Result<Label, AllocError>
    ensures { IfOk result (λ blank. blank ≡ blank_label untold due label) }
{
    match label {
        Label::Call { number, request } => {
            let request = blank_request(alloc, untold, due, request)?;
            Ok(Label::Call { number, request })
        }
        Label::Device(label) => {
            let label = blank_device(alloc, untold, due, label)?;
            Ok(Label::Device(label))
        }
        Label::Answer {
            number,
            status,
            information,
            bytes,
        } => {
            let bytes = zeros_for(alloc, untold, due, bytes.as_slice())?;
            Ok(Label::Answer {
                number,
                status,
                information,
                bytes,
            })
        }
        label => Ok(label),
    }
}

/// Returns a line with zeros for its bytes, where so many are due and some of the trace were not recorded.
pub(crate) fn blank_with(
    alloc: Global,
    due: Option<u128>,
    recorded: Recorded,
) -> Result<Line, AllocError>
    ensures { IfOk result (λ line. line ≡ blank_with due recorded) }
{
    let Recorded { line, untold } = recorded;
    let Some(due) = due else {
        return Ok(line);
    };
    let Line { label, owner } = line;
    let label = blank_label(alloc, untold, due, label)?;
    Ok(Line { label, owner })
}
