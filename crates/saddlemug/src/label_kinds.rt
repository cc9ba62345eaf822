//! Labels as C tells them.

ghost use Rattle.std.specs.Prelude.{◌≡◌, IfOk, Some, slice_get};
ghost use Rattle.srb.specs.declared.DeviceLabel.TheVariants.{Act, Fault};
ghost use Rattle.machine.specs.declared.Label.TheVariants.{Device};
ghost use Rattle.saddlemug.specs.ToldLabels.{answer_told, block_in, byte_in, call_told, class_told, kinds, label_told, partition_in, piece_told, request_kinds, return_told, start_told};

use crate::booking::StackCompletion;
use crate::bytes::copied;
use crate::labels::StackLabel;
use crate::names::status_of;
use arrayvec::ArrayVec;
use machine::{ClientRequest, Kind, Label};
use srb::{Class, CommandBlock, DeviceLabel};
use std::alloc::{AllocError, Global};

/// The kind of a label. C tells it by its place in this list, from 0.
#[derive(Clone, Copy)]
pub(crate) enum LabelKind {
    Called,
    Started,
    Acted,
    Faulted,
    Returned,
    Answered,
    Cancelled,
    Paused,
    Resumed,
    Removing,
    Surprised,
    Removed,
}

impl LabelKind {
    /// The kind of a number.
    fn of(number: u32) -> Option<LabelKind>
        ensures { result ≡ slice_get kinds number }
    {
        match number {
            0 => Some(LabelKind::Called),
            1 => Some(LabelKind::Started),
            2 => Some(LabelKind::Acted),
            3 => Some(LabelKind::Faulted),
            4 => Some(LabelKind::Returned),
            5 => Some(LabelKind::Answered),
            6 => Some(LabelKind::Cancelled),
            7 => Some(LabelKind::Paused),
            8 => Some(LabelKind::Resumed),
            9 => Some(LabelKind::Removing),
            10 => Some(LabelKind::Surprised),
            11 => Some(LabelKind::Removed),
            _ => None,
        }
    }
}

/// The label that C tells, with its bytes, if there is such a label.
///
/// # Errors
///
/// [`AllocError`] where memory was refused.
pub(crate) fn label_of(
    alloc: Global,
    told: &StackLabel,
    bytes: &[u8],
) -> Result<Option<Label>, AllocError>
    ensures { IfOk result (λ label. label ≡ label_told told.now bytes.now) }
{
    let Some(kind) = LabelKind::of(told.kind) else {
        return Ok(None);
    };
    match kind {
        LabelKind::Called => call_of(alloc, told, bytes),
        LabelKind::Started => Ok(start_of(told, bytes)),
        LabelKind::Acted => act_of(alloc, told, bytes),
        LabelKind::Faulted => Ok(Some(fault_of(told))),
        LabelKind::Returned => Ok(return_of(told)),
        LabelKind::Answered => answer_of(alloc, told, bytes),
        LabelKind::Cancelled => Ok(Some(Label::Cancel {
            number: told.number,
        })),
        LabelKind::Paused => Ok(Some(Label::Pause)),
        LabelKind::Resumed => Ok(Some(Label::Resume)),
        LabelKind::Removing => Ok(Some(Label::Remove)),
        LabelKind::Surprised => Ok(Some(Label::Surprise)),
        LabelKind::Removed => Ok(Some(Label::Removed)),
    }
}

fn call_of(alloc: Global, told: &StackLabel, bytes: &[u8]) -> Result<Option<Label>, AllocError>
    ensures { IfOk result (λ label. label ≡ call_told told.now bytes.now) }
{
    let Some(partition) = partition_in(told.partition) else {
        return Ok(None);
    };
    let Some(kind) = request_kind(told.request) else {
        return Ok(None);
    };
    let bytes = copied(alloc, bytes)?;
    Ok(Some(Label::Call {
        number: told.number,
        request: ClientRequest {
            partition,
            kind,
            offset: told.offset,
            length: told.length,
            through: told.through != 0,
            bytes,
        },
    }))
}

/// The partition of a call, counted from 0; none where its handle isn't open.
fn partition_in(number: u32) -> Option<Option<u8>>
    ensures { result ≡ partition_in number }
{
    if number == 0 {
        return Some(None);
    }
    if number > 256 {
        return None;
    }
    Some(Some((number - 1) as u8))
}

/// The kind of a request of this number.
fn request_kind(number: u32) -> Option<Kind>
    ensures { result ≡ slice_get request_kinds number }
{
    match number {
        0 => Some(Kind::Read),
        1 => Some(Kind::Write),
        2 => Some(Kind::Flush),
        _ => None,
    }
}

fn start_of(told: &StackLabel, bytes: &[u8]) -> Option<Label>
    ensures { result ≡ start_told told.now bytes.now }
{
    let Some(tag) = byte_in(told.tag) else {
        return None;
    };
    let Some(block) = block_in(bytes) else {
        return None;
    };
    let piece = piece_of(told);
    Some(Label::Device(DeviceLabel::Start { piece, tag, block }))
}

fn byte_in(number: u32) -> Option<u8>
    ensures { result ≡ byte_in number }
{
    if number > 255 {
        return None;
    }
    Some(number as u8)
}

/// The command block of these bytes, if they are sixteen at most.
fn block_in(bytes: &[u8]) -> Option<CommandBlock>
    ensures { result ≡ block_in bytes.now }
{
    if bytes.len() > 16 {
        return None;
    }
    let mut block = ArrayVec::new();
    let Ok(()) = block.try_extend_from_slice(bytes) else {
        unreachable!()
    };
    Some(CommandBlock::new(block))
}

/// The number of the piece.
fn piece_of(told: &StackLabel) -> u128
    ensures { result ≡ piece_told told.now }
{
    (told.piece_high as u128) << 64 | told.piece_low as u128
}

fn act_of(alloc: Global, told: &StackLabel, bytes: &[u8]) -> Result<Option<Label>, AllocError>
    ensures { IfOk result (λ label. label ≡ Some (Device (Act (piece_told told.now) bytes.now))) }
{
    let piece = piece_of(told);
    let bytes = copied(alloc, bytes)?;
    Ok(Some(Label::Device(DeviceLabel::Act { piece, bytes })))
}

fn fault_of(told: &StackLabel) -> Label
    ensures { result ≡ Device (Fault (piece_told told.now)) }
{
    let piece = piece_of(told);
    Label::Device(DeviceLabel::Fault { piece })
}

fn return_of(told: &StackLabel) -> Option<Label>
    ensures { result ≡ return_told told.now }
{
    let Some(class) = class_of(told.class, told.completion) else {
        return None;
    };
    let piece = piece_of(told);
    Some(Label::Device(DeviceLabel::Return { piece, class }))
}

fn class_of(number: u32, completion: StackCompletion) -> Option<Class>
    ensures { result ≡ class_told number completion }
{
    match number {
        0 => Some(Class::Good),
        1 => Some(Class::Busy),
        2 => Some(Class::Bad(completion.told())),
        _ => None,
    }
}

fn answer_of(alloc: Global, told: &StackLabel, bytes: &[u8]) -> Result<Option<Label>, AllocError>
    ensures { IfOk result (λ label. label ≡ answer_told told.now bytes.now) }
{
    let Some(status) = status_of(told.status) else {
        return Ok(None);
    };
    let bytes = copied(alloc, bytes)?;
    Ok(Some(Label::Answer {
        number: told.number,
        status,
        information: told.information,
        bytes,
    }))
}
