//! The labels and the answers of a stack as C is told them.

ghost use Rattle.std.specs.Prelude.{◌≡◌};
ghost use Rattle.saddlemug.specs.Stacks.{AreToldIn, device_bytes, label_bytes, label_of_kind, label_of_piece, shown_answer, shown_call, shown_label, shown_of_device, shown_return, with_sense};

use crate::booking::StackCompletion;
use crate::bytes::put;
use compose::Answer;
use machine::{ClientRequest, Kind, Label};
use srb::{Class, Completion, DeviceLabel};

/// A label. A field that its kind doesn't tell is 0.
#[repr(C)]
#[derive(Clone, Copy, Default)]
pub struct StackLabel {
    /// The kind: 0 to 11 for a call, a start, an act, a fault, a return, an answer, a cancel, a pause, a resume, a
    /// remove, a surprise, and the end of a removal.
    pub kind: u32,
    /// The status of an answer.
    pub status: u32,
    /// The number of the request of a call, an answer or a cancel.
    pub number: u64,
    /// The number of bytes that the request of an answer moved.
    pub information: u64,
    /// The low and the high 64 bits of the piece of a start, an act, a fault or a return.
    pub piece_low: u64,
    pub piece_high: u64,
    /// The tag of a start.
    pub tag: u32,
    /// How the piece of a return came back: 0 good, 1 busy, 2 bad.
    pub class: u32,
    /// The kind of the request of a call: 0 read, 1 write, 2 flush.
    pub request: u32,
    /// The partition of a call, counted from 1, or 0 where its handle isn't open.
    pub partition: u32,
    /// Where the request of a call begins, in bytes.
    pub offset: u64,
    /// The length of the request of a call, in bytes.
    pub length: u64,
    /// 1 for the call of a write-through, else 0.
    pub through: u32,
    /// How the piece of a return failed that came back bad.
    pub completion: StackCompletion,
    /// The number of bytes that come with the label.
    pub bytes: u64,
}

/// An answer.
#[repr(C)]
#[derive(Clone, Copy)]
pub struct StackAnswer {
    /// The number of the request.
    pub number: u64,
    /// The number of bytes that the request moved.
    pub information: u64,
    pub status: u32,
    /// The number of bytes that come with the answer, which only a read brings that succeeded.
    pub bytes: u64,
}

/// A label as C is told it. Its bytes go into the buffer, as many as have room.
pub(crate) fn told_label(label: Label, buffer: &mut [u8]) -> StackLabel
    ensures label { result ≡ shown_label label }
    ensures bytes { AreToldIn buffer.old (label_bytes label) buffer.new }
{
    match label {
        Label::Call { number, request } => told_call(number, request, buffer),
        Label::Device(label) => told_of_device(label, buffer),
        Label::Answer {
            number,
            status,
            information,
            bytes,
        } => StackLabel {
            kind: 5,
            status: status.value(),
            number,
            information,
            bytes: put(buffer, bytes.as_slice()),
            ..StackLabel::default()
        },
        Label::Cancel { number } => StackLabel {
            kind: 6,
            number,
            ..StackLabel::default()
        },
        Label::Pause => of_kind(7),
        Label::Resume => of_kind(8),
        Label::Remove => of_kind(9),
        Label::Surprise => of_kind(10),
        Label::Removed => of_kind(11),
    }
}

/// A call.
fn told_call(number: u64, request: ClientRequest, buffer: &mut [u8]) -> StackLabel
    ensures label { result ≡ shown_call number request }
    ensures bytes { AreToldIn buffer.old request.bytes buffer.new }
{
    StackLabel {
        kind: 0,
        number,
        request: match request.kind {
            Kind::Read => 0,
            Kind::Write => 1,
            Kind::Flush => 2,
        },
        partition: match request.partition {
            Some(partition) => u32::from(partition) + 1,
            None => 0,
        },
        offset: request.offset,
        length: request.length,
        through: u32::from(request.through),
        bytes: put(buffer, request.bytes.as_slice()),
        ..StackLabel::default()
    }
}

/// A label of the adapter.
fn told_of_device(label: DeviceLabel, buffer: &mut [u8]) -> StackLabel
    ensures label { result ≡ shown_of_device label }
    ensures bytes { AreToldIn buffer.old (device_bytes label) buffer.new }
{
    match label {
        DeviceLabel::Start { piece, tag, block } => StackLabel {
            tag: u32::from(tag),
            bytes: put(buffer, block.as_slice()),
            ..of_piece(1, piece)
        },
        DeviceLabel::Act { piece, bytes } => StackLabel {
            bytes: put(buffer, bytes.as_slice()),
            ..of_piece(2, piece)
        },
        DeviceLabel::Fault { piece } => of_piece(3, piece),
        DeviceLabel::Return { piece, class } => told_return(piece, class),
    }
}

/// The return of a piece.
fn told_return(piece: u128, class: Class) -> StackLabel
    ensures { result ≡ shown_return piece class }
{
    match class {
        Class::Good => of_piece(4, piece),
        Class::Busy => StackLabel {
            class: 1,
            ..of_piece(4, piece)
        },
        Class::Bad(completion) => StackLabel {
            class: 2,
            completion: told_completion(completion),
            ..of_piece(4, piece)
        },
    }
}

fn told_completion(completion: Completion) -> StackCompletion
    ensures { result ≡ with_sense completion completion.sense }
{
    let srb_status = completion.srb_status;
    let scsi_status = completion.scsi_status;
    match completion.sense {
        Some(sense) => StackCompletion {
            srb_status,
            scsi_status,
            has_sense: true,
            key: sense.key,
            asc: sense.asc,
            ascq: sense.ascq,
        },
        None => StackCompletion {
            srb_status,
            scsi_status,
            ..StackCompletion::default()
        },
    }
}

fn of_kind(kind: u32) -> StackLabel
    ensures { result ≡ label_of_kind kind }
{
    StackLabel {
        kind,
        ..StackLabel::default()
    }
}

fn of_piece(kind: u32, piece: u128) -> StackLabel
    ensures { result ≡ label_of_piece kind piece }
{
    StackLabel {
        kind,
        piece_low: (piece % (1 << 64)) as u64,
        piece_high: (piece >> 64) as u64,
        ..StackLabel::default()
    }
}

/// An answer as C is told it. Its bytes go into the buffer, as many as have room.
pub(crate) fn told_answer(answer: Answer, buffer: &mut [u8]) -> StackAnswer
    ensures answer { result ≡ shown_answer answer }
    ensures bytes { AreToldIn buffer.old answer.bytes buffer.new }
{
    let shown = shown_answer(&answer);
    put(buffer, answer.bytes.as_slice());
    shown
}

/// An answer as C is told it, without its bytes.
pub(crate) fn shown_answer(answer: &Answer) -> StackAnswer
    ensures { result ≡ shown_answer answer.now }
{
    StackAnswer {
        number: answer.number,
        information: answer.information,
        status: answer.status.value(),
        bytes: answer.bytes.len() as u64,
    }
}
