//! Labels, written as their lines.

ghost use Rattle.std.specs.Prelude.{◌≡◌, ◌<◌, [], ◌∷◌, ◌++◌, OnOk, Some, codes};
ghost use Rattle.std.specs.Fmt.{decimal};
ghost use Rattle.ntstatus.specs.Codes.{name_of};
ghost use Rattle.machine.specs.declared.Label.TheVariants.{Device};
ghost use Rattle.srb.specs.declared.Class.TheVariants.{Bad};
ghost use Rattle.label_text.specs.Runs.{hex_of};
ghost use Rattle.label_text.specs.Lines.{Fits, OwnerFits, Spells, block_words, class_word, class_words, extent_words, kind_word, line_end, line_of, owned, owner_words, partition_word, request_words, runs_words, sense_words, short_extent, short_line_of, short_words, through_words, verb_of, words_behind};
ghost use Rattle.label_text.specs.inside.Spacing.{spaced, spaced_before};

use crate::numerals::{write_byte, write_hex, write_number, write_piece};
use crate::runs::write_runs;
use machine::{ClientRequest, Kind, Label};
use ntstatus::{NtStatus, Sense};
use srb::{Class, CommandBlock, Completion, DeviceLabel};
use std::alloc::AllocError;

/// Writes the line of a label behind a text, and a line feed. Of a start it tells the request that its piece is of, if it
/// is given.
///
/// # Errors
///
/// [`AllocError`] where the text has no room, and memory for more was refused; a part of the line may stand behind the
/// text. All writes here fail in this way.
#[tactic(auto, using(crate::proofs::Spaced::line_is))]
pub fn write_line(text: &mut Vec<u8>, label: &Label, owner: Option<u64>) -> Result<(), AllocError>
    ensures text { OnOk result (text.new.items ≡ text.old.items ++ (line_of (owned label.now owner) ++ line_end)) }
    ensures spelled { Fits label.now → OwnerFits label.now owner → Spells (line_of (owned label.now owner)) (owned label.now owner) }
{
    write_words(text, label, owner)
}

/// Writes a label in short behind a text, and a line feed: a call without its partition and its bytes, an act without
/// its bytes, and of a piece that came back only how it did.
///
/// # Errors
///
/// Those of [`write_line`].
#[tactic(auto, using(crate::proofs::Spaced::line_is))]
pub fn write_short_line(text: &mut Vec<u8>, label: &Label) -> Result<(), AllocError>
    ensures text { OnOk result (text.new.items ≡ text.old.items ++ (short_line_of label.now ++ line_end)) }
{
    write_short_words(text, label)
}

/// Writes a label in short, word by word.
fn write_short_words(text: &mut Vec<u8>, label: &Label) -> Result<(), AllocError>
    ensures { OnOk result (text.new.items ≡ text.old.items ++ (verb_of label.now ++ spaced (short_words label.now))) }
{
    match label {
        Label::Call { number, request } => write_short_call(text, *number, request),
        Label::Device(label) => write_short_device_label(text, label),
        label => write_words(text, label, None),
    }
}

fn write_short_call(
    text: &mut Vec<u8>,
    number: u64,
    request: &ClientRequest,
) -> Result<(), AllocError>
    ensures { OnOk result (text.new.items ≡ text.old.items ++ (codes "call" ++ spaced (decimal number ∷ kind_word request.now.kind ∷ short_extent request.now.kind request.now))) }
{
    text.extend_from_slice(b"call ")?;
    write_number(text, number)?;
    text.extend_from_slice(b" ")?;
    text.extend_from_slice(kind_word(request.kind).as_bytes())?;
    write_short_extent(text, request)
}

/// Writes where a read or a write begins and how long it is, and of a write that it goes through, and ends the line.
fn write_short_extent(text: &mut Vec<u8>, request: &ClientRequest) -> Result<(), AllocError>
    ensures { OnOk result (text.new.items ≡ text.old.items ++ spaced (short_extent request.now.kind request.now)) }
{
    match request.kind {
        Kind::Read => {
            write_two(text, request.offset, request.length)?;
            text.extend_from_slice(b"\n")
        }
        Kind::Write => {
            write_two(text, request.offset, request.length)?;
            text.extend_from_slice(end_of_write(request.through))
        }
        Kind::Flush => text.extend_from_slice(b"\n"),
    }
}

/// What stands behind the length of a write in short, to the end of its line.
fn end_of_write(through: bool) -> &'static [u8]
    ensures { result.now ≡ spaced (through_words through) }
{
    if through { b" through\n" } else { b"\n" }
}

fn write_short_device_label(text: &mut Vec<u8>, label: &DeviceLabel) -> Result<(), AllocError>
    ensures { OnOk result (text.new.items ≡ text.old.items ++ (verb_of (Device label.now) ++ spaced (short_words (Device label.now)))) }
{
    match label {
        DeviceLabel::Act { piece, .. } => {
            text.extend_from_slice(b"act ")?;
            write_piece(text, *piece)?;
            text.extend_from_slice(b"\n")
        }
        DeviceLabel::Return { piece, class } => {
            text.extend_from_slice(b"return ")?;
            write_piece(text, *piece)?;
            text.extend_from_slice(class_word(class).as_bytes())?;
            text.extend_from_slice(b"\n")
        }
        label => write_device_label(text, label, None),
    }
}

/// Returns how a piece came back, behind a space.
fn class_word(class: &Class) -> &'static str
    ensures { result.now ≡ codes " " ++ class_word class.now }
{
    match class {
        Class::Good => " good",
        Class::Busy => " busy",
        Class::Bad(_) => " bad",
    }
}

/// Writes a line word by word.
fn write_words(text: &mut Vec<u8>, label: &Label, owner: Option<u64>) -> Result<(), AllocError>
    ensures { OnOk result (text.new.items ≡ text.old.items ++ (verb_of label.now ++ spaced (words_behind label.now owner))) }
{
    match label {
        Label::Call { number, request } => write_call(text, *number, request),
        Label::Device(label) => write_device_label(text, label, owner),
        Label::Answer {
            number,
            status,
            information,
            bytes,
        } => write_answer(text, *number, *status, *information, bytes.as_slice()),
        Label::Cancel { number } => {
            text.extend_from_slice(b"cancel ")?;
            write_number(text, *number)?;
            text.extend_from_slice(b"\n")
        }
        Label::Pause => text.extend_from_slice(b"pause\n"),
        Label::Resume => text.extend_from_slice(b"resume\n"),
        Label::Remove => text.extend_from_slice(b"remove\n"),
        Label::Surprise => text.extend_from_slice(b"surprise\n"),
        Label::Removed => text.extend_from_slice(b"removed\n"),
    }
}

/// Writes a space and a byte.
fn write_byte_word(text: &mut Vec<u8>, byte: u8) -> Result<(), AllocError>
    ensures { OnOk result (text.new.items ≡ text.old.items ++ (codes " " ++ hex_of byte)) }
{
    text.extend_from_slice(b" ")?;
    write_byte(text, byte)
}

/// Writes the runs of bytes as the last word of a line, if there are bytes, and ends the line.
fn write_bytes(text: &mut Vec<u8>, bytes: &[u8]) -> Result<(), AllocError>
    ensures { OnOk result (text.new.items ≡ text.old.items ++ spaced (runs_words bytes.now)) }
{
    if bytes.is_empty() {
        return text.extend_from_slice(b"\n");
    }
    text.extend_from_slice(b" ")?;
    write_runs(text, bytes)?;
    text.extend_from_slice(b"\n")
}

#[tactic(auto, using(crate::proofs::Spaced::words_then))]
fn write_call(text: &mut Vec<u8>, number: u64, request: &ClientRequest) -> Result<(), AllocError>
    ensures { OnOk result (text.new.items ≡ text.old.items ++ (codes "call" ++ spaced (decimal number ∷ request_words request.now))) }
{
    text.extend_from_slice(b"call ")?;
    write_number(text, number)?;
    text.extend_from_slice(b" ")?;
    text.extend_from_slice(kind_word(request.kind).as_bytes())?;
    write_extent(text, request)?;
    write_last(text, request)
}

/// Writes what stands behind the length of a request, and ends the line.
#[tactic(auto, using(crate::proofs::Spaced::words_then))]
fn write_last(text: &mut Vec<u8>, request: &ClientRequest) -> Result<(), AllocError>
    ensures { OnOk result (text.new.items ≡ text.old.items ++ spaced (through_words request.now.through ++ (codes "in" ∷ partition_word request.now.partition ∷ runs_words request.now.bytes))) }
{
    write_through(text, request.through)?;
    text.extend_from_slice(b" in ")?;
    write_partition(text, request.partition)?;
    write_bytes(text, request.bytes.as_slice())
}

/// Writes the word through behind a space, for a request that goes through.
fn write_through(text: &mut Vec<u8>, through: bool) -> Result<(), AllocError>
    ensures { OnOk result (text.new.items ≡ text.old.items ++ spaced_before (through_words through) []) }
{
    if through {
        text.extend_from_slice(b" through")
    } else {
        Ok(())
    }
}

fn kind_word(kind: Kind) -> &'static str
    ensures { result.now ≡ kind_word kind }
{
    match kind {
        Kind::Read => "read",
        Kind::Write => "write",
        Kind::Flush => "flush",
    }
}

/// Writes where a request begins and how long it is, each behind a space.
fn write_extent(text: &mut Vec<u8>, request: &ClientRequest) -> Result<(), AllocError>
    ensures { OnOk result (text.new.items ≡ text.old.items ++ spaced_before (extent_words request.now.kind request.now.offset request.now.length) []) }
{
    match request.kind {
        Kind::Read | Kind::Write => {}
        Kind::Flush if request.offset == 0 && request.length == 0 => return Ok(()),
        Kind::Flush => text.extend_from_slice(b" at")?,
    }
    write_two(text, request.offset, request.length)
}

/// Writes two numbers, each behind a space.
fn write_two(text: &mut Vec<u8>, offset: u64, length: u64) -> Result<(), AllocError>
    ensures { OnOk result (text.new.items ≡ text.old.items ++ (codes " " ++ (decimal offset ++ (codes " " ++ decimal length)))) }
{
    text.extend_from_slice(b" ")?;
    write_number(text, offset)?;
    text.extend_from_slice(b" ")?;
    write_number(text, length)
}

/// Writes the number of a partition, or - where there is none.
fn write_partition(text: &mut Vec<u8>, partition: Option<u8>) -> Result<(), AllocError>
    ensures { OnOk result (text.new.items ≡ text.old.items ++ partition_word partition) }
{
    match partition {
        Some(partition) => write_number(text, partition as u64),
        None => text.extend_from_slice(b"-"),
    }
}

fn write_device_label(
    text: &mut Vec<u8>,
    label: &DeviceLabel,
    owner: Option<u64>,
) -> Result<(), AllocError>
    ensures { OnOk result (text.new.items ≡ text.old.items ++ (verb_of (Device label.now) ++ spaced (words_behind (Device label.now) owner))) }
{
    match label {
        DeviceLabel::Start { piece, tag, block } => {
            write_start(text, *piece, *tag, block)?;
            write_owner(text, owner)
        }
        DeviceLabel::Act { piece, bytes } => {
            text.extend_from_slice(b"act ")?;
            write_piece(text, *piece)?;
            write_bytes(text, bytes.as_slice())
        }
        DeviceLabel::Fault { piece } => {
            text.extend_from_slice(b"fault ")?;
            write_piece(text, *piece)?;
            text.extend_from_slice(b"\n")
        }
        DeviceLabel::Return { piece, class } => {
            text.extend_from_slice(b"return ")?;
            write_piece(text, *piece)?;
            write_class(text, class)
        }
    }
}

fn write_start(
    text: &mut Vec<u8>,
    piece: u128,
    tag: u8,
    block: &CommandBlock,
) -> Result<(), AllocError>
    ensures { OnOk result (text.new.items ≡ text.old.items ++ (codes "start" ++ spaced_before (decimal piece ∷ codes "tag" ∷ decimal tag ∷ block_words block.now) [])) }
{
    text.extend_from_slice(b"start ")?;
    write_piece(text, piece)?;
    text.extend_from_slice(b" tag ")?;
    write_number(text, tag as u64)?;
    write_block(text, block)
}

/// Writes the digits of a command block behind a space, if it has bytes.
fn write_block(text: &mut Vec<u8>, block: &CommandBlock) -> Result<(), AllocError>
    ensures { OnOk result (text.new.items ≡ text.old.items ++ spaced_before (block_words block.now) []) }
{
    if block.as_slice().is_empty() {
        return Ok(());
    }
    text.extend_from_slice(b" ")?;
    write_hex(text, block.as_slice())
}

/// Writes the request that a piece is of behind the word of, if it is told, and ends the line.
fn write_owner(text: &mut Vec<u8>, owner: Option<u64>) -> Result<(), AllocError>
    ensures { OnOk result (text.new.items ≡ text.old.items ++ spaced (owner_words owner)) }
{
    if let Some(owner) = owner {
        text.extend_from_slice(b" of ")?;
        write_number(text, owner)?;
    }
    text.extend_from_slice(b"\n")
}

/// Writes how a piece came back, and ends the line.
fn write_class(text: &mut Vec<u8>, class: &Class) -> Result<(), AllocError>
    ensures { OnOk result (text.new.items ≡ text.old.items ++ spaced (class_words class.now)) }
{
    match class {
        Class::Good => text.extend_from_slice(b" good\n"),
        Class::Busy => text.extend_from_slice(b" busy\n"),
        Class::Bad(completion) => write_completion(text, completion),
    }
}

fn write_completion(text: &mut Vec<u8>, completion: &Completion) -> Result<(), AllocError>
    ensures { OnOk result (text.new.items ≡ text.old.items ++ spaced (class_words (Bad completion.now))) }
{
    text.extend_from_slice(b" bad")?;
    write_byte_word(text, completion.srb_status)?;
    write_byte_word(text, completion.scsi_status)?;
    if let Some(sense) = completion.sense {
        write_sense(text, sense)?;
    }
    text.extend_from_slice(b"\n")
}

fn write_sense(text: &mut Vec<u8>, sense: Sense) -> Result<(), AllocError>
    ensures { OnOk result (text.new.items ≡ text.old.items ++ spaced_before (sense_words (Some sense)) []) }
{
    write_byte_word(text, sense.key)?;
    write_byte_word(text, sense.asc)?;
    write_byte_word(text, sense.ascq)
}

/// Writes an answer; `information` is the number of bytes that were moved.
fn write_answer(
    text: &mut Vec<u8>,
    number: u64,
    status: NtStatus,
    information: u64,
    bytes: &[u8],
) -> Result<(), AllocError>
    ensures { OnOk result (text.new.items ≡ text.old.items ++ (codes "answer" ++ spaced (decimal number ∷ name_of status ∷ decimal information ∷ runs_words bytes.now))) }
{
    text.extend_from_slice(b"answer ")?;
    write_number(text, number)?;
    text.extend_from_slice(b" ")?;
    text.extend_from_slice(status.name().as_bytes())?;
    text.extend_from_slice(b" ")?;
    write_number(text, information)?;
    write_bytes(text, bytes)
}
