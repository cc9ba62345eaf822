//! Labels, read from their lines.

ghost use Rattle.std.specs.Prelude.{◌≡◌, IfErr, IfOk, MatchResult, OnSome, Some, drop, option_map};
ghost use Rattle.srb.specs.declared.Kind.TheVariants.{Flush};
ghost use Rattle.trace_line.specs.declared.Line.{Line};
ghost use Rattle.label_text.specs.declared.LineFault.TheVariants.{NoMemory};
ghost use Rattle.label_text.specs.Faults.{IsFaultOf};
ghost use Rattle.label_text.specs.Lines.{Spells, is_told};
ghost use Rattle.label_text.specs.inside.Reading.{IsOther, act_at, answer_at, at_end, behind_block, behind_extent, behind_head, behind_start, block_at, block_in, bytes_at, call_at, cancel_at, class_at, completion_at, extent_at, fault_at, head_at, in_partition_at, kind_in, label_by, line_at, named, outcome_at, owned_start_at, owner_at, partition_in, place_of, return_at, sense_at, sense_behind, sense_from, short_by, start_at, status_in, tag_at, two_at};

use crate::LineFault;
use crate::decoding::decoded;
use crate::runs::expanded;
use crate::words::{Words, byte, byte_of, small};
use arrayvec::ArrayVec;
use machine::{ClientRequest, Kind, Label};
use ntstatus::{NtStatus, Sense};
use sector::Bytes;
use srb::{Class, CommandBlock, Completion, DeviceLabel};
use std::alloc::{AllocError, Global};
use trace_line::Line;

/// A request without its bytes.
#[derive(Debug, Clone, Copy)]
pub(crate) struct Head {
    pub partition: Option<u8>,
    pub kind: Kind,
    pub offset: u64,
    pub length: u64,
    pub through: bool,
}

/// Each status that a label may have.
static STATUSES: [NtStatus; 17] = [
    NtStatus::Success,
    NtStatus::Pending,
    NtStatus::DeviceBusy,
    NtStatus::InvalidHandle,
    NtStatus::InvalidParameter,
    NtStatus::NoSuchDevice,
    NtStatus::InvalidDeviceRequest,
    NtStatus::NonexistentSector,
    NtStatus::MoreProcessingRequired,
    NtStatus::DeletePending,
    NtStatus::InsufficientResources,
    NtStatus::DeviceDataError,
    NtStatus::MediaWriteProtected,
    NtStatus::DeviceNotReady,
    NtStatus::Cancelled,
    NtStatus::IoDeviceError,
    NtStatus::NotFound,
];

/// Whether a line of a trace tells a label: it is neither empty nor a remark, which begins with #.
pub fn is_told(line: &str) -> bool
    ensures { result ≡ is_told line.now }
{
    !line.is_empty() && !line.starts_with('#')
}

/// Reads a line of a trace. The text has no line feed and no carriage return at its end.
///
/// # Errors
///
/// [`LineFault::BadWord`] where no line has this text; [`LineFault::NoMemory`].
pub fn read_line(alloc: Global, text: &str) -> Result<Line, LineFault>
    ensures spelled { IfOk result (Spells text.now) }
    ensures only { IfOk result (λ line. (other : Line) → Spells text.now other → other ≡ line) }
    ensures again { (line : Line) → Spells text.now line → MatchResult result (λ read. read ≡ line) (λ fault. fault ≡ NoMemory) }
    ensures fault { IfErr result (IsFaultOf text.now) }
{
    let mut words = Words::new(b' ', text);
    match line(alloc, &mut words)? {
        Some(line) => Ok(line),
        None => Err(LineFault::BadWord {
            column: words.column(),
        }),
    }
}

/// The line that words tell.
fn line(alloc: Global, words: &mut Words<'_>) -> Result<Option<Line>, AllocError>
    ensures { IfOk result (λ found. found ≡ line_at words.old) }
{
    let Some(verb) = words.word() else {
        return Ok(None);
    };
    if verb == "start" {
        return Ok(owned_start(words));
    }
    let Some(label) = label(alloc, verb, words)? else {
        return Ok(None);
    };
    Ok(Some(Line { label, owner: None }))
}

/// The label, but for a start, that this word and those behind it tell.
fn label(alloc: Global, verb: &str, words: &mut Words<'_>) -> Result<Option<Label>, AllocError>
    ensures { IfOk result (λ found. found ≡ label_by verb.now words.old) }
{
    match verb {
        "call" => call(alloc, words),
        "act" => act(alloc, words),
        "answer" => answer(alloc, words),
        _ => Ok(short(verb, words)),
    }
}

/// The label that this word and those behind it tell, where it has no bytes.
fn short(verb: &str, words: &mut Words<'_>) -> Option<Label>
    ensures { result ≡ short_by verb.now words.old }
{
    match verb {
        "fault" => fault(words),
        "return" => returned(words),
        "cancel" => cancel(words),
        "pause" => alone(words, Label::Pause),
        "resume" => alone(words, Label::Resume),
        "remove" => alone(words, Label::Remove),
        "surprise" => alone(words, Label::Surprise),
        "removed" => alone(words, Label::Removed),
        _ => None,
    }
}

/// A label of no further words.
fn alone(words: &mut Words<'_>, label: Label) -> Option<Label>
    ensures { result ≡ at_end words.old (Some label) }
{
    words.are_over().then_some(label)
}

/// Returns what the words behind `call` tell.
fn call(alloc: Global, words: &mut Words<'_>) -> Result<Option<Label>, AllocError>
    ensures { IfOk result (λ found. found ≡ call_at words.old) }
{
    let Some(number) = words.number() else {
        return Ok(None);
    };
    let Some(head) = read_head(words) else {
        return Ok(None);
    };
    let Some(bytes) = bytes(alloc, words)? else {
        return Ok(None);
    };
    let request = ClientRequest {
        partition: head.partition,
        kind: head.kind,
        offset: head.offset,
        length: head.length,
        through: head.through,
        bytes,
    };
    Ok(Some(Label::Call { number, request }))
}

/// A request without its bytes.
fn read_head(words: &mut Words<'_>) -> Option<Head>
    ensures value { result ≡ head_at words.old }
    ensures rest { OnSome result (words.new ≡ behind_head words.old) }
{
    let kind = kind(words.word()?)?;
    let (offset, length) = extent(kind, words)?;
    let through = words.takes("through");
    let partition = partition(words)?;
    Some(Head {
        partition,
        kind,
        offset,
        length,
        through,
    })
}

fn kind(word: &str) -> Option<Kind>
    ensures { result ≡ kind_in word.now }
{
    match word {
        "read" => Some(Kind::Read),
        "write" => Some(Kind::Write),
        "flush" => Some(Kind::Flush),
        _ => None,
    }
}

/// The offset and the length of a request of this kind.
fn extent(kind: Kind, words: &mut Words<'_>) -> Option<(u64, u64)>
    ensures value { result ≡ extent_at kind words.old }
    ensures rest { OnSome result (words.new ≡ behind_extent kind words.old) }
{
    match kind {
        Kind::Read | Kind::Write => two(words),
        Kind::Flush => flushed(words),
    }
}

/// An offset and a length.
fn two(words: &mut Words<'_>) -> Option<(u64, u64)>
    ensures value { result ≡ two_at words.old }
    ensures rest { OnSome result (words.new ≡ drop 1 (drop 1 words.old)) }
{
    let offset = words.number()?;
    let length = words.number()?;
    Some((offset, length))
}

/// The bytes of a flush, which mostly has none.
fn flushed(words: &mut Words<'_>) -> Option<(u64, u64)>
    ensures value { result ≡ extent_at Flush words.old }
    ensures rest { OnSome result (words.new ≡ behind_extent Flush words.old) }
{
    if !words.takes("at") {
        return Some((0, 0));
    }
    let (offset, length) = two(words)?;
    if offset == 0 && length == 0 {
        return None;
    }
    Some((offset, length))
}

/// The partition that stands behind `in`.
fn partition(words: &mut Words<'_>) -> Option<Option<u8>>
    ensures value { result ≡ in_partition_at words.old }
    ensures rest { OnSome result (words.new ≡ drop 1 (drop 1 words.old)) }
{
    if words.word()? != "in" {
        return None;
    }
    partition_in(words.word()?)
}

/// The number of a partition, or - where there is none.
fn partition_in(word: &str) -> Option<Option<u8>>
    ensures { result ≡ partition_in word.now }
{
    if word == "-" {
        return Some(None);
    }
    Some(Some(small(word)?))
}

/// The bytes that are the last word, in digits or in runs; none where no word is left.
fn bytes(alloc: Global, words: &mut Words<'_>) -> Result<Option<Bytes>, AllocError>
    ensures { IfOk result (λ found. found ≡ bytes_at words.old) }
{
    let Some(digits) = words.digits() else {
        return runs(alloc, words);
    };
    let Some(bytes) = decoded(alloc, digits)? else {
        return Ok(None);
    };
    Ok(Some(Bytes::new(bytes)))
}

/// The bytes that are the last word, in runs; none where no word is left.
fn runs(alloc: Global, words: &mut Words<'_>) -> Result<Option<Bytes>, AllocError>
    requires { IsOther 120 words.old }
    ensures { IfOk result (λ found. found ≡ bytes_at words.old) }
{
    let Some(word) = words.word() else {
        return Ok(Some(Bytes::new(Vec::new(alloc))));
    };
    let Some(bytes) = expanded(alloc, word)? else {
        return Ok(None);
    };
    Ok(words.are_over().then_some(Bytes::new(bytes)))
}

/// Returns what the words behind `start` tell.
fn owned_start(words: &mut Words<'_>) -> Option<Line>
    ensures { result ≡ owned_start_at words.old }
{
    let label = start(words)?;
    let owner = owner(words)?;
    Some(Line { label, owner })
}

/// A start, without its owner.
fn start(words: &mut Words<'_>) -> Option<Label>
    ensures value { result ≡ start_at words.old }
    ensures rest { OnSome result (words.new ≡ behind_start words.old) }
{
    let piece = words.piece()?;
    let tag = tag(words)?;
    let block = block(words)?;
    Some(Label::Device(DeviceLabel::Start { piece, tag, block }))
}

/// The tag that stands behind `tag`.
fn tag(words: &mut Words<'_>) -> Option<u8>
    ensures value { result ≡ tag_at words.old }
    ensures rest { OnSome result (words.new ≡ drop 1 (drop 1 words.old)) }
{
    if words.word()? != "tag" {
        return None;
    }
    words.tag()
}

/// The command block whose digits are the next word; an empty one where no such word is left.
fn block(words: &mut Words<'_>) -> Option<CommandBlock>
    ensures value { result ≡ block_at words.old }
    ensures rest { OnSome result (words.new ≡ behind_block words.old) }
{
    match words.next() {
        None | Some("of") => Some(CommandBlock::new(ArrayVec::new())),
        Some(_) => block_in(words.word()?.as_bytes()),
    }
}

/// The request that stands behind `of` as the last word; none where no word is left.
fn owner(words: &mut Words<'_>) -> Option<Option<u64>>
    ensures { result ≡ owner_at words.old }
{
    if !words.takes("of") {
        return words.are_over().then_some(None);
    }
    let owner = words.number()?;
    words.are_over().then_some(Some(owner))
}

/// The bytes of at most 32 digits, of which there are some.
#[tactic(auto, using(crate::proofs::Hexed::goes_on_at))]
fn block_in(digits: &[u8]) -> Option<CommandBlock>
    ensures { result ≡ block_in digits.now }
{
    if digits.is_empty() {
        return None;
    }
    let mut bytes = ArrayVec::new();
    let mut rest = digits;
    while let [high, low, ..] = rest {
        let byte = byte_of(*high, *low)?;
        let Ok(()) = bytes.try_push(byte) else {
            return None;
        };
        let (_, behind) = rest.split_at(2);
        rest = behind;
    }
    if rest.is_empty() {
        Some(CommandBlock::new(bytes))
    } else {
        None
    }
}

/// Returns what the words behind `act` tell.
fn act(alloc: Global, words: &mut Words<'_>) -> Result<Option<Label>, AllocError>
    ensures { IfOk result (λ found. found ≡ act_at words.old) }
{
    let Some(piece) = words.piece() else {
        return Ok(None);
    };
    let Some(bytes) = bytes(alloc, words)? else {
        return Ok(None);
    };
    Ok(Some(Label::Device(DeviceLabel::Act { piece, bytes })))
}

/// Returns what the words behind `fault` tell.
fn fault(words: &mut Words<'_>) -> Option<Label>
    ensures { result ≡ fault_at words.old }
{
    let piece = words.piece()?;
    alone(words, Label::Device(DeviceLabel::Fault { piece }))
}

/// Returns what the words behind `return` tell.
fn returned(words: &mut Words<'_>) -> Option<Label>
    ensures { result ≡ return_at words.old }
{
    let piece = words.piece()?;
    let class = class(words)?;
    Some(Label::Device(DeviceLabel::Return { piece, class }))
}

/// Returns how a piece came back.
fn class(words: &mut Words<'_>) -> Option<Class>
    ensures { result ≡ class_at words.old }
{
    match words.word()? {
        "good" => words.are_over().then_some(Class::Good),
        "busy" => words.are_over().then_some(Class::Busy),
        "bad" => Some(Class::Bad(completion(words)?)),
        _ => None,
    }
}

/// The completion of a piece that came back bad.
fn completion(words: &mut Words<'_>) -> Option<Completion>
    ensures { result ≡ completion_at words.old }
{
    let srb_status = words.byte()?;
    let scsi_status = words.byte()?;
    let sense = sense(words)?;
    Some(Completion {
        srb_status,
        scsi_status,
        sense,
    })
}

/// The sense that goes with a completion, if one does.
fn sense(words: &mut Words<'_>) -> Option<Option<Sense>>
    ensures { result ≡ sense_at words.old }
{
    match words.word() {
        Some(word) => sense_from(word, words),
        None => Some(None),
    }
}

/// The sense whose key is this word.
fn sense_from(word: &str, words: &mut Words<'_>) -> Option<Option<Sense>>
    ensures { result ≡ sense_from word.now words.old }
{
    let sense = sense_behind(byte(word)?, words)?;
    Some(Some(sense))
}

/// The sense of this key.
fn sense_behind(key: u8, words: &mut Words<'_>) -> Option<Sense>
    ensures { result ≡ sense_behind key words.old }
{
    let asc = words.byte()?;
    let ascq = words.byte()?;
    words.are_over().then_some(Sense { key, asc, ascq })
}

/// Returns what the words behind `answer` tell.
fn answer(alloc: Global, words: &mut Words<'_>) -> Result<Option<Label>, AllocError>
    ensures { IfOk result (λ found. found ≡ answer_at words.old) }
{
    let Some(number) = words.number() else {
        return Ok(None);
    };
    let Some((status, information)) = outcome(words) else {
        return Ok(None);
    };
    let Some(bytes) = bytes(alloc, words)? else {
        return Ok(None);
    };
    Ok(Some(Label::Answer {
        number,
        status,
        information,
        bytes,
    }))
}

/// The status of an answer, and how many bytes it says were moved.
fn outcome(words: &mut Words<'_>) -> Option<(NtStatus, u64)>
    ensures value { result ≡ outcome_at words.old }
    ensures rest { OnSome result (words.new ≡ drop 1 (drop 1 words.old)) }
{
    let status = status(words.word()?)?;
    let information = words.number()?;
    Some((status, information))
}

/// The status of this name.
fn status(word: &str) -> Option<NtStatus>
    ensures { result ≡ status_in word.now }
{
    named(word, &STATUSES)
}

/// The first status of this name.
fn named(word: &str, statuses: &[NtStatus]) -> Option<NtStatus>
    ensures { result ≡ named word.now statuses.now }
{
    let at = place_of(word, statuses)?;
    statuses.get(at).copied()
}

/// The place of the first status of this name.
fn place_of(word: &str, statuses: &[NtStatus]) -> Option<usize>
    ensures { result ≡ place_of word.now statuses.now }
{
    statuses.iter().position(|status| status.name() == word)
}

/// Returns what the words behind `cancel` tell.
fn cancel(words: &mut Words<'_>) -> Option<Label>
    ensures { result ≡ cancel_at words.old }
{
    let number = words.number()?;
    alone(words, Label::Cancel { number })
}
