//! What a refused line is about: its request, its piece, its place on the disk, and the bytes that differ.

use crate::clashes::{Before, Clash};
use crate::fields::Fields;
use crate::misstep::Misstep;
use crate::past::{Past, Range, block_of, first_of, first_sector, piece_at, request_at};
use cdb::{Cdb, decode};
use judge::stepwise::Judge;
use judge::{
    ActRule, AnswerRule, CallRule, Difference, Hindrance, Machine, MachineRules, Misfit,
    OpenRequest, OwedRule, Rule, StartRule, Started,
};
use label_text::write_line;
use machine::Label;
use ntstatus::NtStatus;
use srb::DeviceLabel;
use std::alloc::{AllocError, Global};
use trace_line::Line;
use trace_reader::ReadRule;
use trace_reader::known::Known;

/// How many bytes of a line are repeated, at most.
const REPEATED: usize = 200;

/// A line that is refused, before a judge that has taken those before it.
#[derive(Clone, Copy)]
pub(crate) struct Scene<'a> {
    pub judge: &'a Judge,
    pub past: &'a Past,
    /// What is known of bytes, where some were not recorded.
    pub known: &'a Option<Known>,
    pub line: &'a Line,
    pub misstep: Misstep,
}

/// The piece that a label is of.
fn piece_of(label: &Label) -> Option<u128> {
    match label {
        Label::Device(
            DeviceLabel::Start { piece, .. }
            | DeviceLabel::Act { piece, .. }
            | DeviceLabel::Fault { piece }
            | DeviceLabel::Return { piece, .. },
        ) => Some(*piece),
        _ => None,
    }
}

/// The request that a label tells.
fn number_of(label: &Label) -> Option<u64> {
    match label {
        Label::Call { number, .. } | Label::Answer { number, .. } | Label::Cancel { number } => {
            Some(*number)
        }
        _ => None,
    }
}

/// The request that a rule of starts names.
fn asking(rule: StartRule) -> Option<u64> {
    match rule {
        StartRule::Held { number, .. } | StartRule::NotAsked(Misfit::Fua { number, .. }) => {
            Some(number)
        }
        _ => None,
    }
}

/// The bytes that a label brings.
fn bytes_of(label: &Label) -> &[u8] {
    match label {
        Label::Call { request, .. } => request.bytes.as_slice(),
        Label::Device(DeviceLabel::Act { bytes, .. }) | Label::Answer { bytes, .. } => {
            bytes.as_slice()
        }
        Label::Device(DeviceLabel::Start { block, .. }) => block.as_slice(),
        _ => &[],
    }
}

/// The first block that a command asks for.
fn first_block(command: Cdb) -> Option<u64> {
    match command {
        Cdb::Read10 { lba, .. } | Cdb::Write10 { lba, .. } => Some(lba as u64),
        Cdb::Read16 { lba, .. } | Cdb::Write16 { lba, .. } => Some(lba),
        _ => None,
    }
}

/// The place that what holds a request back is at.
fn held_at(hindrance: Hindrance) -> Option<u64> {
    match hindrance {
        Hindrance::Out { place }
        | Hindrance::Done { place }
        | Hindrance::Failed { place }
        | Hindrance::OffGrid { place, .. }
        | Hindrance::Worn { place } => Some(place),
        _ => None,
    }
}

/// The first byte in which bytes differ that a rule compares.
pub(crate) fn difference_of(rule: Rule) -> Option<Difference> {
    match rule {
        Rule::Act(ActRule::Write(difference) | ActRule::Disk(difference))
        | Rule::Answer(AnswerRule::Bytes(difference))
        | Rule::Start(StartRule::NotPlain(difference)) => Some(difference),
        _ => None,
    }
}

/// The byte that a difference is about: the last one that is due where there are more.
fn found_at(difference: Difference) -> u64 {
    match difference.due {
        Some(_) => difference.at,
        None => difference.at.saturating_sub(1),
    }
}

/// Whether a rule says that a call is refused with INVALID_PARAMETER.
fn is_invalid(rule: Rule) -> bool {
    match rule {
        Rule::Owed(OwedRule::Other { status, .. } | OwedRule::Status { due: status, .. })
        | Rule::Call(CallRule::Refused { status, .. }) => status == NtStatus::InvalidParameter,
        _ => false,
    }
}

/// The bytes from a place on.
fn from(bytes: &[u8], at: u64) -> &[u8] {
    bytes.get(at as usize..).unwrap_or(&[])
}

/// A byte as bytes.
fn one(byte: &Option<u8>) -> &[u8] {
    byte.as_slice()
}

/// Why a call for these bytes is refused with INVALID_PARAMETER.
fn why_invalid(alloc: Global, rules: &MachineRules, range: Range) -> Result<String, AllocError> {
    let size = rules.sector_size as u64;
    let Range { offset, length, .. } = range;
    if offset.checked_rem(size).unwrap_or(0) != 0 {
        return format!(in alloc; "offset {offset} is not a multiple of {size}");
    }
    if length.checked_rem(size).unwrap_or(0) != 0 {
        return format!(in alloc; "length {length} is not a multiple of {size}");
    }
    why_long(alloc, rules, range)
}

/// Why a call for these sectors is refused with INVALID_PARAMETER.
fn why_long(alloc: Global, rules: &MachineRules, range: Range) -> Result<String, AllocError> {
    let size = rules.sector_size as u64;
    let most = rules.longest;
    let first = range.offset.checked_div(size).unwrap_or(0);
    let count = range.length.checked_div(size).unwrap_or(0);
    let partition = range.partition.unwrap_or(0);
    let sectors = match rules.partitions.get(partition as usize) {
        Some(extent) => extent.count,
        None => 0,
    };
    let end = first.saturating_add(count);
    if end > sectors {
        return format!(in alloc;
            "it ends at sector {end}, and partition {partition} has {sectors}"
        );
    }
    format!(in alloc; "it has {count} sectors, and {most} are the most")
}

impl<'a> Scene<'a> {
    fn label(&self) -> &'a Label {
        &self.line.label
    }

    fn rule(&self) -> Option<Rule> {
        match self.misstep {
            Misstep::Breaks(rule) | Misstep::Blank(rule) => Some(rule),
            Misstep::NoPartition { .. } | Misstep::Read(_) => None,
        }
    }

    fn machine(&self) -> Option<&'a Machine> {
        first_of(self.judge)
    }

    /// Where the bytes of the line are not those that were told.
    fn clash(&self) -> Option<Clash<'a>> {
        let Misstep::Read(ReadRule::Bytes(rule)) = self.misstep else {
            return None;
        };
        let Some(known) = self.known else {
            return None;
        };
        let before = Before {
            known,
            past: self.past,
            size: self.judge.rules().sector_size as u64,
        };
        before.clash(self.label(), rule)
    }

    /// The piece that the line is about.
    fn piece_number(&self) -> Option<u128> {
        match self.clash() {
            Some(clash) => Some(clash.piece),
            None => piece_of(self.label()),
        }
    }

    /// The place of its request that a block of the disk is.
    fn place_of(&self, block: u64) -> Option<u64> {
        let first = block_of(self.judge.rules(), self.request()?.request(), 0)?;
        block.checked_sub(first)
    }

    /// The piece at the adapter that the label is of.
    fn piece(&self) -> Option<&'a Started> {
        piece_at(self.machine()?, piece_of(self.label())?)
    }

    /// The number of the request that the line is about.
    fn number(&self) -> Option<u64> {
        if let Some(piece) = self.piece() {
            return Some(piece.owner());
        }
        match self.rule() {
            Some(Rule::Start(rule)) => asking(rule).or(self.line.owner),
            _ => number_of(self.label()),
        }
    }

    /// The open request that the line is about.
    fn request(&self) -> Option<&'a OpenRequest> {
        request_at(self.machine()?, self.number()?)
    }

    /// How many sectors stand before this byte.
    fn sectors_to(&self, at: u64) -> u64 {
        let size = self.judge.rules().sector_size as u64;
        at.checked_div(size).unwrap_or(0)
    }

    /// The place of its request that the line is about.
    fn place(&self) -> Option<u64> {
        if let Some(clash) = self.clash() {
            return self.place_of(clash.block);
        }
        let first = match self.piece() {
            Some(piece) => Some(piece.places().first),
            None => None,
        };
        match self.rule()? {
            Rule::Answer(
                AnswerRule::Out { place }
                | AnswerRule::Waits { place }
                | AnswerRule::NotDone { place }
                | AnswerRule::Status { place, .. },
            ) => Some(place),
            Rule::Answer(AnswerRule::Bytes(difference)) => Some(self.sectors_to(found_at(
                difference,
            ))),
            Rule::Act(ActRule::Write(difference) | ActRule::Disk(difference)) => {
                Some(first?.saturating_add(self.sectors_to(difference.at)))
            }
            Rule::Start(StartRule::Held { hindrance, .. }) => held_at(hindrance),
            _ => first,
        }
    }

    /// The block of the disk that the line is about.
    fn block(&self) -> Option<u64> {
        if let Some(clash) = self.clash() {
            return Some(clash.block);
        }
        if let (Some(request), Some(place)) = (self.request(), self.place()) {
            return block_of(self.judge.rules(), request.request(), place);
        }
        match self.label() {
            Label::Device(DeviceLabel::Start { block, .. }) => {
                first_block(decode(block.as_slice()).ok()?)
            }
            _ => None,
        }
    }

    /// The bytes of its write that are due from this byte of the piece on.
    fn due_of_write(&self, at: u64) -> Option<&'a [u8]> {
        let size = self.judge.rules().sector_size as u64;
        let before = self.piece()?.places().first.saturating_mul(size);
        let request = self.request()?.request();
        Some(from(request.bytes.as_slice(), before.saturating_add(at)))
    }

    /// The bytes of the disk that are due from this byte of the piece on.
    fn due_of_disk(&self, at: u64) -> Option<&'a [u8]> {
        let rules = self.judge.rules();
        let request = self.request()?.request();
        let sectors = self.machine()?.sectors(request.partition?)?;
        let sector = first_sector(rules, request).saturating_add(self.place()?);
        if sector >= sectors.len() {
            return None;
        }
        let within = at.checked_rem(rules.sector_size as u64)?;
        Some(from(sectors.at(sector), within))
    }

    /// The bytes that are due, where more than the first one is known.
    fn due(&self, rule: Rule) -> Option<&'a [u8]> {
        match rule {
            Rule::Act(ActRule::Write(difference)) => self.due_of_write(difference.at),
            Rule::Act(ActRule::Disk(difference)) => self.due_of_disk(difference.at),
            _ => None,
        }
    }

    /// The line that wrote what is due.
    fn writer(&self, rule: Rule) -> Option<u64> {
        match rule {
            Rule::Act(ActRule::Write(_)) => self.past.calls.line_of(self.number()?),
            Rule::Act(ActRule::Disk(_)) => self.past.teller_of(self.block()?),
            _ => None,
        }
    }

    /// The first byte that differs. Where zeros stand for the bytes there is none but in a block.
    fn difference(&self, rule: Rule) -> Option<Difference> {
        match (self.misstep, rule) {
            (Misstep::Blank(_), Rule::Act(_) | Rule::Answer(_)) => None,
            _ => difference_of(rule),
        }
    }

    /// Writes the bytes that differ.
    fn tell_bytes(&self, rule: Rule, fields: &mut Fields) -> Result<(), AllocError> {
        let Some(difference) = self.difference(rule) else {
            return Ok(());
        };
        let found = from(bytes_of(self.label()), difference.at);
        fields.bytes("found", found, None)?;
        let writer = self.writer(rule);
        match self.due(rule) {
            Some(due) => fields.bytes("due", due, writer),
            None => fields.bytes("due", one(&difference.due), writer),
        }
    }

    /// Writes why a call is refused with INVALID_PARAMETER, where the rule says so.
    fn tell_why(&self, alloc: Global, rule: Rule, fields: &mut Fields) -> Result<(), AllocError> {
        if !is_invalid(rule) {
            return Ok(());
        }
        let asked = match self.label() {
            Label::Call { request, .. } => Some(Range::of(request)),
            _ => self.past.newest,
        };
        let Some(range) = asked else {
            return Ok(());
        };
        let why = why_invalid(alloc, self.judge.rules(), range)?;
        fields.word("why", why.as_str())
    }

    /// Writes the line behind a text. A start that was read with another tag has its own.
    fn write(&self, text: &mut Vec<u8>) -> Result<(), AllocError> {
        let owner = self.line.owner;
        match (self.label(), self.misstep) {
            (Label::Device(DeviceLabel::Start { piece, block, .. }), Misstep::Breaks(_)) => {
                let own = DeviceLabel::Start {
                    piece: *piece,
                    tag: self.past.tag,
                    block: block.copied(),
                };
                write_line(text, &Label::Device(own), owner)
            }
            (label, _) => write_line(text, label, owner),
        }
    }

    /// Repeats the line, or how it begins. A line that was read with zeros for its bytes has its own.
    fn tell_line(&self, alloc: Global, fields: &mut Fields) -> Result<(), AllocError> {
        let mut text = Vec::from_slice(alloc, self.past.own.as_slice())?;
        if text.is_empty() {
            self.write(&mut text)?;
            text.pop();
        }
        let is_long = text.len() > REPEATED;
        text.truncate(REPEATED);
        if is_long {
            text.extend_from_slice(b"..")?;
        }
        match std::str::from_utf8(text.as_slice()) {
            Ok(told) => fields.word("label", told),
            Err(_) => Ok(()),
        }
    }

    /// Writes what the line is about.
    pub fn tell(&self, alloc: Global, fields: &mut Fields) -> Result<(), AllocError> {
        self.tell_line(alloc, fields)?;
        fields.number("request", widened(self.number()))?;
        fields.number("piece", self.piece_number())?;
        fields.number("place", widened(self.place()))?;
        fields.number("block", widened(self.block()))?;
        if let Some(clash) = self.clash() {
            fields.bytes("found", clash.found, None)?;
            fields.bytes("due", clash.due, clash.line)?;
        }
        let Some(rule) = self.rule() else {
            return Ok(());
        };
        self.tell_bytes(rule, fields)?;
        self.tell_why(alloc, rule, fields)
    }
}

fn widened(number: Option<u64>) -> Option<u128> {
    match number {
        Some(number) => Some(number as u128),
        None => None,
    }
}
