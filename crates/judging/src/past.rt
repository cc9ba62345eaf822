//! What a refusal tells of the lines before it.

use crate::left::Calls;
use judge::stepwise::Judge;
use judge::{Machine, MachineRules, OpenRequest, Started};
use label_text::write_line;
use machine::{ClientRequest, Kind, Label};
use srb::DeviceLabel;
use std::alloc::{AllocError, Global};
use std::collections::BTreeMap;
use trace_line::Line;
use trace_reader::Recorded;
use trace_reader::known::{Known, Sent};

/// Where a call asks for bytes.
#[derive(Clone, Copy)]
pub(crate) struct Range {
    pub partition: Option<u8>,
    /// In bytes, as the length.
    pub offset: u64,
    pub length: u64,
}

impl Range {
    pub fn of(request: &ClientRequest) -> Range {
        Range {
            partition: request.partition,
            offset: request.offset,
            length: request.length,
        }
    }
}

/// What is known of the lines before the newest label.
#[derive(Drop)]
pub(crate) struct Past {
    pub calls: Calls,
    /// Where the newest call asks for bytes.
    pub newest: Option<Range>,
    /// The tag of the newest start, as its line tells it.
    pub tag: u8,
    /// How the newest line begins, where some bytes were not recorded.
    pub own: Vec<u8>,
    /// The line that told what stands in each block of the disk: that wrote it last, or read it first where nobody told
    /// what was written.
    tellers: BTreeMap<u64, u64>,
    /// The blocks that pieces of open requests read, where some bytes were not recorded.
    read: Vec<Read>,
}

/// A block that a piece read.
#[derive(Clone, Copy)]
struct Read {
    owner: u64,
    piece: u128,
    block: u64,
    /// The line that told what it read.
    line: Option<u64>,
}

/// The first of the judge's readings.
pub(crate) fn first_of(judge: &Judge) -> Option<&Machine> {
    judge.machines().first()
}

pub(crate) fn piece_at(machine: &Machine, number: u128) -> Option<&Started> {
    machine
        .pieces()
        .iter()
        .find(|piece| piece.number() == number)
}

pub(crate) fn request_at(machine: &Machine, number: u64) -> Option<&OpenRequest> {
    machine
        .requests()
        .iter()
        .find(|request| request.number() == number)
}

/// The sector of its partition where a request begins.
pub(crate) fn first_sector(rules: &MachineRules, request: &ClientRequest) -> u64 {
    let size = rules.sector_size as u64;
    request.offset.checked_div(size).unwrap_or(0)
}

/// The block of the disk that is this place of a read or a write.
pub(crate) fn block_of(rules: &MachineRules, request: &ClientRequest, place: u64) -> Option<u64> {
    if request.kind == Kind::Flush {
        return None;
    }
    let extent = rules.partitions.get(request.partition? as usize)?;
    let first = extent.first.saturating_add(first_sector(rules, request));
    Some(first.saturating_add(place))
}

impl Past {
    pub fn new(alloc: Global) -> Past {
        Past {
            calls: Calls::new(alloc),
            newest: None,
            tag: 0,
            own: Vec::new(alloc),
            tellers: BTreeMap::new(alloc),
            read: Vec::new(alloc),
        }
    }

    /// Notes a label, of the line of this number, before which this was known of bytes if some were not recorded.
    pub fn note(
        &mut self,
        judge: &Judge,
        known: &Option<Known>,
        label: &Label,
        line: u64,
    ) -> Result<(), AllocError> {
        self.calls.note(label, line)?;
        match label {
            Label::Call { request, .. } => self.newest = Some(Range::of(request)),
            Label::Answer { number, .. } => self.read.retain(|read| read.owner != *number),
            Label::Device(DeviceLabel::Start { tag, .. }) => self.tag = *tag,
            Label::Device(DeviceLabel::Act { piece, bytes }) => {
                return match known {
                    Some(known) => {
                        let line = (bytes.len() > 0).then_some(line);
                        self.note_told(known, *piece, line)
                    }
                    None => self.note_act(judge, *piece, line),
                };
            }
            _ => {}
        }
        Ok(())
    }

    /// Notes how a line begins, where some bytes were not recorded.
    pub fn note_own(&mut self, recorded: &Recorded, has_gaps: bool) -> Result<(), AllocError> {
        let Line { label, owner } = &recorded.line;
        self.own.clear();
        if !has_gaps && !recorded.untold {
            return Ok(());
        }
        write_line(&mut self.own, label, *owner)?;
        self.own.pop();
        if recorded.untold {
            self.own.extend_from_slice(b" ?")?;
        }
        Ok(())
    }

    /// Notes the line of a piece's act, where it writes.
    fn note_act(&mut self, judge: &Judge, piece: u128, line: u64) -> Result<(), AllocError> {
        let Some((first, count)) = written_by(judge, piece) else {
            return Ok(());
        };
        for block in first..first.saturating_add(count) {
            self.tellers.insert(block, line)?;
        }
        Ok(())
    }

    /// Notes a piece's act, which told its bytes in this line if it did.
    fn note_told(
        &mut self,
        known: &Known,
        piece: u128,
        line: Option<u64>,
    ) -> Result<(), AllocError> {
        let Some(sent) = known.sent_at(piece) else {
            return Ok(());
        };
        match sent.kind {
            Kind::Write => self.note_write(sent, line),
            Kind::Read => self.note_read(known, sent, line),
            Kind::Flush => Ok(()),
        }
    }

    /// Notes the line that told what a piece wrote: that of its act, or else of its call.
    fn note_write(&mut self, sent: Sent, line: Option<u64>) -> Result<(), AllocError> {
        let call = match sent.owner {
            Some(owner) => self.calls.line_of(owner),
            None => None,
        };
        let Some(line) = line.or(call) else {
            return Ok(());
        };
        let first = sent.extent.first;
        for block in first..first.saturating_add(sent.extent.count) {
            self.tellers.insert(block, line)?;
        }
        Ok(())
    }

    /// Notes the line that told what a piece read: that of its act, or else the one that told what the block holds.
    fn note_read(
        &mut self,
        known: &Known,
        sent: Sent,
        line: Option<u64>,
    ) -> Result<(), AllocError> {
        let first = sent.extent.first;
        for block in first..first.saturating_add(sent.extent.count) {
            let is_new = known.sector(block as u128).is_empty();
            if let Some(line) = line
                && is_new
            {
                self.tellers.insert(block, line)?;
            }
            self.add_read(sent, block, line)?;
        }
        Ok(())
    }

    fn add_read(&mut self, sent: Sent, block: u64, line: Option<u64>) -> Result<(), AllocError> {
        let Some(owner) = sent.owner else {
            return Ok(());
        };
        let line = line.or(self.teller_of(block));
        self.read.push(Read {
            owner,
            piece: sent.number,
            block,
            line,
        })?;
        Ok(())
    }

    /// The line that told what stands in a block of the disk.
    pub fn teller_of(&self, block: u64) -> Option<u64> {
        self.tellers.get(&block).copied()
    }

    /// The line that told what a piece read of a block.
    pub fn teller_to(&self, piece: u128, block: u64) -> Option<u64> {
        for read in self.read.as_slice() {
            if read.piece == piece && read.block == block {
                return read.line;
            }
        }
        None
    }
}

/// The first block that a piece writes, and how many, if it is of a write.
fn written_by(judge: &Judge, piece: u128) -> Option<(u64, u64)> {
    let machine = first_of(judge)?;
    let piece = piece_at(machine, piece)?;
    let request = request_at(machine, piece.owner())?.request();
    if request.kind != Kind::Write {
        return None;
    }
    let places = piece.places();
    let first = block_of(judge.rules(), request, places.first)?;
    Some((first, places.count))
}
