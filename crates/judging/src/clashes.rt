//! What a line is about whose bytes are not those that were told.

use crate::past::Past;
use machine::Label;
use srb::DeviceLabel;
use trace_reader::known::{ByteRule, Known};

/// What was told before a line, where some bytes of the trace were not recorded.
#[derive(Clone, Copy)]
pub(crate) struct Before<'a> {
    pub known: &'a Known,
    pub past: &'a Past,
    /// The bytes of a sector.
    pub size: u64,
}

/// Bytes that are not those that were told, from the first that differs on.
#[derive(Clone, Copy)]
pub(crate) struct Clash<'a> {
    /// The piece that moved them.
    pub piece: u128,
    /// The block of the disk that the first of them is of.
    pub block: u64,
    pub found: &'a [u8],
    pub due: &'a [u8],
    /// The line that told what is due.
    pub line: Option<u64>,
}

/// The bytes from a place on, so many at most.
fn part(bytes: &[u8], at: u128, count: u64) -> &[u8] {
    let Ok(at) = u64::try_from(at) else {
        return &[];
    };
    let behind = bytes.get(at as usize..).unwrap_or(&[]);
    behind.get(..count as usize).unwrap_or(behind)
}

/// How many bytes are the same before the first that differ.
fn same(found: &[u8], due: &[u8]) -> usize {
    for at in 0..due.len() {
        if found.get(at).copied() != due.get(at).copied() {
            return at;
        }
    }
    due.len()
}

impl<'a> Before<'a> {
    /// The block of this byte of the disk.
    fn block_at(self, at: u128) -> Option<u64> {
        u64::try_from(at.checked_div(self.size as u128)?).ok()
    }

    /// How bytes of a piece clash with those that are due; both begin at this byte of the disk.
    fn clash_at(
        self,
        start: u128,
        piece: u128,
        found: &'a [u8],
        due: &'a [u8],
    ) -> Option<Clash<'a>> {
        let at = same(found, due);
        let shown = at.min(due.len().saturating_sub(1));
        Some(Clash {
            piece,
            block: self.block_at(start.saturating_add(shown as u128))?,
            found: found.get(at..).unwrap_or(&[]),
            due: due.get(at..).unwrap_or(&[]),
            line: None,
        })
    }

    /// Where the bytes of an act differ from those of its call.
    fn with_call(self, piece: u128, bytes: &'a [u8]) -> Option<Clash<'a>> {
        let sent = self.known.sent_at(piece)?;
        let start = (sent.extent.first as u128).saturating_mul(self.size as u128);
        let clash = self.clash_at(start, piece, bytes, self.known.due(sent))?;
        let line = self.past.calls.line_of(sent.owner?);
        Some(Clash { line, ..clash })
    }

    /// Where the bytes of an act differ from those of a sector.
    fn with_sector(self, piece: u128, sector: u128, bytes: &'a [u8]) -> Option<Clash<'a>> {
        let sent = self.known.sent_at(piece)?;
        let size = self.size as u128;
        let place = sector.checked_sub(sent.extent.first as u128)?;
        let found = part(bytes, place.saturating_mul(size), self.size);
        let start = sector.saturating_mul(size);
        let clash = self.clash_at(start, piece, found, self.known.sector(sector))?;
        let line = self.past.teller_of(clash.block);
        Some(Clash { line, ..clash })
    }

    /// Where the bytes of an answer differ from those that a piece read.
    fn with_act(self, number: u64, bytes: &'a [u8]) -> Option<Clash<'a>> {
        let asked = self.known.asked_at(number)?;
        let moved = self.known.denying(asked, bytes)?;
        let first = moved.first as u128 + moved.place as u128;
        let start = first.saturating_mul(self.size as u128);
        let due = moved.bytes.as_slice();
        let found = part(bytes, start.saturating_sub(asked.base), due.len() as u64);
        let clash = self.clash_at(start, moved.piece, found, due)?;
        let line = self.past.teller_to(moved.piece, clash.block);
        Some(Clash { line, ..clash })
    }

    /// Where the bytes of a label differ from those that were told, as a rule says it.
    pub fn clash(self, label: &'a Label, rule: ByteRule) -> Option<Clash<'a>> {
        match (rule, label) {
            (ByteRule::Call { piece }, Label::Device(DeviceLabel::Act { bytes, .. })) => {
                self.with_call(piece, bytes.as_slice())
            }
            (ByteRule::Sector { piece, sector }, Label::Device(DeviceLabel::Act { bytes, .. })) => {
                self.with_sector(piece, sector, bytes.as_slice())
            }
            (ByteRule::Act { .. }, Label::Answer { number, bytes, .. }) => {
                self.with_act(*number, bytes.as_slice())
            }
            _ => None,
        }
    }
}
