//! What the lines of a trace have told of bytes, where some were not recorded.

ghost use Rattle.std.specs.Prelude.{◌≡◌, ◌≤◌, ◌^◌, ◌-◌, ◌*◌, ◌++◌, ◌∷◌, [], IfOk, OnOk, filter, length, slice_index_or, slice_range};
ghost use Rattle.std.specs.Option.{option_copied};
ghost use Rattle.std.specs.List.{find};
ghost use Rattle.byteorder.specs.Endian.{big_from};
ghost use Rattle.trace_reader.specs.Known.{act_rule, act_rule_of, acted, acted_by, after_device, after_label, after_line, agrees, answer_rule, base_of, by_code, byte_rule, device_rule, due, due_by, due_of, first_of, held_at, held_below, is_asked, is_denied, is_like, is_of_other, is_other_piece, is_other_request, is_sent, part_at, put_by, sector_in, sixteen_at, ten_at, transfer_in, unlike, with_asked, with_held, with_moved, with_read, with_sectors, with_sent, without_piece, without_request};
ghost use Rattle.trace_reader.specs.Gaps.{bytes_of};

use byteorder::{BigEndian, ByteOrder};
use judge::{Sectors, chunked};
use machine::{ClientRequest, Kind, Label};
use sector::{Bytes, Extent};
use srb::DeviceLabel;
use std::alloc::{AllocError, Global};
use std::fmt;
use std::marker::Model;
use trace_line::Line;

/// A request that is open, as its call told it.
#[derive(Debug, Drop)]
pub struct Asked {
    pub number: u64,
    /// Where it begins, in bytes of the disk.
    pub base: u128,
    pub kind: Kind,
    /// The bytes of a write; none where they were not told.
    pub bytes: Bytes,
}

/// A transfer that is out, as its start told it.
#[derive(Debug, Clone, Copy)]
pub struct Sent {
    pub number: u128,
    /// The request that its start names.
    pub owner: Option<u64>,
    pub kind: Kind,
    /// Sectors of the disk.
    pub extent: Extent,
}

/// Bytes that a piece read of an open request.
#[derive(Debug, Drop)]
pub struct Moved {
    pub owner: u64,
    pub piece: u128,
    /// The first of the piece's sectors on the disk.
    pub first: u64,
    /// The place in the piece of the sector where the bytes begin.
    pub place: u64,
    pub bytes: Bytes,
}

/// What bytes are not to be.
#[derive(Debug, Clone, Copy, PartialEq, Eq)]
pub enum ByteRule {
    /// They were not recorded, where all have to be.
    Untold,
    /// Those of a write's act are not those of its call.
    Call { piece: u128 },
    /// Those of a read's act are not those that were told of a sector.
    Sector { piece: u128, sector: u128 },
    /// Those of an answer are not those that a piece read.
    Act { piece: u128 },
}

impl fmt::Display for ByteRule {
    ghost use Rattle.std.specs.Prelude.{Some};
    ghost use Rattle.trace_reader.specs.Readers.{byte_text};

    ghost output = { λ rule. Some (byte_text rule) };

    fn fmt<W: fmt::Write>(&self, f: &mut fmt::Formatter<W>) -> fmt::Result {
        match self {
            ByteRule::Untold => {
                f.write_str("its bytes were not recorded, and --gaps isn't given")
            }
            ByteRule::Call { piece } => {
                write!(f, "the bytes of piece {piece} are not those of its call")
            }
            ByteRule::Sector { piece, sector } => write!(
                f,
                "piece {piece} read other bytes than were told of sector {sector} of the disk"
            ),
            ByteRule::Act { piece } => write!(
                f,
                "the bytes of the answer are not those that piece {piece} read"
            ),
        }
    }
}

/// What is known of the bytes of open requests, of their pieces, and of the sectors of the disk.
#[derive(Debug, Drop)]
pub struct Known {
    alloc: Global,
    size: u32,
    partitions: Vec<Extent>,
    asked: Vec<Asked>,
    sent: Vec<Sent>,
    moved: Vec<Moved>,
    /// The bytes of each sector; none where nothing is known of it.
    sectors: Sectors,
}

impl Model for Known {
    ghost use Rattle.trace_reader.specs.Known.{KnownView};

    ghost Value = { KnownView };

    ghost view = { λ k. record {
      size = k.size;
      partitions = k.partitions.items;
      asked = k.asked.items;
      sent = k.sent.items;
      moved = k.moved.items;
      sectors = k.sectors;
    } };
}

impl Asked {
    fn is(&self, number: u64) -> bool
        ensures { result ≡ is_asked number self.now }
    {
        self.number == number
    }

    fn is_other(&self, number: u64) -> bool
        ensures { result ≡ is_other_request number self.now }
    {
        self.number != number
    }
}

impl Sent {
    fn is(&self, number: u128) -> bool
        ensures { result ≡ is_sent number self.now }
    {
        self.number == number
    }

    fn is_other(&self, number: u128) -> bool
        ensures { result ≡ is_other_piece number self.now }
    {
        self.number != number
    }
}

impl Moved {
    fn is_of_other(&self, number: u64) -> bool
        ensures { result ≡ is_of_other number self.now }
    {
        self.owner != number
    }
}

/// Whether these are the same bytes, where both are told.
fn agrees(a: &[u8], b: &[u8]) -> bool
    ensures { result ≡ agrees a.now b.now }
{
    a.is_empty() || b.is_empty() || a == b
}

/// The bytes from one place on to another, as far as they are there.
fn part(bytes: &[u8], from: u128, to: u128) -> &[u8]
    ensures { result.now ≡ slice_range bytes.now from to }
{
    let count = bytes.len() as u128;
    let to = to.min(count);
    let from = from.min(to);
    &bytes[from as usize..to as usize]
}

/// The bytes of a request that begin at this byte of the disk, so many; the request begins at `base`.
fn part_at(base: u128, bytes: &[u8], from: u128, count: u128) -> &[u8]
    requires near { from ≤ 2 ^ 97 }
    requires few { count ≤ 2 ^ 96 }
    ensures { result.now ≡ part_at base bytes.now from count }
{
    let from = from.saturating_sub(base);
    part(bytes, from, from + count)
}

/// The bytes of sector `k` of some.
fn sector_in(size: u32, k: u64, bytes: &[u8]) -> &[u8]
    ensures { result.now ≡ sector_in size k bytes.now }
{
    let from = k as u128 * size as u128;
    part(bytes, from, from + size as u128)
}

/// What is known of a sector of the disk.
fn sector_at(sectors: &Sectors, number: u128) -> &[u8]
    ensures { result.now ≡ slice_index_or sectors.now number [] }
{
    if number < sectors.len() as u128 {
        sectors.at(number as u64)
    } else {
        &[]
    }
}

/// Where a partition begins, in sectors of the disk.
fn first_of(partitions: &[Extent], partition: Option<u8>) -> u64
    ensures { result ≡ first_of partitions.now partition }
{
    let Some(partition) = partition else {
        return 0;
    };
    match partitions.get(partition as usize) {
        Some(extent) => extent.first,
        None => 0,
    }
}

/// A transfer in its form of ten bytes.
fn ten_at(kind: Kind, block: &[u8]) -> Option<(Kind, Extent)>
    ensures { result ≡ ten_at kind block.now }
{
    if block.len() < 10 {
        return None;
    }
    let first = BigEndian::read_u32(&block[2..]) as u64;
    let count = BigEndian::read_u16(&block[7..]) as u64;
    Some((kind, Extent { first, count }))
}

/// A transfer in its form of sixteen bytes.
fn sixteen_at(kind: Kind, block: &[u8]) -> Option<(Kind, Extent)>
    ensures { result ≡ sixteen_at kind block.now }
{
    if block.len() < 16 {
        return None;
    }
    let first = BigEndian::read_u64(&block[2..]);
    let count = BigEndian::read_u32(&block[10..]) as u64;
    Some((kind, Extent { first, count }))
}

fn by_code(code: u8, block: &[u8]) -> Option<(Kind, Extent)>
    ensures { result ≡ by_code code block.now }
{
    match code {
        0x28 => ten_at(Kind::Read, block),
        0x2A => ten_at(Kind::Write, block),
        0x88 => sixteen_at(Kind::Read, block),
        0x8A => sixteen_at(Kind::Write, block),
        _ => None,
    }
}

/// The kind and the sectors of a transfer, by its command block.
fn transfer_in(block: &[u8]) -> Option<(Kind, Extent)>
    ensures { result ≡ transfer_in block.now }
{
    by_code(*block.first()?, block)
}

impl Known {
    /// Nothing is open, and the sectors are known.
    pub fn new(alloc: Global, size: u32, partitions: Vec<Extent>, sectors: Sectors) -> Known
        ensures { result ≡ record { size = size; partitions = partitions.items; asked = []; sent = []; moved = []; sectors = sectors } }
    {
        Known {
            alloc,
            size,
            partitions,
            asked: Vec::new(alloc),
            sent: Vec::new(alloc),
            moved: Vec::new(alloc),
            sectors,
        }
    }

    /// The open request of this number, as its call told it.
    pub fn asked_at(&self, number: u64) -> Option<&Asked>
        ensures { option_copied result ≡ find (is_asked number) self.now.asked }
    {
        self.asked.iter().find(|asked| asked.is(number))
    }

    /// The transfer of this number that is out, lent.
    fn lent_at(&self, number: u128) -> Option<&Sent>
        ensures { option_copied result ≡ find (is_sent number) self.now.sent }
    {
        self.sent.iter().find(|piece| piece.is(number))
    }

    /// The transfer of this number that is out, as its start told it.
    pub fn sent_at(&self, number: u128) -> Option<Sent>
        ensures { result ≡ find (is_sent number) self.now.sent }
    {
        match self.lent_at(number) {
            Some(piece) => Some(*piece),
            None => None,
        }
    }

    /// How many bytes the act of a piece has.
    pub(crate) fn bytes_of(&self, number: u128) -> u128
        ensures { result ≡ bytes_of self.now (find (is_sent number) self.now.sent) }
    {
        match self.sent_at(number) {
            Some(piece) => piece.extent.count as u128 * self.size as u128,
            None => 0,
        }
    }

    /// What is known of a sector of the disk: its bytes, or none.
    pub fn sector(&self, number: u128) -> &[u8]
        ensures { result.now ≡ slice_index_or self.now.sectors number [] }
    {
        sector_at(&self.sectors, number)
    }

    /// What the call of a piece has told of its bytes, where its start names the call.
    pub fn due(&self, piece: Sent) -> &[u8]
        ensures { result.now ≡ due self.now piece }
    {
        let Some(owner) = piece.owner else {
            return &[];
        };
        let Some(asked) = self.asked_at(owner) else {
            return &[];
        };
        let size = self.size as u128;
        let from = piece.extent.first as u128 * size;
        let count = piece.extent.count as u128 * size;
        part_at(asked.base, asked.bytes.as_slice(), from, count)
    }

    /// Whether these bytes of sector `k` are not otherwise than what is known.
    fn is_like(&self, extent: Extent, bytes: &[u8], k: u64) -> bool
        ensures { result ≡ is_like self.now extent bytes.now k }
    {
        let known = sector_at(&self.sectors, extent.first as u128 + k as u128);
        agrees(known, sector_in(self.size, k, bytes))
    }

    /// The first of these sectors of which something else is known.
    fn unlike(&self, extent: Extent, bytes: &[u8]) -> Option<u128>
        ensures { result ≡ unlike self.now extent bytes.now }
    {
        for k in 0..extent.count {
            if !self.is_like(extent, bytes, k) {
                return Some(extent.first as u128 + k as u128);
            }
        }
        None
    }

    /// Whether a piece of a request has read other bytes than an answer with these.
    fn is_denied(&self, asked: &Asked, bytes: &[u8], moved: &Moved) -> bool
        ensures { result ≡ is_denied self.now asked.now bytes.now moved.now }
    {
        let first = moved.first as u128 + moved.place as u128;
        let from = first * self.size as u128;
        let count = moved.bytes.len() as u128;
        moved.owner == asked.number
            && !agrees(
                part_at(asked.base, bytes, from, count),
                moved.bytes.as_slice(),
            )
    }

    /// The first bytes that a piece read of a request otherwise than an answer with these.
    pub fn denying(&self, asked: &Asked, bytes: &[u8]) -> Option<&Moved>
        ensures { option_copied result ≡ find (is_denied self.now asked.now bytes.now) self.now.moved }
    {
        self.moved
            .iter()
            .find(|moved| self.is_denied(asked, bytes, moved))
    }

    fn act_rule(&self, bytes: &[u8], piece: Sent) -> Option<ByteRule>
        ensures { result ≡ act_rule_of self.now bytes.now piece piece.kind }
    {
        let number = piece.number;
        match piece.kind {
            Kind::Read => {
                let sector = self.unlike(piece.extent, bytes)?;
                Some(ByteRule::Sector {
                    piece: number,
                    sector,
                })
            }
            Kind::Write => {
                if agrees(self.due(piece), bytes) {
                    return None;
                }
                Some(ByteRule::Call { piece: number })
            }
            Kind::Flush => None,
        }
    }

    fn answer_rule(&self, number: u64, bytes: &[u8]) -> Option<ByteRule>
        ensures { result ≡ answer_rule self.now bytes.now (find (is_asked number) self.now.asked) }
    {
        let asked = self.asked_at(number)?;
        let piece = self.denying(asked, bytes)?.piece;
        Some(ByteRule::Act { piece })
    }

    /// Why the bytes of a label can't be, by what was told before.
    pub fn broken(&self, label: &Label) -> Option<ByteRule>
        ensures { result ≡ byte_rule self.now label.now }
    {
        match label {
            Label::Device(DeviceLabel::Act { piece, bytes }) => {
                let piece = self.sent_at(*piece)?;
                self.act_rule(bytes.as_slice(), piece)
            }
            Label::Answer { number, bytes, .. } => self.answer_rule(*number, bytes.as_slice()),
            _ => None,
        }
    }
}

/// A copy of these bytes.
fn copied(alloc: Global, bytes: &[u8]) -> Result<Bytes, AllocError>
    ensures { IfOk result (λ copy. copy ≡ bytes.now) }
{
    Ok(Bytes::new(Vec::from_slice(alloc, bytes)?))
}

/// What is known of sector `k` of a read's piece.
fn held_at(
    alloc: Global,
    sectors: &Sectors,
    owner: u64,
    piece: Sent,
    k: u64,
) -> Result<Moved, AllocError>
    ensures { IfOk result (λ held. held ≡ held_at sectors.now owner piece k) }
{
    let first = piece.extent.first;
    let bytes = copied(alloc, sector_at(sectors, first as u128 + k as u128))?;
    Ok(Moved {
        owner,
        piece: piece.number,
        first,
        place: k,
        bytes,
    })
}

/// Adds what is known of each sector of a read's piece.
fn add_held(
    alloc: Global,
    moved: &mut Vec<Moved>,
    sectors: &Sectors,
    owner: u64,
    piece: Sent,
) -> Result<(), AllocError>
    ensures { OnOk result (moved.new.items ≡ moved.old.items ++ held_below sectors.now owner piece piece.extent.count) }
{
    for k in 0..piece.extent.count {
        moved.push(held_at(alloc, sectors, owner, piece, k)?)?;
    }
    Ok(())
}

fn remove_request(asked: &mut Vec<Asked>, number: u64)
    ensures { asked.new.items ≡ filter (is_other_request number) asked.old.items }
{
    asked.retain(|other| other.is_other(number));
}

fn remove_moved(moved: &mut Vec<Moved>, number: u64)
    ensures { moved.new.items ≡ filter (is_of_other number) moved.old.items }
{
    moved.retain(|other| other.is_of_other(number));
}

fn remove_piece(sent: &mut Vec<Sent>, number: u128)
    ensures { sent.new.items ≡ filter (is_other_piece number) sent.old.items }
{
    sent.retain(|other| other.is_other(number));
}

impl Known {
    /// Notes a call.
    fn ask(&mut self, number: u64, request: &ClientRequest) -> Result<(), AllocError>
        ensures { OnOk result (self.new ≡ with_asked self.old number request.now) }
    {
        let first = first_of(self.partitions.as_slice(), request.partition);
        let base = first as u128 * self.size as u128 + request.offset as u128;
        let bytes = copied(self.alloc, request.bytes.as_slice())?;
        self.asked.push(Asked {
            number,
            base,
            kind: request.kind,
            bytes,
        })?;
        Ok(())
    }

    /// Notes a start.
    fn send(&mut self, number: u128, owner: Option<u64>, block: &[u8]) -> Result<(), AllocError>
        ensures { OnOk result (self.new ≡ with_sent self.old number owner (transfer_in block.now)) }
    {
        let Some((kind, extent)) = transfer_in(block) else {
            return Ok(());
        };
        self.sent.push(Sent {
            number,
            owner,
            kind,
            extent,
        })?;
        Ok(())
    }

    /// Puts these bytes into sectors; where there are none nothing is known of them.
    fn put(&mut self, extent: Extent, bytes: &[u8]) -> Result<(), AllocError>
        ensures { OnOk result (self.new ≡ with_sectors self.old extent bytes.now) }
    {
        let sectors = chunked(self.alloc, extent.count, self.size, bytes)?;
        self.sectors.write(extent.first as u128, sectors)
    }

    /// The bytes that a write put there.
    fn put_by(&self, piece: Sent, bytes: &[u8]) -> Result<Bytes, AllocError>
        ensures { IfOk result (λ put. put ≡ put_by self.now piece bytes.now) }
    {
        if bytes.is_empty() {
            copied(self.alloc, self.due(piece))
        } else {
            copied(self.alloc, bytes)
        }
    }

    /// Notes what a piece read, where its start names a request.
    fn note(&mut self, piece: Sent, bytes: &[u8]) -> Result<(), AllocError>
        ensures { OnOk result (self.new ≡ with_moved self.old piece bytes.now piece.owner) }
    {
        let Some(owner) = piece.owner else {
            return Ok(());
        };
        let bytes = copied(self.alloc, bytes)?;
        self.moved.push(Moved {
            owner,
            piece: piece.number,
            first: piece.extent.first,
            place: 0,
            bytes,
        })?;
        Ok(())
    }

    /// Notes what is known of each sector of a piece, where its start names a request.
    fn note_held(&mut self, piece: Sent) -> Result<(), AllocError>
        ensures { OnOk result (self.new ≡ with_held self.old piece piece.owner) }
    {
        let Some(owner) = piece.owner else {
            return Ok(());
        };
        add_held(self.alloc, &mut self.moved, &self.sectors, owner, piece)
    }

    /// Notes the act of a read.
    fn note_read(&mut self, piece: Sent, bytes: &[u8]) -> Result<(), AllocError>
        ensures { OnOk result (self.new ≡ with_read self.old piece bytes.now) }
    {
        if bytes.is_empty() {
            return self.note_held(piece);
        }
        self.put(piece.extent, bytes)?;
        self.note(piece, bytes)
    }

    /// Notes the act of a piece that is out.
    fn act_by(&mut self, piece: Sent, bytes: &[u8]) -> Result<(), AllocError>
        ensures { OnOk result (self.new ≡ acted_by self.old bytes.now piece piece.kind) }
    {
        match piece.kind {
            Kind::Read => self.note_read(piece, bytes),
            Kind::Write => {
                let put = self.put_by(piece, bytes)?;
                self.put(piece.extent, put.as_slice())
            }
            Kind::Flush => Ok(()),
        }
    }

    /// Notes an act.
    fn act(&mut self, number: u128, bytes: &[u8]) -> Result<(), AllocError>
        ensures { OnOk result (self.new ≡ acted self.old bytes.now (find (is_sent number) self.old.sent)) }
    {
        match self.sent_at(number) {
            Some(piece) => self.act_by(piece, bytes),
            None => Ok(()),
        }
    }

    /// Notes an answer.
    fn end(&mut self, number: u64)
        ensures { self.new ≡ without_request self.old number }
    {
        remove_request(&mut self.asked, number);
        remove_moved(&mut self.moved, number);
    }

    /// Notes that a piece is back.
    fn take(&mut self, number: u128)
        ensures { self.new ≡ without_piece self.old number }
    {
        remove_piece(&mut self.sent, number);
    }

    fn learn_device(&mut self, owner: Option<u64>, label: &DeviceLabel) -> Result<(), AllocError>
        ensures { OnOk result (self.new ≡ after_device self.old owner label.now) }
    {
        match label {
            DeviceLabel::Start { piece, block, .. } => self.send(*piece, owner, block.as_slice()),
            DeviceLabel::Act { piece, bytes } => self.act(*piece, bytes.as_slice()),
            DeviceLabel::Fault { .. } => Ok(()),
            DeviceLabel::Return { piece, .. } => {
                self.take(*piece);
                Ok(())
            }
        }
    }

    fn learn_label(&mut self, owner: Option<u64>, label: &Label) -> Result<(), AllocError>
        ensures { OnOk result (self.new ≡ after_label self.old owner label.now) }
    {
        match label {
            Label::Call { number, request } => self.ask(*number, request),
            Label::Device(label) => self.learn_device(owner, label),
            Label::Answer { number, .. } => {
                self.end(*number);
                Ok(())
            }
            _ => Ok(()),
        }
    }

    /// Notes what a line tells.
    pub fn learn(&mut self, line: &Line) -> Result<(), AllocError>
        ensures { OnOk result (self.new ≡ after_line self.old line.now) }
    {
        self.learn_label(line.owner, &line.label)
    }
}
