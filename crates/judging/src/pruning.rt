//! The labels of a trace, of which some are dropped.

ghost use Rattle.std.specs.Prelude.{IfOk, IfSome};
ghost use Rattle.judging.specs.inside.Cut.{IsCut};

use crate::Error;
use crate::course::Course;
use crate::cutting::{Goal, Remnant};
use crate::past::{first_of, piece_at};
use crate::renumbering::Renumbering;
use crate::told::{Told, told_by};
use machine::Label;
use srb::DeviceLabel;
use std::alloc::{AllocError, Global};
use std::collections::BTreeMap;

/// How many times a trace is judged, at most.
const MOST: u64 = 1000;

/// A label's line, by its words.
#[derive(Clone, Copy)]
pub(crate) struct Item<'a> {
    pub line: &'a str,
    pub verb: &'a str,
    /// Its first number: that of a request or of a piece; 0 where there is none.
    pub number: u128,
    /// What stands behind the number.
    pub rest: &'a str,
    /// The request that it is of, if this is known.
    request: Option<u128>,
    /// How many calls and starts there are up to it.
    pub calls: u128,
    pub starts: u128,
    /// Whether it is a start on the lowest tag that was free.
    pub lowest: bool,
    /// Whether it is dropped.
    pub dropped: bool,
}

/// What is dropped at once.
#[derive(Clone, Copy)]
enum Unit {
    Request,
    Piece,
    Label,
}

/// The labels of a trace up to one that is refused.
#[derive(Drop)]
pub(crate) struct Pruning<'a> {
    items: Vec<Item<'a>>,
    /// How many times more the trace may be judged.
    left: u64,
}

/// Parts a text at its first space.
pub(crate) fn parted(text: &str) -> (&str, &str) {
    match text.split_once(' ') {
        Some(parts) => parts,
        None => (text, ""),
    }
}

/// The piece whose start is told.
fn started(told: &Told) -> Option<u128> {
    match told {
        Told::Line(told) => match &told.line.label {
            Label::Device(DeviceLabel::Start { piece, .. }) => Some(*piece),
            _ => None,
        },
        _ => None,
    }
}

/// The request of a piece, in the first reading of the lines so far.
fn owner_of(course: &Course, piece: Option<u128>) -> Option<u64> {
    match course {
        Course::Legal(trial) => {
            let machine = first_of(&trial.judge)?;
            Some(piece_at(machine, piece?)?.owner())
        }
        Course::Refused(_) => None,
    }
}

/// The request of each piece that a text starts before its line of this number.
fn owners_of(goal: Goal<'_>, text: &str, last: u64) -> Result<BTreeMap<u128, u64>, Error> {
    let alloc = goal.alloc;
    let mut owners = BTreeMap::new(alloc);
    let mut said = Vec::new(alloc);
    let mut course = Course::opening(alloc, goal.standard)?;
    let mut number: u64 = 0;
    for line in text.lines() {
        number = number.saturating_add(1);
        if number >= last {
            break;
        }
        let told = told_by(alloc, line.as_bytes())?;
        let piece = started(&told);
        course = course.after(alloc, told, number, &mut said)?;
        if let (Some(piece), Some(owner)) = (piece, owner_of(&course, piece)) {
            owners.insert(piece, owner)?;
        }
    }
    Ok(owners)
}

/// The number that a text is; 0 where it is none.
pub(crate) fn number_of(text: &str) -> u128 {
    text.parse::<u128>().unwrap_or(0)
}

impl<'a> Item<'a> {
    /// The item of a line, behind so many calls and starts.
    fn of(line: &'a str, calls: u128, starts: u128) -> Item<'a> {
        let (verb, behind) = parted(line);
        let (number, rest) = parted(behind);
        Item {
            line,
            verb,
            number: number_of(number),
            rest,
            request: None,
            calls: calls.saturating_add(if verb == "call" { 1 } else { 0 }),
            starts: starts.saturating_add(if verb == "start" { 1 } else { 0 }),
            lowest: false,
            dropped: false,
        }
    }

    /// Whether its number is that of a request.
    fn is_of_request(&self) -> bool {
        matches!(self.verb, "call" | "answer" | "cancel")
    }

    /// Whether its number is that of a piece.
    fn is_of_piece(&self) -> bool {
        matches!(self.verb, "start" | "act" | "fault" | "return")
    }

    /// The request that it is of.
    fn owned(mut self, owners: &BTreeMap<u128, u64>) -> Item<'a> {
        if self.is_of_request() {
            self.request = Some(self.number);
        }
        if self.is_of_piece() {
            if let Some(owner) = owners.get(&self.number) {
                self.request = Some(*owner as u128);
            }
        }
        self
    }
}

/// The tag of a start, which stands behind a word.
pub(crate) fn tag_of(item: &Item<'_>) -> u128 {
    let (_, behind) = parted(item.rest);
    let (tag, _) = parted(behind);
    number_of(tag)
}

/// The tags of the pieces that are out.
#[derive(Drop)]
pub(crate) struct OnTags {
    /// Each with its piece.
    out: Vec<(u128, u128)>,
}

impl OnTags {
    pub fn new(alloc: Global) -> OnTags {
        OnTags {
            out: Vec::new(alloc),
        }
    }

    pub fn put(&mut self, piece: u128, tag: u128) -> Result<(), AllocError> {
        self.out.push((piece, tag))?;
        Ok(())
    }

    pub fn take(&mut self, piece: u128) {
        self.out.retain(|(other, _)| *other != piece);
    }

    fn has(&self, tag: u128) -> bool {
        self.out.iter().any(|(_, other)| *other == tag)
    }

    /// The lowest tag that is free.
    pub fn lowest(&self) -> u128 {
        for tag in 0..256_u32 {
            if !self.has(tag as u128) {
                return tag as u128;
            }
        }
        256
    }

    /// The tag of a piece.
    pub fn tag(&self, piece: u128) -> Option<u128> {
        let (_, tag) = self.out.iter().find(|(other, _)| *other == piece)?;
        Some(*tag)
    }

    /// The piece on a tag.
    pub fn piece(&self, tag: u128) -> Option<u128> {
        let (piece, _) = self.out.iter().find(|(_, other)| *other == tag)?;
        Some(*piece)
    }

    /// Notes a label, and says whether it is a start on the lowest tag that was free.
    fn note(&mut self, item: &Item<'_>) -> Result<bool, AllocError> {
        if item.verb == "return" {
            self.take(item.number);
        }
        if item.verb != "start" {
            return Ok(false);
        }
        let tag = tag_of(item);
        let lowest = self.lowest();
        self.put(item.number, tag)?;
        Ok(tag == lowest)
    }
}

/// A number of each label that is none of a request or of a piece.
const LABELS: u128 = 1 << 100;

/// The number of what a label is dropped with, unless it stays.
fn unit_of(item: &Item<'_>, last: &Item<'_>, index: usize, unit: Unit) -> Option<u128> {
    let single = LABELS.saturating_add(index as u128);
    match unit {
        Unit::Request if item.request.is_none() => Some(single),
        Unit::Request if item.request == last.request => None,
        Unit::Request => item.request,
        Unit::Piece if !item.is_of_piece() => None,
        Unit::Piece if last.is_of_piece() && item.number == last.number => None,
        Unit::Piece => Some(item.number),
        Unit::Label if matches!(item.verb, "call" | "start") => None,
        Unit::Label => Some(single),
    }
}

impl<'a> Pruning<'a> {
    /// The labels of a text up to its line of this number.
    pub fn of(goal: Goal<'_>, text: &'a str, last: u64) -> Result<Pruning<'a>, Error> {
        let owners = owners_of(goal, text, last)?;
        let mut items = Vec::new(goal.alloc);
        let mut on_tags = OnTags::new(goal.alloc);
        let (mut calls, mut starts) = (0, 0);
        for line in text.lines().take(last as usize) {
            if line.is_empty() || line.starts_with('#') {
                continue;
            }
            let mut item = Item::of(line, calls, starts).owned(&owners);
            item.lowest = on_tags.note(&item)?;
            (calls, starts) = (item.calls, item.starts);
            items.push(item)?;
        }
        Ok(Pruning { items, left: MOST })
    }

    /// The units of the labels that are left, and which of them each label is of.
    fn units(&self, goal: Goal<'_>, unit: Unit) -> Result<Vec<Option<u128>>, AllocError> {
        let mut units = Vec::new(goal.alloc);
        let Some(last) = self.items.last() else {
            return Ok(units);
        };
        for (index, item) in self.items.iter().enumerate() {
            let is_last = index.saturating_add(1) == self.items.len();
            let of = if is_last || item.dropped {
                None
            } else {
                unit_of(item, last, index, unit)
            };
            units.push(of)?;
        }
        Ok(units)
    }

    /// The text of the labels that are left, but for a part, where that breaks the rule that is sought.
    pub fn tried(&mut self, goal: Goal<'_>, but: Part<'_>) -> Result<Option<Remnant>, Error>
        ensures { IfOk result (λ found. IfSome found (IsCut goal.entry.standard.now goal.entry.sought)) }
    {
        if self.left == 0 {
            return Ok(None);
        }
        self.left = self.left.saturating_sub(1);
        let mut text = Vec::new(goal.alloc);
        let lines = self.write(goal, but, &mut text)?;
        goal.met_by(text, lines)
    }

    /// Writes the labels that are left, but for a part, and returns how many they are.
    fn write(&self, goal: Goal<'_>, but: Part<'_>, text: &mut Vec<u8>) -> Result<u64, AllocError> {
        let mut lines: u64 = 0;
        let mut numbers = Renumbering::new(goal.alloc, goal.standard.asked.any_tag);
        for (index, item) in self.items.iter().enumerate() {
            if item.dropped || but.has(index) {
                continue;
            }
            numbers.write(text, item)?;
            lines = lines.saturating_add(1);
        }
        Ok(lines)
    }

    /// Drops a part.
    fn drop_part(&mut self, part: Part<'_>) {
        for (index, item) in self.items.iter_mut().enumerate() {
            if part.has(index) {
                item.dropped = true;
            }
        }
    }

    /// What is left without requests, then without pieces, then without labels.
    pub fn shrunk(&mut self, goal: Goal<'_>, whole: Remnant) -> Result<Remnant, Error>
        requires { IsCut goal.standard.now goal.sought whole }
        ensures { IfOk result (IsCut goal.entry.standard.now goal.entry.sought) }
    {
        let few = self.without(goal, Unit::Request, whole)?;
        let fewer = self.without(goal, Unit::Piece, few)?;
        self.without(goal, Unit::Label, fewer)
    }

    /// What is left without some of these units: all of them are dropped, or a half, a quarter and so on down to one.
    fn without(&mut self, goal: Goal<'_>, unit: Unit, best: Remnant) -> Result<Remnant, Error>
        requires { IsCut goal.standard.now goal.sought best }
        ensures { IfOk result (IsCut goal.entry.standard.now goal.entry.sought) }
    {
        let mut least = best;
        for halving in 0..64_u32 {
            let size = self.items.len().checked_shr(halving).unwrap_or(0);
            if size == 0 {
                return Ok(least);
            }
            let chunks = self.chunks(goal, unit, size)?;
            least = self.passed(goal, chunks.as_slice(), least)?;
        }
        Ok(least)
    }

    /// What is left where each chunk was tried.
    fn passed(
        &mut self,
        goal: Goal<'_>,
        chunks: &[Option<usize>],
        best: Remnant,
    ) -> Result<Remnant, Error>
        requires { IsCut goal.standard.now goal.sought best }
        ensures { IfOk result (IsCut goal.entry.standard.now goal.entry.sought) }
    {
        let mut least = best;
        let count = chunk_count(chunks);
        for turn in 0..count {
            // The last first: what reads goes before what it reads.
            let chunk = count.saturating_sub(turn).saturating_sub(1);
            least = self.stepped(goal, Part { chunks, chunk }, least)?;
        }
        Ok(least)
    }

    /// What is left where one chunk was tried.
    fn stepped(&mut self, goal: Goal<'_>, part: Part<'_>, best: Remnant) -> Result<Remnant, Error>
        requires { IsCut goal.standard.now goal.sought best }
        ensures { IfOk result (IsCut goal.entry.standard.now goal.entry.sought) }
    {
        match self.tried(goal, part)? {
            Some(less) => {
                self.drop_part(part);
                Ok(less)
            }
            None => Ok(best),
        }
    }

    /// The chunk that each label is of, where so many units are one.
    fn chunks(
        &self,
        goal: Goal<'_>,
        unit: Unit,
        size: usize,
    ) -> Result<Vec<Option<usize>>, AllocError> {
        let mut ranks = BTreeMap::new(goal.alloc);
        let mut chunks = Vec::new(goal.alloc);
        for unit in self.units(goal, unit)?.as_slice() {
            let chunk = match unit {
                Some(unit) => rank_of(&mut ranks, *unit)?.checked_div(size),
                None => None,
            };
            chunks.push(chunk)?;
        }
        Ok(chunks)
    }
}

/// How many chunks there are.
fn chunk_count(chunks: &[Option<usize>]) -> usize {
    let mut count: usize = 0;
    for chunk in chunks {
        if let Some(chunk) = chunk {
            count = count.max(chunk.saturating_add(1));
        }
    }
    count
}

/// How many units come before this one.
fn rank_of(ranks: &mut BTreeMap<u128, usize>, unit: u128) -> Result<usize, AllocError> {
    if let Some(rank) = ranks.get(&unit) {
        return Ok(*rank);
    }
    let rank = ranks.len();
    ranks.insert(unit, rank)?;
    Ok(rank)
}

/// The labels of a chunk.
#[derive(Clone, Copy)]
pub(crate) struct Part<'b> {
    pub chunks: &'b [Option<usize>],
    pub chunk: usize,
}

impl Part<'_> {
    fn has(&self, index: usize) -> bool {
        self.chunks.get(index).copied() == Some(Some(self.chunk))
    }
}
