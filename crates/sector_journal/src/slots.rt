//! The pieces that may act, by their tags.

ghost use Rattle.std.specs.Prelude.{◌≡◌, ◌≤◌, ◌<◌, None, Some, IfOk, MatchOption, length, replicate, slice_set};
ghost use Rattle.std.specs.Bool.{Decides};
ghost use Rattle.std.specs.Option.{option_copied};
ghost use Rattle.sector_journal.specs.Slots.{HasNone, IsFree, Takes, armed_at, armed_count, armed_with, one_if_long};

use srb::Srb;
use std::alloc::{AllocError, Global};
use std::marker::Model;

/// A piece that may act, with the journal's own copy of its SRB.
#[derive(Debug, Drop)]
pub struct Armed {
    /// The number of its arming among all, from 0.
    pub number: u64,
    pub tag: u8,
    pub piece: u128,
    pub srb: Srb,
}

/// For each tag the piece that may act. Nothing but `new` takes memory.
#[derive(Drop)]
pub(crate) struct Slots {
    tags: Vec<Option<Armed>>,
    armed: usize,
}

impl Model for Slots {
    ghost use Rattle.std.specs.Prelude.{◌≡◌, ◌≤◌, List, Option, vec_len};
    ghost use Rattle.sector_journal.specs.declared.slots.Armed.{Armed};
    ghost use Rattle.sector_journal.specs.Slots.{armed_count};

    ghost Value = { List (Option Armed) };

    ghost view = { λ s. s.tags.items };

    ghost invariant = { λ s. record { few : vec_len s.tags ≤ 255; counted : s.armed ≡ armed_count s.tags.items } };
}

impl Slots {
    /// Slots with no piece that may act.
    pub fn new(alloc: Global, depth: u8) -> Result<Slots, AllocError>
        ensures { IfOk result (λ s. s ≡ replicate depth None) }
    {
        let mut tags = Vec::with_capacity(alloc, depth as usize)?;
        for _ in 0..depth {
            tags.push_reserved(None);
        }
        Ok(Slots { tags, armed: 0 })
    }

    pub fn depth(&self) -> u8
        ensures { result ≡ length self.now }
    {
        self.tags.len() as u8
    }

    /// Returns how many pieces may act.
    pub fn armed(&self) -> usize
        ensures { result ≡ armed_count self.now }
    {
        self.armed
    }

    /// Returns how many pieces with this many bytes may act.
    pub fn armed_with(&self, length: usize) -> usize
        ensures { result ≡ armed_with self.now length }
    {
        count_long(self.tags.as_slice(), length)
    }

    /// Whether there is such a tag, and no piece may act on it.
    pub fn is_free(&self, tag: u8) -> bool
        ensures { Decides result (IsFree self.now tag) }
    {
        matches!(self.tags.get(tag as usize), Some(None))
    }

    pub fn get(&self, tag: u8) -> Option<&Armed>
        ensures { option_copied result ≡ armed_at self.now tag }
    {
        match self.tags.get(tag as usize) {
            Some(Some(armed)) => Some(armed),
            _ => None,
        }
    }

    /// Lets a piece act on a free tag.
    pub fn put(&mut self, armed: Armed)
        requires { IsFree self.old armed.tag }
        ensures { self.new ≡ slice_set self.old armed.tag (Some armed) }
    {
        let at = armed.tag as usize;
        self.tags[at] = Some(armed);
        self.armed += 1;
    }

    /// Takes the piece off a tag.
    pub fn clear(&mut self, tag: u8) -> Option<Armed>
        ensures piece { result ≡ armed_at self.old tag }
        ensures after { self.new ≡ slice_set self.old tag None }
    {
        let at = tag as usize;
        if at >= self.tags.len() {
            return None;
        }
        let armed = self.tags[at].take()?;
        self.armed -= 1;
        Some(armed)
    }

    /// Takes the piece off a tag, if it is this one.
    pub fn take(&mut self, tag: u8, piece: u128) -> Option<Armed>
        ensures { MatchOption result (HasNone self.old tag piece × (self.new ≡ self.old)) (λ armed. Takes self.old tag piece armed self.new) }
    {
        match self.get(tag) {
            Some(armed) if armed.piece == piece => self.clear(tag),
            _ => None,
        }
    }
}

fn count_long(slots: &[Option<Armed>], length: usize) -> usize
    ensures { result ≡ armed_with slots.now length }
{
    let mut count = 0;
    for slot in slots {
        count += one_if_long(slot, length);
    }
    count
}

/// One where a piece of this many bytes may act, else none.
fn one_if_long(slot: &Option<Armed>, length: usize) -> usize
    ensures { result ≡ one_if_long length slot.now }
{
    match slot {
        Some(armed) if armed.srb.data.len() == length => 1,
        _ => 0,
    }
}
