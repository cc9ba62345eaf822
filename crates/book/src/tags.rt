//! What is armed on each tag.

ghost use Rattle.std.specs.Prelude.{◌≡◌, ◌<◌, ℕ, List, None, Some, IfOk, MatchBool, length, replicate, slice_set, true};
ghost use Rattle.sector_journal.specs.declared.slots.Armed.{Armed};
ghost use Rattle.book.specs.Arming.{Forgets, HoldsPiece, IsFreeOf, IsOfTag, claimed_at};
ghost use Rattle.book.specs.Staying.{HaveNoted, piece_of, piece_told};

use crate::arming::Arming;
use disk::Medium;
use machine::Label;
use sector_journal::{History, Journal, Naming};
use srb::DeviceLabel;
use std::alloc::{AllocError, Global};
use std::marker::Model;

/// For each tag the receipt of what was armed there. Nothing but `new` takes memory.
#[derive(Drop)]
pub struct Tags<N: Naming> {
    tags: Vec<Option<Arming<N>>>,
}

impl<N: Naming> Model for Tags<N> {
    ghost use Rattle.std.specs.Prelude.{List, Option, ℕ};
    ghost use Rattle.sector_journal.specs.declared.slots.Armed.{Armed};

    ghost Value = { List (Option (List (ℕ × Armed))) };

    ghost view = { λ t. t.tags.items };
}

/// Whether the entry of a number is of what was armed here.
fn is_of<M: Medium, N: Naming>(
    slot: &mut Option<Arming<N>>,
    journal: &mut Journal<M, N>,
    words: &History<N>,
    entry: u64,
) -> bool
    requires { entry < length journal.old.entered }
    ensures same { (slot.new ≡ slot.old) × (journal.new ≡ journal.old) }
    ensures of_this { result ≡ true → IsOfTag journal.old slot.old entry }
{
    match slot {
        Some(arming) => arming.is_of(journal, words, entry),
        None => false,
    }
}

/// Whether a piece was armed here.
fn holds<N: Naming>(slot: &Option<Arming<N>>, piece: u128) -> bool
    ensures { MatchBool result (HoldsPiece piece slot.now) (IsFreeOf piece slot.now) }
{
    match slot {
        Some(arming) => arming.is_of_piece(piece),
        None => false,
    }
}

/// Lets go of what was armed here for a piece.
fn forget_in<N: Naming>(slot: &mut Option<Arming<N>>, piece: u128)
    ensures { Forgets piece slot.old slot.new }
{
    if holds(slot, piece) {
        *slot = None;
    }
}

fn forget_all<N: Naming>(slots: &mut [Option<Arming<N>>], piece: u128)
    ensures as_many { length slots.new ≡ length slots.old }
    ensures each { (tag : ℕ) → tag < length slots.old → Forgets piece (claimed_at slots.old tag) (claimed_at slots.new tag) }
{
    for at in 0..slots.len() {
        forget_in(&mut slots[at], piece);
    }
}

/// The piece of which a label of the device tells that it acted, failed or came back.
fn piece_of(label: &DeviceLabel) -> Option<u128>
    ensures { result ≡ piece_of label.now }
{
    match label {
        DeviceLabel::Start { .. } => None,
        DeviceLabel::Act { piece, .. } => Some(*piece),
        DeviceLabel::Fault { piece } => Some(*piece),
        DeviceLabel::Return { piece, .. } => Some(*piece),
    }
}

fn piece_told(label: &Label) -> Option<u128>
    ensures { result ≡ piece_told label.now }
{
    match label {
        Label::Device(label) => piece_of(label),
        _ => None,
    }
}

impl<N: Naming> Tags<N> {
    /// Tags with nothing armed.
    ///
    /// # Errors
    ///
    /// Where the memory for the tags was refused.
    pub fn new(alloc: Global, depth: u8) -> Result<Tags<N>, AllocError>
        ensures { IfOk result (λ t. t ≡ replicate depth None) }
    {
        let mut tags = Vec::with_capacity(alloc, depth as usize)?;
        for _ in 0..depth {
            tags.push_reserved(None);
        }
        Ok(Tags { tags })
    }

    /// Notes that a piece was armed on a tag.
    pub fn put(&mut self, tag: u8, arming: Arming<N>)
        requires { tag < length self.old }
        ensures { self.new ≡ slice_set self.old tag (Some arming) }
    {
        let at = tag as usize;
        self.tags[at] = Some(arming);
    }

    /// Lets go of what was armed for a piece of which a label told.
    pub fn forget(&mut self, piece: u128)
        ensures as_many { length self.new ≡ length self.old }
        ensures each { (tag : ℕ) → tag < length self.old → Forgets piece (claimed_at self.old tag) (claimed_at self.new tag) }
    {
        forget_all(self.tags.as_mut_slice(), piece);
    }

    /// Notes a label. Where it tells that a piece acted, failed or came back, what was armed for it is let go.
    pub fn note(&mut self, label: &Label)
        ensures as_many { length self.new ≡ length self.old }
        ensures noted { HaveNoted label.now self.old self.new }
    {
        let Some(piece) = piece_told(label) else {
            return;
        };
        self.forget(piece);
    }

    /// Whether there is such a tag, and nothing was armed there. Contracts say so only of true.
    pub fn is_free(&self, tag: u8) -> bool
        ensures { result ≡ true → tag < length self.now }
    {
        matches!(self.tags.get(tag as usize), Some(None))
    }

    /// Whether the entry of a number is of what was armed on a tag; contracts say so only of true. The caller holds
    /// both locks.
    pub fn is_of<M: Medium>(
        &mut self,
        journal: &mut Journal<M, N>,
        words: &History<N>,
        tag: u8,
        entry: u64,
    ) -> bool
        requires { entry < length journal.old.entered }
        ensures same { (self.new ≡ self.old) × (journal.new ≡ journal.old) }
        ensures of_this { result ≡ true → IsOfTag journal.old (claimed_at self.old tag) entry }
    {
        let at = tag as usize;
        if at >= self.tags.len() {
            return false;
        }
        is_of(&mut self.tags[at], journal, words, entry)
    }
}
