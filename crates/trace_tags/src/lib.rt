//! The tags of a trace where any free tag will do.
//!
//! The sector machine puts each piece on the lowest free tag. A trace of a stack that picks its tags otherwise is read
//! with other tags in their place.
//!
//! # Promises
//!
//! [`Tags::read`] gives the start of a line the lowest tag that was given to no piece that is out (`given`), and leaves
//! all else of the line. [`Tags::broken`] names a rule exactly where the line's own tag was not free (`exact`).
#![tactic(auto)]

ghost use Rattle.std.specs.Prelude.{◌≡◌, [], IfOk, MatchOption, OnOk, filter};
ghost use Rattle.std.specs.Option.{option_copied};
ghost use Rattle.std.specs.List.{find, list_any};
ghost use Rattle.trace_tags.specs.Tags.{BreaksTag, HasFreeTag, after_device, after_label, after_line, has_tag, is_given, is_other, lowest_from, read_device, read_label, read_line, tag_for, tag_rule, with_piece, without_piece};

use machine::Label;
use srb::DeviceLabel;
use std::alloc::{AllocError, Global};
use std::fmt;
use std::marker::Model;
use trace_line::Line;

/// A piece that is out, as its start told it.
#[derive(Debug, Clone, Copy)]
pub struct OnTag {
    /// The number of the piece.
    pub piece: u128,
    /// The tag that the trace tells.
    pub told: u8,
    /// The tag that was given to it.
    pub given: u8,
}

impl OnTag {
    fn has_tag(&self, tag: u8) -> bool
        ensures { result ≡ has_tag tag self.now }
    {
        self.told == tag
    }

    fn is_other(&self, piece: u128) -> bool
        ensures { result ≡ is_other piece self.now }
    {
        self.piece != piece
    }

    fn is_given(&self, tag: u8) -> bool
        ensures { result ≡ is_given tag self.now }
    {
        self.given == tag
    }
}

/// What is asked of a tag.
#[derive(Debug, Clone, Copy, PartialEq, Eq)]
pub enum TagRule {
    /// The adapter has fewer tags.
    Depth { tag: u8, depth: u32 },
    InUse { tag: u8, piece: u128 },
}

impl fmt::Display for TagRule {
    ghost use Rattle.std.specs.Prelude.{Some};
    ghost use Rattle.trace_tags.specs.Tags.{tag_text};

    ghost output = { λ rule. Some (tag_text rule) };

    fn fmt<W: fmt::Write>(&self, f: &mut fmt::Formatter<W>) -> fmt::Result {
        match self {
            TagRule::Depth { tag, depth } => {
                write!(f, "there is no tag {tag}: the adapter has {depth}")
            }
            TagRule::InUse { tag, piece } => write!(f, "piece {piece} is on tag {tag}"),
        }
    }
}

/// The tags of the pieces that are out.
#[derive(Debug, Drop)]
pub struct Tags {
    depth: u32,
    out: Vec<OnTag>,
}

impl Model for Tags {
    ghost use Rattle.trace_tags.specs.Tags.{TagsView};

    ghost Value = { TagsView };

    ghost view = { λ t. record { depth = t.depth; out = t.out.items } };
}

/// Whether one of the pieces was given this tag.
fn is_taken(out: &[OnTag], tag: u8) -> bool
    ensures { result ≡ list_any (is_given tag) out.now }
{
    out.iter().any(|piece| piece.is_given(tag))
}

/// The lowest tag that none of the pieces was given.
fn lowest(out: &[OnTag]) -> Option<u8>
    ensures { result ≡ lowest_from out.now 0 256 }
{
    for tag in 0..256_u32 {
        if !is_taken(out, tag as u8) {
            return Some(tag as u8);
        }
    }
    None
}

/// The piece whose own tag this is.
fn on_tag(out: &[OnTag], tag: u8) -> Option<&OnTag>
    ensures { option_copied result ≡ find (has_tag tag) out.now }
{
    out.iter().find(|piece| piece.has_tag(tag))
}

/// Takes the piece of this number out.
fn remove_piece(out: &mut Vec<OnTag>, piece: u128)
    ensures { out.new.items ≡ filter (is_other piece) out.old.items }
{
    out.retain(|other| other.is_other(piece));
}

impl Tags {
    /// The tags of an adapter that has so many, with no piece out.
    pub fn new(alloc: Global, depth: u32) -> Tags
        ensures { result ≡ record { depth = depth; out = [] } }
    {
        Tags {
            depth,
            out: Vec::new(alloc),
        }
    }

    /// Why a tag is not free.
    fn broken_tag(&self, tag: u8) -> Option<TagRule>
        ensures { result ≡ tag_rule self.now tag }
    {
        let depth = self.depth;
        if tag as u32 >= depth {
            return Some(TagRule::Depth { tag, depth });
        }
        let piece = on_tag(self.out.as_slice(), tag)?.piece;
        Some(TagRule::InUse { tag, piece })
    }

    /// Returns why the tag of a line's start is not free, and nothing exactly where it is, or the line is no start.
    #[tactic(auto, using(crate::proofs::Freeing::decided))]
    pub fn broken(&self, line: &Line) -> Option<TagRule>
        ensures exact { MatchOption result (HasFreeTag self.now line.now.label) (BreaksTag self.now line.now.label) }
    {
        match &line.label {
            Label::Device(DeviceLabel::Start { tag, .. }) => self.broken_tag(*tag),
            _ => None,
        }
    }

    /// Notes that a piece is out, and returns the tag that is given to it.
    fn put(&mut self, piece: u128, told: u8) -> Result<u8, AllocError>
        ensures given { IfOk result (λ given. given ≡ tag_for self.old told) }
        ensures put { OnOk result (self.new ≡ with_piece self.old piece told) }
    {
        let given = match lowest(self.out.as_slice()) {
            Some(tag) => tag,
            None => told,
        };
        self.out.push(OnTag { piece, told, given })?;
        Ok(given)
    }

    /// Notes that a piece is back.
    fn take(&mut self, piece: u128)
        ensures { self.new ≡ without_piece self.old piece }
    {
        remove_piece(&mut self.out, piece);
    }

    /// Returns the adapter's label as it is read: a start with the tag that is given to it.
    fn read_device(&mut self, label: DeviceLabel) -> Result<DeviceLabel, AllocError>
        ensures read { IfOk result (λ read. read ≡ read_device self.old label) }
        ensures tags { OnOk result (self.new ≡ after_device self.old label) }
    {
        match label {
            DeviceLabel::Start { piece, tag, block } => {
                let tag = self.put(piece, tag)?;
                Ok(DeviceLabel::Start { piece, tag, block })
            }
            DeviceLabel::Return { piece, class } => {
                self.take(piece);
                Ok(DeviceLabel::Return { piece, class })
            }
            label => Ok(label),
        }
    }

    /// Returns the label as it is read.
    fn read_label(&mut self, label: Label) -> Result<Label, AllocError>
        ensures read { IfOk result (λ read. read ≡ read_label self.old label) }
        ensures tags { OnOk result (self.new ≡ after_label self.old label) }
    {
        match label {
            Label::Device(label) => {
                let label = self.read_device(label)?;
                Ok(Label::Device(label))
            }
            label => Ok(label),
        }
    }

    /// Returns the line as it is read: a start has the tag that is given to it.
    ///
    /// # Errors
    ///
    /// [`AllocError`] where memory was refused.
    pub fn read(&mut self, line: Line) -> Result<Line, AllocError>
        ensures given { IfOk result (λ read. read ≡ read_line self.old line) }
        ensures tags { OnOk result (self.new ≡ after_line self.old line) }
    {
        let Line { label, owner } = line;
        let label = self.read_label(label)?;
        Ok(Line { label, owner })
    }
}
