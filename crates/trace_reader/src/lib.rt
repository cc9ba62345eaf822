//! How the lines of a trace are read before they are judged, where tags or bytes of a trace are not the machine's.
//!
//! A recorder may not have the bytes of a call, an act or an answer. Where that is so in a trace, the machine is asked of
//! its lines with zeros for all bytes, and has to let a read bring any bytes. What was told of bytes is compared beside
//! it: the act of a write with its call, and an answer with the acts of its pieces, where the start names the request;
//! the act of a read with what was told last of each of its sectors. An act of a read that tells no bytes brought what
//! was known of its sectors. What nobody told is compared with nothing: a write that tells no bytes, neither in its call
//! nor in its act, leaves its sectors unknown until a line tells them.
//!
//! # Promises
//!
//! [`Reader::broken`] names a rule exactly where a line can't be read behind those before it (`exact`): its tag isn't
//! free, its bytes are otherwise than what was told, or they were not recorded though all have to be. [`Reader::read`]
//! gives the line that is judged (`given`).
#![tactic(auto)]

mod blank;
pub mod known;

ghost use Rattle.std.specs.Prelude.{◌≡◌, IfOk, MatchOption, OnOk};
ghost use Rattle.trace_tags.specs.Tags.{BreaksTagBy, HasFreeTagBy, read_line_by, tags_after};
ghost use Rattle.trace_reader.specs.Readers.{CanRead, CantRead, byte_rule_by, due_by, known_after, read_line, reader_after, told_rule};

use blank::blank_with;
use known::{ByteRule, Known};
use std::alloc::{AllocError, Global};
use std::fmt;
use trace_line::Line;
use trace_tags::{TagRule, Tags};

/// A line of a trace, as it was recorded.
#[derive(Debug, Drop)]
pub struct Recorded {
    pub line: Line,
    /// Whether its bytes were not recorded. The label then has none.
    pub untold: bool,
}

/// Why a line can't be read.
#[derive(Debug, Clone, Copy, PartialEq, Eq)]
pub enum ReadRule {
    Tag(TagRule),
    Bytes(ByteRule),
}

impl fmt::Display for ReadRule {
    ghost use Rattle.std.specs.Prelude.{Some};
    ghost use Rattle.trace_reader.specs.Readers.{read_text};

    ghost output = { λ rule. Some (read_text rule) };

    fn fmt<W: fmt::Write>(&self, f: &mut fmt::Formatter<W>) -> fmt::Result {
        match self {
            ReadRule::Tag(rule) => write!(f, "{rule}"),
            ReadRule::Bytes(rule) => write!(f, "{rule}"),
        }
    }
}

/// How the lines of a trace are read.
#[derive(Debug, Drop)]
pub struct Reader {
    /// The tags of the pieces that are out, where any free tag will do.
    pub tags: Option<Tags>,
    /// What is known of bytes, where some were not recorded.
    pub known: Option<Known>,
}

/// Why the tag of a line is not free, where any free one will do.
fn broken_tag(tags: &Option<Tags>, line: &Line) -> Option<TagRule>
    ensures { MatchOption result (HasFreeTagBy tags.now line.now) (BreaksTagBy tags.now line.now) }
{
    match tags {
        Some(tags) => tags.broken(line),
        None => None,
    }
}

/// Why bytes can't be missing, where all have to be recorded.
fn told_rule(untold: bool) -> Option<ByteRule>
    ensures { result ≡ told_rule untold }
{
    if untold { Some(ByteRule::Untold) } else { None }
}

/// Why the bytes of a line can't be.
fn broken_bytes(known: &Option<Known>, recorded: &Recorded) -> Option<ByteRule>
    ensures { result ≡ byte_rule_by known.now recorded.now }
{
    match known {
        Some(known) => known.broken(&recorded.line.label),
        None => told_rule(recorded.untold),
    }
}

/// How many bytes a line has where they were not recorded, if some of the trace were not.
fn due_by(known: &Option<Known>, recorded: &Recorded) -> Option<u128>
    ensures { result ≡ due_by known.now recorded.now }
{
    match known {
        Some(known) => Some(known.due_count(&recorded.line.label)),
        None => None,
    }
}

/// Notes what a line tells of bytes, where some of the trace were not recorded.
fn learn(known: &mut Option<Known>, recorded: &Recorded) -> Result<(), AllocError>
    ensures { OnOk result (known.new ≡ known_after known.old recorded.now) }
{
    match known {
        Some(known) => known.learn(&recorded.line),
        None => Ok(()),
    }
}

/// Returns a line with the tag that is given to it, and notes that, where any free tag will do.
fn tagged(tags: &mut Option<Tags>, line: Line) -> Result<Line, AllocError>
    ensures told { IfOk result (λ told. told ≡ read_line_by tags.old line) }
    ensures after { OnOk result (tags.new ≡ tags_after tags.old line) }
{
    match tags {
        Some(tags) => tags.read(line),
        None => Ok(line),
    }
}

impl Reader {
    /// Why a line can't be read, and nothing exactly where it can.
    pub fn broken(&self, recorded: &Recorded) -> Option<ReadRule>
        ensures exact { MatchOption result (CanRead self.now recorded.now) (CantRead self.now recorded.now) }
    {
        if let Some(rule) = broken_tag(&self.tags, &recorded.line) {
            return Some(ReadRule::Tag(rule));
        }
        let rule = broken_bytes(&self.known, recorded)?;
        Some(ReadRule::Bytes(rule))
    }

    /// Returns the line that is judged, and notes what it tells.
    ///
    /// # Errors
    ///
    /// [`AllocError`] where memory was refused.
    pub fn read(&mut self, alloc: Global, recorded: Recorded) -> Result<Line, AllocError>
        ensures given { IfOk result (λ line. line ≡ read_line self.old recorded) }
        ensures noted { OnOk result (self.new ≡ reader_after self.old recorded) }
    {
        let due = due_by(&self.known, &recorded);
        learn(&mut self.known, &recorded)?;
        let line = blank_with(alloc, due, recorded)?;
        tagged(&mut self.tags, line)
    }
}
