//! What a line tells of a start.

ghost use Rattle.std.specs.Prelude.{Result};
ghost use Rattle.cdb.specs.Meaning.{Means};
ghost use Rattle.judge.specs.Judging.{line_of};
ghost use Rattle.judge.specs.LabelRuling.{IsReadAs, IsReadOf, IsToldBy};

use crate::broken_answers::difference;
use crate::start_rules::StartRule;
use cdb::{Cdb, CdbFault, decode, encode, one_meaning, one_spelling};
use machine::Label;
use srb::{CommandBlock, DeviceLabel};

/// What a line tells of a start, where its label is one.
#[derive(Clone, Copy)]
pub(crate) struct Told {
    /// What its block is read as.
    pub(crate) read: Result<Cdb, StartRule>,
    /// The number of the request that it names.
    pub(crate) owner: Option<u64>,
}

/// Returns the command that a block asks for, where the block is the plain one.
fn plainly(command: Cdb, block: &[u8]) -> Result<Cdb, StartRule>
    requires { Means block.now command }
    ensures { IsReadAs block.now result }
{
    one_meaning();
    one_spelling();
    let own = encode(&command);
    match difference(0, own.as_slice(), block) {
        None => Ok(command),
        Some(byte) => Err(StartRule::NotPlain(byte)),
    }
}

/// Returns what a block is read as.
fn read_as(block: &CommandBlock) -> Result<Cdb, StartRule>
    ensures { IsReadAs block.now result }
{
    match decode(block.as_slice()) {
        Ok(command) => plainly(command, block.as_slice()),
        Err(fault) => Err(StartRule::Block(fault)),
    }
}

/// Returns what the block of a start is read as.
fn read_of(label: &Label) -> Result<Cdb, StartRule>
    ensures { IsReadOf label.now result }
{
    match label {
        Label::Device(DeviceLabel::Start { block, .. }) => read_as(block),
        _ => Err(StartRule::Block(CdbFault::ShortCdb)),
    }
}

/// Returns what a line with this label tells of a start, which names this request.
pub(crate) fn told_by(label: &Label, owner: Option<u64>) -> Told
    ensures { IsToldBy (line_of label.now owner) result }
{
    let read = read_of(label);
    Told { read, owner }
}
