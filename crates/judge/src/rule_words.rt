//! The sentence of each rule.

ghost use Rattle.std.specs.Prelude.{◌≡◌};
ghost use Rattle.judge.specs.RuleTexts.{block_text};

use crate::label_rules::{AnswerRule, CallRule, CancelRule, OwedRule, RemovalRule, Rule};
use crate::piece_rules::{ActRule, ReturnRule};
use crate::start_rules::{Hindrance, Misfit, StartRule};
use cdb::CdbFault;
use machine::Kind;
use std::fmt;

/// A byte in two hexadecimal digits.
#[derive(Clone, Copy)]
pub(crate) struct Hex(pub(crate) u8);

impl fmt::Display for Hex {
    ghost use Rattle.std.specs.Prelude.{Some};
    ghost use Rattle.judge.specs.RuleTexts.{hex_text};

    ghost output = { λ hex. Some (hex_text hex.0) };

    fn fmt<W: fmt::Write>(&self, f: &mut fmt::Formatter<W>) -> fmt::Result {
        let (high, low) = (self.0 / 16, self.0 % 16);
        write!(f, "{high:x}{low:x}")
    }
}

/// What is wrong with a command block that asks for no command.
fn words_of(fault: CdbFault) -> &'static str
    ensures { result.now ≡ block_text fault }
{
    match fault {
        CdbFault::ShortCdb => "the command block is too short",
        CdbFault::UnknownOpcode => "the operation code is not known",
        CdbFault::InvalidField => "a field of the command block is not supported",
    }
}

impl fmt::Display for OwedRule {
    ghost use Rattle.std.specs.Prelude.{Some};
    ghost use Rattle.judge.specs.RuleTexts.{owed_text};

    ghost output = { λ rule. Some (owed_text rule) };

    fn fmt<W: fmt::Write>(&self, f: &mut fmt::Formatter<W>) -> fmt::Result {
        match self {
            OwedRule::Other { number, status } => write!(
                f,
                "call {number} was refused with {status}, and its answer comes before all else"
            ),
            OwedRule::Status { number, due, told } => write!(
                f,
                "call {number} was refused with {due}, and its answer says {told}"
            ),
            OwedRule::Information { number, told } => write!(
                f,
                "call {number} was refused, and its answer tells of {told} bytes"
            ),
            OwedRule::Bytes { number, count } => write!(
                f,
                "call {number} was refused, and its answer hands back {count} bytes"
            ),
        }
    }
}

impl fmt::Display for CallRule {
    ghost use Rattle.std.specs.Prelude.{Some};
    ghost use Rattle.judge.specs.RuleTexts.{call_text};

    ghost output = { λ rule. Some (call_text rule) };

    fn fmt<W: fmt::Write>(&self, f: &mut fmt::Formatter<W>) -> fmt::Result {
        match self {
            CallRule::Number { due, told } => write!(f, "this is call {due}, and not {told}"),
            CallRule::Refused { status, count } => write!(
                f,
                "the call is refused with {status}, and takes none of its {count} bytes in"
            ),
            CallRule::Bytes { due, told } => write!(
                f,
                "the call takes {due} bytes in, and not {told}"
            ),
        }
    }
}

impl fmt::Display for AnswerRule {
    ghost use Rattle.std.specs.Prelude.{Some};
    ghost use Rattle.judge.specs.RuleTexts.{answer_text};

    ghost output = { λ rule. Some (answer_text rule) };

    fn fmt<W: fmt::Write>(&self, f: &mut fmt::Formatter<W>) -> fmt::Result {
        match self {
            AnswerRule::NotOpen { number } => write!(f, "request {number} is not open"),
            AnswerRule::Out { place } => write!(f, "its sector {place} is at the adapter"),
            AnswerRule::Waits { place } => write!(
                f,
                "its sector {place} waits to be sent, and nothing has ended the request"
            ),
            AnswerRule::NotDone { place } => write!(
                f,
                "it answers SUCCESS, and its sector {place} is not done"
            ),
            AnswerRule::AllDone { told } => write!(
                f,
                "all its sectors are done, and it answers {told}"
            ),
            AnswerRule::Status { place, due, told } => write!(
                f,
                "its lowest sector that is not done is {place}, which gives {due} and not {told}"
            ),
            AnswerRule::Information { due, told } => write!(
                f,
                "it transferred {due} bytes, and its answer tells of {told}"
            ),
            AnswerRule::Bytes(difference) => write!(f, "the bytes of the answer: {difference}"),
        }
    }
}

impl fmt::Display for CancelRule {
    ghost use Rattle.std.specs.Prelude.{Some};
    ghost use Rattle.judge.specs.RuleTexts.{cancel_text};

    ghost output = { λ rule. Some (cancel_text rule) };

    fn fmt<W: fmt::Write>(&self, f: &mut fmt::Formatter<W>) -> fmt::Result {
        match self {
            CancelRule::NotOpen { number } => write!(f, "request {number} is not open"),
            CancelRule::Before { number } => write!(f, "request {number} was cancelled before"),
        }
    }
}

impl fmt::Display for RemovalRule {
    ghost use Rattle.std.specs.Prelude.{Some};
    ghost use Rattle.judge.specs.RuleTexts.{removal_text};

    ghost output = { λ rule. Some (removal_text rule) };

    fn fmt<W: fmt::Write>(&self, f: &mut fmt::Formatter<W>) -> fmt::Result {
        match self {
            RemovalRule::Paused => f.write_str("the device is paused"),
            RemovalRule::NotPaused => f.write_str("the device is not paused"),
            RemovalRule::Removing => f.write_str("the device is being removed"),
            RemovalRule::NotRemoving => f.write_str("the device is not being removed"),
            RemovalRule::Removed => f.write_str("the removal has ended before"),
            RemovalRule::Open { number } => write!(f, "request {number} is open"),
        }
    }
}

impl fmt::Display for Misfit {
    ghost use Rattle.std.specs.Prelude.{Some};
    ghost use Rattle.judge.specs.RuleTexts.{misfit_text};

    ghost output = { λ rule. Some (misfit_text rule) };

    fn fmt<W: fmt::Write>(&self, f: &mut fmt::Formatter<W>) -> fmt::Result {
        match self {
            Misfit::Command => f.write_str("no request asks for such a command"),
            Misfit::Form => f.write_str(
                "the command has the other form: of ten or of sixteen bytes",
            ),
            Misfit::Range => f.write_str("a flush is of the whole disk: address 0, 0 blocks"),
            Misfit::Kind(Kind::Read) => f.write_str("no read is open"),
            Misfit::Kind(Kind::Write) => f.write_str("no write is open"),
            Misfit::Kind(Kind::Flush) => f.write_str("no flush is open"),
            Misfit::Sectors { lba, count } => write!(
                f,
                "no open request has the {count} sectors from block {lba} on"
            ),
            Misfit::Fua { number, due: true } => write!(
                f,
                "request {number} is write-through, and the FUA bit is clear"
            ),
            Misfit::Fua { number, due: false } => write!(
                f,
                "request {number} is not write-through, and the FUA bit is set"
            ),
        }
    }
}

impl fmt::Display for Hindrance {
    ghost use Rattle.std.specs.Prelude.{Some};
    ghost use Rattle.judge.specs.RuleTexts.{hindrance_text};

    ghost output = { λ rule. Some (hindrance_text rule) };

    fn fmt<W: fmt::Write>(&self, f: &mut fmt::Formatter<W>) -> fmt::Result {
        match self {
            Hindrance::Cancelled => f.write_str("it is cancelled"),
            Hindrance::Removing => f.write_str("the device is being removed"),
            Hindrance::Late => f.write_str("a pause holds it"),
            Hindrance::Earlier { number } => write!(
                f,
                "request {number} came earlier, and waits to start"
            ),
            Hindrance::Long { longest, count } => write!(
                f,
                "the piece has {count} sectors, and {longest} are the most"
            ),
            Hindrance::Out { place } => write!(f, "its sector {place} is at the adapter"),
            Hindrance::Done { place } => write!(f, "its sector {place} is done"),
            Hindrance::Failed { place } => write!(f, "its sector {place} failed"),
            Hindrance::OffGrid { place, grid } => write!(
                f,
                "no piece begins at its sector {place}: it is cut at multiples of {grid}"
            ),
            Hindrance::Worn { place } => write!(
                f,
                "its sector {place} came back busy, and no restart is left"
            ),
            Hindrance::NotWhole { due, count } => write!(
                f,
                "it goes as one piece of {due} sectors, and not of {count}"
            ),
            Hindrance::Again => f.write_str("it goes as one piece, once, and was started before"),
        }
    }
}

impl fmt::Display for StartRule {
    ghost use Rattle.std.specs.Prelude.{Some};
    ghost use Rattle.judge.specs.RuleTexts.{start_text};

    ghost output = { λ rule. Some (start_text rule) };

    fn fmt<W: fmt::Write>(&self, f: &mut fmt::Formatter<W>) -> fmt::Result {
        match self {
            StartRule::Number { due, told } => write!(f, "this is piece {due}, and not {told}"),
            StartRule::Depth { tag, depth } => write!(
                f,
                "there is no tag {tag}: the adapter has {depth}"
            ),
            StartRule::TagInUse { tag, piece } => write!(f, "piece {piece} is on tag {tag}"),
            StartRule::Tag { lowest, told } => write!(
                f,
                "tag {lowest} is free, and lower than tag {told}"
            ),
            StartRule::Block(fault) => f.write_str(words_of(*fault)),
            StartRule::NotPlain(difference) => write!(
                f,
                "the block holds more than its command: {difference}"
            ),
            StartRule::NotOpen { number } => write!(f, "request {number} is not open"),
            StartRule::NotAsked(misfit) => write!(f, "{misfit}"),
            StartRule::Held { number, hindrance } => write!(
                f,
                "request {number} asks for it, but {hindrance}"
            ),
        }
    }
}

impl fmt::Display for ActRule {
    ghost use Rattle.std.specs.Prelude.{Some};
    ghost use Rattle.judge.specs.RuleTexts.{act_text};

    ghost output = { λ rule. Some (act_text rule) };

    fn fmt<W: fmt::Write>(&self, f: &mut fmt::Formatter<W>) -> fmt::Result {
        match self {
            ActRule::NoPiece { piece } => write!(f, "piece {piece} is not at the adapter"),
            ActRule::Before { piece } => write!(f, "piece {piece} has acted or faulted before"),
            ActRule::Length { due, told } => write!(f, "the act moves {due} bytes, and not {told}"),
            ActRule::Write(difference) => write!(
                f,
                "of the bytes of the write's sectors, {difference}"
            ),
            ActRule::Disk(difference) => write!(
                f,
                "of the bytes of the disk's sectors, {difference}"
            ),
            ActRule::NoSectors { piece } => write!(
                f,
                "the disk has no such sectors as piece {piece} asks for"
            ),
        }
    }
}

impl fmt::Display for ReturnRule {
    ghost use Rattle.std.specs.Prelude.{Some};
    ghost use Rattle.judge.specs.RuleTexts.{return_text};

    ghost output = { λ rule. Some (return_text rule) };

    fn fmt<W: fmt::Write>(&self, f: &mut fmt::Formatter<W>) -> fmt::Result {
        match self {
            ReturnRule::NoPiece { piece } => write!(f, "piece {piece} is not at the adapter"),
            ReturnRule::GoodWithoutAct { piece } => write!(
                f,
                "piece {piece} came back good, and hasn't acted"
            ),
            ReturnRule::BusyAfterAct { piece } => write!(
                f,
                "piece {piece} came back busy, and has acted or faulted"
            ),
            ReturnRule::GoodCode { piece, srb_status } => {
                let srb_status = Hex(*srb_status);
                write!(
                    f,
                    "piece {piece} came back bad, with the SRB status {srb_status} of no error"
                )
            }
        }
    }
}

impl fmt::Display for Rule {
    ghost use Rattle.std.specs.Prelude.{Some};
    ghost use Rattle.judge.specs.RuleTexts.{rule_text};

    ghost output = { λ rule. Some (rule_text rule) };

    fn fmt<W: fmt::Write>(&self, f: &mut fmt::Formatter<W>) -> fmt::Result {
        match self {
            Rule::Owed(rule) => write!(f, "{rule}"),
            Rule::Call(rule) => write!(f, "{rule}"),
            Rule::Start(rule) => write!(f, "{rule}"),
            Rule::Act(rule) => write!(f, "{rule}"),
            Rule::Return(rule) => write!(f, "{rule}"),
            Rule::Answer(rule) => write!(f, "{rule}"),
            Rule::Cancel(rule) => write!(f, "{rule}"),
            Rule::Removal(rule) => write!(f, "{rule}"),
        }
    }
}
