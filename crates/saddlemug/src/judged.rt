//! A judge, opened over settings and told labels and lines.

ghost use Rattle.std.specs.Prelude.{◌≡◌, ◌≢◌, ◌⊎◌, ◌++◌, [], None, IfErr, IfOk};
ghost use Rattle.ntstatus.specs.declared.NtStatus.TheVariants.{Success};
ghost use Rattle.label_text.specs.Lines.{line_end, line_of, owned};
ghost use Rattle.settings.specs.InRange.{AreInRange};
ghost use Rattle.referee.specs.declared.why.Why.TheVariants.{NoMemory};
ghost use Rattle.referee.specs.Numbers.{why_text};
ghost use Rattle.referee.specs.Opening.{IsOpened};
ghost use Rattle.saddlemug.specs.Judged.{IsNewJudge, TakesLabel, TakesText, TellsLabel, TellsWhy};
ghost use Rattle.saddlemug.specs.Names.{IsPut};
ghost use Rattle.saddlemug.specs.Opened.{IsJudgeStatus, IsUnstarted};
ghost use Rattle.saddlemug.specs.ToldLabels.{TellsLine, line_told};

use crate::bytes::put;
use crate::label_kinds::label_of;
use crate::labels::StackLabel;
use crate::opening::config_of;
use crate::status::start_status;
use label_text::write_line;
use machine::Label;
use ntstatus::NtStatus;
use referee::{Referee, Told, Why};
use settings::Config;
use std::alloc::{AllocError, Global};
use std::io;
use std::io::Write;
use trace_line::Line;

/// A judge of the stack of a text's settings, before its first label.
///
/// # Errors
///
/// As [`config_of`] and [`start_status`] say.
pub(crate) fn new_judge(alloc: Global, text: &[u8]) -> Result<Referee, NtStatus>
    ensures judge { IfOk result (IsNewJudge text.now) }
    ensures fault { IfErr result (λ status. status ≢ Success) }
    ensures why { IfErr result (IsJudgeStatus text.now) }
{
    let config = config_of(alloc, text)?;
    judge_of(alloc, &config)
}

/// A judge of the stack of some settings.
///
/// # Errors
///
/// As [`start_status`] says.
fn judge_of(alloc: Global, config: &Config) -> Result<Referee, NtStatus>
    requires { AreInRange config.now }
    ensures judge { IfOk result (IsOpened config.now) }
    ensures fault { IfErr result (λ status. status ≢ Success) }
    ensures why { IfErr result (IsUnstarted config.now) }
{
    match Referee::open(alloc, config) {
        Ok(judge) => Ok(judge),
        Err(fault) => Err(start_status(fault)),
    }
}

/// Has a judge take a label. Returns 0, or the number of why it isn't taken.
pub(crate) fn take_label(
    judge: &mut Referee,
    alloc: Global,
    label: &StackLabel,
    bytes: &[u8],
) -> u32
    ensures { TakesLabel judge.old label.now bytes.now result judge.new }
{
    let told = told_of(alloc, label, bytes);
    judge.take_told(alloc, told)
}

/// Has a judge take what the text of a line tells, which is given without its end. Returns 0, or the number of why it
/// isn't taken.
pub(crate) fn take_text(judge: &mut Referee, alloc: Global, text: &[u8]) -> u32
    ensures { TakesText judge.old text.now result judge.new }
{
    let told = referee::told_by(alloc, text);
    judge.take_told(alloc, told)
}

/// What C tells by a label.
fn told_of(alloc: Global, label: &StackLabel, bytes: &[u8]) -> Told
    ensures { TellsLabel label.now bytes.now result }
{
    match label_of(alloc, label, bytes) {
        Ok(Some(label)) => Told::Line(Line { label, owner: None }),
        Ok(None) => Told::Bad(Why::BadLabel),
        Err(_) => Told::Bad(Why::NoMemory),
    }
}

/// Puts a sentence into a buffer, as much of it as has room, and answers how long it is.
pub(crate) fn tell_why(alloc: Global, why: Option<Why>, buffer: &mut [u8]) -> u64
    ensures { TellsWhy why buffer.old result buffer.new }
{
    match why {
        Some(why) => tell(alloc, why, buffer),
        None => tell_none(buffer),
    }
}

fn tell(alloc: Global, why: Why, buffer: &mut [u8]) -> u64
    ensures { IsPut (why_text why) buffer.old result buffer.new ⊎ IsPut (why_text NoMemory) buffer.old result buffer.new }
{
    match sentence(alloc, why) {
        Ok(text) => put(buffer, text.as_slice()),
        Err(_) => put(buffer, b"no memory for a verdict"),
    }
}

fn tell_none(buffer: &mut [u8]) -> u64
    ensures { IsPut [] buffer.old result buffer.new }
{
    put(buffer, &[])
}

fn sentence(alloc: Global, why: Why) -> io::Result<Vec<u8>>
    ensures { IfOk result (λ text. text.items ≡ why_text why) }
{
    let mut text = Vec::new(alloc);
    write!(text, "{why}")?;
    Ok(text)
}

/// Puts the line of a label into a buffer, with its end, as much of it as has room, and answers how long it is: 0 where
/// there is no such label, or memory was refused.
pub(crate) fn tell_line(alloc: Global, label: &StackLabel, bytes: &[u8], buffer: &mut [u8]) -> u64
    ensures { TellsLine label.now bytes.now buffer.old result buffer.new }
{
    match line_of(alloc, label, bytes) {
        Ok(line) => put(buffer, line.as_slice()),
        Err(_) => tell_none(buffer),
    }
}

fn line_of(alloc: Global, label: &StackLabel, bytes: &[u8]) -> Result<Vec<u8>, AllocError>
    ensures { IfOk result (λ line. line.items ≡ line_told label.now bytes.now) }
{
    let label = label_of(alloc, label, bytes)?;
    match label {
        Some(label) => written(alloc, &label),
        None => Ok(Vec::new(alloc)),
    }
}

fn written(alloc: Global, label: &Label) -> Result<Vec<u8>, AllocError>
    ensures { IfOk result (λ line. line.items ≡ line_of (owned label.now None) ++ line_end) }
{
    let mut line = Vec::new(alloc);
    write_line(&mut line, label, None)?;
    Ok(line)
}
