//! The grammar of the words.

ghost use Rattle.std.specs.Prelude.{◌≡◌, IfOk, codes, false, true};
ghost use Rattle.clap.specs.Words.{App, new_app, rule_of, with_rule, with_subcommand};
ghost use Rattle.command_line.specs.Grammar.{option_rule, word_rule};
ghost use Rattle.judge_words.specs.CommandLine.{IsApp, asked_words, check_words, cut_words, history_words, judged_words, one_or_two_words, picture_words, program, two_words, with_flag};

use clap::{Arg, Command};
use command_line::{flag, option, word};
use std::alloc::{AllocError, Global};

/// A command with one word more.
#[tactic(auto, using(crate::proofs::Apps::added))]
fn with<'a>(command: Command<'a>, rule: Arg<'a>) -> Result<Command<'a>, AllocError>
    requires { rule.global ≡ false }
    ensures { IfOk result (λ more. (app : App) → IsApp app command.entry → IsApp (with_rule app (rule_of rule.entry)) more) }
{
    command.arg(rule)
}

/// A command with one flag more.
fn with_flag<'a>(
    alloc: Global,
    command: Command<'a>,
    name: &'a str,
) -> Result<Command<'a>, AllocError>
    ensures { IfOk result (λ more. (app : App) → IsApp app command.entry → IsApp (with_flag app name.entry.now) more) }
{
    let more = with(command, flag(alloc, name))?;
    Ok(more)
}

/// How a trace is judged.
fn judged<'a>(alloc: Global, command: Command<'a>) -> Result<Command<'a>, AllocError>
    ensures { IfOk result (λ more. (app : App) → IsApp app command.entry → IsApp (judged_words app) more) }
{
    let cut = with_flag(alloc, command, "any-cut")?;
    let tag = with_flag(alloc, cut, "any-tag")?;
    let read = with_flag(alloc, tag, "any-read")?;
    let many = with_flag(alloc, read, "many")?;
    let disk = with_flag(alloc, many, "whole-disk")?;
    let gaps = with_flag(alloc, disk, "gaps")?;
    Ok(gaps)
}

/// What is asked of a trace.
fn asked<'a>(alloc: Global, command: Command<'a>) -> Result<Command<'a>, AllocError>
    ensures { IfOk result (λ more. (app : App) → IsApp app command.entry → IsApp (asked_words app) more) }
{
    let judged = judged(alloc, command)?;
    let settled = with_flag(alloc, judged, "settled")?;
    let ended = with_flag(alloc, settled, "ended")?;
    let json = with_flag(alloc, ended, "json")?;
    Ok(json)
}

/// A command of this name.
#[tactic(auto, using(crate::proofs::Apps::opened))]
fn named<'a>(alloc: Global, name: &'a str) -> Command<'a>
    ensures { IsApp (new_app name.entry.now) result }
{
    let command = Command::new(alloc, name);
    command
}

/// A command of this name for two words.
fn two_words<'a>(
    alloc: Global,
    name: &'a str,
    first: &'a str,
    second: &'a str,
) -> Result<Command<'a>, AllocError>
    ensures { IfOk result (IsApp (two_words name.entry.now first.entry.now second.entry.now)) }
{
    let command = named(alloc, name);
    let one = with(command, word(alloc, first, true))?;
    let both = with(one, word(alloc, second, true))?;
    Ok(both)
}

/// A command of this name for one word, or for two.
fn one_or_two_words<'a>(alloc: Global, name: &'a str) -> Result<Command<'a>, AllocError>
    ensures { IfOk result (IsApp (one_or_two_words name.entry.now)) }
{
    let command = named(alloc, name);
    let one = with(command, word(alloc, "FIRST", true))?;
    let both = with(one, word(alloc, "SECOND", false))?;
    Ok(both)
}

fn checks<'a>(alloc: Global) -> Result<Command<'a>, AllocError>
    ensures { IfOk result (IsApp check_words) }
{
    let command = two_words(alloc, "check", "CONFIG", "TRACE")?;
    let asked = asked(alloc, command)?;
    let progress = with_flag(alloc, asked, "progress")?;
    let sessions = with_flag(alloc, progress, "sessions")?;
    Ok(sessions)
}

fn cuts<'a>(alloc: Global) -> Result<Command<'a>, AllocError>
    ensures { IfOk result (IsApp cut_words) }
{
    let command = two_words(alloc, "cut", "CONFIG", "TRACE")?;
    let judged = judged(alloc, command)?;
    Ok(judged)
}

fn histories<'a>(alloc: Global) -> Result<Command<'a>, AllocError>
    ensures { IfOk result (IsApp history_words) }
{
    let command = one_or_two_words(alloc, "history")?;
    let start = with_flag(alloc, command, "any-start")?;
    let progress = with_flag(alloc, start, "progress")?;
    let json = with_flag(alloc, progress, "json")?;
    let sessions = with_flag(alloc, json, "sessions")?;
    Ok(sessions)
}

fn pictures<'a>(alloc: Global) -> Result<Command<'a>, AllocError>
    ensures { IfOk result (IsApp picture_words) }
{
    let command = one_or_two_words(alloc, "picture")?;
    let judged = judged(alloc, command)?;
    let events = with_flag(alloc, judged, "events")?;
    let lines = with(events, option(alloc, "lines"))?;
    Ok(lines)
}

/// A program with one command more.
#[tactic(auto, using(crate::proofs::Apps::commanded))]
fn with_command<'a>(program: Command<'a>, command: Command<'a>) -> Result<Command<'a>, AllocError>
    ensures { IfOk result (λ more. (app sub : App) → IsApp app program.entry → IsApp sub command.entry → IsApp (with_subcommand app sub.top) more) }
{
    program.subcommand(command)
}

/// The grammar of the program.
pub(crate) fn grammar<'a>(alloc: Global) -> Result<Command<'a>, AllocError>
    ensures { IfOk result (IsApp program) }
{
    let none = named(alloc, "stackjudge");
    let checking = checks(alloc)?;
    let check = with_command(none, checking)?;
    let cutting = cuts(alloc)?;
    let cut = with_command(check, cutting)?;
    let recording = two_words(alloc, "record", "CONFIG", "SCRIPT")?;
    let record = with_command(cut, recording)?;
    let telling = histories(alloc)?;
    let history = with_command(record, telling)?;
    let drawing = pictures(alloc)?;
    let picture = with_command(history, drawing)?;
    Ok(picture)
}
