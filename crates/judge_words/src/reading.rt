//! Words, as they are read.

ghost use Rattle.std.specs.Prelude.{◌≡◌, ◌⊎◌, IfErr, IfOk, MatchOption, Some, codes, map};
ghost use Rattle.std.specs.Option.{option_map};
ghost use Rattle.clap.specs.Words.{found_of};
ghost use Rattle.clap.specs.Walk.{rows_of};
ghost use Rattle.command_line.specs.declared.reading.Refusal.TheVariants.{NoMemory, Usage};
ghost use Rattle.judge_words.specs.declared.asked.Command.{Command};
ghost use Rattle.judge_words.specs.CommandLine.{AreFiles, AsksForNothing, HasFlags, HasWords, IsAsked, name_of};

use crate::asked::{Asked, Command};
use crate::grammar::grammar;
use clap::ArgMatches;
use command_line::{Parser, Refusal, read, subcommand};
use std::alloc::{AllocError, Global};
use std::convert::AsStr;

/// Reads the words of a command line, of which the first is the program's name.
///
/// # Errors
///
/// [`Refusal::NoMemory`] where memory was refused, else [`Refusal::Usage`] where the words ask for no command.
pub fn command<'a, S: AsStr>(alloc: Global, words: &'a [S]) -> Result<Command<'a>, Refusal>
    ensures asked { IfOk result (IsAsked (map S.text words.now)) }
    ensures fault { IfErr result (λ fault. (fault ≡ NoMemory) ⊎ ((fault ≡ Usage) × AsksForNothing (map S.text words.now))) }
{
    let command = read(alloc, words)?;
    Ok(command)
}

impl<'a> Parser<'a> for Command<'a> {
    ghost use Rattle.judge_words.specs.CommandLine.{IsFoundIn, is_simple_program, program as program_words};

    ghost program = { program_words };

    ghost is_found = { λ found command. IsFoundIn found.subcommand command };

    fn grammar(alloc: Global) -> Result<clap::Command<'a>, AllocError> {
        let grammar = grammar(alloc)?;
        Ok(grammar)
    }

    fn found_in(matches: &ArgMatches<'a>) -> Option<Command<'a>> {
        if let Some(words) = subcommand(matches, "check") {
            return check_of(words);
        }
        if let Some(words) = subcommand(matches, "cut") {
            return cut_of(words);
        }
        if let Some(words) = subcommand(matches, "record") {
            return record_of(words);
        }
        if let Some(words) = subcommand(matches, "history") {
            return history_of(words);
        }
        match subcommand(matches, "picture") {
            Some(words) => picture_of(words),
            None => None,
        }
    }

    ghost simple = { is_simple_program };
}

fn check_of<'a>(words: &ArgMatches<'a>) -> Option<Command<'a>>
    ensures { MatchOption result ((command : Command) → name_of command ≡ codes "check" → ¬ (HasWords (rows_of (found_of words.now)) command)) (λ command. (name_of command ≡ codes "check") × HasWords (rows_of (found_of words.now)) command) }
{
    let Some(config) = words.get_str("CONFIG") else {
        return None;
    };
    let Some(trace) = words.get_str("TRACE") else {
        return None;
    };
    let progress = words.get_flag("progress");
    let sessions = words.get_flag("sessions");
    let asked = asked_of(words);
    Some(Command::Check {
        config,
        trace,
        asked,
        progress,
        sessions,
    })
}

/// What the flags of the words ask of a trace.
fn asked_of(words: &ArgMatches<'_>) -> Asked
    ensures { HasFlags (rows_of (found_of words.now)) result }
{
    Asked {
        any_cut: words.get_flag("any-cut"),
        any_tag: words.get_flag("any-tag"),
        any_read: words.get_flag("any-read"),
        many: words.get_flag("many"),
        whole_disk: words.get_flag("whole-disk"),
        gaps: words.get_flag("gaps"),
        settled: words.get_flag("settled"),
        ended: words.get_flag("ended"),
        json: words.get_flag("json"),
    }
}

fn cut_of<'a>(words: &ArgMatches<'a>) -> Option<Command<'a>>
    ensures { MatchOption result ((command : Command) → name_of command ≡ codes "cut" → ¬ (HasWords (rows_of (found_of words.now)) command)) (λ command. (name_of command ≡ codes "cut") × HasWords (rows_of (found_of words.now)) command) }
{
    let Some(config) = words.get_str("CONFIG") else {
        return None;
    };
    let Some(trace) = words.get_str("TRACE") else {
        return None;
    };
    let asked = asked_of(words);
    Some(Command::Cut {
        config,
        trace,
        asked,
    })
}

fn record_of<'a>(words: &ArgMatches<'a>) -> Option<Command<'a>>
    ensures { MatchOption result ((command : Command) → name_of command ≡ codes "record" → ¬ (HasWords (rows_of (found_of words.now)) command)) (λ command. (name_of command ≡ codes "record") × HasWords (rows_of (found_of words.now)) command) }
{
    let Some(config) = words.get_str("CONFIG") else {
        return None;
    };
    let Some(script) = words.get_str("SCRIPT") else {
        return None;
    };
    Some(Command::Record { config, script })
}

fn history_of<'a>(words: &ArgMatches<'a>) -> Option<Command<'a>>
    ensures { MatchOption result ((command : Command) → name_of command ≡ codes "history" → ¬ (HasWords (rows_of (found_of words.now)) command)) (λ command. (name_of command ≡ codes "history") × HasWords (rows_of (found_of words.now)) command) }
{
    let any_start = words.get_flag("any-start");
    let watched = words.get_flag("progress");
    let json = words.get_flag("json");
    let sessions = words.get_flag("sessions");
    let Some(first) = words.get_str("FIRST") else {
        return None;
    };
    let (config, history) = files(first, words.get_str("SECOND"));
    Some(Command::History {
        config,
        history,
        any_start,
        progress: watched,
        json,
        sessions,
    })
}

fn picture_of<'a>(matches: &ArgMatches<'a>) -> Option<Command<'a>>
    ensures { MatchOption result ((command : Command) → name_of command ≡ codes "picture" → ¬ (HasWords (rows_of (found_of matches.now)) command)) (λ command. (name_of command ≡ codes "picture") × HasWords (rows_of (found_of matches.now)) command) }
{
    let events = matches.get_flag("events");
    let lines = matches.get_str("lines");
    let Some(first) = matches.get_str("FIRST") else {
        return None;
    };
    let (config, trace) = files(first, matches.get_str("SECOND"));
    let asked = asked_of(matches);
    Some(Command::Picture {
        config,
        trace,
        asked,
        events,
        lines,
    })
}

/// The path of the settings, where there are two paths, and that of what is judged or drawn.
fn files<'a>(first: &'a str, second: Option<&'a str>) -> (Option<&'a str>, &'a str)
    ensures { AreFiles (Some first.entry.now) (option_map (λ s. s.now) second.entry) (option_map (λ s. s.now) result.0) result.1.now }
{
    match second {
        Some(trace) => (Some(first), trace),
        None => (None, first),
    }
}
