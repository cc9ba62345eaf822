//! The command line.

pub mod asked;

ghost use Rattle.std.specs.Prelude.{◌≡◌, ◌⊎◌, ℕ, IfErr, IfOk, IsSomeAnd, MatchOption, codes, map, option_map};
ghost use Rattle.clap.specs.Words.{found_of};
ghost use Rattle.clap.specs.Walk.{rows_of};
ghost use Rattle.commands.specs.declared.faults.Error.TheVariants.{NoMemory, Usage};
ghost use Rattle.commands.specs.declared.words.asked.Command.{Command};
ghost use Rattle.commands.specs.CommandLine.{AsksForNothing, HasWords, IsAsked, IsCount, name_of};

use crate::faults::Error;
use crate::words::asked::Command;
use clap::ArgMatches;
use command_line::{Parser, Refusal, read, subcommand, word};
use std::alloc::{AllocError, Global};
use std::convert::AsStr;

/// The most clients that can be asked for.
const MOST_THREADS: u16 = 32;

/// The most rounds of a client that can be asked for.
const MOST_ROUNDS: u16 = 10_000;

/// Reads the words of a command line, of which the first is the program's name.
///
/// # Errors
///
/// [`Error::NoMemory`] where memory was refused, else [`Error::Usage`] where the words ask for no command.
pub fn command<'a, S: AsStr>(alloc: Global, words: &'a [S]) -> Result<Command<'a>, Error>
    ensures asked { IfOk result (IsAsked (map S.text words.now)) }
    ensures fault { IfErr result (λ fault. (fault ≡ NoMemory) ⊎ ((fault ≡ Usage) × AsksForNothing (map S.text words.now))) }
{
    match read(alloc, words) {
        Ok(command) => Ok(command),
        Err(Refusal::Usage) => Err(Error::Usage),
        Err(Refusal::NoMemory) => Err(Error::NoMemory),
    }
}

impl<'a> Parser<'a> for Command<'a> {
    ghost use Rattle.commands.specs.CommandLine.{IsFoundIn, is_simple_program, program as program_words};

    ghost program = { program_words };

    ghost is_found = { λ found command. IsFoundIn found.subcommand command };

    fn grammar(alloc: Global) -> Result<clap::Command<'a>, AllocError> {
        let trace = clap::Command::new(alloc, "trace")
            .arg(word(alloc, "CONFIG", true))?
            .arg(word(alloc, "SCRIPT", true))?;
        let clients = clap::Command::new(alloc, "clients")
            .arg(word(alloc, "CONFIG", true))?
            .arg(word(alloc, "THREADS", true))?
            .arg(word(alloc, "CALLS", true))?;
        clap::Command::new(alloc, "stackrun")
            .subcommand(trace)?
            .subcommand(clients)
    }

    fn found_in(matches: &ArgMatches<'a>) -> Option<Command<'a>> {
        if let Some(words) = subcommand(matches, "trace") {
            return trace_of(words);
        }
        match subcommand(matches, "clients") {
            Some(words) => clients_of(words),
            None => None,
        }
    }

    ghost simple = { is_simple_program };
}

fn trace_of<'a>(words: &ArgMatches<'a>) -> Option<Command<'a>>
    ensures { MatchOption result ((command : Command) → name_of command ≡ codes "trace" → ¬ (HasWords (rows_of (found_of words.now)) command)) (λ command. (name_of command ≡ codes "trace") × HasWords (rows_of (found_of words.now)) command) }
{
    let Some(config) = words.get_str("CONFIG") else {
        return None;
    };
    let Some(script) = words.get_str("SCRIPT") else {
        return None;
    };
    Some(Command::Trace { config, script })
}

fn clients_of<'a>(words: &ArgMatches<'a>) -> Option<Command<'a>>
    ensures { MatchOption result ((command : Command) → name_of command ≡ codes "clients" → ¬ (HasWords (rows_of (found_of words.now)) command)) (λ command. (name_of command ≡ codes "clients") × HasWords (rows_of (found_of words.now)) command) }
{
    let Some(config) = words.get_str("CONFIG") else {
        return None;
    };
    let Some(threads) = count_of(words.get_str("THREADS"), MOST_THREADS) else {
        return None;
    };
    let Some(rounds) = count_of(words.get_str("CALLS"), MOST_ROUNDS) else {
        return None;
    };
    Some(Command::Clients {
        config,
        threads,
        rounds,
    })
}

/// The number that a word spells in decimal, where there is one from 1 to `most`.
fn count_of(word: Option<&str>, most: u16) -> Option<u16>
    ensures { MatchOption result ((n : ℕ) → ¬ (IsSomeAnd (option_map (λ w. w.now) word.entry) (λ text. IsCount most text n))) (λ n. IsSomeAnd (option_map (λ w. w.now) word.entry) (λ text. IsCount most text n)) }
{
    let Some(word) = word else {
        return None;
    };
    // A plus sign would be taken by `parse`.
    if word.starts_with('+') {
        return None;
    }
    match word.parse::<u16>() {
        Ok(count) if count >= 1 && count <= most => Some(count),
        _ => None,
    }
}
