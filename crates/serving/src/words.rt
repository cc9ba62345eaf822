//! The command line.

pub mod asked;

ghost use Rattle.std.specs.Prelude.{◌≡◌, ◌⊎◌, ℕ, IfErr, IfOk, MatchOption, map, option_map};
ghost use Rattle.serving.specs.declared.faults.Error.TheVariants.{NoMemory, Usage};
ghost use Rattle.serving.specs.CommandLine.{AsksForNothing, IsAsked, SpellsPartition};

use crate::faults::Error;
use crate::words::asked::Asked;
use clap::{ArgMatches, Command};
use command_line::{Parser, Refusal, flag, option, read, word};
use std::alloc::{AllocError, Global};
use std::convert::AsStr;

/// Reads the words of a command line, of which the first is the program's name.
///
/// # Errors
///
/// [`Error::NoMemory`] where memory was refused, else [`Error::Usage`] where the words ask for nothing that can be
/// served.
pub fn command<'a, S: AsStr>(alloc: Global, words: &'a [S]) -> Result<Asked<'a>, Error>
    ensures asked { IfOk result (IsAsked (map S.text words.now)) }
    ensures fault { IfErr result (λ fault. (fault ≡ NoMemory) ⊎ ((fault ≡ Usage) × AsksForNothing (map S.text words.now))) }
{
    match read(alloc, words) {
        Ok(asked) => Ok(asked),
        Err(Refusal::Usage) => Err(Error::Usage),
        Err(Refusal::NoMemory) => Err(Error::NoMemory),
    }
}

impl<'a> Parser<'a> for Asked<'a> {
    ghost use Rattle.serving.specs.CommandLine.{IsFoundIn, is_simple_program, program as program_words};

    ghost program = { program_words };

    ghost is_found = { λ found asked. IsFoundIn found.rows asked };

    fn grammar(alloc: Global) -> Result<Command<'a>, AllocError> {
        Command::new(alloc, "nbd_disk")
            .arg(word(alloc, "CONFIG", false))?
            .arg(word(alloc, "PARTITION", false))?
            .arg(option(alloc, "disk"))?
            .arg(flag(alloc, "create"))?
            .arg(option(alloc, "trace"))?
            .arg(flag(alloc, "beside"))
    }

    fn found_in(matches: &ArgMatches<'a>) -> Option<Asked<'a>> {
        let Some(partition) = partition_of(matches.get_str("PARTITION")) else {
            return None;
        };
        let config = matches.get_str("CONFIG");
        let disk = matches.get_str("disk");
        let create = matches.get_flag("create");
        let trace = matches.get_str("trace");
        let beside = matches.get_flag("beside");
        Some(Asked {
            config,
            partition,
            disk,
            create,
            trace,
            beside,
        })
    }

    ghost simple = { is_simple_program };
}

/// The partition that a word spells, or the first one where there is no word.
fn partition_of(word: Option<&str>) -> Option<u8>
    ensures { MatchOption result ((n : ℕ) → ¬ (MatchOption (option_map (λ w. w.now) word.entry) (n ≡ 0) (λ text. SpellsPartition text n))) (λ n. MatchOption (option_map (λ w. w.now) word.entry) (n ≡ 0) (λ text. SpellsPartition text n)) }
{
    match word {
        Some(word) => number(word),
        None => Some(0),
    }
}

/// A number of decimal digits, below 256.
fn number(word: &str) -> Option<u8>
    ensures { MatchOption result ((n : ℕ) → ¬ (SpellsPartition word.now n)) (SpellsPartition word.now) }
{
    // A plus sign would be taken by `parse`.
    if word.starts_with('+') {
        return None;
    }
    match word.parse::<u8>() {
        Ok(number) => Some(number),
        Err(_) => None,
    }
}
