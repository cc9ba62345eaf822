//! Words read by the grammar of a program.

ghost use Rattle.std.specs.Prelude.{◌≡◌, ◌≢◌, ◌⊎◌, List, IfErr, IfOk, IfSome, IsNone, Some, map};
ghost use Rattle.clap.specs.Words.{Row, found_of, subcommand_rows_of};
ghost use Rattle.clap.specs.Walk.{rows_of};
ghost use Rattle.clap.specs.declared.error.ErrorKind.TheVariants.{OutOfMemory};
ghost use Rattle.command_line.specs.declared.reading.Refusal.TheVariants.{NoMemory, Usage};
ghost use Rattle.command_line.specs.Asking.{IsAsked, AsksForNothing};

use clap::error::ErrorKind;
use clap::{ArgMatches, Command};
use std::alloc::{AllocError, Global};
use std::convert::AsStr;

/// What a program can be asked for, and the grammar of the words that ask for it, as clap's derived `Parser`.
pub trait Parser<'a>: Sized + Drop {
    ghost use Rattle.std.specs.Prelude.{◌≡◌, IfOk, IfSome, IsNone, true};
    ghost use Rattle.clap.specs.Words.{App, app_of, is_simple};
    ghost use Rattle.command_line.specs.Asking.{Found, found_by};

    /// The grammar.
    ghost program: { App };
    /// What the parser found asks for this.
    ghost is_found: { Found → Self → Type 0 };

    fn grammar(alloc: Global) -> Result<Command<'a>, AllocError>
        ensures { IfOk result (λ command. app_of command ≡ program) };

    /// What it is that the parser found.
    fn found_in(matches: &ArgMatches<'a>) -> Option<Self>
        ensures some { IfSome result (is_found (found_by matches.now)) }
        ensures none { IsNone result → (asked : Self) → ¬ (is_found (found_by matches.now) asked) };

    ghost simple: { is_simple program ≡ true };
}

/// Why words are refused.
#[derive(Debug, Clone, Copy, PartialEq, Eq)]
pub enum Refusal {
    /// They ask for nothing that there is, or for help.
    Usage,
    /// Memory was refused.
    NoMemory,
}

/// Reads the words of a command line, of which the first is the program's name.
///
/// # Errors
///
/// [`Refusal::NoMemory`] where memory was refused, else [`Refusal::Usage`] where the words ask for nothing.
pub fn read<'a, A: Parser<'a>, S: AsStr>(alloc: Global, words: &'a [S]) -> Result<A, Refusal>
    ensures asked { IfOk result (IsAsked A.program A.is_found (map S.text words.now)) }
    ensures fault { IfErr result (λ why. (why ≡ NoMemory) ⊎ ((why ≡ Usage) × AsksForNothing A.program A.is_found (map S.text words.now))) }
{
    let Ok(grammar) = A::grammar(alloc) else {
        return Err(Refusal::NoMemory);
    };
    match grammar.try_get_matches_from(words) {
        Ok(matches) => match A::found_in(&matches) {
            Some(asked) => Ok(asked),
            None => Err(Refusal::Usage),
        },
        Err(error) => Err(refusal_for(error.kind())),
    }
}

/// Returns what it means that the parser refused the words.
fn refusal_for(kind: ErrorKind) -> Refusal
    ensures memory { kind ≡ OutOfMemory → result ≡ NoMemory }
    ensures usage { kind ≢ OutOfMemory → result ≡ Usage }
    ensures either { (result ≡ NoMemory) ⊎ (result ≡ Usage) }
{
    match kind {
        ErrorKind::OutOfMemory => Refusal::NoMemory,
        _ => Refusal::Usage,
    }
}

/// The words of the subcommand of this name, where it is the one that was found.
pub fn subcommand<'m, 'a>(matches: &'m ArgMatches<'a>, name: &str) -> Option<&'m ArgMatches<'a>>
    ensures some { IfSome result (λ words. subcommand_rows_of matches.now ≡ Some (name.now, rows_of (found_of words.now))) }
    ensures none { IsNone result → (rows : List Row) → subcommand_rows_of matches.now ≢ Some (name.now, rows) }
{
    match matches.subcommand_matches(name) {
        Some(words) => Some(words),
        None => None,
    }
}
