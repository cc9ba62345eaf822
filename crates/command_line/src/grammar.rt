//! The words of a grammar.

ghost use Rattle.std.specs.Prelude.{◌≡◌, false};
ghost use Rattle.clap.specs.Words.{rule_of};
ghost use Rattle.command_line.specs.Grammar.{word_rule, option_rule, flag_rule};

use clap::{Arg, ArgAction};
use std::alloc::Global;

/// A word at a place of its own, which may have to be there.
pub fn word<'a>(alloc: Global, name: &'a str, required: bool) -> Arg<'a>
    ensures rule { rule_of result ≡ word_rule name.entry.now required }
    ensures local { result.global ≡ false }
{
    Arg::new(alloc, name)
        .required(required)
        .action(ArgAction::Set)
}

/// `--NAME WORD`, which may be there.
pub fn option<'a>(alloc: Global, name: &'a str) -> Arg<'a>
    ensures rule { rule_of result ≡ option_rule name.entry.now }
    ensures local { result.global ≡ false }
{
    Arg::new(alloc, name).long(name).action(ArgAction::Set)
}

/// `--NAME`, which may be there.
pub fn flag<'a>(alloc: Global, name: &'a str) -> Arg<'a>
    ensures rule { rule_of result ≡ flag_rule name.entry.now }
    ensures local { result.global ≡ false }
{
    Arg::new(alloc, name).long(name).action(ArgAction::SetTrue)
}
