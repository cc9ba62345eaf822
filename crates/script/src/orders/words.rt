//! The words of a line, which spaces separate.

ghost use Rattle.std.specs.Prelude.{◌≡◌, ◌↔◌, ℕ, List, [], IsTrue, drop, option_copied, slice_get};
ghost use Rattle.script.specs.inside.Cuts.{AreWorth, IsLonger};
ghost use Rattle.script.specs.Script.{Byte, Finds, FirstSpells, IsByte, IsNumber, Length, Number, words_of};

use crate::orders::cuts::cut;
use std::marker::Model;

/// The longest request that a script may ask for, in bytes: 65,537 sectors of 4,096.
const LONGEST: u64 = 268_439_552;

/// The most digits of a number: 2^64 - 1 has as many.
const MOST_DIGITS: usize = 20;

/// What is left of a line. Contracts see the words in it.
#[derive(Drop)]
pub(crate) struct Words<'a> {
    rest: &'a str,
}

impl<'a> Model for Words<'a> {
    ghost Value = { List (List ℕ) };

    ghost view = { λ words. words_of words.rest.now };
}

impl<'a> Words<'a> {
    pub fn new(line: &'a str) -> Words<'a>
        ensures { result ≡ words_of line.entry.now }
    {
        Words { rest: line }
    }

    /// Takes the next word, if one is left.
    pub fn word(&mut self) -> Option<&'a str>
        ensures first { option_copied result ≡ slice_get self.old 0 }
        ensures rest { self.new ≡ drop 1 self.old }
    {
        let rest = self.rest.trim_start_matches(' ');
        if rest.is_empty() {
            self.rest = rest;
            return None;
        }
        match cut(rest, b' ') {
            Some((word, after)) => {
                self.rest = after;
                Some(word)
            }
            None => {
                self.rest = "";
                Some(rest)
            }
        }
    }

    /// Takes the next word, and returns it where it is a number.
    pub fn number(&mut self) -> Option<u64>
        ensures value { Finds (λ n. FirstSpells self.old (Number n)) result }
        ensures rest { self.new ≡ drop 1 self.old }
    {
        number(self.word()?)
    }

    /// Takes the next word, and returns it where it is the length of a request, in bytes.
    pub fn length(&mut self) -> Option<u64>
        ensures value { Finds (λ n. FirstSpells self.old (Length n)) result }
        ensures rest { self.new ≡ drop 1 self.old }
    {
        let length = self.number()?;
        if length <= LONGEST {
            Some(length)
        } else {
            None
        }
    }

    /// Takes the next word, and returns it where it is a byte.
    pub fn byte(&mut self) -> Option<u8>
        ensures value { Finds (λ n. FirstSpells self.old (Byte n)) result }
        ensures rest { self.new ≡ drop 1 self.old }
    {
        byte(self.word()?)
    }

    /// Whether no word is left.
    pub fn is_at_end(&self) -> bool
        ensures { IsTrue result ↔ (self.now ≡ []) }
    {
        self.rest.is_empty() || Words::new(self.rest).word().is_none()
    }
}

/// A number with one decimal digit behind it.
fn with_digit(number: u64, byte: u8) -> Option<u64>
    ensures { Finds (IsLonger number byte) result }
{
    if byte < b'0' || b'9' < byte {
        return None;
    }
    let tens = number.checked_mul(10)?;
    tens.checked_add((byte - b'0') as u64)
}

/// The number that decimal digits spell, which is below 2^64. No digits spell 0.
fn worth(digits: &[u8]) -> Option<u64>
    ensures { Finds (AreWorth digits.now) result }
{
    let mut number: u64 = 0;
    for digit in digits {
        number = with_digit(number, *digit)?;
    }
    Some(number)
}

/// A number of 1 to 20 decimal digits, below 2^64.
fn number(word: &str) -> Option<u64>
    ensures { Finds (IsNumber word.now) result }
{
    if word.is_empty() {
        return None;
    }
    if word.len() > MOST_DIGITS {
        return None;
    }
    worth(word.as_bytes())
}

/// A byte of two hexadecimal digits, of either case.
fn byte(word: &str) -> Option<u8>
    ensures { Finds (IsByte word.now) result }
{
    // A plus sign would be taken by `from_str_radix`.
    if word.len() != 2 || word.starts_with('+') {
        return None;
    }
    u8::from_str_radix(word, 16).ok()
}
