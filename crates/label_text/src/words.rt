//! The parts of a text between single bytes that separate them: the words of a line, the runs of a word.

ghost use Rattle.std.specs.Prelude.{◌≡◌, ◌<◌, ◌∷◌, ℕ, List, IfSome, MatchOption, drop, option_copied, slice_get};
ghost use Rattle.std.specs.Str.{bytes_eq};
ghost use Rattle.label_text.specs.inside.Reading.{behind, byte_at, byte_in, byte_of, digit_in, is_end, is_next, number_at, number_in, parted, parts_left, HasLeft, IsOther, SplitsFirst, TakesFirst};

use itoa::{Buffer, Integer};
use std::marker::Model;

/// What is left of a text. Contracts see the parts in it.
#[derive(Drop)]
pub(crate) struct Words<'a> {
    separator: u8,
    /// What is not taken yet; nothing behind the last part.
    rest: Option<&'a str>,
    /// Where the part that was taken last begins, in bytes from 1.
    column: u64,
    /// Where the next part begins.
    next: u64,
}

impl<'a> Model for Words<'a> {
    ghost Value = { List (List ℕ) };

    ghost view = { λ words. parts_left words.separator (option_copied words.rest) };

    ghost invariant = { λ words. words.separator < 48 };
}

impl<'a> Words<'a> {
    /// The parts of a text, none of which was taken.
    pub fn new(separator: u8, text: &'a str) -> Words<'a>
        requires { separator < 48 }
        ensures { result ≡ parted separator text.entry.now }
    {
        Words {
            separator,
            rest: Some(text),
            column: 1,
            next: 1,
        }
    }

    /// Returns where the part that was taken last begins, in bytes from 1.
    pub fn column(&self) -> u64 {
        self.column
    }

    /// Takes the next part, if one is left.
    pub fn word(&mut self) -> Option<&'a str>
        ensures first { option_copied result ≡ slice_get self.old 0 }
        ensures rest { self.new ≡ drop 1 self.old }
    {
        self.column = self.next;
        let (word, behind) = first(self.separator, self.rest)?;
        self.next = behind_of(self.next, word);
        self.rest = behind;
        Some(word)
    }

    /// The next part, which is not taken.
    pub fn next(&self) -> Option<&'a str>
        ensures { option_copied result ≡ slice_get self.now 0 }
    {
        let (word, _) = first(self.separator, self.rest)?;
        Some(word)
    }

    /// What stands behind the letter x, to the end of the text, if the next part begins with one. It is not taken.
    pub fn digits(&mut self) -> Option<&'a [u8]>
        ensures left { MatchOption result (IsOther 120 self.old) (λ digits. HasLeft self.old (120 ∷ digits.now)) }
        ensures rest { self.new ≡ self.old }
    {
        self.column = self.next;
        digits(self.separator, self.rest)
    }

    /// Whether no part is left. If one is left, it is taken.
    pub fn are_over(&mut self) -> bool
        ensures { result ≡ is_end self.old }
    {
        self.word().is_none()
    }

    /// Takes the next part where it is this word, and says whether it was.
    pub fn takes(&mut self, word: &str) -> bool
        ensures was { result ≡ is_next word.now self.old }
        ensures rest { self.new ≡ behind word.now self.old }
    {
        match first(self.separator, self.rest) {
            Some((first, behind)) if first == word => {
                self.column = self.next;
                self.next = behind_of(self.next, word);
                self.rest = behind;
                true
            }
            _ => false,
        }
    }
}

/// What stands behind the letter x, if what is left begins with one.
fn digits<'a>(separator: u8, rest: Option<&'a str>) -> Option<&'a [u8]>
    requires { separator < 48 }
    ensures { MatchOption result (IsOther 120 (parts_left separator (option_copied rest.entry))) (λ digits. HasLeft (parts_left separator (option_copied rest.entry)) (120 ∷ digits.now)) }
{
    match rest?.as_bytes().split_first() {
        Some((first, digits)) if *first == b'x' => Some(digits),
        _ => None,
    }
}

/// The first part of what is left, and what is left behind it.
fn first<'a>(separator: u8, rest: Option<&'a str>) -> Option<(&'a str, Option<&'a str>)>
    requires { separator < 128 }
    ensures { TakesFirst separator rest.entry result }
{
    Some(split(separator, rest?))
}

/// The first part of a text, and what is left behind it.
fn split<'a>(separator: u8, text: &'a str) -> (&'a str, Option<&'a str>)
    requires { separator < 128 }
    ensures { SplitsFirst separator text.entry.now result }
{
    match text.split_once(separator as char) {
        Some((part, behind)) => (part, Some(behind)),
        None => (text, None),
    }
}

/// Returns where the part behind this one begins.
fn behind_of(column: u64, part: &str) -> u64 {
    column.saturating_add(part.len() as u64).saturating_add(1)
}

impl<'a> Words<'a> {
    /// Takes the next part, and returns it where it is a number below 2^64.
    pub fn number(&mut self) -> Option<u64>
        ensures value { result ≡ number_at 64 self.old }
        ensures rest { self.new ≡ drop 1 self.old }
    {
        number(self.word()?)
    }

    /// Takes the next part, and returns it where it is a number below 2^128.
    pub fn piece(&mut self) -> Option<u128>
        ensures value { result ≡ number_at 128 self.old }
        ensures rest { self.new ≡ drop 1 self.old }
    {
        piece(self.word()?)
    }

    /// Takes the next part, and returns it where it is a number below 2^8.
    pub fn tag(&mut self) -> Option<u8>
        ensures value { result ≡ number_at 8 self.old }
        ensures rest { self.new ≡ drop 1 self.old }
    {
        small(self.word()?)
    }

    /// Takes the next part, and returns it where it is a byte.
    pub fn byte(&mut self) -> Option<u8>
        ensures value { result ≡ byte_at self.old }
        ensures rest { self.new ≡ drop 1 self.old }
    {
        byte(self.word()?)
    }
}

/// Reads a number below 2^64 in decimal digits, spelled as it is written.
fn number(word: &str) -> Option<u64>
    ensures { result ≡ number_in 64 word.now }
{
    match word.parse::<u64>() {
        Ok(number) => is_written(word, number).then_some(number),
        Err(_) => None,
    }
}

/// Reads a number below 2^128 in decimal digits, spelled as it is written.
fn piece(word: &str) -> Option<u128>
    ensures { result ≡ number_in 128 word.now }
{
    match word.parse::<u128>() {
        Ok(number) => is_written(word, number).then_some(number),
        Err(_) => None,
    }
}

/// Reads a number below 2^8 in decimal digits, spelled as it is written.
pub(crate) fn small(word: &str) -> Option<u8>
    ensures { result ≡ number_in 8 word.now }
{
    match word.parse::<u8>() {
        Ok(number) => is_written(word, number).then_some(number),
        Err(_) => None,
    }
}

/// Whether a word spells the number as it is written: without a sign, and without zeros before it.
fn is_written<N: Integer>(word: &str, number: N) -> bool
    ensures { result ≡ bytes_eq (N.text number) word.now }
{
    Buffer::new().format(number) == word
}

/// Reads a byte of two hexadecimal digits.
pub(crate) fn byte(word: &str) -> Option<u8>
    ensures { result ≡ byte_in word.now }
{
    match word.as_bytes() {
        [high, low] => byte_of(*high, *low),
        _ => None,
    }
}

/// The byte of two hexadecimal digits.
pub(crate) fn byte_of(high: u8, low: u8) -> Option<u8>
    ensures { result ≡ byte_of high low }
{
    let high = digit(high)?;
    let low = digit(low)?;
    Some(high * 16 + low)
}

/// The value of a hexadecimal digit in lower case.
fn digit(c: u8) -> Option<u8>
    ensures value { result ≡ digit_in c }
    ensures below { IfSome result (λ value. value < 16) }
{
    match c {
        b'0'..=b'9' => Some(c - b'0'),
        b'a'..=b'f' => Some(c - b'a' + 10),
        _ => None,
    }
}
