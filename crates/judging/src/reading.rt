//! The lines of an input, one by one.

ghost use Rattle.std.specs.Prelude.{◌≡◌, ◌∷◌, ◌++◌, ℕ, [], IfErr, IfSome, List, MatchBool, OnOk};
ghost use Rattle.std.specs.Io.{StopsAt};
ghost use Rattle.std.specs.Io.KnownBytes.{Consumes, IsAtEnd};
ghost use Rattle.std.specs.Str.Lines.{strip_carriage_return};
ghost use Rattle.judging.specs.inside.Reading.{IsEnded, IsUnreadTrace};

use crate::Error;
use startup::fault_of;
use std::io::BufRead;

/// Reads the next line, with its end, in place of another; no byte where the input is at its end.
pub(crate) fn next_line<B: BufRead>(input: &mut B, line: &mut Vec<u8>) -> Result<(), Error>
    ensures read { OnOk result (Consumes (B.remaining input.old) (B.remaining input.new) line.new.items) }
    ensures stops { OnOk result (StopsAt line.new.items 10) }
    ensures last { OnOk result (¬ (IsEnded line.new.items) → IfSome (B.remaining input.old) (λ _. IsAtEnd (B.remaining input.new))) }
    ensures fault { IfErr result IsUnreadTrace }
{
    line.clear();
    match input.read_until(b'\n', line) {
        Ok(_) => Ok(()),
        Err(error) => Err(fault_of(&error, Error::TraceUnreadable)),
    }
}

/// Whether a line has a line feed at its end.
pub(crate) fn is_ended(line: &[u8]) -> bool
    ensures { MatchBool result (IsEnded line.now) (¬ (IsEnded line.now)) }
{
    match line.split_last() {
        Some((end, _)) => *end == b'\n',
        None => false,
    }
}

/// A line without its end: a line feed, or a carriage return and a line feed.
pub(crate) fn without_end(line: &[u8]) -> &[u8]
    ensures ended { (front : List ℕ) → line.now ≡ front ++ 10 ∷ [] → result.now ≡ strip_carriage_return front }
    ensures last { ¬ (IsEnded line.now) → result.now ≡ line.now }
{
    match line.split_last() {
        Some((end, front)) if *end == b'\n' => without_return(front),
        _ => line,
    }
}

/// A line without the carriage return at its end, if it has one.
fn without_return(line: &[u8]) -> &[u8]
    ensures { result.now ≡ strip_carriage_return line.now }
{
    match line.split_last() {
        Some((end, front)) if *end == b'\r' => front,
        _ => line,
    }
}
