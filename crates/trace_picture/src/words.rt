//! Names of requests, and what is told of pieces.

use crate::command::Command;
use crate::facts::{Piece, Request};
use machine::Kind;
use srb::Class;
use std::fmt;

/// The name of a request: its number, and what it asks for.
#[derive(Clone, Copy)]
pub(crate) struct Name<'a>(pub &'a Request);

impl fmt::Display for Name<'_> {
    fn fmt<W: fmt::Write>(&self, f: &mut fmt::Formatter<W>) -> fmt::Result {
        let request = self.0;
        let (word, _) = kind_words(request.kind);
        write!(f, "{} {word}", request.number)?;
        if request.kind == Kind::Flush {
            return Ok(());
        }
        let through = if request.through { " through" } else { "" };
        write!(f, " {} {}{through}", request.offset, request.length)
    }
}

/// The word of a kind, and its letter.
fn kind_words(kind: Kind) -> (&'static str, &'static str) {
    match kind {
        Kind::Read => ("read", "r"),
        Kind::Write => ("write", "w"),
        Kind::Flush => ("flush", "f"),
    }
}

/// The name of a request where there is little room: the first letter of its kind, and its number.
#[derive(Clone, Copy)]
pub(crate) struct ShortName<'a>(pub &'a Request);

impl fmt::Display for ShortName<'_> {
    fn fmt<W: fmt::Write>(&self, f: &mut fmt::Formatter<W>) -> fmt::Result {
        let (_, letter) = kind_words(self.0.kind);
        write!(f, "{letter}{}", self.0.number)
    }
}

/// Returns how a piece came back, if it did.
pub(crate) fn class_word(back: Option<(u64, Class)>) -> &'static str {
    match back {
        Some((_, Class::Good)) => "good",
        Some((_, Class::Busy)) => "busy",
        Some((_, Class::Bad(_))) => "bad",
        None => "out",
    }
}

/// What is told of a piece.
#[derive(Clone, Copy)]
pub(crate) struct PieceTitle<'a> {
    pub piece: &'a Piece,
    pub owner: Option<&'a Request>,
}

impl fmt::Display for PieceTitle<'_> {
    fn fmt<W: fmt::Write>(&self, f: &mut fmt::Formatter<W>) -> fmt::Result {
        let piece = self.piece;
        write!(f, "piece {}", piece.number)?;
        match self.owner {
            Some(request) => write!(f, " of request {}", request.number)?,
            None => f.write_str(" of no request that asks for it")?,
        }
        write!(f, ", {}", Command(piece.command))?;
        write!(f, ", line {}: {}", piece.start, class_word(piece.back))
    }
}
