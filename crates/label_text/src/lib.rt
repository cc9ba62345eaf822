//! The text of a trace, one label a line, behind a start with the request that its piece is of. It tells all that a
//! label holds, so a trace can be stored, sent and read again.
//!
//! # Promises
//!
//! Behind a text in memory `write_line` writes just a line's text, with the request of a start where it is given (`text`,
//! `spelled`); `write_short_line` a label in short (`text`). `read_line` gives a text's one line (`spelled`, `only`), whose
//! bytes are told in runs or in digits, and blames a word only where there is none (`fault`).
#![tactic(auto)]

mod decoding;
mod numerals;
mod reading;
mod runs;
mod words;
mod writing;

ghost use Rattle.std.specs.Prelude.{Some};
ghost use Rattle.label_text.specs.Faults.{text_of};

pub use numerals::write_number;
pub use reading::{is_told, read_line};
use std::alloc::AllocError;
use std::error::Error;
use std::fmt;
pub use writing::{write_line, write_short_line};

/// Why a line was not read.
#[derive(Debug, Clone, Copy, PartialEq, Eq)]
pub enum LineFault {
    /// No line has this text. Reading stopped at the word that begins in this column, counted in bytes from 1.
    BadWord { column: u64 },
    /// Memory was refused.
    NoMemory,
}

impl fmt::Display for LineFault {
    ghost output = { λ fault. Some (text_of fault) };

    fn fmt<W: fmt::Write>(&self, f: &mut fmt::Formatter<W>) -> fmt::Result {
        match self {
            LineFault::BadWord { column } => write!(f, "bad word in column {column}"),
            LineFault::NoMemory => f.write_str("no memory"),
        }
    }
}

impl Error for LineFault {}

impl From<AllocError> for LineFault {
    ghost use Rattle.std.specs.Prelude.{◌≡◌};
    ghost use Rattle.label_text.specs.declared.LineFault.TheVariants.{NoMemory};

    ghost from_gives = { λ _ fault. fault ≡ NoMemory };

    fn from(_error: AllocError) -> LineFault {
        LineFault::NoMemory
    }
}
