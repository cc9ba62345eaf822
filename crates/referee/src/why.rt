//! Why a line isn't taken.

use judge::Rule;
use std::fmt;

/// Why a line isn't taken.
#[derive(Debug, Clone, Copy, PartialEq, Eq)]
pub enum Why {
    /// No step goes by the line: it breaks this rule.
    Breaks(Rule),
    /// The text is no line of a trace. Reading stopped at the word that begins in this column, counted in bytes from 1.
    BadLine { column: u64 },
    /// The line is a call in this partition, and the settings have no more partitions than this.
    NoPartition { partition: u8, count: u64 },
    /// Memory was refused, or a count is full.
    NoMemory,
    /// What was told is no label.
    BadLabel,
    /// More requests might have made the starts than are followed.
    Readings { readings: u64 },
}

/// The sentence that says so.
impl fmt::Display for Why {
    ghost use Rattle.std.specs.Prelude.{Some};
    ghost use Rattle.referee.specs.Numbers.{why_text};

    ghost output = { λ why. Some (why_text why) };

    fn fmt<W: fmt::Write>(&self, f: &mut fmt::Formatter<W>) -> fmt::Result {
        match self {
            Why::Breaks(rule) => write!(f, "{rule}"),
            Why::BadLine { column } => write!(f, "bad word in column {column}"),
            Why::NoPartition { partition, count } => write!(
                f,
                "there is no partition {partition}: there are {count}, counted from 0"
            ),
            Why::BadLabel => f.write_str("this is no label"),
            Why::NoMemory => f.write_str("no memory for a verdict"),
            Why::Readings { readings } => write!(
                f,
                "the starts have {readings} readings, and 1024 are the most: name the request of each"
            ),
        }
    }
}
