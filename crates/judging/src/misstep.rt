//! Why a line of a trace is refused.

ghost use Rattle.std.specs.Prelude.{◌≡◌};
ghost use Rattle.judging.specs.Checked.{bytes_handed};

use judge::{AnswerRule, Difference, Rule};
use std::fmt;
use trace_reader::ReadRule;

/// Why a line of a trace is refused.
#[derive(Debug, Clone, Copy, PartialEq, Eq)]
pub enum Misstep {
    /// No step goes by the line: it breaks this rule.
    Breaks(Rule),
    /// No step goes by the line, in which zeros stand for its bytes, as some of the trace were not recorded: it breaks this
    /// rule.
    Blank(Rule),
    /// The line is a call in this partition, and there are no more partitions than this.
    NoPartition { partition: u8, count: u64 },
    /// The line can't be read.
    Read(ReadRule),
}

/// The first byte of an answer that differs from what is due, if a rule says that.
fn bytes_handed(rule: Rule) -> Option<Difference>
    ensures { result ≡ bytes_handed rule }
{
    match rule {
        Rule::Answer(AnswerRule::Bytes(difference)) => Some(difference),
        _ => None,
    }
}

/// How many bytes an answer should have, by the first that differs.
#[derive(Clone, Copy)]
struct Count(Difference);

impl fmt::Display for Count {
    ghost use Rattle.std.specs.Prelude.{Some};
    ghost use Rattle.judging.specs.Checked.{count_text};

    ghost output = { λ count. Some (count_text count.0) };

    fn fmt<W: fmt::Write>(&self, f: &mut fmt::Formatter<W>) -> fmt::Result {
        let at = self.0.at;
        match self.0.due {
            Some(_) => write!(f, "the bytes of the answer: byte {at} is missing"),
            None => write!(f, "the bytes of the answer: no more than {at} are due"),
        }
    }
}

/// The text that is said of it.
impl fmt::Display for Misstep {
    ghost use Rattle.std.specs.Prelude.{Some};
    ghost use Rattle.judging.specs.Checked.{misstep_text};

    ghost output = { λ misstep. Some (misstep_text misstep) };

    fn fmt<W: fmt::Write>(&self, f: &mut fmt::Formatter<W>) -> fmt::Result {
        match self {
            Misstep::Breaks(rule) => write!(f, "{rule}"),
            Misstep::Blank(rule) => match bytes_handed(*rule) {
                Some(difference) => write!(f, "{}", Count(difference)),
                None => write!(f, "{rule}"),
            },
            Misstep::NoPartition { partition, count } => write!(
                f,
                "there is no partition {partition}: there are {count}, counted from 0"
            ),
            Misstep::Read(rule) => write!(f, "{rule}"),
        }
    }
}
