//! Why the program ends early.

ghost use Rattle.std.specs.Prelude.{◌≡◌};
ghost use Rattle.judging.specs.inside.Faults.{is_usage};
ghost use Rattle.judging.specs.declared.faults.Error.TheVariants.{NoMemory, Startup};

use script::ScriptFault;
use startup::Ending;
use std::alloc::{AllocError, AllocFailed};
use std::io::ErrorKind;
use std::{fmt, io};

/// Why the program ends early. Its text is the line that is said, without its end.
#[derive(Debug, Clone, Copy, PartialEq, Eq)]
pub enum Error {
    /// The words of the command line ask for no command, or for help.
    Usage,
    /// There are no settings, or no stack of them.
    Startup(startup::Error),
    /// The trace can't be opened, or can't be read to its end.
    TraceUnreadable,
    /// The script can't be opened, or can't be read to its end.
    ScriptUnreadable,
    /// The line of a trace, counted from 1, tells no label: reading stopped at the word that begins in this column. A
    /// line that is not UTF-8 is bad in column 1.
    BadLine { line: u64, column: u64 },
    /// The trace has no label.
    NoLabel,
    /// The starts before this line of a trace can be read in so many ways, which are more than are followed.
    Readings { line: u64, readings: u64 },
    /// The script has a bad line, or its text could not be printed whole.
    Script(ScriptFault),
    /// The writer failed.
    OutputFailed,
    /// Memory was refused.
    NoMemory,
}

impl Ending for Error {
    ghost usage = { is_usage };

    fn is_usage(&self) -> bool {
        matches!(self, Error::Usage)
    }
}

/// The line that the program says, without its end.
impl fmt::Display for Error {
    ghost use Rattle.std.specs.Prelude.{Some};
    ghost use Rattle.judging.specs.inside.Faults.{line_of};

    ghost output = { λ fault. Some (line_of fault) };

    fn fmt<W: fmt::Write>(&self, f: &mut fmt::Formatter<W>) -> fmt::Result {
        match self {
            Error::Usage => f.write_str(
                "usage: stackjudge check [--any-cut] [--any-tag] [--any-read] [--many] [--whole-disk] [--gaps] [--settled] \
                [--ended] [--json] [--sessions] CONFIG TRACE | stackjudge cut CONFIG TRACE | stackjudge record CONFIG SCRIPT \
                | stackjudge history [--any-start] [--json] [--sessions] [CONFIG] HISTORY | stackjudge picture [--events] [--lines A-B] [CONFIG] TRACE \
                | stackjudge picture --html CONFIG TRACE",
            ),
            Error::Startup(fault) => write!(f, "stackjudge: {fault}"),
            Error::TraceUnreadable => f.write_str("stackjudge: cannot read TRACE"),
            Error::ScriptUnreadable => f.write_str("stackjudge: cannot read SCRIPT"),
            Error::BadLine { line, column } => {
                write!(
                    f,
                    "stackjudge: trace line {line}: bad word in column {column}"
                )
            }
            Error::NoLabel => f.write_str("stackjudge: the trace has no label"),
            Error::Readings { line, readings } => {
                write!(
                    f,
                    "stackjudge: trace line {line}: the starts before it have {readings} readings, \
                    and 1024 are the most: write the request of each start behind it, as of 1"
                )
            }
            Error::Script(fault) => write!(f, "stackjudge: {fault}"),
            Error::OutputFailed => f.write_str("stackjudge: output failed"),
            Error::NoMemory => f.write_str("stackjudge: no memory"),
        }
    }
}

impl std::error::Error for Error {}

impl From<AllocError> for Error {
    ghost from_gives = { λ _ fault. fault ≡ NoMemory };

    fn from(_error: AllocError) -> Error {
        Error::NoMemory
    }
}

impl<T: Drop> From<AllocFailed<T>> for Error {
    ghost from_gives = { λ _ fault. fault ≡ NoMemory };

    fn from(_error: AllocFailed<T>) -> Error {
        Error::NoMemory
    }
}

impl From<startup::Error> for Error {
    ghost from_gives = { λ why fault. fault ≡ Startup why };

    fn from(fault: startup::Error) -> Error {
        Error::Startup(fault)
    }
}

impl From<script_runs::Error> for Error {
    ghost use Rattle.judging.specs.inside.Faults.{fault_of_run};

    ghost from_gives = { λ why fault. fault ≡ fault_of_run why };

    fn from(fault: script_runs::Error) -> Error {
        match fault {
            script_runs::Error::Startup(why) => Error::Startup(why),
            script_runs::Error::Unreadable => Error::ScriptUnreadable,
            script_runs::Error::Script(ScriptFault::OutputFailed) => Error::OutputFailed,
            script_runs::Error::Script(why) => Error::Script(why),
        }
    }
}

/// What a failed write means. A writer that keeps what it is given may want memory.
impl From<io::Error> for Error {
    ghost use Rattle.std.specs.IoError.{error_kind};
    ghost use Rattle.judging.specs.inside.Faults.{IsOfWrite};

    ghost from_gives = { λ error fault. IsOfWrite (error_kind error) fault };

    fn from(error: io::Error) -> Error {
        match error.kind() {
            ErrorKind::OutOfMemory => Error::NoMemory,
            _ => Error::OutputFailed,
        }
    }
}
