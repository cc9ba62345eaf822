//! A script of events: its lines, what they ask a stack for, and what is printed of a stack that carries them out.
//!
//! # Promises
//!
//! `lines`: the orders that the text spells (`events`), or its first bad line, or want of memory (`fault`). `play`,
//! over a stack with nothing left to be taken (`taken`), wrote as a transcript each line, its reply and a right step's
//! labels, or as a trace those labels alone (`text`); a trace wants a stack whose labels keep their bytes (`bytes`).
//! `event`: what an order asks for, or the reply to one that asks for no event. `write_reply` writes a reply's line.
#![tactic(auto)]

ghost use Rattle.script.specs.Faults.{IsOfWrite};

mod buffers;
mod given;
mod orders;
mod player;
mod printing;

pub use given::Given;
pub use orders::lines;
pub use player::{event, play};
pub use printing::write_reply;
use std::alloc::{AllocError, AllocFailed};
use std::error::Error;
use std::io::ErrorKind;
use std::{fmt, io};

/// What a line asks for. Handles, requests, partitions and tags are numbers as they were written; they need not be
/// there.
#[derive(Debug, Clone, Copy, PartialEq, Eq)]
pub enum Order {
    Open {
        partition: u64,
    },
    Close {
        handle: u64,
    },
    /// A read. Offset and length are in bytes.
    Read {
        handle: u64,
        offset: u64,
        length: u64,
    },
    /// A write of `length` equal bytes, past volatile caches with `through`.
    Write {
        handle: u64,
        offset: u64,
        length: u64,
        byte: u8,
        through: bool,
    },
    Flush {
        handle: u64,
    },
    /// Cancels all requests that are open on the handle, or the one that is named.
    Cancel {
        handle: u64,
        request: Option<u64>,
    },
    Mark {
        request: u64,
    },
    QueryRemove,
    CancelRemove,
    Remove,
    SurpriseRemove,
    Act {
        tag: u64,
    },
    Finish {
        tag: u64,
    },
    Reset,
}

/// A line that asks for an event, without the spaces at its ends.
#[derive(Debug, Clone, Copy, PartialEq, Eq)]
pub struct Line<'a> {
    pub text: &'a str,
    pub order: Order,
}

/// How lines that are carried out are told.
#[derive(Debug, Clone, Copy, PartialEq, Eq)]
pub enum Style {
    /// Each line, its reply, and the labels of its step in short.
    Transcript,
    /// The labels alone, each as a line of a trace.
    Trace,
}

/// Why a script was not read, or not played to its end.
#[derive(Debug, Clone, Copy, PartialEq, Eq)]
pub enum ScriptFault {
    /// The line of this number, from 1, is neither empty, nor a remark, nor an event; 1 of a script that isn't UTF-8.
    BadLine { line: u64 },
    /// Memory was refused.
    NoMemory,
    /// The writer failed.
    OutputFailed,
}

impl fmt::Display for ScriptFault {
    ghost use Rattle.std.specs.Prelude.{Some};
    ghost use Rattle.script.specs.Faults.{text_of};

    ghost output = { λ fault. Some (text_of fault) };

    fn fmt<W: fmt::Write>(&self, f: &mut fmt::Formatter<W>) -> fmt::Result {
        match self {
            ScriptFault::BadLine { line } => write!(f, "script line {line}: bad line"),
            ScriptFault::NoMemory => f.write_str("no memory"),
            ScriptFault::OutputFailed => f.write_str("output failed"),
        }
    }
}

impl Error for ScriptFault {}

impl From<AllocError> for ScriptFault {
    ghost use Rattle.std.specs.Prelude.{◌≡◌};
    ghost use Rattle.script.specs.declared.ScriptFault.TheVariants.{NoMemory};

    ghost from_gives = { λ _ fault. fault ≡ NoMemory };

    fn from(_error: AllocError) -> ScriptFault {
        ScriptFault::NoMemory
    }
}

impl<T: Drop> From<AllocFailed<T>> for ScriptFault {
    ghost use Rattle.std.specs.Prelude.{◌≡◌};
    ghost use Rattle.script.specs.declared.ScriptFault.TheVariants.{NoMemory};

    ghost from_gives = { λ _ fault. fault ≡ NoMemory };

    fn from(_error: AllocFailed<T>) -> ScriptFault {
        ScriptFault::NoMemory
    }
}

/// What a failed write means. A writer that keeps what it is given may want memory.
impl From<io::Error> for ScriptFault {
    ghost use Rattle.std.specs.IoError.{error_kind};
    ghost use Rattle.script.specs.Faults.{IsOfWrite};

    ghost from_gives = { λ error fault. IsOfWrite (error_kind error) fault };

    fn from(error: io::Error) -> ScriptFault {
        fault_of_write(error.kind())
    }
}

/// The fault of a write that failed with an error of this kind.
fn fault_of_write(kind: ErrorKind) -> ScriptFault
    ensures { IsOfWrite kind result }
{
    match kind {
        ErrorKind::OutOfMemory => ScriptFault::NoMemory,
        _ => ScriptFault::OutputFailed,
    }
}
