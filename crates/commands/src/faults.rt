//! Why the program ends early.

ghost use Rattle.std.specs.Prelude.{◌≡◌};
ghost use Rattle.commands.specs.Faults.{is_usage};
ghost use Rattle.startup.specs.declared.faults.Error.TheVariants.{Start};
ghost use Rattle.commands.specs.declared.faults.Error.TheVariants.{NoMemory, Startup};

use compose::StartFault;
use script::ScriptFault;
use startup::Ending;
use std::alloc::{AllocError, AllocFailed};
use std::fmt;

/// Why the program ends early. Its text is the line that is said, without its end.
#[derive(Debug, Clone, Copy, PartialEq, Eq)]
pub enum Error {
    /// The words of the command line ask for no command, or for help.
    Usage,
    /// There are no settings, or no stack of them.
    Startup(startup::Error),
    /// The script can't be opened, or can't be read to its end.
    ScriptUnreadable,
    /// The script has a bad line, or its text could not be printed whole.
    Script(ScriptFault),
    /// Memory was refused, or a thread could not be started.
    NoMemory,
}

impl Ending for Error {
    ghost usage = { is_usage };

    fn is_usage(&self) -> bool {
        matches!(self, Error::Usage)
    }
}

/// The line that the program says, without its end.
impl fmt::Display for Error {
    ghost use Rattle.std.specs.Prelude.{Some};
    ghost use Rattle.commands.specs.Faults.{line_of};

    ghost output = { λ fault. Some (line_of fault) };

    fn fmt<W: fmt::Write>(&self, f: &mut fmt::Formatter<W>) -> fmt::Result {
        match self {
            Error::Usage => f.write_str(
                "usage: stackrun trace CONFIG SCRIPT | stackrun clients CONFIG THREADS CALLS",
            ),
            Error::Startup(fault) => write!(f, "stackrun: {fault}"),
            Error::ScriptUnreadable => f.write_str("stackrun: cannot read SCRIPT"),
            Error::Script(fault) => write!(f, "stackrun: {fault}"),
            Error::NoMemory => f.write_str("stackrun: no memory"),
        }
    }
}

impl std::error::Error for Error {}

impl From<AllocError> for Error {
    ghost from_gives = { λ _ fault. fault ≡ NoMemory };

    fn from(_error: AllocError) -> Error {
        Error::NoMemory
    }
}

impl<T: Drop> From<AllocFailed<T>> for Error {
    ghost from_gives = { λ _ fault. fault ≡ NoMemory };

    fn from(_error: AllocFailed<T>) -> Error {
        Error::NoMemory
    }
}

impl From<startup::Error> for Error {
    ghost from_gives = { λ why fault. fault ≡ Startup why };

    fn from(fault: startup::Error) -> Error {
        Error::Startup(fault)
    }
}

impl From<StartFault> for Error {
    ghost from_gives = { λ why fault. fault ≡ Startup (Start why) };

    fn from(fault: StartFault) -> Error {
        Error::Startup(startup::Error::Start(fault))
    }
}

impl From<script_runs::Error> for Error {
    ghost use Rattle.commands.specs.Faults.{fault_of_run};

    ghost from_gives = { λ why fault. fault ≡ fault_of_run why };

    fn from(fault: script_runs::Error) -> Error {
        match fault {
            script_runs::Error::Startup(why) => Error::Startup(why),
            script_runs::Error::Unreadable => Error::ScriptUnreadable,
            script_runs::Error::Script(why) => Error::Script(why),
        }
    }
}
