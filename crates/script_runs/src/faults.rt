//! Why a script is not run to its end.

ghost use Rattle.std.specs.Prelude.{◌≡◌};
ghost use Rattle.script.specs.declared.ScriptFault.TheVariants.{NoMemory as WantOfMemory};
ghost use Rattle.startup.specs.declared.faults.Error.TheVariants.{Start};
ghost use Rattle.script_runs.specs.declared.faults.Error.TheVariants.{Script, Startup};

use compose::StartFault;
use script::ScriptFault;
use std::alloc::AllocError;

/// Why a script is not run to its end.
#[derive(Debug, Clone, Copy)]
pub enum Error {
    /// There are no settings, or no stack of them.
    Startup(startup::Error),
    /// The script can't be opened, or can't be read to its end.
    Unreadable,
    /// The script has a bad line, or its text could not be written whole, or memory was refused.
    Script(ScriptFault),
}

impl From<AllocError> for Error {
    ghost from_gives = { λ _ fault. fault ≡ Script WantOfMemory };

    fn from(_error: AllocError) -> Error {
        Error::Script(ScriptFault::NoMemory)
    }
}

impl From<startup::Error> for Error {
    ghost from_gives = { λ why fault. fault ≡ Startup why };

    fn from(fault: startup::Error) -> Error {
        Error::Startup(fault)
    }
}

impl From<StartFault> for Error {
    ghost from_gives = { λ why fault. fault ≡ Startup (Start why) };

    fn from(fault: StartFault) -> Error {
        Error::Startup(startup::Error::Start(fault))
    }
}

impl From<ScriptFault> for Error {
    ghost from_gives = { λ why fault. fault ≡ Script why };

    fn from(fault: ScriptFault) -> Error {
        Error::Script(fault)
    }
}
