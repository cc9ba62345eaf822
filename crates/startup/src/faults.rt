//! Why there is no stack of some settings.

ghost use Rattle.std.specs.Prelude.{◌≡◌};
ghost use Rattle.startup.specs.Texts.{mbr_text};
ghost use Rattle.startup.specs.declared.faults.Error.TheVariants.{NoMemory, Settings};

use compose::{MbrFault, StartFault};
use settings::ConfigFault;
use std::alloc::AllocError;
use std::fmt;

#[derive(Debug, Clone, Copy, PartialEq, Eq)]
pub enum Error {
    ConfigUnreadable,
    Settings(ConfigFault),
    /// No stack of the settings could be started.
    Start(StartFault),
    NoMemory,
}

/// The text that is said of the fault, without the program's name.
impl fmt::Display for Error {
    ghost use Rattle.std.specs.Prelude.{Some};
    ghost use Rattle.startup.specs.Texts.{text_of};

    ghost output = { λ fault. Some (text_of fault) };

    fn fmt<W: fmt::Write>(&self, f: &mut fmt::Formatter<W>) -> fmt::Result {
        match self {
            Error::ConfigUnreadable => f.write_str("cannot read CONFIG"),
            Error::Settings(fault) => write!(f, "{fault}"),
            Error::Start(StartFault::Settings) => f.write_str("config: out of range"),
            Error::Start(StartFault::Device(status)) => write!(f, "start: {}", status.name()),
            Error::Start(StartFault::Mbr(fault)) => write!(f, "mbr: {}", words_for(*fault)),
            Error::Start(StartFault::NoMemory) => f.write_str("no memory"),
            Error::NoMemory => f.write_str("no memory"),
        }
    }
}

/// Returns what is wrong with a partition table, in print.
pub fn words_for(fault: MbrFault) -> &'static str
    ensures { result.now ≡ mbr_text fault }
{
    match fault {
        MbrFault::ShortSector => "short sector",
        MbrFault::NoSignature => "no signature",
        MbrFault::EmptyEntry => "empty entry",
        MbrFault::CoversTable => "covers table",
        MbrFault::PastEnd => "past end",
        MbrFault::Overlap => "overlap",
    }
}

impl std::error::Error for Error {}

impl From<AllocError> for Error {
    ghost from_gives = { λ _ fault. fault ≡ NoMemory };

    fn from(_error: AllocError) -> Error {
        Error::NoMemory
    }
}

impl From<ConfigFault> for Error {
    ghost from_gives = { λ why fault. fault ≡ Settings why };

    fn from(fault: ConfigFault) -> Error {
        Error::Settings(fault)
    }
}
