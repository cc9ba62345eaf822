//! How a program ends: what it says of a fault, and its exit status.

ghost use Rattle.std.specs.Prelude.{◌≡◌, ◌≢◌, ◌∷◌, [], ◌++◌, Bool, OnOk, IfOk, IfSome};
ghost use Rattle.std.specs.Io.KnownBytes.{Appends};
ghost use Rattle.std.specs.IoError.{error_kind};
ghost use Rattle.std.specs.declared.io.ErrorKind.TheVariants.{OutOfMemory};
ghost use Rattle.startup.specs.Ending.{exit_status};

use std::alloc::AllocError;
use std::fmt::Display;
use std::io;
use std::io::{ErrorKind, Write};

/// What is said of a run that no fault ended.
#[derive(Debug, Clone, Copy, PartialEq, Eq)]
pub enum Verdict {
    /// The run did what it was asked for.
    Passed,
    /// Something that the run did went wrong, as it has printed.
    Failed,
}

/// A fault that ends a program. Its text is the line that is said of it, without the line's end.
pub trait Ending: Display + Drop {
    ghost usage: { Self → Bool };

    /// Whether the words of the command line ask for nothing that the program does, or for help.
    fn is_usage(&self) -> bool
        ensures { result ≡ usage self.now };
}

/// Says why a run ended early, where it did, and returns the exit status: 0 where there was no fault and all went well,
/// 2 where the words of the command line asked for nothing that the program does, or for help, else 1.
pub fn ended<F: Write, E: Ending>(outcome: Result<Verdict, E>, faults: &mut F) -> u8
    ensures status { result ≡ exit_status E.usage outcome }
    ensures silent { IfOk outcome (λ _. F.contents faults.new ≡ F.contents faults.old) }
{
    match outcome {
        Ok(Verdict::Passed) => 0,
        Ok(Verdict::Failed) => 1,
        Err(fault) => {
            // Nobody is left to hear of a fault of this writer.
            let _ = say(faults, &fault);
            match fault.is_usage() {
                true => 2,
                false => 1,
            }
        }
    }
}

/// Writes the line of a fault.
pub fn say<F: Write, E: Display>(faults: &mut F, fault: &E) -> io::Result<()>
    ensures { IfSome (E.output fault.now) (λ line. OnOk result (Appends (F.contents faults.old) (F.contents faults.new) (line ++ 10 ∷ []))) }
{
    writeln!(faults, "{fault}")?;
    faults.flush()
}

/// Returns what a failed read or write means: want of memory, or else this.
pub fn fault_of<E: From<AllocError> + Drop>(error: &io::Error, otherwise: E) -> E
    ensures memory { error_kind error.now ≡ OutOfMemory → (from : AllocError) × E.from_gives from result }
    ensures otherwise { error_kind error.now ≢ OutOfMemory → result ≡ otherwise }
{
    match error.kind() {
        ErrorKind::OutOfMemory => E::from(AllocError),
        _ => otherwise,
    }
}
