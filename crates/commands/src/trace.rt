//! A script run through the stack of its settings, and its trace in print.

ghost use Rattle.std.specs.Prelude.{IfErr, OnOk};
ghost use Rattle.script.specs.Trace.{Prints};
ghost use Rattle.commands.specs.Trace.{IsPrintOf, IsTraceFault, IsUntold};

use crate::faults::Error;
use script::Style;
use script_runs::run;
use std::alloc::Global;
use std::io::{Read, Write};

/// Runs a script through a stack over a disk in memory, and writes what comes of each event.
///
/// # Errors
///
/// The first of these that fits: the settings can't be read, or are refused; the script can't be read, or has a bad
/// line; no stack of the settings could be started; `out` failed, after a beginning of the text. Where memory was
/// refused, the step's own error for it stands in place of any of them.
pub fn trace<C: Read + Drop, S: Read + Drop, O: Write>(
    alloc: Global,
    config: C,
    script: S,
    out: &mut O,
) -> Result<(), Error>
    ensures text { OnOk result (Prints (O.contents out.old) (O.contents out.new) (IsPrintOf (C.remaining config) (S.remaining script))) }
    ensures fault { IfErr result (IsTraceFault (C.remaining config) (S.remaining script)) }
    ensures untold { IfErr result (IsUntold (O.contents out.old) (O.contents out.new)) }
{
    run(alloc, config, script, Style::Transcript, out)?;
    Ok(())
}
