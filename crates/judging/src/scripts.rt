//! The trace of a script, from the stack of its settings.

ghost use Rattle.std.specs.Prelude.{IfErr, OnOk};
ghost use Rattle.script.specs.Trace.{Prints};
ghost use Rattle.judging.specs.Recorded.{IsRecordFault, IsRecordOf, IsUntold};

use crate::faults::Error;
use script::Style;
use script_runs::run;
use std::alloc::Global;
use std::io::{Read, Write};

/// Runs a script through a stack over a disk in memory, and writes the labels of each event, one a line.
///
/// # Errors
///
/// The first of these that fits: the settings can't be read, or are refused; the script can't be read, or has a bad
/// line; no stack of the settings could be started; `out` failed, after a beginning of the text. Where memory was
/// refused, the step's own error for it stands in place of any of them. Of settings or a script that are blamed, `out`
/// has nothing.
pub fn record_script<C: Read + Drop, S: Read + Drop, O: Write>(
    alloc: Global,
    config: C,
    script: S,
    out: &mut O,
) -> Result<(), Error>
    ensures text { OnOk result (Prints (O.contents out.old) (O.contents out.new) (IsRecordOf (C.remaining config) (S.remaining script))) }
    ensures fault { IfErr result (IsRecordFault (C.remaining config) (S.remaining script)) }
    ensures untold { IfErr result (IsUntold (O.contents out.old) (O.contents out.new)) }
{
    run(alloc, config, script, Style::Trace, out)?;
    Ok(())
}
