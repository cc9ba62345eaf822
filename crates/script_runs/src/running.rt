//! How a script is read, and played by the stack of its settings.

ghost use Rattle.std.specs.Prelude.{◌≡◌, ℕ, IfErr, IfOk, List, OnOk, Option};
ghost use Rattle.script.specs.Trace.{Prints};
ghost use Rattle.settings.specs.InRange.{AreInRange};
ghost use Rattle.startup.specs.Reading.{IsAllOf};
ghost use Rattle.script_runs.specs.Runs.{AreGiven, IsRunFault, IsTextOf, IsUnread, IsUntold, keeps_bytes};

use crate::faults::Error;
use script::{Line, ScriptFault, Style, lines, play};
use settings::Config;
use startup::{contents, fault_of, read_settings, start};
use std::alloc::Global;
use std::io::{Read, Write};

/// Runs a script through a stack over a disk in memory, and writes what comes of each event in some style.
///
/// # Errors
///
/// The first of these that fits: the settings can't be read, or are refused; the script can't be read, or has a bad
/// line; no stack of the settings could be started; `out` failed, after a beginning of the text. Where memory was
/// refused, the step's own error for it stands in place of any of them. Of settings or a script that are blamed, `out`
/// has nothing.
pub fn run<C: Read + Drop, S: Read + Drop, O: Write>(
    alloc: Global,
    config: C,
    script: S,
    style: Style,
    out: &mut O,
) -> Result<(), Error>
    ensures text { OnOk result (Prints (O.contents out.old) (O.contents out.new) (IsTextOf style (C.remaining config) (S.remaining script))) }
    ensures fault { IfErr result (IsRunFault (C.remaining config) (S.remaining script)) }
    ensures untold { IfErr result (IsUntold (O.contents out.old) (O.contents out.new)) }
{
    let config = read_settings(alloc, config)?;
    let script = bytes_of(alloc, script)?;
    let Ok(text) = std::str::from_utf8(script.as_slice()) else {
        return Err(Error::Script(ScriptFault::BadLine { line: 1 }));
    };
    let lines = lines(alloc, text)?;
    play_lines(alloc, config, lines.as_slice(), style, out)
}

/// Plays the lines of a script on a stack of some settings, whichever inputs gave both.
///
/// # Errors
///
/// No stack of the settings could be started; `out` failed, after a beginning of the text; memory was refused.
fn play_lines<O: Write>(
    alloc: Global,
    config: Config,
    lines: &[Line<'_>],
    style: Style,
    out: &mut O,
) -> Result<(), Error>
    requires { AreInRange config }
    ensures text { (settings script : Option (List ℕ)) → AreGiven settings script config lines.now → OnOk result (Prints (O.contents out.old) (O.contents out.new) (IsTextOf style settings script)) }
    ensures fault { (settings script : Option (List ℕ)) → AreGiven settings script config lines.now → IfErr result (IsRunFault settings script) }
    ensures untold { IfErr result (IsUntold (O.contents out.old) (O.contents out.new)) }
{
    let mut stack = start(alloc, config, keeps_bytes(style))?;
    match play(alloc, &mut stack, lines, style, out) {
        Ok(()) => Ok(()),
        Err(fault) => Err(Error::Script(fault)),
    }
}

/// Whether the labels of a script's stack keep their bytes: a trace tells them all.
fn keeps_bytes(style: Style) -> bool
    ensures { result ≡ keeps_bytes style }
{
    match style {
        Style::Transcript => false,
        Style::Trace => true,
    }
}

/// Reads all bytes of a script.
fn bytes_of<R: Read + Drop>(alloc: Global, script: R) -> Result<Vec<u8>, Error>
    ensures all { IfOk result (λ bytes. IsAllOf (R.remaining script) bytes.items) }
    ensures fault { IfErr result IsUnread }
{
    match contents(alloc, script) {
        Ok(bytes) => Ok(bytes),
        Err(error) => Err(fault_of(&error, Error::Unreadable)),
    }
}
