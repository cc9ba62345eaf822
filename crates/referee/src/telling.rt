//! What a bench tells.

ghost use Rattle.std.specs.Prelude.{IsUtf8};
ghost use Rattle.referee.specs.Telling.{Tells};

use crate::why::Why;
use label_text::{LineFault, is_told, read_line};
use std::alloc::Global;
use trace_line::Line;

/// What a bench tells.
#[derive(Debug, Drop)]
pub enum Told {
    /// A label, and whose piece starts where it says so.
    Line(Line),
    /// No label.
    Nothing,
    /// What was to be a label and is none, or for which there is no memory.
    Bad(Why),
}

/// What the text of a line tells, which is given without its end: nothing, where it is empty or begins with #.
pub fn told_by(alloc: Global, text: &[u8]) -> Told
    ensures { Tells text.now result }
{
    match std::str::from_utf8(text) {
        Ok(text) => told_by_text(alloc, text),
        Err(_) => Told::Bad(Why::BadLine { column: 1 }),
    }
}

/// What a text tells that is UTF-8.
fn told_by_text(alloc: Global, text: &str) -> Told
    requires { IsUtf8 text.now }
    ensures { Tells text.now result }
{
    if !is_told(text) {
        return Told::Nothing;
    }
    match read_line(alloc, text) {
        Ok(line) => Told::Line(line),
        Err(LineFault::BadWord { column }) => Told::Bad(Why::BadLine { column }),
        Err(LineFault::NoMemory) => Told::Bad(Why::NoMemory),
    }
}
