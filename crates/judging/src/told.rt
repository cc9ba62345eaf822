//! What a line of a trace tells.

ghost use Rattle.std.specs.Prelude.{◌≡◌, ◌∷◌, ◌++◌, ℕ, [], IfErr, IfOk, IsUtf8, List, MatchOption, true};
ghost use Rattle.std.specs.Str.{bytes_eq};
ghost use Rattle.trace_line.specs.declared.Line.{Line};
ghost use Rattle.label_text.specs.Lines.{Spells, is_told};
ghost use Rattle.judging.specs.Told.{has_no_bytes, has_no_device_bytes};
ghost use Rattle.judging.specs.inside.Telling.{Tells};
ghost use Rattle.judging.specs.declared.faults.Error.TheVariants.{NoMemory};

use crate::Error;
use label_text::{LineFault, is_told, read_line};
use machine::Label;
use srb::DeviceLabel;
use std::alloc::Global;
use trace_reader::Recorded;

/// What a line tells.
#[derive(Drop)]
pub(crate) enum Told {
    /// A label, and whose piece starts where it says so.
    Line(Recorded),
    /// The line tells nothing: it is empty, or begins with #.
    Nothing,
    /// The line is to tell a label and tells none: reading stopped at the word that begins in this column. A line that
    /// is not UTF-8 is bad in column 1.
    BadWord { column: u64 },
}

/// What a line tells. It is given without its end.
///
/// # Errors
///
/// [`Error::NoMemory`].
pub(crate) fn told_by(alloc: Global, line: &[u8]) -> Result<Told, Error>
    ensures told { IfOk result (Tells line.now) }
    ensures fault { IfErr result (λ fault. fault ≡ NoMemory) }
{
    match std::str::from_utf8(line) {
        Ok(text) => told_by_text(alloc, text),
        Err(_) => Ok(Told::BadWord { column: 1 }),
    }
}

/// What a line tells of which all bytes have to be recorded. It is given without its end.
///
/// # Errors
///
/// [`Error::NoMemory`].
pub(crate) fn told_whole(alloc: Global, line: &[u8]) -> Result<Told, Error> {
    match told_by(alloc, line)? {
        Told::Line(Recorded { untold: true, .. }) => Ok(Told::BadWord {
            column: line.len() as u64,
        }),
        told => Ok(told),
    }
}

/// What a line tells that is UTF-8.
fn told_by_text(alloc: Global, line: &str) -> Result<Told, Error>
    requires { IsUtf8 line.now }
    ensures told { IfOk result (Tells line.now) }
    ensures fault { IfErr result (λ fault. fault ≡ NoMemory) }
{
    if !is_told(line) {
        return Ok(Told::Nothing);
    }
    match read_line(alloc, line) {
        Ok(line) => Ok(Told::Line(Recorded {
            line,
            untold: false,
        })),
        Err(LineFault::BadWord { column }) => told_by_gap(alloc, line.as_bytes(), column),
        Err(LineFault::NoMemory) => Err(Error::NoMemory),
    }
}

/// Whether a device's label tells no bytes that it might.
fn has_no_device_bytes(label: &DeviceLabel) -> bool
    ensures { result ≡ has_no_device_bytes label.now }
{
    match label {
        DeviceLabel::Act { bytes, .. } => bytes.len() == 0,
        _ => false,
    }
}

/// Whether a label is a call, an act or an answer that tells no bytes.
fn has_no_bytes(label: &Label) -> bool
    ensures { result ≡ has_no_bytes label.now }
{
    match label {
        Label::Call { request, .. } => request.bytes.len() == 0,
        Label::Device(label) => has_no_device_bytes(label),
        Label::Answer { bytes, .. } => bytes.len() == 0,
        _ => false,
    }
}

/// Whether these are the same bytes.
fn is_same(bytes: &[u8], other: &[u8]) -> bool
    ensures { result ≡ bytes_eq bytes.now other.now }
{
    bytes == other
}

/// What stands before the sign of bytes that were not recorded, at the end of a line.
#[tactic(auto, using(crate::proofs::Gaps::sign_there, crate::proofs::Gaps::no_sign, crate::proofs::Gaps::too_short))]
fn before_sign(line: &[u8]) -> Option<&[u8]>
    ensures { MatchOption result ((front : List ℕ) → ¬ (line.now ≡ front ++ 32 ∷ 63 ∷ [])) (λ front. line.now ≡ front.now ++ 32 ∷ 63 ∷ []) }
{
    if line.len() < 2 {
        return None;
    }
    let (front, sign) = line.split_at(line.len() - 2);
    if !is_same(sign, b" ?") {
        return None;
    }
    Some(front)
}

/// What a line tells that spells no label; reading stopped at this column.
#[tactic(auto, using(crate::proofs::Gaps::no_gap))]
fn told_by_gap(alloc: Global, line: &[u8], column: u64) -> Result<Told, Error>
    requires text { IsUtf8 line.now }
    requires told { is_told line.now ≡ true }
    requires none { (other : Line) → ¬ (Spells line.now other) }
    ensures told { IfOk result (Tells line.now) }
    ensures fault { IfErr result (λ fault. fault ≡ NoMemory) }
{
    let Some(front) = before_sign(line) else {
        return Ok(Told::BadWord { column });
    };
    match std::str::from_utf8(front) {
        Ok(front) => told_by_front(alloc, front, column),
        Err(_) => Ok(Told::BadWord { column }),
    }
}

/// What a line tells of which this stands before the sign of bytes that were not recorded.
fn told_by_front(alloc: Global, front: &str, column: u64) -> Result<Told, Error>
    ensures told { IfOk result (λ told. (line : List ℕ) → line ≡ front.now ++ 32 ∷ 63 ∷ [] → IsUtf8 line → is_told line ≡ true → ((other : Line) → ¬ (Spells line other)) → Tells line told) }
    ensures fault { IfErr result (λ fault. fault ≡ NoMemory) }
{
    match read_line(alloc, front) {
        Ok(line) if has_no_bytes(&line.label) => Ok(Told::Line(Recorded { line, untold: true })),
        Ok(_) => Ok(Told::BadWord { column }),
        Err(LineFault::BadWord { column }) => Ok(Told::BadWord { column }),
        Err(LineFault::NoMemory) => Err(Error::NoMemory),
    }
}
