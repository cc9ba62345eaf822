//! Bytes as runs of equal ones.

ghost use Rattle.std.specs.Prelude.{◌≡◌, ◌≢◌, ◌<◌, ◌≤◌, ◌+◌, ◌^◌, ◌++◌, nat_le, All, IfOk, IfSome, IsTrue, OnOk, Some, codes, length, option_map, replicate, slice_index, take};
ghost use Rattle.std.specs.Fmt.{decimal};
ghost use Rattle.label_text.specs.Runs.{hex_of, most_bytes, runs_of, runs_text};
ghost use Rattle.label_text.specs.inside.Spacing.{comma};
ghost use Rattle.label_text.specs.inside.Reading.{may_follow, run_in, run_told, runs_in};

use crate::numerals::{write_byte, write_number};
use crate::words::{Words, byte_of};
use std::alloc::{AllocError, Global};

/// The most bytes of a label: those of the longest request, which has 65,536 sectors of 4,096.
pub(crate) const MOST_BYTES: usize = 1 << 28;

/// How many bytes are compared at once.
const BLOCK: usize = 128;

/// Equal bytes in a row.
#[derive(Debug, Clone, Copy)]
pub(crate) struct Run {
    pub byte: u8,
    pub count: u64,
}

/// The bytes that runs tell, where each run is written as long as it can be, and they are no more than a label can
/// have. Those that are more take no memory.
///
/// # Errors
///
/// [`AllocError`] where memory was refused.
pub(crate) fn expanded(alloc: Global, word: &str) -> Result<Option<Vec<u8>>, AllocError>
    ensures { IfOk result (λ found. option_map (λ v. v.items) found ≡ runs_in word.now) }
{
    let mut bytes = Vec::new(alloc);
    let mut last = None;
    let mut parts = Words::new(b',', word);
    while let Some(part) = parts.word() {
        let Some(run) = run_in(part) else {
            return Ok(None);
        };
        if !may_follow(last, run) || !has_room(bytes.len(), run) {
            return Ok(None);
        }
        append(&mut bytes, run)?;
        last = Some(run.byte);
    }
    Ok(Some(bytes))
}

/// Whether a run may stand behind a run of the byte `last`: it has bytes, and they are others.
fn may_follow(last: Option<u8>, run: Run) -> bool
    ensures { result ≡ may_follow last (run_told run) }
{
    run.count != 0 && last != Some(run.byte)
}

/// Whether a label that has so many bytes may have those of a run besides.
fn has_room(length: usize, run: Run) -> bool
    requires { length ≤ 2 ^ 28 }
    ensures { result ≡ nat_le (length + run.count) most_bytes }
{
    run.count <= (MOST_BYTES - length) as u64
}

/// Appends the bytes of a run.
fn append(bytes: &mut Vec<u8>, run: Run) -> Result<(), AllocError>
    requires { length bytes.old.items + run.count ≤ 2 ^ 28 }
    ensures { OnOk result (bytes.new.items ≡ bytes.old.items ++ replicate run.count run.byte) }
{
    bytes.resize(bytes.len() + run.count as usize, run.byte)
}

/// The run that a part of a word tells: its byte, *, and how many.
fn run_in(part: &str) -> Option<Run>
    ensures { option_map run_told result ≡ run_in part.now }
{
    match short_run(part.as_bytes()) {
        Some(run) => Some(run),
        None => any_run(part),
    }
}

/// The run that a part tells whose count has one digit, as most of random bytes have.
fn short_run(part: &[u8]) -> Option<Run>
    ensures { IfSome result (λ run. Some (run_told run) ≡ run_in part.now) }
{
    match part {
        [high, low, star, digit] => counted(byte_of(*high, *low)?, *star, *digit),
        _ => None,
    }
}

/// As many of a byte as the decimal digit behind a star tells.
fn counted(byte: u8, star: u8, digit: u8) -> Option<Run>
    ensures { IfSome result (λ run. (run.byte ≡ byte) × (star ≡ 42) × (digit ≡ 48 + run.count) × (run.count < 10)) }
{
    if star != b'*' || !digit.is_ascii_digit() {
        return None;
    }
    Some(Run {
        byte,
        count: (digit - b'0') as u64,
    })
}

/// The run that a part tells, however many digits its count has.
fn any_run(part: &str) -> Option<Run>
    ensures { option_map run_told result ≡ run_in part.now }
{
    let mut words = Words::new(b'*', part);
    let byte = words.byte()?;
    let count = words.number()?;
    words.are_over().then_some(Run { byte, count })
}

/// How many bytes at the front equal this one, found block by block.
fn run_of(bytes: &[u8], byte: u8) -> usize
    ensures within { result ≤ length bytes.now }
    ensures equal { All (λ b. b ≡ byte) (take result bytes.now) }
    ensures longest { result < length bytes.now → slice_index bytes.now result ≢ byte }
{
    let mut rest = bytes;
    while rest.len() >= BLOCK {
        let (block, behind) = rest.split_at(BLOCK);
        if !is_all(block, byte) {
            break;
        }
        rest = behind;
    }
    bytes.len() - rest.len() + equal_bytes(rest, byte)
}

/// Whether all bytes of a block are this one. Where the first is not, no other is looked at.
fn is_all(block: &[u8], byte: u8) -> bool
    requires { 0 < length block.now }
    ensures { IsTrue result → All (λ b. b ≡ byte) block.now }
{
    block[0] == byte && are_all(block, byte)
}

/// Whether all bytes are this one. All are looked at, many at once.
fn are_all(bytes: &[u8], byte: u8) -> bool
    ensures { IsTrue result → All (λ b. b ≡ byte) bytes.now }
{
    let mut same = true;
    for b in bytes {
        same = same & (*b == byte);
    }
    same
}

/// How many bytes at the front equal this one, found byte by byte.
fn equal_bytes(bytes: &[u8], byte: u8) -> usize
    ensures within { result ≤ length bytes.now }
    ensures equal { All (λ b. b ≡ byte) (take result bytes.now) }
    ensures longest { result < length bytes.now → slice_index bytes.now result ≢ byte }
{
    bytes.iter().position(|b| *b != byte).unwrap_or(bytes.len())
}

/// Writes bytes as their longest runs, joined by commas.
pub(crate) fn write_runs(text: &mut Vec<u8>, bytes: &[u8]) -> Result<(), AllocError>
    ensures { OnOk result (text.new.items ≡ text.old.items ++ runs_text (runs_of bytes.now)) }
{
    let mut rest = bytes;
    while !rest.is_empty() {
        let byte = rest[0];
        let count = run_of(rest, byte);
        let (_, behind) = rest.split_at(count);
        write_run(text, byte, count, behind.is_empty())?;
        rest = behind;
    }
    Ok(())
}

/// Writes a run, and a comma behind it unless it is the last.
fn write_run(text: &mut Vec<u8>, byte: u8, count: usize, is_last: bool) -> Result<(), AllocError>
    ensures { OnOk result (text.new.items ≡ text.old.items ++ (hex_of byte ++ (codes "*" ++ (decimal count ++ comma is_last)))) }
{
    write_byte(text, byte)?;
    text.extend_from_slice(b"*")?;
    write_number(text, count as u64)?;
    if is_last {
        return Ok(());
    }
    text.extend_from_slice(b",")
}
