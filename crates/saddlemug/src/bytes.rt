//! Bytes that come from C and go to it.

ghost use Rattle.std.specs.Prelude.{◌≡◌, IfOk, drop, length, min, replicate, take};

use sector::Bytes;
use std::alloc::{AllocError, Global};

/// Copies the bytes.
///
/// # Errors
///
/// [`AllocError`] where memory was refused.
pub(crate) fn copied(alloc: Global, bytes: &[u8]) -> Result<Bytes, AllocError>
    ensures { IfOk result (λ copy. copy ≡ bytes.now) }
{
    let mut copy = Vec::with_capacity(alloc, bytes.len())?;
    copy.extend_from_slice(bytes)?;
    Ok(Bytes::new(copy))
}

/// Returns this many zeros.
///
/// # Errors
///
/// [`AllocError`] where memory was refused.
pub(crate) fn zeros(alloc: Global, count: u64) -> Result<Bytes, AllocError>
    ensures { IfOk result (λ zeros. zeros ≡ replicate count 0) }
{
    let mut zeros = Vec::new(alloc);
    zeros.resize(count as usize, 0)?;
    Ok(Bytes::new(zeros))
}

/// Puts bytes into a buffer, as many as have room, and returns how many there are in all.
pub(crate) fn put(buffer: &mut [u8], bytes: &[u8]) -> u64
    ensures count { result ≡ length bytes.now }
    ensures put { take (min (length bytes.now) (length buffer.old)) buffer.new ≡ take (min (length bytes.now) (length buffer.old)) bytes.now }
    ensures behind { drop (min (length bytes.now) (length buffer.old)) buffer.new ≡ drop (min (length bytes.now) (length buffer.old)) buffer.old }
{
    let room = bytes.len().min(buffer.len());
    buffer[..room].copy_from_slice(&bytes[..room]);
    bytes.len() as u64
}
