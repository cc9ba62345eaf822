//! The buffers of parts, and the bytes of a request that they carry.

ghost use Rattle.std.specs.Prelude.{◌≡◌, ◌<◌, ◌≤◌, ◌+◌, ℕ, true, false, List, [], IfOk, IsTrue, slice_range};
ghost use Rattle.std.specs.Prelude.{length as list_length, vec_capacity, if◌then◌else◌};
ghost use Rattle.irp.specs.declared.Payload.TheVariants.{Buffer};
ghost use Rattle.class_disk.specs.inside.Parts.{IsBufferOf, AreLeft, joined_of};
ghost use Rattle.class_disk.specs.inside.TableView.{payload_of};
ghost use Rattle.class_disk.specs.inside.TableCalls.{joined_up, payload_up};

use crate::parts::Part;
use device::Kind;
use irp::Payload;
use sector::{Bytes, LabelRoom};
use std::alloc::{AllocError, Global};
use std::mem;

/// The length of a part's own buffer: 0 where it is the only part, which takes its request's buffer.
pub(crate) fn own_bytes(is_only: bool, length: usize) -> usize
    ensures { result ≡ (if is_only then 0 else length) }
{
    if is_only { 0 } else { length }
}

/// A buffer of this many zeros, with room for no more.
fn zeros(alloc: Global, length: usize) -> Result<Vec<u8>, AllocError>
    ensures long { IfOk result (λ buffer. list_length buffer.items ≡ length) }
    ensures room { IfOk result (λ buffer. vec_capacity buffer ≡ length) }
{
    let mut buffer = Vec::with_capacity(alloc, length)?;
    for _ in 0..length {
        buffer.push_reserved(0);
    }
    Ok(buffer)
}

/// A buffer for the data of a part: a write's is filled when the part is sent.
pub(crate) fn data_buffer(alloc: Global, kind: Kind, length: usize) -> Result<Vec<u8>, AllocError>
    ensures { IfOk result (λ buffer. IsBufferOf kind buffer.items (vec_capacity buffer) length) }
{
    match kind {
        Kind::Read => zeros(alloc, length),
        Kind::Write => Vec::with_capacity(alloc, length),
        Kind::Flush => Vec::with_capacity(alloc, 0),
    }
}

/// Room for as many bytes in a label, where labels keep their bytes.
///
/// # Errors
///
/// [`AllocError`] where memory was refused.
pub(crate) fn label_room(alloc: Global, keeps: bool, length: usize) -> Result<LabelRoom, AllocError>
    ensures { IfOk result (λ room. IsTrue keeps → room ≡ length) }
{
    if keeps {
        LabelRoom::new(alloc, length)
    } else {
        Ok(LabelRoom::none(alloc))
    }
}

/// The data of a part that is sent: those of a write, copied from its request's.
pub(crate) fn data_of(mut data: Vec<u8>, bytes: &[u8], at: usize, length: usize) -> Bytes
    requires empty { «data».items ≡ [] }
    requires room { length ≤ vec_capacity «data» }
    requires inside { at + length ≤ list_length bytes.now }
    ensures { result ≡ slice_range bytes.now at (at + length) }
{
    let _ = data.extend_from_slice(&bytes[at..at + length]);
    Bytes::new(data)
}

/// Takes the buffer of a request, which goes below with its only part.
pub(crate) fn lent(payload: &mut Payload) -> Bytes
    requires { (bytes : List ℕ) × (payload.old ≡ Buffer bytes) }
    ensures { payload.old ≡ Buffer result }
{
    match mem::replace(payload, Payload::Sent) {
        Payload::Buffer(bytes) => bytes,
        Payload::Srb(_) | Payload::Sent => unreachable!(),
    }
}

/// The buffer of a read, with the bytes of all its parts by their places.
fn joined(buffer: Bytes, parts: &[Part]) -> Bytes
    requires { list_length (joined_of parts.now) ≤ list_length buffer }
    ensures { result ≡ joined_of parts.now }
{
    let mut bytes = buffer.into_vec();
    bytes.clear();
    for part in parts {
        let _ = bytes.extend_from_slice(part.bytes());
    }
    Bytes::new(bytes)
}

/// Returns what a packet with a buffer of its own carries up: where the parts are to be joined, their bytes.
fn own_up(payload: Payload, joins: bool, parts: &[Part]) -> Payload
    requires { (bytes : List ℕ) → joins ≡ true → payload ≡ Buffer bytes
        → list_length (joined_of parts.now) ≤ list_length bytes }
    ensures { result ≡ joined_up joins payload parts.now }
{
    match (payload, joins) {
        (Payload::Buffer(bytes), true) => Payload::Buffer(joined(bytes, parts)),
        (payload, _) => payload,
    }
}

/// Returns what a packet carries up: the buffer that was lent to its only part, or its own.
pub(crate) fn carried_up(payload: Payload, lent: bool, joins: bool, parts: &mut [Part]) -> Payload
    requires some { lent ≡ true → 0 < list_length parts.old }
    requires room { (bytes : List ℕ) → lent ≡ false → joins ≡ true → payload ≡ Buffer bytes
        → list_length (joined_of parts.old) ≤ list_length bytes }
    ensures carries { (noted : List ℕ) → result ≡ payload_up lent joins (payload_of lent noted payload) parts.old }
    ensures left { AreLeft parts.old parts.new }
{
    if lent {
        return parts[0].give_back();
    }
    own_up(payload, joins, parts)
}
