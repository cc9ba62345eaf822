//! Buffers of one length.

ghost use Rattle.std.specs.Prelude.{◌≡◌, ◌==◌, ◌≤◌, ◌<◌, ◌+◌, ◌-◌, min, IfOk, OnOk, OnErr, MatchOption, length, vec_len, vec_capacity, All};
ghost use Rattle.sector_journal.specs.inside.Pooling.{IsOfLength, TakesOne};

use sector::Bytes;
use std::alloc::{AllocError, Global};
use std::marker::Model;

/// The buffers of one length that are there. Contracts see the length, how many there are, and how many were promised.
#[derive(Debug, Drop)]
pub(crate) struct SizeClass {
    /// The length of each buffer, in bytes.
    bytes: usize,
    free: Vec<Bytes>,
    /// How many pieces of this length the open requests have. There are as many places for buffers.
    promised: usize,
}

impl Model for SizeClass {
    ghost use Rattle.std.specs.Prelude.{◌≤◌, All, length, vec_capacity};
    ghost use Rattle.sector_journal.specs.Pooling.{SizeClassView};
    ghost use Rattle.sector_journal.specs.inside.Pooling.{IsOfLength};

    ghost Value = { SizeClassView };

    ghost view = { λ s. record { bytes = s.bytes; pieces = length s.free.items; promised = s.promised } };

    ghost invariant = { λ s. record {
      lengths : All (λ buffer. IsOfLength buffer s.bytes) s.free.items;
      places : s.promised ≤ vec_capacity s.free;
    } };
}

fn make_buffer(alloc: Global, length: usize) -> Result<Bytes, AllocError>
    ensures { IfOk result (λ b. IsOfLength b length) }
{
    let bytes = vec![in alloc; 0; length]?;
    Ok(Bytes::new(bytes))
}

/// Puts this many buffers behind others.
fn fill(alloc: Global, long: usize, missing: usize, free: &mut Vec<Bytes>) -> Result<(), AllocError>
    requires { All (λ buffer. IsOfLength buffer long) free.old.items }
    ensures lengths { All (λ buffer. IsOfLength buffer long) free.new.items }
    ensures made { OnOk result (length free.new.items ≡ length free.old.items + missing) }
    ensures no_less { length free.old.items ≤ length free.new.items }
    ensures places { vec_capacity free.old ≤ vec_capacity free.new }
{
    for _ in 0..missing {
        let buffer = make_buffer(alloc, long)?;
        free.push(buffer)?;
    }
    Ok(())
}

impl SizeClass {
    /// No buffer of this length.
    pub fn new(alloc: Global, length: usize) -> SizeClass
        ensures { result ≡ record { bytes = length; pieces = 0; promised = 0 } }
    {
        SizeClass {
            bytes: length,
            free: Vec::new(alloc),
            promised: 0,
        }
    }

    /// The bytes of each buffer.
    pub fn length(&self) -> usize
        ensures { result ≡ self.now.bytes }
    {
        self.bytes
    }

    /// Whether no open request has a piece of this length.
    pub fn is_spent(&self) -> bool
        ensures { result ≡ (self.now.promised == 0) }
    {
        self.promised == 0
    }

    /// Makes the buffers of this many pieces more, and places for those of all that were promised.
    pub fn promise(&mut self, alloc: Global, pieces: usize) -> Result<(), AllocError>
        ensures made { OnOk result (self.new ≡ record self.old { pieces = self.old.pieces + pieces; promised = self.old.promised + pieces }) }
        ensures refused { OnErr result (self.new ≡ self.old) }
    {
        let there = self.free.len();
        let Some(wanted) = self.promised.checked_add(pieces) else {
            return Err(AllocError);
        };
        self.free.reserve(wanted.saturating_sub(there))?;
        if fill(alloc, self.bytes, pieces, &mut self.free).is_err() {
            self.free.truncate(there);
            return Err(AllocError);
        }
        self.promised = wanted;
        Ok(())
    }

    /// Drops the buffers of this many pieces that were made last.
    pub fn forget(&mut self, pieces: usize)
        ensures { self.new ≡ record self.old { pieces = self.old.pieces - pieces; promised = self.old.promised - pieces } }
    {
        self.promised = self.promised.saturating_sub(pieces);
        self.free.truncate(self.free.len().saturating_sub(pieces));
    }

    /// Drops the buffers that no open request can need, where `out` pieces have theirs.
    fn trim(&mut self, out: usize)
        ensures { self.new ≡ record self.old { pieces = min self.old.pieces (self.old.promised - out) } }
    {
        self.free.truncate(self.promised.saturating_sub(out));
    }

    /// Counts pieces that won't come any more, and drops the buffers that no open request can need.
    pub fn withdraw(&mut self, pieces: usize, out: usize)
        ensures { self.new ≡ record self.old { pieces = min self.old.pieces (self.old.promised - pieces - out); promised = self.old.promised - pieces } }
    {
        self.promised = self.promised.saturating_sub(pieces);
        self.trim(out);
    }

    /// Takes the buffer of a piece.
    pub fn take(&mut self) -> Option<Bytes>
        ensures { MatchOption result ((self.old.pieces ≡ 0) × (self.new ≡ self.old)) (λ b. IsOfLength b self.old.bytes × TakesOne self.old self.new) }
    {
        self.free.pop()
    }

    /// Puts back the buffer of a piece that won't act, where there is a place.
    pub fn put(&mut self, buffer: Bytes)
        requires { IsOfLength buffer self.old.bytes }
        ensures same { self.new ≡ record self.old { pieces = self.new.pieces } }
        ensures no_less { self.old.pieces ≤ self.new.pieces }
        ensures back { min (self.old.pieces + 1) self.old.promised ≤ self.new.pieces }
    {
        if self.free.len() < self.free.capacity() {
            self.free.push_reserved(buffer);
        }
    }
}
