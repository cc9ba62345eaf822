//! Buffers that came back with answers, for the reads and the writes that follow.

ghost use Rattle.std.specs.Prelude.{◌≡◌, IfOk, replicate};

use machine::Label;
use std::alloc::{AllocError, Global};
use std::mem;

/// The longest buffer that is kept as a small one, in bytes.
const SMALL: usize = 65_536;

/// How many small buffers are kept: as many as requests may be open.
const KEPT: usize = 64;

/// Buffers, whatever stands in them: small ones, and the largest of the others.
#[derive(Drop)]
pub(crate) struct Spare {
    small: Vec<Vec<u8>>,
    large: Vec<u8>,
}

impl Spare {
    /// No buffers, and no places for small ones.
    pub fn new(alloc: Global) -> Spare {
        Spare {
            small: Vec::new(alloc),
            large: Vec::new(alloc),
        }
    }

    /// No buffers yet. To keep one takes no memory.
    ///
    /// # Errors
    ///
    /// [`AllocError`] where memory for the places was refused.
    pub fn with_places(alloc: Global) -> Result<Spare, AllocError> {
        Ok(Spare {
            small: Vec::with_capacity(alloc, KEPT)?,
            large: Vec::new(alloc),
        })
    }

    /// Makes this many equal bytes, in a buffer that was kept where that has room for them.
    ///
    /// # Errors
    ///
    /// [`AllocError`] where memory for them was refused.
    pub fn filled(&mut self, alloc: Global, byte: u8, length: usize) -> Result<Vec<u8>, AllocError>
        ensures { IfOk result (λ bytes. bytes.items ≡ replicate length byte) }
    {
        let mut bytes = self.take(alloc, length);
        if bytes.capacity() < length {
            drop(bytes);
            return vec![in alloc; byte; length];
        }
        bytes.clear();
        bytes.resize(length, byte)?;
        Ok(bytes)
    }

    /// Takes a buffer for this many bytes, which may have no room for them.
    fn take(&mut self, alloc: Global, length: usize) -> Vec<u8> {
        if length > SMALL {
            return mem::replace(&mut self.large, Vec::new(alloc));
        }
        match self.small.pop() {
            Some(bytes) => bytes,
            None => Vec::new(alloc),
        }
    }

    /// Keeps the buffer of an answer's label.
    pub fn keep(&mut self, label: Label) {
        let Label::Answer { bytes, .. } = label else {
            return;
        };
        let bytes = bytes.into_vec();
        let room = bytes.capacity();
        if room > SMALL {
            if room > self.large.capacity() {
                self.large = bytes;
            }
        } else if room > 0 && self.small.len() < self.small.capacity() {
            self.small.push_reserved(bytes);
        }
    }
}
