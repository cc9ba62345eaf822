//! Packets that came out of the stack, for the requests that follow.

use crate::chains::REQUEST_LIMIT;
use irp::{Irp, Payload};
use std::alloc::{AllocError, Global};
use std::marker::Model;

/// Packets that came out of the stack. A request is sent in one of these; only where none is left it asks for memory.
/// The places are there from the start, so keeping one takes no memory.
#[derive(Drop)]
pub(crate) struct SparePackets {
    packets: Vec<Box<Irp>>,
}

impl Model for SparePackets {
    ghost use Rattle.std.specs.Prelude.{◌≡◌, vec_capacity};

    ghost Value = { Unit {0} };

    ghost view = { λ s. tt };

    ghost invariant = { λ s. vec_capacity s.packets ≡ 64 };
}

impl SparePackets {
    /// None yet, with places for as many as may be open at once.
    ///
    /// # Errors
    ///
    /// [`AllocError`] where memory for the places was refused.
    pub(crate) fn new(alloc: Global) -> Result<SparePackets, AllocError> {
        let packets = Vec::with_capacity(alloc, REQUEST_LIMIT)?;
        Ok(SparePackets { packets })
    }

    /// Takes a packet, a new one where none is kept. It may hold what an earlier request left in it.
    ///
    /// # Errors
    ///
    /// [`AllocError`] where memory for a new one was refused.
    pub(crate) fn take(&mut self, alloc: Global) -> Result<Box<Irp>, AllocError> {
        if let Some(irp) = self.packets.pop() {
            return Ok(irp);
        }
        Ok(Box::new(alloc, Irp::new(0, Payload::Sent))?)
    }

    /// Keeps a packet where a place is free, and else frees it.
    pub(crate) fn keep(&mut self, irp: Box<Irp>) {
        if self.packets.len() < self.packets.capacity() {
            self.packets.push_reserved(irp);
        }
    }
}
