//! Packets and lists of parts that were given back, kept for the requests that follow.

ghost use Rattle.std.specs.Prelude.{◌≡◌, ◌≤◌, [], IfOk, IfSome, vec_capacity};

use crate::parts::Part;
use irp::{Irp, Payload};
use std::alloc::{AllocError, Global};

/// The most packets that are kept.
const PACKETS: usize = 64;

/// The most lists that are kept, and the most places of each: the list of a long request is freed.
const LISTS: usize = 16;

const PLACES: usize = 64;

/// What is kept. The places for it are made as something is asked for, so keeping takes no memory.
#[derive(Drop)]
pub(crate) struct Spares {
    packets: Vec<Box<Irp>>,
    lists: Vec<Vec<Part>>,
}

impl Spares {
    /// Nothing is kept, and there are no places yet.
    pub fn new(alloc: Global) -> Spares {
        Spares {
            packets: Vec::new(alloc),
            lists: Vec::new(alloc),
        }
    }

    /// A packet, whatever it was before.
    ///
    /// # Errors
    ///
    /// [`AllocError`] where none is kept and memory was refused.
    pub fn packet(&mut self, alloc: Global) -> Result<Box<Irp>, AllocError> {
        if let Some(irp) = self.packets.pop() {
            return Ok(irp);
        }
        if self.packets.capacity() == 0 {
            self.packets = Vec::with_capacity(alloc, PACKETS)?;
        }
        Ok(Box::new(alloc, Irp::new(0, Payload::Sent))?)
    }

    /// Keeps a packet, without what it carries, or frees it where there is no place.
    pub fn keep_packet(&mut self, mut irp: Box<Irp>)
        ensures packets { vec_capacity self.new.packets ≡ vec_capacity self.old.packets }
        ensures lists { self.new.lists ≡ self.old.lists }
    {
        if self.packets.len() < self.packets.capacity() {
            irp.payload = Payload::Sent;
            self.packets.push_reserved(irp);
        }
    }

    /// A list that was kept last, where it has places for so many parts.
    fn kept_list(&mut self, count: usize) -> Option<Vec<Part>>
        ensures none { IfSome result (λ parts. parts.items ≡ []) }
        ensures places { IfSome result (λ parts. count ≤ vec_capacity parts) }
    {
        let mut parts = self.lists.pop()?;
        if parts.capacity() < count {
            return None;
        }
        parts.clear();
        Some(parts)
    }

    /// An empty list with places for so many parts.
    ///
    /// # Errors
    ///
    /// [`AllocError`] where the list that was kept last is too short, or none is kept, and memory was refused.
    pub fn parts(&mut self, alloc: Global, count: usize) -> Result<Vec<Part>, AllocError>
        ensures none { IfOk result (λ parts. parts.items ≡ []) }
        ensures places { IfOk result (λ parts. count ≤ vec_capacity parts) }
    {
        if let Some(parts) = self.kept_list(count) {
            return Ok(parts);
        }
        if self.lists.capacity() == 0 {
            self.lists = Vec::with_capacity(alloc, LISTS)?;
        }
        Vec::with_capacity(alloc, count)
    }

    /// Keeps a list of parts, or frees it where it is long or there is no place. The list of a request whose packet
    /// went up has no places, and is of no use.
    pub fn keep_parts(&mut self, parts: Vec<Part>)
        ensures packets { self.new.packets ≡ self.old.packets }
        ensures lists { vec_capacity self.new.lists ≡ vec_capacity self.old.lists }
    {
        let serves = parts.capacity() > 0 && parts.capacity() <= PLACES;
        if serves && self.lists.len() < self.lists.capacity() {
            self.lists.push_reserved(parts);
        }
    }
}
