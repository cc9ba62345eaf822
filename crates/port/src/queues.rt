//! The port's packets, by where they are: those that wait, those at the adapter by tags, and those that ended.

ghost use Rattle.std.specs.Prelude.{◌≤◌};
ghost use Rattle.std.specs.VecDeque.{deque_capacity};
ghost use Rattle.slab.specs.Slab.{slab_len};
ghost use Rattle.port.specs.inside.Covered.{AreCovered};

use crate::ended::EndedList;
use device::Request;
use irp::Irp;
use linked::{Linked, Numbered};
use slab::Slab;
use srb::Class;

/// The sizes of the adapter's disk.
#[derive(Debug, Clone, Copy, PartialEq, Eq)]
pub struct Sizes {
    /// Bytes of a sector.
    pub sector_size: u32,
    /// Sectors of the disk.
    pub sectors: u64,
    /// Sectors of the longest transfer.
    pub max_transfer: u32,
    /// The number of tags.
    pub depth: u8,
    /// Whether acts read and write the adapter's sectors.
    pub faithful: bool,
    /// Whether the bytes of labels stand in memory.
    pub keeps_bytes: bool,
}

/// How a packet ended.
#[derive(Debug, Clone, Copy, PartialEq, Eq)]
pub enum Outcome {
    /// Its piece came back.
    Returned(Class),
    /// It was cancelled while it waited (WDK: SRB_STATUS_REQUEST_FLUSHED).
    Withdrawn,
    /// It waited when the device was removed (WDK: SRB_STATUS_NO_DEVICE).
    Gone,
}

/// A packet that waits, with what it asks for.
#[derive(Debug, Drop)]
pub(crate) struct Waiting {
    pub irp: Box<Irp>,
    pub request: Request,
}

impl Numbered for Waiting {
    ghost number_of = { λ waiting. waiting.irp.value.number };

    fn number(&self) -> u128 {
        self.irp.number
    }
}

/// A packet at the adapter, with the spot that it had in the queue.
#[derive(Debug, Drop)]
pub struct PortPacket {
    pub irp: Box<Irp>,
    pub request: Request,
    pub spot: usize,
}

/// A packet that ended and was not taken yet.
#[derive(Debug, Drop)]
pub struct Ended {
    pub irp: Box<Irp>,
    pub request: Request,
    pub spot: usize,
    pub outcome: Outcome,
}

/// The packets, each in one queue, and the places for them. Only `add_place` makes places.
#[derive(Drop)]
pub(crate) struct Queues {
    pub sizes: Sizes,
    /// The packets that wait, first in, first out.
    pub waiting: Linked<Waiting>,
    pub started: Vec<Option<PortPacket>>,
    pub done: EndedList,
    /// The last number submitted; 0 before the first.
    pub last_request: u128,
    pub next_piece: u128,
    pub submitted: u128,
    pub removing: bool,
    /// By spots: the request that a spot is reserved for, or `None` where a packet has the spot.
    pub rooms: Slab<Option<Request>>,
    ghost covered: { AreCovered rooms waiting.places },
    ghost done_places: { slab_len rooms ≤ deque_capacity done.list },
}
