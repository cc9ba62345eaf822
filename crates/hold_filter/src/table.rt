//! The packets of the filter: those that it holds, those that were cancelled while it held them, and how many are
//! below.

use device::Room;
use irp::{CancelRoutine, Irp};
use linked::{Linked, Numbered};

/// A packet that the filter holds, with its room below.
#[derive(Drop)]
pub(crate) struct Held {
    pub irp: Box<Irp>,
    /// The cancel routine that the packet came with, if any.
    pub routine: Option<CancelRoutine>,
    pub room: Room,
}

impl Numbered for Held {
    ghost number_of = { λ held. held.irp.value.number };

    fn number(&self) -> u128 {
        self.irp.number
    }
}

/// The packets by the spots of their rooms below, and what was counted.
#[derive(Drop)]
pub(crate) struct Table {
    /// How many requests may be below.
    pub window: usize,
    /// The packets that are held, first in, first out.
    pub held: Linked<Held>,
    /// The packets that were cancelled while they were held, until they are handed up.
    pub ended: Linked<Held>,
    /// How many packets are below.
    pub below: usize,
    /// The last number submitted; 0 before the first.
    pub last_number: u128,
    pub submitted: u128,
    pub paused: bool,
    pub removing: bool,
}
