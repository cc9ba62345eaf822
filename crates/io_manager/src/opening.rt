//! A manager before its first call: empty tables over a device of which nothing was asked yet.

ghost use Rattle.std.specs.Prelude.{◌≡◌, ◌≤◌, [], IfErr, IfOk, IsFalse};
ghost use Rattle.io_manager.specs.inside.Sound.{HasPlaces};
ghost use Rattle.io_manager.specs.Opening.{IsUnasked, AreFor, AreEmpty, IsFirstView};

use crate::Limits;
use crate::chains::Chains;
use crate::label_queue::LabelQueue;
use crate::manager::IoManager;
use crate::parts::Parts;
use crate::spare_packets::SparePackets;
use crate::tables::{HANDLE_LIMIT, LABEL_PLACES, Tables};
use device::{Device, Shown};
use pnp::State;
use slab::Slab;
use std::alloc::{AllocError, Global};
use std::collections::VecDeque;

/// The number of places for answers: as many as a step tells.
const ANSWER_PLACES: usize = 64;

/// A table of this many slots.
///
/// # Errors
///
/// [`AllocError`] where memory was refused.
fn slots<T: Drop>(alloc: Global, places: usize) -> Result<Slab<T>, AllocError>
    ensures empty { IfOk result (λ slab. slab.slots ≡ []) }
    ensures places { IfOk result (λ slab. slab.capacity ≡ places) }
{
    let slab = Slab::with_capacity(alloc, places)?;
    // A slab may have more places than it was asked for, and then slots past these.
    if slab.capacity() != places {
        return Err(AllocError);
    }
    Ok(slab)
}

impl Tables {
    /// Empty tables, with places for all that a step may add.
    ///
    /// # Errors
    ///
    /// [`AllocError`] where memory for the places was refused.
    pub(crate) fn new(alloc: Global, limits: &Limits) -> Result<Tables, AllocError>
        ensures empty { IfOk result AreEmpty }
        ensures places { IfOk result (HasPlaces limits.now) }
    {
        Ok(Tables {
            next_request: 1,
            next_handle: 1,
            state: State::Started,
            handles: slots(alloc, HANDLE_LIMIT)?,
            requests: slots(alloc, limits.open_requests as usize)?,
            chains: Chains::new(),
            by_number: Chains::new(),
            open_counts: [0; HANDLE_LIMIT],
            labels: LabelQueue::new(alloc, LABEL_PLACES, limits.keeps_bytes)?,
            answered: LabelQueue::new(alloc, ANSWER_PLACES, limits.keeps_bytes)?,
            untaken: VecDeque::new(alloc),
        })
    }
}

impl<D: Device> IoManager<D> {
    /// A manager over a device of which nothing was asked yet, with places for its 64 handles, its open requests and
    /// the labels and answers of a step. The device takes buffers, needs four locations at most, takes at least 2^62
    /// requests, and has nothing reserved; `limits` are its own sizes, with 1 to 64 open requests.
    ///
    /// # Errors
    ///
    /// The device, as it was, where memory for these was refused.
    pub fn new(alloc: Global, device: D, limits: Limits) -> Result<IoManager<D>, D>
        requires takes_buffers { IsFalse D.takes_srb }
        requires locations { D.stack_size ≤ 4 }
        requires unasked { IsUnasked (D.view device) }
        requires limits { AreFor (D.view device) limits }
        ensures view { IfOk result (IsFirstView limits (D.view device)) }
        ensures refused { IfErr result (λ back. D.view back ≡ D.view device) }
    {
        device.shows_order();
        let Ok(tables) = Tables::new(alloc, &limits) else {
            return Err(device);
        };
        let Ok(spare_packets) = SparePackets::new(alloc) else {
            return Err(device);
        };
        let parts = Parts {
            device,
            limits,
            tables,
            spare_packets,
        };
        Ok(IoManager { parts })
    }
}
