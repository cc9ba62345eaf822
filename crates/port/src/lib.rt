//! The port: it queues the packets of the disk, and hands their SRBs to an adapter by tags.
//!
//! # Promises
//!
//! `Port<A>` is a `Device` over any adapter, and shows one volume, the whole disk (`opening`). Packets start in turn,
//! on the lowest free tag, and wait only while all are in use (`IsSending`). `cancel_at` visits three entries of the
//! queue at most (`visits`), and walks the packets that ended once (`walks`).
#![tactic(auto)]

ghost use Rattle.std.specs.Prelude.{◌≡◌, IfErr, IfOk};
ghost use Rattle.port.specs.Opening.{IsFresh, opening_view};

mod ended;
mod layer;
mod queues;
mod table_calls;

use adapter::Adapter;
use queues::{Queues, Sizes};
use std::alloc::Global;
use std::marker::Model;

/// The adapter and the packets, which are in order between two calls of the port and not within one.
#[derive(Drop)]
struct Parts<A: Adapter> {
    adapter: A,
    queues: Queues,
}

/// The port of an adapter.
pub struct Port<A: Adapter> {
    parts: Parts<A>,
}

impl<A: Adapter> Model for Port<A> {
    ghost use Rattle.port.specs.inside.TableView.{books_of, visits_of};
    ghost use Rattle.port.specs.Over.{PortView, port_of};
    ghost use Rattle.port.specs.inside.Invariant.{IsSound};

    ghost Value = { PortView };

    ghost view = { λ s. port_of (books_of s.parts.queues) (A.view s.parts.adapter) (visits_of s.parts.queues) };

    ghost invariant = { λ s. IsSound (books_of s.parts.queues) (A.view s.parts.adapter) };
}

// By hand, so that no crate above proves it again, as it would a derived one.
impl<A: Adapter> Drop for Port<A> {
    fn drop(self) {
        let Port { parts: _ } = self;
    }
}

impl<A: Adapter> Port<A> {
    /// The port of an adapter whose tags are free and whose labels are all taken, and which accepted three commands at
    /// most: those of a start that read its size, in ten bytes or in sixteen, and its partition table.
    ///
    /// # Errors
    ///
    /// The adapter, as it was, where the memory for the tags was refused.
    pub fn new(alloc: Global, adapter: A) -> Result<Port<A>, A>
        requires { IsFresh (A.view adapter) }
        ensures opening { IfOk result (λ port. port.shown ≡ opening_view (A.view adapter)) }
        ensures refused { IfErr result (λ back. A.view back ≡ A.view adapter) }
    {
        let sizes = Sizes {
            sector_size: adapter.sector_size(),
            sectors: adapter.sectors(),
            max_transfer: adapter.max_transfer(),
            depth: adapter.depth(),
            faithful: adapter.is_faithful(),
            keeps_bytes: adapter.keeps_bytes(),
        };
        let Ok(queues) = Queues::new(alloc, sizes) else {
            return Err(adapter);
        };
        let parts = Parts { adapter, queues };
        Ok(Port { parts })
    }

    /// Gives the adapter back, as it is, with what is on its tags. The packets that the port has are gone.
    pub fn into_adapter(self) -> A
        ensures adapter { A.view result ≡ self.shown.adapter }
    {
        let Port { parts } = self;
        let Parts { adapter, queues: _ } = parts;
        adapter
    }
}
