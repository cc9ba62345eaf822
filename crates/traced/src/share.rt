//! The share of a client.

ghost use Rattle.std.specs.Prelude.{◌≡◌, ◌<◌, ◌+◌, None, length};

use crate::name::TraceNaming;
use compose::Handle;
use std::marker::Model;
use std::sync::ledger;
use std::sync::ledger::Share as Part;

/// A client's number, its handle and the count of its calls, which nobody can copy. Contracts see all three.
#[derive(Drop)]
pub struct Share<N: TraceNaming> {
    client: usize,
    handle: Handle,
    part: Part<N>,
}

impl<N: TraceNaming> Model for Share<N> {
    ghost use Rattle.std.specs.Prelude.{◌≡◌, ◌<◌, ◌+◌, length};
    ghost use Rattle.traced.specs.Shares.{ShareView};

    ghost Value = { ShareView };

    ghost view = { λ s. record { client = s.client; handle = s.handle; calls = s.part.amount } };

    ghost invariant = { λ s. (s.client < length N.partitions) × (s.handle.number ≡ s.client + 1) × (s.part.parts ≡ 1) };
}

impl<N: TraceNaming> Share<N> {
    /// The share of a client that has called nothing.
    pub fn new(client: usize, handle: Handle, part: Part<N>) -> Share<N>
        requires client { client < length N.partitions }
        requires handle { handle.number ≡ client + 1 }
        requires part { (part.parts ≡ 1) × (part.amount ≡ 0) }
        ensures { result ≡ record { client = client; handle = handle; calls = 0 } }
    {
        Share {
            client,
            handle,
            part,
        }
    }

    /// No share, for an event that is no call: `None` at its type.
    pub fn none<'s>() -> Option<&'s mut Share<N>>
        ensures { result ≡ None }
    {
        None
    }

    /// The client's number, from 0.
    pub fn client(&self) -> usize
        ensures number { result ≡ self.now.client }
        ensures small { result < length N.partitions }
    {
        self.client
    }

    /// The client's handle.
    pub fn handle(&self) -> Handle
        ensures { result ≡ self.now.handle }
    {
        self.handle
    }

    /// The part of the ledger that the share was made of.
    pub fn into_part(self) -> Part<N>
        ensures { (result.parts ≡ 1) × (result.amount ≡ self.calls) }
    {
        let Share { part, .. } = self;
        part
    }

    /// Counts calls.
    pub(crate) fn count(&mut self, tally: &mut ledger::Book<N>, calls: u64)
        ensures share { self.new ≡ record self.old { calls = self.old.calls + calls } }
        ensures total { tally.new.total ≡ tally.old.total + calls }
    {
        tally.add(&mut self.part, calls);
    }
}
