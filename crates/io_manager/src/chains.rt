//! Chains of open requests, each by rising numbers: one for each handle, or for each remainder of a number by 64.

ghost use Rattle.std.specs.Prelude.{◌≡◌, ◌<◌, false, slice_index, MatchBool};
ghost use Rattle.io_manager.specs.inside.Chains.{chain_end, LeadsTo, AreEnds, PutsLast, TakesOut, CanJoin, CanLeave};

/// The number of slots for open requests.
pub(crate) const REQUEST_LIMIT: usize = 64;

/// The number of chains: one for each slot of a handle, or one for each remainder.
pub(crate) const CHAIN_LIMIT: usize = 64;

/// The number of joints: one for each slot of a request, and behind them one for the end of each chain.
const JOINTS: usize = REQUEST_LIMIT + CHAIN_LIMIT;

/// The chains. Each is linked both ways, from its end through its requests and back. The links of a joint outside all
/// chains are arbitrary.
#[derive(Drop)]
pub(crate) struct Chains {
    after: [u8; JOINTS],
    before: [u8; JOINTS],
}

/// The end of a chain.
fn end_of(chain: usize) -> usize
    requires { chain < 64 }
    ensures { result ≡ chain_end chain }
{
    REQUEST_LIMIT + chain
}

/// The slot of the request that a link leads to; none where that is an end.
fn slot_at(link: u8) -> Option<usize>
    ensures { LeadsTo link result }
{
    let slot = link as usize;
    if slot < REQUEST_LIMIT {
        Some(slot)
    } else {
        None
    }
}

impl Chains {
    /// Chains of no requests: each end is linked to itself.
    pub(crate) fn new() -> Chains
        ensures { AreEnds result }
    {
        let mut ends = [0; JOINTS];
        for joint in 0..JOINTS {
            ends[joint] = joint as u8;
        }
        Chains {
            after: ends,
            before: ends,
        }
    }

    /// The slot of the first request in a chain.
    pub(crate) fn first(&self, chain: usize) -> Option<usize>
        requires { chain < 64 }
        ensures { LeadsTo (slice_index self.now.after (chain_end chain)) result }
    {
        slot_at(self.after[end_of(chain)])
    }

    /// The slot of the request behind the one in a slot.
    pub(crate) fn next(&self, slot: usize) -> Option<usize>
        requires { slot < 64 }
        ensures { LeadsTo (slice_index self.now.after slot) result }
    {
        slot_at(self.after[slot])
    }

    /// Puts the request in a slot last in a chain.
    pub(crate) fn put_last(&mut self, chain: usize, slot: usize)
        requires { CanJoin self.old chain slot }
        ensures { PutsLast self.old chain slot self.new }
    {
        let end = end_of(chain);
        let last = self.before[end];
        self.after[last as usize] = slot as u8;
        self.after[slot] = end as u8;
        self.before[slot] = last;
        self.before[end] = slot as u8;
    }

    /// Takes the request in a slot out of its chain, wherever it stands there.
    pub(crate) fn take_out(&mut self, slot: usize)
        requires { CanLeave self.old slot }
        ensures { TakesOut self.old slot self.new }
    {
        let (last, next) = (self.before[slot], self.after[slot]);
        self.after[last as usize] = next;
        self.before[next as usize] = last;
    }

    /// Takes the request in a slot out of its chain, unless it was cancelled and so is in no chain.
    pub(crate) fn take_out_unless(&mut self, slot: usize, cancelled: bool)
        requires { cancelled ≡ false → CanLeave self.old slot }
        ensures { MatchBool cancelled (self.new ≡ self.old) (TakesOut self.old slot self.new) }
    {
        if !cancelled {
            self.take_out(slot);
        }
    }
}
