//! What the port calls.

use sector::Extent;
use srb::{Booked, Completion, DeviceLabel, Srb};
use std::alloc::AllocError;

/// A disk behind tags. Each call but `reserve` takes no memory.
///
/// A label that isn't taken yet has a place in the record of labels, which has 64; callers keep the places that a call
/// asks for.
pub trait Adapter: Drop {
    ghost use Rattle.std.specs.Prelude.{◌≡◌, ◌⊎◌, ◌<◌, ◌≤◌, ◌^◌, ◌+◌, ℕ, [], length, Any, IsTrue, IsOk, OnOk, MatchBool, MatchOption};
    ghost use Rattle.adapter.specs.View.{AdapterView, HasTag, IsFree, IsInOrder, IsReserved, IsWritable, ReservesMore, ReservesNear, Accepts};
    ghost use Rattle.adapter.specs.Calls.{ActsOrFaults, ActsNot, Finishes, FinishesNot, Resets, LeavesFirst, HasNoLabel, HasNoneFresh};
    ghost use Rattle.adapter.specs.Booking.{IsArmed, Books, handed};

    ghost view: { Self → AdapterView };

    /// The bytes of one sector, 512 or 4096.
    fn sector_size(&self) -> u32
        ensures exact { result ≡ (view self.now).sector_size }
        ensures order { IsInOrder (view self.now) };

    /// The number of sectors, from 1 to 2^40.
    fn sectors(&self) -> u64
        ensures exact { result ≡ length (view self.now).sectors }
        ensures order { IsInOrder (view self.now) };

    /// The sectors of the longest transfer, from 1 to 65,536.
    fn max_transfer(&self) -> u32
        ensures exact { result ≡ (view self.now).max_transfer }
        ensures order { IsInOrder (view self.now) };

    /// The number of tags, from 1 to 32.
    fn depth(&self) -> u8
        ensures exact { result ≡ (view self.now).depth }
        ensures order { IsInOrder (view self.now) };

    /// Whether its acts read and write its sectors. If not, these stand elsewhere.
    fn is_faithful(&self) -> bool
        ensures { result ≡ (view self.now).faithful };

    /// Whether the bytes of its labels stand in memory, in the rooms that SRBs bring. If not, contracts alone read them.
    fn keeps_bytes(&self) -> bool
        ensures { result ≡ (view self.now).keeps_bytes };

    /// The failures counted so far: at most one more than twice the pieces accepted.
    fn failures(&self) -> u128
        ensures exact { result ≡ (view self.now).failures }
        ensures order { IsInOrder (view self.now) };

    /// Makes room for writes of an extent of the disk, for good: for the runs of sectors that the extent has a part in,
    /// and no others. An adapter that needs no room has all of its disk reserved from the start.
    ///
    /// # Errors
    ///
    /// [`AllocError`] where memory was refused; room may then have been made for a part. Never where the extent was
    /// reserved before.
    fn reserve(&mut self, extent: Extent) -> Result<(), AllocError>
        requires { extent.first + extent.count ≤ length (view self.old).sectors }
        ensures reserved { OnOk result (IsReserved (view self.new) extent) }
        ensures ready { IsReserved (view self.old) extent → IsOk result }
        ensures reserves { ReservesMore (view self.old) (view self.new) }
        ensures near { ReservesNear (view self.old) extent (view self.new) }
        ensures order { IsInOrder (view self.new) };

    /// Whether a piece is on the tag.
    fn in_use(&self, tag: u8) -> bool
        ensures exact { MatchBool result (Any (HasTag tag) (view self.now).tags) (IsFree (view self.now) tag) }
        ensures order { IsInOrder (view self.now) };

    /// Puts a piece on a free tag below the depth, and records its start. Where labels keep their bytes, its room for the
    /// label holds its data; a write that lies in the disk has its sectors reserved.
    fn accept(&mut self, tag: u8, piece: u128, srb: Srb)
        requires below { tag < (view self.old).depth }
        requires free { IsFree (view self.old) tag }
        requires writable { IsWritable (view self.old) srb }
        requires buffers { IsTrue (view self.old).keeps_bytes → length srb.data ≤ srb.for_label }
        requires few { (view self.old).accepted < 2 ^ 100 }
        requires place { length (view self.old).labels < 64 }
        ensures accepts { Accepts (view self.old) tag piece srb (view self.new) }
        ensures order { IsInOrder (view self.new) };

    /// Carries out the command of the tag's piece, or fails it. False where the tag has no piece, or its piece acted or
    /// failed before.
    fn act(&mut self, tag: u8) -> bool
        requires { length (view self.old).labels < 64 }
        ensures acts { MatchBool result (ActsOrFaults (view self.old) tag (view self.new)) (ActsNot (view self.old) tag (view self.new)) }
        ensures order { IsInOrder (view self.new) };

    /// The piece of the tag, with its SRB, where it has neither acted nor failed; else `None`.
    fn armed(&self, tag: u8) -> Option<(u128, &Srb)>
        ensures exact { MatchOption result (HasNoneFresh (view self.now) tag) (λ found. IsArmed (view self.now) tag found.0 found.1.now) }
        ensures order { IsInOrder (view self.now) };

    /// Books what the act of the tag's piece did, or how it failed, where the sectors stand elsewhere; its next act is
    /// that. Nothing changes for piece 0, for a good or busy completion, or where this piece isn't on the tag, has
    /// acted or failed, or didn't ask for what is to be booked. No memory is taken: the bytes of a read replace those
    /// of the SRB's data, and the bytes of a write stand there.
    fn book(&mut self, tag: u8, piece: u128, what: Booked<'_>)
        ensures books { Books (view self.old) tag piece (handed (view self.old) tag piece what.entry) (view self.new) }
        ensures order { IsInOrder (view self.new) };

    /// Hands back the tag's piece and frees the tag. `None` where the tag is free.
    fn finish(&mut self, tag: u8) -> Option<(Srb, Completion)>
        requires { length (view self.old).labels < 64 }
        ensures finishes { MatchOption result (FinishesNot (view self.old) tag (view self.new)) (λ back. Finishes (view self.old) tag back.0 back.1 (view self.new)) }
        ensures order { IsInOrder (view self.new) };

    /// Fails each piece that has neither acted nor failed. All pieces that are on a tag now come back as BUS_RESET.
    fn reset(&mut self)
        requires { length (view self.old).labels + (view self.old).depth ≤ 64 }
        ensures resets { Resets (view self.old) (view self.new) }
        ensures order { IsInOrder (view self.new) };

    /// Takes the earliest label that was recorded and not taken, as memory has it: where labels don't keep their bytes,
    /// that of an act has none.
    fn take_label(&mut self) -> Option<DeviceLabel>
        ensures takes { MatchOption result (HasNoLabel (view self.old) (view self.new)) (λ label. LeavesFirst (view self.old) label (view self.new)) }
        ensures order { IsInOrder (view self.new) };

    /// Forgets all labels that were not taken.
    fn forget_labels(&mut self)
        ensures forgets { view self.new ≡ record (view self.old) { labels = [] } }
        ensures order { IsInOrder (view self.new) };
}
