//! What each layer is to the one above.

ghost use Rattle.std.specs.Prelude.{◌≡◌, ◌≢◌, ◌<◌, ◌≤◌, ◌+◌, ℕ, Bool, length, Some, IsTrue, IsFalse, IfOk, OnErr};
ghost use Rattle.std.specs.Prelude.{All, MatchBool, MatchOption};
ghost use Rattle.srb.specs.declared.Kind.TheVariants.{Write};
ghost use Rattle.machine.specs.declared.Request.{Request};
ghost use Rattle.machine.specs.Rules.{sectors_of};
ghost use Rattle.machine.specs.Settled.{WaitsIfCancelled};
ghost use Rattle.adapter.specs.Calls.{HasNoneFresh};
ghost use Rattle.adapter.specs.Booking.{IsArmed, handed};
ghost use Rattle.device.specs.View.{DeviceView, IsBounded, IsOrderly, IsReady, IsReserved, AsksInLocation, Carries};
ghost use Rattle.device.specs.View.{label_places, packet_of, request_at};
ghost use Rattle.device.specs.Served.{ReservesSpot, ReservesNone, ReservesNear, Frees, Submits, ActsOrFaults, ActsNot};
ghost use Rattle.device.specs.Served.{BooksPiece};
ghost use Rattle.device.specs.Served.{Finishes, FinishesNot, Resets, CancelsIfOpen, CancelsAt, DrainsAll};
ghost use Rattle.device.specs.Served.{PausesAll, ResumesAll};
ghost use Rattle.device.specs.Served.{HandsUp, HandsUpNone, TakesLabel, ForgetsLabels};

use crate::{Climb, Request};
use irp::Irp;
use srb::{Booked, DeviceLabel, Srb};
use std::alloc::AllocError;

/// A spot reserved in a layer, for one request: of one packet, where all that this needs is there (`IsReady`). After
/// `take_done` a part may be gone; the room is then only freed.
#[derive(Debug, Drop)]
pub struct Room {
    pub spot: usize,
}

/// What contracts see of a layer. A layer over another is a struct with this bound alone, since its `Model` cites the
/// view below. Only the impls of its calls have the bound `Device`.
pub trait Shown: Drop {
    ghost view: { Self → DeviceView };

    /// Whether packets come with an SRB.
    ghost takes_srb: { Bool };

    /// Stack locations that a packet needs from this layer on.
    ghost stack_size: { ℕ };
}

/// A driver's device object in the stack, as the driver above sees it (WDK: device stack).
///
/// What it shows is `view`: the sector machine over the layer's own arrays, the packets that it has, the spots that
/// are reserved, and the adapter below. Each call moves the machine as its clause says; where `take_done` has nothing
/// to give, the machine is settled.
///
/// A packet goes by pointer (WDK: PIRP), and whoever makes it takes its memory in a `reserve`: no other call takes
/// memory. Of the tables that `places` shows: they have the same room after each other call (`SamePlaces`).
///
/// The adapter's record has 64 places for labels. `label_places` counts those that hold a label which nobody took, and
/// one for each free tag. A caller of `act`, `finish` or `reset` sees that enough are left; `take_label` frees one.
pub trait Device: Shown {
    /// Whether packets come with an SRB that asks for their request, and not with a buffer.
    const TAKES_SRB: bool;

    ghost TAKES_SRB: { Bool };

    /// Stack locations that a packet needs from this layer on, its own among them (WDK: StackSize of a device object).
    const STACK_SIZE: usize;

    ghost STACK_SIZE: { ℕ };

    /// Shows the caller that the layer is in order.
    fn shows_order(&self)
        ensures order { IsOrderly (Self.view self.now) };

    /// The number of volumes, which are numbered from 0.
    fn volumes(&self) -> u8
        ensures { result ≡ length (Self.view self.now).rules.partitions };

    /// Sectors of a volume; 0 where there is none of that number.
    fn sectors(&self, volume: u8) -> u64
        ensures { result ≡ sectors_of (Self.view self.now).rules (Some volume) };

    /// Sectors of the longest request that the layer takes.
    fn longest(&self) -> u64
        ensures { result ≡ (Self.view self.now).rules.longest };

    /// Whether the bytes of the adapter's labels stand in memory. If not, contracts alone read them.
    fn keeps_bytes(&self) -> bool
        ensures { result ≡ (Self.view self.now).rules.keeps_bytes };

    /// How many requests may be submitted in all.
    fn most(&self) -> u128
        ensures { result ≡ (Self.view self.now).most };

    /// Reserves a spot for all that a request within its volume, of `longest` sectors at most, will need down to the
    /// adapter; no other call takes memory. For a write the adapter makes room, in no runs but those that it has a part
    /// in.
    ///
    /// # Errors
    ///
    /// [`AllocError`] where memory was refused. The adapter may then have made room for a part of a write, and
    /// nothing else changed.
    fn reserve(&mut self, request: &Request) -> Result<Room, AllocError>
        requires bounded { IsBounded (Self.view self.old).rules request.now }
        ensures reserved { IfOk result
            (λ room. ReservesSpot (Self.view self.old) room.spot request.now (Self.view self.new)) }
        ensures refused { OnErr result (ReservesNone (Self.view self.old) (Self.view self.new)) }
        ensures near { ReservesNear (Self.view self.old) request.now (Self.view self.new) }
        ensures unless_write { request.now.kind ≢ Write → (Self.view self.new).adapter ≡ (Self.view self.old).adapter };

    /// Takes in a packet at its room's spot (WDK: IoCallDriver). Its last stack location is the layer's own, and asks
    /// for the room's request, as its payload does. With those that the layers below need, its locations are four at
    /// most. Its number is above all submitted before, fewer than `most`. It isn't cancelled, nor the layer drained.
    fn submit(&mut self, irp: Box<Irp>, room: Room)
        requires ready { IsReady (Self.view self.old).rooms room.spot }
        requires not_removing { IsFalse (Self.view self.old).state.removing }
        requires number { (Self.view self.old).state.next_request ≤ irp.value.number }
        requires few { (Self.view self.old).submitted < (Self.view self.old).most }
        requires own_location { AsksInLocation Self.takes_srb
            (request_at (Self.view self.old).rooms room.spot) irp.value }
        requires locations { length irp.value.locations.items + Self.stack_size ≤ 5 }
        requires not_cancelled { IsFalse irp.value.cancelled }
        requires carries { Carries Self.takes_srb (Self.view self.old).rules
            (request_at (Self.view self.old).rooms room.spot) irp.value.payload }
        ensures submits { Submits (Self.view self.old) (packet_of irp.value room.spot)
            (request_at (Self.view self.old).rooms room.spot) irp.value.payload (Self.view self.new) };

    /// Gives a room back unused.
    fn free(&mut self, room: Room)
        requires reserved { IsReserved (Self.view self.old).rooms room.spot }
        ensures frees { Frees (Self.view self.old) room.spot (Self.view self.new) };

    /// Has the adapter carry out the command on a tag, or fail it; true where the tag had a piece that had done
    /// neither. On any other tag, also one that the adapter doesn't have, nothing changes.
    fn act(&mut self, tag: u8) -> bool
        requires label_place { label_places (Self.view self.old) + 1 ≤ 64 }
        ensures acts { MatchBool result (ActsOrFaults (Self.view self.old) tag (Self.view self.new))
            (ActsNot (Self.view self.old) tag (Self.view self.new)) };

    /// The piece of a tag, with its SRB, where it has neither acted nor failed; else `None`.
    fn armed(&self, tag: u8) -> Option<(u128, &Srb)>
        ensures { MatchOption result (HasNoneFresh (Self.view self.now).adapter tag)
            (λ found. IsArmed (Self.view self.now).adapter tag found.0 found.1.now) };

    /// Books what the act of a tag's piece did, or how it failed, with an adapter whose sectors stand elsewhere; its
    /// next act is that. Nothing changes for piece 0, for a good or busy completion, or where this piece isn't on the
    /// tag, has acted or failed, or didn't ask for what is to be booked.
    fn book(&mut self, tag: u8, piece: u128, what: Booked<'_>)
        ensures books { BooksPiece (Self.view self.old) tag piece (handed (Self.view self.old).adapter tag piece what.entry) (Self.view self.new) };

    /// Takes the piece of a tag back, and starts others. False where the tag is free; nothing changes then.
    fn finish(&mut self, tag: u8) -> bool
        requires label_place { label_places (Self.view self.old) + 2 ≤ 64 }
        ensures finishes { MatchBool result (Finishes (Self.view self.old) tag (Self.view self.new))
            (FinishesNot (Self.view self.old) tag (Self.view self.new)) };

    /// Resets the adapter: each piece that has done nothing fails, and each piece out will come back as bad.
    fn reset(&mut self)
        requires label_place { label_places (Self.view self.old) + (Self.view self.old).rules.depth ≤ 64 }
        ensures resets { Resets (Self.view self.old) (Self.view self.new) };

    /// Cancels the packet of a number, also one that has ended and was not taken yet; with no such packet, or one
    /// that is cancelled already, nothing changes (WDK: IoCancelIrp).
    fn cancel(&mut self, number: u128)
        ensures cancels { CancelsIfOpen (Self.view self.old) number (Self.view self.new) };

    /// Cancels the packet of a number by the spot of its room, as `cancel` does. Where the packet is gone, nothing
    /// changes, even if a later packet has its spot.
    fn cancel_at(&mut self, spot: usize, number: u128)
        ensures cancels { CancelsAt (Self.view self.old) spot number (Self.view self.new) };

    /// Removal: what waits ends, nothing starts any more, and what is at the adapter will still come back
    /// (WDK: IRP_MN_REMOVE_DEVICE).
    fn drain(&mut self)
        ensures drains { DrainsAll (Self.view self.old) (Self.view self.new) };

    /// Takes a packet that has ended, on its way up, with the room that it came with. `None` where no packet has ended;
    /// the layer is then settled.
    fn take_done(&mut self) -> Option<(Climb, Room)>
        ensures hands_up { MatchOption result (HandsUpNone (Self.view self.old) (Self.view self.new))
            (λ done. HandsUp Self.takes_srb (Self.view self.old) done.0 done.1.spot (Self.view self.new)) };

    /// Takes the earliest label that the adapter recorded and that nobody took yet, as memory has it.
    fn take_label(&mut self) -> Option<DeviceLabel>
        ensures takes { TakesLabel (Self.view self.old) result (Self.view self.new) };

    /// Forgets all labels that the adapter recorded and that nobody took.
    fn forget_labels(&mut self)
        ensures forgets { ForgetsLabels (Self.view self.old) (Self.view self.new) };

    /// The constants are what the ghost members show.
    ghost srb_is: { TAKES_SRB ≡ Self.takes_srb };

    ghost size_is: { STACK_SIZE ≡ Self.stack_size };
}

/// A layer that holds requests back while a removal is pending (WDK: IRP_MN_QUERY_REMOVE_DEVICE and
/// IRP_MN_CANCEL_REMOVE_DEVICE). When to pause, and when to resume, is its caller's to know.
pub trait Hold: Device {
    /// Starts a pause, in no other and before a removal: each new request is held, and none that is held is released.
    fn pause(&mut self)
        requires not_paused { IsFalse (Self.view self.old).state.paused }
        requires not_removing { IsFalse (Self.view self.old).state.removing }
        ensures pauses { PausesAll (Self.view self.old) (Self.view self.new) };

    /// Ends a pause: requests that were held go on as the window allows. What was cancelled while it was held has been
    /// taken.
    fn resume(&mut self)
        requires paused { IsTrue (Self.view self.old).state.paused }
        requires taken { All WaitsIfCancelled (Self.view self.old).state.requests }
        ensures resumes { ResumesAll (Self.view self.old) (Self.view self.new) };
}
