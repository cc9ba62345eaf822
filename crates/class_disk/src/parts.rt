//! A part of a request: what becomes an SRB of its own.

ghost use Rattle.std.specs.Prelude.{◌≡◌, ◌<◌, ◌+◌, Some};
ghost use Rattle.class_disk.specs.declared.parts.Progress.TheVariants.{Ready, Below as SentBelow};
ghost use Rattle.class_disk.specs.declared.parts.Progress.TheVariants.{Ended as HasEnded};
ghost use Rattle.class_disk.specs.declared.parts.Place.{Place};
ghost use Rattle.device.specs.View.{payload_bytes as bytes_of_payload};
ghost use Rattle.class_disk.specs.inside.Parts.{status_by, below_by, failure_by, bytes_by, IsHereBy, packet_by};
ghost use Rattle.class_disk.specs.inside.Parts.{given_of, given_by, IsLeft};

use device::{Request, Room};
use irp::{Irp, Payload};
use ntstatus::NtStatus;
use sector::LabelRoom;
use std::mem;

/// How a part of a request ended.
#[derive(Clone, Copy)]
pub(crate) enum Outcome {
    /// Its piece came back good.
    Good,
    /// Its piece came back bad.
    Failed(NtStatus),
    /// Its piece came back busy, and it was not sent again.
    Busy(NtStatus),
    /// It waited below when its request was cancelled or the device was removed, and was not sent any more.
    Withdrawn(NtStatus),
}

/// How packets that have ended below did so. Those that a call takes all did alike.
#[derive(Clone, Copy)]
pub(crate) enum Way {
    /// Their pieces came back.
    Returned,
    /// They waited when their request was cancelled or the device was removed, and no piece of them was out.
    Unsent,
}

/// A part of a request: the slot of the request, and the place of the part among its parts.
#[derive(Clone, Copy)]
pub(crate) struct PartId {
    pub slot: usize,
    pub part: usize,
}

/// What goes below for a part, and comes back (classpnp: TRANSFER_PACKET): a packet of the class driver's own, which
/// holds the SRB, and its room there.
#[derive(Drop)]
pub(crate) struct TransferPacket {
    pub irp: Box<Irp>,
    pub room: Room,
}

/// What one part needs to be sent: its packet, and the two buffers of its SRB.
#[derive(Drop)]
pub(crate) struct Place {
    pub packet: TransferPacket,
    /// A read's is as long as its data. A write's is empty, with room for its data. The only part of a request has
    /// none.
    pub data: Vec<u8>,
    /// Room for as many bytes as its data, where labels keep their bytes.
    pub for_label: LabelRoom,
}

/// A part that ended, with the packet that came back.
#[derive(Drop)]
pub(crate) struct Ended {
    pub packet: TransferPacket,
    pub outcome: Outcome,
}

/// Where a part is.
#[derive(Drop)]
pub(crate) enum Progress {
    /// Not sent yet.
    Ready(Place),
    /// In the layer below, in the packet of this number, at the spot of its room.
    Below { number: u128, spot: usize },
    Ended(Ended),
}

/// One part of a request.
#[derive(Drop)]
pub(crate) struct Part {
    /// What it asks the layer below for.
    pub request: Request,
    /// How many of its packets came back busy and were sent again.
    pub restarts: u8,
    pub progress: Progress,
}

/// The bytes that a packet carries.
fn payload_bytes(payload: &Payload) -> &[u8]
    ensures { result.now ≡ bytes_of_payload payload.now }
{
    match payload {
        Payload::Srb(srb) => srb.data.as_slice(),
        Payload::Buffer(bytes) => bytes.as_slice(),
        Payload::Sent => &[],
    }
}

/// What came back with a part, as the packet of its request carries it.
fn given(payload: Payload) -> Payload
    ensures { result ≡ given_of payload }
{
    match payload {
        Payload::Srb(srb) => Payload::Buffer(srb.data),
        Payload::Buffer(bytes) => Payload::Buffer(bytes),
        Payload::Sent => Payload::Sent,
    }
}

impl Outcome {
    /// The status that the part gives its request.
    pub fn status(self) -> NtStatus
        ensures { result ≡ status_by self }
    {
        match self {
            Outcome::Good => NtStatus::Success,
            Outcome::Failed(status) | Outcome::Busy(status) | Outcome::Withdrawn(status) => status,
        }
    }
}

impl Part {
    /// The number and the spot of the part's packet, where it is below.
    pub fn packet_below(&self) -> Option<(u128, usize)>
        ensures { result ≡ below_by self.now.progress }
    {
        match self.progress {
            Progress::Below { number, spot } => Some((number, spot)),
            Progress::Ready(_) | Progress::Ended(_) => None,
        }
    }

    /// The status of a part that ended with no success.
    pub fn failure(&self) -> Option<NtStatus>
        ensures { result ≡ failure_by self.now.progress }
    {
        match &self.progress {
            Progress::Ended(ended) => match ended.outcome {
                Outcome::Good => None,
                outcome => Some(outcome.status()),
            },
            Progress::Ready(_) | Progress::Below { .. } => None,
        }
    }

    /// The packet of a part that is not below.
    pub fn into_packet(self) -> TransferPacket
        requires { IsHereBy self.progress }
        ensures { packet_by self.progress ≡ Some result }
    {
        match self.progress {
            Progress::Ready(place) => place.packet,
            Progress::Ended(ended) => ended.packet,
            Progress::Below { .. } => unreachable!(),
        }
    }

    /// Notes that the part goes below in a packet of this number, for the first time.
    pub fn send(&mut self, number: u128) -> Place
        requires { (place : Place) × (self.old.progress ≡ Ready place) }
        ensures was { self.old.progress ≡ Ready result }
        ensures after { self.new ≡ record self.old { progress = SentBelow number result.packet.room.spot } }
    {
        match mem::replace(&mut self.progress, Progress::Below { number, spot: 0 }) {
            Progress::Ready(place) => {
                let spot = place.packet.room.spot;
                self.progress = Progress::Below { number, spot };
                place
            }
            Progress::Below { .. } | Progress::Ended(_) => unreachable!(),
        }
    }

    /// Notes that the part goes below again in a packet of this number, at its spot there.
    pub fn send_again(&mut self, number: u128, spot: usize)
        requires { self.old.restarts < 255 }
        ensures { self.new ≡ record self.old { restarts = self.old.restarts + 1; progress = SentBelow number spot } }
    {
        self.restarts += 1;
        self.progress = Progress::Below { number, spot };
    }

    /// Notes that the part has ended.
    pub fn end(&mut self, ended: Ended)
        ensures { self.new ≡ record self.old { progress = HasEnded ended } }
    {
        self.progress = Progress::Ended(ended);
    }

    /// The buffer that went below with a part, once that has ended, as the packet of its request carries it.
    pub fn give_back(&mut self) -> Payload
        ensures gives { result ≡ given_by self.old.progress }
        ensures left { IsLeft self.old self.new }
    {
        match &mut self.progress {
            Progress::Ended(ended) => {
                given(mem::replace(&mut ended.packet.irp.payload, Payload::Sent))
            }
            Progress::Ready(_) | Progress::Below { .. } => Payload::Sent,
        }
    }

    /// The bytes that an ended part brought.
    pub fn bytes(&self) -> &[u8]
        ensures { result.now ≡ bytes_by self.now.progress }
    {
        match &self.progress {
            Progress::Ended(ended) => payload_bytes(&ended.packet.irp.payload),
            Progress::Ready(_) | Progress::Below { .. } => &[],
        }
    }
}
