//! What is done to a layer and what it must answer, a row each.

use device::{Climb, Kind, Request};
use irp::{Irp, Payload};
use ntstatus::NtStatus;
use sector::Extent;
use srb::{Class, DeviceLabel};

/// A label that the adapter recorded, by the number of its piece.
pub(crate) enum Told<'a> {
    /// A start on this tag.
    Starts(u128, u8),
    /// A start with this command block.
    Sends(u128, &'a [u8]),
    Acts(u128),
    Faults(u128),
    /// A return with success.
    Good(u128),
    Busy(u128),
    Bad(u128),
}

/// What is done, and what must follow. Where labels stand, just these are recorded.
pub(crate) enum Step<'a> {
    /// The volumes, the sectors of the first three numbers, the longest request in sectors, and how many requests there
    /// may be.
    Sizes(u8, [u64; 3], u64, u128),
    /// A request goes down: its volume, its kind, its first sector, its number of sectors, and the byte of its data.
    Submit(u8, Kind, u64, u64, u8),
    /// Room is made for such a request, and given back.
    Reserve(u8, Kind, u64, u64),
    /// The piece of a tag is carried out; without a label there is none that did nothing yet.
    Act(u8, &'a [Told<'a>]),
    /// The piece of a tag comes back; without a label there is none.
    Finish(u8, &'a [Told<'a>]),
    Reset(&'a [Told<'a>]),
    Tells(&'a [Told<'a>]),
    /// The labels that are there are forgotten.
    Forget,
    Cancel(u64),
    /// The packet of the second number is cancelled at the spot of the first number's packet.
    CancelAt(u64, u64),
    Drain,
    /// A packet comes up: its number and its status.
    Done(u128, NtStatus),
    /// A packet comes up that moved one sector for each byte, full of that byte.
    Moved(u128, NtStatus, &'a [u8]),
    /// No packet comes up.
    NoneDone,
    /// This many packets are held.
    Holds(usize),
    Pause,
    Resume,
}

/// A request of these sectors.
pub(crate) fn request_of(volume: u8, kind: Kind, first: u64, count: u64) -> Request {
    Request {
        volume,
        kind,
        extent: Extent { first, count },
        through: false,
    }
}

/// Whether a label is there, and is the one that is wanted.
pub(crate) fn is_told(label: Option<DeviceLabel>, want: &Told) -> bool {
    let Some(label) = label else {
        return false;
    };
    match label {
        DeviceLabel::Start { piece, tag, block } => match want {
            Told::Starts(number, on) => piece == *number && tag == *on,
            Told::Sends(number, bytes) => piece == *number && block.as_slice() == *bytes,
            _ => false,
        },
        DeviceLabel::Act { piece, bytes: _ } => matches!(want, Told::Acts(n) if *n == piece),
        DeviceLabel::Fault { piece } => matches!(want, Told::Faults(n) if *n == piece),
        DeviceLabel::Return { piece, class } => is_back(piece, class, want),
    }
}

fn is_back(piece: u128, class: Class, want: &Told) -> bool {
    match class {
        Class::Good => matches!(want, Told::Good(n) if *n == piece),
        Class::Busy => matches!(want, Told::Busy(n) if *n == piece),
        Class::Bad(_) => matches!(want, Told::Bad(n) if *n == piece),
    }
}

/// Whether a packet that came up past every routine is as a step wants it.
pub(crate) fn is_up(climb: Climb, takes_srb: bool, step: &Step) -> bool {
    match climb {
        Climb::Finished(irp) => is_done(&irp, takes_srb, step),
        Climb::Routine { driver: _, irp: _ } => false,
    }
}

fn is_done(irp: &Irp, takes_srb: bool, step: &Step) -> bool {
    match step {
        Step::Done(number, status) => irp.number == *number && irp.io_status.status == *status,
        Step::Moved(number, status, sectors) => {
            irp.number == *number
                && irp.io_status.status == *status
                && irp.io_status.information % 512 == 0
                && irp.io_status.information / 512 == sectors.len() as u64
                && are_sectors(bytes_of(&irp.payload, takes_srb), *status, sectors)
        }
        _ => false,
    }
}

/// The data of a packet that has an SRB, or a buffer where the layer takes none.
fn bytes_of(payload: &Payload, takes_srb: bool) -> Option<&[u8]> {
    match payload {
        Payload::Srb(srb) => takes_srb.then_some(srb.data.as_slice()),
        Payload::Buffer(bytes) => (!takes_srb).then_some(bytes.as_slice()),
        Payload::Sent => None,
    }
}

/// Whether all bytes are this one.
fn is_full(bytes: &[u8], byte: u8) -> bool {
    bytes.iter().all(|b| *b == byte)
}

/// Whether the data begin with sectors full of these bytes, and are no longer if all went well.
fn are_sectors(bytes: Option<&[u8]>, status: NtStatus, sectors: &[u8]) -> bool {
    let Some(bytes) = bytes else {
        return false;
    };
    let whole = bytes.len() / 512;
    let is_more = bytes.len() % 512 != 0 || whole > sectors.len();
    if whole < sectors.len() || status == NtStatus::Success && is_more {
        return false;
    }
    let mut rest = bytes;
    for byte in sectors {
        let (sector, behind) = rest.split_at(512.min(rest.len()));
        if !is_full(sector, *byte) {
            return false;
        }
        rest = behind;
    }
    true
}
