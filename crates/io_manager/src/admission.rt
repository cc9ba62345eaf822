//! How a call is answered at once, and what an admitted call opens: its packet, its pieces, its extent on the disk.

ghost use Rattle.std.specs.Prelude.{◌≡◌, ◌<◌, ◌≤◌, ℕ, Option, false, length, option_map, IfOk, IsTrue};
ghost use Rattle.srb.specs.declared.Kind.TheVariants.{Read};
ghost use Rattle.machine.specs.Rules.{Rules, home, is_transfer, is_in_bounds, place_count};
ghost use Rattle.machine.specs.State.{State};
ghost use Rattle.machine.specs.Calling.{refusal};
ghost use Rattle.irp.specs.declared.Payload.TheVariants.{Buffer};
ghost use Rattle.io_manager.specs.Calls.{status_of_refusal, bytes_called};
ghost use Rattle.io_manager.specs.Opening.{AreFirsts};
ghost use Rattle.io_manager.specs.inside.Admitting.{asked_for, status_at_once, AreBoundsOf, IsKnown, request_of};
ghost use Rattle.io_manager.specs.inside.Admitting.{HasLabelBytes, IsCopied, answer_room_of, first_location, IsOnTop};

use crate::{Asked, Limits, Refusal};
use device::{ClientRequest, Kind, Request, major_for};
use irp::{Control, Driver, Irp, LocationFlags, Payload, StackLocation};
use noted::Noted;
use ntstatus::NtStatus;
use sector::{Bytes, Extent, LabelRoom};
use std::alloc::{AllocError, Global};

/// What bounds a request.
#[derive(Debug, Clone, Copy, PartialEq, Eq)]
pub(crate) struct Bounds {
    /// Bytes of a sector.
    pub(crate) sector_size: u64,
    /// Sectors of the request's partition.
    pub(crate) sectors: u64,
    /// Sectors of the longest request.
    pub(crate) longest: u64,
    /// How many requests may be open at once.
    pub(crate) open_requests: u32,
    /// How many requests are open.
    pub(crate) open_count: usize,
    /// Whether the device is being removed, or is gone.
    pub(crate) removing: bool,
}

/// A call that ends where it begins.
#[derive(Debug, Clone, Copy, PartialEq, Eq)]
pub(crate) enum AtOnce {
    /// It asks for no bytes, and succeeds.
    Empty,
    Refused(Refusal),
}

/// What is decided of a call before anything changes.
#[derive(Debug, Clone, Copy, PartialEq, Eq)]
pub(crate) enum Decision {
    /// No request number is left for it.
    UsedUp,
    /// It ends where it begins.
    Ends(AtOnce),
    /// It opens a request.
    Opens,
}

impl AtOnce {
    pub(crate) fn status(self) -> NtStatus
        ensures { result ≡ status_at_once self }
    {
        match self {
            AtOnce::Empty => NtStatus::Success,
            AtOnce::Refused(refusal) => refusal.status(),
        }
    }
}

impl Refusal {
    /// The NTSTATUS that stands for the refusal, and in the answer's label where the refused call has labels.
    pub fn status(self) -> NtStatus
        ensures { result ≡ status_of_refusal self }
    {
        match self {
            Refusal::InvalidHandle => NtStatus::InvalidHandle,
            Refusal::InvalidParameter => NtStatus::InvalidParameter,
            Refusal::DeletePending => NtStatus::DeletePending,
            Refusal::DeviceBusy => NtStatus::DeviceBusy,
            Refusal::InsufficientResources => NtStatus::InsufficientResources,
            Refusal::InvalidDeviceRequest => NtStatus::InvalidDeviceRequest,
            Refusal::NotFound => NtStatus::NotFound,
        }
    }
}

impl Asked {
    /// How many places the request has: one for each of its sectors. A flush has one, of no sector.
    pub(crate) fn place_count(self, sector_size: u64) -> u64
        requires { 0 < sector_size }
        ensures { (rules : Rules) (partition : Option ℕ) → rules.sector_size ≡ sector_size
            → result ≡ place_count rules (asked_for partition self) }
    {
        match self.kind {
            Kind::Read | Kind::Write => self.length / sector_size,
            Kind::Flush => 1,
        }
    }
}

impl Limits {
    /// The sector of the disk where a partition begins, if there is one of this number.
    pub(crate) fn first_sector(&self, partition: Option<u8>) -> u64
        ensures { (rules : Rules) → AreFirsts self.now.first_sectors rules.partitions
            → IsKnown (length rules.partitions) partition
            → result ≡ home rules partition 0 }
    {
        let Some(volume) = partition else { return 0 };
        match self.first_sectors.get(volume as usize) {
            Some(first) => *first,
            None => 0,
        }
    }
}

impl Bounds {
    /// Whether a request asks for whole sectors of its partition, and for no more than the longest request.
    fn holds(&self, asked: Asked) -> bool
        requires some_bytes { 0 < self.now.sector_size }
        ensures { (rules : Rules) (s : State) (partition : Option ℕ) → AreBoundsOf self.now partition rules s
            → result ≡ is_in_bounds rules (asked_for partition asked) }
    {
        let first = asked.offset / self.sector_size;
        let count = asked.length / self.sector_size;
        asked.offset % self.sector_size == 0
            && asked.length % self.sector_size == 0
            && first <= self.sectors
            && count <= self.sectors - first
            && count <= self.longest
    }
}

/// Whether a request moves bytes.
fn moves_bytes(kind: Kind) -> bool
    ensures { result ≡ is_transfer kind }
{
    match kind {
        Kind::Read | Kind::Write => true,
        Kind::Flush => false,
    }
}

/// Returns how a read, a write or a flush of a partition is answered at once, if it is.
pub(crate) fn refusal_of(bounds: &Bounds, partition: Option<u8>, asked: Asked) -> Option<AtOnce>
    requires some_bytes { 0 < bounds.now.sector_size }
    ensures exact { (rules : Rules) (s : State) → AreBoundsOf bounds.now partition rules s
        → refusal rules s (asked_for partition asked) ≡ option_map status_at_once result }
{
    let transfer = moves_bytes(asked.kind);
    if partition.is_none() {
        Some(AtOnce::Refused(Refusal::InvalidHandle))
    } else if bounds.removing {
        Some(AtOnce::Refused(Refusal::DeletePending))
    } else if transfer && !bounds.holds(asked) {
        Some(AtOnce::Refused(Refusal::InvalidParameter))
    } else if transfer && asked.length == 0 {
        Some(AtOnce::Empty)
    } else if bounds.open_count >= bounds.open_requests as usize {
        Some(AtOnce::Refused(Refusal::DeviceBusy))
    } else {
        None
    }
}

/// The request of a call, without its bytes.
pub(crate) fn request_for(alloc: Global, partition: Option<u8>, asked: Asked) -> ClientRequest
    ensures { result ≡ asked_for partition asked }
{
    ClientRequest {
        partition,
        kind: asked.kind,
        offset: asked.offset,
        length: asked.length,
        through: asked.through,
        bytes: Bytes::new(Vec::new(alloc)),
    }
}

/// The sectors of its partition that a request asks for.
pub(crate) fn request_below(sector_size: u64, request: &ClientRequest) -> Request
    requires some_bytes { 0 < sector_size }
    ensures { result ≡ request_of sector_size request.now }
{
    Request {
        volume: request.partition.unwrap_or(0),
        kind: request.kind,
        extent: Extent {
            first: request.offset / sector_size,
            count: request.length / sector_size,
        },
        through: request.through,
    }
}

/// The bytes that are told of a call.
#[derive(Drop)]
pub(crate) struct CallBytes {
    /// A copy, where labels and their bytes are kept; else none.
    pub(crate) copy: Bytes,
    pub(crate) told: Noted<u8>,
}

/// Returns the bytes that are told of a call, for contracts alone: a write's.
fn told_bytes(kind: Kind, buffer: &Bytes) -> Noted<u8>
    ensures { result.items ≡ bytes_called kind buffer.now }
{
    let none = Noted::none();
    match kind {
        Kind::Write => none.with(buffer),
        // No label tells what the buffer of a read holds at its call.
        Kind::Read | Kind::Flush => none,
    }
}

/// Copies the bytes that are told of a call.
///
/// # Errors
///
/// [`AllocError`] where memory was refused.
fn copied_bytes(alloc: Global, kind: Kind, buffer: &Bytes) -> Result<Bytes, AllocError>
    ensures { IfOk result (λ bytes. bytes ≡ bytes_called kind buffer.now) }
{
    let bytes = match kind {
        Kind::Write => Vec::from_slice(alloc, buffer.as_slice())?,
        Kind::Read | Kind::Flush => Vec::new(alloc),
    };
    Ok(Bytes::new(bytes))
}

/// The bytes that are told of a call, with a copy where labels and their bytes are kept.
///
/// # Errors
///
/// [`AllocError`] where memory for the copy was refused.
fn call_bytes_for(
    alloc: Global,
    kind: Kind,
    buffer: &Bytes,
    copies: bool,
) -> Result<CallBytes, AllocError>
    ensures told { IfOk result (λ bytes. bytes.told.items ≡ bytes_called kind buffer.now) }
    ensures copied { IfOk result (IsCopied copies) }
{
    let told = told_bytes(kind, buffer);
    let copy = if copies {
        copied_bytes(alloc, kind, buffer)?
    } else {
        Bytes::new(Vec::new(alloc))
    };
    Ok(CallBytes { copy, told })
}

/// The room for the label of an answer: as many bytes as a read's buffer has.
///
/// # Errors
///
/// [`AllocError`] where memory was refused.
fn answer_room(alloc: Global, kind: Kind, buffer: &Bytes) -> Result<LabelRoom, AllocError>
    ensures { IfOk result (λ room. room ≡ answer_room_of kind (length buffer.now)) }
{
    match kind {
        Kind::Read => LabelRoom::new(alloc, buffer.len()),
        Kind::Write | Kind::Flush => Ok(LabelRoom::none(alloc)),
    }
}

/// The room for the label of an answer, where labels keep their bytes; else none.
///
/// # Errors
///
/// [`AllocError`] where memory was refused.
fn kept_answer_room(
    alloc: Global,
    kind: Kind,
    buffer: &Bytes,
    keeps_bytes: bool,
) -> Result<LabelRoom, AllocError>
    ensures { IfOk result (λ room. IsTrue keeps_bytes → room ≡ answer_room_of kind (length buffer.now)) }
{
    if keeps_bytes {
        answer_room(alloc, kind, buffer)
    } else {
        Ok(LabelRoom::none(alloc))
    }
}

/// The buffers that a request needs for the manager's own labels.
#[derive(Drop)]
pub(crate) struct LabelBytes {
    pub(crate) call_bytes: CallBytes,
    /// Room for the bytes of the label of a read's answer.
    pub(crate) label_bytes: LabelRoom,
}

/// The bytes that a write's call is told with, and room for as many as a read's buffer has.
///
/// # Errors
///
/// [`AllocError`] where memory for one was refused.
pub(crate) fn label_bytes_for(
    alloc: Global,
    kind: Kind,
    buffer: &Bytes,
    keeps: bool,
    keeps_bytes: bool,
) -> Result<LabelBytes, AllocError>
    ensures { IfOk result (λ copies. HasLabelBytes keeps keeps_bytes kind buffer.now copies) }
{
    let call_bytes = call_bytes_for(alloc, kind, buffer, keeps && keeps_bytes)?;
    let label_bytes = kept_answer_room(alloc, kind, buffer, keeps_bytes)?;
    Ok(LabelBytes {
        call_bytes,
        label_bytes,
    })
}

/// The first location of a request, which asks for no completion routine.
fn location_of(request: &Request) -> StackLocation
    ensures { result ≡ first_location request.now }
{
    let flags = if request.through {
        LocationFlags::WRITE_THROUGH
    } else {
        LocationFlags(0)
    };
    StackLocation {
        driver: Driver::Partition,
        major: major_for(false, request.kind),
        minor: None,
        control: Control(0),
        flags,
        volume: request.volume,
        extent: request.extent,
    }
}

/// Makes a packet that of a request, with its caller's buffer and the first stack location alone (WDK:
/// IoGetNextIrpStackLocation).
pub(crate) fn ready_packet(irp: &mut Irp, number: u64, request: &Request, buffer: Bytes)
    ensures top { IsOnTop number request.now irp.new }
    ensures payload { irp.new.payload ≡ Buffer buffer }
{
    *irp = Irp::new(number as u128, Payload::Buffer(buffer));
    irp.next_location(location_of(request));
}
