//! The request packet: its stack locations, one for each driver on its way down, and its completion, which climbs back
//! up through them.
//!
//! # Promises
//!
//! `complete`, `resume`: a packet climbs to the nearest location above that asks for this outcome, or is finished where
//! none does (`climbs`), with its cancel routine (`cancel_routine`). `next_location`, `copy_to_next`, `skip`,
//! `set_completion` are exact (`locations`, `asks`, `kept`).
#![tactic(auto)]

mod completion;
mod flags;
mod functions;
mod location;
mod packet;

use arrayvec::ArrayVec;
pub use completion::{complete, resume};
use ntstatus::NtStatus;
use sector::{Bytes, Extent};
use srb::Srb;

/// What a packet carries.
#[derive(Debug, Drop)]
pub enum Payload {
    /// The bytes of a client's packet.
    Buffer(Bytes),
    /// The SCSI request block of a piece.
    Srb(Srb),
    /// Nothing, while the SRB is at the adapter.
    Sent,
}

/// How a packet ended (WDK: IO_STATUS_BLOCK).
#[derive(Debug, Clone, Copy, PartialEq, Eq)]
pub struct IoStatus {
    pub status: NtStatus,
    /// The number of bytes transferred.
    pub information: u64,
}

/// What a location asks its driver for (WDK: IRP_MJ).
#[derive(Debug, Clone, Copy, PartialEq, Eq)]
pub enum MajorFunction {
    Create,
    Close,
    Read,
    Write,
    FlushBuffers,
    InternalDeviceControl,
    Cleanup,
    Pnp,
}

/// What a plug and play location asks its driver for (WDK: IRP_MN).
#[derive(Debug, Clone, Copy, PartialEq, Eq)]
pub enum MinorFunction {
    QueryRemove,
    Remove,
    CancelRemove,
    SurpriseRemoval,
}

/// A driver of the stack, the topmost first.
#[derive(Debug, Clone, Copy, PartialEq, Eq)]
pub enum Driver {
    Partition,
    Filter,
    Class,
    Port,
}

/// The control flags of a stack location: with which outcomes its routine is called (WDK: IO_STACK_LOCATION, Control).
#[derive(Clone, Copy, Default, PartialEq, Eq, Debug)]
pub struct Control(pub u8);

/// The flags of a stack location that belong to its major function (WDK: IO_STACK_LOCATION, Flags).
#[derive(Clone, Copy, Default, PartialEq, Eq, Debug)]
pub struct LocationFlags(pub u8);

/// What one driver's level of a packet holds (WDK: IO_STACK_LOCATION).
#[derive(Debug, Clone, Copy, PartialEq, Eq)]
pub struct StackLocation {
    pub driver: Driver,
    pub major: MajorFunction,
    /// For plug and play alone.
    pub minor: Option<MinorFunction>,
    pub control: Control,
    pub flags: LocationFlags,
    /// The number of the driver's volume that the request is for, from 0.
    pub volume: u8,
    /// The sectors that the request is for, counted in that volume.
    pub extent: Extent,
}

/// The cancel routine's driver, which holds the packet.
#[derive(Debug, Clone, Copy, PartialEq, Eq)]
pub struct CancelRoutine {
    pub driver: Driver,
}

/// A request packet (WDK: IRP). It is moved from driver to driver, and never copied, until it is finished.
#[derive(Debug, Drop)]
pub struct Irp {
    /// The maker of the packet gives it. A layer takes packets under rising numbers.
    pub number: u128,
    pub payload: Payload,
    /// Whether the packet is marked as cancelled.
    pub cancelled: bool,
    /// The status that the last completion gave, once there was one.
    pub io_status: IoStatus,
    /// The locations taken so far, the topmost driver's first; the last is the current driver's own.
    pub locations: ArrayVec<StackLocation, 4>,
    cancel_routine: Option<CancelRoutine>,
}

/// What is left of a packet that is finished: no routine asks for it any more.
#[derive(Debug, Drop)]
pub struct Done {
    pub number: u128,
    pub status: NtStatus,
    /// The number of bytes transferred.
    pub information: u64,
    pub payload: Payload,
}

/// Where a completed packet goes.
#[derive(Debug, Drop)]
pub enum Climb {
    /// To the completion routine of this driver, whose own location is the packet's last.
    Routine { driver: Driver, irp: Irp },
    /// Out of the stack.
    Finished(Done),
}
