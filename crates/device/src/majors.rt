//! What each layer tells of a request.

ghost use Rattle.std.specs.Prelude.{◌≡◌, ◌*◌, ◌^◌, ◌<◌, []};
ghost use Rattle.machine.specs.Answering.{information as information_of};
ghost use Rattle.machine.specs.Rules.{Rules, as_client};
ghost use Rattle.device.specs.View.{major_of};

use irp::MajorFunction;
use machine::{Kind, Request};
use ntstatus::NtStatus;

/// The major function of a request's location (WDK: IRP_MJ_READ, IRP_MJ_WRITE, IRP_MJ_FLUSH_BUFFERS): that of a SCSI
/// request (WDK: IRP_MJ_SCSI) where the packet has an SRB.
pub fn major_for(takes_srb: bool, kind: Kind) -> MajorFunction
    ensures { result ≡ major_of takes_srb kind }
{
    match (takes_srb, kind) {
        (true, _) => MajorFunction::InternalDeviceControl,
        (false, Kind::Read) => MajorFunction::Read,
        (false, Kind::Write) => MajorFunction::Write,
        (false, Kind::Flush) => MajorFunction::FlushBuffers,
    }
}

/// How many bytes a request has moved: all where it succeeds, else none (WDK: IO_STATUS_BLOCK, Information).
pub fn information(sector_size: u32, request: &Request, status: NtStatus) -> u64
    requires { request.now.extent.count * sector_size < 2 ^ 64 }
    ensures { (rules : Rules) → rules.sector_size ≡ sector_size
        → result ≡ information_of (as_client rules request.now []) status }
{
    match (status, request.kind) {
        (NtStatus::Success, Kind::Read | Kind::Write) => request.extent.count * sector_size as u64,
        _ => 0,
    }
}
