//! The completions that the adapter in memory gives.

ghost use Rattle.std.specs.Prelude.{◌≡◌};
ghost use Rattle.srb.specs.Status.{code_of, scsi_code_of};
ghost use Rattle.miniport.specs.Faults.{success, busy, invalid_request, bus_reset, error, fault_of_block};

use cdb::CdbFault;
use ntstatus::Sense;
use srb::{AUTOSENSE_VALID, Completion, ScsiStatus, SrbStatus};

fn without_sense(srb_status: SrbStatus, scsi_status: ScsiStatus) -> Completion
    ensures srb { result.srb_status ≡ code_of srb_status }
    ensures scsi { result.scsi_status ≡ scsi_code_of scsi_status }
    ensures sense { result.sense ≡ None }
{
    Completion {
        srb_status: srb_status.code(),
        scsi_status: scsi_status.code(),
        sense: None,
    }
}

/// The command was carried out.
pub(crate) fn succeeded() -> Completion
    ensures { result ≡ success }
{
    without_sense(SrbStatus::Success, ScsiStatus::Good)
}

/// Nothing was done.
pub(crate) fn was_busy() -> Completion
    ensures { result ≡ busy }
{
    without_sense(SrbStatus::Busy, ScsiStatus::Busy)
}

/// The SRB doesn't fit its command.
pub(crate) fn was_invalid() -> Completion
    ensures { result ≡ invalid_request }
{
    without_sense(SrbStatus::InvalidRequest, ScsiStatus::Good)
}

/// A reset met the piece.
pub(crate) fn met_reset() -> Completion
    ensures { result ≡ bus_reset }
{
    without_sense(SrbStatus::BusReset, ScsiStatus::Good)
}

/// The completion of a refused command with this sense, ASCQ 00h (SAM: CHECK CONDITION).
pub fn failed_with(key: u8, asc: u8) -> Completion
    ensures { result ≡ error key asc 0 }
{
    Completion {
        srb_status: SrbStatus::Error.code() | AUTOSENSE_VALID,
        scsi_status: ScsiStatus::CheckCondition.code(),
        sense: Some(Sense { key, asc, ascq: 0 }),
    }
}

/// The block asks for no command.
pub(crate) fn not_decoded(fault: CdbFault) -> Completion
    ensures { result ≡ fault_of_block fault }
{
    match fault {
        CdbFault::ShortCdb | CdbFault::InvalidField => failed_with(ILLEGAL_REQUEST, 0x24),
        CdbFault::UnknownOpcode => failed_with(ILLEGAL_REQUEST, 0x20),
    }
}

/// The sense key MEDIUM ERROR (SPC).
pub const MEDIUM_ERROR: u8 = 3;

pub(crate) const NOT_READY: u8 = 2;

pub(crate) const HARDWARE_ERROR: u8 = 4;

pub(crate) const ILLEGAL_REQUEST: u8 = 5;

pub(crate) const DATA_PROTECT: u8 = 7;

pub(crate) const ABORTED_COMMAND: u8 = 11;
