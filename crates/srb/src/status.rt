//! SRB and SCSI statuses.

ghost use Rattle.std.specs.Prelude.{◌≡◌};
ghost use Rattle.ntstatus.specs.Table.{status_of};
ghost use Rattle.srb.specs.Fate.{class_of};
ghost use Rattle.srb.specs.Status.{code_of, scsi_code_of};

use crate::{Class, Completion};
use ntstatus::NtStatus;

/// The flag joined to an SRB status where there are sense data (WDK: SRB_STATUS_AUTOSENSE_VALID).
pub const AUTOSENSE_VALID: u8 = 128;

/// The status of an SRB, as the low six bits of its byte have it (WDK: SRB_STATUS).
#[derive(Debug, Clone, Copy, PartialEq, Eq)]
pub enum SrbStatus {
    Pending,
    Success,
    Aborted,
    Error,
    Busy,
    InvalidRequest,
    NoDevice,
    BusReset,
    RequestFlushed,
}

impl SrbStatus {
    /// The status as a number, below 64.
    pub fn code(self) -> u8
        ensures { result ≡ code_of self }
    {
        match self {
            SrbStatus::Pending => 0,
            SrbStatus::Success => 1,
            SrbStatus::Aborted => 2,
            SrbStatus::Error => 4,
            SrbStatus::Busy => 5,
            SrbStatus::InvalidRequest => 6,
            SrbStatus::NoDevice => 8,
            SrbStatus::BusReset => 14,
            SrbStatus::RequestFlushed => 22,
        }
    }
}

/// The status that a SCSI target gives with a command (SAM: STATUS).
#[derive(Debug, Clone, Copy, PartialEq, Eq)]
pub enum ScsiStatus {
    Good,
    CheckCondition,
    Busy,
}

impl ScsiStatus {
    /// The status byte: GOOD 00h, CHECK CONDITION 02h, BUSY 08h.
    pub fn code(self) -> u8
        ensures { result ≡ scsi_code_of self }
    {
        match self {
            ScsiStatus::Good => 0,
            ScsiStatus::CheckCondition => 2,
            ScsiStatus::Busy => 8,
        }
    }
}

impl Completion {
    /// The low six bits of the SRB status decide: 01h is good, 05h busy, all others bad.
    pub fn class(&self) -> Class
        ensures { result ≡ class_of self.now }
    {
        match self.srb_status & 63 {
            1 => Class::Good,
            5 => Class::Busy,
            _ => Class::Bad(*self),
        }
    }

    /// The status that the packet completes with: the first row of the status table that fits, as
    /// `NtStatus::from_device` has it.
    pub fn status(&self) -> NtStatus
        ensures { result ≡ status_of self.now.srb_status self.now.scsi_status self.now.sense }
    {
        NtStatus::from_device(self.srb_status, self.scsi_status, self.sense.as_ref())
    }
}
