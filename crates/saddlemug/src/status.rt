//! The statuses that say why a call did not succeed.

ghost use Rattle.std.specs.Prelude.{◌≡◌, MatchResult};
ghost use Rattle.ntstatus.specs.Codes.{value_of};
ghost use Rattle.saddlemug.specs.Statuses.{fault_status, refusal_status, start_status};

use compose::{Refusal, StartFault};
use ntstatus::NtStatus;
use volume::Error;

/// The status of a request that did not succeed.
pub(crate) fn fault_status(fault: Error) -> NtStatus
    ensures { result ≡ fault_status fault }
{
    match fault {
        Error::Refused(refusal) => refusal_status(refusal),
        Error::Failed(status) => status,
    }
}

/// The status of a refusal, which has its name.
pub(crate) fn refusal_status(refusal: Refusal) -> NtStatus
    ensures { result ≡ refusal_status refusal }
{
    match refusal {
        Refusal::InvalidHandle => NtStatus::InvalidHandle,
        Refusal::InvalidParameter => NtStatus::InvalidParameter,
        Refusal::DeletePending => NtStatus::DeletePending,
        Refusal::DeviceBusy => NtStatus::DeviceBusy,
        Refusal::InsufficientResources => NtStatus::InsufficientResources,
        Refusal::InvalidDeviceRequest => NtStatus::InvalidDeviceRequest,
        Refusal::NotFound => NtStatus::NotFound,
    }
}

/// The number of a request's status.
pub(crate) fn number_of(outcome: Result<(), Error>) -> u32
    ensures { MatchResult outcome (λ _. result ≡ 0) (λ fault. result ≡ value_of (fault_status fault)) }
{
    match outcome {
        Ok(()) => NtStatus::Success.value(),
        Err(fault) => fault_status(fault).value(),
    }
}

/// The status of a start that failed. It is the status of the command that the device failed,
/// [`NtStatus::InsufficientResources`], or [`NtStatus::InvalidParameter`] where the settings have partitions that a
/// disk can't have, or rules that a stack can't have.
pub(crate) fn start_status(fault: StartFault) -> NtStatus
    ensures { result ≡ start_status fault }
{
    match fault {
        StartFault::Device(status) => status,
        StartFault::NoMemory => NtStatus::InsufficientResources,
        StartFault::Settings | StartFault::Mbr(_) => NtStatus::InvalidParameter,
    }
}
