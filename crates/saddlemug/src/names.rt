//! What C asks of the library alone: its version, and the names of statuses.

ghost use Rattle.std.specs.Prelude.{◌≡◌, ◌==◌};
ghost use Rattle.std.specs.List.{find};
ghost use Rattle.std.specs.Option.{option_copied};
ghost use Rattle.ntstatus.specs.Codes.{value_of};
ghost use Rattle.saddlemug.specs.Names.{IsPut, name_of_number, status_of};

use crate::bytes::put;
use ntstatus::NtStatus;

const STATUSES: [NtStatus; 17] = [
    NtStatus::Success,
    NtStatus::Pending,
    NtStatus::DeviceBusy,
    NtStatus::InvalidHandle,
    NtStatus::InvalidParameter,
    NtStatus::NoSuchDevice,
    NtStatus::InvalidDeviceRequest,
    NtStatus::NonexistentSector,
    NtStatus::MoreProcessingRequired,
    NtStatus::DeletePending,
    NtStatus::InsufficientResources,
    NtStatus::DeviceDataError,
    NtStatus::MediaWriteProtected,
    NtStatus::DeviceNotReady,
    NtStatus::Cancelled,
    NtStatus::IoDeviceError,
    NtStatus::NotFound,
];

/// The version of the library: a byte for each of its three numbers, the first on the left.
#[unsafe(no_mangle)]
pub extern "C" fn saddlemug_version() -> u32
    ensures { result ≡ 0x000201 }
{
    0x00_0201
}

/// Puts the name of a status into a buffer, in capitals and without the prefix `STATUS_`, as much of it as has room.
/// Answers how long it is: 0 where no status has this number.
#[unsafe(no_mangle)]
pub extern "C" fn saddlemug_status_word(status: u32, buffer: &mut [u8]) -> u64
    ensures { IsPut (name_of_number status) buffer.old result buffer.new }
{
    put(buffer, name_of(status).as_bytes())
}

fn name_of(number: u32) -> &'static str
    ensures { result.now ≡ name_of_number number }
{
    match of_number(&STATUSES, number) {
        Some(status) => status.name(),
        None => "",
    }
}

/// The status of a number, if there is one.
pub(crate) fn status_of(number: u32) -> Option<NtStatus>
    ensures { result ≡ status_of number }
{
    of_number(&STATUSES, number).copied()
}

/// The first of the statuses that has this number.
fn of_number(statuses: &[NtStatus], number: u32) -> Option<&NtStatus>
    ensures { option_copied result ≡ find (λ s. value_of s == number) statuses.now }
{
    statuses.iter().find(|status| status.value() == number)
}
