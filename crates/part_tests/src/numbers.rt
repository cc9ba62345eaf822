//! Numbers and names of `ntstatus.h`, `srb.h`, `wdm.h` and the SCSI standards; completions as an adapter gives them;
//! answers to PnP requests, and extents cut by hand.

use crate::expect::{prints, same, same_at};
use arrayvec::ArrayVec;
use bitflags::Flags;
use irp::{Control, LocationFlags, MajorFunction, MinorFunction};
use ntstatus::{NtStatus, Sense};
use pnp::{InvalidDeviceRequest, Request, State};
use sector::Extent;
use split::plan;
use srb::{AUTOSENSE_VALID, Class, CommandBlock, Completion, ScsiStatus, SrbFlags, SrbStatus};
use std::process::Abort;
use std::test::Fail;

#[test]
fn numbers_are_those_of_the_headers(rt: HostRuntime) -> Result<(), Fail> {
    for (code, want) in [
        (SrbStatus::Success.code(), 0x01),
        (SrbStatus::RequestFlushed.code(), 0x16),
        (AUTOSENSE_VALID, 0x80),
        (ScsiStatus::CheckCondition.code(), 0x02),
        (MajorFunction::InternalDeviceControl.code(), 0x0F),
        (MinorFunction::SurpriseRemoval.code(), 0x17),
        (Control::INVOKE_ON_CANCEL.bits(), 0x20),
        (Control::INVOKE_ON_SUCCESS.bits(), 0x40),
        (Control::INVOKE_ON_ERROR.bits(), 0x80),
        (LocationFlags::WRITE_THROUGH.bits(), 0x04),
    ] {
        same(&rt, &code, &want);
    }
    let cancelled = NtStatus::Cancelled;
    same(&rt, &cancelled.value(), &0xC000_0120);
    assert!(rt; NtStatus::Pending.is_success() && !cancelled.is_success());
    same(&rt, &cancelled.name(), &"CANCELLED");
    prints(&rt, rt.alloc(), &cancelled, "CANCELLED")
}

/// A completion, with the key and the code of its sense; its class where that isn't bad, and its status.
type Completed = (u8, u8, Option<(u8, u8)>, Option<Class>, NtStatus);

const COMPLETED: &[Completed] = &[
    (0xC1, 0x00, None, Some(Class::Good), NtStatus::Success),
    (0x05, 0x08, None, Some(Class::Busy), NtStatus::DeviceBusy),
    (0x84, 0x02, Some((3, 0x11)), None, NtStatus::DeviceDataError),
    (0x04, 0x02, Some((3, 0x11)), None, NtStatus::IoDeviceError),
    (0x96, 0x00, None, None, NtStatus::Cancelled),
];

fn is_completed(rt: &impl Abort, row: &Completed) {
    let (srb_status, scsi_status, sense, class, status) = *row;
    let sense = match sense {
        Some((key, asc)) => Some(Sense { key, asc, ascq: 0 }),
        None => None,
    };
    let completion = Completion {
        srb_status,
        scsi_status,
        sense,
    };
    let class = class.unwrap_or(Class::Bad(completion));
    same_at(rt, &completion.class(), &class, &srb_status);
    same_at(rt, &completion.status(), &status, &srb_status);
    let told = NtStatus::from_device(srb_status, scsi_status, sense.as_ref());
    same_at(rt, &told, &status, &srb_status);
}

#[test]
fn completions_and_flags_are_taken_as_they_are(rt: HostRuntime) -> Result<(), Fail> {
    for row in COMPLETED {
        is_completed(&rt, row);
    }
    let both = SrbFlags::from_bits(0xC0);
    assert!(rt; both.is_some_and(|flags| flags.contains(SrbFlags::DATA_IN)));
    assert!(rt; SrbFlags::from_bits(0x41).is_none());
    let mut bytes = ArrayVec::new();
    bytes.try_extend_from_slice(&[0x28, 0, 1])?;
    let block = CommandBlock::new(bytes);
    same(&rt, &block.copied().as_slice(), &[0x28, 0, 1].as_slice());
    same(&rt, &block.as_slice(), &[0x28, 0, 1].as_slice());
    Ok(())
}

#[test]
fn requests_are_answered_by_the_table(rt: HostRuntime) -> Result<(), Fail> {
    for (answer, want) in [
        (State::Started.query_remove(), State::RemovePending),
        (State::RemovePending.cancel_remove(), State::Started),
        (State::RemovePending.remove(), State::Removing),
        (State::Started.surprise_remove(), State::Removing),
        (State::Removing.drained(), State::Removed),
        (
            State::Started.next(Request::QueryRemove),
            State::RemovePending,
        ),
    ] {
        same(&rt, &answer, &Ok(want));
    }
    same(&rt, &State::Started.remove(), &Err(InvalidDeviceRequest));
    let status = NtStatus::from(InvalidDeviceRequest);
    same(&rt, &status, &NtStatus::InvalidDeviceRequest);
    prints(
        &rt,
        rt.alloc(),
        &InvalidDeviceRequest,
        "invalid in this PnP state",
    )
}

#[test]
fn an_extent_is_cut_in_rising_order(rt: HostRuntime) {
    let extent = Extent {
        first: 2056,
        count: 100,
    };
    let plan = plan(extent, 64);
    same(&rt, &plan.pieces(), &2);
    for (k, first, count) in [(0, 2056, 64), (1, 2120, 36)] {
        assert!(rt; k < plan.pieces());
        same(&rt, &plan.piece(k), &Extent { first, count });
    }
}
