//! What C calls on a stack whose sectors it keeps: by functions of the header, which answer null pointers first.

ghost use Rattle.std.specs.Prelude.{◌≡◌, ◌⊎◌, None, MatchBool, nat_eq};
ghost use Rattle.ntstatus.specs.Codes.{value_of};
ghost use Rattle.ntstatus.specs.declared.NtStatus.TheVariants.{InvalidDeviceRequest};
ghost use Rattle.saddlemug.specs.Holding.{HoldsAnyStack, HoldsOver, IfHoldsInMemory, IfHoldsOver};
ghost use Rattle.saddlemug.specs.Over.{BooksTold, IsArmedStatus, IsBookStatus, IsNewOver, IsOverStatus, TellsArmed};
ghost use Rattle.saddlemug.specs.Statuses.{IsNumberOfStatus};

use crate::asked::StackArmed;
use crate::booking::StackBooking;
use crate::cell::Cell;
use crate::instance::Instance;
use crate::opening_over::{StackDisk, new_over};
use ntstatus::NtStatus;
use std::alloc::Global;

/// Starts a stack into an empty cell, over a disk that C keeps and that begins with this sector. Answers 0, or the
/// status that says why there is none; the cell is then still empty.
#[unsafe(no_mangle)]
pub extern "C" fn saddlemug_over_open(
    alloc: Global,
    cell: &mut Cell,
    disk: &StackDisk,
    first: &[u8],
) -> u32
    requires { cell.old.held ≡ None }
    ensures held { MatchBool (nat_eq result 0) (HoldsOver (IsNewOver disk.now first.now) cell.new.held) (cell.new.held ≡ None) }
    ensures status { (result ≡ 0) ⊎ IsNumberOfStatus (IsOverStatus disk.now first.now) result }
{
    match new_over(alloc, disk, first) {
        Ok(over) => cell.fill(alloc, Instance::Over(over)),
        Err(status) => status.value(),
    }
}

/// Tells the piece on a tag that could act, and where its bytes stand. Answers 0, or the status that says why nothing
/// is told.
#[unsafe(no_mangle)]
pub extern "C" fn saddlemug_over_armed(
    alloc: Global,
    cell: &mut Cell,
    tag: u8,
    armed: &mut StackArmed,
) -> u32
    requires { HoldsAnyStack cell.old.held }
    ensures held { HoldsAnyStack cell.new.held }
    ensures tells { IfHoldsOver (λ old. HoldsOver (λ new. MatchBool (nat_eq result 0) (TellsArmed old tag armed.new new) ((new ≡ old) × IsNumberOfStatus (IsArmedStatus old tag) result)) cell.new.held) cell.old.held }
    ensures refused { IfHoldsInMemory ((result ≡ value_of InvalidDeviceRequest) × (cell.new.held ≡ cell.old.held)) cell.old.held }
    ensures as_it_was { (result ≡ 0) ⊎ (armed.new ≡ armed.old) }
{
    let mut held = cell.take(alloc);
    let outcome = held.armed(alloc, tag);
    cell.put(held);
    match outcome {
        Ok(told) => {
            *armed = told;
            0
        }
        Err(status) => status.value(),
    }
}

/// Books what became of a piece that was told: the bytes in its place were moved, or it failed. Answers 0, or the
/// status that says why nothing was booked.
#[unsafe(no_mangle)]
pub extern "C" fn saddlemug_over_book(alloc: Global, cell: &mut Cell, booking: &StackBooking) -> u32
    requires { HoldsAnyStack cell.old.held }
    ensures held { HoldsAnyStack cell.new.held }
    ensures books { IfHoldsOver (λ old. HoldsOver (λ new. MatchBool (nat_eq result 0) (BooksTold old booking.now new) ((new ≡ old) × IsNumberOfStatus (IsBookStatus old booking.now) result)) cell.new.held) cell.old.held }
    ensures refused { IfHoldsInMemory ((result ≡ value_of InvalidDeviceRequest) × (cell.new.held ≡ cell.old.held)) cell.old.held }
{
    let mut held = cell.take(alloc);
    let outcome = held.book(booking);
    cell.put(held);
    match outcome {
        Ok(()) => NtStatus::Success.value(),
        Err(status) => status.value(),
    }
}
