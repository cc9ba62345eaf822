//! What the filter does to a packet.

ghost use Rattle.std.specs.Prelude.{◌≡◌, ◌<◌, ◌+◌, Some};
ghost use Rattle.arrayvec.specs.ArrayVec.{array_vec_len};
ghost use Rattle.irp.specs.Packet.{cancel_routine_of, with_cancel_routine};
ghost use Rattle.hold_filter.specs.inside.TableView.{own_routine};
ghost use Rattle.hold_filter.specs.inside.Packets.{PassesDown, HandsOver};

use crate::table::Held;
use device::{Climb, Room, complete};
use irp::{CancelRoutine, Driver, Irp};
use ntstatus::NtStatus;

/// Installs the filter's cancel routine and returns the one it replaces (WDK: IoSetCancelRoutine).
pub(crate) fn take_over(irp: &mut Irp) -> Option<CancelRoutine>
    ensures routine { result ≡ cancel_routine_of irp.old }
    ensures packet { irp.new ≡ with_cancel_routine (Some own_routine) irp.old }
{
    let routine = irp.take_cancel_routine();
    irp.set_cancel_routine(CancelRoutine {
        driver: Driver::Filter,
    });
    routine
}

/// Restores the cancel routine that the packet came with (in the WDK always NULL).
pub(crate) fn give_back(irp: &mut Irp, routine: Option<CancelRoutine>)
    ensures { irp.new ≡ with_cancel_routine routine irp.old }
{
    let _own = irp.take_cancel_routine();
    if let Some(routine) = routine {
        irp.set_cancel_routine(routine);
    }
}

/// Passes the packet to the class driver, with a copy of the filter's own location (WDK:
/// IoCopyCurrentIrpStackLocationToNext). The filter sets no completion routine, and counts what
/// comes back by `take_done`.
pub(crate) fn pass_down(irp: &mut Irp)
    requires own { 0 < array_vec_len irp.old.locations }
    requires place { array_vec_len irp.old.locations < 4 }
    ensures { PassesDown irp.old irp.new }
{
    irp.set_completion(false, false, false);
    irp.copy_to_next(Driver::Class);
}

/// Completes a packet that ended in the filter (WDK: IoCompleteRequest), with no bytes moved.
pub(crate) fn hand_up(held: Held, status: NtStatus) -> (Climb, Room)
    ensures { HandsOver held status result.0 result.1 }
{
    let Held {
        mut irp,
        routine,
        room,
    } = held;
    give_back(&mut irp, routine);
    (complete(irp, status, 0), room)
}
