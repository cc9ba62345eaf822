//! Completion of a packet that goes by pointer.

ghost use Rattle.std.specs.Prelude.{◌≡◌, MatchOption};
ghost use Rattle.irp.specs.Climb.{above, CallsRoutine};
ghost use Rattle.irp.specs.Packet.{cancel_routine_of};
ghost use Rattle.device.specs.Climbing.{Climbs, FinishesPacket, BringsRoutine};

use irp::{Driver, IoStatus, Irp};
use ntstatus::NtStatus;

/// Where a completed packet goes.
#[derive(Debug, Drop)]
pub enum Climb {
    /// To the completion routine of this driver, whose own location is the packet's last.
    Routine { driver: Driver, irp: Box<Irp> },
    /// Out of the stack, with no location left.
    Finished(Box<Irp>),
}

/// The driver whose location is the packet's last completes the packet: its location is taken off, and the packet
/// climbs to the nearest location above that asks, or is finished where none does. `information` is in bytes.
///
/// A completion routine that keeps its packet (WDK: STATUS_MORE_PROCESSING_REQUIRED) stores the `irp` of
/// `Climb::Routine`, whose last location is that driver's own. Later the driver either calls `complete` with a status
/// of its own choice, or `resume`, and the packet climbs on with the status that it has.
pub fn complete(mut irp: Box<Irp>, status: NtStatus, information: u64) -> Climb
    ensures climbs { Climbs (above irp.value) irp.value.number irp.value.cancelled status
        information irp.value.payload result }
    ensures cancel_routine { BringsRoutine (cancel_routine_of irp.value) result }
{
    irp.io_status = IoStatus {
        status,
        information,
    };
    resume(irp)
}

/// The packet climbs on from the driver whose location is its last, with the status that it has. One with no location
/// is finished.
pub fn resume(mut irp: Box<Irp>) -> Climb
    ensures climbs { Climbs (above irp.value) irp.value.number irp.value.cancelled irp.value.io_status.status
        irp.value.io_status.information irp.value.payload result }
    ensures cancel_routine { BringsRoutine (cancel_routine_of irp.value) result }
{
    irp.locations.pop();
    climb_up(irp)
}

/// The packet goes to its last location that asks, and those below that one are taken off.
fn climb_up(mut irp: Box<Irp>) -> Climb
    ensures climbs { Climbs irp.value.locations.items irp.value.number irp.value.cancelled irp.value.io_status.status
        irp.value.io_status.information irp.value.payload result }
    ensures cancel_routine { BringsRoutine (cancel_routine_of irp.value) result }
{
    match next_to_ask(&mut irp) {
        Some(driver) => Climb::Routine { driver, irp },
        None => Climb::Finished(irp),
    }
}

/// Takes off the locations that are passed over; returns the driver of the one that asks, then the last.
fn next_to_ask(irp: &mut Irp) -> Option<Driver>
    ensures found { MatchOption result
        (FinishesPacket irp.old.locations.items irp.old.number irp.old.cancelled irp.old.io_status.status
        irp.old.io_status.information irp.old.payload irp.new)
        (λ driver. CallsRoutine irp.old.locations.items irp.old.number irp.old.cancelled irp.old.io_status.status
        irp.old.io_status.information irp.old.payload driver irp.new) }
    ensures cancel_routine { cancel_routine_of irp.new ≡ cancel_routine_of irp.old }
{
    let success = irp.io_status.status.is_success();
    while let Some(location) = irp.locations.last().copied() {
        if location.asks(success, irp.cancelled) {
            return Some(location.driver);
        }
        irp.locations.pop();
    }
    None
}
