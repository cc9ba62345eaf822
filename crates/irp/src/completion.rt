//! The completion of a packet: its way back up.

ghost use Rattle.std.specs.Prelude.{◌≡◌};
ghost use Rattle.irp.specs.Climb.{Climbs, BringsRoutine, above};
ghost use Rattle.irp.specs.Packet.{cancel_routine_of};

use crate::{Climb, Done, IoStatus, Irp};
use ntstatus::NtStatus;

/// The driver whose location is the packet's last completes the packet: its location is taken off, and the packet
/// climbs to the nearest location above that asks, or is finished where none does. `information` is in bytes.
///
/// A completion routine that keeps its packet (WDK: STATUS_MORE_PROCESSING_REQUIRED) stores the `irp` of
/// `Climb::Routine`, whose last location is that driver's own. Later the driver either calls `complete` with a status
/// of its own choice, or `resume`, and the packet climbs on with the status that it has.
pub fn complete(mut irp: Irp, status: NtStatus, information: u64) -> Climb
    ensures climbs { Climbs (above irp) irp.number irp.cancelled status information irp.payload result }
    ensures cancel_routine { BringsRoutine (cancel_routine_of irp) result }
{
    irp.io_status = IoStatus {
        status,
        information,
    };
    resume(irp)
}

/// The packet climbs on from the driver whose location is its last, with the status that it has. One with no location
/// is finished.
pub fn resume(mut irp: Irp) -> Climb
    ensures climbs { Climbs (above irp) irp.number irp.cancelled irp.io_status.status irp.io_status.information irp.payload result }
    ensures cancel_routine { BringsRoutine (cancel_routine_of irp) result }
{
    irp.locations.pop();
    climb(irp)
}

/// The packet goes to its last location that asks, and those below that one are taken off.
fn climb(mut irp: Irp) -> Climb
    ensures climbs { Climbs irp.locations.items irp.number irp.cancelled irp.io_status.status irp.io_status.information irp.payload result }
    ensures cancel_routine { BringsRoutine (cancel_routine_of irp) result }
{
    let success = irp.io_status.status.is_success();
    while let Some(location) = irp.locations.last().copied() {
        if location.asks(success, irp.cancelled) {
            return Climb::Routine {
                driver: location.driver,
                irp,
            };
        }
        irp.locations.pop();
    }
    Climb::Finished(Done {
        number: irp.number,
        status: irp.io_status.status,
        information: irp.io_status.information,
        payload: irp.payload,
    })
}
