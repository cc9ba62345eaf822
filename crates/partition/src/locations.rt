//! The stack locations of a packet: the partition driver's own, where it notes what it was asked for, and the next
//! driver's.

ghost use Rattle.std.specs.Prelude.{◌≡◌, ◌<◌, ◌+◌, false, List, [], ◌∷◌, ◌++◌};
ghost use Rattle.arrayvec.specs.ArrayVec.{array_vec_len};
ghost use Rattle.irp.specs.declared.StackLocation.{StackLocation};
ghost use Rattle.irp.specs.Packet.{HasOwn, KeepsAllButLocations};
ghost use Rattle.irp.specs.Climb.{above};
ghost use Rattle.partition.specs.inside.Noted.{noting, passed_on};

use device::{Kind, major_for};
use irp::{Control, Driver, Irp, StackLocation};
use sector::Extent;

/// The last location of a packet.
fn own_location(irp: &Irp) -> StackLocation
    requires { 0 < array_vec_len irp.now.locations }
    ensures { HasOwn irp.now (above irp.now) result }
{
    let Some(own) = irp.locations.last() else {
        unreachable!()
    };
    *own
}

/// Passes a packet on to the next driver, for this extent of the disk. The partition driver notes the kind of the
/// request in its own location, since the major function of a packet with an SRB doesn't tell it. Its completion
/// routine is called at any outcome (WDK: IoSetCompletionRoutine).
pub(crate) fn pass_on(irp: &mut Irp, kind: Kind, extent: Extent)
    requires own { 0 < array_vec_len irp.old.locations }
    requires place { array_vec_len irp.old.locations < 4 }
    ensures locations { (higher : List StackLocation) (own : StackLocation)
        → HasOwn irp.old higher own → HasOwn irp.new (higher ++ noting kind own ∷ []) (passed_on extent own) }
    ensures length { array_vec_len irp.new.locations ≡ array_vec_len irp.old.locations + 1 }
    ensures kept { KeepsAllButLocations irp.old irp.new }
{
    let own = own_location(irp);
    irp.locations.pop();
    irp.next_location(StackLocation {
        major: major_for(false, kind),
        ..own
    });
    irp.set_completion(true, true, false);
    irp.next_location(StackLocation {
        driver: Driver::Filter,
        control: Control(0),
        volume: 0,
        extent,
        ..own
    });
}
