//! Pieces that threads move.

ghost use Rattle.std.specs.Prelude.{◌≡◌, false};

use crate::expect::same;
use movers::{Flight, Flown};
use sector::Extent;
use std::test::Fail;

/// A transfer of these sectors.
fn flown(first: u64, count: u64, writes: bool) -> Flown
    ensures { result ≡ record { extent = record { first = first; count = count }; writes = writes; syncs = false } }
{
    let extent = Extent { first, count };
    Flown {
        extent,
        writes,
        syncs: false,
    }
}

/// A flush.
fn sync() -> Flown
    ensures { result.extent ≡ record { first = 0; count = 0 } }
{
    Flown {
        syncs: true,
        ..flown(0, 0, false)
    }
}

/// Which transfers may be made beside a write of four sectors, and a read of four.
fn beside_both(flight: &Flight) -> [bool; 4] {
    [
        flight.has_room_for(flown(7, 1, false)),
        flight.has_room_for(flown(8, 8, true)),
        flight.has_room_for(flown(16, 1, false)),
        flight.has_room_for(flown(19, 9, true)),
    ]
}

/// Once the write has ended: whether its last sector may be read, and whether a flush may be made beside another.
fn behind_the_write(flight: &mut Flight) -> [bool; 2] {
    flight.end(0);
    let last = flight.has_room_for(flown(7, 1, false));
    flight.begin(0, sync());
    [last, flight.has_room_for(sync())]
}

#[test]
fn what_meets_a_write_waits(rt: HostRuntime) -> Result<(), Fail> {
    let mut flight = Flight::new(rt.alloc(), 2)?;
    flight.begin(0, flown(4, 4, true));
    flight.begin(1, flown(16, 4, false));
    same(&rt, &beside_both(&flight), &[false, true, true, false]);
    same(&rt, &behind_the_write(&mut flight), &[true, false]);
    Ok(())
}
