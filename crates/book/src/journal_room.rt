//! Room in the journal for the acts of a request.

ghost use Rattle.std.specs.Prelude.{◌≡◌, ◌≤◌, ◌<◌, ◌+◌, ◌-◌, ◌^◌, OnErr, OnOk, length, min};
ghost use Rattle.book.specs.Rooms.{IsLeft, MakesRoom, next_number};

use crate::name::BookNaming;
use asking::kind_of;
use compose::Event;
use disk::Medium;
use miniport::BookedAdapter;
use sector::Extent;
use sector_journal::Journal;
use std::alloc::AllocError;
use traced::Traced;

/// The number of the next request.
pub(crate) fn next_request<N: BookNaming>(traced: &Traced<BookedAdapter, N>) -> u64
    ensures { result ≡ next_number traced.now.owners }
{
    traced.calls().saturating_add(1)
}

/// Makes room in the journal for the acts of the request that an event asks for, on this extent and under this number.
/// Its pieces have `max_transfer` sectors at most.
pub(crate) fn reserve<M: Medium, N: BookNaming>(
    journal: &mut Journal<M, N>,
    number: u64,
    event: &Event,
    extent: Extent,
    max_transfer: u32,
) -> Result<(), AllocError>
    requires some { 1 ≤ max_transfer }
    ensures made { OnOk result (MakesRoom number event.now extent max_transfer journal.old journal.new) }
    ensures refused { OnErr result (IsLeft journal.old journal.new) }
{
    let Some(kind) = kind_of(event) else {
        return Ok(());
    };
    // The disk of the stack is the journal's: no extent lies beyond it.
    let Some(end) = extent.first.checked_add(extent.count) else {
        return Err(AllocError);
    };
    if end > journal.sectors() {
        return Err(AllocError);
    }
    journal.reserve(number, kind, extent, max_transfer)
}
