//! Sectors that take an event.

ghost use Rattle.std.specs.Prelude.{◌≡◌, ◌<◌, Some, length, IfOk, MatchOption};
ghost use Rattle.disk_judge.specs.Disks.{HasTaken, IsRefusedAt};
ghost use Rattle.disk_judge.specs.declared.Happening.TheVariants.{At};
ghost use Rattle.disk_judge.specs.inside.One.{HaveTaken, TakesAt, IsNever};

use sector_judge::{Event, Known};
use std::alloc::{AllocError, Global};

/// Lets one sector take an event.
fn take_one(
    sectors: &mut Vec<Known>,
    alloc: Global,
    sector: usize,
    event: Event,
) -> Result<bool, AllocError>
    requires { sector < length sectors.old.items }
    ensures { IfOk result (λ taken. TakesAt taken sector event sectors.old.items sectors.new.items) }
{
    sectors[sector].take(alloc, event)
}

/// Lets one sector take an event, if the disk has it, and tells it if the event can't have happened.
pub(crate) fn take_at(
    sectors: &mut Vec<Known>,
    alloc: Global,
    sector: usize,
    event: Event,
) -> Result<Option<usize>, AllocError>
    ensures { IfOk result (λ refused. MatchOption refused (HasTaken (At sector event) sectors.old.items sectors.new.items) (IsRefusedAt (At sector event) sectors.old.items)) }
{
    if sector >= sectors.len() {
        return Ok(None);
    }
    if take_one(sectors, alloc, sector, event)? {
        return Ok(None);
    }
    Ok(Some(sector))
}

/// Lets each sector take an event, and tells the first to which it can't have happened.
pub(crate) fn take_everywhere(
    sectors: &mut Vec<Known>,
    alloc: Global,
    event: Event,
) -> Result<Option<usize>, AllocError>
    ensures { IfOk result (λ refused. MatchOption refused (HaveTaken (length sectors.old.items) event sectors.old.items sectors.new.items) (IsNever event sectors.old.items)) }
{
    for sector in 0..sectors.len() {
        if !take_one(sectors, alloc, sector, event)? {
            return Ok(Some(sector));
        }
    }
    Ok(None)
}
