//! What the spots are reserved for.

ghost use Rattle.std.specs.Prelude.{◌≡◌, ◌<◌, ℕ, OnOk, OnErr, length, vec_capacity};
ghost use Rattle.partition.specs.inside.Rooms.{Notes, wanted_at, wanted_by};

use device::Request;
use std::alloc::AllocError;

/// Makes places up to this spot.
fn lengthen(wanted: &mut Vec<Option<Request>>, spot: usize) -> Result<(), AllocError>
    ensures covers { OnOk result (spot < length wanted.new.items) }
    ensures same { (at : ℕ) → wanted_at (wanted_by wanted.new.items (vec_capacity wanted.new)) at ≡ wanted_at (wanted_by wanted.old.items (vec_capacity wanted.old)) at }
{
    while wanted.len() <= spot {
        wanted.reserve(1)?;
        wanted.push_reserved(None);
    }
    Ok(())
}

/// Notes what a spot is reserved for.
///
/// # Errors
///
/// [`AllocError`] where the spot has no place yet and memory was refused; each spot is then noted as it was.
pub(crate) fn note(
    wanted: &mut Vec<Option<Request>>,
    spot: usize,
    request: Request,
) -> Result<(), AllocError>
    ensures noted { OnOk result (Notes (wanted_by wanted.old.items (vec_capacity wanted.old)) spot request
        (wanted_by wanted.new.items (vec_capacity wanted.new))) }
    ensures refused { OnErr result ((at : ℕ) → wanted_at (wanted_by wanted.new.items (vec_capacity wanted.new)) at ≡ wanted_at (wanted_by wanted.old.items (vec_capacity wanted.old)) at) }
{
    lengthen(wanted, spot)?;
    wanted[spot] = Some(request);
    Ok(())
}
