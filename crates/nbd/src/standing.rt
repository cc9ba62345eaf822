//! Bytes that stand in the array already, which nobody has to write.

ghost use Rattle.std.specs.Prelude.{◌≡◌, ◌≤◌, ◌+◌, length, slice_range};
ghost use Rattle.std.specs.Bool.{OnTrue};
ghost use Rattle.std.specs.List.{list_all};
ghost use Rattle.nbd.specs.Content.{AreInBounds};
ghost use Rattle.nbd.specs.inside.Standing.{is_zero};

use crate::arrays::Array;
use crate::constants::LONGEST;
use crate::streams::zeros;
use std::alloc::Global;

/// Whether a write of zeros may be left out where they stand already: not one past volatile caches, nor one that the
/// array should refuse.
pub(crate) fn may_leave_out<A: Array>(array: &A, through: bool) -> bool {
    !through && !array.sizes().read_only
}

/// Whether all bytes are zero.
pub(crate) fn are_zeros(bytes: &[u8]) -> bool
    ensures { result ≡ list_all is_zero bytes.now }
{
    bytes.iter().all(|byte| *byte == 0)
}

/// Whether these bytes stand in the array from byte `offset` on. False too where memory was refused, or the array can't
/// be read.
pub(crate) fn stand_there<A: Array>(alloc: Global, array: &mut A, offset: u64, bytes: &[u8]) -> bool
    requires in_bounds { AreInBounds (A.content array.old).block (length (A.content array.old).bytes) offset (length bytes.now) }
    requires short { length bytes.now ≤ LONGEST }
    ensures there { OnTrue result (slice_range (A.content array.old).bytes offset (offset + length bytes.now) ≡ bytes.now) }
    ensures same { A.content array.new ≡ A.content array.old }
{
    let Some(buffer) = zeros(alloc, bytes.len() as u32) else {
        return false;
    };
    match array.read(alloc, offset, buffer) {
        Ok(found) => are_same(found.as_slice(), bytes),
        Err(_) => false,
    }
}

/// Whether these are the same bytes.
fn are_same(a: &[u8], b: &[u8]) -> bool
    ensures { OnTrue result (a.now ≡ b.now) }
{
    a == b
}
