//! The bytes of an extent, where a part of it stands.

ghost use Rattle.std.specs.Prelude.{◌≡◌, ◌+◌, ◌-◌, ◌*◌, ◌≤◌, ◌<◌, ◌^◌};

use sector::Extent;

/// The places of the first byte of a part of an extent, and of the byte after its last, among the bytes of the extent.
pub(crate) fn places(sector_size: u32, whole: Extent, part: Extent) -> (usize, usize)
    requires after { whole.first ≤ part.first }
    requires inside { part.first + part.count ≤ whole.first + whole.count }
    requires countable { whole.count * sector_size < 2 ^ 64 }
    ensures start { result.0 ≡ (part.first - whole.first) * sector_size }
    ensures end { result.1 ≡ (part.first - whole.first + part.count) * sector_size }
    ensures ordered { result.0 ≤ result.1 }
    ensures within { result.1 ≤ whole.count * sector_size }
{
    let size = sector_size as u64;
    let before = part.first - whole.first;
    let start = before * size;
    let end = (before + part.count) * size;
    (start as usize, end as usize)
}
