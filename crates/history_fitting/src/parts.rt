//! Bytes, sector by sector.

ghost use Rattle.std.specs.Prelude.{◌≡◌, slice_range};

/// The bytes from one place on to another, as far as they are there.
pub(crate) fn part(bytes: &[u8], from: u128, to: u128) -> &[u8]
    ensures { result.now ≡ slice_range bytes.now from to }
{
    let count = bytes.len() as u128;
    let to = to.min(count);
    let from = from.min(to);
    &bytes[from as usize..to as usize]
}
