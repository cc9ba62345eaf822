//! The bytes of one sector.

ghost use Rattle.std.specs.Prelude.{◌≡◌, IfOk};
ghost use Rattle.register.specs.Values.{code};
ghost use Rattle.history_fitting.specs.Services.{sector_in};

use crate::parts::part;
use register::Contents;
use std::alloc::{AllocError, Global};

/// Of the bytes of a request, or of its answer, those of the sector at one of its places, counted from 0. A sector has
/// `sector_size` bytes. Where `bytes` end before, there are fewer, or none.
///
/// # Errors
///
/// [`AllocError`] where memory was refused.
pub fn contents_of(
    alloc: Global,
    sector_size: u32,
    bytes: &[u8],
    place: u64,
) -> Result<Contents, AllocError>
    ensures { IfOk result (λ contents. contents ≡ code (sector_in sector_size bytes.now place)) }
{
    let size = sector_size as u128;
    let place = place as u128;
    Contents::new(alloc, part(bytes, place * size, (place + 1) * size))
}
