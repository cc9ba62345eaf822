//! Sectors of acts and of arrays.

ghost use Rattle.std.specs.Prelude.{◌≡◌, ◌+◌, ◌*◌, [], IfOk, List, get_or, slice_set};
ghost use Rattle.sector.specs.Splice.{splice};
ghost use Rattle.judge.specs.Deciding.{chunked, sectors_moved};
ghost use Rattle.judge.specs.Views.{rules_of};

use crate::arrays::Sectors;
use crate::rules::MachineRules;
use machine::Kind;
use sector::Bytes;
use std::alloc::{AllocError, Global};

/// Bytes cut into this many sectors of a size; the last ones are shorter where there are too few bytes.
///
/// # Errors
///
/// [`AllocError`] where memory was refused.
pub fn chunked(alloc: Global, count: u64, size: u32, bytes: &[u8]) -> Result<Vec<Bytes>, AllocError>
    ensures { IfOk result (λ sectors. sectors.items ≡ chunked count size bytes.now) }
{
    let mut sectors = Vec::new(alloc);
    let mut rest = bytes;
    for _ in 0..count {
        let (first, behind) = rest.split_at(rest.len().min(size as usize));
        sectors.push(Bytes::new(Vec::from_slice(alloc, first)?))?;
        rest = behind;
    }
    Ok(sectors)
}

/// The sectors that an act of this many places hands over as these bytes.
pub(crate) fn sectors_moved(
    alloc: Global,
    rules: &MachineRules,
    count: u64,
    kind: Kind,
    bytes: &[u8],
) -> Result<Vec<Bytes>, AllocError>
    ensures { IfOk result (λ sectors. sectors.items ≡ sectors_moved (rules_of rules.now) count kind bytes.now) }
{
    match kind {
        Kind::Read | Kind::Write => chunked(alloc, count, rules.sector_size, bytes),
        Kind::Flush => {
            let mut sectors = Vec::new(alloc);
            sectors.push(Bytes::new(Vec::new(alloc)))?;
            Ok(sectors)
        }
    }
}

/// The arrays, with these sectors in place of as many of one array.
pub(crate) fn with_written(
    mut arrays: Vec<Sectors>,
    partition: usize,
    first: u128,
    sectors: Vec<Bytes>,
) -> Result<Vec<Sectors>, AllocError>
    ensures { IfOk result (λ new. new.items ≡ slice_set arrays.items partition (splice (get_or arrays.items partition []) first sectors.items)) }
{
    if partition >= arrays.len() {
        return Ok(arrays);
    }
    arrays[partition].write(first, sectors)?;
    Ok(arrays)
}
