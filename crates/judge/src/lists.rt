//! Parts of lists.

ghost use Rattle.std.specs.Prelude.{◌≡◌, IfOk, slice_range};
ghost use Rattle.sector.specs.Splice.{splice};

use std::alloc::AllocError;

/// The items from one place on, up to another; fewer where the list ends before.
pub(crate) fn part<T>(items: &[T], from: u128, to: u128) -> &[T]
    ensures { result.now ≡ slice_range items.now from to }
{
    let length = items.len();
    let end = if to < length as u128 {
        to as usize
    } else {
        length
    };
    let start = if from < end as u128 {
        from as usize
    } else {
        end
    };
    &items[start..end]
}

/// The items with others in place of as many from a place on.
pub(crate) fn spliced<T: Drop>(
    mut items: Vec<T>,
    first: u128,
    mut others: Vec<T>,
) -> Result<Vec<T>, AllocError>
    ensures { IfOk result (λ all. all.items ≡ splice items.items first others.items) }
{
    let at = if first < items.len() as u128 {
        first as usize
    } else {
        items.len()
    };
    let mut rest = items.split_off(at)?;
    let replaced = others.len().min(rest.len());
    let mut behind = rest.split_off(replaced)?;
    items.append(&mut others)?;
    items.append(&mut behind)?;
    Ok(items)
}
