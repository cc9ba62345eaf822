//! The states that a register may have behind a sight, with all that open operations may do unseen.

ghost use Rattle.std.specs.Prelude.{◌≡◌, IfOk, IfSome};
ghost use Rattle.register_loss_judge.specs.inside.States.{forms};
ghost use Rattle.register_loss_search.specs.Searching.{Closes, Sees};

use crate::covering::insert_all;
use crate::states::{State, all_behind};
use crate::turning::turns_of;
use register_loss::Sight;
use std::alloc::{AllocError, Global};

/// The number of states whose turns are looked at.
const MOST: usize = 512;

/// These states and what turns make of them, if that is not too many.
fn close(alloc: Global, states: Vec<State>) -> Result<Option<Vec<State>>, AllocError>
    ensures { IfOk result (λ closed. IfSome closed (λ all. Closes (forms states.items) (forms all.items))) }
{
    let mut all = Vec::new(alloc);
    insert_all(&mut all, states)?;
    for index in 0..MOST {
        if index >= all.len() {
            return Ok(Some(all));
        }
        let turns = turns_of(alloc, &all[index])?;
        insert_all(&mut all, turns)?;
    }
    Ok(None)
}

/// The states behind a sight, if they are not too many.
pub(crate) fn see(
    alloc: Global,
    sight: &Sight,
    states: &[State],
) -> Result<Option<Vec<State>>, AllocError>
    ensures { IfOk result (λ seen. IfSome seen (λ new. Sees (forms states.now) sight.now (forms new.items))) }
{
    let behind = all_behind(alloc, sight, states)?;
    let Some(all) = close(alloc, behind)? else {
        return Ok(None);
    };
    let mut left = Vec::new(alloc);
    insert_all(&mut left, all)?;
    Ok(Some(left))
}
