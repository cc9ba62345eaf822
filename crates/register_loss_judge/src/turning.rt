//! What open operations may make of a state, unseen.

ghost use Rattle.std.specs.Prelude.{◌≡◌, [], ◌∷◌, map, IfOk, OnOk};
ghost use Rattle.std.specs.List.{filter};
ghost use Rattle.register_loss.specs.declared.Turn.TheVariants.{Acts, Fails};
ghost use Rattle.register_loss.specs.Schedules.{act_of, change_of, fault_of, is_other, is_same, left_by, marked};
ghost use Rattle.register_loss_judge.specs.inside.States.{changed_if, form, form_if, forms, held_if, held_of, turned, turns_onto, with_some};

use crate::states::{State, is_sync, is_write, share, unmet};
use crate::values::{Values, doubted, put, surely, tried};
use register_loss::{Open, Turn, What};
use std::alloc::{AllocError, Global};

/// Whether this is the write, or the sync, of the same number.
fn is_same(of: &Open, other: &Open) -> bool
    ensures { result ≡ is_same of.now other.now }
{
    if other.number != of.number {
        return false;
    }
    if is_write(&of.what) {
        is_write(&other.what)
    } else {
        is_sync(&other.what)
    }
}

fn is_other(of: &Open, other: &Open) -> bool
    ensures { result ≡ is_other of.now other.now }
{
    !is_same(of, other)
}

/// The other operations.
fn others(alloc: Global, of: &Open, waits: &[Open]) -> Result<Vec<Open>, AllocError>
    ensures { IfOk result (λ left. left.items ≡ filter (is_other of.now) waits.now) }
{
    let mut left = Vec::new(alloc);
    for wait in waits {
        if is_other(of, wait) {
            left.push(share(wait)?)?;
        }
    }
    Ok(left)
}

fn marked(of: &Open, other: &Open) -> Result<Open, AllocError>
    ensures { IfOk result (λ next. next ≡ marked of.now other.now) }
{
    let next = share(other)?;
    if is_same(of, other) {
        return Ok(Open {
            failed: true,
            ..next
        });
    }
    Ok(next)
}

/// The operations, where this one failed.
fn all_marked(alloc: Global, of: &Open, waits: &[Open]) -> Result<Vec<Open>, AllocError>
    ensures { IfOk result (λ all. all.items ≡ map (marked of.now) waits.now) }
{
    let mut all = Vec::new(alloc);
    for wait in waits {
        all.push(marked(of, wait)?)?;
    }
    Ok(all)
}

fn left_by(alloc: Global, turn: Turn, of: &Open, waits: &[Open]) -> Result<Vec<Open>, AllocError>
    ensures { IfOk result (λ left. left.items ≡ left_by turn of.now waits.now) }
{
    match turn {
        Turn::Acts => others(alloc, of, waits),
        Turn::Fails => all_marked(alloc, of, waits),
    }
}

/// What is held where a write takes effect.
fn acted(
    alloc: Global,
    next: u128,
    what: &What,
    values: &Values,
) -> Result<Option<Values>, AllocError>
    ensures { IfOk result (λ held. held_if held ≡ changed_if next (act_of what.now) (held_of values.now)) }
{
    match what {
        What::Write { value, through } => {
            if *through {
                return Ok(Some(surely(alloc, value)?));
            }
            Ok(Some(put(alloc, next, value, values)?))
        }
        What::Read { .. } => Ok(None),
        What::Flush => Ok(None),
        What::Sync => Ok(None),
    }
}

/// What is held where an operation fails.
fn faulted(
    alloc: Global,
    next: u128,
    of: &Open,
    values: &Values,
) -> Result<Option<Values>, AllocError>
    ensures { IfOk result (λ held. held_if held ≡ changed_if next (fault_of of.now.failed of.now.what) (held_of values.now)) }
{
    match &of.what {
        What::Write { value, .. } => {
            if of.failed {
                return Ok(None);
            }
            Ok(Some(tried(alloc, value, values)?))
        }
        What::Flush => Ok(Some(doubted(alloc, values)?)),
        What::Sync => Ok(Some(doubted(alloc, values)?)),
        What::Read { .. } => Ok(None),
    }
}

fn changed(
    alloc: Global,
    turn: Turn,
    of: &Open,
    state: &State,
) -> Result<Option<Values>, AllocError>
    ensures { IfOk result (λ held. held_if held ≡ changed_if state.now.next (change_of turn of.now) (held_of state.now.values)) }
{
    match turn {
        Turn::Acts => {
            if of.failed {
                return Ok(None);
            }
            acted(alloc, state.next, &of.what, &state.values)
        }
        Turn::Fails => faulted(alloc, state.next, of, &state.values),
    }
}

/// The state behind a turn, if the operation may take it.
fn turned(alloc: Global, turn: Turn, of: &Open, state: &State) -> Result<Option<State>, AllocError>
    ensures { IfOk result (λ next. form_if next ≡ turned turn (form state.now) of.now) }
{
    let Some(values) = changed(alloc, turn, of, state)? else {
        return Ok(None);
    };
    let left = left_by(alloc, turn, of, state.waits.as_slice())?;
    let waits = unmet(alloc, values.current.as_slice(), left.as_slice())?;
    Ok(Some(State {
        next: state.next,
        values,
        waits,
    }))
}

fn add_turn(
    alloc: Global,
    turns: &mut Vec<State>,
    turn: Turn,
    of: &Open,
    state: &State,
) -> Result<(), AllocError>
    ensures { OnOk result (forms turns.new.items ≡ with_some (forms turns.old.items) (turned turn (form state.now) of.now)) }
{
    if let Some(next) = turned(alloc, turn, of, state)? {
        turns.push(next)?;
    }
    Ok(())
}

/// Adds the states behind the turns of an operation.
fn add_both(
    alloc: Global,
    turns: &mut Vec<State>,
    of: &Open,
    state: &State,
) -> Result<(), AllocError>
    ensures { OnOk result (forms turns.new.items ≡ with_some (with_some (forms turns.old.items) (turned Acts (form state.now) of.now)) (turned Fails (form state.now) of.now)) }
{
    add_turn(alloc, turns, Turn::Acts, of, state)?;
    add_turn(alloc, turns, Turn::Fails, of, state)
}

/// The states behind the turns of these operations.
fn turns_among(alloc: Global, state: &State, waits: &[Open]) -> Result<Vec<State>, AllocError>
    ensures { IfOk result (λ turns. forms turns.items ≡ turns_onto (form state.now) [] waits.now) }
{
    let mut turns = Vec::new(alloc);
    for of in waits {
        add_both(alloc, &mut turns, of, state)?;
    }
    Ok(turns)
}

/// The states behind all turns.
pub(crate) fn turns_of(alloc: Global, state: &State) -> Result<Vec<State>, AllocError>
    ensures { IfOk result (λ turns. forms turns.items ≡ turns_onto (form state.now) [] state.now.waits.items) }
{
    turns_among(alloc, state, state.waits.as_slice())
}
