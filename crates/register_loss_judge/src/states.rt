//! The states that a register may have, and what sights make of them.

ghost use Rattle.std.specs.Prelude.{◌≡◌, ◌++◌, [], ◌∷◌, ◌&&◌, ◌==◌, map, not, IfOk, OnOk, if◌then◌else◌};
ghost use Rattle.std.specs.List.{filter, list_any};
ghost use Rattle.register_loss.specs.Schedules.{
  above,
  behind,
  called,
  done,
  ended,
  flushed,
  has_other,
  is_flush,
  is_flush_of,
  is_given,
  is_sync,
  is_undone,
  is_unmet,
  is_write,
  next_by,
  opening,
  unmet,
};
ghost use Rattle.register_loss_judge.specs.inside.States.{form, forms, held_of};
ghost use Rattle.register_loss_search.specs.Searching.{behind_all};

use crate::values::{Values, has_value, left, surely, synced};
use register::Contents;
use register_loss::{Open, Sight, What};
use std::alloc::{AllocError, Global};

/// What a register may hold, and its open operations that wait.
#[derive(Drop)]
pub(crate) struct State {
    pub next: u128,
    pub values: Values,
    pub waits: Vec<Open>,
}

/// A session begins with this value.
pub(crate) fn opening(alloc: Global, value: &Contents) -> Result<State, AllocError>
    ensures { IfOk result (λ state. form state ≡ opening value.now) }
{
    let values = surely(alloc, value)?;
    let waits = Vec::new(alloc);
    Ok(State {
        next: 1,
        values,
        waits,
    })
}

fn share_what(what: &What) -> Result<What, AllocError>
    ensures { IfOk result (λ same. same ≡ what.now) }
{
    match what {
        What::Read { value } => Ok(What::Read {
            value: value.share()?,
        }),
        What::Write { value, through } => Ok(What::Write {
            value: value.share()?,
            through: *through,
        }),
        What::Flush => Ok(What::Flush),
        What::Sync => Ok(What::Sync),
    }
}

pub(crate) fn share(wait: &Open) -> Result<Open, AllocError>
    ensures { IfOk result (λ same. same ≡ wait.now) }
{
    Ok(Open {
        number: wait.number,
        what: share_what(&wait.what)?,
        failed: wait.failed,
    })
}

/// The same state once more.
fn share_state(alloc: Global, state: &State) -> Result<State, AllocError>
    ensures { IfOk result (λ same. form same ≡ form state.now) }
{
    let values = state.values.copy(alloc)?;
    let waits = shared(alloc, state.waits.as_slice())?;
    Ok(State {
        next: state.next,
        values,
        waits,
    })
}

/// The same states once more.
pub(crate) fn copies(alloc: Global, states: &[State]) -> Result<Vec<State>, AllocError>
    ensures { IfOk result (λ all. forms all.items ≡ forms states.now) }
{
    let mut all = Vec::new(alloc);
    for state in states {
        all.push(share_state(alloc, state)?)?;
    }
    Ok(all)
}

/// Whether a read may be given its value.
fn is_given(now: &[Contents], what: &What) -> bool
    ensures { result ≡ is_given now.now what.now }
{
    match what {
        What::Read { value } => has_value(value, now),
        What::Write { .. } => false,
        What::Flush => false,
        What::Sync => false,
    }
}

fn is_unmet(now: &[Contents], wait: &Open) -> bool
    ensures { result ≡ is_unmet now.now wait.now }
{
    !is_given(now, &wait.what)
}

/// Those that go on waiting.
pub(crate) fn unmet(
    alloc: Global,
    now: &[Contents],
    waits: &[Open],
) -> Result<Vec<Open>, AllocError>
    ensures { IfOk result (λ left. left.items ≡ unmet now.now waits.now) }
{
    let mut left = Vec::new(alloc);
    for wait in waits {
        if is_unmet(now, wait) {
            left.push(share(wait)?)?;
        }
    }
    Ok(left)
}

pub(crate) fn is_write(what: &What) -> bool
    ensures { result ≡ is_write what.now }
{
    match what {
        What::Write { .. } => true,
        What::Read { .. } => false,
        What::Flush => false,
        What::Sync => false,
    }
}

pub(crate) fn is_sync(what: &What) -> bool
    ensures { result ≡ is_sync what.now }
{
    match what {
        What::Flush => true,
        What::Sync => true,
        What::Read { .. } => false,
        What::Write { .. } => false,
    }
}

fn is_flush(what: &What) -> bool
    ensures { result ≡ is_flush what.now }
{
    match what {
        What::Flush => true,
        What::Sync => false,
        What::Read { .. } => false,
        What::Write { .. } => false,
    }
}

fn above(number: u64, next: u128) -> u128
    ensures { result ≡ above number next }
{
    let number = u128::from(number);
    if next <= number { number + 1 } else { next }
}

/// The same operations once more.
fn shared(alloc: Global, waits: &[Open]) -> Result<Vec<Open>, AllocError>
    ensures { IfOk result (λ all. all.items ≡ waits.now) }
{
    let mut all = Vec::new(alloc);
    for wait in waits {
        all.push(share(wait)?)?;
    }
    Ok(all)
}

/// An operation is called.
fn called(alloc: Global, number: u64, what: &What, state: &State) -> Result<State, AllocError>
    ensures { IfOk result (λ next. form next ≡ called number what.now (form state.now)) }
{
    let values = state.values.copy(alloc)?;
    let mut waits = shared(alloc, state.waits.as_slice())?;
    waits.push(Open {
        number,
        what: share_what(what)?,
        failed: false,
    })?;
    let waits = unmet(alloc, state.values.current.as_slice(), waits.as_slice())?;
    Ok(State {
        next: above(number, state.next),
        values,
        waits,
    })
}

/// Another one is.
fn called_elsewhere(alloc: Global, number: u64, state: &State) -> Result<State, AllocError>
    ensures { IfOk result (λ next. form next ≡ record { next = above number state.now.next; held = held_of state.now.values; waits = state.now.waits.items }) }
{
    let values = state.values.copy(alloc)?;
    let waits = shared(alloc, state.waits.as_slice())?;
    Ok(State {
        next: above(number, state.next),
        values,
        waits,
    })
}

fn has_other(number: u64, wait: &Open) -> bool
    ensures { result ≡ has_other number wait.now }
{
    !(wait.number == number)
}

/// The others.
fn without(alloc: Global, number: u64, waits: &[Open]) -> Result<Vec<Open>, AllocError>
    ensures { IfOk result (λ left. left.items ≡ filter (has_other number) waits.now) }
{
    let mut left = Vec::new(alloc);
    for wait in waits {
        if has_other(number, wait) {
            left.push(share(wait)?)?;
        }
    }
    Ok(left)
}

/// An operation ended.
fn ended(alloc: Global, number: u64, state: &State) -> Result<State, AllocError>
    ensures { IfOk result (λ next. form next ≡ ended number (form state.now)) }
{
    let values = state.values.copy(alloc)?;
    let waits = without(alloc, number, state.waits.as_slice())?;
    Ok(State {
        next: state.next,
        values,
        waits,
    })
}

/// Whether this keeps the operation of this number from succeeding.
fn is_undone(number: u64, wait: &Open) -> bool
    ensures { result ≡ is_undone number wait.now }
{
    wait.number == number && (!is_sync(&wait.what) || wait.failed)
}

fn has_undone(number: u64, waits: &[Open]) -> bool
    ensures { result ≡ list_any (is_undone number) waits.now }
{
    waits.iter().any(|wait| is_undone(number, wait))
}

fn is_flush_of(number: u64, wait: &Open) -> bool
    ensures { result ≡ is_flush_of number wait.now }
{
    wait.number == number && is_flush(&wait.what)
}

fn has_flush(number: u64, waits: &[Open]) -> bool
    ensures { result ≡ list_any (is_flush_of number) waits.now }
{
    waits.iter().any(|wait| is_flush_of(number, wait))
}

/// What a register holds behind the success of an operation.
fn flushed(alloc: Global, number: u64, state: &State) -> Result<Values, AllocError>
    ensures { IfOk result (λ held. held_of held ≡ flushed number (form state.now)) }
{
    if has_flush(number, state.waits.as_slice()) {
        return synced(alloc, number, &state.values);
    }
    state.values.copy(alloc)
}

/// It succeeded.
fn done(alloc: Global, number: u64, state: &State) -> Result<State, AllocError>
    ensures { IfOk result (λ next. form next ≡ done number (form state.now)) }
{
    let values = flushed(alloc, number, state)?;
    let waits = without(alloc, number, state.waits.as_slice())?;
    Ok(State {
        next: state.next,
        values,
        waits,
    })
}

/// Adds a state for each value with which a session may begin.
fn add_openings(
    alloc: Global,
    states: &mut Vec<State>,
    values: &[Contents],
) -> Result<(), AllocError>
    ensures { OnOk result (forms states.new.items ≡ forms states.old.items ++ map opening values.now) }
{
    for value in values {
        states.push(opening(alloc, value)?)?;
    }
    Ok(())
}

fn add_one(states: &mut Vec<State>, state: State) -> Result<(), AllocError>
    ensures { OnOk result (forms states.new.items ≡ forms states.old.items ++ form state ∷ []) }
{
    states.push(state)?;
    Ok(())
}

/// Adds the state behind a success, if there is one.
fn add_done(
    alloc: Global,
    number: u64,
    states: &mut Vec<State>,
    state: &State,
) -> Result<(), AllocError>
    ensures { OnOk result (forms states.new.items ≡ forms states.old.items ++ (if list_any (is_undone number) state.now.waits.items then [] else done number (form state.now) ∷ [])) }
{
    if has_undone(number, state.waits.as_slice()) {
        return Ok(());
    }
    let next = done(alloc, number, state)?;
    add_one(states, next)
}

/// Adds the states that a sight leaves of one.
fn add_behind(
    alloc: Global,
    sight: &Sight,
    states: &mut Vec<State>,
    state: &State,
) -> Result<(), AllocError>
    ensures { OnOk result (forms states.new.items ≡ forms states.old.items ++ behind sight.now (form state.now)) }
{
    match sight {
        Sight::Call { number, what } => {
            let next = called(alloc, *number, what, state)?;
            add_one(states, next)
        }
        Sight::Elsewhere { number } => {
            let next = called_elsewhere(alloc, *number, state)?;
            add_one(states, next)
        }
        Sight::Done { number } => add_done(alloc, *number, states, state),
        Sight::Failed { number } => {
            let next = ended(alloc, *number, state)?;
            add_one(states, next)
        }
        Sight::Lost => {
            let left = left(alloc, &state.values)?;
            add_openings(alloc, states, left.as_slice())
        }
        Sight::Ended => add_openings(alloc, states, state.values.current.as_slice()),
    }
}

/// The states that a sight leaves.
pub(crate) fn all_behind(
    alloc: Global,
    sight: &Sight,
    states: &[State],
) -> Result<Vec<State>, AllocError>
    ensures { IfOk result (λ all. forms all.items ≡ behind_all sight.now (forms states.now)) }
{
    let mut all = Vec::new(alloc);
    for state in states {
        add_behind(alloc, sight, &mut all, state)?;
    }
    Ok(all)
}
