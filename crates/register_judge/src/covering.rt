//! States that another one makes needless: whatever may still come of them may come of it.

ghost use Rattle.std.specs.Prelude.{◌≡◌, ◌&&◌, All, IfOk, IfSome, true};
ghost use Rattle.std.specs.List.{list_any};
ghost use Rattle.register_judge.specs.inside.Covering.{Covers, is_later, is_there, IsCovered, may_wait, MayHave, Prunes};
ghost use Rattle.register_judge.specs.inside.States.{form_of, forms_of, is_number};

use crate::states::{State, Waiting, is_number};
use std::alloc::{AllocError, Global};

/// Whether an operation that waits may have taken effect wherever this other one of its number may.
fn is_later(wait: &Waiting, other: &Waiting) -> bool
    ensures { result ≡ is_later wait.now other.now }
{
    other.number == wait.number && (wait.is_old || !other.is_old)
}

/// From one place on, that of an operation of its number which may have taken effect no later. Numbers rise.
fn later_from(others: &[Waiting], from: usize, wait: &Waiting) -> Option<usize>
    ensures { IfSome result (λ _. list_any (is_later wait.now) others.now ≡ true) }
{
    for at in from..others.len() {
        let other = &others[at];
        if is_later(wait, other) {
            return Some(at);
        }
        if other.number > wait.number {
            return None;
        }
    }
    None
}

/// Whether an operation waits among these.
fn has_number(number: u64, waits: &[Waiting]) -> bool
    ensures { result ≡ list_any (is_number number) waits.now }
{
    waits.iter().any(|wait| is_number(number, wait))
}

fn is_free(wait: &Waiting) -> bool
    ensures { result ≡ (wait.now.writes && wait.now.is_old) }
{
    wait.writes && wait.is_old
}

/// Where the next operation is looked for, if one may wait in a state that covers one with these.
fn next_from(others: &[Waiting], from: usize, wait: &Waiting) -> Option<usize>
    ensures { IfSome result (λ _. may_wait others.now wait.now ≡ true) }
{
    if let Some(at) = later_from(others, from, wait) {
        return Some(at.saturating_add(1));
    }
    if is_free(wait) {
        return Some(from);
    }
    None
}

/// Whether a write waits among these, too.
fn is_there(waits: &[Waiting], other: &Waiting) -> bool
    ensures { result ≡ is_there waits.now other.now }
{
    !other.writes | has_number(other.number, waits)
}

/// Whether all that wait in one state may do so where it covers another.
fn all_may_wait(others: &[Waiting], waits: &[Waiting]) -> bool
    ensures { result ≡ true → All (λ wait. may_wait others.now wait ≡ true) waits.now }
{
    let mut from = 0;
    for wait in waits {
        let Some(next) = next_from(others, from, wait) else {
            return false;
        };
        from = next;
    }
    true
}

/// Whether the writes that wait in one state do so in another.
fn all_are_there(waits: &[Waiting], others: &[Waiting]) -> bool
    ensures { result ≡ true → All (λ other. is_there waits.now other ≡ true) others.now }
{
    for other in others {
        if !is_there(waits, other) {
            return false;
        }
    }
    true
}

/// Whether a state may have each value that another one may.
fn may_have(state: &State, other: &State) -> bool
    ensures { result ≡ true → MayHave (form_of state.now) (form_of other.now) }
{
    if state.any {
        return true;
    }
    if !state.value.is(&other.value) {
        return false;
    }
    !other.any
}

/// Whether a state makes another one needless.
fn does_cover(state: &State, other: &State) -> bool
    ensures { result ≡ true → Covers (form_of state.now) (form_of other.now) }
{
    if !all_may_wait(other.waits.as_slice(), state.waits.as_slice()) {
        return false;
    }
    if !may_have(state, other) {
        return false;
    }
    all_are_there(state.waits.as_slice(), other.waits.as_slice())
}

/// Whether one of these makes a state needless.
fn is_covered(states: &[State], other: &State) -> bool
    ensures { result ≡ true → IsCovered (forms_of states.now) (form_of other.now) }
{
    for state in states {
        if does_cover(state, other) {
            return true;
        }
    }
    false
}

/// The states, from the last to the first, without those that a later one makes needless.
fn left_of_all(alloc: Global, mut states: Vec<State>) -> Result<Vec<State>, AllocError>
    ensures { IfOk result (λ left. Prunes (forms_of states.items) (forms_of left.items)) }
{
    let mut states = states;
    let mut left = Vec::new(alloc);
    while let Some(state) = states.pop() {
        if !is_covered(left.as_slice(), &state) {
            left.push(state)?;
        }
    }
    Ok(left)
}

/// States without those that another one makes needless.
#[tactic(auto, using(crate::proofs::Pruning::prunes_self))]
pub(crate) fn uncovered(alloc: Global, states: Vec<State>) -> Result<Vec<State>, AllocError>
    ensures { IfOk result (λ left. Prunes (forms_of states.items) (forms_of left.items)) }
{
    if states.len() <= 1 {
        return Ok(states);
    }
    left_of_all(alloc, states)
}
