//! States that another one makes needless: whatever may still come of them may come of it.

ghost use Rattle.std.specs.Prelude.{◌≡◌, ◌++◌, true, All, OnOk};
ghost use Rattle.loss.specs.Held.{IsOneOf};
ghost use Rattle.register_loss.specs.declared.What.TheVariants.{Flush, Read, Sync, Write};
ghost use Rattle.register_loss_judge.specs.inside.Covering.{Inserts, InsertsAll, Lasts, Lives, StaysAs};
ghost use Rattle.register_loss_judge.specs.inside.States.{form, forms, held_of};
ghost use Rattle.register_loss_search.specs.Covering.{Covers, HasDuty, HasTurn, IsDuty, is_idle, IsKept, IsTurn, Wider};

use crate::states::{State, is_sync, is_write};
use crate::values::{Older, Values, has_value};
use register::Contents;
use register_loss::{Open, What};
use std::alloc::AllocError;

/// Whether a read may give the value.
fn gives(value: &Contents, now: &[Contents]) -> bool
    ensures { result ≡ true → IsOneOf value.now now.now }
{
    has_value(value, now)
}

/// Whether a read may give all of these.
fn gives_all(values: &[Contents], now: &[Contents]) -> bool
    ensures { result ≡ true → All (λ v. IsOneOf v now.now) values.now }
{
    for value in values {
        if !gives(value, now) {
            return false;
        }
    }
    true
}

/// Whether an older value lasts as long as another one.
fn is_later(one: &Older, other: &Older) -> bool
    ensures { result ≡ true → Lasts one.now other.now }
{
    other.value.is(&one.value) && one.behind <= other.behind
}

fn has_later(one: &Older, others: &[Older]) -> bool
    ensures { result ≡ true → StaysAs one.now others.now }
{
    for other in others {
        if is_later(one, other) {
            return true;
        }
    }
    false
}

/// Whether an older value stays as long in another register.
fn lives(one: &Older, values: &Values) -> bool
    ensures { result ≡ true → Lives one.now values.now }
{
    if gives(&one.value, values.current.as_slice()) {
        return true;
    }
    has_later(one, values.older.as_slice())
}

fn all_live(older: &[Older], values: &Values) -> bool
    ensures { result ≡ true → All (λ one. Lives one values.now) older.now }
{
    for one in older {
        if !lives(one, values) {
            return false;
        }
    }
    true
}

/// Whether a register may hold whatever another one may, and as long.
fn is_wider(values: &Values, others: &Values) -> bool
    ensures { result ≡ true → Wider (held_of others.now) (held_of values.now) }
{
    let now = values.current.as_slice();
    let given = others.current.as_slice();
    if !gives_all(given, now) {
        return false;
    }
    let older = others.older.as_slice();
    all_live(older, values)
}

fn reads(value: &Contents, what: &What) -> bool
    ensures { result ≡ true → Read value.now ≡ what.now }
{
    match what {
        What::Read { value: other } => value.is(other),
        What::Write { .. } => false,
        What::Flush => false,
        What::Sync => false,
    }
}

fn writes(value: &Contents, through: bool, what: &What) -> bool
    ensures { result ≡ true → Write value.now through ≡ what.now }
{
    match what {
        What::Write {
            value: other,
            through: as_well,
        } => value.is(other) && through == *as_well,
        What::Read { .. } => false,
        What::Flush => false,
        What::Sync => false,
    }
}

fn flushes(what: &What) -> bool
    ensures { result ≡ true → Flush ≡ what.now }
{
    match what {
        What::Flush => true,
        What::Read { .. } => false,
        What::Write { .. } => false,
        What::Sync => false,
    }
}

fn syncs(what: &What) -> bool
    ensures { result ≡ true → Sync ≡ what.now }
{
    match what {
        What::Sync => true,
        What::Read { .. } => false,
        What::Write { .. } => false,
        What::Flush => false,
    }
}

fn is_what(one: &What, other: &What) -> bool
    ensures { result ≡ true → one.now ≡ other.now }
{
    match one {
        What::Read { value } => reads(value, other),
        What::Write { value, through } => writes(value, *through, other),
        What::Flush => flushes(other),
        What::Sync => syncs(other),
    }
}

/// Whether what one operation is still to do the other one is, too.
fn is_duty(one: &Open, other: &Open) -> bool
    ensures { result ≡ true → IsDuty one.now other.now }
{
    if other.number != one.number || !is_what(&other.what, &one.what) {
        return false;
    }
    !one.failed || other.failed
}

fn has_duty(one: &Open, others: &[Open]) -> bool
    ensures { result ≡ true → HasDuty others.now one.now }
{
    for other in others {
        if is_duty(one, other) {
            return true;
        }
    }
    false
}

/// Whether what is to be done in one state is so in the other.
fn have_duties(waits: &[Open], others: &[Open]) -> bool
    ensures { result ≡ true → All (λ one. HasDuty others.now one) waits.now }
{
    for one in waits {
        if !has_duty(one, others) {
            return false;
        }
    }
    true
}

/// Whether an operation has no turn left.
fn is_idle(other: &Open) -> bool
    ensures { result ≡ is_idle other.now }
{
    if is_sync(&other.what) {
        return false;
    }
    !is_write(&other.what) || other.failed
}

/// Whether an operation has each turn that the other one has.
fn is_turn(other: &Open, one: &Open) -> bool
    ensures { result ≡ true → IsTurn other.now one.now }
{
    if one.number != other.number || !is_what(&one.what, &other.what) {
        return false;
    }
    is_sync(&one.what) || !one.failed
}

fn has_turn(other: &Open, waits: &[Open]) -> bool
    ensures { result ≡ true → HasTurn waits.now other.now }
{
    if is_idle(other) {
        return true;
    }
    for one in waits {
        if is_turn(other, one) {
            return true;
        }
    }
    false
}

/// Whether the turns of one state can be taken in the other.
fn have_turns(others: &[Open], waits: &[Open]) -> bool
    ensures { result ≡ true → All (λ other. HasTurn waits.now other) others.now }
{
    for other in others {
        if !has_turn(other, waits) {
            return false;
        }
    }
    true
}

/// Whether a state makes another one needless.
fn does_cover(state: &State, other: &State) -> bool
    ensures { result ≡ true → Covers (form state.now) (form other.now) }
{
    if !is_wider(&state.values, &other.values) {
        return false;
    }
    if !have_duties(state.waits.as_slice(), other.waits.as_slice()) {
        return false;
    }
    have_turns(other.waits.as_slice(), state.waits.as_slice())
}

/// Whether one of these makes a state needless.
fn is_covered(states: &[State], other: &State) -> bool
    ensures { result ≡ true → IsKept (forms states.now) (form other.now) }
{
    for state in states {
        if does_cover(state, other) {
            return true;
        }
    }
    false
}

/// Adds a state, unless it is needless.
fn insert(states: &mut Vec<State>, state: State) -> Result<(), AllocError>
    ensures { OnOk result (Inserts (forms states.old.items) (form state) (forms states.new.items)) }
{
    if is_covered(states.as_slice(), &state) {
        return Ok(());
    }
    states.push(state)?;
    Ok(())
}

/// Adds those that are not needless.
pub(crate) fn insert_all(states: &mut Vec<State>, others: Vec<State>) -> Result<(), AllocError>
    ensures { OnOk result (InsertsAll (forms states.old.items) (forms others.items) (forms states.new.items)) }
{
    let mut others = others;
    while let Some(state) = others.pop() {
        insert(states, state)?;
    }
    Ok(())
}
