//! A register as it may be, by what was seen of it.

ghost use Rattle.std.specs.Prelude.{◌≡◌, true, [], ◌∷◌, ◌++◌, ◌↔◌, IfOk, IsTrue, OnOk};
ghost use Rattle.std.specs.List.{list_any};
ghost use Rattle.register_judge.specs.inside.States.{
  bounds_of,
  called,
  form_of,
  forms_of,
  is_bound,
  is_met_by,
};
ghost use Rattle.register_judge.specs.inside.Registers.{
  AllCalled,
  Begins,
  Calls,
  EachCalled,
  EndsAt,
  IsAlike,
  is_this,
  Sees,
  without,
};

use crate::covering::uncovered;
use crate::states::{State, Waiting, copies, end_all};
use register::{Contents, Sight};
use std::alloc::{AllocError, Global};

#[derive(Drop)]
pub(crate) struct Register {
    /// The numbers of the open operations.
    pub numbers: Vec<u64>,
    /// The number of the last call.
    pub last: u64,
    pub states: Vec<State>,
}

fn is_this(number: u64, other: u64) -> bool
    ensures { result ≡ is_this number other }
{
    other == number
}

/// Whether an operation is open.
fn is_among(number: u64, numbers: &[u64]) -> bool
    ensures { result ≡ list_any (is_this number) numbers.now }
{
    numbers.iter().any(|other| is_this(number, *other))
}

/// The others.
fn without(alloc: Global, number: u64, numbers: &[u64]) -> Result<Vec<u64>, AllocError>
    ensures { IfOk result (λ left. left.items ≡ without number [] numbers.now) }
{
    let mut left = Vec::new(alloc);
    for other in numbers {
        if is_this(number, *other) {
            continue;
        }
        left.push(*other)?;
    }
    Ok(left)
}

/// Takes a number out of these, among which it is.
fn take_out(alloc: Global, number: u64, numbers: &mut Vec<u64>) -> Result<(), AllocError>
    requires { list_any (is_this number) numbers.old.items ≡ true }
    ensures { OnOk result (numbers.new.items ≡ without number [] numbers.old.items) }
{
    if numbers.len() == 1 {
        numbers.clear();
        return Ok(());
    }
    *numbers = without(alloc, number, numbers.as_slice())?;
    Ok(())
}

/// Whether a called operation takes effect at once: a read of the value that the register has, or of one not recorded.
fn is_met_by(state: &State, wait: &Waiting) -> bool
    ensures { result ≡ is_met_by (form_of state.now) wait.now }
{
    if wait.value.is_none() {
        return !wait.writes;
    }
    if wait.writes || !wait.value.is(&state.value) {
        return false;
    }
    !state.any
}

/// Lets a called operation wait, unless it takes effect at once.
fn call_one(state: &mut State, wait: &Waiting) -> Result<(), AllocError>
    ensures { OnOk result (form_of state.new ≡ called wait.now (form_of state.old)) }
{
    if !is_met_by(state, wait) {
        state.waits.push(wait.share()?)?;
    }
    Ok(())
}

/// The same in each state.
fn call_each(states: &mut Vec<State>, wait: &Waiting) -> Result<(), AllocError>
    ensures { OnOk result (EachCalled wait.now states.old.items states.new.items) }
{
    for state in states.iter_mut() {
        call_one(state, wait)?;
    }
    Ok(())
}

/// Whether a called operation may tell what the register has, which may be any value.
fn is_bound(state: &State, wait: &Waiting) -> bool
    ensures { result ≡ is_bound wait.now (form_of state.now) }
{
    state.any && !wait.writes && !wait.value.is_none()
}

/// The states where it does.
fn bounds_of(alloc: Global, states: &[State], wait: &Waiting) -> Result<Vec<State>, AllocError>
    ensures { IfOk result (λ bounds. forms_of bounds.items ≡ bounds_of wait.now (forms_of states.now)) }
{
    let mut bounds = Vec::new(alloc);
    for state in states {
        if is_bound(state, wait) {
            bounds.push(state.bound(alloc, &wait.value)?)?;
        }
    }
    Ok(bounds)
}

/// What a call makes of the states: it waits in each, or takes effect there.
fn call_all(alloc: Global, states: &mut Vec<State>, wait: &Waiting) -> Result<(), AllocError>
    ensures { OnOk result (AllCalled wait.now states.old.items states.new.items) }
{
    let bounds = bounds_of(alloc, states.as_slice(), wait)?;
    call_each(states, wait)?;
    for bound in bounds {
        states.push(bound)?;
    }
    Ok(())
}

impl Register {
    /// A register that has this value, with nothing open.
    pub fn new(alloc: Global, start: &Contents) -> Result<Register, AllocError>
        ensures { IfOk result (λ register. Begins start.now register) }
    {
        let value = start.share()?;
        let waits = Vec::new(alloc);
        let mut states = Vec::new(alloc);
        states.push(State {
            any: false,
            value,
            waits,
        })?;
        Ok(Register {
            numbers: Vec::new(alloc),
            last: 0,
            states,
        })
    }

    /// The same register once more.
    pub fn copy(&self, alloc: Global) -> Result<Register, AllocError>
        ensures { IfOk result (IsAlike self.now) }
    {
        Ok(Register {
            numbers: Vec::from_slice(alloc, self.numbers.as_slice())?,
            last: self.last,
            states: copies(alloc, self.states.as_slice())?,
        })
    }

    /// Whether the register may have no state at all.
    pub fn has_none(&self) -> bool
        ensures { IsTrue result ↔ self.now.states.items ≡ [] }
    {
        self.states.is_empty()
    }

    /// Takes what is seen next; false where that is too much.
    pub fn see(&mut self, alloc: Global, sight: &Sight) -> Result<bool, AllocError>
        ensures { IfOk result (λ seen. seen ≡ true → Sees self.old sight.now self.new) }
    {
        match sight {
            Sight::Write { number, value } => self.call(alloc, *number, true, value),
            Sight::Read { number, value } => self.call(alloc, *number, false, value),
            Sight::Done { number } => self.end(alloc, *number, true),
            Sight::Failed { number } => self.end(alloc, *number, false),
        }
    }

    fn call(
        &mut self,
        alloc: Global,
        number: u64,
        writes: bool,
        value: &Contents,
    ) -> Result<bool, AllocError>
        ensures { IfOk result (λ seen. seen ≡ true → Calls self.old number writes value.now self.new) }
    {
        if number <= self.last {
            return Ok(false);
        }
        let wait = Waiting {
            number,
            writes,
            value: value.share()?,
            is_old: false,
        };
        self.numbers.push(number)?;
        self.last = number;
        call_all(alloc, &mut self.states, &wait)?;
        Ok(self.states.len() <= MOST)
    }

    fn end(&mut self, alloc: Global, number: u64, must: bool) -> Result<bool, AllocError>
        ensures { IfOk result (λ seen. seen ≡ true → EndsAt self.old number must self.new) }
    {
        if !is_among(number, self.numbers.as_slice()) {
            return Ok(false);
        }
        take_out(alloc, number, &mut self.numbers)?;
        let ended = end_all(alloc, must, number, self.states.as_slice())?;
        self.states = uncovered(alloc, uncovered(alloc, ended)?)?;
        Ok(self.states.len() <= MOST)
    }
}

/// The number of states that are kept.
const MOST: usize = 1024;
