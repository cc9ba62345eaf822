//! The states that a register may have, and what an end makes of them.

ghost use Rattle.std.specs.Prelude.{◌≡◌, ◌⊎◌, true, [], find, length, map, option_copied, Contains, IfOk, OnOk};
ghost use Rattle.register_judge.specs.inside.States.{
  ages,
  Adds,
  any_by,
  any_write,
  bound,
  Ends,
  EndsAll,
  form_of,
  forms_of,
  is_any_write,
  is_gone,
  is_met,
  is_number,
  is_source,
  left_of,
  leave,
  lefts,
  may_leave,
  may_tell,
  may_turn,
  may_write,
  meets,
  take_any,
  turn_by,
  turned,
  turns_of,
  turns_onto,
  untold,
  value_by,
};

use register::Contents;
use std::alloc::{AllocError, Global};

/// An open operation that has not taken effect for certain.
#[derive(Drop)]
pub(crate) struct Waiting {
    pub number: u64,
    pub writes: bool,
    pub value: Contents,
    /// It was open at the last effect of a write, and may have taken effect unseen just before that.
    pub is_old: bool,
}

impl Waiting {
    pub fn share(&self) -> Result<Waiting, AllocError>
        ensures { IfOk result (λ wait. wait ≡ self.now) }
    {
        Ok(Waiting {
            number: self.number,
            writes: self.writes,
            value: self.value.share()?,
            is_old: self.is_old,
        })
    }
}

/// A value that the register may have, and the operations that wait.
#[derive(Drop)]
pub(crate) struct State {
    /// It has what a write left whose bytes were not recorded, and no read told them: any value.
    pub any: bool,
    pub value: Contents,
    pub waits: Vec<Waiting>,
}

/// The same operations once more.
fn shared(alloc: Global, waits: &[Waiting]) -> Result<Vec<Waiting>, AllocError>
    ensures { IfOk result (λ all. all.items ≡ waits.now) }
{
    let mut all = Vec::new(alloc);
    for wait in waits {
        all.push(wait.share()?)?;
    }
    Ok(all)
}

impl State {
    fn copy(&self, alloc: Global) -> Result<State, AllocError>
        ensures { IfOk result (λ state. form_of state ≡ form_of self.now) }
    {
        let value = self.value.share()?;
        let waits = shared(alloc, self.waits.as_slice())?;
        Ok(State {
            any: self.any,
            value,
            waits,
        })
    }

    /// The same, where a read tells the value.
    pub fn bound(&self, alloc: Global, value: &Contents) -> Result<State, AllocError>
        ensures { IfOk result (λ state. form_of state ≡ bound value.now (form_of self.now)) }
    {
        let value = value.share()?;
        let waits = shared(alloc, self.waits.as_slice())?;
        Ok(State {
            any: false,
            value,
            waits,
        })
    }
}

/// The same states once more.
pub(crate) fn copies(alloc: Global, states: &[State]) -> Result<Vec<State>, AllocError>
    ensures { IfOk result (λ all. forms_of all.items ≡ forms_of states.now) }
{
    let mut all = Vec::new(alloc);
    for state in states {
        all.push(state.copy(alloc)?)?;
    }
    Ok(all)
}

/// What becomes of a write, or of any operation that need not take effect.
#[derive(Debug, Clone, Copy)]
pub(crate) enum How {
    /// It takes effect now.
    Act,
    /// So does a write whose bytes were not recorded, with a value that no read waits for.
    Any,
    /// It took effect just before the last effect of a write.
    Hide,
    /// It never does.
    Leave,
}

#[derive(Drop)]
pub(crate) struct Turn {
    pub how: How,
    pub number: u64,
    pub value: Contents,
}

/// Whether this is a read of the value.
fn is_met(value: &Contents, wait: &Waiting) -> bool
    ensures { result ≡ is_met value.now wait.now }
{
    !wait.writes && wait.value.is(value)
}

/// Whether a read takes effect behind a write of this value.
fn meets(how: How, value: &Contents, wait: &Waiting) -> bool
    ensures { result ≡ meets how value.now wait.now }
{
    match how {
        How::Act => is_met(value, wait),
        How::Hide => wait.is_old && is_met(value, wait),
        How::Any | How::Leave => false,
    }
}

/// Whether an operation waits no more.
fn is_gone(turn: &Turn, wait: &Waiting) -> bool
    ensures { result ≡ is_gone turn.now wait.now }
{
    wait.number == turn.number || meets(turn.how, &turn.value, wait)
}

fn ages(how: How, wait: &Waiting) -> Result<Waiting, AllocError>
    ensures { IfOk result (λ next. next ≡ ages how wait.now) }
{
    let next = wait.share()?;
    match how {
        How::Act | How::Any => Ok(Waiting {
            is_old: true,
            ..next
        }),
        How::Hide | How::Leave => Ok(next),
    }
}

/// What is left of an operation that waits.
fn left_of(turn: &Turn, wait: &Waiting) -> Result<Option<Waiting>, AllocError>
    ensures { IfOk result (λ left. left ≡ left_of turn.now wait.now) }
{
    if is_gone(turn, wait) {
        return Ok(None);
    }
    Ok(Some(ages(turn.how, wait)?))
}

/// What is left of those that wait.
fn lefts(alloc: Global, turn: &Turn, waits: &[Waiting]) -> Result<Vec<Waiting>, AllocError>
    ensures { IfOk result (λ left. left.items ≡ lefts turn.now [] waits.now) }
{
    let mut left = Vec::new(alloc);
    for wait in waits {
        if let Some(wait) = left_of(turn, wait)? {
            left.push(wait)?;
        }
    }
    Ok(left)
}

fn value_by(turn: &Turn, value: &Contents) -> Result<Contents, AllocError>
    ensures { IfOk result (λ next. next ≡ value_by turn.now.how turn.now.value value.now) }
{
    match turn.how {
        How::Act => turn.value.share(),
        How::Any => turn.value.share(),
        How::Hide | How::Leave => value.share(),
    }
}

/// Whether the register has any value behind a turn.
fn any_by(how: How, before: bool) -> bool
    ensures { result ≡ any_by how before }
{
    match how {
        How::Act => false,
        How::Any => true,
        How::Hide | How::Leave => before,
    }
}

/// The state behind a turn.
fn turned(alloc: Global, turn: &Turn, state: &State) -> Result<State, AllocError>
    ensures { IfOk result (λ next. form_of next ≡ turned turn.now (form_of state.now)) }
{
    let value = value_by(turn, &state.value)?;
    let waits = lefts(alloc, turn, state.waits.as_slice())?;
    Ok(State {
        any: any_by(turn.how, state.any),
        value,
        waits,
    })
}

/// Whether this is a write whose bytes were not recorded.
fn is_any_write(wait: &Waiting) -> bool
    ensures { result ≡ is_any_write wait.now }
{
    wait.writes && wait.value.is_none()
}

/// Whether this is a write of the value, or one whose bytes were not recorded.
fn may_write(value: &Contents, wait: &Waiting) -> bool
    ensures { result ≡ may_write value.now wait.now }
{
    wait.writes && (wait.value.is_none() || wait.value.is(value))
}

/// Whether this tells the value of a write that ends: it is the write, if its bytes were recorded, or else a read.
fn may_tell(of: &Waiting, wait: &Waiting) -> bool
    ensures { result ≡ may_tell of.now wait.now }
{
    if of.value.is_none() {
        return !wait.writes;
    }
    wait.number == of.number
}

/// Whether an operation can take effect by that of a write: the write itself, with this value, or a read of this write.
fn is_source(of: &Waiting, wait: &Waiting) -> bool
    ensures { result ≡ is_source of.now wait.now }
{
    if of.writes {
        may_tell(of, wait)
    } else {
        may_write(&of.value, wait)
    }
}

fn may_turn(how: How, of: &Waiting, wait: &Waiting) -> bool
    ensures { result ≡ may_turn how of.now wait.now }
{
    match how {
        How::Act => is_source(of, wait),
        How::Hide => is_source(of, wait) && of.is_old && wait.is_old,
        How::Any | How::Leave => false,
    }
}

fn turn_by(how: How, of: &Waiting, wait: &Waiting) -> Result<Option<Turn>, AllocError>
    ensures { IfOk result (λ turn. turn ≡ turn_by how of.now wait.now) }
{
    if !may_turn(how, of, wait) {
        return Ok(None);
    }
    if of.writes {
        return Ok(Some(Turn {
            how,
            number: of.number,
            value: wait.value.share()?,
        }));
    }
    Ok(Some(Turn {
        how,
        number: wait.number,
        value: of.value.share()?,
    }))
}

/// Adds the turns by which an operation takes effect.
fn add_turns(
    turns: &mut Vec<Turn>,
    how: How,
    of: &Waiting,
    waits: &[Waiting],
) -> Result<(), AllocError>
    ensures { OnOk result (turns.new.items ≡ turns_onto how of.now turns.old.items waits.now) }
{
    for wait in waits {
        if let Some(turn) = turn_by(how, of, wait)? {
            turns.push(turn)?;
        }
    }
    Ok(())
}

pub(crate) fn is_number(number: u64, wait: &Waiting) -> bool
    ensures { result ≡ is_number number wait.now }
{
    wait.number == number
}

/// The operation of this number, if it waits.
fn wait_of(number: u64, waits: &[Waiting]) -> Option<&Waiting>
    ensures { option_copied result ≡ find (is_number number) waits.now }
{
    for wait in waits {
        if is_number(number, wait) {
            return Some(wait);
        }
    }
    None
}

/// That an operation never takes effect.
fn leave(alloc: Global, number: u64) -> Result<Turn, AllocError>
    ensures { IfOk result (λ turn. turn ≡ leave number) }
{
    let value = Contents::none(alloc)?;
    Ok(Turn {
        how: How::Leave,
        number,
        value,
    })
}

/// That a write takes effect whose bytes were not recorded, and no read that waits is of its value.
fn take_any(alloc: Global, number: u64) -> Result<Turn, AllocError>
    ensures { IfOk result (λ turn. turn ≡ take_any number) }
{
    let value = Contents::none(alloc)?;
    Ok(Turn {
        how: How::Any,
        number,
        value,
    })
}

/// The same, of an operation that may.
fn any_write(alloc: Global, of: &Waiting) -> Result<Option<Turn>, AllocError>
    ensures { IfOk result (λ turn. turn ≡ any_write of.now) }
{
    if !is_any_write(of) {
        return Ok(None);
    }
    Ok(Some(take_any(alloc, of.number)?))
}

/// Whether an operation may go with no trace: it need not take effect, or may have left any value unseen.
fn may_leave(must: bool, of: &Waiting) -> bool
    ensures { result ≡ may_leave must of.now }
{
    if !must {
        return true;
    }
    is_any_write(of) && of.is_old
}

/// Adds what an end may mean where no read tells of its operation's effect.
fn add_untold(
    alloc: Global,
    turns: &mut Vec<Turn>,
    must: bool,
    of: &Waiting,
) -> Result<(), AllocError>
    ensures { OnOk result (turns.new.items ≡ untold must of.now turns.old.items) }
{
    if let Some(turn) = any_write(alloc, of)? {
        turns.push(turn)?;
    }
    if may_leave(must, of) {
        let never = leave(alloc, of.number)?;
        turns.push(never)?;
    }
    Ok(())
}

/// What an end may mean: how its operation took effect, or that it need not have.
fn turns_of(
    alloc: Global,
    must: bool,
    number: u64,
    waits: &[Waiting],
) -> Result<Vec<Turn>, AllocError>
    ensures { IfOk result (λ turns. turns.items ≡ turns_of must number waits.now) }
{
    let mut turns = Vec::new(alloc);
    let Some(of) = wait_of(number, waits) else {
        let never = leave(alloc, number)?;
        turns.push(never)?;
        return Ok(turns);
    };
    add_turns(&mut turns, How::Act, of, waits)?;
    add_turns(&mut turns, How::Hide, of, waits)?;
    add_untold(alloc, &mut turns, must, of)?;
    Ok(turns)
}

fn is_equal(a: &Waiting, b: &Waiting) -> bool
    ensures { result ≡ true → a.now ≡ b.now }
{
    a.number == b.number && a.writes == b.writes && a.value.is(&b.value) && a.is_old == b.is_old
}

/// Whether operations may be equal, by all but their bytes: those are compared only of what is.
fn are_alike(a: &[Waiting], b: &[Waiting]) -> bool
    requires { length a.now ≡ length b.now }
{
    for index in 0..a.len() {
        let (one, other) = (&a[index], &b[index]);
        if one.number != other.number || one.is_old != other.is_old {
            return false;
        }
    }
    true
}

fn are_equal(a: &[Waiting], b: &[Waiting]) -> bool
    ensures { result ≡ true → a.now ≡ b.now }
{
    if a.len() != b.len() {
        return false;
    }
    for index in 0..a.len() {
        if !is_equal(&a[index], &b[index]) {
            return false;
        }
    }
    true
}

fn is_same(a: &State, b: &State) -> bool
    ensures { result ≡ true → form_of a.now ≡ form_of b.now }
{
    if a.waits.len() != b.waits.len() {
        return false;
    }
    if !are_alike(a.waits.as_slice(), b.waits.as_slice()) {
        return false;
    }
    if a.any != b.any {
        return false;
    }
    a.value.is(&b.value) && are_equal(a.waits.as_slice(), b.waits.as_slice())
}

fn has(states: &[State], state: &State) -> bool
    ensures { result ≡ true → Contains (forms_of states.now) (form_of state.now) }
{
    for other in states {
        if is_same(other, state) {
            return true;
        }
    }
    false
}

/// Adds a state that isn't there.
fn add(states: &mut Vec<State>, state: State) -> Result<(), AllocError>
    ensures { OnOk result (Adds (forms_of states.old.items) (form_of state) (forms_of states.new.items)) }
{
    if has(states.as_slice(), &state) {
        return Ok(());
    }
    states.push(state)?;
    Ok(())
}

/// Adds the states that an end leaves of one.
fn end_one(
    alloc: Global,
    states: &mut Vec<State>,
    turns: &[Turn],
    state: &State,
) -> Result<(), AllocError>
    ensures { OnOk result (Ends (form_of state.now) turns.now (forms_of states.old.items) (forms_of states.new.items)) }
{
    for turn in turns {
        let next = turned(alloc, turn, state)?;
        add(states, next)?;
    }
    Ok(())
}

/// Adds the states that the end of an operation leaves of one: itself, where the operation waits no more.
fn end_of(
    alloc: Global,
    states: &mut Vec<State>,
    must: bool,
    number: u64,
    state: &State,
) -> Result<(), AllocError>
    ensures { OnOk result (Ends (form_of state.now) (turns_of must number state.now.waits.items) (forms_of states.old.items) (forms_of states.new.items)) }
{
    match wait_of(number, state.waits.as_slice()) {
        None => {
            let same = state.copy(alloc)?;
            add(states, same)
        }
        Some(_) => {
            let turns = turns_of(alloc, must, number, state.waits.as_slice())?;
            end_one(alloc, states, turns.as_slice(), state)
        }
    }
}

/// The states behind the end of an operation.
pub(crate) fn end_all(
    alloc: Global,
    must: bool,
    number: u64,
    states: &[State],
) -> Result<Vec<State>, AllocError>
    ensures { IfOk result (λ ended. EndsAll must number (forms_of states.now) [] (forms_of ended.items)) }
{
    let mut ended = Vec::new(alloc);
    for state in states {
        end_of(alloc, &mut ended, must, number, state)?;
    }
    Ok(ended)
}
