//! A sector as a register, tried from what it may have had at the start.

ghost use Rattle.std.specs.Prelude.{◌≡◌, ◌≢◌, ℕ, ◌∷◌, ◌++◌, [], All, Contains, IfOk, List, OnOk};
ghost use Rattle.std.specs.Bool.{OnTrue};
ghost use Rattle.register.specs.declared.Sight.{Sight};
ghost use Rattle.register.specs.Schedules.{unrecorded};
ghost use Rattle.history_judge.specs.inside.Cells.{AllSee, IsBegunBy, IsTry, Saw, sights_in, starts_in};
ghost use Rattle.history_judge.specs.inside.Starting.{
  Counts,
  HasStarts,
  is_blank,
  IsBetter,
  IsTriedAll,
  IsTriedAny,
  IsTriedOf,
  Keeps,
  StartsOf,
  so_far_if,
  TakesStart,
  with_blank,
};

use crate::waits::Given;
use register::{Contents, Sight};
use register_judge::{Observed, SoFar};
use std::alloc::{AllocError, Global};
use std::collections::VecDeque;

/// What sectors had at the start.
#[derive(Drop)]
pub(crate) struct Start {
    /// The bytes of each sector.
    pub bytes: Contents,
    /// Whether a sector may have had others instead.
    pub any: bool,
}

/// A register, from these bytes on.
#[derive(Drop)]
pub(crate) struct Try {
    pub start: Contents,
    pub seen: Observed,
    /// The line behind which nothing explains it, if it is refused.
    pub line: u64,
}

/// What is known of tries, and the line behind which nothing explains the last of them, if they are refused.
#[derive(Debug, Clone, Copy)]
pub(crate) struct Tried {
    pub so_far: SoFar,
    pub line: u64,
}

impl Try {
    /// Of which nothing was seen.
    pub fn new(alloc: Global, start: &Contents) -> Result<Try, AllocError>
        ensures start { IfOk result (λ t. t.start ≡ start.now) }
        ensures seen { IfOk result (IsTry []) }
    {
        Ok(Try {
            start: start.share()?,
            seen: Observed::new(alloc, start)?,
            line: 0,
        })
    }

    /// The same once more.
    fn copy(&self, alloc: Global) -> Result<Try, AllocError>
        ensures { IfOk result (λ t. (t.start ≡ self.now.start) × (t.seen ≡ self.now.seen)) }
    {
        Ok(Try {
            start: self.start.share()?,
            seen: self.seen.copy(alloc)?,
            line: self.line,
        })
    }

    /// Takes what is seen next.
    fn see(&mut self, alloc: Global, given: &Given) -> Result<(), AllocError>
        ensures { OnOk result (Saw given.now.sight self.old self.new) }
    {
        if !matches!(self.seen.so_far(), SoFar::Refused) {
            self.line = given.line;
        }
        self.seen.see(alloc, &given.sight)
    }
}

/// Tries of which nothing was seen.
pub(crate) fn new_tries(alloc: Global, starts: &[Contents]) -> Result<Vec<Try>, AllocError>
    ensures starts { IfOk result (λ tries. starts_in tries.items ≡ starts.now) }
    ensures seen { IfOk result (λ tries. All (IsTry []) tries.items) }
{
    let mut tries = Vec::new(alloc);
    for start in starts {
        let next = Try::new(alloc, start)?;
        tries.push(next)?;
    }
    Ok(tries)
}

/// Lets each of them take what is seen next.
pub(crate) fn each_sees(
    alloc: Global,
    tries: &mut Vec<Try>,
    given: &Given,
) -> Result<(), AllocError>
    ensures { OnOk result (AllSee (given.now.sight ∷ []) tries.old.items tries.new.items) }
{
    for one in tries.iter_mut() {
        one.see(alloc, given)?;
    }
    Ok(())
}

/// Lets each of them take all that is seen next.
pub(crate) fn see_all(
    alloc: Global,
    tries: &mut Vec<Try>,
    given: &[Given],
) -> Result<(), AllocError>
    ensures { OnOk result (AllSee (sights_in given.now) tries.old.items tries.new.items) }
{
    for one in given {
        each_sees(alloc, tries, one)?;
    }
    Ok(())
}

/// Whether bytes are there.
fn is_in(values: &[Contents], value: &Contents) -> bool
    ensures { OnTrue result (Contains values.now value.now) }
{
    for other in values {
        if other.is(value) {
            return true;
        }
    }
    false
}

/// Adds bytes, unless they are there.
fn add(values: &mut Vec<Contents>, value: &Contents) -> Result<(), AllocError>
    ensures kept { OnOk result (Keeps values.old.items values.new.items) }
    ensures added { OnOk result (Contains values.new.items value.now) }
{
    if is_in(values.as_slice(), value) {
        return Ok(());
    }
    values.push(value.share()?)?;
    Ok(())
}

/// Adds what a read brings, or where its bytes were not recorded the read.
fn take_read(
    blanks: &mut VecDeque<u64>,
    values: &mut Vec<Contents>,
    number: u64,
    value: &Contents,
) -> Result<(), AllocError>
    ensures blanks { OnOk result (blanks.new.items ≡ with_blank blanks.old.items number value.now) }
    ensures kept { OnOk result (Keeps values.old.items values.new.items) }
    ensures added { OnOk result (value.now ≢ unrecorded → Contains values.new.items value.now) }
{
    if value.is_none() {
        blanks.push_front(number)?;
        return Ok(());
    }
    add(values, value)
}

/// Whether the read is one of these.
fn is_blank(blanks: &VecDeque<u64>, number: u64) -> bool
    ensures { result ≡ is_blank blanks.now.items number }
{
    blanks.contains(&number)
}

/// The same of any sight; false where something else succeeds than a read whose bytes were not recorded.
fn take_start(
    blanks: &mut VecDeque<u64>,
    values: &mut Vec<Contents>,
    sight: &Sight,
) -> Result<bool, AllocError>
    ensures { IfOk result (TakesStart blanks.old.items values.old.items sight.now blanks.new.items values.new.items) }
{
    match sight {
        Sight::Read { number, value } => {
            take_read(blanks, values, *number, value)?;
            Ok(true)
        }
        Sight::Done { number } => Ok(is_blank(blanks, *number)),
        Sight::Write { .. } | Sight::Failed { .. } => Ok(true),
    }
}

/// What a sector may have had at the start.
#[derive(Drop)]
pub(crate) struct Starts {
    pub values: Vec<Contents>,
    /// Whether something has succeeded but reads whose bytes were not recorded: what comes later adds nothing.
    pub over: bool,
}

/// These bytes, and those of the reads that are called before anything succeeds but reads whose bytes were not recorded. If
/// a sector may have begun with others, nobody has read them where they were recorded, and it may have begun with these.
fn starts_of(alloc: Global, first: &Contents, given: &[Given]) -> Result<Starts, AllocError>
    ensures { IfOk result (StartsOf first.now (sights_in given.now)) }
{
    let mut values = Vec::new(alloc);
    values.push(first.share()?)?;
    let mut blanks = VecDeque::new(alloc);
    for one in given {
        if !take_start(&mut blanks, &mut values, &one.sight)? {
            return Ok(Starts { values, over: true });
        }
    }
    Ok(Starts {
        values,
        over: false,
    })
}

/// Tries that have taken what is seen first, once something succeeds but reads whose bytes were not recorded.
pub(crate) fn begun(
    alloc: Global,
    first: &Contents,
    given: &[Given],
) -> Result<Option<Vec<Try>>, AllocError>
    ensures { IfOk result (IsBegunBy first.now (sights_in given.now)) }
{
    let starts = starts_of(alloc, first, given)?;
    let over = starts.over;
    if !over {
        return Ok(None);
    }
    let mut tries = new_tries(alloc, starts.values.as_slice())?;
    see_all(alloc, &mut tries, given)?;
    Ok(Some(tries))
}

/// Whether a try counts where it passes: where sectors had any bytes, if it began with so many.
fn counts(any: bool, size: u32, start: &Contents) -> bool
    ensures { OnTrue result (Counts any size start.now) }
{
    !any || start.as_slice().len() == size as usize
}

/// What is known of a register that counts only so.
fn so_far_if(counts: bool, so_far: SoFar) -> SoFar
    ensures { result ≡ so_far_if counts so_far }
{
    if counts {
        return so_far;
    }
    match so_far {
        SoFar::Passed => SoFar::Undecided,
        SoFar::Refused => SoFar::Refused,
        SoFar::Undecided => SoFar::Undecided,
    }
}

/// What is known of one try.
fn tried_of(any: bool, size: u32, attempt: &Try) -> Tried
    ensures { (sights : List Sight) → IsTry sights attempt.now → IsTriedOf any size attempt.now.start sights result.so_far }
{
    let counted = counts(any, size, &attempt.start);
    let found = attempt.seen.so_far();
    Tried {
        so_far: so_far_if(counted, found),
        line: attempt.line,
    }
}

/// Passed, if one of two is that, else what is undecided, else the later refusal.
fn better_of(a: Tried, b: Tried) -> Tried
    ensures { IsBetter a.so_far b.so_far result.so_far }
{
    match (a.so_far, b.so_far) {
        (SoFar::Passed, _) => a,
        (_, SoFar::Passed) => b,
        (SoFar::Undecided, _) => a,
        (_, SoFar::Undecided) => b,
        (SoFar::Refused, SoFar::Refused) => { if a.line < b.line { b } else { a } }
    }
}

/// The same tries once more.
pub(crate) fn copies(alloc: Global, tries: &[Try]) -> Result<Vec<Try>, AllocError>
    ensures { IfOk result (λ all. AllSee [] tries.now all.items) }
{
    let mut all = Vec::new(alloc);
    for one in tries {
        all.push(one.copy(alloc)?)?;
    }
    Ok(all)
}

/// What is known of tries.
fn judge_all(any: bool, size: u32, tries: &[Try]) -> Tried
    ensures { (sights : List Sight) → All (IsTry sights) tries.now → IsTriedAll any size (starts_in tries.now) sights result.so_far }
{
    let mut tried = Tried {
        so_far: SoFar::Refused,
        line: 0,
    };
    for one in tries {
        let other = tried_of(any, size, one);
        tried = better_of(tried, other);
    }
    tried
}

/// What is known of a register behind these sights, of which the tries have taken what came before.
pub(crate) fn judge_tries(
    alloc: Global,
    any: bool,
    size: u32,
    tries: &[Try],
    given: &[Given],
) -> Result<Tried, AllocError>
    ensures { (seen : List Sight) → All (IsTry seen) tries.now → IfOk result (λ tried. IsTriedAll any size (starts_in tries.now) (seen ++ sights_in given.now) tried.so_far) }
{
    let mut after = copies(alloc, tries)?;
    see_all(alloc, &mut after, given)?;
    Ok(judge_all(any, size, after.as_slice()))
}

/// The same of a register that began with any bytes, of which all is given that was seen.
pub(crate) fn judge_all_starts(
    alloc: Global,
    size: u32,
    first: &Contents,
    given: &[Given],
) -> Result<Tried, AllocError>
    ensures { IfOk result (λ tried. IsTriedAny size (sights_in given.now) tried.so_far) }
{
    let starts = starts_of(alloc, first, given)?;
    let tries = new_tries(alloc, starts.values.as_slice())?;
    judge_tries(alloc, true, size, tries.as_slice(), given)
}
