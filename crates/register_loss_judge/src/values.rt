//! What a register holds: what a read may give, and what a loss may leave besides.

ghost use Rattle.std.specs.Prelude.{◌≡◌, ◌++◌, [], ◌∷◌, map, IfOk, OnOk};
ghost use Rattle.std.specs.List.{filter, list_any};
ghost use Rattle.loss.specs.Held.{Puts, Tries, Syncs, Doubts, changed, left, surely};
ghost use Rattle.register_loss.specs.Schedules.{is_value};
ghost use Rattle.register_loss_judge.specs.inside.States.{held_of, older_value, outdated, stays};

use register::Contents;
use std::alloc::{AllocError, Global};

/// A value that was overwritten when the next call had this number.
#[derive(Drop)]
pub(crate) struct Older {
    pub value: Contents,
    pub behind: u128,
}

#[derive(Drop)]
pub(crate) struct Values {
    pub current: Vec<Contents>,
    pub older: Vec<Older>,
}

/// Whether the value is among these.
pub(crate) fn has_value(value: &Contents, values: &[Contents]) -> bool
    ensures { result ≡ list_any (is_value value.now) values.now }
{
    values.iter().any(|other| other.is(value))
}

/// This value alone.
fn only(alloc: Global, value: &Contents) -> Result<Vec<Contents>, AllocError>
    ensures { IfOk result (λ all. all.items ≡ value.now ∷ []) }
{
    let mut all = Vec::new(alloc);
    all.push(value.share()?)?;
    Ok(all)
}

/// The same values once more.
fn shared(alloc: Global, values: &[Contents]) -> Result<Vec<Contents>, AllocError>
    ensures { IfOk result (λ all. all.items ≡ values.now) }
{
    let mut all = Vec::new(alloc);
    for value in values {
        all.push(value.share()?)?;
    }
    Ok(all)
}

fn share_older(one: &Older) -> Result<Older, AllocError>
    ensures { IfOk result (λ same. same ≡ one.now) }
{
    Ok(Older {
        value: one.value.share()?,
        behind: one.behind,
    })
}

/// The same older values once more.
fn shared_older(alloc: Global, older: &[Older]) -> Result<Vec<Older>, AllocError>
    ensures { IfOk result (λ all. all.items ≡ older.now) }
{
    let mut all = Vec::new(alloc);
    for one in older {
        all.push(share_older(one)?)?;
    }
    Ok(all)
}

impl Values {
    /// The same once more.
    pub fn copy(&self, alloc: Global) -> Result<Values, AllocError>
        ensures { IfOk result (λ values. held_of values ≡ held_of self.now) }
    {
        let now = shared(alloc, self.current.as_slice())?;
        let older = shared_older(alloc, self.older.as_slice())?;
        Ok(Values {
            current: now,
            older,
        })
    }
}

/// Adds what is overwritten before the call of this number.
fn add_outdated(older: &mut Vec<Older>, now: &[Contents], next: u128) -> Result<(), AllocError>
    ensures { OnOk result (older.new.items ≡ older.old.items ++ map (outdated next) now.now) }
{
    for value in now {
        older.push(Older {
            value: value.share()?,
            behind: next,
        })?;
    }
    Ok(())
}

/// Adds the values of what was overwritten.
fn add_values(now: &mut Vec<Contents>, older: &[Older]) -> Result<(), AllocError>
    ensures { OnOk result (now.new.items ≡ now.old.items ++ map older_value older.now) }
{
    for one in older {
        now.push(one.value.share()?)?;
    }
    Ok(())
}

/// What was overwritten behind the call of this flush.
fn staying(alloc: Global, flush: u64, older: &[Older]) -> Result<Vec<Older>, AllocError>
    ensures { IfOk result (λ kept. kept.items ≡ filter (stays flush) older.now) }
{
    let mut kept = Vec::new(alloc);
    for one in older {
        if u128::from(flush) < one.behind {
            kept.push(share_older(one)?)?;
        }
    }
    Ok(kept)
}

/// A register that surely holds a value.
pub(crate) fn surely(alloc: Global, value: &Contents) -> Result<Values, AllocError>
    ensures { IfOk result (λ held. held_of held ≡ surely value.now) }
{
    let now = only(alloc, value)?;
    let older = Vec::new(alloc);
    Ok(Values {
        current: now,
        older,
    })
}

/// Behind a write.
pub(crate) fn put(
    alloc: Global,
    next: u128,
    value: &Contents,
    values: &Values,
) -> Result<Values, AllocError>
    ensures { IfOk result (λ held. held_of held ≡ changed next (Puts value.now) (held_of values.now)) }
{
    let now = only(alloc, value)?;
    let mut older = shared_older(alloc, values.older.as_slice())?;
    add_outdated(&mut older, values.current.as_slice(), next)?;
    Ok(Values {
        current: now,
        older,
    })
}

/// Behind one that failed.
pub(crate) fn tried(alloc: Global, value: &Contents, values: &Values) -> Result<Values, AllocError>
    ensures { IfOk result (λ held. held_of held ≡ changed 0 (Tries value.now) (held_of values.now)) }
{
    let mut now = shared(alloc, values.current.as_slice())?;
    now.push(value.share()?)?;
    let older = shared_older(alloc, values.older.as_slice())?;
    Ok(Values {
        current: now,
        older,
    })
}

/// What a loss may leave.
#[tactic(auto, using(crate::proofs::Changing::left_held))]
pub(crate) fn left(alloc: Global, values: &Values) -> Result<Vec<Contents>, AllocError>
    ensures { IfOk result (λ all. all.items ≡ left (held_of values.now)) }
{
    let mut all = shared(alloc, values.current.as_slice())?;
    add_values(&mut all, values.older.as_slice())?;
    Ok(all)
}

/// Behind a sync that failed.
pub(crate) fn doubted(alloc: Global, values: &Values) -> Result<Values, AllocError>
    ensures { IfOk result (λ held. held_of held ≡ changed 0 Doubts (held_of values.now)) }
{
    let now = left(alloc, values)?;
    let older = Vec::new(alloc);
    Ok(Values {
        current: now,
        older,
    })
}

/// Behind a flush that succeeded.
pub(crate) fn synced(alloc: Global, flush: u64, values: &Values) -> Result<Values, AllocError>
    ensures { IfOk result (λ held. held_of held ≡ changed 0 (Syncs flush) (held_of values.now)) }
{
    let now = shared(alloc, values.current.as_slice())?;
    let older = staying(alloc, flush, values.older.as_slice())?;
    Ok(Values {
        current: now,
        older,
    })
}
