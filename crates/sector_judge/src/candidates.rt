//! The values that a sector may hold, and those that were overwritten.

ghost use Rattle.std.specs.Prelude.{◌≡◌, ◌==◌, ◌++◌, [], ◌∷◌, map, IfOk, OnOk};
ghost use Rattle.std.specs.List.{filter, filter_map, list_any};
ghost use Rattle.sector_judge.specs.Known.{is_first, is_value, told_of};
ghost use Rattle.sector_judge.specs.inside.Lists.{older_value, outdated, stays};

use std::alloc::{AllocError, Global};

/// A value that a sector may hold.
#[derive(Debug, Clone, Copy, PartialEq, Eq)]
pub enum Candidate {
    /// The one that it had first in its session, which isn't told.
    First,
    /// One that is told.
    Told { value: u64 },
}

/// A value that was overwritten; pieces from this number on started behind that.
#[derive(Debug, Clone, Copy)]
pub(crate) struct Older {
    pub value: Candidate,
    pub behind: u128,
}

fn is_value(value: u64, candidate: Candidate) -> bool
    ensures { result ≡ is_value value candidate }
{
    match candidate {
        Candidate::First => false,
        Candidate::Told { value: other } => other == value,
    }
}

fn is_first(candidate: Candidate) -> bool
    ensures { result ≡ is_first candidate }
{
    match candidate {
        Candidate::First => true,
        Candidate::Told { value: _ } => false,
    }
}

/// Adds the candidate's value, if it is told.
fn add_told(values: &mut Vec<u64>, candidate: Candidate) -> Result<(), AllocError>
    ensures { OnOk result (values.new.items ≡ values.old.items ++ filter_map told_of (candidate ∷ [])) }
{
    match candidate {
        Candidate::First => Ok(()),
        Candidate::Told { value } => {
            values.push(value)?;
            Ok(())
        }
    }
}

/// Whether this value is told.
pub(crate) fn is_told(value: u64, candidates: &[Candidate]) -> bool
    ensures { result ≡ list_any (is_value value) candidates.now }
{
    candidates
        .iter()
        .any(|candidate| is_value(value, *candidate))
}

/// Whether the first value is among them.
pub(crate) fn has_first(candidates: &[Candidate]) -> bool
    ensures { result ≡ list_any is_first candidates.now }
{
    candidates.iter().any(|candidate| is_first(*candidate))
}

/// Whether this value is among them.
pub(crate) fn is_listed(value: u64, values: &[u64]) -> bool
    ensures { result ≡ list_any (λ other. other == value) values.now }
{
    values.iter().any(|other| *other == value)
}

/// Adds what was overwritten before the piece of this number starts.
pub(crate) fn add_outdated(
    older: &mut Vec<Older>,
    candidates: &[Candidate],
    next: u128,
) -> Result<(), AllocError>
    ensures { OnOk result (older.new.items ≡ older.old.items ++ map (outdated next) candidates.now) }
{
    for candidate in candidates {
        older.push(Older {
            value: *candidate,
            behind: next,
        })?;
    }
    Ok(())
}

/// Adds the values of what was overwritten.
pub(crate) fn add_values(candidates: &mut Vec<Candidate>, older: &[Older]) -> Result<(), AllocError>
    ensures { OnOk result (candidates.new.items ≡ candidates.old.items ++ map older_value older.now) }
{
    for one in older {
        candidates.push(one.value)?;
    }
    Ok(())
}

/// What was overwritten behind the start of this flush.
pub(crate) fn staying(alloc: Global, older: &[Older], flush: u128) -> Result<Vec<Older>, AllocError>
    ensures { IfOk result (λ kept. kept.items ≡ filter (stays flush) older.now) }
{
    let mut kept = Vec::new(alloc);
    for one in older {
        if flush < one.behind {
            kept.push(*one)?;
        }
    }
    Ok(kept)
}

/// The values that are told.
pub(crate) fn told(alloc: Global, candidates: &[Candidate]) -> Result<Vec<u64>, AllocError>
    ensures { IfOk result (λ values. values.items ≡ filter_map told_of candidates.now) }
{
    let mut values = Vec::new(alloc);
    for candidate in candidates {
        add_told(&mut values, *candidate)?;
    }
    Ok(values)
}
