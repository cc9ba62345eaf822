//! The two judges of a run: the one that is given all labels at once, and the one that takes them one by one.

use crate::fault::HostileFault;
use crate::random::Run;
use crate::verdicts::{rules_of, zeros};
use judge::stepwise::{Judge, Refusal};
use judge::{Verdict, judge};
use machine::Label;
use std::alloc::Global;

/// Whether both judges stop at the same label of a run, or at none.
pub fn judges_agree(alloc: Global, run: &Run) -> Result<bool, HostileFault> {
    let rules = rules_of(alloc, &run.layout)?;
    let arrays = zeros(alloc, &rules)?;
    let whole = match judge(alloc, &rules, arrays, run.told.labels.as_slice())? {
        Verdict::Run(_) => None,
        Verdict::Stops(at) => Some(at),
    };
    let arrays = zeros(alloc, &rules)?;
    let judge = Judge::new(alloc, rules, arrays)?;
    let stepwise = stops_stepwise(alloc, judge, run.told.labels.as_slice())?;
    Ok(whole == stepwise)
}

fn stops_stepwise(
    alloc: Global,
    mut judge: Judge,
    labels: &[Label],
) -> Result<Option<usize>, HostileFault> {
    for (at, label) in labels.iter().enumerate() {
        match judge.take(alloc, label) {
            Ok(()) => {}
            Err(Refusal::Breaks(_)) => return Ok(Some(at)),
            Err(Refusal::NoVerdict(_)) => return Err(HostileFault::NoMemory),
        }
    }
    Ok(None)
}
