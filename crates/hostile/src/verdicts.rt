//! What is wrong with a run.

use crate::fault::HostileFault;
use crate::layout::{Layout, SECTOR};
use crate::playing::Told;
use compose::{LAST_BUSY_RETURN, LONGEST_REQUEST};
use judge::{Machine, MachineRules, Sectors, Verdict, judge};
use machine::Label;
use sector::{Bytes, Extent};
use std::alloc::{AllocError, Global};
use std::fmt;

/// What is wrong with a run.
#[derive(Clone, Copy)]
pub enum Wrong {
    /// The answers that were taken aren't those of the labels.
    Answers,
    /// No step of the machine allows the label of this place, counted from 0.
    Label(usize),
    /// No state that the labels lead to is settled.
    Unsettled,
    /// All pieces came back, and a request is still open.
    Unanswered,
    /// The judge of a whole list and the one of single labels stop at different places.
    Judges,
}

impl fmt::Display for Wrong {
    fn fmt<W: fmt::Write>(&self, f: &mut fmt::Formatter<W>) -> fmt::Result {
        match self {
            Wrong::Answers => f.write_str("other answers than the labels tell"),
            Wrong::Label(at) => write!(f, "label {at} is of no step"),
            Wrong::Unsettled => f.write_str("not settled at the end"),
            Wrong::Unanswered => f.write_str("a request has no answer"),
            Wrong::Judges => f.write_str("the two judges stop at different labels"),
        }
    }
}

/// Whether the run of a layout's stack went to its end: all that is out came back, and nothing is held.
#[derive(Clone, Copy, PartialEq, Eq)]
pub enum Goes {
    ToItsEnd,
    NotSoFar,
}

/// Judges what a run told.
pub fn wrong_of(
    alloc: Global,
    layout: &Layout,
    goes: Goes,
    told: &Told,
) -> Result<Option<Wrong>, HostileFault> {
    if !told.fits {
        return Ok(Some(Wrong::Answers));
    }
    let rules = rules_of(alloc, layout)?;
    let arrays = zeros(alloc, &rules)?;
    match judge(alloc, &rules, arrays, told.labels.as_slice())? {
        Verdict::Stops(at) => Ok(Some(Wrong::Label(at))),
        Verdict::Run(machines) => {
            let ended = goes == Goes::ToItsEnd;
            Ok(if !is_any_settled(machines.as_slice(), &rules) {
                Some(Wrong::Unsettled)
            } else if ended && is_some_open(told.labels.as_slice()) {
                Some(Wrong::Unanswered)
            } else {
                None
            })
        }
    }
}

fn is_any_settled(machines: &[Machine], rules: &MachineRules) -> bool {
    machines.iter().any(|machine| machine.is_settled(rules))
}

/// Whether a run tells of more calls than answers.
fn is_some_open(labels: &[Label]) -> bool {
    let mut open: u64 = 0;
    for label in labels {
        match label {
            Label::Call { .. } => open = open.saturating_add(1),
            Label::Answer { .. } => open = open.saturating_sub(1),
            _ => {}
        }
    }
    open > 0
}

/// The rules of a layout's stack.
pub fn rules_of(alloc: Global, layout: &Layout) -> Result<MachineRules, AllocError> {
    let mut partitions = Vec::new(alloc);
    for (first, count) in &layout.partitions {
        if *count > 0 {
            partitions.push(Extent {
                first: *first as u64,
                count: *count as u64,
            })?;
        }
    }
    Ok(MachineRules {
        sector_size: SECTOR,
        disk_sectors: layout.sectors as u64,
        partitions,
        longest: LONGEST_REQUEST as u64,
        max_transfer: layout.max_transfer as u64,
        depth: layout.depth as u32,
        open_requests: Some(layout.open_requests as u64),
        window: Some(layout.window as u64),
        one_piece: false,
        busy_limit: LAST_BUSY_RETURN as u64,
        any_cut: false,
        faithful: true,
    })
}

/// Sectors of zeros for each partition.
pub fn zeros(alloc: Global, rules: &MachineRules) -> Result<Vec<Sectors>, AllocError> {
    let mut arrays = Vec::new(alloc);
    for extent in &rules.partitions {
        let sector = Bytes::new(vec![in alloc; 0; SECTOR as usize]?);
        arrays.push(Sectors::filled(alloc, extent.count, sector))?;
    }
    Ok(arrays)
}
