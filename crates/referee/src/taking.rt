//! Lines, taken one by one.

ghost use Rattle.std.specs.Prelude.{◌≡◌, ◌↔◌, [], Any, IfErr, IfOk, MatchBool, MatchOption, None, length};
ghost use Rattle.judge.specs.Following.{HasTakenLines};
ghost use Rattle.judge.specs.LeftUndone.{IsSettled};
ghost use Rattle.settings.specs.InRange.{AreInRange};
ghost use Rattle.startup.specs.Started.{IsStackFault, rules_of};
ghost use Rattle.referee.specs.Numbers.{number_of};
ghost use Rattle.referee.specs.Opening.{IsOpened, arrays_of};
ghost use Rattle.referee.specs.Taking.{GoesBy, IsAbsent, IsInTable, IsTaken, IsTold, IsWhy, LeavesNothing, partition_of, why_by};

use crate::numbers::number_of;
use crate::opening::{arrays_of, check_table, rules_of};
use crate::telling::Told;
use crate::why::Why;
use compose::StartFault;
use judge::NoVerdict;
use judge::stepwise::{Judge, Refusal};
use machine::Label;
use settings::Config;
use std::alloc::{AllocError, Global};
use std::marker::Model;
use trace_line::Line;

/// A judge of lines that come one by one, with why the last one was refused.
#[derive(Debug, Drop)]
pub struct Referee {
    judge: Judge,
    why: Option<Why>,
}

impl Model for Referee {
    ghost use Rattle.referee.specs.Taking.{RefereeView};

    ghost Value = { RefereeView };

    ghost view = { λ r. record { judge = r.judge; why = r.why } };
}

/// The partition of a call, if the label is one and its handle is open.
fn partition_of(label: &Label) -> Option<u8>
    ensures { result ≡ partition_of label.now }
{
    match label {
        Label::Call { request, .. } => request.partition,
        _ => None,
    }
}

/// The partition of a call that none of so many is, if the label is one.
#[tactic(auto, using(crate::proofs::Absent::below_none, crate::proofs::Absent::below_some))]
fn absent_of(label: &Label, count: u64) -> Option<u8>
    ensures { MatchOption result (IsInTable count label.now) (IsAbsent count label.now) }
{
    let Some(partition) = partition_of(label) else {
        return None;
    };
    if (partition as u64) < count {
        return None;
    }
    Some(partition)
}

/// The number of partitions.
fn count_of(judge: &Judge) -> u64
    ensures { result ≡ length judge.now.rules.partitions }
{
    let rules = judge.rules();
    rules.partitions.len() as u64
}

/// Has a judge take a line, in the partitions that are there. Returns why it doesn't, if it doesn't.
fn judged(judge: &mut Judge, alloc: Global, line: &Line) -> Option<Why>
    ensures { MatchOption result (IsTaken judge.old line.now judge.new) (λ why. IsWhy judge.old line.now why judge.new) }
{
    let count = count_of(judge);
    match absent_of(&line.label, count) {
        Some(partition) => Some(Why::NoPartition { partition, count }),
        None => refusal_of(judge, alloc, line),
    }
}

/// Has a judge take a line that is in its partitions.
#[tactic(auto, using(crate::proofs::Refused::refused))]
fn refusal_of(judge: &mut Judge, alloc: Global, line: &Line) -> Option<Why>
    requires { IsInTable (length judge.old.rules.partitions) line.now.label }
    ensures { MatchOption result (IsTaken judge.old line.now judge.new) (λ why. IsWhy judge.old line.now why judge.new) }
{
    match judge.take_line(alloc, line) {
        Ok(()) => None,
        Err(refusal) => Some(why_of(refusal)),
    }
}

fn why_of(refusal: Refusal) -> Why
    ensures { result ≡ why_by refusal }
{
    match refusal {
        Refusal::Breaks(rule) => Why::Breaks(rule),
        Refusal::NoVerdict(NoVerdict::NoMemory) => Why::NoMemory,
        Refusal::NoVerdict(NoVerdict::Readings { readings }) => Why::Readings { readings },
    }
}

/// A judge of these settings that has taken no line.
fn first_judge(alloc: Global, config: &Config) -> Result<Judge, AllocError>
    ensures rules { IfOk result (λ judge. judge.rules ≡ rules_of config.now) }
    ensures none_taken { IfOk result (λ judge. HasTakenLines judge (arrays_of config.now) []) }
{
    let rules = rules_of(alloc, config)?;
    let arrays = arrays_of(alloc, config)?;
    let Ok(judge) = Judge::new(alloc, rules, arrays) else {
        return Err(AllocError);
    };
    Ok(judge)
}

/// Whether some machine of the judge is settled.
fn is_settled(judge: &Judge) -> bool
    ensures { MatchBool result (Any (IsSettled judge.now.rules) judge.now.states) (¬ (Any (IsSettled judge.now.rules) judge.now.states)) }
{
    if judge.machines().is_empty() {
        return false;
    }
    let undone = judge.undone();
    undone.is_none()
}

/// The number of why a line was not taken, and 0 where it was.
fn number_for(why: Option<Why>) -> u32
    ensures number { MatchOption why (result ≡ 0) (λ why. result ≡ number_of why) }
    ensures zero { (result ≡ 0) ↔ (why ≡ None) }
{
    match why {
        Some(why) => number_of(why),
        None => 0,
    }
}

impl Referee {
    /// A referee of the stack that settings start, before its first label.
    ///
    /// # Errors
    ///
    /// [`StartFault::Mbr`] where no disk has their partitions; [`StartFault::NoMemory`].
    pub fn open(alloc: Global, config: &Config) -> Result<Referee, StartFault>
        requires { AreInRange config.now }
        ensures opened { IfOk result (IsOpened config.now) }
        ensures fault { IfErr result (IsStackFault config.now) }
    {
        check_table(alloc, config)?;
        let Ok(judge) = first_judge(alloc, config) else {
            return Err(StartFault::NoMemory);
        };
        Ok(Referee { judge, why: None })
    }

    /// Takes one line more. Returns 0, or the number of why it isn't taken.
    fn take(&mut self, alloc: Global, line: &Line) -> u32
        ensures told { IsTold self.old line.now result self.new }
        ensures zero { (result ≡ 0) ↔ (self.new.why ≡ None) }
    {
        self.why = judged(&mut self.judge, alloc, line);
        number_for(self.why)
    }

    /// Takes what was told. Returns 0, or the number of why it isn't taken.
    pub fn take_told(&mut self, alloc: Global, told: Told) -> u32
        ensures goes { GoesBy self.old told result self.new }
        ensures zero { (result ≡ 0) ↔ (self.new.why ≡ None) }
    {
        match told {
            Told::Line(line) => self.take(alloc, &line),
            Told::Nothing => self.note(None),
            Told::Bad(why) => self.note(Some(why)),
        }
    }

    /// Notes what became of a text without a label. Returns its number.
    fn note(&mut self, why: Option<Why>) -> u32
        ensures same { self.new ≡ record self.old { why = why } }
        ensures number { MatchOption why (result ≡ 0) (λ why. result ≡ number_of why) }
        ensures zero { (result ≡ 0) ↔ (why ≡ None) }
    {
        self.why = why;
        number_for(why)
    }

    /// Why the last line wasn't taken, if it wasn't.
    pub fn why(&self) -> Option<Why>
        ensures { result ≡ self.now.why }
    {
        self.why
    }

    /// Whether the lines that were taken, which are to be all of an event, leave nothing undone.
    pub fn is_settled(&self) -> bool
        ensures { MatchBool result (LeavesNothing self.now) (¬ (LeavesNothing self.now)) }
    {
        is_settled(&self.judge)
    }
}
