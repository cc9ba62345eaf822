//! Lines judged one by one.
//!
//! A [`Judge`] follows each reading of the lines, as [`crate::judge`] does. Readings that came to the same machine are
//! joined where this is seen. It keeps what is open, what is at the adapter and the sectors: a longer trace needs no
//! more.

ghost use Rattle.std.specs.Prelude.{◌≡◌, ◌<◌, IfOk, OnOk, IfErr, MatchOption, Result, [], length, ◌↔◌, None, Any, IfSome};
ghost use Rattle.judge.specs.Following.{HasTaken, HasTakenLines, Takes, TakesLine, GoesTo, GoesOnceTo, AllReached, SomeGoes, StopsAll};
ghost use Rattle.std.specs.List.{list_any};
ghost use Rattle.judge.specs.Judging.{line_of};
ghost use Rattle.judge.specs.LabelRuling.{goes_by, rule_of_all};
ghost use Rattle.judge.specs.LeftUndone.{IsSettled, Leaves};
ghost use Rattle.judge.specs.Undoing.{is_settled, undone_at_all};
ghost use Rattle.judge.specs.Refusals.{IsRefusal, IsLineRefusal, Keeps};
ghost use Rattle.judge.specs.Views.{rules_of};

use crate::arrays::Sectors;
use crate::label_rules::Rule;
use crate::machine_state::Machine;
use crate::reading::{Told, told_by};
use crate::rules::MachineRules;
use crate::sameness::distinct;
use crate::steps::all_next;
use crate::undone_rules::Undone;
use crate::{MOST_READINGS, NoVerdict};
use machine::Label;
use std::alloc::Global;
use std::marker::Model;
use std::mem;
use thiserror::Error;
use trace_line::Line;

/// Why a line wasn't taken.
#[derive(Debug, Clone, Copy, PartialEq, Eq, Error)]
pub enum Refusal {
    /// No run has the lines that were taken and this one: it breaks the rule.
    #[error("{0}")]
    Breaks(Rule),
    /// There is no verdict, and none of later lines.
    #[error("{0}")]
    NoVerdict(NoVerdict),
}

/// A judge of lines that come one by one.
#[derive(Debug, Drop)]
pub struct Judge {
    rules: MachineRules,
    machines: Vec<Machine>,
}

impl Model for Judge {
    ghost use Rattle.judge.specs.Following.{JudgeView};

    ghost Value = { JudgeView };

    ghost use Rattle.judge.specs.Views.{rules_of};

    ghost view = { λ j. record { rules = rules_of j.rules; states = j.machines.items } };
}

/// Whether the label goes from some of the machines, where its line tells this of a start.
fn goes(rules: &MachineRules, told: Told, machines: &[Machine], label: &Label) -> bool
    ensures { result ≡ list_any (goes_by (rules_of rules.now) told label.now) machines.now }
{
    machines
        .iter()
        .any(|machine| machine.goes(rules, told, label))
}

/// The rule that the label breaks at the first of the machines, if it goes from none.
fn broken_at_all(
    rules: &MachineRules,
    told: Told,
    machines: &[Machine],
    label: &Label,
) -> Option<Rule>
    ensures { result ≡ rule_of_all (rules_of rules.now) told machines.now label.now }
{
    if goes(rules, told, machines, label) {
        return None;
    }
    match machines.first() {
        Some(machine) => machine.broken_by(rules, told, label),
        None => None,
    }
}

/// The machines that a line with this label leads to from these, which names this request. Readings that came to the
/// same machine are joined where this is seen.
fn next_once(
    alloc: Global,
    rules: &MachineRules,
    label: &Label,
    owner: Option<u64>,
    machines: Vec<Machine>,
) -> Result<Vec<Machine>, NoVerdict>
    ensures { IfOk result (λ once. GoesOnceTo (rules_of rules.now) (line_of label.now owner) machines.items once.items) }
{
    let all = all_next(alloc, rules, label, owner, machines)?;
    let once = distinct(alloc, all)?;
    Ok(once)
}

/// Whether some of the machines is settled.
fn any_settled(rules: &MachineRules, machines: &[Machine]) -> bool
    ensures { result ≡ list_any (is_settled (rules_of rules.now)) machines.now }
{
    machines.iter().any(|machine| machine.left(rules).is_none())
}

/// Returns what the first of the machines leaves undone, if none is settled.
fn undone_at_all(rules: &MachineRules, machines: &[Machine]) -> Option<Undone>
    ensures { result ≡ undone_at_all (rules_of rules.now) machines.now }
{
    if any_settled(rules, machines) {
        return None;
    }
    match machines.first() {
        Some(machine) => machine.left(rules),
        None => None,
    }
}

impl Judge {
    /// A judge that has taken no line, with these sectors in the partitions.
    ///
    /// # Errors
    ///
    /// [`NoVerdict`] where memory was refused.
    pub fn new(alloc: Global, rules: MachineRules, arrays: Vec<Sectors>) -> Result<Judge, NoVerdict>
        ensures rules { IfOk result (λ j. j.rules ≡ rules_of rules) }
        ensures opens { IfOk result (λ j. HasTaken j arrays.items []) }
        ensures opens_lines { IfOk result (λ j. HasTakenLines j arrays.items []) }
    {
        let mut machines = Vec::new(alloc);
        machines.push(Machine::new(alloc, arrays))?;
        let judge = Judge { rules, machines };
        Ok(judge)
    }

    /// The rules.
    pub fn rules(&self) -> &MachineRules
        ensures { rules_of result.now ≡ self.now.rules }
    {
        &self.rules
    }

    /// The machines that the lines lead to: one, unless several requests might have made a start. Readings that led to
    /// the same machine are joined where this is seen.
    pub fn machines(&self) -> &[Machine]
        ensures { result.now ≡ self.now.states }
    {
        self.machines.as_slice()
    }

    /// Returns what is left undone by the lines that were taken, which are to be all of an event: nothing where some
    /// machine that they lead to is settled, nor after [`Refusal::NoVerdict`], which leaves no machine.
    pub fn undone(&self) -> Option<Undone>
        ensures exact { 0 < length self.now.states → (result ≡ None) ↔ Any (IsSettled self.now.rules) self.now.states }
        ensures left { IfSome result (λ what. Any (Leaves self.now.rules what) self.now.states) }
    {
        let left = self.left();
        left
    }

    /// Returns what the first of the machines leaves undone, if none is settled.
    fn left(&self) -> Option<Undone>
        ensures { result ≡ undone_at_all self.now.rules self.now.states }
    {
        undone_at_all(&self.rules, self.machines.as_slice())
    }

    /// The rule that a line with this label breaks, if it goes from none of the machines.
    #[tactic(auto, using(crate::proofs::Followed::all_told))]
    fn broken(&self, label: &Label, owner: Option<u64>) -> Option<Rule>
        ensures { AllReached self.now.rules self.now.states → 0 < length self.now.states → MatchOption result
            (SomeGoes self.now.rules self.now.states (line_of label.now owner)) (StopsAll self.now.rules self.now.states (line_of label.now owner)) }
    {
        let told = told_by(label, owner);
        let rule = broken_at_all(&self.rules, told, self.machines.as_slice(), label);
        rule
    }

    /// Goes on by a line with this label. The judge has no machine left where memory is refused.
    fn go(&mut self, alloc: Global, label: &Label, owner: Option<u64>) -> Result<(), NoVerdict>
        ensures rules { self.new.rules ≡ self.old.rules }
        ensures next { OnOk result (GoesTo self.old (line_of label.now owner) self.new) }
    {
        let machines = mem::replace(&mut self.machines, Vec::new(alloc));
        self.machines = next_once(alloc, &self.rules, label, owner, machines)?;
        Ok(())
    }

    /// Returns how many readings it follows.
    fn readings(&self) -> u64
        ensures { result ≡ length self.now.states }
    {
        self.machines.len() as u64
    }

    /// Takes a line with this label more.
    fn take_of(&mut self, alloc: Global, label: &Label, owner: Option<u64>) -> Result<(), Refusal>
        ensures rules { self.new.rules ≡ self.old.rules }
        ensures taken { OnOk result (TakesLine self.old (line_of label.now owner) self.new) }
        ensures refused { IfErr result (λ refusal. IsLineRefusal self.old (line_of label.now owner) refusal) }
        ensures kept { IfErr result (λ refusal. Keeps self.old refusal self.new) }
    {
        if self.machines.is_empty() {
            return Err(Refusal::NoVerdict(NoVerdict::NoMemory));
        }
        let readings = self.readings();
        if readings > MOST_READINGS {
            return Err(Refusal::NoVerdict(NoVerdict::Readings { readings }));
        }
        if let Some(rule) = self.broken(label, owner) {
            return Err(Refusal::Breaks(rule));
        }
        let Ok(()) = self.go(alloc, label, owner) else {
            return Err(Refusal::NoVerdict(NoVerdict::NoMemory));
        };
        Ok(())
    }

    /// Takes one label more, as a line that names no request.
    ///
    /// # Errors
    ///
    /// [`Refusal::Breaks`] where no run has the labels that were taken and this one; the judge stays as it was.
    /// [`Refusal::NoVerdict`] where memory was refused, or a count has no room left, and from then on; or where the labels
    /// before have more than [`MOST_READINGS`] readings.
    pub fn take(&mut self, alloc: Global, label: &Label) -> Result<(), Refusal>
        ensures rules { self.new.rules ≡ self.old.rules }
        ensures taken { OnOk result (Takes self.old label.now self.new) }
        ensures refused { IfErr result (λ refusal. IsRefusal self.old label.now refusal) }
        ensures kept { IfErr result (λ refusal. Keeps self.old refusal self.new) }
    {
        let taken = self.take_of(alloc, label, None);
        taken
    }

    /// Takes one line more. Where it names the request of its start, the piece is of that request.
    ///
    /// # Errors
    ///
    /// Those of [`Judge::take`], of lines.
    pub fn take_line(&mut self, alloc: Global, line: &Line) -> Result<(), Refusal>
        ensures rules { self.new.rules ≡ self.old.rules }
        ensures taken { OnOk result (TakesLine self.old line.now self.new) }
        ensures refused { IfErr result (λ refusal. IsLineRefusal self.old line.now refusal) }
        ensures kept { IfErr result (λ refusal. Keeps self.old refusal self.new) }
    {
        let taken = self.take_of(alloc, &line.label, line.owner);
        taken
    }
}
