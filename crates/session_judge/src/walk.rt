//! The labels of sessions, judged one by one.

ghost use Rattle.std.specs.Prelude.{◌≡◌, ◌++◌, ◌∷◌, [], IfOk, MatchOption, OnOk};
ghost use Rattle.machine.specs.State.{State};
ghost use Rattle.judge.specs.Views.{rules_of};
ghost use Rattle.session_judge.specs.Deeds.{cut_off, label_deeds, next_after};
ghost use Rattle.session_judge.specs.declared.walk.Line.TheVariants.{Told};
ghost use Rattle.session_judge.specs.inside.Walking.{BeginsAnew, GoesOn, HasWalked, IsFirst, IsUnnamed, StopsWalk, WalksOn};

use crate::deeds::{Deed, add, cut_off, label_deeds};
use judge::stepwise::{Judge, Refusal};
use judge::{MachineRules, NoVerdict, Rule};
use machine::Label;
use srb::DeviceLabel;
use std::alloc::{AllocError, Global};

/// A line of a trace over several sessions.
#[derive(Debug, Drop)]
pub enum Line {
    /// A label of a session.
    Told(trace_line::Line),
    /// Power was lost, and a session began anew.
    Lost,
    /// The process ended, and a session began anew.
    Ended,
}

/// Why a line stops the walk.
#[derive(Debug, Clone, Copy)]
pub(crate) enum Stop {
    /// No step goes by it: it breaks this rule.
    Breaks(Rule),
    /// It is a start that several requests may have made.
    Unnamed,
}

/// Sessions as far as they were read.
#[derive(Debug, Drop)]
pub(crate) struct Walk {
    /// The judge of the newest session.
    pub judge: Judge,
    /// The number of its next piece.
    pub next: u128,
    /// What was said of the disk.
    pub deeds: Vec<Deed>,
}

/// The number of the next piece behind a label.
fn next_after(next: u128, label: &Label) -> u128
    ensures { result ≡ next_after next label.now }
{
    match label {
        Label::Device(DeviceLabel::Start { piece, .. }) => piece.saturating_add(1),
        _ => next,
    }
}

/// The same rules.
fn copied(alloc: Global, rules: &MachineRules) -> Result<MachineRules, AllocError>
    ensures { IfOk result (λ copy. rules_of copy ≡ rules_of rules.now) }
{
    Ok(MachineRules {
        partitions: Vec::from_slice(alloc, rules.partitions.as_slice())?,
        sector_size: rules.sector_size,
        disk_sectors: rules.disk_sectors,
        longest: rules.longest,
        max_transfer: rules.max_transfer,
        depth: rules.depth,
        open_requests: rules.open_requests,
        window: rules.window,
        one_piece: rules.one_piece,
        busy_limit: rules.busy_limit,
        any_cut: rules.any_cut,
        faithful: rules.faithful,
    })
}

/// The judge of a session that has no label yet. The sectors stand elsewhere.
fn first_judge(alloc: Global, rules: &MachineRules) -> Result<Judge, NoVerdict>
    ensures { IfOk result (IsFirst (rules_of rules.now)) }
{
    let rules = copied(alloc, rules)?;
    let judge = Judge::new(alloc, rules, Vec::new(alloc))?;
    if judge.machines().len() != 1 {
        return Err(NoVerdict::NoMemory);
    }
    Ok(judge)
}

/// Adds these deeds behind the others.
fn append(deeds: &mut Vec<Deed>, more: Vec<Deed>) -> Result<(), AllocError>
    ensures { OnOk result (deeds.new.items ≡ deeds.old.items ++ more.items) }
{
    for deed in more {
        add(deeds, deed)?;
    }
    Ok(())
}

impl Walk {
    /// A walk of no line.
    #[tactic(auto, using(crate::proofs::Walking::opened))]
    pub fn opening(alloc: Global, rules: &MachineRules) -> Result<Walk, NoVerdict>
        ensures { IfOk result (HasWalked (rules_of rules.now) []) }
    {
        let judge = first_judge(alloc, rules)?;
        Ok(Walk {
            judge,
            next: 1,
            deeds: Vec::new(alloc),
        })
    }

    /// What a label says of the disk.
    fn said(
        &self,
        alloc: Global,
        rules: &MachineRules,
        label: &Label,
    ) -> Result<Vec<Deed>, NoVerdict>
        ensures { IfOk result (λ said. (s : State) → self.now.judge.states ≡ s ∷ [] → said.items ≡ label_deeds (rules_of rules.now) s self.now.next label.now) }
    {
        match self.judge.machines().first() {
            Some(machine) => Ok(label_deeds(alloc, rules, machine, self.next, label)?),
            None => Err(NoVerdict::NoMemory),
        }
    }

    /// What the pieces may have done that are at work.
    fn cut_off(&self, alloc: Global, rules: &MachineRules) -> Result<Vec<Deed>, NoVerdict>
        ensures { IfOk result (λ said. (s : State) → self.now.judge.states ≡ s ∷ [] → said.items ≡ cut_off (rules_of rules.now) s) }
    {
        match self.judge.machines().first() {
            Some(machine) => Ok(cut_off(alloc, rules, machine)?),
            None => Err(NoVerdict::NoMemory),
        }
    }

    /// Goes on by a label.
    #[tactic(auto, using(crate::proofs::Walking::gone_on, crate::proofs::Walking::broken))]
    fn take_told(
        &mut self,
        alloc: Global,
        rules: &MachineRules,
        line: &trace_line::Line,
    ) -> Result<Option<Stop>, NoVerdict>
        ensures { IfOk result (λ stop. MatchOption stop (WalksOn (rules_of rules.now) (Told line.now) self.old self.new) (StopsWalk (rules_of rules.now) (Told line.now) self.old self.new)) }
    {
        let said = self.said(alloc, rules, &line.label)?;
        match self.judge.take_line(alloc, line) {
            Ok(()) => self.go_on(said, &line.label),
            Err(Refusal::Breaks(rule)) => Ok(Some(Stop::Breaks(rule))),
            Err(Refusal::NoVerdict(why)) => Err(why),
        }
    }

    /// Goes on behind a label that the judge took, and that said this of the disk.
    fn go_on(&mut self, said: Vec<Deed>, label: &Label) -> Result<Option<Stop>, NoVerdict>
        ensures { IfOk result (λ stop. MatchOption stop (GoesOn said.items label.now self.old self.new) (IsUnnamed self.old self.new)) }
    {
        if self.judge.machines().len() != 1 {
            return Ok(Some(Stop::Unnamed));
        }
        append(&mut self.deeds, said)?;
        self.next = next_after(self.next, label);
        Ok(None)
    }

    /// Begins anew behind this.
    fn begin_anew(
        &mut self,
        alloc: Global,
        rules: &MachineRules,
        end: Deed,
    ) -> Result<(), NoVerdict>
        ensures { OnOk result (BeginsAnew (rules_of rules.now) end self.old self.new) }
    {
        let said = self.cut_off(alloc, rules)?;
        append(&mut self.deeds, said)?;
        add(&mut self.deeds, end)?;
        self.judge = first_judge(alloc, rules)?;
        self.next = 1;
        Ok(())
    }

    /// Goes on by a line, unless that stops the walk.
    #[tactic(auto, using(crate::proofs::Walking::walked_lost, crate::proofs::Walking::walked_ended))]
    pub fn take(
        &mut self,
        alloc: Global,
        rules: &MachineRules,
        line: &Line,
    ) -> Result<Option<Stop>, NoVerdict>
        ensures { IfOk result (λ stop. MatchOption stop (WalksOn (rules_of rules.now) line.now self.old self.new) (StopsWalk (rules_of rules.now) line.now self.old self.new)) }
    {
        match line {
            Line::Told(told) => self.take_told(alloc, rules, told),
            Line::Lost => {
                self.begin_anew(alloc, rules, Deed::PowerLost)?;
                Ok(None)
            }
            Line::Ended => {
                self.begin_anew(alloc, rules, Deed::ProcessEnded)?;
                Ok(None)
            }
        }
    }
}
