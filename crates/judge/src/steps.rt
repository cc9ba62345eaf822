//! The machines that a line leads to. A label that breaks a rule leads to none; any other changes a machine, and need
//! not be looked at again.

ghost use Rattle.std.specs.Prelude.{◌≡◌, ◌++◌, [], ◌∷◌, IfOk, OnOk, option_to_list};
ghost use Rattle.std.specs.List.{flat_map};
ghost use Rattle.judge.specs.Judging.{line_of};
ghost use Rattle.judge.specs.Next.{device_after, free_after, after_of, next, AreNext};
ghost use Rattle.judge.specs.Views.{rules_of, owed_of};

use crate::NoVerdict;
use crate::machine_state::Machine;
use crate::reading::{Told, told_by};
use crate::rules::MachineRules;
use machine::Label;
use srb::DeviceLabel;
use std::alloc::Global;

/// Adds a machine, if there is one.
fn add(one: Option<Machine>, found: &mut Vec<Machine>) -> Result<(), NoVerdict>
    ensures { OnOk result (found.new.items ≡ found.old.items ++ option_to_list one) }
{
    if let Some(machine) = one {
        found.push(machine)?;
    }
    Ok(())
}

/// Adds a machine.
fn add_one(machine: Machine, found: &mut Vec<Machine>) -> Result<(), NoVerdict>
    ensures { OnOk result (found.new.items ≡ found.old.items ++ machine ∷ []) }
{
    found.push(machine)?;
    Ok(())
}

impl Machine {
    /// Adds the machines after a label of the adapter that breaks no rule.
    fn add_device_after(
        self,
        alloc: Global,
        rules: &MachineRules,
        told: Told,
        label: &DeviceLabel,
        found: &mut Vec<Machine>,
    ) -> Result<(), NoVerdict>
        ensures { OnOk result (found.new.items ≡ found.old.items ++ device_after (rules_of rules.now) told self label.now) }
    {
        match label {
            DeviceLabel::Start { tag, .. } => self.add_started(alloc, rules, *tag, told, found),
            DeviceLabel::Act { piece, bytes } => {
                add(self.acted(alloc, rules, *piece, bytes.as_slice())?, found)
            }
            DeviceLabel::Fault { piece } => add(self.faulted(*piece)?, found),
            DeviceLabel::Return { piece, class } => add(
                self.returned(alloc, *piece, class)?,
                found,
            ),
        }
    }

    /// Adds the machines after a label that breaks no rule, where no answer is owed.
    fn add_free_after(
        self,
        alloc: Global,
        rules: &MachineRules,
        told: Told,
        label: &Label,
        found: &mut Vec<Machine>,
    ) -> Result<(), NoVerdict>
        ensures { OnOk result (found.new.items ≡ found.old.items ++ free_after (rules_of rules.now) told self label.now) }
    {
        match label {
            Label::Call { request, .. } => add_one(self.called(alloc, rules, request)?, found),
            Label::Device(label) => self.add_device_after(alloc, rules, told, label, found),
            Label::Answer { number, .. } => add(self.answered(*number), found),
            Label::Cancel { number } => add(self.cancelled(*number)?, found),
            Label::Pause => add_one(self.paused(alloc, rules)?, found),
            Label::Resume => add_one(self.resumed(alloc)?, found),
            Label::Remove => add_one(self.drained(), found),
            Label::Surprise => add_one(self.surprised(alloc, rules)?, found),
            Label::Removed => add_one(self.ended(), found),
        }
    }

    /// Adds the machines after a label that breaks no rule.
    fn add_after(
        self,
        alloc: Global,
        rules: &MachineRules,
        told: Told,
        label: &Label,
        found: &mut Vec<Machine>,
    ) -> Result<(), NoVerdict>
        ensures { OnOk result (found.new.items ≡ found.old.items ++ after_of (rules_of rules.now) told self label.now self.owed) }
    {
        match self.owed {
            None => self.add_free_after(alloc, rules, told, label, found),
            Some(_) => add_one(self.repaid(), found),
        }
    }

    /// Adds the machines that the label leads to.
    fn add_next(
        self,
        alloc: Global,
        rules: &MachineRules,
        told: Told,
        label: &Label,
        found: &mut Vec<Machine>,
    ) -> Result<(), NoVerdict>
        ensures { OnOk result (found.new.items ≡ found.old.items ++ next (rules_of rules.now) told label.now self) }
    {
        if self.goes(rules, told, label) {
            self.add_after(alloc, rules, told, label, found)
        } else {
            Ok(())
        }
    }
}

/// The machines that a line with this label leads to from all of these, which names this request.
pub(crate) fn all_next(
    alloc: Global,
    rules: &MachineRules,
    label: &Label,
    owner: Option<u64>,
    machines: Vec<Machine>,
) -> Result<Vec<Machine>, NoVerdict>
    ensures { IfOk result (λ after. AreNext (rules_of rules.now) (line_of label.now owner) machines.items after.items) }
{
    let after = each_next(alloc, rules, told_by(label, owner), label, machines)?;
    Ok(after)
}

/// The machines after the label, from each of these.
fn each_next(
    alloc: Global,
    rules: &MachineRules,
    told: Told,
    label: &Label,
    machines: Vec<Machine>,
) -> Result<Vec<Machine>, NoVerdict>
    ensures { IfOk result (λ after. after.items ≡ flat_map (next (rules_of rules.now) told label.now) machines.items) }
{
    let mut found = Vec::new(alloc);
    for machine in machines {
        machine.add_next(alloc, rules, told, label, &mut found)?;
    }
    Ok(found)
}
