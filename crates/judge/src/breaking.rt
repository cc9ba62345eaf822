//! The rule that a label breaks.

ghost use Rattle.std.specs.Prelude.{◌≡◌, ◌↔◌, None, IfSome};
ghost use Rattle.judge.specs.Breaking.{HasLineStep, IsReached, LineBreaks, BreakingRefutes, LineBreakingRefutes};
ghost use Rattle.judge.specs.LabelRuling.{device_rule, free_rule, label_rule, goes_by};
ghost use Rattle.judge.specs.Views.{rules_of};

use crate::answers::Answer;
use crate::label_rules::Rule;
use crate::machine_state::Machine;
use crate::reading::{Told, told_by};
use crate::rules::MachineRules;
use machine::Label;
use srb::DeviceLabel;
use trace_line::Line;

/// A rule that a label or a line breaks refutes each step by it.
#[tactic(auto, using(crate::proofs::Refuting::refutes_all, crate::proofs::Refuting::refutes_lines))]
pub fn breaking_refutes()
    ensures labels { BreakingRefutes }
    ensures lines { LineBreakingRefutes }
{}

impl Machine {
    /// Returns what is wrong with a label of the adapter, where the line tells this of a start.
    fn broken_device(&self, rules: &MachineRules, told: Told, label: &DeviceLabel) -> Option<Rule>
        ensures { result ≡ device_rule (rules_of rules.now) self.now told label.now }
    {
        match label {
            DeviceLabel::Start { piece, tag, .. } => Some(Rule::Start(self.broken_start(
                rules, *piece, *tag, told,
            )?)),
            DeviceLabel::Act { piece, bytes } => Some(Rule::Act(self.broken_act(
                rules,
                *piece,
                bytes.as_slice(),
            )?)),
            DeviceLabel::Fault { piece } => Some(Rule::Act(self.broken_fault(*piece)?)),
            DeviceLabel::Return { piece, class } => Some(Rule::Return(self.broken_return(
                *piece, class,
            )?)),
        }
    }

    /// Returns what is wrong with a label where no answer is owed.
    fn broken_free(&self, rules: &MachineRules, told: Told, label: &Label) -> Option<Rule>
        ensures { result ≡ free_rule (rules_of rules.now) self.now told label.now }
    {
        match label {
            Label::Call { number, request } => Some(Rule::Call(self.broken_call(
                rules, *number, request,
            )?)),
            Label::Device(label) => self.broken_device(rules, told, label),
            Label::Answer {
                number,
                status,
                information,
                bytes,
            } => {
                let answer = Answer {
                    number: *number,
                    status: *status,
                    information: *information,
                    bytes: bytes.as_slice(),
                };
                Some(Rule::Answer(self.broken_answer(rules, answer)?))
            }
            Label::Cancel { number } => Some(Rule::Cancel(self.broken_cancel(*number)?)),
            Label::Pause => Some(Rule::Removal(self.broken_pause()?)),
            Label::Resume => Some(Rule::Removal(self.broken_resume()?)),
            Label::Remove => Some(Rule::Removal(self.broken_resume()?)),
            Label::Surprise => Some(Rule::Removal(self.broken_surprise()?)),
            Label::Removed => Some(Rule::Removal(self.broken_end()?)),
        }
    }

    /// Returns what is wrong with a label, where the line tells this of a start.
    pub(crate) fn broken_by(&self, rules: &MachineRules, told: Told, label: &Label) -> Option<Rule>
        ensures { result ≡ label_rule (rules_of rules.now) self.now told label.now }
    {
        match self.owed {
            None => self.broken_free(rules, told, label),
            Some(debt) => Some(Rule::Owed(debt.broken(label)?)),
        }
    }

    /// Whether some step goes by the label, where the line tells this of a start.
    pub(crate) fn goes(&self, rules: &MachineRules, told: Told, label: &Label) -> bool
        ensures { result ≡ goes_by (rules_of rules.now) told label.now self.now }
    {
        self.broken_by(rules, told, label).is_none()
    }

    /// Returns a rule that the line breaks here, and none exactly where some step goes by it. It holds of each machine
    /// that labels led to under these rules.
    #[tactic(auto, using(crate::proofs::Broken::exactly, crate::proofs::Broken::breaks))]
    pub fn broken(&self, rules: &MachineRules, line: &Line) -> Option<Rule>
        ensures exact { IsReached (rules_of rules.now) self.now → (result ≡ None) ↔ HasLineStep (rules_of rules.now) self.now line.now }
        ensures breaks { IsReached (rules_of rules.now) self.now → IfSome result (λ rule. LineBreaks (rules_of rules.now) self.now line.now rule) }
    {
        let told = told_by(&line.label, line.owner);
        let rule = self.broken_by(rules, told, &line.label);
        rule
    }
}
