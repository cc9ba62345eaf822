//! Which commands come back busy, or take longer, by rules.

ghost use Rattle.std.specs.Prelude.{◌≡◌, ◌≤◌, ◌<◌, IsTrue, MatchOption};
ghost use Rattle.injection.specs.Rules.{left};
ghost use Rattle.adapter.specs.Calls.{HasNoneFresh};
ghost use Rattle.volume.specs.inside.Slowing.{AsksOn, CountsOn, IsCounted};

use adapter::Adapter;
use compose::Stack;
use injection::{Kind, Rule, asked_by, turn};
use sector::Extent;
use std::alloc::Global;

/// Rules by which commands come back busy or take longer, and how long they took.
pub(crate) struct Slowing {
    pub rules: Vec<Rule>,
    /// By how many milliseconds commands were delayed since that was asked last.
    pub delay: u64,
}

// Written by hand: each crate above would prove a derived one again.
impl Drop for Slowing {
    fn drop(self) {
        let Slowing { rules: _, delay: _ } = self;
    }
}

impl Slowing {
    /// No rules.
    pub fn none(alloc: Global) -> Slowing {
        Slowing::by(Vec::new(alloc))
    }

    /// These rules.
    pub fn by(rules: Vec<Rule>) -> Slowing {
        Slowing { rules, delay: 0 }
    }

    /// Counts the command of the tag's piece, if one is there that has neither acted nor failed. Returns whether it comes
    /// back busy by a rule; then the rules are for fewer commands.
    pub fn turns_back<A: Adapter>(&mut self, stack: &Stack<A>, tag: u8) -> bool
        ensures counts { CountsOn stack.now.adapter tag self.old result self.new }
        ensures no_more { left self.new.rules.items ≤ left self.old.rules.items }
        ensures fewer { IsTrue result → left self.new.rules.items < left self.old.rules.items }
    {
        if self.rules.is_empty() {
            return false;
        }
        match asked_on(stack, tag) {
            Some(asked) => self.count(asked),
            None => false,
        }
    }

    /// Counts a command that names these sectors. Returns whether it comes back busy by the first rule that is due.
    fn count(&mut self, asked: Extent) -> bool
        ensures counted { IsCounted self.old asked result self.new }
        ensures no_more { left self.new.rules.items ≤ left self.old.rules.items }
        ensures fewer { IsTrue result → left self.new.rules.items < left self.old.rules.items }
    {
        match turn(self.rules.as_mut_slice(), asked) {
            Some(Kind::Busy) => true,
            Some(Kind::Delay { ms }) => {
                self.delay = self.delay.saturating_add(ms);
                false
            }
            _ => false,
        }
    }

    /// Returns by how many milliseconds commands were delayed, and forgets that.
    pub fn take_delay(&mut self) -> u64
        ensures taken { result ≡ self.old.delay }
        ensures forgotten { self.new ≡ record self.old { delay = 0 } }
    {
        let delay = self.delay;
        self.delay = 0;
        delay
    }
}

/// The sectors that the tag's piece names, where it has neither acted nor failed; else `None`.
fn asked_on<A: Adapter>(stack: &Stack<A>, tag: u8) -> Option<Extent>
    ensures { MatchOption result (HasNoneFresh stack.now.adapter tag) (AsksOn stack.now.adapter tag) }
{
    match stack.armed(tag) {
        None => None,
        Some(found) => Some(asked_by(found.1.block.as_slice())),
    }
}
