//! Rules by which a disk misbehaves: which commands fail, come back busy, or take longer.
//!
//! # Promises
//!
//! `turn` gives what the first rule that is due does (`does`), and each rule has counted the command (`counted`). A rule
//! is due of the commands that name its sectors, each `every`-th, `times` in all (`is_due`, `behind`), so that where one
//! was, the rules are for fewer commands (`fewer`). A block's sectors are those that it decodes to (`Names`).
#![tactic(auto)]

ghost use Rattle.std.specs.Prelude.{◌≡◌, ◌≤◌, ◌<◌, map, IfSome};
ghost use Rattle.ntstatus.specs.First.{first_some};
ghost use Rattle.injection.specs.Rules.{Names, behind, counts as is_counted, is_due as due_for, kind_if_due, left, meets as is_met, named as names, share as have_common};

use cdb::{Cdb, CdbFault, decode};
use sector::Extent;

/// What a rule does to a command.
#[derive(Debug, Clone, Copy, PartialEq, Eq)]
pub enum Kind {
    /// It fails with MEDIUM ERROR.
    MediumError,
    /// It fails with HARDWARE ERROR.
    HardwareError,
    /// It fails with NOT READY.
    NotReady,
    /// It fails with ABORTED COMMAND.
    AbortedCommand,
    /// It comes back busy (SAM: BUSY), and nothing was done.
    Busy,
    /// It is carried out so many milliseconds later.
    Delay { ms: u64 },
}

/// A rule of which commands it does something to.
#[derive(Debug, Clone, Copy, PartialEq, Eq)]
pub struct Rule {
    /// Only commands that name one of these sectors count; all commands where there is none.
    pub sectors: Option<Extent>,
    /// It does something to each so many-th of the commands that count, 1 or more.
    pub every: u64,
    /// To how many commands it may still do something. Behind the last it counts none.
    pub times: u64,
    /// What it does.
    pub kind: Kind,
    /// How many commands that count come before the next.
    pub wait: u64,
}

impl Rule {
    /// Whether the rule counts a command that names these sectors.
    fn counts(&self, asked: Extent) -> bool
        ensures { result ≡ is_counted asked self.now }
    {
        let meets = meets(self.sectors, asked);
        self.times > 0 && meets
    }

    /// Whether the rule does something to a command that names these sectors.
    fn is_due(&self, asked: Extent) -> bool
        ensures { result ≡ due_for asked self.now }
    {
        let counts = self.counts(asked);
        counts && self.wait == 0
    }

    /// The rule behind a command that names these sectors.
    fn behind(self, asked: Extent) -> Rule
        ensures { result ≡ behind asked self }
    {
        if !self.counts(asked) {
            self
        } else if self.wait == 0 {
            Rule {
                times: self.times - 1,
                wait: self.every.saturating_sub(1),
                ..self
            }
        } else {
            Rule {
                wait: self.wait - 1,
                ..self
            }
        }
    }
}

/// Whether a rule with such sectors counts a command that names these.
fn meets(sectors: Option<Extent>, asked: Extent) -> bool
    ensures { result ≡ is_met sectors asked }
{
    match sectors {
        None => true,
        Some(range) => share(range, asked),
    }
}

/// Whether two extents share a sector.
fn share(a: Extent, b: Extent) -> bool
    ensures { result ≡ have_common a b }
{
    let a_end = a.first as u128 + a.count as u128;
    let b_end = b.first as u128 + b.count as u128;
    a.count > 0 && b.count > 0 && (a.first as u128) < b_end && (b.first as u128) < a_end
}

/// The sectors that a command block names: none where it asks for nothing, or names none.
pub fn asked_by(block: &[u8]) -> Extent
    ensures { Names block.now result }
{
    named(decode(block))
}

/// The sectors that a command names.
fn named(decoded: Result<Cdb, CdbFault>) -> Extent
    ensures { result ≡ names decoded }
{
    match decoded {
        Ok(command) => Extent {
            first: command.lba(),
            count: command.blocks() as u64,
        },
        Err(_) => Extent { first: 0, count: 0 },
    }
}

/// Counts a command that names these sectors. Returns what the first rule that is due does to it, if one is.
pub fn turn(rules: &mut [Rule], asked: Extent) -> Option<Kind>
    ensures does { result ≡ first_some (map (kind_if_due asked) rules.old) }
    ensures counted { rules.new ≡ map (behind asked) rules.old }
    ensures no_more { left rules.new ≤ left rules.old }
    ensures fewer { IfSome result (λ _. left rules.new < left rules.old) }
{
    let due = due(rules, asked);
    count(rules, asked);
    due
}

/// What the first rule that is due does to a command that names these sectors.
fn due(rules: &[Rule], asked: Extent) -> Option<Kind>
    ensures { result ≡ first_some (map (kind_if_due asked) rules.now) }
{
    for rule in rules {
        if rule.is_due(asked) {
            return Some(rule.kind);
        }
    }
    None
}

/// Counts a command that names these sectors, in each rule.
fn count(rules: &mut [Rule], asked: Extent)
    ensures { rules.new ≡ map (behind asked) rules.old }
{
    for rule in rules.iter_mut() {
        *rule = rule.behind(asked);
    }
}
