//! The rules of the settings, by what they do.

ghost use Rattle.std.specs.Prelude.{◌≡◌, IfOk, filter};
ghost use Rattle.std.specs.List.{list_any};
ghost use Rattle.settings.specs.Rules.{fails, slows as does_slow};

use injection::{Kind, Rule};
use std::alloc::{AllocError, Global};

/// The rules that fail commands, in order.
pub(crate) fn failing(alloc: Global, rules: &[Rule]) -> Result<Vec<Rule>, AllocError>
    ensures { IfOk result (λ failing. failing.items ≡ filter fails rules.now) }
{
    let mut failing = Vec::new(alloc);
    for rule in rules {
        if !slows(*rule) {
            failing.push(*rule)?;
        }
    }
    Ok(failing)
}

/// The rules by which commands come back busy or later, in order.
///
/// # Errors
///
/// [`AllocError`] where memory was refused.
pub fn slowing(alloc: Global, rules: &[Rule]) -> Result<Vec<Rule>, AllocError>
    ensures { IfOk result (λ slowing. slowing.items ≡ filter does_slow rules.now) }
{
    let mut slowing = Vec::new(alloc);
    for rule in rules {
        if slows(*rule) {
            slowing.push(*rule)?;
        }
    }
    Ok(slowing)
}

/// Whether there is a rule by which commands come back busy or later.
pub fn has_slowing(rules: &[Rule]) -> bool
    ensures { result ≡ list_any does_slow rules.now }
{
    rules.iter().any(|rule| slows(*rule))
}

/// Whether commands come back busy or later by a rule.
fn slows(rule: Rule) -> bool
    ensures { result ≡ does_slow rule }
{
    matches!(rule.kind, Kind::Busy | Kind::Delay { .. })
}
