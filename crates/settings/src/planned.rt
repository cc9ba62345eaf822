//! The rules of the settings.

ghost use Rattle.std.specs.Prelude.{◌≡◌, IfOk, IfSome, None, Some, codes, is_some, map, true};
ghost use Rattle.std.specs.List.{AllZip, list_any};
ghost use Rattle.std.specs.Result.{result_err};
ghost use Rattle.std.specs.Str.{bytes_eq};
ghost use Rattle.toml.specs.Data.{get_member, string, table};
ghost use Rattle.toml.specs.View.{table_view, view};
ghost use Rattle.ntstatus.specs.First.{first_some};
ghost use Rattle.settings.specs.Faults.{IsRefusedFor, ms_fault, needed_fault, rule_fault, rules_fault, unless};
ghost use Rattle.settings.specs.declared.ConfigFault.TheVariants.{OutOfRange};
ghost use Rattle.settings.specs.Kinds.{is_delay, is_kind, kind_names, name_of, range_of as range_from};
ghost use Rattle.settings.specs.Settings.{AreRules, GivesRule, IsKind, IsRule, IsTimed};

use crate::ConfigFault;
use crate::table::{list_at, number, number_or, value_at};
use injection::{Kind, Rule};
use sector::Extent;
use std::alloc::Global;
use toml::{Table, Value};

/// The largest number that a document has.
const MOST: u64 = 9_223_372_036_854_775_807;

/// The rules, in the order of the document.
pub(crate) fn fault_rules(alloc: Global, table: &Table) -> Result<Vec<Rule>, ConfigFault>
    ensures value { IfOk result (λ found. AreRules (get_member (codes "fault") (table_view table.now)) found.items) }
    ensures fault { IsRefusedFor (rules_fault (get_member (codes "fault") (table_view table.now))) result }
{
    match list_at(table, "fault")? {
        Some(items) => fault_rules_of(alloc, items),
        None => Ok(Vec::new(alloc)),
    }
}

fn fault_rules_of(alloc: Global, items: &[Value]) -> Result<Vec<Rule>, ConfigFault>
    ensures value { IfOk result (λ found. AllZip GivesRule (map view items.now) found.items) }
    ensures fault { IsRefusedFor (first_some (map (λ item. rule_fault (view item)) items.now)) result }
{
    let mut found = Vec::new(alloc);
    for item in items {
        let rule = fault_rule(item)?;
        found.push(rule).map_err(|_| ConfigFault::NoMemory)?;
    }
    Ok(found)
}

fn fault_rule(item: &Value) -> Result<Rule, ConfigFault>
    ensures value { IfOk result (GivesRule (view item.now)) }
    ensures fault { result_err result ≡ rule_fault (view item.now) }
{
    match item {
        Value::Table(table) => fault_rule_of(table),
        _ => Err(ConfigFault::OutOfRange),
    }
}

fn fault_rule_of(settings: &Table) -> Result<Rule, ConfigFault>
    ensures value { IfOk result (IsRule (table_view settings.now)) }
    ensures fault { result_err result ≡ rule_fault (table (table_view settings.now)) }
{
    let named = kind(settings)?;
    let every = number_or(settings, "every", 1, MOST, 1)?;
    let times = number_or(settings, "times", 1, MOST, MOST)?;
    let first = number_or(settings, "first", 0, MOST, 0)?;
    let count = number_or(settings, "count", 0, MOST, 0)?;
    let kind = timed(settings, named)?;
    Ok(Rule {
        sectors: range(first, count),
        every,
        times,
        kind,
        wait: every - 1,
    })
}

/// The sectors that a rule names, if any.
fn range(first: u64, count: u64) -> Option<Extent>
    ensures { result ≡ range_from first count }
{
    match count {
        0 => None,
        _ => Some(Extent { first, count }),
    }
}

/// What a rule does, a delay by 0 ms as yet.
fn kind(settings: &Table) -> Result<Kind, ConfigFault>
    ensures value { IfOk result (IsKind (get_member (codes "kind") (table_view settings.now))) }
    ensures fault { result_err result ≡ needed_fault is_kind (get_member (codes "kind") (table_view settings.now)) }
{
    match value_at(settings, "kind") {
        Some(value) => kind_or_fault(value),
        None => Err(ConfigFault::MissingKey),
    }
}

fn kind_or_fault(value: &Value) -> Result<Kind, ConfigFault>
    ensures value { IfOk result (λ kind. view value.now ≡ string (name_of kind)) }
    ensures fault { result_err result ≡ unless (is_kind (view value.now)) OutOfRange }
{
    match kind_of(value) {
        Some(kind) => Ok(kind),
        None => Err(ConfigFault::OutOfRange),
    }
}

/// The kind that a value names.
fn kind_of(value: &Value) -> Option<Kind>
    ensures name { IfSome result (λ kind. view value.now ≡ string (name_of kind)) }
    ensures known { is_some result ≡ is_kind (view value.now) }
{
    match value {
        Value::String(name) => kind_named(name.as_str()),
        _ => None,
    }
}

fn kind_named(name: &str) -> Option<Kind>
    ensures name { IfSome result (λ kind. name.now ≡ name_of kind) }
    ensures known { is_some result ≡ list_any (bytes_eq name.now) kind_names }
{
    match name {
        "medium_error" => Some(Kind::MediumError),
        "hardware_error" => Some(Kind::HardwareError),
        "not_ready" => Some(Kind::NotReady),
        "aborted_command" => Some(Kind::AbortedCommand),
        "busy" => Some(Kind::Busy),
        "delay" => Some(Kind::Delay { ms: 0 }),
        _ => None,
    }
}

/// The same kind, a delay by the milliseconds at `ms`, a key that no other kind has.
fn timed(settings: &Table, kind: Kind) -> Result<Kind, ConfigFault>
    ensures name { IfOk result (λ timed. name_of timed ≡ name_of kind) }
    ensures value { IfOk result (IsTimed (get_member (codes "ms") (table_view settings.now))) }
    ensures fault { result_err result ≡ ms_fault (is_delay (Some (string (name_of kind)))) (get_member (codes "ms") (table_view settings.now)) }
{
    match kind {
        Kind::Delay { .. } => delay(settings),
        _ if value_at(settings, "ms").is_some() => Err(ConfigFault::OutOfRange),
        _ => Ok(kind),
    }
}

/// A delay by the milliseconds at `ms`.
fn delay(settings: &Table) -> Result<Kind, ConfigFault>
    ensures name { IfOk result (λ delay. name_of delay ≡ codes "delay") }
    ensures value { IfOk result (IsTimed (get_member (codes "ms") (table_view settings.now))) }
    ensures fault { result_err result ≡ ms_fault true (get_member (codes "ms") (table_view settings.now)) }
{
    let ms = number(settings, "ms", 1, 60_000)?;
    Ok(Kind::Delay { ms })
}
