//! The values at the keys of the settings.

ghost use Rattle.std.specs.Prelude.{◌≡◌, ◌<◌, ◌-◌, ◌⊎◌, Some, IfOk, nat_le, false, true, length, option_map, All, codes, map};
ghost use Rattle.std.specs.List.{AllZip, list_all, list_any};
ghost use Rattle.std.specs.Result.{result_err};
ghost use Rattle.std.specs.Str.{bytes_eq};
ghost use Rattle.toml.specs.Data.{array, boolean, no_items, get_member, table};
ghost use Rattle.toml.specs.View.{items_of, view, table_view};
ghost use Rattle.settings.specs.declared.ConfigFault.TheVariants.{OutOfRange};
ghost use Rattle.settings.specs.InRange.{IsFrom};
ghost use Rattle.settings.specs.Settings.{setting_keys, rule_keys, partition_keys, has_only, has_rule_keys, has_partition_keys, values_of, has_known_keys, whole, IsNumber, IsNumberOr, IsTruthOrFalse, AreNumbers, IsPartition, GivesPartition, ArePartitions};
ghost use Rattle.ntstatus.specs.First.{first_some};
ghost use Rattle.settings.specs.Faults.{is_from, is_sector_size, is_number, is_truth, is_list, is_list_of, unless, needed_fault, optional_fault, partition_fault, partition_faults, IsRefusedFor};

use crate::{ConfigFault, Partition};
use std::alloc::Global;
use toml::{Table, Value};

/// The largest number that an entry of a partition table has room for.
const MOST: u64 = 4_294_967_295;

/// The value at a key.
pub(crate) fn value_at<'a>(table: &'a Table, key: &str) -> Option<&'a Value>
    ensures { option_map (λ value. view value.now) result ≡ get_member key.now (table_view table.now) }
{
    table.get(key)
}

/// The items of the list at a key, if anything is there.
pub(crate) fn list_at<'a>(table: &'a Table, key: &str) -> Result<Option<&'a [Value]>, ConfigFault>
    ensures value { IfOk result (λ found. option_map (λ items. array (items_of (map view items.now))) found
        ≡ get_member key.now (table_view table.now)) }
    ensures fault { result_err result ≡ optional_fault (array no_items) is_list (get_member key.now (table_view table.now)) }
{
    match value_at(table, key) {
        Some(Value::Array(items)) => Ok(Some(items.as_slice())),
        Some(_) => Err(ConfigFault::OutOfRange),
        None => Ok(None),
    }
}

/// The items of the list at a key, none where no list is.
fn items_at<'a>(table: &'a Table, key: &str) -> &'a [Value]
    ensures { map view result.now ≡ values_of (get_member key.now (table_view table.now)) }
{
    match value_at(table, key) {
        Some(Value::Array(items)) => items.as_slice(),
        _ => &[],
    }
}

/// Whether all keys, at the top, in rules and in partitions, are those of the settings.
pub(crate) fn has_known_keys(table: &Table) -> bool
    ensures { result ≡ has_known_keys (table_view table.now) }
{
    has_setting_keys(table)
        && have_rule_keys(items_at(table, "fault"))
        && have_partition_keys(items_at(table, "partition"))
}

/// Whether there are at most four partitions, for which a partition table has room.
pub(crate) fn has_few_partitions(table: &Table) -> bool
    ensures { result ≡ nat_le (length (values_of (get_member (codes "partition") (table_view table.now)))) 4 }
{
    items_at(table, "partition").len() <= 4
}

/// Whether a table has no other keys than those of the settings.
fn has_setting_keys(table: &Table) -> bool
    ensures { result ≡ has_only setting_keys (table_view table.now) }
{
    table.keys().all(|key| is_setting_key(key.as_str()))
}

fn is_setting_key(key: &str) -> bool
    ensures { result ≡ list_any (bytes_eq key.now) setting_keys }
{
    matches!(
        key,
        "sector_size"
            | "sectors"
            | "max_transfer"
            | "depth"
            | "window"
            | "open_requests"
            | "write_protected"
            | "bad_sectors"
            | "fault"
            | "partition"
    )
}

/// Whether the tables of a list have no other keys than those of a rule.
fn have_rule_keys(items: &[Value]) -> bool
    ensures { result ≡ list_all has_rule_keys (map view items.now) }
{
    items.iter().all(|item| is_known_rule(item))
}

/// Whether a value, where it is a table, has no other keys than those of a rule.
fn is_known_rule(item: &Value) -> bool
    ensures { result ≡ has_rule_keys (view item.now) }
{
    match item {
        Value::Table(table) => has_rule_keys(table),
        _ => true,
    }
}

fn has_rule_keys(table: &Table) -> bool
    ensures { result ≡ has_only rule_keys (table_view table.now) }
{
    table.keys().all(|key| is_rule_key(key.as_str()))
}

fn is_rule_key(key: &str) -> bool
    ensures { result ≡ list_any (bytes_eq key.now) rule_keys }
{
    matches!(key, "kind" | "every" | "times" | "first" | "count" | "ms")
}

/// Whether the tables of a list have no other keys than those of a partition.
fn have_partition_keys(items: &[Value]) -> bool
    ensures { result ≡ list_all has_partition_keys (map view items.now) }
{
    items.iter().all(|item| is_known_partition(item))
}

/// Whether a value, where it is a table, has no other keys than those of a partition.
fn is_known_partition(item: &Value) -> bool
    ensures { result ≡ has_partition_keys (view item.now) }
{
    match item {
        Value::Table(table) => has_partition_keys(table),
        _ => true,
    }
}

fn has_partition_keys(table: &Table) -> bool
    ensures { result ≡ has_only partition_keys (table_view table.now) }
{
    table.keys().all(|key| is_partition_key(key.as_str()))
}

fn is_partition_key(key: &str) -> bool
    ensures { result ≡ list_any (bytes_eq key.now) partition_keys }
{
    matches!(key, "first" | "count" | "type")
}

/// A value as a whole number from `least` to `most`.
fn in_range(value: &Value, least: u64, most: u64) -> Result<u64, ConfigFault>
    ensures value { IfOk result (λ n. view value.now ≡ whole n) }
    ensures range { IfOk result (IsFrom least most) }
    ensures fault { result_err result ≡ unless (is_number (is_from least most) (view value.now)) OutOfRange }
{
    let Value::Integer(number) = value else {
        return Err(ConfigFault::OutOfRange);
    };
    match u64::try_from(*number) {
        Ok(number) if least <= number && number <= most => Ok(number),
        _ => Err(ConfigFault::OutOfRange),
    }
}

/// The whole number at a key that has to be there.
pub(crate) fn number(table: &Table, key: &str, least: u64, most: u64) -> Result<u64, ConfigFault>
    ensures value { IfOk result (IsNumber (get_member key.now (table_view table.now))) }
    ensures range { IfOk result (IsFrom least most) }
    ensures fault { result_err result ≡ needed_fault (is_number (is_from least most)) (get_member key.now (table_view table.now)) }
{
    match value_at(table, key) {
        Some(value) => in_range(value, least, most),
        None => Err(ConfigFault::MissingKey),
    }
}

/// The whole number at a key, or a default, which has to be in the range too.
pub(crate) fn number_or(
    table: &Table,
    key: &str,
    least: u64,
    most: u64,
    default: u64,
) -> Result<u64, ConfigFault>
    ensures value { IfOk result (IsNumberOr default (get_member key.now (table_view table.now))) }
    ensures range { IfOk result (IsFrom least most) }
    ensures fault { result_err result ≡ optional_fault (whole default) (is_number (is_from least most)) (get_member key.now (table_view table.now)) }
{
    match value_at(table, key) {
        Some(value) => in_range(value, least, most),
        None if least <= default && default <= most => Ok(default),
        None => Err(ConfigFault::OutOfRange),
    }
}

pub(crate) fn sector_size(table: &Table) -> Result<u32, ConfigFault>
    ensures value { IfOk result (IsNumber (get_member (codes "sector_size") (table_view table.now))) }
    ensures sizes { IfOk result (λ size. (size ≡ 512) ⊎ (size ≡ 4096)) }
    ensures fault { result_err result ≡ needed_fault (is_number is_sector_size) (get_member (codes "sector_size") (table_view table.now)) }
{
    match number(table, "sector_size", 512, 4096)? {
        size @ (512 | 4096) => Ok(size as u32),
        _ => Err(ConfigFault::OutOfRange),
    }
}

pub(crate) fn write_protected(table: &Table) -> Result<bool, ConfigFault>
    ensures value { IfOk result (IsTruthOrFalse (get_member (codes "write_protected") (table_view table.now))) }
    ensures fault { result_err result ≡ optional_fault (boolean false) is_truth (get_member (codes "write_protected") (table_view table.now)) }
{
    match value_at(table, "write_protected") {
        Some(Value::Boolean(protected)) => Ok(*protected),
        Some(_) => Err(ConfigFault::OutOfRange),
        None => Ok(false),
    }
}

/// The sectors at `bad_sectors`, each below `sectors`.
pub(crate) fn bad_sectors(
    alloc: Global,
    table: &Table,
    sectors: u64,
) -> Result<Vec<u64>, ConfigFault>
    requires { 0 < sectors }
    ensures value { IfOk result (λ bad. AreNumbers (get_member (codes "bad_sectors") (table_view table.now)) bad.items) }
    ensures range { IfOk result (λ bad. All (λ sector. sector < sectors) bad.items) }
    ensures fault { IsRefusedFor (optional_fault (array no_items) (is_list_of (is_number (is_from 0 (sectors - 1))))
        (get_member (codes "bad_sectors") (table_view table.now))) result }
{
    match list_at(table, "bad_sectors")? {
        Some(items) => sectors_of(alloc, items, sectors),
        None => Ok(Vec::new(alloc)),
    }
}

fn sectors_of(alloc: Global, items: &[Value], sectors: u64) -> Result<Vec<u64>, ConfigFault>
    requires { 0 < sectors }
    ensures value { IfOk result (λ bad. map view items.now ≡ map whole bad.items) }
    ensures range { IfOk result (λ bad. All (λ sector. sector < sectors) bad.items) }
    ensures fault { IsRefusedFor (unless (list_all (λ item. is_number (is_from 0 (sectors - 1)) (view item)) items.now) OutOfRange) result }
{
    let mut bad = Vec::new(alloc);
    for item in items {
        let sector = in_range(item, 0, sectors - 1)?;
        bad.push(sector).map_err(|_| ConfigFault::NoMemory)?;
    }
    Ok(bad)
}

/// The partitions, in the order of the document.
pub(crate) fn partitions(alloc: Global, table: &Table) -> Result<Vec<Partition>, ConfigFault>
    ensures value { IfOk result (λ found. ArePartitions (get_member (codes "partition") (table_view table.now)) found.items) }
    ensures fault { IsRefusedFor (first_some (partition_faults (get_member (codes "partition") (table_view table.now)))) result }
{
    match list_at(table, "partition")? {
        Some(items) => partitions_of(alloc, items),
        None => Ok(Vec::new(alloc)),
    }
}

fn partitions_of(alloc: Global, items: &[Value]) -> Result<Vec<Partition>, ConfigFault>
    ensures value { IfOk result (λ found. AllZip GivesPartition (map view items.now) found.items) }
    ensures fault { IsRefusedFor (first_some (map (λ item. partition_fault (view item)) items.now)) result }
{
    let mut partitions = Vec::new(alloc);
    for item in items {
        let partition = partition(item)?;
        partitions
            .push(partition)
            .map_err(|_| ConfigFault::NoMemory)?;
    }
    Ok(partitions)
}

fn partition(item: &Value) -> Result<Partition, ConfigFault>
    ensures value { IfOk result (GivesPartition (view item.now)) }
    ensures fault { result_err result ≡ partition_fault (view item.now) }
{
    match item {
        Value::Table(table) => partition_of(table),
        _ => Err(ConfigFault::OutOfRange),
    }
}

fn partition_of(settings: &Table) -> Result<Partition, ConfigFault>
    ensures value { IfOk result (IsPartition (table_view settings.now)) }
    ensures fault { result_err result ≡ partition_fault (table (table_view settings.now)) }
{
    let first = number(settings, "first", 0, MOST)?;
    let count = number(settings, "count", 0, MOST)?;
    let kind = number_or(settings, "type", 1, 255, 7)?;
    Ok(Partition {
        kind: kind as u8,
        first: first as u32,
        count: count as u32,
    })
}
