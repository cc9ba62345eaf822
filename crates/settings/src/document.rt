//! The settings that a document gives.

ghost use Rattle.std.specs.Prelude.{IfOk};
ghost use Rattle.toml.specs.View.{table_view};
ghost use Rattle.settings.specs.Settings.{AreSettings, AreSettingsOf};
ghost use Rattle.settings.specs.InRange.{AreInRange};
ghost use Rattle.ntstatus.specs.First.{first_some};
ghost use Rattle.settings.specs.Faults.{setting_faults, text_fault, IsRefusedFor};

use crate::{Config, ConfigFault, planned, table};
use std::alloc::Global;
use toml::Table;

/// Reads the settings of a TOML document.
///
/// # Errors
///
/// The first of these that fits: [`ConfigFault::NotToml`]; [`ConfigFault::UnknownKey`], at the top, in a rule or in a
/// partition; [`ConfigFault::TooManyPartitions`]; then key by key, in the order of [`Config`], in a rule `kind`, `every`,
/// `times`, `first`, `count`, `ms`, and in a partition `first`, `count`, `type`, [`ConfigFault::MissingKey`] or
/// [`ConfigFault::OutOfRange`], which a value of another kind is too, and `ms` in a rule that is no delay.
/// [`ConfigFault::NoMemory`] in place of any of them, where memory was refused.
pub fn config(alloc: Global, text: &str) -> Result<Config, ConfigFault>
    ensures settings { IfOk result (AreSettingsOf text.now) }
    ensures in_range { IfOk result AreInRange }
    ensures fault { IsRefusedFor (text_fault text.now) result }
{
    match toml::table_from_str(alloc, text) {
        Ok(table) => of_table(alloc, &table),
        Err(error) if error.is_memory() => Err(ConfigFault::NoMemory),
        Err(_) => Err(ConfigFault::NotToml),
    }
}

/// The settings of a table.
fn of_table(alloc: Global, table: &Table) -> Result<Config, ConfigFault>
    ensures settings { IfOk result (AreSettings (table_view table.now)) }
    ensures in_range { IfOk result AreInRange }
    ensures fault { IsRefusedFor (first_some (setting_faults (table_view table.now))) result }
{
    if !table::has_known_keys(table) {
        return Err(ConfigFault::UnknownKey);
    }
    if !table::has_few_partitions(table) {
        return Err(ConfigFault::TooManyPartitions);
    }
    let sector_size = table::sector_size(table)?;
    let sectors = table::number(table, "sectors", 1, 1_099_511_627_776)?;
    let max_transfer = table::number(table, "max_transfer", 1, 65_536)?;
    let depth = table::number(table, "depth", 1, 32)?;
    let window = table::number(table, "window", 1, 64)?;
    let open_requests = table::number_or(table, "open_requests", 1, 64, 64)?;
    let write_protected = table::write_protected(table)?;
    let bad_sectors = table::bad_sectors(alloc, table, sectors)?;
    let faults = planned::fault_rules(alloc, table)?;
    let partitions = table::partitions(alloc, table)?;
    Ok(Config {
        sector_size,
        sectors,
        max_transfer: max_transfer as u32,
        depth: depth as u8,
        window: window as u32,
        open_requests: open_requests as u32,
        write_protected,
        bad_sectors,
        faults,
        partitions,
    })
}
