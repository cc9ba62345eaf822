//! The machine that settings describe, before its first label.

ghost use Rattle.std.specs.Prelude.{◌≡◌, IfErr, IfOk, OnOk, map, replicate};
ghost use Rattle.machine.specs.Map.{IsMap};
ghost use Rattle.settings.specs.InRange.{AreInRange};
ghost use Rattle.settings.specs.Medium.{extent_of, extents_of, zeros};
ghost use Rattle.startup.specs.Started.{IsStackFault, rules_of};
ghost use Rattle.judge.specs.Views.{rules_of as rules_in};
ghost use Rattle.referee.specs.Opening.{arrays_of};

use compose::{LAST_BUSY_RETURN, LONGEST_REQUEST, StartFault};
use judge::{MachineRules, Sectors};
use sector::{Bytes, Extent};
use settings::{Config, Partition, table_sector};
use std::alloc::{AllocError, Global};

/// Looks at the partition table of the settings' disk, as a start does.
pub(crate) fn check_table(alloc: Global, config: &Config) -> Result<(), StartFault>
    requires { AreInRange config.now }
    ensures map { OnOk result (IsMap config.now.sectors (extents_of config.now)) }
    ensures fault { IfErr result (IsStackFault config.now) }
{
    let Ok(sector) = table_sector(alloc, config) else {
        return Err(StartFault::NoMemory);
    };
    match mbr::parse(sector.as_slice(), config.sectors) {
        Ok(_) => Ok(()),
        Err(fault) => Err(StartFault::Mbr(fault)),
    }
}

/// The rules of the stack that the settings start.
pub(crate) fn rules_of(alloc: Global, config: &Config) -> Result<MachineRules, AllocError>
    ensures { IfOk result (λ rules. rules_in rules ≡ rules_of config.now) }
{
    Ok(MachineRules {
        sector_size: config.sector_size,
        disk_sectors: config.sectors,
        partitions: extents(alloc, config.partitions.as_slice())?,
        longest: LONGEST_REQUEST as u64,
        max_transfer: config.max_transfer as u64,
        depth: config.depth as u32,
        open_requests: Some(config.open_requests as u64),
        window: Some(config.window as u64),
        one_piece: false,
        busy_limit: LAST_BUSY_RETURN as u64,
        any_cut: false,
        faithful: true,
    })
}

/// The sectors of each partition.
fn extents(alloc: Global, partitions: &[Partition]) -> Result<Vec<Extent>, AllocError>
    ensures { IfOk result (λ extents. extents.items ≡ map extent_of partitions.now) }
{
    let mut extents = Vec::new(alloc);
    for partition in partitions {
        let Ok(()) = extents.push(extent_of(partition)) else {
            return Err(AllocError);
        };
    }
    Ok(extents)
}

fn extent_of(partition: &Partition) -> Extent
    ensures { result ≡ extent_of partition.now }
{
    Extent {
        first: partition.first as u64,
        count: partition.count as u64,
    }
}

/// The sectors of all partitions before the first label: zeros. They take no memory until they are written.
pub(crate) fn arrays_of(alloc: Global, config: &Config) -> Result<Vec<Sectors>, AllocError>
    ensures { IfOk result (λ arrays. arrays.items ≡ arrays_of config.now) }
{
    arrays(alloc, config, config.partitions.as_slice())
}

fn arrays(
    alloc: Global,
    config: &Config,
    partitions: &[Partition],
) -> Result<Vec<Sectors>, AllocError>
    ensures { IfOk result (λ arrays. arrays.items ≡ map (λ extent. zeros config.now extent.count) (map extent_of partitions.now)) }
{
    let mut arrays = Vec::new(alloc);
    for partition in partitions {
        let sectors = zeros(alloc, config, partition.count)?;
        let Ok(()) = arrays.push(sectors) else {
            return Err(AllocError);
        };
    }
    Ok(arrays)
}

/// Makes this many sectors of zeros.
fn zeros(alloc: Global, config: &Config, count: u32) -> Result<Sectors, AllocError>
    ensures { IfOk result (λ sectors. sectors ≡ zeros config.now count) }
{
    let sector = zero_sector(alloc, config.sector_size)?;
    Ok(Sectors::filled(alloc, count as u64, sector))
}

fn zero_sector(alloc: Global, size: u32) -> Result<Bytes, AllocError>
    ensures { IfOk result (λ sector. sector ≡ replicate size 0) }
{
    let bytes = vec![in alloc; 0; size as usize]?;
    Ok(Bytes::new(bytes))
}
