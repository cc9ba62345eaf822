//! The machine that settings describe, before its first label.

ghost use Rattle.std.specs.Prelude.{◌≡◌, ◌∷◌, [], IfErr, IfOk, OnOk, map, replicate};
ghost use Rattle.machine.specs.Map.{IsMap};
ghost use Rattle.settings.specs.InRange.{AreInRange};
ghost use Rattle.judge.specs.Views.{rules_of};
ghost use Rattle.settings.specs.Medium.{extent_of, extents_of, zeros};
ghost use Rattle.judging.specs.Checked.{arrays_of, depth_by, extents_by, open_by, rules_by};
ghost use Rattle.judging.specs.Standards.{IsStandard, IsStandardFault, IsTableFault};

use crate::Error;
use compose::{LAST_BUSY_RETURN, LONGEST_REQUEST, StartFault};
use judge::{MachineRules, Sectors};
use judge_words::asked::Asked;
use sector::{Bytes, Extent};
use settings::{Config, Partition, table_sector};
use startup::read_settings;
use std::alloc::{AllocError, Global};
use std::io::Read;

/// What a trace is judged by.
#[derive(Drop)]
pub struct Standard {
    /// The settings of a machine.
    pub config: Config,
    pub asked: Asked,
}

/// Reads the settings by which a trace is judged, and looks at their partitions as a start does.
///
/// # Errors
///
/// [`Error::Startup`]: the settings can't be read, or are refused; or what is wrong with their partitions.
/// [`Error::NoMemory`].
pub fn read_standard<C: Read + Drop>(
    alloc: Global,
    config: C,
    asked: Asked,
) -> Result<Standard, Error>
    ensures read { IfOk result (IsStandard asked (C.remaining config)) }
    ensures fault { IfErr result (IsStandardFault (C.remaining config)) }
{
    let config = read_settings(alloc, config)?;
    check_table(alloc, &config)?;
    Ok(Standard { config, asked })
}

/// Looks at the partition table of the settings' disk.
fn check_table(alloc: Global, config: &Config) -> Result<(), Error>
    requires { AreInRange config.now }
    ensures map { OnOk result (IsMap config.now.sectors (extents_of config.now)) }
    ensures fault { IfErr result (IsTableFault config.now) }
{
    let sector = table_sector(alloc, config)?;
    match mbr::parse(sector.as_slice(), config.sectors) {
        Ok(_) => Ok(()),
        Err(fault) => Err(Error::Startup(startup::Error::Start(StartFault::Mbr(fault)))),
    }
}

/// The most tags and open requests, where many will do.
const MOST_TAGS: u32 = 256;

const MOST_OPEN: u64 = 4096;

/// How many tags there are.
fn depth_by(config: &Config, asked: Asked) -> u32
    ensures { result ≡ depth_by config.now asked }
{
    if asked.many {
        return MOST_TAGS;
    }
    config.depth as u32
}

/// How many requests may be open.
fn open_by(config: &Config, asked: Asked) -> u64
    ensures { result ≡ open_by config.now asked }
{
    if asked.many {
        return MOST_OPEN;
    }
    config.open_requests as u64
}

/// The rules that a trace is judged by: those of the stack that the settings start, but for what is asked.
pub(crate) fn rules_of(alloc: Global, standard: &Standard) -> Result<MachineRules, AllocError>
    ensures { IfOk result (λ rules. rules_of rules ≡ rules_by standard.now) }
{
    let Standard { config, asked } = standard;
    Ok(MachineRules {
        sector_size: config.sector_size,
        disk_sectors: config.sectors,
        partitions: extents_by(alloc, standard)?,
        longest: LONGEST_REQUEST as u64,
        max_transfer: config.max_transfer as u64,
        depth: depth_by(config, *asked),
        open_requests: Some(open_by(config, *asked)),
        window: Some(config.window as u64),
        one_piece: false,
        busy_limit: LAST_BUSY_RETURN as u64,
        any_cut: asked.any_cut,
        faithful: !(asked.any_read || asked.gaps),
    })
}

/// The sectors of each partition that a trace is judged by.
pub(crate) fn extents_by(alloc: Global, standard: &Standard) -> Result<Vec<Extent>, AllocError>
    ensures { IfOk result (λ extents. extents.items ≡ extents_by standard.now) }
{
    let Standard { config, asked } = standard;
    if asked.whole_disk {
        return whole_disk(alloc, config.sectors);
    }
    extents(alloc, config.partitions.as_slice())
}

/// One partition that is a whole disk of so many sectors.
pub(crate) fn whole_disk(alloc: Global, count: u64) -> Result<Vec<Extent>, AllocError>
    ensures { IfOk result (λ extents. extents.items ≡ record { first = 0; count = count } ∷ []) }
{
    let mut extents = Vec::new(alloc);
    let Ok(()) = extents.push(Extent { first: 0, count }) else {
        return Err(AllocError);
    };
    Ok(extents)
}

/// The sectors of each partition.
pub(crate) fn extents(alloc: Global, partitions: &[Partition]) -> Result<Vec<Extent>, AllocError>
    ensures { IfOk result (λ extents. extents.items ≡ map extent_of partitions.now) }
{
    let mut extents = Vec::new(alloc);
    for partition in partitions {
        let Ok(()) = extents.push(extent_of(partition)) else {
            return Err(AllocError);
        };
    }
    Ok(extents)
}

fn extent_of(partition: &Partition) -> Extent
    ensures { result ≡ extent_of partition.now }
{
    Extent {
        first: partition.first as u64,
        count: partition.count as u64,
    }
}

/// The sectors of all partitions before the first label: zeros.
pub(crate) fn arrays_of(alloc: Global, standard: &Standard) -> Result<Vec<Sectors>, AllocError>
    ensures { IfOk result (λ arrays. arrays.items ≡ arrays_of standard.now) }
{
    let extents = extents_by(alloc, standard)?;
    arrays(alloc, &standard.config, extents.as_slice())
}

fn arrays(alloc: Global, config: &Config, extents: &[Extent]) -> Result<Vec<Sectors>, AllocError>
    ensures { IfOk result (λ arrays. arrays.items ≡ map (λ extent. zeros config.now extent.count) extents.now) }
{
    let mut arrays = Vec::new(alloc);
    for extent in extents {
        let sectors = zeros(alloc, config, extent.count)?;
        let Ok(()) = arrays.push(sectors) else {
            return Err(AllocError);
        };
    }
    Ok(arrays)
}

/// Makes this many sectors of zeros.
pub(crate) fn zeros(alloc: Global, config: &Config, count: u64) -> Result<Sectors, AllocError>
    ensures { IfOk result (λ sectors. sectors ≡ zeros config.now count) }
{
    let sector = zero_sector(alloc, config.sector_size)?;
    Ok(Sectors::filled(alloc, count, sector))
}

pub(crate) fn zero_sector(alloc: Global, size: u32) -> Result<Bytes, AllocError>
    ensures { IfOk result (λ sector. sector ≡ replicate size 0) }
{
    let bytes = vec![in alloc; 0; size as usize]?;
    Ok(Bytes::new(bytes))
}
