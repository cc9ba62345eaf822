//! The adapter of settings, over a sparse disk in memory.

ghost use Rattle.std.specs.Prelude.{◌≡◌, ◌≤◌, ◌-◌, ◌++◌, ℕ, [], All, IfOk, IsTrue, filter, get_or, length, map, replicate};
ghost use Rattle.disk.specs.Medium.{HasWholeSectors};
ghost use Rattle.disk.specs.SparseDisk.{shown};
ghost use Rattle.mbr.specs.Table.{FitsEntry, partitions_of};
ghost use Rattle.mbr.specs.Faults.{said_of, told_by};
ghost use Rattle.settings.specs.InRange.{AreInRange};
ghost use Rattle.settings.specs.Rules.{fails};
ghost use Rattle.settings.specs.Medium.{HasBlankPartitions, IsNewAdapter, IsNewDisk, entries_of, entry_of, extents_of, table_sector};

use crate::rules::failing;
use crate::{Config, Partition};
use arrayvec::ArrayVec;
use disk::{Medium, NoMemory, SparseDisk};
use miniport::{MemAdapter, PlannedAdapter};
use sector::Extent;
use std::alloc::{AllocError, Global};

/// The adapter of the settings, of which nothing was asked yet, over a disk of zeros with their partition table in sector 0.
/// Commands fail by those rules of the settings that fail some; the others are for [`slowing`](crate::slowing).
/// No fault of a partition is looked for: the table says what is wrong with it. With `keeps_bytes` its labels keep their
/// bytes in memory; without, contracts alone read these.
///
/// # Errors
///
/// [`NoMemory`] where memory was refused.
pub fn new_adapter(
    alloc: Global,
    config: Config,
    keeps_bytes: bool,
) -> Result<PlannedAdapter<SparseDisk>, NoMemory>
    requires { AreInRange config }
    ensures new { IfOk result (λ adapter. IsNewAdapter config adapter.inner) }
    ensures rules { IfOk result (λ adapter. adapter.rules ≡ filter fails config.faults.items) }
    ensures keeps { IfOk result (λ adapter. adapter.inner.shown.keeps_bytes ≡ keeps_bytes) }
    ensures says { IfOk result (λ adapter. told_by config.sectors (get_or adapter.inner.shown.sectors 0 []) ≡ said_of config.sectors (entries_of config)) }
    ensures extents { partitions_of (entries_of config) ≡ extents_of config }
    ensures blank { IfOk result (λ adapter. HasBlankPartitions config adapter.inner.shown.sectors) }
{
    let rules = failing(alloc, config.faults.as_slice())?;
    let max_transfer = config.max_transfer;
    let depth = config.depth;
    let write_protected = config.write_protected;
    let disk = new_disk(alloc, config)?;
    let adapter = MemAdapter::new(alloc, disk, max_transfer, depth, write_protected)?;
    let kept = keeping(adapter, keeps_bytes);
    let planned = PlannedAdapter::new(kept, rules);
    Ok(planned)
}

/// The same adapter, whose labels keep their bytes in memory or not.
fn keeping<M: Medium>(adapter: MemAdapter<M>, keeps_bytes: bool) -> MemAdapter<M>
    requires kept { IsTrue adapter.shown.keeps_bytes }
    requires quiet { adapter.shown.labels ≡ [] }
    ensures { result ≡ record adapter { shown = record adapter.shown { keeps_bytes = keeps_bytes } } }
{
    if keeps_bytes {
        adapter
    } else {
        adapter.noting()
    }
}

/// The disk of the settings: their partition table in sector 0, and zeros. No fault of a partition is looked for: the table
/// says what is wrong with it.
///
/// # Errors
///
/// [`NoMemory`] where memory was refused.
pub fn new_disk(alloc: Global, config: Config) -> Result<SparseDisk, NoMemory>
    requires { AreInRange config }
    ensures new { IfOk result (λ disk. IsNewDisk config (shown disk)) }
    ensures says { IfOk result (λ disk. (sectors : ℕ) → told_by sectors (get_or (shown disk).sectors 0 []) ≡ said_of sectors (entries_of config)) }
    ensures count { IfOk result (λ disk. length (shown disk).sectors ≡ config.sectors) }
    ensures extents { partitions_of (entries_of config) ≡ extents_of config }
    ensures blank { IfOk result (λ disk. HasBlankPartitions config (shown disk).sectors) }
{
    let first = table_sector(alloc, &config)?;
    let disk = SparseDisk::starting_with(
        alloc,
        config.sector_size,
        config.sectors,
        first.as_slice(),
        config.bad_sectors,
    )?;
    has_whole_sectors(&disk);
    Ok(disk)
}

/// Shows the caller that the sectors of a medium are whole.
fn has_whole_sectors<M: Medium>(_medium: &M)
    ensures { HasWholeSectors (M.view _medium.now) }
{}

/// Sector 0 of the disk of the settings: their partition table, and zeros behind it. No fault of a partition is looked
/// for: the table says what is wrong with it.
///
/// # Errors
///
/// [`AllocError`] where memory was refused.
pub fn table_sector(alloc: Global, config: &Config) -> Result<Vec<u8>, AllocError>
    requires { AreInRange config.now }
    ensures bytes { IfOk result (λ sector. sector.items ≡ table_sector config.now) }
    ensures whole { IfOk result (λ sector. length sector.items ≡ config.now.sector_size) }
    ensures says { IfOk result (λ sector. (sectors : ℕ) → told_by sectors sector.items ≡ said_of sectors (entries_of config.now)) }
{
    let entries = entries(config.partitions.as_slice());
    let table = mbr::render(entries.as_slice());
    let sector = padded(alloc, table.as_slice(), config.sector_size as usize)?;
    Ok(sector)
}

/// Some bytes, and zeros behind them, this many in all.
fn padded(alloc: Global, bytes: &[u8], total: usize) -> Result<Vec<u8>, AllocError>
    requires { length bytes.now ≤ total }
    ensures { IfOk result (λ padded. padded.items ≡ bytes.now ++ replicate (total - length bytes.now) 0) }
{
    let mut padded = Vec::with_capacity(alloc, total)?;
    padded.extend_from_slice(bytes)?;
    padded.resize(total, 0)?;
    Ok(padded)
}

/// The entries of partitions, in order.
fn entries(partitions: &[Partition]) -> ArrayVec<(u8, Extent), 4>
    requires { length partitions.now ≤ 4 }
    ensures all { result.items ≡ map entry_of partitions.now }
    ensures fit { All FitsEntry result.items }
{
    let mut entries = ArrayVec::new();
    for partition in partitions {
        entries.push(entry(*partition));
    }
    entries
}

/// The entry of a partition.
fn entry(partition: Partition) -> (u8, Extent)
    ensures entry { result ≡ entry_of partition }
    ensures fits { FitsEntry result }
{
    let extent = Extent {
        first: partition.first as u64,
        count: partition.count as u64,
    };
    (partition.kind, extent)
}
