//! A disk in memory as C tells it, and what opens over it.

ghost use Rattle.std.specs.Prelude.{◌≡◌, ◌≢◌, ◌≤◌, ◌↔◌, nat_lt, All, IfErr, IfOk, IsTrue, map};
ghost use Rattle.std.specs.List.{list_all};
ghost use Rattle.ntstatus.specs.declared.NtStatus.TheVariants.{Success};
ghost use Rattle.settings.specs.InRange.{AreInRange};
ghost use Rattle.saddlemug.specs.InMemory.{AreTold, IsDisk, IsDiskStatus, IsInRange, IsToldStack, IsToldStackStatus, IsToldVolume, IsToldVolumeStatus, is_used, partition_of, told};

use crate::memory_stack::MemoryStack;
use crate::memory_volume::MemoryVolume;
use crate::opening::{stack_of, volume_of};
use ntstatus::NtStatus;
use settings::{Config, Partition};
use std::alloc::{AllocError, Global};

/// A partition of a disk in memory.
#[repr(C)]
#[derive(Clone, Copy)]
pub struct MemoryPartition {
    /// Its first sector.
    pub first: u32,
    /// The number of its sectors.
    pub count: u32,
    /// The type byte of its entry in the partition table, 1 to 255.
    pub kind: u8,
}

/// A disk in memory, its adapter and its stack.
#[repr(C)]
#[derive(Clone, Copy)]
pub struct MemoryDisk {
    /// The number of sectors, 1 to 2^40.
    pub sectors: u64,
    /// The bytes of a sector, 512 or 4096.
    pub sector_size: u32,
    /// How many sectors the longest command has, 1 to 65,536.
    pub max_transfer: u32,
    /// The number of tags, 1 to 32.
    pub depth: u32,
    /// How many requests may be at work at once, 1 to 64.
    pub window: u32,
    /// How many requests may be open at once, 1 to 64.
    pub open_requests: u32,
    /// How many partitions there are, at most four.
    pub partition_count: u32,
    pub partitions: [MemoryPartition; 4],
    pub write_protected: bool,
}

impl MemoryDisk {
    /// Whether each number is in its range.
    fn is_in_range(&self) -> bool
        ensures { IsTrue result ↔ IsInRange self.now }
    {
        (self.sector_size == 512 || self.sector_size == 4096)
            && (1 <= self.sectors && self.sectors <= 1 << 40)
            && (1 <= self.max_transfer && self.max_transfer <= 65_536)
            && (1 <= self.depth && self.depth <= 32)
            && (1 <= self.window && self.window <= 64)
            && (1 <= self.open_requests && self.open_requests <= 64)
            && self.partition_count <= 4
    }

    /// The partitions that are told.
    fn told(&self) -> &[MemoryPartition]
        requires { self.now.partition_count ≤ 4 }
        ensures { result.now ≡ told self.now }
    {
        &self.partitions[..self.partition_count as usize]
    }

    /// Whether there is such a disk, with these bad sectors.
    fn is_disk(&self, bad: &[u64]) -> bool
        ensures { IsTrue result ↔ IsDisk self.now bad.now }
    {
        self.is_in_range() && are_below(bad, self.sectors) && are_used(self.told())
    }
}

fn are_below(sectors: &[u64], count: u64) -> bool
    ensures { result ≡ list_all (λ sector. nat_lt sector count) sectors.now }
{
    sectors.iter().all(|sector| *sector < count)
}

fn are_used(partitions: &[MemoryPartition]) -> bool
    ensures { result ≡ list_all is_used partitions.now }
{
    partitions.iter().all(|partition| 1 <= partition.kind)
}

/// Opens a partition, counted from 0, of a disk of zeros but for its partition table.
///
/// # Errors
///
/// As [`config_of`] and [`volume_of`] say.
pub(crate) fn told_volume(
    alloc: Global,
    disk: &MemoryDisk,
    bad: &[u64],
    partition: u8,
) -> Result<MemoryVolume, NtStatus>
    ensures volume { IfOk result (IsToldVolume disk.now bad.now partition) }
    ensures fault { IfErr result (λ status. status ≢ Success) }
    ensures why { IfErr result (IsToldVolumeStatus disk.now bad.now partition) }
{
    let config = config_of(alloc, disk, bad)?;
    volume_of(alloc, config, partition)
}

/// Starts a stack over such a disk.
///
/// # Errors
///
/// As [`config_of`] and [`stack_of`] say.
pub(crate) fn told_stack(
    alloc: Global,
    disk: &MemoryDisk,
    bad: &[u64],
) -> Result<MemoryStack, NtStatus>
    ensures stack { IfOk result (IsToldStack disk.now bad.now) }
    ensures fault { IfErr result (λ status. status ≢ Success) }
    ensures why { IfErr result (IsToldStackStatus disk.now bad.now) }
{
    let config = config_of(alloc, disk, bad)?;
    stack_of(alloc, config)
}

/// The settings of a disk with these bad sectors.
///
/// # Errors
///
/// [`NtStatus::InvalidParameter`] where a number is out of its range; [`NtStatus::InsufficientResources`] where memory
/// was refused.
fn config_of(alloc: Global, disk: &MemoryDisk, bad: &[u64]) -> Result<Config, NtStatus>
    ensures settings { IfOk result (AreTold disk.now bad.now) }
    ensures in_range { IfOk result AreInRange }
    ensures fault { IfErr result (λ status. status ≢ Success) }
    ensures why { IfErr result (IsDiskStatus disk.now bad.now) }
{
    if !disk.is_disk(bad) {
        return Err(NtStatus::InvalidParameter);
    }
    match filled(alloc, disk, bad) {
        Ok(config) => Ok(config),
        Err(_) => Err(NtStatus::InsufficientResources),
    }
}

/// The settings of a disk whose numbers are in their ranges.
///
/// # Errors
///
/// [`AllocError`] where memory was refused.
fn filled(alloc: Global, disk: &MemoryDisk, bad: &[u64]) -> Result<Config, AllocError>
    requires { IsDisk disk.now bad.now }
    ensures settings { IfOk result (AreTold disk.now bad.now) }
    ensures in_range { IfOk result AreInRange }
{
    let bad_sectors = Vec::from_slice(alloc, bad)?;
    let partitions = partitions_of(alloc, disk.told())?;
    Ok(Config {
        sector_size: disk.sector_size,
        sectors: disk.sectors,
        max_transfer: disk.max_transfer,
        depth: disk.depth as u8,
        window: disk.window,
        open_requests: disk.open_requests,
        write_protected: disk.write_protected,
        bad_sectors,
        faults: Vec::new(alloc),
        partitions,
    })
}

fn partitions_of(alloc: Global, told: &[MemoryPartition]) -> Result<Vec<Partition>, AllocError>
    ensures all { IfOk result (λ partitions. partitions.items ≡ map partition_of told.now) }
    ensures bytes { IfOk result (λ partitions. All (λ p. p.kind ≤ 255) partitions.items) }
{
    let mut partitions = Vec::new(alloc);
    for partition in told {
        partitions.push(partition_of(*partition))?;
    }
    Ok(partitions)
}

fn partition_of(partition: MemoryPartition) -> Partition
    ensures partition { result ≡ partition_of partition }
    ensures byte { result.kind ≤ 255 }
{
    Partition {
        kind: partition.kind,
        first: partition.first,
        count: partition.count,
    }
}
