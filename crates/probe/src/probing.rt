//! The sizes of a disk and its partitions.

ghost use Rattle.std.specs.Prelude.{◌≡◌, ◌<◌, ◌^◌, IfOk, IfErr, OnOk};
ghost use Rattle.srb.specs.declared.Class.TheVariants.{Good};
ghost use Rattle.adapter.specs.View.{IsInOrder};
ghost use Rattle.probe.specs.Exchange.{IsIdle, IsSameDisk, Exchanges};
ghost use Rattle.probe.specs.inside.Capacity.{IsCapacityOf};
ghost use Rattle.probe.specs.Probing.{HasPartitions, IsProbed, IsReadBy, IsTableFault, IsProbeFault, asked_by_probe};
ghost use Rattle.probe.specs.Probing.{table_read};

use crate::capacity::{Capacity, read_capacity};
use crate::exchange::ask;
use crate::{ProbeFault, Probed};
use adapter::Adapter;
use arrayvec::ArrayVec;
use cdb::Cdb;
use mbr::parse;
use sector::Extent;
use std::alloc::Global;

/// Reads the partitions that the table in sector 0 says.
///
/// # Errors
///
/// As [`ask`], and [`ProbeFault::Mbr`] where the table is wrong.
fn read_partitions<A: Adapter>(
    alloc: Global,
    adapter: &mut A,
    capacity: Capacity,
) -> Result<ArrayVec<Extent, 4>, ProbeFault>
    requires idle { IsIdle (A.view adapter.old) }
    requires order { IsInOrder (A.view adapter.old) }
    requires few { (A.view adapter.old).accepted < 2 ^ 100 }
    requires capacity { IsCapacityOf (A.view adapter.old) capacity }
    ensures same { IsSameDisk 1 (A.view adapter.old) (A.view adapter.new) }
    ensures order { IsInOrder (A.view adapter.new) }
    ensures partitions { IfOk result (λ found. HasPartitions (A.view adapter.old) found.items) }
    ensures exchanged { OnOk result (Exchanges (A.view adapter.old) table_read Good (A.view adapter.new)) }
    ensures fault { IfErr result (λ fault. IsTableFault (A.view adapter.old) fault (A.view adapter.new)) }
{
    let sector_zero = Cdb::Read10 {
        lba: 0,
        count: 1,
        fua: false,
    };
    let table = ask(alloc, adapter, &sector_zero, capacity.sector_size as usize)?;
    match parse(table.as_slice(), capacity.sectors) {
        Ok(partitions) => Ok(partitions),
        Err(fault) => Err(ProbeFault::Mbr(fault)),
    }
}

/// Asks an adapter that has accepted nothing for the sizes of its disk and its partitions. It sends READ CAPACITY(10),
/// where that can't tell the number of sectors READ CAPACITY(16) as well, and READ(10) of sector 0. The labels of these
/// commands are taken.
///
/// # Errors
///
/// [`ProbeFault::Device`] with the status of a command that the adapter failed, [`ProbeFault::Mbr`] where sector 0 was
/// read and its table is wrong, [`ProbeFault::NoMemory`] where memory for a command was refused. No more commands are
/// sent then, and the disk is as it was.
pub fn probe<A: Adapter>(alloc: Global, adapter: &mut A) -> Result<Probed, ProbeFault>
    requires idle { IsIdle (A.view adapter.old) }
    requires unasked { (A.view adapter.old).accepted ≡ 0 }
    ensures probed { IfOk result (IsProbed (A.view adapter.old)) }
    ensures read { OnOk result (IsReadBy (A.view adapter.old) (A.view adapter.new)) }
    ensures same { IsSameDisk (asked_by_probe (A.view adapter.old)) (A.view adapter.old) (A.view adapter.new) }
    ensures order { IsInOrder (A.view adapter.new) }
    ensures fault { IfErr result (λ fault. IsProbeFault (A.view adapter.old) fault (A.view adapter.new)) }
{
    // Each call of an adapter tells that it is in order.
    let _depth = adapter.depth();
    let capacity = read_capacity(alloc, adapter)?;
    let partitions = read_partitions(alloc, adapter, capacity)?;
    Ok(Probed {
        sector_size: capacity.sector_size as u64,
        sectors: capacity.sectors,
        partitions,
    })
}
