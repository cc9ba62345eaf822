//! The sizes of a disk.

ghost use Rattle.std.specs.Prelude.{◌≡◌, ◌<◌, ◌^◌, ◌+◌, ◌≤◌, IfOk, IfErr, OnOk, length, drop};
ghost use Rattle.byteorder.specs.Endian.{big_number};
ghost use Rattle.cdb.specs.declared.Cdb.TheVariants.{ReadCapacity10};
ghost use Rattle.srb.specs.declared.Class.TheVariants.{Good};
ghost use Rattle.adapter.specs.View.{IsInOrder};
ghost use Rattle.probe.specs.Exchange.{IsIdle, IsSameDisk, Exchanges};
ghost use Rattle.probe.specs.inside.Exchange.{IsAskFault};
ghost use Rattle.probe.specs.Capacity.{TellsCapacity, is_long};
ghost use Rattle.probe.specs.inside.Capacity.{IsToldShort, IsCapacityOf, IsCapacityFault};
ghost use Rattle.probe.specs.Capacity.{long_capacity, asked_for_capacity};

use crate::ProbeFault;
use crate::exchange::ask;
use adapter::Adapter;
use byteorder::{BigEndian, ByteOrder};
use cdb::Cdb;
use std::alloc::Global;

/// The most sectors that READ CAPACITY(10) tells; it stands for more too.
const SHORT_LIMIT: u64 = 1 << 32;

/// How many bytes READ CAPACITY(16) is asked for.
const LONG_LENGTH: u32 = 32;

/// What READ CAPACITY tells.
#[derive(Debug, Clone, Copy, PartialEq, Eq)]
pub(crate) struct Capacity {
    pub sectors: u64,
    /// Bytes.
    pub sector_size: u32,
}

/// Reads the number of sectors and the bytes of one from the data of READ CAPACITY(10). They begin with the LBA of the
/// last sector.
fn capacity_of(told: &[u8]) -> Capacity
    requires { 8 ≤ length told.now }
    ensures sectors { result.sectors ≡ big_number 4 told.now + 1 }
    ensures sector_size { result.sector_size ≡ big_number 4 (drop 4 told.now) }
{
    Capacity {
        sectors: BigEndian::read_u32(told) as u64 + 1,
        sector_size: BigEndian::read_u32(&told[4..]),
    }
}

/// Reads the number of sectors and the bytes of one from the data of READ CAPACITY(16). They begin with the LBA of the
/// last sector.
fn long_capacity_of(told: &[u8]) -> Capacity
    requires long { 12 ≤ length told.now }
    requires small { big_number 8 told.now < 2 ^ 40 }
    ensures sectors { result.sectors ≡ big_number 8 told.now + 1 }
    ensures sector_size { result.sector_size ≡ big_number 4 (drop 8 told.now) }
{
    Capacity {
        sectors: BigEndian::read_u64(told) + 1,
        sector_size: BigEndian::read_u32(&told[8..]),
    }
}

/// Returns what READ CAPACITY(10) tells of an adapter's disk.
///
/// # Errors
///
/// As [`ask`].
fn read_short_capacity<A: Adapter>(alloc: Global, adapter: &mut A) -> Result<Capacity, ProbeFault>
    requires idle { IsIdle (A.view adapter.old) }
    requires order { IsInOrder (A.view adapter.old) }
    requires few { (A.view adapter.old).accepted < 2 ^ 100 }
    ensures same { IsSameDisk 1 (A.view adapter.old) (A.view adapter.new) }
    ensures order { IsInOrder (A.view adapter.new) }
    ensures capacity { IfOk result (IsToldShort (A.view adapter.old)) }
    ensures exchanged { OnOk result (Exchanges (A.view adapter.old) ReadCapacity10 Good (A.view adapter.new)) }
    ensures fault { IfErr result (λ fault. IsAskFault ReadCapacity10 (A.view adapter.old) fault (A.view adapter.new)) }
{
    let told = ask(alloc, adapter, &Cdb::ReadCapacity10, 8)?;
    Ok(capacity_of(told.as_slice()))
}

/// Asks an adapter for the sizes of its disk, by READ CAPACITY(16).
///
/// # Errors
///
/// As [`ask`].
fn read_long_capacity<A: Adapter>(alloc: Global, adapter: &mut A) -> Result<Capacity, ProbeFault>
    requires idle { IsIdle (A.view adapter.old) }
    requires order { IsInOrder (A.view adapter.old) }
    requires few { (A.view adapter.old).accepted < 2 ^ 100 }
    ensures same { IsSameDisk 1 (A.view adapter.old) (A.view adapter.new) }
    ensures order { IsInOrder (A.view adapter.new) }
    ensures capacity { IfOk result (IsCapacityOf (A.view adapter.old)) }
    ensures exchanged { OnOk result (Exchanges (A.view adapter.old) long_capacity Good (A.view adapter.new)) }
    ensures fault { IfErr result (λ fault. IsAskFault long_capacity (A.view adapter.old) fault (A.view adapter.new)) }
{
    let command = Cdb::ReadCapacity16 {
        allocation: LONG_LENGTH,
    };
    let told = ask(alloc, adapter, &command, LONG_LENGTH as usize)?;
    Ok(long_capacity_of(told.as_slice()))
}

/// Asks an adapter for the sizes of its disk. It sends READ CAPACITY(10), and READ CAPACITY(16) where the first can't
/// tell the number of sectors.
///
/// # Errors
///
/// As [`ask`].
pub(crate) fn read_capacity<A: Adapter>(
    alloc: Global,
    adapter: &mut A,
) -> Result<Capacity, ProbeFault>
    requires idle { IsIdle (A.view adapter.old) }
    requires order { IsInOrder (A.view adapter.old) }
    requires few { (A.view adapter.old).accepted < 2 ^ 99 }
    ensures same { IsSameDisk (asked_for_capacity (A.view adapter.old)) (A.view adapter.old) (A.view adapter.new) }
    ensures order { IsInOrder (A.view adapter.new) }
    ensures capacity { IfOk result (IsCapacityOf (A.view adapter.old)) }
    ensures tells { OnOk result (TellsCapacity (is_long (A.view adapter.old)) (A.view adapter.old)
        (A.view adapter.new)) }
    ensures fault { IfErr result (λ fault. IsCapacityFault (A.view adapter.old) fault (A.view adapter.new)) }
{
    let short = read_short_capacity(alloc, adapter)?;
    if short.sectors < SHORT_LIMIT {
        return Ok(short);
    }
    let long = read_long_capacity(alloc, adapter)?;
    Ok(long)
}
