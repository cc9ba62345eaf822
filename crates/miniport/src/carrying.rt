//! Commands carried out on a medium.

ghost use Rattle.std.specs.Prelude.{MatchResult, min, take, replicate, ◌+◌, ◌≡◌, ◌≤◌, ◌<◌, ◌^◌, ◌-◌, ◌*◌, ◌++◌, ◌⊎◌, [], ℕ, List, Bool, length, All, Some, Ok};
ghost use Rattle.byteorder.specs.Endian.{big_bytes};
ghost use Rattle.cdb.specs.declared.Cdb.{Cdb};
ghost use Rattle.cdb.specs.declared.Cdb.TheVariants.{Read10, Write10, ReadCapacity10};
ghost use Rattle.cdb.specs.Meaning.{Means};
ghost use Rattle.adapter.specs.Performing.{capacity_data};
ghost use Rattle.disk.specs.Medium.{IsWithin, IsReserved, HasBad, bytes_at, failed};
ghost use Rattle.miniport.specs.Checking.{Passes, IsRefused};
ghost use Rattle.miniport.specs.Carrying.{with_data, disk_of, sizes_of, IsReady, Ends, Reads, Writes};

use crate::check::{Sizes, check};
use crate::completion::{MEDIUM_ERROR, failed_with};
use byteorder::{BigEndian, ByteOrder};
use cdb::Cdb;
use disk::Medium;
use sector::{Bytes, Extent};
use srb::{Completion, Srb};

/// What became of a command.
#[derive(Debug, Drop)]
pub enum Outcome {
    /// The command was carried out; its data were read or written.
    Moved { srb: Srb },
    Failed { srb: Srb, completion: Completion },
}

/// The SRB whose data were moved.
fn moved(srb: Srb) -> Outcome
    ensures { result ≡ Outcome.Moved srb }
{
    Outcome::Moved { srb }
}

/// Reads sectors into the SRB's data.
fn read<M: Medium>(medium: &mut M, lba: u64, count: u32, srb: Srb) -> Outcome
    requires within { lba + count ≤ length (M.view medium.old).sectors }
    requires long { length srb.data ≡ count * (M.view medium.old).sector_size }
    requires countable { (M.view medium.old).failures < 2 ^ 120 }
    ensures { Reads (M.view medium.old) (record { first = lba; count = count }) srb result (M.view medium.new) }
{
    let mut bytes = srb.data.into_vec();
    let read = medium.read(extent(lba, count), bytes.as_mut_slice());
    let srb = Srb {
        data: Bytes::new(bytes),
        ..srb
    };
    if read.is_err() {
        return Outcome::Failed {
            srb,
            completion: failed_with(MEDIUM_ERROR, 0x11),
        };
    }
    moved(srb)
}

/// Writes the SRB's data over sectors.
fn write<M: Medium>(medium: &mut M, lba: u64, count: u32, srb: Srb) -> Outcome
    requires within { lba + count ≤ length (M.view medium.old).sectors }
    requires reserved { IsReserved (M.view medium.old) (record { first = lba; count = count }) }
    requires long { length srb.data ≡ count * (M.view medium.old).sector_size }
    requires countable { (M.view medium.old).failures < 2 ^ 120 }
    ensures { Writes (M.view medium.old) (record { first = lba; count = count }) srb result (M.view medium.new) }
{
    match medium.write(extent(lba, count), srb.data.as_slice()) {
        Ok(()) => moved(srb),
        Err(_) => Outcome::Failed {
            srb,
            completion: failed_with(MEDIUM_ERROR, 0x0C),
        },
    }
}

/// The address of the last block as READ CAPACITY(10) gives it: FFFFFFFFh where it is that or more.
pub(crate) fn last_told(sectors: u64) -> u32
    requires { 1 ≤ sectors }
    ensures { result ≡ min (sectors - 1) (2 ^ 32 - 1) }
{
    (sectors - 1).min(0xFFFF_FFFF) as u32
}

/// Puts the address of the last block and the block length into the SRB's data (SBC: READ CAPACITY(10)).
pub(crate) fn tell_capacity(last: u32, sector_size: u32, srb: Srb) -> Outcome
    requires long { length srb.data ≡ 8 }
    ensures { let bytes = big_bytes 4 last ++ big_bytes 4 sector_size in result ≡ Outcome.Moved (with_data bytes srb) }
{
    let mut bytes = srb.data.into_vec();
    BigEndian::write_u32(bytes.as_mut_slice(), last);
    BigEndian::write_u32(&mut bytes.as_mut_slice()[4..], sector_size);
    moved(Srb {
        data: Bytes::new(bytes),
        ..srb
    })
}

/// Puts bytes over others, cut where the others end; what stands behind them becomes 0.
fn put_cut(bytes: &mut [u8], told: &[u8])
    ensures { bytes.new ≡ take (length bytes.old) (told.now ++ replicate (length bytes.old) 0) }
{
    let count = bytes.len().min(told.len());
    bytes.fill(0);
    bytes[..count].copy_from_slice(&told[..count]);
}

/// Returns the first bytes of the data of READ CAPACITY(16): the address of the last block, and the block length.
pub(crate) fn long_capacity(last: u64, sector_size: u32) -> [u8; 12]
    ensures { result ≡ big_bytes 8 last ++ big_bytes 4 sector_size }
{
    let mut told = [0; 12];
    BigEndian::write_u64(&mut told, last);
    BigEndian::write_u32(&mut told[8..], sector_size);
    told
}

/// Puts these bytes over those of the place, cut where the place ends; what stands behind them becomes 0.
fn put_over(told: &[u8], place: Bytes) -> Bytes
    ensures { result ≡ take (length place) (told.now ++ replicate (length place) 0) }
{
    let mut bytes = place.into_vec();
    put_cut(bytes.as_mut_slice(), told);
    Bytes::new(bytes)
}

/// Puts the data of READ CAPACITY(16) into the SRB's data, as far as these have room.
fn tell_long_capacity(last: u64, sector_size: u32, srb: Srb) -> Outcome
    ensures { let bytes = take (length srb.data) (big_bytes 8 last ++ big_bytes 4 sector_size ++ replicate (length srb.data) 0) in result ≡ Outcome.Moved (with_data bytes srb) }
{
    let told = long_capacity(last, sector_size);
    let data = put_over(&told, srb.data);
    moved(Srb { data, ..srb })
}

fn extent(lba: u64, count: u32) -> Extent
    ensures { result ≡ record { first = lba; count = count } }
{
    Extent {
        first: lba,
        count: count as u64,
    }
}

/// The command that an SRB asks of a medium, or the completion with which it fails whatever sectors are bad.
pub fn check_on<M: Medium>(medium: &M, write_protected: bool, srb: &Srb) -> Result<Cdb, Completion>
    ensures { let sizes = sizes_of (M.view medium.now) write_protected in MatchResult result (Passes sizes srb.now) (IsRefused sizes srb.now) }
{
    let sizes = Sizes {
        sector_size: medium.sector_size(),
        sectors: medium.sectors(),
        write_protected,
    };
    check(&sizes, srb)
}

/// Carries out a command that only a bad sector can fail.
fn perform<M: Medium>(medium: &mut M, command: Cdb, srb: Srb) -> Outcome
    requires passes { (write_protected : Bool) × Passes (sizes_of (M.view medium.old) write_protected) srb command }
    requires ready { IsReady (M.view medium.old) srb }
    requires countable { (M.view medium.old).failures < 2 ^ 120 }
    requires some { 1 ≤ length (M.view medium.old).sectors }
    ensures { (write_protected : Bool) → Passes (sizes_of (M.view medium.old) write_protected) srb command → Ends (M.view medium.old) write_protected srb result (M.view medium.new) }
{
    match command {
        Cdb::Read10 { lba, count, .. } => read(medium, lba as u64, count as u32, srb),
        Cdb::Write10 { lba, count, .. } => write(medium, lba as u64, count as u32, srb),
        Cdb::Read16 { lba, count, .. } => read(medium, lba, count, srb),
        Cdb::Write16 { lba, count, .. } => write(medium, lba, count, srb),
        Cdb::Sync10 { .. } => moved(srb),
        Cdb::Sync16 { .. } => moved(srb),
        Cdb::ReadCapacity10 => {
            let last = last_told(medium.sectors());
            tell_capacity(last, medium.sector_size(), srb)
        }
        Cdb::ReadCapacity16 { .. } => {
            let last = medium.sectors() - 1;
            tell_long_capacity(last, medium.sector_size(), srb)
        }
    }
}

/// Carries out the command of an SRB on a medium, or fails it by the first row of the table that fits. The medium has a
/// sector, and a write within it its extent reserved.
pub fn carry_out<M: Medium>(medium: &mut M, write_protected: bool, srb: Srb) -> Outcome
    requires ready { IsReady (M.view medium.old) srb }
    requires countable { (M.view medium.old).failures < 2 ^ 120 }
    requires some { 1 ≤ length (M.view medium.old).sectors }
    ensures { Ends (M.view medium.old) write_protected srb result (M.view medium.new) }
{
    match check_on(medium, write_protected, &srb) {
        Ok(command) => perform(medium, command, srb),
        Err(completion) => Outcome::Failed { srb, completion },
    }
}
