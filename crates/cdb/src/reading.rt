//! Blocks as commands.

ghost use Rattle.std.specs.Prelude.{◌≡◌, ◌≢◌, ◌≤◌, ◌<◌, ◌↔◌, Bool, Ok, Err, MatchResult, length, slice_index};
ghost use Rattle.byteorder.specs.Endian.{big_from};
ghost use Rattle.cdb.specs.Meaning.{Means, HasAccess, HasAllocation, protect, service_action};
ghost use Rattle.cdb.specs.Faults.{HasFault};
ghost use Rattle.cdb.specs.declared.Cdb.{Cdb};
ghost use Rattle.cdb.specs.declared.CdbFault.{CdbFault};
ghost use Rattle.cdb.specs.declared.CdbFault.TheVariants.{InvalidField};

use crate::{Cdb, CdbFault, FUA, READ_CAPACITY};
use byteorder::{BigEndian, ByteOrder};

/// The command that a block asks for, or the first fault of the block: no bytes, an unknown
/// operation code, too few bytes, a field that isn't supported. Bytes behind the ten or sixteen of
/// the command are ignored.
#[tactic(auto, using(crate::proofs::Once::ok_exactly, crate::proofs::Once::fault_exactly))]
pub fn decode(block: &[u8]) -> Result<Cdb, CdbFault>
    ensures ok { (c : Cdb) → (result ≡ Ok c) ↔ Means block.now c }
    ensures fault { (f : CdbFault) → (result ≡ Err f) ↔ HasFault block.now f }
{
    let code = *block.first().ok_or(CdbFault::ShortCdb)?;
    macro_rules! rows {
        ($($code:literal, $size:literal => $command:expr;)*) => {
            match code {
                $($code if block.len() < $size => Err(CdbFault::ShortCdb),)*
                $($code => Ok($command),)*
                _ => Err(CdbFault::UnknownOpcode),
            }
        };
    }
    rows! {
        0x28, 10 => Cdb::Read10 { lba: lba(block), count: count(block), fua: fua(block)? };
        0x2A, 10 => Cdb::Write10 { lba: lba(block), count: count(block), fua: fua(block)? };
        0x35, 10 => Cdb::Sync10 { lba: lba(block), blocks: count(block) };
        0x25, 10 => Cdb::ReadCapacity10;
        0x88, 16 => Cdb::Read16 { lba: long_lba(block), count: long_count(block), fua: fua(block)? };
        0x8A, 16 => Cdb::Write16 { lba: long_lba(block), count: long_count(block), fua: fua(block)? };
        0x91, 16 => Cdb::Sync16 { lba: long_lba(block), blocks: long_count(block) };
        0x9E, 16 => Cdb::ReadCapacity16 { allocation: allocation(block)? };
    }
}

/// The address in bytes 2 to 5.
fn lba(block: &[u8]) -> u32
    requires { 10 ≤ length block.now }
    ensures { result ≡ big_from 2 4 block.now }
{
    BigEndian::read_u32(&block[2..])
}

/// The number of blocks in bytes 7 and 8.
fn count(block: &[u8]) -> u16
    requires { 10 ≤ length block.now }
    ensures { result ≡ big_from 7 2 block.now }
{
    BigEndian::read_u16(&block[7..])
}

/// The address in bytes 2 to 9.
fn long_lba(block: &[u8]) -> u64
    requires { 16 ≤ length block.now }
    ensures { result ≡ big_from 2 8 block.now }
{
    BigEndian::read_u64(&block[2..])
}

/// The number of blocks in bytes 10 to 13.
fn long_count(block: &[u8]) -> u32
    requires { 16 ≤ length block.now }
    ensures { result ≡ big_from 10 4 block.now }
{
    BigEndian::read_u32(&block[10..])
}

/// The force unit access bit of a transfer (SBC: FUA). The transfer must ask for no protection information: bits 7
/// to 5 of byte 1 (RDPROTECT, WRPROTECT) are 0.
fn fua(block: &[u8]) -> Result<bool, CdbFault>
    requires { 10 ≤ length block.now }
    ensures { MatchResult result (HasAccess block.now) (λ f. (f ≡ InvalidField) × (0 < protect block.now)) }
{
    if block[1] >> 5 != 0 {
        return Err(CdbFault::InvalidField);
    }
    Ok(block[1] & FUA != 0)
}

/// The allocation length of READ CAPACITY(16). Bits 4 to 0 of byte 1 must hold its service action.
fn allocation(block: &[u8]) -> Result<u32, CdbFault>
    requires { 16 ≤ length block.now }
    ensures { MatchResult result (HasAllocation block.now) (λ f. (f ≡ InvalidField) × (service_action block.now ≢ 0x10)) }
{
    if block[1] & 0x1F != READ_CAPACITY {
        return Err(CdbFault::InvalidField);
    }
    Ok(long_count(block))
}
