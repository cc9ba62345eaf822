//! A table as bytes.

ghost use Rattle.std.specs.Prelude.{◌≡◌, ◌≤◌, ◌+◌, ◌++◌, ℕ, All, List, length};
ghost use Rattle.arrayvec.specs.ArrayVec.{array_vec_len};
ghost use Rattle.mbr.specs.Table.{Entry, FitsEntry, entry_bytes, table_bytes};
ghost use Rattle.mbr.specs.Faults.{said_of, told_by};

use crate::{COUNT, ENTRIES, ENTRY_SIZE, FIRST, KIND, SIGNATURE, SIGNED};
use arrayvec::ArrayVec;
use byteorder::{ByteOrder, LittleEndian};
use sector::Extent;

/// The first 512 bytes of sector 0 with these entries, four at most, each a type and sectors of numbers below 2^32,
/// from the first place on, with the signature, and with 0 elsewhere. Type 0 is unused. No fault is looked for.
pub fn render(entries: &[(u8, Extent)]) -> ArrayVec<u8, 512>
    requires few { length entries.now ≤ 4 }
    requires fit { All FitsEntry entries.now }
    ensures bytes { result.items ≡ table_bytes entries.now }
    ensures whole { array_vec_len result ≡ 512 }
    ensures read_back { (sectors : ℕ) → told_by sectors result.items ≡ said_of sectors entries.now }
    ensures followed { (sectors : ℕ) (more : List ℕ)
        → told_by sectors (result.items ++ more) ≡ said_of sectors entries.now }
{
    let mut sector = ArrayVec::from([0; 512]);
    sector.truncate(ENTRIES);
    for (kind, extent) in entries {
        put(&mut sector, &entry(*kind, *extent));
    }
    let unused = [0; SIGNATURE - ENTRIES];
    put(&mut sector, &unused[entries.len() * ENTRY_SIZE..]);
    put(&mut sector, &SIGNED);
    sector
}

/// Puts bytes behind those of a sector, where there is room for them.
fn put(sector: &mut ArrayVec<u8, 512>, bytes: &[u8])
    requires { length sector.old.items + length bytes.now ≤ 512 }
    ensures { sector.new.items ≡ sector.old.items ++ bytes.now }
{
    let _fits = sector.try_extend_from_slice(bytes);
}

/// The bytes of an entry.
fn entry(kind: u8, extent: Extent) -> [u8; ENTRY_SIZE]
    requires { FitsEntry (kind, extent) }
    ensures { result ≡ entry_bytes (kind, extent) }
{
    let mut bytes = [0; ENTRY_SIZE];
    bytes[KIND] = kind;
    LittleEndian::write_u32(&mut bytes[FIRST..], extent.first as u32);
    LittleEndian::write_u32(&mut bytes[COUNT..], extent.count as u32);
    bytes
}
