//! The sectors of a disk in chunks, of which only those that were reserved are in memory.

ghost use Rattle.std.specs.Prelude.{◌≡◌, ℕ, ◌+◌, ◌*◌, ◌/◌, ◌%◌, ◌≤◌, ◌<◌, ◌^◌, length, take, drop, replicate, IsSome, IfSome, IsOk, OnOk, OnErr, MatchOption};
ghost use Rattle.std.specs.Option.{ForSome};
ghost use Rattle.std.specs.HashMap.{IsEmpty};
ghost use Rattle.disk.specs.Sparse.{chunk_of, held};
ghost use Rattle.disk.specs.inside.Sparse.{AreWhole, HoldsSame, PutsBytes, PutsZeros};

use crate::places::places;
use sector::Extent;
use std::alloc::{AllocError, Global};
use std::collections::HashMap;

/// How many sectors a chunk has.
const CHUNK: u64 = 64;

/// A disk of zeros, except for its chunks. A chunk has 64 sectors; the last one is shorter where the disk ends in it.
#[derive(Debug, Drop)]
pub(crate) struct Chunks {
    alloc: Global,
    pub sector_size: u32,
    pub sectors: u64,
    by_number: HashMap<u64, Vec<u8>>,
    ghost whole: { AreWhole sector_size sectors by_number },
}

impl Chunks {
    ghost use Rattle.std.specs.List.{concat};
    ghost use Rattle.disk.specs.SparseDisk.{sectors_of};
    ghost use Rattle.disk.specs.inside.SparseDisk.{AreThere, IsThere, Makes, MakesOf, MakesOne, Overwrites};

    /// A disk with no chunk in memory.
    pub fn new(alloc: Global, sector_size: u32, sectors: u64) -> Chunks
        ensures size { result.sector_size ≡ sector_size }
        ensures count { result.sectors ≡ sectors }
        ensures none { IsEmpty result.by_number }
    {
        Chunks {
            alloc,
            sector_size,
            sectors,
            by_number: HashMap::new(alloc),
        }
    }

    /// The sectors of a chunk.
    fn extent_of(&self, number: u64) -> Extent
        requires { number * 64 < self.now.sectors }
        ensures extent { result ≡ chunk_of self.now.sectors number }
        ensures fits { result.count * self.now.sector_size < 2 ^ 64 }
    {
        let sectors = self.sectors;
        let _sector_size = self.sector_size;
        let first = number * CHUNK;
        Extent {
            first,
            count: CHUNK.min(sectors - first),
        }
    }

    /// Makes the chunks of an extent that are not there, filled with zeros.
    pub fn reserve(&mut self, extent: Extent) -> Result<(), AllocError>
        requires { extent.first + extent.count ≤ self.old.sectors }
        ensures there { OnOk result (AreThere self.new extent) }
        ensures ready { AreThere self.old extent → IsOk result }
        ensures makes { Makes self.old self.new }
        ensures only { MakesOf extent self.old self.new }
    {
        let _sectors = self.sectors;
        let mut rest = extent;
        while rest.count > 0 {
            let (part, behind) = first_part(rest);
            self.make(part.first / CHUNK)?;
            rest = behind;
        }
        Ok(())
    }

    /// Makes a chunk of zeros, unless it is there.
    fn make(&mut self, number: u64) -> Result<(), AllocError>
        requires { number * 64 < self.old.sectors }
        ensures there { OnOk result (IsThere self.new number) }
        ensures ready { IsThere self.old number → IsOk result }
        ensures makes { Makes self.old self.new }
        ensures only { MakesOne number self.old self.new }
    {
        let length = self.extent_of(number).count * self.sector_size as u64;
        put_zeros(self.alloc, &mut self.by_number, number, length as usize)?;
        Ok(())
    }

    /// Reads the bytes of an extent.
    pub fn read(&self, extent: Extent, buffer: &mut [u8])
        requires within { extent.first + extent.count ≤ self.now.sectors }
        requires long { length buffer.old ≡ extent.count * self.now.sector_size }
        ensures { buffer.new ≡ concat (sectors_of self.now extent) }
    {
        let _sectors = self.sectors;
        let mut rest = extent;
        while rest.count > 0 {
            let (part, behind) = first_part(rest);
            let (start, end) = places(self.sector_size, extent, part);
            self.read_part(part, &mut buffer[start..end]);
            rest = behind;
        }
    }

    /// Reads bytes that lie in one chunk.
    fn read_part(&self, part: Extent, bytes: &mut [u8])
        requires within { part.first + part.count ≤ self.now.sectors }
        requires in_one { part.first % 64 + part.count ≤ 64 }
        requires some { 0 < part.count }
        requires long { length bytes.old ≡ part.count * self.now.sector_size }
        ensures { bytes.new ≡ concat (sectors_of self.now part) }
    {
        let number = part.first / CHUNK;
        let (start, _) = places(self.sector_size, self.extent_of(number), part);
        get_bytes(&self.by_number, number, start, bytes);
    }

    /// Writes bytes over the sectors of an extent whose chunks are there.
    pub fn write(&mut self, extent: Extent, bytes: &[u8])
        requires within { extent.first + extent.count ≤ self.old.sectors }
        requires there { AreThere self.old extent }
        requires long { length bytes.now ≡ extent.count * self.old.sector_size }
        ensures { Overwrites extent bytes.now self.old self.new }
    {
        let _sectors = self.sectors;
        let mut rest = extent;
        while rest.count > 0 {
            let (part, behind) = first_part(rest);
            let (start, end) = places(self.sector_size, extent, part);
            self.write_part(part, &bytes[start..end]);
            rest = behind;
        }
    }

    /// Writes bytes that lie in one chunk.
    fn write_part(&mut self, part: Extent, bytes: &[u8])
        requires within { part.first + part.count ≤ self.old.sectors }
        requires in_one { part.first % 64 + part.count ≤ 64 }
        requires some { 0 < part.count }
        requires there { IsThere self.old (part.first / 64) }
        requires long { length bytes.now ≡ part.count * self.old.sector_size }
        ensures { Overwrites part bytes.now self.old self.new }
    {
        let number = part.first / CHUNK;
        let (start, _) = places(self.sector_size, self.extent_of(number), part);
        put_bytes(&mut self.by_number, number, start, bytes);
    }
}

/// Puts this many zeros at a number, unless something is there.
fn put_zeros(
    alloc: Global,
    chunks: &mut HashMap<u64, Vec<u8>>,
    number: u64,
    length: usize,
) -> Result<(), AllocError>
    ensures made { OnOk result (PutsZeros length number chunks.old chunks.new) }
    ensures ready { IsSome (held chunks.old number) → IsOk result }
    ensures err { OnErr result (HoldsSame chunks.old chunks.new) }
{
    chunks
        .entry(number)?
        .or_try_insert_with(|| vec![in alloc; 0; length])?;
    Ok(())
}

/// Writes bytes over a part of those at a number, from a place on.
fn put_bytes(chunks: &mut HashMap<u64, Vec<u8>>, number: u64, start: usize, bytes: &[u8])
    requires { IfSome (held chunks.old number) (λ before. start + length bytes.now ≤ length before) }
    ensures { PutsBytes number start bytes.now chunks.old chunks.new }
{
    if let Some(chunk) = chunks.get_mut(&number) {
        chunk[start..start + bytes.len()].copy_from_slice(bytes);
    }
}

/// Reads a part of the bytes at a number, from a place on, or zeros if nothing is there.
fn get_bytes(chunks: &HashMap<u64, Vec<u8>>, number: u64, start: usize, bytes: &mut [u8])
    requires { ForSome (held chunks.now number) (λ before. start + length bytes.old ≤ length before) }
    ensures { MatchOption (held chunks.now number) (bytes.new ≡ replicate (length bytes.old) 0) (λ before. bytes.new ≡ take (length bytes.old) (drop start before)) }
{
    match chunks.get(&number) {
        Some(chunk) => bytes.copy_from_slice(&chunk[start..start + bytes.len()]),
        None => bytes.fill(0),
    }
}

/// The sectors of an extent that lie in the chunk of its first, and the rest.
fn first_part(extent: Extent) -> (Extent, Extent)
    requires some { 0 < extent.count }
    requires fits { extent.first + extent.count < 2 ^ 64 }
    ensures some { 0 < result.0.count }
    ensures in_one { result.0.first % 64 + result.0.count ≤ 64 }
    ensures starts { result.0.first ≡ extent.first }
    ensures continues { result.1.first ≡ extent.first + result.0.count }
    ensures together { result.0.count + result.1.count ≡ extent.count }
{
    extent.cut(CHUNK - extent.first % CHUNK)
}
