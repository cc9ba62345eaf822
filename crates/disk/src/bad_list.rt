//! The sectors that can't be read or written, looked up by binary search, and the calls that failed at one.

ghost use Rattle.std.specs.Prelude.{◌≡◌, ℕ, ◌+◌, ◌^◌, ◌<◌, ◌≤◌, ◌↔◌, IsTrue, IsErr, OnOk, OnErr, Contains, length, slice_index};
ghost use Rattle.std.specs.List.Sorted.{IsStrictlyIncreasing};
ghost use Rattle.sector.specs.Extents.{IsIn};

use crate::BadSector;
use sector::Extent;

/// Numbers of sectors, each once and in rising order, and how many calls failed at one of them.
#[derive(Debug, Drop)]
pub(crate) struct BadList {
    pub sectors: Vec<u64>,
    pub failures: u128,
    ghost rising: { IsStrictlyIncreasing sectors.items },
}

impl BadList {
    /// The list of these numbers, which come in any order and perhaps more than once. They are put in order in their
    /// own memory. No call has failed yet.
    pub fn new(mut sectors: Vec<u64>) -> BadList
        ensures same { (sector : ℕ) → Contains result.sectors.items sector ↔ Contains sectors.items sector }
        ensures none_failed { result.failures ≡ 0 }
    {
        sectors.sort_unstable();
        sectors.dedup();
        BadList {
            sectors,
            failures: 0,
        }
    }

    /// Counts a failure where a sector of the extent is one of these.
    pub fn check(&mut self, extent: Extent) -> Result<(), BadSector>
        requires { self.old.failures < 2 ^ 120 }
        ensures refused { IsErr result ↔ ((sector : ℕ) × Contains self.old.sectors.items sector × IsIn sector extent) }
        ensures passes { OnOk result (self.new ≡ self.old) }
        ensures fails { OnErr result (self.new ≡ record self.old { failures = self.old.failures + 1 }) }
    {
        if self.meets(extent) {
            self.failures += 1;
            return Err(BadSector);
        }
        Ok(())
    }

    /// Whether a sector of the extent is one of these.
    fn meets(&self, extent: Extent) -> bool
        ensures { IsTrue result ↔ ((sector : ℕ) × Contains self.now.sectors.items sector × IsIn sector extent) }
    {
        let bad = self.sectors.as_slice();
        let next = first_from(bad, extent.first);
        next < bad.len() && bad[next] - extent.first < extent.count
    }
}

/// The place of the first number that isn't below a sector, among rising numbers.
fn first_from(numbers: &[u64], sector: u64) -> usize
    requires { IsStrictlyIncreasing numbers.now }
    ensures below { (k : ℕ) → k < result → slice_index numbers.now k < sector }
    ensures from { (k : ℕ) → result ≤ k → k < length numbers.now → sector ≤ slice_index numbers.now k }
{
    numbers.partition_point(|number| *number < sector)
}
