//! What fixes a machine.

ghost use Rattle.std.specs.Prelude.{◌≡◌, ◌/◌, ◌%◌};
ghost use Rattle.machine.specs.Rules.{is_transfer, first_sector, place_count, sectors_of, home, is_in_bounds};
ghost use Rattle.judge.specs.Views.{rules_of, extent_at};

use machine::{ClientRequest, Kind};
use sector::Extent;

/// The sizes, the partitions and the limits of a machine.
#[derive(Debug, Drop)]
pub struct MachineRules {
    /// Bytes of a sector.
    pub sector_size: u32,
    /// Sectors of the disk.
    pub disk_sectors: u64,
    /// The partitions, each an extent of the disk.
    pub partitions: Vec<Extent>,
    /// Sectors of the longest request.
    pub longest: u64,
    /// Sectors of the longest piece.
    pub max_transfer: u64,
    /// The number of tags.
    pub depth: u32,
    /// Requests open at once, where they are counted.
    pub open_requests: Option<u64>,
    /// Requests below the hold, where there is one.
    pub window: Option<u64>,
    /// Whether a request goes as one piece, once.
    pub one_piece: bool,
    /// Busy returns that end a request.
    pub busy_limit: u64,
    /// Whether a piece may begin at any place of its request, and start again without end. Else pieces begin at
    /// multiples of the longest, and restarts are counted.
    pub any_cut: bool,
    /// Whether acts read and write the arrays; else the sectors stand elsewhere, and the arrays never change.
    pub faithful: bool,
}

/// The quotient, and 0 where the divisor is.
#[tactic(auto, using(crate::proofs::Division::by_nothing))]
fn quotient(number: u64, divisor: u64) -> u64
    ensures { result ≡ number / divisor }
{
    if divisor == 0 { 0 } else { number / divisor }
}

/// The remainder, and the number itself where the divisor is 0.
#[tactic(auto, using(crate::proofs::Division::rest_by_nothing))]
fn remainder(number: u64, divisor: u64) -> u64
    ensures { result ≡ number % divisor }
{
    if divisor == 0 {
        number
    } else {
        number % divisor
    }
}

/// Whether a request is a read or a write.
pub(crate) fn moves_bytes(kind: Kind) -> bool
    ensures { result ≡ is_transfer kind }
{
    match kind {
        Kind::Read | Kind::Write => true,
        Kind::Flush => false,
    }
}

impl MachineRules {
    /// The partition's extent of the disk.
    fn extent_of(&self, partition: Option<u8>) -> Option<Extent>
        ensures { result ≡ extent_at self.now.partitions.items partition }
    {
        self.partitions.get(partition? as usize).copied()
    }

    /// The number of sectors of a partition, where its number is given and known.
    pub(crate) fn sectors_of(&self, partition: Option<u8>) -> u64
        ensures { result ≡ sectors_of (rules_of self.now) partition }
    {
        match self.extent_of(partition) {
            Some(extent) => extent.count,
            None => 0,
        }
    }

    /// The sector of its partition where a request begins.
    pub(crate) fn first_sector(&self, q: &ClientRequest) -> u64
        ensures { result ≡ first_sector (rules_of self.now) q.now }
    {
        quotient(q.offset, self.sector_size as u64)
    }

    /// Returns how many places it has.
    pub(crate) fn place_count(&self, q: &ClientRequest) -> u64
        ensures { result ≡ place_count (rules_of self.now) q.now }
    {
        if moves_bytes(q.kind) {
            quotient(q.length, self.sector_size as u64)
        } else {
            1
        }
    }

    /// The logical block address where a request begins.
    pub(crate) fn home(&self, q: &ClientRequest) -> u128
        ensures { result ≡ home (rules_of self.now) q.now.partition (first_sector (rules_of self.now) q.now) }
    {
        let first = self.first_sector(q) as u128;
        match self.extent_of(q.partition) {
            Some(extent) => extent.first as u128 + first,
            None => first,
        }
    }

    /// Whether it asks for whole sectors of its partition, no more than the longest may.
    pub(crate) fn is_in_bounds(&self, q: &ClientRequest) -> bool
        ensures { result ≡ is_in_bounds (rules_of self.now) q.now }
    {
        let size = self.sector_size as u64;
        let first = quotient(q.offset, size);
        let count = quotient(q.length, size);
        let sectors = self.sectors_of(q.partition);
        remainder(q.offset, size) == 0
            && remainder(q.length, size) == 0
            && first <= sectors
            && count <= sectors - first
            && count <= self.longest
    }
}
