//! What is known of a service from outside.

ghost use Rattle.std.specs.Prelude.{◌≡◌, ◌+◌, ◌^◌, ◌<◌, IfSome};
ghost use Rattle.machine.specs.Rules.{is_in_bounds, sectors_of};
ghost use Rattle.history.specs.Sights.{is_partition, has_sector};
ghost use Rattle.history_fitting.specs.Services.{rules_of, moved, within};

use machine::{ClientRequest, Kind};
use sector::{Extent, bytes_to_sectors};

/// The sizes and partitions of a service.
#[derive(Debug, Drop)]
pub struct Service {
    /// Bytes of a sector.
    pub sector_size: u32,
    /// The partitions, each an extent of the disk.
    pub partitions: Vec<Extent>,
    /// Sectors of the longest request.
    pub longest: u64,
}

/// A sector of a partition.
#[derive(Debug, Clone, Copy, PartialEq, Eq, PartialOrd, Ord)]
pub struct Place {
    pub partition: u8,
    /// From the start of the partition.
    pub sector: u64,
}

/// Whether a request is one of this partition.
fn is_partition(partition: u8, asked: Option<u8>) -> bool
    ensures { result ≡ is_partition partition asked }
{
    match asked {
        Some(other) => other == partition,
        None => false,
    }
}

impl Service {
    /// The number of sectors of a partition, where its number is given and known.
    fn sectors_of(&self, partition: Option<u8>) -> u64
        ensures { result ≡ sectors_of (rules_of self.now) partition }
    {
        let Some(partition) = partition else {
            return 0;
        };
        match self.partitions.get(partition as usize).copied() {
            Some(extent) => extent.count,
            None => 0,
        }
    }

    /// The sectors of a request's bytes, if it asks for whole ones of its partition, no more than the longest may.
    fn within(&self, request: &ClientRequest) -> Option<Extent>
        requires { 0 < self.now.sector_size }
        ensures exact { result ≡ within (rules_of self.now) request.now }
        ensures fits { IfSome result (λ extent. extent.first + extent.count < 2 ^ 64) }
    {
        let sectors = self.sectors_of(request.partition);
        let Ok(extent) = bytes_to_sectors(request.offset, request.length, self.sector_size, sectors)
        else {
            return None;
        };
        if extent.count > self.longest {
            return None;
        }
        Some(extent)
    }

    /// Whether a transfer asks for whole sectors of its partition, no more than the longest may.
    #[tactic(auto, using(crate::proofs::Bounds::is_there))]
    pub fn is_in_bounds(&self, request: &ClientRequest) -> bool
        requires { 0 < self.now.sector_size }
        ensures { result ≡ is_in_bounds (rules_of self.now) request.now }
    {
        self.within(request).is_some()
    }

    /// The sectors of its partition that a request moves.
    pub fn moved(&self, request: &ClientRequest) -> Option<Extent>
        requires { 0 < self.now.sector_size }
        ensures exact { result ≡ moved (rules_of self.now) request.now }
        ensures fits { IfSome result (λ extent. extent.first + extent.count < 2 ^ 64) }
    {
        match request.kind {
            Kind::Read | Kind::Write => self.within(request),
            Kind::Flush => None,
        }
    }

    /// Whether a request moves a sector.
    pub fn has_sector(&self, place: Place, request: &ClientRequest) -> bool
        requires { 0 < self.now.sector_size }
        ensures { result ≡ has_sector (rules_of self.now) place.partition place.sector request.now }
    {
        if !is_partition(place.partition, request.partition) {
            return false;
        }
        match self.moved(request) {
            Some(extent) => {
                extent.first <= place.sector && place.sector - extent.first < extent.count
            }
            None => false,
        }
    }
}
