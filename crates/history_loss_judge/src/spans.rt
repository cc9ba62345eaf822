//! Which sectors of the disk a request moves.

ghost use Rattle.std.specs.Prelude.{◌≡◌, ◌<◌, ◌^◌, Some};
ghost use Rattle.machine.specs.Rules.{home};
ghost use Rattle.history_fitting.specs.Services.{rules_of};
ghost use Rattle.history_loss_judge.specs.inside.Spans.{IsSpanOf};

use history_fitting::Service;
use machine::ClientRequest;

/// Some sectors of the disk, one behind the other.
#[derive(Debug, Clone, Copy)]
pub(crate) struct Span {
    pub first: u128,
    pub count: u64,
}

/// Where a sector of a partition lies on the disk.
fn home(service: &Service, partition: u8, sector: u64) -> u128
    ensures exact { result ≡ home (rules_of service.now) (Some partition) sector }
    ensures fits { result < 2 ^ 65 }
{
    match service.partitions.get(partition as usize).copied() {
        Some(extent) => extent.first as u128 + sector as u128,
        None => sector as u128,
    }
}

/// The sectors that a request of this partition moves, if it moves any.
fn span_in(service: &Service, partition: u8, request: &ClientRequest) -> Option<Span>
    requires sized { 0 < service.now.sector_size }
    requires asked { request.now.partition ≡ Some partition }
    ensures { IsSpanOf (rules_of service.now) request.now result }
{
    match service.moved(request) {
        Some(extent) => {
            let first = home(service, partition, extent.first);
            let count = extent.count;
            Some(Span { first, count })
        }
        None => None,
    }
}

/// The sectors that a request moves, if it moves any.
pub(crate) fn span_of(service: &Service, request: &ClientRequest) -> Option<Span>
    requires { 0 < service.now.sector_size }
    ensures { IsSpanOf (rules_of service.now) request.now result }
{
    match request.partition {
        Some(partition) => span_in(service, partition, request),
        None => None,
    }
}
