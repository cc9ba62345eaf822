//! Calls of a host as the doc comments of its crate show them.

ghost use Rattle.std.specs.Prelude.{◌≡◌, IfOk};

use crate::holding::Holding;
use crate::orders::bytes;
use cancel_marks::Marking;
use disk::Medium;
use host::{Answered, Call, Client, Host, HostNaming, Refusal, Ticket};
use sector_journal::{OfArmings, OfEntries};
use std::alloc::{AllocError, Global};
use std::sync::Wait;
use std::time::Clock;

/// A host, with what each call of it is passed.
#[derive(Drop)]
struct Bench<'a, M: Medium, N: HostNaming, R>
where
    OfArmings<N>: chronicle::Naming,
    OfEntries<N>: chronicle::Naming,
{
    rt: &'a R,
    alloc: Global,
    host: &'a Host<M, N>,
}

// A client reads the sector at an offset.
fn read_at<M: Medium, N: HostNaming, R: Wait>(
    bench: &Bench<M, N, R>,
    client: &mut Client<N>,
    offset: u64,
) -> Result<Ticket<N>, AllocError>
    ensures client { client.new.client ≡ client.old.client }
    ensures ticket { IfOk result (λ t. t.client ≡ client.new.client) }
{
    let buffer = bytes(bench.alloc, 0, 512)?;
    match client.issue(bench.rt, bench.host, Call::Read { offset, buffer }) {
        Ok(ticket) => Ok(ticket),
        Err(_) => Err(AllocError),
    }
}

// A client reads a sector that lies past its partition.
fn read_past<M: Medium, N: HostNaming, R: Wait>(
    bench: &Bench<M, N, R>,
    client: &mut Client<N>,
) -> Result<Result<Ticket<N>, Refusal>, AllocError> {
    let call = Call::Read {
        offset: 524_288,
        buffer: bytes(bench.alloc, 0, 512)?,
    };
    Ok(client.issue(bench.rt, bench.host, call))
}

// A client marks its read, which is held, and the other one is refused.
fn mark_beside<M: Medium, N: HostNaming, R: Wait, T: Clock>(
    bench: &Bench<M, N, R>,
    holding: &Holding<'_, T>,
    first: &mut Client<N>,
    second: &mut Client<N>,
) -> Result<(Marking, Answered), AllocError> {
    let (rt, host) = (bench.rt, bench.host);
    let ticket = read_at(bench, first, 0)?;
    let marking = first.mark_cancel(host, &ticket);
    let refused = read_past(bench, second);
    holding.let_go(rt);
    let answered = first.wait(rt, host, ticket);
    match refused? {
        Ok(_) => Err(AllocError),
        Err(_) => Ok((marking, answered)),
    }
}
