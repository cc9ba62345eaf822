//! The rounds of one client.

ghost use Rattle.std.specs.Prelude.{◌≡◌, ◌≤◌, ◌+◌, ◌*◌, ◌<◌, ◌^◌, ◌==◌, [], ◌∷◌, IfOk, OnOk, false};
ghost use Rattle.std.specs.List.{cons_option, list_all};
ghost use Rattle.rounds.specs.Tallies.{HasCounted, byte_of};
ghost use Rattle.rounds.specs.inside.Counting.{Brings, CountsAll, counted};

use crate::{Plan, Tally};
use compose::Refusal as Why;
use disk::Medium;
use host::{Call, Client, Host, HostNaming, Reason};
use sector::Bytes;
use sector_journal::{OfArmings, OfEntries};
use std::alloc::{AllocError, Global};
use std::sync::Wait;

/// What the threads of the clients share.
#[derive(Drop)]
pub(crate) struct Shared<'s, M: Medium, N: HostNaming, R>
where
    OfArmings<N>: chronicle::Naming,
    OfEntries<N>: chronicle::Naming,
{
    pub rt: &'s R,
    pub alloc: Global,
    pub host: &'s Host<M, N>,
    pub plan: Plan,
    /// The bytes of a sector.
    pub sector_size: u32,
}

/// A client after its rounds, with their tally. Where memory was refused the rounds ended early.
#[derive(Drop)]
pub(crate) struct Served<N: HostNaming> {
    pub client: Client<N>,
    pub tally: Tally,
    pub has_wanted: bool,
}

/// A sector full of one byte.
fn sector_of(alloc: Global, size: u32, byte: u8) -> Result<Bytes, AllocError> {
    let mut bytes = Vec::new(alloc);
    bytes.resize(size as usize, byte)?;
    Ok(Bytes::new(bytes))
}

/// Issues a call, waits for its answer, and returns the bytes of the answer where it is a success.
fn answer_to<M: Medium, N: HostNaming, R: Wait>(
    rt: &R,
    host: &Host<M, N>,
    client: &mut Client<N>,
    call: Call,
) -> Result<Option<Bytes>, AllocError>
    ensures client { client.new.client ≡ client.old.client }
    ensures brings { IfOk result (λ bytes. Brings client.old client.new (cons_option bytes [])) }
{
    match client.issue(rt, host, call) {
        Ok(ticket) => {
            let answered = client.wait(rt, host, ticket);
            if answered.answer.status.is_success() {
                Ok(Some(answered.answer.bytes))
            } else {
                Ok(None)
            }
        }
        Err(refusal) => match refusal.reason {
            Reason::Refused(Why::InsufficientResources) => Err(AllocError),
            _ => Ok(None),
        },
    }
}

/// Whether all bytes are this one.
fn are_all(bytes: &Bytes, byte: u8) -> bool
    ensures { result ≡ list_all (λ b. b == byte) bytes.now }
{
    bytes.as_slice().iter().all(|b| *b == byte)
}

/// Counts a success that brought these bytes, in a round that wrote this byte. A write's brings none.
fn count(tally: &mut Tally, byte: u8, bytes: &Bytes)
    requires { (tally.old.differing ≤ tally.old.answered) × (tally.old.answered + 1 < 2 ^ 64) }
    ensures { tally.new ≡ counted byte (bytes.now ∷ []) tally.old }
{
    tally.answered += 1;
    if are_all(bytes, byte) {
        return;
    }
    tally.differing += 1;
}

/// Makes a call, and counts its success.
fn call_and_count<M: Medium, N: HostNaming, R: Wait>(
    shared: &Shared<M, N, R>,
    client: &mut Client<N>,
    call: Call,
    byte: u8,
    tally: &mut Tally,
) -> Result<(), AllocError>
    requires { (tally.old.differing ≤ tally.old.answered) × (tally.old.answered + 1 < 2 ^ 64) }
    ensures client { client.new.client ≡ client.old.client }
    ensures most { (tally.new.differing ≤ tally.new.answered) × (tally.new.answered ≤ tally.old.answered + 1) }
    ensures counts { OnOk result (CountsAll byte client.old tally.old client.new tally.new) }
{
    if let Some(bytes) = answer_to(shared.rt, shared.host, client, call)? {
        count(tally, byte, &bytes);
    }
    Ok(())
}

/// Writes the client's sector full of a byte, reads it and compares.
fn round<M: Medium, N: HostNaming, R: Wait>(
    shared: &Shared<M, N, R>,
    client: &mut Client<N>,
    byte: u8,
    tally: &mut Tally,
) -> Result<(), AllocError>
    requires { (tally.old.differing ≤ tally.old.answered) × (tally.old.answered + 2 < 2 ^ 64) }
    ensures client { client.new.client ≡ client.old.client }
    ensures most { (tally.new.differing ≤ tally.new.answered) × (tally.new.answered ≤ tally.old.answered + 2) }
    ensures counts { OnOk result (CountsAll byte client.old tally.old client.new tally.new) }
{
    let size = shared.sector_size;
    let offset = (client.client() as u64).saturating_mul(u64::from(size));
    let bytes = sector_of(shared.alloc, size, byte)?;
    let write = Call::Write {
        offset,
        bytes,
        through: false,
    };
    call_and_count(shared, client, write, byte, tally)?;
    // What a read that moves nothing would leave differs from what was written.
    let buffer = sector_of(shared.alloc, size, !byte)?;
    let read = Call::Read { offset, buffer };
    call_and_count(shared, client, read, byte, tally)
}

/// The byte that a client writes in a round.
fn byte_in(first: usize, round: u16) -> u8
    requires { first < 64 }
    ensures { result ≡ byte_of first round }
{
    ((first + usize::from(round)) % 256) as u8
}

/// Does all rounds of a client.
pub(crate) fn serve_client<M: Medium, N: HostNaming, R: Wait>(
    shared: &Shared<M, N, R>,
    client: Client<N>,
) -> Served<N>
    requires fresh { (client.client < 64) × (client.answered ≡ []) }
    ensures client { result.client.client ≡ client.client }
    ensures most { (result.tally.differing ≤ result.tally.answered) × (result.tally.answered ≤ 2 * shared.now.plan.rounds) }
    ensures counted { result.has_wanted ≡ false → HasCounted shared.now.plan.rounds result.client result.tally }
{
    let mut client = client;
    let mut tally = Tally {
        answered: 0,
        differing: 0,
    };
    let first = client.client();
    for j in 0..shared.plan.rounds {
        let byte = byte_in(first, j);
        let Ok(()) = round(shared, &mut client, byte, &mut tally) else {
            return Served {
                client,
                tally,
                has_wanted: true,
            };
        };
    }
    Served {
        client,
        tally,
        has_wanted: false,
    }
}
