//! The events that are no act: where one opens a request, the journal has room for it first.

ghost use Rattle.std.specs.Prelude.{◌≡◌, ◌≤◌, ◌+◌, ℕ, [], All, IfSome, MatchBool, MatchOption, None, OnErr, OnOk, Some};
ghost use Rattle.machine.specs.Map.{IsMap};
ghost use Rattle.compose.specs.Journaled.{IsNoAct};
ghost use Rattle.compose.specs.StepLaws.{IsTransferEvent};
ghost use Rattle.compose.specs.Right.{opened_by};
ghost use Rattle.sector_journal.specs.Journal.{Releases};
ghost use Rattle.journaled.specs.Right.{HoldsRoom, IsServed, MakesRoom, WouldOpen, is_opened};
ghost use Rattle.journaled.specs.Shown.{IsBelow, KeepsEntries, StandsIn, next_behind, over};
ghost use Rattle.journaled.specs.Told.{TellsOn};

use crate::laws::{laws_of_entries, laws_of_numbers};
use asking::{kind_of, refused};
use compose::{Event, Reply, Stack};
use disk::Medium;
use miniport::BookedAdapter;
use sector::Extent;
use sector_journal::{Journal, Naming};
use srb::Kind;
use std::alloc::{AllocError, Global};

/// What a request may move.
#[derive(Drop)]
struct Transfer {
    kind: Kind,
    /// On the disk; of a flush it is empty.
    extent: Extent,
}

/// The sectors of the disk that the request of an event would move, if it would open one now.
fn extent_of(stack: &Stack<BookedAdapter>, event: &Event) -> Option<Extent>
    requires { IsMap stack.now.rules.disk_sectors stack.now.rules.partitions }
    ensures within { IfSome result (λ e. e.first + e.count ≤ stack.now.rules.disk_sectors) }
    ensures told { MatchOption result (opened_by stack.now event.now ≡ None) (λ e. (pieces : ℕ) × (opened_by stack.now event.now ≡ Some (pieces, e))) }
{
    match stack.admits(event) {
        Some((_, extent)) => Some(extent),
        None => None,
    }
}

/// The request that an event would open now.
fn asked_by(stack: &Stack<BookedAdapter>, event: &Event) -> Option<Transfer>
    requires { IsMap stack.now.rules.disk_sectors stack.now.rules.partitions }
    ensures transfer { IfSome result (λ _. IsTransferEvent event.now) }
    ensures within { IfSome result (λ a. a.extent.first + a.extent.count ≤ stack.now.rules.disk_sectors) }
    ensures opens { MatchOption result (opened_by stack.now event.now ≡ None) (λ a. WouldOpen stack.now event.now a.kind a.extent) }
{
    let kind = kind_of(event)?;
    let extent = extent_of(stack, event)?;
    Some(Transfer { kind, extent })
}

/// Makes room in the journal for the acts of the request that an event would open now, if it would open one. The
/// request has the number that is given; its pieces have `max_transfer` sectors at most.
fn make_room<M: Medium, N: Naming>(
    stack: &Stack<BookedAdapter>,
    journal: &mut Journal<M, N>,
    number: u64,
    max_transfer: u32,
    event: &Event,
) -> Result<(), AllocError>
    requires map { IsMap stack.now.rules.disk_sectors stack.now.rules.partitions }
    requires stands { StandsIn stack.now journal.old }
    requires some { 1 ≤ max_transfer }
    requires longest { max_transfer ≡ stack.now.rules.max_transfer }
    ensures keeps { KeepsEntries journal.old journal.new }
    ensures transfer { OnErr result (IsTransferEvent event.now) }
    ensures made { OnOk result (MakesRoom stack.now event.now number journal.old journal.new) }
    ensures same { OnErr result (journal.new.reservations ≡ journal.old.reservations) }
{
    match asked_by(stack, event) {
        Some(asked) => journal.reserve(number, asked.kind, asked.extent, max_transfer),
        None => Ok(()),
    }
}

/// A call that opened no request needs no room.
pub fn give_back<M: Medium, N: Naming>(journal: &mut Journal<M, N>, number: u64, reply: &Reply)
    ensures keeps { KeepsEntries journal.old journal.new }
    ensures room { MatchBool (is_opened reply.now) (journal.new ≡ journal.old) (Releases journal.old number journal.new) }
{
    if !matches!(reply, Reply::Request(_)) {
        journal.release(number);
    }
}

/// Carries out an event that is no act. The request that it would open has the number that is given; its pieces have
/// `max_transfer` sectors at most.
pub(crate) fn carry<M: Medium, N: Naming>(
    stack: &mut Stack<BookedAdapter>,
    journal: &mut Journal<M, N>,
    alloc: Global,
    number: u64,
    max_transfer: u32,
    event: Event,
) -> Reply
    requires taken { stack.old.labels ≡ [] }
    requires map { IsMap stack.old.rules.disk_sectors stack.old.rules.partitions }
    requires stands { StandsIn stack.old journal.old }
    requires some { 1 ≤ max_transfer }
    requires longest { max_transfer ≡ stack.old.rules.max_transfer }
    requires no_act { IsNoAct event }
    requires next { number ≡ stack.old.state.next_request }
    requires before { All (IsBelow number) journal.old.reservations }
    ensures room { HoldsRoom (over stack.old journal.old) event result (over stack.new journal.new) }
    ensures counts { next_behind number stack.new.labels ≡ stack.new.state.next_request }
    ensures before { All (IsBelow stack.new.state.next_request) journal.new.reservations }
    ensures right { IsServed (over stack.old journal.old) event result (over stack.new journal.new) }
    ensures rules { stack.new.rules ≡ stack.old.rules }
    ensures stands { StandsIn stack.new journal.new }
    ensures told { TellsOn (over stack.old journal.old) (over stack.new journal.new) }
{
    laws_of_entries();
    laws_of_numbers();
    if make_room(stack, journal, number, max_transfer, &event).is_err() {
        return refused(alloc, event);
    }
    let reply = stack.step(alloc, event);
    give_back(journal, number, &reply);
    reply
}
