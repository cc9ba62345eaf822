//! Whether two machines are the same. Readings of a start that are seen to have led to the same machine are followed as
//! one.

ghost use Rattle.std.specs.Prelude.{◌≡◌, Contains, IfOk, OnOk, option_map};
ghost use Rattle.std.specs.Bool.{OnTrue};
ghost use Rattle.judge.specs.Following.{AreAlike, AddsOnce};
ghost use Rattle.judge.specs.Views.{owed_of};

use crate::broken_starts::same_kind;
use crate::machine_state::{Debt, Machine};
use crate::places::are_same;
use machine::ClientRequest;
use sector::Bytes;
use std::alloc::{AllocError, Global};
use std::collections::BTreeMap;

/// A value that can be compared: what is found the same is the same.
pub(crate) trait Compared: Sized {
    /// Whether the other value is the same.
    fn is_same(&self, other: &Self) -> bool
        ensures { OnTrue result (self.now ≡ other.now) };
}

impl Compared for Bytes {
    fn is_same(&self, other: &Bytes) -> bool {
        self.as_slice() == other.as_slice()
    }
}

/// Whether two lists have the same items.
#[tactic(auto, using(crate::proofs::Alike::more_alike, crate::proofs::Alike::all_alike))]
pub(crate) fn all_same<T: Compared>(a: &[T], b: &[T]) -> bool
    ensures { OnTrue result (a.now ≡ b.now) }
{
    if a.len() != b.len() {
        return false;
    }
    for i in 0..a.len() {
        if !a[i].is_same(&b[i]) {
            return false;
        }
    }
    true
}

/// Whether two requests of clients are the same.
pub(crate) fn are_same_requests(a: &ClientRequest, b: &ClientRequest) -> bool
    ensures { OnTrue result (a.now ≡ b.now) }
{
    if a.partition != b.partition || !same_kind(a.kind, b.kind) {
        return false;
    }
    if a.offset != b.offset || a.length != b.length || a.through != b.through {
        return false;
    }
    a.bytes.is_same(&b.bytes)
}

/// Whether two owed answers are the same.
fn are_same_debts(a: Option<Debt>, b: Option<Debt>) -> bool
    ensures { OnTrue result (option_map owed_of a ≡ option_map owed_of b) }
{
    match (a, b) {
        (None, None) => true,
        (Some(a), Some(b)) => a.number == b.number && are_same(a.status, b.status),
        _ => false,
    }
}

impl Compared for Machine {
    fn is_same(&self, other: &Machine) -> bool {
        if self.next_request != other.next_request || self.next_piece != other.next_piece {
            return false;
        }
        if self.paused != other.paused
            || self.removing != other.removing
            || self.removed != other.removed
        {
            return false;
        }
        are_same_debts(self.owed, other.owed)
            && all_same(self.requests.as_slice(), other.requests.as_slice())
            && all_same(self.pieces.as_slice(), other.pieces.as_slice())
            && all_same(self.arrays.as_slice(), other.arrays.as_slice())
    }
}

/// A number with one more mixed into it.
fn mixed(sum: u64, more: u64) -> u64 {
    sum.wrapping_add(more).wrapping_mul(0x0000_0100_0000_01b3)
}

/// A number that machines which are the same share. It looks at what readings of a start differ in: the pieces'
/// requests, and what has become of the requests.
fn digest(machine: &Machine) -> u64 {
    let mut sum = 0;
    for piece in &machine.pieces {
        sum = mixed(mixed(sum, piece.owner()), piece.places().first);
    }
    for entry in &machine.requests {
        sum = mixed(mixed(sum, entry.number()), entry.digest());
    }
    sum
}

/// Whether the machine is the one at this place.
fn is_there(machines: &[Machine], at: usize, machine: &Machine) -> bool
    ensures { OnTrue result (Contains machines.now machine.now) }
{
    match machines.get(at) {
        Some(other) => machine.is_same(other),
        None => false,
    }
}

/// Whether the machine is the last that was kept with its digest.
fn is_kept(
    machines: &[Machine],
    places: &BTreeMap<u64, usize>,
    digest: u64,
    machine: &Machine,
) -> bool
    ensures { OnTrue result (Contains machines.now machine.now) }
{
    match places.get(&digest) {
        Some(at) => is_there(machines, *at, machine),
        None => false,
    }
}

/// Adds a machine that isn't seen to be there yet, and keeps its place by its digest.
fn add_new(
    machine: Machine,
    places: &mut BTreeMap<u64, usize>,
    once: &mut Vec<Machine>,
) -> Result<(), AllocError>
    ensures { OnOk result (AddsOnce once.old.items machine once.new.items) }
{
    let digest = digest(&machine);
    if is_kept(once.as_slice(), places, digest, &machine) {
        return Ok(());
    }
    places.insert(digest, once.len())?;
    once.push(machine)?;
    Ok(())
}

/// Each of the machines once, as far as this is seen.
#[tactic(auto, using(crate::proofs::Alike::alike_self))]
pub(crate) fn distinct(alloc: Global, machines: Vec<Machine>) -> Result<Vec<Machine>, AllocError>
    ensures { IfOk result (λ once. AreAlike machines.items once.items) }
{
    if machines.len() <= 1 {
        return Ok(machines);
    }
    let mut places = BTreeMap::new(alloc);
    let mut once = Vec::new(alloc);
    for machine in machines {
        add_new(machine, &mut places, &mut once)?;
    }
    Ok(once)
}
