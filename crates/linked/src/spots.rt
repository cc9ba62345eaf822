//! The places of the entries, by spots that the caller picks.

ghost use Rattle.std.specs.Prelude.{[], ◌≡◌, ◌⊎◌, IsOk, ◌<◌, ◌≤◌, ◌+◌, Option, Some, None, is_some, option_copied};
ghost use Rattle.std.specs.Prelude.{IfSome, IfNone, OnOk, OnSome, length, count_by, slice_set, slice_index_or};
ghost use Rattle.slab.specs.Slab.{get, slab_len, Updates, SameValues, ContainsKey};
ghost use Rattle.linked.specs.inside.Places.{SetsAfter, SetsBefore};

use std::alloc::{AllocError, Global};
use std::marker::Model;

/// An item, linked to the one before and the one behind it.
#[derive(Drop)]
pub(crate) struct Node<T> {
    pub item: T,
    pub before: Option<usize>,
    pub after: Option<usize>,
}

/// An entry or none at each spot. Contracts see it as a slab whose capacity is how many spots there are.
#[derive(Drop)]
pub(crate) struct Spots<T> {
    slots: Vec<Option<Node<T>>>,
    count: usize,
}

impl<T> Model for Spots<T> {
    ghost use Rattle.std.specs.Prelude.{◌≡◌, is_some, count_by, length};
    ghost use Rattle.slab.specs.Slab.{Slab};
    ghost use Rattle.linked.specs.declared.spots.Node.{Node};

    ghost Value = { Slab (Node T) };

    ghost view = { λ s. record { slots = s.slots.items; vacant_key = 0; capacity = length s.slots.items } };

    ghost invariant = { λ s. s.count ≡ count_by is_some s.slots.items };
}

/// Makes places up to this spot.
fn lengthen<E>(slots: &mut Vec<Option<E>>, spot: usize) -> Result<(), AllocError>
    ensures covers { OnOk result (spot < length slots.new.items) }
    ensures succeeds { spot < length slots.old.items → IsOk result }
    ensures longer { length slots.old.items ≤ length slots.new.items }
    ensures no_more { (length slots.new.items ≡ length slots.old.items) ⊎ (length slots.new.items ≤ spot + 1) }
    ensures count { count_by is_some slots.new.items ≡ count_by is_some slots.old.items }
    ensures same { (k : _) → slice_index_or slots.new.items k None ≡ slice_index_or slots.old.items k None }
{
    while slots.len() <= spot {
        slots.reserve(1)?;
        slots.push_reserved(None);
    }
    Ok(())
}

/// Links the entry of a place on to the one behind.
fn set_after_in<T>(slot: &mut Option<Node<T>>, after: Option<usize>)
    ensures { SetsAfter slot.old after slot.new }
{
    if let Some(entry) = slot {
        entry.after = after;
    }
}

/// Links the entry of a place back to the one before.
fn set_before_in<T>(slot: &mut Option<Node<T>>, before: Option<usize>)
    ensures { SetsBefore slot.old before slot.new }
{
    if let Some(entry) = slot {
        entry.before = before;
    }
}

impl<T> Spots<T> {
    /// No spots.
    pub fn new(alloc: Global) -> Spots<T>
        ensures none { result.slots ≡ [] }
        ensures places { result.capacity ≡ 0 }
    {
        Spots {
            slots: Vec::new(alloc),
            count: 0,
        }
    }

    /// Returns how many entries there are.
    pub fn len(&self) -> usize
        ensures { result ≡ slab_len self.now }
    {
        self.count
    }

    /// Makes places up to this spot.
    pub fn cover(&mut self, spot: usize) -> Result<(), AllocError>
        ensures covers { OnOk result (spot < self.new.capacity) }
        ensures succeeds { spot < self.old.capacity → IsOk result }
        ensures longer { self.old.capacity ≤ self.new.capacity }
        ensures no_more { (self.new.capacity ≡ self.old.capacity) ⊎ (self.new.capacity ≤ spot + 1) }
        ensures count { slab_len self.new ≡ slab_len self.old }
        ensures same { SameValues self.old self.new }
    {
        lengthen(&mut self.slots, spot)
    }

    /// Takes the entry of a spot that has one.
    pub fn take(&mut self, spot: usize) -> Node<T>
        requires { ContainsKey self.old spot }
        ensures stood { get self.old spot ≡ Some result }
        ensures updates { Updates self.old self.new spot None }
        ensures places { self.new.capacity ≡ self.old.capacity }
        ensures count { slab_len self.new + 1 ≡ slab_len self.old }
    {
        let Some(entry) = self.slots[spot].take() else {
            unreachable!()
        };
        self.count -= 1;
        entry
    }

    /// The entry of a spot.
    pub fn get(&self, spot: usize) -> Option<&Node<T>>
        ensures { option_copied result ≡ get self.now spot }
    {
        self.slots.get(spot)?.as_ref()
    }

    /// Links the entry of a spot on to the one behind.
    pub fn set_after(&mut self, spot: usize, after: Option<usize>)
        ensures updates { (e : _) → get self.old spot ≡ Some e
            → Updates self.old self.new spot (Some (record e { after = after })) }
        ensures places { self.new.capacity ≡ self.old.capacity }
        ensures count { slab_len self.new ≡ slab_len self.old }
    {
        if spot < self.slots.len() {
            set_after_in(&mut self.slots[spot], after);
        }
    }

    /// Links the entry of a spot back to the one before.
    pub fn set_before(&mut self, spot: usize, before: Option<usize>)
        ensures updates { (e : _) → get self.old spot ≡ Some e
            → Updates self.old self.new spot (Some (record e { before = before })) }
        ensures places { self.new.capacity ≡ self.old.capacity }
        ensures count { slab_len self.new ≡ slab_len self.old }
    {
        if spot < self.slots.len() {
            set_before_in(&mut self.slots[spot], before);
        }
    }
}

impl<T: Drop> Spots<T> {
    /// Puts an entry at a vacant spot.
    pub fn put(&mut self, spot: usize, entry: Node<T>)
        requires inside { spot < self.old.capacity }
        requires vacant { get self.old spot ≡ None }
        ensures updates { Updates self.old self.new spot (Some entry) }
        ensures places { self.new.capacity ≡ self.old.capacity }
        ensures count { slab_len self.new ≡ slab_len self.old + 1 }
    {
        self.slots[spot] = Some(entry);
        self.count += 1;
    }
}
