//! The slots of open requests.

ghost use Rattle.std.specs.Prelude.{◌≡◌, ◌<◌, ◌≤◌, ◌^◌, ℕ, Some, IfOk, length, replicate, None, max, slice_set, ◌==◌, if◌then◌else◌};
ghost use Rattle.cancel_marks.specs.Marks.{arming, slot_at, starting, standing};
ghost use Rattle.traced.specs.Slots.{LooksAt, LooksNowhere};
ghost use Rattle.traced.specs.inside.Slots.{AreArmed, AreEmptyFrom, ArmedBelow, Leaves, number_at, unless_number};

use crate::name::TraceNaming;
use cancel_marks::{Marks, Seat};
use std::alloc::{AllocError, Global};
use std::marker::{Model, PhantomData};

/// The slots of open requests: the number in each, and the seat of the marks' owner. A slot is armed exactly with the
/// number in it.
#[derive(Drop)]
pub(crate) struct Slots<N: TraceNaming> {
    numbers: Vec<Option<u64>>,
    /// No slot from this one on has a number.
    end: usize,
    seat: Seat,
    of: PhantomData<N>,
}

impl<N: TraceNaming> Model for Slots<N> {
    ghost use Rattle.std.specs.Prelude.{◌≡◌, ◌≤◌, length};
    ghost use Rattle.traced.specs.inside.Slots.{AreArmed, AreEmptyFrom, SlotsView};

    ghost Value = { SlotsView };

    ghost view = { λ s. record { numbers = s.numbers.items; owner = s.seat.view } };

    ghost invariant = { λ s. record {
      table : s.seat.table ≡ N.marks;
      first : s.seat.index ≡ 0;
      wide : length s.numbers.items ≡ N.slots;
      owned : N.slots ≤ length s.seat.view.slots;
      armed : AreArmed s.numbers.items s.seat.view;
      few : s.end ≤ length s.numbers.items;
      empty : AreEmptyFrom s.end s.numbers.items;
    } };
}

impl<N: TraceNaming> Slots<N> {
    /// Empty slots.
    pub(crate) fn new(alloc: Global, seat: Seat, slots: usize) -> Result<Slots<N>, AllocError>
        requires slots { slots ≡ N.slots }
        requires seat { seat ≡ standing N.marks 0 (starting (max slots 1)) }
        ensures numbers { IfOk result (λ s. s.numbers ≡ replicate slots None) }
        ensures owner { IfOk result (λ s. s.owner ≡ starting (max slots 1)) }
    {
        let numbers = Vec::from_elem(alloc, None, slots)?;
        Ok(Slots {
            numbers,
            end: 0,
            seat,
            of: PhantomData,
        })
    }

    /// Returns how many there are.
    pub(crate) fn len(&self) -> usize
        ensures count { result ≡ N.slots }
        ensures wide { length self.now.numbers ≡ N.slots }
    {
        self.numbers.len()
    }

    /// Returns a number such that no slot from it on has an open request.
    pub(crate) fn end(&self) -> usize
        ensures few { result ≤ N.slots }
        ensures empty { AreEmptyFrom result self.now.numbers }
    {
        self.end
    }

    /// Shows the caller that a slot is armed exactly with the number in it.
    pub(crate) fn shows_armed(&self)
        ensures { AreArmed self.now.numbers self.now.owner }
    {
        // The invariant is known where a field is used.
        let _seat = &self.seat;
    }

    /// Notes that a request is open in a slot.
    #[tactic(auto, using(crate::proofs::Arming::number_set))]
    pub(crate) fn arm(&mut self, marks: &Marks, slot: usize, number: u64)
        requires marks { marks.now ≡ (N.marks, N.slots) }
        requires slot { slot < N.slots }
        requires rising { (slot_at self.old.owner slot).last < number }
        requires small { number < 2 ^ 62 }
        ensures numbers { (k : ℕ) → number_at self.new.numbers k ≡ (if slot == k then Some number else number_at self.old.numbers k) }
        ensures looks { LooksNowhere self.old.owner self.new.owner }
        ensures below { (next : ℕ) → ArmedBelow next self.old.owner → number < next → ArmedBelow next self.new.owner }
    {
        marks.arm(&mut self.seat, slot, number);
        self.numbers[slot] = Some(number);
        self.end = self.end.max(slot + 1);
    }

    /// Notes that the request of this number is no longer open.
    pub(crate) fn retire(&mut self, marks: &Marks, number: u64)
        requires marks { marks.now ≡ (N.marks, N.slots) }
        ensures numbers { Leaves number self.old.numbers self.new.numbers }
        ensures looks { LooksNowhere self.old.owner self.new.owner }
        ensures below { (next : ℕ) → ArmedBelow next self.old.owner → ArmedBelow next self.new.owner }
    {
        for slot in 0..self.end() {
            self.retire_at(marks, slot, number);
        }
    }

    fn retire_at(&mut self, marks: &Marks, slot: usize, number: u64)
        requires marks { marks.now ≡ (N.marks, N.slots) }
        requires slot { slot < N.slots }
        ensures numbers { self.new.numbers ≡ slice_set self.old.numbers slot (unless_number number (number_at self.old.numbers slot)) }
        ensures looks { LooksNowhere self.old.owner self.new.owner }
        ensures below { (next : ℕ) → ArmedBelow next self.old.owner → ArmedBelow next self.new.owner }
    {
        if self.numbers[slot] == Some(number) {
            marks.retire(&mut self.seat, slot);
            self.numbers[slot] = None;
            self.end = end_below(self.numbers.as_slice(), self.end);
        }
    }

    /// Looks at a slot that has an open request. Returns its number, if it is marked.
    pub(crate) fn look(&mut self, marks: &Marks, slot: usize) -> Option<u64>
        requires marks { marks.now ≡ (N.marks, N.slots) }
        requires slot { slot < N.slots }
        ensures numbers { self.new.numbers ≡ self.old.numbers }
        ensures looked { LooksAt (number_at self.old.numbers slot) slot self.old.owner result self.new.owner }
        ensures below { (next : ℕ) → ArmedBelow next self.old.owner → ArmedBelow next self.new.owner }
    {
        self.numbers[slot]?;
        match marks.look(&mut self.seat, slot) {
            Some((number, true)) => Some(number),
            Some((_, false)) | None => None,
        }
    }
}

// Returns the slot behind the last that has a number, among the slots before this end.
fn end_below(numbers: &[Option<u64>], end: usize) -> usize
    requires few { end ≤ length numbers.now }
    requires empty { AreEmptyFrom end numbers.now }
    ensures few { result ≤ length numbers.now }
    ensures empty { AreEmptyFrom result numbers.now }
{
    let mut left = end;
    while left > 0 {
        if numbers[left - 1].is_some() {
            return left;
        }
        left -= 1;
    }
    0
}
