//! An adapter in memory some of whose commands fail by a plan, whatever they ask for.

ghost use Rattle.std.specs.Prelude.{◌≡◌, ◌≤◌, ◌<◌, ◌^◌, ◌+◌, ◌*◌, [], ◌∷◌, IfOk, length, map, Some, None, Any, IsOk, OnOk, IfSome, IsTrue, MatchBool, MatchOption, get_or};
ghost use Rattle.adapter.specs.View.{IsInOrder};
ghost use Rattle.adapter.specs.Calls.{ActsOrFaults, ActsNot, HasNoneFresh};
ghost use Rattle.miniport.specs.Planned.{PlannedView, EndsByPlan, completion_of as completion_for, once};
ghost use Rattle.miniport.specs.inside.Planned.{AsksOn};

use crate::completion::{ABORTED_COMMAND, HARDWARE_ERROR, MEDIUM_ERROR, NOT_READY, failed_with};
use crate::memory::MemAdapter;
use adapter::Adapter;
use disk::Medium;
use injection::{Kind, Rule, asked_by, turn};
use sector::Extent;
use srb::{Booked, Completion, DeviceLabel, Srb};
use std::alloc::{AllocError, Global};
use std::marker::Model;

/// An adapter in memory of which commands fail by rules. In all else it is the adapter in memory.
pub struct PlannedAdapter<M: Medium> {
    inner: MemAdapter<M>,
    rules: Vec<Rule>,
}

// By hand, so that no crate above proves it again, as it would a derived one.
impl<M: Medium> Drop for PlannedAdapter<M> {
    fn drop(self) {
        let PlannedAdapter { inner: _, rules: _ } = self;
    }
}

impl<M: Medium> Model for PlannedAdapter<M> {
    ghost Value = { PlannedView };

    ghost view = { λ a. record { inner = a.inner; rules = a.rules.items } };
}

impl<M: Medium> PlannedAdapter<M> {
    /// The adapter whose commands fail by these rules; where a rule that fails none is the first that is due, the command
    /// goes by the table. Each act of a piece that has done nothing yet is a command, also those by which a stack starts.
    pub fn new(inner: MemAdapter<M>, rules: Vec<Rule>) -> PlannedAdapter<M>
        ensures { result ≡ record { inner = inner; rules = rules.items } }
    {
        PlannedAdapter { inner, rules }
    }

    /// The adapter whose act number `before` fails with a hardware error, counted from 0, and no other by its rules. It is
    /// for tests that have a stack meet a failure at each place in turn.
    ///
    /// # Errors
    ///
    /// [`AllocError`] where the memory for the rule was refused.
    pub fn failing_once(
        alloc: Global,
        inner: MemAdapter<M>,
        before: u64,
    ) -> Result<PlannedAdapter<M>, AllocError>
        ensures { IfOk result (λ a. a ≡ record { inner = inner; rules = once before ∷ [] }) }
    {
        let mut rules = Vec::new(alloc);
        rules.push(once(before))?;
        Ok(PlannedAdapter::new(inner, rules))
    }
}

/// The rule by which the command number `before` fails with a hardware error, counted from 0, and no other.
fn once(before: u64) -> Rule
    ensures { result ≡ once before }
{
    Rule {
        sectors: None,
        every: 1,
        times: 1,
        kind: Kind::HardwareError,
        wait: before,
    }
}

/// The completion of a command that fails by a rule, ASC 00h but for a unit that isn't ready (SPC: 04h/00h); else `None`.
fn completion_of(kind: Kind) -> Option<Completion>
    ensures { result ≡ completion_for kind }
{
    match kind {
        Kind::MediumError => Some(failed_with(MEDIUM_ERROR, 0x00)),
        Kind::HardwareError => Some(failed_with(HARDWARE_ERROR, 0x00)),
        Kind::NotReady => Some(failed_with(NOT_READY, 0x04)),
        Kind::AbortedCommand => Some(failed_with(ABORTED_COMMAND, 0x00)),
        Kind::Busy | Kind::Delay { .. } => None,
    }
}

/// The sectors that the tag's piece names, where it has neither acted nor failed; else `None`.
fn asked_on<M: Medium>(inner: &MemAdapter<M>, tag: u8) -> Option<Extent>
    ensures asks { MatchOption result (HasNoneFresh inner.now.shown tag) (AsksOn inner.now.shown tag) }
    ensures order { IsInOrder inner.now.shown }
{
    match inner.armed(tag) {
        None => None,
        Some(found) => Some(asked_by(found.1.block.as_slice())),
    }
}

/// Fails the command of the tag's piece in this way, or ends it by its table.
fn end_by<M: Medium>(inner: &mut MemAdapter<M>, tag: u8, failing: Option<Kind>) -> bool
    requires { length inner.old.shown.labels < 64 }
    ensures acts { MatchBool result (ActsOrFaults inner.old.shown tag inner.new.shown) (ActsNot inner.old.shown tag inner.new.shown) }
    ensures order { IsInOrder inner.new.shown }
    ensures ends { MatchBool result (EndsByPlan failing inner.old tag inner.new) (inner.new ≡ inner.old) }
{
    match failing {
        None => inner.act(tag),
        Some(kind) => match completion_of(kind) {
            None => inner.act(tag),
            Some(completion) => inner.fail(tag, completion),
        },
    }
}

impl<M: Medium> Adapter for PlannedAdapter<M> {
    ghost use Rattle.adapter.specs.View.{HasTag, IsFree, IsInOrder, IsReserved, IsWritable, ReservesMore, ReservesNear, Accepts};
    ghost use Rattle.adapter.specs.Calls.{ActsOrFaults, ActsNot, Finishes, FinishesNot, Resets, LeavesFirst, HasNoLabel};
    ghost use Rattle.adapter.specs.Booking.{Books, handed};
    ghost use Rattle.miniport.specs.Faults.{busy};
    ghost use Rattle.miniport.specs.Memory.{Dues, SameDues, ResetsAll};
    ghost use Rattle.miniport.specs.Planned.{ActsByPlan};

    ghost view = { λ a. a.inner.shown };

    fn sector_size(&self) -> u32 {
        self.inner.sector_size()
    }

    fn sectors(&self) -> u64 {
        self.inner.sectors()
    }

    fn max_transfer(&self) -> u32 {
        self.inner.max_transfer()
    }

    fn depth(&self) -> u8 {
        self.inner.depth()
    }

    fn is_faithful(&self) -> bool {
        self.inner.is_faithful()
    }

    /// The failures counted so far, those by the plan among them; at most twice the pieces accepted.
    fn failures(&self) -> u128
        ensures exact { result ≡ self.now.inner.shown.failures }
        ensures order { IsInOrder self.now.inner.shown }
        ensures twice { result ≤ 2 * self.now.inner.shown.accepted }
    {
        self.inner.failures()
    }

    fn reserve(&mut self, extent: Extent) -> Result<(), AllocError>
        requires { extent.first + extent.count ≤ length self.old.inner.shown.sectors }
        ensures reserved { OnOk result (IsReserved self.new.inner.shown extent) }
        ensures ready { IsReserved self.old.inner.shown extent → IsOk result }
        ensures reserves { ReservesMore self.old.inner.shown self.new.inner.shown }
        ensures near { ReservesNear self.old.inner.shown extent self.new.inner.shown }
        ensures order { IsInOrder self.new.inner.shown }
        ensures due { SameDues self.old.inner self.new.inner }
        ensures rules { self.new.rules ≡ self.old.rules }
    {
        self.inner.reserve(extent)
    }

    fn keeps_bytes(&self) -> bool {
        self.inner.keeps_bytes()
    }

    fn in_use(&self, tag: u8) -> bool {
        self.inner.in_use(tag)
    }

    fn accept(&mut self, tag: u8, piece: u128, srb: Srb)
        requires below { tag < self.old.inner.shown.depth }
        requires free { IsFree self.old.inner.shown tag }
        requires writable { IsWritable self.old.inner.shown srb }
        requires buffers { IsTrue self.old.inner.shown.keeps_bytes → length srb.data ≤ srb.for_label }
        requires few { self.old.inner.shown.accepted < 2 ^ 100 }
        requires place { length self.old.inner.shown.labels < 64 }
        ensures accepts { Accepts self.old.inner.shown tag piece srb self.new.inner.shown }
        ensures order { IsInOrder self.new.inner.shown }
        ensures due { Dues tag (Some busy) self.old.inner self.new.inner }
        ensures rules { self.new.rules ≡ self.old.rules }
    {
        self.inner.accept(tag, piece, srb);
    }

    fn act(&mut self, tag: u8) -> bool
        requires { length self.old.inner.shown.labels < 64 }
        ensures acts { MatchBool result (ActsOrFaults self.old.inner.shown tag self.new.inner.shown) (ActsNot self.old.inner.shown tag self.new.inner.shown) }
        ensures order { IsInOrder self.new.inner.shown }
        ensures planned { MatchBool result (ActsByPlan self.old tag self.new) (self.new ≡ self.old) }
    {
        if self.rules.is_empty() {
            return self.inner.act(tag);
        }
        let Some(asked) = asked_on(&self.inner, tag) else {
            return false;
        };
        let failing = turn(self.rules.as_mut_slice(), asked);
        end_by(&mut self.inner, tag, failing)
    }

    fn armed(&self, tag: u8) -> Option<(u128, &Srb)> {
        self.inner.armed(tag)
    }

    /// Nothing is booked, since its acts move its sectors.
    fn book(&mut self, tag: u8, piece: u128, what: Booked<'_>)
        ensures books { Books self.old.inner.shown tag piece (handed self.old.inner.shown tag piece what.entry) self.new.inner.shown }
        ensures order { IsInOrder self.new.inner.shown }
        ensures same { self.new ≡ self.old }
    {
        self.inner.book(tag, piece, what);
    }

    fn finish(&mut self, tag: u8) -> Option<(Srb, Completion)>
        requires { length self.old.inner.shown.labels < 64 }
        ensures finishes { MatchOption result (FinishesNot self.old.inner.shown tag self.new.inner.shown) (λ back. Finishes self.old.inner.shown tag back.0 back.1 self.new.inner.shown) }
        ensures order { IsInOrder self.new.inner.shown }
        ensures completion { IfSome result (λ back. get_or self.old.inner.due tag None ≡ Some back.1) }
        ensures due { MatchOption result (self.new.inner ≡ self.old.inner) (λ back. Dues tag None self.old.inner self.new.inner) }
        ensures rules { self.new.rules ≡ self.old.rules }
    {
        self.inner.finish(tag)
    }

    fn reset(&mut self)
        requires { length self.old.inner.shown.labels + self.old.inner.shown.depth ≤ 64 }
        ensures resets { Resets self.old.inner.shown self.new.inner.shown }
        ensures order { IsInOrder self.new.inner.shown }
        ensures due { ResetsAll self.old.inner self.new.inner }
        ensures rules { self.new.rules ≡ self.old.rules }
    {
        self.inner.reset();
    }

    fn take_label(&mut self) -> Option<DeviceLabel>
        ensures takes { MatchOption result (HasNoLabel self.old.inner.shown self.new.inner.shown) (λ label. LeavesFirst self.old.inner.shown label self.new.inner.shown) }
        ensures order { IsInOrder self.new.inner.shown }
        ensures due { SameDues self.old.inner self.new.inner }
        ensures rules { self.new.rules ≡ self.old.rules }
    {
        self.inner.take_label()
    }

    fn forget_labels(&mut self)
        ensures forgets { self.new.inner.shown ≡ record self.old.inner.shown { labels = [] } }
        ensures order { IsInOrder self.new.inner.shown }
        ensures due { SameDues self.old.inner self.new.inner }
        ensures rules { self.new.rules ≡ self.old.rules }
    {
        self.inner.forget_labels();
    }
}
