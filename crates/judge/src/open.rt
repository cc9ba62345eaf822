//! Open requests.

ghost use Rattle.std.specs.Prelude.{◌≡◌, ◌<◌, ◌^◌, ◌+◌, false, List, IfOk, MatchOption, get_or, length, replicate};
ghost use Rattle.std.specs.List.{list_all, list_any};
ghost use Rattle.machine.specs.State.{OpenRequest, Untouched, with_marks};
ghost use Rattle.machine.specs.Cutting.{mark_at, is_back, pieces_with, restarts_left};
ghost use Rattle.machine.specs.Sending.{is_started, is_untouched, is_unsent, sent};
ghost use Rattle.machine.specs.Answering.{is_done};
ghost use Rattle.machine.specs.Holding.{as_cancelled};
ghost use Rattle.machine.specs.Settled.{is_out, has_out, has_unsent};
ghost use Rattle.judge.specs.Deciding.{has_number, cause_by, is_in_turn};
ghost use Rattle.judge.specs.Settling.{has_gone, is_all_sent};
ghost use Rattle.judge.specs.Ruling.{failure_of};
ghost use Rattle.judge.specs.Views.{rules_of, opened, with_late, with_busy_returns};

use crate::NoVerdict;
use crate::copies::{Copied, all_copied, request_copied};
use crate::lists::spliced;
use crate::places::Place;
use crate::rules::MachineRules;
use crate::sameness::{Compared, all_same, are_same_requests};
use machine::ClientRequest;
use ntstatus::NtStatus;
use sector::Extent;
use std::alloc::{AllocError, Global};
use std::marker::Model;

/// An open request, from its call to its answer.
#[derive(Debug, Drop)]
pub struct Open {
    number: u64,
    request: ClientRequest,
    cancelled: bool,
    late: bool,
    busy_returns: u64,
    marks: Vec<Place>,
}

impl Model for Open {
    ghost use Rattle.machine.specs.State.{OpenRequest};

    ghost Value = { OpenRequest };

    ghost view = { λ o. record {
      number = o.number;
      request = o.request;
      cancelled = o.cancelled;
      late = o.late;
      busy_returns = o.busy_returns;
      marks = o.marks.items;
    } };
}

/// This many places that are all alike.
pub(crate) fn alike(alloc: Global, count: u64, place: &Place) -> Result<Vec<Place>, AllocError>
    ensures { IfOk result (λ places. places.items ≡ replicate count place.now) }
{
    let mut places = Vec::new(alloc);
    for _ in 0..count {
        places.push(place.copied(alloc)?)?;
    }
    Ok(places)
}

/// Whether no place of them was ever sent.
fn are_untouched(marks: &[Place]) -> bool
    ensures { result ≡ list_all is_untouched marks.now }
{
    marks.iter().all(|place| place.is_untouched())
}

/// Whether some place of them is out.
fn are_out(marks: &[Place]) -> bool
    ensures { result ≡ list_any is_out marks.now }
{
    marks.iter().any(|place| place.is_out())
}

/// Whether some place of them waits to be sent.
fn wait_some(marks: &[Place]) -> bool
    ensures { result ≡ list_any is_unsent marks.now }
{
    marks.iter().any(|place| place.is_unsent())
}

fn have_gone(marks: &[Place], worn_out: bool) -> bool
    ensures { result ≡ list_all (has_gone worn_out) marks.now }
{
    marks.iter().all(|place| place.has_gone(worn_out))
}

fn are_done(marks: &[Place]) -> bool
    ensures { result ≡ list_all is_done marks.now }
{
    marks.iter().all(|place| place.is_done())
}

/// The place of this number; past the last, none.
fn place_at(marks: &[Place], at: usize) -> Option<&Place>
    ensures { MatchOption result (get_or marks.now at Untouched ≡ Untouched) (λ place. get_or marks.now at Untouched ≡ place.now) }
{
    let place = marks.get(at);
    place
}

impl Open {
    /// A request of this many places, none of which was sent.
    pub(crate) fn new(
        alloc: Global,
        number: u64,
        request: ClientRequest,
        late: bool,
        places: u64,
    ) -> Result<Open, AllocError>
        ensures { IfOk result (λ o. o ≡ opened number request late (replicate places Untouched)) }
    {
        Ok(Open {
            number,
            request,
            cancelled: false,
            late,
            busy_returns: 0,
            marks: alike(alloc, places, &Place::untouched())?,
        })
    }

    /// The number of its call.
    pub fn number(&self) -> u64
        ensures { result ≡ self.now.number }
    {
        self.number
    }

    pub(crate) fn has_number(&self, number: u64) -> bool
        ensures { result ≡ has_number number self.now }
    {
        self.number == number
    }

    /// Returns what its client asks for.
    pub fn request(&self) -> &ClientRequest
        ensures { result.now ≡ self.now.request }
    {
        &self.request
    }

    /// Whether its cancel flag is set.
    pub fn is_cancelled(&self) -> bool
        ensures { result ≡ self.now.cancelled }
    {
        self.cancelled
    }

    /// Whether it is late: a pause or a removal holds it back.
    pub fn is_late(&self) -> bool
        ensures { result ≡ self.now.late }
    {
        self.late
    }

    /// Returns how often a piece of it came back busy.
    pub fn busy_returns(&self) -> u64
        ensures { result ≡ self.now.busy_returns }
    {
        self.busy_returns
    }

    /// Whether a piece was started for some place.
    pub fn is_started(&self) -> bool
        ensures { result ≡ is_started self.now }
    {
        !are_untouched(self.marks.as_slice())
    }

    /// Whether a request of that number need not wait for this one.
    pub(crate) fn lets_start(&self, number: u64) -> bool
        ensures { result ≡ is_in_turn number self.now }
    {
        self.number >= number || self.cancelled || self.is_started()
    }

    /// Its places.
    pub(crate) fn marks(&self) -> &[Place]
        ensures { result.now ≡ self.now.marks }
    {
        self.marks.as_slice()
    }

    /// The place of this number; past the last, none.
    pub(crate) fn mark(&self, at: usize) -> Option<&Place>
        ensures { MatchOption result (mark_at self.now at ≡ Untouched) (λ place. mark_at self.now at ≡ place.now) }
    {
        place_at(self.marks.as_slice(), at)
    }

    /// Whether this place is out.
    pub(crate) fn is_out_at(&self, at: usize) -> bool
        ensures { result ≡ is_out (mark_at self.now at) }
    {
        match self.mark(at) {
            Some(place) => place.is_out(),
            None => false,
        }
    }

    /// Whether this place gives it this status, which may be the one that it was given up with.
    pub(crate) fn causes_at(
        &self,
        at: usize,
        given_up: bool,
        worn_out: bool,
        status: NtStatus,
    ) -> bool
        ensures { result ≡ cause_by given_up worn_out status (mark_at self.now at) }
    {
        match self.mark(at) {
            Some(place) => place.causes(given_up, worn_out, status),
            None => given_up,
        }
    }

    /// The status by which this place failed, if it did.
    pub(crate) fn failure_at(&self, at: usize) -> Option<NtStatus>
        ensures { result ≡ failure_of (mark_at self.now at) }
    {
        match self.mark(at) {
            Some(place) => place.failure(),
            None => None,
        }
    }

    /// A number that requests of one number share, where they are the same.
    pub(crate) fn digest(&self) -> u64 {
        let mut sum = self.busy_returns;
        for place in &self.marks {
            sum = sum.wrapping_mul(5).wrapping_add(place.digest());
        }
        sum
    }

    /// Whether some place is out.
    pub(crate) fn has_out(&self) -> bool
        ensures { result ≡ has_out self.now }
    {
        are_out(self.marks.as_slice())
    }

    /// Whether some place waits to be sent.
    pub(crate) fn has_unsent(&self) -> bool
        ensures { result ≡ has_unsent self.now }
    {
        wait_some(self.marks.as_slice())
    }

    /// Whether no place waits that may go, if it is started and not cancelled.
    pub(crate) fn is_all_sent(&self, busy_limit: u64) -> bool
        ensures { result ≡ is_all_sent busy_limit self.now }
    {
        self.cancelled
            || !self.is_started()
            || have_gone(self.marks.as_slice(), busy_limit <= self.busy_returns)
    }

    /// Whether all its places are done.
    pub(crate) fn is_done(&self) -> bool
        ensures { result ≡ list_all is_done self.now.marks }
    {
        are_done(self.marks.as_slice())
    }

    /// Returns how many pieces begin with a place that came back.
    fn pieces_back(&self, rules: &MachineRules) -> u128
        requires some { 0 < rules.now.max_transfer }
        ensures counts { result ≡ pieces_with (rules_of rules.now) is_back self.now }
        ensures few { result < 2 ^ 65 }
    {
        let longest = rules.max_transfer as u128;
        let count = self.marks.len() as u128;
        let mut back = 0;
        let mut place = 0;
        while place < count {
            if self.marks[place as usize].is_back() {
                back += 1;
            }
            place += longest;
        }
        back
    }

    /// Returns how often pieces of it may start again.
    pub(crate) fn restarts_left(&self, rules: &MachineRules) -> u128
        requires some { 0 < rules.now.max_transfer }
        ensures { result ≡ restarts_left (rules_of rules.now) self.now }
    {
        let restarts = rules.busy_limit.saturating_sub(1);
        (self.pieces_back(rules) + restarts as u128).saturating_sub(self.busy_returns as u128)
    }

    /// The request with its cancel flag set.
    pub(crate) fn cancelled(mut self) -> Open
        ensures { result ≡ as_cancelled self }
    {
        self.cancelled = true;
        self
    }

    /// The request, late as the flag says.
    pub(crate) fn set_late(&mut self, late: bool)
        ensures { self.new ≡ with_late late self.old }
    {
        self.late = late;
    }

    /// The request with these places out.
    pub(crate) fn sent(mut self, alloc: Global, places: Extent) -> Result<Open, AllocError>
        ensures { IfOk result (λ o. o ≡ sent places self) }
    {
        let outs = alike(alloc, places.count, &Place::out())?;
        self.marks = spliced(self.marks, places.first as u128, outs)?;
        Ok(self)
    }

    /// The request with new marks from a place on.
    pub(crate) fn marked(mut self, first: u64, marks: Vec<Place>) -> Result<Open, AllocError>
        ensures { IfOk result (λ o. o ≡ with_marks first marks.items self) }
    {
        self.marks = spliced(self.marks, first as u128, marks)?;
        Ok(self)
    }

    /// The request with one busy return more.
    pub(crate) fn worn(mut self) -> Result<Open, NoVerdict>
        ensures { IfOk result (λ o. o ≡ with_busy_returns (self.busy_returns + 1) self) }
    {
        let Some(more) = self.busy_returns.checked_add(1) else {
            return Err(NoVerdict::NoMemory);
        };
        self.busy_returns = more;
        Ok(self)
    }
}

impl Copied for Open {
    fn copied(&self, alloc: Global) -> Result<Open, AllocError> {
        Ok(Open {
            number: self.number,
            request: request_copied(alloc, &self.request)?,
            cancelled: self.cancelled,
            late: self.late,
            busy_returns: self.busy_returns,
            marks: all_copied(alloc, self.marks.as_slice())?,
        })
    }
}

impl Compared for Open {
    fn is_same(&self, other: &Open) -> bool {
        if self.number != other.number || self.busy_returns != other.busy_returns {
            return false;
        }
        if self.cancelled != other.cancelled || self.late != other.late {
            return false;
        }
        are_same_requests(&self.request, &other.request)
            && all_same(self.marks.as_slice(), other.marks.as_slice())
    }
}
