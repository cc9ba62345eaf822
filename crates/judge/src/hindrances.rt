//! What holds places of a request back.

ghost use Rattle.std.specs.Prelude.{◌≡◌, ◌<◌, ◌+◌, List, length, IfSome, IsTrue, slice_range};
ghost use Rattle.std.specs.List.{position};
ghost use Rattle.machine.specs.State.{Mark};
ghost use Rattle.machine.specs.Cutting.{mark_at};
ghost use Rattle.judge.specs.StartRuling.{is_inside, asked_inside, is_told, asked, is_sent, sent_as, sent_hindrance, grid_hindrance, whole_hindrance, cut_hindrance, places_hindrance};
ghost use Rattle.judge.specs.Views.{rules_of};

use crate::commands::places_for;
use crate::lists::part;
use crate::open::Open;
use crate::places::Place;
use crate::rules::MachineRules;
use crate::start_rules::Hindrance;
use cdb::Cdb;
use sector::Extent;

/// The first place that doesn't wait to be sent.
fn first_sent(marks: &[Place]) -> Option<usize>
    ensures { result ≡ position is_sent marks.now }
{
    marks.iter().position(|place| !place.is_unsent())
}

impl Open {
    /// Whether there is a place at least, and all are of the request.
    fn is_inside(&self, places: Extent) -> bool
        ensures { result ≡ is_inside self.now places }
    {
        let count = self.marks().len() as u64;
        0 < places.count && places.first <= count && places.count <= count - places.first
    }

    /// The places, if they are some of its own.
    pub(crate) fn inside(&self, places: Option<Extent>) -> Option<Extent>
        ensures is { result ≡ asked_inside self.now places }
        ensures inside { IfSome result (λ found. IsTrue (is_inside self.now found)) }
    {
        let places = places?;
        if self.is_inside(places) {
            Some(places)
        } else {
            None
        }
    }

    /// Whether it is the request that is told, if one is.
    pub(crate) fn is_told(&self, owner: Option<u64>) -> bool
        ensures { result ≡ is_told owner self.now }
    {
        match owner {
            Some(number) => self.has_number(number),
            None => true,
        }
    }

    /// The places that a command asks for, if they are some of its own, and it may be the request that is told.
    pub(crate) fn asked(
        &self,
        rules: &MachineRules,
        owner: Option<u64>,
        command: Cdb,
    ) -> Option<Extent>
        ensures is { result ≡ asked (rules_of rules.now) owner command self.now }
        ensures inside { IfSome result (λ found. IsTrue (is_inside self.now found)) }
    {
        if !self.is_told(owner) {
            return None;
        }
        self.inside(places_for(rules, self.request(), command))
    }

    /// What the first of the places is that doesn't wait to be sent, if there is one.
    fn sent_hindrance(&self, places: Extent) -> Option<Hindrance>
        requires { IsTrue (is_inside self.now places) }
        ensures { result ≡ sent_hindrance self.now places.first (position is_sent (slice_range self.now.marks places.first (places.first + places.count))) }
    {
        let first = places.first as u128;
        let at = first_sent(part(self.marks(), first, first + places.count as u128))?;
        let place = places.first + at as u64;
        Some(self.sent_as(place))
    }

    /// Returns what a place is that doesn't wait to be sent.
    fn sent_as(&self, place: u64) -> Hindrance
        ensures { result ≡ sent_as place (mark_at self.now place) }
    {
        match self.mark(place as usize) {
            Some(mark) => mark.sent_as(place),
            None => Hindrance::Out { place },
        }
    }

    /// Why no piece begins at the place, if none does.
    fn grid_hindrance(&self, rules: &MachineRules, place: u64) -> Option<Hindrance>
        requires some { 0 < rules.now.max_transfer }
        requires there { place < length self.now.marks }
        ensures { result ≡ grid_hindrance (rules_of rules.now) self.now place }
    {
        let grid = rules.max_transfer;
        if rules.any_cut {
            None
        } else if place % grid != 0 {
            Some(Hindrance::OffGrid { place, grid })
        } else if self.marks()[place as usize].is_back() && self.restarts_left(rules) == 0 {
            Some(Hindrance::Worn { place })
        } else {
            None
        }
    }

    /// Why a request that goes as one piece can't go as a piece of this many places, if it can't.
    fn whole_hindrance(&self, rules: &MachineRules, count: u64) -> Option<Hindrance>
        ensures { result ≡ whole_hindrance (rules_of rules.now) self.now count }
    {
        let due = self.marks().len() as u64;
        if rules.one_piece && count != due {
            Some(Hindrance::NotWhole { due, count })
        } else if rules.one_piece && self.is_started() {
            Some(Hindrance::Again)
        } else {
            None
        }
    }

    /// Why the request isn't cut so, if it isn't.
    fn cut_hindrance(&self, rules: &MachineRules, places: Extent) -> Option<Hindrance>
        requires some { 0 < rules.now.max_transfer }
        requires inside { IsTrue (is_inside self.now places) }
        ensures { result ≡ cut_hindrance (rules_of rules.now) self.now places }
    {
        let off_grid = self.grid_hindrance(rules, places.first);
        if off_grid.is_some() {
            return off_grid;
        }
        self.whole_hindrance(rules, places.count)
    }

    /// Returns what holds these places back, whatever the machine does.
    pub(crate) fn places_hindrance(&self, rules: &MachineRules, places: Extent) -> Option<Hindrance>
        requires { IsTrue (is_inside self.now places) }
        ensures { result ≡ places_hindrance (rules_of rules.now) self.now places }
    {
        if rules.max_transfer < places.count {
            return Some(Hindrance::Long {
                longest: rules.max_transfer,
                count: places.count,
            });
        }
        let sent = self.sent_hindrance(places);
        if sent.is_some() {
            return sent;
        }
        self.cut_hindrance(rules, places)
    }
}
