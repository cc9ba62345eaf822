//! One sector, label by label.

ghost use Rattle.std.specs.Prelude.{◌≡◌, ◌<◌, ◌≤◌, ◌∷◌, ◌++◌, ℕ, [], Bool, IfOk, List, OnOk, drop, length, option_copied};
ghost use Rattle.history.specs.declared.Wait.{Wait};
ghost use Rattle.history.specs.Sights.{success_bytes};
ghost use Rattle.history.specs.Waits.{fill, known, step};
ghost use Rattle.register.specs.Values.{code};
ghost use Rattle.history_fitting.specs.Services.{rules_of};
ghost use Rattle.history_judge.specs.inside.Cells.{
  answer_left,
  AllSee,
  AreFirst,
  IsCell,
  IsToldOf,
  label_left,
  read_end,
  read_left,
  sights_in,
  with_last,
};
ghost use Rattle.history_judge.specs.inside.Starting.{IsTriedBy};

use crate::past::Past;
use crate::trying::{Start, Tried, Try, begun, each_sees, judge_all_starts, judge_tries};
use crate::waits::{Given, Marked, end_of, filled_by, known_front, known_of, wait_of};
use history::Wait;
use history_fitting::{Place, Service};
use machine::{Kind, Label};
use noted::Noted;
use ntstatus::NtStatus;
use register::Sight;
use std::alloc::{AllocError, Global};
use std::mem::replace;

/// A service, and what its sectors had at the start.
#[derive(Drop)]
pub(crate) struct Basis {
    pub service: Service,
    pub start: Start,
}

/// What was seen of a sector so far.
#[derive(Drop)]
pub(crate) struct Cell {
    /// What the tries have taken.
    pub seen: Noted<Sight>,
    /// A register for each start that it may have had. There is none until that is found.
    pub tries: Vec<Try>,
    /// What they have not taken yet.
    pub waits: Vec<Marked>,
    pub past: Past,
}

/// A label, and its line.
#[derive(Clone, Copy)]
pub(crate) struct Told<'a> {
    pub line: u64,
    pub label: &'a Label,
    /// What its request does.
    pub kind: Kind,
}

/// An answer, and its line.
#[derive(Clone, Copy)]
struct Answered<'a> {
    line: u64,
    number: u64,
    status: NtStatus,
    bytes: &'a [u8],
}

/// The bytes of an answer that is a success.
fn success_bytes(status: NtStatus, bytes: &[u8]) -> Option<&[u8]>
    ensures { option_copied result ≡ success_bytes status bytes.entry.now }
{
    match status {
        NtStatus::Success => Some(bytes),
        _ => None,
    }
}

/// The end of a read, which is seen if it brings bytes.
fn read_end(number: u64, status: NtStatus, bytes: Option<&[u8]>) -> Option<Wait>
    ensures { result ≡ read_end number status (option_copied bytes.entry) }
{
    match bytes {
        Some(_) => Some(Wait::Known(end_of(number, status))),
        None => None,
    }
}

/// The register that a sector is at the start, unless that is to be found.
fn first_tries(alloc: Global, start: &Start) -> Result<Vec<Try>, AllocError>
    ensures { IfOk result (AreFirst start.now.any start.now.bytes) }
{
    let mut tries = Vec::new(alloc);
    let any = start.any;
    if any {
        return Ok(tries);
    }
    let first = Try::new(alloc, &start.bytes)?;
    tries.push(first)?;
    Ok(tries)
}

/// Whether to look what the sector began with: behind each answer but a read's whose bytes were not recorded.
fn may_begin(told: Told<'_>) -> bool {
    match (told.label, told.kind) {
        (
            Label::Answer {
                status: NtStatus::Success,
                bytes,
                ..
            },
            Kind::Read,
        ) => !bytes.as_slice().is_empty(),
        (Label::Answer { .. }, _) => true,
        _ => false,
    }
}

impl Cell {
    /// Of which nothing was seen.
    pub fn new(alloc: Global, start: &Start) -> Result<Cell, AllocError>
        ensures { IfOk result (IsCell start.now.any start.now.bytes []) }
    {
        let tries = first_tries(alloc, start)?;
        Ok(Cell {
            seen: Noted::none(),
            tries,
            waits: Vec::new(alloc),
            past: Past::new(alloc),
        })
    }

    /// Gives the tries what is seen next.
    fn give(&mut self, alloc: Global, given: Given) -> Result<(), AllocError>
        ensures tries { OnOk result (AllSee (given.sight ∷ []) self.old.tries.items self.new.tries.items) }
        ensures seen { OnOk result (self.new.seen.items ≡ self.old.seen.items ++ given.sight ∷ []) }
        ensures waits { self.new.waits ≡ self.old.waits }
    {
        each_sees(alloc, &mut self.tries, &given)?;
        self.seen = self.seen.with(&given);
        self.past.push(alloc, self.tries.as_slice(), given)
    }

    /// Notes what the tries have taken, which was known before anything waits.
    fn behind(&mut self, alloc: Global, given: Vec<Given>) -> Result<(), AllocError>
        requires { length given.items ≤ length self.old.waits.items }
        ensures tries { self.new.tries ≡ self.old.tries }
        ensures seen { OnOk result (self.new.seen.items ≡ self.old.seen.items ++ sights_in given.items) }
        ensures waits { OnOk result (self.new.waits.items ≡ drop (length given.items) self.old.waits.items) }
    {
        self.waits = self.waits.split_off(given.len())?;
        self.seen = self.seen.with(&given);
        self.past.push_all(alloc, self.tries.as_slice(), given)
    }

    /// Finds the tries by what is known before anything waits, if something of it succeeds.
    fn begin(&mut self, alloc: Global, start: &Start) -> Result<(), AllocError>
        requires { length self.old.tries.items ≡ 0 }
        ensures { (waits : List Wait) → IsCell start.now.any start.now.bytes waits self.old → OnOk result (IsCell start.now.any start.now.bytes waits self.new) }
    {
        let given = known_front(alloc, self.waits.as_slice())?;
        match begun(alloc, &start.bytes, given.as_slice())? {
            Some(tries) => {
                self.tries = tries;
                self.behind(alloc, given)
            }
            None => Ok(()),
        }
    }

    /// Lets what is seen last wait behind the rest.
    fn wait_on(&mut self, line: u64, wait: Wait) -> Result<(), AllocError>
        ensures { (any : Bool) (start : ℕ) (waits : List Wait) → IsCell any start waits self.old → OnOk result (IsCell any start (waits ++ wait ∷ []) self.new) }
    {
        self.waits.push(Marked { line, wait })?;
        Ok(())
    }

    /// Adds what is seen last.
    fn add(&mut self, alloc: Global, line: u64, wait: Wait) -> Result<(), AllocError>
        ensures { (any : Bool) (start : ℕ) (waits : List Wait) → IsCell any start waits self.old → OnOk result (IsCell any start (waits ++ wait ∷ []) self.new) }
    {
        if self.tries.is_empty() {
            return self.wait_on(line, wait);
        }
        if !self.waits.is_empty() {
            return self.wait_on(line, wait);
        }
        match wait {
            Wait::Known(sight) => self.give(alloc, Given { line, sight }),
            Wait::Awaits { .. } => self.wait_on(line, wait),
        }
    }

    /// Adds it, if anything is seen.
    fn add_if(&mut self, alloc: Global, line: u64, wait: Option<Wait>) -> Result<(), AllocError>
        ensures { (any : Bool) (start : ℕ) (waits : List Wait) → IsCell any start waits self.old → OnOk result (IsCell any start (with_last waits wait) self.new) }
    {
        match wait {
            Some(wait) => self.add(alloc, line, wait),
            None => Ok(()),
        }
    }

    /// Adds anew what becomes of all that wait, so that the tries take what is known then.
    fn fill(
        &mut self,
        alloc: Global,
        service: &Service,
        number: u64,
        bytes: Option<&[u8]>,
    ) -> Result<(), AllocError>
        ensures { (any : Bool) (start : ℕ) (waits : List Wait) → IsCell any start waits self.old → OnOk result (IsCell any start (fill code (rules_of service.now) number (option_copied bytes.entry) waits) self.new) }
    {
        let waits = replace(&mut self.waits, Vec::new(alloc));
        for marked in waits {
            let Marked { line, wait } = marked;
            let left = filled_by(alloc, service, number, bytes, wait)?;
            self.add_if(alloc, line, left)?;
        }
        Ok(())
    }

    /// Takes the answer to a read.
    fn answer_read(
        &mut self,
        alloc: Global,
        service: &Service,
        answered: Answered<'_>,
    ) -> Result<(), AllocError>
        ensures { (any : Bool) (start : ℕ) (waits : List Wait) → IsCell any start waits self.old → OnOk result (IsCell any start (read_left (rules_of service.now) answered.entry.number answered.entry.status answered.entry.bytes.now waits) self.new) }
    {
        let Answered {
            line,
            number,
            status,
            bytes,
        } = answered;
        let bytes = success_bytes(status, bytes);
        self.fill(alloc, service, number, bytes)?;
        self.add_if(alloc, line, read_end(number, status, bytes))
    }

    /// Takes the answer to such a request.
    fn answer(
        &mut self,
        alloc: Global,
        service: &Service,
        kind: Kind,
        answered: Answered<'_>,
    ) -> Result<(), AllocError>
        ensures { (any : Bool) (start : ℕ) (waits : List Wait) → IsCell any start waits self.old → OnOk result (IsCell any start (answer_left (rules_of service.now) kind answered.entry.number answered.entry.status answered.entry.bytes.now waits) self.new) }
    {
        match kind {
            Kind::Read => self.answer_read(alloc, service, answered),
            Kind::Write => {
                let end = end_of(answered.number, answered.status);
                self.add(alloc, answered.line, Wait::Known(end))
            }
            Kind::Flush => Ok(()),
        }
    }

    /// Takes a label that is for the sector.
    fn take_label(
        &mut self,
        alloc: Global,
        service: &Service,
        told: Told<'_>,
        place: Place,
    ) -> Result<(), AllocError>
        requires { 0 < service.now.sector_size }
        ensures { (any : Bool) (start : ℕ) (waits : List Wait) → IsCell any start waits self.old → OnOk result (IsCell any start (label_left (rules_of service.now) place.sector told.entry.kind told.entry.label.now waits) self.new) }
    {
        match told.label {
            Label::Call { number, request } => {
                let wait = wait_of(alloc, service, place, *number, request)?;
                self.add_if(alloc, told.line, wait)
            }
            Label::Answer {
                number,
                status,
                bytes,
                ..
            } => {
                let answered = Answered {
                    line: told.line,
                    number: *number,
                    status: *status,
                    bytes: bytes.as_slice(),
                };
                self.answer(alloc, service, told.kind, answered)
            }
            _ => Ok(()),
        }
    }

    /// Takes the next label that is for the sector.
    pub fn take(
        &mut self,
        alloc: Global,
        basis: &Basis,
        told: Told<'_>,
        place: Place,
    ) -> Result<(), AllocError>
        requires { 0 < basis.now.service.sector_size }
        ensures { (waits : List Wait) → IsCell basis.now.start.any basis.now.start.bytes waits self.old → IsToldOf (rules_of basis.now.service) place.partition place.sector waits told.entry.kind told.entry.label.now → OnOk result (IsCell basis.now.start.any basis.now.start.bytes (step code (rules_of basis.now.service) place.partition place.sector waits told.entry.label.now) self.new) }
    {
        self.past.note(told)?;
        self.take_label(alloc, &basis.service, told, place)?;
        if self.tries.is_empty() && may_begin(told) {
            return self.begin(alloc, &basis.start);
        }
        Ok(())
    }

    /// What is known of the sector, where what is not answered never will be.
    pub fn judge(&self, alloc: Global, basis: &Basis) -> Result<Tried, AllocError>
        ensures { (waits : List Wait) → IsCell basis.now.start.any basis.now.start.bytes waits self.now → IfOk result (λ tried. IsTriedBy basis.now.start.any basis.now.service.sector_size basis.now.start.bytes (known waits) tried.so_far) }
    {
        let Basis { service, start } = basis;
        let given = known_of(alloc, self.waits.as_slice())?;
        let size = service.sector_size;
        if self.tries.is_empty() {
            return judge_all_starts(alloc, size, &start.bytes, given.as_slice());
        }
        let tries = self.tries.as_slice();
        judge_tries(alloc, start.any, size, tries, given.as_slice())
    }
}
