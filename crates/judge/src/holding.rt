//! Cancellation, the hold and removal.

ghost use Rattle.std.specs.Prelude.{◌≡◌, ◌||◌, nat_le, IfOk, List, map, count_by, nat_lt};
ghost use Rattle.machine.specs.Numbers.{request_number};
ghost use Rattle.machine.specs.Holding.{held_back, as_timely};
ghost use Rattle.judge.specs.Next.{cancelled, paused, resumed, drained, surprised, ended};
ghost use Rattle.judge.specs.Views.{rules_of, held_by, is_less};

use crate::NoVerdict;
use crate::machine_state::Machine;
use crate::open::Open;
use crate::rules::MachineRules;
use std::alloc::{AllocError, Global};

/// Returns how many of the numbers are below one.
fn count_below(numbers: &[u64], number: u64) -> u64
    ensures { result ≡ count_by (is_less number) numbers.now }
{
    let mut count = 0;
    for other in numbers {
        if *other < number {
            count += 1;
        }
    }
    count
}

/// The numbers of requests.
fn numbers_of(alloc: Global, requests: &[Open]) -> Result<Vec<u64>, AllocError>
    ensures { IfOk result (λ numbers. numbers.items ≡ map request_number requests.now) }
{
    let mut numbers = Vec::new(alloc);
    for entry in requests {
        numbers.push(entry.number())?;
    }
    Ok(numbers)
}

/// The request, late where at least a window of the numbers are lower.
fn held(mut entry: Open, window: u64, numbers: &[u64]) -> Open
    ensures { result ≡ held_by window numbers.now entry }
{
    let late = entry.is_late() || window <= count_below(numbers, entry.number());
    entry.set_late(late);
    entry
}

/// All requests, each late where at least a window of the numbers are lower.
fn all_held(
    alloc: Global,
    requests: Vec<Open>,
    window: u64,
    numbers: &[u64],
) -> Result<Vec<Open>, AllocError>
    ensures { IfOk result (λ after. after.items ≡ map (held_by window numbers.now) requests.items) }
{
    let mut after = Vec::new(alloc);
    for entry in requests {
        after.push(held(entry, window, numbers))?;
    }
    Ok(after)
}

/// Makes all requests late but the lowest, as many as the window has.
#[tactic(auto, using(crate::proofs::Lateness::held_so))]
fn held_back(
    alloc: Global,
    requests: Vec<Open>,
    window: Option<u64>,
) -> Result<Vec<Open>, AllocError>
    ensures { IfOk result (λ after. after.items ≡ held_back window requests.items) }
{
    let Some(window) = window else {
        return Ok(requests);
    };
    let numbers = numbers_of(alloc, requests.as_slice())?;
    all_held(alloc, requests, window, numbers.as_slice())
}

/// Makes no request late any more.
fn all_timely(alloc: Global, requests: Vec<Open>) -> Result<Vec<Open>, AllocError>
    ensures { IfOk result (λ after. after.items ≡ map as_timely requests.items) }
{
    let mut after = Vec::new(alloc);
    for mut entry in requests {
        entry.set_late(false);
        after.push(entry)?;
    }
    Ok(after)
}

impl Machine {
    /// The machine after a cancel.
    pub(crate) fn cancelled(mut self, number: u64) -> Result<Option<Machine>, NoVerdict>
        ensures { IfOk result (λ next. next ≡ cancelled self number) }
    {
        let Some(entry) = self.take_open(number) else {
            return Ok(None);
        };
        self.put_open(entry.cancelled())?;
        Ok(Some(self))
    }

    /// The machine after a pause.
    pub(crate) fn paused(
        mut self,
        alloc: Global,
        rules: &MachineRules,
    ) -> Result<Machine, NoVerdict>
        ensures { IfOk result (λ m. m ≡ paused (rules_of rules.now) self) }
    {
        self.requests = held_back(alloc, self.requests, rules.window)?;
        self.paused = true;
        Ok(self)
    }

    /// The machine after the end of a pause.
    pub(crate) fn resumed(mut self, alloc: Global) -> Result<Machine, NoVerdict>
        ensures { IfOk result (λ m. m ≡ resumed self) }
    {
        self.requests = all_timely(alloc, self.requests)?;
        self.paused = false;
        Ok(self)
    }

    /// The machine after a removal.
    pub(crate) fn drained(mut self) -> Machine
        ensures { result ≡ drained self }
    {
        self.paused = false;
        self.removing = true;
        self
    }

    /// The machine after a surprise removal.
    pub(crate) fn surprised(
        mut self,
        alloc: Global,
        rules: &MachineRules,
    ) -> Result<Machine, NoVerdict>
        ensures { IfOk result (λ m. m ≡ surprised (rules_of rules.now) self) }
    {
        if !self.paused {
            self.requests = held_back(alloc, self.requests, rules.window)?;
        }
        self.paused = false;
        self.removing = true;
        Ok(self)
    }

    /// The machine after the end of a removal.
    pub(crate) fn ended(mut self) -> Machine
        ensures { result ≡ ended self }
    {
        self.removed = true;
        self
    }
}
