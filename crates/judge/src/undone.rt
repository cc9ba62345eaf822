//! What a machine leaves undone that isn't settled.

ghost use Rattle.std.specs.Prelude.{◌≡◌, ◌↔◌, None, List, IfSome, IsTrue, count_by, option_map};
ghost use Rattle.std.specs.Option.{option_copied};
ghost use Rattle.std.specs.List.{find};
ghost use Rattle.machine.specs.Calling.{is_full};
ghost use Rattle.machine.specs.Sending.{is_started};
ghost use Rattle.machine.specs.Settled.{has_out, started_count, Settled};
ghost use Rattle.judge.specs.Settling.{is_held, waits_if_cancelled, is_all_sent, is_held_back, has_more, is_at_work};
ghost use Rattle.judge.specs.Undoing.{failing, owed_undone, window_undone, removing_undone, waiting_undone, unpaused_undone, idle_undone, sending_undone, served_undone, undone};
ghost use Rattle.judge.specs.LeftUndone.{IsUndone};
ghost use Rattle.judge.specs.Views.{rules_of, owed_of};

use crate::call_rules::is_full;
use crate::machine_state::{Debt, Machine};
use crate::open::Open;
use crate::rules::MachineRules;
use crate::undone_rules::Undone;

/// Returns how many of the requests are started.
fn count_started(requests: &[Open]) -> usize
    ensures { result ≡ count_by is_started requests.now }
{
    let mut count = 0;
    for entry in requests {
        if entry.is_started() {
            count += 1;
        }
    }
    count
}

impl Open {
    /// Whether the request waits for a piece, if it is cancelled.
    fn waits_if_cancelled(&self) -> bool
        ensures { result ≡ waits_if_cancelled self.now }
    {
        !self.is_cancelled() || self.has_out()
    }

    /// Whether the request waits for a piece or has one to send, if it is started.
    fn has_more(&self) -> bool
        ensures { result ≡ has_more self.now }
    {
        !self.is_started() || self.has_out() || self.has_unsent()
    }

    /// Whether a pause holds the request.
    fn is_held(&self) -> bool
        ensures { result ≡ is_held self.now }
    {
        !self.is_started() && self.is_late()
    }

    /// Whether the request waits for a piece, if it is started.
    fn is_at_work(&self) -> bool
        ensures { result ≡ is_at_work self.now }
    {
        !self.is_started() || self.has_out()
    }

    /// Whether the request is started, late, or behind a full window.
    fn is_held_back(&self, full: bool) -> bool
        ensures { result ≡ is_held_back full self.now }
    {
        self.is_started() || self.is_late() || full
    }
}

fn first_unanswered(requests: &[Open]) -> Option<&Open>
    ensures { option_copied result ≡ find (failing waits_if_cancelled) requests.now }
{
    requests.iter().find(|entry| !entry.waits_if_cancelled())
}

fn first_without_piece(requests: &[Open]) -> Option<&Open>
    ensures { option_copied result ≡ find (failing has_out) requests.now }
{
    requests.iter().find(|entry| !entry.has_out())
}

fn first_ended(requests: &[Open]) -> Option<&Open>
    ensures { option_copied result ≡ find (failing has_more) requests.now }
{
    requests.iter().find(|entry| !entry.has_more())
}

fn first_not_held(requests: &[Open]) -> Option<&Open>
    ensures { option_copied result ≡ find (failing is_held) requests.now }
{
    requests.iter().find(|entry| !entry.is_held())
}

fn first_at_rest(requests: &[Open]) -> Option<&Open>
    ensures { option_copied result ≡ find (failing is_at_work) requests.now }
{
    requests.iter().find(|entry| !entry.is_at_work())
}

fn first_unsent(requests: &[Open], busy_limit: u64) -> Option<&Open>
    ensures { option_copied result ≡ find (failing (is_all_sent busy_limit)) requests.now }
{
    requests.iter().find(|entry| !entry.is_all_sent(busy_limit))
}

fn first_unstarted(requests: &[Open], full: bool) -> Option<&Open>
    ensures { option_copied result ≡ find (failing (is_held_back full)) requests.now }
{
    requests.iter().find(|entry| !entry.is_held_back(full))
}

/// The answer that is owed, if one is.
fn owed(debt: Option<Debt>) -> Option<Undone>
    ensures { result ≡ owed_undone (option_map owed_of debt) }
{
    let debt = debt?;
    Some(Undone::Owed {
        number: debt.number,
        status: debt.status,
    })
}

/// More requests than the window has.
fn over_window(window: Option<u64>, started: usize) -> Option<Undone>
    ensures { result ≡ window_undone window started }
{
    let window = window?;
    let started = started as u64;
    if started <= window {
        None
    } else {
        Some(Undone::Window { window, started })
    }
}

impl Machine {
    /// A request that waits for nothing in a removal.
    fn removing_undone(&self) -> Option<Undone>
        ensures { result ≡ removing_undone self.now }
    {
        if !self.removing {
            return None;
        }
        let entry = first_without_piece(self.requests.as_slice())?;
        Some(Undone::Removing {
            number: entry.number(),
        })
    }

    /// A request that waits for nothing.
    fn waiting_undone(&self) -> Option<Undone>
        ensures { result ≡ waiting_undone self.now }
    {
        let requests = self.requests.as_slice();
        if let Some(entry) = first_unanswered(requests) {
            return Some(Undone::Cancelled {
                number: entry.number(),
            });
        }
        let removing = self.removing_undone();
        if removing.is_some() {
            return removing;
        }
        let entry = first_ended(requests)?;
        Some(Undone::Ended {
            number: entry.number(),
        })
    }

    /// A request that is open without a pause.
    fn unpaused_undone(&self) -> Option<Undone>
        ensures { result ≡ unpaused_undone self.now }
    {
        if self.paused {
            return None;
        }
        let entry = self.requests.first()?;
        Some(Undone::Idle {
            number: entry.number(),
        })
    }

    /// A request that no pause holds, with nothing at the adapter.
    fn idle_undone(&self) -> Option<Undone>
        ensures { result ≡ idle_undone self.now }
    {
        if !self.pieces.is_empty() {
            return None;
        }
        if let Some(entry) = first_not_held(self.requests.as_slice()) {
            return Some(Undone::Idle {
                number: entry.number(),
            });
        }
        self.unpaused_undone()
    }

    /// Whether no further request may be started.
    fn has_full_window(&self, rules: &MachineRules) -> bool
        ensures { result ≡ is_full (rules_of rules.now).window (started_count self.now) }
    {
        is_full(rules.window, count_started(self.requests.as_slice()))
    }

    /// A request that may be sent.
    fn sending_undone(&self, rules: &MachineRules) -> Option<Undone>
        ensures { result ≡ sending_undone (rules_of rules.now) self.now }
    {
        if self.removing {
            return None;
        }
        let requests = self.requests.as_slice();
        if let Some(entry) = first_unsent(requests, rules.busy_limit) {
            return Some(Undone::Unsent {
                number: entry.number(),
            });
        }
        let entry = first_unstarted(requests, self.has_full_window(rules))?;
        Some(Undone::Unstarted {
            number: entry.number(),
        })
    }

    /// A request that may go, with a tag free.
    fn served_undone(&self, rules: &MachineRules) -> Option<Undone>
        ensures { result ≡ served_undone (rules_of rules.now) self.now }
    {
        if self.pieces.len() as u64 >= rules.depth as u64 {
            return None;
        }
        if let Some(entry) = first_at_rest(self.requests.as_slice()) {
            return Some(Undone::AtRest {
                number: entry.number(),
            });
        }
        self.sending_undone(rules)
    }

    /// The first thing that is left undone.
    pub(crate) fn left(&self, rules: &MachineRules) -> Option<Undone>
        ensures { result ≡ undone (rules_of rules.now) self.now }
    {
        let started = count_started(self.requests.as_slice());
        let told = owed(self.owed).or(over_window(rules.window, started));
        let kept = self.idle_undone().or(self.served_undone(rules));
        told.or(self.waiting_undone().or(kept))
    }

    /// Returns what is left undone here; nothing exactly where the machine is settled.
    pub fn undone(&self, rules: &MachineRules) -> Option<Undone>
        ensures exact { (result ≡ None) ↔ Settled (rules_of rules.now) self.now }
        ensures left { IfSome result (λ what. IsUndone (rules_of rules.now) self.now what) }
    {
        let left = self.left(rules);
        left
    }

    /// Whether the machine is settled: what no step of the stack leaves undone is done.
    pub fn is_settled(&self, rules: &MachineRules) -> bool
        ensures { IsTrue result ↔ Settled (rules_of rules.now) self.now }
    {
        match self.left(rules) {
            None => true,
            Some(_) => false,
        }
    }
}
