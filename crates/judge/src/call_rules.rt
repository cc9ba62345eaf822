//! Calls and answers.

ghost use Rattle.std.specs.Prelude.{◌≡◌, IfOk, length};
ghost use Rattle.machine.specs.Calling.{is_full, refusal, bytes_carried};
ghost use Rattle.machine.specs.Answering.{information};
ghost use Rattle.judge.specs.Next.{admitted, called, answered, repaid};
ghost use Rattle.judge.specs.Views.{rules_of};

use crate::NoVerdict;
use crate::copies::request_copied;
use crate::machine_state::{Debt, Machine};
use crate::open::Open;
use crate::rules::{MachineRules, moves_bytes};
use machine::{ClientRequest, Kind};
use ntstatus::NtStatus;
use std::alloc::Global;

/// Whether the count is at its limit, if it has one.
pub(crate) fn is_full(most: Option<u64>, count: usize) -> bool
    ensures { result ≡ is_full most count }
{
    match most {
        Some(most) => most <= count as u64,
        None => false,
    }
}

/// Returns how many bytes come with a call.
pub(crate) fn bytes_carried(kind: Kind, length: u64) -> u64
    ensures { result ≡ bytes_carried kind length }
{
    match kind {
        Kind::Write => length,
        Kind::Read | Kind::Flush => 0,
    }
}

/// The number of bytes that a request tells when it ends with this status.
pub(crate) fn information_of(q: &ClientRequest, status: NtStatus) -> u64
    ensures { result ≡ information q.now status }
{
    match status {
        NtStatus::Success if moves_bytes(q.kind) => q.length,
        _ => 0,
    }
}

impl Machine {
    /// Returns what a call is answered at once, if anything.
    pub(crate) fn refusal(&self, rules: &MachineRules, q: &ClientRequest) -> Option<NtStatus>
        ensures { result ≡ refusal (rules_of rules.now) self.now q.now }
    {
        let moves = moves_bytes(q.kind);
        if q.partition.is_none() {
            Some(NtStatus::InvalidHandle)
        } else if self.removing {
            Some(NtStatus::DeletePending)
        } else if moves && !rules.is_in_bounds(q) {
            Some(NtStatus::InvalidParameter)
        } else if moves && q.length == 0 {
            Some(NtStatus::Success)
        } else if is_full(rules.open_requests, self.requests.len()) {
            Some(NtStatus::DeviceBusy)
        } else {
            None
        }
    }

    /// Opens the request, or owes it that answer.
    fn admitted(
        mut self,
        alloc: Global,
        rules: &MachineRules,
        q: &ClientRequest,
        refused: Option<NtStatus>,
    ) -> Result<Machine, NoVerdict>
        ensures { IfOk result (λ m. m ≡ admitted (rules_of rules.now) self q.now refused) }
    {
        let number = self.next_request;
        let Some(next) = number.checked_add(1) else {
            return Err(NoVerdict::NoMemory);
        };
        self.next_request = next;
        match refused {
            None => {
                let request = request_copied(alloc, q)?;
                let open = Open::new(alloc, number, request, self.paused, rules.place_count(q))?;
                self.requests.push(open)?;
            }
            Some(status) => self.owed = Some(Debt { number, status }),
        }
        Ok(self)
    }

    /// The machine after a call.
    pub(crate) fn called(
        self,
        alloc: Global,
        rules: &MachineRules,
        q: &ClientRequest,
    ) -> Result<Machine, NoVerdict>
        ensures { IfOk result (λ m. m ≡ called (rules_of rules.now) self q.now) }
    {
        let refused = self.refusal(rules, q);
        self.admitted(alloc, rules, q, refused)
    }

    /// The machine after the answer of an open request.
    pub(crate) fn answered(mut self, number: u64) -> Option<Machine>
        ensures { result ≡ answered self number }
    {
        self.take_open(number)?;
        Some(self)
    }

    /// The machine after the answer that a refused call is owed.
    pub(crate) fn repaid(mut self) -> Machine
        ensures { result ≡ repaid self }
    {
        self.owed = None;
        self
    }
}
