//! What all sectors see of a session: calls and ends of flushes, and of writes past volatile caches.

ghost use Rattle.std.specs.Prelude.{◌≡◌, [], ℕ, None, OnOk, is_some};
ghost use Rattle.history_loss_kept.specs.Kept.{is_success, outcome_of, settled};
ghost use Rattle.history_loss_sector.specs.Seen.{shared_in};
ghost use Rattle.history_loss_judge.specs.inside.Syncs.{
  BeginsBy,
  FinishesBy,
  IsFound,
  IsIndexed,
  IsSyncOf,
  PutsSync,
  TakesAnswer,
  TakesCall,
  index_of,
  sync_kind,
};

use history_loss_kept::{Outcome, Shared};
use history_loss_sector::SharedAt;
use machine::{ClientRequest, Kind, Label};
use ntstatus::NtStatus;
use std::alloc::{AllocError, Global};
use std::collections::BTreeMap;

/// What all sectors see of a session.
#[derive(Drop)]
pub(crate) struct Syncs {
    pub shared: Vec<SharedAt>,
    /// By its number, where the call of each open one stands.
    pub calls: BTreeMap<u64, usize>,
}

/// Whether a request is a flush, if it is one of all sectors.
fn sync_kind(request: &ClientRequest) -> Option<bool>
    ensures { result ≡ sync_kind request.now.kind request.now.through }
{
    match request.kind {
        Kind::Read => None,
        Kind::Write => { if request.through { Some(false) } else { None } }
        Kind::Flush => Some(true),
    }
}

fn is_success(status: NtStatus) -> bool
    ensures { result ≡ is_success status }
{
    matches!(status, NtStatus::Success)
}

fn outcome_of(status: NtStatus) -> Outcome
    ensures { result ≡ outcome_of status }
{
    match status {
        NtStatus::Success => Outcome::Done,
        _ => Outcome::Failed,
    }
}

/// One that ended so.
fn settled(one: SharedAt, number: u64, status: NtStatus) -> SharedAt
    ensures { result.shared ≡ settled number status one.shared }
{
    let line = one.line;
    match one.shared {
        Shared::Call {
            number: called,
            is_flush,
            outcome,
        } => {
            let outcome = if called == number {
                outcome_of(status)
            } else {
                outcome
            };
            SharedAt {
                line,
                shared: Shared::Call {
                    number: called,
                    is_flush,
                    outcome,
                },
            }
        }
        Shared::End { number, is_success } => SharedAt {
            line,
            shared: Shared::End { number, is_success },
        },
    }
}

impl Syncs {
    /// None.
    pub fn new(alloc: Global) -> Syncs
        ensures shared { shared_in result.shared.items ≡ [] }
        ensures none { (n : ℕ) → index_of result.calls n ≡ None }
    {
        Syncs {
            shared: Vec::new(alloc),
            calls: BTreeMap::new(alloc),
        }
    }

    /// Whether all sectors see a request that is open.
    fn has(&self, number: u64) -> bool
        ensures { result ≡ is_some (index_of self.now.calls number) }
    {
        self.calls.get(&number).is_some()
    }

    /// Notes the call of a flush, or of a write past volatile caches.
    fn note(&mut self, line: u64, number: u64, is_flush: bool) -> Result<(), AllocError>
        ensures { OnOk result (PutsSync number is_flush self.old self.new) }
    {
        let at = self.shared.len();
        self.shared.push(SharedAt {
            line,
            shared: Shared::Call {
                number,
                is_flush,
                outcome: Outcome::Open,
            },
        })?;
        self.calls.insert(number, at)?;
        Ok(())
    }

    /// Takes a call.
    fn call(&mut self, line: u64, number: u64, request: &ClientRequest) -> Result<(), AllocError>
        ensures { OnOk result (TakesCall number (sync_kind request.now.kind request.now.through) self.old self.new) }
    {
        match sync_kind(request) {
            Some(is_flush) => self.note(line, number, is_flush),
            None => Ok(()),
        }
    }

    /// Takes the call of what all sectors see, if a label is one.
    pub fn begin(&mut self, line: u64, label: &Label) -> Result<(), AllocError>
        ensures { OnOk result (BeginsBy label.now self.old self.new) }
    {
        match label {
            Label::Call { number, request } => self.call(line, *number, request),
            _ => Ok(()),
        }
    }

    /// Whether a label answers what all sectors see.
    pub fn answers(&self, label: &Label) -> bool
        ensures { IsSyncOf self.now label.now result }
    {
        match label {
            Label::Answer { number, .. } => self.has(*number),
            _ => false,
        }
    }

    /// Takes the answer to what all sectors see, if a label is one.
    pub fn finish(&mut self, line: u64, label: &Label) -> Result<(), AllocError>
        requires { IsFound self.old label.now }
        ensures { OnOk result (FinishesBy label.now self.old self.new) }
    {
        match label {
            Label::Answer { number, status, .. } => self.answer(line, *number, *status),
            _ => Ok(()),
        }
    }

    /// Takes the answer to a request that is open.
    fn answer(&mut self, line: u64, number: u64, status: NtStatus) -> Result<(), AllocError>
        requires { IsIndexed self.old.shared.items number (index_of self.old.calls number) }
        ensures { OnOk result (TakesAnswer number status (index_of self.old.calls number) self.old self.new) }
    {
        let Some(at) = self.calls.remove(&number) else {
            return Ok(());
        };
        self.shared[at] = settled(self.shared[at], number, status);
        self.shared.push(SharedAt {
            line,
            shared: Shared::End {
                number,
                is_success: is_success(status),
            },
        })?;
        Ok(())
    }
}
