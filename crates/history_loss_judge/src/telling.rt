//! What a label tells one of the sectors of its request.

ghost use Rattle.std.specs.Prelude.{◌≡◌, ℕ, IfOk, List, OnOk, option_copied};
ghost use Rattle.history_loss_kept.specs.declared.Shared.{Shared};
ghost use Rattle.history_loss_sights.specs.Sights.{success_bytes};
ghost use Rattle.history_fitting.specs.Services.{rules_of};
ghost use Rattle.history_loss_judge.specs.inside.Telling.{IsToldOf, IsWaitOf, behind_label};

use history_fitting::{Service, contents_of};
use history_loss_kept::Wait;
use history_loss_sector::{Answered, Seen};
use machine::{ClientRequest, Kind, Label};
use ntstatus::NtStatus;
use register::Contents;
use register_loss::{Sight, What};
use std::alloc::{AllocError, Global};

/// A service, and what its sectors had at the start.
#[derive(Drop)]
pub(crate) struct Basis {
    pub service: Service,
    pub start: Contents,
}

/// A label, its line, and what came before it in its session.
#[derive(Clone, Copy)]
pub(crate) struct Told<'a> {
    pub line: u64,
    pub label: &'a Label,
    /// How much of what all sectors see came before, a call's own among it.
    pub behind: u64,
    /// Whether all sectors see the request.
    pub is_sync: bool,
}

/// What a call shows of the sector at one of its places.
fn wait_of(
    alloc: Global,
    service: &Service,
    place: u64,
    number: u64,
    request: &ClientRequest,
) -> Result<Option<Wait>, AllocError>
    ensures { IfOk result (IsWaitOf (rules_of service.now) place number request.now) }
{
    match request.kind {
        Kind::Write => {
            let bytes = request.bytes.as_slice();
            let value = contents_of(alloc, service.sector_size, bytes, place)?;
            let what = What::Write {
                value,
                through: request.through,
            };
            Ok(Some(Wait::Known(Sight::Call { number, what })))
        }
        Kind::Read => Ok(Some(Wait::Awaits { number, place })),
        Kind::Flush => Ok(None),
    }
}

/// The bytes that an answer brings, if it is a success.
fn success_bytes(status: NtStatus, bytes: &[u8]) -> Option<&[u8]>
    ensures { option_copied result ≡ success_bytes status bytes.now }
{
    match status {
        NtStatus::Success => Some(bytes),
        _ => None,
    }
}

/// Tells a sector of a label that is for it: it lies at this place of the request.
pub(crate) fn tell(
    alloc: Global,
    service: &Service,
    told: Told<'_>,
    place: u64,
    seen: &mut Seen,
) -> Result<(), AllocError>
    ensures { (i : ℕ) (shared : List Shared) → IsToldOf (rules_of service.now) i place shared seen.old.own told.entry.behind told.entry.is_sync told.entry.label.now
        → OnOk result (seen.new ≡ behind_label (rules_of service.now) i shared told.entry.label.now seen.old) }
{
    match told.label {
        Label::Call { number, request } => {
            match wait_of(alloc, service, place, *number, request)? {
                Some(wait) => seen.call(told.line, told.behind, wait),
                None => Ok(()),
            }
        }
        Label::Answer {
            number,
            status,
            bytes,
            ..
        } => {
            let answered = Answered {
                line: told.line,
                number: *number,
                status: *status,
                bytes: success_bytes(*status, bytes.as_slice()),
                behind: told.behind,
                is_sync: told.is_sync,
            };
            seen.answer(alloc, service.sector_size, answered)
        }
        _ => Ok(()),
    }
}
