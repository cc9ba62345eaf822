//! What a sector sees alone in a session, and what an answer changes there.

ghost use Rattle.std.specs.Prelude.{◌≡◌, ◌∷◌, [], ℕ, IfOk, List, OnOk, option_copied};
ghost use Rattle.history_loss_kept.specs.Kept.{is_call_of};
ghost use Rattle.history_loss_sights.specs.Sights.{end_of};
ghost use Rattle.machine.specs.Rules.{Rules};
ghost use Rattle.history_loss_sector.specs.Seen.{IsOnce, is_for};
ghost use Rattle.history_loss_sector.specs.inside.Entries.{IsFilled, IsLast, IsReadBy, IsWaitBy};

use history_fitting::contents_of;
use history_loss_kept::{Own, Wait};
use ntstatus::NtStatus;
use register_loss::{Sight, What};
use std::alloc::{AllocError, Global};

/// What a sector alone sees, and the line of its label.
#[derive(Drop)]
pub(crate) struct Marked {
    pub line: u64,
    pub own: Own,
}

/// An answer to a request that moves the sector.
#[derive(Clone, Copy)]
pub struct Answered<'a> {
    /// The line of its label.
    pub line: u64,
    /// The number of the request.
    pub number: u64,
    pub status: NtStatus,
    /// The bytes that it brings, where it is a success.
    pub bytes: Option<&'a [u8]>,
    /// How much of what all sectors see in the session came before.
    pub behind: u64,
    /// Whether all sectors see the request.
    pub is_sync: bool,
}

pub(crate) fn end_of(number: u64, status: NtStatus) -> Sight
    ensures { result ≡ end_of number status }
{
    match status {
        NtStatus::Success => Sight::Done { number },
        _ => Sight::Failed { number },
    }
}

/// Whether a sight is the call of this request.
fn is_call_of(number: u64, sight: &Sight) -> bool
    ensures { result ≡ is_call_of number sight.now }
{
    match sight {
        Sight::Call { number: other, .. } => *other == number,
        Sight::Elsewhere { .. } => false,
        Sight::Done { .. } => false,
        Sight::Failed { .. } => false,
        Sight::Lost => false,
        Sight::Ended => false,
    }
}

/// Whether an entry is the call of this request.
fn is_for(number: u64, own: &Own) -> bool
    ensures { result ≡ is_for number own.now }
{
    match &own.wait {
        Wait::Known(sight) => is_call_of(number, sight),
        Wait::Awaits { number: other, .. } => *other == number,
    }
}

/// The place of the last entry that is the call of this request.
fn last_of(number: u64, own: &[Marked]) -> Option<usize>
    ensures { IsLast number own.now result }
{
    let mut left = own.len();
    while left > 0 {
        left -= 1;
        if is_for(number, &own[left].own) {
            return Some(left);
        }
    }
    None
}

/// The call of a read, if its answer brings bytes.
fn read_by(
    alloc: Global,
    sector_size: u32,
    number: u64,
    place: u64,
    bytes: Option<&[u8]>,
) -> Result<Option<Wait>, AllocError>
    ensures { IfOk result (IsReadBy sector_size number place (option_copied bytes.entry)) }
{
    match bytes {
        Some(bytes) => {
            let value = contents_of(alloc, sector_size, bytes, place)?;
            let what = What::Read { value };
            Ok(Some(Wait::Known(Sight::Call { number, what })))
        }
        None => Ok(None),
    }
}

/// What becomes of the call of a request behind its answer.
fn wait_by(
    alloc: Global,
    sector_size: u32,
    wait: Wait,
    answered: Answered<'_>,
) -> Result<Option<Wait>, AllocError>
    ensures { IfOk result (IsWaitBy sector_size answered.entry.number (option_copied answered.entry.bytes) wait) }
{
    match wait {
        Wait::Known(sight) => Ok(Some(Wait::Known(sight))),
        Wait::Awaits { number, place } => {
            if number == answered.number {
                return read_by(alloc, sector_size, number, place, answered.bytes);
            }
            Ok(Some(Wait::Awaits { number, place }))
        }
    }
}

/// Fills in what an answer brings, and tells whether the call of its request is seen.
pub(crate) fn fill(
    alloc: Global,
    sector_size: u32,
    own: &mut Vec<Marked>,
    answered: Answered<'_>,
) -> Result<bool, AllocError>
    ensures { IfOk result (IsFilled sector_size answered.entry.number (option_copied answered.entry.bytes) own.old.items own.new.items) }
{
    let Some(at) = last_of(answered.number, own.as_slice()) else {
        return Ok(false);
    };
    let Marked {
        line,
        own: Own { behind, wait },
    } = own.remove(at);
    let Some(wait) = wait_by(alloc, sector_size, wait, answered)? else {
        return Ok(false);
    };
    let filled = Own { behind, wait };
    own.insert(at, Marked { line, own: filled })?;
    Ok(true)
}
