//! What is seen of a sector, label by label, and what waits for an answer.

ghost use Rattle.std.specs.Prelude.{◌≡◌, ◌<◌, ◌∷◌, ◌++◌, [], IfOk, OnOk, option_copied, option_map};
ghost use Rattle.history.specs.declared.Wait.TheVariants.{Known};
ghost use Rattle.register.specs.Values.{code};
ghost use Rattle.history.specs.Sights.{end_of};
ghost use Rattle.history.specs.Waits.{fill, filled_by, known, read_by, with_wait};
ghost use Rattle.history_fitting.specs.Services.{rules_of};
ghost use Rattle.history_judge.specs.inside.Cells.{IsFront, call_wait, is_known, plain, sights_in, wait_in};

use history::Wait;
use history_fitting::{Place, Service, contents_of};
use machine::{ClientRequest, Kind};
use ntstatus::NtStatus;
use register::{Contents, Sight};
use std::alloc::{AllocError, Global};

/// What is seen, or waits, and the line of its label.
#[derive(Drop)]
pub(crate) struct Marked {
    pub line: u64,
    pub wait: Wait,
}

/// What is seen, and the line of its label.
#[derive(Drop)]
pub(crate) struct Given {
    pub line: u64,
    pub sight: Sight,
}

/// What a call shows of one of its sectors.
pub(crate) fn wait_of(
    alloc: Global,
    service: &Service,
    place: Place,
    number: u64,
    request: &ClientRequest,
) -> Result<Option<Wait>, AllocError>
    requires { 0 < service.now.sector_size }
    ensures { IfOk result (λ wait. wait ≡ call_wait (rules_of service.now) place.sector number request.now request.now.kind) }
{
    let first = request.offset / service.sector_size as u64;
    let at = place.sector.saturating_sub(first);
    match request.kind {
        Kind::Write => {
            let value = contents_of(alloc, service.sector_size, request.bytes.as_slice(), at)?;
            Ok(Some(Wait::Known(Sight::Write { number, value })))
        }
        Kind::Read => Ok(Some(Wait::Awaits { number, place: at })),
        Kind::Flush => Ok(None),
    }
}

pub(crate) fn end_of(number: u64, status: NtStatus) -> Sight
    ensures { result ≡ end_of number status }
{
    match status {
        NtStatus::Success => Sight::Done { number },
        _ => Sight::Failed { number },
    }
}

/// The same sight once more.
pub(crate) fn copy_of(sight: &Sight) -> Result<Sight, AllocError>
    ensures { IfOk result (λ copy. copy ≡ sight.now) }
{
    match sight {
        Sight::Write { number, value } => Ok(Sight::Write {
            number: *number,
            value: value.share()?,
        }),
        Sight::Read { number, value } => Ok(Sight::Read {
            number: *number,
            value: value.share()?,
        }),
        Sight::Done { number } => Ok(Sight::Done { number: *number }),
        Sight::Failed { number } => Ok(Sight::Failed { number: *number }),
    }
}

/// The call of a read, if its answer brings these bytes.
fn read_by(
    alloc: Global,
    service: &Service,
    number: u64,
    place: u64,
    bytes: Option<&[u8]>,
) -> Result<Option<Wait>, AllocError>
    ensures { IfOk result (λ wait. wait ≡ option_map Known (read_by code (rules_of service.now) number place (option_copied bytes.entry))) }
{
    match bytes {
        Some(bytes) => {
            let value = contents_of(alloc, service.sector_size, bytes, place)?;
            Ok(Some(Wait::Known(Sight::Read { number, value })))
        }
        None => Ok(None),
    }
}

/// What becomes of a wait behind the answer to a request, which brings these bytes if it is a success.
pub(crate) fn filled_by(
    alloc: Global,
    service: &Service,
    number: u64,
    bytes: Option<&[u8]>,
    wait: Wait,
) -> Result<Option<Wait>, AllocError>
    ensures { IfOk result (λ left. left ≡ filled_by code (rules_of service.now) number (option_copied bytes.entry) wait) }
{
    match wait {
        Wait::Known(sight) => Ok(Some(Wait::Known(sight))),
        Wait::Awaits {
            number: read,
            place,
        } => {
            if number == read {
                return read_by(alloc, service, read, place, bytes);
            }
            Ok(Some(Wait::Awaits {
                number: read,
                place,
            }))
        }
    }
}

/// Whether it is known what is seen.
fn is_known(wait: &Wait) -> bool
    ensures { result ≡ is_known wait.now }
{
    match wait {
        Wait::Known(_) => true,
        Wait::Awaits { .. } => false,
    }
}

/// Adds what is seen, if it is known.
fn push_known(given: &mut Vec<Given>, marked: &Marked) -> Result<(), AllocError>
    ensures { OnOk result (sights_in given.new.items ≡ sights_in given.old.items ++ known (marked.now.wait ∷ [])) }
{
    match &marked.wait {
        Wait::Known(sight) => {
            let sight = copy_of(sight)?;
            let line = marked.line;
            given.push(Given { line, sight })?;
            Ok(())
        }
        Wait::Awaits { .. } => Ok(()),
    }
}

/// What is known before anything waits.
pub(crate) fn known_front(alloc: Global, waits: &[Marked]) -> Result<Vec<Given>, AllocError>
    ensures { IfOk result (λ given. IsFront waits.now given.items) }
{
    let mut given = Vec::new(alloc);
    for marked in waits {
        if !is_known(&marked.wait) {
            return Ok(given);
        }
        push_known(&mut given, marked)?;
    }
    Ok(given)
}

/// What is known.
pub(crate) fn known_of(alloc: Global, waits: &[Marked]) -> Result<Vec<Given>, AllocError>
    ensures { IfOk result (λ given. sights_in given.items ≡ known (plain waits.now)) }
{
    let mut given = Vec::new(alloc);
    for marked in waits {
        push_known(&mut given, marked)?;
    }
    Ok(given)
}
