//! Whether each label of a history may come behind those before it, whatever the sectors hold.

ghost use Rattle.std.specs.Prelude.{◌≡◌, ◌<◌, ◌==◌, ◌+◌, ℕ, None, OnOk, option_copied};
ghost use Rattle.machine.specs.Rules.{is_transfer};
ghost use Rattle.history_laws.specs.Fitting.{
  brought,
  carried,
  ends,
  informed_of,
  is_failure,
  refused,
};
ghost use Rattle.history_fitting.specs.Services.{rules_of};
ghost use Rattle.history_fitting.specs.Opened.{bare, brought_to, due, ends_request, may_come, may_come_blank, may_end, opened_at, Puts, PutsAnswer, PutsCall, Takes};

use crate::service::Service;
use history_laws::Asked;
use machine::{ClientRequest, Kind, Label};
use ntstatus::NtStatus;
use sector::Bytes;
use std::alloc::{AllocError, Global};
use std::collections::BTreeMap;

/// Why a label can't come where it stands.
#[derive(Debug, Clone, Copy, PartialEq, Eq)]
pub enum Misfit {
    /// The call has not the next number.
    Number,
    /// The call has not the bytes that it asks to write, or is refused and has some.
    Bytes,
    /// A refused call is to be answered first.
    Owing,
    /// What is answered isn't open.
    NotOpen,
    /// The status is none by which the request may end, or the answer has another number of bytes.
    Answer,
}

/// What is known of the calls so far.
#[derive(Drop)]
pub struct Known {
    /// By its number, each open request, without its bytes.
    pub opened: BTreeMap<u64, ClientRequest>,
    /// How many calls there were.
    pub calls: u64,
    /// What the last call is to be answered, where it was refused.
    pub owed: Option<NtStatus>,
}

fn is_transfer(kind: Kind) -> bool
    ensures { result ≡ is_transfer kind }
{
    match kind {
        Kind::Read | Kind::Write => true,
        Kind::Flush => false,
    }
}

/// What a call is answered at once, if it is refused.
fn refused(service: &Service, request: &ClientRequest) -> Option<NtStatus>
    requires { 0 < service.now.sector_size }
    ensures { result ≡ refused (rules_of service.now) request.now }
{
    if request.partition.is_none() {
        return Some(NtStatus::InvalidHandle);
    }
    if !is_transfer(request.kind) {
        return None;
    }
    if !service.is_in_bounds(request) {
        return Some(NtStatus::InvalidParameter);
    }
    if request.length == 0 {
        return Some(NtStatus::Success);
    }
    None
}

/// Whether a request that isn't refused may fail by this status.
fn is_failure(status: NtStatus) -> bool
    ensures { result ≡ is_failure status }
{
    match status {
        NtStatus::Cancelled
        | NtStatus::DeviceBusy
        | NtStatus::InvalidDeviceRequest
        | NtStatus::NoSuchDevice
        | NtStatus::DeviceNotReady
        | NtStatus::DeviceDataError
        | NtStatus::NonexistentSector
        | NtStatus::MediaWriteProtected
        | NtStatus::IoDeviceError => true,
        _ => false,
    }
}

/// The number of bytes that come with a call.
fn carried(refused: Option<NtStatus>, request: &ClientRequest) -> u64
    ensures { result ≡ carried refused request.now }
{
    match (refused, request.kind) {
        (None, Kind::Write) => request.length,
        _ => 0,
    }
}

/// The number of bytes that a success tells.
fn informed_of(asked: Asked) -> u64
    ensures { result ≡ informed_of asked }
{
    if is_transfer(asked.kind) {
        asked.length
    } else {
        0
    }
}

/// The number of bytes that a success brings.
fn brought(asked: Asked) -> u64
    ensures { result ≡ brought asked.kind asked.length }
{
    match asked.kind {
        Kind::Read => asked.length,
        Kind::Write | Kind::Flush => 0,
    }
}

/// Whether an open request may be answered so, with so many bytes.
fn ends(asked: Asked, status: NtStatus, informed: u64, count: u64) -> bool
    ensures { result ≡ ends asked status informed count }
{
    match status {
        NtStatus::Success => informed == informed_of(asked) && count == brought(asked),
        _ => is_failure(status) && informed == 0 && count == 0,
    }
}

/// The same of a request, if it is open.
fn ends_request(
    request: Option<&ClientRequest>,
    status: NtStatus,
    informed: u64,
    count: u64,
) -> bool
    ensures { result ≡ ends_request (option_copied request.entry) status informed count }
{
    let Some(request) = request else {
        return false;
    };
    let asked = Asked {
        kind: request.kind,
        length: request.length,
    };
    ends(asked, status, informed, count)
}

/// The number of bytes that the answer to a request brings, if it is open.
fn brought_to(request: Option<&ClientRequest>, status: NtStatus) -> u64
    ensures { result ≡ brought_to (option_copied request.entry) status }
{
    match (request, status) {
        (Some(request), NtStatus::Success) => brought(Asked {
            kind: request.kind,
            length: request.length,
        }),
        _ => 0,
    }
}

/// Whether a number is the next.
fn is_next(calls: u64, number: u64) -> bool
    ensures { result ≡ (number == calls + 1) }
{
    number != 0 && number - 1 == calls
}

/// A request without its bytes.
fn bare(alloc: Global, request: &ClientRequest) -> ClientRequest
    ensures { result ≡ bare request.now }
{
    ClientRequest {
        partition: request.partition,
        kind: request.kind,
        through: request.through,
        offset: request.offset,
        length: request.length,
        bytes: Bytes::new(Vec::new(alloc)),
    }
}

/// Opens a request, unless it was refused.
fn open(
    opened: &mut BTreeMap<u64, ClientRequest>,
    alloc: Global,
    refused: Option<NtStatus>,
    number: u64,
    request: &ClientRequest,
) -> Result<(), AllocError>
    ensures { OnOk result (PutsCall refused opened.old number request.now opened.new) }
{
    match refused {
        None => {
            let request = bare(alloc, request);
            opened.insert(number, request)?;
            Ok(())
        }
        Some(_) => Ok(()),
    }
}

/// Closes a request.
fn close_open(opened: &mut BTreeMap<u64, ClientRequest>, number: u64)
    ensures { Puts opened.old number None opened.new }
{
    opened.remove(&number);
}

/// Closes a request, unless it was refused.
fn close(opened: &mut BTreeMap<u64, ClientRequest>, owed: Option<NtStatus>, number: u64)
    ensures { PutsAnswer owed opened.old number opened.new }
{
    match owed {
        None => close_open(opened, number),
        Some(_) => {}
    }
}

impl Known {
    /// Before the first label.
    pub fn new(alloc: Global) -> Known
        ensures calls { result.calls ≡ 0 }
        ensures owed { result.owed ≡ None }
        ensures none { (number : ℕ) → opened_at result.opened number ≡ None }
    {
        let opened = BTreeMap::new(alloc);
        Known {
            opened,
            calls: 0,
            owed: None,
        }
    }

    /// Whether an answer may come.
    fn may_end(&self, number: u64, status: NtStatus, informed: u64, count: u64) -> bool
        ensures { result ≡ may_end self.now self.now.owed number status informed count }
    {
        match self.owed {
            Some(owed) => {
                number == self.calls
                    && status.value() == owed.value()
                    && informed == 0
                    && count == 0
            }
            None => ends_request(self.request(number), status, informed, count),
        }
    }

    /// The open request of a number, without its bytes.
    pub fn request(&self, number: u64) -> Option<&ClientRequest>
        ensures { option_copied result ≡ opened_at self.now.opened number }
    {
        self.opened.get(&number)
    }

    /// Whether a call or an answer may come behind those that were taken. Any other label may.
    pub fn may_come(&self, service: &Service, label: &Label) -> bool
        requires { 0 < service.now.sector_size }
        ensures { result ≡ may_come (rules_of service.now) self.now label.now }
    {
        match label {
            Label::Call { number, request } => {
                let wanted = carried(refused(service, request), request);
                self.owed.is_none()
                    && is_next(self.calls, *number)
                    && request.bytes.as_slice().len() as u64 == wanted
            }
            Label::Answer {
                number,
                status,
                information,
                bytes,
            } => self.may_end(
                *number,
                *status,
                *information,
                bytes.as_slice().len() as u64,
            ),
            _ => true,
        }
    }

    /// The number of bytes that an answer owes.
    fn due(&self, number: u64, status: NtStatus) -> u64
        ensures { result ≡ due self.now self.now.owed number status }
    {
        match self.owed {
            Some(_) => 0,
            None => brought_to(self.request(number), status),
        }
    }

    /// The same of a label whose bytes were not recorded: it has none, and may come with as many as are due.
    pub fn may_come_blank(&self, label: &Label) -> bool
        ensures { result ≡ may_come_blank self.now label.now }
    {
        match label {
            Label::Call { number, request } => {
                request.bytes.as_slice().len() == 0
                    && self.owed.is_none()
                    && is_next(self.calls, *number)
            }
            Label::Answer {
                number,
                status,
                information,
                bytes,
            } => {
                let due = self.due(*number, *status);
                bytes.as_slice().len() == 0 && self.may_end(*number, *status, *information, due)
            }
            _ => true,
        }
    }

    /// Takes the next label, which may come.
    ///
    /// # Errors
    ///
    /// [`AllocError`] where memory was refused.
    pub fn take(
        &mut self,
        alloc: Global,
        service: &Service,
        label: &Label,
    ) -> Result<(), AllocError>
        requires { 0 < service.now.sector_size }
        ensures { OnOk result (Takes (rules_of service.now) self.old label.now self.new) }
    {
        match label {
            Label::Call { number, request } => {
                let refused = refused(service, request);
                open(&mut self.opened, alloc, refused, *number, request)?;
                self.calls = *number;
                self.owed = refused;
            }
            Label::Answer { number, .. } => {
                close(&mut self.opened, self.owed, *number);
                self.owed = None;
            }
            _ => {}
        }
        Ok(())
    }

    /// Why a label that can't come can't.
    pub fn why_not(&self, label: &Label) -> Misfit {
        match label {
            Label::Call { .. } if self.owed.is_some() => Misfit::Owing,
            Label::Call { number, .. } if !is_next(self.calls, *number) => Misfit::Number,
            Label::Call { .. } => Misfit::Bytes,
            Label::Answer { number, .. } => self.why_no_answer(*number),
            _ => Misfit::NotOpen,
        }
    }

    fn why_no_answer(&self, number: u64) -> Misfit {
        let is_open = self.request(number).is_some();
        match self.owed {
            Some(_) if number == self.calls => Misfit::Answer,
            Some(_) => Misfit::Owing,
            None if is_open => Misfit::Answer,
            None => Misfit::NotOpen,
        }
    }
}
