//! The PnP state of a device object, and the requests of the PnP manager that move it: a query before a removal, its
//! cancellation, an orderly removal and a surprise removal.
//!
//! # Promises
//!
//! Each call goes by one table, `next` (`from_gives`). A removal ends only in `Removed`, for good, and an orderly one
//! comes after a query (`removal_is_for_good`).
#![tactic(auto)]

ghost use Rattle.std.specs.Prelude.{◌≡◌};
ghost use Rattle.std.specs.Result.{result_ok};
ghost use Rattle.pnp.specs.Laws.{RemovalIsForGood, RemovedIsLast, RemovesOnceQueried};
ghost use Rattle.pnp.specs.Table.{QueryRemove, CancelRemove, Remove, SurpriseRemove, Drained, event_of, next};

use ntstatus::NtStatus;
use thiserror::Error;

/// The PnP state of a device object (WDK: State Transitions for PnP Devices).
#[derive(Debug, Clone, Copy, PartialEq, Eq)]
pub enum State {
    /// At work.
    Started,
    /// A query was granted: new requests are held until it is known whether the device goes.
    RemovePending,
    /// The device goes, and requests are still open.
    Removing,
    /// The device is gone, and nothing is open.
    Removed,
}

/// A request of the PnP manager that moves a device object (WDK: minor functions of IRP_MJ_PNP).
#[derive(Debug, Clone, Copy, PartialEq, Eq)]
pub enum Request {
    /// IRP_MN_QUERY_REMOVE_DEVICE, as [`State::query_remove`].
    QueryRemove,
    /// IRP_MN_CANCEL_REMOVE_DEVICE, as [`State::cancel_remove`].
    CancelRemove,
    /// IRP_MN_REMOVE_DEVICE, as [`State::remove`].
    Remove,
    /// IRP_MN_SURPRISE_REMOVAL, as [`State::surprise_remove`].
    SurpriseRemove,
}

/// The request is invalid in this state: a driver fails the packet with STATUS_INVALID_DEVICE_REQUEST.
#[derive(Debug, Clone, Copy, PartialEq, Eq, Drop, Error)]
#[error("invalid in this PnP state")]
pub struct InvalidDeviceRequest;

impl State {
    /// Moves the device by a request, as the call of the request's name does.
    pub fn next(self, request: Request) -> Result<State, InvalidDeviceRequest>
        ensures { result_ok result ≡ next (event_of request) self }
    {
        match request {
            Request::QueryRemove => self.query_remove(),
            Request::CancelRemove => self.cancel_remove(),
            Request::Remove => self.remove(),
            Request::SurpriseRemove => self.surprise_remove(),
        }
    }

    /// Asks whether the device may go (WDK: IRP_MN_QUERY_REMOVE_DEVICE). Refused but where it is started.
    pub fn query_remove(self) -> Result<State, InvalidDeviceRequest>
        ensures { result_ok result ≡ next QueryRemove self }
    {
        match self {
            State::Started => Ok(State::RemovePending),
            State::RemovePending | State::Removing | State::Removed => Err(InvalidDeviceRequest),
        }
    }

    /// Takes the query back (WDK: IRP_MN_CANCEL_REMOVE_DEVICE). With no query pending it changes nothing and is no
    /// fault, since the PnP manager may send it to a driver that never saw the query. Refused once the device goes.
    pub fn cancel_remove(self) -> Result<State, InvalidDeviceRequest>
        ensures { result_ok result ≡ next CancelRemove self }
    {
        match self {
            State::Started | State::RemovePending => Ok(State::Started),
            State::Removing | State::Removed => Err(InvalidDeviceRequest),
        }
    }

    /// Removes the device in order (WDK: IRP_MN_REMOVE_DEVICE). It is refused unless a query was granted before; in
    /// the WDK a driver never refuses it.
    pub fn remove(self) -> Result<State, InvalidDeviceRequest>
        ensures { result_ok result ≡ next Remove self }
    {
        match self {
            State::RemovePending => Ok(State::Removing),
            State::Started | State::Removing | State::Removed => Err(InvalidDeviceRequest),
        }
    }

    /// The device was pulled out (WDK: IRP_MN_SURPRISE_REMOVAL and the IRP_MN_REMOVE_DEVICE behind it, in one): it goes
    /// as after a removal in order, queried or not. Refused where it goes already.
    pub fn surprise_remove(self) -> Result<State, InvalidDeviceRequest>
        ensures { result_ok result ≡ next SurpriseRemove self }
    {
        match self {
            State::Started | State::RemovePending => Ok(State::Removing),
            State::Removing | State::Removed => Err(InvalidDeviceRequest),
        }
    }

    /// The last request of a device that goes has ended (WDK: IoReleaseRemoveLockAndWait has returned). Refused in any
    /// other state, and a second time.
    pub fn drained(self) -> Result<State, InvalidDeviceRequest>
        ensures { result_ok result ≡ next Drained self }
    {
        match self {
            State::Removing => Ok(State::Removed),
            State::Started | State::RemovePending | State::Removed => Err(InvalidDeviceRequest),
        }
    }
}

impl From<InvalidDeviceRequest> for NtStatus {
    ghost use Rattle.ntstatus.specs.declared.NtStatus.TheVariants.{InvalidDeviceRequest as RequestIsInvalid};

    ghost from_gives = { λ _ status. status ≡ RequestIsInvalid };

    fn from(_: InvalidDeviceRequest) -> NtStatus {
        NtStatus::InvalidDeviceRequest
    }
}

/// A device that goes never comes back, and from `Removed` nothing leads on. An orderly removal comes only after a
/// query.
pub fn removal_is_for_good()
    ensures for_good { RemovalIsForGood }
    ensures last { RemovedIsLast }
    ensures queried { RemovesOnceQueried }
{}
