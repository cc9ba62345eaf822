//! Plug and play calls, each by the table of `pnp`.

ghost use Rattle.std.specs.Prelude.{◌≡◌, []};
ghost use Rattle.io_manager.specs.Right.{IsRight, QueryReplies, RecallReplies, RemoveReplies, SurpriseReplies};
ghost use Rattle.io_manager.specs.inside.Removal.{RequestReplies, label_of, MayDo, Does};

use crate::manager::IoManager;
use crate::tables::refused_alone;
use crate::{Refusal, Reply};
use device::{Hold, Label};
use pnp::{Request, State};
use std::alloc::Global;

/// The label of a request that is valid in this state. There is none where a query is taken back that isn't pending.
fn label_of(request: Request, was: State) -> Option<Label>
    ensures { result ≡ label_of request was }
{
    match (request, was) {
        (Request::QueryRemove, _) => Some(Label::Pause),
        (Request::CancelRemove, State::Started) => None,
        (Request::CancelRemove, _) => Some(Label::Resume),
        (Request::Remove, _) => Some(Label::Remove),
        (Request::SurpriseRemove, _) => Some(Label::Surprise),
    }
}

/// Has the device below do its part of a request.
fn pass_down<D: Hold>(device: &mut D, request: Request)
    requires { MayDo request (D.view device.old).state }
    ensures { Does request (D.view device.old) (D.view device.new) }
{
    match request {
        Request::QueryRemove => device.pause(),
        Request::CancelRemove => device.resume(),
        Request::Remove => device.drain(),
        Request::SurpriseRemove => device.drain(),
    }
}

impl<D: Hold> IoManager<D> {
    /// Asks whether the device may go. It may, whatever is open, and new requests are then held (WDK:
    /// IRP_MN_QUERY_REMOVE_DEVICE). It takes no memory. Unless the device is started it is refused as
    /// `InvalidDeviceRequest`, with nothing changed.
    pub fn query_remove(&mut self, alloc: Global) -> Reply
        requires taken { self.old.labels ≡ [] }
        ensures right { IsRight (QueryReplies self.old result self.new) self.old self.new }
    {
        self.move_by(alloc, Request::QueryRemove)
    }

    /// Takes a query back: requests that were held go on (WDK: IRP_MN_CANCEL_REMOVE_DEVICE). It takes no memory. With
    /// no query pending nothing happens. Refused as `InvalidDeviceRequest` once the device is being removed, with
    /// nothing changed.
    pub fn cancel_remove(&mut self, alloc: Global) -> Reply
        requires taken { self.old.labels ≡ [] }
        ensures right { IsRight (RecallReplies self.old result self.new) self.old self.new }
    {
        self.move_by(alloc, Request::CancelRemove)
    }

    /// Removes the device: held requests and those that wait end, and the removal ends once no request is open (WDK:
    /// IRP_MN_REMOVE_DEVICE). It takes no memory. Refused as `InvalidDeviceRequest` unless a query is pending, with
    /// nothing changed.
    pub fn remove(&mut self, alloc: Global) -> Reply
        requires taken { self.old.labels ≡ [] }
        ensures right { IsRight (RemoveReplies self.old result self.new) self.old self.new }
    {
        self.move_by(alloc, Request::Remove)
    }

    /// Notes that the device was pulled out: it goes as by [`IoManager::remove`], with or without a query pending (WDK:
    /// IRP_MN_SURPRISE_REMOVAL). It takes no memory. Refused as `InvalidDeviceRequest` where the device is already
    /// being removed, with nothing changed.
    pub fn surprise_remove(&mut self, alloc: Global) -> Reply
        requires taken { self.old.labels ≡ [] }
        ensures right { IsRight (SurpriseReplies self.old result self.new) self.old self.new }
    {
        self.move_by(alloc, Request::SurpriseRemove)
    }

    /// Moves the device's state by a request of the PnP manager, which is refused where the table of `pnp` has no next
    /// state.
    fn move_by(&mut self, alloc: Global, request: Request) -> Reply
        requires taken { self.old.labels ≡ [] }
        ensures right { IsRight (RequestReplies request self.old result self.new) self.old self.new }
    {
        let was = self.parts.tables.state;
        let Ok(next) = was.next(request) else {
            return refused_alone(alloc, Refusal::InvalidDeviceRequest);
        };
        let Some(label) = label_of(request, was) else {
            return Reply::Ok;
        };
        pass_down(&mut self.parts.device, request);
        self.parts.tables.move_to(next, label);
        self.parts.collect();
        Reply::Ok
    }
}
