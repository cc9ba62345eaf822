//! The parts of a manager in the middle of a step, where a room may be reserved and answers not told yet.

ghost use Rattle.std.specs.Prelude.{◌≡◌, ◌≢◌, ◌≤◌, ◌<◌, ◌+◌, true, [], is_some, length, Some, IsFalse, IfOk, OnOk};
ghost use Rattle.std.specs.Prelude.{OnErr};
ghost use Rattle.std.specs.VecDeque.{deque_len, deque_capacity};
ghost use Rattle.slab.specs.Slab.{slab_len};
ghost use Rattle.srb.specs.declared.Kind.TheVariants.{Write};
ghost use Rattle.device.specs.View.{IsBounded, room_at, whole_for};
ghost use Rattle.device.specs.Served.{ReservesSpot, ReservesNone, ReservesNear};
ghost use Rattle.io_manager.specs.Calls.{partition_of};
ghost use Rattle.io_manager.specs.inside.Admitting.{request_of, HasLabelBytes, IsSent, KeepsAnswers, IsAdmissible};
ghost use Rattle.io_manager.specs.inside.Sound.{IsSound, view_of};

use crate::admission::{LabelBytes, label_bytes_for, ready_packet};
use crate::spare_packets::SparePackets;
use crate::tables::Tables;
use crate::{Handle, Id, Limits};
use device::{ClientRequest, Device, Request, Room, Shown};
use irp::Irp;
use sector::Bytes;
use std::alloc::{AllocError, Global};

/// The device below, the manager's limits and tables, and packets that are used again.
#[derive(Drop)]
pub(crate) struct Parts<D: Shown> {
    pub(crate) device: D,
    pub(crate) limits: Limits,
    pub(crate) tables: Tables,
    pub(crate) spare_packets: SparePackets,
}

/// What a request needs to be sent: what it asks of the device below, its packet, its room there, and the buffers for
/// its labels.
#[derive(Drop)]
pub(crate) struct Prepared {
    pub(crate) below: Request,
    pub(crate) irp: Box<Irp>,
    pub(crate) room: Room,
    pub(crate) copies: LabelBytes,
}

impl<D: Device> Parts<D> {
    /// Makes all places that a request needs, so that nothing after it takes memory.
    ///
    /// # Errors
    ///
    /// [`AllocError`] where memory for one was refused; those that were made stay.
    pub(crate) fn reserve(
        &mut self,
        alloc: Global,
        below: Request,
        buffer: &Bytes,
    ) -> Result<Prepared, AllocError>
        requires bounded { IsBounded (D.view self.old.device).rules below }
        requires few { slab_len self.old.tables.requests < 64 }
        ensures limits { self.new.limits ≡ self.old.limits }
        ensures asks { IfOk result (λ made. made.below ≡ below) }
        ensures reserved { IfOk result
            (λ made. ReservesSpot (D.view self.old.device) made.room.spot below (D.view self.new.device)) }
        ensures refused { OnErr result (ReservesNone (D.view self.old.device) (D.view self.new.device)) }
        ensures near { ReservesNear (D.view self.old.device) below (D.view self.new.device) }
        ensures unless_write { below.kind ≢ Write
            → (D.view self.new.device).adapter ≡ (D.view self.old.device).adapter }
        ensures tables { KeepsAnswers self.old.tables self.new.tables }
        ensures copies { IfOk result
            (λ made. HasLabelBytes self.new.tables.labels.keeps self.new.tables.labels.keeps_bytes below.kind buffer.now made.copies) }
        ensures place { OnOk result (deque_len self.new.tables.untaken + (slab_len self.new.tables.requests + 1)
            ≤ deque_capacity self.new.tables.untaken) }
    {
        self.tables.cover_answers()?;
        let labels = &self.tables.labels;
        let copies = label_bytes_for(
            alloc,
            below.kind,
            buffer,
            labels.keeps(),
            labels.keeps_bytes(),
        )?;
        let irp = self.spare_packets.take(alloc)?;
        let room = self.device.reserve(&below)?;
        Ok(Prepared {
            below,
            irp,
            room,
            copies,
        })
    }

    /// Opens a request, and sends its packet down.
    pub(crate) fn send(
        &mut self,
        handle: Handle,
        request: ClientRequest,
        buffer: Bytes,
        prepared: Prepared,
    ) -> Id
        requires takes_buffers { IsFalse D.takes_srb }
        requires locations { D.stack_size ≤ 4 }
        requires asks { prepared.below ≡ request_of self.old.limits.sector_size request }
        requires room { room_at (D.view self.old.device).rooms prepared.room.spot
            ≡ Some (whole_for (request_of self.old.limits.sector_size request)) }
        requires sound { IsSound self.old.limits (D.view self.old.device) self.old.tables }
        requires untold { self.old.tables.labels.items ≡ [] }
        requires open { is_some (partition_of self.old.tables.handles.slots handle) ≡ true }
        requires admissible { IsAdmissible (view_of self.old.limits (D.view self.old.device) self.old.tables) request }
        requires copies { HasLabelBytes self.old.tables.labels.keeps self.old.tables.labels.keeps_bytes request.kind buffer prepared.copies }
        requires length { request.length ≡ length buffer }
        requires place { deque_len self.old.tables.untaken + (slab_len self.old.tables.requests + 1)
            ≤ deque_capacity self.old.tables.untaken }
        ensures limits { self.new.limits ≡ self.old.limits }
        ensures sound { IsSound self.new.limits (D.view self.new.device) self.new.tables }
        ensures number { result.number ≡ self.old.tables.next_request }
        ensures sent { IsSent (D.view self.old.device) self.old.tables handle request
            (request_of self.old.limits.sector_size request) prepared.copies buffer prepared.room.spot result.slot
            (D.view self.new.device) self.new.tables }
    {
        let number = self.tables.next_request;
        let Prepared {
            below,
            mut irp,
            room,
            copies,
        } = prepared;
        let spot = room.spot;
        ready_packet(&mut irp, number, &below, buffer);
        self.device.shows_order();
        self.device.submit(irp, room);
        let slot = self.tables.admit(handle, request, spot, copies);
        Id { slot, number }
    }
}
