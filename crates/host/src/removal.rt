//! Removal of the device under the clients of a host.

ghost use Rattle.std.specs.Prelude.{◌≡◌, ◌≢◌, None, true, length};
ghost use mathlib.Core.Logic.{inl};
ghost use Rattle.machine.specs.declared.Label.TheVariants.{Pause as PauseLabel, Remove as RemoveLabel, Removed as RemovedLabel, Surprise as SurpriseLabel};
ghost use Rattle.io_manager.specs.declared.Reply.TheVariants.{Ok as OkReply};
ghost use Rattle.pnp.specs.declared.Request.TheVariants.{QueryRemove as QueryRequest, CancelRemove as RecallRequest, Remove as RemoveRequest, SurpriseRemove as SurpriseRequest};
ghost use Rattle.book.specs.Book.{IsStepped};
ghost use Rattle.host.specs.Keepers.{HasNoted, HasNotedIfOk, HasRemovedIfOk, IsNoticed, event_of, label_of, notice_of, request_by};
ghost use Rattle.host.specs.Receipts.{AreBelow};
ghost use Rattle.host.specs.Replies.{IsReplyTo};
ghost use Rattle.host.specs.Standing.{GoesBy};
ghost use Rattle.compose.specs.declared.Event.TheVariants.{CancelRemove, QueryRemove, Remove, SurpriseRemove};

use crate::account::laws_of_numbers;
use crate::condvars::Concerned;
use crate::host::{Host, Keeper, Known};
use crate::kept::{KeptBook, Standing};
use crate::name::HostNaming;
use crate::notice::{Minor, Notice, claim_notice};
use crate::shared::HostGate;
use chronicle::Claims;
use compose::Reply;
use disk::Medium;
use pnp::Request;
use remove_lock::Pass;
use std::sync::Wait;
use std::thread;
use traced::TraceEntry;

// Closes the gate, and returns once it was seen drained.
fn close_and_drain<N: HostNaming, R: Wait>(rt: &R, gate: &HostGate<N>, pass: &mut Pass)
    requires gate { pass.old.gate ≡ N.gate }
    ensures gate { pass.new.gate ≡ N.gate }
    ensures drained { pass.new.view.saw_drained ≡ true }
{
    gate.lock.close_gate(pass);
    for _ in rt.forever() {
        if gate.lock.drained(pass) {
            return;
        }
        thread::yield_now();
    }
    unreachable!()
}

impl<N: HostNaming> Keeper<N> {
    // Waits until no ticket is out.
    fn drain<R: Wait>(&mut self, rt: &R, gate: &HostGate<N>)
        ensures drained { self.new.pass.saw_drained ≡ true }
        ensures told { self.new.told ≡ self.old.told }
        ensures standing { self.new.standing ≡ self.old.standing }
    {
        close_and_drain(rt, gate, &mut self.pass);
    }
}

impl<M: Medium, N: HostNaming> Host<M, N> {
    // Carries out a keeper's call. Its labels stand from the place on that it returns, which is above all receipts.
    fn begin<R: Wait>(
        &self,
        rt: &R,
        book: &mut KeptBook<N>,
        known: &mut Known<N>,
        minor: Minor,
    ) -> (Reply, usize)
        ensures same { known.new.told ≡ known.old.told }
        ensures above { AreBelow result.1 known.old.told }
        ensures from { result.1 ≡ length book.old.traced.entries }
        ensures stepped { IsStepped N.slots None (inl tt) book.old (event_of minor) result.0 book.new }
        ensures reply { IsReplyTo (event_of minor) result.0 }
        ensures goes { GoesBy (request_by minor) known.old.standing result.0 known.new.standing }
    {
        book.check(&self.history, &mut known.told);
        let from = book.len();
        let reply = book.keep(rt, &self.beside(), &mut known.standing, minor.request());
        (reply, from)
    }

    // The part of a keeper's call that holds the book's lock. Where it is accepted there is a receipt of the label that
    // it tells first. All receipts are below the place that it returns.
    fn ask_in<R: Wait>(
        &self,
        rt: &R,
        book: &mut KeptBook<N>,
        known: &mut Known<N>,
        minor: Minor,
    ) -> (Reply, usize)
        ensures told { HasNotedIfOk (label_of (notice_of minor)) result.0 known.old.told known.new.told }
        ensures above { AreBelow result.1 known.new.told }
        ensures reply { IsReplyTo (event_of minor) result.0 }
        ensures goes { GoesBy (request_by minor) known.old.standing result.0 known.new.standing }
    {
        laws_of_numbers();
        let (reply, from) = self.begin(rt, book, known, minor);
        if let Reply::Ok = reply {
            let Some((place, claim)) = claim_notice(&self.history, book, minor.notice(), from)
            else {
                unreachable!()
            };
            known.told.join(&self.history, claim);
            return (reply, place + 1);
        }
        (reply, from)
    }

    // Makes the call, and tells whom it concerns.
    fn ask<R: Wait>(
        &self,
        rt: &R,
        book: &mut KeptBook<N>,
        known: &mut Known<N>,
        minor: Minor,
    ) -> (Reply, usize, Concerned)
        ensures told { HasNotedIfOk (label_of (notice_of minor)) result.0 known.old.told known.new.told }
        ensures above { AreBelow result.1 known.new.told }
        ensures reply { IsReplyTo (event_of minor) result.0 }
        ensures goes { GoesBy (request_by minor) known.old.standing result.0 known.new.standing }
    {
        let from = book.len();
        let (reply, above) = self.ask_in(rt, book, known, minor);
        (reply, above, Concerned::since(book, from))
    }

    // Takes a query back, and tells whom it concerns.
    fn recall<R: Wait>(
        &self,
        rt: &R,
        book: &mut KeptBook<N>,
        standing: &mut Standing<N>,
    ) -> (Reply, Concerned)
        ensures reply { IsReplyTo CancelRemove result.0 }
        ensures goes { GoesBy RecallRequest standing.old result.0 standing.new }
    {
        let from = book.len();
        let reply = book.keep(rt, &self.beside(), standing, Request::CancelRemove);
        (reply, Concerned::since(book, from))
    }

    // Waits until the removal has ended: its label stands at a place from this one on.
    fn await_removed<R: Wait>(&self, rt: &R, from: usize) -> Claims<TraceEntry, N>
        ensures { IsNoticed from RemovedLabel result }
    {
        let mut from = from;
        let mut book = self.book.lock(rt);
        for _ in rt.forever() {
            let found = claim_notice(&self.history, &mut book, Notice::Removed, from);
            if let Some((_place, claim)) = found {
                return claim;
            }
            from = from.max(book.len());
            book = self.condvars.keeper().wait(rt, book);
        }
        unreachable!()
    }

    // Waits for all tickets, and for the end of the removal.
    fn end_removal<R: Wait>(&self, rt: &R, keeper: &mut Keeper<N>, from: usize)
        requires above { AreBelow from keeper.old.told }
        ensures drained { keeper.new.pass.saw_drained ≡ true }
        ensures told { HasNoted RemovedLabel keeper.old.told keeper.new.told }
        ensures standing { keeper.new.standing ≡ keeper.old.standing }
    {
        keeper.drain(rt, &self.gate);
        let claim = self.await_removed(rt, from);
        keeper.known.told.join(&self.history, claim);
    }

    // Removes the device, by either kind of removal.
    fn take_out<R: Wait>(&self, rt: &R, keeper: &mut Keeper<N>, minor: Minor) -> Reply
        ensures reply { IsReplyTo (event_of minor) result }
        ensures drained { result ≡ OkReply → keeper.new.pass.saw_drained ≡ true }
        ensures refused { result ≢ OkReply → keeper.new.pass ≡ keeper.old.pass }
        ensures told { HasRemovedIfOk (label_of (notice_of minor)) result keeper.old.told keeper.new.told }
        ensures goes { GoesBy (request_by minor) keeper.old.standing result keeper.new.standing }
    {
        let (reply, above, concerned) = self.ask(
            rt,
            &mut self.book.lock(rt),
            &mut keeper.known,
            minor,
        );
        self.condvars.notify(rt, concerned);
        if let Reply::Ok = reply {
            self.end_removal(rt, keeper, above);
        }
        reply
    }

    /// Asks whether the device may go. It may, whatever is open: requests are held from now on, and the keeper has a
    /// receipt of the pause (WDK: IRP_MN_QUERY_REMOVE_DEVICE). Refused as `InvalidDeviceRequest` unless the device is
    /// started, and as `InsufficientResources` where memory for its labels was refused.
    pub fn query_remove<R: Wait>(&self, rt: &R, keeper: &mut Keeper<N>) -> Reply
        ensures reply { IsReplyTo QueryRemove result }
        ensures pass { keeper.new.pass ≡ keeper.old.pass }
        ensures told { HasNotedIfOk PauseLabel result keeper.old.told keeper.new.told }
        ensures goes { GoesBy QueryRequest keeper.old.standing result keeper.new.standing }
    {
        let (reply, _, concerned) = self.ask(
            rt,
            &mut self.book.lock(rt),
            &mut keeper.known,
            Minor::QueryRemove,
        );
        self.condvars.notify(rt, concerned);
        reply
    }

    /// Takes the query back, and held requests go on (WDK: IRP_MN_CANCEL_REMOVE_DEVICE). With no query pending it does
    /// nothing. Refused as `InvalidDeviceRequest` once the device is being removed.
    pub fn cancel_remove<R: Wait>(&self, rt: &R, keeper: &mut Keeper<N>) -> Reply
        ensures reply { IsReplyTo CancelRemove result }
        ensures pass { keeper.new.pass ≡ keeper.old.pass }
        ensures told { keeper.new.told ≡ keeper.old.told }
        ensures goes { GoesBy RecallRequest keeper.old.standing result keeper.new.standing }
    {
        let (reply, concerned) = self.recall(
            rt,
            &mut self.book.lock(rt),
            &mut keeper.known.standing,
        );
        self.condvars.notify(rt, concerned);
        reply
    }

    /// Removes the device after a query (WDK: IRP_MN_REMOVE_DEVICE). Where it is accepted the gate is closed, and the
    /// call returns once every ticket was waited for and the removal has ended. The keeper has receipts then of the
    /// removal and of its end. Unless a query is pending it is refused as `InvalidDeviceRequest`, and the gate stays as
    /// it was.
    pub fn remove<R: Wait>(&self, rt: &R, keeper: &mut Keeper<N>) -> Reply
        ensures reply { IsReplyTo Remove result }
        ensures drained { result ≡ OkReply → keeper.new.pass.saw_drained ≡ true }
        ensures refused { result ≢ OkReply → keeper.new.pass ≡ keeper.old.pass }
        ensures told { HasRemovedIfOk RemoveLabel result keeper.old.told keeper.new.told }
        ensures goes { GoesBy RemoveRequest keeper.old.standing result keeper.new.standing }
    {
        self.take_out(rt, keeper, Minor::Remove)
    }

    /// Notes that the device was pulled out, and removes it (WDK: IRP_MN_SURPRISE_REMOVAL and the IRP_MN_REMOVE_DEVICE
    /// behind it, in one); the rest is as for [`Host::remove`]. Refused as `InvalidDeviceRequest` once the device is
    /// being removed.
    pub fn surprise_remove<R: Wait>(&self, rt: &R, keeper: &mut Keeper<N>) -> Reply
        ensures reply { IsReplyTo SurpriseRemove result }
        ensures drained { result ≡ OkReply → keeper.new.pass.saw_drained ≡ true }
        ensures refused { result ≢ OkReply → keeper.new.pass ≡ keeper.old.pass }
        ensures told { HasRemovedIfOk SurpriseLabel result keeper.old.told keeper.new.told }
        ensures goes { GoesBy SurpriseRequest keeper.old.standing result keeper.new.standing }
    {
        self.take_out(rt, keeper, Minor::SurpriseRemove)
    }
}
