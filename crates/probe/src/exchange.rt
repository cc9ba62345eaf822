//! One command to an adapter that has no other, and what it brings.

ghost use Rattle.std.specs.Prelude.{◌≡◌, ◌≤◌, ◌<◌, ◌^◌, [], IfOk, IfErr, OnOk, length};
ghost use Rattle.srb.specs.declared.Class.TheVariants.{Good};
ghost use Rattle.adapter.specs.View.{IsInOrder};
ghost use Rattle.probe.specs.declared.ProbeFault.TheVariants.{NoMemory};
ghost use Rattle.probe.specs.Exchange.{IsIdle, IsReading, brought_length, Exchanges};
ghost use Rattle.probe.specs.inside.Exchange.{Looks, AsksOnce, bytes_brought};
ghost use Rattle.probe.specs.Exchange.{IsSameDisk};
ghost use Rattle.probe.specs.inside.Exchange.{IsAskFault};

use crate::ProbeFault;
use adapter::Adapter;
use cdb::{Cdb, encode};
use sector::{Bytes, LabelRoom};
use srb::{Class, CommandBlock, Completion, Srb, SrbFlags, SrbFunction};
use std::alloc::{AllocError, Global};

impl From<AllocError> for ProbeFault {
    ghost from_gives = { λ _ fault. fault ≡ NoMemory };

    fn from(_refused: AllocError) -> ProbeFault {
        ProbeFault::NoMemory
    }
}

/// An SRB that asks an adapter for a command, with these places for the bytes that it brings.
fn reading(command: &Cdb, bytes: Bytes, for_label: LabelRoom) -> Srb
    ensures reads { IsReading command.now result }
    ensures bytes { result.data ≡ bytes }
    ensures for_label { result.for_label ≡ for_label }
{
    Srb {
        function: SrbFunction::ExecuteScsi,
        flags: SrbFlags::DATA_IN,
        block: CommandBlock::new(encode(command)),
        data: bytes,
        for_label,
        sense: None,
    }
}

/// Has an idle adapter carry a command out, as piece 0 on tag 0.
fn exchange<A: Adapter>(
    adapter: &mut A,
    command: &Cdb,
    bytes: Bytes,
    for_label: LabelRoom,
) -> (Srb, Completion)
    requires idle { IsIdle (A.view adapter.old) }
    requires order { IsInOrder (A.view adapter.old) }
    requires few { (A.view adapter.old).accepted < 2 ^ 100 }
    requires looks { Looks command.now }
    requires buffers { length bytes ≤ for_label }
    requires whole { length bytes ≡ brought_length (A.view adapter.old) command.now }
    ensures asks { AsksOnce (A.view adapter.old) command.now result.0 result.1 (A.view adapter.new) }
{
    adapter.accept(0, 0, reading(command, bytes, for_label));
    if !adapter.act(0) {
        unreachable!();
    }
    let Some((srb, completion)) = adapter.finish(0) else {
        unreachable!()
    };
    (srb, completion)
}

/// Makes a buffer of this many bytes, and room for a label of them.
///
/// # Errors
///
/// [`AllocError`] where memory for one was refused.
fn buffers(alloc: Global, count: usize) -> Result<(Bytes, LabelRoom), AllocError>
    ensures bytes { IfOk result (λ made. length made.0 ≡ count) }
    ensures for_label { IfOk result (λ made. made.1 ≡ count) }
{
    let bytes = Bytes::new(vec![in alloc; 0u8; count]?);
    let for_label = LabelRoom::new(alloc, count)?;
    Ok((bytes, for_label))
}

/// Asks an idle adapter for the bytes that a command brings, this many. The adapter's labels are taken.
///
/// # Errors
///
/// [`ProbeFault::NoMemory`], where the command was not sent, and [`ProbeFault::Device`] with the status of a command
/// that the adapter failed.
pub(crate) fn ask<A: Adapter>(
    alloc: Global,
    adapter: &mut A,
    command: &Cdb,
    count: usize,
) -> Result<Bytes, ProbeFault>
    requires idle { IsIdle (A.view adapter.old) }
    requires order { IsInOrder (A.view adapter.old) }
    requires few { (A.view adapter.old).accepted < 2 ^ 100 }
    requires looks { Looks command.now }
    requires whole { count ≡ brought_length (A.view adapter.old) command.now }
    ensures same { IsSameDisk 1 (A.view adapter.old) (A.view adapter.new) }
    ensures order { IsInOrder (A.view adapter.new) }
    ensures brings { IfOk result (λ bytes. bytes ≡ bytes_brought (A.view adapter.old) command.now) }
    ensures exchanged { OnOk result (Exchanges (A.view adapter.old) command.now Good (A.view adapter.new)) }
    ensures fault { IfErr result (λ fault. IsAskFault command.now (A.view adapter.old) fault (A.view adapter.new)) }
{
    let (bytes, for_label) = buffers(alloc, count)?;
    let (srb, completion) = exchange(adapter, command, bytes, for_label);
    adapter.forget_labels();
    match completion.class() {
        Class::Good => Ok(srb.data),
        Class::Busy | Class::Bad(_) => Err(ProbeFault::Device(completion.status())),
    }
}
