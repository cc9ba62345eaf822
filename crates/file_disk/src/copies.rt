//! An SRB of its own for a thread that moves the bytes of a piece.

ghost use Rattle.std.specs.Prelude.{◌≡◌, IfOk, IsTrue};
ghost use Rattle.file_disk.specs.Copies.{CopiesSend, CopiesSuit, CopiesTransfer, IsCopyOf};

use sector::{Bytes, LabelRoom};
use srb::{Srb, SrbFunction};
use std::alloc::{AllocError, Global};

/// Copies an SRB, with all its bytes.
pub fn copy_of(alloc: Global, srb: &Srb) -> Result<Srb, AllocError>
    ensures { IfOk result (IsCopyOf srb.now) }
{
    let data = srb.data.as_slice().to_vec(alloc)?;
    Ok(Srb {
        function: srb.function,
        flags: srb.flags,
        block: srb.block.copied(),
        data: Bytes::new(data),
        for_label: LabelRoom::none(alloc),
        sense: None,
    })
}

/// Whether an SRB is a copy of another, with all its bytes.
pub fn is_copy(srb: &Srb, copy: &Srb) -> bool
    ensures { IsTrue result → IsCopyOf srb.now copy.now }
{
    is_same_function(srb.function, copy.function)
        && srb.flags.0 == copy.flags.0
        && srb.block.as_slice() == copy.block.as_slice()
        && srb.data.as_slice() == copy.data.as_slice()
}

fn is_same_function(one: SrbFunction, other: SrbFunction) -> bool
    ensures { IsTrue result → other ≡ one }
{
    match one {
        SrbFunction::ExecuteScsi => matches!(other, SrbFunction::ExecuteScsi),
        SrbFunction::AbortCommand => matches!(other, SrbFunction::AbortCommand),
        SrbFunction::ResetBus => matches!(other, SrbFunction::ResetBus),
    }
}

/// What a disk did for a copy of an SRB, it did for the SRB itself. It does nothing; its contract is for callers.
pub fn copies_do_the_same()
    ensures transfer { CopiesTransfer }
    ensures suit { CopiesSuit }
    ensures send { CopiesSend }
{}
