//! A stack over an adapter without sectors, with two handles open on partition 0.

ghost use Rattle.std.specs.Prelude.{◌≡◌, ◌∷◌, [], IfOk, IsFalse, Some};
ghost use Rattle.machine.specs.State.{opening};
ghost use Rattle.traced.specs.Opening.{AreClientsOf, AreHandlesOf, AreOpened, IsFirst, IsNew};
ghost use Rattle.traced.specs.Sizes.{AreSizes, sizes_of};

use crate::disks::start;
use adapter::Adapter;
use compose::{Handle, Stack};
use miniport::BookedAdapter;
use std::alloc::{AllocError, Global};
use std::process::Abort;
use traced::{OpenFault, StackSizes, open_handles};

/// The stack, with sixty-four open requests, and its handles.
#[derive(Drop)]
pub(crate) struct OpenStack<A: Adapter> {
    pub stack: Stack<A>,
    pub handles: Vec<Handle>,
    pub sizes: StackSizes,
}

// Two handles on partition 0, which the stack has.
fn handles_on<A: Adapter>(
    rt: &impl Abort,
    alloc: Global,
    stack: &mut Stack<A>,
) -> Result<Vec<Handle>, AllocError>
    requires new { IsNew stack.old }
    ensures opened { IfOk result (λ handles. AreOpened (0 ∷ 0 ∷ []) handles.items stack.old stack.new) }
    ensures apart { IsFalse stack.old.adapter.faithful → IsFalse stack.new.adapter.faithful }
{
    match open_handles(alloc, stack, &[0, 0]) {
        Ok(handles) => Ok(handles),
        Err(OpenFault::NoMemory) => Err(AllocError),
        Err(fault) => panic!(rt; "{fault:?}"),
    }
}

/// A stack of two tags, two requests at work and sixty-four open.
pub(crate) fn open_two(
    rt: &impl Abort,
    alloc: Global,
) -> Result<OpenStack<BookedAdapter>, AllocError>
    ensures first { IfOk result (λ o. IsFirst o.stack) }
    ensures opens { IfOk result (λ o. o.stack.state ≡ opening o.stack.state.arrays) }
    ensures clients { IfOk result (λ o. AreClientsOf (0 ∷ 0 ∷ []) o.stack.handles) }
    ensures handles { IfOk result (λ o. AreHandlesOf (0 ∷ 0 ∷ []) o.handles.items o.stack) }
    ensures sizes { IfOk result (λ o. (o.sizes ≡ sizes_of o.stack.rules) × AreSizes o.sizes) }
    ensures slots { IfOk result (λ o. o.stack.rules.open_requests ≡ Some 64) }
    ensures apart { IfOk result (λ o. IsFalse o.stack.adapter.faithful) }
{
    let (mut stack, sizes) = start(rt, alloc, 2)?;
    let handles = handles_on(rt, alloc, &mut stack)?;
    Ok(OpenStack {
        stack,
        handles,
        sizes,
    })
}
