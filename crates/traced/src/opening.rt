//! Handles for the clients of a traced stack.

ghost use Rattle.std.specs.Prelude.{◌≡◌, [], IfOk, IfErr, IsFalse, MatchResult};
ghost use Rattle.compose.specs.declared.Event.TheVariants.{Open};
ghost use Rattle.compose.specs.Right.{IsRight};
ghost use Rattle.traced.specs.Opening.{AreOpened, IsNew, IsOpenFault, IsSame};
ghost use Rattle.traced.specs.inside.Opening.{OpensOne, RefusesOne};

use adapter::Adapter;
use compose::{Event, Handle, Refusal, Reply, Stack};
use std::alloc::{AllocError, Global};
use thiserror::Error;

/// Why the handles of the clients could not be opened.
#[derive(Debug, Clone, Copy, Error)]
pub enum OpenFault {
    /// The stack refused to open one of them: `InvalidParameter` where it has no such partition, `DeviceBusy` for the
    /// 65th.
    #[error("a handle was refused")]
    Refused(Refusal),
    /// Memory was refused.
    #[error("no memory")]
    NoMemory,
}

impl From<AllocError> for OpenFault {
    ghost use Rattle.std.specs.Prelude.{◌≡◌};
    ghost use Rattle.traced.specs.declared.opening.OpenFault.TheVariants.{NoMemory};

    ghost from_gives = { λ _ fault. fault ≡ NoMemory };

    fn from(_refused: AllocError) -> OpenFault {
        OpenFault::NoMemory
    }
}

/// Opens handle c + 1 on `partitions[c]`, for each c, on a stack of which nothing was asked yet.
///
/// # Errors
///
/// [`OpenFault::Refused`] with `InvalidParameter` where one of the partitions is not there, and with `DeviceBusy` where
/// there are more than 64; [`OpenFault::NoMemory`]. Some handles may then be open.
pub fn open_handles<A: Adapter>(
    alloc: Global,
    stack: &mut Stack<A>,
    partitions: &[u8],
) -> Result<Vec<Handle>, OpenFault>
    requires { IsNew stack.old }
    ensures opened { IfOk result (λ handles. AreOpened partitions.now handles.items stack.old stack.new) }
    ensures fault { IfErr result (IsOpenFault stack.old.rules partitions.now) }
    ensures same { IsSame stack.old stack.new }
    ensures apart { IsFalse stack.old.adapter.faithful → IsFalse stack.new.adapter.faithful }
{
    let mut handles = Vec::new(alloc);
    for c in 0..partitions.len() {
        handles.reserve(1)?;
        let handle = open_one(alloc, stack, partitions[c])?;
        handles.push_reserved(handle);
    }
    Ok(handles)
}

// Carries out an open.
fn open_step<A: Adapter>(alloc: Global, stack: &mut Stack<A>, partition: u8) -> Reply
    requires taken { stack.old.labels ≡ [] }
    ensures right { IsRight stack.old (Open partition) result stack.new }
    ensures apart { IsFalse stack.old.adapter.faithful → IsFalse stack.new.adapter.faithful }
{
    compose::steps_stay_apart();
    stack.step(alloc, Event::Open { partition })
}

// Opens one handle.
fn open_one<A: Adapter>(
    alloc: Global,
    stack: &mut Stack<A>,
    partition: u8,
) -> Result<Handle, OpenFault>
    requires taken { stack.old.labels ≡ [] }
    ensures opens { MatchResult result (λ handle. OpensOne stack.old partition handle stack.new) (λ fault. RefusesOne stack.old partition fault stack.new) }
    ensures apart { IsFalse stack.old.adapter.faithful → IsFalse stack.new.adapter.faithful }
{
    match open_step(alloc, stack, partition) {
        Reply::Handle(handle) => Ok(handle),
        Reply::Refused { refusal, .. } => Err(OpenFault::Refused(refusal)),
        Reply::Ok | Reply::Request(_) | Reply::Answered(_) | Reply::Ignored => {
            Err(OpenFault::NoMemory)
        }
    }
}
