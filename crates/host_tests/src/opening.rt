//! A host of a stack and of the journal of its disk.

ghost use Rattle.std.specs.Prelude.{◌≡◌, ◌≤◌, ◌+◌, IfOk, length};
ghost use Rattle.host.specs.Clients.{AreNumbered};
ghost use Rattle.host.specs.Opening.{IsDiskFor};

use crate::disks::start_for;
use disk::Medium;
use host::{Client, Host, HostFault, HostNaming, Keeper, Opened};
use sector_journal::Journal;
use std::alloc::{AllocError, Global};
use std::process::Abort;

/// What a host is made of: a stack with its clients' handles open, the histories of the journal of its disk, and the
/// medium of that disk. It has no name yet.
pub(crate) struct Ready<M: Medium> {
    pub opened: Opened,
    pub histories: sector_journal::Opened,
    pub medium: M,
}

/// A stack of this many tags for a medium of two partitions, with a client on each of these, and all that a host of it
/// is made of.
pub(crate) fn ready_over<M: Medium>(
    rt: &impl Abort,
    alloc: Global,
    medium: M,
    depth: u8,
    partitions: &[u8],
) -> Result<Ready<M>, AllocError>
    requires deep { 1 ≤ depth }
    requires shallow { depth ≤ 32 }
    ensures partitions { IfOk result (λ r. r.opened.partitions ≡ partitions.now) }
    ensures parts { IfOk result (λ r. r.opened.parts ≡ length partitions.now + 1) }
    ensures unfailed { IfOk result (λ r. (M.view r.medium).failures ≡ 0) }
    ensures disk { IfOk result (λ r. IsDiskFor r.opened.rules (M.view r.medium)) }
    ensures depth { IfOk result (λ r. r.opened.rules.depth ≡ depth) }
{
    let (stack, sizes) = start_for(rt, alloc, &medium, depth)?;
    match Opened::new(alloc, stack, sizes, 64, partitions) {
        Ok(opened) => match sector_journal::Opened::new(alloc) {
            Ok(histories) => Ok(Ready {
                opened,
                histories,
                medium,
            }),
            Err(refused) => {
                opened.end();
                Err(refused)
            }
        },
        Err(HostFault::NoMemory) => Err(AllocError),
        Err(fault) => panic!(rt; "{fault}"),
    }
}

/// A host, its keeper and its clients, over this many tags.
pub(crate) fn open_host<M: Medium, N: HostNaming>(
    alloc: Global,
    ready: Ready<M>,
    depth: u8,
) -> Result<(Host<M, N>, Keeper<N>, Vec<Client<N>>), AllocError>
    requires named { ready.opened ≡ record { rules = N.rules; opening = N.start; partitions = N.partitions; handles = N.handles; marks = N.marks; slots = N.slots; table = N.table; name = N.name; parts = N.parts; gate = N.gate; keeper = N.keeper } }
    requires histories { ready.histories ≡ record { armings = N.armings; entries = N.entries } }
    requires sectors { (M.view ready.medium).sectors ≡ N.opening }
    requires unfailed { (M.view ready.medium).failures ≡ 0 }
    requires disk { IsDiskFor N.rules (M.view ready.medium) }
    requires depth { N.rules.depth ≡ depth }
    ensures { IfOk result (λ r. AreNumbered (length N.partitions) r.2.items) }
{
    let Ready {
        opened,
        histories,
        medium,
    } = ready;
    let Ok((journal, words)) = Journal::<M, N>::new(alloc, histories, medium, depth, false) else {
        opened.end();
        return Err(AllocError);
    };
    match Host::<M, N>::new(alloc, opened, journal, words) {
        Ok((host, keeper, clients)) => Ok((host, keeper, clients)),
        Err(_) => Err(AllocError),
    }
}
