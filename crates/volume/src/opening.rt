//! How a volume is opened.

ghost use Rattle.std.specs.Prelude.{◌≡◌, ◌+◌, IfErr, IfOk, IsTrue, MatchResult};
ghost use Rattle.volume.specs.Shown.{content_of, handle_count};
ghost use Rattle.volume.specs.Ready.{IsReady};
ghost use Rattle.volume.specs.Opening.{IsOn, IsOpenFault, IsOpenRefusal, ShowsDisk};
ghost use Rattle.probe.specs.Exchange.{IsIdle};

use crate::carrying::step;
use crate::slowing::Slowing;
use crate::{NotOpened, OpenFault, Sizes, Unopened, Volume};
use adapter::Adapter;
use compose::{Event, Handle, NotStarted, Refusal, Reply, Settings, Stack};
use std::alloc::Global;

impl<A: Adapter> From<NotOpened<A>> for OpenFault {
    ghost from_gives = { λ why fault. fault ≡ why.fault };

    fn from(why: NotOpened<A>) -> OpenFault {
        why.fault
    }
}

impl<A: Adapter> Volume<A> {
    /// Opens a partition, counted from 0, over an adapter that has accepted nothing and whose acts read and write the
    /// sectors that it shows.
    ///
    /// # Errors
    ///
    /// [`OpenFault::Start`] where no stack could be started, as [`Stack::start`] says; [`OpenFault::Refused`] with
    /// [`Refusal::InvalidParameter`] where there is no such partition. The adapter comes back, and no command was sent
    /// to it but those of the start.
    ///
    /// # Example
    ///
    /// ```
    /// match Volume::start(alloc, adapter, settings, 0) {
    ///     Ok(volume) => Ok(volume),
    ///     Err(why) => match why.fault {
    ///         OpenFault::Start(StartFault::NoMemory) => Err(AllocError),
    ///         OpenFault::Refused(Refusal::InsufficientResources) => Err(AllocError),
    ///         fault => panic!(rt; "{fault:?}"),
    ///     },
    /// }
    /// ```
    pub fn start(
        alloc: Global,
        adapter: A,
        settings: Settings,
        partition: u8,
    ) -> Result<Volume<A>, NotOpened<A>>
        requires idle { IsIdle (A.view adapter) }
        requires unasked { (A.view adapter).accepted ≡ 0 }
        requires faithful { IsTrue (A.view adapter).faithful }
        ensures content { IfOk result (λ volume. ShowsDisk (A.view adapter) partition volume.content) }
        ensures partition { IfOk result (λ volume. volume.partition ≡ partition) }
        ensures handles { IfOk result (λ volume. volume.open_handles ≡ 1) }
        ensures fault { IfErr result (λ why. IsOpenFault (A.view adapter) settings partition why.fault (A.view why.adapter)) }
    {
        // An adapter's own promise about its sizes is known once one is asked.
        let _size = adapter.sector_size();
        let stack = match Stack::start(alloc, adapter, settings) {
            Ok(stack) => stack,
            Err(NotStarted { fault, adapter }) => {
                return Err(NotOpened {
                    fault: OpenFault::Start(fault),
                    adapter,
                });
            }
        };
        match Volume::open(alloc, stack, partition) {
            Ok(volume) => Ok(volume),
            Err(why) => Err(NotOpened {
                fault: OpenFault::Refused(why.reason),
                adapter: why.stack.into_adapter(),
            }),
        }
    }

    /// Opens a partition, counted from 0, of a stack on which no request is open, no query is pending and no removal
    /// under way, with all labels and answers taken, and whose acts read and write the sectors that it shows. It takes
    /// no memory.
    ///
    /// # Errors
    ///
    /// [`Refusal::InvalidParameter`] just where there is no such partition; [`Refusal::DeviceBusy`] just with 64 handles
    /// open, or once handle numbers are used up. The stack comes back, as ready as it was.
    pub fn open(alloc: Global, stack: Stack<A>, partition: u8) -> Result<Volume<A>, Unopened<A>>
        requires ready { IsReady stack }
        ensures content { IfOk result (λ volume. volume.content ≡ content_of stack partition) }
        ensures partition { IfOk result (λ volume. volume.partition ≡ partition) }
        ensures handles { IfOk result (λ volume. volume.open_handles ≡ handle_count stack + 1) }
        ensures why { IfErr result (λ why. IsOpenRefusal stack partition why.reason) }
        ensures adapter { IfErr result (λ why. why.stack.adapter ≡ stack.adapter) }
        ensures still { IfErr result (λ why. IsReady why.stack) }
    {
        let mut stack = stack;
        let handle = match open_handle(&mut stack, alloc, partition) {
            Ok(handle) => handle,
            Err(reason) => return Err(Unopened { reason, stack }),
        };
        let sizes = Sizes {
            sector_size: stack.sector_size(),
            sectors: stack.sectors(partition),
        };
        Ok(Volume {
            stack,
            handle,
            partition,
            sizes,
            slowing: Slowing::none(alloc),
        })
    }
}

/// Opens a handle on a partition.
///
/// # Errors
///
/// As [`Volume::open`].
fn open_handle<A: Adapter>(
    stack: &mut Stack<A>,
    alloc: Global,
    partition: u8,
) -> Result<Handle, Refusal>
    requires ready { IsReady stack.old }
    ensures ready { IsReady stack.new }
    ensures content { content_of stack.new partition ≡ content_of stack.old partition }
    ensures adapter { stack.new.adapter ≡ stack.old.adapter }
    ensures handles { IfOk result (λ _. handle_count stack.new ≡ handle_count stack.old + 1) }
    ensures opens { MatchResult result (λ handle. IsOn stack.new handle partition) (IsOpenRefusal stack.old partition) }
{
    let reply = step(stack, alloc, Event::Open { partition });
    match reply {
        Reply::Handle(handle) => Ok(handle),
        Reply::Refused { refusal, .. } => Err(refusal),
        Reply::Ok | Reply::Request(_) | Reply::Answered(_) | Reply::Ignored => unreachable!(),
    }
}
