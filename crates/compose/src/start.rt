//! How a stack starts: what its adapter tells, and the layers over it.

ghost use Rattle.std.specs.Prelude.{◌≡◌, ◌≤◌, ◌↔◌, length, IfOk, IfErr, OnOk, IsTrue};
ghost use Rattle.adapter.specs.View.{IsInOrder};
ghost use Rattle.probe.specs.Exchange.{IsIdle, IsSameDisk};
ghost use Rattle.probe.specs.Probing.{IsProbed, IsReadBy, asked_by_probe};
ghost use Rattle.io_manager.specs.Opening.{AreFirsts};
ghost use Rattle.compose.specs.Opening.{AreInRange, IsFirstView, IsSpent, IsStartFault};
ghost use Rattle.compose.specs.declared.StartFault.TheVariants.{NoMemory};

use crate::{NotStarted, Settings, StartFault};
use adapter::Adapter;
use class_disk::Disk;
use hold_filter::Filter;
use io_manager::{IoManager, Limits};
use partition::Partitions;
use port::Port;
use probe::{ProbeFault, Probed, probe};
use sector::Extent;
use std::alloc::Global;

impl<A: Adapter> From<NotStarted<A>> for StartFault {
    ghost use Rattle.std.specs.Prelude.{◌≡◌};

    ghost from_gives = { λ why fault. fault ≡ why.fault };

    fn from(why: NotStarted<A>) -> StartFault {
        why.fault
    }
}

impl From<ProbeFault> for StartFault {
    ghost use Rattle.std.specs.Prelude.{◌≡◌};
    ghost use Rattle.compose.specs.Opening.{start_fault_of};

    ghost from_gives = { λ why fault. fault ≡ start_fault_of why };

    fn from(why: ProbeFault) -> StartFault {
        match why {
            ProbeFault::Device(status) => StartFault::Device(status),
            ProbeFault::Mbr(fault) => StartFault::Mbr(fault),
            ProbeFault::NoMemory => StartFault::NoMemory,
        }
    }
}

impl Settings {
    /// Whether a stack can be started with these settings.
    pub fn are_in_range(&self) -> bool
        ensures { IsTrue result ↔ AreInRange self.now }
    {
        1 <= self.window && self.window <= 64 && 1 <= self.open_requests && self.open_requests <= 64
    }
}

/// Returns what the probe of an adapter tells, which has accepted nothing so far.
///
/// # Errors
///
/// [`StartFault::Settings`] just where a setting is out of range, before anything is sent; else those of [`probe`].
fn prepare<A: Adapter>(
    alloc: Global,
    adapter: &mut A,
    settings: Settings,
) -> Result<Probed, StartFault>
    requires idle { IsIdle (A.view adapter.old) }
    requires unasked { (A.view adapter.old).accepted ≡ 0 }
    ensures in_range { OnOk result (AreInRange settings) }
    ensures probed { IfOk result (IsProbed (A.view adapter.old)) }
    ensures read { OnOk result (IsReadBy (A.view adapter.old) (A.view adapter.new)) }
    ensures same { IsSameDisk (asked_by_probe (A.view adapter.old)) (A.view adapter.old) (A.view adapter.new) }
    ensures order { OnOk result (IsInOrder (A.view adapter.new)) }
    ensures fault { IfErr result (λ fault. IsStartFault (A.view adapter.old) settings fault (A.view adapter.new)) }
{
    if !settings.are_in_range() {
        return Err(StartFault::Settings);
    }
    let probed = probe(alloc, adapter)?;
    Ok(probed)
}

/// The sector of the disk where each partition begins.
fn first_sectors_of(partitions: &[Extent]) -> [u64; 4]
    requires few { length partitions.now ≤ 4 }
    ensures { AreFirsts result partitions.now }
{
    let mut firsts = [0; 4];
    for (partition, extent) in partitions.iter().enumerate() {
        firsts[partition] = extent.first;
    }
    firsts
}

/// The partitions over a hold filter, the class driver and a port.
type Layers<A> = Partitions<Filter<Disk<Port<A>>>>;

/// The manager of these.
pub(crate) type Manager<A> = IoManager<Layers<A>>;

/// Gives the adapter below all layers back, as it is.
pub(crate) fn adapter_below<A: Adapter>(layers: Layers<A>) -> A
    ensures { A.view result ≡ layers.adapter }
{
    let filter = layers.into_device();
    let disk = filter.into_device();
    let port = disk.into_device();
    port.into_adapter()
}

/// The I/O manager of a stack over an adapter, as [`crate::Stack::start`] makes it.
///
/// # Errors
///
/// Those of [`crate::Stack::start`].
pub(crate) fn manager_over<A: Adapter>(
    alloc: Global,
    mut adapter: A,
    settings: Settings,
) -> Result<Manager<A>, NotStarted<A>>
    requires idle { IsIdle (A.view adapter) }
    requires unasked { (A.view adapter).accepted ≡ 0 }
    ensures view { IfOk result (IsFirstView (A.view adapter) settings) }
    ensures kept { IfOk result (λ manager. IsTrue manager.keeps) }
    ensures fault { IfErr result (λ why. IsSpent (A.view adapter) settings why.fault (A.view why.adapter)) }
{
    let probed = match prepare(alloc, &mut adapter, settings) {
        Ok(probed) => probed,
        Err(fault) => return Err(NotStarted { fault, adapter }),
    };
    let max_transfer = adapter.max_transfer();
    let depth = adapter.depth();
    let keeps_bytes = adapter.keeps_bytes();
    let first_sectors = first_sectors_of(probed.partitions.as_slice());
    let port = match Port::new(alloc, adapter) {
        Ok(port) => port,
        Err(adapter) => return Err(without_memory(adapter)),
    };
    let disk = Disk::new(alloc, port, probed.sector_size as u32);
    let filter = Filter::new(alloc, disk, settings.window as usize);
    let partitions = Partitions::new(alloc, filter, probed.partitions);
    let limits = Limits {
        sector_size: probed.sector_size,
        max_transfer,
        depth,
        open_requests: settings.open_requests,
        keeps_bytes,
        first_sectors,
    };
    match IoManager::new(alloc, partitions, limits) {
        Ok(manager) => Ok(manager),
        Err(layers) => Err(without_memory(adapter_below(layers))),
    }
}

/// Memory was refused behind the probe.
fn without_memory<A: Adapter>(adapter: A) -> NotStarted<A>
    ensures fault { result.fault ≡ NoMemory }
    ensures same { A.view result.adapter ≡ A.view adapter }
{
    NotStarted {
        fault: StartFault::NoMemory,
        adapter,
    }
}
