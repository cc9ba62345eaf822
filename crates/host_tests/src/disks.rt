//! Disks of 4,096 sectors of 512 bytes, and stacks over adapters without sectors for them.

ghost use Rattle.std.specs.Prelude.{◌≡◌, ◌≤◌, IfOk, IsFalse, Some};
ghost use Rattle.machine.specs.Map.{IsMap};
ghost use Rattle.machine.specs.State.{opening};
ghost use Rattle.host.specs.Opening.{IsDiskFor};
ghost use Rattle.probe.specs.Exchange.{IsIdle};
ghost use Rattle.traced.specs.Opening.{IsNew};
ghost use Rattle.traced.specs.Sizes.{AreSizes, sizes_of};

use adapter::Adapter;
use compose::{Settings, Stack, StartFault};
use disk::{Medium, NoMemory, VecDisk};
use miniport::BookedAdapter;
use std::alloc::{AllocError, Global};
use std::process::Abort;
use traced::StackSizes;

/// The sectors of every disk here.
const SECTORS: u64 = 4096;

/// Sector 0 with a table of two partitions, of the sectors 2,048 to 3,071 and 3,072 to 4,095. Entries have sixteen bytes
/// each, from byte 446 on. The type of an entry is byte 4 of it, its first sector stands in the bytes from 8 on, and its
/// count in those from 12 on, the lowest byte first.
fn sector_0() -> [u8; 512] {
    let mut bytes = [0; 512];
    for n in 0..2_u32 {
        let entry = 446 + 16 * n as usize;
        bytes[entry + 4] = 7;
        bytes[entry + 8..entry + 12].copy_from_slice(&(2048 + 1024 * n).to_le_bytes());
        bytes[entry + 12..entry + 16].copy_from_slice(&1024_u32.to_le_bytes());
    }
    bytes[510] = 0x55;
    bytes[511] = 0xAA;
    bytes
}

fn no_memory(_refused: NoMemory) -> AllocError {
    AllocError
}

/// A disk of two partitions, in which the sectors of the list are bad.
pub(crate) fn disk(alloc: Global, bad: &[u64]) -> Result<VecDisk, AllocError> {
    let bad = Vec::from_slice(alloc, bad)?;
    VecDisk::starting_with(alloc, 512, SECTORS, &sector_0(), bad).map_err(no_memory)
}

/// An adapter of this many tags without sectors, which moves 64 at most.
fn adapter(alloc: Global, depth: u8) -> Result<BookedAdapter, AllocError>
    requires deep { 1 ≤ depth }
    requires shallow { depth ≤ 32 }
    ensures idle { IfOk result (λ a. IsIdle a.shown) }
    ensures unasked { IfOk result (λ a. a.shown.accepted ≡ 0) }
    ensures depth { IfOk result (λ a. a.shown.depth ≡ depth) }
{
    let first = Vec::from_slice(alloc, &sector_0())?;
    BookedAdapter::new(alloc, first, SECTORS, 64, depth).map_err(no_memory)
}

/// A stack over an adapter without sectors that was started, and its sizes. This many requests may be at work, and 64
/// open.
fn start_over<A: Adapter>(
    rt: &impl Abort,
    alloc: Global,
    adapter: A,
    window: u8,
) -> Result<(Stack<A>, StackSizes), AllocError>
    requires idle { IsIdle (A.view adapter) }
    requires unasked { (A.view adapter).accepted ≡ 0 }
    ensures new { IfOk result (λ r. IsNew r.0) }
    ensures opens { IfOk result (λ r. r.0.state ≡ opening r.0.state.arrays) }
    ensures apart { IfOk result (λ r. IsFalse r.0.adapter.faithful) }
    ensures sizes { IfOk result (λ r. (r.1 ≡ sizes_of r.0.rules) × AreSizes r.1) }
    ensures slots { IfOk result (λ r. r.0.rules.open_requests ≡ Some 64) }
    ensures depth { IfOk result (λ r. r.0.rules.depth ≡ (A.view adapter).depth) }
    ensures map { IfOk result (λ r. IsMap r.0.rules.disk_sectors r.0.rules.partitions) }
{
    let sizes = StackSizes {
        sector_size: adapter.sector_size(),
        sectors: adapter.sectors(),
        longest: 65_536,
        max_transfer: adapter.max_transfer(),
        busy_limit: 17,
    };
    let faithful = adapter.is_faithful();
    assert!(rt; !faithful);
    let keeps_bytes = adapter.keeps_bytes();
    assert!(rt; keeps_bytes);
    let settings = Settings {
        window: u32::from(window),
        open_requests: 64,
    };
    match Stack::start(alloc, adapter, settings) {
        Ok(stack) => Ok((stack, sizes)),
        Err(why) => match why.fault {
            StartFault::NoMemory => Err(AllocError),
            fault => panic!(rt; "{fault:?}"),
        },
    }
}

/// A stack for a disk of two partitions, with this many tags.
pub(crate) fn start(
    rt: &impl Abort,
    alloc: Global,
    depth: u8,
) -> Result<(Stack<BookedAdapter>, StackSizes), AllocError>
    requires deep { 1 ≤ depth }
    requires shallow { depth ≤ 32 }
    ensures new { IfOk result (λ r. IsNew r.0) }
    ensures opens { IfOk result (λ r. r.0.state ≡ opening r.0.state.arrays) }
    ensures apart { IfOk result (λ r. IsFalse r.0.adapter.faithful) }
    ensures sizes { IfOk result (λ r. (r.1 ≡ sizes_of r.0.rules) × AreSizes r.1) }
    ensures slots { IfOk result (λ r. r.0.rules.open_requests ≡ Some 64) }
    ensures depth { IfOk result (λ r. r.0.rules.depth ≡ depth) }
    ensures map { IfOk result (λ r. IsMap r.0.rules.disk_sectors r.0.rules.partitions) }
{
    let adapter = adapter(alloc, depth)?;
    start_over(rt, alloc, adapter, depth)
}

/// A stack for the disk that a medium has, of two partitions, with this many tags.
pub(crate) fn start_for<M: Medium>(
    rt: &impl Abort,
    alloc: Global,
    medium: &M,
    depth: u8,
) -> Result<(Stack<BookedAdapter>, StackSizes), AllocError>
    requires deep { 1 ≤ depth }
    requires shallow { depth ≤ 32 }
    ensures new { IfOk result (λ r. IsNew r.0) }
    ensures apart { IfOk result (λ r. IsFalse r.0.adapter.faithful) }
    ensures sizes { IfOk result (λ r. (r.1 ≡ sizes_of r.0.rules) × AreSizes r.1) }
    ensures slots { IfOk result (λ r. r.0.rules.open_requests ≡ Some 64) }
    ensures depth { IfOk result (λ r. r.0.rules.depth ≡ depth) }
    ensures unfailed { IfOk result (λ _. (M.view medium.now).failures ≡ 0) }
    ensures disk { IfOk result (λ r. IsDiskFor r.0.rules (M.view medium.now)) }
{
    let (stack, sizes) = start(rt, alloc, depth)?;
    let (sector_size, sectors) = (medium.sector_size(), medium.sectors());
    let failures = medium.failures();
    assert!(rt; sector_size == sizes.sector_size && sectors == sizes.sectors);
    assert!(rt; 1 <= sectors && failures == 0);
    Ok((stack, sizes))
}
