//! How a stack is started over storage of C's own.

ghost use Rattle.std.specs.Prelude.{◌≡◌, ◌≢◌, ◌≤◌, ◌↔◌, IfErr, IfOk, IsFalse, IsTrue, None, length, replicate};
ghost use Rattle.ntstatus.specs.declared.NtStatus.TheVariants.{InsufficientResources, Success};
ghost use Rattle.miniport.specs.Apart.{IsNewBooked};
ghost use Rattle.probe.specs.Exchange.{IsIdle};
ghost use Rattle.saddlemug.specs.Over.{IsDisk, IsNewOver, IsOverStatus, limits_of};

use crate::booking::DiskOf;
use crate::over::Over;
use crate::status::start_status;
use adapter::Adapter;
use compose::{Settings, Stack};
use miniport::BookedAdapter;
use ntstatus::NtStatus;
use std::alloc::{AllocError, Global};

/// A disk that C keeps.
#[repr(C)]
#[derive(Clone, Copy)]
pub struct StackDisk {
    /// The number of sectors, 1 to 2^40.
    pub sectors: u64,
    /// How many sectors the longest command has, 1 to 65,536.
    pub max_transfer: u32,
    /// The number of tags, 1 to 32.
    pub depth: u32,
    /// How many requests may be at work at once, 1 to 64.
    pub window: u32,
    /// How many requests may be open at once, 1 to 64.
    pub open_requests: u32,
}

impl StackDisk {
    /// Whether there is such a disk, with a first sector of this many bytes.
    fn is_in_range(&self, first: &[u8]) -> bool
        ensures { IsTrue result ↔ IsDisk self.now first.now }
    {
        (first.len() == 512 || first.len() == 4096)
            && 1 <= self.sectors
            && self.sectors <= 1 << 40
            && 1 <= self.max_transfer
            && self.max_transfer <= 1 << 16
            && 1 <= self.depth
            && self.depth <= 32
    }

    fn limits(&self) -> Settings
        ensures { result ≡ limits_of self.now }
    {
        Settings {
            window: self.window,
            open_requests: self.open_requests,
        }
    }
}

/// A stack over a disk of C's that begins with this sector, of 512 or 4096 bytes.
///
/// # Errors
///
/// [`NtStatus::InvalidParameter`] where a size or a limit is out of range, or the sector has no partition table of such
/// a disk; [`NtStatus::InsufficientResources`] where memory was refused.
pub(crate) fn new_over(alloc: Global, disk: &StackDisk, first: &[u8]) -> Result<Over, NtStatus>
    ensures over { IfOk result (IsNewOver disk.now first.now) }
    ensures fault { IfErr result (λ status. status ≢ Success) }
    ensures why { IfErr result (IsOverStatus disk.now first.now) }
{
    if !disk.is_in_range(first) {
        return Err(NtStatus::InvalidParameter);
    }
    let Ok(adapter) = new_adapter(alloc, disk, first) else {
        return Err(NtStatus::InsufficientResources);
    };
    let sizes = sizes_of(&adapter);
    match Stack::start(alloc, adapter, disk.limits()) {
        Ok(stack) => with_places(alloc, stack, sizes),
        Err(why) => Err(start_status(why.fault)),
    }
}

/// The sizes of an adapter's disk.
fn sizes_of(adapter: &BookedAdapter) -> DiskOf
    ensures sector_size { result.sector_size ≡ adapter.now.shown.sector_size }
    ensures sectors { result.sectors ≡ length adapter.now.shown.sectors }
{
    DiskOf {
        sector_size: adapter.sector_size() as u64,
        sectors: adapter.sectors(),
    }
}

/// An adapter without sectors but for the first, of which nothing was asked yet.
fn new_adapter(alloc: Global, disk: &StackDisk, first: &[u8]) -> Result<BookedAdapter, AllocError>
    requires { IsDisk disk.now first.now }
    ensures new { IfOk result (IsNewBooked first.now disk.now.sectors disk.now.max_transfer disk.now.depth) }
    ensures keeps { IfOk result (λ a. IsTrue a.shown.keeps_bytes) }
    ensures idle { IfOk result (λ a. IsIdle a.shown) }
    ensures unasked { IfOk result (λ a. a.shown.accepted ≡ 0) }
{
    let first = Vec::from_slice(alloc, first)?;
    match BookedAdapter::new(
        alloc,
        first,
        disk.sectors,
        disk.max_transfer,
        disk.depth as u8,
    ) {
        Ok(adapter) => Ok(adapter),
        Err(_) => Err(AllocError),
    }
}

/// The stack with places for the bytes of its pieces; none of these was told.
fn with_places(alloc: Global, stack: Stack<BookedAdapter>, sizes: DiskOf) -> Result<Over, NtStatus>
    requires apart { IsFalse stack.adapter.faithful }
    requires bytes { IsTrue stack.rules.keeps_bytes }
    requires sector_size { stack.rules.sector_size ≡ sizes.sector_size }
    requires sectors { stack.rules.disk_sectors ≡ sizes.sectors }
    ensures stack { IfOk result (λ o. o.stack ≡ stack) }
    ensures places { IfOk result (λ o. o.places ≡ replicate 256 None) }
    ensures why { IfErr result (λ status. status ≡ InsufficientResources) }
{
    match Over::new(alloc, stack, sizes) {
        Ok(over) => Ok(over),
        Err(_) => Err(NtStatus::InsufficientResources),
    }
}
