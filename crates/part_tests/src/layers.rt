//! Runs of the layers over an adapter in memory, each call by the contract of a layer.

ghost use Rattle.std.specs.Prelude.{◌≡◌, ◌≤◌, ◌^◌, [], ◌∷◌, false, length, IfOk, IsFalse};
ghost use Rattle.class_disk.specs.Opening.{IsFreshPort, TakesParts};
ghost use Rattle.hold_filter.specs.Opening.{IsFreshBelow};
ghost use Rattle.machine.specs.Map.{IsMap};
ghost use Rattle.part_tests.specs.Fresh.{IsBlank};
ghost use Rattle.part_tests.specs.Known.{IsKnown};
ghost use Rattle.partition.specs.Opening.{IsFreshDisk};

use crate::held::try_all_held;
use crate::session::try_all;
use crate::steps::Step;
use crate::steps::Step::{
    Act, Cancel, CancelAt, Done, Drain, Finish, Forget, Holds, Moved, NoneDone, Pause, Reserve,
    Reset, Resume, Sizes, Submit, Tells,
};
use crate::steps::Told::{Acts, Bad, Busy, Faults, Good, Sends, Starts};
use arrayvec::ArrayVec;
use class_disk::Disk;
use device::Device;
use device::Kind::{Flush, Read, Write};
use disk::VecDisk;
use hold_filter::Filter;
use irp::Driver;
use miniport::{Adapter, MemAdapter};
use ntstatus::NtStatus;
use partition::Partitions;
use port::Port;
use sector::Extent;
use std::alloc::{AllocError, Global};
use std::process::Abort;
use std::test::Fail;

/// An adapter of this many sectors of 512 bytes, with these bad sectors, two tags and transfers of this many sectors.
fn adapter(
    alloc: Global,
    sectors: u64,
    bad: &[u64],
    transfer: u32,
) -> Result<MemAdapter<VecDisk>, AllocError>
    requires some { 1 ≤ sectors }
    requires few { sectors ≤ 4096 }
    requires transfer { 1 ≤ transfer }
    requires short { transfer ≤ 64 }
    ensures { IfOk result (λ adapter. IsBlank adapter.shown sectors transfer) }
{
    let bad = bad.to_vec(alloc)?;
    let Ok(disk) = VecDisk::new(alloc, 512, sectors, bad) else {
        return Err(AllocError);
    };
    let Ok(adapter) = MemAdapter::new(alloc, disk, transfer, 2, false) else {
        return Err(AllocError);
    };
    Ok(adapter)
}

/// Takes these steps on a class driver over a port of eight sectors, of which nothing was asked yet.
fn class_over<D: Device>(
    rt: &impl Abort,
    alloc: Global,
    port: D,
    steps: &[Step],
) -> Result<(), AllocError>
    requires takes { TakesParts D.takes_srb D.stack_size }
    requires fresh { IsFreshPort (D.view port) }
    requires many { (D.view port).most ≡ 2 ^ 96 }
    requires known { IsKnown (D.view port) (record { first = 0; count = 8 } ∷ []) 1 false false }
{
    let disk = Disk::new(alloc, port, 512);
    let whole = [Extent { first: 0, count: 8 }];
    try_all(rt, alloc, disk, Driver::Class, &whole, steps)
}

/// Takes these steps on a filter with a window of one over a device of four sectors, of which nothing was asked yet.
fn filter_over<D: Device>(
    rt: &impl Abort,
    alloc: Global,
    device: D,
    steps: &[Step],
) -> Result<(), AllocError>
    requires locations { D.stack_size ≡ 1 }
    requires buffers { IsFalse D.takes_srb }
    requires fresh { IsFreshBelow (D.view device) }
    requires known { IsKnown (D.view device) (record { first = 0; count = 4 } ∷ []) 1 false false }
{
    let filter = Filter::new(alloc, device, 1);
    let whole = [Extent { first: 0, count: 4 }];
    try_all_held(rt, alloc, filter, &whole, steps)
}

/// Takes these steps on a filter with a window of one over a class driver over a port of four sectors, of which nothing
/// was asked yet.
fn filter_over_class<D: Device>(
    rt: &impl Abort,
    alloc: Global,
    port: D,
    steps: &[Step],
) -> Result<(), AllocError>
    requires takes { TakesParts D.takes_srb D.stack_size }
    requires fresh { IsFreshPort (D.view port) }
    requires many { (D.view port).most ≡ 2 ^ 96 }
    requires known { IsKnown (D.view port) (record { first = 0; count = 4 } ∷ []) 1 false false }
{
    let disk = Disk::new(alloc, port, 512);
    filter_over(rt, alloc, disk, steps)
}

/// Takes these steps on these partitions of a disk of 4,096 sectors, of which nothing was asked yet.
fn partitions_over<D: Device>(
    rt: &impl Abort,
    alloc: Global,
    disk: D,
    partitions: &[Extent],
    steps: &[Step],
) -> Result<(), AllocError>
    requires few { length partitions.now ≤ 4 }
    requires locations { D.stack_size ≡ 1 }
    requires fresh { IsFreshDisk partitions.now (D.view disk) }
    requires known { IsKnown (D.view disk) (record { first = 0; count = 4096 } ∷ []) 1 false false }
{
    let mut table = ArrayVec::new();
    let Ok(()) = table.try_extend_from_slice(partitions) else {
        unreachable!()
    };
    let stack = Partitions::new(alloc, disk, table);
    try_all(rt, alloc, stack, Driver::Partition, partitions, steps)
}

/// A port of four sectors, the last one bad. Three packets on two tags: the third starts where the second came back. A
/// packet that waits is cancelled by its own spot and number, or by its number alone, and ends by a removal; what a
/// reset meets comes back as bad.
const PORT: &[Step] = &[
    Sizes(1, [4, 0, 0], 2, 1 << 96),
    Reserve(0, Write, 0, 2),
    Submit(0, Write, 1, 2, 0xA5),
    Submit(0, Read, 3, 1, 0xA5),
    Submit(0, Flush, 0, 0, 0xA5),
    Tells(&[Starts(1, 0), Starts(2, 1)]),
    Act(1, &[Faults(2)]),
    Act(1, &[]),
    Finish(1, &[Bad(2), Starts(3, 1)]),
    Done(2, NtStatus::DeviceDataError),
    NoneDone,
    Act(1, &[Acts(3)]),
    Finish(1, &[Good(3)]),
    Finish(1, &[]),
    Finish(0, &[Busy(1)]),
    Done(3, NtStatus::Success),
    Done(1, NtStatus::DeviceBusy),
    NoneDone,
    Submit(0, Write, 0, 1, 0xA5),
    Submit(0, Read, 1, 1, 0xA5),
    Submit(0, Read, 2, 1, 0xA5),
    Submit(0, Read, 2, 1, 0xA5),
    Submit(0, Read, 2, 1, 0xA5),
    Submit(0, Read, 2, 1, 0xA5),
    Forget,
    Tells(&[]),
    CancelAt(5, 6),
    CancelAt(4, 4),
    NoneDone,
    CancelAt(6, 6),
    CancelAt(6, 6),
    Done(6, NtStatus::Cancelled),
    Cancel(7),
    Cancel(7),
    Cancel(10),
    Done(7, NtStatus::Cancelled),
    Act(0, &[Acts(4)]),
    Reset(&[Faults(5)]),
    Finish(1, &[Bad(5), Starts(6, 1)]),
    Done(5, NtStatus::IoDeviceError),
    Drain,
    Done(9, NtStatus::NoSuchDevice),
    NoneDone,
    Finish(0, &[Bad(4)]),
    Done(4, NtStatus::IoDeviceError),
    Finish(1, &[Busy(6)]),
    Done(8, NtStatus::DeviceBusy),
    NoneDone,
];

/// A class driver over eight sectors, sector 5 bad, with pieces of two. A read joins its pieces by their places, though
/// the second comes back first. A bad piece decides the status, and the others go on. A busy one is sent again. What
/// waits for a tag ends by a cancel or a removal; what was started then comes back, and is not sent again.
const CLASS: &[Step] = &[
    Sizes(1, [8, 0, 0], 65_536, 1 << 63),
    Reserve(0, Write, 0, 8),
    Submit(0, Write, 0, 3, 0x11),
    Tells(&[Starts(1, 0), Starts(2, 1)]),
    Submit(0, Write, 3, 1, 0x22),
    Tells(&[]),
    Act(0, &[Acts(1)]),
    Act(0, &[]),
    Finish(0, &[Good(1), Starts(3, 0)]),
    NoneDone,
    Act(1, &[Acts(2)]),
    Finish(1, &[Good(2)]),
    Finish(1, &[]),
    Moved(1, NtStatus::Success, &[0x11, 0x11, 0x11]),
    Act(0, &[Acts(3)]),
    Finish(0, &[Good(3)]),
    Moved(2, NtStatus::Success, &[0x22]),
    Submit(0, Read, 1, 3, 0),
    Forget,
    Act(1, &[Acts(5)]),
    Finish(1, &[Good(5)]),
    NoneDone,
    Act(0, &[Acts(4)]),
    Finish(0, &[Good(4)]),
    Moved(3, NtStatus::Success, &[0x11, 0x11, 0x22]),
    Submit(0, Read, 2, 6, 0),
    Tells(&[Starts(6, 0), Starts(7, 1)]),
    Act(1, &[Faults(7)]),
    Finish(1, &[Bad(7), Starts(8, 1)]),
    Act(0, &[Acts(6)]),
    Finish(0, &[Good(6)]),
    NoneDone,
    Act(1, &[Acts(8)]),
    Finish(1, &[Good(8)]),
    Moved(4, NtStatus::DeviceDataError, &[]),
    Submit(0, Write, 0, 1, 0x44),
    Tells(&[Starts(9, 0)]),
    Finish(0, &[Busy(9), Starts(10, 0)]),
    NoneDone,
    Reset(&[Faults(10)]),
    Finish(0, &[Bad(10)]),
    Moved(5, NtStatus::IoDeviceError, &[]),
    Submit(0, Write, 0, 6, 0xA5),
    Submit(0, Flush, 0, 0, 0),
    Submit(0, Read, 0, 4, 0),
    Tells(&[Starts(11, 0), Starts(12, 1)]),
    Cancel(7),
    Cancel(7),
    Moved(7, NtStatus::Cancelled, &[]),
    CancelAt(8, 6),
    NoneDone,
    CancelAt(8, 8),
    Moved(8, NtStatus::Cancelled, &[]),
    Drain,
    NoneDone,
    Act(0, &[Acts(11)]),
    Finish(0, &[Good(11)]),
    NoneDone,
    Finish(1, &[Busy(12)]),
    Moved(6, NtStatus::NoSuchDevice, &[]),
    NoneDone,
];

/// A filter with a window of one over four sectors. During a pause what is below goes on, and what is held or comes stays
/// held. What is held ends once by a cancel, and as DELETE_PENDING by a removal; what is below ends as it would.
const FILTER: &[Step] = &[
    Sizes(1, [4, 0, 0], 65_536, 1 << 63),
    Holds(0),
    Reserve(0, Write, 1, 2),
    Submit(0, Read, 0, 1, 0xA5),
    Submit(0, Read, 1, 1, 0xA5),
    Submit(0, Read, 2, 1, 0xA5),
    Tells(&[Starts(1, 0)]),
    Pause,
    Act(0, &[Acts(1)]),
    Finish(0, &[Good(1)]),
    Moved(1, NtStatus::Success, &[0]),
    Submit(0, Flush, 0, 0, 0xA5),
    Submit(0, Read, 2, 1, 0xA5),
    Tells(&[]),
    Holds(4),
    NoneDone,
    Cancel(4),
    Cancel(4),
    CancelAt(3, 3),
    Done(4, NtStatus::Cancelled),
    Done(3, NtStatus::Cancelled),
    NoneDone,
    Holds(2),
    Resume,
    Tells(&[Starts(2, 0)]),
    Holds(1),
    Cancel(2),
    Act(0, &[Acts(2)]),
    Finish(0, &[Good(2)]),
    Moved(2, NtStatus::Success, &[0]),
    Forget,
    Submit(0, Read, 0, 1, 0xA5),
    Drain,
    Holds(0),
    Done(6, NtStatus::DeletePending),
    NoneDone,
    Reset(&[Faults(3)]),
    Act(0, &[]),
    Finish(0, &[Bad(3)]),
    Finish(0, &[]),
    Done(5, NtStatus::IoDeviceError),
    NoneDone,
];

/// Two partitions, one right behind the other, with the higher one first in the table.
const TURNED: [Extent; 2] = [
    Extent {
        first: 3072,
        count: 1024,
    },
    Extent {
        first: 2048,
        count: 1024,
    },
];

/// What is written to the end of one partition does not reach the next one. A bad sector is one of its own partition
/// alone. A packet is cancelled by its number and one by its spot; another is gone with the device. What is out comes
/// back.
const PARTITIONS: &[Step] = &[
    Sizes(2, [1024, 1024, 0], 64, 1 << 96),
    Reserve(0, Write, 0, 1),
    Submit(1, Write, 1022, 2, 0x5A),
    Submit(0, Read, 0, 1, 0xFF),
    Submit(1, Read, 1023, 1, 0xFF),
    Tells(&[
        Sends(1, &[0x2A, 0, 0, 0, 0x0B, 0xFE, 0, 0, 2, 0]),
        Sends(2, &[0x28, 0, 0, 0, 0x0C, 0x00, 0, 0, 1, 0]),
    ]),
    Act(0, &[Acts(1)]),
    Finish(0, &[Good(1), Starts(3, 0)]),
    Moved(1, NtStatus::Success, &[0x5A, 0x5A]),
    Act(1, &[Acts(2)]),
    Act(1, &[]),
    Finish(1, &[Good(2)]),
    Finish(1, &[]),
    Moved(2, NtStatus::Success, &[0]),
    Act(0, &[Acts(3)]),
    Finish(0, &[Good(3)]),
    Moved(3, NtStatus::Success, &[0x5A]),
    NoneDone,
    Submit(0, Read, 28, 1, 0xFF),
    Submit(1, Flush, 1024, 0, 0xFF),
    Submit(0, Read, 0, 1, 0xFF),
    Submit(0, Read, 0, 1, 0xFF),
    Submit(0, Read, 0, 1, 0xFF),
    Forget,
    Tells(&[]),
    CancelAt(6, 6),
    Done(6, NtStatus::Cancelled),
    Cancel(7),
    Cancel(7),
    Done(7, NtStatus::Cancelled),
    Drain,
    Done(8, NtStatus::NoSuchDevice),
    NoneDone,
    Act(0, &[Faults(4)]),
    Finish(0, &[Bad(4)]),
    Done(4, NtStatus::DeviceDataError),
    Reset(&[Faults(5)]),
    Finish(1, &[Bad(5)]),
    Done(5, NtStatus::IoDeviceError),
    NoneDone,
];

/// A port over this adapter. Each function here has but one layer's type, over any type below it: layers within one
/// another are dear to prove.
fn on_port<A: Adapter>(rt: &impl Abort, alloc: Global, adapter: A) -> Result<(), AllocError>
    requires { IsBlank (A.view adapter) 4 2 }
{
    let Ok(port) = Port::new(alloc, adapter) else {
        return Err(AllocError);
    };
    let whole = [Extent { first: 0, count: 4 }];
    try_all(rt, alloc, port, Driver::Port, &whole, PORT)
}

fn on_class<A: Adapter>(rt: &impl Abort, alloc: Global, adapter: A) -> Result<(), AllocError>
    requires { IsBlank (A.view adapter) 8 2 }
{
    let Ok(port) = Port::new(alloc, adapter) else {
        return Err(AllocError);
    };
    class_over(rt, alloc, port, CLASS)
}

fn on_filter<A: Adapter>(rt: &impl Abort, alloc: Global, adapter: A) -> Result<(), AllocError>
    requires { IsBlank (A.view adapter) 4 2 }
{
    let Ok(port) = Port::new(alloc, adapter) else {
        return Err(AllocError);
    };
    filter_over_class(rt, alloc, port, FILTER)
}

fn on_partitions<A: Adapter>(
    rt: &impl Abort,
    alloc: Global,
    adapter: A,
    partitions: &[Extent],
) -> Result<(), AllocError>
    requires blank { IsBlank (A.view adapter) 4096 64 }
    requires few { length partitions.now ≤ 4 }
    requires map { IsMap 4096 partitions.now }
{
    let Ok(port) = Port::new(alloc, adapter) else {
        return Err(AllocError);
    };
    partitions_over(rt, alloc, port, partitions, PARTITIONS)
}

#[test]
fn each_layer_serves_by_its_contract(rt: HostRuntime) -> Result<(), Fail> {
    let alloc = rt.alloc();
    on_port(&rt, alloc, adapter(alloc, 4, &[3], 2)?)?;
    on_class(&rt, alloc, adapter(alloc, 8, &[5], 2)?)?;
    on_filter(&rt, alloc, adapter(alloc, 4, &[], 2)?)?;
    on_partitions(&rt, alloc, adapter(alloc, 4096, &[3100], 64)?, &TURNED)?;
    Ok(())
}
