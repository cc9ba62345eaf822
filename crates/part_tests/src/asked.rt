//! What a client sends to a layer.

ghost use Rattle.std.specs.Prelude.{◌≡◌, ◌≤◌, ◌*◌, length, IfOk, if◌then◌else◌};
ghost use Rattle.machine.specs.Rules.{is_transfer};
ghost use Rattle.device.specs.View.{AsksFor, Carries, major_of, transfer_length, whole_command};
ghost use Rattle.part_tests.specs.Known.{Brings, IsAskable, rules_on};

use cdb::{Cdb, encode};
use device::{Kind, Request, major_for};
use irp::{Control, Driver, Irp, LocationFlags, Payload, StackLocation};
use sector::{Bytes, Extent, LabelRoom};
use srb::{CommandBlock, Srb, SrbFlags, SrbFunction};
use std::alloc::{AllocError, Global};
use std::process::Abort;

/// Checks that a request lies in its partition, is no longer than the layer takes, and can be asked for by ten bytes.
pub(crate) fn assert_askable(
    rt: &impl Abort,
    partitions: &[Extent],
    longest: u64,
    request: &Request,
)
    ensures { IsAskable partitions.now longest request.now }
{
    assert!(rt; usize::from(request.volume) < partitions.len());
    let partition = partitions[usize::from(request.volume)];
    let count = request.extent.count;
    assert!(rt; partition.first <= 4096 && partition.count <= 4096);
    assert!(rt; request.extent.is_within(partition.count) && count <= longest && count <= 256);
    assert!(rt; (count == 0) == (request.kind == Kind::Flush));
}

/// The command that asks for a request.
fn command(partitions: &[Extent], longest: u64, request: &Request) -> Cdb
    requires { IsAskable partitions.now longest request.now }
    ensures { result ≡ whole_command (rules_on partitions.now longest) request.now }
{
    let partition = partitions[usize::from(request.volume)];
    let lba = (partition.first + request.extent.first) as u32;
    let count = request.extent.count as u16;
    let fua = request.through;
    match request.kind {
        Kind::Read => Cdb::Read10 { lba, count, fua },
        Kind::Write => Cdb::Write10 { lba, count, fua },
        Kind::Flush => Cdb::Sync10 { lba: 0, blocks: 0 },
    }
}

/// A buffer of a request's length, full of one byte.
fn buffer_for(alloc: Global, request: &Request, byte: u8) -> Result<Vec<u8>, AllocError>
    requires { request.now.extent.count ≤ 256 }
    ensures { IfOk result (λ bytes. length bytes.items ≡ (if is_transfer request.now.kind then request.now.extent.count * 512 else 0)) }
{
    let length = match request.kind {
        Kind::Read | Kind::Write => request.extent.count as usize * 512,
        Kind::Flush => 0,
    };
    let bytes = vec![in alloc; byte; length]?;
    Ok(bytes)
}

/// An SRB that asks for a request, with these bytes as its data.
fn srb_for(
    alloc: Global,
    partitions: &[Extent],
    longest: u64,
    request: &Request,
    bytes: Vec<u8>,
) -> Result<Srb, AllocError>
    requires askable { IsAskable partitions.now longest request.now }
    requires data { length bytes.items ≡ transfer_length (rules_on partitions.now longest) request.now }
    ensures { IfOk result (AsksFor (rules_on partitions.now longest) request.now) }
{
    let for_label = LabelRoom::new(alloc, bytes.len())?;
    Ok(Srb {
        function: SrbFunction::ExecuteScsi,
        flags: SrbFlags(match request.kind {
            Kind::Read => 64,
            Kind::Write => 128,
            Kind::Flush => 0,
        }),
        block: CommandBlock::new(encode(&command(partitions, longest, request))),
        data: Bytes::new(bytes),
        for_label,
        sense: None,
    })
}

/// Returns what a packet brings for a request, full of one byte: an SRB where the layer takes one, else a buffer.
fn payload_for(
    alloc: Global,
    takes_srb: bool,
    partitions: &[Extent],
    longest: u64,
    request: &Request,
    byte: u8,
) -> Result<Payload, AllocError>
    requires { IsAskable partitions.now longest request.now }
    ensures { IfOk result (Carries takes_srb (rules_on partitions.now longest) request.now) }
{
    let bytes = buffer_for(alloc, request, byte)?;
    if takes_srb {
        Ok(Payload::Srb(srb_for(alloc, partitions, longest, request, bytes)?))
    } else {
        Ok(Payload::Buffer(Bytes::new(bytes)))
    }
}

/// A driver's own location, which asks for the request, by an SRB or by itself.
fn own_location(driver: Driver, takes_srb: bool, request: &Request) -> StackLocation
    ensures major { result.major ≡ major_of takes_srb request.now.kind }
    ensures flags { result.flags.0 ≡ (if request.now.through then 0x04 else 0) }
    ensures volume { result.volume ≡ request.now.volume }
    ensures extent { result.extent ≡ request.now.extent }
{
    StackLocation {
        driver,
        major: major_for(takes_srb, request.kind),
        minor: None,
        control: Control(0),
        flags: LocationFlags(if request.through { 0x04 } else { 0 }),
        volume: request.volume,
        extent: request.extent,
    }
}

/// The layer whose location a packet has, and whether it brings an SRB.
#[derive(Clone, Copy)]
pub(crate) struct Form {
    pub driver: Driver,
    pub takes_srb: bool,
}

/// A packet of this number, full of one byte.
pub(crate) fn packet_for(
    alloc: Global,
    form: Form,
    number: u64,
    partitions: &[Extent],
    longest: u64,
    request: &Request,
    byte: u8,
) -> Result<Box<Irp>, AllocError>
    requires { IsAskable partitions.now longest request.now }
    ensures { IfOk result (λ irp. Brings form.takes_srb partitions.now longest number request.now irp.value) }
{
    let payload = payload_for(alloc, form.takes_srb, partitions, longest, request, byte)?;
    let mut irp = Box::new(alloc, Irp::new(number as u128, payload))?;
    irp.next_location(own_location(form.driver, form.takes_srb, request));
    Ok(irp)
}
