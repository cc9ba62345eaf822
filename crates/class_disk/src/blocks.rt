//! The packet of a part, and its SRB.

ghost use Rattle.std.specs.Prelude.{◌≡◌, ◌<◌, ◌≤◌, ◌*◌, ◌^◌, ◌-◌, None, true, IsTrue, length};
ghost use Rattle.machine.specs.Rules.{Rules};
ghost use Rattle.machine.specs.Sending.{fits_ten, read_command, write_command, flush_command};
ghost use Rattle.device.specs.View.{AsksFor, AsksInLocation, direction as direction_of, transfer_length};
ghost use Rattle.class_disk.specs.inside.Blocks.{IsCuttable, part_count_of, part_request_of, data_length};
ghost use Rattle.class_disk.specs.inside.Blocks.{FitsBlock, disk_command, IsWholeDisk, port_location};
ghost use Rattle.class_disk.specs.inside.Blocks.{IsOwnPacket};

use crate::Sizes;
use cdb::Cdb;
use device::{Kind, Request};
use irp::{Control, Driver, Irp, LocationFlags, MajorFunction, Payload, StackLocation};
use sector::{Bytes, Extent, LabelRoom};
use split::plan;
use srb::{CommandBlock, Srb, SrbFlags, SrbFunction};

/// Returns how many parts a request has: a flush has one, of no sector.
pub(crate) fn part_count(sizes: &Sizes, request: &Request) -> u64
    requires { IsCuttable sizes.now.max_transfer request.now }
    ensures { result ≡ part_count_of sizes.now.max_transfer request.now }
{
    match request.kind {
        Kind::Flush => 1,
        Kind::Read | Kind::Write => plan(request.extent, sizes.max_transfer).pieces(),
    }
}

/// Returns what part k of a request asks the layer below for.
pub(crate) fn part_request(sizes: &Sizes, request: &Request, k: u64) -> Request
    requires cuttable { IsCuttable sizes.now.max_transfer request.now }
    requires part { k < part_count_of sizes.now.max_transfer request.now }
    ensures { result ≡ part_request_of sizes.now.max_transfer request.now k }
{
    match request.kind {
        Kind::Flush => *request,
        Kind::Read | Kind::Write => Request {
            extent: plan(request.extent, sizes.max_transfer).piece(k),
            ..*request
        },
    }
}

/// Returns how many bytes of data a request has.
pub(crate) fn byte_count(sizes: &Sizes, request: &Request) -> usize
    requires { request.now.extent.count * sizes.now.sector_size < 2 ^ 64 }
    ensures { result ≡ data_length sizes.now.sector_size request.now }
{
    match request.kind {
        Kind::Read | Kind::Write => request.extent.count as usize * sizes.sector_size as usize,
        Kind::Flush => 0,
    }
}

/// Whether a block of ten bytes has room for an address and a number of blocks.
fn is_short(lba: u64, count: u64) -> bool
    ensures { result ≡ fits_ten lba count }
{
    lba < 1 << 32 && count < 1 << 16
}

/// A read, in the form of ten bytes where that has room for it, else of sixteen.
fn read_of(lba: u64, count: u64, fua: bool) -> Cdb
    requires { count < 2 ^ 32 }
    ensures { result ≡ read_command lba count fua }
{
    if is_short(lba, count) {
        Cdb::Read10 {
            lba: lba as u32,
            count: count as u16,
            fua,
        }
    } else {
        Cdb::Read16 {
            lba,
            count: count as u32,
            fua,
        }
    }
}

/// A write, likewise.
fn write_of(lba: u64, count: u64, fua: bool) -> Cdb
    requires { count < 2 ^ 32 }
    ensures { result ≡ write_command lba count fua }
{
    if is_short(lba, count) {
        Cdb::Write10 {
            lba: lba as u32,
            count: count as u16,
            fua,
        }
    } else {
        Cdb::Write16 {
            lba,
            count: count as u32,
            fua,
        }
    }
}

/// A flush of a whole disk of this many sectors, likewise.
fn flush_of(disk_sectors: u64) -> Cdb
    ensures { result ≡ flush_command disk_sectors }
{
    if disk_sectors <= 1 << 32 {
        Cdb::Sync10 { lba: 0, blocks: 0 }
    } else {
        Cdb::Sync16 { lba: 0, blocks: 0 }
    }
}

/// The command that asks for all of a request of a disk of this many sectors.
fn command_of(disk_sectors: u64, request: &Request) -> Cdb
    requires { FitsBlock request.now }
    ensures { result ≡ disk_command disk_sectors request.now request.now.kind }
{
    let Extent { first, count } = request.extent;
    match request.kind {
        Kind::Read => read_of(first, count, request.through),
        Kind::Write => write_of(first, count, request.through),
        Kind::Flush => flush_of(disk_sectors),
    }
}

/// Which way the data of a request go.
fn direction(kind: Kind) -> SrbFlags
    ensures { result.0 ≡ direction_of kind }
{
    match kind {
        Kind::Read => SrbFlags::DATA_IN,
        Kind::Write => SrbFlags::DATA_OUT,
        Kind::Flush => SrbFlags(0),
    }
}

/// The SRB of a request of a disk of this many sectors, with its data, and room for as many bytes in a label.
pub(crate) fn srb_for(
    disk_sectors: u64,
    request: &Request,
    data: Bytes,
    for_label: LabelRoom,
) -> Srb
    requires fits { FitsBlock request.now }
    requires volume { request.now.volume ≡ 0 }
    ensures data { result.data ≡ «data» }
    ensures sense { result.sense ≡ None }
    ensures asks { (rules : Rules) → IsWholeDisk disk_sectors rules → length «data»
        ≡ transfer_length rules request.now
        → (IsTrue rules.keeps_bytes → transfer_length rules request.now ≤ for_label)
        → AsksFor rules request.now result }
{
    Srb {
        function: SrbFunction::ExecuteScsi,
        flags: direction(request.kind),
        block: CommandBlock::new(cdb::encode(&command_of(disk_sectors, request))),
        data,
        for_label,
        sense: None,
    }
}

/// The location of a request for the port, which asks for no completion routine.
fn location_of(request: &Request) -> StackLocation
    ensures { result ≡ port_location request.now }
{
    let flags = if request.through {
        LocationFlags::WRITE_THROUGH
    } else {
        LocationFlags(0)
    };
    StackLocation {
        driver: Driver::Port,
        major: MajorFunction::InternalDeviceControl,
        minor: None,
        control: Control(0),
        flags,
        volume: request.volume,
        extent: request.extent,
    }
}

/// Makes a packet of the class driver's own ready to go down for a request, with the port's location alone, whatever it
/// was before (WDK: IoReuseIrp, IoGetNextIrpStackLocation).
pub(crate) fn ready_packet(irp: &mut Irp, number: u128, request: &Request, payload: Payload)
    ensures own { IsOwnPacket number request.now payload irp.new }
    ensures asks { AsksInLocation true request.now irp.new }
{
    *irp = Irp::new(number, payload);
    irp.next_location(location_of(request));
}
