//! What labels say of the sectors of a disk.

ghost use Rattle.std.specs.Prelude.{◌≡◌, ◌+◌, ◌*◌, ◌++◌, ◌∷◌, [], IfOk, IfSome, OnOk, slice_range};
ghost use Rattle.std.specs.Option.{option_copied};
ghost use Rattle.std.specs.List.{find};
ghost use Rattle.machine.specs.Rules.{first_sector, home};
ghost use Rattle.judge.specs.Deciding.{has_number, is_piece};
ghost use Rattle.judge.specs.Views.{extent_at, rules_of};
ghost use Rattle.loss.specs.Held.{sector_in};
ghost use Rattle.session_judge.specs.Deeds.{act_deeds, at_sectors, cut_off, deed_at, doubt_if, fault_deeds, fresh_work, fresh_work_at, label_deeds, of_work, way_of, work_at, work_of, work_of_piece};

use judge::{Machine, MachineRules, OpenRequest, Started};
use machine::{ClientRequest, Kind, Label};
use sector::{Bytes, Extent};
use srb::{Class, DeviceLabel};
use std::alloc::{AllocError, Global};

/// How a sector comes by bytes.
#[derive(Debug, Clone, Copy)]
pub enum Way {
    /// A write put them there; the next piece to start has this number.
    Put { next: u128 },
    /// A write put them there, past volatile caches.
    Secured,
    /// A write failed that may have put them there, or was cut off.
    Tried,
    /// A read gave them.
    Given,
}

/// What happens to a disk, or is told of it.
#[derive(Debug, Drop)]
pub enum Deed {
    /// To this sector of the disk, with these bytes.
    At { sector: u64, way: Way, bytes: Bytes },
    /// The flush of this piece is done.
    Flushed { flush: u128 },
    /// A flush or a write past volatile caches failed, or was cut off.
    SyncFailed,
    /// Power was lost.
    PowerLost,
    /// The process ended.
    ProcessEnded,
}

/// What a piece does to the disk.
#[derive(Debug, Drop)]
pub(crate) struct Work {
    kind: Kind,
    /// Past volatile caches (SBC: FUA).
    through: bool,
    /// Bytes of a sector.
    size: u32,
    /// Sectors of the disk.
    extent: Extent,
    /// The bytes that a write sends.
    bytes: Bytes,
}

/// The bytes from one place on to another, as far as they are there.
fn part(bytes: &[u8], from: u128, to: u128) -> &[u8]
    ensures { result.now ≡ slice_range bytes.now from to }
{
    let count = bytes.len() as u128;
    let to = to.min(count);
    let from = from.min(to);
    &bytes[from as usize..to as usize]
}

/// The bytes of sector `k` of some.
fn sector_in(size: u32, k: u64, bytes: &[u8]) -> &[u8]
    ensures { result.now ≡ sector_in size k bytes.now }
{
    let from = k as u128 * size as u128;
    part(bytes, from, from + size as u128)
}

/// The partition's extent of the disk.
fn extent_of(rules: &MachineRules, partition: Option<u8>) -> Option<Extent>
    ensures { result ≡ extent_at (rules_of rules.now).partitions partition }
{
    rules.partitions.get(partition? as usize).copied()
}

/// The sector of the disk where this place of a request lies, if it has a number.
fn home(rules: &MachineRules, request: &ClientRequest, place: u64) -> Option<u64>
    ensures { IfSome result (λ first. first ≡ home (rules_of rules.now) request.now.partition (first_sector (rules_of rules.now) request.now + place)) }
{
    let first = request.offset.checked_div(rules.sector_size as u64)?;
    let first = first.checked_add(place)?;
    match extent_of(rules, request.partition) {
        Some(extent) => extent.first.checked_add(first),
        None => Some(first),
    }
}

/// The bytes that a write sends to these places.
fn bytes_of(
    alloc: Global,
    rules: &MachineRules,
    request: &ClientRequest,
    places: Extent,
) -> Result<Bytes, AllocError>
    ensures { IfOk result (λ bytes. bytes ≡ slice_range request.now.bytes (places.first * rules.now.sector_size) ((places.first + places.count) * rules.now.sector_size)) }
{
    let size = rules.sector_size as u128;
    let first = places.first as u128;
    let count = places.count as u128;
    let bytes = part(
        request.bytes.as_slice(),
        first * size,
        (first + count) * size,
    );
    Ok(Bytes::new(Vec::from_slice(alloc, bytes)?))
}

/// The work of a piece of the request that has these places.
fn work_of(
    alloc: Global,
    rules: &MachineRules,
    request: &ClientRequest,
    places: Extent,
) -> Result<Work, AllocError>
    ensures { IfOk result (λ work. work ≡ work_of (rules_of rules.now) request.now places) }
{
    let Some(first) = home(rules, request, places.first) else {
        return Err(AllocError);
    };
    let bytes = bytes_of(alloc, rules, request, places)?;
    Ok(Work {
        kind: request.kind,
        through: request.through,
        size: rules.sector_size,
        extent: Extent {
            first,
            count: places.count,
        },
        bytes,
    })
}

fn has_number(open: &OpenRequest, number: u64) -> bool
    ensures { result ≡ has_number number open.now }
{
    open.number() == number
}

fn is_piece(piece: &Started, number: u128) -> bool
    ensures { result ≡ is_piece number piece.now }
{
    piece.number() == number
}

/// The open request of this number.
fn owner_of(machine: &Machine, number: u64) -> Option<&OpenRequest>
    ensures { option_copied result ≡ find (has_number number) machine.now.requests }
{
    let requests = machine.requests();
    requests.iter().find(|open| has_number(open, number))
}

/// The piece of this number that is out.
fn piece_of(machine: &Machine, number: u128) -> Option<&Started>
    ensures { option_copied result ≡ find (is_piece number) machine.now.pieces }
{
    let pieces = machine.pieces();
    pieces.iter().find(|piece| is_piece(piece, number))
}

/// Bytes that come to sectors, or from them.
#[derive(Debug, Clone, Copy)]
struct Moved {
    way: Way,
    /// Sectors of the disk.
    extent: Extent,
    /// Bytes of a sector.
    size: u32,
}

/// What happens to sector `k` of these.
fn deed_at(alloc: Global, moved: Moved, k: u64, bytes: &[u8]) -> Result<Deed, AllocError>
    ensures { IfOk result (λ deed. deed ≡ deed_at moved.way moved.size moved.extent bytes.now k) }
{
    let Some(sector) = moved.extent.first.checked_add(k) else {
        return Err(AllocError);
    };
    let bytes = Vec::from_slice(alloc, sector_in(moved.size, k, bytes))?;
    Ok(Deed::At {
        sector,
        way: moved.way,
        bytes: Bytes::new(bytes),
    })
}

/// Adds what happens to each of these sectors.
#[tactic(auto, using(crate::proofs::Adding::sectors_more))]
fn add_sectors(
    alloc: Global,
    deeds: &mut Vec<Deed>,
    moved: Moved,
    bytes: &[u8],
) -> Result<(), AllocError>
    ensures { OnOk result (deeds.new.items ≡ deeds.old.items ++ at_sectors moved.way moved.size moved.extent bytes.now) }
{
    for k in 0..moved.extent.count {
        deeds.push(deed_at(alloc, moved, k, bytes)?)?;
    }
    Ok(())
}

/// How a write puts its bytes.
fn way_of(through: bool, next: u128) -> Way
    ensures { result ≡ way_of through next }
{
    if through {
        Way::Secured
    } else {
        Way::Put { next }
    }
}

/// Adds what a write does that brings its bytes in this way.
fn add_write(alloc: Global, deeds: &mut Vec<Deed>, way: Way, work: &Work) -> Result<(), AllocError>
    ensures { OnOk result (deeds.new.items ≡ deeds.old.items ++ at_sectors way work.now.size work.now.extent work.now.bytes) }
{
    let moved = Moved {
        way,
        extent: work.extent,
        size: work.size,
    };
    add_sectors(alloc, deeds, moved, work.bytes.as_slice())
}

/// An act: its piece, and the next piece to start.
#[derive(Debug, Clone, Copy)]
struct Act {
    piece: u128,
    next: u128,
}

/// Adds what an act does that read these bytes.
fn add_act(
    alloc: Global,
    deeds: &mut Vec<Deed>,
    act: Act,
    bytes: &[u8],
    work: &Work,
) -> Result<(), AllocError>
    ensures { OnOk result (deeds.new.items ≡ deeds.old.items ++ act_deeds act.piece act.next bytes.now work.now) }
{
    match work.kind {
        Kind::Read => {
            let moved = Moved {
                way: Way::Given,
                extent: work.extent,
                size: work.size,
            };
            add_sectors(alloc, deeds, moved, bytes)
        }
        Kind::Write => add_write(alloc, deeds, way_of(work.through, act.next), work),
        Kind::Flush => add(deeds, Deed::Flushed { flush: act.piece }),
    }
}

/// Adds one.
pub(crate) fn add(deeds: &mut Vec<Deed>, deed: Deed) -> Result<(), AllocError>
    ensures { OnOk result (deeds.new.items ≡ deeds.old.items ++ deed ∷ []) }
{
    let Ok(()) = deeds.push(deed) else {
        return Err(AllocError);
    };
    Ok(())
}

/// Adds that a sync failed, where the write was to go past volatile caches.
fn add_doubt(deeds: &mut Vec<Deed>, through: bool) -> Result<(), AllocError>
    ensures { OnOk result (deeds.new.items ≡ deeds.old.items ++ doubt_if through) }
{
    if through {
        return add(deeds, Deed::SyncFailed);
    }
    Ok(())
}

/// Adds what a piece may have done that failed, or was cut off.
fn add_fault(alloc: Global, deeds: &mut Vec<Deed>, work: &Work) -> Result<(), AllocError>
    ensures { OnOk result (deeds.new.items ≡ deeds.old.items ++ fault_deeds work.now) }
{
    match work.kind {
        Kind::Read => Ok(()),
        Kind::Write => {
            add_write(alloc, deeds, Way::Tried, work)?;
            add_doubt(deeds, work.through)
        }
        Kind::Flush => add(deeds, Deed::SyncFailed),
    }
}

/// The work of a piece that is out.
fn work_of_piece(
    alloc: Global,
    rules: &MachineRules,
    machine: &Machine,
    piece: &Started,
) -> Result<Option<Work>, AllocError>
    ensures { IfOk result (λ work. work ≡ work_of_piece (rules_of rules.now) machine.now piece.now) }
{
    let Some(owner) = owner_of(machine, piece.owner()) else {
        return Ok(None);
    };
    let work = work_of(alloc, rules, owner.request(), piece.places())?;
    Ok(Some(work))
}

/// The work of the piece of this number.
fn work_at(
    alloc: Global,
    rules: &MachineRules,
    machine: &Machine,
    number: u128,
) -> Result<Option<Work>, AllocError>
    ensures { IfOk result (λ work. work ≡ work_at (rules_of rules.now) machine.now number) }
{
    let Some(piece) = piece_of(machine, number) else {
        return Ok(None);
    };
    work_of_piece(alloc, rules, machine, piece)
}

/// The work of a piece that has neither acted nor failed.
fn fresh_work(
    alloc: Global,
    rules: &MachineRules,
    machine: &Machine,
    piece: &Started,
) -> Result<Option<Work>, AllocError>
    ensures { IfOk result (λ work. work ≡ fresh_work (rules_of rules.now) machine.now piece.now) }
{
    if !piece.is_fresh() {
        return Ok(None);
    }
    work_of_piece(alloc, rules, machine, piece)
}

/// The same of the piece of this number.
fn fresh_work_at(
    alloc: Global,
    rules: &MachineRules,
    machine: &Machine,
    number: u128,
) -> Result<Option<Work>, AllocError>
    ensures { IfOk result (λ work. work ≡ fresh_work_at (rules_of rules.now) machine.now number) }
{
    let Some(piece) = piece_of(machine, number) else {
        return Ok(None);
    };
    fresh_work(alloc, rules, machine, piece)
}

/// Adds what such work may have done, if there is any.
fn add_fault_of(alloc: Global, deeds: &mut Vec<Deed>, work: &Option<Work>) -> Result<(), AllocError>
    ensures { OnOk result (deeds.new.items ≡ deeds.old.items ++ of_work fault_deeds work.now) }
{
    match work {
        Some(work) => add_fault(alloc, deeds, work),
        None => Ok(()),
    }
}

/// Adds what an act does of this work, if there is any.
fn add_act_of(
    alloc: Global,
    deeds: &mut Vec<Deed>,
    act: Act,
    bytes: &[u8],
    work: &Option<Work>,
) -> Result<(), AllocError>
    ensures { OnOk result (deeds.new.items ≡ deeds.old.items ++ of_work (act_deeds act.piece act.next bytes.now) work.now) }
{
    match work {
        Some(work) => add_act(alloc, deeds, act, bytes, work),
        None => Ok(()),
    }
}

/// What a label says of the disk, told where the machine stands so and the next piece has this number.
pub(crate) fn label_deeds(
    alloc: Global,
    rules: &MachineRules,
    machine: &Machine,
    next: u128,
    label: &Label,
) -> Result<Vec<Deed>, AllocError>
    ensures { IfOk result (λ deeds. deeds.items ≡ label_deeds (rules_of rules.now) machine.now next label.now) }
{
    let mut deeds = Vec::new(alloc);
    match label {
        Label::Device(DeviceLabel::Act { piece, bytes }) => {
            let work = work_at(alloc, rules, machine, *piece)?;
            let act = Act {
                piece: *piece,
                next,
            };
            add_act_of(alloc, &mut deeds, act, bytes.as_slice(), &work)?;
            Ok(deeds)
        }
        Label::Device(DeviceLabel::Fault { piece }) => {
            let work = work_at(alloc, rules, machine, *piece)?;
            add_fault_of(alloc, &mut deeds, &work)?;
            Ok(deeds)
        }
        Label::Device(
            DeviceLabel::Return {
                piece,
                class: Class::Bad(_),
            },
        ) => {
            let work = fresh_work_at(alloc, rules, machine, *piece)?;
            add_fault_of(alloc, &mut deeds, &work)?;
            Ok(deeds)
        }
        _ => Ok(deeds),
    }
}

/// What the pieces may have done that are at work.
#[tactic(auto, using(crate::proofs::Adding::cut_more))]
pub(crate) fn cut_off(
    alloc: Global,
    rules: &MachineRules,
    machine: &Machine,
) -> Result<Vec<Deed>, AllocError>
    ensures { IfOk result (λ deeds. deeds.items ≡ cut_off (rules_of rules.now) machine.now) }
{
    let mut deeds = Vec::new(alloc);
    for piece in machine.pieces() {
        let work = fresh_work(alloc, rules, machine, piece)?;
        add_fault_of(alloc, &mut deeds, &work)?;
    }
    Ok(deeds)
}
