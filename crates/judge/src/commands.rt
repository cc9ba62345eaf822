//! The places that a command asks for.

ghost use Rattle.std.specs.Prelude.{◌≡◌, ◌+◌, ◌-◌, ◌&&◌, ◌^◌, nat_le, ◌==◌, true, false, Some, None};
ghost use Rattle.machine.specs.Sending.{fits_ten};
ghost use Rattle.judge.specs.Deciding.{same_truth, places_at, places_if, flush_place, places_for};
ghost use Rattle.judge.specs.Views.{rules_of};

use crate::rules::MachineRules;
use cdb::Cdb;
use machine::{ClientRequest, Kind};
use sector::Extent;

/// The places of the request whose sectors begin at this address.
pub(crate) fn places_at(
    rules: &MachineRules,
    q: &ClientRequest,
    lba: u64,
    count: u64,
) -> Option<Extent>
    ensures { result ≡ places_at (rules_of rules.now) q.now lba count }
{
    let base = rules.home(q);
    if base > lba as u128 {
        return None;
    }
    Some(Extent {
        first: lba - base as u64,
        count,
    })
}

/// Whether the address and the number have room in a block of ten bytes.
pub(crate) fn is_short(lba: u64, count: u64) -> bool
    ensures { result ≡ fits_ten lba count }
{
    lba < 1 << 32 && count < 1 << 16
}

/// What the block of a READ or a WRITE says.
#[derive(Clone, Copy)]
struct Transfer {
    lba: u64,
    /// The number of sectors.
    count: u64,
    fua: bool,
    /// Whether the block has ten bytes, and not sixteen.
    short: bool,
}

impl Transfer {
    /// READ(10) or WRITE(10).
    fn of_ten(lba: u32, count: u16, fua: bool) -> Transfer
        ensures { result ≡ record { lba = lba; count = count; fua = fua; short = true } }
    {
        Transfer {
            lba: lba as u64,
            count: count as u64,
            fua,
            short: true,
        }
    }

    /// READ(16) or WRITE(16).
    fn of_sixteen(lba: u64, count: u32, fua: bool) -> Transfer
        ensures { result ≡ record { lba = lba; count = count; fua = fua; short = false } }
    {
        Transfer {
            lba,
            count: count as u64,
            fua,
            short: false,
        }
    }
}

/// The places that a transfer asks for.
fn transfer_places(rules: &MachineRules, q: &ClientRequest, transfer: Transfer) -> Option<Extent>
    ensures { let asked = same_truth transfer.short (fits_ten transfer.lba transfer.count)
        && same_truth transfer.fua q.now.through in
        result ≡ places_if asked (rules_of rules.now) q.now transfer.lba transfer.count }
{
    let Transfer {
        lba,
        count,
        fua,
        short,
    } = transfer;
    if short != is_short(lba, count) || fua != q.through {
        return None;
    }
    places_at(rules, q, lba, count)
}

/// The one place of a flush of ten or sixteen bytes.
fn flush_places(rules: &MachineRules, short: bool, lba: u64, blocks: u64) -> Option<Extent>
    ensures { result ≡ flush_place (same_truth short (nat_le rules.now.disk_sectors (2 ^ 32)) && ((lba == 0) && (blocks == 0))) }
{
    if short != (rules.disk_sectors <= 1 << 32) || lba != 0 || blocks != 0 {
        return None;
    }
    Some(Extent { first: 0, count: 1 })
}

/// The places of the request that a command asks for.
pub(crate) fn places_for(rules: &MachineRules, q: &ClientRequest, command: Cdb) -> Option<Extent>
    ensures { result ≡ places_for (rules_of rules.now) q.now q.now.kind command }
{
    match (q.kind, command) {
        (Kind::Read, Cdb::Read10 { lba, count, fua }) => {
            transfer_places(rules, q, Transfer::of_ten(lba, count, fua))
        }
        (Kind::Read, Cdb::Read16 { lba, count, fua }) => {
            transfer_places(rules, q, Transfer::of_sixteen(lba, count, fua))
        }
        (Kind::Write, Cdb::Write10 { lba, count, fua }) => {
            transfer_places(rules, q, Transfer::of_ten(lba, count, fua))
        }
        (Kind::Write, Cdb::Write16 { lba, count, fua }) => {
            transfer_places(rules, q, Transfer::of_sixteen(lba, count, fua))
        }
        (Kind::Flush, Cdb::Sync10 { lba, blocks }) => {
            flush_places(rules, true, lba as u64, blocks as u64)
        }
        (Kind::Flush, Cdb::Sync16 { lba, blocks }) => {
            flush_places(rules, false, lba, blocks as u64)
        }
        _ => None,
    }
}
