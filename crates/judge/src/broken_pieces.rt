//! The rules that acts, faults and returns break.

ghost use Rattle.std.specs.Prelude.{◌≡◌, List, ℕ};
ghost use Rattle.std.specs.Option.{option_copied};
ghost use Rattle.std.specs.List.{concat, find, list_all};
ghost use Rattle.machine.specs.Sending.{sectors_at, array_at};
ghost use Rattle.judge.specs.Deciding.{is_piece};
ghost use Rattle.judge.specs.Ruling.{difference};
ghost use Rattle.judge.specs.PieceRuling.{has_size, are_whole, length_moved, disk_rule, sent_rule, moving_rule, fresh_rule, acting_rule, faulting_rule, bad_rule, returning_rule_of, returning_rule};
ghost use Rattle.judge.specs.Views.{rules_of};

use crate::adapter_labels::partition_of;
use crate::arrays::{Part, part_of};
use crate::broken_answers::{difference, next_difference};
use crate::label_rules::Difference;
use crate::lists::part;
use crate::machine_state::Machine;
use crate::piece_rules::{ActRule, ReturnRule};
use crate::pieces::{Started, is_bad};
use crate::rules::{MachineRules, moves_bytes};
use machine::{ClientRequest, Kind};
use srb::{Class, Completion};

/// The first byte in which the bytes told differ from the bytes of the sectors, end to end.
fn sectors_difference(sectors: &Part<'_>, told: &[u8]) -> Option<Difference>
    ensures { result ≡ difference 0 (concat sectors.now) told.now }
{
    let mut rest = told;
    for i in 0..sectors.len() {
        let (found, behind) = next_difference(told, rest, sectors.at(i));
        if found.is_some() {
            return found;
        }
        rest = behind;
    }
    difference((told.len() - rest.len()) as u64, &[], rest)
}

/// Whether each of the sectors has this size.
fn have_size(sectors: &Part<'_>, size: u32) -> bool
    ensures { result ≡ list_all (has_size size) sectors.now }
{
    for i in 0..sectors.len() {
        if sectors.at(i).len() as u64 != size as u64 {
            return false;
        }
    }
    true
}

/// Whether there are this many sectors, each of this size.
fn are_whole(sectors: &Part<'_>, count: u64, size: u32) -> bool
    ensures { result ≡ are_whole count size sectors.now }
{
    sectors.len() == count && have_size(sectors, size)
}

/// Returns how many bytes move with an act.
fn length_moved(kind: Kind, count: u64, size: u32) -> u128
    ensures { result ≡ length_moved kind count size }
{
    if moves_bytes(kind) {
        count as u128 * size as u128
    } else {
        0
    }
}

/// Returns what is wrong with the bytes of a read, where these sectors stand on the disk.
fn broken_read(
    piece: u128,
    count: u64,
    size: u32,
    there: &Part<'_>,
    bytes: &[u8],
) -> Option<ActRule>
    ensures { result ≡ disk_rule piece count size there.now bytes.now }
{
    if !are_whole(there, count, size) {
        return Some(ActRule::NoSectors { piece });
    }
    Some(ActRule::Disk(sectors_difference(there, bytes)?))
}

/// Returns what is wrong with the bytes of a write, where these are sent.
fn broken_write(sent: &[u8], bytes: &[u8]) -> Option<ActRule>
    ensures { result ≡ sent_rule sent.now bytes.now }
{
    Some(ActRule::Write(difference(0, sent, bytes)?))
}

impl Machine {
    /// The piece of this number at the adapter.
    fn piece(&self, number: u128) -> Option<&Started>
        ensures { option_copied result ≡ find (is_piece number) self.now.pieces }
    {
        self.pieces.iter().find(|piece| piece.has_number(number))
    }

    /// Returns what is wrong with the bytes of an act of this piece of the request.
    fn broken_move(
        &self,
        rules: &MachineRules,
        piece: &Started,
        q: &ClientRequest,
        bytes: &[u8],
    ) -> Option<ActRule>
        ensures { let moved = piece.now in
            result ≡ moving_rule (rules_of rules.now) self.now moved.number q.now moved.places q.now.kind bytes.now }
    {
        let places = piece.places();
        let size = rules.sector_size as u128;
        let first = places.first as u128;
        let count = places.count as u128;
        match q.kind {
            Kind::Read if rules.faithful => {
                let start = rules.first_sector(q) as u128 + first;
                let arrays = self.arrays.as_slice();
                let there = part_of(arrays, partition_of(q), start, start + count);
                broken_read(
                    piece.number(),
                    places.count,
                    rules.sector_size,
                    &there,
                    bytes,
                )
            }
            Kind::Write => {
                let sent = part(q.bytes.as_slice(), first * size, (first + count) * size);
                broken_write(sent, bytes)
            }
            Kind::Read | Kind::Flush => None,
        }
    }

    /// Returns what is wrong with an act of a piece that is fresh.
    fn broken_act_of(&self, rules: &MachineRules, piece: &Started, bytes: &[u8]) -> Option<ActRule>
        ensures { result ≡ fresh_rule (rules_of rules.now) self.now piece.now bytes.now }
    {
        let q = self.open(piece.owner())?.request();
        let due = length_moved(q.kind, piece.places().count, rules.sector_size);
        let told = bytes.len() as u64;
        if told as u128 != due {
            return Some(ActRule::Length { due, told });
        }
        self.broken_move(rules, piece, q, bytes)
    }

    /// Returns what is wrong with an act.
    pub(crate) fn broken_act(
        &self,
        rules: &MachineRules,
        number: u128,
        bytes: &[u8],
    ) -> Option<ActRule>
        ensures { result ≡ acting_rule (rules_of rules.now) self.now number bytes.now }
    {
        let Some(piece) = self.piece(number) else {
            return Some(ActRule::NoPiece { piece: number });
        };
        if !piece.is_fresh() {
            return Some(ActRule::Before { piece: number });
        }
        self.broken_act_of(rules, piece, bytes)
    }

    /// Returns what is wrong with a fault.
    pub(crate) fn broken_fault(&self, number: u128) -> Option<ActRule>
        ensures { result ≡ faulting_rule self.now number }
    {
        let Some(piece) = self.piece(number) else {
            return Some(ActRule::NoPiece { piece: number });
        };
        if piece.is_fresh() {
            None
        } else {
            Some(ActRule::Before { piece: number })
        }
    }

    /// Returns what is wrong with a return.
    pub(crate) fn broken_return(&self, number: u128, class: &Class) -> Option<ReturnRule>
        ensures { result ≡ returning_rule self.now number class.now }
    {
        let Some(piece) = self.piece(number) else {
            return Some(ReturnRule::NoPiece { piece: number });
        };
        broken_return_of(number, piece, class)
    }
}

/// Returns what is wrong with a completion that is told to be bad.
fn broken_completion(number: u128, completion: &Completion) -> Option<ReturnRule>
    ensures { result ≡ bad_rule number completion.now }
{
    if is_bad(completion) {
        None
    } else {
        Some(ReturnRule::GoodCode {
            piece: number,
            srb_status: completion.srb_status,
        })
    }
}

/// Returns what is wrong with the return of this piece.
fn broken_return_of(number: u128, piece: &Started, class: &Class) -> Option<ReturnRule>
    ensures { result ≡ returning_rule_of number class.now piece.now.fate }
{
    match class {
        Class::Good if !piece.has_acted() => Some(ReturnRule::GoodWithoutAct { piece: number }),
        Class::Busy if !piece.is_fresh() => Some(ReturnRule::BusyAfterAct { piece: number }),
        Class::Good | Class::Busy => None,
        Class::Bad(completion) => broken_completion(number, completion),
    }
}
