//! The rules that starts break.

ghost use Rattle.std.specs.Prelude.{◌≡◌, ◌==◌, ◌&&◌, List, IfSome, IsTrue, is_some};
ghost use Rattle.std.specs.Option.{option_copied};
ghost use Rattle.std.specs.List.{find, list_any};
ghost use Rattle.machine.specs.Rules.{Rules};
ghost use Rattle.machine.specs.State.{OpenRequest};
ghost use Rattle.judge.specs.Deciding.{has_tag};
ghost use Rattle.judge.specs.StartRuling.{lowest_free, used_rule, lower_rule, tag_rule, is_inside, is_before, flag_hindrance, hindrance_of, same_kind, has_kind, kind_of, is_in_form, span_of, is_in_range, has_blocks, kind_misfit, misfit_of, may_go, is_asked, held_rule, owner_rule, command_rule, block_rule, starting_rule};
ghost use Rattle.judge.specs.Views.{rules_of};

use crate::commands::{is_short, places_at};
use crate::finding::{is_open, is_used};
use crate::machine_state::Machine;
use crate::open::Open;
use crate::pieces::Started;
use crate::reading::Told;
use crate::rules::MachineRules;
use crate::start_rules::{Hindrance, Misfit, StartRule};
use cdb::Cdb;
use machine::Kind;
use sector::Extent;

/// The lowest tag below this one on which no piece is.
fn lowest_free(pieces: &[Started], tag: u8) -> Option<u8>
    ensures { result ≡ lowest_free pieces.now 0 tag }
{
    for lower in 0..tag {
        if !is_used(pieces, lower) {
            return Some(lower);
        }
    }
    None
}

/// The piece on a tag.
fn on_tag(pieces: &[Started], tag: u8) -> Option<&Started>
    ensures { option_copied result ≡ find (has_tag tag) pieces.now }
{
    pieces.iter().find(|piece| piece.has_tag(tag))
}

/// Returns what is wrong with a tag on which this piece is, if one is.
fn broken_use(tag: u8, piece: Option<&Started>) -> Option<StartRule>
    ensures { result ≡ used_rule tag (option_copied piece.entry) }
{
    Some(StartRule::TagInUse {
        tag,
        piece: piece?.number(),
    })
}

/// Returns what is wrong with a tag, where this one is free and lower.
fn broken_order(told: u8, lower: Option<u8>) -> Option<StartRule>
    ensures { result ≡ lower_rule told lower }
{
    Some(StartRule::Tag {
        lowest: lower?,
        told,
    })
}

/// Returns what is wrong with a tag.
fn broken_tag(depth: u32, pieces: &[Started], tag: u8) -> Option<StartRule>
    ensures { result ≡ tag_rule depth pieces.now tag }
{
    if tag as u32 >= depth {
        return Some(StartRule::Depth { tag, depth });
    }
    broken_use(tag, on_tag(pieces, tag)).or(broken_order(tag, lowest_free(pieces, tag)))
}

/// Whether two kinds are the same.
pub(crate) fn same_kind(a: Kind, b: Kind) -> bool
    ensures { result ≡ same_kind a b }
{
    match (a, b) {
        (Kind::Read, Kind::Read) | (Kind::Write, Kind::Write) | (Kind::Flush, Kind::Flush) => true,
        _ => false,
    }
}

/// The kind of request that has such a command.
fn kind_of(command: Cdb) -> Option<Kind>
    ensures { result ≡ kind_of command }
{
    match command {
        Cdb::Read10 { .. } | Cdb::Read16 { .. } => Some(Kind::Read),
        Cdb::Write10 { .. } | Cdb::Write16 { .. } => Some(Kind::Write),
        Cdb::Sync10 { .. } | Cdb::Sync16 { .. } => Some(Kind::Flush),
        Cdb::ReadCapacity10 | Cdb::ReadCapacity16 { .. } => None,
    }
}

/// Whether the command has the form of ten bytes where they have room, else that of sixteen.
fn is_in_form(rules: &MachineRules, command: Cdb) -> bool
    ensures { result ≡ is_in_form (rules_of rules.now) command }
{
    match command {
        Cdb::Read10 { lba, count, .. } => is_short(lba as u64, count as u64),
        Cdb::Write10 { lba, count, .. } => is_short(lba as u64, count as u64),
        Cdb::Read16 { lba, count, .. } => !is_short(lba, count as u64),
        Cdb::Write16 { lba, count, .. } => !is_short(lba, count as u64),
        Cdb::Sync10 { .. } => rules.disk_sectors <= 1 << 32,
        Cdb::Sync16 { .. } => rules.disk_sectors > 1 << 32,
        Cdb::ReadCapacity10 | Cdb::ReadCapacity16 { .. } => true,
    }
}

/// The blocks that a command is of.
fn span_of(command: Cdb) -> Extent
    ensures { result ≡ span_of command }
{
    match command {
        Cdb::Read10 { lba, count, .. } | Cdb::Write10 { lba, count, .. } => Extent {
            first: lba as u64,
            count: count as u64,
        },
        Cdb::Sync10 { lba, blocks } => Extent {
            first: lba as u64,
            count: blocks as u64,
        },
        Cdb::Read16 { lba, count, .. } | Cdb::Write16 { lba, count, .. } => Extent {
            first: lba,
            count: count as u64,
        },
        Cdb::Sync16 { lba, blocks } => Extent {
            first: lba,
            count: blocks as u64,
        },
        Cdb::ReadCapacity10 | Cdb::ReadCapacity16 { .. } => Extent { first: 0, count: 0 },
    }
}

/// Whether these are the blocks of a flush, where the kind is one: all.
fn is_in_range(kind: Kind, span: Extent) -> bool
    ensures { result ≡ is_in_range kind span }
{
    match kind {
        Kind::Flush => span.first == 0 && span.count == 0,
        Kind::Read | Kind::Write => true,
    }
}

/// Whether the request is of the kind, and may be the one that is told.
fn has_kind(owner: Option<u64>, kind: Kind, entry: &Open) -> bool
    ensures { result ≡ has_kind owner kind entry.now }
{
    entry.is_told(owner) && same_kind(kind, entry.request().kind)
}

/// Whether the request is of the kind and has these blocks, and may be the one that is told.
fn has_blocks(
    rules: &MachineRules,
    owner: Option<u64>,
    kind: Kind,
    span: Extent,
    entry: &Open,
) -> bool
    ensures { result ≡ has_blocks (rules_of rules.now) owner kind span entry.now }
{
    let q = entry.request();
    let places = entry.inside(places_at(rules, q, span.first, span.count));
    has_kind(owner, kind, entry) && places.is_some()
}

/// The first request of the kind that has these blocks.
fn first_with<'m>(
    rules: &MachineRules,
    owner: Option<u64>,
    kind: Kind,
    span: Extent,
    requests: &'m [Open],
) -> Option<&'m Open>
    ensures { option_copied result ≡ find (has_blocks (rules_of rules.now) owner kind span) requests.now }
{
    requests
        .iter()
        .find(|entry| has_blocks(rules, owner, kind, span, entry))
}

/// Whether a request of this kind is open, which may be the one that is told.
fn is_any(owner: Option<u64>, kind: Kind, requests: &[Open]) -> bool
    ensures { result ≡ list_any (has_kind owner kind) requests.now }
{
    requests.iter().any(|entry| has_kind(owner, kind, entry))
}

/// Returns what is wrong with the request that is told, if one is.
fn broken_owner(requests: &[Open], owner: Option<u64>) -> Option<StartRule>
    ensures { result ≡ owner_rule requests.now owner }
{
    let number = owner?;
    if is_open(requests, number) {
        None
    } else {
        Some(StartRule::NotOpen { number })
    }
}

/// Why none of the requests asks for these blocks.
fn kind_misfit(
    rules: &MachineRules,
    owner: Option<u64>,
    requests: &[Open],
    span: Extent,
    kind: Option<Kind>,
) -> Misfit
    ensures { result ≡ kind_misfit (rules_of rules.now) owner requests.now span kind }
{
    let Some(kind) = kind else {
        return Misfit::Command;
    };
    if !is_in_range(kind, span) {
        return Misfit::Range;
    }
    if !is_any(owner, kind, requests) {
        return Misfit::Kind(kind);
    }
    match first_with(rules, owner, kind, span, requests) {
        Some(entry) => Misfit::Fua {
            number: entry.number(),
            due: entry.request().through,
        },
        None => Misfit::Sectors {
            lba: span.first,
            count: span.count,
        },
    }
}

/// Why none of the requests asks for a command.
fn misfit_of(rules: &MachineRules, owner: Option<u64>, requests: &[Open], command: Cdb) -> Misfit
    ensures { result ≡ misfit_of (rules_of rules.now) owner requests.now command }
{
    if !is_in_form(rules, command) {
        return Misfit::Form;
    }
    kind_misfit(rules, owner, requests, span_of(command), kind_of(command))
}

/// The first of the requests that asks for a command.
fn first_asked<'m>(
    rules: &MachineRules,
    owner: Option<u64>,
    command: Cdb,
    requests: &'m [Open],
) -> Option<&'m Open>
    ensures { option_copied result ≡ find (is_asked (rules_of rules.now) owner command) requests.now }
{
    requests
        .iter()
        .find(|entry| entry.asked(rules, owner, command).is_some())
}

/// The first of the requests that is to be started before the request of this number.
fn first_before(requests: &[Open], number: u64) -> Option<&Open>
    ensures { option_copied result ≡ find (is_before number) requests.now }
{
    requests.iter().find(|other| !other.lets_start(number))
}

impl Machine {
    /// Returns what the flags of the request and of the machine hold back.
    fn flag_hindrance(&self, entry: &Open) -> Option<Hindrance>
        ensures { result ≡ flag_hindrance self.now entry.now }
    {
        if entry.is_cancelled() {
            Some(Hindrance::Cancelled)
        } else if self.removing {
            Some(Hindrance::Removing)
        } else if self.paused && entry.is_late() {
            Some(Hindrance::Late)
        } else {
            None
        }
    }

    /// Returns what holds these places of the request back.
    pub(crate) fn hindrance_of(
        &self,
        rules: &MachineRules,
        entry: &Open,
        places: Extent,
    ) -> Option<Hindrance>
        requires { IsTrue (is_inside entry.now places) }
        ensures { result ≡ hindrance_of (rules_of rules.now) self.now entry.now places }
    {
        let flagged = self.flag_hindrance(entry);
        if flagged.is_some() {
            return flagged;
        }
        if let Some(other) = first_before(self.requests.as_slice(), entry.number()) {
            return Some(Hindrance::Earlier {
                number: other.number(),
            });
        }
        entry.places_hindrance(rules, places)
    }

    /// Returns what holds a request back that asks for these places, if anything does.
    fn held(&self, rules: &MachineRules, entry: &Open, places: Option<Extent>) -> Option<StartRule>
        requires { IfSome places (λ inside. IsTrue (is_inside entry.now inside)) }
        ensures { result ≡ held_rule (rules_of rules.now) self.now entry.now places }
    {
        let hindrance = self.hindrance_of(rules, entry, places?)?;
        Some(StartRule::Held {
            number: entry.number(),
            hindrance,
        })
    }

    /// Whether some request may make a start with this command.
    fn may_any_go(&self, rules: &MachineRules, owner: Option<u64>, command: Cdb) -> bool
        ensures { result ≡ list_any (may_go (rules_of rules.now) self.now owner command) self.now.requests }
    {
        self.requests.iter().any(|entry| self.startable(rules, owner, command, entry).is_some())
    }

    /// Returns what is wrong with a start with this command.
    fn broken_command(
        &self,
        rules: &MachineRules,
        owner: Option<u64>,
        command: Cdb,
    ) -> Option<StartRule>
        ensures { result ≡ command_rule (rules_of rules.now) self.now owner command }
    {
        if self.may_any_go(rules, owner, command) {
            return None;
        }
        let requests = self.requests.as_slice();
        match first_asked(rules, owner, command, requests) {
            Some(entry) => self.held(rules, entry, entry.asked(rules, owner, command)),
            None => {
                let misfit = misfit_of(rules, owner, requests, command);
                broken_owner(requests, owner).or(Some(StartRule::NotAsked(misfit)))
            }
        }
    }

    /// Returns what is wrong with a start with a block that was read so.
    fn broken_block(&self, rules: &MachineRules, told: Told) -> Option<StartRule>
        ensures { result ≡ block_rule (rules_of rules.now) self.now told.owner told.read }
    {
        match told.read {
            Ok(command) => self.broken_command(rules, told.owner, command),
            Err(rule) => Some(rule),
        }
    }

    /// Returns what is wrong with a start, of which the line tells this.
    pub(crate) fn broken_start(
        &self,
        rules: &MachineRules,
        number: u128,
        tag: u8,
        told: Told,
    ) -> Option<StartRule>
        ensures { result ≡ starting_rule (rules_of rules.now) self.now number tag told.owner told.read }
    {
        let due = self.next_piece;
        if number != due {
            return Some(StartRule::Number { due, told: number });
        }
        let tagged = broken_tag(rules.depth, self.pieces.as_slice(), tag);
        if tagged.is_some() {
            return tagged;
        }
        self.broken_block(rules, told)
    }
}
