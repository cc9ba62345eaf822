//! The bytes of each sector, numbered.

ghost use Rattle.std.specs.Prelude.{◌≡◌, All, IfOk, map, get_or, []};
ghost use Rattle.std.specs.Bool.{OnTrue};
ghost use Rattle.std.specs.List.{position};
ghost use Rattle.std.specs.Str.{bytes_eq};
ghost use Rattle.session_judge.specs.Numbers.{IsNumbered, event_of, happening_of, is_numbered, number_in};

use crate::deeds::{Deed, Way};
use disk_judge::Happening;
use sector::Bytes;
use sector_judge::Event;
use std::alloc::{AllocError, Global};
use std::marker::Model;

/// The different bytes of some sector.
#[derive(Debug, Drop)]
pub(crate) struct Values {
    values: Vec<Bytes>,
}

impl Model for Values {
    ghost use Rattle.std.specs.Prelude.{List, ℕ};

    ghost Value = { List (List ℕ) };

    ghost view = { λ v. v.values.items };
}

/// Whether two sectors have the same bytes.
fn is_same(bytes: &[u8], other: &[u8]) -> bool
    ensures { result ≡ bytes_eq bytes.now other.now }
{
    bytes == other
}

/// The place of a sector's bytes in a table.
fn place_in(table: &[Bytes], bytes: &[u8]) -> Option<usize>
    ensures { result ≡ position (bytes_eq bytes.now) table.now }
{
    table
        .iter()
        .position(|other| is_same(bytes, other.as_slice()))
}

/// The number of a sector's bytes: their place in a table, or that behind the last.
#[tactic(auto, using(crate::proofs::Adding::found, crate::proofs::Adding::unfound))]
fn number_in(table: &[Bytes], bytes: &[u8]) -> u64
    ensures { result ≡ number_in table.now bytes.now }
{
    match place_in(table, bytes) {
        Some(place) => place as u64,
        None => table.len() as u64,
    }
}

impl Values {
    /// The bytes, by their numbers.
    pub fn all(&self) -> &[Bytes] {
        self.values.as_slice()
    }

    /// The number of a sector's bytes.
    fn number(&self, bytes: &[u8]) -> u64
        ensures { result ≡ number_in self.now bytes.now }
    {
        number_in(self.values.as_slice(), bytes)
    }

    fn add(&mut self, alloc: Global, bytes: &[u8]) -> Result<(), AllocError> {
        if self.number(bytes) == self.values.len() as u64 {
            self.values
                .push(Bytes::new(Vec::from_slice(alloc, bytes)?))?;
        }
        Ok(())
    }
}

/// The number of a sector's bytes, where each sector has its own.
fn number_at(tables: &[Values], sector: u64, bytes: &[u8]) -> u64
    ensures { result ≡ number_in (get_or tables.now sector []) bytes.now }
{
    match tables.get(sector as usize) {
        Some(values) => values.number(bytes),
        None => 0,
    }
}

/// What happens to a sector that comes so by bytes of this number.
fn event_of(way: Way, value: u64) -> Event
    ensures { result ≡ event_of way value }
{
    match way {
        Way::Put { next } => Event::Put { value, next },
        Way::Secured => Event::Secured { value },
        Way::Tried => Event::Tried { value },
        Way::Given => Event::Given { value },
    }
}

/// A deed, with a number for its bytes.
fn happening_of(tables: &[Values], deed: &Deed) -> Happening
    ensures { result ≡ happening_of tables.now deed.now }
{
    match deed {
        Deed::At { sector, way, bytes } => {
            let value = number_at(tables, *sector, bytes.as_slice());
            Happening::At {
                sector: *sector as usize,
                event: event_of(*way, value),
            }
        }
        Deed::Flushed { flush } => Happening::Flushed { flush: *flush },
        Deed::SyncFailed => Happening::SyncFailed,
        Deed::PowerLost => Happening::PowerLost,
        Deed::ProcessEnded => Happening::ProcessEnded,
    }
}

/// All of them, with numbers.
pub(crate) fn happenings_of(
    alloc: Global,
    tables: &[Values],
    deeds: &[Deed],
) -> Result<Vec<Happening>, AllocError>
    ensures { IfOk result (λ happenings. happenings.items ≡ map (happening_of tables.now) deeds.now) }
{
    let mut happenings = Vec::new(alloc);
    for deed in deeds {
        happenings.push(happening_of(tables, deed))?;
    }
    Ok(happenings)
}

/// Whether a deed's bytes are in their table.
fn is_numbered(tables: &[Values], deed: &Deed) -> bool
    ensures { result ≡ is_numbered tables.now deed.now }
{
    match deed {
        Deed::At { sector, bytes, .. } => match tables.get(*sector as usize) {
            Some(values) => values.number(bytes.as_slice()) < values.values.len() as u64,
            None => false,
        },
        _ => true,
    }
}

/// Whether all are.
pub(crate) fn are_numbered(tables: &[Values], deeds: &[Deed]) -> bool
    ensures { OnTrue result (All (IsNumbered tables.now) deeds.now) }
{
    deeds.iter().all(|deed| is_numbered(tables, deed))
}

/// How many sectors there are up to the last that the deeds speak of.
fn count_of(deeds: &[Deed]) -> usize {
    let mut count: usize = 0;
    for deed in deeds {
        if let Deed::At { sector, .. } = deed {
            count = count.max((*sector as usize).saturating_add(1));
        }
    }
    count
}

/// The different bytes of each sector of a disk, as far as deeds speak of them.
pub(crate) fn tables_of(alloc: Global, deeds: &[Deed]) -> Result<Vec<Values>, AllocError> {
    let mut tables = Vec::new(alloc);
    for _ in 0..count_of(deeds) {
        tables.push(Values {
            values: Vec::new(alloc),
        })?;
    }
    for deed in deeds {
        if let Deed::At { sector, bytes, .. } = deed {
            if let Some(values) = tables.get_mut(*sector as usize) {
                values.add(alloc, bytes.as_slice())?;
            }
        }
    }
    Ok(tables)
}
