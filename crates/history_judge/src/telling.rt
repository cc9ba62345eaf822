//! What is told of a sector that has no schedule: nothing is promised of it.

use crate::cell::{Basis, Cell};
use crate::past::{given_again, number_in};
use crate::waits::{Given, known_of};
use register::{Contents, Sight};
use register_judge::SoFar;
use std::alloc::{AllocError, Global};

/// How many sources are told, at most.
const MOST_TOLD: usize = 4;

/// Where bytes are from that were read.
#[derive(Debug, Clone, Copy, PartialEq, Eq)]
pub enum Source {
    /// The start.
    Start,
    /// No write.
    Nobody,
    /// None of the last writes, or one whose bytes were not recorded.
    Unknown,
    /// The write of this number, whose call has this line.
    Call { number: u64, line: u64 },
}

/// What a read gave of a sector, and where that is from.
#[derive(Debug, Drop)]
pub struct Found {
    pub bytes: Vec<u8>,
    pub source: Source,
    /// What it might have given instead: the latest such writes, four at most, of the last ones, and the start.
    pub allowed: Vec<Source>,
}

/// An answer at which a sector has no schedule.
#[derive(Debug, Drop)]
pub struct Refusal {
    pub number: u64,
    /// What it gave, if it is of a read whose bytes were recorded.
    pub found: Option<Found>,
}

/// A sector, and what was seen of it up to an end that nothing explains.
#[derive(Clone, Copy)]
struct Refused<'a> {
    basis: &'a Basis,
    cell: &'a Cell,
    number: u64,
    given: &'a [Given],
}

/// Whether bytes are among these.
fn is_tried(tried: &[Contents], value: &Contents) -> bool {
    tried.iter().any(|other| other.is(value))
}

/// Whether it is a write whose bytes were not recorded.
fn is_blank_write(sight: &Sight) -> bool {
    match sight {
        Sight::Write { value, .. } => value.is_none(),
        _ => false,
    }
}

/// What is seen, but that the read of this number gives these bytes.
fn with_value(given: &Given, number: u64, value: &Contents) -> Result<Given, AllocError> {
    match &given.sight {
        Sight::Read { number: read, .. } if *read == number => Ok(Given {
            line: given.line,
            sight: Sight::Read {
                number,
                value: value.share()?,
            },
        }),
        _ => given_again(given),
    }
}

impl Refused<'_> {
    /// What the read gave, if it was recorded.
    fn value(&self) -> Option<&Contents> {
        for one in self.given {
            if let Sight::Read { number, value } = &one.sight {
                if *number == self.number && !value.is_none() {
                    return Some(value);
                }
            }
        }
        None
    }

    /// The last write of these bytes.
    fn writer(&self, value: &Contents) -> Option<Source> {
        for one in self.given.iter().rev() {
            if let Sight::Write {
                number,
                value: written,
            } = &one.sight
            {
                if written.is(value) {
                    return Some(Source::Call {
                        number: *number,
                        line: one.line,
                    });
                }
            }
        }
        None
    }

    /// Whether there is a write whose bytes were not recorded.
    fn has_blank_write(&self) -> bool {
        self.given.iter().any(|one| is_blank_write(&one.sight))
    }

    /// Where bytes are from that the read gave.
    fn source(&self, value: &Contents) -> Source {
        if let Some(source) = self.writer(value) {
            return source;
        }
        if !self.cell.past.is_whole() || self.has_blank_write() {
            return Source::Unknown;
        }
        let start = &self.basis.start;
        if !start.any && start.bytes.is(value) {
            Source::Start
        } else {
            Source::Nobody
        }
    }

    /// Whether some order explains the read if it gives these bytes.
    fn passes_with(&self, alloc: Global, value: &Contents) -> Result<bool, AllocError> {
        let mut given = Vec::new(alloc);
        for one in self.given {
            given.push(with_value(one, self.number, value)?)?;
        }
        let Basis { service, start } = self.basis;
        let size = service.sector_size;
        let tried = self.cell.past.judge(alloc, start, size, given.as_slice())?;
        Ok(matches!(tried.so_far, SoFar::Passed))
    }

    /// The writes that it might have given, the latest first. Adds those that were tried.
    fn writes(&self, alloc: Global, tried: &mut Vec<Contents>) -> Result<Vec<Source>, AllocError> {
        let mut sources = Vec::new(alloc);
        for one in self.given.iter().rev() {
            let Sight::Write { number, value } = &one.sight else {
                continue;
            };
            if sources.len() >= MOST_TOLD {
                return Ok(sources);
            }
            if value.is_none() || is_tried(tried.as_slice(), value) {
                continue;
            }
            tried.push(value.share()?)?;
            if self.passes_with(alloc, value)? {
                let number = *number;
                let line = one.line;
                sources.push(Source::Call { number, line })?;
            }
        }
        Ok(sources)
    }

    /// The same, and the start.
    fn allowed(&self, alloc: Global) -> Result<Vec<Source>, AllocError> {
        let mut tried = Vec::new(alloc);
        let mut sources = self.writes(alloc, &mut tried)?;
        let start = &self.basis.start;
        if start.any || !self.cell.past.is_whole() {
            return Ok(sources);
        }
        let first = &start.bytes;
        if !is_tried(tried.as_slice(), first) && self.passes_with(alloc, first)? {
            sources.push(Source::Start)?;
        }
        Ok(sources)
    }

    /// What the read gave, if it is one and its bytes were recorded.
    fn found(&self, alloc: Global) -> Result<Option<Found>, AllocError> {
        let Some(value) = self.value() else {
            return Ok(None);
        };
        Ok(Some(Found {
            bytes: Vec::from_slice(alloc, value.as_slice())?,
            source: self.source(value),
            allowed: self.allowed(alloc)?,
        }))
    }
}

/// All that is kept of a sector, and known of it.
fn all_given(alloc: Global, cell: &Cell) -> Result<Vec<Given>, AllocError> {
    let known = known_of(alloc, cell.waits.as_slice())?;
    cell.past.given(alloc, known)
}

/// How many sights there are up to a line.
fn count_to(given: &[Given], line: u64) -> usize {
    let mut count = 0usize;
    for one in given {
        if one.line <= line {
            count = count.saturating_add(1);
        }
    }
    count
}

/// What is told of a sector, if it is refused.
pub(crate) fn refusal_of(
    alloc: Global,
    basis: &Basis,
    cell: &Cell,
) -> Result<Option<Refusal>, AllocError> {
    let given = all_given(alloc, cell)?;
    let given = given.as_slice();
    let size = basis.service.sector_size;
    let tried = cell.past.judge(alloc, &basis.start, size, given)?;
    let given = &given[..count_to(given, tried.line).min(given.len())];
    let (SoFar::Refused, Some(last)) = (tried.so_far, given.last()) else {
        return Ok(None);
    };
    let number = number_in(&last.sight);
    let refused = Refused {
        basis,
        cell,
        number,
        given,
    };
    let found = refused.found(alloc)?;
    Ok(Some(Refusal { number, found }))
}

/// Whether a sector passes only by effects of writes that were answered DEVICE_BUSY, or may do so.
pub(crate) fn needs_busy(alloc: Global, basis: &Basis, cell: &Cell) -> Result<bool, AllocError> {
    if !cell.past.was_busy() || cell.past.is_lost() {
        return Ok(cell.past.is_lost());
    }
    let mut others = Vec::new(alloc);
    for one in all_given(alloc, cell)? {
        if !cell.past.is_busy(number_in(&one.sight)) {
            others.push(one)?;
        }
    }
    let size = basis.service.sector_size;
    let tried = cell
        .past
        .judge(alloc, &basis.start, size, others.as_slice())?;
    Ok(!matches!(tried.so_far, SoFar::Passed))
}
