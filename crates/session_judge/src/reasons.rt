//! Why a sector can't have held what was told of it.

use crate::deeds::{Deed, Way};
use crate::judging::{line_of, read};
use crate::numbers::{happenings_of, tables_of};
use crate::walk::Line;
use disk_judge::{Happening, Verdict};
use judge::{MachineRules, NoVerdict};
use sector::Bytes;
use sector_judge::{Event, Known};
use std::alloc::{AllocError, Global};

/// Bytes that a sector may hold.
#[derive(Debug, Drop)]
pub struct Held {
    pub bytes: Bytes,
    /// The line that put them there last, counted from 0; none where they stood there before the first.
    pub line: Option<usize>,
}

/// Why a sector can't have held what a line told.
#[derive(Debug, Drop)]
pub struct Reason {
    /// What it may hold there.
    pub held: Vec<Held>,
    /// The line, counted from 0, behind which it could no longer hold what was told: neither then, nor, if only a loss could
    /// have left it, behind a loss.
    pub certain: Option<usize>,
}

/// What happened to one sector, and by which deeds.
#[derive(Debug, Drop)]
struct Course {
    events: Vec<Event>,
    deeds: Vec<usize>,
}

/// What a happening is to a sector.
fn event_at(happening: Happening, wanted: usize) -> Option<Event> {
    match happening {
        Happening::At { sector, event } if sector == wanted => Some(event),
        Happening::At { .. } => None,
        Happening::Flushed { flush } => Some(Event::Synced { flush }),
        Happening::SyncFailed => Some(Event::Doubted),
        Happening::PowerLost => Some(Event::Lost),
        Happening::ProcessEnded => Some(Event::Ended),
    }
}

/// What the first so many happenings are to a sector.
fn course_of(
    alloc: Global,
    happenings: &[Happening],
    taken: usize,
    sector: usize,
) -> Result<Course, AllocError> {
    let mut course = Course {
        events: Vec::new(alloc),
        deeds: Vec::new(alloc),
    };
    for (index, happening) in happenings.iter().enumerate() {
        if index >= taken {
            return Ok(course);
        }
        if let Some(event) = event_at(*happening, sector) {
            course.events.push(event)?;
            course.deeds.push(index)?;
        }
    }
    Ok(course)
}

impl Course {
    /// How many events there were before the last.
    fn before(&self) -> usize {
        self.events.len().saturating_sub(1)
    }

    /// What is known behind the first so many events.
    fn known(&self, alloc: Global, count: usize) -> Result<Known, AllocError> {
        let mut known = Known::nothing(alloc)?;
        for event in self.events.get(..count).unwrap_or(&[]) {
            known.take(alloc, *event)?;
        }
        Ok(known)
    }

    /// Whether a loss behind the first so many events may leave this value.
    fn may_leave(&self, alloc: Global, count: usize, value: u64) -> Result<bool, AllocError> {
        let mut known = self.known(alloc, count)?;
        known.take(alloc, Event::Lost)?;
        Ok(known.may_give(value))
    }

    /// How many events there were up to the last that tells this value.
    fn newest(&self, value: u64) -> usize {
        let mut newest = 0;
        for (index, event) in self.events.iter().enumerate() {
            if index < self.before() && value_of(*event) == Some(value) {
                newest = index.saturating_add(1);
            }
        }
        newest
    }

    /// The event behind which no loss could leave this value any more. A value that a loss can't leave comes back only
    /// where it is told.
    fn gone_by(&self, alloc: Global, value: u64) -> Result<Option<usize>, AllocError> {
        let mut low = self.newest(value);
        let mut high = self.before();
        for _ in 0..64 {
            let middle = low.saturating_add(high.saturating_sub(low) / 2);
            if middle <= low {
                return Ok(high.checked_sub(1));
            }
            if self.may_leave(alloc, middle, value)? {
                low = middle;
            } else {
                high = middle;
            }
        }
        Ok(None)
    }

    /// The event behind which no read could give this value any more.
    fn hidden_by(&self, alloc: Global, value: u64) -> Result<Option<usize>, AllocError> {
        let mut known = Known::nothing(alloc)?;
        let mut hidden = None;
        for (index, event) in self.events.iter().enumerate() {
            if index < self.before() {
                let could = known.may_give(value);
                known.take(alloc, *event)?;
                if could && !known.may_give(value) {
                    hidden = Some(index);
                }
            }
        }
        Ok(hidden)
    }

    /// The deed that made it certain that the value can't be given which is told last.
    fn certain(&self, alloc: Global) -> Result<Option<usize>, AllocError> {
        let Some(Event::Given { value }) = self.events.last().copied() else {
            return Ok(None);
        };
        let event = if self.may_leave(alloc, self.before(), value)? {
            self.hidden_by(alloc, value)?
        } else {
            self.gone_by(alloc, value)?
        };
        let Some(event) = event else {
            return Ok(None);
        };
        Ok(self.deeds.get(event).copied())
    }
}

/// The value that an event tells.
fn value_of(event: Event) -> Option<u64> {
    match event {
        Event::Put { value, .. }
        | Event::Secured { value }
        | Event::Tried { value }
        | Event::Given { value } => Some(value),
        _ => None,
    }
}

/// Lines that are refused, of which so many deeds can't have happened to a sector.
#[derive(Clone, Copy)]
struct Scene<'a> {
    deeds: &'a [Deed],
    /// How many deeds there were behind each line.
    ends: &'a [usize],
    taken: usize,
    sector: usize,
}

impl Scene<'_> {
    /// The line that told a deed.
    fn line_of(&self, deed: usize) -> usize {
        line_of(self.ends, deed.saturating_add(1))
    }

    /// Whether a deed may put these bytes into the sector.
    fn puts(&self, deed: &Deed, value: &[u8]) -> bool {
        match deed {
            Deed::At {
                way: Way::Given,
                ..
            } => false,
            Deed::At { sector, bytes, .. } => {
                *sector == self.sector as u64 && bytes.as_slice() == value
            }
            _ => false,
        }
    }

    /// The last line that may have put these bytes into the sector.
    fn writer_of(&self, value: &[u8]) -> Option<usize> {
        let mut found = None;
        for (index, deed) in self.deeds.iter().enumerate() {
            if index < self.taken && self.puts(deed, value) {
                found = Some(index);
            }
        }
        Some(self.line_of(found?))
    }

    /// The bytes of these that the sector may hold.
    fn held(
        &self,
        alloc: Global,
        known: &Known,
        values: &[Bytes],
    ) -> Result<Vec<Held>, AllocError> {
        let mut held = Vec::new(alloc);
        for (value, bytes) in values.iter().enumerate() {
            if known.may_give(value as u64) {
                let line = self.writer_of(bytes.as_slice());
                let bytes = Bytes::new(Vec::from_slice(alloc, bytes.as_slice())?);
                let Ok(()) = held.push(Held { bytes, line }) else {
                    return Err(AllocError);
                };
            }
        }
        Ok(held)
    }
}

/// Returns why a sector can't have held what was told of it by lines that are refused for that, if they are.
///
/// # Errors
///
/// Those of [`crate::judge`].
pub fn reason_of(
    alloc: Global,
    rules: &MachineRules,
    lines: &[Line],
) -> Result<Option<Reason>, NoVerdict> {
    let reading = read(alloc, rules, lines)?;
    let deeds = reading.deeds.as_slice();
    let tables = tables_of(alloc, deeds)?;
    let happenings = happenings_of(alloc, tables.as_slice(), deeds)?;
    let verdict = disk_judge::judge(alloc, tables.len(), happenings.as_slice())?;
    let Verdict::Refused { taken, sector } = verdict else {
        return Ok(None);
    };
    let scene = Scene {
        deeds,
        ends: reading.ends.as_slice(),
        taken,
        sector,
    };
    let course = course_of(alloc, happenings.as_slice(), taken, sector)?;
    let known = course.known(alloc, course.before())?;
    let held = match tables.get(sector) {
        Some(values) => scene.held(alloc, &known, values.all())?,
        None => Vec::new(alloc),
    };
    let certain = match course.certain(alloc)? {
        Some(deed) => Some(scene.line_of(deed)),
        None => None,
    };
    Ok(Some(Reason { held, certain }))
}
