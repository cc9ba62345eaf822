//! What the sectors of a disk may hold over several sessions, by what is told of them.
//!
//! Sectors hold what they hold whatever the others do: a loss of power may leave the newest value of one and an older
//! one of its neighbour. So each is judged by itself.
//!
//! # Promises
//!
//! `judge` passes only what can have happened to each sector of a disk (`CanHappenTo`), and refuses only what can't
//! have happened to the sector that it names (`IsRefusal`). [`Disk::take`] takes what happens step by step.
#![tactic(auto)]

mod sectors;

ghost use Rattle.std.specs.Prelude.{◌≡◌, replicate, IfOk, MatchOption};
ghost use Rattle.sector_judge.specs.Known.{nothing_known};
ghost use Rattle.disk_judge.specs.Disks.{HasTaken, IsRefusedAt, IsRight};

use sector_judge::{Event, Known};
use sectors::{take_at, take_everywhere};
use std::alloc::{AllocError, Global};
use std::marker::Model;

/// What happens to the sectors of a disk, or is told of them.
#[derive(Debug, Clone, Copy, PartialEq, Eq)]
pub enum Happening {
    /// To this sector, from 0. One that the disk doesn't have is not followed.
    At { sector: usize, event: Event },
    /// The flush of this piece is done.
    Flushed { flush: u128 },
    /// A flush or a write past volatile caches failed, or was cut off.
    SyncFailed,
    /// Power was lost, and a session began anew.
    PowerLost,
    /// The process ended, and a session began anew.
    ProcessEnded,
}

/// What the judge says of what happened.
#[derive(Debug, Clone, Copy, PartialEq, Eq)]
pub enum Verdict {
    /// It can have happened.
    Passed,
    /// The first so many can't have happened to this sector.
    Refused { taken: usize, sector: usize },
}

/// What is known of the sectors of a disk.
#[derive(Debug, Drop)]
pub struct Disk {
    sectors: Vec<Known>,
}

impl Model for Disk {
    ghost use Rattle.std.specs.Prelude.{List};
    ghost use Rattle.sector_judge.specs.Known.{Knowledge};

    ghost Value = { List Knowledge };

    ghost view = { λ d. d.sectors.items };
}

impl Disk {
    /// A disk of so many sectors, of which nothing is known.
    pub fn new(alloc: Global, count: usize) -> Result<Disk, AllocError>
        ensures { IfOk result (λ disk. disk ≡ replicate count nothing_known) }
    {
        let mut sectors = Vec::new(alloc);
        for _ in 0..count {
            sectors.push(Known::nothing(alloc)?)?;
        }
        Ok(Disk { sectors })
    }

    /// Takes what happens next, and tells the sector to which it can't have happened, if there is one. Where there is
    /// one, or memory was refused, the disk is of no further use.
    pub fn take(&mut self, alloc: Global, happening: Happening) -> Result<Option<usize>, AllocError>
        ensures { IfOk result (λ refused. MatchOption refused (HasTaken happening self.old self.new) (IsRefusedAt happening self.old)) }
    {
        match happening {
            Happening::At { sector, event } => take_at(&mut self.sectors, alloc, sector, event),
            Happening::Flushed { flush } => {
                take_everywhere(&mut self.sectors, alloc, Event::Synced { flush })
            }
            Happening::SyncFailed => take_everywhere(&mut self.sectors, alloc, Event::Doubted),
            Happening::PowerLost => take_everywhere(&mut self.sectors, alloc, Event::Lost),
            Happening::ProcessEnded => take_everywhere(&mut self.sectors, alloc, Event::Ended),
        }
    }
}

/// Judges what happened to a disk of so many sectors, of which nothing is known at first.
pub fn judge(alloc: Global, count: usize, happenings: &[Happening]) -> Result<Verdict, AllocError>
    ensures right { IfOk result (λ verdict. IsRight count happenings.now verdict) }
{
    let mut disk = Disk::new(alloc, count)?;
    for (index, happening) in happenings.iter().enumerate() {
        if let Some(sector) = disk.take(alloc, *happening)? {
            return Ok(Verdict::Refused {
                taken: index + 1,
                sector,
            });
        }
    }
    Ok(Verdict::Passed)
}
