//! A stack of a disk in a storage, and what moves its pieces: its owner, or threads.

ghost use Rattle.std.specs.Prelude.{◌≡◌, ◌<◌, ◌+◌, ◌^◌, [], All, IfSome, IsNone, IsTrue, MatchOption, if◌then◌else◌};
ghost use Rattle.compose.specs.StepLaws.{IsTransferEvent};
ghost use Rattle.serving.specs.Beside.{IsFlown, flown_by};
ghost use Rattle.serving.specs.Elsewhere.{AsksBeside, TakesBeside};
ghost use Rattle.serving.specs.inside.Engines.{EngineGoes, EngineHands, EngineMoves};

use crate::elsewhere::{Reached, ask, move_here, take_back, take_next};
use crate::flying::Flying;
use crate::pace::{Pace, nanos_of};
use chronicle::Naming;
use compose::{Answer, Event, Stack};
use file_disk::{FileDisk, Storage, Task, copy_of};
use miniport::BookedAdapter;
use movers::{Ask, Done, Flown, Movers};
use sector::Extent;
use srb::Srb;
use std::alloc::Global;
use std::marker::Model;
use std::sync::Wait;
use std::time::Clock;

/// A stack, and what moves its pieces. Contracts see it as the stack, its owner's disk and the pieces that threads have,
/// and whether the storage had no room.
#[derive(Drop)]
pub(crate) struct Engine<N: Naming, H: Copy + Drop, S: Storage + Drop> {
    pub(crate) alloc: Global,
    pub(crate) rt: H,
    pub(crate) stack: Stack<BookedAdapter>,
    pub(crate) disk: FileDisk<S>,
    pub(crate) movers: Movers<N>,
    pub(crate) flying: Flying,
    pub(crate) pace: Pace,
    /// Whether the storage had no room for the newest of the writes that it refused.
    pub(crate) full: bool,
}

impl<N: Naming, H: Copy + Drop, S: Storage + Drop> Model for Engine<N, H, S> {
    ghost use Rattle.serving.specs.Traces.{quiet};
    ghost use Rattle.serving.specs.inside.Engines.{EngineKept, EngineView};

    ghost Value = { EngineView };

    ghost view = { λ e. record { stack = quiet e.stack; full = e.full; disk = e.disk; aloft = e.flying } };

    ghost invariant = { λ e. EngineKept (quiet e.stack) e.disk e.movers };
}

impl<N: Naming, H: Wait + Clock + Copy + Drop, S: Storage + Drop> Engine<N, H, S> {
    /// Whether the storage had no room for the newest of the writes that it refused.
    pub(crate) fn is_full(&self) -> bool
        ensures { result ≡ self.now.full }
    {
        self.full
    }

    /// Whether no piece is handed out.
    pub(crate) fn is_idle(&self) -> bool
        ensures { IsTrue result → All IsNone self.now.aloft.places }
    {
        self.flying.is_idle()
    }

    /// Asks the stack for a read, a write or a flush.
    pub(crate) fn ask(&mut self, event: Event) -> Reached
        requires transfer { IsTransferEvent event }
        ensures asks { AsksBeside self.old.stack event result self.new.stack }
        ensures same { self.new ≡ record self.old { stack = self.new.stack } }
    {
        ask(&mut self.stack, self.alloc, event)
    }

    /// Takes an answer that waits, if there is one.
    pub(crate) fn take_answer(&mut self) -> Option<Answer>
        ensures takes { TakesBeside self.old.stack result self.new.stack }
        ensures same { self.new ≡ record self.old { stack = self.new.stack } }
    {
        take_next(&mut self.stack)
    }

    /// Moves a piece here, or hands out all that may be moved beside those that are. Where a piece has come back it says
    /// so, and whether one that syncs failed.
    #[tactic(auto, using(crate::proofs::Engines::moves_then))]
    pub(crate) fn moves(&mut self) -> Option<bool>
        requires heard { self.old.stack.answers ≡ [] }
        ensures { EngineMoves self.old result self.new }
    {
        self.hands();
        self.moves_here()
    }

    /// Hands pieces out, where the owner isn't to move them itself.
    #[tactic(auto, using(crate::proofs::Engines::hands_none))]
    fn hands(&mut self)
        ensures { EngineHands self.old self.new }
    {
        if !self.pace.is_here() {
            self.hand_all();
        }
    }

    /// Moves a piece here, if none is out and one may act.
    fn moves_here(&mut self) -> Option<bool>
        requires heard { self.old.stack.answers ≡ [] }
        ensures { MatchOption result (self.new ≡ self.old) (λ failed. EngineGoes self.old failed self.new) }
    {
        // The calls of a piece that the owner moves are made while no thread makes any.
        if !self.flying.is_idle() {
            return None;
        }
        let tag = self.first_armed()?;
        self.move_here(tag)
    }

    /// Moves the piece of a tag here.
    #[tactic(auto, using(crate::proofs::Engines::here_goes))]
    fn move_here(&mut self, tag: u8) -> Option<bool>
        requires heard { self.old.stack.answers ≡ [] }
        requires idle { All IsNone self.old.aloft.places }
        ensures { MatchOption result (self.new ≡ self.old) (λ failed. EngineGoes self.old failed self.new) }
    {
        let from = nanos_of(&self.rt);
        let flown = self.flown(tag);
        let failed = move_here(&mut self.stack, &mut self.disk, self.alloc, tag)?;
        let bytes = bytes_of(&flown, self.disk.sizes().sector_size);
        self.pace
            .moved(nanos_of(&self.rt).saturating_sub(from), bytes);
        let full = self.disk.is_full();
        self.fills(failed, full);
        Some(failed & syncs(&flown))
    }

    /// Books what came of a piece that was handed out, and says whether one that syncs failed.
    #[tactic(auto, using(crate::proofs::Engines::before_stands, crate::proofs::Engines::idle_goes, crate::proofs::Engines::lost_goes, crate::proofs::Engines::brings_goes))]
    pub(crate) fn book(&mut self, done: Done<N>) -> bool
        requires heard { self.old.stack.answers ≡ [] }
        ensures { EngineGoes self.old result self.new }
    {
        let mut done = done;
        if !self.movers.check(&mut done) {
            return false;
        }
        let tag = done.tag();
        let Some(at) = self.flying.place_of(tag) else {
            return false;
        };
        if at != done.at() {
            return false;
        }
        self.flying.end(tag);
        let full = done.is_full();
        let syncs = syncs(&self.flown(tag));
        done.shows_moved();
        let Some(failed) = take_back(&mut self.stack, self.alloc, done) else {
            return false;
        };
        self.fills(failed, full);
        failed & syncs
    }

    /// Notes of a piece that has come back whether the storage had no room for it.
    fn fills(&mut self, failed: bool, full: bool)
        ensures { self.new ≡ record self.old { full = if failed then full else self.old.full } }
    {
        if failed {
            self.full = full;
        }
    }

    /// Returns the first tag whose piece may act.
    fn first_armed(&self) -> Option<u8> {
        for tag in 0..self.stack.depth() {
            if self.stack.armed(tag).is_some() {
                return Some(tag);
            }
        }
        None
    }

    /// What the piece of a tag reads or writes, if it may act.
    fn flown(&self, tag: u8) -> Option<Flown> {
        let (_, srb) = self.stack.armed(tag)?;
        flown_of(&self.disk, srb)
    }

    /// Hands out each piece that may be moved beside those that are.
    #[tactic(auto, using(crate::proofs::Engines::hands_none, crate::proofs::Engines::hands_more))]
    fn hand_all(&mut self)
        ensures { EngineHands self.old self.new }
    {
        for tag in 0..self.stack.depth() {
            self.hand(tag);
        }
    }

    /// Hands out the piece of a tag, if it may be moved beside those that are.
    #[tactic(auto, using(crate::proofs::Engines::hands_none, crate::proofs::Engines::hands_one))]
    fn hand(&mut self, tag: u8)
        ensures { EngineHands self.old self.new }
    {
        if self.flying.is_out(tag) {
            return;
        }
        let Some((piece, srb)) = self.stack.armed(tag) else {
            return;
        };
        let Some(flown) = flown_of(&self.disk, srb) else {
            return;
        };
        if !ends_in_range(&flown) {
            return;
        }
        if !self.flying.has_room_for(flown) {
            return;
        }
        let Ok(srb) = copy_of(self.alloc, srb) else {
            return;
        };
        if let Some(at) = self.movers.hand(&self.rt, Ask { tag, piece, srb }) {
            self.flying.begin(tag, at, flown);
            self.pace.hands();
        }
    }
}

/// Whether sectors end in range.
fn ends_in_range(flown: &Flown) -> bool
    ensures { IsTrue result → flown.now.extent.first + flown.now.extent.count < 2 ^ 64 }
{
    flown.extent.first.checked_add(flown.extent.count).is_some()
}

/// What an SRB reads or writes of a disk, and whether it syncs; nothing where it asks nothing of the storage.
fn flown_of<S: Storage + Drop>(disk: &FileDisk<S>, srb: &Srb) -> Option<Flown>
    ensures { IfSome result (IsFlown disk.now srb.now) }
{
    let (task, extent) = disk.asked(srb)?;
    Some(flown_in(task, extent))
}

/// What a task reads or writes of the sectors, and whether it syncs.
fn flown_in(task: Task, extent: Extent) -> Flown
    ensures { result ≡ flown_by task extent }
{
    match task {
        Task::Read => Flown {
            extent,
            writes: false,
            syncs: false,
        },
        Task::Write { through } => Flown {
            extent,
            writes: true,
            syncs: through,
        },
        Task::Flush => Flown {
            extent: Extent { first: 0, count: 0 },
            writes: false,
            syncs: true,
        },
    }
}

/// Whether these sectors are synced.
fn syncs(flown: &Option<Flown>) -> bool {
    match flown {
        Some(flown) => flown.syncs,
        None => false,
    }
}

/// How many bytes these sectors have.
fn bytes_of(flown: &Option<Flown>, sector_size: u32) -> u64 {
    match flown {
        Some(flown) => flown.extent.count.saturating_mul(sector_size as u64),
        None => 0,
    }
}
