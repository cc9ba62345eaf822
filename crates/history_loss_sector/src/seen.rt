//! One sector, over sessions.

ghost use Rattle.std.specs.Prelude.{◌≡◌, true, false, [], ◌++◌, length, IfOk, List, OnOk, Some, option_copied};
ghost use Rattle.std.specs.List.{list_any};
ghost use Rattle.history_loss_kept.specs.declared.Shared.{Shared};
ghost use Rattle.history_loss_kept.specs.Kept.{is_sync_of, own_after_answer, seen_by, with_last};
ghost use Rattle.machine.specs.Rules.{Rules};
ghost use Rattle.register.specs.Values.{code};
ghost use Rattle.register_loss_judge.specs.Observed.{IsSoFar};
ghost use Rattle.history_loss_sector.specs.Seen.{IsOnce, seen_after, shared_in, turned_sight};
ghost use Rattle.history_loss_sector.specs.inside.Entries.{own_in};

use crate::filling::{Answered, Marked, end_of, fill};
use crate::merging::{SharedAt, see_merged};
use crate::watched::Watched;
use history_loss_kept::{Own, Wait};
use register::Contents;
use register_loss::Sight;
use register_loss_judge::SoFar;
use std::alloc::{AllocError, Global};
use std::marker::Model;
use std::mem::replace;

/// How a session ended.
#[derive(Debug, Clone, Copy, PartialEq, Eq)]
pub enum Turned {
    /// Power was lost.
    Lost,
    /// The process ended.
    Ended,
}

/// What is known of a sector so far.
#[derive(Debug, Clone, Copy, PartialEq, Eq)]
pub struct Judged {
    /// With all syncs.
    pub all: SoFar,
    /// Without those that do not succeed.
    pub steady: SoFar,
    /// The line behind which nothing explains it with all syncs, if that is refused.
    pub line: u64,
}

/// What was seen of one sector, over sessions.
#[derive(Drop)]
pub struct Seen {
    /// The sessions before, with all syncs.
    all: Watched,
    /// The same without those that do not succeed.
    steady: Watched,
    /// Of this session.
    own: Vec<Marked>,
}

impl Model for Seen {
    ghost use Rattle.std.specs.Prelude.{◌≡◌};
    ghost use Rattle.history_loss_sector.specs.Seen.{SeenView};
    ghost use Rattle.history_loss_sector.specs.inside.Entries.{own_in};

    ghost Value = { SeenView };

    ghost view = { λ s. record { start = s.all.seen.start; all = s.all.seen.sights; steady = s.steady.seen.sights; own = own_in s.own.items } };

    ghost invariant = { λ s. s.steady.seen.start ≡ s.all.seen.start };
}

/// The sight of a session's end.
fn turned_sight(how: Turned) -> Sight
    ensures { result ≡ turned_sight how }
{
    match how {
        Turned::Lost => Sight::Lost,
        Turned::Ended => Sight::Ended,
    }
}

/// What is known of the sights so far, those of this session among them.
fn known_of(
    alloc: Global,
    all: bool,
    watched: &Watched,
    own: &[Marked],
    shared: &[SharedAt],
) -> Result<(SoFar, u64), AllocError>
    ensures { IfOk result (λ known. IsSoFar watched.now.seen.start (watched.now.seen.sights ++ seen_by all (shared_in shared.now) [] (own_in own.now)) known.0) }
{
    if own.is_empty() {
        return Ok((watched.so_far(), watched.line));
    }
    let mut after = watched.copy(alloc)?;
    see_merged(alloc, all, &mut after, own, shared)?;
    Ok((after.so_far(), after.line))
}

impl Seen {
    /// A sector that has these bytes, of which nothing was seen.
    ///
    /// # Errors
    ///
    /// [`AllocError`] where memory was refused.
    pub fn new(alloc: Global, start: &Contents) -> Result<Seen, AllocError>
        ensures { IfOk result (λ seen. seen ≡ record { start = start.now; all = []; steady = []; own = [] }) }
    {
        let all = Watched::new(alloc, start)?;
        let steady = Watched::new(alloc, start)?;
        Ok(Seen {
            all,
            steady,
            own: Vec::new(alloc),
        })
    }

    /// Takes the call of a request that moves the sector, behind so much that all sectors see in the session.
    ///
    /// # Errors
    ///
    /// [`AllocError`] where memory was refused: then nothing changes.
    pub fn call(&mut self, line: u64, behind: u64, wait: Wait) -> Result<(), AllocError>
        ensures { OnOk result (self.new ≡ record self.old { own = with_last behind (Some wait) self.old.own }) }
    {
        let own = Own { behind, wait };
        self.own.push(Marked { line, own })?;
        Ok(())
    }

    /// Takes an answer, of which the sector sees the end unless all sectors do. A read whose call waits is seen with its
    /// bytes, `sector_size` of them for each sector. What comes of an answer is told where no request was called twice.
    ///
    /// # Errors
    ///
    /// [`AllocError`] where memory was refused: then nothing is known any more.
    pub fn answer(
        &mut self,
        alloc: Global,
        sector_size: u32,
        answered: Answered<'_>,
    ) -> Result<(), AllocError>
        ensures others { OnOk result (self.new ≡ record self.old { own = self.new.own }) }
        ensures own { (rules : Rules) (shared : List Shared) → rules.sector_size ≡ sector_size
            → length shared ≡ answered.entry.behind → list_any (is_sync_of answered.entry.number) shared ≡ answered.entry.is_sync
            → IsOnce answered.entry.number self.old.own
            → OnOk result (self.new.own ≡ own_after_answer code rules answered.entry.number shared answered.entry.status (option_copied answered.entry.bytes) self.old.own) }
    {
        let is_seen = fill(alloc, sector_size, &mut self.own, answered)?;
        if answered.is_sync || !is_seen {
            return Ok(());
        }
        let wait = Wait::Known(end_of(answered.number, answered.status));
        self.call(answered.line, answered.behind, wait)
    }

    /// Takes the end of a session in which all sectors saw this. What came before is seen in full, and the next session
    /// begins.
    ///
    /// # Errors
    ///
    /// [`AllocError`] where memory was refused: then nothing is known any more.
    pub fn turn(
        &mut self,
        alloc: Global,
        line: u64,
        shared: &[SharedAt],
        how: Turned,
    ) -> Result<(), AllocError>
        ensures { OnOk result (self.new ≡ seen_after (shared_in shared.now) (turned_sight how) self.old) }
    {
        if self.own.is_empty() {
            return Ok(());
        }
        let sight = turned_sight(how);
        let own = replace(&mut self.own, Vec::new(alloc));
        see_merged(alloc, true, &mut self.all, own.as_slice(), shared)?;
        self.all.see(alloc, line, &sight)?;
        see_merged(alloc, false, &mut self.steady, own.as_slice(), shared)?;
        self.steady.see(alloc, line, &sight)
    }

    /// What is known, if all sectors saw this in the session so far.
    ///
    /// # Errors
    ///
    /// [`AllocError`] where memory was refused.
    pub fn judge(&self, alloc: Global, shared: &[SharedAt]) -> Result<Judged, AllocError>
        ensures all { IfOk result (λ judged. IsSoFar self.now.start (self.now.all ++ seen_by true (shared_in shared.now) [] self.now.own) judged.all) }
        ensures steady { IfOk result (λ judged. IsSoFar self.now.start (self.now.steady ++ seen_by false (shared_in shared.now) [] self.now.own) judged.steady) }
    {
        let own = self.own.as_slice();
        let (all, line) = known_of(alloc, true, &self.all, own, shared)?;
        let (steady, _) = known_of(alloc, false, &self.steady, own, shared)?;
        Ok(Judged { all, steady, line })
    }
}
