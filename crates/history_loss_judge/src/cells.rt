//! The sectors that a history moves.

ghost use Rattle.std.specs.Prelude.{◌≡◌, ◌+◌, ◌^◌, ◌<◌, ℕ, IfOk, IfSome, List, OnOk, map, option_copied};
ghost use Rattle.history_fitting.specs.Services.{rules_of};
ghost use Rattle.history_loss_kept.specs.declared.Shared.{Shared};
ghost use Rattle.history_loss_sector.specs.Seen.{SeenView, seen_after, shared_in, turned_sight};
ghost use Rattle.history_loss_judge.specs.inside.Cells.{
  AreToldBy,
  AreToldOf,
  HasCells,
  HasOneAt,
  IsToldAt,
  cell_at,
  index_at,
  kept_at,
  kept_by,
  kept_in,
  nothing_seen,
  turned_by,
};

use crate::spans::Span;
use crate::telling::{Basis, Told, tell};
use history_loss_sector::{Seen, SharedAt, Turned};
use std::alloc::{AllocError, Global};
use std::collections::BTreeMap;

/// Each sector that some request moved.
#[derive(Drop)]
pub(crate) struct Cells {
    /// By its number on the disk, which of them it is.
    pub index: BTreeMap<u128, usize>,
    pub cells: Vec<Seen>,
    /// Which they are.
    pub sectors: Vec<u128>,
}

impl Cells {
    /// None.
    pub fn new(alloc: Global) -> Cells
        ensures { (start : ℕ) → HasCells start (nothing_seen start) result }
    {
        let index = BTreeMap::new(alloc);
        let cells = Vec::new(alloc);
        let sectors = Vec::new(alloc);
        Cells {
            index,
            cells,
            sectors,
        }
    }

    /// Which of them is a sector, if one is.
    fn found(&self, sector: u128) -> Option<usize>
        ensures { result ≡ index_at self.now.index sector }
    {
        self.index.get(&sector).copied()
    }

    /// Which of them is a sector, where there is a new one if there was none.
    fn at(&mut self, alloc: Global, basis: &Basis, sector: u128) -> Result<usize, AllocError>
        ensures { (kept : ℕ → SeenView) → HasCells basis.now.start kept self.old → IfOk result (HasOneAt basis.now.start kept sector self.new) }
    {
        if let Some(at) = self.found(sector) {
            return Ok(at);
        }
        let at = self.cells.len();
        self.cells.push(Seen::new(alloc, &basis.start)?)?;
        self.sectors.push(sector)?;
        self.index.insert(sector, at)?;
        Ok(at)
    }

    /// A sector, if a request moved it.
    pub fn get(&self, sector: u128) -> Option<&Seen>
        ensures { option_copied result ≡ cell_at self.now sector }
    {
        let at = self.found(sector)?;
        self.cells.get(at)
    }

    /// Tells a sector of a label that is for it: it lies at this place of the request.
    fn visit(
        &mut self,
        alloc: Global,
        basis: &Basis,
        told: Told<'_>,
        sector: u128,
        place: u64,
    ) -> Result<(), AllocError>
        requires { (kept : ℕ → SeenView) × HasCells basis.now.start kept self.old }
        ensures { (shared : List Shared) (kept : ℕ → SeenView) → HasCells basis.now.start kept self.old
            → IsToldAt (rules_of basis.now.service) shared kept sector place told.entry.behind told.entry.is_sync told.entry.label.now
            → OnOk result (HasCells basis.now.start (kept_at (rules_of basis.now.service) shared kept sector told.entry.label.now) self.new) }
    {
        let at = self.at(alloc, basis, sector)?;
        tell(alloc, &basis.service, told, place, &mut self.cells[at])
    }

    /// Tells each of some sectors of a label, from the first place of its request on.
    fn visit_all(
        &mut self,
        alloc: Global,
        basis: &Basis,
        told: Told<'_>,
        span: Span,
    ) -> Result<(), AllocError>
        requires fits { span.first + span.count < 2 ^ 128 }
        requires has { (shared : List Shared) × (kept : ℕ → SeenView) × HasCells basis.now.start kept self.old × AreToldOf (rules_of basis.now.service) shared kept span told.behind told.is_sync told.label.now }
        ensures { (shared : List Shared) (kept : ℕ → SeenView) → HasCells basis.now.start kept self.old
            → AreToldOf (rules_of basis.now.service) shared kept span told.entry.behind told.entry.is_sync told.entry.label.now
            → OnOk result (HasCells basis.now.start (kept_in (rules_of basis.now.service) shared kept span.first (span.first + span.count) told.entry.label.now) self.new) }
    {
        for place in 0..span.count {
            let sector = span.first + place as u128;
            self.visit(alloc, basis, told, sector, place)?;
        }
        Ok(())
    }

    /// Tells each sector that its request moves of a label.
    pub fn take(
        &mut self,
        alloc: Global,
        basis: &Basis,
        told: Told<'_>,
        span: Option<Span>,
    ) -> Result<(), AllocError>
        requires fits { IfSome span (λ s. s.first + s.count < 2 ^ 128) }
        requires has { (shared : List Shared) × (kept : ℕ → SeenView) × HasCells basis.now.start kept self.old × AreToldBy (rules_of basis.now.service) shared kept span told.behind told.is_sync told.label.now }
        ensures { (shared : List Shared) (kept : ℕ → SeenView) → HasCells basis.now.start kept self.old
            → AreToldBy (rules_of basis.now.service) shared kept span told.entry.behind told.entry.is_sync told.entry.label.now
            → OnOk result (HasCells basis.now.start (kept_by (rules_of basis.now.service) shared kept span told.entry.label.now) self.new) }
    {
        match span {
            Some(span) => self.visit_all(alloc, basis, told, span),
            None => Ok(()),
        }
    }

    /// Takes the end of a session in which all sectors saw this.
    pub fn turn_all(
        &mut self,
        alloc: Global,
        line: u64,
        shared: &[SharedAt],
        how: Turned,
    ) -> Result<(), AllocError>
        ensures { (start : ℕ) (kept : ℕ → SeenView) → HasCells start kept self.old → OnOk result (HasCells start (turned_by (shared_in shared.now) (turned_sight how) kept) self.new) }
    {
        turn_each(alloc, line, shared, how, &mut self.cells)
    }
}

/// Takes the end of a session at each of these sectors.
fn turn_each(
    alloc: Global,
    line: u64,
    shared: &[SharedAt],
    how: Turned,
    cells: &mut Vec<Seen>,
) -> Result<(), AllocError>
    ensures { OnOk result (cells.new.items ≡ map (seen_after (shared_in shared.now) (turned_sight how)) cells.old.items) }
{
    for at in 0..cells.len() {
        cells[at].turn(alloc, line, shared, how)?;
    }
    Ok(())
}
