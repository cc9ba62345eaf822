//! The sectors that a history moves.

ghost use Rattle.std.specs.Prelude.{◌≡◌, ◌+◌, ◌^◌, ◌<◌, ℕ, [], Bool, IfOk, List, OnOk, Some, option_copied};
ghost use Rattle.history.specs.declared.Wait.{Wait};
ghost use Rattle.history_fitting.specs.Services.{rules_of};
ghost use Rattle.history_judge.specs.inside.Cells.{
  AreToldOf,
  cell_at,
  HasCells,
  HasOneAt,
  index_at,
  IsSpanOf,
  IsToldOf,
  seen_at,
  seen_in,
};

use crate::cell::{Basis, Cell, Told};
use history_fitting::{Place, Service};
use machine::ClientRequest;
use sector::Extent;
use std::alloc::{AllocError, Global};
use std::collections::BTreeMap;

/// The sectors that a request moves.
#[derive(Debug, Clone, Copy)]
pub(crate) struct Span {
    pub partition: u8,
    pub extent: Extent,
}

/// Each sector that some request moved.
#[derive(Drop)]
pub(crate) struct Cells {
    /// By its partition and its number there, which of them it is.
    pub index: BTreeMap<(u8, u64), usize>,
    pub cells: Vec<Cell>,
    /// Where they are.
    pub places: Vec<Place>,
}

/// The sectors that a request of this partition moves, if it moves any.
fn span_in(service: &Service, partition: u8, request: &ClientRequest) -> Option<Span>
    requires sized { 0 < service.now.sector_size }
    requires asked { request.now.partition ≡ Some partition }
    ensures { IsSpanOf (rules_of service.now) request.now result }
{
    match service.moved(request) {
        Some(extent) => Some(Span { partition, extent }),
        None => None,
    }
}

/// The sectors that a request moves, if it moves any.
pub(crate) fn span_of(service: &Service, request: &ClientRequest) -> Option<Span>
    requires { 0 < service.now.sector_size }
    ensures { IsSpanOf (rules_of service.now) request.now result }
{
    match request.partition {
        Some(partition) => span_in(service, partition, request),
        None => None,
    }
}

impl Cells {
    /// None.
    pub fn new(alloc: Global) -> Cells
        ensures { (any : Bool) (start : ℕ) → HasCells any start (λ _ _. []) result }
    {
        let index = BTreeMap::new(alloc);
        let cells = Vec::new(alloc);
        let places = Vec::new(alloc);
        Cells {
            index,
            cells,
            places,
        }
    }

    /// Which of them is at a place, if one is.
    fn found(&self, place: Place) -> Option<usize>
        ensures { result ≡ index_at self.now.index place.partition place.sector }
    {
        self.index.get(&(place.partition, place.sector)).copied()
    }

    /// Which of them is at a place, where there is a new one if there was none.
    fn at(&mut self, alloc: Global, basis: &Basis, place: Place) -> Result<usize, AllocError>
        ensures { (seen : ℕ → ℕ → List Wait) → HasCells basis.now.start.any basis.now.start.bytes seen self.old → IfOk result (HasOneAt basis.now.start.any basis.now.start.bytes seen place self.new) }
    {
        if let Some(at) = self.found(place) {
            return Ok(at);
        }
        let at = self.cells.len();
        self.cells.push(Cell::new(alloc, &basis.start)?)?;
        self.places.push(place)?;
        self.index.insert((place.partition, place.sector), at)?;
        Ok(at)
    }

    /// The sector at a place.
    pub fn get(&self, place: Place) -> Option<&Cell>
        ensures { option_copied result ≡ cell_at self.now place.partition place.sector }
    {
        let at = self.found(place)?;
        self.cells.get(at)
    }

    /// Gives the sector at a place a label that is for it.
    fn visit(
        &mut self,
        alloc: Global,
        basis: &Basis,
        told: Told<'_>,
        place: Place,
    ) -> Result<(), AllocError>
        requires sized { 0 < basis.now.service.sector_size }
        requires has { (seen : ℕ → ℕ → List Wait) × HasCells basis.now.start.any basis.now.start.bytes seen self.old }
        ensures { (seen : ℕ → ℕ → List Wait) → HasCells basis.now.start.any basis.now.start.bytes seen self.old → IsToldOf (rules_of basis.now.service) place.partition place.sector (seen place.partition place.sector) told.entry.kind told.entry.label.now → OnOk result (HasCells basis.now.start.any basis.now.start.bytes (seen_at (rules_of basis.now.service) seen place told.entry.label.now) self.new) }
    {
        let at = self.at(alloc, basis, place)?;
        self.cells[at].take(alloc, basis, told, place)
    }

    /// Gives a label to each sector that its request moves.
    pub fn visit_all(
        &mut self,
        alloc: Global,
        basis: &Basis,
        told: Told<'_>,
        span: Span,
    ) -> Result<(), AllocError>
        requires sized { 0 < basis.now.service.sector_size }
        requires fits { span.extent.first + span.extent.count < 2 ^ 64 }
        requires has { (seen : ℕ → ℕ → List Wait) × HasCells basis.now.start.any basis.now.start.bytes seen self.old × AreToldOf (rules_of basis.now.service) seen span told.kind told.label.now }
        ensures { (seen : ℕ → ℕ → List Wait) → HasCells basis.now.start.any basis.now.start.bytes seen self.old → AreToldOf (rules_of basis.now.service) seen span told.entry.kind told.entry.label.now → OnOk result (HasCells basis.now.start.any basis.now.start.bytes (seen_in (rules_of basis.now.service) seen span.partition span.extent.first (span.extent.first + span.extent.count) told.entry.label.now) self.new) }
    {
        let Span { partition, extent } = span;
        for sector in extent.first..extent.first + extent.count {
            self.visit(alloc, basis, told, Place { partition, sector })?;
        }
        Ok(())
    }
}
