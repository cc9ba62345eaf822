//! A history, taken label by label.

ghost use Rattle.std.specs.Prelude.{◌≡◌, ◌<◌, ◌++◌, ◌∷◌, ℕ, [], Bool, false, IfOk, IfSome, not, OnOk, true};
ghost use Rattle.history_fitting.specs.Services.{rules_of};
ghost use Rattle.history_judge.specs.Verdicts.{IsRightBy, IsUnfit};
ghost use Rattle.history_judge.specs.inside.Cells.{HasCells, seen_of};
ghost use Rattle.history_judge.specs.inside.Histories.{IsSpan, IsSpanBy, IsWhole};
ghost use Rattle.history_fitting.specs.Opened.{may_come_by};

use crate::cell::{Basis, Told};
use crate::cells::{Cells, Span, span_of};
use crate::judging::{Verdict, judge_sectors};
use crate::telling::{Refusal, needs_busy, refusal_of};
use crate::trying::Start;
use history::explained_by_some_fit;
use history_fitting::{Known, Misfit, Place, Service};
use machine::{ClientRequest, Kind, Label};
use noted::Noted;
use register::Contents;
use std::alloc::{AllocError, Global};
use std::marker::Model;

/// The labels so far, each of which may come behind those before it.
#[derive(Drop)]
pub(crate) struct Fitted {
    pub basis: Basis,
    pub known: Known,
    pub cells: Cells,
    pub labels: Noted<Label>,
    /// Of each, whether its bytes were not recorded.
    pub gaps: Noted<bool>,
}

/// One label more.
fn with_label(labels: &Noted<Label>, label: &Label) -> Noted<Label>
    ensures { result.items ≡ labels.now.items ++ label.now ∷ [] }
{
    labels.with(label)
}

fn with_gap(gaps: &Noted<bool>, gap: bool) -> Noted<bool>
    ensures { result.items ≡ gaps.now.items ++ gap ∷ [] }
{
    gaps.with(&gap)
}

impl Fitted {
    /// No label.
    fn new(alloc: Global, basis: Basis) -> Fitted
        requires { 0 < basis.service.sector_size }
        ensures basis { result.basis ≡ basis }
        ensures labels { result.labels.items ≡ [] }
        ensures gaps { result.gaps.items ≡ [] }
        ensures whole { IsWhole result }
    {
        Fitted {
            basis,
            known: Known::new(alloc),
            cells: Cells::new(alloc),
            labels: Noted::none(),
            gaps: Noted::none(),
        }
    }

    /// Whether a label may come behind these, or one whose bytes were not recorded.
    fn may_come(&self, label: &Label, gap: bool) -> bool
        requires { 0 < self.now.basis.service.sector_size }
        ensures { result ≡ may_come_by gap (rules_of self.now.basis.service) self.now.known label.now }
    {
        if gap {
            return self.known.may_come_blank(label);
        }
        self.known.may_come(&self.basis.service, label)
    }

    /// Which sectors a label is for, and what its request does.
    fn span(&self, label: &Label) -> Option<(Span, Kind)>
        requires { 0 < self.now.basis.service.sector_size }
        ensures { IsSpan (rules_of self.now.basis.service) self.now.known label.now result }
    {
        match label {
            Label::Call { request, .. } => span_by(&self.basis.service, request),
            Label::Answer { number, .. } => match self.known.request(*number) {
                Some(request) => span_by(&self.basis.service, request),
                None => None,
            },
            _ => None,
        }
    }

    /// Gives a label to the sectors that it is for.
    fn visit(&mut self, alloc: Global, line: u64, label: &Label) -> Result<(), AllocError>
        requires whole { IsWhole self.old }
        requires fits { (gap : Bool) × (may_come_by gap (rules_of self.old.basis.service) self.old.known label.now ≡ true) }
        ensures basis { self.new.basis ≡ self.old.basis }
        ensures known { self.new.known ≡ self.old.known }
        ensures labels { self.new.labels.items ≡ self.old.labels.items }
        ensures gaps { self.new.gaps.items ≡ self.old.gaps.items }
        ensures cells { OnOk result (HasCells self.old.basis.start.any self.old.basis.start.bytes (seen_of (rules_of self.old.basis.service) (self.old.labels.items ++ label.now ∷ [])) self.new.cells) }
    {
        match self.span(label) {
            Some((span, kind)) => {
                let told = Told { line, label, kind };
                self.cells.visit_all(alloc, &self.basis, told, span)
            }
            None => Ok(()),
        }
    }

    /// Takes the next label.
    fn take(&mut self, alloc: Global, line: u64, label: &Label, gap: bool) -> Result<(), AllocError>
        requires whole { IsWhole self.old }
        requires fits { may_come_by gap (rules_of self.old.basis.service) self.old.known label.now ≡ true }
        ensures basis { self.new.basis ≡ self.old.basis }
        ensures labels { OnOk result (self.new.labels.items ≡ self.old.labels.items ++ label.now ∷ []) }
        ensures gaps { OnOk result (self.new.gaps.items ≡ self.old.gaps.items ++ gap ∷ []) }
        ensures whole { OnOk result (IsWhole self.new) }
    {
        self.visit(alloc, line, label)?;
        self.known.take(alloc, &self.basis.service, label)?;
        self.labels = with_label(&self.labels, label);
        self.gaps = with_gap(&self.gaps, gap);
        Ok(())
    }
}

/// Which sectors a request moves, and what it does.
fn span_by(service: &Service, request: &ClientRequest) -> Option<(Span, Kind)>
    requires { 0 < service.now.sector_size }
    ensures { IsSpanBy (rules_of service.now) request.now result }
{
    match span_of(service, request) {
        Some(span) => Some((span, request.kind)),
        None => None,
    }
}

/// A history of a service whose sectors all had the same bytes at the start, or where that is asked for any bytes, each its
/// own. It keeps what is open, and of each sector its last sights and the bytes that it may have.
#[derive(Drop)]
pub struct History {
    start: Vec<u8>,
    fitted: Fitted,
    /// How many labels there were up to the misfit, and with it.
    count: u64,
    /// The line of the first label that can't come behind those before it.
    misfit: Option<(u64, Misfit)>,
    /// The number of the request that it tells.
    stopped: u64,
    /// That label, and those behind it.
    behind: Noted<Label>,
    gaps_behind: Noted<bool>,
}

impl Model for History {
    ghost use Rattle.std.specs.Prelude.{◌++◌};
    ghost use Rattle.history_judge.specs.Histories.{HistoryView};
    ghost use Rattle.history_judge.specs.inside.Histories.{IsHistory};

    ghost Value = { HistoryView };

    ghost view = { λ h. record { service = h.fitted.basis.service; start = h.start.items; any = h.fitted.basis.start.any; gaps = h.fitted.gaps.items ++ h.gaps_behind.items; labels = h.fitted.labels.items ++ h.behind.items } };

    ghost invariant = { λ h. IsHistory h.fitted h.start.items h.misfit h.gaps_behind.items h.behind.items };
}

impl History {
    /// No label yet, of a service whose sectors all had these bytes at the start, or where `any` is true any bytes, each its
    /// own. They have bytes, more than none.
    ///
    /// # Errors
    ///
    /// [`AllocError`] where memory was refused.
    pub fn new(
        alloc: Global,
        service: Service,
        start: &[u8],
        any: bool,
    ) -> Result<History, AllocError>
        requires { 0 < service.sector_size }
        ensures { IfOk result (λ h. h ≡ record { service = service; start = start.now; any = any; gaps = []; labels = [] }) }
    {
        let bytes = Contents::new(alloc, start)?;
        let basis = Basis {
            service,
            start: Start { bytes, any },
        };
        Ok(History {
            start: Vec::from_slice(alloc, start)?,
            fitted: Fitted::new(alloc, basis),
            count: 0,
            misfit: None,
            stopped: 0,
            behind: Noted::none(),
            gaps_behind: Noted::none(),
        })
    }

    /// Takes the next label, and the number of its line, by which verdicts tell of it. The lines rise. Where its bytes were not
    /// `recorded` it has none, and they may have been any.
    ///
    /// # Errors
    ///
    /// [`AllocError`] where memory was refused.
    pub fn push(
        mut self,
        alloc: Global,
        line: u64,
        label: &Label,
        recorded: bool,
    ) -> Result<History, AllocError>
        ensures { IfOk result (λ h. h ≡ record self { gaps = self.gaps ++ not recorded ∷ []; labels = self.labels ++ label.now ∷ [] }) }
    {
        let gap = !recorded;
        if self.misfit.is_some() {
            self.behind = with_label(&self.behind, label);
            self.gaps_behind = with_gap(&self.gaps_behind, gap);
            return Ok(self);
        }
        self.count = self.count.saturating_add(1);
        if self.fitted.may_come(label, gap) {
            self.fitted.take(alloc, line, label, gap)?;
            return Ok(self);
        }
        self.misfit = Some((line, self.fitted.known.why_not(label)));
        self.stopped = number_in(label);
        self.behind = with_label(&self.behind, label);
        self.gaps_behind = with_gap(&self.gaps_behind, gap);
        Ok(self)
    }

    /// Why the last label can't come behind those before it, if one can't: then no run explains the history, whatever the
    /// sectors hold, and no label behind that one is counted.
    pub fn misfit(&self) -> Option<Misfit>
        ensures { IfSome result (λ _. IsUnfit self.now.service self.now.gaps self.now.labels) }
    {
        explained_by_some_fit();
        let (_, why) = self.misfit?;
        Some(why)
    }

    /// Judges the labels so far. A refusal tells the line of the earliest answer at which some sector has no schedule, whatever
    /// it had at the start.
    ///
    /// # Errors
    ///
    /// [`AllocError`] where memory was refused.
    pub fn judge(&self, alloc: Global) -> Result<Verdict, AllocError>
        ensures right { IfOk result (IsRightBy self.now.any self.now.service self.now.start self.now.gaps self.now.labels) }
    {
        explained_by_some_fit();
        match self.misfit {
            Some((line, why)) => Ok(Verdict::Misfit { line, why }),
            None => judge_sectors(alloc, &self.fitted),
        }
    }
}

/// The request that a label tells.
fn number_in(label: &Label) -> u64 {
    match label {
        Label::Call { number, .. } | Label::Answer { number, .. } => *number,
        _ => 0,
    }
}

/// What is told of a history beside its verdict.
impl History {
    /// How many labels were taken, up to the first that can't come, and with it.
    pub fn count(&self) -> u64 {
        self.count
    }

    /// How many of them are calls.
    pub fn requests(&self) -> u64 {
        self.fitted.known.calls
    }

    /// How many sectors their calls move.
    pub fn sectors(&self) -> usize {
        self.fitted.cells.places.len()
    }

    /// The request of the first label that can't come, or 0.
    pub fn stopped(&self) -> u64 {
        self.stopped
    }

    /// What is told of a sector that is refused.
    ///
    /// # Errors
    ///
    /// [`AllocError`] where memory was refused.
    pub fn refusal(&self, alloc: Global, place: Place) -> Result<Option<Refusal>, AllocError> {
        match self.fitted.cells.get(place) {
            Some(cell) => refusal_of(alloc, &self.fitted.basis, cell),
            None => Ok(None),
        }
    }

    /// A sector that has a schedule only by the effects of requests that were answered DEVICE_BUSY, of which none can have
    /// acted on all its sectors, or may have one only so.
    ///
    /// # Errors
    ///
    /// [`AllocError`] where memory was refused.
    pub fn fails_without_busy(&self, alloc: Global) -> Result<Option<Place>, AllocError> {
        for place in self.fitted.cells.places.as_slice() {
            let Some(cell) = self.fitted.cells.get(*place) else {
                continue;
            };
            if needs_busy(alloc, &self.fitted.basis, cell)? {
                return Ok(Some(*place));
            }
        }
        Ok(None)
    }
}
