//! A history over sessions, taken line by line.

ghost use Rattle.std.specs.Prelude.{◌≡◌, ◌<◌, ◌++◌, ◌∷◌, [], IfOk, IfSome, OnOk, true};
ghost use Rattle.loss.specs.Sessions.{Ended as EndedLine, Lost as LostLine, Told as ToldLine};
ghost use Rattle.history_fitting.specs.Opened.{may_come};
ghost use Rattle.history_fitting.specs.Services.{rules_of};
ghost use Rattle.history_loss_judge.specs.Verdicts.{IsRight, IsUnfit};
ghost use Rattle.history_loss_judge.specs.declared.lines.Line.TheVariants.{Told as IsTold};
ghost use Rattle.history_loss_judge.specs.inside.Histories.{IsSpanFor, IsWhole, owing_after};
ghost use Rattle.history_loss_judge.specs.inside.Lines.{line_of, turned_line};

use crate::cells::Cells;
use crate::judging::{Verdict, judge_sectors};
use crate::lines::Line;
use crate::spans::{Span, span_of};
use crate::syncs::Syncs;
use crate::telling::{Basis, Told};
use history_fitting::{Known, Misfit, Service};
use history_loss_fits::explained_labels_fit;
use history_loss_sector::Turned;
use machine::Label;
use noted::Noted;
use ntstatus::NtStatus;
use register::Contents;
use std::alloc::{AllocError, Global};
use std::marker::Model;

/// The lines so far, each of which may come behind those before it.
#[derive(Drop)]
pub(crate) struct Fitted {
    pub basis: Basis,
    /// Of this session.
    pub known: Known,
    pub syncs: Syncs,
    /// Over all sessions.
    pub cells: Cells,
    /// The line at which the first session ended, of those in which a refused call was not answered.
    pub owing: Option<u64>,
    pub lines: Noted<Line>,
}

impl Fitted {
    /// No line.
    fn new(alloc: Global, basis: Basis) -> Fitted
        requires { 0 < basis.service.sector_size }
        ensures basis { result.basis ≡ basis }
        ensures lines { result.lines.items ≡ [] }
        ensures whole { IsWhole result }
    {
        Fitted {
            basis,
            known: Known::new(alloc),
            syncs: Syncs::new(alloc),
            cells: Cells::new(alloc),
            owing: None,
            lines: Noted::none(),
        }
    }

    /// Which sectors a label is for.
    fn span(&self, label: &Label) -> Option<Span>
        requires { 0 < self.now.basis.service.sector_size }
        ensures { IsSpanFor (rules_of self.now.basis.service) self.now.known label.now result }
    {
        match label {
            Label::Call { request, .. } => span_of(&self.basis.service, request),
            Label::Answer { number, .. } => match self.known.request(*number) {
                Some(request) => span_of(&self.basis.service, request),
                None => None,
            },
            _ => None,
        }
    }

    /// Takes the next label.
    fn take(&mut self, alloc: Global, line: u64, label: &Label) -> Result<(), AllocError>
        requires whole { IsWhole self.old }
        requires fits { may_come (rules_of self.old.basis.service) self.old.known label.now ≡ true }
        ensures basis { self.new.basis ≡ self.old.basis }
        ensures lines { OnOk result (self.new.lines.items ≡ self.old.lines.items ++ IsTold label.now ∷ []) }
        ensures whole { OnOk result (IsWhole self.new) }
    {
        let span = self.span(label);
        let is_sync = self.syncs.answers(label);
        self.syncs.begin(line, label)?;
        let behind = self.syncs.shared.len() as u64;
        let told = Told {
            line,
            label,
            behind,
            is_sync,
        };
        self.cells.take(alloc, &self.basis, told, span)?;
        self.syncs.finish(line, label)?;
        self.known.take(alloc, &self.basis.service, label)?;
        self.lines = self.lines.with(label);
        Ok(())
    }

    /// Takes the end of a session.
    fn turn(&mut self, alloc: Global, line: u64, how: Turned) -> Result<(), AllocError>
        requires whole { IsWhole self.old }
        ensures basis { self.new.basis ≡ self.old.basis }
        ensures lines { OnOk result (self.new.lines.items ≡ self.old.lines.items ++ turned_line how ∷ []) }
        ensures whole { OnOk result (IsWhole self.new) }
    {
        let shared = self.syncs.shared.as_slice();
        self.cells.turn_all(alloc, line, shared, how)?;
        self.owing = owing_after(self.owing, self.known.owed, line);
        self.known = Known::new(alloc);
        self.syncs = Syncs::new(alloc);
        self.lines = self.lines.with(&how);
        Ok(())
    }
}

/// Where the first session ended, of those in which a refused call was not answered, if the last of them ends here and owes
/// this.
pub(crate) fn owing_after(owing: Option<u64>, owed: Option<NtStatus>, line: u64) -> Option<u64>
    ensures { result ≡ owing_after owing owed line }
{
    match (owing, owed) {
        (Some(first), _) => Some(first),
        (None, Some(_)) => Some(line),
        (None, None) => None,
    }
}

/// A history over sessions of a service whose sectors all had the same bytes at the start. It keeps what is open, and of each
/// sector what it may have.
#[derive(Drop)]
pub struct SessionHistory {
    start: Vec<u8>,
    fitted: Fitted,
    /// How many labels there were up to the misfit, and with it.
    count: u64,
    /// How many of them were calls of earlier sessions.
    requests: u64,
    /// The line of the first label that can't come behind those before it.
    misfit: Option<(u64, Misfit)>,
    /// The number of the request that it tells.
    stopped: u64,
    /// That line, and those behind it.
    behind: Noted<Line>,
}

impl Model for SessionHistory {
    ghost use Rattle.std.specs.Prelude.{◌++◌};
    ghost use Rattle.history_loss_judge.specs.Histories.{HistoryView};
    ghost use Rattle.history_loss_judge.specs.inside.Histories.{IsHistory};
    ghost use Rattle.history_loss_judge.specs.inside.Lines.{lines_in};

    ghost Value = { HistoryView };

    ghost view = { λ h. record { service = h.fitted.basis.service; start = h.start.items; lines = lines_in (h.fitted.lines.items ++ h.behind.items) } };

    ghost invariant = { λ h. IsHistory h.fitted h.start.items h.misfit h.behind.items };
}

impl SessionHistory {
    /// No line yet, of a service whose sectors all had these bytes at the start. They have bytes, more than none.
    ///
    /// # Errors
    ///
    /// [`AllocError`] where memory was refused.
    pub fn new(alloc: Global, service: Service, start: &[u8]) -> Result<SessionHistory, AllocError>
        requires { 0 < service.sector_size }
        ensures { IfOk result (λ h. h ≡ record { service = service; start = start.now; lines = [] }) }
    {
        let basis = Basis {
            service,
            start: Contents::new(alloc, start)?,
        };
        Ok(SessionHistory {
            start: Vec::from_slice(alloc, start)?,
            fitted: Fitted::new(alloc, basis),
            count: 0,
            requests: 0,
            misfit: None,
            stopped: 0,
            behind: Noted::none(),
        })
    }

    /// Takes a label of the session, and the number of its line, by which verdicts tell of it. The lines rise. Numbers of
    /// requests begin at 1 in each session.
    ///
    /// # Errors
    ///
    /// [`AllocError`] where memory was refused.
    pub fn push(
        mut self,
        alloc: Global,
        line: u64,
        label: &Label,
    ) -> Result<SessionHistory, AllocError>
        ensures { IfOk result (λ h. h ≡ record self { lines = self.lines ++ ToldLine label.now ∷ [] }) }
    {
        if self.misfit.is_some() {
            self.behind = self.behind.with(label);
            return Ok(self);
        }
        self.count = self.count.saturating_add(1);
        if self
            .fitted
            .known
            .may_come(&self.fitted.basis.service, label)
        {
            self.fitted.take(alloc, line, label)?;
            return Ok(self);
        }
        self.misfit = Some((line, self.fitted.known.why_not(label)));
        self.stopped = number_in(label);
        self.behind = self.behind.with(label);
        Ok(self)
    }

    /// Takes the end of a session: a loss of power. What was open is never answered.
    ///
    /// # Errors
    ///
    /// [`AllocError`] where memory was refused.
    pub fn lost(self, alloc: Global, line: u64) -> Result<SessionHistory, AllocError>
        ensures { IfOk result (λ h. h ≡ record self { lines = self.lines ++ LostLine ∷ [] }) }
    {
        self.turned(alloc, line, Turned::Lost)
    }

    /// Takes the end of a session: the process ended, and its system went on. What was open is never answered.
    ///
    /// # Errors
    ///
    /// [`AllocError`] where memory was refused.
    pub fn ended(self, alloc: Global, line: u64) -> Result<SessionHistory, AllocError>
        ensures { IfOk result (λ h. h ≡ record self { lines = self.lines ++ EndedLine ∷ [] }) }
    {
        self.turned(alloc, line, Turned::Ended)
    }

    fn turned(mut self, alloc: Global, line: u64, how: Turned) -> Result<SessionHistory, AllocError>
        ensures { IfOk result (λ h. h ≡ record self { lines = self.lines ++ line_of how ∷ [] }) }
    {
        if self.misfit.is_some() {
            self.behind = self.behind.with(&how);
            return Ok(self);
        }
        self.requests = self.requests.saturating_add(self.fitted.known.calls);
        self.fitted.turn(alloc, line, how)?;
        Ok(self)
    }

    /// Why the last label can't come behind those before it, if one can't: then no sessions explain the history, whatever the
    /// sectors hold, and no label behind that one is counted.
    pub fn misfit(&self) -> Option<Misfit>
        ensures { IfSome result (λ _. IsUnfit self.now.service self.now.lines) }
    {
        explained_labels_fit();
        let (_, why) = self.misfit?;
        Some(why)
    }

    /// Judges the lines so far. A refusal tells the line of the earliest answer at which some sector has no schedule.
    ///
    /// # Errors
    ///
    /// [`AllocError`] where memory was refused.
    pub fn judge(&self, alloc: Global) -> Result<Verdict, AllocError>
        ensures right { IfOk result (IsRight self.now.service self.now.start self.now.lines) }
    {
        explained_labels_fit();
        match self.misfit {
            Some((line, why)) => Ok(Verdict::Misfit { line, why }),
            None => judge_sectors(alloc, &self.fitted),
        }
    }
}

/// The request that a label tells.
fn number_in(label: &Label) -> u64 {
    match label {
        Label::Call { number, .. } | Label::Answer { number, .. } => *number,
        _ => 0,
    }
}

/// What is told of a history beside its verdict.
impl SessionHistory {
    /// How many labels were taken, up to the first that can't come, and with it.
    pub fn count(&self) -> u64 {
        self.count
    }

    /// How many of them are calls, in all sessions.
    pub fn requests(&self) -> u64 {
        self.requests.saturating_add(self.fitted.known.calls)
    }

    /// How many sectors their calls move.
    pub fn sectors(&self) -> usize {
        self.fitted.cells.sectors.len()
    }

    /// The request of the first label that can't come, or 0.
    pub fn stopped(&self) -> u64 {
        self.stopped
    }
}
