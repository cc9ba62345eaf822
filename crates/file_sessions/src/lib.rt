//! Sessions over a file: what stands there after a loss of power, or after the process ended that served it.
//!
//! `loss` says what each sector of a disk may hold by the acts of pieces. Here stands what a file promises (`Stored`:
//! what survives its calls), and that the calls of pieces leave no more than `loss` says. Each function does nothing,
//! and its contract is a law.
//!
//! # Promises
//!
//! A run whose acts and faults are pieces that a file carried out is a session (`RunsAreSessions`): what a loss leaves
//! of the file is what it may leave by `loss` (`SurvivorsAreLeft`). So it is at any moment, also within a call
//! (`MomentsAreSessions`), and over any arrays (`AnyArraysDo`); sessions one behind the other are one trace
//! (`SeriesAreSessions`). A write that was answered SUCCESS is in the file behind a loss if it was write-through
//! (`ThroughSurvives`), or once a flush that was called behind its answer was answered SUCCESS, with no failed sync
//! between (`SuccessSurvives`), until its sector is written again. Where requests are served one at a time their answers
//! alone say so, at any moment behind them (`answers_survive`, `LaterMomentsAreSessions`); a sector that none writes is
//! as it was (`UntouchedSurvives`), and the end of the process alone loses nothing that was answered, where no sync
//! failed since or is under way (`AnsweredRemains`).
//!
//! That a file keeps to `Stored` is a premise; that a program makes such a run isn't said here.
#![tactic(auto)]

ghost use Rattle.file_sessions.specs.Arrays.{AnyArraysDo};
ghost use Rattle.file_sessions.specs.Behind.{LaterMomentsAreSessions};
ghost use Rattle.file_sessions.specs.Laws.{
  CertainSurvives,
  MomentsAreSessions,
  NoneUnderWay,
  PiecesAtWorkLeaveNoMore,
  PiecesLeaveNoMore,
  RemainsAreLeft,
  RunsAreSessions,
  SeriesAreSessions,
  SuccessSurvives,
  SurvivorsAreLeft,
  ThroughSurvives,
};
ghost use Rattle.file_sessions.specs.OneByOne.{AnsweredRemains, FlushedSurvives, RemainsSurvive, SecuredSurvives, UntouchedSurvives};
ghost use Rattle.file_sessions.specs.Runs.{ActsWithOne, DeedRunsJoin, FaultsWithOne, RunsWithNone};
ghost use Rattle.file_sessions.specs.Worked.{AreHeldByHand, AreLeftByHand};

/// The calls of a piece leave no more than its act or its fault, and those so far no more than its fault.
pub fn pieces_leave_no_more()
    ensures done { PiecesLeaveNoMore }
    ensures at_work { PiecesAtWorkLeaveNoMore }
{}

/// A run whose acts and faults are pieces that a file carried out is a session, up to any moment.
pub fn runs_are_sessions()
    ensures runs { RunsAreSessions }
    ensures moments { MomentsAreSessions }
    ensures later_moments { LaterMomentsAreSessions }
    ensures none_under_way { NoneUnderWay }
{}

/// Runs and their deeds are put together from those of one label.
#[tactic(auto, using(crate::proofs::Joining::deed_runs_join, crate::proofs::Joining::runs_with_none, crate::proofs::Joining::acts_with_one, crate::proofs::Joining::faults_with_one))]
pub fn deed_runs_join()
    ensures join { DeedRunsJoin }
    ensures none { RunsWithNone }
    ensures act { ActsWithOne }
    ensures fault { FaultsWithOne }
{}

/// Sessions one behind the other are a trace with losses and ends.
pub fn series_are_sessions()
    ensures { SeriesAreSessions }
{}

/// A machine that moves no sectors makes the same session over any arrays.
pub fn any_arrays_do()
    ensures { AnyArraysDo }
{}

/// What a loss of power leaves of a file is what it may leave of the machine's sectors, and so is what the end of the
/// process leaves.
pub fn survivors_are_left()
    ensures lost { SurvivorsAreLeft }
    ensures ended { RemainsAreLeft }
{}

/// What is certain of a sector is what it holds behind a loss: so is a write that went past volatile caches and was
/// answered SUCCESS, or one before a flush that was called behind its answer and answered SUCCESS, with no failed sync
/// between.
pub fn success_survives()
    ensures certain { CertainSurvives }
    ensures through { ThroughSurvives }
    ensures flushed { SuccessSurvives }
{
    loss::certain_is_left();
    loss::success_is_left();
}

/// Of requests that are served one at a time: a write that was answered SUCCESS is in the file behind a loss once a flush
/// that was called behind its answer was answered SUCCESS, and at once where it went past volatile caches; until its
/// sector is written again. A sector that no request writes is as it was. The end of the process loses nothing that was
/// answered, where no sync failed and none was under way.
pub fn answers_survive()
    ensures flushed { FlushedSurvives }
    ensures secured { SecuredSurvives }
    ensures untouched { UntouchedSurvives }
    ensures remains { AnsweredRemains }
    ensures no_less { RemainsSurvive }
{
    success_survives();
    survivors_are_left();
    loss::certain_is_left();
    loss::success_is_left();
}

/// What a file holds behind some calls, worked out by hand.
pub fn works_out()
    ensures held { AreHeldByHand }
    ensures left { AreLeftByHand }
{}
