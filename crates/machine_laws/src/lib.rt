//! The laws of the sector machine over whole runs. Each is the contract of a function with an empty body, and a call of
//! it gives the law to the caller.
//!
//! They hold at each state that a run reaches from an opening state whose arrays have the sectors of their partitions
//! (`goes_on`), whoever made the run: the whole stack or one layer of it. `removed_is_last` holds whatever the arrays
//! are, and those on numbers from other states too.
//!
//! # Promises
//!
//! Each law is the contract of the function of its name: on what SUCCESS means (`answered_was_moved`), on what a piece
//! that acts was asked for (`acts_were_asked`), on solo requests (`solo_reads`, `solo_writes`, `failed_writes`), on what
//! a label may change, on what comes no more, on numbers, on how many labels may still come (`labels_run_out`), and on
//! how a run is taken apart.
#![tactic(auto)]

ghost use Rattle.machine_laws.specs.Booked.{EntriesAreOfRuns, JournalsCloseRuns};
ghost use Rattle.machine_laws.specs.CountedLabels.{AreCountedByHand};
ghost use Rattle.machine_laws.specs.EndLaws.{
  AnsweredAreOver,
  AnsweredWriteNoMore,
  RemovedAreEmpty,
  RemovedIsLast,
};
ghost use Rattle.machine_laws.specs.LabelsLeft.{
  NoMoreAreLeft,
  RunsUseUp,
  StepsUseUp,
};
ghost use Rattle.machine_laws.specs.Lifting.{RunsLift};
ghost use Rattle.machine_laws.specs.NumberLaws.{
  AnswersOnce,
  AnswersWereCalled,
  CallsAreAnswered,
  CallsAwait,
  CallsCount,
  CallsOnce,
  CallsRise,
  StartsOnce,
};
ghost use Rattle.machine_laws.specs.Reached.{OpeningsAreReached, RunsGoOn, RunsSplit};
ghost use Rattle.machine_laws.specs.SoloLaws.{
  FailedWritesHold,
  LabelsAreOfOne,
  SoloReadsHold,
  SoloWritesHold,
};
ghost use Rattle.machine_laws.specs.Success.{ActsWereAsked, AnsweredWasMoved};
ghost use Rattle.machine_laws.specs.WriteLaws.{
  RunsKeepArrays,
  RunsKeepLengths,
  RunsKeepSectors,
  StepsKeepArrays,
  StepsKeepSectors,
};

/// In a faithful machine a read that succeeds, met by no other write, gives the bytes of the array at its call.
pub fn solo_reads()
    ensures { SoloReadsHold }
{}

/// In a faithful machine a write that succeeds, met by no other write, stands in the array at its answer.
pub fn solo_writes()
    ensures { SoloWritesHold }
{}

/// Each place of a write that no other write meets, also of one that failed, is at its answer as before its call; or a
/// piece of the write acted on it before, and its bytes stand there.
pub fn failed_writes()
    ensures { FailedWritesHold }
{}

/// What SUCCESS means: between the call and the answer, at each place of the request, a piece of that request acted, with
/// the bytes that a read's answer gives or a write's call brought.
pub fn answered_was_moved()
    ensures { AnsweredWasMoved }
{}

/// No piece acts that wasn't asked for: its request was called before and isn't answered yet, and it was started by a
/// block that means just its places, which are places of that request.
pub fn acts_were_asked()
    ensures { ActsWereAsked }
{}

/// No label changes the array of another partition: a partition's array stays unless the label is the act of a write
/// on that very partition.
pub fn keeps_arrays()
    ensures step { StepsKeepArrays }
    ensures run { RunsKeepArrays }
{}

/// A sector stays unless the label is the act of a write's piece that covers it. It then lies in the write's request
/// and in its partition, and the write's bytes for it stand there.
pub fn keeps_sectors()
    ensures step { StepsKeepSectors }
    ensures run { RunsKeepSectors }
{}

/// No run adds or takes away an array or a sector.
pub fn keeps_lengths()
    ensures { RunsKeepLengths }
{}

/// From its answer on a request is not open and no piece of it is out, at each state of a run, so it writes no sector.
pub fn answered_are_over()
    ensures over { AnsweredAreOver }
    ensures writes { AnsweredWriteNoMore }
{}

/// From the end of a removal on nothing is open or out, and no start, act, fault or return comes, in every run from an
/// opening state.
pub fn removed_is_last()
    ensures empty { RemovedAreEmpty }
    ensures last { RemovedIsLast }
{}

/// In every run each number is given to one call; from a state where nothing is owed and the open requests have numbers
/// of their own, no call is answered twice. No piece starts twice.
pub fn numbers_are_used_once()
    ensures calls { CallsOnce }
    ensures answers { AnswersOnce }
    ensures starts { StartsOnce }
{}

/// In every run each call takes the next number, and no other label takes one.
pub fn numbers_rise()
    ensures rise { CallsRise }
    ensures count { CallsCount }
{}

/// In every run each call adds its number to those that wait for an answer, and each answer takes its own away. So
/// where none waits at first, what is answered was called before; and where none waits at last, each call is answered
/// behind it.
pub fn calls_await_answers()
    ensures waiting { CallsAwait }
    ensures called { AnswersWereCalled }
    ensures answered { CallsAreAnswered }
{}

/// Each label uses up one of those that are left and of those that it brings. Only a call and a pause bring any: a call
/// the labels of its pieces and restarts, and a pause its end. So with neither no more labels come than were left. That
/// is so where pieces begin at multiples of the longest and restarts are counted: not where any cut will do.
pub fn labels_run_out()
    ensures step { StepsUseUp }
    ensures run { RunsUseUp }
    ensures none_brought { NoMoreAreLeft }
{}

/// The labels left of small states, counted by hand: of a read of two pieces from its call on, returned and busy.
pub fn counts_labels_left()
    ensures { AreCountedByHand }
{}

/// An opening state with whole arrays is reached, and so is each state that a run leads to from a reached one; with no
/// label, each state that says the same. A run of joined labels passes through a state between them.
pub fn goes_on()
    ensures opening { OpeningsAreReached }
    ensures run { RunsGoOn }
    ensures splits { RunsSplit }
{}

/// A call that is not refused opens its request, and an answer of that number after it is the open request's, not one
/// that a refused call was owed.
pub fn labels_are_of_one()
    ensures { LabelsAreOfOne }
{}

/// Where the sectors stand elsewhere, a run whose acts are a journal's entries, in order, is a run of the faithful
/// machine from the sectors before the journal to those after it.
pub fn runs_lift()
    ensures { RunsLift }
{}

/// Entries that fit a trace's acts by its labels alone fit the acts of the run that it is, from whole arrays.
pub fn entries_are_of_runs()
    ensures { EntriesAreOfRuns }
{}

/// A journal whose entries are, by the labels, of the acts of a trace makes it a run of the faithful machine, from the
/// sectors before the journal to those after it.
pub fn journals_close_runs()
    ensures { JournalsCloseRuns }
{}
