//! Worked runs of the sector machine. The definitions of `machine` are computed here on small cases, so that a slip in
//! one of them shows before any layer stands on it.
//!
//! Each function does nothing, and its contract is the run: labels from an opening state to the state that they reach.
//! `impossible` has what wrong bodies would do. A run there leads to a state, and from that state no step of the wrong
//! kind leads anywhere.
//!
//! # Promises
//!
//! Each run is the contract of a function.
#![tactic(auto)]

pub mod impossible;

ghost use Rattle.worked_runs.specs.Cut.{wide, three_wait, ReachesThreeWait, StartsAnywhere, StartsAgain};
ghost use Rattle.worked_runs.specs.Failed.{IsCutShort, StaysBusy, IsResetBeforeAct, IsResetAfterAct, AnswersLowestFailure};
ghost use Rattle.worked_runs.specs.Held.{HoldsThenResumes, RemovesAll, SurprisesAll};
ghost use Rattle.worked_runs.specs.Impossible.{NeverWritesAt};
ghost use Rattle.worked_runs.specs.Long.{StartsInEachForm, FlushesFar};
ghost use Rattle.worked_runs.specs.Moved.{MovesItsPlaces, MovedItsLast};
ghost use Rattle.worked_runs.specs.Refused.{RefusesClosedHandle, RefusesRemoved, RefusesOutOfBounds, RefusesTooLong, ReadsNothing, RefusesOneMore};
ghost use Rattle.worked_runs.specs.Served.{WritesThenReads, JoinsInOrder, Flushes, WritesThrough, SendsAgain, SucceedsThoughCancelled};

/// A sector is written, and read back.
#[tactic(auto, using(crate::proofs::Serving::writes_then_reads))]
pub fn write_then_read()
    ensures { WritesThenReads }
{}

/// The bytes of a read stand in the order of their places, whatever the order in which its pieces came back.
#[tactic(auto, using(crate::proofs::Serving::joins_in_order))]
pub fn join_in_order()
    ensures { JoinsInOrder }
{}

/// An act moves the places of its piece, each with the bytes of its sector; and an answer SUCCESS tells of such an act.
#[tactic(auto, using(crate::proofs::Moving::moves_its_places, crate::proofs::Moving::moved_its_last))]
pub fn move_each_place()
    ensures places { MovesItsPlaces }
    ensures answered { MovedItsLast }
{}

/// A flush, and a write that asks for forced unit access.
#[tactic(auto, using(crate::proofs::Serving::flushes, crate::proofs::Serving::writes_through))]
pub fn reach_the_medium()
    ensures flush { Flushes }
    ensures write_through { WritesThrough }
{}

/// A piece that came back busy is sent again.
#[tactic(auto, using(crate::proofs::Serving::sends_again))]
pub fn send_again()
    ensures { SendsAgain }
{}

/// Pieces begin at multiples of the longest alone. Where any cut will do they begin at any place that waits, and what
/// came back busy starts again without end.
#[tactic(auto, using(crate::proofs::Cutting::reaches_three_wait, crate::proofs::Cutting::starts_anywhere, crate::proofs::Cutting::starts_again))]
pub fn cut_anywhere()
    ensures reached { ReachesThreeWait }
    ensures on_grid { NeverWritesAt wide three_wait 3 }
    ensures anywhere { StartsAnywhere }
    ensures again { StartsAgain }
{}

/// A request may succeed after its cancel.
#[tactic(auto, using(crate::proofs::Serving::succeeds_though_cancelled))]
pub fn succeed_though_cancelled()
    ensures { SucceedsThoughCancelled }
{}

/// A cancel cuts a write short: what was not sent is never sent, and what was sent is written.
#[tactic(auto, using(crate::proofs::Failing::is_cut_short))]
pub fn cut_short()
    ensures { IsCutShort }
{}

/// A piece that comes back busy too often ends its request.
#[tactic(auto, using(crate::proofs::Failing::stays_busy))]
pub fn stay_busy()
    ensures { StaysBusy }
{}

/// After a reset the answer does not tell whether the piece had acted.
#[tactic(auto, using(crate::proofs::Failing::is_reset_before_act, crate::proofs::Failing::is_reset_after_act))]
pub fn meet_a_reset()
    ensures before_the_act { IsResetBeforeAct }
    ensures after_the_act { IsResetAfterAct }
{}

/// The lowest place that failed gives the status.
#[tactic(auto, using(crate::proofs::Failing::answers_lowest_failure))]
pub fn answer_the_lowest_failure()
    ensures { AnswersLowestFailure }
{}

/// A pause holds what comes, and its end lets it go.
#[tactic(auto, using(crate::proofs::Holding::holds_then_resumes))]
pub fn hold_then_resume()
    ensures { HoldsThenResumes }
{}

/// A removal waits for the pieces out, and answers all requests.
#[tactic(auto, using(crate::proofs::Holding::removes_all))]
pub fn remove_all()
    ensures { RemovesAll }
{}

/// A surprise removal needs no pause: what was not started is answered at once, and what is at the adapter goes on.
#[tactic(auto, using(crate::proofs::Holding::surprises_all))]
pub fn remove_by_surprise()
    ensures { SurprisesAll }
{}

/// A command has the form of sixteen bytes where ten have no room for its address, and a flush where they have none for
/// the number of sectors.
#[tactic(auto, using(crate::proofs::Long::starts_in_each_form, crate::proofs::Long::flushes_far))]
pub fn start_in_each_form()
    ensures transfer { StartsInEachForm }
    ensures flush { FlushesFar }
{}

/// A call is answered at once for each of these causes, and the first that fits gives the status.
#[tactic(auto, using(crate::proofs::Refusing::refuses_closed_handle, crate::proofs::Refusing::refuses_removed, crate::proofs::Refusing::refuses_out_of_bounds, crate::proofs::Refusing::refuses_too_long, crate::proofs::Refusing::reads_nothing, crate::proofs::Refusing::refuses_one_more))]
pub fn refuse_for_each_cause()
    ensures closed_handle { RefusesClosedHandle }
    ensures removed { RefusesRemoved }
    ensures out_of_bounds { RefusesOutOfBounds }
    ensures too_long { RefusesTooLong }
    ensures of_length_0 { ReadsNothing }
    ensures too_many_open { RefusesOneMore }
{}
