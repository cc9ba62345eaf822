//! What wrong bodies would do, each refuted: from a state that a run reaches no state follows.
//! The names say what the wrong body does.

ghost use Rattle.ntstatus.specs.declared.NtStatus.TheVariants.{Success, DeviceNotReady};
ghost use Rattle.machine.specs.declared.Label.TheVariants.{Answer, Removed};
ghost use Rattle.std.specs.Prelude.{ℕ, List, ◌++◌};
ghost use Rattle.machine.specs.Settled.{Settled};
ghost use Rattle.worked_runs.specs.Small.{small, zeros, full_of, idle};
ghost use Rattle.worked_runs.specs.Moved.{NeverMoves};
ghost use Rattle.worked_runs.specs.Served.{pairs};
ghost use Rattle.worked_runs.specs.Impossible.{AnswersOnce, Never, NeverAnswers, NeverAnswersAs, NeverAnswersBeforeReturn, NeverOpensPastEnd, NeverRefusesWithoutCause, NeverStarts, NeverWritesAt, NeverWritesBeyond, ReachesBothBack, ReachesBothFailed, ReachesCancelledOut, ReachesCut, ReachesFirstBad, ReachesHeldAlone, ReachesHeldBehind, ReachesLastSector, ReachesLastUnsent, ReachesLeftBehind, ReachesOneFailed, ReachesOneOfTwo, ReachesOneWaits, ReachesRemovingOut, ReachesUnsent, ReachesUnsentCancelled, ReachesWaitsBehind, ReachesWornOut, SendsTheOther, both_back, both_failed, cancelled_out, cut, first_bad, held_alone, held_behind, last_sector, last_unsent, left_behind, neighbours, one_below, one_failed, one_of_two, one_waits, removing_out, unsent, unsent_cancelled, waits_behind, worn_out};

/// A request is answered at its first failed piece, while another is out or still waits to be sent.
pub fn answers_at_first_failure()
    ensures reached { ReachesOneFailed }
    ensures other_out { NeverAnswers small one_failed 1 }
    ensures waiting_reached { ReachesOneWaits }
    ensures other_waiting { NeverAnswers small one_waits 1 }
{}

/// A cancel answers a request whose piece is at the adapter.
pub fn cancel_answers_at_adapter()
    ensures reached { ReachesCancelledOut }
    ensures never { NeverAnswers small cancelled_out 1 }
{}

/// A write that was never sent is answered SUCCESS. Before a cancel it has no answer at all, and after one not this.
pub fn success_never_sent()
    ensures reached { ReachesUnsent }
    ensures unanswered { NeverAnswers small unsent 1 }
    ensures cancelled_reached { ReachesUnsentCancelled }
    ensures never { NeverAnswersAs small unsent_cancelled 1 Success }
{}

/// An act moves a place that is another piece's, or another request's, or its own with a neighbour's bytes.
#[tactic(auto, using(crate::proofs::Moving::never_moves_last, crate::proofs::Moving::never_moves_neighbours, crate::proofs::Moving::never_moves_anothers))]
pub fn acts_on_what_is_not_its_own()
    ensures other_piece { (sector : List ℕ) → NeverMoves 1 2 sector }
    ensures other_bytes { NeverMoves 1 1 (full_of 17) }
    ensures other_request { (place : ℕ) (sector : List ℕ) → NeverMoves 2 place sector }
{}

/// An answer has the status of the piece that failed first, and not of the lowest.
pub fn status_of_first_failure()
    ensures reached { ReachesBothFailed }
    ensures never { NeverAnswersAs small both_failed 1 DeviceNotReady }
{}

/// A request is checked where it begins and not where it ends: the next partition is written.
pub fn start_checked_not_end()
    ensures not_opened { NeverOpensPastEnd }
    ensures reached { ReachesLastSector }
    ensures not_sent { NeverWritesBeyond neighbours last_sector 5 }
{}

/// A piece that came back bad is started again; the other one is sent.
pub fn bad_piece_started_again()
    ensures reached { ReachesFirstBad }
    ensures never { NeverWritesAt small first_bad 2 }
    ensures goes_on { SendsTheOther }
{}

/// A piece is started one time more than its request may start pieces again.
pub fn restarted_without_end()
    ensures reached { ReachesWornOut }
    ensures never { NeverStarts small worn_out }
{}

/// A request held before the pause is started while it lasts.
pub fn released_while_paused()
    ensures reached { ReachesHeldBehind }
    ensures other_out { NeverStarts one_below held_behind }
    ensures alone_reached { ReachesHeldAlone }
    ensures alone { NeverStarts one_below held_alone }
{}

/// A removal ends with a piece out.
pub fn removed_with_piece_out()
    ensures reached { ReachesRemovingOut }
    ensures never { Never small removing_out Removed }
{}

/// A write is answered while its piece is out, whatever it writes and whatever its command.
pub fn answers_before_return()
    ensures { NeverAnswersBeforeReturn }
{}

/// A piece of a cancelled request is started.
pub fn cancel_ignored()
    ensures reached { ReachesCut }
    ensures never { NeverStarts small cut }
{}

/// The canceller and the releaser both complete a held request.
pub fn held_completed_twice()
    ensures once { AnswersOnce }
    ensures not_again { NeverAnswers small (idle zeros 2 1) 1 }
{}

/// A request that waited is left behind with nothing at the adapter. No step of the stack ends like this.
pub fn held_request_lost()
    ensures reached { ReachesWaitsBehind }
    ensures settled { Settled one_below waits_behind }
    ensures left { ReachesLeftBehind }
    ensures unsettled { Settled one_below left_behind → ⊥ }
{}

/// A read is answered SUCCESS whose short last piece was not sent.
pub fn short_last_piece_dropped()
    ensures reached { ReachesLastUnsent }
    ensures never { NeverAnswersAs pairs last_unsent 1 Success }
{}

/// The bytes of a read stand in the order in which its pieces came back.
pub fn joined_in_return_order()
    ensures reached { ReachesBothBack }
    ensures never { Never small both_back (Answer 1 Success 4 (full_of 34 ++ full_of 17)) }
{}

/// One command answers two equal reads.
pub fn one_command_two_reads()
    ensures reached { ReachesOneOfTwo }
    ensures never { NeverAnswers small one_of_two 2 }
{}

/// A call is answered at once though nothing refuses it.
pub fn refused_without_cause()
    ensures { NeverRefusesWithoutCause }
{}
