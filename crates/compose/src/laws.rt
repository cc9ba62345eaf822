//! Laws of every right step, whichever event it was. A call of one of these functions gives its law to the caller.

ghost use Rattle.compose.specs.Armed.{ArmedAskForPieces, BookedActsTell, IdleActsTellNothing};
ghost use Rattle.compose.specs.Journaled.{ArmedMayBeBooked, BookedActsAddEntries, IdleActsKeepEntries};
ghost use Rattle.compose.specs.Journaled.{StepsKeepEntries, StepsStayApart};
ghost use Rattle.compose.specs.StepLaws.{StepsCallOnce, StepsKeepRules, StepsLeaveAnswers, StepsOpenAsTold, StepsTakeNoMemory};

/// Among the labels of a step there is at most one call. It comes first, and only a read, a write or a flush brings it.
pub fn steps_call_once()
    ensures { StepsCallOnce }
{}

/// No step takes memory but a read, a write or a flush, where it opens a request or is refused for want of memory: after
/// each other step all tables, those of the layers too, have the room that they had.
pub fn steps_take_no_memory()
    ensures { StepsTakeNoMemory }
{}

/// No step changes the rules.
pub fn steps_keep_rules()
    ensures { StepsKeepRules }
{}

/// The answers among the labels of a step wait to be taken, by rising numbers and with all that their labels tell; or
/// there is one, which has no bytes and which the reply says, and none comes to wait.
pub fn steps_leave_answers()
    ensures { StepsLeaveAnswers }
{}

/// A step opens a request just where [`crate::Stack::admits`] tells before it what would be opened, and opens what was
/// told, unless memory is refused.
pub fn steps_open_as_told()
    ensures { StepsOpenAsTold }
{}

/// A step of any event but `Act` adds no entry to the journal of the acts of a trace.
pub fn steps_keep_entries()
    ensures { StepsKeepEntries }
{}

/// An act on a tag where nothing can act adds no entry.
pub fn idle_acts_keep_entries()
    ensures { IdleActsKeepEntries }
{}

/// The act of a piece of which an entry was booked adds that entry. Where a failure was booked, it adds none.
pub fn booked_acts_add_entries()
    ensures { BookedActsAddEntries }
{}

/// Where an adapter's sectors stand elsewhere, what suits the SRB of a piece that may act may be booked of it.
pub fn armed_may_be_booked()
    ensures { ArmedMayBeBooked }
{}

/// Where an adapter's sectors stand elsewhere, they do so after each step.
pub fn steps_stay_apart()
    ensures { StepsStayApart }
{}

/// Where acts move no arrays, what is armed on a tag is a piece of the machine: its SRB asks for the piece's places, and
/// that of a write sends the bytes of its request, also where it will fail.
pub fn armed_ask_for_pieces()
    ensures { ArmedAskForPieces }
{
    machine_laws::acts_were_asked();
    machine_laws::numbers_are_used_once();
}

/// The act of a piece tells one label: an act with the bytes of the entry that was booked, or a fault where a failure
/// was. On a tag where nothing can act it tells none.
pub fn booked_acts_tell()
    ensures booked { BookedActsTell }
    ensures idle { IdleActsTellNothing }
{}
