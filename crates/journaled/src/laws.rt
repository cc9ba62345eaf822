//! The laws that a step goes by: on the entries of a trace, and on the numbers of calls.

ghost use Rattle.compose.specs.Journaled.{ArmedMayBeBooked, BookedActsAddEntries, IdleActsKeepEntries};
ghost use Rattle.compose.specs.Journaled.{StepsKeepEntries, StepsStayApart};
ghost use Rattle.compose.specs.StepLaws.{StepsCallOnce, StepsOpenAsTold};
ghost use Rattle.machine_laws.specs.NumberLaws.{CallsCount, CallsRise};

/// Shows the caller which steps add an entry, which keep all, and what may be booked.
pub fn laws_of_entries()
    ensures kept { StepsKeepEntries }
    ensures idle { IdleActsKeepEntries }
    ensures booked { BookedActsAddEntries }
    ensures armed { ArmedMayBeBooked }
    ensures apart { StepsStayApart }
{
    compose::steps_keep_entries();
    compose::idle_acts_keep_entries();
    compose::booked_acts_add_entries();
    compose::armed_may_be_booked();
    compose::steps_stay_apart();
}

/// Shows the caller which number a step's call takes, and what it opens.
pub(crate) fn laws_of_numbers()
    ensures rise { CallsRise }
    ensures count { CallsCount }
    ensures once { StepsCallOnce }
    ensures told { StepsOpenAsTold }
{
    machine_laws::numbers_rise();
    compose::steps_call_once();
    compose::steps_open_as_told();
}
