//! The laws that the steps of a book go by.

ghost use Rattle.compose.specs.Journaled.{ArmedMayBeBooked, BookedActsAddEntries, IdleActsKeepEntries};
ghost use Rattle.compose.specs.Journaled.{StepsKeepEntries, StepsStayApart};
ghost use Rattle.book.specs.Staying.{ArmedStays};

/// Shows the caller that a piece that may act still may after each step that tells no act, fault or return of it.
#[tactic(auto, using(crate::proofs::Staying::armed_stays))]
pub fn armed_stays()
    ensures { ArmedStays }
{}

/// Shows the caller which steps add an entry, and what they leave armed.
pub(crate) fn laws_of_entries()
    ensures kept { StepsKeepEntries }
    ensures idle { IdleActsKeepEntries }
    ensures booked { BookedActsAddEntries }
    ensures armed { ArmedMayBeBooked }
    ensures apart { StepsStayApart }
    ensures stays { ArmedStays }
{
    journaled::laws_of_entries();
    armed_stays();
}
