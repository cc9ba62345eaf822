//! What the definitions say together, whatever an adapter does.

ghost use Rattle.adapter.specs.Booking.{SentSuits};

/// What an SRB sends may be booked of it exactly where it asks to write all of that, or to flush.
#[tactic(auto, using(crate::proofs::Handed::sent_suits))]
pub fn sent_suits()
    ensures { SentSuits }
{}
