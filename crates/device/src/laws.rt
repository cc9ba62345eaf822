//! What the definitions say together, whatever a layer does.

ghost use Rattle.device.specs.Places.{CallsKeepPlaces};

/// No call but `reserve` makes a place in a table, or gives one up.
#[tactic(auto, using(crate::proofs::Places::calls_keep_places))]
pub fn calls_keep_places()
    ensures { CallsKeepPlaces }
{}
