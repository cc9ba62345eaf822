//! What may change places.

ghost use Rattle.movers.specs.Order.{CallsChange};

/// Two calls of a file that both read, or whose places don't meet, may change places. It does nothing; its contract is for callers.
pub fn calls_change()
    ensures { CallsChange }
{}
