//! The name of a journal.

ghost use Rattle.std.specs.Prelude.{ℕ, List, []};
ghost use Rattle.atomic_table.specs.Seated.{TableId};
ghost use Rattle.chronicle.specs.History.{no_table};

use std::marker::{Brand, PhantomData};

/// Names one journal, for contracts alone: its two histories, and the sectors that it was opened with. Each call of a
/// program picks it: a function that is generic in it takes an [`Opened`](crate::Opened) and requires that this is the
/// one named, and its caller passes `Brand`.
pub trait Naming {
    /// The history of what was armed.
    ghost armings: { TableId };

    /// The history of what acted.
    ghost entries: { TableId };

    /// The sectors that the journal was opened with: each sector's bytes, in order.
    ghost opening: { List (List ℕ) };
}

impl Naming for Brand {
    ghost armings = { no_table };

    ghost entries = { no_table };

    ghost opening = { [] };
}

/// The history of what was armed in the journal of this name.
pub struct OfArmings<N> {
    of: PhantomData<N>,
}

impl<N: Naming> chronicle::Naming for OfArmings<N> {
    ghost table = { N.armings };
}

/// The history of what acted in the journal of this name.
pub struct OfEntries<N> {
    of: PhantomData<N>,
}

impl<N: Naming> chronicle::Naming for OfEntries<N> {
    ghost table = { N.entries };
}
