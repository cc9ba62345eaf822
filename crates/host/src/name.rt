//! The name of a host.

ghost use Rattle.std.specs.Prelude.{ℕ};
ghost use Rattle.atomic_table.specs.Seated.{TableId};
ghost use Rattle.chronicle.specs.History.{no_table};

use std::marker::Brand;

/// Names one host, for contracts alone: its book, its gate, and the ledger of its keeper's steps. A function that is generic in it requires that what it
/// is handed is the one named; its caller passes `Brand`.
pub trait HostNaming: book::BookNaming {
    ghost gate: { TableId };

    ghost keeper: { ℕ };
}

impl HostNaming for Brand {
    ghost gate = { no_table };

    ghost keeper = { 0 };
}
