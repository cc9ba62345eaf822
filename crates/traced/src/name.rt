//! The name of a traced stack.

ghost use Rattle.std.specs.Prelude.{ℕ, List, Option, []};
ghost use Rattle.io_manager.specs.declared.OpenHandle.{OpenHandle};
ghost use Rattle.atomic_table.specs.Seated.{TableId};
ghost use Rattle.machine.specs.Rules.{Rules};
ghost use Rattle.machine.specs.State.{State, opening};
ghost use Rattle.chronicle.specs.History.{no_table};
ghost use Rattle.traced.specs.inside.Naming.{no_rules};

use std::marker::Brand;
use std::sync::ledger::Ledger;

/// Names one traced stack, for contracts alone: its history, the ledger of its calls, the rules of its stack, the state
/// that it was opened with, the number of its clients, and its table of marks. A function that is generic in it
/// requires that what it is handed is the one named; its caller passes `Brand`.
pub trait TraceNaming: chronicle::Naming + Ledger {
    ghost rules: { Rules };

    ghost start: { State };

    /// The partitions of its clients, by their numbers.
    ghost partitions: { List ℕ };

    ghost handles: { List (Option OpenHandle) };

    ghost marks: { TableId };

    ghost slots: { ℕ };
}

impl TraceNaming for Brand {
    ghost rules = { no_rules };

    ghost start = { opening [] };

    ghost partitions = { [] };

    ghost handles = { [] };

    ghost marks = { no_table };

    ghost slots = { 0 };
}
