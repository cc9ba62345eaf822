//! What stands beside a traced stack.

ghost use Rattle.std.specs.Prelude.{◌≡◌};

use crate::TraceEntry;
use crate::name::TraceNaming;
use cancel_marks::Marks;
use chronicle::History;
use std::alloc::Global;
use std::marker::Model;

/// What stands beside a stack whose labels are noted: memory, the history of its trace, and the marks of its requests.
/// All threads of a stack have the same, and need nothing of it but that it is of the stack's name.
#[derive(Drop)]
pub struct Context<'a, N: TraceNaming> {
    pub(crate) alloc: Global,
    pub(crate) history: &'a History<TraceEntry, N>,
    pub(crate) marks: &'a Marks,
}

impl<'a, N: TraceNaming> Model for Context<'a, N> {
    ghost use Rattle.std.specs.Prelude.{◌≡◌};

    ghost Value = { Unit {0} };

    ghost view = { λ c. tt };

    ghost invariant = { λ c. c.marks.now ≡ (N.marks, N.slots) };
}

impl<'a, N: TraceNaming> Context<'a, N> {
    /// The memory, the history and the marks of one traced stack.
    pub fn new(
        alloc: Global,
        history: &'a History<TraceEntry, N>,
        marks: &'a Marks,
    ) -> Context<'a, N>
        requires marks { marks.now ≡ (N.marks, N.slots) }
    {
        Context {
            alloc,
            history,
            marks,
        }
    }

    /// Its memory.
    pub fn alloc(&self) -> Global {
        self.alloc
    }
}
