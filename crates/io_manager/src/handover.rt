//! How a caller takes all labels of a step at once, and an answer by its number.

ghost use Rattle.std.specs.Prelude.{◌≡◌, ◌≤◌, ◌<◌, [], IfOk, IsTrue, All, MatchOption, length, slice_get, Some};
ghost use Rattle.std.specs.VecDeque.{deque_capacity};
ghost use Rattle.io_manager.specs.Right.{IsOfAnother, TakesAnswerOf};
ghost use Rattle.io_manager.specs.inside.Handover.{IsAt};

use crate::Answer;
use crate::manager::IoManager;
use crate::tables::LABEL_PLACES;
use device::{Device, Label};
use std::alloc::{AllocError, Global};
use std::collections::VecDeque;

/// Returns where the answer of a number waits.
fn place_of(answers: &VecDeque<Answer>, number: u64) -> Option<usize>
    ensures { MatchOption result (All (IsOfAnother number) answers.now.items) (IsAt answers.now.items number) }
{
    for at in 0..answers.len() {
        if answers[at].number == number {
            return Some(at);
        }
    }
    None
}

impl<D: Device> IoManager<D> {
    /// Takes the waiting answer of a number. It takes no memory.
    pub fn take_answer_of(&mut self, number: u64) -> Option<Answer>
        ensures takes { TakesAnswerOf self.old number result self.new }
    {
        let at = place_of(&self.parts.tables.untaken, number)?;
        self.parts.tables.untaken.remove(at)
    }

    /// An empty queue with places for the labels of a step, and no more.
    ///
    /// # Errors
    ///
    /// [`AllocError`] where memory for these was refused.
    pub fn spare_labels(alloc: Global) -> Result<VecDeque<Label>, AllocError>
        ensures empty { IfOk result (λ spare. spare.items ≡ []) }
        ensures places { IfOk result (λ spare. deque_capacity spare ≡ 256) }
    {
        VecDeque::with_capacity(alloc, LABEL_PLACES)
    }

    /// Takes all labels of the last step that were not taken yet, in order, in an empty queue with places for them
    /// ([`IoManager::spare_labels`]). It takes no memory; the places that the labels don't use are given back. Only while
    /// labels are kept ([`IoManager::keep_labels`]).
    pub fn take_labels(&mut self, spare: VecDeque<Label>) -> Vec<Label>
        requires empty { spare.items ≡ [] }
        requires places { 256 ≤ deque_capacity spare }
        requires kept { IsTrue self.old.keeps }
        requires bytes { IsTrue self.old.rules.keeps_bytes }
        ensures labels { result.items ≡ self.old.labels }
        ensures taken { self.new ≡ record self.old { labels = [] } }
    {
        let mut labels = self.parts.tables.labels.take_all(spare);
        labels.shrink_to_fit();
        labels
    }
}
