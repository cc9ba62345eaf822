//! What a step tells where no label is kept: contracts alone read it.

ghost use Rattle.std.specs.Prelude.{◌≡◌, IsFalse};
ghost use Rattle.io_manager.specs.inside.Completion.{and_recorded, and_answers};
ghost use Rattle.io_manager.specs.inside.Queue.{SameQueue};

use crate::Answer;
use crate::label_queue::LabelQueue;
use device::{Device, Label};

/// Tells the deferred answers behind the labels.
pub(crate) fn note_answers(labels: &mut LabelQueue<Label>, answered: &LabelQueue<Answer>)
    requires quiet { IsFalse labels.old.keeps }
    ensures told { labels.new.items ≡ and_answers labels.old.items answered.now.items }
    ensures same { SameQueue labels.old labels.new }
{
    labels.told = labels.told.with(answered);
}

/// Tells what the device recorded behind the labels.
pub(crate) fn note_labels<D: Device>(labels: &mut LabelQueue<Label>, device: &D)
    requires quiet { IsFalse labels.old.keeps }
    ensures told { labels.new.items ≡ and_recorded labels.old.items (D.view device.now) }
    ensures same { SameQueue labels.old labels.new }
{
    labels.told = labels.told.with(device);
}
