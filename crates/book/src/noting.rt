//! Steps of the stack that make no entry, and what the trace tells of the pieces that may act.

ghost use Rattle.std.specs.Prelude.{◌≡◌, ◌++◌, List, false, true, length};
ghost use Rattle.machine.specs.declared.Label.{Label as LabelView};
ghost use Rattle.compose.specs.Journaled.{IsNoAct};
ghost use Rattle.sector_journal.specs.declared.acted.Entered.{Entered};
ghost use Rattle.traced.specs.Entries.{labels_of};
ghost use Rattle.traced.specs.Serving.{is_call_event, is_handle_event};
ghost use Rattle.traced.specs.Traced.{AreLooked, HasCounted, IsServed};
ghost use Rattle.book.specs.Book.{IsKept, StaysKept};
ghost use Rattle.book.specs.Staying.{HaveNotedAll};

use crate::laws::laws_of_entries;
use crate::name::BookNaming;
use crate::records::Records;
use crate::tags::Tags;
use compose::{Event, Reply};
use miniport::BookedAdapter;
use traced::{Share, Traced};

/// Notes the labels of the trace from a place on. Where one tells that a piece acted, failed or came back, what was
/// armed for it is let go.
pub(crate) fn catch_up<N: BookNaming>(
    traced: &Traced<BookedAdapter, N>,
    tags: &mut Tags<N>,
    from: usize,
)
    ensures { (before labels : List LabelView) → length before ≡ from → labels_of traced.now.entries ≡ before ++ labels → HaveNotedAll labels tags.old tags.new }
{
    for place in from..traced.len() {
        tags.note(&traced.entry(place).label);
    }
}

/// Carries out each mark that is seen at an open request.
pub(crate) fn look<N: BookNaming>(
    traced: &mut Traced<BookedAdapter, N>,
    tags: &mut Tags<N>,
    records: &Records<N>,
)
    ensures looked { AreLooked N.slots traced.old traced.new }
    ensures kept { StaysKept N.rules N.start traced.old tags.old traced.new tags.new }
{
    laws_of_entries();
    let from = traced.len();
    traced.look(&records.context);
    catch_up(traced, tags, from);
}

/// Carries out an event that is no call.
pub(crate) fn serve<N: BookNaming>(
    traced: &mut Traced<BookedAdapter, N>,
    tags: &mut Tags<N>,
    records: &Records<N>,
    event: Event,
) -> Reply
    requires no_handle { is_handle_event event ≡ false }
    requires no_call { is_call_event event ≡ false }
    ensures served { IsServed 0 traced.old event result traced.new }
    ensures noted { (labels : List LabelView) → labels_of traced.new.entries ≡ labels_of traced.old.entries ++ labels → HaveNotedAll labels tags.old tags.new }
    ensures kept { IsNoAct event → StaysKept N.rules N.start traced.old tags.old traced.new tags.new }
{
    laws_of_entries();
    let from = traced.len();
    let reply = traced.serve(&records.context, event);
    catch_up(traced, tags, from);
    reply
}

/// Carries out a call, with the share of its handle's client.
pub(crate) fn call<N: BookNaming>(
    traced: &mut Traced<BookedAdapter, N>,
    tags: &mut Tags<N>,
    records: &Records<N>,
    share: &mut Share<N>,
    event: Event,
) -> Reply
    requires call { is_call_event event ≡ true }
    ensures served { IsServed share.old.client traced.old event result traced.new }
    ensures counted { HasCounted traced.old share.old share.new traced.new }
    ensures kept { StaysKept N.rules N.start traced.old tags.old traced.new tags.new }
{
    laws_of_entries();
    let from = traced.len();
    let reply = traced.call(&records.context, share, event);
    catch_up(traced, tags, from);
    reply
}
