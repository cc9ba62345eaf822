//! What the journal is told of a step: which pieces may act, and which requests were answered.

ghost use Rattle.std.specs.Prelude.{◌≡◌, ◌<◌, false, length};
ghost use Rattle.sector_journal.specs.Slots.{HasNone};
ghost use Rattle.book.specs.Rooms.{ArmsTag, Follows, FollowsDevice, FollowsOn, IsDisarmed, IsDisarmedOn};
ghost use Rattle.book.specs.Staying.{AreOnTags};

use crate::arming::Arming;
use crate::name::BookNaming;
use crate::tags::Tags;
use disk::Medium;
use machine::Label;
use miniport::BookedAdapter;
use sector_journal::Journal;
use srb::DeviceLabel;
use traced::Traced;

/// Lets the piece of a tag act in the journal, where it could act in the stack and wasn't armed yet. Lets no piece of
/// the tag act there, where none could act in the stack.
pub(crate) fn arm_tag<M: Medium, N: BookNaming>(
    traced: &Traced<BookedAdapter, N>,
    tags: &mut Tags<N>,
    journal: &mut Journal<M, N>,
    words: &sector_journal::History<N>,
    tag: u8,
)
    requires on_tags { AreOnTags traced.now.stack.adapter tags.old }
    ensures on_tags { AreOnTags traced.now.stack.adapter tags.new }
    ensures arms { ArmsTag traced.now.stack.adapter tag journal.old journal.new }
{
    let Some((piece, srb)) = traced.armed(tag) else {
        journal.disarm(tag);
        return;
    };
    if !tags.is_free(tag) || !journal.arm(words, tag, piece, srb) {
        return;
    }
    if let Some(arming) = Arming::of(journal, words, tag) {
        tags.put(tag, arming);
    }
}

/// Whether the piece that may act on a tag is this one.
fn is_armed_for<M: Medium, N: BookNaming>(journal: &Journal<M, N>, tag: u8, piece: u128) -> bool
    ensures { result ≡ false → HasNone journal.now.slots tag piece }
{
    match journal.armed(tag) {
        Some(armed) => armed.piece == piece,
        None => false,
    }
}

/// Lets a piece not act on a tag any more.
fn disarm_on<M: Medium, N: BookNaming>(journal: &mut Journal<M, N>, tag: u8, piece: u128)
    requires { tag < length journal.old.slots }
    ensures { IsDisarmedOn tag piece journal.old journal.new }
{
    if is_armed_for(journal, tag, piece) {
        journal.disarm(tag);
    }
}

/// Lets a piece that failed or came back not act any more.
fn disarm_piece<M: Medium, N: BookNaming>(journal: &mut Journal<M, N>, piece: u128)
    ensures { IsDisarmed piece journal.old journal.new }
{
    for tag in 0..journal.depth() {
        disarm_on(journal, tag, piece);
    }
}

/// Has the journal follow a label of the device: a piece that was started may act, one that failed or came back may not.
fn settle_device<M: Medium, N: BookNaming>(
    traced: &Traced<BookedAdapter, N>,
    tags: &mut Tags<N>,
    journal: &mut Journal<M, N>,
    words: &sector_journal::History<N>,
    label: &DeviceLabel,
)
    requires on_tags { AreOnTags traced.now.stack.adapter tags.old }
    ensures on_tags { AreOnTags traced.now.stack.adapter tags.new }
    ensures follows { FollowsDevice traced.now.stack.adapter label.now journal.old journal.new }
{
    match label {
        DeviceLabel::Start { tag, .. } => arm_tag(traced, tags, journal, words, *tag),
        DeviceLabel::Return { piece, .. } => disarm_piece(journal, *piece),
        DeviceLabel::Fault { piece } => disarm_piece(journal, *piece),
        DeviceLabel::Act { .. } => {}
    }
}

/// Has the journal follow a label. What was reserved for a request that was answered is given back.
fn settle_label<M: Medium, N: BookNaming>(
    traced: &Traced<BookedAdapter, N>,
    tags: &mut Tags<N>,
    journal: &mut Journal<M, N>,
    words: &sector_journal::History<N>,
    label: &Label,
)
    requires on_tags { AreOnTags traced.now.stack.adapter tags.old }
    ensures on_tags { AreOnTags traced.now.stack.adapter tags.new }
    ensures follows { Follows traced.now.stack.adapter label.now journal.old journal.new }
{
    match label {
        Label::Device(label) => settle_device(traced, tags, journal, words, label),
        Label::Answer { number, .. } => journal.release(*number),
        _ => {}
    }
}

/// Has the journal follow the labels of the trace from a place on.
pub(crate) fn settle_all<M: Medium, N: BookNaming>(
    traced: &Traced<BookedAdapter, N>,
    tags: &mut Tags<N>,
    journal: &mut Journal<M, N>,
    words: &sector_journal::History<N>,
    from: usize,
)
    requires on_tags { AreOnTags traced.now.stack.adapter tags.old }
    ensures on_tags { AreOnTags traced.now.stack.adapter tags.new }
    ensures follows { FollowsOn traced.now.stack.adapter traced.now.entries from journal.old journal.new }
{
    for place in from..traced.len() {
        settle_label(traced, tags, journal, words, &traced.entry(place).label);
    }
}
