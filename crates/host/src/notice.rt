//! The labels of which a keeper has receipts.

ghost use Rattle.std.specs.Prelude.{◌≡◌, ◌<◌, ◌≤◌, ◌+◌, ◌^◌, IfNone, IfSome};
ghost use Rattle.host.specs.Keepers.{FindsNotice, HasNone, IsNoticed, is_notice, label_of, notice_of, request_by};
ghost use Rattle.host.specs.Receipts.{AreBelow};

use crate::kept::KeptBook;
use crate::name::HostNaming;
use chronicle::{Claims, History};
use machine::Label;
use pnp::Request;
use traced::TraceEntry;

/// A label of which a keeper has receipts.
#[derive(Clone, Copy)]
pub(crate) enum Notice {
    Pause,
    Remove,
    Surprise,
    Removed,
}

/// A call of a keeper that may take the device away (WDK: minor functions of IRP_MJ_PNP).
#[derive(Clone, Copy)]
pub(crate) enum Minor {
    QueryRemove,
    Remove,
    SurpriseRemove,
}

impl Minor {
    /// The call as a request of the PnP manager.
    pub(crate) fn request(self) -> Request
        ensures { result ≡ request_by self }
    {
        match self {
            Minor::QueryRemove => Request::QueryRemove,
            Minor::Remove => Request::Remove,
            Minor::SurpriseRemove => Request::SurpriseRemove,
        }
    }

    /// The label that it tells first where it is accepted.
    pub(crate) fn notice(self) -> Notice
        ensures { result ≡ notice_of self }
    {
        match self {
            Minor::QueryRemove => Notice::Pause,
            Minor::Remove => Notice::Remove,
            Minor::SurpriseRemove => Notice::Surprise,
        }
    }
}

impl Notice {
    // Whether the label is this one.
    fn is(self, label: &Label) -> bool
        ensures { result ≡ is_notice self label.now }
    {
        match self {
            Notice::Pause => matches!(label, Label::Pause),
            Notice::Remove => matches!(label, Label::Remove),
            Notice::Surprise => matches!(label, Label::Surprise),
            Notice::Removed => matches!(label, Label::Removed),
        }
    }
}

// The place of the first such label from a place of the trace on.
fn find_notice<N: HostNaming>(book: &KeptBook<N>, notice: Notice, from: usize) -> Option<usize>
    ensures finds { FindsNotice notice from book.now.traced.entries result }
    ensures fits { IfSome result (λ place. place + 1 < 2 ^ 64) }
{
    for place in from..book.len() {
        if notice.is(&book.entry(place).label) {
            return Some(place);
        }
    }
    None
}

/// A claim on the first such label from a place of the trace on, if there is one, and its place.
pub(crate) fn claim_notice<N: HostNaming>(
    history: &History<TraceEntry, N>,
    book: &mut KeptBook<N>,
    notice: Notice,
    from: usize,
) -> Option<(usize, Claims<TraceEntry, N>)>
    ensures same { book.new ≡ book.old }
    ensures noticed { IfSome result (λ r. IsNoticed from (label_of notice) r.1) }
    ensures place { IfSome result (λ r. (from ≤ r.0) × AreBelow (r.0 + 1) r.1) }
    ensures fits { IfSome result (λ r. r.0 + 1 < 2 ^ 64) }
    ensures none { IfNone result (HasNone notice from book.old.traced.entries) }
{
    book.shows_whole();
    let place = find_notice(book, notice, from)?;
    let claim = book.claim(history, place);
    Some((place, claim))
}
