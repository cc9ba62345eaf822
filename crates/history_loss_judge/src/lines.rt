//! What lines tell.

use machine::Label;

/// A line of a history over sessions.
#[derive(Drop)]
pub(crate) enum Line {
    /// A call or an answer.
    Told(Label),
    /// Power was lost.
    Lost,
    /// The process ended.
    Ended,
}
