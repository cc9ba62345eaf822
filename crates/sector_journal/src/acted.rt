//! What an act left in the journal.

use srb::Entry;

/// What an act did, and the number of the arming by which its piece acted.
#[derive(Debug, Drop)]
pub struct Entered {
    /// The number of the arming among all, from 0.
    pub arming: u64,
    pub entry: Entry,
}
