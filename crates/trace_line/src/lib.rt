//! A line of a trace, and runs of lines.
//!
//! A [`Line`] is a label of the sector machine. Behind a start it may tell the request that the piece is of. `LineStep`
//! says which steps go by a line: those by its label, where the piece that starts is of the request that the line
//! tells. A `LineRun` is a run by lines.
//!
//! # Promises
//!
//! Definitions alone.
#![tactic(auto)]

use machine::Label;

/// A line of a trace.
#[derive(Debug, Drop)]
pub struct Line {
    pub label: Label,
    /// Behind a start the number of the request that its piece is of, where the line tells it (WDK: OriginalRequest of
    /// a SCSI_REQUEST_BLOCK). Behind any other label it tells nothing.
    pub owner: Option<u64>,
}
