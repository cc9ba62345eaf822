//! What is asked of a thread.

use srb::Srb;

/// A piece that may act, with an SRB of its own.
#[derive(Debug, Drop)]
pub struct Ask {
    pub tag: u8,
    pub piece: u128,
    pub srb: Srb,
}
