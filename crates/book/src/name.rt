//! The name of a book and its journal.

use std::marker::Brand;

/// Names one book and its journal, for contracts alone: what the book was opened with, and the histories of both. A
/// function that is generic in it requires that what it is handed is the one named; its caller passes `Brand`.
pub trait BookNaming: traced::TraceNaming + sector_journal::Naming {}

impl BookNaming for Brand {}
