//! How far a check came.

use std::io::Write;

/// Where it is told how far a check came, on a line of its own after each `every` labels that are a run, or of a history were read.
#[derive(Drop)]
pub struct Progress<W> {
    /// The writer of these lines. What it doesn't take is left out.
    pub out: W,
    /// How many labels are between two lines. With 0 no line is written.
    pub every: u64,
}

impl<W: Write> Progress<W> {
    /// Says that this many labels are a run, where a line is due.
    pub(crate) fn say(&mut self, labels: u64) {
        if labels == 0 || self.every == 0 || labels % self.every != 0 {
            return;
        }
        let Ok(()) = writeln!(self.out, "stackjudge: {labels} labels, legal so far") else {
            return;
        };
    }

    /// Says that this many labels were read, where a line is due.
    pub(crate) fn say_read(&mut self, labels: u64) {
        if labels == 0 || self.every == 0 || labels % self.every != 0 {
            return;
        }
        let Ok(()) = writeln!(self.out, "stackjudge: {labels} labels read") else {
            return;
        };
    }
}
