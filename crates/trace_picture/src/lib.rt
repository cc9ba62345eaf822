//! A trace to look at: a picture of it, as an SVG or as Trace Event JSON.
//!
//! [`Picture::take`] is given the labels of a trace one after the other, legal or not, and keeps their numbers and no
//! bytes. [`Picture::write_svg`] writes one self-contained SVG without scripts: the lines of the trace run to the
//! right, a row a tag with its pieces, a row a request (shared above 400 lines) with its call, pieces, cancel and
//! answer, and bands for pauses and removals. A label that broke a rule has a ring ([`Picture::blame`]). Not all lines have
//! to be shown ([`Picture::show`]). [`Picture::write_events`] writes what Perfetto and Chrome's tracing page open.
//!
//! # Promises
//!
//! Each call returns, whatever the labels, and want of memory is told. What is written is only tested.
#![tactic(auto)]

mod command;
mod events;
mod facts;
mod layout;
mod owners;
mod svg;
mod words;

use facts::{Blamed, Facts};
use layout::{Layout, Scene};
use machine::Label;
use std::alloc::{AllocError, Global};
use std::io;
use std::io::Write;

/// What a picture shows, of the labels that it was given.
#[derive(Drop)]
pub struct Picture {
    facts: Facts,
}

impl Picture {
    /// A picture of no label.
    pub fn new(alloc: Global) -> Picture {
        Picture {
            facts: Facts::new(alloc),
        }
    }

    /// Adds the next label of the trace, which stands in this line of its text. Behind a start the line may name the request
    /// of the piece; where it doesn't, that is guessed.
    ///
    /// # Errors
    ///
    /// [`AllocError`] where memory was refused; the label may be missing then.
    pub fn take(&mut self, line: u64, label: &Label, owner: Option<u64>) -> Result<(), AllocError> {
        self.facts.take(line, label, owner)
    }

    /// Tells that the label of a line broke a rule, and what is said of it, in lines.
    pub fn blame(&mut self, line: u64, said: String) {
        self.facts.blamed = Some(Blamed { line, said });
    }

    /// Has only what happens from one line on to another shown.
    pub fn show(&mut self, first: u64, last: u64) {
        self.facts.shown = Some((first, last));
    }

    /// Writes the SVG. The writer is not flushed.
    ///
    /// # Errors
    ///
    /// The errors of the writer, and [`io::ErrorKind::OutOfMemory`].
    pub fn write_svg<W: Write>(&mut self, out: &mut W) -> io::Result<()> {
        owners::find_owners(&mut self.facts)?;
        let facts = &self.facts;
        let layout = &Layout::of(facts)?;
        svg::write_svg(out, Scene { facts, layout })
    }

    /// Writes the Trace Event JSON. The writer is not flushed.
    ///
    /// # Errors
    ///
    /// The errors of the writer, and [`io::ErrorKind::OutOfMemory`].
    pub fn write_events<W: Write>(&mut self, out: &mut W) -> io::Result<()> {
        owners::find_owners(&mut self.facts)?;
        let facts = &self.facts;
        let layout = &Layout::of(facts)?;
        events::write_events(out, Scene { facts, layout })
    }
}
