//! Who is told of the labels of a stack, step by step.

ghost use Rattle.std.specs.Prelude.{◌≡◌, ◌++◌, false, true, [], IsFalse, IsTrue, MatchOption, None};
ghost use Rattle.std.specs.Io.KnownBytes.{Appends};
ghost use Rattle.label_text.specs.Lines.{line_end, line_of, owned};
ghost use Rattle.serving.specs.Traces.{Wrote, shown_lines};

use compose::{Event, Reply, Stack};
use label_text::write_line;
use machine::Label;
use miniport::BookedAdapter;
use std::alloc::Global;
use std::io::Write;
use std::marker::Model;

/// Who is told of the steps of a stack.
pub trait Pen {
    ghost use Rattle.std.specs.Prelude.{◌≡◌, [], Bool, IsTrue};
    ghost use Rattle.serving.specs.Traces.{StepsFor, TraceView};

    /// Whether the stack keeps the labels of its steps for it, with their bytes.
    ghost keeps: { Bool };

    /// What it wrote so far.
    ghost trace: { Self → TraceView };

    /// An adapter for a stack of which it is told, of one that keeps the bytes of labels. No label waits.
    fn adapter(&self, adapter: BookedAdapter) -> BookedAdapter
        requires keeps { IsTrue adapter.shown.keeps_bytes }
        requires none { adapter.shown.labels ≡ [] }
        ensures same { result ≡ record adapter { shown = record adapter.shown { keeps_bytes = keeps } } };

    /// Has the stack carry out one event, and takes the labels.
    fn step(&mut self, stack: &mut Stack<BookedAdapter>, alloc: Global, event: Event) -> Reply
        requires taken { stack.old.labels ≡ [] }
        ensures told { StepsFor keeps stack.old (trace self.old) event result stack.new (trace self.new) }
        ensures taken { stack.new.labels ≡ [] };
}

/// Nobody is told.
#[derive(Debug, Clone, Copy, Drop)]
pub struct Silent;

impl Pen for Silent {
    ghost use Rattle.std.specs.Prelude.{false, None};

    ghost keeps = { false };

    ghost trace = { λ _. record { whole = false; bytes = None } };

    fn adapter(&self, adapter: BookedAdapter) -> BookedAdapter {
        adapter.noting()
    }

    fn step(&mut self, stack: &mut Stack<BookedAdapter>, alloc: Global, event: Event) -> Reply {
        stack.step_untraced(alloc, event)
    }
}

/// A writer that gets the line of each label, those of a step before anything comes of them.
#[derive(Drop)]
pub struct Trace<W: Write + Drop> {
    out: W,
    /// The lines of a step.
    text: Vec<u8>,
    /// Whether the writer took all so far. If not, it gets no more.
    whole: bool,
}

impl<W: Write + Drop> Model for Trace<W> {
    ghost use Rattle.serving.specs.Traces.{TraceView};

    ghost Value = { TraceView };

    ghost view = { λ t. record { whole = t.whole; bytes = W.contents t.out } };
}

impl<W: Write + Drop> Trace<W> {
    /// A trace behind what the writer has.
    pub fn new(alloc: Global, out: W) -> Trace<W>
        ensures { result ≡ record { whole = true; bytes = W.contents out } }
    {
        Trace {
            out,
            text: Vec::new(alloc),
            whole: true,
        }
    }

    /// Gives the writer back where it took all. It is not flushed.
    pub fn into_writer(self) -> Option<W>
        ensures { MatchOption result (IsFalse self.whole) (λ out. IsTrue self.whole × (W.contents out ≡ self.bytes)) }
    {
        let Trace { out, whole, .. } = self;
        if whole { Some(out) } else { None }
    }

    /// Writes the lines of all labels of the last step, and takes these.
    fn tell(&mut self, stack: &mut Stack<BookedAdapter>)
        ensures taken { stack.new ≡ record stack.old { labels = [] } }
        ensures wrote { IsTrue stack.old.rules.keeps_bytes → Wrote self.old stack.old.labels self.new }
    {
        self.text.clear();
        let all = write_lines(&mut self.text, stack);
        self.whole = put(&mut self.out, self.text.as_slice(), self.whole, all);
    }
}

/// Gives a writer that took all so far a text that has all, and returns whether it was so, and the writer took it.
fn put<W: Write>(out: &mut W, text: &[u8], whole: bool, all: bool) -> bool
    ensures { IsTrue result → IsTrue whole × IsTrue all × Appends (W.contents out.old) (W.contents out.new) text.now }
{
    if !whole {
        return false;
    }
    if !all {
        return false;
    }
    out.write_all(text).is_ok()
}

/// Writes the lines of all labels of the last step behind a text, and takes these. Returns whether there was memory for
/// all.
fn write_lines(text: &mut Vec<u8>, stack: &mut Stack<BookedAdapter>) -> bool
    ensures taken { stack.new ≡ record stack.old { labels = [] } }
    ensures text { IsTrue result → text.new.items ≡ text.old.items ++ shown_lines stack.old.rules.keeps_bytes stack.old.labels }
{
    let mut all = true;
    while let Some(label) = stack.take_shown() {
        all = write_one(text, &label, all);
    }
    all
}

/// Writes the line of a label behind a text in which all those before it stand, and returns whether it stands there.
fn write_one(text: &mut Vec<u8>, label: &Label, all: bool) -> bool
    ensures { IsTrue result → IsTrue all × (text.new.items ≡ text.old.items ++ (line_of (owned label.now None) ++ line_end)) }
{
    if !all {
        return false;
    }
    write_line(text, label, None).is_ok()
}

impl<W: Write + Drop> Pen for Trace<W> {
    ghost use Rattle.std.specs.Prelude.{true};

    ghost keeps = { true };

    ghost trace = { λ t. t };

    fn adapter(&self, adapter: BookedAdapter) -> BookedAdapter {
        adapter
    }

    fn step(&mut self, stack: &mut Stack<BookedAdapter>, alloc: Global, event: Event) -> Reply {
        let reply = stack.step(alloc, event);
        self.tell(stack);
        reply
    }
}
