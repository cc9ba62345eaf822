//! Scripts, carried out by a stack or by what does as a stack does, and what they show.

ghost use Rattle.std.specs.Prelude.{◌≡◌, [], IfOk, IsTrue, OnOk};
ghost use Rattle.probe.specs.Exchange.{IsIdle};
ghost use Rattle.script.specs.Events.{AreNamed};

use crate::expect::{same, same_text};
use adapter::Adapter;
use compose::{Answer, Event, Refusal, Reply, RunStopped, Settings, Shown, Stack, StartFault};
use label_text::write_short_line;
use machine::Label;
use script::{Given, Line, Order, ScriptFault, event, lines, write_reply};
use std::alloc::{AllocError, Global};
use std::process::Abort;

/// What carries events out one by one, as a stack does.
pub(crate) trait Carrier {
    ghost use Rattle.std.specs.Prelude.{◌≡◌, ◌+◌, List, [], MatchOption, length};
    ghost use Rattle.machine.specs.declared.Label.{Label};

    /// The labels that were not taken yet.
    ghost labels: { Self → List Label };

    fn step(&mut self, alloc: Global, event: Event) -> Reply
        requires { labels self.old ≡ [] };

    /// Takes the earliest label, as memory has it.
    fn take_label(&mut self) -> Option<Label>
        ensures { MatchOption result ((labels self.old ≡ []) × (labels self.new ≡ [])) (λ _. length (labels self.old) ≡ length (labels self.new) + 1) };

    fn take_answer(&mut self) -> Option<Answer>
        ensures { labels self.new ≡ labels self.old };
}

impl<A: Adapter> Carrier for Stack<A> {
    ghost labels = { λ s. s.labels };

    fn step(&mut self, alloc: Global, event: Event) -> Reply {
        self.step(alloc, event)
    }

    fn take_label(&mut self) -> Option<Label> {
        self.take_shown()
    }

    fn take_answer(&mut self) -> Option<Answer> {
        self.take_answer()
    }
}

/// A stack over an adapter that it can be started over, of two requests at work and four open.
pub(crate) fn stack_on<A: Adapter>(
    rt: &impl Abort,
    alloc: Global,
    adapter: A,
) -> Result<Stack<A>, AllocError>
    requires idle { IsIdle (A.view adapter) }
    requires unasked { (A.view adapter).accepted ≡ 0 }
    ensures taken { IfOk result (λ stack. stack.labels ≡ []) }
    ensures bytes { IfOk result (λ stack. IsTrue stack.rules.keeps_bytes) }
{
    let keeps_bytes = adapter.keeps_bytes();
    assert!(rt; keeps_bytes);
    let settings = Settings {
        window: 2,
        open_requests: 4,
    };
    match Stack::start(alloc, adapter, settings) {
        Ok(stack) => Ok(stack),
        Err(why) => match why.fault {
            StartFault::NoMemory => Err(AllocError),
            fault => panic!(rt; "{fault:?}"),
        },
    }
}

/// The lines of a script.
fn lines_of<'a>(
    rt: &impl Abort,
    alloc: Global,
    script: &'a str,
) -> Result<Vec<Line<'a>>, AllocError> {
    match lines(alloc, script) {
        Ok(lines) => Ok(lines),
        Err(ScriptFault::NoMemory) => Err(AllocError),
        Err(fault) => panic!(rt; "{fault}"),
    }
}

fn is_refused_for_memory(reply: &Reply) -> bool {
    matches!(
        reply,
        Reply::Refused {
            refusal: Refusal::InsufficientResources,
            ..
        }
    )
}

/// Whether what was refused handed its buffer back as it was.
fn is_handed_back(order: Order, bytes: &[u8]) -> bool {
    let (length, byte) = match order {
        Order::Read { length, .. } => (length, 0),
        Order::Write { length, byte, .. } => (length, byte),
        _ => (0, 0),
    };
    bytes.len() as u64 == length && bytes.iter().all(|it| *it == byte)
}

/// Carries an order out once.
fn carry_once<S: Carrier>(
    alloc: Global,
    carrier: &mut S,
    order: Order,
    given: &Given,
) -> Result<Shown, AllocError>
    requires taken { S.labels carrier.old ≡ [] }
    requires named { AreNamed given.now }
    ensures { OnOk result (S.labels carrier.new ≡ []) }
{
    let Ok(event) = event(alloc, order, given) else {
        return Err(AllocError);
    };
    let reply = carrier.step(alloc, event);
    let mut labels = Vec::new(alloc);
    while let Some(label) = carrier.take_label() {
        labels.push(label)?;
    }
    Ok(Shown { reply, labels })
}

/// Carries an order out. What was refused for want of memory has told nothing, and is carried out again.
fn carry<S: Carrier>(
    rt: &impl Abort,
    alloc: Global,
    carrier: &mut S,
    order: Order,
    given: &Given,
) -> Result<Shown, AllocError>
    requires taken { S.labels carrier.old ≡ [] }
    requires named { AreNamed given.now }
    ensures { OnOk result (S.labels carrier.new ≡ []) }
{
    let shown = carry_once(alloc, carrier, order, given)?;
    if is_refused_for_memory(&shown.reply) {
        assert!(rt; shown.labels.is_empty());
        return carry_once(alloc, carrier, order, given);
    }
    Ok(shown)
}

/// Tells an answer as its label.
fn tell_answer(text: &mut Vec<u8>, answer: Answer) -> Result<(), AllocError> {
    let label = Label::Answer {
        number: answer.number,
        status: answer.status,
        information: answer.information,
        bytes: answer.bytes,
    };
    write_short_line(text, &label)
}

/// Tells a line, and what it showed.
fn tell(
    rt: &impl Abort,
    text: &mut Vec<u8>,
    line: &Line<'_>,
    shown: &Shown,
) -> Result<(), AllocError> {
    text.extend_from_slice(b"> ")?;
    text.extend_from_slice(line.text.as_bytes())?;
    text.extend_from_slice(b"\n")?;
    write_reply(text, &shown.reply)?;
    if let Reply::Refused { bytes, .. } = &shown.reply {
        same(rt, &is_handed_back(line.order, bytes.as_slice()), &true);
    }
    for label in &shown.labels {
        write_short_line(text, label)?;
    }
    Ok(())
}

/// Carries a script out line by line, and takes the answers that wait then. Returns what all this shows, as `stackrun`
/// prints it.
pub(crate) fn play<S: Carrier>(
    rt: &impl Abort,
    alloc: Global,
    carrier: &mut S,
    script: &str,
) -> Result<Vec<u8>, AllocError>
    requires { S.labels carrier.old ≡ [] }
{
    let lines = lines_of(rt, alloc, script)?;
    let mut text = Vec::new(alloc);
    let mut given = Given::new(alloc);
    for line in &lines {
        let shown = carry(rt, alloc, carrier, line.order, &given)?;
        given.keep(&shown.reply)?;
        tell(rt, &mut text, line, &shown)?;
    }
    for _ in 0..64 {
        match carrier.take_answer() {
            Some(answer) => tell_answer(&mut text, answer)?,
            None => break,
        }
    }
    Ok(text)
}

/// The events of a script that names no handle but the first.
fn events_of(alloc: Global, lines: &[Line<'_>]) -> Result<Vec<Event>, AllocError> {
    let given = Given::new(alloc);
    let mut events = Vec::new(alloc);
    for line in lines {
        let Ok(event) = event(alloc, line.order, &given) else {
            return Err(AllocError);
        };
        events.push(event)?;
    }
    Ok(events)
}

/// Carries such a script out in one run, which shows what is wanted, or a beginning of it where memory was refused.
pub(crate) fn run<A: Adapter>(
    rt: &impl Abort,
    alloc: Global,
    stack: &mut Stack<A>,
    script: &str,
    wanted: &[u8],
) -> Result<(), AllocError>
    requires taken { stack.old.labels ≡ [] }
    requires bytes { IsTrue stack.old.rules.keeps_bytes }
{
    let lines = lines_of(rt, alloc, script)?;
    let shown = match stack.run(alloc, events_of(alloc, lines.as_slice())?) {
        Ok(shown) => shown,
        Err(RunStopped { shown, .. }) => shown,
    };
    let mut text = Vec::new(alloc);
    for (line, shown) in lines.iter().zip(shown.iter()) {
        if is_refused_for_memory(&shown.reply) {
            return Err(AllocError);
        }
        tell(rt, &mut text, line, shown)?;
        same(rt, &wanted.starts_with(text.as_slice()), &true);
    }
    if shown.len() < lines.len() {
        return Err(AllocError);
    }
    same_text(rt, text.as_slice(), wanted);
    Ok(())
}
