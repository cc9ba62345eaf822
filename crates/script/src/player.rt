//! Lines of a script, carried out by a stack, and what comes of each in print.

ghost use Rattle.std.specs.Prelude.{◌≡◌, ◌++◌, [], IfErr, IsTrue, MatchOption, MatchResult, OnOk, replicate};
ghost use Rattle.std.specs.Io.KnownBytes.{Appends, Keeps, append_known};
ghost use Rattle.io_manager.specs.declared.Refusal.TheVariants.{InsufficientResources};
ghost use Rattle.io_manager.specs.declared.Reply.TheVariants.{Refused};
ghost use Rattle.script.specs.declared.Style.TheVariants.{Trace};
ghost use Rattle.script.specs.Events.{AreNamed, IsEventOf, IsReplyTo, MovesBytes};
ghost use Rattle.script.specs.Faults.{IsPrintFault};
ghost use Rattle.script.specs.Printing.{labels_text};
ghost use Rattle.script.specs.Trace.{IsAllTaken, IsTold, Prints, all_taken, line_text};
ghost use Rattle.script.specs.inside.Answers.{GoWith, IsCarriedOutFor, Tells, answered_by, asked_by, left_by};

use crate::buffers::Spare;
use crate::given::Given;
use crate::printing::{write_event, write_label, write_reply};
use crate::{Line, Order, ScriptFault, Style};
use adapter::Adapter;
use compose::{Asked, Event, Handle, Refusal, Reply, Stack};
use machine::{Kind, Label};
use sector::Bytes;
use std::alloc::{AllocError, Global};
use std::io;
use std::io::Write;

/// How many tags an adapter can have.
const TAGS: u64 = 32;

/// How many bytes of text are written at once.
const BLOCK: usize = 65_536;

/// How lines are told, the text that waits for the writer, and buffers for the bytes of further calls.
#[derive(Drop)]
struct Telling {
    style: Style,
    text: Vec<u8>,
    spare: Spare,
}

/// Carries the lines of a script out, one after the other, and writes what comes of each, in blocks. What is left of the
/// text is written behind the last line, also where a line ends in want of memory. The writer is flushed only where no
/// fault came.
///
/// All labels and answers of the stack have to be taken. The lines can name the handles and the requests that they
/// open, and no others.
///
/// # Errors
///
/// [`ScriptFault::NoMemory`], or [`ScriptFault::OutputFailed`]; the lines before may have been carried out.
pub fn play<A: Adapter, W: Write>(
    alloc: Global,
    stack: &mut Stack<A>,
    lines: &[Line<'_>],
    style: Style,
    out: &mut W,
) -> Result<(), ScriptFault>
    requires taken { IsAllTaken stack.old }
    requires bytes { style ≡ Trace → IsTrue stack.old.rules.keeps_bytes }
    ensures text { OnOk result (Prints (W.contents out.old) (W.contents out.new) (λ text. IsTold style stack.old lines.now text stack.new)) }
    ensures fault { IfErr result IsPrintFault }
{
    let text = Vec::with_capacity(alloc, BLOCK)?;
    let spare = Spare::with_places(alloc)?;
    let mut telling = Telling { style, text, spare };
    match play_lines(alloc, stack, lines, &mut telling, out) {
        Ok(()) => {
            write_out(&mut telling.text, out)?;
            out.flush()?;
            Ok(())
        }
        Err(fault) => {
            let _ = write_out(&mut telling.text, out);
            Err(fault)
        }
    }
}

/// Gives a text that waited to the writer, and begins a new one.
fn write_out<W: Write>(text: &mut Vec<u8>, out: &mut W) -> io::Result<()>
    ensures written { OnOk result (Appends (W.contents out.old) (W.contents out.new) text.old.items) }
    ensures none_waits { text.new.items ≡ [] }
{
    let written = out.write_all(text.as_slice());
    text.clear();
    written
}

/// Gives a text that waited to the writer once it fills a block.
fn write_block<W: Write>(text: &mut Vec<u8>, out: &mut W) -> io::Result<()>
    ensures { OnOk result (Keeps (append_known (W.contents out.old) text.old.items) (append_known (W.contents out.new) text.new.items)) }
{
    if text.len() < BLOCK {
        return Ok(());
    }
    write_out(text, out)
}

/// Carries the lines out. What the writer has not got yet stands in the text.
fn play_lines<A: Adapter, W: Write>(
    alloc: Global,
    stack: &mut Stack<A>,
    lines: &[Line<'_>],
    telling: &mut Telling,
    out: &mut W,
) -> Result<(), ScriptFault>
    requires taken { IsAllTaken stack.old }
    requires bytes { telling.old.style ≡ Trace → IsTrue stack.old.rules.keeps_bytes }
    ensures text { OnOk result (Prints (append_known (W.contents out.old) telling.old.text.items) (append_known (W.contents out.new) telling.new.text.items) (λ text. IsTold telling.old.style stack.old lines.now text stack.new)) }
    ensures fault { IfErr result IsPrintFault }
{
    let style = telling.style;
    let mut given = Given::new(alloc);
    for line in lines {
        write_block(&mut telling.text, out)?;
        let reply = carry_out(alloc, stack, line.order, &given, &mut telling.spare);
        given.keep(&reply)?;
        tell(stack, style, line, &reply, telling)?;
    }
    Ok(())
}

/// Carries out what a line asks for, and shows which answers go with the labels.
fn carry_out<A: Adapter>(
    alloc: Global,
    stack: &mut Stack<A>,
    order: Order,
    given: &Given,
    spare: &mut Spare,
) -> Reply
    requires taken { IsAllTaken stack.old }
    requires named { AreNamed given.now }
    ensures { Tells given.now order stack.old result stack.new }
{
    compose::steps_keep_rules();
    compose::steps_leave_answers();
    let reply = step(alloc, stack, order, given, spare);
    stack.shows_whole();
    reply
}

/// Carries out what a line asks for. A call that is refused before it asks for memory makes no bytes, and its reply
/// gives none back.
fn step<A: Adapter>(
    alloc: Global,
    stack: &mut Stack<A>,
    order: Order,
    given: &Given,
    spare: &mut Spare,
) -> Reply
    requires taken { IsAllTaken stack.old }
    requires named { AreNamed given.now }
    ensures { IsCarriedOutFor given.now order stack.old result stack.new }
{
    if let Some(reply) = refused(alloc, stack, order, given) {
        return reply;
    }
    match event_from(alloc, order, given, spare) {
        Ok(event) => stack.step(alloc, event),
        Err(reply) => reply,
    }
}

/// Writes what came of a line behind the text, and takes all labels and the answers that go with them.
fn tell<A: Adapter>(
    stack: &mut Stack<A>,
    style: Style,
    line: &Line<'_>,
    reply: &Reply,
    telling: &mut Telling,
) -> Result<(), AllocError>
    requires answers { GoWith stack.old.labels stack.old.answers }
    requires bytes { style ≡ Trace → IsTrue stack.old.rules.keeps_bytes }
    ensures taken { OnOk result (stack.new ≡ all_taken stack.old) }
    ensures text { OnOk result (telling.new.text.items ≡ telling.old.text.items ++ line_text style line.now reply.now stack.old.labels) }
{
    match style {
        Style::Transcript => {
            write_event(&mut telling.text, line.text)?;
            write_reply(&mut telling.text, reply)?;
            write_labels(stack, style, telling)
        }
        Style::Trace => write_labels(stack, style, telling),
    }
}

/// Writes all labels that a stack has not given yet behind a text, and takes the answers that go with them.
fn write_labels<A: Adapter>(
    stack: &mut Stack<A>,
    style: Style,
    telling: &mut Telling,
) -> Result<(), AllocError>
    requires answers { GoWith stack.old.labels stack.old.answers }
    requires bytes { style ≡ Trace → IsTrue stack.old.rules.keeps_bytes }
    ensures taken { OnOk result (stack.new ≡ all_taken stack.old) }
    ensures text { OnOk result (telling.new.text.items ≡ telling.old.text.items ++ labels_text style stack.old.labels) }
{
    while let Some(mut label) = stack.take_shown() {
        give_bytes(stack, &mut label);
        write_label(&mut telling.text, style, &label)?;
        telling.spare.keep(label);
    }
    Ok(())
}

/// Gives the label of an answer the bytes of the waiting answer that goes with it, if one does, and takes that. Other
/// labels stay as they are.
#[tactic(auto, using(crate::proofs::PrintedLabels::answer_taken))]
fn give_bytes<A: Adapter>(stack: &mut Stack<A>, label: &mut Label)
    ensures taken { stack.new ≡ record stack.old { answers = left_by label.old stack.old.answers } }
    ensures label { label.new ≡ answered_by label.old stack.old.answers }
{
    if let Label::Answer { bytes, .. } = label {
        if let Some(answer) = stack.take_answer() {
            *bytes = answer.bytes;
        }
    }
}

/// Carries out a read or a write that is refused before it asks for memory, without its bytes.
fn refused<A: Adapter>(
    alloc: Global,
    stack: &mut Stack<A>,
    order: Order,
    given: &Given,
) -> Option<Reply>
    requires taken { IsAllTaken stack.old }
    requires named { AreNamed given.now }
    ensures { MatchOption result (stack.new ≡ stack.old) (λ reply. IsCarriedOutFor given.now order stack.old reply stack.new) }
{
    let (handle, asked) = asked(order, given)?;
    let refusal = stack.refuse(alloc, handle, asked)?;
    Some(Reply::Refused {
        refusal,
        bytes: Bytes::new(Vec::new(alloc)),
    })
}

/// What a read or a write asks for on its handle.
fn asked(order: Order, given: &Given) -> Option<(Handle, Asked)>
    requires { AreNamed given.now }
    ensures { result ≡ asked_by given.now order }
{
    match order {
        Order::Read {
            handle,
            offset,
            length,
        } => Some((
            given.handle(handle),
            Asked {
                kind: Kind::Read,
                offset,
                length,
                through: false,
            },
        )),
        Order::Write {
            handle,
            offset,
            length,
            through,
            ..
        } => Some((
            given.handle(handle),
            Asked {
                kind: Kind::Write,
                offset,
                length,
                through,
            },
        )),
        _ => None,
    }
}

/// The event that an order asks for, on the handles and the requests that were given out. A number that was not given
/// out is a handle or a request that isn't open.
///
/// # Errors
///
/// The reply to an order that can't be an event: memory for its bytes was refused, or no adapter has such a tag.
pub fn event(alloc: Global, order: Order, given: &Given) -> Result<Event, Reply>
    requires { AreNamed given.now }
    ensures { MatchResult result (IsEventOf given.now order) (IsReplyTo order) }
{
    event_from(alloc, order, given, &mut Spare::new(alloc))
}

/// Does what [`event`] says, with bytes in buffers that were kept.
///
/// # Errors
///
/// Those of [`event`].
fn event_from(alloc: Global, order: Order, given: &Given, spare: &mut Spare) -> Result<Event, Reply>
    requires { AreNamed given.now }
    ensures { MatchResult result (IsEventOf given.now order) (IsReplyTo order) }
{
    match order {
        Order::Read {
            handle,
            offset,
            length,
        } => Ok(Event::Read {
            handle: given.handle(handle),
            offset,
            buffer: filled(alloc, 0, length, spare)?,
        }),
        Order::Write {
            handle,
            offset,
            length,
            byte,
            through,
        } => Ok(Event::Write {
            handle: given.handle(handle),
            offset,
            bytes: filled(alloc, byte, length, spare)?,
            through,
        }),
        _ => plain_event(order, given),
    }
}

/// Makes this many equal bytes.
///
/// # Errors
///
/// The reply to an order for whose bytes memory was refused.
fn filled(alloc: Global, byte: u8, length: u64, spare: &mut Spare) -> Result<Bytes, Reply>
    ensures { MatchResult result (λ bytes. bytes ≡ replicate length byte) (λ reply. reply ≡ Refused InsufficientResources []) }
{
    match spare.filled(alloc, byte, length as usize) {
        Ok(bytes) => Ok(Bytes::new(bytes)),
        Err(_) => Err(Reply::Refused {
            refusal: Refusal::InsufficientResources,
            bytes: Bytes::new(Vec::new(alloc)),
        }),
    }
}

/// The event that an order asks for which moves no bytes.
///
/// # Errors
///
/// The reply to an order whose tag no adapter has.
fn plain_event(order: Order, given: &Given) -> Result<Event, Reply>
    requires named { AreNamed given.now }
    requires moves_none { ¬ (MovesBytes order) }
    ensures { MatchResult result (IsEventOf given.now order) (IsReplyTo order) }
{
    match order {
        Order::Read { .. } | Order::Write { .. } => unreachable!(),
        Order::Open { partition } => Ok(Event::Open {
            partition: u8::try_from(partition).unwrap_or(u8::MAX),
        }),
        Order::Close { handle } => Ok(Event::Close {
            handle: given.handle(handle),
        }),
        Order::Flush { handle } => Ok(Event::Flush {
            handle: given.handle(handle),
        }),
        Order::Cancel { handle, request } => Ok(Event::CancelIoEx {
            handle: given.handle(handle),
            target: given.target(request),
        }),
        Order::Mark { request } => Ok(Event::Mark { number: request }),
        Order::QueryRemove => Ok(Event::QueryRemove),
        Order::CancelRemove => Ok(Event::CancelRemove),
        Order::Remove => Ok(Event::Remove),
        Order::SurpriseRemove => Ok(Event::SurpriseRemove),
        Order::Act { tag } if tag < TAGS => Ok(Event::Act { tag: tag as u8 }),
        Order::Finish { tag } if tag < TAGS => Ok(Event::Finish { tag: tag as u8 }),
        Order::Act { .. } | Order::Finish { .. } => Err(Reply::Ignored),
        Order::Reset => Ok(Event::Reset),
    }
}
