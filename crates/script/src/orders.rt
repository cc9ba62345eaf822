//! A script: one event a line.

mod cuts;
mod words;

ghost use Rattle.std.specs.Prelude.{◌≡◌, [], ◌∷◌, IfErr, IfOk, codes};
ghost use Rattle.std.specs.List.{AllZip};
ghost use Rattle.script.specs.Script.{AreEvents, Asks, Finds, IsFaultOf, Number, Spells, is_event, lines_of, request_of, through_of, trimmed, words_of};

use crate::orders::cuts::first_line;
use crate::orders::words::Words;
use crate::{Line, Order, ScriptFault};
use std::alloc::Global;

/// Reads the lines of a script that ask for an event, in order.
///
/// # Errors
///
/// [`ScriptFault::BadLine`] with the number of the first line, from 1, that is neither empty, nor a remark, nor an
/// event; [`ScriptFault::NoMemory`].
pub fn lines(alloc: Global, text: &str) -> Result<Vec<Line<'_>>, ScriptFault>
    ensures events { IfOk result (λ lines. AreEvents (lines_of text.now) lines.items) }
    ensures fault { IfErr result (IsFaultOf text.now) }
{
    let mut lines = Vec::new(alloc);
    let mut number: u64 = 0;
    let mut rest = text;
    while !rest.is_empty() {
        let (line, behind) = first_line(rest);
        rest = behind;
        number = number.saturating_add(1);
        let text = trimmed(line);
        if !is_event(text) {
            continue;
        }
        let Some(order) = order_of(text) else {
            return Err(ScriptFault::BadLine { line: number });
        };
        let Ok(()) = lines.push(Line { text, order }) else {
            return Err(ScriptFault::NoMemory);
        };
    }
    Ok(lines)
}

/// A text without the spaces at its ends.
fn trimmed(text: &str) -> &str
    ensures { result.now ≡ trimmed text.now }
{
    text.trim_start_matches(' ').trim_end_matches(' ')
}

/// Whether a line is to be an event: it is neither empty nor a remark.
fn is_event(text: &str) -> bool
    ensures { result ≡ is_event text.now }
{
    !text.is_empty() && !text.starts_with('#')
}

/// Returns what a line asks for; none where it is no event.
fn order_of(text: &str) -> Option<Order>
    ensures { Finds (Asks (words_of text.now)) result }
{
    let mut words = Words::new(text);
    let verb = words.word()?;
    order_by(verb, words)
}

/// Returns what a line of this verb asks for. The verbs of most lines are looked for first.
fn order_by(verb: &str, words: Words<'_>) -> Option<Order>
    ensures { Finds (Asks (verb.now ∷ words.entry)) result }
{
    match verb {
        "act" => Some(Order::Act {
            tag: last_number(words)?,
        }),
        "finish" => Some(Order::Finish {
            tag: last_number(words)?,
        }),
        "read" => read(words),
        "write" => write(words),
        "open" => Some(Order::Open {
            partition: last_number(words)?,
        }),
        "close" => Some(Order::Close {
            handle: last_number(words)?,
        }),
        "flush" => Some(Order::Flush {
            handle: last_number(words)?,
        }),
        "cancel" => cancel(words),
        "mark" => Some(Order::Mark {
            request: last_number(words)?,
        }),
        "query-remove" => alone(words, Order::QueryRemove),
        "cancel-remove" => alone(words, Order::CancelRemove),
        "remove" => alone(words, Order::Remove),
        "surprise-remove" => alone(words, Order::SurpriseRemove),
        "reset" => alone(words, Order::Reset),
        _ => None,
    }
}

/// An order of no arguments, where no word is left.
fn alone(words: Words<'_>, order: Order) -> Option<Order>
    ensures { Finds (λ found. (found ≡ order) × AllZip Spells words.entry []) result }
{
    words.is_at_end().then_some(order)
}

/// The number that is the one word left.
fn last_number(mut words: Words<'_>) -> Option<u64>
    ensures { Finds (λ n. AllZip Spells words.entry (Number n ∷ [])) result }
{
    let number = words.number()?;
    words.is_at_end().then_some(number)
}

/// Returns what the words after `read` ask for.
fn read(mut words: Words<'_>) -> Option<Order>
    ensures { Finds (Asks (codes "read" ∷ words.entry)) result }
{
    let order = Order::Read {
        handle: words.number()?,
        offset: words.number()?,
        length: words.length()?,
    };
    words.is_at_end().then_some(order)
}

/// Returns what the words after `write` ask for.
fn write(mut words: Words<'_>) -> Option<Order>
    ensures { Finds (Asks (codes "write" ∷ words.entry)) result }
{
    Some(Order::Write {
        handle: words.number()?,
        offset: words.number()?,
        length: words.length()?,
        byte: words.byte()?,
        through: through(words)?,
    })
}

/// Whether a write goes through: `through` is the one word left, or no word is left.
fn through(mut words: Words<'_>) -> Option<bool>
    ensures { Finds (λ through. AllZip Spells words.entry (through_of through)) result }
{
    match words.word() {
        None => Some(false),
        Some("through") => words.is_at_end().then_some(true),
        Some(_) => None,
    }
}

/// Returns what the words after `cancel` ask for.
fn cancel(mut words: Words<'_>) -> Option<Order>
    ensures { Finds (Asks (codes "cancel" ∷ words.entry)) result }
{
    Some(Order::Cancel {
        handle: words.number()?,
        request: last_request(words)?,
    })
}

/// The request whose number is the one word left, or no request where no word is left.
fn last_request(words: Words<'_>) -> Option<Option<u64>>
    ensures { Finds (λ request. AllZip Spells words.entry (request_of request)) result }
{
    if words.is_at_end() {
        return Some(None);
    }
    Some(Some(last_number(words)?))
}
