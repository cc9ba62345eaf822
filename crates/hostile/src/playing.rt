//! Runs of a stack, and what they tell.

ghost use Rattle.std.specs.Prelude.{◌≡◌, [], OnOk};
ghost use Rattle.probe.specs.Exchange.{IsIdle};

use crate::fault::HostileFault;
use crate::steps::{Given, Step};
use compose::{Answer, Reply, Settings, Stack, StartFault};
use machine::Label;
use miniport::Adapter;
use std::alloc::{AllocError, Global};

/// What a run told.
#[derive(Drop)]
pub struct Told {
    /// Whether the stack started.
    pub is_started: bool,
    /// The labels of all steps, in order.
    pub labels: Vec<Label>,
    /// Whether the answers that were taken after each step are those of its labels.
    pub fits: bool,
}

/// Plays the steps on a stack over an adapter that nothing was asked of.
pub fn play<A: Adapter>(
    alloc: Global,
    adapter: A,
    settings: Settings,
    steps: &[Step],
) -> Result<Told, HostileFault>
    requires idle { IsIdle (A.view adapter) }
    requires unasked { (A.view adapter).accepted ≡ 0 }
{
    let mut told = Told {
        is_started: false,
        labels: Vec::new(alloc),
        fits: true,
    };
    let mut stack = match Stack::start(alloc, adapter, settings) {
        Ok(stack) => stack,
        Err(why) => {
            return match why.fault {
                StartFault::NoMemory => Err(HostileFault::NoMemory),
                _ => Ok(told),
            };
        }
    };
    told.is_started = true;
    play_steps(alloc, &mut stack, steps, &mut told)?;
    Ok(told)
}

fn play_steps<A: Adapter>(
    alloc: Global,
    stack: &mut Stack<A>,
    steps: &[Step],
    told: &mut Told,
) -> Result<(), AllocError>
    requires { stack.old.labels ≡ [] }
{
    let mut given = Given::new(alloc);
    for step in steps {
        play_step(alloc, stack, *step, &mut given, told)?;
    }
    Ok(())
}

fn play_step<A: Adapter>(
    alloc: Global,
    stack: &mut Stack<A>,
    step: Step,
    given: &mut Given,
    told: &mut Told,
) -> Result<(), AllocError>
    requires { stack.old.labels ≡ [] }
    ensures { OnOk result (stack.new.labels ≡ []) }
{
    let event = given.event(alloc, step)?;
    let reply = stack.step(alloc, event);
    let labels = labels_of(alloc, stack)?;
    // Of these replies each is the answer to its call by itself: the request was never open.
    let is_answer = matches!(reply, Reply::Answered(_) | Reply::Refused { .. });
    let owed: &[Label] = if is_answer { &[] } else { labels.as_slice() };
    let fits = fits(stack, owed);
    told.fits = told.fits && fits;
    keep(given, &reply)?;
    for label in labels {
        told.labels.push(label)?;
    }
    Ok(())
}

/// Keeps the handle or the request of a reply.
fn keep(given: &mut Given, reply: &Reply) -> Result<(), AllocError> {
    match reply {
        Reply::Handle(handle) => given.handles.push(*handle)?,
        Reply::Request(id) => given.requests.push(*id)?,
        _ => {}
    }
    Ok(())
}

/// Takes the labels of a step.
fn labels_of<A: Adapter>(alloc: Global, stack: &mut Stack<A>) -> Result<Vec<Label>, AllocError>
    ensures { OnOk result (stack.new.labels ≡ []) }
{
    let mut labels = Vec::new(alloc);
    while let Some(label) = stack.take_shown() {
        labels.push(label)?;
    }
    Ok(labels)
}

/// Takes the waiting answers, as many as labels tell and one more, and says whether they are the answers of the labels.
fn fits<A: Adapter>(stack: &mut Stack<A>, labels: &[Label]) -> bool
    requires { stack.old.labels ≡ [] }
    ensures { stack.new.labels ≡ [] }
{
    let mut fits = true;
    for label in labels {
        let fits_one = fits_label(stack, label);
        fits = fits && fits_one;
    }
    let more = stack.take_answer();
    fits && more.is_none()
}

/// Takes the waiting answer where a label tells one, and says whether it is the one that the label tells.
fn fits_label<A: Adapter>(stack: &mut Stack<A>, label: &Label) -> bool
    requires { stack.old.labels ≡ [] }
    ensures { stack.new.labels ≡ [] }
{
    match label {
        Label::Answer { .. } => is_of(label, stack.take_answer()),
        _ => true,
    }
}

/// Whether an answer is the one that a label tells.
fn is_of(label: &Label, answer: Option<Answer>) -> bool {
    let Some(answer) = answer else {
        return false;
    };
    match label {
        Label::Answer {
            number,
            status,
            information,
            bytes,
        } => {
            answer.number == *number
                && answer.status == *status
                && answer.information == *information
                && answer.bytes.as_slice() == bytes.as_slice()
        }
        _ => false,
    }
}
