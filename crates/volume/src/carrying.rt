//! A request from its call to its answer, on a stack on which nothing else is open.

ghost use Rattle.std.specs.Prelude.{◌≡◌, ◌≢◌, ◌<◌, ◌≤◌, ◌↔◌, ⊤, ℕ, [], All, IsFalse, IsPermutation, IsTrue, MatchBool, MatchOption, MatchResult, is_none};
ghost use Rattle.machine.specs.declared.ClientRequest.{ClientRequest};
ghost use Rattle.machine.specs.Sending.{HasOtherTag};
ghost use Rattle.machine_laws.specs.NumberLaws.{CallsCount};
ghost use Rattle.machine_laws.specs.SoloLaws.{FailedWritesHold, SoloReadsHold, SoloWritesHold};
ghost use Rattle.machine_laws.specs.WriteLaws.{RunsKeepSectors};
ghost use Rattle.injection.specs.Rules.{left};
ghost use Rattle.io_manager.specs.declared.Reply.TheVariants.{Ok as Done};
ghost use Rattle.io_manager.specs.Right.{HasNoneFresh};
ghost use Rattle.io_manager.specs.Shown.{ManagerView};
ghost use Rattle.compose.specs.Right.{StepsUntraced};
ghost use Rattle.volume.specs.Ready.{IsReady};
ghost use Rattle.volume.specs.Working.{Asks, Ends, Goes, IsBetween, Looks, Quietly, Turns, fresh_count, tags_out, work};

use crate::slowing::Slowing;
use adapter::Adapter;
use compose::{Answer, Event, Refusal, Reply, Stack};
use std::alloc::Global;

/// Carries one event out, whose labels nobody reads.
pub(crate) fn step<A: Adapter>(stack: &mut Stack<A>, alloc: Global, event: Event) -> Reply
    requires taken { stack.old.labels ≡ [] }
    ensures steps { StepsUntraced stack.old event result stack.new }
    ensures between { IsBetween stack.new }
{
    let reply = stack.step_untraced(alloc, event);
    stack.shows_whole();
    reply
}

/// Carries a request from its call to its answer, and returns the answer.
///
/// # Errors
///
/// Why it was refused.
pub(crate) fn carry_out<A: Adapter>(
    stack: &mut Stack<A>,
    alloc: Global,
    slowing: &mut Slowing,
    event: Event,
) -> Result<Answer, Refusal>
    requires ready { IsReady stack.old }
    requires asks { (q : ClientRequest) × Asks stack.old event q }
    ensures { (q : ClientRequest) → Asks stack.old event q → IsFalse (is_none q.partition) → MatchResult result (λ answer. Ends stack.old q answer stack.new) (λ reason. Turns stack.old q reason stack.new) }
{
    let reply = step(stack, alloc, event);
    match reply {
        Reply::Request(_) => Ok(await_answer(stack, alloc, slowing)),
        Reply::Answered(answer) => Ok(answer),
        Reply::Refused { refusal, .. } => Err(refusal),
        Reply::Handle(_) | Reply::Ok | Reply::Ignored => unreachable!(),
    }
}

/// Lets the adapter act and hand back until the answer is there, and takes it.
fn await_answer<A: Adapter>(stack: &mut Stack<A>, alloc: Global, slowing: &mut Slowing) -> Answer
    requires between { IsBetween stack.old }
    requires goes { (before : ManagerView) × (number : ℕ) × (q : ClientRequest) × IsReady before × Goes before number q stack.old }
    ensures { (before : ManagerView) (number : ℕ) (q : ClientRequest) → IsReady before → Goes before number q stack.old → Ends before q result stack.new }
{
    laws_of_a_request();
    let mut answer = stack.take_answer();
    'waiting: while answer.is_none() {
        answer = go_on(stack, alloc, slowing);
    }
    match answer {
        Some(answer) => answer,
        None => unreachable!(),
    }
}

/// Lets the adapter act and hand back until the answer is there, and takes it; or until a piece came back busy by a rule.
fn go_on<A: Adapter>(stack: &mut Stack<A>, alloc: Global, slowing: &mut Slowing) -> Option<Answer>
    requires between { IsBetween stack.old }
    requires goes { (before : ManagerView) × (number : ℕ) × (q : ClientRequest) × IsReady before × Goes before number q stack.old }
    requires none { stack.old.answers ≡ [] }
    ensures looks { Looks stack.old result stack.new }
    ensures fewer { MatchOption result (left slowing.new.rules.items < left slowing.old.rules.items) (λ _. ⊤) }
{
    let mut answer = None;
    'moving: while answer.is_none() {
        if finish_one(stack, alloc, slowing) {
            return stack.take_answer();
        }
        answer = stack.take_answer();
    }
    answer
}

/// Gives its caller the laws of a request that meets no other.
fn laws_of_a_request()
    ensures reads { SoloReadsHold }
    ensures writes { SoloWritesHold }
    ensures failed { FailedWritesHold }
    ensures keeps { RunsKeepSectors }
    ensures counts { CallsCount }
{
    machine_laws::solo_reads();
    machine_laws::solo_writes();
    machine_laws::failed_writes();
    machine_laws::keeps_sectors();
    machine_laws::numbers_rise();
}

/// Lets the piece on the lowest tag act, and come back. Returns whether it came back busy by a rule instead.
fn finish_one<A: Adapter>(stack: &mut Stack<A>, alloc: Global, slowing: &mut Slowing) -> bool
    requires between { IsBetween stack.old }
    requires some_out { stack.old.state.pieces ≢ [] }
    ensures quietly { Quietly stack.old stack.new }
    ensures between { IsBetween stack.new }
    ensures no_more { left slowing.new.rules.items ≤ left slowing.old.rules.items }
    ensures less { MatchBool result (left slowing.new.rules.items < left slowing.old.rules.items) (work stack.new.state < work stack.old.state) }
{
    let depth = stack.depth();
    for tag in 0..depth {
        if slowing.turns_back(stack, tag) {
            turn_back(stack, alloc, tag);
            return true;
        }
        act(stack, alloc, tag);
        if finishes(stack, alloc, tag) {
            return false;
        }
    }
    unreachable!()
}

/// Lets the piece of the tag, which has done nothing, come back busy.
fn turn_back<A: Adapter>(stack: &mut Stack<A>, alloc: Global, tag: u8)
    requires between { IsBetween stack.old }
    ensures quietly { Quietly stack.old stack.new }
    ensures between { IsBetween stack.new }
{
    let _ = step(stack, alloc, Event::Finish { tag });
}

/// Lets the piece on a tag act, if there is one that may.
fn act<A: Adapter>(stack: &mut Stack<A>, alloc: Global, tag: u8)
    requires between { IsBetween stack.old }
    ensures quietly { Quietly stack.old stack.new }
    ensures between { IsBetween stack.new }
    ensures same_tags { IsPermutation (tags_out stack.old.state) (tags_out stack.new.state) }
    ensures same_work { work stack.new.state ≡ work stack.old.state }
    ensures none_fresh { HasNoneFresh stack.new tag }
{
    'acting: while acts(stack, alloc, tag) {}
}

/// Lets a piece on the tag act or fail, and says whether one did.
fn acts<A: Adapter>(stack: &mut Stack<A>, alloc: Global, tag: u8) -> bool
    requires between { IsBetween stack.old }
    ensures quietly { Quietly stack.old stack.new }
    ensures between { IsBetween stack.new }
    ensures same_tags { IsPermutation (tags_out stack.old.state) (tags_out stack.new.state) }
    ensures same_work { work stack.new.state ≡ work stack.old.state }
    ensures done { MatchBool result (fresh_count stack.new.state < fresh_count stack.old.state) (HasNoneFresh stack.new tag) }
{
    let reply = step(stack, alloc, Event::Act { tag });
    is_done(reply)
}

/// Lets a piece come back from the tag, and says whether one did. A piece on it has acted, or failed.
fn finishes<A: Adapter>(stack: &mut Stack<A>, alloc: Global, tag: u8) -> bool
    requires between { IsBetween stack.old }
    requires none_fresh { HasNoneFresh stack.old tag }
    ensures quietly { Quietly stack.old stack.new }
    ensures between { IsBetween stack.new }
    ensures done { MatchBool result (work stack.new.state < work stack.old.state) ((stack.new.state ≡ stack.old.state) × All (HasOtherTag tag) stack.new.state.pieces) }
{
    let reply = step(stack, alloc, Event::Finish { tag });
    is_done(reply)
}

/// Whether a step of the adapter was done.
fn is_done(reply: Reply) -> bool
    ensures { IsTrue result ↔ (reply ≡ Done) }
{
    match reply {
        Reply::Ok => true,
        _ => false,
    }
}
