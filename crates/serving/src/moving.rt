//! The pieces of a stack whose sectors stand in a storage: what came of each is booked before its act.

ghost use Rattle.std.specs.Prelude.{◌≡◌, ◌<◌, ◌↔◌, [], All, IsFalse, IsPermutation, IsTrue, MatchBool};
ghost use Rattle.machine.specs.Sending.{HasOtherTag};
ghost use Rattle.machine_laws.specs.NumberLaws.{CallsAreAnswered};
ghost use Rattle.io_manager.specs.declared.Reply.TheVariants.{Ok as Done};
ghost use Rattle.io_manager.specs.Right.{HasNoneFresh};
ghost use Rattle.compose.specs.Armed.{ArmedAskForPieces, BookedActsTell, IdleActsTellNothing};
ghost use Rattle.compose.specs.Journaled.{ArmedMayBeBooked, BookedActsAddEntries, IdleActsKeepEntries, StepsKeepEntries, StepsStayApart};
ghost use Rattle.compose.specs.StepLaws.{IsTransferEvent};
ghost use Rattle.volume.specs.Working.{fresh_count, tags_out, work};
ghost use Rattle.file_disk.specs.Transfers.{DiskView};
ghost use Rattle.serving.specs.Carried.{BooksArmed, Goes, Requests, StandsIn, over};
ghost use Rattle.serving.specs.Traces.{shown_to};

use crate::pens::Pen;
use compose::{Answer, Event, Refusal, Reply, Stack};
use file_disk::{FileDisk, Moved, Storage};
use miniport::BookedAdapter;
use srb::Booked;
use std::alloc::Global;

/// Says which steps add an entry to a trace. It does nothing; its contract is for callers.
pub(crate) fn laws_of_entries()
    ensures kept { StepsKeepEntries }
    ensures idle { IdleActsKeepEntries }
    ensures booked { BookedActsAddEntries }
    ensures armed { ArmedMayBeBooked }
    ensures tells { BookedActsTell }
    ensures silent { IdleActsTellNothing }
    ensures asks { ArmedAskForPieces }
    ensures apart { StepsStayApart }
{
    compose::steps_keep_entries();
    compose::idle_acts_keep_entries();
    compose::booked_acts_add_entries();
    compose::armed_may_be_booked();
    compose::booked_acts_tell();
    compose::armed_ask_for_pieces();
    compose::steps_stay_apart();
}

/// Says that what was called is answered once nothing waits. It does nothing; its contract is for callers.
fn law_of_answers()
    ensures { CallsAreAnswered }
{
    machine_laws::calls_await_answers();
}

/// Carries a read, a write or a flush from its call to its answer. The device is not paused, so each request that is
/// called is answered once nothing is out.
///
/// # Errors
///
/// Why the request was refused.
pub(crate) fn carry_out<S: Storage + Drop, P: Pen>(
    stack: &mut Stack<BookedAdapter>,
    disk: &mut FileDisk<S>,
    pen: &mut P,
    alloc: Global,
    event: Event,
) -> Result<Answer, Refusal>
    requires taken { stack.old.labels ≡ [] }
    requires stands { StandsIn (shown_to P.keeps stack.old) disk.old }
    requires unpaused { IsFalse stack.old.state.paused }
    requires transfer { IsTransferEvent event }
    ensures requests { Requests (over (shown_to P.keeps stack.old) disk.old (P.trace pen.old)) event result (over (shown_to P.keeps stack.new) disk.new (P.trace pen.new)) }
    ensures taken { stack.new.labels ≡ [] }
    ensures stands { StandsIn (shown_to P.keeps stack.new) disk.new }
    ensures unpaused { IsFalse stack.new.state.paused }
{
    laws_of_entries();
    law_of_answers();
    forget_answers(stack);
    let reply = pen.step(stack, alloc, event);
    match reply {
        Reply::Request(id) => {
            drain(stack, disk, pen, alloc);
            stack.shows_whole();
            match stack.take_answer_of(id.number) {
                Some(answer) => Ok(answer),
                // Nothing is out any more, so the request was answered.
                None => unreachable!(),
            }
        }
        Reply::Answered(answer) => Ok(answer),
        Reply::Refused { refusal, .. } => Err(refusal),
        Reply::Handle(_) | Reply::Ok | Reply::Ignored => unreachable!(),
    }
}

/// Takes all answers that wait. Between two requests no answer waits.
pub(crate) fn forget_answers(stack: &mut Stack<BookedAdapter>)
    ensures { stack.new ≡ record stack.old { answers = [] } }
{
    while let Some(answer) = stack.take_answer() {
        drop(answer);
    }
}

/// Lets the adapter act and hand back until nothing is out.
fn drain<S: Storage + Drop, P: Pen>(
    stack: &mut Stack<BookedAdapter>,
    disk: &mut FileDisk<S>,
    pen: &mut P,
    alloc: Global,
)
    requires taken { stack.old.labels ≡ [] }
    requires stands { StandsIn (shown_to P.keeps stack.old) disk.old }
    ensures goes { Goes (over (shown_to P.keeps stack.old) disk.old (P.trace pen.old)) (over (shown_to P.keeps stack.new) disk.new (P.trace pen.new)) }
    ensures taken { stack.new.labels ≡ [] }
    ensures none_out { stack.new.state.pieces ≡ [] }
{
    'finishing: while finish_one(stack, disk, pen, alloc) {}
}

/// Lets a piece act and come back, and says whether there was one. Where there was none, none is out.
fn finish_one<S: Storage + Drop, P: Pen>(
    stack: &mut Stack<BookedAdapter>,
    disk: &mut FileDisk<S>,
    pen: &mut P,
    alloc: Global,
) -> bool
    requires taken { stack.old.labels ≡ [] }
    requires stands { StandsIn (shown_to P.keeps stack.old) disk.old }
    ensures goes { Goes (over (shown_to P.keeps stack.old) disk.old (P.trace pen.old)) (over (shown_to P.keeps stack.new) disk.new (P.trace pen.new)) }
    ensures taken { stack.new.labels ≡ [] }
    ensures less { MatchBool result (work stack.new.state < work stack.old.state) (stack.new.state.pieces ≡ []) }
{
    let depth = stack.depth();
    for tag in 0..depth {
        act(stack, disk, pen, alloc, tag);
        if finishes(stack, pen, alloc, tag) {
            return true;
        }
    }
    stack.shows_whole();
    false
}

/// Lets the piece on a tag act, if there is one that may.
fn act<S: Storage + Drop, P: Pen>(
    stack: &mut Stack<BookedAdapter>,
    disk: &mut FileDisk<S>,
    pen: &mut P,
    alloc: Global,
    tag: u8,
)
    requires taken { stack.old.labels ≡ [] }
    requires stands { StandsIn (shown_to P.keeps stack.old) disk.old }
    ensures goes { Goes (over (shown_to P.keeps stack.old) disk.old (P.trace pen.old)) (over (shown_to P.keeps stack.new) disk.new (P.trace pen.new)) }
    ensures taken { stack.new.labels ≡ [] }
    ensures same_tags { IsPermutation (tags_out stack.old.state) (tags_out stack.new.state) }
    ensures same_work { work stack.new.state ≡ work stack.old.state }
    ensures none_fresh { HasNoneFresh stack.new tag }
{
    'acting: while acts(stack, disk, pen, alloc, tag) {}
}

/// Lets a piece on the tag act, or fail where the storage failed, and says whether one did.
fn acts<S: Storage + Drop, P: Pen>(
    stack: &mut Stack<BookedAdapter>,
    disk: &mut FileDisk<S>,
    pen: &mut P,
    alloc: Global,
    tag: u8,
) -> bool
    requires taken { stack.old.labels ≡ [] }
    requires stands { StandsIn (shown_to P.keeps stack.old) disk.old }
    ensures goes { Goes (over (shown_to P.keeps stack.old) disk.old (P.trace pen.old)) (over (shown_to P.keeps stack.new) disk.new (P.trace pen.new)) }
    ensures taken { stack.new.labels ≡ [] }
    ensures same_tags { IsPermutation (tags_out stack.old.state) (tags_out stack.new.state) }
    ensures same_work { work stack.new.state ≡ work stack.old.state }
    ensures done { MatchBool result (fresh_count stack.new.state < fresh_count stack.old.state) (HasNoneFresh stack.new tag) }
{
    laws_of_entries();
    stack.shows_whole();
    book_armed(stack, disk, tag);
    stack.shows_whole();
    let reply = pen.step(stack, alloc, Event::Act { tag });
    is_done(reply)
}

/// Has the storage move the piece of a tag, if one may act, and books what came of it.
fn book_armed<S: Storage + Drop>(stack: &mut Stack<BookedAdapter>, disk: &mut FileDisk<S>, tag: u8)
    ensures { BooksArmed stack.old disk.old tag stack.new disk.new }
{
    stack.shows_whole();
    let Some((piece, srb)) = stack.armed(tag) else {
        return;
    };
    match disk.transfer(tag, piece, srb) {
        Ok(Moved::Read(mut entry)) => {
            stack.book(tag, piece, Booked::Taken(&mut entry));
            disk.take_back(entry);
        }
        Ok(Moved::Sent) => stack.book(tag, piece, Booked::Sent),
        Err(completion) => stack.book(tag, piece, Booked::Failed(completion)),
    }
}

/// Lets a piece come back from the tag, and says whether one did. A piece on it has acted, or failed.
fn finishes<P: Pen>(stack: &mut Stack<BookedAdapter>, pen: &mut P, alloc: Global, tag: u8) -> bool
    requires taken { stack.old.labels ≡ [] }
    requires none_fresh { HasNoneFresh stack.old tag }
    ensures goes { (disk : DiskView) → Goes (over (shown_to P.keeps stack.old) disk (P.trace pen.old)) (over (shown_to P.keeps stack.new) disk (P.trace pen.new)) }
    ensures taken { stack.new.labels ≡ [] }
    ensures done { MatchBool result (work stack.new.state < work stack.old.state) ((stack.new.state ≡ stack.old.state) × All (HasOtherTag tag) stack.new.state.pieces) }
{
    laws_of_entries();
    stack.shows_whole();
    let reply = pen.step(stack, alloc, Event::Finish { tag });
    is_done(reply)
}

/// Whether a step of the adapter was done.
fn is_done(reply: Reply) -> bool
    ensures { IsTrue result ↔ (reply ≡ Done) }
{
    match reply {
        Reply::Ok => true,
        _ => false,
    }
}
