//! Steps of a stack whose pieces are moved side by side: each is handed out, or moved here, and comes back once what
//! came of it is booked.

ghost use Rattle.std.specs.Prelude.{◌≡◌, [], MatchOption};
ghost use Rattle.io_manager.specs.Right.{BooksPiece};
ghost use Rattle.compose.specs.StepLaws.{IsTransferEvent};
ghost use Rattle.file_disk.specs.Transfers.{DiskView};
ghost use Rattle.serving.specs.Carried.{StandsIn};
ghost use Rattle.serving.specs.Traces.{quiet};
ghost use Rattle.serving.specs.Elsewhere.{Acts, AsksBeside, BooksSo, ComesBack, MovesOne, Returns, TakesBeside, handed_by};

use crate::moving::laws_of_entries;
use chronicle::Naming;
use compose::{Answer, Event, Refusal, Reply, Stack};
use file_disk::{FileDisk, Moved, Storage, copies_do_the_same, is_copy};
use miniport::BookedAdapter;
use movers::Done;
use srb::{Booked, Completion};
use std::alloc::Global;

/// What became of a request that the stack was asked for.
#[derive(Drop)]
pub(crate) enum Reached {
    /// It was called under this number, and its answer waits.
    Called(u64),
    Answered(Answer),
    Refused(Refusal),
}

/// Asks the stack for a read, a write or a flush.
pub(crate) fn ask(stack: &mut Stack<BookedAdapter>, alloc: Global, event: Event) -> Reached
    requires taken { stack.old.labels ≡ [] }
    requires transfer { IsTransferEvent event }
    ensures asks { AsksBeside (quiet stack.old) event result (quiet stack.new) }
    ensures stands { (disk : DiskView) → StandsIn (quiet stack.old) disk → StandsIn (quiet stack.new) disk }
    ensures taken { stack.new.labels ≡ [] }
{
    laws_of_entries();
    let reply = stack.step_untraced(alloc, event);
    match reply {
        Reply::Request(id) => Reached::Called(id.number),
        Reply::Answered(answer) => Reached::Answered(answer),
        Reply::Refused { refusal, .. } => Reached::Refused(refusal),
        Reply::Handle(_) | Reply::Ok | Reply::Ignored => unreachable!(),
    }
}

/// Takes an answer that waits, if there is one.
pub(crate) fn take_next(stack: &mut Stack<BookedAdapter>) -> Option<Answer>
    ensures takes { TakesBeside (quiet stack.old) result (quiet stack.new) }
    ensures stands { (disk : DiskView) → StandsIn (quiet stack.old) disk → StandsIn (quiet stack.new) disk }
    ensures taken { stack.new.labels ≡ stack.old.labels }
{
    stack.take_answer()
}

/// Has the storage move the piece of a tag, if one may act, and lets the piece act and come back. It says whether the
/// piece failed.
pub(crate) fn move_here<S: Storage + Drop>(
    stack: &mut Stack<BookedAdapter>,
    disk: &mut FileDisk<S>,
    alloc: Global,
    tag: u8,
) -> Option<bool>
    requires taken { stack.old.labels ≡ [] }
    requires stands { StandsIn (quiet stack.old) disk.old }
    ensures moves { MatchOption result ((stack.new ≡ stack.old) × (disk.new ≡ disk.old)) (λ failed. MovesOne (quiet stack.old) disk.old tag failed (quiet stack.new) disk.new) }
    ensures taken { stack.new.labels ≡ [] }
{
    stack.shows_whole();
    let Some(failed) = book_here(stack, disk, tag) else {
        return None;
    };
    comes_back(stack, alloc, tag);
    Some(failed)
}

/// Books what came of a piece that was handed out, and lets the piece act and come back. It says whether the piece
/// failed; where it may not act any more, nothing is done.
pub(crate) fn take_back<N: Naming>(
    stack: &mut Stack<BookedAdapter>,
    alloc: Global,
    done: Done<N>,
) -> Option<bool>
    requires taken { stack.old.labels ≡ [] }
    requires stands { StandsIn (quiet stack.old) done.before }
    ensures moves { MatchOption result (stack.new ≡ stack.old) (λ failed. MovesOne (quiet stack.old) done.before done.ask.tag failed (quiet stack.new) done.after) }
    ensures stands { (disk : DiskView) → StandsIn (quiet stack.old) disk → StandsIn (quiet stack.new) disk }
    ensures taken { stack.new.labels ≡ [] }
{
    stack.shows_whole();
    let tag = done.tag();
    let Some(failed) = book_done(stack, done) else {
        return None;
    };
    comes_back(stack, alloc, tag);
    Some(failed)
}

/// Has the storage move the piece of a tag, if one may act, and books what came of it. It says whether the piece failed.
fn book_here<S: Storage + Drop>(
    stack: &mut Stack<BookedAdapter>,
    disk: &mut FileDisk<S>,
    tag: u8,
) -> Option<bool>
    ensures { MatchOption result ((stack.new ≡ stack.old) × (disk.new ≡ disk.old)) (λ failed. BooksSo (quiet stack.old) disk.old tag failed (quiet stack.new) disk.new) }
{
    stack.shows_whole();
    let Some((piece, srb)) = stack.armed(tag) else {
        return None;
    };
    match disk.transfer(tag, piece, srb) {
        Ok(Moved::Read(mut entry)) => {
            stack.book(tag, piece, Booked::Taken(&mut entry));
            disk.take_back(entry);
            Some(false)
        }
        Ok(Moved::Sent) => {
            stack.book(tag, piece, Booked::Sent);
            Some(false)
        }
        Err(completion) => {
            stack.book(tag, piece, Booked::Failed(completion));
            Some(true)
        }
    }
}

/// Books what came of a piece, if the piece may act still, and says whether it failed.
fn book_done<N: Naming>(stack: &mut Stack<BookedAdapter>, done: Done<N>) -> Option<bool>
    ensures { MatchOption result (stack.new ≡ stack.old) (λ failed. BooksSo (quiet stack.old) done.before done.ask.tag failed (quiet stack.new) done.after) }
{
    stack.shows_whole();
    copies_do_the_same();
    let (ask, moved) = done.into_parts();
    let Some((piece, srb)) = stack.armed(ask.tag) else {
        return None;
    };
    if piece != ask.piece || !is_copy(srb, &ask.srb) {
        return None;
    }
    let failed = moved.is_err();
    book_moved(stack, ask.tag, piece, moved);
    Some(failed)
}

/// Books what came of the piece of a tag.
fn book_moved(
    stack: &mut Stack<BookedAdapter>,
    tag: u8,
    piece: u128,
    moved: Result<Moved, Completion>,
)
    ensures { BooksPiece stack.old tag piece (handed_by stack.old.adapter tag piece moved) stack.new }
{
    match moved {
        Ok(Moved::Read(mut entry)) => stack.book(tag, piece, Booked::Taken(&mut entry)),
        Ok(Moved::Sent) => stack.book(tag, piece, Booked::Sent),
        Err(completion) => stack.book(tag, piece, Booked::Failed(completion)),
    }
}

/// Lets the piece of a tag act, of which is booked what came of it, and come back.
fn comes_back(stack: &mut Stack<BookedAdapter>, alloc: Global, tag: u8)
    requires taken { stack.old.labels ≡ [] }
    ensures comes { ComesBack (quiet stack.old) tag (quiet stack.new) }
    ensures taken { stack.new.labels ≡ [] }
{
    acts(stack, alloc, tag);
    finishes(stack, alloc, tag);
}

/// Lets the piece of a tag act, of which is booked what came of it.
fn acts(stack: &mut Stack<BookedAdapter>, alloc: Global, tag: u8)
    requires taken { stack.old.labels ≡ [] }
    ensures acts { Acts (quiet stack.old) tag (quiet stack.new) }
    ensures taken { stack.new.labels ≡ [] }
{
    laws_of_entries();
    stack.shows_whole();
    stack.step_untraced(alloc, Event::Act { tag });
}

/// Lets the piece of a tag come back, if it has acted or failed.
fn finishes(stack: &mut Stack<BookedAdapter>, alloc: Global, tag: u8)
    requires taken { stack.old.labels ≡ [] }
    ensures back { Returns (quiet stack.old) (quiet stack.new) }
    ensures stands { (disk : DiskView) → StandsIn (quiet stack.old) disk → StandsIn (quiet stack.new) disk }
    ensures taken { stack.new.labels ≡ [] }
{
    laws_of_entries();
    stack.step_untraced(alloc, Event::Finish { tag });
}
