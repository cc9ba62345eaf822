//! The act of a tag's piece: in the journal first, and then in the stack, as it was booked there.

ghost use Rattle.std.specs.Prelude.{◌≡◌, [], All, MatchOption};
ghost use Rattle.srb.specs.declared.Srb.{Srb as SrbView};
ghost use Rattle.srb.specs.declared.Entry.{Entry};
ghost use Rattle.srb.specs.declared.Completion.{Completion as CompletionView};
ghost use Rattle.std.specs.Prelude.{Result as ResultOf};
ghost use Rattle.adapter.specs.Calls.{HasNoneFresh};
ghost use Rattle.adapter.specs.Booking.{IsArmed};
ghost use Rattle.io_manager.specs.Right.{BooksPiece};
ghost use Rattle.compose.specs.declared.Event.TheVariants.{Act};
ghost use Rattle.journaled.specs.Acting.{BooksArmed, CameTo, IsNumbered, IsThat};
ghost use Rattle.journaled.specs.Right.{HoldsRoom, StepsBooked};
ghost use Rattle.journaled.specs.Shown.{IsBelow, StandsIn, next_behind, over};
ghost use Rattle.journaled.specs.Told.{TellsOn};

use crate::laws::{laws_of_entries, laws_of_numbers};
use compose::{Event, Reply, Stack};
use disk::Medium;
use miniport::BookedAdapter;
use ntstatus::Sense;
use sector_journal::{History, Journal, Naming};
use srb::{Booked, Completion, Srb};
use std::alloc::Global;

/// SPC, "Sense key and sense code definitions": HARDWARE ERROR. How a piece fails that the journal doesn't let act.
pub const HARDWARE_ERROR: Completion = Completion {
    srb_status: 0x84,
    scsi_status: 0x02,
    sense: Some(Sense {
        key: 4,
        asc: 0,
        ascq: 0,
    }),
};

/// A piece acts in the journal: the number of its entry, or how it failed.
fn enter<M: Medium, N: Naming>(
    journal: &mut Journal<M, N>,
    history: &History<N>,
    tag: u8,
    piece: u128,
    srb: &Srb,
) -> Result<u64, Completion>
    ensures { CameTo journal.old tag piece srb.now result journal.new }
{
    if !journal.arm(history, tag, piece, srb) {
        return Err(HARDWARE_ERROR);
    }
    match journal.act(history, tag, piece) {
        Some(done) => done,
        // It was armed for just this piece.
        None => unreachable!(),
    }
}

/// The piece of a tag that could act does so in the journal: its number, and what came of it.
fn transfer<M: Medium, N: Naming>(
    stack: &Stack<BookedAdapter>,
    journal: &mut Journal<M, N>,
    history: &History<N>,
    tag: u8,
) -> Option<(u128, Result<u64, Completion>)>
    ensures { MatchOption result (HasNoneFresh stack.now.adapter tag × (journal.new ≡ journal.old))
        (λ done. (srb : SrbView) × IsArmed stack.now.adapter tag done.0 srb
        × CameTo journal.old tag done.0 srb done.1 journal.new) }
{
    let (piece, srb) = stack.armed(tag)?;
    Some((piece, enter(journal, history, tag, piece, srb)))
}

/// Books what a piece did in the journal, or how it failed there.
fn book<M: Medium, N: Naming>(
    stack: &mut Stack<BookedAdapter>,
    journal: &Journal<M, N>,
    tag: u8,
    piece: u128,
    done: Result<u64, Completion>,
)
    requires there { IsNumbered journal.now.entered done }
    ensures { (what : ResultOf Entry CompletionView) × IsThat journal.now.entered done what
        × BooksPiece stack.old tag piece what stack.new }
{
    match done {
        Ok(number) => {
            let entry = &journal.entries()[number as usize].entry;
            stack.book(tag, piece, Booked::Copied(entry));
        }
        Err(completion) => stack.book(tag, piece, Booked::Failed(completion)),
    }
}

/// The piece of a tag acts in the journal, if one could act, and what came of it is booked.
fn book_armed<M: Medium, N: Naming>(
    stack: &mut Stack<BookedAdapter>,
    journal: &mut Journal<M, N>,
    history: &History<N>,
    tag: u8,
)
    ensures { BooksArmed stack.old journal.old tag stack.new journal.new }
{
    if let Some((piece, done)) = transfer(stack, journal, history, tag) {
        book(stack, journal, tag, piece, done);
    }
}

/// The piece of a tag acts in the journal, if one could act, and then in the stack, which shows just that.
pub(crate) fn act<M: Medium, N: Naming>(
    stack: &mut Stack<BookedAdapter>,
    journal: &mut Journal<M, N>,
    history: &History<N>,
    alloc: Global,
    tag: u8,
) -> Reply
    requires taken { stack.old.labels ≡ [] }
    requires stands { StandsIn stack.old journal.old }
    requires before { All (IsBelow stack.old.state.next_request) journal.old.reservations }
    ensures right { StepsBooked (over stack.old journal.old) (Act tag) result (over stack.new journal.new) }
    ensures room { HoldsRoom (over stack.old journal.old) (Act tag) result (over stack.new journal.new) }
    ensures counts { next_behind stack.old.state.next_request stack.new.labels ≡ stack.new.state.next_request }
    ensures before { All (IsBelow stack.new.state.next_request) journal.new.reservations }
    ensures rules { stack.new.rules ≡ stack.old.rules }
    ensures stands { StandsIn stack.new journal.new }
    ensures told { TellsOn (over stack.old journal.old) (over stack.new journal.new) }
{
    laws_of_entries();
    laws_of_numbers();
    stack.shows_whole();
    book_armed(stack, journal, history, tag);
    stack.shows_whole();
    stack.step(alloc, Event::Act { tag })
}
