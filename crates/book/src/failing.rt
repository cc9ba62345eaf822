//! The act of a tag's piece that made no entry.

ghost use Rattle.std.specs.Prelude.{◌≡◌, IfSome, MatchOption, Some};
ghost use Rattle.std.specs.Option.{unwrap_or};
ghost use Rattle.srb.specs.declared.Srb.{Srb as SrbView};
ghost use Rattle.srb.specs.declared.Class.TheVariants.{Bad};
ghost use Rattle.srb.specs.Fate.{class_of};
ghost use Rattle.adapter.specs.Booking.{IsArmed};
ghost use Rattle.adapter.specs.Calls.{HasNoneFresh};
ghost use Rattle.compose.specs.declared.Event.TheVariants.{Act};
ghost use Rattle.traced.specs.Traced.{IsServed, TracedView};
ghost use Rattle.book.specs.Acting.{BooksFailure};
ghost use Rattle.book.specs.Book.{HoldsFailure, StaysKept};
ghost use Rattle.book.specs.Rooms.{Transfers};

use crate::laws::laws_of_entries;
use crate::name::BookNaming;
use crate::noting::serve;
use crate::records::Records;
use crate::tags::Tags;
use compose::{Event, Reply};
use disk::Medium;
use journaled::HARDWARE_ERROR;
use miniport::BookedAdapter;
use sector_journal::Journal;
use srb::{Booked, Completion};
use traced::Traced;

/// The piece on a tag that could act.
fn armed_piece<N: BookNaming>(traced: &Traced<BookedAdapter, N>, tag: u8) -> Option<u128>
    ensures { MatchOption result (HasNoneFresh traced.now.stack.adapter tag) (λ piece. (srb : SrbView) × IsArmed traced.now.stack.adapter tag piece srb) }
{
    let (piece, _) = traced.armed(tag)?;
    Some(piece)
}

/// Lets the piece of a tag act in the journal, if it may. Returns how it failed, where it did.
pub(crate) fn transfer<M: Medium, N: BookNaming>(
    traced: &Traced<BookedAdapter, N>,
    journal: &mut Journal<M, N>,
    words: &sector_journal::History<N>,
    tag: u8,
) -> Option<Completion>
    ensures bad { IfSome result (λ completion. class_of completion ≡ Bad completion) }
    ensures transfers { Transfers traced.now.stack.adapter tag journal.old result journal.new }
{
    let piece = armed_piece(traced, tag)?;
    match journal.act(words, tag, piece)? {
        Ok(_) => None,
        Err(completion) => Some(completion),
    }
}

/// Books that the piece of a tag failed, if one could act.
fn book_failure<N: BookNaming>(
    traced: &mut Traced<BookedAdapter, N>,
    tag: u8,
    completion: Completion,
)
    ensures { BooksFailure traced.old tag completion traced.new }
{
    if let Some(piece) = armed_piece(traced, tag) {
        traced.book(tag, piece, Booked::Failed(completion));
    }
}

/// Fails the piece of a tag, if one could act, and makes its act.
pub(crate) fn fail<N: BookNaming>(
    traced: &mut Traced<BookedAdapter, N>,
    tags: &mut Tags<N>,
    records: &Records<N>,
    tag: u8,
    completion: Completion,
) -> Reply
    requires bad { class_of completion ≡ Bad completion }
    ensures serves { (held : TracedView) × HoldsFailure (Some completion) traced.old (Act tag) held × IsServed 0 held (Act tag) result traced.new }
    ensures kept { StaysKept N.rules N.start traced.old tags.old traced.new tags.new }
{
    laws_of_entries();
    traced.shows_whole();
    traced.shows_stack();
    book_failure(traced, tag, completion);
    traced.shows_stack();
    serve(traced, tags, records, Event::Act { tag })
}

/// Returns how a piece that made no entry fails: as it failed in the journal, or because it may not act there.
pub(crate) fn failure(failed: Option<Completion>) -> Completion
    requires { IfSome failed (λ completion. class_of completion ≡ Bad completion) }
    ensures bad { class_of result ≡ Bad result }
    ensures told { result ≡ unwrap_or failed HARDWARE_ERROR }
{
    failed.unwrap_or(HARDWARE_ERROR)
}
