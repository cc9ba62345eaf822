//! How entries of the journal are booked, in the order of their numbers, and their acts made.

ghost use Rattle.std.specs.Prelude.{◌≡◌, ◌<◌, ◌+◌, ℕ, Ok, None, Some, IfNone, MatchBool, MatchOption, length, slice_get, true};
ghost use Rattle.sector_journal.specs.declared.acted.Entered.{Entered};
ghost use Rattle.book.specs.Acting.{HasNoNext, HoldsBooked, IsAsLarge, MayBook, TakesEntry, TakesNot};
ghost use Rattle.book.specs.Book.{BooksOne, HasBooked, IsKept, IsSameBook, book_of};
ghost use Rattle.book.specs.Rooms.{HasActed};
ghost use Rattle.book.specs.Staying.{AreOnTags};

use crate::laws::laws_of_entries;
use crate::name::BookNaming;
use crate::noting::serve;
use crate::records::Records;
use crate::tags::Tags;
use crate::taken::Taken;
use compose::Event;
use disk::Medium;
use miniport::{BookedAdapter, may_be_entry_of};
use sector_journal::Journal;
use srb::{Booked, Entry};
use traced::Traced;

/// Whether the journal has as many sectors as the stack's disk, of the same size.
fn is_as_large<M: Medium, N: BookNaming>(
    traced: &Traced<BookedAdapter, N>,
    journal: &Journal<M, N>,
) -> bool
    ensures { result ≡ true → IsAsLarge N.rules journal.now }
{
    let sizes = traced.sizes();
    journal.sector_size() == sizes.sector_size && journal.sectors() == sizes.sectors
}

/// The tag of the entry of a number.
fn tag_of<M: Medium, N: BookNaming>(journal: &Journal<M, N>, number: u64) -> u8
    requires { number < length journal.now.entered }
    ensures { (entered : Entered) × (slice_get journal.now.entered number ≡ Some entered) × (result ≡ entered.entry.tag) }
{
    journal.entries()[number as usize].entry.tag
}

/// Whether the last entry of the journal is of this tag, and is not among the first ones, which were booked.
pub(crate) fn has_acted<M: Medium, N: BookNaming>(
    journal: &Journal<M, N>,
    booked: u64,
    tag: u8,
) -> bool
    ensures { result ≡ true → HasActed journal.now booked tag }
{
    let entries = journal.entries();
    match entries.last() {
        Some(last) => booked < entries.len() as u64 && last.entry.tag == tag,
        None => false,
    }
}

/// Whether receipts show the entry of a number to be of what was armed on its tag. No byte is compared for that.
fn is_known<M: Medium, N: BookNaming>(
    traced: &Traced<BookedAdapter, N>,
    tags: &mut Tags<N>,
    journal: &mut Journal<M, N>,
    words: &sector_journal::History<N>,
    number: u64,
) -> bool
    requires there { number < length journal.old.entered }
    requires on_tags { AreOnTags traced.now.stack.adapter tags.old }
    ensures same { (tags.new ≡ tags.old) × (journal.new ≡ journal.old) }
    ensures known { result ≡ true → MayBook N.rules traced.now.stack.adapter journal.old number }
{
    if !is_as_large(traced, journal) {
        return false;
    }
    let tag = tag_of(journal, number);
    tags.is_of(journal, words, tag, number)
}

/// Whether the stack can take an entry: its piece may act on its tag, and asks for what the entry did.
#[tactic(auto, using(crate::proofs::Taking::asked_taken))]
fn can_take<N: BookNaming>(traced: &Traced<BookedAdapter, N>, entry: &Entry) -> bool
    ensures { MatchBool result (TakesEntry N.rules traced.now.stack.adapter entry.now) (TakesNot N.rules traced.now.stack.adapter entry.now) }
{
    let Some((piece, srb)) = traced.armed(entry.tag) else {
        return false;
    };
    if piece != entry.piece {
        return false;
    }
    let sizes = traced.sizes();
    may_be_entry_of(sizes.sector_size, sizes.sectors, srb, entry)
}

/// Whether the stack can take the entry of a number.
fn can_take_next<M: Medium, N: BookNaming>(
    traced: &Traced<BookedAdapter, N>,
    journal: &Journal<M, N>,
    number: u64,
) -> bool
    requires { number < length journal.now.entered }
    ensures { (entered : Entered) × (slice_get journal.now.entered number ≡ Some entered) × MatchBool result (TakesEntry N.rules traced.now.stack.adapter entered.entry) (TakesNot N.rules traced.now.stack.adapter entered.entry) }
{
    can_take(traced, &journal.entries()[number as usize].entry)
}

/// Whether there is an entry of a number that the stack can take.
#[tactic(auto, using(crate::proofs::Taking::next_taken))]
fn may_book<M: Medium, N: BookNaming>(
    traced: &Traced<BookedAdapter, N>,
    tags: &mut Tags<N>,
    journal: &mut Journal<M, N>,
    words: &sector_journal::History<N>,
    number: u64,
) -> bool
    requires on_tags { AreOnTags traced.now.stack.adapter tags.old }
    ensures same { (tags.new ≡ tags.old) × (journal.new ≡ journal.old) }
    ensures there { result ≡ true → number < length journal.old.entered }
    ensures decides { MatchBool result (MayBook N.rules traced.now.stack.adapter journal.old number) (HasNoNext N.rules traced.now.stack.adapter journal.old number) }
{
    if number >= journal.entries().len() as u64 {
        return false;
    }
    if is_known(traced, tags, journal, words, number) {
        return true;
    }
    can_take_next(traced, journal, number)
}

/// Books the entry of a number, and gives its tag.
fn book_entry<M: Medium, N: BookNaming>(
    traced: &mut Traced<BookedAdapter, N>,
    journal: &Journal<M, N>,
    number: u64,
) -> u8
    requires there { number < length journal.now.entered }
    ensures { (entered : Entered) × (slice_get journal.now.entered number ≡ Some entered) × (result ≡ entered.entry.tag) × HoldsBooked traced.old entered.entry.tag entered.entry.piece (Ok entered.entry) traced.new }
{
    let entry = &journal.entries()[number as usize].entry;
    let tag = entry.tag;
    traced.book(tag, entry.piece, Booked::Copied(entry));
    tag
}

/// Books the next entry, if there is one that the stack can take, and makes its act. Returns the tag.
pub(crate) fn book_next<M: Medium, N: BookNaming>(
    traced: &mut Traced<BookedAdapter, N>,
    taken: &mut Taken<N>,
    tags: &mut Tags<N>,
    records: &Records<N>,
    journal: &mut Journal<M, N>,
) -> Option<u8>
    requires kept { IsKept N.rules N.start traced.old taken.old tags.old }
    ensures kept { IsKept N.rules N.start traced.new taken.new tags.new }
    ensures books { MatchOption result (IsSameBook traced.old taken.old traced.new taken.new) (λ tag. BooksOne tag (book_of traced.old taken.old) (book_of traced.new taken.new)) }
    ensures more { MatchOption result (length taken.new ≡ length taken.old) (λ _. (length taken.old < length journal.old.entered) × (length taken.new ≡ length taken.old + 1)) }
    ensures ends { IfNone result (HasNoNext N.rules traced.new.stack.adapter journal.old (length taken.new)) }
    ensures journal { journal.new ≡ journal.old }
{
    laws_of_entries();
    traced.shows_whole();
    traced.shows_stack();
    let number = taken.len();
    if !may_book(traced, tags, journal, records.words, number) {
        return None;
    }
    let tag = book_entry(traced, journal, number);
    traced.shows_stack();
    serve(traced, tags, records, Event::Act { tag });
    taken.add(journal, records.words);
    Some(tag)
}

/// Books all entries that are there, up to the first that the stack can't take. Returns the tag of the last that it
/// booked, if there was one.
pub(crate) fn book_all<M: Medium, N: BookNaming>(
    traced: &mut Traced<BookedAdapter, N>,
    taken: &mut Taken<N>,
    tags: &mut Tags<N>,
    records: &Records<N>,
    journal: &mut Journal<M, N>,
) -> Option<u8>
    requires kept { IsKept N.rules N.start traced.old taken.old tags.old }
    ensures kept { IsKept N.rules N.start traced.new taken.new tags.new }
    ensures books { (count : ℕ) × HasBooked result count (book_of traced.old taken.old) (book_of traced.new taken.new) }
    ensures ends { HasNoNext N.rules traced.new.stack.adapter journal.old (length taken.new) }
    ensures journal { journal.new ≡ journal.old }
{
    let mut last = None;
    while let Some(tag) = book_next(traced, taken, tags, records, journal) {
        last = Some(tag);
    }
    last
}
