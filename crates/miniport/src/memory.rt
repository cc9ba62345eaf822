//! The adapter in memory.

ghost use Rattle.std.specs.Prelude.{◌≡◌, ◌⊎◌, ◌≤◌, ◌<◌, ◌^◌, ℕ, IfOk, length, MatchBool};
ghost use Rattle.miniport.specs.declared.carrying.Outcome.{Outcome};
ghost use Rattle.miniport.specs.declared.on_tag.Progress.TheVariants.{Untouched};
ghost use Rattle.std.specs.Prelude.{◌==◌, true, false, [], IsTrue, Some, None};
ghost use Rattle.std.specs.Bool.{Decides};
ghost use Rattle.adapter.specs.Booking.{handed_of};
ghost use Rattle.miniport.specs.inside.Apart.{CanBook, CannotBook, BooksIn, ActsApartIn, EndsAsBooked, EndsUnbooked, SuitsPiece, failed_as, moved_as_booked as as_moved};
ghost use Rattle.miniport.specs.inside.Slots.{with_moved, with_failed, piece_at};
ghost use Rattle.miniport.specs.declared.on_tag.OnTag.{OnTag};
ghost use Rattle.miniport.specs.Carrying.{IsReady, sizes_of};
ghost use Rattle.miniport.specs.Memory.{MemView, view_of, new_view};
ghost use Rattle.miniport.specs.inside.Memory.{AdapterKept, PutsBack, ActsIn, ActsNotIn};

use crate::carrying::{Outcome, carry_out};
use crate::check::Sizes;
use crate::completion::{HARDWARE_ERROR, failed_with};
use crate::on_tag::{Booking, OnTag, Progress};
use crate::suiting::suits;
use crate::table::TagTable;
use adapter::Adapter;
use disk::{Medium, NoMemory};
use sector::Extent;
use srb::{Booked, Completion, DeviceLabel, Srb};
use std::alloc::{AllocError, Global};
use std::marker::Model;

/// An adapter over a medium. A command fails exactly where it reads or writes a bad sector or names one past the end,
/// its SRB doesn't fit it, a write meets write protection, or the block asks for nothing that the disk has.
pub struct MemAdapter<M: Medium> {
    medium: M,
    table: TagTable,
    max_transfer: u32,
    write_protected: bool,
}

// By hand, so that no crate above proves it again, as it would a derived one.
impl<M: Medium> Drop for MemAdapter<M> {
    fn drop(self) {
        let MemAdapter {
            medium: _,
            table: _,
            max_transfer: _,
            write_protected: _,
        } = self;
    }
}

impl<M: Medium> Model for MemAdapter<M> {
    ghost Value = { MemView };

    ghost view = { λ a. view_of (M.view a.medium) a.max_transfer a.write_protected a.table };

    ghost invariant = { λ a. AdapterKept (M.view a.medium) a.max_transfer a.table };
}

impl<M: Medium> MemAdapter<M> {
    ghost use Rattle.srb.specs.declared.Class.TheVariants.{Bad};
    ghost use Rattle.srb.specs.Fate.{class_of};
    ghost use Rattle.adapter.specs.View.{IsInOrder};
    ghost use Rattle.adapter.specs.Calls.{ActsOrFaults, ActsNot};
    ghost use Rattle.miniport.specs.Memory.{FailsWith};

    /// An adapter with no piece on any of its tags, over a medium of 512 or 4096 bytes a sector and 1 to 2^40 sectors,
    /// of which no read or write has failed yet. `max_transfer` is in sectors, from 1 to 65,536; `depth` is the number
    /// of tags, from 1 to 32.
    ///
    /// # Errors
    ///
    /// Where the memory for tags and labels was refused.
    pub fn new(
        alloc: Global,
        medium: M,
        max_transfer: u32,
        depth: u8,
        write_protected: bool,
    ) -> Result<MemAdapter<M>, NoMemory>
        requires sector_size { ((M.view medium).sector_size ≡ 512) ⊎ ((M.view medium).sector_size ≡ 4096) }
        requires some { 1 ≤ length (M.view medium).sectors }
        requires few { length (M.view medium).sectors ≤ 2 ^ 40 }
        requires transfer { 1 ≤ max_transfer }
        requires short { max_transfer ≤ 2 ^ 16 }
        requires deep { 1 ≤ depth }
        requires shallow { depth ≤ 32 }
        requires unfailed { (M.view medium).failures ≡ 0 }
        ensures { IfOk result (λ a. a ≡ new_view (M.view medium) max_transfer depth write_protected) }
    {
        let table = TagTable::new(alloc, depth)?;
        Ok(MemAdapter {
            medium,
            table,
            max_transfer,
            write_protected,
        })
    }

    /// The same adapter, of whose labels contracts alone read the bytes. No label waits.
    pub fn noting(mut self) -> MemAdapter<M>
        requires { self.shown.labels ≡ [] }
        ensures { result ≡ record self { shown = record self.shown { keeps_bytes = false } } }
    {
        self.table.note_bytes();
        self
    }

    /// Fails the tag's piece with this completion, whatever its command asks for. False where the tag has no piece, or
    /// its piece acted or failed before.
    pub(crate) fn fail(&mut self, tag: u8, completion: Completion) -> bool
        requires place { length self.old.shown.labels < 64 }
        requires bad { class_of completion ≡ Bad completion }
        ensures acts { MatchBool result (ActsOrFaults self.old.shown tag self.new.shown) (ActsNot self.old.shown tag self.new.shown) }
        ensures order { IsInOrder self.new.shown }
        ensures fails { MatchBool result (FailsWith self.old tag completion self.new) (self.new ≡ self.old) }
    {
        self.table.fail(tag, completion)
    }
}

impl<M: Medium> MemAdapter<M> {
    ghost use Rattle.adapter.specs.View.{IsInOrder};
    ghost use Rattle.adapter.specs.Calls.{ActsOrFaults, ActsNot};
    ghost use Rattle.adapter.specs.Booking.{Books, handed};
    ghost use Rattle.miniport.specs.Apart.{apart};

    /// Books what the tag's piece did, as an adapter whose sectors stand elsewhere.
    pub(crate) fn book_apart(&mut self, tag: u8, piece: u128, what: Booked<'_>)
        ensures books { Books (apart self.old.shown) tag piece (handed (apart self.old.shown) tag piece what.entry) (apart self.new.shown) }
        ensures order { IsInOrder self.new.shown }
        ensures protected { self.new.write_protected ≡ self.old.write_protected }
    {
        let sizes = sizes_on(&self.medium, self.write_protected);
        let _booked = book_on(&sizes, &mut self.table, tag, piece, what);
    }

    /// Ends the tag's piece as it was booked. Piece 0 is carried out. Any other piece fails where nothing was booked of
    /// it.
    pub(crate) fn act_apart(&mut self, tag: u8) -> bool
        requires place { length self.old.shown.labels < 64 }
        requires protected { self.old.write_protected ≡ true }
        ensures acts { MatchBool result (ActsOrFaults (apart self.old.shown) tag (apart self.new.shown)) (ActsNot (apart self.old.shown) tag (apart self.new.shown)) }
        ensures order { IsInOrder self.new.shown }
        ensures protected { self.new.write_protected ≡ true }
    {
        act_apart_on(&mut self.medium, &mut self.table, tag)
    }
}

impl<M: Medium> Adapter for MemAdapter<M> {
    ghost use Rattle.std.specs.Prelude.{◌+◌, ◌*◌, [], IfSome, get_or, Any, IsOk, OnOk, MatchOption};
    ghost use Rattle.adapter.specs.View.{HasTag, IsFree, IsInOrder, IsReserved, IsWritable, ReservesMore, ReservesNear, Accepts};
    ghost use Rattle.adapter.specs.Calls.{ActsOrFaults, ActsNot, Finishes, FinishesNot, Resets, LeavesFirst, HasNoLabel};
    ghost use Rattle.adapter.specs.Booking.{Books, handed};
    ghost use Rattle.miniport.specs.Faults.{busy};
    ghost use Rattle.miniport.specs.Memory.{Dues, SameDues, ActsByTable, ResetsAll};

    ghost view = { λ a. a.shown };

    fn sector_size(&self) -> u32 {
        self.medium.sector_size()
    }

    fn sectors(&self) -> u64 {
        self.medium.sectors()
    }

    fn max_transfer(&self) -> u32 {
        self.max_transfer
    }

    fn depth(&self) -> u8 {
        self.table.depth()
    }

    fn is_faithful(&self) -> bool {
        let _table = &self.table;
        true
    }

    fn keeps_bytes(&self) -> bool {
        self.table.keeps_bytes()
    }

    /// The failures counted so far, at most twice the pieces accepted.
    fn failures(&self) -> u128
        ensures exact { result ≡ self.now.shown.failures }
        ensures order { IsInOrder self.now.shown }
        ensures twice { result ≤ 2 * self.now.shown.accepted }
    {
        self.table.failures()
    }

    fn reserve(&mut self, extent: Extent) -> Result<(), AllocError>
        requires { extent.first + extent.count ≤ length self.old.shown.sectors }
        ensures reserved { OnOk result (IsReserved self.new.shown extent) }
        ensures ready { IsReserved self.old.shown extent → IsOk result }
        ensures reserves { ReservesMore self.old.shown self.new.shown }
        ensures near { ReservesNear self.old.shown extent self.new.shown }
        ensures order { IsInOrder self.new.shown }
        ensures due { SameDues self.old self.new }
    {
        self.medium.reserve(extent).map_err(|_| AllocError)
    }

    fn in_use(&self, tag: u8) -> bool {
        self.table.is_in_use(tag)
    }

    fn accept(&mut self, tag: u8, piece: u128, srb: Srb)
        requires below { tag < self.old.shown.depth }
        requires free { IsFree self.old.shown tag }
        requires writable { IsWritable self.old.shown srb }
        requires buffers { IsTrue self.old.shown.keeps_bytes → length srb.data ≤ srb.for_label }
        requires few { self.old.shown.accepted < 2 ^ 100 }
        requires place { length self.old.shown.labels < 64 }
        ensures accepts { Accepts self.old.shown tag piece srb self.new.shown }
        ensures order { IsInOrder self.new.shown }
        ensures due { Dues tag (Some busy) self.old self.new }
    {
        self.table.accept(tag, piece, srb);
    }

    fn act(&mut self, tag: u8) -> bool
        requires { length self.old.shown.labels < 64 }
        ensures acts { MatchBool result (ActsOrFaults self.old.shown tag self.new.shown) (ActsNot self.old.shown tag self.new.shown) }
        ensures order { IsInOrder self.new.shown }
        ensures by_table { MatchBool result (ActsByTable self.old tag self.new) (self.new ≡ self.old) }
    {
        act_on(&mut self.medium, self.write_protected, &mut self.table, tag)
    }

    fn armed(&self, tag: u8) -> Option<(u128, &Srb)> {
        match self.table.untouched(tag) {
            None => None,
            Some(on_tag) => Some((on_tag.piece, &on_tag.srb)),
        }
    }

    /// Nothing is booked, since its acts move its sectors.
    fn book(&mut self, tag: u8, piece: u128, what: Booked<'_>)
        ensures books { Books self.old.shown tag piece (handed self.old.shown tag piece what.entry) self.new.shown }
        ensures order { IsInOrder self.new.shown }
        ensures same { self.new ≡ self.old }
    {
        let _tags = &self.table;
    }

    fn finish(&mut self, tag: u8) -> Option<(Srb, Completion)>
        requires { length self.old.shown.labels < 64 }
        ensures finishes { MatchOption result (FinishesNot self.old.shown tag self.new.shown) (λ back. Finishes self.old.shown tag back.0 back.1 self.new.shown) }
        ensures order { IsInOrder self.new.shown }
        ensures completion { IfSome result (λ back. get_or self.old.due tag None ≡ Some back.1) }
        ensures due { MatchOption result (self.new ≡ self.old) (λ back. Dues tag None self.old self.new) }
    {
        self.table.finish(tag)
    }

    fn reset(&mut self)
        requires { length self.old.shown.labels + self.old.shown.depth ≤ 64 }
        ensures resets { Resets self.old.shown self.new.shown }
        ensures order { IsInOrder self.new.shown }
        ensures due { ResetsAll self.old self.new }
    {
        self.table.reset();
    }

    fn take_label(&mut self) -> Option<DeviceLabel>
        ensures takes { MatchOption result (HasNoLabel self.old.shown self.new.shown) (λ label. LeavesFirst self.old.shown label self.new.shown) }
        ensures order { IsInOrder self.new.shown }
        ensures due { SameDues self.old self.new }
    {
        self.table.take_label()
    }

    fn forget_labels(&mut self)
        ensures forgets { self.new.shown ≡ record self.old.shown { labels = [] } }
        ensures order { IsInOrder self.new.shown }
        ensures due { SameDues self.old self.new }
    {
        self.table.forget_labels();
    }
}

/// Carries out the command of a piece, and puts the piece back on its tag.
fn carry_on<M: Medium>(
    medium: &mut M,
    write_protected: bool,
    table: &mut TagTable,
    tag: u8,
    on_tag: OnTag,
)
    requires ready { IsReady (M.view medium.old) on_tag.srb }
    requires room { IsTrue table.old.keeps_bytes → length on_tag.srb.data ≤ on_tag.srb.for_label }
    requires countable { (M.view medium.old).failures < 2 ^ 120 }
    requires some { 1 ≤ length (M.view medium.old).sectors }
    requires below { tag < length table.old.slots }
    requires free { piece_at table.old.slots tag ≡ None }
    requires place { length table.old.labels < 64 }
    requires counted { table.old.failures < 2 ^ 127 }
    ensures { (outcome : Outcome) × PutsBack (M.view medium.old) write_protected table.old tag on_tag outcome (M.view medium.new) table.new }
{
    match carry_out(medium, write_protected, on_tag.srb) {
        Outcome::Moved { srb } => {
            let on_tag = OnTag {
                srb,
                progress: Progress::Moved,
                ..on_tag
            };
            table.put_moved(tag, on_tag);
        }
        Outcome::Failed { srb, completion } => {
            let on_tag = OnTag {
                srb,
                progress: Progress::Failed(completion),
                ..on_tag
            };
            table.put_failed(tag, on_tag);
        }
    }
}

fn sizes_on<M: Medium>(medium: &M, write_protected: bool) -> Sizes
    ensures { result ≡ sizes_of (M.view medium.now) write_protected }
{
    Sizes {
        sector_size: medium.sector_size(),
        sectors: medium.sectors(),
        write_protected,
    }
}

/// Whether this may be booked of a piece.
fn is_bookable_piece(sizes: &Sizes, on_tag: &OnTag, piece: u128, what: &Booked<'_>) -> bool
    ensures { (tag : ℕ) → Decides result (SuitsPiece sizes.now.sector_size sizes.now.sectors on_tag.now piece (handed_of tag piece on_tag.now.srb what.now)) }
{
    piece != 0 && on_tag.piece == piece && suits(sizes, &on_tag.srb, what)
}

/// Whether this may be booked of the tag's piece.
fn is_bookable(sizes: &Sizes, table: &TagTable, tag: u8, piece: u128, what: &Booked<'_>) -> bool
    ensures { MatchBool result (CanBook sizes.now table.now tag piece what.now) (CannotBook sizes.now table.now tag piece what.now) }
{
    match table.untouched(tag) {
        None => false,
        Some(on_tag) => is_bookable_piece(sizes, on_tag, piece, what),
    }
}

/// Books this of the tag's piece, where it may be booked. Returns whether it was.
fn book_on(sizes: &Sizes, table: &mut TagTable, tag: u8, piece: u128, what: Booked<'_>) -> bool
    ensures { MatchBool result (BooksIn sizes.now table.old tag piece what.entry table.new) (CannotBook sizes.now table.old tag piece what.entry × (table.new ≡ table.old)) }
{
    if !is_bookable(sizes, table, tag, piece, &what) {
        return false;
    }
    table.book(tag, what);
    true
}

/// Lets the piece act as was booked, and puts it back on its tag.
fn move_on(table: &mut TagTable, tag: u8, on_tag: OnTag)
    requires below { tag < length table.old.slots }
    requires free { piece_at table.old.slots tag ≡ None }
    requires place { length table.old.labels < 64 }
    requires room { IsTrue table.old.keeps_bytes → length on_tag.srb.data ≤ on_tag.srb.for_label }
    ensures { table.new ≡ with_moved tag (as_moved on_tag) table.old }
{
    let on_tag = OnTag {
        progress: Progress::Moved,
        ..on_tag
    };
    table.put_moved(tag, on_tag);
}

/// Fails the piece, and puts it back on its tag.
fn fail_on(table: &mut TagTable, tag: u8, on_tag: OnTag, completion: Completion)
    requires below { tag < length table.old.slots }
    requires free { piece_at table.old.slots tag ≡ None }
    requires place { length table.old.labels < 64 }
    requires counted { table.old.failures < 2 ^ 127 }
    ensures { table.new ≡ with_failed tag (failed_as completion on_tag) table.old }
{
    let on_tag = OnTag {
        progress: Progress::Failed(completion),
        ..on_tag
    };
    table.put_failed(tag, on_tag);
}

/// Ends a piece of which nothing was booked: piece 0 is carried out, any other piece fails.
fn end_unbooked<M: Medium>(medium: &mut M, table: &mut TagTable, tag: u8, on_tag: OnTag)
    requires ready { IsReady (M.view medium.old) on_tag.srb }
    requires room { IsTrue table.old.keeps_bytes → length on_tag.srb.data ≤ on_tag.srb.for_label }
    requires countable { (M.view medium.old).failures < 2 ^ 120 }
    requires some { 1 ≤ length (M.view medium.old).sectors }
    requires below { tag < length table.old.slots }
    requires free { piece_at table.old.slots tag ≡ None }
    requires place { length table.old.labels < 64 }
    requires counted { table.old.failures < 2 ^ 127 }
    ensures { EndsUnbooked (on_tag.piece == 0) (M.view medium.old) table.old tag on_tag (M.view medium.new) table.new }
{
    if on_tag.piece == 0 {
        carry_on(medium, true, table, tag, on_tag);
    } else {
        fail_on(table, tag, on_tag, failed_with(HARDWARE_ERROR, 0x00));
    }
}

/// Ends a piece as it was booked.
fn end_as_booked<M: Medium>(medium: &mut M, table: &mut TagTable, tag: u8, on_tag: OnTag)
    requires ready { IsReady (M.view medium.old) on_tag.srb }
    requires room { IsTrue table.old.keeps_bytes → length on_tag.srb.data ≤ on_tag.srb.for_label }
    requires countable { (M.view medium.old).failures < 2 ^ 120 }
    requires some { 1 ≤ length (M.view medium.old).sectors }
    requires below { tag < length table.old.slots }
    requires free { piece_at table.old.slots tag ≡ None }
    requires place { length table.old.labels < 64 }
    requires counted { table.old.failures < 2 ^ 127 }
    ensures { EndsAsBooked on_tag.booking (M.view medium.old) table.old tag on_tag (M.view medium.new) table.new }
{
    match on_tag.booking {
        Booking::Nothing => end_unbooked(medium, table, tag, on_tag),
        Booking::Bytes => move_on(table, tag, on_tag),
        Booking::Failure(completion) => fail_on(table, tag, on_tag, completion),
    }
}

/// Ends a tag's piece as it was booked, if it has done nothing yet.
fn act_apart_on<M: Medium>(medium: &mut M, table: &mut TagTable, tag: u8) -> bool
    requires kept { (longest : ℕ) × AdapterKept (M.view medium.old) longest table.old }
    requires place { length table.old.labels < 64 }
    ensures { MatchBool result (ActsApartIn (M.view medium.old) table.old tag (M.view medium.new) table.new) (ActsNotIn (M.view medium.old) table.old tag (M.view medium.new) table.new) }
{
    let Some(on_tag) = table.take_untouched(tag) else {
        return false;
    };
    end_as_booked(medium, table, tag, on_tag);
    true
}

/// Carries out the command of a tag's piece, if it has done nothing yet.
fn act_on<M: Medium>(medium: &mut M, write_protected: bool, table: &mut TagTable, tag: u8) -> bool
    requires kept { (longest : ℕ) × AdapterKept (M.view medium.old) longest table.old }
    requires place { length table.old.labels < 64 }
    ensures { MatchBool result (ActsIn (M.view medium.old) write_protected table.old tag (M.view medium.new) table.new) (ActsNotIn (M.view medium.old) table.old tag (M.view medium.new) table.new) }
{
    let Some(on_tag) = table.take_untouched(tag) else {
        return false;
    };
    carry_on(medium, write_protected, table, tag, on_tag);
    true
}
