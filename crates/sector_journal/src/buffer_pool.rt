//! The buffers of pieces that may yet be armed.

ghost use Rattle.std.specs.Prelude.{◌≡◌, ◌≢◌, ◌≤◌, ◌<◌, ◌+◌, ◌-◌, min, ℕ, [], Some, IfOk, OnOk, OnErr, MatchOption, length};
ghost use Rattle.std.specs.List.{filter, position};
ghost use Rattle.sector_journal.specs.Reserving.{of_length};
ghost use Rattle.sector_journal.specs.Pooling.{is_for, is_not_for, pieces_at, promised_at};
ghost use Rattle.sector_journal.specs.inside.Pooling.{IsOfLength};

use crate::reservation::Buffers;
use crate::size_class::SizeClass;
use sector::Bytes;
use std::alloc::{AllocError, Global};
use std::marker::Model;

/// How many classes stay although no open request has a piece for them: the next request is often as long.
const SPENT_CLASSES: usize = 4;

/// The buffers that armings have yet to take, by their length.
#[derive(Debug, Drop)]
pub(crate) struct BufferPool {
    alloc: Global,
    classes: Vec<SizeClass>,
}

impl Model for BufferPool {
    ghost use Rattle.std.specs.Prelude.{List};
    ghost use Rattle.sector_journal.specs.Pooling.{SizeClassView};

    ghost Value = { List SizeClassView };

    ghost view = { λ s. s.classes.items };
}

/// Drops the class of this length.
fn remove_length(classes: &mut Vec<SizeClass>, length: usize)
    ensures { classes.new.items ≡ filter (is_not_for length) classes.old.items }
{
    classes.retain(|class| class.length() != length);
}

impl BufferPool {
    pub fn new(alloc: Global) -> BufferPool
        ensures { result ≡ [] }
    {
        BufferPool {
            alloc,
            classes: Vec::new(alloc),
        }
    }

    fn find(&self, length: usize) -> Option<usize>
        ensures { result ≡ position (is_for length) self.now }
    {
        self.classes
            .iter()
            .position(|class| class.length() == length)
    }

    /// The class of this length, which is empty where there was none.
    fn find_or_add(&mut self, length: usize) -> Result<usize, AllocError>
        ensures found { IfOk result (λ at. position (is_for length) self.new ≡ Some at) }
        ensures same { (long : ℕ) → pieces_at self.new long ≡ pieces_at self.old long }
        ensures booked { (long : ℕ) → promised_at self.new long ≡ promised_at self.old long }
    {
        match self.find(length) {
            Some(at) => Ok(at),
            None => {
                let at = self.classes.len();
                self.classes.push(SizeClass::new(self.alloc, length))?;
                Ok(at)
            }
        }
    }

    /// Makes the buffers of these pieces.
    pub fn promise(&mut self, buffers: Buffers) -> Result<(), AllocError>
        ensures made { OnOk result ((long : ℕ) → pieces_at self.new long ≡ pieces_at self.old long + of_length buffers.pieces buffers.length long) }
        ensures refused { OnErr result ((long : ℕ) → pieces_at self.new long ≡ pieces_at self.old long) }
        ensures booked { OnOk result ((long : ℕ) → promised_at self.new long ≡ promised_at self.old long + of_length buffers.pieces buffers.length long) }
        ensures unbooked { OnErr result ((long : ℕ) → promised_at self.new long ≡ promised_at self.old long) }
    {
        if buffers.pieces == 0 {
            return Ok(());
        }
        let at = self.find_or_add(buffers.length)?;
        self.classes[at].promise(self.alloc, buffers.pieces)
    }

    /// Drops the buffers of these pieces, which were made last.
    pub fn forget(&mut self, buffers: Buffers)
        ensures dropped { (long : ℕ) → pieces_at self.new long ≡ pieces_at self.old long - of_length buffers.pieces buffers.length long }
        ensures booked { (long : ℕ) → promised_at self.new long ≡ promised_at self.old long - of_length buffers.pieces buffers.length long }
    {
        if let Some(at) = self.find(buffers.length) {
            self.classes[at].forget(buffers.pieces);
        }
    }

    /// Counts pieces that won't come any more, and drops the buffers of their length that no open request can need,
    /// where `out` pieces of this length have theirs.
    fn count_off(&mut self, at: usize, buffers: Buffers, out: usize)
        requires { position (is_for buffers.length) self.old ≡ Some at }
        ensures there { position (is_for buffers.length) self.new ≡ Some at }
        ensures booked { (long : ℕ) → promised_at self.new long ≡ promised_at self.old long - of_length buffers.pieces buffers.length long }
        ensures trimmed { pieces_at self.new buffers.length ≡ min (pieces_at self.old buffers.length) (promised_at self.new buffers.length - out) }
        ensures others { (long : ℕ) → long ≢ buffers.length → pieces_at self.new long ≡ pieces_at self.old long }
    {
        self.classes[at].withdraw(buffers.pieces, out);
    }

    /// Counts pieces that won't come any more, and drops the buffers of their length that no open request can need,
    /// where `out` pieces of this length have theirs.
    pub fn withdraw(&mut self, buffers: Buffers, out: usize)
        ensures booked { (long : ℕ) → promised_at self.new long ≡ promised_at self.old long - of_length buffers.pieces buffers.length long }
        ensures trimmed { 1 ≤ buffers.pieces → pieces_at self.new buffers.length ≡ min (pieces_at self.old buffers.length) (promised_at self.new buffers.length - out) }
        ensures others { (long : ℕ) → of_length buffers.pieces buffers.length long ≡ 0 → pieces_at self.new long ≡ pieces_at self.old long }
    {
        let Some(at) = self.find(buffers.length) else {
            return;
        };
        if buffers.pieces == 0 {
            return;
        }
        self.count_off(at, buffers, out);
        self.drop_spent(at, buffers.length);
    }

    /// Drops a class for which there is no open request, where there are many.
    fn drop_spent(&mut self, at: usize, length: usize)
        requires there { position (is_for length) self.old ≡ Some at }
        requires empty { promised_at self.old length ≡ 0 → pieces_at self.old length ≡ 0 }
        ensures same { (long : ℕ) → pieces_at self.new long ≡ pieces_at self.old long }
        ensures booked { (long : ℕ) → promised_at self.new long ≡ promised_at self.old long }
    {
        if self.classes[at].is_spent() && self.classes.len() > SPENT_CLASSES {
            remove_length(&mut self.classes, length);
        }
    }

    /// Takes a buffer of this length, if a piece may have one.
    pub fn take(&mut self, length: usize) -> Option<Bytes>
        ensures booked { (long : ℕ) → promised_at self.new long ≡ promised_at self.old long }
        ensures taken { MatchOption result ((pieces_at self.old length ≡ 0) × (self.new ≡ self.old)) (λ b. IsOfLength b length × (pieces_at self.new length + 1 ≡ pieces_at self.old length) × ((long : ℕ) → long ≢ length → pieces_at self.new long ≡ pieces_at self.old long)) }
    {
        let at = self.find(length)?;
        self.classes[at].take()
    }

    /// Puts back the buffer of a piece that won't act, where open requests may need one more.
    pub fn put(&mut self, buffer: Bytes)
        ensures no_less { (long : ℕ) → pieces_at self.old long ≤ pieces_at self.new long }
        ensures booked { (long : ℕ) → promised_at self.new long ≡ promised_at self.old long }
        ensures back { min (pieces_at self.old (length buffer) + 1) (promised_at self.old (length buffer)) ≤ pieces_at self.new (length buffer) }
    {
        if let Some(at) = self.find(buffer.len()) {
            self.classes[at].put(buffer);
        }
    }
}
