//! The receipt of an arming.

ghost use Rattle.std.specs.Prelude.{◌≡◌, ◌<◌, ◌∷◌, [], None, Some, MatchBool, MatchOption, length, slice_get, true};
ghost use Rattle.sector_journal.specs.declared.acted.Entered.{Entered};
ghost use Rattle.sector_journal.specs.declared.slots.Armed.{Armed};
ghost use Rattle.sector_journal.specs.Slots.{armed_at};
ghost use Rattle.book.specs.Arming.{IsOfOther, IsOfPiece, IsOfThis};

use chronicle::Claims;
use disk::Medium;
use sector_journal::{Armed, History, Journal, Naming, OfArmings};
use std::marker::Model;

/// What was armed on a tag: the journal's receipt, by which its entry is known. Contracts see the claim.
#[derive(Drop)]
pub struct Arming<N: Naming> {
    number: u64,
    piece: u128,
    receipt: Claims<Armed, OfArmings<N>>,
}

impl<N: Naming> Model for Arming<N> {
    ghost use Rattle.std.specs.Prelude.{List, ℕ};
    ghost use Rattle.sector_journal.specs.declared.slots.Armed.{Armed};
    ghost use Rattle.book.specs.Arming.{IsReceipt};

    ghost Value = { List (ℕ × Armed) };

    ghost view = { λ a. a.receipt };

    ghost invariant = { λ a. IsReceipt a.number a.piece a.receipt };
}

/// The number of the arming that an entry names.
fn arming_of<M: Medium, N: Naming>(journal: &Journal<M, N>, entry: u64) -> u64
    requires { entry < length journal.now.entered }
    ensures { (entered : Entered) × (slice_get journal.now.entered entry ≡ Some entered) × (result ≡ entered.arming) }
{
    journal.entries()[entry as usize].arming
}

impl<N: Naming> Arming<N> {
    /// The arming of the piece that may act on a tag.
    pub fn of<M: Medium>(
        journal: &mut Journal<M, N>,
        words: &History<N>,
        tag: u8,
    ) -> Option<Arming<N>>
        ensures same { journal.new ≡ journal.old }
        ensures arming { MatchOption result (armed_at journal.old.slots tag ≡ None) (λ a. (armed : Armed) × (armed_at journal.old.slots tag ≡ Some armed) × (a ≡ (armed.number, armed) ∷ [])) }
    {
        let armed = journal.armed(tag)?;
        let number = armed.number;
        let piece = armed.piece;
        let receipt = journal.arming_receipt(words, tag)?;
        Some(Arming {
            number,
            piece,
            receipt,
        })
    }

    /// Whether the arming is of this piece.
    pub fn is_of_piece(&self, piece: u128) -> bool
        ensures { MatchBool result (IsOfPiece piece self.now) (IsOfOther piece self.now) }
    {
        self.piece == piece
    }

    /// Whether the entry of a number is of this arming, and so of what was armed here; contracts say so only of true.
    /// The caller holds both locks.
    pub fn is_of<M: Medium>(
        &mut self,
        journal: &mut Journal<M, N>,
        words: &History<N>,
        entry: u64,
    ) -> bool
        requires { entry < length journal.old.entered }
        ensures same { (self.new ≡ self.old) × (journal.new ≡ journal.old) }
        ensures of_this { result ≡ true → IsOfThis journal.old self.old entry }
    {
        let named = arming_of(journal, entry);
        if named != self.number {
            return false;
        }
        journal.shows_armings();
        journal.check_armings(words, &mut self.receipt);
        true
    }
}
