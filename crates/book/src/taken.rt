//! What was booked of the journal's entries.

ghost use Rattle.std.specs.Prelude.{◌≡◌, ◌<◌, ◌∷◌, ◌++◌, ◌+◌, [], List, Some, length, slice_get};
ghost use Rattle.sector_journal.specs.declared.acted.Entered.{Entered};
ghost use Rattle.book.specs.Taken.{BeginsWith, TakesNext, numbered_from};

use chronicle::Claims;
use disk::Medium;
use sector_journal::{Entered, History, Journal, Naming, OfEntries};
use std::marker::Model;

/// The journal's receipts of what was booked: for act n of a trace that of entry n, from 0. Contracts see the entries.
#[derive(Drop)]
pub struct Taken<N: Naming> {
    receipts: Claims<Entered, OfEntries<N>>,
    count: u64,
}

impl<N: Naming> Model for Taken<N> {
    ghost use Rattle.std.specs.Prelude.{◌≡◌, List, length};
    ghost use Rattle.sector_journal.specs.declared.acted.Entered.{Entered};
    ghost use Rattle.book.specs.Taken.{entries_claimed, numbered_from};

    ghost Value = { List Entered };

    ghost view = { λ t. entries_claimed t.receipts };

    ghost invariant = { λ t. record {
      numbered : t.receipts ≡ numbered_from 0 (entries_claimed t.receipts);
      counted : t.count ≡ length (entries_claimed t.receipts);
    } };
}

impl<N: Naming> Taken<N> {
    /// The receipts of nothing, before anything was booked.
    pub fn new<M: Medium>(journal: &mut Journal<M, N>, words: &History<N>) -> Taken<N>
        ensures none { result ≡ [] }
        ensures same { journal.new ≡ journal.old }
    {
        let receipts = journal.no_receipts(words);
        Taken { receipts, count: 0 }
    }

    /// Returns how many entries were booked: the number of the next one.
    pub fn len(&self) -> u64
        ensures { result ≡ length self.now }
    {
        self.count
    }

    /// Shows a holder of both locks that what was booked is the front of the journal's entries.
    pub fn check<M: Medium>(&mut self, journal: &mut Journal<M, N>, words: &History<N>)
        ensures front { BeginsWith journal.old.entered self.old }
        ensures same { (self.new ≡ self.old) × (journal.new ≡ journal.old) }
    {
        journal.check(words, &mut self.receipts);
    }

    /// Notes that the next entry of the journal was booked.
    pub fn add<M: Medium>(&mut self, journal: &mut Journal<M, N>, words: &History<N>)
        requires next { length self.old < length journal.old.entered }
        ensures takes { TakesNext journal.old.entered self.old self.new }
        ensures same { journal.new ≡ journal.old }
    {
        let _all = journal.entries().len();
        let receipt = journal.receipt(words, self.count);
        self.receipts.join(&words.entries, receipt);
        self.count += 1;
    }

    /// The receipts of the entries that were booked, by their numbers.
    pub fn into_receipts(self) -> Claims<Entered, OfEntries<N>>
        ensures { result ≡ numbered_from 0 self }
    {
        let Taken { receipts, count: _ } = self;
        receipts
    }
}
