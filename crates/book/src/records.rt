//! What stands beside a book.

use crate::name::BookNaming;
use disk::Medium;
use sector_journal::{Journal, OfArmings, OfEntries};
use std::marker::Model;
use std::sync::Mutex;
use traced::Context;

/// What stands beside a book's stack, and where its journal notes entries and armings. All threads of a book have the
/// same, and need nothing of it but that it is of the book's name.
#[derive(Drop)]
pub struct Records<'a, N: BookNaming>
where
    OfArmings<N>: chronicle::Naming,
    OfEntries<N>: chronicle::Naming,
{
    pub(crate) context: Context<'a, N>,
    pub(crate) words: &'a sector_journal::History<N>,
}

impl<'a, N: BookNaming> Model for Records<'a, N>
where
    OfArmings<N>: chronicle::Naming,
    OfEntries<N>: chronicle::Naming,
{
    ghost Value = { Unit {0} };

    ghost view = { λ r. tt };
}

impl<'a, N: BookNaming> Records<'a, N> {
    /// The histories of a book and of its journal, with the marks of its requests.
    pub fn new(context: Context<'a, N>, words: &'a sector_journal::History<N>) -> Records<'a, N> {
        Records { context, words }
    }
}

/// What stands beside a book, for a thread that has the book's lock alone.
#[derive(Drop)]
pub struct Beside<'a, M: Medium, N: BookNaming>
where
    OfArmings<N>: chronicle::Naming,
    OfEntries<N>: chronicle::Naming,
{
    pub records: Records<'a, N>,
    /// Its lock is taken after the book's.
    pub journal: &'a Mutex<Journal<M, N>>,
}
