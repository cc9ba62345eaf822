//! What a thread is handed.

ghost use Rattle.std.specs.Prelude.{◌≡◌};

use crate::ask::Ask;
use crate::done::{Done, note_of};
use chronicle::{Claims, Naming};
use file_disk::{FileDisk, Storage};
use std::marker::Model;

/// What a thread is to do: what was asked, with its place among all that was. Contracts see it as the two.
#[derive(Drop)]
pub struct Task<N: Naming> {
    pub(crate) at: usize,
    pub(crate) ask: Ask,
    pub(crate) claims: Claims<Ask, N>,
}

impl<N: Naming> Model for Task<N> {
    ghost use Rattle.std.specs.Prelude.{◌≡◌, ◌∷◌, [], ℕ};
    ghost use Rattle.movers.specs.declared.ask.Ask.{Ask};

    ghost Value = { ℕ × Ask };

    ghost view = { λ t. (t.at, t.ask) };

    ghost invariant = { λ t. t.claims ≡ (t.at, t.ask) ∷ [] };
}

impl<N: Naming> Task<N> {
    /// Its place among all that was asked.
    pub fn at(&self) -> usize
        ensures { result ≡ self.now.0 }
    {
        self.at
    }

    /// Has a disk carry out what was asked.
    pub fn carry_out<S: Storage + Drop>(self, disk: &mut FileDisk<S>) -> Done<N>
        ensures asked { (result.at ≡ self.0) × (result.ask ≡ self.1) }
        ensures before { result.before ≡ disk.old }
        ensures after { result.after ≡ disk.new }
    {
        let Task { at, ask, claims } = self;
        let sizes = disk.sizes();
        let was_full = disk.is_full();
        let before = note_of(disk.record());
        let moved = disk.transfer(ask.tag, ask.piece, &ask.srb);
        let full = disk.is_full();
        let after = note_of(disk.record());
        Done {
            at,
            ask,
            moved,
            sizes,
            was_full,
            full,
            before,
            after,
            claims,
        }
    }
}
