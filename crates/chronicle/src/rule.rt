//! The rule that ties claims to the history, and its kinds of step.

ghost use Rattle.std.specs.Prelude.{List, ◌∷◌, []};
ghost use Rattle.atomic_table.specs.Seated.{TableId};
ghost use Rattle.chronicle.specs.History.{Adds, Checks, Kept, bearer, keeper, no_table, nobody, with_claims_of, without_claims};

use atomic_table::{Join, Play, Split, Table, TableRule};
use std::alloc::Global;
use std::collections::LinkedList;
use std::marker::{Brand, PhantomData};

/// Names one history, for contracts alone. Each call of a program picks it: a function that is generic in it takes an
/// [`Opened`](crate::Opened) and requires that this is the history named, and its caller passes `Brand`.
pub trait Naming {
    ghost table: { TableId };
}

impl Naming for Brand {
    ghost table = { no_table };
}

/// What a seat knows. No value of it is made.
pub struct View<E> {
    /// Whether it is the one seat that knows the history.
    pub keeps: bool,
    /// All entries, if it keeps them.
    pub entries: LinkedList<E>,
    /// The entries that it claims, with their places.
    pub claims: LinkedList<(usize, E)>,
}

pub struct HistoryRule;

impl<E> TableRule<(), View<E>, ()> for HistoryRule {
    ghost holds = { λ _. Kept };

    ghost first = { λ _. keeper [] };
}

pub type Word<E> = Table<(), View<E>, (), HistoryRule, Global>;

pub type Seat<E> = atomic_table::Seat<(), View<E>>;

/// What a step is about. Each call picks it.
pub trait About<T> {
    ghost items: { List T };
}

impl<T> About<T> for Brand {
    ghost items = { [] };
}

/// Adds entries.
pub struct Add<P> {
    of: PhantomData<P>,
}

impl<E, P: About<E>> Play<(), View<E>> for Add<P> {
    ghost then = { Adds P.items };
}

/// Compares the claims with all entries.
pub struct Check;

impl<E> Play<(), View<E>> for Check {
    ghost then = { Checks };
}

/// A seat that claims entries at their places.
pub struct Claim<P> {
    of: PhantomData<P>,
}

impl<E, P: About<(usize, E)>> Split<View<E>> for Claim<P> {
    ghost left = { λ v. v };

    ghost right = { λ _. bearer P.items };
}

/// A seat that claims nothing.
pub struct Nobody;

impl<E> Split<View<E>> for Nobody {
    ghost left = { λ v. v };

    ghost right = { λ _. nobody };
}

/// A seat that takes the claims of another.
pub struct Apart;

impl<E> Split<View<E>> for Apart {
    ghost left = { without_claims };

    ghost right = { λ v. bearer v.claims };
}

/// A seat that has the claims of another too.
pub struct Again;

impl<E> Split<View<E>> for Again {
    ghost left = { λ v. v };

    ghost right = { λ v. bearer v.claims };
}

/// The claims of two seats in one.
pub struct Gather;

impl<E> Join<View<E>> for Gather {
    ghost both = { with_claims_of };

    ghost spent = { nobody };
}
