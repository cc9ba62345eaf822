//! A list that only grows, known whole to who has its [`Whole`], and claims on its places that outlive every lock: the
//! entry of a claim stands at its place, for good.
//!
//! The list exists in contracts alone, and no entry is kept or copied here. What threads share is one word, which never
//! changes; the rule over it ties the [`Whole`] and all [`Claims`]. So what one thread noted under a lock it can later
//! prove to who has the lock, though nothing is known of what lies under a lock but its type's invariant.
//!
//! # Promises
//!
//! Only `Whole::add` changes the history, and there is one `Whole` at most (`one_whole`). A claim is given on an entry
//! that stands at its place (`claim`) or comes from claims (`join`, `again`), and what is claimed stands for good
//! (`check`, `claims_stand`). Only `Opened::new` takes memory.
#![tactic(auto)]

ghost use Rattle.std.specs.Prelude.{◌≡◌, ◌∷◌, ◌++◌, [], ◌<◌, Some, slice_get};
ghost use Rattle.chronicle.specs.Claims.{AllStand};
ghost use Rattle.chronicle.specs.History.{bearer, keeper};
ghost use Rattle.chronicle.specs.Laws.{ClaimsStand, ClaimsStayStanding, OneKeeps};

mod rule;

use atomic_table::Shared;
pub use rule::Naming;
use rule::{About, Add, Again, Apart, Check, Claim, Gather, HistoryRule, Nobody, Seat, View, Word};
use std::alloc::{AllocError, Global};
use std::marker::{Brand, Model, PhantomData};
use std::mem;

/// A new history, which is empty and has no name yet. Contracts see it as its identity.
pub struct Opened<E> {
    word: Word<E>,
    seat: Seat<E>,
}

impl<E> Model for Opened<E> {
    ghost use Rattle.std.specs.Prelude.{◌≡◌, []};
    ghost use Rattle.atomic_table.specs.Seated.{TableId};
    ghost use Rattle.chronicle.specs.History.{keeper};

    ghost Value = { TableId };

    ghost view = { λ o. o.word.shared.table_id };

    ghost invariant = { λ o. (o.word.shared.table_id.words ≡ 1) × (o.seat.table_id ≡ o.word.shared.table_id) × (o.seat.me ≡ (keeper [], [])) };
}

/// The word that all threads share, by reference. It says nothing: a call only loads it, up to four times.
#[derive(Drop)]
pub struct History<E, N: Naming> {
    word: Word<E>,
    of: PhantomData<N>,
    ghost is: { word.shared.table_id ≡ N.table },
    ghost words: { word.shared.table_id.words ≡ 1 },
}

/// What one thread alone has: it knows the whole history, and can add to it. Contracts see it as the entries.
#[derive(Drop)]
pub struct Whole<E, N: Naming> {
    seat: Seat<E>,
    of: PhantomData<N>,
}

impl<E, N: Naming> Model for Whole<E, N> {
    ghost use Rattle.std.specs.Prelude.{◌≡◌, List, []};
    ghost use Rattle.chronicle.specs.History.{keeper};

    ghost Value = { List E };

    ghost view = { λ w. w.seat.me.0.entries };

    ghost invariant = { λ w. (w.seat.table_id ≡ N.table) × (w.seat.me ≡ (keeper w.seat.me.0.entries, [])) };
}

/// Places of the history and the entries that stand there, for good. Contracts see it as the pairs.
#[derive(Drop)]
pub struct Claims<E, N: Naming> {
    seat: Seat<E>,
    of: PhantomData<N>,
}

impl<E, N: Naming> Model for Claims<E, N> {
    ghost use Rattle.std.specs.Prelude.{◌≡◌, ℕ, List, []};
    ghost use Rattle.chronicle.specs.History.{bearer};

    ghost Value = { List (ℕ × E) };

    ghost view = { λ c. c.seat.me.0.claims };

    ghost invariant = { λ c. (c.seat.table_id ≡ N.table) × (c.seat.me ≡ (bearer c.seat.me.0.claims, [])) };
}

impl<E> Opened<E> {
    /// An empty history.
    ///
    /// # Errors
    ///
    /// Where the memory for its word was refused.
    #[tactic(auto, using(crate::proofs::Steps::begins))]
    pub fn new(alloc: Global) -> Result<Opened<E>, AllocError> {
        let (word, seat) = Word::of_words(alloc, &[0], &())?;
        Ok(Opened { word, seat })
    }

    /// The history under a name: the word that is shared, and the one [`Whole`].
    pub fn named<N: Naming>(self) -> (History<E, N>, Whole<E, N>)
        requires { self ≡ N.table }
        ensures { result.1 ≡ [] }
    {
        let Opened { word, seat } = self;
        (
            History {
                word,
                of: PhantomData,
            },
            Whole {
                seat,
                of: PhantomData,
            },
        )
    }
}

impl<E, N: Naming> Whole<E, N> {
    /// Adds an entry at the end.
    pub fn add(&mut self, history: &History<E, N>, entry: &E)
        ensures { self.new ≡ self.old ++ entry.now ∷ [] }
    {
        add::<E, Brand>(&history.word.shared, &mut self.seat, entry);
    }

    /// A claim on a place, by the entry that stands there. Places count from 0.
    pub fn claim(&mut self, history: &History<E, N>, at: usize, entry: &E) -> Claims<E, N>
        requires { slice_get self.old at ≡ Some entry.now }
        ensures same { self.new ≡ self.old }
        ensures claim { result ≡ (at, entry.now) ∷ [] }
    {
        let seat = claim::<E, Brand>(&history.word.shared, &mut self.seat, at, entry);
        Claims {
            seat,
            of: PhantomData,
        }
    }

    /// No claims yet.
    #[tactic(auto, using(crate::proofs::Steps::claims_none))]
    pub fn no_claims(&mut self, history: &History<E, N>) -> Claims<E, N>
        ensures same { self.new ≡ self.old }
        ensures none { result ≡ [] }
    {
        let seat = history.word.shared.split_seat::<Nobody>(&mut self.seat);
        Claims {
            seat,
            of: PhantomData,
        }
    }

    /// What was claimed stands in the whole history. The claims are handed back as they were.
    pub fn check(&mut self, history: &History<E, N>, claims: &mut Claims<E, N>)
        ensures same { (self.new ≡ self.old) × (claims.new ≡ claims.old) }
        ensures stand { AllStand self.old claims.old }
    {
        let none = self.no_claims(history);
        let taken = mem::replace(claims, none);
        *claims = self.compare(history, taken);
    }

    // Compares claims that are handed in and back.
    #[tactic(auto, using(crate::proofs::Steps::gathers, crate::proofs::Steps::parts))]
    fn compare(&mut self, history: &History<E, N>, claims: Claims<E, N>) -> Claims<E, N>
        ensures same { (self.new ≡ self.old) × (result ≡ claims) }
        ensures stand { AllStand self.old claims }
    {
        let Claims { seat, of } = claims;
        history
            .word
            .shared
            .join_seat::<Gather>(&mut self.seat, seat);
        history.word.shared.load::<Check>(&mut self.seat, 0);
        let seat = history.word.shared.split_seat::<Apart>(&mut self.seat);
        Claims { seat, of }
    }
}

impl<E, N: Naming> Claims<E, N> {
    /// These claims, and behind them others.
    #[tactic(auto, using(crate::proofs::Steps::gathers))]
    pub fn join(&mut self, history: &History<E, N>, other: Claims<E, N>)
        ensures { self.new ≡ self.old ++ other }
    {
        let Claims { seat, of: _ } = other;
        history
            .word
            .shared
            .join_seat::<Gather>(&mut self.seat, seat);
    }

    /// Copies the claims.
    #[tactic(auto, using(crate::proofs::Steps::copies))]
    pub fn again(&mut self, history: &History<E, N>) -> Claims<E, N>
        ensures same { self.new ≡ self.old }
        ensures again { result ≡ self.old }
    {
        let seat = history.word.shared.split_seat::<Again>(&mut self.seat);
        Claims {
            seat,
            of: PhantomData,
        }
    }
}

/// There is one [`Whole`] of a history at most.
pub fn one_whole<E>()
    ensures { OneKeeps E }
{}

/// The entries of all claims stand at their places whenever one looks, and in each history that goes on from it.
#[tactic(auto, using(crate::proofs::Steps::stay_standing))]
pub fn claims_stand<E>()
    ensures now { ClaimsStand E }
    ensures later { ClaimsStayStanding E }
{}

// Adds an entry, which the call picks.
fn add<E, P: About<E>>(shared: &Shared<(), View<E>, (), HistoryRule>, seat: &mut Seat<E>, entry: &E)
    requires table { (seat.old.table_id ≡ shared.now.table_id) × (shared.now.table_id.words ≡ 1) }
    requires keeper { seat.old.me ≡ (keeper seat.old.me.0.entries, []) }
    requires entry { P.items ≡ entry.now ∷ [] }
    ensures table { seat.new.table_id ≡ seat.old.table_id }
    ensures added { seat.new.me ≡ (keeper (seat.old.me.0.entries ++ entry.now ∷ []), []) }
{
    shared.load::<Add<P>>(seat, 0);
}

// A claim, which the call picks.
fn claim<E, P: About<(usize, E)>>(
    shared: &Shared<(), View<E>, (), HistoryRule>,
    seat: &mut Seat<E>,
    at: usize,
    entry: &E,
) -> Seat<E>
    requires table { (seat.old.table_id ≡ shared.now.table_id) × (shared.now.table_id.words ≡ 1) }
    requires keeper { seat.old.me ≡ (keeper seat.old.me.0.entries, []) }
    requires claim { P.items ≡ (at, entry.now) ∷ [] }
    requires stands { slice_get seat.old.me.0.entries at ≡ Some entry.now }
    ensures table { (seat.new.table_id ≡ seat.old.table_id) × (result.table_id ≡ seat.old.table_id) }
    ensures same { seat.new.me ≡ seat.old.me }
    ensures claim { result.me ≡ (bearer ((at, entry.now) ∷ []), []) }
{
    shared.split_seat::<Claim<P>>(seat)
}
