//! A register that is watched sight by sight.

ghost use Rattle.std.specs.Prelude.{◌≡◌, ◌++◌, ◌∷◌, [], IfOk, OnOk};
ghost use Rattle.register_loss.specs.Schedules.{opening};
ghost use Rattle.register_loss_judge.specs.Observed.{IsSoFar};
ghost use Rattle.register_loss_judge.specs.inside.Following.{Goes, GoesOn};
ghost use Rattle.register_loss_judge.specs.inside.States.{forms};

use crate::closing::see;
use crate::states::{State, copies, opening};
use noted::Noted;
use register::Contents;
use register_loss::{Sight, prefixes_are_scheduled};
use std::alloc::{AllocError, Global};
use std::marker::Model;

/// What is known of the sights so far.
#[derive(Debug, Clone, Copy, PartialEq, Eq)]
pub enum SoFar {
    /// Some schedule explains them.
    Passed,
    /// None does, and none will explain more.
    Refused,
    /// The register may have had too many states.
    Undecided,
}

/// A register that is watched. It keeps the states that the register may have.
#[derive(Drop)]
pub struct Observed {
    start: Contents,
    states: Vec<State>,
    so_far: SoFar,
    seen: Noted<Sight>,
}

impl Model for Observed {
    ghost use Rattle.register_loss_judge.specs.Observed.{ObservedView};
    ghost use Rattle.register_loss_judge.specs.inside.Following.{Keeps};
    ghost use Rattle.register_loss_judge.specs.inside.States.{forms};

    ghost Value = { ObservedView };

    ghost view = { λ o. record { start = o.start; sights = o.seen.items } };

    ghost invariant = { λ o. Keeps o.start (forms o.states.items) o.seen.items o.so_far };
}

/// Takes what is seen next of a register that may have some state.
fn goes(alloc: Global, states: &mut Vec<State>, sight: &Sight) -> Result<SoFar, AllocError>
    ensures { IfOk result (Goes (forms states.old.items) sight.now (forms states.new.items)) }
{
    let Some(next) = see(alloc, sight, states.as_slice())? else {
        return Ok(SoFar::Undecided);
    };
    let is_empty = next.is_empty();
    *states = next;
    if is_empty {
        return Ok(SoFar::Refused);
    }
    Ok(SoFar::Passed)
}

/// The same, given what is known before.
fn goes_on(
    alloc: Global,
    before: SoFar,
    states: &mut Vec<State>,
    sight: &Sight,
) -> Result<SoFar, AllocError>
    ensures { IfOk result (GoesOn before (forms states.old.items) sight.now (forms states.new.items)) }
{
    match before {
        SoFar::Passed => goes(alloc, states, sight),
        SoFar::Refused => Ok(SoFar::Refused),
        SoFar::Undecided => Ok(SoFar::Undecided),
    }
}

fn first(alloc: Global, start: &Contents) -> Result<Vec<State>, AllocError>
    ensures { IfOk result (λ states. forms states.items ≡ opening start.now ∷ []) }
{
    let mut states = Vec::new(alloc);
    states.push(opening(alloc, start)?)?;
    Ok(states)
}

impl Observed {
    /// A register that has this value, of which nothing was seen.
    ///
    /// # Errors
    ///
    /// [`AllocError`] where memory was refused.
    #[tactic(auto, using(crate::proofs::Watching::going_first))]
    pub fn new(alloc: Global, start: &Contents) -> Result<Observed, AllocError>
        ensures { IfOk result (λ observed. observed ≡ record { start = start.now; sights = [] }) }
    {
        let states = first(alloc, start)?;
        Ok(Observed {
            start: start.share()?,
            states,
            so_far: SoFar::Passed,
            seen: Noted::none(),
        })
    }

    /// Takes what is seen next.
    ///
    /// # Errors
    ///
    /// [`AllocError`] where memory was refused: then nothing is known any more.
    #[tactic(auto, using(crate::proofs::Watching::keeps_more))]
    pub fn see(&mut self, alloc: Global, sight: &Sight) -> Result<(), AllocError>
        ensures start { self.new.start ≡ self.old.start }
        ensures seen { OnOk result (self.new.sights ≡ self.old.sights ++ sight.now ∷ []) }
    {
        prefixes_are_scheduled();
        let before = self.so_far;
        self.so_far = SoFar::Undecided;
        self.so_far = goes_on(alloc, before, &mut self.states, sight)?;
        self.seen = self.seen.with(sight);
        Ok(())
    }

    /// The same once more.
    ///
    /// # Errors
    ///
    /// [`AllocError`] where memory was refused.
    #[tactic(auto, using(crate::proofs::Watching::keeps_alike))]
    pub fn copy(&self, alloc: Global) -> Result<Observed, AllocError>
        ensures { IfOk result (λ observed. observed ≡ self.now) }
    {
        let states = copies(alloc, self.states.as_slice())?;
        Ok(Observed {
            start: self.start.share()?,
            states,
            so_far: self.so_far,
            seen: self.seen.with(&self.so_far),
        })
    }

    /// What is known of the sights so far.
    pub fn so_far(&self) -> SoFar
        ensures right { IsSoFar self.now.start self.now.sights result }
    {
        let found = self.so_far;
        let _start = &self.start;
        let _states = &self.states;
        found
    }
}
