//! A register that is watched sight by sight.

ghost use Rattle.std.specs.Prelude.{◌≡◌, ◌++◌, ◌∷◌, [], IfOk, OnOk};
ghost use Rattle.register_judge.specs.Observed.{IsSoFar};
ghost use Rattle.register_judge.specs.inside.Following.{Goes, GoesOn};

use crate::keeping::Register;
use noted::Noted;
use register::{Contents, Sight, prefixes_are_scheduled};
use std::alloc::{AllocError, Global};
use std::marker::Model;

/// What is known of the sights so far.
#[derive(Debug, Clone, Copy, PartialEq, Eq)]
pub enum SoFar {
    /// Some schedule explains them.
    Passed,
    /// None does, and none will explain more.
    Refused,
    /// The register may have had too many states, numbers don't rise, or what isn't open ended.
    Undecided,
}

/// A register that is watched. It keeps what is open, and the values that the register may have.
#[derive(Drop)]
pub struct Observed {
    start: Contents,
    register: Register,
    so_far: SoFar,
    seen: Noted<Sight>,
}

impl Model for Observed {
    ghost use Rattle.register_judge.specs.Observed.{ObservedView};
    ghost use Rattle.register_judge.specs.inside.Following.{Keeps};

    ghost Value = { ObservedView };

    ghost view = { λ o. record { start = o.start; sights = o.seen.items } };

    ghost invariant = { λ o. Keeps o.start o.register o.seen.items o.so_far };
}

/// Takes what is seen next of a register that may have some state.
fn goes(alloc: Global, register: &mut Register, sight: &Sight) -> Result<SoFar, AllocError>
    ensures { IfOk result (Goes register.old sight.now register.new) }
{
    if !register.see(alloc, sight)? {
        return Ok(SoFar::Undecided);
    }
    if register.has_none() {
        return Ok(SoFar::Refused);
    }
    Ok(SoFar::Passed)
}

/// The same, given what is known before.
fn goes_on(
    alloc: Global,
    before: SoFar,
    register: &mut Register,
    sight: &Sight,
) -> Result<SoFar, AllocError>
    ensures { IfOk result (GoesOn before register.old sight.now register.new) }
{
    match before {
        SoFar::Passed => goes(alloc, register, sight),
        SoFar::Refused => Ok(SoFar::Refused),
        SoFar::Undecided => Ok(SoFar::Undecided),
    }
}

impl Observed {
    /// A register that has this value, of which nothing was seen.
    ///
    /// # Errors
    ///
    /// [`AllocError`] where memory was refused.
    pub fn new(alloc: Global, start: &Contents) -> Result<Observed, AllocError>
        ensures { IfOk result (λ observed. observed ≡ record { start = start.now; sights = [] }) }
    {
        let register = Register::new(alloc, start)?;
        Ok(Observed {
            start: start.share()?,
            register,
            so_far: SoFar::Passed,
            seen: Noted::none(),
        })
    }

    /// Takes what is seen next.
    ///
    /// # Errors
    ///
    /// [`AllocError`] where memory was refused: then nothing is known any more.
    #[tactic(auto, using(crate::proofs::Following::keeps_more))]
    pub fn see(&mut self, alloc: Global, sight: &Sight) -> Result<(), AllocError>
        ensures start { self.new.start ≡ self.old.start }
        ensures seen { OnOk result (self.new.sights ≡ self.old.sights ++ sight.now ∷ []) }
    {
        prefixes_are_scheduled();
        let before = self.so_far;
        self.so_far = SoFar::Undecided;
        self.so_far = goes_on(alloc, before, &mut self.register, sight)?;
        self.seen = self.seen.with(sight);
        Ok(())
    }

    /// The same once more.
    ///
    /// # Errors
    ///
    /// [`AllocError`] where memory was refused.
    #[tactic(auto, using(crate::proofs::Following::keeps_alike))]
    pub fn copy(&self, alloc: Global) -> Result<Observed, AllocError>
        ensures { IfOk result (λ observed. observed ≡ self.now) }
    {
        let register = self.register.copy(alloc)?;
        Ok(Observed {
            start: self.start.share()?,
            register,
            so_far: self.so_far,
            seen: self.seen.with(&self.so_far),
        })
    }

    /// What is known of the sights so far.
    pub fn so_far(&self) -> SoFar
        ensures right { IsSoFar self.now.start self.now.sights result }
    {
        let found = self.so_far;
        found
    }
}
