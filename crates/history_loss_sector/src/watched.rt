//! A register over losses that is watched, and the line behind which nothing explains it.

ghost use Rattle.std.specs.Prelude.{◌≡◌, ◌++◌, ◌∷◌, [], IfOk, OnOk};
ghost use Rattle.register_loss_judge.specs.Observed.{IsSoFar};

use register::Contents;
use register_loss::Sight;
use register_loss_judge::{Observed, SoFar};
use std::alloc::{AllocError, Global};

#[derive(Drop)]
pub(crate) struct Watched {
    pub seen: Observed,
    /// The line of its last sight, or of that behind which nothing explains it.
    pub line: u64,
}

impl Watched {
    /// Of which nothing was seen.
    pub fn new(alloc: Global, start: &Contents) -> Result<Watched, AllocError>
        ensures { IfOk result (λ watched. watched.seen ≡ record { start = start.now; sights = [] }) }
    {
        Ok(Watched {
            seen: Observed::new(alloc, start)?,
            line: 0,
        })
    }

    /// The same once more.
    pub fn copy(&self, alloc: Global) -> Result<Watched, AllocError>
        ensures { IfOk result (λ watched. watched.seen ≡ self.now.seen) }
    {
        Ok(Watched {
            seen: self.seen.copy(alloc)?,
            line: self.line,
        })
    }

    /// Takes what is seen next.
    pub fn see(&mut self, alloc: Global, line: u64, sight: &Sight) -> Result<(), AllocError>
        ensures start { self.new.seen.start ≡ self.old.seen.start }
        ensures seen { OnOk result (self.new.seen.sights ≡ self.old.seen.sights ++ sight.now ∷ []) }
    {
        if !matches!(self.seen.so_far(), SoFar::Refused) {
            self.line = line;
        }
        self.seen.see(alloc, sight)
    }

    /// What is known of the sights so far.
    pub fn so_far(&self) -> SoFar
        ensures { IsSoFar self.now.seen.start self.now.seen.sights result }
    {
        self.seen.so_far()
    }
}
