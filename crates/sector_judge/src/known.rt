//! What is known of a sector.

ghost use Rattle.std.specs.Prelude.{◌≡◌, ◌++◌, [], ◌∷◌, true, false, Some, None, IfOk, OnOk, MatchBool, ◌||◌, ◌==◌};
ghost use Rattle.std.specs.List.{list_any};
ghost use Rattle.loss.specs.Held.{Puts, Secures, Tries, Syncs, Doubts, changed, surely};
ghost use Rattle.sector_judge.specs.declared.candidates.Candidate.TheVariants.{Told};
ghost use Rattle.sector_judge.specs.Known.{Knowledge, ended, given, may_give, next, nothing_known, with_held};
ghost use Rattle.sector_judge.specs.inside.Lists.{as_held};

use crate::Event;
use crate::candidates::{
    Candidate, Older, add_outdated, add_values, has_first, is_listed, is_told, staying, told,
};
use std::alloc::{AllocError, Global};
use std::marker::Model;

/// What is known of a sector behind some events.
#[derive(Debug, Drop)]
pub struct Known {
    any: bool,
    firsts: Vec<u64>,
    current: Vec<Candidate>,
    older: Vec<Older>,
}

impl Model for Known {
    ghost Value = { Knowledge };

    ghost view = { λ k. record { any = k.any; firsts = k.firsts.items; held = as_held k.current.items k.older.items } };
}

impl Known {
    /// Nothing is known.
    pub fn nothing(alloc: Global) -> Result<Known, AllocError>
        ensures { IfOk result (λ known. known ≡ nothing_known) }
    {
        let mut current = Vec::new(alloc);
        current.push(Candidate::First)?;
        Ok(Known {
            any: true,
            firsts: Vec::new(alloc),
            current,
            older: Vec::new(alloc),
        })
    }

    /// What a read may give.
    pub fn now(&self) -> &[Candidate]
        ensures { result.now ≡ self.now.held.now }
    {
        self.current.as_slice()
    }

    /// Whether a read may give this value.
    pub fn may_give(&self, value: u64) -> bool
        ensures { result ≡ may_give value self.now }
    {
        is_told(value, &self.current) || (has_first(&self.current) && self.may_begin(value))
    }

    /// Takes the next event, and says whether it can have happened. Where it can't, or memory was refused, the value is
    /// of no further use.
    pub fn take(&mut self, alloc: Global, event: Event) -> Result<bool, AllocError>
        ensures { IfOk result (λ taken. MatchBool taken (next self.old event ≡ Some self.new) (next self.old event ≡ None)) }
    {
        match event {
            Event::Given { value } => self.give(value),
            Event::Put { value, next } => {
                self.put(value, next)?;
                Ok(true)
            }
            Event::Secured { value } => {
                self.secure(value)?;
                Ok(true)
            }
            Event::Tried { value } => {
                self.current.push(Candidate::Told { value })?;
                Ok(true)
            }
            Event::Synced { flush } => {
                self.sync(alloc, flush)?;
                Ok(true)
            }
            Event::Doubted => {
                self.doubt()?;
                Ok(true)
            }
            Event::Lost => {
                self.lose(alloc)?;
                Ok(true)
            }
            Event::Ended => {
                self.end(alloc)?;
                Ok(true)
            }
        }
    }

    fn put(&mut self, value: u64, next: u128) -> Result<(), AllocError>
        ensures { OnOk result (self.new ≡ with_held self.old (changed next (Puts (Told value)) self.old.held)) }
    {
        add_outdated(&mut self.older, &self.current, next)?;
        self.current.clear();
        self.current.push(Candidate::Told { value })?;
        Ok(())
    }

    fn secure(&mut self, value: u64) -> Result<(), AllocError>
        ensures { OnOk result (self.new ≡ with_held self.old (surely (Told value))) }
    {
        self.older.clear();
        self.current.clear();
        self.current.push(Candidate::Told { value })?;
        Ok(())
    }

    fn sync(&mut self, alloc: Global, flush: u128) -> Result<(), AllocError>
        ensures { OnOk result (self.new ≡ with_held self.old (changed 0 (Syncs flush) self.old.held)) }
    {
        self.older = staying(alloc, &self.older, flush)?;
        Ok(())
    }

    fn doubt(&mut self) -> Result<(), AllocError>
        ensures { OnOk result (self.new ≡ with_held self.old (changed 0 Doubts self.old.held)) }
    {
        add_values(&mut self.current, &self.older)?;
        self.older.clear();
        Ok(())
    }

    fn lose(&mut self, alloc: Global) -> Result<(), AllocError>
        ensures { OnOk result (self.new ≡ ended (with_held self.old (changed 0 Doubts self.old.held))) }
    {
        self.doubt()?;
        self.end(alloc)
    }

    fn end(&mut self, alloc: Global) -> Result<(), AllocError>
        ensures { OnOk result (self.new ≡ ended self.old) }
    {
        let mut firsts = told(alloc, &self.current)?;
        let unknown = has_first(&self.current);
        if unknown {
            firsts.extend_from_slice(&self.firsts)?;
        }
        self.any = unknown && self.any;
        self.firsts = firsts;
        self.older.clear();
        self.current.clear();
        self.current.push(Candidate::First)?;
        Ok(())
    }

    fn give(&mut self, value: u64) -> Result<bool, AllocError>
        ensures { IfOk result (λ taken. MatchBool taken (given value self.old ≡ Some self.new) (given value self.old ≡ None)) }
    {
        if is_told(value, &self.current) {
            return Ok(true);
        }
        if !has_first(&self.current) || !self.may_begin(value) {
            return Ok(false);
        }
        self.any = false;
        self.firsts.clear();
        self.firsts.push(value)?;
        Ok(true)
    }

    fn may_begin(&self, value: u64) -> bool
        ensures { result ≡ (self.now.any || list_any (λ other. other == value) self.now.firsts) }
    {
        self.any || is_listed(value, &self.firsts)
    }
}
