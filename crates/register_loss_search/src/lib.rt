//! A search for schedules of a register over losses of power: what has to be kept behind each sight.
//!
//! It keeps registers, with all that open operations may have done unseen. One goes where another one that is left covers
//! it (`Covers`): that waits for no more, has as many turns, and may hold whatever it may, and as long.
//!
//! # Promises
//!
//! Sights have a schedule exactly where something is kept behind them (`search_is_exact`).
#![tactic(auto)]

ghost use Rattle.register_loss_search.specs.Searching.{SearchIsExact};

/// Sights have a schedule exactly where something is kept behind them.
pub fn search_is_exact()
    ensures { SearchIsExact }
{}
