//! The histories of a journal.

ghost use Rattle.std.specs.Prelude.{◌≡◌};

use crate::acted::Entered;
use crate::name::{Naming, OfArmings, OfEntries};
use crate::slots::Armed;
use std::alloc::{AllocError, Global};
use std::marker::{Brand, Model};

/// The histories of a new journal, which are empty and have no name yet. Contracts see their identities.
pub struct Opened {
    pub(crate) armings: chronicle::Opened<Armed>,
    pub(crate) entries: chronicle::Opened<Entered>,
}

impl Model for Opened {
    ghost use Rattle.sector_journal.specs.inside.Naming.{Names};

    ghost Value = { Names };

    ghost view = { λ o. record { armings = o.armings; entries = o.entries } };
}

impl Opened {
    /// Two empty histories.
    ///
    /// # Errors
    ///
    /// Where the memory for their words was refused.
    pub fn new(alloc: Global) -> Result<Opened, AllocError> {
        let armings = chronicle::Opened::new(alloc)?;
        match chronicle::Opened::new(alloc) {
            Ok(entries) => Ok(Opened { armings, entries }),
            Err(refused) => {
                end::<Armed, Brand>(armings);
                Err(refused)
            }
        }
    }
}

// Ends a history that nobody needs.
fn end<E, N: chronicle::Naming>(opened: chronicle::Opened<E>)
    requires { opened ≡ N.table }
{
    let (_history, _whole) = opened.named::<N>();
}

/// The two words of memory on which a journal's histories stand, and which threads share by reference. Their values
/// mean nothing, and never change.
#[derive(Drop)]
pub struct History<N: Naming>
where
    OfArmings<N>: chronicle::Naming,
    OfEntries<N>: chronicle::Naming,
{
    pub armings: chronicle::History<Armed, OfArmings<N>>,
    pub entries: chronicle::History<Entered, OfEntries<N>>,
}
