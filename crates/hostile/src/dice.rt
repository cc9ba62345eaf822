//! Dice.

use rand_core::Rng;
use rand_pcg::Pcg32;

/// A source of numbers, which its seed determines.
#[derive(Drop)]
pub struct Dice {
    rng: Pcg32,
}

impl Dice {
    /// The dice of a seed.
    pub fn new(seed: u64) -> Dice {
        Dice {
            rng: Pcg32::new(seed, 54),
        }
    }

    /// A number below `many`, or 0 where `many` is 0.
    pub fn below(&mut self, many: u32) -> u32 {
        self.rng.next_u32().checked_rem(many).unwrap_or(0)
    }

    /// A byte below `many`, which is at most 256, or 0 where `many` is 0.
    pub fn byte(&mut self, many: u32) -> u8 {
        u8::try_from(self.below(many)).unwrap_or(0)
    }

    /// Whether a chance of one in `many` came up.
    pub fn one_of(&mut self, many: u32) -> bool {
        self.below(many) == 0
    }

    /// A number from 1 to `most`.
    pub fn from_one_to(&mut self, most: u32) -> u32 {
        self.below(most).saturating_add(1)
    }
}
