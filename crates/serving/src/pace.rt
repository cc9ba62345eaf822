//! When the owner of a stack moves a piece itself.

use std::time::Clock;

/// For how many nanoseconds a transfer may last that the owner makes itself, and one more for each byte.
const SHORT: u64 = 100_000;

/// How many transfers in a row last longer, until the owner hands pieces out.
const LONG_ONES: u32 = 4;

/// How many pieces are handed out, at first, before the owner makes a transfer itself again to see how long it lasts.
const HANDED: u32 = 64;

/// How many are handed out at most.
const MOST_HANDED: u32 = 4096;

/// When transfers are made by the owner.
#[derive(Debug, Clone, Copy)]
pub(crate) struct Pace {
    /// How many of the newest transfers lasted long.
    long: u32,
    /// How many pieces are handed out before the owner tries one again.
    stretch: u32,
    /// How many were handed out since it tried.
    handed: u32,
}

impl Pace {
    /// The owner moves pieces itself at first.
    pub(crate) fn new() -> Pace {
        Pace {
            long: 0,
            stretch: HANDED,
            handed: 0,
        }
    }

    /// Whether the owner makes the next transfer itself.
    pub(crate) fn is_here(&self) -> bool {
        self.long < LONG_ONES || self.handed >= self.stretch
    }

    /// A piece was handed out.
    pub(crate) fn hands(&mut self) {
        self.handed = self.handed.saturating_add(1);
    }

    /// The owner made a transfer of so many bytes that lasted for so many nanoseconds. While they are long, it tries ever
    /// more rarely.
    pub(crate) fn moved(&mut self, nanos: u64, bytes: u64) {
        if nanos <= SHORT.saturating_add(bytes) {
            *self = Pace::new();
            return;
        }
        if self.long >= LONG_ONES {
            self.stretch = self.stretch.saturating_mul(2).min(MOST_HANDED);
        }
        self.long = self.long.saturating_add(1);
        self.handed = 0;
    }
}

/// The clock's time in nanoseconds; 0 where it isn't known.
pub(crate) fn nanos_of<C: Clock>(clock: &C) -> u64 {
    match clock.monotonic() {
        Ok(time) => time.as_nanos().min(u64::MAX as u128) as u64,
        Err(_) => 0,
    }
}
