//! The flags of an SRB.

ghost use Rattle.std.specs.Prelude.{⊤, ◌≡◌, ◌==◌, [], ◌∷◌, codes};

use bitflags::{Flag, Flags, bitflag_items};

/// The direction of an SRB's data transfer (WDK: SrbFlags). With neither there is none.
#[derive(Clone, Copy, Default, PartialEq, Eq, Debug)]
pub struct SrbFlags(pub u8);

bitflag_items! {
    impl SrbFlags: u8 {
        const DATA_IN = 64;
        const DATA_OUT = 128;
    }
}

impl Flags for SrbFlags {
    type Bits = u8;

    ghost exact = { ⊤ };

    ghost table = { (codes "DATA_IN", 64) ∷ (codes "DATA_OUT", 128) ∷ [] };

    ghost set_of = { λ p. p.0 };

    fn flags<'a>() -> &'a [Flag<SrbFlags>] {
        SrbFlags::FLAGS
    }

    fn bits(&self) -> u8 {
        self.0
    }

    fn from_bits_retain(bits: u8) -> SrbFlags {
        SrbFlags(bits)
    }
}
