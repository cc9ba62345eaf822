//! Control flags and flags of a stack location.

ghost use Rattle.std.specs.Prelude.{⊤, ◌≡◌, ◌==◌, [], ◌∷◌, codes};

use crate::{Control, LocationFlags};
use bitflags::{Flag, Flags, bitflag_items};

bitflag_items! {
    impl Control: u8 {
        const PENDING_RETURNED = 1;
        const INVOKE_ON_CANCEL = 32;
        const INVOKE_ON_SUCCESS = 64;
        const INVOKE_ON_ERROR = 128;
    }
}

impl Flags for Control {
    type Bits = u8;

    ghost exact = { ⊤ };

    ghost table = { (codes "PENDING_RETURNED", 1) ∷ (codes "INVOKE_ON_CANCEL", 32) ∷ (codes "INVOKE_ON_SUCCESS", 64) ∷ (codes "INVOKE_ON_ERROR", 128) ∷ [] };

    ghost set_of = { λ p. p.0 };

    fn flags<'a>() -> &'a [Flag<Control>] {
        Control::FLAGS
    }

    fn bits(&self) -> u8 {
        self.0
    }

    fn from_bits_retain(bits: u8) -> Control {
        Control(bits)
    }
}

bitflag_items! {
    impl LocationFlags: u8 {
        const WRITE_THROUGH = 4;
    }
}

impl Flags for LocationFlags {
    type Bits = u8;

    ghost exact = { ⊤ };

    ghost table = { (codes "WRITE_THROUGH", 4) ∷ [] };

    ghost set_of = { λ p. p.0 };

    fn flags<'a>() -> &'a [Flag<LocationFlags>] {
        LocationFlags::FLAGS
    }

    fn bits(&self) -> u8 {
        self.0
    }

    fn from_bits_retain(bits: u8) -> LocationFlags {
        LocationFlags(bits)
    }
}
