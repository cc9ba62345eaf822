//! The bytes of a buffer that went below, which contracts alone read.

ghost use Rattle.std.specs.Prelude.{◌≡◌, ℕ, List, []};
ghost use Rattle.std.specs.Borrow.{ftrue};

use std::marker::{Model, PhantomData};

/// The bytes of a buffer as they were when it went below. No memory holds them.
#[derive(Drop)]
pub(crate) struct Noted {
    marker: PhantomData<u8>,
    pub ghost bytes: { List ℕ },
}

impl Model for Noted {
    ghost also_owns = { λ _. ftrue };
}

// The type owns nothing, so it may go to another thread.
unsafe impl Send for Noted {}

impl Noted {
    /// No bytes yet.
    pub fn new() -> Noted
        ensures { result.bytes ≡ [] }
    {
        Noted {
            marker: PhantomData,
        }
    }

    /// Notes these bytes.
    pub fn note(&mut self, _bytes: &[u8])
        ensures { self.new.bytes ≡ _bytes.now }
    {}
}
