//! The bytes of one sector, shared by all that hold them.

ghost use Rattle.std.specs.Prelude.{◌≡◌, ◌==◌, IfOk};
ghost use Rattle.std.specs.Str.{bytes_eq};
ghost use Rattle.register.specs.Values.{code};

use std::alloc::{AllocError, Global};
use std::marker::Model;
use std::rc::Rc;

/// Bytes that a register may hold. They stand in memory once for all that share them, until nobody does. Contracts see
/// their number.
#[derive(Drop)]
pub struct Contents {
    bytes: Rc<Vec<u8>>,
}

impl Model for Contents {
    ghost use Rattle.std.specs.Prelude.{ℕ};
    ghost use Rattle.register.specs.Values.{code};

    ghost Value = { ℕ };

    ghost view = { λ c. code c.bytes.value.items };
}

/// Whether these are the same bytes.
fn are_same(bytes: &[u8], others: &[u8]) -> bool
    ensures { result ≡ bytes_eq bytes.now others.now }
{
    bytes == others
}

impl Contents {
    /// These bytes.
    ///
    /// # Errors
    ///
    /// [`AllocError`] where memory was refused.
    pub fn new(alloc: Global, bytes: &[u8]) -> Result<Contents, AllocError>
        ensures { IfOk result (λ contents. contents ≡ code bytes.now) }
    {
        let bytes = Vec::from_slice(alloc, bytes)?;
        match Rc::new(alloc, bytes) {
            Ok(bytes) => Ok(Contents { bytes }),
            Err(_) => Err(AllocError),
        }
    }

    /// No bytes.
    ///
    /// # Errors
    ///
    /// [`AllocError`] where memory was refused.
    #[tactic(auto, using(crate::proofs::Coding::none_is))]
    pub fn none(alloc: Global) -> Result<Contents, AllocError>
        ensures { IfOk result (λ contents. contents ≡ 0) }
    {
        Contents::new(alloc, &[])
    }

    /// Whether these are no bytes.
    #[tactic(auto, using(crate::proofs::Coding::is_none_by))]
    pub fn is_none(&self) -> bool
        ensures { result ≡ (self.now == 0) }
    {
        self.as_slice().is_empty()
    }

    /// The same bytes, for one more holder.
    ///
    /// # Errors
    ///
    /// [`AllocError`] where too many hold them.
    pub fn share(&self) -> Result<Contents, AllocError>
        ensures { IfOk result (λ contents. contents ≡ self.now) }
    {
        Ok(Contents {
            bytes: self.bytes.clone()?,
        })
    }

    /// Whether others hold them, too.
    pub fn is_shared(&self) -> bool {
        Rc::strong_count(&self.bytes) > 1
    }

    /// The bytes.
    pub fn as_slice(&self) -> &[u8]
        ensures { self.now ≡ code result.now }
    {
        self.bytes.as_ref().as_slice()
    }

    /// Whether the others are the same bytes.
    pub fn is(&self, others: &Contents) -> bool
        ensures { result ≡ (self.now == others.now) }
    {
        are_same(self.as_slice(), others.as_slice())
    }
}
