//! Copies of what the machine holds.

ghost use Rattle.std.specs.Prelude.{◌≡◌, IfOk};

use machine::ClientRequest;
use sector::Bytes;
use std::alloc::{AllocError, Global};

/// A value that can be copied, where memory allows.
pub(crate) trait Copied: Sized {
    /// Makes a copy.
    fn copied(&self, alloc: Global) -> Result<Self, AllocError>
        ensures { IfOk result (λ copy. copy ≡ self.now) };
}

impl Copied for Bytes {
    fn copied(&self, alloc: Global) -> Result<Bytes, AllocError> {
        Ok(Bytes::new(Vec::from_slice(alloc, self.as_slice())?))
    }
}

/// Copies all items of a list.
pub(crate) fn all_copied<T: Copied + Drop>(alloc: Global, items: &[T]) -> Result<Vec<T>, AllocError>
    ensures { IfOk result (λ copy. copy.items ≡ items.now) }
{
    let mut copy = Vec::with_capacity(alloc, items.len())?;
    for item in items {
        copy.push(item.copied(alloc)?)?;
    }
    Ok(copy)
}

/// Copies a client's request.
pub(crate) fn request_copied(
    alloc: Global,
    request: &ClientRequest,
) -> Result<ClientRequest, AllocError>
    ensures { IfOk result (λ copy. copy ≡ request.now) }
{
    Ok(ClientRequest {
        partition: request.partition,
        kind: request.kind,
        offset: request.offset,
        length: request.length,
        through: request.through,
        bytes: request.bytes.copied(alloc)?,
    })
}
