//! What a file that was made has never had written, and so takes no room of its disk.

use std::alloc::{AllocError, Global};
use std::sync::Arc;
use std::sync::atomic::{AtomicU64, Ordering};

/// From which byte on nothing was written of a file, where that is known. Those of one open file share it.
#[derive(Drop)]
pub(crate) struct Untouched {
    from: Option<Arc<AtomicU64>>,
}

impl Untouched {
    /// Of a file that may have anything.
    pub(crate) fn unknown() -> Untouched {
        Untouched { from: None }
    }

    /// Of a file that was just made.
    pub(crate) fn all(alloc: Global) -> Result<Untouched, AllocError> {
        let from = Arc::new(alloc, AtomicU64::new(0))?;
        Ok(Untouched { from: Some(from) })
    }

    /// The same, of the same file.
    pub(crate) fn another(&self) -> Result<Untouched, AllocError> {
        let from = match &self.from {
            Some(from) => Some(Arc::try_clone(from)?),
            None => None,
        };
        Ok(Untouched { from })
    }

    /// Whether these bytes need no write from byte `offset` on: they are zeros, and nothing was written there. Else they
    /// are taken for written.
    pub(crate) fn has(&self, offset: u64, bytes: &[u8]) -> bool {
        let Some(from) = &self.from else {
            return false;
        };
        if from.load(Ordering::SeqCst) <= offset && are_zeros(bytes) {
            return true;
        }
        from.fetch_max(offset.saturating_add(bytes.len() as u64), Ordering::SeqCst);
        false
    }
}

/// Whether all bytes are zero.
fn are_zeros(bytes: &[u8]) -> bool {
    match bytes.split_first() {
        // All are as the first is, where they begin with those behind it.
        Some((first, behind)) => *first == 0 && bytes.starts_with(behind),
        None => true,
    }
}
