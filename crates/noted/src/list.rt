//! A list that contracts alone read.

ghost use Rattle.std.specs.Prelude.{◌≡◌, List, []};
ghost use Rattle.std.specs.Borrow.{ftrue};

use std::marker::{Model, PhantomData};

/// A list that contracts alone read. No memory holds any of it.
#[derive(Drop)]
pub struct Noted<T> {
    of: PhantomData<T>,
    pub ghost items: { List T },
}

impl<T> Model for Noted<T> {
    ghost also_owns = { λ _. ftrue };
}

// The type owns nothing, so it may go to another thread.
unsafe impl<T> Send for Noted<T> {}

impl<T> Noted<T> {
    /// No items.
    pub fn none() -> Noted<T>
        ensures { result.items ≡ [] }
    {
        Noted { of: PhantomData }
    }

    /// Any items. The caller reads them off this list and off what it lends.
    pub fn with<S>(&self, _from: &S) -> Noted<T>
        ghost items: { List T }
        ensures { result.items ≡ items }
    {
        Noted { of: PhantomData }
    }
}
