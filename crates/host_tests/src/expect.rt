//! What tests compare by: a function, since a macro's text is proved again at each place.

use std::fmt::Debug;
use std::process::Abort;

/// Ends the test, and names both, where what was got is not what was wanted.
pub(crate) fn same<T: PartialEq + Debug>(rt: &impl Abort, got: &T, wanted: &T) {
    assert_eq!(rt; got, wanted);
}
