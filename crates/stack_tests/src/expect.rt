//! What tests compare by: functions, since a macro's text is proved again at each place.

use std::fmt::Debug;
use std::process::Abort;

/// Ends the test, and names both, where what was got is not what was wanted.
pub(crate) fn same<T: PartialEq + Debug>(rt: &impl Abort, got: &T, wanted: &T) {
    assert_eq!(rt; got, wanted);
}

/// Compares texts as `same` does.
pub(crate) fn same_text(rt: &impl Abort, got: &[u8], wanted: &[u8]) {
    same(
        rt,
        &std::str::from_utf8(got).ok(),
        &std::str::from_utf8(wanted).ok(),
    );
}
