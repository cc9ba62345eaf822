//! What tests compare by: a function, since a macro's text is proved again at each place.

use std::alloc::Global;
use std::fmt::{Debug, Display};
use std::process::Abort;
use std::test::Fail;

/// Ends the test, and names both, where what was got is not what was wanted.
pub(crate) fn same<T: PartialEq + Debug>(rt: &impl Abort, got: &T, wanted: &T) {
    assert_eq!(rt; got, wanted);
}

/// Compares as `same` does, and names the case.
pub(crate) fn same_at<T: PartialEq + Debug>(
    rt: &impl Abort,
    got: &T,
    wanted: &T,
    case: &impl Debug,
) {
    assert_eq!(rt; got, wanted, "at {case:?}");
}

/// Compares what a value is printed as.
pub(crate) fn prints<T: Display>(
    rt: &impl Abort,
    alloc: Global,
    value: &T,
    wanted: &str,
) -> Result<(), Fail> {
    let text = format!(in alloc; "{value}")?;
    same(rt, &text.as_str(), &wanted);
    Ok(())
}
