//! Tools of the tests: what fails where something else came.

use std::fmt::Debug;
use std::process::Abort;
use trial_tools::Differences;

/// Fails with this name where what was found isn't what was wanted.
pub(crate) fn assert_same<T: PartialEq + Debug + Drop>(
    rt: &impl Abort,
    name: &str,
    found: T,
    wanted: T,
) {
    assert_eq!(rt; found, wanted, "{name}");
}

/// Fails with all that was noted, where something was.
pub(crate) fn assert_none(rt: &impl Abort, differences: &Differences) {
    assert!(rt; differences.lines().is_empty(), "{}", differences.lines());
}
