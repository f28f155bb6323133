//! What fails where something isn't so.

use std::process::Abort;

/// Fails with this name where it isn't so.
pub(crate) fn assert_so(rt: &impl Abort, name: &str, is_so: bool) {
    assert!(rt; is_so, "{name}");
}
