//! Tools of the tests: texts of an engine, and what fails where something else came.

use flow_script::Engine;
use std::process::Abort;
use std::test::Fail;
use trial_tools::Differences;

/// Notes it under this name where the text that was found on this engine isn't the wanted one.
pub(crate) fn compare_text(
    differences: &mut Differences,
    name: &str,
    engine: Engine,
    found: &[u8],
    wanted: &[u8],
) -> Result<(), Fail> {
    let found = (engine, str::from_utf8(found)?);
    let wanted = (engine, str::from_utf8(wanted)?);
    differences.compare(name, found, wanted)
}

/// Fails with all that was noted, where something was.
pub(crate) fn assert_none(rt: &impl Abort, differences: &Differences) {
    assert!(rt; differences.lines().is_empty(), "{}", differences.lines());
}
