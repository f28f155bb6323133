//! Tools of the tests: a task by hand, and what fails where something else came.

use futures::test::MockTask;
use std::alloc::AllocGlobal;
use std::fmt::Debug;
use std::process::Abort;
use std::random::RandomSource;
use trial_tools::Differences;

/// Fails with all that was noted, where something was.
pub(crate) fn assert_none(rt: &impl Abort, differences: &Differences) {
    assert!(rt; differences.lines().is_empty(), "{}", differences.lines());
}

/// A task that is polled by hand. It is made once more where memory was refused, as under `rt try --test --fail-alloc N`.
pub(crate) fn task_made<R: Abort + RandomSource + AllocGlobal>(rt: &R) -> MockTask {
    match MockTask::new(rt) {
        Ok(task) => task,
        Err(_) => MockTask::new(rt).expect(rt, "a task"),
    }
}

/// Fails with this name where what was found isn't what was wanted.
pub(crate) fn assert_same<T: PartialEq + Debug + Drop>(
    rt: &impl Abort,
    name: &str,
    found: T,
    wanted: T,
) {
    assert_eq!(rt; found, wanted, "{name}");
}
