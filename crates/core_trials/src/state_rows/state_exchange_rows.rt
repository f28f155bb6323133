//! What one thread collects of what another sets, by the caller that has the sentence in its contract: it says which values may
//! come, and these rows which do.

use hot_callers::set_and_collect;
use std::test::Fail;
use trial_tools::rise_below;

/// How often a collector is asked: by far oftener than there are values.
const TURNS: usize = 100_000;

/// A collector that is never asked receives nothing. One that is receives the value at once, and then what is set meanwhile, in order,
/// never one value twice.
#[test]
fn what_is_set_meanwhile_is_collected_in_order(rt: HostRuntime) -> Result<(), Fail> {
    let values = [1, 2, 2, 3, 4, 4, 4, 5];
    let none = set_and_collect(&rt, 1, &values, 0)?;
    let some = set_and_collect(&rt, 1, &values, TURNS)?;
    let found = (none.len(), some.is_empty(), rise_below(&some, 6));
    assert_eq!(rt; found, (0, false, true), "what came");
    Ok(())
}
