//! What two threads pass on, by the callers that have the sentence in their contracts: those say which values may come, and these
//! rows which do.

use crate::shared_stage::config;
use cold_flow::Policy;
use hot_callers::{emit_and_collect, emit_and_receive, emit_and_receive_between};
use shared_core::Prelude;
use std::test::Fail;
use trial_tools::rise_below;

/// How often a subscription looks: by far oftener than it has values.
const TURNS: usize = 100_000;

/// Room for all values, so that none is dropped.
const PLACES: u64 = 64;

// Whether these come first.
fn begins_with(values: &[u64], first: &[u64]) -> bool {
    let mut rest = values.iter();
    for value in first {
        if rest.next() != Some(value) {
            return false;
        }
    }
    true
}

/// A subscription that never looks receives nothing. One that looks receives its prelude, and then what is emitted meanwhile, in order.
#[test]
fn what_is_emitted_meanwhile_comes_in_order(rt: HostRuntime) -> Result<(), Fail> {
    let values = [11, 12, 13, 14, 15, 16, 17, 18];
    for policy in [Policy::Suspend, Policy::DropOldest] {
        let prelude = Prelude::of(&[7, 8])?;
        let config = config(0, PLACES, policy);
        let none = emit_and_receive(&rt, config, Prelude::empty(), &values, 0)?;
        let some = emit_and_receive(&rt, config, prelude, &values, TURNS)?;
        let found = (
            none.received.len(),
            begins_with(&some.received, &[7, 8]),
            rise_below(&some.received, 19),
        );
        assert_eq!(rt; found, (0, true, true), "what came");
    }
    Ok(())
}

/// Who waits for as many values as there are has its prelude, and then all that was emitted, where there is room for all.
#[test]
fn who_waits_for_each_has_all(rt: HostRuntime) -> Result<(), Fail> {
    let values = [11, 12, 13, 14, 15];
    for policy in [Policy::Suspend, Policy::DropOldest] {
        let prelude = Prelude::of(&[7])?;
        let config = config(0, PLACES, policy);
        let received = emit_and_collect(&rt, config, prelude, &values, 6)?;
        let found = (
            received.len(),
            begins_with(&received, &[7, 11, 12, 13, 14, 15]),
        );
        assert_eq!(rt; found, (6, true), "what came");
    }
    Ok(())
}

/// A subscription that begins after some emissions receives its prelude, the replay cache as it was then, and what two emit meanwhile. It
/// receives nothing of what is emitted after its end.
#[test]
fn who_begins_late_has_the_cache_and_ends_in_time(rt: HostRuntime) -> Result<(), Fail> {
    let early = [11, 12, 13];
    let late = [99];
    for policy in [Policy::Suspend, Policy::DropOldest] {
        let prelude = Prelude::of(&[7, 8])?;
        let config = config(2, PLACES, policy);
        let some = emit_and_receive_between(
            &rt,
            config,
            prelude,
            &early,
            &[21, 22, 23],
            &[31, 32, 33],
            &late,
            TURNS,
        )?;
        let mut is_late = false;
        for value in &some.received {
            is_late = is_late || *value == 99;
        }
        let found = (begins_with(&some.received, &[7, 8, 12, 13]), is_late);
        assert_eq!(rt; found, (true, false), "what came");
    }
    Ok(())
}
