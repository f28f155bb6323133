//! Calls that take memory, each of which is made once more where it is refused: so these tests pass with ample memory, and whichever one
//! allocation is refused, as under `rt try --test --fail-alloc N`. And what is refused for being too many.

use crate::flow_rows::{first_of, received, try_emit};
use crate::parcels::{Answer, Parcel, Tally, assert_let_go, parcel_of, said};
use crate::tools::assert_so;
use std::alloc::{AllocError, AllocGlobal, Global};
use std::process::Abort;
use std::sync::{Arc, Wait};
use value_flows::{Config, Policy, Refusal, Subscription, ValueFlow};
use value_states::{Collected, ValueState, Watcher};

fn tally_made(alloc: Global) -> Result<Arc<Tally>, AllocError> {
    match Tally::new(alloc) {
        Err(_) => Tally::new(alloc),
        tally => tally,
    }
}

/// A flow that keeps one value, and may have two subscriptions.
const KEEPS_ONE: Config = Config {
    replay: 1,
    extra: 0,
    policy: Policy::DropOldest,
    subscribers: 2,
};

fn flow_made(alloc: Global) -> Result<ValueFlow<Parcel>, Refusal> {
    match ValueFlow::new(alloc, &KEEPS_ONE) {
        Err(Refusal::NoMemory) => ValueFlow::new(alloc, &KEEPS_ONE),
        flow => flow,
    }
}

/// Lets go the subscription alone. Whether it can.
fn stop_alone(alloc: Global, parcels: &mut Subscription<Parcel>) -> bool {
    let stopper = match parcels.stopper(alloc) {
        Err(_) => parcels.stopper(alloc),
        stopper => stopper,
    };
    match stopper {
        Ok(stopper) => {
            stopper.stop();
            true
        }
        Err(_) => false,
    }
}

/// A value is emitted, and one of two subscriptions let go alone. What both receive then.
fn received_by_two<R: AllocGlobal + Wait + Abort>(
    rt: &R,
    flow: &mut ValueFlow<Parcel>,
    tally: &Arc<Tally>,
    one: &mut Subscription<Parcel>,
    other: &mut Subscription<Parcel>,
) -> [Answer; 6] {
    let emitted = try_emit(rt, flow, tally, 7);
    let is_let_go = stop_alone(rt.alloc(), one) && one.is_stopped();
    let is_other = other.is_stopped() || flow.is_stopped();
    [
        emitted,
        said(is_let_go && !is_other),
        received(one.next(rt)),
        received(one.next(rt)),
        received(other.next(rt)),
        received(other.try_next(rt)),
    ]
}

/// An emission, a stop, and what two receive.
const RECEIVED: [Answer; 6] = [
    Answer::Number(0),
    Answer::Yes,
    Answer::Number(7),
    Answer::Stopped,
    Answer::Number(7),
    Answer::Nothing,
];

/// The same, beside what a third subscription comes to, and one after the two have ended.
fn two_subscribe<R: AllocGlobal + Wait + Abort>(rt: &R, tally: &Arc<Tally>) {
    let mut flow = flow_made(rt.alloc()).expect(rt, "a flow");
    let mut one = flow.subscribe(rt).expect(rt, "a subscription");
    let mut other = flow.subscribe(rt).expect(rt, "another subscription");
    let third = first_of(rt, &mut flow);
    let found = received_by_two(rt, &mut flow, tally, &mut one, &mut other);
    drop(one.cancel(rt));
    drop(other.cancel(rt));
    let later = first_of(rt, &mut flow);
    drop(flow);
    assert_so(rt, "what two receive", found == RECEIVED);
    assert_so(rt, "a third is refused", third == Answer::AllTaken);
    assert_so(rt, "a later one gets the cache", later == Answer::Number(7));
}

/// One of two subscriptions is let go alone, once it was given what was emitted before, and a third one is refused until they end.
#[test]
fn one_subscription_is_let_go_alone(rt: HostRuntime) {
    let tally = tally_made(rt.alloc()).expect(&rt, "a tally");
    two_subscribe(&rt, &tally);
    assert_let_go(&rt, &tally);
}

/// A configuration with a name: replay, extra and subscribers of a flow, and why it isn't made.
struct Configured<'a> {
    name: &'a str,
    places: (u64, u64),
    subscribers: u32,
    refusal: Option<Refusal>,
}

const CONFIGURATIONS: &[Configured<'_>] = &[
    Configured {
        name: "no place",
        places: (0, 0),
        subscribers: 1,
        refusal: Some(Refusal::PolicyNeedsBuffer),
    },
    Configured {
        name: "a place too many",
        places: (65_536, 1),
        subscribers: 1,
        refusal: Some(Refusal::TooLarge),
    },
    Configured {
        name: "for nobody",
        places: (1, 0),
        subscribers: 0,
        refusal: Some(Refusal::BadLimit),
    },
    Configured {
        name: "a subscription too many",
        places: (1, 0),
        subscribers: 1_025,
        refusal: Some(Refusal::BadLimit),
    },
    Configured {
        name: "as many as may be",
        places: (1, 65_535),
        subscribers: 1_024,
        refusal: None,
    },
];

/// A flow without a place, with too many, or for nobody isn't made.
#[test]
fn what_is_too_many_is_refused(rt: HostRuntime) {
    for configured in CONFIGURATIONS {
        let config = Config {
            replay: configured.places.0,
            extra: configured.places.1,
            policy: Policy::Suspend,
            subscribers: configured.subscribers,
        };
        assert_so(&rt, configured.name, config.refusal() == configured.refusal);
    }
}

/// A state of 1, made again where it is refused: the value is let go then.
fn state_made<R: AllocGlobal + Abort>(
    rt: &R,
    tally: &Arc<Tally>,
) -> Result<ValueState<Parcel>, AllocError> {
    match ValueState::new(rt.alloc(), parcel_of(rt, tally, 1)) {
        Err(_) if tally.left() == 0 => ValueState::new(rt.alloc(), parcel_of(rt, tally, 1)),
        state => state,
    }
}

fn heard(rt: &impl Wait, watcher: &mut Watcher<Parcel>) -> Answer {
    match watcher.read_next(rt, |parcel| Answer::Number(parcel.number)) {
        Collected::Value(answer) => answer,
        Collected::Stopped => Answer::Stopped,
    }
}

/// Lets go the watcher alone. Whether it can.
fn stop_watcher(alloc: Global, watcher: &mut Watcher<Parcel>) -> bool {
    let stopper = match watcher.stopper(alloc) {
        Err(_) => watcher.stopper(alloc),
        stopper => stopper,
    };
    match stopper {
        Ok(stopper) => {
            stopper.stop();
            true
        }
        Err(_) => false,
    }
}

/// What two watchers are given, of which one is let go alone.
const GIVEN: [Answer; 3] = [Answer::Number(1), Answer::Stopped, Answer::Number(1)];

fn two_watch<R: AllocGlobal + Wait + Abort>(rt: &R, tally: &Arc<Tally>) {
    let mut state = state_made(rt, tally).expect(rt, "a state");
    let mut one = state.watch().expect(rt, "a watcher");
    let mut other = state.watch().expect(rt, "another watcher");
    let is_let_go = stop_watcher(rt.alloc(), &mut one) && one.is_stopped();
    let is_other = other.is_stopped() || state.is_stopped();
    let given = [
        heard(rt, &mut one),
        heard(rt, &mut one),
        heard(rt, &mut other),
    ];
    assert_so(rt, "one alone is let go", is_let_go && !is_other);
    assert_so(rt, "what both are given", given == GIVEN);
}

/// One of two watchers is let go alone, once it was given what was set before.
#[test]
fn one_watcher_is_let_go_alone(rt: HostRuntime) {
    let tally = tally_made(rt.alloc()).expect(&rt, "a tally");
    two_watch(&rt, &tally);
    assert_let_go(&rt, &tally);
}
