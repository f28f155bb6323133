//! Refusals at making: which one comes first, want of memory last; and what is made, and replied, in heaps that are too small.

use crate::tools::assert_none;
use linked_list_allocator::LocalHeap;
use shared_core::{Call, Config, Policy, Refusal, SharedState};
use shared_lane::Lane;
use state_flow::StateFlow;
use std::alloc::Global;
use std::test::Fail;
use trial_tools::Differences;

const PLAIN: Config = Config {
    replay: 0,
    extra: 1,
    policy: Policy::Suspend,
    subscribers: 1,
    emits: 1,
    first: 0,
};

/// A config that is refused for more than one reason, and the number of the refusal.
struct Row<'a> {
    name: &'a str,
    config: Config,
    refusal: u8,
}

const ROWS: &[Row<'_>] = &[
    Row {
        name: "places come before limits",
        config: Config {
            replay: 65_537,
            subscribers: 0,
            ..PLAIN
        },
        refusal: 1,
    },
    Row {
        name: "the policy comes before limits",
        config: Config {
            extra: 0,
            policy: Policy::DropOldest,
            emits: 1_025,
            ..PLAIN
        },
        refusal: 2,
    },
    Row {
        name: "limits come before memory",
        config: Config {
            first: (1 << 62) + 1,
            ..PLAIN
        },
        refusal: 3,
    },
];

/// The number of the refusal of a flow on one thread, 0 where it is made.
fn flow_refusal(alloc: Global, config: Config) -> u8 {
    match SharedState::<u64>::new(alloc, config) {
        Ok(_) => 0,
        Err(refusal) => refusal.number(),
    }
}

/// The same of a lane in this heap.
fn lane_refusal(heap: &LocalHeap, config: Config) -> u8 {
    match Lane::new(heap, config) {
        Ok(_) => 0,
        Err(refusal) => refusal.number(),
    }
}

/// The same of a state with so many seats.
fn state_refusal(heap: &LocalHeap, seats: u32) -> u8 {
    match StateFlow::new(heap, 0u64, seats) {
        Ok(_) => 0,
        Err(refusal) => refusal.number(),
    }
}

// Compares what flows answer, and lanes and states in this heap, in which there is room for nothing.
fn compare_refusals(
    differences: &mut Differences,
    alloc: Global,
    heap: &LocalHeap,
) -> Result<(), Fail> {
    for row in ROWS {
        differences.compare(row.name, flow_refusal(alloc, row.config), row.refusal)?;
        differences.compare(row.name, lane_refusal(heap, row.config), row.refusal)?;
    }
    differences.compare("a lane without memory", lane_refusal(heap, PLAIN), 4)?;
    for (seats, refusal) in [(0, 3), (1_025, 3), (1, 4)] {
        differences.compare("a state", state_refusal(heap, seats), refusal)?;
    }
    Ok(())
}

#[test]
fn refusals_at_making_come_in_order(rt: HostRuntime) -> Result<(), Fail> {
    let heap = LocalHeap::new(rt.alloc(), 16)?;
    let mut differences = Differences::none(rt.alloc());
    compare_refusals(&mut differences, rt.alloc(), &heap)?;
    assert_none(&rt, &differences);
    Ok(())
}

/// What takes its memory from a heap of a test's own.
enum Made {
    Lane,
    State,
    Replies,
}

const EACH: &[Made] = &[Made::Lane, Made::State, Made::Replies];

// Makes a state, and takes a seat of it.
fn seated_in(heap: &LocalHeap) -> Result<(), Refusal> {
    let mut seat = StateFlow::new(heap, 0u64, 2)?;
    let _second = seat.take_seat(0)?;
    Ok(())
}

// Runs two calls, of which none is made where there is no room for their replies.
fn replied_in(heap: &LocalHeap, flow: &mut SharedState<u64>) -> Result<(), Refusal> {
    let mut replies = Vec::new(heap);
    flow.run(&[Call::Subscribe, Call::Count], &mut replies)
}

/// The number of a refusal, 0 where there is none.
fn number_of(ended: Result<(), Refusal>) -> u8 {
    match ended {
        Ok(()) => 0,
        Err(refusal) => refusal.number(),
    }
}

fn refusal_in(heap: &LocalHeap, flow: &mut SharedState<u64>, made: &Made) -> u8 {
    match made {
        Made::Lane => lane_refusal(heap, PLAIN),
        Made::State => number_of(seated_in(heap)),
        Made::Replies => number_of(replied_in(heap, flow)),
    }
}

/// The same in a heap with so many blocks, and how much of it is used after the call.
fn refusal_within(
    alloc: Global,
    blocks: usize,
    flow: &mut SharedState<u64>,
    made: &Made,
) -> Result<(u8, usize), Fail> {
    let heap = LocalHeap::new(alloc, 16 * blocks.min(64))?;
    let refusal = refusal_in(&heap, flow, made);
    Ok((refusal, heap.used()))
}

// Each heap has one block more than the one before, so that each allocation, from the first to the last, is the refused one. Says
// whether each call before the last was refused for want of memory, and each left its heap, and a refused one the flow, as it was.
fn is_made_at_last(alloc: Global, flow: &mut SharedState<u64>, made: &Made) -> Result<bool, Fail> {
    for blocks in 1..64usize {
        if flow.subscription_count() != 0 {
            return Ok(false);
        }
        match refusal_within(alloc, blocks, flow, made)? {
            (0, 0) => return Ok(blocks > 1),
            (4, 0) => {}
            _ => return Ok(false),
        }
    }
    Ok(false)
}

// The same with a new flow.
fn is_made_for_new(alloc: Global, made: &Made) -> Result<bool, Fail> {
    let mut flow = SharedState::new(alloc, PLAIN)?;
    is_made_at_last(alloc, &mut flow, made)
}

#[test]
fn want_of_memory_is_answered(rt: HostRuntime) -> Result<(), Fail> {
    for made in EACH {
        assert!(rt; is_made_for_new(rt.alloc(), made)?);
    }
    Ok(())
}
