//! What a lane, its sequencer and the seats of a state had of a heap is given back as they are let go: their `Drop` is written by
//! hand, and no contract says that it forgets no field. Types that take their memory from the system alone can't be counted so.

use crate::tools::assert_same;
use linked_list_allocator::LocalHeap;
use shared_core::{Begun, Config, Policy, Refusal, Ticket, Tried};
use shared_lane::{Lane, Taken};
use state_flow::StateFlow;
use std::test::Fail;

/// The emitter of every value.
const EMITTER: u32 = 5;

/// Two places, one of them of the replay cache, and two tickets.
const CONFIG: Config = Config {
    replay: 1,
    extra: 1,
    policy: Policy::Suspend,
    subscribers: 1,
    emits: 2,
    first: 0,
};

/// How much of the heap is used while a lane is there, and whether its calls are answered as they should be: as it is let go, an
/// emission waits, and another one's ticket is out.
fn used_by_lane(heap: &LocalHeap) -> Result<(usize, bool), Refusal> {
    let (lane, mut sequencer) = Lane::new(heap, CONFIG)?;
    let mut reader = sequencer.admit(&lane)?;
    let first = sequencer.try_emit(&lane, EMITTER, 7);
    let second = sequencer.start_emit(&lane, EMITTER, 8);
    let third = sequencer.start_emit(&lane, EMITTER, 9);
    let fourth = sequencer.start_emit(&lane, EMITTER, 10);
    let taken = reader.try_next(&lane);
    let accepted = sequencer.scan(&lane);
    reader.close(&lane);
    let are_begun = third == Ok(Begun::Waiting(Ticket(0)))
        && fourth == Ok(Begun::Waiting(Ticket(1)));
    let are_accepted = first == Ok(Tried::Accepted(0)) && second == Ok(Begun::Accepted(1));
    let is_right = are_accepted && are_begun && taken == Taken::Value(7) && accepted == 1;
    Ok((heap.used(), is_right))
}

/// The same of a state with three seats, of which one has collected.
fn used_by_state(heap: &LocalHeap) -> Result<(usize, bool), Refusal> {
    let mut seat = StateFlow::new(heap, 3u64, 3)?;
    let mut other = seat.take_seat(0)?;
    let mut collector = seat.take_seat(0)?.collect();
    other.set(5);
    let value = collector.try_next();
    let last = collector.cancel();
    let used = heap.used();
    drop(last);
    Ok((used, value == Some(5) && seat.value() == 5))
}

#[test]
fn a_heap_has_back_what_a_lane_had(rt: HostRuntime) -> Result<(), Fail> {
    let heap = LocalHeap::new(rt.alloc(), 4096)?;
    let (used, is_right) = used_by_lane(&heap)?;
    assert_same(&rt, "the calls", is_right, true);
    assert_same(&rt, "was some used", used > 0, true);
    assert_same(&rt, "bytes in use after it", heap.used(), 0);
    Ok(())
}

#[test]
fn a_heap_has_back_what_a_state_had(rt: HostRuntime) -> Result<(), Fail> {
    let heap = LocalHeap::new(rt.alloc(), 4096)?;
    let (used, is_right) = used_by_state(&heap)?;
    assert_same(&rt, "the calls", is_right, true);
    assert_same(&rt, "was some used", used > 0, true);
    assert_same(&rt, "bytes in use after it", heap.used(), 0);
    Ok(())
}
