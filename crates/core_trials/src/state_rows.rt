//! A state flow's worked examples, two writers and many collectors on threads, and seats that run out.
ghost use Rattle.std.specs.Prelude.{◌≡◌};

mod state_exchange_rows;

use crate::tools::assert_same;
use cold_flow::Refusal;
use futures::task::Poll;
use futures::test::MockTask;
use hot_callers::{Dimmer, Light, asked_twice};
use state_flow::{Collector, StateFlow, StateSeat};
use std::thread;

/// The number of the refusal of a further seat, or 0 where there is one.
fn refused_seat(seat: &mut StateSeat<u64>, share: u32) -> u8
    ensures { seat.new.flow ≡ seat.old.flow }
{
    match seat.take_seat(share) {
        Ok(_) => 0,
        Err(refusal) => refusal.number(),
    }
}

/// A call on a flow and on its collector, and its answer.
enum Line {
    Set(u64),
    Value(u64),
    Compare(u64, u64, bool),
    Ask(Option<u64>),
    /// A poll, which gives this value or waits and has yielded.
    Poll(Option<u64>),
}

/// A poll's value, or nothing where it waits.
fn polled(task: &MockTask, collector: &mut Collector<u64>) -> Option<u64> {
    match task.enter(|cx| collector.poll_next(cx)) {
        Poll::Ready(value) => Some(value),
        Poll::Pending => None,
    }
}

/// Is the line answered so?
fn is_answered(
    task: &MockTask,
    seat: &mut StateSeat<u64>,
    collector: &mut Collector<u64>,
    line: &Line,
) -> bool {
    match line {
        Line::Set(value) => {
            seat.set(*value);
            true
        }
        Line::Value(wanted) => seat.value() == *wanted,
        Line::Compare(expect, update, wanted) => {
            seat.compare_and_set(*expect, *update) == *wanted
        }
        Line::Ask(wanted) => collector.try_next() == *wanted,
        Line::Poll(wanted) => {
            let value = polled(task, collector);
            value == *wanted && (value.is_some() || task.is_woken())
        }
    }
}

/// The number of the first line that was answered otherwise, or of all lines where none was.
fn answered(
    task: &MockTask,
    seat: &mut StateSeat<u64>,
    collector: &mut Collector<u64>,
    lines: &[Line],
) -> usize {
    for (number, line) in lines.iter().enumerate() {
        if !is_answered(task, seat, collector, line) {
            return number;
        }
    }
    lines.len()
}

#[test]
fn state_conflates(rt: HostRuntime) {
    const LINES: &[Line] = &[
        Line::Ask(Some(0)),
        Line::Set(1),
        Line::Set(1),
        Line::Set(2),
        Line::Ask(Some(2)),
        Line::Set(3),
        Line::Set(2),
        Line::Ask(None),
        Line::Poll(None),
        Line::Compare(2, 2, true),
        Line::Compare(9, 4, false),
        Line::Compare(2, 5, true),
        Line::Value(5),
        Line::Poll(Some(5)),
    ];
    let task = MockTask::new(&rt).expect(&rt, "a task");
    let mut seat = StateFlow::new(rt.alloc(), 0u64, 2).expect(&rt, "a state");
    let mut collector = seat.take_seat(0).expect(&rt, "a seat").collect();
    let count = answered(&task, &mut seat, &mut collector, LINES);
    drop(collector.cancel());
    assert_same(&rt, "lines answered", count, LINES.len());
}

// Sets a value. What the seat has, and a collector after it.
fn set_and_collected(mut seat: StateSeat<u32>, value: u32) -> (u32, Option<u32>) {
    seat.set(value);
    let set = seat.value();
    let mut collector = seat.collect();
    let next = collector.try_next();
    drop(collector.cancel());
    (set, next)
}

#[test]
fn two_writers_one_state(rt: HostRuntime) {
    let mut one = StateFlow::new(rt.alloc(), 0u32, 2).expect(&rt, "a state");
    let mut two = one.take_seat(0).expect(&rt, "a seat");
    let ((mut one, first), (mut two, second)) = thread::join(
        &rt,
        move || {
            let won = one.compare_and_set(0, 1);
            (one, won)
        },
        move || {
            let won = two.compare_and_set(0, 2);
            (two, won)
        },
    );
    assert!(rt; first != second);
    let winner = if first { 1 } else { 2 };
    let words = (one.value(), two.value());
    assert_same(
        &rt,
        "the winner's word in both seats",
        words,
        (winner, winner),
    );
    one.give_back(two);
    assert_same(&rt, "spare seats", one.spare(), 1);
    let set = set_and_collected(one, 5);
    assert_same(&rt, "value, and next value", set, (5, Some(5)));
}

// Each taken seat begins to collect.
fn all_collect(
    seats: Vec<StateSeat<u64>>,
    mut collectors: Vec<Collector<u64>>,
) -> Vec<Collector<u64>> {
    for seat in seats {
        if let Err(failed) = collectors.push(seat.collect()) {
            drop(failed.value.cancel());
        }
    }
    collectors
}

fn cancel_all(mut collectors: Vec<Collector<u64>>) {
    while let Some(collector) = collectors.pop() {
        drop(collector.cancel());
    }
    collectors.destroy_empty();
}

// Takes so many seats without a share.
fn take_seats(
    seat: &mut StateSeat<u64>,
    mut seats: Vec<StateSeat<u64>>,
    count: usize,
) -> Result<Vec<StateSeat<u64>>, Refusal>
    ensures { seat.new.flow ≡ seat.old.flow }
{
    for _ in 0..count {
        let taken = seat.take_seat(0)?;
        if seats.push(taken).is_err() {
            return Err(Refusal::NoMemory);
        }
    }
    Ok(seats)
}

// What the only collector has, and how many collect while it does and after it.
fn last_collects(seat: &mut StateSeat<u64>, last: StateSeat<u64>) -> (Option<u64>, u32, u32) {
    let mut collector = last.collect();
    let value = collector.try_next();
    let count = seat.collectors();
    drop(collector.cancel());
    (value, count, seat.collectors())
}

#[test]
fn seats_full(rt: HostRuntime) {
    let mut seat = StateFlow::new(rt.alloc(), 0u64, 9).expect(&rt, "a state");
    let first = seat.take_seat(0).expect(&rt, "a seat");
    let others = take_seats(&mut seat, Vec::new(rt.alloc()), 7).expect(&rt, "seats");
    let collectors = Vec::with_capacity(rt.alloc(), 7).expect(&rt, "room");
    let first = first.collect();
    let collectors = all_collect(others, collectors);
    let made = collectors.len();
    let refusal = refused_seat(&mut seat, 0);
    let most = seat.collectors();
    seat.give_back(first.cancel());
    let fewer = seat.collectors();
    let ninth = seat.take_seat(0);
    cancel_all(collectors);
    let after = last_collects(&mut seat, ninth.expect(&rt, "a ninth"));
    assert_same(&rt, "collectors made", made, 7);
    assert_same(&rt, "refusal of a tenth seat", refusal, 5);
    assert_same(
        &rt,
        "collectors, and after one is given back",
        (most, fewer),
        (8, 7),
    );
    assert_same(&rt, "the ninth", after, (Some(0), 1, 0));
}

/// The last value that is set where threads collect.
const LAST: u64 = 100_000;

fn set_up_to_last(seat: &mut StateSeat<u64>) {
    for value in 1..=LAST {
        seat.set(value);
    }
}

// Asks until the last value came. Says whether each value was above the one before, and how far they came.
fn collect_to_last(seat: StateSeat<u64>) -> (bool, u64) {
    let mut collector = seat.collect();
    let mut rises = true;
    let mut least = 0;
    for _ in 0..20_000_000u32 {
        if let Some(value) = collector.try_next() {
            rises = rises && value >= least;
            least = value.saturating_add(1);
        } else {
            thread::yield_now();
        }
        if least > LAST {
            break;
        }
    }
    drop(collector.cancel());
    (rises, least)
}

#[test]
fn three_threads_collect_what_one_sets(rt: HostRuntime) {
    let mut setter = StateFlow::new(rt.alloc(), 0u64, 4).expect(&rt, "a state");
    let seats = take_seats(&mut setter, Vec::new(rt.alloc()), 3).expect(&rt, "seats");
    // Where no thread can be had, the last is called first.
    let (collected, ()) = thread::join(
        &rt,
        || thread::map_vec(&rt, seats, &collect_to_last),
        || set_up_to_last(&mut setter),
    );
    let collected = collected.expect(&rt, "what they collected");
    assert_eq!(rt; collected.as_slice(), [(true, LAST + 1); 3].as_slice());
    assert_eq!(rt; setter.collectors(), 0);
}

// A type of the caller's own is a value. A collector's first ask gives the value.
#[test]
fn callers_of_a_state(rt: HostRuntime) {
    let mut seat = StateFlow::new(rt.alloc(), Light::Off, 2).expect(&rt, "a state");
    let mut collector = seat.take_seat(0).expect(&rt, "a seat").collect();
    let mut dimmer = Dimmer::new(seat);
    assert_same(&rt, "first value", collector.try_next(), Some(Light::Off));
    assert_same(&rt, "collectors told", dimmer.switch(Light::On), 1);
    assert_same(&rt, "second value", collector.try_next(), Some(Light::On));
    assert_same(&rt, "third ask", collector.try_next(), None);
    drop(collector.cancel());
    assert_same(&rt, "collectors left", dimmer.switch(Light::Off), 0);
}

#[test]
fn a_second_ask_has_nothing(rt: HostRuntime) {
    let seat = StateFlow::new(rt.alloc(), 7u64, 1).expect(&rt, "a state");
    let (collector, first, second) = asked_twice(seat);
    assert_eq!(rt; (first, second), (Some(7), None));
    drop(collector.cancel());
}
