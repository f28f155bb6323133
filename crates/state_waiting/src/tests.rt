//! Threads that watch a state: what they are given, that they wake, and that they are let go at any moment.

use crate::{Collected, Refusal, Stopper, WatchedSeat, Watcher};
use std::alloc::{AllocGlobal, Global};
use std::hint::spin_loop;
use std::process::Abort;
use std::sync::Wait;
use std::sync::atomic::{AtomicU64, Ordering};
use std::test::Fail;
use std::thread;
use std::thread::Threads;
use std::time::{Clock, Duration, Instant};

/// How often a setter and its watchers meet.
const ROUNDS: u64 = 200;

/// How many values a thread watches for at most.
const MOST: u64 = 10_000_000;

/// What a call came to, where it isn't a value.
const STOPPED: u64 = 20_000_001;

const NOTHING: u64 = 20_000_002;

const UNORDERED: u64 = 20_000_003;

/// What a setter does, pausing so many turns of a loop before each value or, where it says so, once.
#[derive(Clone, Copy)]
enum Course {
    /// Sets 1, 2, 3 and so on.
    Numbers { last: u64, turns: u64 },
    /// Counts up from 0 so often, each time by one compare_and_set.
    Counts { times: u64, turns: u64 },
    /// Sets the 0 that is there, many times, pauses, and sets 7.
    Equals { turns: u64 },
    /// Sets 1, 2, 3 and so on, pauses, and lets all go.
    Stop { last: u64, turns: u64 },
}

impl Course {
    fn run(self, seat: &mut WatchedSeat<u64>) {
        match self {
            Course::Numbers { last, turns } => set_numbers(seat, last, turns),
            Course::Counts { times, turns } => count_up(seat, times, turns),
            Course::Equals { turns } => {
                set_equals(seat);
                spin(turns);
                seat.set(7);
            }
            Course::Stop { last, turns } => {
                set_numbers(seat, last, 0);
                spin(turns);
                seat.stop();
            }
        }
    }
}

fn spin(turns: u64) {
    for _ in 0..turns {
        spin_loop();
    }
}

fn set_numbers(seat: &mut WatchedSeat<u64>, last: u64, turns: u64) {
    for number in 1..=last {
        spin(turns);
        seat.set(number);
    }
}

fn count_up(seat: &mut WatchedSeat<u64>, times: u64, turns: u64) {
    for number in 0..times {
        spin(turns);
        seat.compare_and_set(number, number + 1);
    }
}

fn set_equals(seat: &mut WatchedSeat<u64>) {
    for _ in 0..ROUNDS {
        seat.set(0);
        seat.compare_and_set(0, 0);
    }
}

/// The next value, or that none comes.
fn heard(rt: &impl Wait, watcher: &mut Watcher<u64>) -> u64 {
    match watcher.next(rt) {
        Collected::Value(value) => value,
        Collected::Stopped => STOPPED,
    }
}

/// The same, for so many milliseconds at most.
fn heard_within<R: Wait + Clock>(rt: &R, watcher: &mut Watcher<u64>, milliseconds: u64) -> u64 {
    match watcher.next_within(rt, Duration::from_millis(milliseconds)) {
        Some(Collected::Value(value)) => value,
        Some(Collected::Stopped) => STOPPED,
        None => NOTHING,
    }
}

/// Watches until it is given `last`, or is stopped. The last value that it was given; they have to rise.
fn watch_to(rt: &impl Wait, watcher: &mut Watcher<u64>, last: u64) -> u64 {
    let mut latest = 0;
    for count in 0..MOST {
        let value = heard(rt, watcher);
        if value == STOPPED {
            return latest;
        }
        if value < latest || (value == latest && count > 0) {
            return UNORDERED;
        }
        if value == last {
            return value;
        }
        latest = value;
    }
    UNORDERED
}

/// Ends the watching. What the watcher had still to be given, or `NOTHING`.
fn left_of(mut watcher: Watcher<u64>) -> u64 {
    let left = watcher.try_next().unwrap_or(NOTHING);
    drop(watcher.cancel());
    left
}

/// A state that is 0, and one that watches it.
struct Pair {
    seat: WatchedSeat<u64>,
    watcher: Watcher<u64>,
}

fn paired<R: AllocGlobal + Abort>(rt: &R) -> Pair {
    let mut seat = WatchedSeat::new(rt.alloc(), 0, 2).expect(rt, "a state");
    let watcher = seat.take_seat(0).expect(rt, "a seat").collect();
    Pair { seat, watcher }
}

/// One sets, while the other watches until it is given `last`, or is stopped. The last value that it was given.
fn meet<R: Threads + Wait + Sync>(
    rt: &R,
    seat: &mut WatchedSeat<u64>,
    watcher: &mut Watcher<u64>,
    last: u64,
    course: Course,
) -> u64 {
    let (latest, ()) = thread::join(rt, || watch_to(rt, watcher, last), || course.run(seat));
    latest
}

impl Pair {
    /// Both meet. What the watcher was given last, what it had still to be given, and how many watched.
    fn meet<R: Threads + Wait + Sync>(self, rt: &R, last: u64, course: Course) -> [u64; 3] {
        let Pair {
            mut seat,
            mut watcher,
        } = self;
        let latest = meet(rt, &mut seat, &mut watcher, last, course);
        let watching = seat.collectors();
        [latest, left_of(watcher), watching as u64]
    }
}

/// Two that watch one state meet one that sets it. What each was given last, what each had still to be given, and how many watched.
fn three_meet<R>(rt: &R, last: u64, course: Course) -> [u64; 5]
where
    R: AllocGlobal + Abort + Threads + Wait + Sync,
{
    let mut seat = WatchedSeat::new(rt.alloc(), 0, 3).expect(rt, "a state");
    let one = seat.take_seat(0).expect(rt, "a seat");
    let other = seat.take_seat(0).expect(rt, "a seat");
    let mut one = one.collect();
    let mut other = other.collect();
    let (first, second) = thread::join(
        rt,
        || watch_to(rt, &mut one, last),
        || meet(rt, &mut seat, &mut other, last, course),
    );
    let watching = seat.collectors();
    [first, second, left_of(one), left_of(other), watching as u64]
}

/// A value that is set while another thread waits for it arrives there, whether that one sleeps by then or not.
#[test]
fn a_value_wakes_who_waits_for_it(rt: HostRuntime) -> Result<(), Fail> {
    for round in 0..40 {
        let mut pair = paired(&rt);
        let first = heard(&rt, &mut pair.watcher);
        let turns = round * 5_000;
        let found = pair.meet(&rt, 1, Course::Numbers { last: 1, turns });
        assert!(rt; first == 0, "the value as the state was made");
        assert_eq!(rt; found, [1, NOTHING, 1], "round {round}");
    }
    Ok(())
}

/// Whoever watches is given the last value, however fast they are set, and each value is later than the one before.
#[test]
fn the_last_value_always_arrives(rt: HostRuntime) -> Result<(), Fail> {
    for round in 0..ROUNDS {
        let last = 1 + round * 10;
        let turns = (round % 2) * (round % 40);
        let found = paired(&rt).meet(&rt, last, Course::Numbers { last, turns });
        assert_eq!(rt; found, [last, NOTHING, 1], "round {round}");
    }
    Ok(())
}

/// The same of a value that is counted up by `compare_and_set`, with pauses in which the watcher falls asleep.
#[test]
fn each_count_wakes_who_waits_for_it(rt: HostRuntime) -> Result<(), Fail> {
    let course = Course::Counts {
        times: 300,
        turns: 10_000,
    };
    let found = paired(&rt).meet(&rt, 300, course);
    assert_eq!(rt;
        found,
        [300, NOTHING, 1],
        "the last count, and what is left"
    );
    Ok(())
}

/// An equal value wakes nobody for good: who waits is given the first that differs.
#[test]
fn an_equal_value_is_not_given(rt: HostRuntime) -> Result<(), Fail> {
    for round in 0..20 {
        let turns = round * 5_000;
        let found = paired(&rt).meet(&rt, 7, Course::Equals { turns });
        assert_eq!(rt; found, [7, NOTHING, 1], "round {round}");
    }
    Ok(())
}

/// Sets so many numbers, and waits for the echo of each.
fn call(rt: &impl Wait, seat: &mut WatchedSeat<u64>, echo: &mut Watcher<u64>, times: u64) -> u64 {
    for number in 1..=times {
        seat.set(number);
        if heard(rt, echo) != number {
            return UNORDERED;
        }
    }
    times
}

/// Waits for so many numbers, and sets each some time later: sooner or later than the one that called falls asleep, or just then.
fn answer(
    rt: &impl Wait,
    calls: &mut Watcher<u64>,
    seat: &mut WatchedSeat<u64>,
    times: u64,
) -> u64 {
    for number in 1..=times {
        if heard(rt, calls) != number {
            return UNORDERED;
        }
        spin(number.wrapping_mul(7) % 400);
        seat.set(number);
    }
    times
}

/// Two threads set a state each, and wait for what the other sets: no wake is lost, whenever it comes.
#[test]
fn each_call_has_its_echo(rt: HostRuntime) -> Result<(), Fail> {
    const TIMES: u64 = 10_000;
    let Pair {
        mut seat,
        mut watcher,
    } = paired(&rt);
    let Pair {
        seat: mut back,
        watcher: mut echo,
    } = paired(&rt);
    let first = [heard(&rt, &mut watcher), heard(&rt, &mut echo)];
    let (answered, called) = thread::join(
        &rt,
        || answer(&rt, &mut watcher, &mut back, TIMES),
        || call(&rt, &mut seat, &mut echo, TIMES),
    );
    let left = [left_of(watcher), left_of(echo)];
    assert_eq!(rt;
        [answered, called],
        [TIMES, TIMES],
        "how many were answered, and called"
    );
    assert!(rt;
        first == [0, 0] && left == [NOTHING, NOTHING],
        "what else was given"
    );
    Ok(())
}

/// Two that wait for one value are both woken by it.
#[test]
fn a_value_wakes_all_who_wait_for_it(rt: HostRuntime) -> Result<(), Fail> {
    for round in 0..20 {
        let turns = round * 5_000;
        let found = three_meet(&rt, 3, Course::Numbers { last: 3, turns });
        assert_eq!(rt; found, [3, 3, NOTHING, NOTHING, 2], "round {round}");
    }
    Ok(())
}

/// A thread that sleeps is let go, at whatever moment, and was given all that was set before.
#[test]
fn who_waits_is_let_go_at_any_moment(rt: HostRuntime) -> Result<(), Fail> {
    for round in 0..ROUNDS {
        let last = round % 5;
        let turns = round.wrapping_mul(round) % 20_000;
        let found = paired(&rt).meet(&rt, MOST, Course::Stop { last, turns });
        assert_eq!(rt; found, [last, NOTHING, 1], "round {round}");
    }
    Ok(())
}

/// Two that sleep are both let go.
#[test]
fn all_who_wait_are_let_go(rt: HostRuntime) -> Result<(), Fail> {
    for round in 0..20 {
        let turns = round * 5_000;
        let found = three_meet(&rt, MOST, Course::Stop { last: 2, turns });
        assert_eq!(rt; found, [2, 2, NOTHING, NOTHING, 2], "round {round}");
    }
    Ok(())
}

/// Who is let go before it waits is given what is there, and what is set later, and waits no more. To stop again changes nothing.
#[test]
fn who_is_stopped_is_given_what_is_there(rt: HostRuntime) -> Result<(), Fail> {
    let Pair {
        mut seat,
        mut watcher,
    } = paired(&rt);
    let was_stopped = seat.is_stopped() || watcher.is_stopped();
    seat.stop();
    let is_stopped = seat.is_stopped() && watcher.is_stopped();
    let first = heard(&rt, &mut watcher);
    let second = heard(&rt, &mut watcher);
    seat.stop();
    let third = heard_within(&rt, &mut watcher, 10_000);
    seat.set(5);
    let fourth = heard(&rt, &mut watcher);
    let fifth = heard(&rt, &mut watcher);
    let found = [first, second, third, fourth, fifth, left_of(watcher)];
    assert_eq!(rt;
        found,
        [0, STOPPED, STOPPED, 5, STOPPED, NOTHING],
        "what the waits came to"
    );
    assert!(rt;
        is_stopped && !was_stopped,
        "all are let go then, and were not before"
    );
    Ok(())
}

/// Pauses, and lets the watcher go that the stopper is of.
fn let_go_later(stopper: &Stopper, turns: u64) {
    spin(turns);
    stopper.stop();
}

/// Sets so many numbers, pauses, and lets the watcher go that the stopper is of.
fn set_and_let_go(seat: &mut WatchedSeat<u64>, stopper: &Stopper, last: u64, turns: u64) {
    set_numbers(seat, last, 0);
    let_go_later(stopper, turns);
}

/// A thread that sleeps is let go alone, at whatever moment, and was given all that was set before.
#[test]
fn one_is_let_go_at_any_moment(rt: HostRuntime) -> Result<(), Fail> {
    for round in 0..ROUNDS {
        let last = round % 5;
        let turns = round.wrapping_mul(round) % 20_000;
        let mut seat = WatchedSeat::new(rt.alloc(), 0, 2)?;
        let mut watching = seat.take_seat(0)?;
        let stopper = watching.watcher_stopper(rt.alloc())?;
        let mut watcher = watching.collect();
        let (latest, ()) = thread::join(
            &rt,
            || watch_to(&rt, &mut watcher, MOST),
            || set_and_let_go(&mut seat, &stopper, last, turns),
        );
        assert_eq!(rt;
            [latest, left_of(watcher)],
            [last, NOTHING],
            "round {round}"
        );
    }
    Ok(())
}

/// How many stops of each kind come just as a watcher goes to sleep.
const CLOSE: u64 = 1_000;

/// How many turns of a loop a stop comes after its watcher began to wait, and how many more at most: the watcher looks on for about as
/// many, and goes to sleep then.
const SOONEST: u64 = 192;

const SPREAD: u64 = 128;

/// How many milliseconds a watcher waits for its stop.
const LIMIT: u64 = 10_000;

/// How often a thread looks at most whether the other one has come so far.
const TURNS: u64 = 100_000_000;

/// Lets go a watcher, with all that watch its state or alone.
#[derive(Drop)]
enum Stops {
    All(WatchedSeat<u64>),
    Alone(Stopper),
}

impl Stops {
    fn stop(&self) {
        match self {
            Stops::All(seat) => seat.stop(),
            Stops::Alone(stopper) => stopper.stop(),
        }
    }
}

/// The seat to watch from, and who lets its watcher go.
fn stopped(alloc: Global, is_alone: bool) -> Result<(WatchedSeat<u64>, Stops), Refusal> {
    let mut seat = WatchedSeat::new(alloc, 0, 2)?;
    let mut watching = seat.take_seat(0)?;
    if !is_alone {
        return Ok((watching, Stops::All(seat)));
    }
    let stopper = watching.watcher_stopper(alloc)?;
    Ok((watching, Stops::Alone(stopper)))
}

/// Seats to watch from, each of a state of its own, and who lets go the watcher of each.
fn all_stopped(
    alloc: Global,
    is_alone: bool,
) -> Result<(Vec<WatchedSeat<u64>>, Vec<Stops>), Refusal> {
    let mut watching = Vec::new(alloc);
    let mut stopping = Vec::new(alloc);
    for _ in 0..CLOSE {
        let (seat, stops) = stopped(alloc, is_alone)?;
        watching.push(seat)?;
        stopping.push(stops)?;
    }
    Ok((watching, stopping))
}

/// Watches from one seat after another, each time until it is let go, and says before each wait which one it is. How many were told so
/// before their time was up, to the first that wasn't: who looks a last time then finds a stop, too, that woke nobody.
fn watch_each<R: Wait + Clock + Abort>(
    rt: &R,
    watching: Vec<WatchedSeat<u64>>,
    begun: &AtomicU64,
) -> u64 {
    let mut count: u64 = 0;
    for seat in watching {
        let mut watcher = seat.collect();
        let _first = watcher.try_next();
        let start = Instant::now(rt).expect(rt, "a clock");
        begun.store(count.saturating_add(1), Ordering::SeqCst);
        let heard = heard_within(rt, &mut watcher, LIMIT);
        let waited = start.elapsed(rt).expect(rt, "a clock");
        drop(watcher.cancel());
        if heard != STOPPED || waited >= Duration::from_millis(LIMIT) {
            begun.store(u64::MAX, Ordering::SeqCst);
            return count;
        }
        count = count.saturating_add(1);
    }
    count
}

/// Looks on until so many waits have begun. Whether they have.
fn have_begun(begun: &AtomicU64, count: u64) -> bool {
    for _ in 0..TURNS {
        if begun.load(Ordering::SeqCst) >= count {
            return true;
        }
        spin_loop();
    }
    false
}

/// Lets go one watcher after another, each just as it goes to sleep.
fn stop_each(stopping: Vec<Stops>, begun: &AtomicU64) {
    let mut count: u64 = 0;
    for stops in stopping {
        count = count.saturating_add(1);
        if !have_begun(begun, count) {
            return;
        }
        spin(SOONEST + count % SPREAD);
        stops.stop();
    }
}

/// How many of those watchers were let go by their stop.
fn let_go_close<R>(rt: &R, is_alone: bool) -> Result<u64, Refusal>
where
    R: AllocGlobal + Abort + Threads + Wait + Clock + Sync,
{
    let (watching, stopping) = all_stopped(rt.alloc(), is_alone)?;
    let begun = AtomicU64::new(0);
    let (count, ()) = thread::join(
        rt,
        || watch_each(rt, watching, &begun),
        || stop_each(stopping, &begun),
    );
    Ok(count)
}

/// A stop that comes just as its watcher looks a last time and falls asleep isn't missed. One that rang before it was marked would
/// ring too soon for that watcher to see it, and wake nobody later.
#[test]
fn a_stop_just_before_the_sleep_is_heard(rt: HostRuntime) -> Result<(), Fail> {
    let found = [let_go_close(&rt, true)?, let_go_close(&rt, false)?];
    assert_eq!(rt;
        found,
        [CLOSE; 2],
        "how many were let go, alone, and with all"
    );
    Ok(())
}

/// Waits until it is let go, and sets 3 some time after that. The last value that it was given.
fn watch_and_set(rt: &impl Wait, watcher: &mut Watcher<u64>, seat: &mut WatchedSeat<u64>) -> u64 {
    let latest = watch_to(rt, watcher, MOST);
    spin(20_000);
    seat.set(3);
    latest
}

/// Of two that sleep one is let go, and the other sleeps on until the next value: it comes only after that.
#[test]
fn the_other_sleeps_on(rt: HostRuntime) -> Result<(), Fail> {
    for round in 0..20 {
        let turns = round * 5_000;
        let mut seat = WatchedSeat::new(rt.alloc(), 0, 3)?;
        let mut watching = seat.take_seat(0)?;
        let sleeping = seat.take_seat(0)?;
        let stopper = watching.watcher_stopper(rt.alloc())?;
        let mut one = watching.collect();
        let mut other = sleeping.collect();
        let ((first, second), ()) = thread::join(
            &rt,
            || {
                thread::join(
                    &rt,
                    || watch_to(&rt, &mut other, 3),
                    || watch_and_set(&rt, &mut one, &mut seat),
                )
            },
            || let_go_later(&stopper, turns),
        );
        let is_alone = one.is_stopped() && !other.is_stopped();
        let found = [first, second, left_of(other), left_of(one)];
        assert_eq!(rt; found, [3, 0, NOTHING, 3], "round {round}");
        assert!(rt; is_alone, "the other was let go in round {round}");
    }
    Ok(())
}

/// Who alone is let go before it waits, or between two waits, is given what is there, and waits no more. To stop again changes
/// nothing, nor does what it was let go by for who watches at its seat later.
#[test]
fn who_alone_is_stopped_is_given_what_is_there(rt: HostRuntime) -> Result<(), Fail> {
    let mut seat = WatchedSeat::new(rt.alloc(), 0, 2)?;
    let mut watching = seat.take_seat(0)?;
    let stopper = watching.watcher_stopper(rt.alloc())?;
    let second = watching.watcher_stopper(rt.alloc())?;
    let third = stopper.clone()?;
    let mut watcher = watching.collect();
    let was_stopped = watcher.is_stopped() || stopper.is_stopped();
    third.stop();
    let is_stopped = watcher.is_stopped() && stopper.is_stopped() && second.is_stopped();
    let first = heard(&rt, &mut watcher);
    let before = heard(&rt, &mut watcher);
    second.stop();
    let within = heard_within(&rt, &mut watcher, 10_000);
    seat.set(5);
    let between = [heard(&rt, &mut watcher), heard(&rt, &mut watcher)];
    let mut later = watcher.cancel().collect();
    let anew = [heard(&rt, &mut later), heard_within(&rt, &mut later, 1)];
    let is_alone = !seat.is_stopped() && !later.is_stopped();
    let left = left_of(later);
    assert_eq!(rt;
        [
            first, before, within, between[0], between[1], anew[0], anew[1], left
        ],
        [0, STOPPED, STOPPED, 5, STOPPED, 5, NOTHING, NOTHING],
        "what the waits came to"
    );
    assert!(rt;
        is_stopped && !was_stopped && is_alone,
        "it is let go then, was not before, and nobody else is"
    );
    Ok(())
}

/// Watches for two values, each for a time that isn't up before they come.
fn hear_two<R: Wait + Clock>(rt: &R, watcher: &mut Watcher<u64>) -> [u64; 2] {
    let first = heard_within(rt, watcher, 50_000);
    let second = heard_within(rt, watcher, 50_000);
    [first, second]
}

/// A wait for a time ends where it is up, and not before; a value ends it sooner, and a stop does.
#[test]
fn a_wait_ends_with_its_time(rt: HostRuntime) -> Result<(), Fail> {
    let Pair {
        mut seat,
        mut watcher,
    } = paired(&rt);
    let first = heard_within(&rt, &mut watcher, 0);
    let start = Instant::now(&rt).expect(&rt, "a clock");
    let second = heard_within(&rt, &mut watcher, 20);
    let waited = start.elapsed(&rt).expect(&rt, "a clock");
    let third = heard_within(&rt, &mut watcher, 0);
    let course = Course::Stop {
        last: 1,
        turns: 200_000,
    };
    let (heard, ()) = thread::join(
        &rt,
        || hear_two(&rt, &mut watcher),
        || course.run(&mut seat),
    );
    let found = [first, second, third, heard[0], heard[1], left_of(watcher)];
    assert_eq!(rt;
        found,
        [0, NOTHING, NOTHING, 1, STOPPED, NOTHING],
        "what the waits came to"
    );
    assert!(rt;
        waited >= Duration::from_millis(20),
        "a wait ended before its time"
    );
    Ok(())
}

/// Who waits no more is not counted among those that sleep, whether it was given a value as it looked on, or its time was up, or it
/// was let go. One that stayed counted would make a call of the system of each set, for ever.
#[test]
fn who_waits_no_more_is_not_counted(rt: HostRuntime) -> Result<(), Fail> {
    const WAITS: u64 = 100_000;
    let Pair {
        mut seat,
        mut watcher,
    } = paired(&rt);
    let mut count: u64 = 0;
    for value in 1..=WAITS {
        seat.set(value);
        if heard(&rt, &mut watcher) == value {
            count = count.saturating_add(1);
        }
    }
    let looked_on = watcher.sleepers();
    let nothing = heard_within(&rt, &mut watcher, 1);
    let in_time = watcher.sleepers();
    seat.stop();
    let stopped = heard(&rt, &mut watcher);
    let let_go = watcher.sleepers();
    let left = left_of(watcher);
    assert_eq!(rt;
        [count, nothing, stopped, left],
        [WAITS, NOTHING, STOPPED, NOTHING],
        "what the waits came to"
    );
    assert_eq!(rt;
        [looked_on, in_time, let_go],
        [0; 3],
        "how many were counted after them"
    );
    Ok(())
}

/// Seats are taken and given back, and whoever has one reads and sets the same value.
#[test]
fn seats_share_one_state(rt: HostRuntime) -> Result<(), Fail> {
    let refused = WatchedSeat::new(rt.alloc(), 0u64, 0).is_err();
    let mut seat = WatchedSeat::new(rt.alloc(), 0u64, 3)?;
    let mut other = seat.take_seat(1)?;
    let is_full = seat.take_seat(0).is_err();
    other.set(4);
    let found = [seat.value(), seat.spare() as u64, other.spare() as u64];
    let watcher = other.collect();
    let watching = seat.collectors();
    seat.give_back(watcher.cancel());
    let was_equal = seat.compare_and_set(4, 5) && !seat.compare_and_set(4, 6);
    assert_eq!(rt;
        found,
        [4, 0, 1],
        "the value, and who has how many seats to give"
    );
    assert_eq!(rt;
        [seat.value(), seat.spare() as u64],
        [5, 2],
        "the same, at the end"
    );
    assert!(rt;
        refused && is_full && was_equal && watching == 1,
        "what the calls answered"
    );
    Ok(())
}
