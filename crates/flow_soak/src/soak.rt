//! Rounds, after each of which the place of every value is checked.

use crate::counts::Counts;
use crate::fault::Fault;
use crate::places::check_places;
use crate::random::Random;
use crate::rounds::round;
use std::alloc::AllocGlobal;
use std::random::RandomSource;
use std::rt::Clock;
use std::sync::Wait;
use std::thread::Threads;
use std::time::Instant;

/// Makes rounds for so many minutes, and writes what was done. It ends early where a value isn't in its place.
pub(crate) fn soak_for<R>(rt: &R, minutes: u64) -> Result<(), Fault>
where
    R: Clock + Print + AllocGlobal + RandomSource + Threads + Wait + Sync,
{
    let mut counts = Counts::none();
    let mut random = Random::new(rt)?;
    rounds_for(rt, minutes, &mut random, &mut counts)?;
    write_counts(rt, &counts)
}

/// Makes one round, and writes what never varies.
pub(crate) fn soak_once<R>(rt: &R) -> Result<(), Fault>
where
    R: Print + AllocGlobal + RandomSource + Threads + Wait + Sync,
{
    let mut counts = Counts::none();
    let mut random = Random::new(rt)?;
    let threads = checked_round(rt, &mut random, &mut counts)?;
    write_kinds(rt, threads, &counts)
}

/// Makes rounds until so many minutes have passed, and adds what was done.
fn rounds_for<R>(
    rt: &R,
    minutes: u64,
    random: &mut Random,
    counts: &mut Counts,
) -> Result<(), Fault>
where
    R: Clock + AllocGlobal + RandomSource + Threads + Wait + Sync,
{
    let start = Instant::now(rt)?;
    for _ in rt.forever() {
        if start.elapsed(rt)?.as_secs() / 60 >= minutes {
            break;
        }
        checked_round(rt, random, counts)?;
    }
    Ok(())
}

/// Makes a round, checks the place of every value, and adds what was done. Gives how many threads there were.
fn checked_round<R>(rt: &R, random: &mut Random, counts: &mut Counts) -> Result<usize, Fault>
where
    R: AllocGlobal + RandomSource + Threads + Wait + Sync,
{
    let records = round(rt, random)?;
    check_places(rt.alloc(), &records)?;
    counts.add_round(&records);
    Ok(records.len())
}

/// A word for a count that varies.
fn some_or_none(count: u64) -> &'static str {
    if count == 0 { "none" } else { "some" }
}

/// Writes what never varies: how many threads there were, and of what there was any.
fn write_kinds(rt: &impl Print, threads: usize, counts: &Counts) -> Result<(), Fault> {
    println!(rt; "threads\t{threads}")?;
    for (name, count) in [
        ("accepted in blocks", counts.accepted_in_blocks),
        ("values received", counts.received),
        ("received in blocks", counts.received_in_blocks),
        ("values collected of the state", counts.given),
    ] {
        println!(rt; "{name}\t{}", some_or_none(count))?;
    }
    write_end(rt)
}

fn write_counts(rt: &impl Print, counts: &Counts) -> Result<(), Fault> {
    for (name, count) in [
        ("rounds", counts.rounds),
        ("emissions accepted", counts.accepted),
        ("accepted in blocks", counts.accepted_in_blocks),
        ("subscriptions", counts.subscriptions),
        ("values received", counts.received),
        ("received in blocks", counts.received_in_blocks),
        ("values dropped by the policy", counts.dropped),
        ("sets of the state", counts.sets),
        ("values collected of the state", counts.given),
    ] {
        println!(rt; "{name}\t{count}")?;
    }
    write_end(rt)
}

/// Writes that every value was in its place, which each round has to hold.
fn write_end(rt: &impl Print) -> Result<(), Fault> {
    println!(rt; "lost, doubled or out of order\t0")?;
    Ok(())
}
