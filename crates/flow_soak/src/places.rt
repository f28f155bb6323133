//! The places of the values of a round.

use crate::emitting_side::APART;
use crate::fault::Fault;
use crate::record::{Place, Record, Told};
use std::alloc::Global;

/// Every number was told once, below that of all accepted emissions, and each value that was received stands at its
/// number, and at no other. Nobody is told the numbers of a block: there the first who received the value says it. Each emitter's
/// values stand in the order in which they were accepted, and none that wasn't.
pub(crate) fn check_places(alloc: Global, records: &[Record]) -> Result<(), Fault> {
    let mut accepted = vec![in alloc; None; accepted_by_all(records)]?;
    check_with(&mut accepted, records)
}

/// How many emissions were accepted.
fn accepted_by_all(records: &[Record]) -> usize {
    let mut total: usize = 0;
    for record in records {
        total = total.saturating_add(record.told.len());
    }
    total
}

/// The same with a place for the value of each number, in which none is yet.
fn check_with(accepted: &mut [Option<u64>], records: &[Record]) -> Result<(), Fault> {
    put_all(accepted, records)?;
    compare_all(accepted, records)?;
    follow_all(accepted, records)
}

/// Puts the values of each emitter at the numbers of its receipts.
fn put_all(accepted: &mut [Option<u64>], records: &[Record]) -> Result<(), Fault> {
    for record in records {
        put_at_numbers(accepted, &record.told)?;
    }
    Ok(())
}

/// Puts the values of an emitter at the numbers of its receipts.
fn put_at_numbers(accepted: &mut [Option<u64>], told: &[Told]) -> Result<(), Fault> {
    for told in told {
        let Some(number) = told.number else {
            continue;
        };
        match accepted.get_mut(number as usize) {
            Some(slot) if slot.is_none() => *slot = Some(told.value),
            _ => return Err(Fault::ToldTwice),
        }
    }
    Ok(())
}

/// Each value that was received stands at its number, and who was there at the end saw the last one.
fn compare_all(accepted: &mut [Option<u64>], records: &[Record]) -> Result<(), Fault> {
    let total = accepted.len() as u64;
    for record in records {
        compare(accepted, &record.received)?;
        if record.ended_at.is_some_and(|at| at != total) {
            return Err(Fault::Lost);
        }
    }
    Ok(())
}

fn compare(accepted: &mut [Option<u64>], received: &[Place]) -> Result<(), Fault> {
    for place in received {
        let Some(slot) = accepted.get_mut(place.number as usize) else {
            return Err(Fault::InAnotherPlace);
        };
        if *slot.get_or_insert(place.value) != place.value {
            return Err(Fault::InAnotherPlace);
        }
    }
    Ok(())
}

/// Follows the values of each emitter.
fn follow_all(accepted: &[Option<u64>], records: &[Record]) -> Result<(), Fault> {
    for record in records {
        follow(accepted, record)?;
    }
    Ok(())
}

/// Follows the values of one emitter by their numbers.
fn follow(accepted: &[Option<u64>], record: &Record) -> Result<(), Fault> {
    let mut told = record.told.iter();
    for value in accepted.iter().flatten() {
        let is_own = *value / APART == u64::from(record.id);
        // Those before it that nobody received are passed over.
        if is_own && !told.any(|told| told.value == *value) {
            return Err(Fault::OutOfOrder);
        }
    }
    Ok(())
}
