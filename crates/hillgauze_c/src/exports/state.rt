//! A seat at a state flow.
ghost use Rattle.std.specs.Prelude.{◌≡◌, ◌≢◌, None};
ghost use Rattle.hillgauze_c.specs.Replies.{refused_as};
ghost use Rattle.hillgauze_c.specs.declared.object.Object.TheVariants.{Seat};
ghost use Rattle.hillgauze_c.specs.Kinds.{IsFreed, IsTaken, OnHandle, seat_of};
ghost use Rattle.hillgauze_c.specs.StateCalls.{OnSeat, MakesState, ReadsValue, SetsValue, ComparesValue, CountsCollectors, CountsSpare, TakesSeat, GivesBack, AreOfOneFlow, IsTakenFrom};

use crate::handle::Handle;
use crate::object::Object;
use crate::parties::Seating;
use crate::reply::{HANDLE_TAKEN, NULL_HANDLE, OTHER_KIND, Reply};
use flow_terms::Refusal;
use state_flow::StateFlow;
use std::alloc::Global;

/// The value as it is now.
#[unsafe(no_mangle)]
pub extern "C" fn hillgauze_state_value(seat: &mut Handle) -> Reply
    ensures { OnSeat (ReadsValue) seat.old.object result seat.new.object }
{
    lent!(seating = seat.seat());
    Reply::of_value(Some(seating.seat.value()))
}

/// Sets the value.
#[unsafe(no_mangle)]
pub extern "C" fn hillgauze_state_set(seat: &mut Handle, value: u64) -> Reply
    ensures { OnSeat (SetsValue value) seat.old.object result seat.new.object }
{
    lent!(seating = seat.seat());
    seating.seat.set(value);
    Reply::done()
}

/// Sets the value where it is the expected one.
#[unsafe(no_mangle)]
pub extern "C" fn hillgauze_state_compare_and_set(
    seat: &mut Handle,
    expect: u64,
    update: u64,
) -> Reply
    ensures { OnSeat (ComparesValue expect update) seat.old.object result seat.new.object }
{
    lent!(seating = seat.seat());
    Reply::of_comparison(seating.seat.compare_and_set(expect, update))
}

/// How many collectors there are.
#[unsafe(no_mangle)]
pub extern "C" fn hillgauze_state_collectors(seat: &mut Handle) -> Reply
    ensures { OnSeat (CountsCollectors) seat.old.object result seat.new.object }
{
    lent!(seating = seat.seat());
    Reply::of_count(seating.seat.collectors() as u64)
}

/// How many more seats can be taken of this one.
#[unsafe(no_mangle)]
pub extern "C" fn hillgauze_state_spare(seat: &mut Handle) -> Reply
    ensures { OnSeat (CountsSpare) seat.old.object result seat.new.object }
{
    lent!(seating = seat.seat());
    Reply::of_count(seating.seat.spare() as u64)
}

/// Makes a state flow, and puts its first seat in a null handle.
#[unsafe(no_mangle)]
pub extern "C" fn hillgauze_state_new(
    alloc: Global,
    seat: &mut Handle,
    value: u64,
    seats: u32,
) -> Reply
    ensures { MakesState value seats seat.old.object result seat.new.object }
{
    if !seat.is_null() {
        return Reply::refused(HANDLE_TAKEN);
    }
    match StateFlow::new(alloc, value, seats) {
        Ok(first) => Reply::of_making(seat.make(alloc, Object::Seat(Seating { seat: first }))),
        Err(refusal) => Reply::of_refusal(refusal),
    }
}

/// Takes a new seat, and puts it in a null handle.
#[unsafe(no_mangle)]
pub extern "C" fn hillgauze_state_take_seat(
    alloc: Global,
    seat: &mut Handle,
    share: u32,
    other: &mut Handle,
) -> Reply
    ensures taken { IsTaken other.old.object → (result ≡ refused_as 103) × (seat.new.object ≡ seat.old.object) }
    ensures seat { other.old.object ≡ None → OnHandle seat_of Seat (TakesSeat share other.new.object) seat.old.object result seat.new.object }
    ensures refused { result.refusal ≢ 0 → other.new.object ≡ other.old.object }
{
    if !other.is_null() {
        return Reply::refused(HANDLE_TAKEN);
    }
    lent!(seating = seat.seat());
    // Memory is met first, so that no seat is taken for which there is none.
    if !other.make(alloc, Object::Vacant) {
        return Reply::of_refusal(Refusal::NoMemory);
    }
    match seating.seat.take_seat(share) {
        Ok(seat) => {
            other.put(Object::Seat(Seating { seat }));
            Reply::done()
        }
        Err(refusal) => {
            other.clear(alloc);
            Reply::of_refusal(refusal)
        }
    }
}

/// Frees the seat.
#[unsafe(no_mangle)]
pub extern "C" fn hillgauze_state_free(alloc: Global, seat: &mut Handle) -> Reply
    ensures { IsFreed seat_of seat.old.object result seat.new.object }
{
    lent!(_own = seat.seat());
    seat.clear(alloc);
    Reply::done()
}

// Takes the seat out of a handle, which is null then. The number of a refusal where it has none.
fn taken(alloc: Global, handle: &mut Handle) -> Result<Seating, u32>
    ensures { IsTakenFrom handle.old.object result handle.new.object }
{
    let Some(object) = handle.lend() else {
        return Err(NULL_HANDLE);
    };
    let Some(seating) = object.take_seat() else {
        return Err(OTHER_KIND);
    };
    handle.clear(alloc);
    Ok(seating)
}

/// Takes back another seat of the same state flow.
#[unsafe(no_mangle)]
pub extern "C" fn hillgauze_state_give_back(
    alloc: Global,
    seat: &mut Handle,
    other: &mut Handle,
) -> Reply
    requires { AreOfOneFlow seat.old.object other.old.object }
    ensures { GivesBack seat.old.object other.old.object result seat.new.object other.new.object }
{
    lent!(seating = seat.seat());
    match taken(alloc, other) {
        Ok(given) => {
            seating.seat.give_back(given.seat);
            Reply::done()
        }
        Err(refusal) => Reply::refused(refusal),
    }
}
