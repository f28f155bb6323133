//! A collector of a state flow.
ghost use Rattle.std.specs.Prelude.{◌≡◌, None};
ghost use Rattle.hillgauze_c.specs.Replies.{refused_as};
ghost use Rattle.hillgauze_c.specs.Kinds.{IsFreed, IsTaken, collector_of};
ghost use Rattle.hillgauze_c.specs.StateCalls.{OnCollector, CollectsValue, Moves, BeginsIn, EndsIn};

use crate::handle::Handle;
use crate::reply::{HANDLE_TAKEN, NULL_HANDLE, OTHER_KIND, Reply};
use std::alloc::Global;

/// Begins to collect: the seat becomes a collector, in another handle.
#[unsafe(no_mangle)]
pub extern "C" fn hillgauze_state_collect(
    alloc: Global,
    seat: &mut Handle,
    collector: &mut Handle,
) -> Reply
    ensures taken { IsTaken collector.old.object → (result ≡ refused_as 103) × (seat.new.object ≡ seat.old.object) × (collector.new.object ≡ collector.old.object) }
    ensures moved { collector.old.object ≡ None → Moves BeginsIn seat.old.object result seat.new.object collector.new.object }
{
    if !collector.is_null() {
        return Reply::refused(HANDLE_TAKEN);
    }
    let Some(object) = seat.lend() else {
        return Reply::refused(NULL_HANDLE);
    };
    if !object.collect() {
        return Reply::refused(OTHER_KIND);
    }
    *collector = seat.take(alloc);
    Reply::done()
}

/// Ends the collecting: the collector becomes a seat, in another handle.
#[unsafe(no_mangle)]
pub extern "C" fn hillgauze_collector_cancel(
    alloc: Global,
    collector: &mut Handle,
    seat: &mut Handle,
) -> Reply
    ensures taken { IsTaken seat.old.object → (result ≡ refused_as 103) × (collector.new.object ≡ collector.old.object) × (seat.new.object ≡ seat.old.object) }
    ensures moved { seat.old.object ≡ None → Moves EndsIn collector.old.object result collector.new.object seat.new.object }
{
    if !seat.is_null() {
        return Reply::refused(HANDLE_TAKEN);
    }
    let Some(object) = collector.lend() else {
        return Reply::refused(NULL_HANDLE);
    };
    if !object.cancel() {
        return Reply::refused(OTHER_KIND);
    }
    *seat = collector.take(alloc);
    Reply::done()
}

/// The value, where it isn't the last one that this collector gave.
#[unsafe(no_mangle)]
pub extern "C" fn hillgauze_collector_try_next(collector: &mut Handle) -> Reply
    ensures { OnCollector (CollectsValue) collector.old.object result collector.new.object }
{
    lent!(collecting = collector.collector());
    Reply::of_value(collecting.collector.try_next())
}

/// Ends the collecting, and frees the seat.
#[unsafe(no_mangle)]
pub extern "C" fn hillgauze_collector_free(alloc: Global, collector: &mut Handle) -> Reply
    ensures { IsFreed collector_of collector.old.object result collector.new.object }
{
    lent!(_own = collector.collector());
    collector.clear(alloc);
    Reply::done()
}
