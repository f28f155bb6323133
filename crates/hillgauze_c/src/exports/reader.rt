//! A lane's reader.
ghost use Rattle.std.specs.Prelude.{◌≡◌, ◌≢◌};
ghost use Rattle.shared_lane.specs.Readers.{received_count, lost_count};
ghost use Rattle.hillgauze_c.specs.Replies.{taken_reply, takes_reply};
ghost use Rattle.hillgauze_c.specs.Kinds.{IsFreed, Told, reader_of};
ghost use Rattle.hillgauze_c.specs.LaneCalls.{OnReader, TookAndStayed, TookAtOnce, Tells, began_at};

use crate::handle::Handle;
use crate::reply::Reply;
use std::alloc::Global;

/// Takes the reader's next value.
#[unsafe(no_mangle)]
pub extern "C" fn hillgauze_reader_try_next(reader: &mut Handle) -> Reply
    ensures { OnReader (Told taken_reply TookAndStayed) reader.old.object result reader.new.object }
{
    lent!(reading = reader.reader());
    Reply::of_taking(reading.try_next())
}

/// Takes the reader's next values at once, as many as are there and find room, and at most 64.
#[unsafe(no_mangle)]
pub extern "C" fn hillgauze_reader_try_next_all(reader: &mut Handle, values: &mut [u64]) -> Reply
    ensures taken { OnReader (Told takes_reply (TookAtOnce values.old values.new)) reader.old.object result reader.new.object }
    ensures untouched { result.refusal ≢ 0 → values.new ≡ values.old }
{
    lent!(reading = reader.reader());
    Reply::of_takes(reading.try_next_all(values))
}

/// The number of the emission at which the reader began.
#[unsafe(no_mangle)]
pub extern "C" fn hillgauze_reader_start(reader: &mut Handle) -> Reply
    ensures { OnReader (Tells began_at) reader.old.object result reader.new.object }
{
    lent!(reading = reader.reader());
    Reply::of_count(reading.start())
}

/// How many values the reader received.
#[unsafe(no_mangle)]
pub extern "C" fn hillgauze_reader_received(reader: &mut Handle) -> Reply
    ensures { OnReader (Tells received_count) reader.old.object result reader.new.object }
{
    lent!(reading = reader.reader());
    Reply::of_count(reading.received())
}

/// How many values were dropped for the reader.
#[unsafe(no_mangle)]
pub extern "C" fn hillgauze_reader_dropped(reader: &mut Handle) -> Reply
    ensures { OnReader (Tells lost_count) reader.old.object result reader.new.object }
{
    lent!(reading = reader.reader());
    Reply::of_count(reading.dropped())
}

/// Ends the reader: what it owns closes its cursor where it is dropped.
#[unsafe(no_mangle)]
pub extern "C" fn hillgauze_reader_close(alloc: Global, reader: &mut Handle) -> Reply
    ensures { IsFreed reader_of reader.old.object result reader.new.object }
{
    lent!(_own = reader.reader());
    reader.clear(alloc);
    Reply::done()
}
