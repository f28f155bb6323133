//! A lane's sequencer.
ghost use Rattle.std.specs.Prelude.{◌≡◌, ◌≢◌, None};
ghost use Rattle.hillgauze_c.specs.Replies.{refused_as, tried_reply, tries_reply, begun_reply, emit_reply, withdrawn_reply};
ghost use Rattle.hillgauze_c.specs.Makes.{IsMadeIn};
ghost use Rattle.hillgauze_c.specs.Kinds.{IsFreed, IsTaken, Told, sequencer_of};
ghost use Rattle.hillgauze_c.specs.LaneCalls.{OnSequencer, TriedBy, TriedAllBy, BegunBy, PolledBy, WithdrawnBy, Scans, CountsReaders, ReadsLaneCache, HasCacheLength, ResetsLane, Admits, IsFreshLane};

use crate::config::FlowConfig;
use crate::handle::Handle;
use crate::object::Object;
use crate::parties::Sequencing;
use crate::reply::{HANDLE_TAKEN, NO_SUCH_POLICY, Reply};
use flow_terms::{Refusal, Ticket};
use std::alloc::Global;

/// Makes a lane, and puts its sequencer in a null handle.
#[unsafe(no_mangle)]
pub extern "C" fn hillgauze_lane_new(
    alloc: Global,
    sequencer: &mut Handle,
    config: &FlowConfig,
) -> Reply
    ensures { IsMadeIn IsFreshLane sequencer.old.object config.now result sequencer.new.object }
{
    if !sequencer.is_null() {
        return Reply::refused(HANDLE_TAKEN);
    }
    let Some(config) = config.config() else {
        return Reply::refused(NO_SUCH_POLICY);
    };
    match Sequencing::new(alloc, config) {
        Ok(sequencing) => Reply::of_making(sequencer.make(alloc, Object::Sequencer(sequencing))),
        Err(refusal) => Reply::of_refusal(refusal),
    }
}

/// Emits where there is room.
#[unsafe(no_mangle)]
pub extern "C" fn hillgauze_lane_try_emit(sequencer: &mut Handle, emitter: u32, value: u64) -> Reply
    ensures { OnSequencer (Told tried_reply (TriedBy emitter value)) sequencer.old.object result sequencer.new.object }
{
    lent!(sequencing = sequencer.sequencer());
    Reply::of_try(sequencing.try_emit(emitter, value))
}

/// Emits these values in order, up to the first for which there is no room.
#[unsafe(no_mangle)]
pub extern "C" fn hillgauze_lane_try_emit_all(
    sequencer: &mut Handle,
    emitter: u32,
    values: &[u64],
) -> Reply
    ensures { OnSequencer (Told tries_reply (TriedAllBy emitter values.now)) sequencer.old.object result sequencer.new.object }
{
    lent!(sequencing = sequencer.sequencer());
    Reply::of_tries(sequencing.try_emit_all(emitter, values))
}

/// Begins an emission.
#[unsafe(no_mangle)]
pub extern "C" fn hillgauze_lane_start_emit(
    sequencer: &mut Handle,
    emitter: u32,
    value: u64,
) -> Reply
    ensures { OnSequencer (Told begun_reply (BegunBy emitter value)) sequencer.old.object result sequencer.new.object }
{
    lent!(sequencing = sequencer.sequencer());
    Reply::of_start(sequencing.start_emit(emitter, value))
}

/// Asks about an emission with a ticket.
#[unsafe(no_mangle)]
pub extern "C" fn hillgauze_lane_poll_emit(sequencer: &mut Handle, ticket: u64) -> Reply
    ensures { OnSequencer (Told emit_reply (PolledBy ticket)) sequencer.old.object result sequencer.new.object }
{
    lent!(sequencing = sequencer.sequencer());
    Reply::of_poll(sequencing.poll_emit(Ticket(ticket)))
}

/// Takes a ticket back.
#[unsafe(no_mangle)]
pub extern "C" fn hillgauze_lane_cancel_emit(sequencer: &mut Handle, ticket: u64) -> Reply
    ensures { OnSequencer (Told withdrawn_reply (WithdrawnBy ticket)) sequencer.old.object result sequencer.new.object }
{
    lent!(sequencing = sequencer.sequencer());
    Reply::of_withdrawal(sequencing.cancel_emit(Ticket(ticket)))
}

/// Accepts emissions that wait.
#[unsafe(no_mangle)]
pub extern "C" fn hillgauze_lane_scan(sequencer: &mut Handle) -> Reply
    ensures { OnSequencer (Scans) sequencer.old.object result sequencer.new.object }
{
    lent!(sequencing = sequencer.sequencer());
    Reply::of_count(sequencing.scan() as u64)
}

/// How many readers there are.
#[unsafe(no_mangle)]
pub extern "C" fn hillgauze_lane_count(sequencer: &mut Handle) -> Reply
    ensures { OnSequencer (CountsReaders) sequencer.old.object result sequencer.new.object }
{
    lent!(sequencing = sequencer.sequencer());
    Reply::of_count(sequencing.live() as u64)
}

/// How many values the replay cache holds.
#[unsafe(no_mangle)]
pub extern "C" fn hillgauze_lane_cache_len(sequencer: &mut Handle) -> Reply
    ensures { OnSequencer (HasCacheLength) sequencer.old.object result sequencer.new.object }
{
    lent!(sequencing = sequencer.sequencer());
    Reply::of_count(sequencing.replay_len())
}

/// A value of the replay cache.
#[unsafe(no_mangle)]
pub extern "C" fn hillgauze_lane_cache_at(sequencer: &mut Handle, index: u64) -> Reply
    ensures { OnSequencer (ReadsLaneCache index) sequencer.old.object result sequencer.new.object }
{
    lent!(sequencing = sequencer.sequencer());
    if index >= sequencing.replay_len() {
        return Reply::of_value(None);
    }
    Reply::of_value(Some(sequencing.replay_at(index)))
}

/// Empties the replay cache.
#[unsafe(no_mangle)]
pub extern "C" fn hillgauze_lane_reset(sequencer: &mut Handle) -> Reply
    ensures { OnSequencer (ResetsLane) sequencer.old.object result sequencer.new.object }
{
    lent!(sequencing = sequencer.sequencer());
    sequencing.reset_replay();
    Reply::done()
}

/// Admits a reader, and puts it in a null handle.
#[unsafe(no_mangle)]
pub extern "C" fn hillgauze_lane_admit(
    alloc: Global,
    sequencer: &mut Handle,
    reader: &mut Handle,
) -> Reply
    ensures taken { IsTaken reader.old.object → (result ≡ refused_as 103) × (sequencer.new.object ≡ sequencer.old.object) }
    ensures admitted { reader.old.object ≡ None → OnSequencer (Admits reader.new.object) sequencer.old.object result sequencer.new.object }
    ensures refused { result.refusal ≢ 0 → reader.new.object ≡ reader.old.object }
{
    if !reader.is_null() {
        return Reply::refused(HANDLE_TAKEN);
    }
    lent!(sequencing = sequencer.sequencer());
    // Memory is met first, so that no reader is admitted for whom there is none.
    if !reader.make(alloc, Object::Vacant) {
        return Reply::of_refusal(Refusal::NoMemory);
    }
    match sequencing.admit(alloc) {
        Ok(reading) => {
            reader.put(Object::Reader(reading));
            Reply::done()
        }
        Err(refusal) => {
            reader.clear(alloc);
            Reply::of_refusal(refusal)
        }
    }
}

/// Frees the sequencer.
#[unsafe(no_mangle)]
pub extern "C" fn hillgauze_lane_free(alloc: Global, sequencer: &mut Handle) -> Reply
    ensures { IsFreed sequencer_of sequencer.old.object result sequencer.new.object }
{
    lent!(_own = sequencer.sequencer());
    sequencer.clear(alloc);
    Reply::done()
}
