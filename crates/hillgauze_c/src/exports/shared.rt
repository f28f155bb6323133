//! The shared flow on one thread.
ghost use Rattle.std.specs.Prelude.{◌≡◌, ◌≢◌};
ghost use Rattle.shared_core.specs.Blocks as blocks;
ghost use Rattle.shared_core.specs.Calls as calls;
ghost use Rattle.shared_core.specs.Shown.{CountsPending};
ghost use Rattle.hillgauze_c.specs.Replies.{tried_reply, tries_reply, begun_reply, emit_reply, withdrawn_reply, subscribed_reply, next_reply, ended_reply, receipts_reply};
ghost use Rattle.hillgauze_c.specs.Makes.{IsMadeIn};
ghost use Rattle.hillgauze_c.specs.Kinds.{IsFreed, Told, shared_of};
ghost use Rattle.hillgauze_c.specs.SharedCalls.{OnShared, Answers, CountsAs, IsFreshFlow, IsLiveCount, IsCacheLength, SubscribesWith, ReadsCache, ReceivesInto, Resets};

use crate::config::FlowConfig;
use crate::handle::Handle;
use crate::object::Object;
use crate::receiving::receive_into;
use crate::reply::{HANDLE_TAKEN, NO_SUCH_POLICY, Reply};
use flow_terms::{SubId, Ticket};
use shared_core::{Prelude, SharedState};
use std::alloc::Global;

/// Makes a shared flow in a null handle.
#[unsafe(no_mangle)]
pub extern "C" fn hillgauze_shared_new(
    alloc: Global,
    flow: &mut Handle,
    config: &FlowConfig,
) -> Reply
    ensures { IsMadeIn IsFreshFlow flow.old.object config.now result flow.new.object }
{
    if !flow.is_null() {
        return Reply::refused(HANDLE_TAKEN);
    }
    let Some(config) = config.config() else {
        return Reply::refused(NO_SUCH_POLICY);
    };
    match SharedState::new(alloc, config) {
        Ok(shared) => Reply::of_making(flow.make(alloc, Object::Shared(shared))),
        Err(refusal) => Reply::of_refusal(refusal),
    }
}

/// Emits where there is room.
#[unsafe(no_mangle)]
pub extern "C" fn hillgauze_shared_try_emit(flow: &mut Handle, emitter: u32, value: u64) -> Reply
    ensures { OnShared (Answers tried_reply (calls.try_emit emitter value)) flow.old.object result flow.new.object }
{
    lent!(shared = flow.shared());
    Reply::of_try(shared.try_emit(emitter, value))
}

/// Emits these values in order, up to the first for which there is no room.
#[unsafe(no_mangle)]
pub extern "C" fn hillgauze_shared_try_emit_all(
    flow: &mut Handle,
    emitter: u32,
    values: &[u64],
) -> Reply
    ensures { OnShared (Answers tries_reply (blocks.try_emit_all emitter values.now)) flow.old.object result flow.new.object }
{
    lent!(shared = flow.shared());
    Reply::of_tries(shared.try_emit_all(emitter, values))
}

/// Begins an emission.
#[unsafe(no_mangle)]
pub extern "C" fn hillgauze_shared_start_emit(flow: &mut Handle, emitter: u32, value: u64) -> Reply
    ensures { OnShared (Answers begun_reply (calls.start_emit emitter value)) flow.old.object result flow.new.object }
{
    lent!(shared = flow.shared());
    Reply::of_start(shared.start_emit(emitter, value))
}

/// Asks about an emission with a ticket.
#[unsafe(no_mangle)]
pub extern "C" fn hillgauze_shared_poll_emit(flow: &mut Handle, ticket: u64) -> Reply
    ensures { OnShared (Answers emit_reply (calls.poll_emit ticket)) flow.old.object result flow.new.object }
{
    lent!(shared = flow.shared());
    Reply::of_poll(shared.poll_emit(Ticket(ticket)))
}

/// Takes a ticket back.
#[unsafe(no_mangle)]
pub extern "C" fn hillgauze_shared_cancel_emit(flow: &mut Handle, ticket: u64) -> Reply
    ensures { OnShared (Answers withdrawn_reply (calls.cancel_emit ticket)) flow.old.object result flow.new.object }
{
    lent!(shared = flow.shared());
    Reply::of_withdrawal(shared.cancel_emit(Ticket(ticket)))
}

/// A new subscription.
#[unsafe(no_mangle)]
pub extern "C" fn hillgauze_shared_subscribe(flow: &mut Handle) -> Reply
    ensures { OnShared (Answers subscribed_reply calls.subscribe) flow.old.object result flow.new.object }
{
    lent!(shared = flow.shared());
    Reply::of_subscription(shared.subscribe())
}

/// A new subscription, which receives these values first.
#[unsafe(no_mangle)]
pub extern "C" fn hillgauze_shared_subscribe_with(flow: &mut Handle, values: &[u64]) -> Reply
    ensures { OnShared (SubscribesWith values.now) flow.old.object result flow.new.object }
{
    lent!(shared = flow.shared());
    match Prelude::of(values) {
        Ok(prelude) => Reply::of_subscription(shared.subscribe_with(prelude)),
        Err(refusal) => Reply::of_refusal(refusal),
    }
}

/// Receives the oldest value that the subscription has pending.
#[unsafe(no_mangle)]
pub extern "C" fn hillgauze_shared_next(flow: &mut Handle, subscription: u64) -> Reply
    ensures { OnShared (Answers next_reply (calls.next_value subscription)) flow.old.object result flow.new.object }
{
    lent!(shared = flow.shared());
    Reply::of_next(shared.next(SubId(subscription)))
}

/// Receives the oldest values that the subscription has pending, as far as there is room for them.
#[unsafe(no_mangle)]
pub extern "C" fn hillgauze_shared_try_next_all(
    flow: &mut Handle,
    subscription: u64,
    values: &mut [u64],
) -> Reply
    ensures received { OnShared (Told receipts_reply (ReceivesInto subscription values.old values.new)) flow.old.object result flow.new.object }
    ensures untouched { result.refusal ≢ 0 → values.new ≡ values.old }
{
    lent!(shared = flow.shared());
    Reply::of_receipts(receive_into(shared, SubId(subscription), values))
}

/// Ends a subscription.
#[unsafe(no_mangle)]
pub extern "C" fn hillgauze_shared_cancel(flow: &mut Handle, subscription: u64) -> Reply
    ensures { OnShared (Answers ended_reply (calls.cancel subscription)) flow.old.object result flow.new.object }
{
    lent!(shared = flow.shared());
    Reply::of_end(shared.cancel(SubId(subscription)))
}

/// How many values the subscription has pending.
#[unsafe(no_mangle)]
pub extern "C" fn hillgauze_shared_pending(flow: &mut Handle, subscription: u64) -> Reply
    ensures { OnShared (CountsAs (CountsPending subscription)) flow.old.object result flow.new.object }
{
    lent!(shared = flow.shared());
    Reply::of_count(shared.pending(SubId(subscription)))
}

/// How many subscriptions are live.
#[unsafe(no_mangle)]
pub extern "C" fn hillgauze_shared_count(flow: &mut Handle) -> Reply
    ensures { OnShared (CountsAs IsLiveCount) flow.old.object result flow.new.object }
{
    lent!(shared = flow.shared());
    Reply::of_count(shared.subscription_count() as u64)
}

/// How many values the replay cache holds.
#[unsafe(no_mangle)]
pub extern "C" fn hillgauze_shared_cache_len(flow: &mut Handle) -> Reply
    ensures { OnShared (CountsAs IsCacheLength) flow.old.object result flow.new.object }
{
    lent!(shared = flow.shared());
    Reply::of_count(shared.replay_len())
}

/// A value of the replay cache.
#[unsafe(no_mangle)]
pub extern "C" fn hillgauze_shared_cache_at(flow: &mut Handle, index: u64) -> Reply
    ensures { OnShared (ReadsCache index) flow.old.object result flow.new.object }
{
    lent!(shared = flow.shared());
    if index >= shared.replay_len() {
        return Reply::of_value(None);
    }
    Reply::of_value(Some(shared.replay_at(index)))
}

/// Empties the replay cache.
#[unsafe(no_mangle)]
pub extern "C" fn hillgauze_shared_reset(flow: &mut Handle) -> Reply
    ensures { OnShared (Resets) flow.old.object result flow.new.object }
{
    lent!(shared = flow.shared());
    shared.reset_replay();
    Reply::done()
}

/// Frees the flow.
#[unsafe(no_mangle)]
pub extern "C" fn hillgauze_shared_free(alloc: Global, flow: &mut Handle) -> Reply
    ensures { IsFreed shared_of flow.old.object result flow.new.object }
{
    lent!(_own = flow.shared());
    flow.clear(alloc);
    Reply::done()
}
