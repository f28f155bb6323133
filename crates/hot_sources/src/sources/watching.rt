//! A collector of a state that wakes a task, as a run.

ghost use Rattle.std.specs.Prelude.{◌≡◌, None};
ghost use Rattle.cold_flow.specs.Poll.{Unless};
ghost use Rattle.hot_sources.specs.Ended.{is_over};
ghost use Rattle.hot_sources.specs.Watching.{UntilLetGo, Watched};

use crate::sources::ended::Ended;
use cold_flow::{Cause, Event, Run};
use flow_terms::Word;
use futures::task::{Context, Poll};
use state_flow::Collector;
use waking_states::TaskBell;

/// A run that collects a state, whose task sleeps by a bell. It has a collector for as long as it is there, and ends where the bell
/// lets it go.
#[derive(Drop)]
pub struct WatchingRun<'a, T: Word, E> {
    collector: &'a mut Collector<T>,
    bell: &'a TaskBell,
    ended: Ended<E>,
}

/// What `collector` is given from now on, as a run whose task sleeps until the state changes: Kotlin's `StateFlow` in a chain. Each poll is
/// one ask, by one load, and a lock for some steps.
///
/// It ends by [`TaskBell::let_go`], as cancelled, once nothing is new: what was set before that is given first. `cancel` ends it too. Either
/// ends the run alone: the collector is as it was, and collects on. Whoever sets the state has to ring this bell; that a wake arrives
/// isn't claimed.
pub fn watching<'a, E: Copy, T: Word>(
    collector: &'a mut Collector<T>,
    bell: &'a TaskBell,
) -> WatchingRun<'a, T, E>
    ensures same_reference { result.collector.ghost_name ≡ collector.entry.ghost_name }
    ensures collector { result.collector.now ≡ collector.old }
    ensures fresh { result.ended.cause ≡ None }
{
    WatchingRun {
        collector,
        bell,
        ended: Ended::not_yet(),
    }
}

impl<'a, T: Word, E: Copy> Run for WatchingRun<'a, T, E> {
    ghost use Rattle.hot_sources.specs.Ended.{over_halts};
    ghost use Rattle.hot_sources.specs.Watching.{UntilLetGo, watching_begins};
    ghost use Rattle.cold_flow.specs.Laws.{Unless-over};

    type Item = T;

    type Fault = E;

    ghost may = { λ r. Unless r.ended.cause UntilLetGo };

    ghost ended = { λ r. r.ended.cause };

    ghost stopped = { λ r. is_over r.ended };

    // It is the same collector, and the answer is what that was given.
    ghost polled = { λ old answer new. (new.collector.ghost_name ≡ old.collector.ghost_name)
        × Watched old.collector.now answer new.collector.now };

    ghost cancelled = { λ old new. new.collector ≡ old.collector };

    fn poll_next(&mut self, cx: &mut Context<'_>) -> Poll<Event<T, E>> {
        if let Some(cause) = self.ended.cause() {
            return Poll::Ready(Event::End(cause));
        }
        // The waker comes before the ask, so that a set in between rings it; and the stop is loaded before the ask, so that what was set
        // before it is given first.
        let _asleep: Poll<()> = self.bell.sleep(cx);
        let is_let_go = self.bell.is_let_go();
        if let Some(value) = self.collector.try_next() {
            return Poll::Ready(Event::Value(value));
        }
        if is_let_go {
            self.ended.cancel();
            return Poll::Ready(Event::End(Cause::Cancelled));
        }
        Poll::Pending
    }

    fn end(&self) -> Option<Cause<E>> {
        self.ended.cause()
    }

    fn cancel(&mut self) {
        self.ended.cancel();
    }

    ghost halts = { λ r. over_halts r.ended };

    ghost begins = { λ r. watching_begins _ r.ended };

    ghost over = { λ r. Unless-over r.ended.cause UntilLetGo };
}
