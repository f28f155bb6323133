//! A collector of a state flow as a run.

ghost use Rattle.std.specs.Prelude.{◌≡◌, None};
ghost use Rattle.hot_sources.specs.Ended.{Lasting, is_over};
ghost use Rattle.hot_sources.specs.Collecting.{Asked};

use crate::sources::ended::Ended;
use cold_flow::{Cause, Event, Run};
use flow_terms::Word;
use futures::ready;
use futures::task::{Context, Poll};
use state_flow::Collector;
use std::alloc::{Allocator, Global};

/// A run that collects a state. It has a collector for as long as it is there, and never ends of itself.
#[derive(Drop)]
pub struct CollectingRun<'a, T: Word, E, A: Allocator = Global> {
    collector: &'a mut Collector<T, A>,
    ended: Ended<E>,
}

/// What `collector` is given from now on, as a run: Kotlin's `StateFlow` in a chain. Each poll is one ask, by one load.
///
/// A pending poll has yielded: no state wakes a task, so a thread that sleeps for such a run polls again at once. `cancel` ends the
/// run alone: the collector is as it was, and collects on.
pub fn collecting<'a, E: Copy, T: Word, A: Allocator>(
    collector: &'a mut Collector<T, A>,
) -> CollectingRun<'a, T, E, A>
    ensures same_reference { result.collector.ghost_name ≡ collector.entry.ghost_name }
    ensures collector { result.collector.now ≡ collector.old }
    ensures fresh { result.ended.cause ≡ None }
{
    CollectingRun {
        collector,
        ended: Ended::not_yet(),
    }
}

impl<'a, T: Word, E: Copy, A: Allocator> Run for CollectingRun<'a, T, E, A> {
    ghost use Rattle.hot_sources.specs.Ended.{over_halts, lasting_begins, lasting_over};

    type Item = T;

    type Fault = E;

    ghost may = { λ r. Lasting r.ended };

    ghost ended = { λ r. r.ended.cause };

    ghost stopped = { λ r. is_over r.ended };

    // It is the same collector, and the answer is what that was given.
    ghost polled = { λ old answer new. (new.collector.ghost_name ≡ old.collector.ghost_name)
        × Asked old.collector.now answer new.collector.now };

    ghost cancelled = { λ old new. new.collector ≡ old.collector };

    fn poll_next(&mut self, cx: &mut Context<'_>) -> Poll<Event<T, E>> {
        if let Some(cause) = self.ended.cause() {
            return Poll::Ready(Event::End(cause));
        }
        let value = ready!(self.collector.poll_next(cx));
        Poll::Ready(Event::Value(value))
    }

    fn end(&self) -> Option<Cause<E>> {
        self.ended.cause()
    }

    fn cancel(&mut self) {
        self.ended.cancel();
    }

    ghost halts = { λ r. over_halts r.ended };

    ghost begins = { λ r. lasting_begins _ r.ended };

    ghost over = { λ r. lasting_over r.ended };
}
