//! The collectors of two states as one run.

ghost use Rattle.std.specs.Prelude.{◌≡◌, None, refl};
ghost use Rattle.hot_sources.specs.Ended.{Lasting, is_over};
ghost use Rattle.hot_sources.specs.Combining.{AskedBoth, combined, combined_after, newest};

use crate::sources::ended::Ended;
use cold_flow::{Apply, Cause, Event, Run, Sift, Sifted};
use flow_terms::Word;
use futures::task::{Context, Poll};
use state_flow::Collector;

/// A run of what is new of either of two states. It has their collectors for as long as it is there, and never ends of itself.
#[derive(Drop)]
pub struct CollectingBothRun<'a, T: Word, U: Word> {
    first: &'a mut Collector<T>,
    second: &'a mut Collector<U>,
    ended: Ended<()>,
}

/// Makes values of the latest one of each side.
#[derive(Drop)]
pub struct LatestOfTwo<T, U, G> {
    // The last value that came of each.
    pub(crate) first: Option<T>,
    pub(crate) second: Option<U>,
    pub(crate) function: G,
}

/// At each change of either state, from now on, `function` of the latest value of each, as a run: Kotlin's
/// `combine(first, second) { .. }`. A poll asks each collector by one load. It begins once both have given a value, which a new
/// collector does at its first ask; until then it asks again where one alone has.
///
/// What changed of both between two polls gives one value. A pending poll has yielded. `cancel` ends the run alone: the collectors are as they were, and collect on.
pub fn combining<'a, T: Word, U: Word, C: Copy, G: Apply<(T, U), Out = C>>(
    first: &'a mut Collector<T>,
    second: &'a mut Collector<U>,
    function: G,
) -> Sifted<CollectingBothRun<'a, T, U>, LatestOfTwo<T, U, G>>
    ensures same_references { (result.source.first.ghost_name ≡ first.entry.ghost_name) × (result.source.second.ghost_name ≡ second.entry.ghost_name) }
    ensures collectors { (result.source.first.now ≡ first.old) × (result.source.second.now ≡ second.old) }
    ensures fresh { result.source.ended.cause ≡ None }
    ensures function { result.sift ≡ record { first = None; second = None; function = function } }
{
    let both = CollectingBothRun {
        first,
        second,
        ended: Ended::not_yet(),
    };
    Sifted::over_run(
        both,
        LatestOfTwo {
            first: None,
            second: None,
            function,
        },
    )
}

impl<'a, T: Word, U: Word> Run for CollectingBothRun<'a, T, U> {
    ghost use Rattle.hot_sources.specs.Ended.{over_halts, lasting_begins, lasting_over};

    type Item = (Option<T>, Option<U>);

    type Fault = ();

    ghost may = { λ r. Lasting r.ended };

    ghost ended = { λ r. r.ended.cause };

    ghost stopped = { λ r. is_over r.ended };

    // They are the same collectors, and the answer is what those were given.
    ghost polled = { λ old answer new. (new.first.ghost_name ≡ old.first.ghost_name) × (new.second.ghost_name ≡ old.second.ghost_name)
        × AskedBoth old.first.now old.second.now answer new.first.now new.second.now };

    ghost cancelled = { λ old new. (new.first ≡ old.first) × (new.second ≡ old.second) };

    fn poll_next(&mut self, cx: &mut Context<'_>) -> Poll<Event<(Option<T>, Option<U>), ()>> {
        if let Some(cause) = self.ended.cause() {
            return Poll::Ready(Event::End(cause));
        }
        let first = self.first.try_next();
        let second = self.second.try_next();
        if first.is_none() && second.is_none() {
            return cx.yield_now();
        }
        Poll::Ready(Event::Value((first, second)))
    }

    fn end(&self) -> Option<Cause<()>> {
        self.ended.cause()
    }

    fn cancel(&mut self) {
        self.ended.cancel();
    }

    ghost halts = { λ r. over_halts r.ended };

    ghost begins = { λ r. lasting_begins _ r.ended };

    ghost over = { λ r. lasting_over r.ended };
}

// The value that came, where one did, else the one before.
fn newest<T: Copy>(came: Option<T>, before: Option<T>) -> Option<T>
    ensures { result ≡ newest came before }
{
    match came {
        Some(value) => Some(value),
        None => before,
    }
}

impl<T: Copy, U: Copy, C: Copy, G: Apply<(T, U), Out = C>> Sift<(Option<T>, Option<U>)>
    for LatestOfTwo<T, U, G> {
    type Out = C;

    ghost passes = { λ s. combined_after (G.gives s.function) s.first s.second };

    ghost keeps = { λ s new. combined (G.gives s.function) (newest new.0 s.first) (newest new.1 s.second) };

    ghost after = { λ s new. record { first = newest new.0 s.first; second = newest new.1 s.second; function = s.function } };

    fn sift(&mut self, value: (Option<T>, Option<U>)) -> Option<C> {
        self.first = newest(value.0, self.first);
        self.second = newest(value.1, self.second);
        match (self.first, self.second) {
            (Some(first), Some(second)) => Some(self.function.apply((first, second))),
            _ => None,
        }
    }

    ghost none = { λ _. refl };

    ghost step = { λ _ _ _. refl };
}
