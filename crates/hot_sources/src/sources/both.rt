//! What is new of either of two runs, and its latest values.

ghost use Rattle.std.specs.Prelude.{◌≡◌, None};
ghost use Rattle.cold_flow.specs.Poll.{Unless};
ghost use Rattle.hot_sources.specs.Ended.{is_over};
ghost use Rattle.hot_sources.specs.Both.{MayJoin, PolledBoth, joined};

use crate::sources::combining::LatestOfTwo;
use crate::sources::ended::Ended;
use cold_flow::{Apply, Cause, Event, Run, Sifted};
use futures::task::{Context, Poll};

/// A run of what is new of either of two runs.
#[derive(Drop)]
pub struct BothRun<L: Run, R: Run> {
    left: L,
    right: R,
    ended: Ended<L::Fault>,
}

/// At each new value of either run, `function` of the latest value of each, as a run: Kotlin's `combine(left, right) { .. }` over hot flows,
/// a state and a shared flow, or two of either. A poll asks each once. It begins once both have given a value.
///
/// What came of both in one poll gives one value. A pending poll waits for both; that a wake arrives isn't claimed. It ends as either run
/// does, once the other has nothing more, by that cause: where a [`watching`](crate::watching) was let go, it gives first what was set and
/// emitted before. `cancel` ends it, and both.
pub fn combine<C: Copy, L: Run, R: Run<Fault = L::Fault>, G: Apply<(L::Item, R::Item), Out = C>>(
    left: L,
    right: R,
    function: G,
) -> Sifted<BothRun<L, R>, LatestOfTwo<L::Item, R::Item, G>>
    ensures sides { (result.source.left ≡ left) × (result.source.right ≡ right) }
    ensures fresh { result.source.ended.cause ≡ None }
    ensures function { result.sift ≡ record { first = None; second = None; function = function } }
{
    let both = BothRun {
        left,
        right,
        ended: Ended::not_yet(),
    };
    Sifted::over_run(
        both,
        LatestOfTwo {
            first: None,
            second: None,
            function,
        },
    )
}

impl<L: Run, R: Run<Fault = L::Fault>> Run for BothRun<L, R> {
    ghost use Rattle.hot_sources.specs.Ended.{over_halts};
    ghost use Rattle.hot_sources.specs.BothLaws.{join_begins};
    ghost use Rattle.cold_flow.specs.Laws.{Unless-begins, Unless-over};

    type Item = (Option<L::Item>, Option<R::Item>);

    type Fault = L::Fault;

    ghost may = { λ r. Unless r.ended.cause (MayJoin (L.may r.left) (R.may r.right)) };

    ghost ended = { λ r. r.ended.cause };

    ghost stopped = { λ r. is_over r.ended };

    // Each was polled once, and the answer is what they gave; or nobody was asked.
    ghost polled = { λ old answer new. PolledBoth L.polled R.polled old.ended.cause old.left old.right answer new.left new.right };

    ghost cancelled = { λ old new. L.cancelled old.left new.left × R.cancelled old.right new.right };

    fn poll_next(
        &mut self,
        cx: &mut Context<'_>,
    ) -> Poll<Event<(Option<L::Item>, Option<R::Item>), L::Fault>> {
        if let Some(cause) = self.ended.cause() {
            return Poll::Ready(Event::End(cause));
        }
        let left = self.left.poll_next(cx);
        let right = self.right.poll_next(cx);
        let answer = joined(left, right);
        if let Poll::Ready(Event::End(cause)) = &answer {
            self.ended.end(*cause);
        }
        answer
    }

    fn end(&self) -> Option<Cause<L::Fault>> {
        self.ended.cause()
    }

    fn cancel(&mut self) {
        self.left.cancel();
        self.right.cancel();
        self.ended.cancel();
    }

    ghost halts = { λ r. over_halts r.ended };

    ghost begins = { λ r. Unless-begins r.ended.cause _ (join_begins (L.may r.left) (R.may r.right) (L.begins r.left) (R.begins r.right)) };

    ghost over = { λ r. Unless-over r.ended.cause _ };
}

// What polls of two runs give together.
fn joined<A: Copy, B: Copy, E: Copy>(
    left: Poll<Event<A, E>>,
    right: Poll<Event<B, E>>,
) -> Poll<Event<(Option<A>, Option<B>), E>>
    ensures { result ≡ joined left right }
{
    match (left, right) {
        (Poll::Ready(Event::Value(first)), Poll::Ready(Event::Value(second))) => {
            Poll::Ready(Event::Value((Some(first), Some(second))))
        }
        (Poll::Ready(Event::Value(first)), _) => Poll::Ready(Event::Value((Some(first), None))),
        (_, Poll::Ready(Event::Value(second))) => Poll::Ready(Event::Value((None, Some(second)))),
        (Poll::Ready(Event::End(cause)), _) => Poll::Ready(Event::End(cause)),
        (Poll::Pending, Poll::Ready(Event::End(cause))) => Poll::Ready(Event::End(cause)),
        (Poll::Pending, Poll::Pending) => Poll::Pending,
    }
}
