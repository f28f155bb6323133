//! Pairs of the values of two flows.

ghost use Rattle.std.specs.Prelude.{◌≡◌, Option, None, IsSome, IsTrue, is_some, MatchOption, ◌&&◌, ◌||◌};
ghost use Rattle.std.specs.Iterator.{count_add};
ghost use Rattle.futures.specs.Poll.{OnPending};
ghost use Rattle.futures.specs.declared.task.Poll.TheVariants.{Pending};
ghost use Rattle.cold_flow.specs.Poll.{Unless, Within, IsWithinPolls};
ghost use Rattle.cold_flow.specs.Polled.{Rests};
ghost use Rattle.flow_merge.specs.Zip.{MayZip, ZipsExactly};

use cold_flow::{Apply, Cause, Event, Finite, Flow, Refusal, Run};
use futures::task::{Context, Poll};

/// The flow of `zip`.
#[derive(Drop)]
pub struct Zipped<A, B, G> {
    left: A,
    right: B,
    function: G,
}

/// Kotlin's `zip`: `function` of the first values of both flows, then of the second ones, and so on.
///
/// It ends by the end of the side that is asked: the left is asked first, and the right once a value of the left is held. So where the
/// right ends, the left may have given one value more, which is lost. The other side is cancelled then. (Kotlin's `zip` ends as soon as
/// either side does.) No call is refused; a start is refused where that of a side is, and then no side is left started.
pub fn zip<C: Copy, A: Flow, B: Flow<Fault = A::Fault>, G: Apply<(A::Item, B::Item), Out = C>>(
    left: A,
    right: B,
    function: G,
) -> Zipped<A, B, G>
    ensures gives { Within (MayZip (G.gives function) None (A.may left) (B.may right)) (⟦<Zipped<A, B, G> as Flow>⟧.may result) }
    ensures exact { ZipsExactly (G.gives function) (A.may left) (B.may right) (⟦<Zipped<A, B, G> as Flow>⟧.may result) }
    ensures lasts { IsWithinPolls (count_add (A.polls left) (B.polls right)) (⟦<Zipped<A, B, G> as Flow>⟧.polls result) }
    ensures prompt { IsTrue (A.prompt left && B.prompt right) → IsTrue (⟦<Zipped<A, B, G> as Flow>⟧.prompt result) }
    ensures starts { IsTrue (A.starts left && B.starts right) → IsTrue (⟦<Zipped<A, B, G> as Flow>⟧.starts result) }
{
    Zipped {
        left,
        right,
        function,
    }
}

/// A run of `zip`.
#[derive(Drop)]
pub struct ZippedRun<A: Run, B: Run, G> {
    left: A,
    right: B,
    function: G,
    // A value of the left that waits for one of the right.
    held: Option<A::Item>,
    ended: Option<Cause<A::Fault>>,
    ghost stopped: { IsSome ended → IsTrue (A.stopped left && B.stopped right) },
}

impl<C: Copy, A: Flow, B: Flow<Fault = A::Fault>, G: Apply<(A::Item, B::Item), Out = C>> Flow
    for Zipped<A, B, G> {
    ghost use Rattle.flow_merge.specs.ZipLaws.{zip_uncancelled};

    type Item = C;

    type Fault = A::Fault;

    type Running = ZippedRun<A::Running, B::Running, G>;

    ghost may = { λ f. MayZip (G.gives f.function) None (A.may f.left) (B.may f.right) };

    ghost polls = { λ f. count_add (A.polls f.left) (B.polls f.right) };

    ghost prompt = { λ f. A.prompt f.left && B.prompt f.right };

    ghost starts = { λ f. A.starts f.left && B.starts f.right };

    #[tactic(auto, using(crate::specs::ZipLaws::zip_left_waits, crate::specs::ZipLaws::zip_right_waits))]
    fn start(&self) -> Result<ZippedRun<A::Running, B::Running, G>, Refusal> {
        let mut left = self.left.start()?;
        match self.right.start() {
            Ok(right) => Ok(ZippedRun {
                left,
                right,
                function: self.function,
                held: None,
                ended: None,
            }),
            Err(refusal) => {
                left.cancel();
                Err(refusal)
            }
        }
    }

    ghost uncancelled = { λ f. zip_uncancelled _ _ _ (A.uncancelled f.left) (B.uncancelled f.right) };
}

impl<C: Copy, A: Run, B: Run<Fault = A::Fault>, G: Apply<(A::Item, B::Item), Out = C>> Run
    for ZippedRun<A, B, G> {
    ghost use Rattle.cold_flow.specs.Laws.{Unless-begins, Unless-over};
    ghost use Rattle.flow_merge.specs.ZipLaws.{zip_begins};

    type Item = C;

    type Fault = A::Fault;

    ghost may = { λ r. Unless r.ended (MayZip (G.gives r.function) r.held (A.may r.left) (B.may r.right)) };

    ghost ended = { λ r. r.ended };

    ghost stopped = { λ r. A.stopped r.left && B.stopped r.right };

    ghost prompt = { λ r. is_some r.ended || (A.prompt r.left && B.prompt r.right) };

    ghost polls = { λ r. count_add (A.polls r.left) (B.polls r.right) };

    // Pending only where the side that is to be asked answered so: the left while no value of it is held, then the right.
    ghost polled = { λ old answer new. OnPending answer (MatchOption new.held
        (A.polled old.left Pending new.left) (λ _. B.polled old.right Pending new.right))
        × Rests old.ended old.left new.left × Rests old.ended old.right new.right };

    fn poll_next(&mut self, cx: &mut Context<'_>) -> Poll<Event<C, A::Fault>> {
        if let Some(cause) = self.ended {
            return Poll::Ready(Event::End(cause));
        }
        let left = match self.held {
            Some(value) => value,
            None => match self.left.poll_next(cx) {
                Poll::Ready(Event::Value(value)) => {
                    self.held = Some(value);
                    value
                }
                Poll::Ready(Event::End(cause)) => {
                    self.right.cancel();
                    self.ended = Some(cause);
                    return Poll::Ready(Event::End(cause));
                }
                Poll::Pending => return Poll::Pending,
            },
        };
        match self.right.poll_next(cx) {
            Poll::Ready(Event::Value(right)) => {
                self.held = None;
                Poll::Ready(Event::Value(self.function.apply((left, right))))
            }
            Poll::Ready(Event::End(cause)) => {
                self.left.cancel();
                self.ended = Some(cause);
                Poll::Ready(Event::End(cause))
            }
            Poll::Pending => Poll::Pending,
        }
    }

    fn end(&self) -> Option<Cause<A::Fault>> {
        self.ended
    }

    fn cancel(&mut self) {
        self.left.cancel();
        self.right.cancel();
        if self.ended.is_none() {
            self.held = None;
            self.ended = Some(Cause::Cancelled);
        }
    }

    ghost halts = { λ r. r.stopped };

    ghost begins = { λ r. Unless-begins r.ended _ (zip_begins (G.gives r.function) r.held _ _ (A.begins r.left) (B.begins r.right)) };

    ghost over = { λ r. Unless-over r.ended _ };
}

impl<C: Copy, A: Finite, B: Finite<Fault = A::Fault>, G: Apply<(A::Item, B::Item), Out = C>> Finite
    for ZippedRun<A, B, G> {
    ghost use Rattle.flow_merge.specs.Counting.{both-finite};

    ghost is_finite = { λ r. both-finite (A.polls r.left) (B.polls r.right) (A.Finite.is_finite r.left) (B.Finite.is_finite r.right) };
}
