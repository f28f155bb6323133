//! `on_each`: an action at each value.

ghost use Rattle.std.specs.Prelude.{◌≡◌, IsTrue};
ghost use Rattle.futures.specs.Poll.{OnPending};
ghost use Rattle.futures.specs.declared.task.Poll.TheVariants.{Pending};
ghost use Rattle.cold_flow.specs.Poll.{MakesExactly, Within, IsWithinPolls, Unless};
ghost use Rattle.cold_flow.specs.Polled.{Rests};
ghost use Rattle.more_operators.specs.Each.{Acted};

use crate::operators::act::Act;
use cold_flow::{Cause, Event, Finite, Flow, Refusal, Run};
use futures::task::{Context, Poll};

/// The flow of `on_each`, and its run over a run of the source.
#[derive(Drop)]
pub struct Acting<S, G> {
    source: S,
    action: G,
}

/// The values of `source`, at each of which `action` acts once, before it is given: Kotlin's `onEach`.
///
/// Each run has an action of its own, as it is here. Any end of the source passes, and nothing acts at it. Cancelled, it cancels the
/// source and ends by `Cause::Cancelled`.
pub fn on_each<F: Flow, G: Act<F::Item>>(source: F, action: G) -> Acting<F, G>
    ensures gives { Within (F.may source) (⟦<Acting<F, G> as Flow>⟧.may result) }
    ensures exact { MakesExactly (λ t. t) (F.may source) (⟦<Acting<F, G> as Flow>⟧.may result) }
    ensures lasts { IsWithinPolls (F.polls source) (⟦<Acting<F, G> as Flow>⟧.polls result) }
    ensures prompt { IsTrue (F.prompt source) → IsTrue (⟦<Acting<F, G> as Flow>⟧.prompt result) }
    ensures starts { IsTrue (F.starts source) → IsTrue (⟦<Acting<F, G> as Flow>⟧.starts result) }
{
    Acting { source, action }
}

impl<F: Flow, G: Act<F::Item>> Flow for Acting<F, G> {
    type Item = F::Item;

    type Fault = F::Fault;

    type Running = Acting<F::Running, G>;

    ghost may = { λ f. F.may f.source };

    ghost polls = { λ f. F.polls f.source };

    ghost prompt = { λ f. F.prompt f.source };

    ghost starts = { λ f. F.starts f.source };

    fn start(&self) -> Result<Acting<F::Running, G>, Refusal> {
        Ok(Acting {
            source: self.source.start()?,
            action: self.action,
        })
    }

    ghost uncancelled = { λ f. F.uncancelled f.source };
}

impl<S, G: Copy> Acting<S, G> {
    /// The action, as it stands.
    pub fn action(&self) -> G
        ensures { result ≡ self.now.action }
    {
        self.action
    }
}

impl<S: Run, G: Act<S::Item>> Run for Acting<S, G> {
    ghost use Rattle.cold_flow.specs.Laws.{Unless-begins, Unless-over};

    type Item = S::Item;

    type Fault = S::Fault;

    ghost may = { λ r. Unless (S.ended r.source) (S.may r.source) };

    ghost ended = { λ r. S.ended r.source };

    ghost stopped = { λ r. S.stopped r.source };

    ghost polls = { λ r. S.polls r.source };

    ghost prompt = { λ r. S.prompt r.source };

    // It acted at the value that was given, and at nothing else.
    ghost polled = { λ old answer new. Acted G.acts old.action answer new.action
        × OnPending answer (S.polled old.source Pending new.source) × Rests (S.ended old.source) old.source new.source };

    fn poll_next(&mut self, cx: &mut Context<'_>) -> Poll<Event<S::Item, S::Fault>> {
        if let Some(cause) = self.source.end() {
            return Poll::Ready(Event::End(cause));
        }
        match self.source.poll_next(cx) {
            Poll::Ready(Event::Value(value)) => {
                self.action.act(value);
                Poll::Ready(Event::Value(value))
            }
            Poll::Ready(Event::End(cause)) => Poll::Ready(Event::End(cause)),
            Poll::Pending => Poll::Pending,
        }
    }

    fn end(&self) -> Option<Cause<S::Fault>> {
        self.source.end()
    }

    fn cancel(&mut self) {
        self.source.cancel();
    }

    ghost halts = { λ r. S.halts r.source };

    ghost begins = { λ r. Unless-begins (S.ended r.source) _ (S.begins r.source) };

    ghost over = { λ r. Unless-over (S.ended r.source) _ };
}

impl<S: Finite, G: Act<S::Item>> Finite for Acting<S, G> {
    ghost is_finite = { λ r. S.Finite.is_finite r.source };
}
