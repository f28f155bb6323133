//! What `on_start`, `on_empty` and `transform_while` have in common: up to four values for each value of the source, and an
//! end that may come before its.

ghost use Rattle.std.specs.Prelude.{◌≡◌, ℕ, ◌⊎◌, ◌&&◌, ◌||◌, Bool, false, IsTrue, IsSome, IfSome, IfNone};
ghost use Rattle.futures.specs.Poll.{OnPending};
ghost use Rattle.futures.specs.Task.{IsArmed, Keeps};
ghost use Rattle.futures.specs.declared.task.Poll.TheVariants.{Pending};
ghost use Rattle.flow_terms.specs.declared.few.Few.{Few};
ghost use Rattle.flow_terms.specs.declared.few.Few.TheVariants.{Zero};
ghost use Rattle.flow_terms.specs.Few.{values_of, split};
ghost use Rattle.cold_flow.specs.declared.operators.closing.Closing.TheVariants.{Open};
ghost use Rattle.cold_flow.specs.Closing.{given_cause, is_open, is_prompt, answer};
ghost use Rattle.cold_flow.specs.Poll.{Through, Within, Makes, MakesExactly, IsWithinPolls};
ghost use Rattle.cold_flow.specs.Polled.{HasWaited, IsNearer, Rests};
ghost use Rattle.more_operators.specs.Held.{Holds, held_polls};
ghost use Rattle.more_operators.specs.Relayed.{given_by, relayed_trace, held_at_end, closing_at_end, GivesSoon};
ghost use Rattle.more_operators.specs.declared.operators.onward.Onward.{Onward};
ghost use Rattle.more_operators.specs.Retry.{behind};

use crate::operators::holding::Holding;
use crate::operators::onward::Onward;
use cold_flow::{BUDGET, Cause, Closing, Event, Few, Finite, Flow, Refusal, Run};
use futures::task::{Context, Poll};

/// What an operator gives for each value of its source.
pub trait Relay<T>: Copy {
    /// What it gives.
    type Out: Copy;

    // What it gives for the next value, after which it may finish.
    ghost takes: { Self → T → Onward Self.Out };

    // How it stands after the next value.
    ghost after: { Self → T → Self };

    // What it gives where the source has finished, before that end.
    ghost closes: { Self → Few Self.Out };

    // One poll of a source that never answers pending gives something.
    ghost steady: { Self → Bool } = { λ _. false };

    // At most so many values in a row give nothing from here on.
    ghost silent: { Self → ℕ } = { λ _. 0 };

    /// What is given for the next value of the source.
    fn take(&mut self, value: T) -> Onward<Self::Out>
        ensures takes { result ≡ takes self.old value }
        ensures after { self.new ≡ after self.old value };

    /// What is given where the source has finished.
    fn close(&self) -> Few<Self::Out>
        ensures { result ≡ closes self.now };

    ghost gives_soon: { (s : Self) (x : T) → IsTrue (steady s)
        → GivesSoon (silent s) (given_by (takes s x)) (silent (after s x)) × IsTrue (steady (after s x)) };
}

/// The flow of an operator that gives up to four values before its source, for each value of it, and where it has finished.
#[derive(Drop)]
pub struct Relayed<F, M, U> {
    source: F,
    relay: M,
    // What it gives before it asks the source.
    first: Few<U>,
}

impl<U: Copy, F: Flow, M: Relay<F::Item, Out = U>> Relayed<F, M, U> {
    /// The values of `first`, and then what `relay` gives for each value of `source` and where it has finished.
    pub fn new(source: F, relay: M, first: Few<U>) -> Relayed<F, M, U>
        ensures gives { Makes (λ t. behind (values_of first) (relayed_trace M.takes M.after M.closes relay t)) (F.may source)
            (⟦<Relayed<F, M, U> as Flow>⟧.may result) }
        ensures exact { MakesExactly (λ t. behind (values_of first) (relayed_trace M.takes M.after M.closes relay t)) (F.may source)
            (⟦<Relayed<F, M, U> as Flow>⟧.may result) }
        ensures lasts { IsWithinPolls (held_polls {B = U} {E = F.Fault} Open first (F.polls source)) (⟦<Relayed<F, M, U> as Flow>⟧.polls result) }
        ensures prompt { IsTrue (M.steady relay && F.prompt source) → IsTrue (⟦<Relayed<F, M, U> as Flow>⟧.prompt result) }
        ensures starts { IsTrue (F.starts source) → IsTrue (⟦<Relayed<F, M, U> as Flow>⟧.starts result) }
    {
        Relayed {
            source,
            relay,
            first,
        }
    }
}

impl<U: Copy, F: Flow, M: Relay<F::Item, Out = U>> Flow for Relayed<F, M, U> {
    ghost use Rattle.cold_flow.specs.Laws.{Through-uncancelled};
    ghost use Rattle.more_operators.specs.RelayedLaws.{relayed-cause};

    type Item = U;

    type Fault = F::Fault;

    type Running = RelayedRun<F::Running, M, U, F::Fault>;

    ghost may = { λ f. Through (λ t. behind (values_of f.first) (relayed_trace M.takes M.after M.closes f.relay t)) (F.may f.source) };

    ghost polls = { λ f. held_polls {B = U} {E = F.Fault} Open f.first (F.polls f.source) };

    ghost prompt = { λ f. M.steady f.relay && F.prompt f.source };

    ghost starts = { λ f. F.starts f.source };

    fn start(&self) -> Result<RelayedRun<F::Running, M, U, F::Fault>, Refusal> {
        Ok(RelayedRun {
            source: self.source.start()?,
            relay: self.relay,
            holding: Holding {
                held: self.first,
                closing: Closing::Open,
            },
        })
    }

    ghost uncancelled = { λ f. Through-uncancelled _ _ (relayed-cause M.takes M.after M.closes f.relay (values_of f.first)) (F.uncancelled f.source) };
}

/// The run of an operator that gives up to four values for each value of its source.
#[derive(Drop)]
pub struct RelayedRun<S: Run, M, U, E> {
    source: S,
    relay: M,
    holding: Holding<U, E>,
    ghost stopped: { IsTrue (is_open holding.closing || S.stopped source) },
}

// What `relay` makes of the next value of `source` or of its end, to be given next. `None` where the source answers pending.
fn ask<U: Copy, S: Run, M: Relay<S::Item, Out = U>>(
    source: &mut S,
    relay: &mut M,
    cx: &mut Context<'_>,
) -> Option<Holding<U, S::Fault>>
    ensures narrows { IfSome result (λ h. Within (Through (relayed_trace M.takes M.after M.closes relay.old) (S.may source.old))
        (Holds (relayed_trace M.takes M.after M.closes relay.new) h.closing h.held (S.may source.new))) }
    ensures waits { IfNone result (Within (Through (relayed_trace M.takes M.after M.closes relay.old) (S.may source.old))
        (Through (relayed_trace M.takes M.after M.closes relay.new) (S.may source.new))) }
    ensures within { IfSome result (λ h. IsWithinPolls (held_polls {B = U} {E = S.Fault} Open Zero (S.polls source.old))
        (held_polls h.closing h.held (S.polls source.new))) }
    ensures nearer { IfSome result (λ h. h.closing ≡ Open → IsNearer 1 (S.polls source.old) (S.polls source.new)) }
    ensures later { IfNone result (IsNearer 1 (S.polls source.old) (S.polls source.new)) }
    ensures prompt { IsTrue (M.steady relay.old && S.prompt source.old) → IsSome result
        × IfSome result (λ h. h.closing ≡ Open
        → GivesSoon (M.silent relay.old) h.held (M.silent relay.new) × IsTrue (M.steady relay.new && S.prompt source.new)) }
    ensures stops { IfSome result (λ h. IsTrue (is_open h.closing || S.stopped source.new)) }
    ensures polled { IfNone result (S.polled source.old Pending source.new) }
    ensures armed { IfNone result (IsArmed cx.new) }
    ensures kept { Keeps cx.old cx.new }
{
    match source.poll_next(cx) {
        Poll::Ready(Event::Value(value)) => match relay.take(value) {
            Onward::More(held) => Some(Holding {
                held,
                closing: Closing::Open,
            }),
            Onward::Stop(held) => {
                source.cancel();
                Some(Holding {
                    held,
                    closing: Closing::Last,
                })
            }
        },
        Poll::Ready(Event::End(cause)) => Some(ended(relay, cause)),
        Poll::Pending => None,
    }
}

// What is given where the source has ended so.
fn ended<T: Copy, E: Copy, M: Relay<T>>(relay: &M, cause: Cause<E>) -> Holding<M::Out, E>
    ensures { (result.held ≡ held_at_end (M.closes relay.now) cause) × (result.closing ≡ closing_at_end cause) }
{
    match cause {
        Cause::Finished => Holding {
            held: relay.close(),
            closing: Closing::Last,
        },
        Cause::Failed(fault) => Holding {
            held: Few::Zero,
            closing: Closing::Over(Cause::Failed(fault)),
        },
        Cause::Cancelled => Holding {
            held: Few::Zero,
            closing: Closing::Over(Cause::Cancelled),
        },
        Cause::Refused(refusal) => Holding {
            held: Few::Zero,
            closing: Closing::Over(Cause::Refused(refusal)),
        },
    }
}

impl<U: Copy, E: Copy, S: Run<Fault = E>, M: Relay<S::Item, Out = U>> Run
    for RelayedRun<S, M, U, E> {
    ghost use Rattle.cold_flow.specs.ClosingLaws.{given-stops};
    ghost use Rattle.more_operators.specs.HeldLaws.{Holds-begins, Holds-over};

    type Item = U;

    type Fault = E;

    ghost may = { λ r. Holds (relayed_trace M.takes M.after M.closes r.relay) r.holding.closing r.holding.held (S.may r.source) };

    ghost ended = { λ r. given_cause r.holding.closing };

    ghost stopped = { λ r. S.stopped r.source };

    ghost polls = { λ r. held_polls r.holding.closing r.holding.held (S.polls r.source) };

    ghost prompt = { λ r. is_prompt r.holding.closing (M.steady r.relay && S.prompt r.source) };

    // Pending only where the source answered so, or 64 of its values gave nothing. What is held is given without a question to it.
    ghost polled = { λ old reply new. OnPending reply (HasWaited S.polled new.source
        ⊎ IsNearer 64 (S.polls old.source) (S.polls new.source)) × Rests (answer old.holding.closing) old.source new.source
        × (IsSome (split old.holding.held) → new.source ≡ old.source) };

    fn poll_next(&mut self, cx: &mut Context<'_>) -> Poll<Event<U, E>> {
        if let Some(event) = self.holding.settle() {
            return Poll::Ready(event);
        }
        for _asked in 0..BUDGET {
            match ask(&mut self.source, &mut self.relay, cx) {
                Some(holding) => self.holding = holding,
                None => return Poll::Pending,
            }
            if let Some(event) = self.holding.settle() {
                return Poll::Ready(event);
            }
        }
        cx.yield_now()
    }

    fn end(&self) -> Option<Cause<E>> {
        self.holding.closing.given()
    }

    fn cancel(&mut self) {
        self.source.cancel();
        self.holding.cancel();
    }

    ghost halts = { λ r. given-stops r.holding.closing (S.stopped r.source) r.stopped };

    ghost begins = { λ r. Holds-begins _ _ r.holding.closing r.holding.held (S.begins r.source) };

    ghost over = { λ r. Holds-over _ _ r.holding.closing r.holding.held };
}

impl<U: Copy, E: Copy, S: Finite<Fault = E>, M: Relay<S::Item, Out = U>> Finite
    for RelayedRun<S, M, U, E> {
    ghost use Rattle.more_operators.specs.HeldLaws.{finite_held};

    ghost is_finite = { λ r. finite_held r.holding.closing r.holding.held (S.polls r.source) (S.Finite.is_finite r.source) };
}
