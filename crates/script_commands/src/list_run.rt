//! The run of a flow of values that are there already.

ghost use Rattle.std.specs.Prelude.{◌≡◌, ◌∷◌, [], ℕ, List, MatchOption, is_some, length, true};
ghost use Rattle.std.specs.Iterator.{at_most};
ghost use Rattle.flow_terms.specs.Few.{values_of};
ghost use Rattle.cold_flow.specs.Poll.{Beginnings, Unless};
ghost use Rattle.cold_flow.specs.Trace.{ended_by, cause_of};

use cold_flow::{Cause, Event, Few, Finite, Run};
use futures::task::{Context, Poll};

/// Values that are there already, in their order.
pub trait Values: Copy {
    // The values.
    ghost listed: { Self → List ℕ };

    /// The first value and those after it, if there is one.
    fn take_first(self) -> Option<(u64, Self)>
        ensures { MatchOption result (listed self ≡ []) (λ parts. listed self ≡ parts.0 ∷ listed parts.1) };
}

impl Values for Few<u64> {
    ghost listed = { values_of };

    fn take_first(self) -> Option<(u64, Few<u64>)> {
        self.split_first()
    }
}

impl<'a> Values for &'a [u64] {
    ghost listed = { λ values. values.now };

    fn take_first(self) -> Option<(u64, &'a [u64])> {
        match self {
            [first, rest @ ..] => Some((*first, rest)),
            [] => None,
        }
    }
}

/// A run that gives values which are there already, one a poll. It never answers pending.
#[derive(Drop)]
pub struct ListRun<V> {
    // The values that are still to come.
    pub(crate) left: V,
    pub(crate) fault: Option<u64>,
    pub(crate) ended: Option<Cause<u64>>,
}

impl<V: Values> Run for ListRun<V> {
    ghost use Rattle.cold_flow.specs.Laws.{Unless-begins, Unless-over, begins-any, some-stops};

    type Item = u64;

    type Fault = u64;

    ghost may = { λ r. Unless r.ended (Beginnings (ended_by (V.listed r.left) (cause_of r.fault))) };

    ghost ended = { λ r. r.ended };

    ghost stopped = { λ r. is_some r.ended };

    ghost polls = { λ r. at_most (length (V.listed r.left)) };

    ghost prompt = { λ _. true };

    fn poll_next(&mut self, _cx: &mut Context<'_>) -> Poll<Event<u64, u64>> {
        if let Some(cause) = self.ended {
            return Poll::Ready(Event::End(cause));
        }
        match self.left.take_first() {
            Some((value, rest)) => {
                self.left = rest;
                Poll::Ready(Event::Value(value))
            }
            None => {
                let cause = match self.fault {
                    Some(fault) => Cause::Failed(fault),
                    None => Cause::Finished,
                };
                self.ended = Some(cause);
                Poll::Ready(Event::End(cause))
            }
        }
    }

    fn end(&self) -> Option<Cause<u64>> {
        self.ended
    }

    fn cancel(&mut self) {
        if self.ended.is_none() {
            self.ended = Some(Cause::Cancelled);
        }
    }

    ghost halts = { λ r. some-stops r.ended };

    ghost begins = { λ r. Unless-begins r.ended _ (begins-any _) };

    ghost over = { λ r. Unless-over r.ended _ };
}

impl<V: Values> Finite for ListRun<V> {
    ghost is_finite = { λ _. tt };
}
