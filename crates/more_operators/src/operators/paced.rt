//! Values that are held until they are due: what `debounce` and `sample` have in common.

ghost use Rattle.std.specs.Prelude.{◌≡◌, ℕ, Bool, None, IsTrue, IfOk, IfErr};
ghost use Rattle.futures.specs.Poll.{OnPending};
ghost use Rattle.futures.specs.Task.{IsArmed, Keeps};
ghost use Rattle.flow_terms.specs.declared.refusal.Refusal.TheVariants.{NoMemory};
ghost use Rattle.cold_flow.specs.Poll.{Fixes, Unless};
ghost use Rattle.more_operators.specs.Paced.{Paces, due_at, last_event, paced};

use cold_flow::{Cause, Event, Refusal, Run};
use futures::task::{Context, Poll};
use std::alloc::Global;

/// When a value is given that a source gave before.
pub trait Pace: Copy {
    // Whether a value that came at the first moment, and is held since, is due at the second.
    ghost due: { Self → ℕ → ℕ → Bool };

    // Whether a value that is held is given where the source finishes.
    ghost gives_last: { Self → Bool };

    /// Whether a value that is held since that moment is due at this one.
    fn is_due(&self, since: u64, moment: u64) -> bool
        ensures { result ≡ due self.now since moment };

    /// Whether a value that is held is given where the source finishes.
    fn keeps_last(&self) -> bool
        ensures { result ≡ gives_last self.now };
}

/// The last value of a source, which another may still follow, and the moment at which it came.
#[derive(Clone, Copy)]
pub struct Timestamped<T> {
    value: T,
    since: u64,
}

/// The run of `debounce` and of `sample`. It is no `Run`, since a poll is handed the moment.
#[derive(Drop)]
pub struct Paced<S, P, T> {
    source: S,
    pace: P,
    held: Option<Timestamped<T>>,
}

impl<T: Copy, P: Pace, S: Run<Item = T>> Paced<S, P, T> {
    ghost use Rattle.std.specs.Prelude.{Some};
    ghost use Rattle.cold_flow.specs.Poll.{after_cancel};

    /// The values of `source`, each once `pace` says that it is due, unless another came before.
    pub fn new(source: S, pace: P) -> Paced<S, P, T>
        ensures { (result.source ≡ source) × (result.pace ≡ pace) × (result.held ≡ None) }
    {
        Paced {
            source,
            pace,
            held: None,
        }
    }

    // The value that is held, once it is due.
    fn due(&self, moment: u64) -> Option<T>
        ensures { result ≡ due_at (P.due self.now.pace) moment self.now.held }
    {
        let held = self.held?;
        if self.pace.is_due(held.since, moment) {
            return Some(held.value);
        }
        None
    }

    // What an end of the source lets out: the value that is held, where it is given then, and else the end. Nothing is held then.
    fn last_event(&mut self, cause: Cause<S::Fault>) -> Event<T, S::Fault>
        ensures event { result ≡ last_event (P.gives_last self.old.pace) self.old.held cause }
        ensures rest { self.new ≡ record self.old { held = None } }
    {
        let held = self.held.take();
        if !self.pace.keeps_last() {
            return Event::End(cause);
        }
        match (held, cause) {
            (Some(held), Cause::Finished) => Event::Value(held.value),
            _ => Event::End(cause),
        }
    }

    /// The next value, or the end, at this moment in milliseconds. Nobody is woken at a moment, so poll again then.
    ///
    /// A value that is due is given, and the source isn't asked. Else its next value is held, in place of the one before. After the
    /// end every poll gives that end again.
    pub fn poll_next(&mut self, moment: u64, cx: &mut Context<'_>) -> Poll<Event<T, S::Fault>>
        ensures paces { Paces S.may S.ended S.prompt S.polled (P.gives_last self.old.pace) moment
            (due_at (P.due self.old.pace) moment self.old.held) (S.ended self.old.source)
            self.old.held self.old.source result self.new.held self.new.source }
        ensures same { self.new.pace ≡ self.old.pace }
        ensures armed { OnPending result (IsArmed cx.new) }
        ensures kept { Keeps cx.old cx.new }
    {
        if let Some(value) = self.due(moment) {
            self.held = None;
            return Poll::Ready(Event::Value(value));
        }
        if let Some(cause) = self.source.end() {
            return Poll::Ready(self.last_event(cause));
        }
        match self.source.poll_next(cx) {
            Poll::Ready(Event::Value(value)) => {
                self.held = Some(Timestamped {
                    value,
                    since: moment,
                });
                cx.yield_now()
            }
            Poll::Ready(Event::End(cause)) => Poll::Ready(self.last_event(cause)),
            Poll::Pending => Poll::Pending,
        }
    }

    /// Cancels the source, and gives up the value that is held. After an end it changes nothing.
    pub fn cancel(&mut self)
        ensures ends { S.ended self.new.source ≡ Some (after_cancel (S.ended self.old.source)) }
        ensures stops { IsTrue (S.stopped self.new.source) }
        ensures gives_up { self.new.held ≡ None }
    {
        self.source.cancel();
        self.held = None;
    }
}

/// What `run` gives, each with its moment: it is polled once at each of `moments`, and then cancelled.
///
/// Where memory lacks it is cancelled at once, and `Refusal::NoMemory` is answered.
pub fn list_at<T: Copy, P: Pace, S: Run<Item = T>>(
    alloc: Global,
    mut run: Paced<S, P, T>,
    moments: &[u64],
    cx: &mut Context<'_>,
) -> Result<Vec<(u64, Event<T, S::Fault>)>, Refusal>
    ensures exact { (whole : _) → Fixes whole (Unless (S.ended run.source) (S.may run.source)) → IsTrue (S.prompt run.source)
        → IfOk result (λ given. given.items ≡ paced (P.due run.pace) (P.gives_last run.pace) run.held whole moments.now) }
    ensures refused { IfErr result (λ e. e ≡ NoMemory) }
{
    let mut given = Vec::new(alloc);
    for moment in moments {
        match run.poll_next(*moment, cx) {
            Poll::Ready(event) => {
                if given.push((*moment, event)).is_err() {
                    run.cancel();
                    return Err(Refusal::NoMemory);
                }
            }
            Poll::Pending => {}
        }
    }
    run.cancel();
    Ok(given)
}
