//! A collector of a state that sleeps until the state changes.
ghost use Rattle.std.specs.Prelude.{◌≡◌, ◌++◌, Some, IfSome, IfNone};
ghost use Rattle.state_flow.specs.Calls.{Collects, Ends};
ghost use Rattle.flow_terms.specs.Lists.{some_of};
ghost use Rattle.state_flow.specs.Collected.{collected, IsPickedFromHistory};
ghost use Rattle.state_waiting.specs.Waits.{AskedOn, Awaits, AwaitsWithin, Comes, MissedOn, value_of, value_within};

use crate::collected::{Attempt, Collected};
use crate::seat::WatchedSeat;
use flow_terms::Word;
use state_bell::{Bell, LOOKS, Limit, Stopper, pause};
use state_flow::Collector;
use std::marker::Model;
use std::sync::{Arc, Wait};
use std::time::{Clock, Duration};

/// A watcher of a state: what runs inside Kotlin's `collect`, where it suspends. What it is given, over all its asks, is a
/// subsequence of the value history without equal neighbours.
///
/// It must be spent, by [`cancel`](Watcher::cancel). Contracts see which flow it is, and its [`View`](state_flow::View).
pub struct Watcher<T: Word> {
    collector: Collector<T>,
    bell: Arc<Bell>,
    // Who lets go this watcher alone, where its seat was asked for that.
    stopper: Option<Stopper>,
}

impl<T: Word> Model for Watcher<T> {
    ghost use Rattle.state_flow.specs.Views.{SeatSeen};

    ghost Value = { SeatSeen T };

    ghost view = { λ w. w.collector };
}

impl<T: Word> Watcher<T> {
    pub(crate) fn over(
        collector: Collector<T>,
        bell: Arc<Bell>,
        stopper: Option<Stopper>,
    ) -> Watcher<T>
        ensures { result ≡ collector }
    {
        Watcher {
            collector,
            bell,
            stopper,
        }
    }

    /// The value where it differs from the last one that this watcher was given, else nothing; by one load. The first ask gives the
    /// value. Kotlin has no such call: there `collect` suspends where this answers `None`.
    pub fn try_next(&mut self) -> Option<T>
        ensures has { collected self.new ≡ collected self.old ++ some_of result }
        ensures asks { Collects self.old.view result self.new.view }
        ensures same_flow { self.new.flow ≡ self.old.flow }
    {
        self.collector.try_next()
    }

    /// The value once it differs from the last one that this watcher was given, for which the thread sleeps: one turn of Kotlin's
    /// `collect`. `Stopped` where all were let go, by [`WatchedSeat::stop`], or it alone, by a [`Stopper`], and there is nothing new:
    /// what was set before the stop is given first.
    ///
    /// A value that is there costs what [`try_next`](Watcher::try_next) costs. It takes no lock and no memory. That a wake arrives,
    /// by any time, isn't claimed.
    pub fn next(&mut self, rt: &impl Wait) -> Collected<T>
        ensures has { collected self.new ≡ collected self.old ++ value_of result }
        ensures awaits { Awaits self.old.view result self.new.view }
        ensures same_flow { self.new.flow ≡ self.old.flow }
    {
        if let Some(value) = self.look_on() {
            return Collected::Value(value);
        }
        self.bell.lie_down();
        let collected = self.wait(rt);
        self.bell.rise();
        collected
    }

    /// The same, for no longer than `limit`, and then nothing: Kotlin's `withTimeoutOrNull(limit) { .. }` around that turn. The
    /// time begins to run once the watcher has found nothing a few times; where the clock can't be read it counts as up. That it
    /// ends then isn't claimed.
    pub fn next_within<R: Wait + Clock>(&mut self, rt: &R, limit: Duration) -> Option<Collected<T>>
        ensures has { collected self.new ≡ collected self.old ++ value_within result }
        ensures awaits { AwaitsWithin self.old.view result self.new.view }
        ensures same_flow { self.new.flow ≡ self.old.flow }
    {
        if let Some(value) = self.look_on() {
            return Some(Collected::Value(value));
        }
        let limit = Limit::from_now(rt, limit);
        self.bell.lie_down();
        let collected = self.wait_within(rt, &limit);
        self.bell.rise();
        collected
    }

    // Asks a few times, until there is a value.
    fn look_on(&mut self) -> Option<T>
        ensures same_flow { self.new.flow ≡ self.old.flow }
        ensures given { IfSome result (λ x. AskedOn self.old.view (Some x) self.new.view) }
        ensures missed { IfNone result (MissedOn self.old.view self.new.view) }
    {
        for _ in 0..LOOKS {
            if let Some(value) = self.collector.try_next() {
                return Some(value);
            }
            pause();
        }
        None
    }

    // Sleeps until there is a value, or it was let go. The watcher has to be counted as a sleeper.
    fn wait(&mut self, rt: &impl Wait) -> Collected<T>
        ensures awaits { Awaits self.old.view result self.new.view }
        ensures same_flow { self.new.flow ≡ self.old.flow }
    {
        for _ in rt.forever() {
            match self.attempt() {
                Attempt::Over(collected) => return collected,
                Attempt::Asleep(turn) => self.bell.sleep(rt, turn),
            }
        }
        unreachable!()
    }

    // Sleeps so too, for no longer than the time that is left.
    fn wait_within<R: Wait + Clock>(&mut self, rt: &R, limit: &Limit) -> Option<Collected<T>>
        ensures awaits { AwaitsWithin self.old.view result self.new.view }
        ensures same_flow { self.new.flow ≡ self.old.flow }
    {
        for _ in rt.forever() {
            let left = limit.left(rt);
            match self.attempt() {
                Attempt::Over(collected) => return Some(collected),
                Attempt::Asleep(_) if left.is_zero() => return None,
                Attempt::Asleep(turn) => self.bell.sleep_for(rt, turn, left),
            }
        }
        unreachable!()
    }

    // One turn of a wait: asks, and says on which turn to sleep where there is nothing.
    fn attempt(&mut self) -> Attempt<T>
        ensures same_flow { self.new.flow ≡ self.old.flow }
        ensures came { Comes self.old.view result self.new.view }
    {
        // Both are loaded before the value: a ring after that is seen by the turn, and what was set before the stop is given first.
        let turn = self.bell.turn();
        let is_stopped = self.is_stopped();
        if let Some(value) = self.collector.try_next() {
            return Attempt::Over(Collected::Value(value));
        }
        if is_stopped {
            return Attempt::Over(Collected::Stopped);
        }
        Attempt::Asleep(turn)
    }

    /// Whether this watcher is let go: by a stop of all, or alone.
    pub fn is_stopped(&self) -> bool {
        self.bell.is_let_go() || self.is_stopped_alone()
    }

    // How many watchers of the state sleep, or are about to.
    #[cfg(test)]
    pub(crate) fn sleepers(&self) -> u64 {
        self.bell.sleepers()
    }

    // Whether a stopper of its own was used.
    fn is_stopped_alone(&self) -> bool {
        match &self.stopper {
            Some(stopper) => stopper.is_stopped(),
            None => false,
        }
    }

    /// A law, with nothing to run. Of any watcher, between any two of its calls: what it was given since it began is a subsequence of
    /// the value history that it has seen, without equal neighbours.
    pub fn collected_is_picked(&self)
        ensures { IsPickedFromHistory self.now }
    {
        self.collector.collected_is_picked();
    }

    /// Ends the watching, and gives the seat back: what Kotlin does where the coroutine that collects is cancelled. The number of
    /// watchers goes down by one. The stoppers of this one let go none that the seat makes later.
    pub fn cancel(self) -> WatchedSeat<T>
        ensures has { Ends self.view result.view }
        ensures same_flow { result.flow ≡ self.flow }
    {
        let Watcher {
            collector,
            bell,
            stopper: _,
        } = self;
        WatchedSeat::over(collector.cancel(), bell)
    }
}
