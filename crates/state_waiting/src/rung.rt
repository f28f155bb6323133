//! A seat at a state that rings a bell.
ghost use Rattle.std.specs.Prelude.{◌≡◌};
ghost use Rattle.state_flow.specs.Calls.{Reads, Sets, Compares};

use flow_terms::Word;
use state_bell::{Bell, Ring};
use state_flow::StateSeat;
use std::marker::Model;
use std::sync::Arc;

/// A seat at a state, which wakes those that sleep by its bell: threads by a [`Bell`]. Contracts see it as the seat.
pub struct RungSeat<T: Word, B: Ring + Drop = Bell> {
    pub(crate) seat: StateSeat<T>,
    pub(crate) bell: Arc<B>,
}

impl<T: Word, B: Ring + Drop> Model for RungSeat<T, B> {
    ghost use Rattle.state_flow.specs.Views.{SeatSeen};

    ghost Value = { SeatSeen T };

    ghost view = { λ s. s.seat };
}

// By hand: who lets one go proves this call alone, and nothing of what it is made of.
impl<T: Word, B: Ring + Drop> Drop for RungSeat<T, B> {
    fn drop(self) {
        let RungSeat { seat, bell } = self;
        drop(seat);
        drop(bell);
    }
}

impl<T: Word, B: Ring + Drop> RungSeat<T, B> {
    /// The seat, with the bell that it rings from now on.
    pub fn over(seat: StateSeat<T>, bell: Arc<B>) -> RungSeat<T, B>
        ensures { result ≡ seat }
    {
        RungSeat { seat, bell }
    }

    /// The value, by one load: Kotlin's `value`.
    pub fn value(&mut self) -> T
        ensures has { Reads self.old.view result self.new.view }
        ensures same_flow { self.new.flow ≡ self.old.flow }
    {
        self.seat.value()
    }

    /// Sets the value, by one swap, and rings: Kotlin's `value = ..`. That a wake arrives isn't claimed.
    pub fn set(&mut self, value: T)
        ensures has { Sets self.old.view value self.new.view }
        ensures same_flow { self.new.flow ≡ self.old.flow }
    {
        self.seat.set(value);
        self.bell.ring();
    }

    /// Sets the value to `update` where it is equal to `expect`, by one compare_exchange, and says whether it was: Kotlin's
    /// `compareAndSet`. Where it was, it rings.
    pub fn compare_and_set(&mut self, expect: T, update: T) -> bool
        ensures has { Compares self.old.view expect update result self.new.view }
        ensures same_flow { self.new.flow ≡ self.old.flow }
    {
        let was_equal = self.seat.compare_and_set(expect, update);
        if was_equal {
            self.bell.ring();
        }
        was_equal
    }

    /// From now on who sleeps by this bell is let go, and who will: each that watches is given first what was set before, as by
    /// [`WatchedSeat::stop`](crate::WatchedSeat::stop). In Kotlin the scope of the coroutines that collect is cancelled. It is for good.
    ///
    /// It takes no memory, and by a [`Bell`] no lock. That a wake arrives isn't claimed.
    pub fn stop(&self) {
        self.bell.let_go();
    }

    // The seat, and the bell that it rang.
    pub(crate) fn into_parts(self) -> (StateSeat<T>, Arc<B>)
        ensures { result.0 ≡ self }
    {
        let RungSeat { seat, bell } = self;
        (seat, bell)
    }

    /// The seat again, which rings no more.
    pub fn into_seat(self) -> StateSeat<T>
        ensures { result ≡ self }
    {
        let RungSeat { seat, bell } = self;
        drop(bell);
        seat
    }
}
