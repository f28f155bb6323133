//! A seat at a state whose watchers sleep.
ghost use Rattle.std.specs.Prelude.{◌≡◌, ◌+◌, ◌<◌, ◌≤◌, ◌⊎◌, ◌↔◌, IfOk, IfErr, OnErr};
ghost use Rattle.state_flow.specs.Views.{opening, giver, taker};
ghost use Rattle.state_flow.specs.Calls.{Reads, Sets, Compares, TakesBack, Counts, Begins};
ghost use Rattle.flow_terms.specs.declared.refusal.Refusal.TheVariants.{BadLimit, SubscribersFull, NoMemory};

use crate::rung::RungSeat;
use crate::watcher::Watcher;
use flow_terms::{Refusal, Word};
use state_bell::{Bell, Stopper};
use state_flow::{StateFlow, StateSeat};
use std::alloc::Global;
use std::marker::Model;
use std::sync::Arc;

/// A seat at a state whose watchers sleep until it changes: a [`StateSeat`] that wakes them. All seats of such a state are of this
/// kind, so no change passes them by. One thread at a time uses a seat; another gets one by [`take_seat`](WatchedSeat::take_seat).
/// No call of a seat takes a lock or waits. A seat that is dropped takes its share with it.
///
/// Contracts see which flow it is, and the seat's [`View`](state_flow::View).
pub struct WatchedSeat<T: Word> {
    seat: RungSeat<T>,
    // Who lets go the watcher that this seat makes, where anybody asked for that.
    stopper: Option<Stopper>,
}

impl<T: Word> Model for WatchedSeat<T> {
    ghost use Rattle.state_flow.specs.Views.{SeatSeen};

    ghost Value = { SeatSeen T };

    ghost view = { λ s. s.seat };
}

// By hand: who lets one go proves this call alone, and nothing of what it is made of.
impl<T: Word> Drop for WatchedSeat<T> {
    fn drop(self) {
        let WatchedSeat { seat, stopper } = self;
        drop(seat);
        drop(stopper);
    }
}

impl<T: Word> WatchedSeat<T> {
    /// Makes a state that holds `value`, and gives its first seat: `MutableStateFlow(value)`. Of that seat `seats - 1` more can be
    /// taken. The state is let go with the last of its seats.
    ///
    /// Refused by `BadLimit` where `seats` is 0 or over 1,024, then by `NoMemory`.
    pub fn new(alloc: Global, value: T, seats: u32) -> Result<WatchedSeat<T>, Refusal>
        ensures has { IfOk result (λ seat. seat.view ≡ opening value seats) }
        ensures few { IfOk result (λ _. (0 < seats) × (seats ≤ 1024)) }
        ensures bad_limit { IfErr result (λ r. (r ≡ BadLimit) ↔ ((seats ≡ 0) ⊎ (1024 < seats))) }
        ensures refusals { IfErr result (λ r. (r ≡ BadLimit) ⊎ (r ≡ NoMemory)) }
    {
        let seat = StateFlow::new(alloc, value, seats)?;
        let bell = Bell::new(alloc)?;
        Ok(WatchedSeat::over(seat, bell))
    }

    pub(crate) fn over(seat: StateSeat<T>, bell: Arc<Bell>) -> WatchedSeat<T>
        ensures { result ≡ seat }
    {
        WatchedSeat {
            seat: RungSeat::over(seat, bell),
            stopper: None,
        }
    }

    /// The value, by one load: Kotlin's `value`.
    pub fn value(&mut self) -> T
        ensures has { Reads self.old.view result self.new.view }
        ensures same_flow { self.new.flow ≡ self.old.flow }
    {
        self.seat.value()
    }

    /// Sets the value, by one swap, and wakes the watchers that sleep: Kotlin's `value = ..`. A value that is equal to the present
    /// one changes nothing; who is woken by it finds nothing new, and sleeps on.
    ///
    /// Where no watcher sleeps, or is about to, there is one load beside the swap. That a wake arrives isn't claimed.
    pub fn set(&mut self, value: T)
        ensures has { Sets self.old.view value self.new.view }
        ensures same_flow { self.new.flow ≡ self.old.flow }
    {
        self.seat.set(value);
    }

    /// Sets the value to `update` where it is equal to `expect`, by one compare_exchange, and says whether it was equal: Kotlin's
    /// `compareAndSet`. Where it was, the watchers that sleep are woken, as by [`set`](WatchedSeat::set).
    pub fn compare_and_set(&mut self, expect: T, update: T) -> bool
        ensures has { Compares self.old.view expect update result self.new.view }
        ensures same_flow { self.new.flow ≡ self.old.flow }
    {
        self.seat.compare_and_set(expect, update)
    }

    /// The number of watchers, by one load: Kotlin's `subscriptionCount.value`. They count whether they sleep or not.
    pub fn collectors(&mut self) -> u32
        ensures has { Counts self.old.view result self.new.view }
        ensures same_flow { self.new.flow ≡ self.old.flow }
    {
        self.seat.seat.collectors()
    }

    /// How many more seats can be made of this one. Kotlin has no such call, since every holder of a flow may use it.
    pub fn spare(&self) -> u32
        ensures { result + 1 ≡ self.now.view.share }
    {
        self.seat.seat.spare()
    }

    /// Takes a new seat, which begins with all that this one has seen. Of the new one `share` more can be taken; this one has
    /// `share + 1` fewer to give. Kotlin has no such call.
    ///
    /// Refused by `NoMemory` where the state can have no further owner, then by `SubscribersFull` where `share + 1` is over
    /// `spare()`. Where it isn't, the only refusal is `NoMemory`.
    pub fn take_seat(&mut self, share: u32) -> Result<WatchedSeat<T>, Refusal>
        ensures has { IfOk result (λ new. (new.flow ≡ self.old.flow) × (new.view ≡ taker (share + 1) self.old.view)) }
        ensures same_flow { self.new.flow ≡ self.old.flow }
        ensures left { IfOk result (λ _. self.new.view ≡ giver (share + 1) self.old.view) }
        ensures enough { IfOk result (λ _. share + 1 < self.old.view.share) }
        ensures unchanged { OnErr result (self.new.view ≡ self.old.view) }
        ensures refusals { IfErr result (λ r. (r ≡ NoMemory) ⊎ ((r ≡ SubscribersFull) × (self.old.view.share ≤ share + 1))) }
    {
        let bell = Arc::try_clone(&self.seat.bell)?;
        let seat = self.seat.seat.take_seat(share)?;
        Ok(WatchedSeat::over(seat, bell))
    }

    /// Takes back another seat of the same state, with all its share, and makes one load: from then on this seat has seen what both
    /// had. Kotlin has no such call.
    pub fn give_back(&mut self, other: WatchedSeat<T>)
        requires { other.flow ≡ self.old.flow }
        ensures has { TakesBack self.old.view other.view self.new.view }
        ensures same_flow { self.new.flow ≡ self.old.flow }
    {
        let WatchedSeat { seat, stopper: _ } = other;
        self.seat.seat.give_back(seat.into_seat());
    }

    /// Who lets go the watcher that this seat's next `collect` makes, and none beside it, from any thread: Kotlin's `Job` of a
    /// coroutine that collects. Each one that the seat is asked for until then does the same, and so does each clone.
    ///
    /// Refused by `NoMemory`, and then the seat is as it was. The first takes memory; a further one is refused only where it can't be
    /// counted.
    pub fn watcher_stopper(&mut self, alloc: Global) -> Result<Stopper, Refusal>
        ensures same_flow { self.new.flow ≡ self.old.flow }
        ensures unchanged { self.new.view ≡ self.old.view }
        ensures refusals { IfErr result (λ refusal. refusal ≡ NoMemory) }
    {
        if let Some(stopper) = &self.stopper {
            return Ok(stopper.clone()?);
        }
        let stopper = Stopper::new(alloc, &self.seat.bell)?;
        self.stopper = Some(stopper.clone()?);
        Ok(stopper)
    }

    /// Begins to watch: Kotlin's `collect`. The number of watchers goes up by one, and this one was given nothing yet.
    pub fn collect(self) -> Watcher<T>
        ensures has { Begins self.view result.view }
        ensures same_flow { result.flow ≡ self.flow }
    {
        let WatchedSeat { seat, stopper } = self;
        let (seat, bell) = seat.into_parts();
        Watcher::over(seat.collect(), bell, stopper)
    }

    /// From now on who waits on this state is let go, and who will: each watcher of it is answered `Stopped` once it was given what
    /// was set before. In Kotlin the scope of the coroutines that collect is cancelled. It is for good; values can be set and
    /// read as ever, and to stop once more does nothing. One watcher alone is let go by a [`Stopper`].
    ///
    /// It takes no lock and no memory. That a wake arrives isn't claimed.
    pub fn stop(&self) {
        self.seat.bell.let_go();
    }

    /// Whether who waits on this state is let go.
    pub fn is_stopped(&self) -> bool {
        self.seat.bell.is_let_go()
    }
}
