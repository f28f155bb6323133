//! A seat at a state flow: it reads the value, sets it, and can begin to collect.
ghost use Rattle.std.specs.Prelude.{◌≡◌, ◌+◌, ◌<◌, ◌≤◌, ◌⊎◌, false, IfOk, IfErr, OnErr};
ghost use Rattle.std.specs.Arc.{arc_value};
ghost use Rattle.state_flow.specs.Views.{seen_by, IsSeated, HasAll, giver, taker};
ghost use Rattle.state_flow.specs.Calls.{Reads, Sets, Compares, TakesBack, Counts, Begins, ReadsAlone, SetsAlone, ComparesAlone, TakesBackLast};
ghost use Rattle.flow_terms.specs.declared.refusal.Refusal.TheVariants.{SubscribersFull, NoMemory};

use crate::collector::Collector;
use crate::flow::StateFlow;
use crate::view::View;
use atomic_table::Seat;
use flow_terms::{Refusal, Word};
use std::alloc::{Allocator, Global};
use std::marker::{Brand, Model};
use std::sync::Arc;

mod collecting;

pub use collecting::{CollectingSeat, Running, SeatCollector};

/// How many collectors a seat runs by itself: what a [`StateSeat`] and a [`CollectingSeat`] differ by.
pub trait Hosts {
    ghost use Rattle.std.specs.Prelude.{ℕ};

    ghost hosted: { Self → ℕ };
}

/// A seat runs no collectors.
#[derive(Drop)]
pub struct Idle;

impl Hosts for Idle {
    ghost hosted = { λ _. 0 };
}

/// A seat at a state flow, from which one thread at a time reads and sets the value. Another thread gets a seat of its
/// own by [`take_seat`](StateSeat::take_seat). No call of a seat takes a lock or waits. A seat that is dropped takes its
/// share with it.
///
/// Contracts see which flow it is, and the seat's [`View`]. With [`Running`] in place of [`Idle`] it is a [`CollectingSeat`].
pub struct StateSeat<T: Word, A: Allocator = Global, R: Hosts = Idle> {
    flow: Arc<StateFlow<T, A>, A>,
    // A token of no bytes, with what the proofs know of the seat.
    seat: Seat<(), View<T>>,
    // How many seats can be made of this one, itself among them.
    share: u32,
    // How many collectors it runs.
    runs: R,
}

impl<T: Word, A: Allocator, R: Hosts> Model for StateSeat<T, A, R> {
    ghost use Rattle.std.specs.Prelude.{false};
    ghost use Rattle.std.specs.Arc.{arc_value};
    ghost use Rattle.state_flow.specs.Views.{SeatSeen, seen_by, IsSeated};

    ghost Value = { SeatSeen T };

    ghost view = { λ s. seen_by s.seat };

    ghost invariant = { λ s. IsSeated s.seat (arc_value s.flow).table.shared.table_id s.share (R.hosted s.runs) false };
}

// By hand: who lets one go proves this call alone, and nothing of what it is made of.
impl<T: Word, A: Allocator, R: Hosts + Drop> Drop for StateSeat<T, A, R> {
    fn drop(self) {
        let StateSeat {
            flow,
            seat,
            share: _,
            runs,
        } = self;
        drop(flow);
        drop(seat);
        drop(runs);
    }
}

impl<T: Word, A: Allocator, R: Hosts> StateSeat<T, A, R> {
    /// The value, by one load: Kotlin's `value`.
    pub fn value(&mut self) -> T
        ensures has { Reads self.old.view result self.new.view }
        ensures same_flow { self.new.flow ≡ self.old.flow }
        ensures alone { ReadsAlone self.old.view result self.new.view }
    {
        let flow = &self.flow;
        flow.load(&mut self.seat)
    }

    /// Sets the value, by one swap: Kotlin's `value = ..`. A value that is equal to the present one changes nothing.
    pub fn set(&mut self, value: T)
        ensures has { Sets self.old.view value self.new.view }
        ensures same_flow { self.new.flow ≡ self.old.flow }
        ensures alone { SetsAlone self.old.view value self.new.view }
    {
        let flow = &self.flow;
        flow.swap(&mut self.seat, value);
    }

    /// Sets the value to `update` where it is equal to `expect`, by one compare_exchange, and says whether it was equal:
    /// Kotlin's `compareAndSet`. With all three equal it answers true and changes nothing.
    pub fn compare_and_set(&mut self, expect: T, update: T) -> bool
        ensures has { Compares self.old.view expect update result self.new.view }
        ensures same_flow { self.new.flow ≡ self.old.flow }
        ensures alone { ComparesAlone self.old.view expect update result self.new.view }
    {
        let flow = &self.flow;
        flow.compare_exchange(&mut self.seat, expect, update)
    }
}

impl<T: Word, A: Allocator> StateSeat<T, A> {
    pub(crate) fn over(
        flow: Arc<StateFlow<T, A>, A>,
        seat: Seat<(), View<T>>,
        share: u32,
    ) -> StateSeat<T, A>
        requires { IsSeated seat (arc_value flow).table.shared.table_id share 0 false }
        ensures { result ≡ seen_by seat }
    {
        StateSeat {
            flow,
            seat,
            share,
            runs: Idle,
        }
    }

    pub(crate) fn into_parts(self) -> (Arc<StateFlow<T, A>, A>, Seat<(), View<T>>, u32)
        ensures { IsSeated result.1 (arc_value result.0).table.shared.table_id result.2 0 false × (self ≡ seen_by result.1) }
    {
        let StateSeat {
            flow,
            seat,
            share,
            runs: _,
        } = self;
        (flow, seat, share)
    }

    /// The number of collectors, by one load: Kotlin's `subscriptionCount.value`.
    pub fn collectors(&mut self) -> u32
        ensures has { Counts self.old.view result self.new.view }
        ensures same_flow { self.new.flow ≡ self.old.flow }
        ensures alone { HasAll self.old.view → result ≡ 0 }
    {
        let flow = &self.flow;
        flow.count(&mut self.seat)
    }

    /// How many more seats can be made of this one. Kotlin has no such call, since every holder of a flow may use it.
    pub fn spare(&self) -> u32
        ensures { result + 1 ≡ self.now.view.share }
    {
        self.share - 1
    }

    /// Takes a new seat, which begins with all that this one has seen. Of the new one `share` more can be taken; this one
    /// has `share + 1` fewer to give. Kotlin has no such call.
    ///
    /// Refused by `NoMemory` where the flow can have no further owner, then by `SubscribersFull` where `share + 1` is over
    /// `spare()`. Where it isn't, the only refusal is `NoMemory`.
    pub fn take_seat(&mut self, share: u32) -> Result<StateSeat<T, A>, Refusal>
        ensures has { IfOk result (λ new. (new.flow ≡ self.old.flow) × (new.view ≡ taker (share + 1) self.old.view)) }
        ensures same_flow { self.new.flow ≡ self.old.flow }
        ensures left { IfOk result (λ _. self.new.view ≡ giver (share + 1) self.old.view) }
        ensures enough { IfOk result (λ _. share + 1 < self.old.view.share) }
        ensures unchanged { OnErr result (self.new.view ≡ self.old.view) }
        ensures refusals { IfErr result (λ r. (r ≡ NoMemory) ⊎ ((r ≡ SubscribersFull) × (self.old.view.share ≤ share + 1))) }
    {
        let flow = Arc::try_clone(&self.flow)?;
        if share >= self.spare() {
            return Err(Refusal::SubscribersFull);
        }
        let seat = flow.split::<Brand>(&mut self.seat, share + 1);
        self.share -= share + 1;
        Ok(StateSeat::over(flow, seat, share + 1))
    }

    /// Takes back another seat of the same flow, with all its share, and makes one load: from then on this seat has seen
    /// what both had. Kotlin has no such call.
    pub fn give_back(&mut self, other: StateSeat<T, A>)
        requires { other.flow ≡ self.old.flow }
        ensures has { TakesBack self.old.view other.view self.new.view }
        ensures same_flow { self.new.flow ≡ self.old.flow }
        ensures alone { TakesBackLast self.old.view other.view self.new.view }
    {
        let StateSeat {
            flow,
            seat,
            share,
            runs: _,
        } = other;
        flow.join(&mut self.seat, seat);
        // A join tells nothing of how the two histories go together; the load does.
        flow.load(&mut self.seat);
        self.share += share;
    }

    /// Begins to collect: Kotlin's `collect`. The number of collectors goes up by one, and the collector has collected
    /// nothing yet.
    pub fn collect(self) -> Collector<T, A>
        ensures has { Begins self.view result.view }
        ensures same_flow { result.flow ≡ self.flow }
        ensures alone { HasAll self.view → result.view.counted ≡ 1 }
    {
        let StateSeat {
            flow,
            mut seat,
            share,
            runs: _,
        } = self;
        flow.begin(&mut seat);
        Collector::over(flow, seat, share)
    }
}
