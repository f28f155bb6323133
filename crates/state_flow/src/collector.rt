//! A seat that collects the values of a state flow.
ghost use Rattle.std.specs.Prelude.{◌≡◌, ◌++◌, [], true};
ghost use Rattle.std.specs.Arc.{arc_value};
ghost use Rattle.futures.specs.Poll.{OnPending};
ghost use Rattle.futures.specs.Task.{IsArmed, Keeps};
ghost use Rattle.state_flow.specs.Views.{seen_by, IsSeated, HasAll};
ghost use Rattle.state_flow.specs.Calls.{Collects, CollectsAlone, Ends, taken};
ghost use Rattle.flow_terms.specs.Lists.{some_of};
ghost use Rattle.state_flow.specs.Collected.{collected, ready_of, IsPickedFromHistory};

use crate::flow::StateFlow;
use crate::seat::StateSeat;
use crate::view::View;
use atomic_table::Seat;
use flow_terms::Word;
use futures::task::{Context, Poll};
use std::alloc::{Allocator, Global};
use std::marker::Model;
use std::sync::Arc;

/// A collector of a state flow: what runs inside Kotlin's `collect`. What it gives, over all its asks, is a subsequence
/// of the value history without equal neighbours.
///
/// It must be spent, by [`cancel`](Collector::cancel). Contracts see which flow it is, and the collector's [`View`].
pub struct Collector<T: Word, A: Allocator = Global> {
    flow: Arc<StateFlow<T, A>, A>,
    // A token of no bytes, with what the proofs know of the seat.
    seat: Seat<(), View<T>>,
    // The seat's share, for the seat that `cancel` gives back.
    share: u32,
    // The last value given.
    last: Option<T>,
}

impl<T: Word, A: Allocator> Model for Collector<T, A> {
    ghost use Rattle.std.specs.Prelude.{◌≡◌, true};
    ghost use Rattle.std.specs.Arc.{arc_value};
    ghost use Rattle.state_flow.specs.History.{last_of, Picks};
    ghost use Rattle.state_flow.specs.Views.{SeatSeen, seen_by, IsSeated};

    ghost Value = { SeatSeen T };

    ghost view = { λ s. seen_by s.seat };

    ghost invariant = { λ s. IsSeated s.seat (arc_value s.flow).table.shared.table_id s.share 0 true × Picks s.seat.me.0.collected s.seat.me.0.seen × (last_of s.seat.me.0.collected ≡ s.last) };
}

impl<T: Word, A: Allocator> Collector<T, A> {
    pub(crate) fn over(
        flow: Arc<StateFlow<T, A>, A>,
        seat: Seat<(), View<T>>,
        share: u32,
    ) -> Collector<T, A>
        requires seated { IsSeated seat (arc_value flow).table.shared.table_id share 0 true }
        requires fresh { seat.me.0.collected ≡ [] }
        ensures { result ≡ seen_by seat }
    {
        Collector {
            flow,
            seat,
            share,
            last: None,
        }
    }

    /// The value where it differs from the last one that this collector gave, else nothing; by one load. The first ask
    /// gives the value. Kotlin has no such call: there `collect` suspends where this answers `None`.
    pub fn try_next(&mut self) -> Option<T>
        ensures has { collected self.new ≡ collected self.old ++ some_of result }
        ensures asks { Collects self.old.view result self.new.view }
        ensures same_flow { self.new.flow ≡ self.old.flow }
        ensures alone { CollectsAlone self.old.view result self.new.view }
    {
        let flow = &self.flow;
        let value = T::from_word(flow.gather(&mut self.seat));
        if self.last == Some(value) {
            return None;
        }
        self.last = Some(value);
        Some(value)
    }

    /// The same as a poll: pending where there is nothing to give, and then it has yielded, that is, asked to be polled
    /// again. One turn of Kotlin's `collect`.
    pub fn poll_next(&mut self, cx: &mut Context<'_>) -> Poll<T>
        ensures has { collected self.new ≡ collected self.old ++ ready_of result }
        ensures asks { Collects self.old.view (taken result) self.new.view }
        ensures same_flow { self.new.flow ≡ self.old.flow }
        ensures alone { CollectsAlone self.old.view (taken result) self.new.view }
        ensures armed { OnPending result (IsArmed cx.new) }
        ensures kept { Keeps cx.old cx.new }
    {
        match self.try_next() {
            Some(value) => Poll::Ready(value),
            None => cx.yield_now(),
        }
    }

    /// A law, with nothing to run. Of any collector, between any two of its calls: what it was given since it began is a subsequence
    /// of the value history that it has seen, without equal neighbours.
    pub fn collected_is_picked(&self)
        ensures { IsPickedFromHistory self.now }
    {
        let _share = self.share;
    }

    /// Ends the collecting, and gives the seat back: what Kotlin does where the coroutine that collects is cancelled. The
    /// number of collectors goes down by one.
    pub fn cancel(self) -> StateSeat<T, A>
        ensures has { Ends self.view result.view }
        ensures same_flow { result.flow ≡ self.flow }
        ensures alone { HasAll self.view → result.view.counted ≡ 0 }
    {
        let Collector {
            flow,
            mut seat,
            share,
            last: _,
        } = self;
        flow.end(&mut seat);
        StateSeat::over(flow, seat, share)
    }
}
