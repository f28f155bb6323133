//! A seat that runs collectors of its own.
ghost use Rattle.std.specs.Prelude.{◌≡◌, ◌+◌, ◌<◌, ◌≤◌, None, IfOk, IfErr, OnErr};
ghost use Rattle.state_flow.specs.Views.{HasAll};
ghost use Rattle.state_flow.specs.Calls.{Counts, Launches, Cancels, Asks};
ghost use Rattle.flow_terms.specs.declared.refusal.Refusal.TheVariants.{SubscribersFull};

use super::{Hosts, StateSeat};
use flow_terms::{Refusal, Word};
use std::alloc::{Allocator, Global};

/// A collector that a [`CollectingSeat`] runs, and which is asked through that seat. It must be spent, by
/// [`cancel`](CollectingSeat::cancel).
pub struct SeatCollector {
    // The word of the last value given.
    last: Option<u64>,
}

/// A seat runs so many collectors.
pub struct Running {
    count: u32,
}

impl Hosts for Running {
    ghost hosted = { λ r. r.count };
}

/// A seat that runs collectors of its own, fewer than its share: one thread that reads, sets, and collects more than once.
/// In Kotlin these are coroutines of one thread. Each call is one step by the seat, so who has all seats knows what each of
/// its collectors is given.
///
/// It must be spent, by [`into_seat`](CollectingSeat::into_seat). Contracts see which flow it is, and the seat's
/// [`View`](crate::View).
pub type CollectingSeat<T, A = Global> = StateSeat<T, A, Running>;

impl<T: Word, A: Allocator> StateSeat<T, A, Running> {
    /// Over a seat, with all its share. It runs no collector yet.
    pub fn of(seat: StateSeat<T, A>) -> CollectingSeat<T, A>
        ensures same { result ≡ seat }
        ensures runs_none { result.view.runs ≡ 0 }
    {
        let (flow, seat, share) = seat.into_parts();
        StateSeat {
            flow,
            seat,
            share,
            runs: Running { count: 0 },
        }
    }

    /// The seat, where it runs no collector.
    pub fn into_seat(self) -> StateSeat<T, A>
        requires { self.view.runs ≡ 0 }
        ensures { result ≡ self }
    {
        let StateSeat {
            flow,
            seat,
            share,
            runs: Running { count: _ },
        } = self;
        StateSeat::over(flow, seat, share)
    }

    /// The number of collectors of the flow, by one load: Kotlin's `subscriptionCount.value`. Where the seat has all seats, it is
    /// the number of those that it runs.
    pub fn collectors(&mut self) -> u32
        ensures has { Counts self.old.view result self.new.view }
        ensures same_flow { self.new.flow ≡ self.old.flow }
        ensures alone { HasAll self.old.view → result ≡ self.old.view.runs }
    {
        let flow = &self.flow;
        flow.count(&mut self.seat)
    }

    /// Begins to run one more collector, which was given nothing yet: Kotlin's `launch` of a `collect`. The number of
    /// collectors goes up by one.
    ///
    /// Refused with 5 where as many run as other seats could be made of this one.
    pub fn launch(&mut self) -> Result<SeatCollector, Refusal>
        ensures has { IfOk result (λ collector. (collector.last ≡ None) × Launches self.old.view self.new.view) }
        ensures same_flow { self.new.flow ≡ self.old.flow }
        ensures room { IfOk result (λ _. self.old.view.runs + 1 < self.old.view.share) }
        ensures unchanged { OnErr result (self.new.view ≡ self.old.view) }
        ensures refusals { IfErr result (λ r. (r ≡ SubscribersFull) × (self.old.view.share ≤ self.old.view.runs + 1)) }
    {
        if self.share - self.runs.count <= 1 {
            return Err(Refusal::SubscribersFull);
        }
        let flow = &self.flow;
        flow.launch(&mut self.seat);
        self.runs.count += 1;
        Ok(SeatCollector { last: None })
    }

    /// The value where it differs from the last one that this collector gave, else nothing; by one load. Its first ask gives
    /// the value.
    pub fn try_next(&mut self, collector: &mut SeatCollector) -> Option<T>
        ensures has { Asks T.word self.old.view collector.old.last result collector.new.last self.new.view }
        ensures same_flow { self.new.flow ≡ self.old.flow }
    {
        let value = self.value();
        let word = Some(value.to_word());
        if collector.last == word {
            return None;
        }
        collector.last = word;
        Some(value)
    }

    /// Ends a collector that this seat runs: Kotlin's `Job.cancel` of a coroutine that collects. The number of collectors
    /// goes down by one.
    pub fn cancel(&mut self, collector: SeatCollector)
        requires { 0 < self.old.view.runs }
        ensures has { Cancels self.old.view self.new.view }
        ensures same_flow { self.new.flow ≡ self.old.flow }
    {
        let SeatCollector { last: _ } = collector;
        let flow = &self.flow;
        flow.cancel(&mut self.seat);
        self.runs.count -= 1;
    }
}
