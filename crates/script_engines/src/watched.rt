//! A state with its collectors, as a script calls it.

ghost use Rattle.std.specs.Prelude.{◌≡◌, [], IfOk, IfErr};
ghost use Rattle.flow_terms.specs.declared.refusal.Refusal.TheVariants.{NoMemory};
ghost use Rattle.state_flow.specs.Views.{opening, giver, taker};

use flow_terms::{Next, Refusal, SubId};
use script_calls::places::{id_at, place_of};
use script_calls::{MutableState, State};
use state_flow::{CollectingSeat, SeatCollector, StateFlow, StateSeat};
use std::alloc::Global;
use std::marker::Model;

/// How many seats a state has, of which one seat has all: it sets and reads, and can run 8 collectors.
const SEATS: u32 = 9;

/// How many a state has that is set from a source: one more, by which that sets it.
const STATED_SEATS: u32 = 10;

/// A state flow with its collectors, as a script calls it. It must be spent, by [`close`](State::close).
///
/// Contracts see what its seat has seen, and what each collector was given last, a cancelled one as nothing.
pub struct Watched {
    // It runs the collectors, so it has all seats while they collect.
    seat: CollectingSeat<u64>,
    // Each collector keeps its place.
    collectors: Vec<Option<SeatCollector>>,
}

impl Model for Watched {
    ghost use Rattle.script_engines.specs.Watching.{Watch, IsWatch};

    ghost Value = { Watch };

    ghost view = { λ w. record { seat = w.seat; collectors = w.collectors.items } };

    ghost invariant = { λ w. IsWatch w.seat w.collectors.items };
}

impl Watched {
    /// A state with this value and no collectors. Refused by `NoMemory` alone.
    pub fn new(alloc: Global, value: u64) -> Result<Watched, Refusal>
        ensures made { IfOk result (λ made. made.collectors ≡ []) }
        ensures opens { IfOk result (λ made. made.seat.view ≡ opening value 9) }
        ensures refusals { IfErr result (λ refusal. refusal ≡ NoMemory) }
    {
        let seat = StateFlow::new(alloc, value, SEATS)?;
        Ok(Watched {
            seat: CollectingSeat::of(seat),
            collectors: Vec::new(alloc),
        })
    }

    /// A state with this value and no collectors, and a seat of it for what sets it. Refused by `NoMemory` alone.
    pub fn stated(alloc: Global, value: u64) -> Result<(Watched, StateSeat<u64>), Refusal>
        ensures made { IfOk result (λ made. made.0.collectors ≡ []) }
        ensures same_flow { IfOk result (λ made. made.1.flow ≡ made.0.seat.flow) }
        ensures opens { IfOk result (λ made. (made.0.seat.view ≡ giver 1 (opening value 10)) × (made.1.view ≡ taker 1 (opening value 10))) }
        ensures refusals { IfErr result (λ refusal. refusal ≡ NoMemory) }
    {
        let mut seat = StateFlow::new(alloc, value, STATED_SEATS)?;
        let setter = seat.take_seat(0)?;
        let state = Watched {
            seat: CollectingSeat::of(seat),
            collectors: Vec::new(alloc),
        };
        Ok((state, setter))
    }
}

impl State for Watched {
    ghost use Rattle.script_engines.specs.Watching.{watching};

    ghost readings = { watching };

    fn value(&mut self) -> u64 {
        self.seat.value()
    }

    fn collect(&mut self) -> Result<SubId, Refusal> {
        self.collectors.reserve(1)?;
        let collector = self.seat.launch()?;
        let place = self.collectors.len();
        self.collectors.push_reserved(Some(collector));
        Ok(id_at(place))
    }

    fn next(&mut self, id: SubId) -> Next<u64> {
        let Some(place) = self.collectors.get_mut(place_of(id)) else {
            return Next::Closed;
        };
        let Some(collector) = place else {
            return Next::Closed;
        };
        let Some(value) = self.seat.try_next(collector) else {
            return Next::Nothing;
        };
        Next::Value(value)
    }

    fn cancel(&mut self, id: SubId) -> bool {
        let Some(place) = self.collectors.get_mut(place_of(id)) else {
            return false;
        };
        let Some(collector) = place.take() else {
            return false;
        };
        self.seat.cancel(collector);
        true
    }

    fn count(&mut self) -> u32 {
        self.seat.collectors()
    }

    fn close(self) {
        let Watched {
            mut seat,
            mut collectors,
        } = self;
        while let Some(place) = collectors.pop() {
            if let Some(collector) = place {
                seat.cancel(collector);
            }
        }
        collectors.destroy_empty();
        drop(seat.into_seat());
    }
}

impl MutableState for Watched {
    ghost use Rattle.script_engines.specs.Watching.{setting};

    ghost settings = { setting };

    fn set(&mut self, value: u64) {
        self.seat.set(value);
    }

    fn compare_and_set(&mut self, expect: u64, update: u64) -> bool {
        self.seat.compare_and_set(expect, update)
    }
}
