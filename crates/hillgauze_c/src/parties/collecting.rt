//! A collector of a state flow of words.
ghost use Rattle.std.specs.Prelude.{◌≡◌};
ghost use Rattle.state_flow.specs.Calls.{Ends};

use super::Seating;
use state_flow::Collector;

/// A collector, which ends to collect where it is dropped.
pub struct Collecting {
    pub(crate) collector: Collector<u64>,
}

impl Drop for Collecting {
    fn drop(self) {
        drop(self.cancel());
    }
}

impl Collecting {
    /// Ends to collect, and gives the seat back.
    pub fn cancel(self) -> Seating
        ensures has { Ends self.collector.view result.seat.view }
        ensures same_flow { result.seat.flow ≡ self.collector.flow }
    {
        let Collecting { collector } = self;
        let seat = collector.cancel();
        Seating { seat }
    }
}
