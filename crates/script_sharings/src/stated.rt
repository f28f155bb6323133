//! A source that sets a state.

ghost use Rattle.std.specs.Prelude.{◌≡◌, []};
ghost use Rattle.sharing_upstream.specs.Shown.{Shows};
ghost use Rattle.state_flow.specs.Calls.{Sets};

use crate::ticks::ticked;
use cold_flow::Flow;
use flow_sharing::{StateSharing, state_in};
use flow_terms::Started;
use futures::task::Context;
use script_calls::{SharedSource, Ticked};
use state_flow::StateSeat;

/// A source that sets a state by a seat of it, as a script calls it. It must be spent, by [`close`](SharedSource::close).
pub struct Stated<S: Flow<Item = u64>> {
    sharing: StateSharing<u64, S>,
}

impl<S: Flow<Item = u64, Fault = u64>> Stated<S> {
    ghost use Rattle.script_sharings.specs.Ticks.{stating_of, SetsFrom};

    /// Sets the state of this seat to `initial`. The source isn't collected yet.
    pub fn new(seat: StateSeat<u64>, initial: u64, started: Started, source: S) -> Stated<S>
        ensures same_flow { (stating_of result).seat.flow ≡ seat.flow }
        ensures sets { Sets seat.view initial (stating_of result).seat.view }
        ensures initial { (stating_of result).initial ≡ initial }
        ensures sharing { SetsFrom started source result }
        ensures shows { Shows (stating_of result).strategy [] }
    {
        Stated {
            sharing: state_in(seat, initial, source, started),
        }
    }
}

impl<S: Flow<Item = u64, Fault = u64>> SharedSource for Stated<S> {
    ghost use Rattle.script_calls.specs.Views.{turns_of};
    ghost use Rattle.script_sharings.specs.Ticks.{stating_of, stating};

    ghost turns = { turns_of
        stating_of
        (stating (λ live. S.Running.may live.run) (λ live. S.Running.ended live.run) (λ was answer is. S.Running.polled was.run answer is.run) S.may) };

    fn tick(&mut self, now: u64, cx: &mut Context<'_>) -> Ticked {
        let polled = self.sharing.poll(now, cx);
        ticked(polled, self.sharing.fault())
    }

    fn close(self) {
        let Stated { sharing } = self;
        let _seat = sharing.close();
    }
}
