//! A source that is shared into a flow.

ghost use Rattle.std.specs.Prelude.{◌≡◌, [], IfOk};
ghost use Rattle.sharing_upstream.specs.Shown.{Shows};
ghost use Rattle.shared_core.specs.Kept.{making_refusal};
ghost use Rattle.shared_rounds.specs.Names.{IsMadeWith};
ghost use Rattle.shared_flow.specs.Owners.{HasMadeNoCall};
ghost use Rattle.script_calls.specs.Makings.{MadeUnless};

use crate::ticks::ticked;
use cold_flow::Flow;
use flow_sharing::{Sharing, share_in};
use flow_terms::{Refusal, Started};
use futures::task::Context;
use script_calls::{SharedSource, Ticked};
use shared_core::Config;
use shared_flow::SharedFlow;
use std::alloc::Global;
use std::sync::Wait;

/// A source that is shared into a flow for threads, as a script calls it. It must be spent, by [`close`](SharedSource::close).
pub struct ScriptSharing<'a, W, S: Flow<Item = u64>> {
    rt: &'a W,
    sharing: Sharing<u64, S>,
}

impl<'a, W: Wait, S: Flow<Item = u64, Fault = u64>> ScriptSharing<'a, W, S> {
    ghost use Rattle.script_sharings.specs.Ticks.{sharings_of, SharesFrom};

    /// A new flow, and what shares this source into it, which isn't collected yet. Refused as `SharedFlow::new` is by its config, and
    /// then by `NoMemory` at most.
    pub fn new(
        rt: &'a W,
        alloc: Global,
        config: Config,
        started: Started,
        source: S,
    ) -> Result<(SharedFlow<u64>, ScriptSharing<'a, W, S>), Refusal>
        ensures made { MadeUnless (making_refusal config) result (λ made. IsMadeWith config made.0.party.flow × HasMadeNoCall 1 made.0) }
        ensures sharing { IfOk result (λ made. SharesFrom made.0 started source made.1) }
        ensures shows { IfOk result (λ made. Shows (sharings_of made.1).strategy []) }
    {
        let mut flow = SharedFlow::new(alloc, config)?;
        let sharing = share_in(&mut flow, source, started)?;
        Ok((flow, ScriptSharing { rt, sharing }))
    }
}

impl<'a, W: Wait, S: Flow<Item = u64, Fault = u64>> SharedSource for ScriptSharing<'a, W, S> {
    ghost use Rattle.script_calls.specs.Views.{turns_of};
    ghost use Rattle.script_sharings.specs.Ticks.{sharings_of, sharing};

    ghost turns = { turns_of
        sharings_of
        (sharing (λ live. S.Running.may live.run) (λ live. S.Running.ended live.run) (λ was answer is. S.Running.polled was.run answer is.run) S.may) };

    fn tick(&mut self, now: u64, cx: &mut Context<'_>) -> Ticked {
        let polled = self.sharing.poll(self.rt, now, cx);
        ticked(polled, self.sharing.fault())
    }

    fn close(self) {
        let ScriptSharing { rt, sharing } = self;
        let _withdrawn = sharing.close(rt);
    }
}
