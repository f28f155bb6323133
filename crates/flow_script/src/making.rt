//! What a script's flows and states are made with.

ghost use Rattle.std.specs.Prelude.{◌≡◌};
ghost use Rattle.script_commands.specs.Sources.{origin_in};
ghost use Rattle.script_words.specs.Starts.{starting_in};
ghost use Rattle.flow_script.specs.Makers.{config_of, MakesShare, MakesStated};

use flow_terms::{Policy, Refusal};
use script_commands::{Source, SourceFlow};
use script_engines::{Subscriptions, Watched};
use script_run::{Object, Sourced};
use script_sharings::{ScriptSharing, Stated};
use script_words::Start;
use shared_core::Config;
use std::alloc::Global;
use std::sync::Wait;

/// How many subscriptions of a flow may be live at once, and how many of its emissions in flight.
const SEATS: u32 = 8;

/// What a name may stand for, where this is a shared flow.
pub(crate) type Kinds<'s, 'r, W, F> = Object<
    F,
    Watched,
    Subscriptions<'r, W>,
    ScriptSharing<'r, W, SourceFlow<'s>>,
    Stated<SourceFlow<'s>>,
>;

/// What a script's flows are made with.
pub(crate) fn config_of(replay: u64, extra: u64, policy: Policy) -> Config
    ensures { result ≡ config_of replay extra policy }
{
    Config {
        replay,
        extra,
        policy,
        subscribers: SEATS,
        emits: SEATS,
        first: 0,
    }
}

/// A shared flow into which a source will be emitted. Refused for its start's plan, then by its config, and then by `NoMemory`.
pub(crate) fn share<'s, 'r, W: Wait>(
    rt: &'r W,
    alloc: Global,
    config: Config,
    start: Start<'s>,
    source: Source<'s>,
) -> Result<Sourced<Subscriptions<'r, W>, ScriptSharing<'r, W, SourceFlow<'s>>>, Refusal>
    ensures { MakesShare config (starting_in start.entry) (origin_in source.entry) result }
{
    let started = start.started()?;
    let source = SourceFlow::new(alloc, source);
    let (flow, source) = ScriptSharing::new(rt, alloc, config, started, source)?;
    Ok(Sourced {
        shown: Subscriptions::new(rt, alloc, flow),
        source,
    })
}

/// A state with this value, which will be set from a source. Refused for the plan of its start, and then by `NoMemory`.
pub(crate) fn stated<'s>(
    alloc: Global,
    value: u64,
    start: Start<'s>,
    source: Source<'s>,
) -> Result<Sourced<Watched, Stated<SourceFlow<'s>>>, Refusal>
    ensures { MakesStated value (starting_in start.entry) (origin_in source.entry) result }
{
    let started = start.started()?;
    let (shown, seat) = Watched::stated(alloc, value)?;
    let source = SourceFlow::new(alloc, source);
    Ok(Sourced {
        shown,
        source: Stated::new(seat, value, started, source),
    })
}
