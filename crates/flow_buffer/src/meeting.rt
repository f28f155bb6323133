//! What both sides of a buffer between two threads know once they meet.

ghost use Rattle.std.specs.Prelude.{◌≡◌, ◌≢◌, ◌+◌, map, false, length, Option, None};
ghost use Rattle.cold_flow.specs.Polled.{WasCancelled};
ghost use Rattle.flow_buffer.specs.Channel.{Agree};
ghost use Rattle.flow_buffer.specs.Sides.{drops};
ghost use Rattle.flow_buffer.specs.Views.{upstream_of, feeding};

use crate::drain::Drain;
use crate::feed::Feed;
use cold_flow::Run;

/// Brings a feed and its drain together, once their threads have let them go, and spends both. The upstream is cancelled.
///
/// They tell of one history: the feed of what was produced and dropped in it, the drain of what was taken, and the
/// drain's end is the one that the feed sent. Then taken and dropped values are all that were produced, and none waits;
/// under `Policy::Suspend` the taken ones are the produced ones, in order.
pub fn agree<U: Run>(feed: Feed<U>, drain: Drain<U::Item, U::Fault>)
    requires { drain.channel ≡ (feeding feed).channel }
    ensures source { WasCancelled U.cancelled U.stopped (upstream_of feed) }
    ensures agree { Agree (feeding feed).produced (feeding feed).sent drain.taken drain.end drain.history }
    ensures put { drain.end ≢ None → (feeding feed).waiting ≡ None }
    ensures all { drain.end ≢ None → length drain.taken + drops (feeding feed).produced ≡ length (feeding feed).produced }
    ensures whole { drain.end ≢ None → drain.lossy ≡ false → map (λ e. e.1) drain.taken ≡ map (λ e. e.1) (feeding feed).produced }
{
    let Feed {
        mut upstream,
        inlet,
    } = feed;
    upstream.cancel();
    inlet.meet(drain);
}
