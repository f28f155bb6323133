//! What a tick comes to.

ghost use Rattle.std.specs.Prelude.{◌≡◌};
ghost use Rattle.script_sharings.specs.Ticks.{ticked, turned};

use cold_flow::Cause;
use flow_sharing::Polled;
use flow_terms::Refusal;
use script_calls::Ticked;

/// What a poll that was answered so comes to, where the sharing keeps this fault after it.
pub(crate) fn ticked(polled: Result<Polled, Refusal>, fault: Option<Cause<u64>>) -> Ticked
    ensures { result ≡ ticked polled fault }
{
    match (polled, fault) {
        (Err(refusal), _) => Ticked::Refused(refusal),
        (Ok(_), Some(Cause::Failed(fault))) => Ticked::Failed(fault),
        (Ok(_), Some(Cause::Refused(refusal))) => Ticked::Refused(refusal),
        (Ok(polled), _) => turned(polled.on),
    }
}

fn turned(on: bool) -> Ticked
    ensures { result ≡ turned on }
{
    if on { Ticked::On } else { Ticked::Off }
}
