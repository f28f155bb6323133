//! A caller of a sharing strategy.
ghost use Rattle.std.specs.Prelude.{◌≡◌, Some};
ghost use Rattle.flow_terms.specs.declared.command.Command.TheVariants.{Start, Stop, StopAndReset};

use sharing_upstream::{Command, Started, Strategy};

/// What a strategy commands that stops 100 milliseconds after the last subscription and resets 50 later: a subscription comes at 10, is
/// gone at 1000, and the polls at 1100 and 1150 stop and reset.
pub fn comes_and_goes() -> (Option<Command>, Option<Command>, Option<Command>)
    ensures started { result.0 ≡ Some Start }
    ensures stopped { result.1 ≡ Some Stop }
    ensures reset { result.2 ≡ Some StopAndReset }
{
    let started = Started::WhileSubscribed {
        stop: 100,
        expire: Some(50),
    };
    let mut strategy = Strategy::new(started);
    let came = strategy.step(10, 1);
    strategy.step(1000, 0);
    let stopped = strategy.step(1100, 0);
    let reset = strategy.step(1150, 0);
    (came, stopped, reset)
}
