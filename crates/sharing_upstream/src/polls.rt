//! What a strategy commands over any list of polls.
ghost use Rattle.std.specs.Prelude.{◌≡◌, length, map, reverse};
ghost use Rattle.sharing_upstream.specs.Strategies.{commands, look_of};
ghost use Rattle.sharing_upstream.specs.Shown.{started_by, Shows};

use crate::strategy::Strategy;
use flow_terms::{Command, Started};

/// Hands these polls, each a moment and a count, to a new strategy, and writes down what each one commands: what
/// the definition says of the list of all polls up to that one.
pub fn commands_of(
    started: Started,
    polls: &[(u64, u32)],
    answers: &mut [Option<Command>],
) -> Strategy
    requires { length answers.old ≡ length polls.now }
    ensures commands { answers.new ≡ commands started (map look_of polls.now) }
    ensures started { started_by result ≡ started }
    ensures shows { Shows result (reverse (map look_of polls.now)) }
{
    let mut strategy = Strategy::new(started);
    for (index, poll) in polls.iter().enumerate() {
        answers[index] = strategy.step(poll.0, poll.1);
    }
    strategy
}
