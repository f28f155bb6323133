//! A caller of a chain over a subscription: Kotlin's `news.filter { it % 2 == 0 }.map { it / 2 }.take(5).toList()`.

ghost use Rattle.std.specs.Prelude.{◌≡◌, ◌==◌, ◌/◌, ◌%◌, ◌^◌, OnOk};
ghost use Rattle.source_callers.specs.Halves.{TookFiveHalves};

use cold_flow::Apply;
use flow_terms::{Refusal, Word};
use hot_sources::{Parker, filter, map, receiving, take_of};
use shared_flow::Subscription;
use std::sync::Wait;

/// Whether a number is even.
#[derive(Clone, Copy)]
pub struct Even;

impl Apply<u64> for Even {
    type Out = bool;

    ghost gives = { λ _ n. n % 2 == 0 };

    fn apply(&self, argument: u64) -> bool {
        argument % 2 == 0
    }
}

/// Half of a number.
#[derive(Clone, Copy)]
pub struct Half;

impl Apply<u64> for Half {
    type Out = u64;

    ghost gives = { λ _ n. n / 2 };

    fn apply(&self, argument: u64) -> u64 {
        argument / 2
    }
}

/// Adds the halves of the next five even numbers that `news` receives to `out`, for which the thread sleeps: of what it received
/// meanwhile just those, in order. `news` goes on afterwards, with the value behind the last of them.
///
/// Refused as `NoMemory`.
pub fn five_halves<W: Wait>(
    rt: &W,
    parker: &mut Parker,
    news: &mut Subscription<u64>,
    out: &mut Vec<u64>,
) -> Result<(), Refusal>
    ensures { OnOk result (TookFiveHalves ⟦<u64 as Word>⟧.read_as news.old out.old.items out.new.items news.new) }
{
    let mut chain = map(filter(receiving::<(), _, _>(news, rt), Even), Half);
    match take_of(rt, parker, &mut chain, 5, out)? {
        None => Ok(()),
        // A subscription never ends of itself.
        Some(_cause) => unreachable!(),
    }
}
