//! `drop_first`: all but the first values.

ghost use Rattle.std.specs.Prelude.{◌-◌, drop, IsTrue};
ghost use Rattle.cold_flow.specs.Trace.{on_values};
ghost use Rattle.cold_flow.specs.Poll.{Makes, MakesExactly, IsWithinPolls};

use crate::flow::Flow;
use crate::operators::sift::{Sift, Sifted};

/// Leaves out the first values.
#[derive(Clone, Copy)]
pub struct Skipping {
    // How many values are still to be left out.
    left: u32,
}

/// All but the first `count` values of `source`: Kotlin's `drop`.
///
/// Where the source has no more, it gives none. After 64 values that were left out a poll yields. Any end of the source passes, a
/// failure too. Cancelled, it cancels the source and ends by `Cause::Cancelled`.
pub fn drop_first<F: Flow>(source: F, count: u32) -> Sifted<F, Skipping>
    ensures gives { Makes (on_values (drop count)) (F.may source) (⟦<Sifted<F, Skipping> as Flow>⟧.may result) }
    ensures exact { MakesExactly (on_values (drop count)) (F.may source) (⟦<Sifted<F, Skipping> as Flow>⟧.may result) }
    ensures lasts { IsWithinPolls (F.polls source) (⟦<Sifted<F, Skipping> as Flow>⟧.polls result) }
    ensures starts { IsTrue (F.starts source) → IsTrue (⟦<Sifted<F, Skipping> as Flow>⟧.starts result) }
{
    Sifted::new(source, Skipping { left: count })
}

impl<T: Copy> Sift<T> for Skipping {
    ghost use Rattle.cold_flow.specs.SiftLaws.{keeps_after, drop-step, drop-none};

    type Out = T;

    ghost passes = { λ s. drop s.left };

    ghost keeps = { λ s. keeps_after s.left };

    ghost after = { λ s _. record { left = s.left - 1 } };

    fn sift(&mut self, value: T) -> Option<T> {
        if self.left == 0 {
            return Some(value);
        }
        self.left -= 1;
        None
    }

    ghost none = { λ s. drop-none s.left };

    ghost step = { λ s. drop-step s.left };
}
