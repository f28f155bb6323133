//! `with_index`: each value with its number.

ghost use Rattle.std.specs.Prelude.{◌+◌, ◌%◌, ◌^◌, refl, IsTrue};
ghost use Rattle.cold_flow.specs.Trace.{on_values};
ghost use Rattle.cold_flow.specs.Poll.{Makes, MakesExactly, IsWithinPolls};
ghost use Rattle.more_operators.specs.Numbered.{numbered_from, numbers_one};

use cold_flow::{Flow, Sift, Sifted};

/// Passes on each value with its number.
#[derive(Clone, Copy)]
pub struct Numbering {
    // The number of the next value.
    next: u64,
}

/// Each value of `source` with its number, from 0 on, modulo 2^64: Kotlin's `withIndex`.
///
/// Any end of the source passes, a failure too. Cancelled, it cancels the source and ends by `Cause::Cancelled`.
pub fn with_index<F: Flow>(source: F) -> Sifted<F, Numbering>
    ensures gives { Makes (on_values (numbered_from 0)) (F.may source) (⟦<Sifted<F, Numbering> as Flow>⟧.may result) }
    ensures exact { MakesExactly (on_values (numbered_from 0)) (F.may source) (⟦<Sifted<F, Numbering> as Flow>⟧.may result) }
    ensures lasts { IsWithinPolls (F.polls source) (⟦<Sifted<F, Numbering> as Flow>⟧.polls result) }
    ensures starts { IsTrue (F.starts source) → IsTrue (⟦<Sifted<F, Numbering> as Flow>⟧.starts result) }
{
    Sifted::new(source, Numbering { next: 0 })
}

impl<T: Copy> Sift<T> for Numbering {
    type Out = (u64, T);

    ghost passes = { λ s. numbered_from s.next };

    ghost keeps = { λ s. numbers_one s.next };

    ghost after = { λ s _. record { next = (s.next + 1) % 2 ^ 64 } };

    fn sift(&mut self, value: T) -> Option<(u64, T)> {
        let number = self.next;
        self.next = number.wrapping_add(1);
        Some((number, value))
    }

    ghost none = { λ _. refl };

    ghost step = { λ _ _ _. refl };
}
