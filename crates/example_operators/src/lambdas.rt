//! What the operators of the example are given: Kotlin's lambdas.

ghost use Rattle.std.specs.Prelude.{◌≡◌, ◌+◌, ◌/◌, ◌%◌, ◌^◌, ◌==◌, Some, None, nat_lt, if◌then◌else◌};

use cold_flow::Apply;
use more_operators::Act;

/// Kotlin's `{ sum, value -> sum + value }`, modulo 2^64.
#[derive(Clone, Copy)]
pub struct Add;

impl Apply<(u64, u64)> for Add {
    type Out = u64;

    ghost gives = { λ _ pair. (pair.0 + pair.1) % 2 ^ 64 };

    fn apply(&self, pair: (u64, u64)) -> u64 {
        pair.0.wrapping_add(pair.1)
    }
}

/// Kotlin's `{ it < limit }`.
#[derive(Clone, Copy)]
pub struct Below {
    pub limit: u64,
}

impl Apply<u64> for Below {
    type Out = bool;

    ghost gives = { λ below value. nat_lt value below.limit };

    fn apply(&self, value: u64) -> bool {
        value < self.limit
    }
}

/// Kotlin's `{ if (it % 2 == 0) it / 2 else null }`.
#[derive(Clone, Copy)]
pub struct Half;

impl Apply<u64> for Half {
    type Out = Option<u64>;

    ghost gives = { λ _ value. if value % 2 == 0 then Some (value / 2) else None };

    fn apply(&self, value: u64) -> Option<u64> {
        if value % 2 == 0 {
            Some(value / 2)
        } else {
            None
        }
    }
}

/// Kotlin's `{ count++ }`: how many values came, modulo 2^64.
#[derive(Clone, Copy)]
pub struct Tally {
    pub count: u64,
}

impl Act<u64> for Tally {
    ghost acts = { λ old _ new. new.count ≡ (old.count + 1) % 2 ^ 64 };

    fn act(&mut self, _value: u64) {
        self.count = self.count.wrapping_add(1);
    }
}
