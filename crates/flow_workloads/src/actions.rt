//! What the operators of chains do with values.

ghost use Rattle.std.specs.Prelude.{◌+◌, ◌*◌, ◌%◌, ◌^◌, ◌/◌, nat_lt, Some};
ghost use Rattle.flow_terms.specs.declared.few.Few.TheVariants.{Two};
ghost use Rattle.cold_flow.specs.declared.operators.catch_with.Caught.TheVariants.{Last};

use cold_flow::{Apply, Caught, Cause, Few};

/// What a mixing multiplies by.
const FACTOR: u64 = 0x517c_c1b7_2722_0a95;

/// Adds an amount, modulo 2^64.
#[derive(Clone, Copy)]
pub(crate) struct Adds(pub(crate) u64);

impl Apply<u64> for Adds {
    type Out = u64;

    ghost gives = { λ action value. (value + action.0) % 2 ^ 64 };

    fn apply(&self, argument: u64) -> u64 {
        argument.wrapping_add(self.0)
    }
}

/// The half of a value.
#[derive(Clone, Copy)]
pub(crate) struct Halves;

impl Apply<u64> for Halves {
    type Out = u64;

    ghost gives = { λ _ value. value / 2 };

    fn apply(&self, argument: u64) -> u64 {
        argument / 2
    }
}

/// Whether a value has a rest over seven by eight.
#[derive(Clone, Copy)]
pub(crate) struct IsSeldom;

impl Apply<u64> for IsSeldom {
    type Out = bool;

    ghost gives = { λ _ value. nat_lt 2 (value % 8) };

    fn apply(&self, argument: u64) -> bool {
        2 < argument % 8
    }
}

/// A value, and the one after it, modulo 2^64.
#[derive(Clone, Copy)]
pub(crate) struct Pairs;

impl Apply<u64> for Pairs {
    type Out = Few<u64>;

    ghost gives = { λ _ value. Two value ((value + 1) % 2 ^ 64) };

    fn apply(&self, argument: u64) -> Few<u64> {
        Few::Two(argument, argument.wrapping_add(1))
    }
}

/// The sum of two values, modulo 2^64.
#[derive(Clone, Copy)]
pub(crate) struct Sum;

impl Apply<(u64, u64)> for Sum {
    type Out = u64;

    ghost gives = { λ _ pair. (pair.0 + pair.1) % 2 ^ 64 };

    fn apply(&self, argument: (u64, u64)) -> u64 {
        argument.0.wrapping_add(argument.1)
    }
}

/// Takes a value into a digest of those before it.
#[derive(Clone, Copy)]
pub(crate) struct Mixes;

impl Apply<(u64, u64)> for Mixes {
    ghost use Rattle.flow_workloads.specs.declared.actions.TheConstants.{FACTOR};

    type Out = u64;

    ghost gives = { λ _ pair. (pair.0 * FACTOR % 2 ^ 64 + pair.1) % 2 ^ 64 };

    fn apply(&self, argument: (u64, u64)) -> u64 {
        argument.0.wrapping_mul(FACTOR).wrapping_add(argument.1)
    }
}

/// A last value in place of a fault: the fault itself.
#[derive(Clone, Copy)]
pub(crate) struct Recovers;

impl Apply<u64> for Recovers {
    type Out = Caught<u64, u64>;

    ghost gives = { λ _ fault. Last fault };

    fn apply(&self, argument: u64) -> Caught<u64, u64> {
        Caught::Last(argument)
    }
}

/// A last value after any end.
#[derive(Clone, Copy)]
pub(crate) struct Concludes(pub(crate) u64);

impl Apply<Cause<u64>> for Concludes {
    type Out = Option<u64>;

    ghost gives = { λ action _. Some action.0 };

    fn apply(&self, _argument: Cause<u64>) -> Option<u64> {
        Some(self.0)
    }
}
