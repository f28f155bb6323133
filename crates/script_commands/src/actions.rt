//! What the stages of a pipe do with values, faults and ends.

ghost use Rattle.script_commands.specs.Inners.{inner_flow};
ghost use Rattle.script_commands.specs.Piping.{plus, is_even, both, sum};
ghost use Rattle.std.specs.Prelude.{Some};

use crate::inner::Inner;
use cold_flow::{Apply, Caught, Cause, Few};

/// Adds an amount, modulo 2^64.
#[derive(Clone, Copy)]
pub struct Adding(pub u64);

impl Apply<u64> for Adding {
    type Out = u64;

    ghost gives = { λ action value. plus action.0 value };

    fn apply(&self, argument: u64) -> u64 {
        argument.wrapping_add(self.0)
    }
}

/// Whether a value is even.
#[derive(Clone, Copy)]
pub struct IsEven;

impl Apply<u64> for IsEven {
    type Out = bool;

    ghost gives = { λ _ value. is_even value };

    fn apply(&self, argument: u64) -> bool {
        argument % 2 == 0
    }
}

/// Each value two times.
#[derive(Clone, Copy)]
pub struct Twice;

impl Apply<u64> for Twice {
    type Out = Few<u64>;

    ghost gives = { λ _ value. both value };

    fn apply(&self, argument: u64) -> Few<u64> {
        Few::Two(argument, argument)
    }
}

/// Ends by the same, whatever the fault is.
#[derive(Clone, Copy)]
pub struct Recovering(pub Caught<u64, u64>);

impl Apply<u64> for Recovering {
    type Out = Caught<u64, u64>;

    ghost gives = { λ action _. action.0 };

    fn apply(&self, _argument: u64) -> Caught<u64, u64> {
        self.0
    }
}

/// Gives the same last value, whatever the cause is.
#[derive(Clone, Copy)]
pub struct Concluding(pub u64);

impl Apply<Cause<u64>> for Concluding {
    type Out = Option<u64>;

    ghost gives = { λ action _. Some action.0 };

    fn apply(&self, _argument: Cause<u64>) -> Option<u64> {
        Some(self.0)
    }
}

/// The sum of two values, modulo 2^64.
#[derive(Clone, Copy)]
pub struct Sum;

impl Apply<(u64, u64)> for Sum {
    type Out = u64;

    ghost gives = { λ _ values. sum values };

    fn apply(&self, argument: (u64, u64)) -> u64 {
        argument.0.wrapping_add(argument.1)
    }
}

/// The inner flow of a value: it and the next number, modulo 2^64, or it alone and then this fault.
#[derive(Clone, Copy)]
pub struct IntoInner(pub Option<u64>);

impl Apply<u64> for IntoInner {
    type Out = Inner;

    ghost gives = { λ action value. inner_flow action.0 value };

    fn apply(&self, argument: u64) -> Inner {
        match self.0 {
            None => Inner {
                values: Few::Two(argument, argument.wrapping_add(1)),
                fault: None,
            },
            Some(fault) => Inner {
                values: Few::One(argument),
                fault: Some(fault),
            },
        }
    }
}
