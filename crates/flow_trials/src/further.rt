//! The operators of `more_operators` over one source, with what they are given.
ghost use Rattle.std.specs.Prelude.{◌≡◌, ◌+◌, ◌*◌, ◌/◌, ◌%◌, ◌^◌, ◌==◌, ◌&&◌, Some, None, nat_lt, if◌then◌else◌};
ghost use Rattle.flow_terms.specs.declared.few.Few.TheVariants as few;
ghost use Rattle.more_operators.specs.declared.operators.onward.Onward.TheVariants.{More, Stop};
ghost use Rattle.flow_trials.specs.Digits.{next_digit, mark_of};

use crate::operators::Answer;
use crate::operators::checks::{Judged, compare_flow};
use crate::tools::{Sum, Trial};
use cold_flow::{Apply, Caught, Few, Flow, Refusal, catch_with, map};
use more_operators::{
    Act, Again, Chunk, Onward, chunked, distinct_by, drop_while, filter_map, on_each, on_empty,
    on_start, retry, retry_when, running_reduce, scan, take_while, transform_while, with_index,
};

/// An operator of `more_operators`.
pub(crate) enum Further {
    /// The sums from 0 on.
    Scan,
    OnEach,
    /// The values before the first that is 4 or more.
    TakeWhile,
    /// Again after each failure below 10, twice at most; a failure that is left finishes it.
    Retry,
    /// Again after a failure below 10 that at most one other came before, and so often at most; a failure that is left finishes it.
    RetryWhen(u32),
    /// Half of each even value.
    FilterMap,
    /// Ten times the number of each value, and the value.
    WithIndex,
    /// The values that are odd where the one before was even, or the other way.
    DistinctBy,
    /// The values from the first on that is 4 or more.
    DropWhile,
    /// The sums of the values.
    RunningReduce,
    /// 8 and 9 before the values.
    OnStart,
    /// 8 and 9 where there is none.
    OnEmpty,
    /// Nothing for 0, twice each value below 4, and once the first that is 4 or more.
    TransformWhile,
    /// Chunks of so many values, each as its length and three digits.
    Chunked(u32),
}

/// Below a number.
#[derive(Clone, Copy)]
pub(crate) struct IsBelow(pub(crate) u64);

impl Apply<u64> for IsBelow {
    type Out = bool;

    ghost gives = { λ f x. nat_lt x f.0 };

    fn apply(&self, argument: u64) -> bool {
        argument < self.0
    }
}

/// A fault below 10 that at most one other came before.
#[derive(Clone, Copy)]
struct IsEarly;

impl Again<u64> for IsEarly {
    ghost follows = { λ _ fault before. nat_lt fault 10 && nat_lt before 2 };

    fn is_followed(&self, fault: u64, before: u32) -> bool {
        fault < 10 && before < 2
    }
}

/// Half of an even number.
#[derive(Clone, Copy)]
struct Half;

impl Apply<u64> for Half {
    type Out = Option<u64>;

    ghost gives = { λ _ x. if x % 2 == 0 then Some (x / 2) else None };

    fn apply(&self, argument: u64) -> Option<u64> {
        if argument % 2 == 0 {
            Some(argument / 2)
        } else {
            None
        }
    }
}

/// Ten times the first number, and the second.
#[derive(Clone, Copy)]
struct Tens;

impl Apply<(u64, u64)> for Tens {
    type Out = u64;

    ghost gives = { λ _ x. ((x.0 * 10) % 2 ^ 64 + x.1) % 2 ^ 64 };

    fn apply(&self, argument: (u64, u64)) -> u64 {
        argument.0.wrapping_mul(10).wrapping_add(argument.1)
    }
}

/// The remainder by 2.
#[derive(Clone, Copy)]
struct Parity;

impl Apply<u64> for Parity {
    type Out = u64;

    ghost gives = { λ _ x. x % 2 };

    fn apply(&self, argument: u64) -> u64 {
        argument % 2
    }
}

/// Nothing for 0, twice each other number below 4, and once any other, which is the last.
#[derive(Clone, Copy)]
struct Twice;

impl Apply<u64> for Twice {
    type Out = Onward<u64>;

    ghost gives = { λ _ x. (if x == 0 then More few.Zero else (if nat_lt x 4 then More (few.Two x x) else Stop (few.One x))) };

    fn apply(&self, argument: u64) -> Onward<u64> {
        if argument == 0 {
            return Onward::More(Few::Zero);
        }
        if argument < 4 {
            return Onward::More(Few::Two(argument, argument));
        }
        Onward::Stop(Few::One(argument))
    }
}

// A number, and one more digit.
fn with_digit(number: u64, digit: Option<u64>) -> u64
    ensures { result ≡ next_digit number digit }
{
    number.wrapping_mul(10).wrapping_add(digit.unwrap_or(0))
}

/// How many values a chunk has, and the first three as digits behind that.
#[derive(Clone, Copy)]
struct Marked;

impl Apply<Chunk<u64>> for Marked {
    type Out = u64;

    ghost gives = { λ _ values. mark_of values };

    fn apply(&self, argument: Chunk<u64>) -> u64 {
        let two = with_digit(
            with_digit(u64::from(argument.len()), argument.get(0)),
            argument.get(1),
        );
        with_digit(two, argument.get(2))
    }
}

/// Counts how often it acts.
#[derive(Clone, Copy)]
struct Tally(u64);

impl Act<u64> for Tally {
    ghost acts = { λ old _ new. new.0 ≡ (old.0 + 1) % 2 ^ 64 };

    fn act(&mut self, _value: u64) {
        self.0 = self.0.wrapping_add(1);
    }
}

/// Compares one that answers each value by one at most.
fn compare_each<F: Flow<Item = u64, Fault = u64>>(
    trial: &mut Trial,
    operator: &Further,
    one: F,
    judged: &Judged<'_>,
) -> Result<(), Refusal> {
    match operator {
        Further::OnEach => compare_flow(trial, judged, on_each(one, Tally(0))),
        Further::TakeWhile => compare_flow(trial, judged, take_while(one, IsBelow(4))),
        Further::FilterMap => compare_flow(trial, judged, filter_map(one, Half)),
        Further::WithIndex => compare_flow(trial, judged, map(with_index(one), Tens)),
        Further::DistinctBy => compare_flow(trial, judged, distinct_by(one, Parity)),
        Further::DropWhile => compare_flow(trial, judged, drop_while(one, IsBelow(4))),
        _ => compare_flow(trial, judged, running_reduce(one, Sum)),
    }
}

/// Compares an operator over this source.
pub(crate) fn compare_further<F: Flow<Item = u64, Fault = u64> + Copy>(
    trial: &mut Trial,
    operator: &Further,
    one: F,
    judged: &Judged<'_>,
) -> Result<(), Refusal> {
    match operator {
        Further::Scan => compare_flow(trial, judged, scan(one, 0, Sum)),
        Further::Retry => {
            let retried = retry(one, 2, IsBelow(10));
            compare_flow(trial, judged, catch_with(retried, Answer(Caught::End)))
        }
        Further::RetryWhen(times) => {
            let retried = retry_when(one, *times, IsEarly);
            compare_flow(trial, judged, catch_with(retried, Answer(Caught::End)))
        }
        Further::OnStart => compare_flow(trial, judged, on_start(one, Few::Two(8, 9))),
        Further::OnEmpty => compare_flow(trial, judged, on_empty(one, Few::Two(8, 9))),
        Further::TransformWhile => compare_flow(trial, judged, transform_while(one, Twice)),
        Further::Chunked(size) => compare_flow(trial, judged, map(chunked(one, *size)?, Marked)),
        _ => compare_each(trial, operator, one, judged),
    }
}
