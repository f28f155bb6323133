//! Operators over three sources, and what is compared of their runs.
ghost use Rattle.flow_trials.specs.Digits.{digits};
ghost use Rattle.std.specs.Prelude.{◌≡◌, ⊤};

pub(crate) mod checks;

use crate::cold_rows::{Asked, IsAbove};
use crate::further::{Further, compare_further};
use crate::sources::{Counts, Source};
use crate::tools::{Add, Pick, Same, Sum, Trial};
use checks::{Check, Judged, Three, compare_flow};
use cold_flow::{
    Apply, Caught, Few, Flow, Policy, Refusal, Step, catch_with, distinct, drop_first, filter, map,
    on_completion, range, take, transform,
};
use flow_buffer::{buffer, conflate};
use flow_merge::{combine, flat_map_concat, flat_map_merge, zip};
use more_merges::{ApplyAll, combine_all, flat_map_latest, merge, merge_all};
use std::alloc::{AllocError, AllocGlobal, Global};
use std::cell::Cell;
use std::process::Abort;
use std::random::RandomSource;
use std::test::Fail;

/// Any failure becomes a given answer.
#[derive(Copy)]
pub(crate) struct Answer(pub(crate) Caught<u64, u64>);

impl Clone for Answer {
    ghost is_clone = { λ function copy. copy ≡ function };

    ghost is_infallible = { λ _. ⊤ };

    fn clone(&self) -> Result<Self, AllocError> {
        Ok(*self)
    }
}

impl Apply<u64> for Answer {
    type Out = Caught<u64, u64>;

    ghost gives = { λ f _. f.0 };

    fn apply(&self, _argument: u64) -> Caught<u64, u64> {
        self.0
    }
}

/// The first three values, as the digits of a number.
#[derive(Copy)]
struct AsDigits;

impl Clone for AsDigits {
    ghost is_clone = { λ function copy. copy ≡ function };

    ghost is_infallible = { λ _. ⊤ };

    fn clone(&self) -> Result<Self, AllocError> {
        Ok(*self)
    }
}

impl ApplyAll<u64> for AsDigits {
    type Out = u64;

    ghost gives = { λ _. digits };

    fn apply_all(&self, values: &[u64]) -> u64 {
        match values {
            [hundreds, tens, ones] => hundreds
                .wrapping_mul(100)
                .wrapping_add(tens.wrapping_mul(10))
                .wrapping_add(*ones),
            _ => 0,
        }
    }
}

/// An operator over the first source, or over several.
pub(crate) enum Operator {
    Completion,
    Catch,
    /// Two values, none of them the same as the one before.
    TakeDistinct,
    /// One more than each value.
    Map,
    /// The values above 0.
    Filter,
    /// All values but the first.
    DropFirst,
    Distinct,
    /// Two values for each.
    Transform,
    /// With two places.
    Buffer,
    Conflate,
    Zip,
    Combine,
    /// The inner flow is the second source for the value 0, and the third for any other.
    Concat,
    /// The same, by so many workers.
    Merge(u32),
    /// A merge of so many inner flows by so many workers: the first source, the second, and from then on the third.
    Turns(u64, u32),
    /// The inner flow of the latest value, which is the second source for the value 0, and the third for any other.
    Latest,
    /// The first two sources at once.
    Pair,
    /// All three at once.
    All,
    /// The latest values of all three, as digits.
    Digits,
    /// One of `more_operators`, over the first source.
    More(Further),
}

/// Compares an operator that has no end of its own.
fn compare_plain<F: Flow<Item = u64, Fault = u64> + Copy>(
    trial: &mut Trial,
    operator: &Operator,
    one: F,
    judged: &Judged<'_>,
) -> Result<(), Refusal> {
    match operator {
        Operator::Map => compare_flow(trial, judged, map(one, Add(1))),
        Operator::Filter => compare_flow(trial, judged, filter(one, IsAbove(0))),
        Operator::DropFirst => compare_flow(trial, judged, drop_first(one, 1)),
        Operator::Distinct => compare_flow(trial, judged, distinct(one)),
        _ => compare_flow(trial, judged, transform(one, Same(Few::Two(7, 8)))),
    }
}

/// Compares an operator over one source.
fn compare_one<F: Flow<Item = u64, Fault = u64> + Copy>(
    trial: &mut Trial,
    operator: &Operator,
    one: F,
    judged: &Judged<'_>,
) -> Result<(), Refusal> {
    match operator {
        Operator::Catch => compare_flow(trial, judged, catch_with(one, Answer(Caught::Last(9)))),
        Operator::TakeDistinct => compare_flow(trial, judged, take(distinct(one), 2)?),
        Operator::More(further) => compare_further(trial, further, one, judged),
        Operator::Conflate => compare_flow(trial, judged, conflate(trial.alloc, one)),
        Operator::Buffer => {
            let held = buffer(trial.alloc, one, 2, Policy::Suspend)?;
            compare_flow(trial, judged, held)
        }
        Operator::Completion => {
            let asks = Cell::new(0);
            let action = Asked {
                asks: &asks,
                last: Some(9),
            };
            compare_flow(trial, judged, on_completion(one, action))
        }
        _ => compare_plain(trial, operator, one, judged),
    }
}

/// A list of these sources.
fn sides<F: Copy>(alloc: Global, sources: (F, F, F)) -> Result<Vec<F>, AllocError> {
    let (one, two, three) = sources;
    let mut flows = Vec::with_capacity(alloc, 3)?;
    flows.push(one)?;
    flows.push(two)?;
    flows.push(three)?;
    Ok(flows)
}

/// The same, made once more where memory is refused, as under `rt try --test --fail-alloc N`.
fn sides_again<F: Copy>(alloc: Global, sources: (F, F, F)) -> Result<Vec<F>, AllocError> {
    match sides(alloc, sources) {
        Err(_) => sides(alloc, sources),
        flows => flows,
    }
}

/// Compares a flow of `more_merges` over these sources.
fn compare_merged<F: Flow<Item = u64, Fault = u64> + Copy>(
    trial: &mut Trial,
    operator: &Operator,
    sources: (F, F, F),
    judged: &Judged<'_>,
) -> Result<(), Refusal> {
    let (one, two, three) = sources;
    match operator {
        Operator::Latest => {
            let inner = Pick {
                zero: two,
                one: three,
                other: three,
            };
            compare_flow(trial, judged, flat_map_latest(one, inner))
        }
        Operator::Pair => compare_flow(trial, judged, merge(one, two)),
        Operator::All => {
            let flows = sides_again(trial.alloc, sources)?;
            compare_flow(trial, judged, merge_all(trial.alloc, flows))
        }
        _ => {
            let flows = sides_again(trial.alloc, sources)?;
            compare_flow(trial, judged, combine_all(trial.alloc, flows, AsDigits))
        }
    }
}

/// Compares an operator over these sources.
pub(crate) fn compare_operator<F: Flow<Item = u64, Fault = u64> + Copy>(
    trial: &mut Trial,
    operator: &Operator,
    sources: (F, F, F),
    judged: &Judged<'_>,
) -> Result<(), Refusal> {
    let (one, two, three) = sources;
    let inner = Pick {
        zero: two,
        one: three,
        other: three,
    };
    match operator {
        Operator::Zip => compare_flow(trial, judged, zip(one, two, Sum)),
        Operator::Combine => compare_flow(trial, judged, combine(one, two, Sum)),
        Operator::Concat => compare_flow(trial, judged, flat_map_concat(one, inner)),
        Operator::Latest | Operator::Pair | Operator::All | Operator::Digits => {
            compare_merged(trial, operator, sources, judged)
        }
        Operator::Merge(workers) => {
            let merged = flat_map_merge(trial.alloc, one, inner, *workers)?;
            compare_flow(trial, judged, merged)
        }
        Operator::Turns(flows, workers) => {
            let inner = Pick {
                zero: one,
                one: two,
                other: three,
            };
            let merged = flat_map_merge(trial.alloc, range::<u64>(0, *flows), inner, *workers)?;
            compare_flow(trial, judged, merged)
        }
        _ => compare_one(trial, operator, one, judged),
    }
}

/// An operator over sources of these steps, before how many starts of each one finds no memory, and what is compared.
pub(crate) struct Case<'a> {
    pub name: &'a str,
    pub operator: Operator,
    pub sources: [&'a [Step<u64, u64>]; 3],
    pub before: (u32, u32, u32),
    pub check: Check<'a>,
}

fn compare_case(trial: &mut Trial, case: &Case<'_>) -> Result<(), Refusal> {
    let (first, second, third) = case.before;
    let counts = Three {
        one: Counts::new(first),
        two: Counts::new(second),
        three: Counts::new(third),
    };
    let [one, two, three] = case.sources;
    let sources = (
        Source {
            steps: one,
            counts: &counts.one,
        },
        Source {
            steps: two,
            counts: &counts.two,
        },
        Source {
            steps: three,
            counts: &counts.three,
        },
    );
    let judged = Judged {
        name: case.name,
        check: &case.check,
        counts: &counts,
    };
    compare_operator(trial, &case.operator, sources, &judged)
}

/// Fails where a case isn't as its table says.
pub(crate) fn assert_cases<R: Abort + RandomSource + AllocGlobal>(
    rt: &R,
    cases: &[Case<'_>],
) -> Result<(), Fail> {
    let mut trial = Trial::new(rt)?;
    for case in cases {
        compare_case(&mut trial, case)?;
    }
    trial.assert_none(rt);
    Ok(())
}
