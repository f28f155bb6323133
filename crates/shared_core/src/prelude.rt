//! What a subscription is handed for itself alone.

ghost use Rattle.std.specs.Prelude.{◌≡◌, ◌↔◌, ◌<◌, ◌≤◌, ⊤, [], length, take, drop, slice_get, IsOk, IfOk, IfErr};
ghost use Rattle.flow_terms.specs.Few.{values_of};
ghost use Rattle.flow_terms.specs.declared.refusal.Refusal.TheVariants.{PreludeTooLong};
ghost use Rattle.shared_core.specs.Preludes.{prelude_values};

use flow_terms::{Few, Refusal};
use std::alloc::AllocError;

/// The most values of a prelude.
const LONGEST: usize = 16;

/// Up to 16 values that a subscription receives before any value of the flow: what the action of Kotlin's `onSubscription`
/// emits. It takes no memory.
#[derive(Copy)]
pub struct Prelude<T> {
    /// Its first values.
    first: Few<T>,
    /// Those after these.
    second: Few<T>,
    third: Few<T>,
    fourth: Few<T>,
}

impl<T: Copy> Clone for Prelude<T> {
    ghost is_clone = { λ it copy. copy ≡ it };

    ghost is_infallible = { λ _. ⊤ };

    fn clone(&self) -> Result<Prelude<T>, AllocError> {
        Ok(*self)
    }
}

/// The values from this index on, four at most.
fn few_from<T: Copy>(values: &[T], from: usize) -> Few<T>
    requires { from ≤ 12 }
    ensures { values_of result ≡ take 4 (drop from values.now) }
{
    let Some(first) = values.get(from) else {
        return Few::Zero;
    };
    let Some(second) = values.get(from + 1) else {
        return Few::One(*first);
    };
    let Some(third) = values.get(from + 2) else {
        return Few::Two(*first, *second);
    };
    let Some(fourth) = values.get(from + 3) else {
        return Few::Three(*first, *second, *third);
    };
    Few::Four(*first, *second, *third, *fourth)
}

/// How many values these are.
fn few_len<T: Copy>(few: &Few<T>) -> u32
    ensures count { result ≡ length (values_of few.now) }
    ensures bound { result ≤ 4 }
{
    match few {
        Few::Zero => 0,
        Few::One(_) => 1,
        Few::Two(_, _) => 2,
        Few::Three(_, _, _) => 3,
        Few::Four(_, _, _, _) => 4,
    }
}

/// The one of these values at this index.
fn few_at<T: Copy>(few: &Few<T>, index: u32) -> Option<T>
    ensures { result ≡ slice_get (values_of few.now) index }
{
    match *few {
        Few::Zero => None,
        Few::One(first) => match index {
            0 => Some(first),
            _ => None,
        },
        Few::Two(first, second) => match index {
            0 => Some(first),
            1 => Some(second),
            _ => None,
        },
        Few::Three(first, second, third) => match index {
            0 => Some(first),
            1 => Some(second),
            2 => Some(third),
            _ => None,
        },
        Few::Four(first, second, third, fourth) => match index {
            0 => Some(first),
            1 => Some(second),
            2 => Some(third),
            3 => Some(fourth),
            _ => None,
        },
    }
}

impl<T: Copy> Prelude<T> {
    /// The prelude of these values. Refused as `PreludeTooLong` where there are over 16.
    pub fn of(values: &[T]) -> Result<Prelude<T>, Refusal>
        ensures held { IfOk result (λ prelude. prelude_values prelude ≡ values.now) }
        ensures fits { IsOk result ↔ (length values.now ≤ 16) }
        ensures refused { IfErr result (λ refusal. refusal ≡ PreludeTooLong) }
    {
        if values.len() > LONGEST {
            return Err(Refusal::PreludeTooLong);
        }
        Ok(Prelude {
            first: few_from(values, 0),
            second: few_from(values, 4),
            third: few_from(values, 8),
            fourth: few_from(values, 12),
        })
    }

    /// One without values, as `subscribe` hands it in.
    pub fn empty() -> Prelude<T>
        ensures { prelude_values result ≡ [] }
    {
        Prelude {
            first: Few::Zero,
            second: Few::Zero,
            third: Few::Zero,
            fourth: Few::Zero,
        }
    }

    /// How many values it has, 16 at most.
    pub fn len(&self) -> u32
        ensures count { result ≡ length (prelude_values self.now) }
        ensures bound { result ≤ 16 }
    {
        few_len(&self.first) + few_len(&self.second) + few_len(&self.third) + few_len(&self.fourth)
    }

    /// The value at this index, counted from 0.
    pub fn at(&self, index: u32) -> T
        requires { index < length (prelude_values self.now) }
        ensures { slice_get (prelude_values self.now) index ≡ Some result }
    {
        if let Some(value) = few_at(&self.first, index) {
            return value;
        }
        let after_first = index - few_len(&self.first);
        if let Some(value) = few_at(&self.second, after_first) {
            return value;
        }
        let after_second = after_first - few_len(&self.second);
        if let Some(value) = few_at(&self.third, after_second) {
            return value;
        }
        few_at(&self.fourth, after_second - few_len(&self.third)).unwrap()
    }
}
