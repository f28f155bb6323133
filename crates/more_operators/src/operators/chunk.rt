//! Up to 16 values, as one that is copied.

ghost use Rattle.std.specs.Prelude.{◌≡◌, ◌+◌, ◌<◌, ◌≤◌, [], ◌∷◌, ◌++◌, length, slice_get, IfOk, IfErr, ⊤};
ghost use Rattle.flow_terms.specs.Few.{values_of, few_len};

use cold_flow::Few;
use std::alloc::{AllocError, Allocator};
use std::marker::Model;

/// The most values of a chunk.
pub const LONGEST: u32 = 16;

/// One to 16 values in order: what `chunked` gives, where Kotlin gives a list. It takes no memory.
#[derive(Copy)]
pub struct Chunk<T> {
    /// Its first values, by fours.
    fours: Few<(T, T, T, T)>,
    /// Those after these: one to four.
    rest: Few<T>,
}

impl<T> Model for Chunk<T> {
    ghost use Rattle.std.specs.Prelude.{◌≤◌, ◌<◌, ◌++◌, List};
    ghost use Rattle.flow_terms.specs.Few.{values_of, few_len};

    ghost Value = { List T };

    ghost use Rattle.more_operators.specs.ChunkLaws.{values_by_four, fours_of, rest_of, parts_again};

    ghost view = { λ c. values_by_four c.fours ++ values_of c.rest };

    ghost invariant = { λ c. (few_len c.fours ≤ 3) × (0 < few_len c.rest) };

    ghost inverse = { λ xs. record { fours = fours_of xs; rest = rest_of xs } };

    ghost inverse_ok = { λ c h. parts_again c h.0 h.1 };
}

impl<T: Copy> Clone for Chunk<T> {
    ghost is_clone = { λ it copy. copy ≡ it };

    ghost is_infallible = { λ _. ⊤ };

    fn clone(&self) -> Result<Chunk<T>, AllocError> {
        Ok(*self)
    }
}

// One more after these.
fn with_last<U: Copy>(few: Few<U>, value: U) -> Few<U>
    requires { few_len few ≤ 3 }
    ensures values { values_of result ≡ values_of few ++ value ∷ [] }
    ensures count { few_len result ≡ few_len few + 1 }
{
    match few {
        Few::Zero => Few::One(value),
        Few::One(first) => Few::Two(first, value),
        Few::Two(first, second) => Few::Three(first, second, value),
        Few::Three(first, second, third) | Few::Four(first, second, third, _) => Few::Four(
            first, second, third, value,
        ),
    }
}

// How many these are.
fn count_of<U: Copy>(few: &Few<U>) -> u32
    ensures { result ≡ few_len few.now }
{
    match few {
        Few::Zero => 0,
        Few::One(..) => 1,
        Few::Two(..) => 2,
        Few::Three(..) => 3,
        Few::Four(..) => 4,
    }
}

// The one of these at this index.
fn value_at<U: Copy>(few: &Few<U>, index: u32) -> Option<U>
    ensures { result ≡ slice_get (values_of few.now) index }
{
    match (*few, index) {
        (
            Few::One(value)
            | Few::Two(value, _)
            | Few::Three(value, _, _)
            | Few::Four(value, _, _, _),
            0,
        ) => Some(value),
        (Few::Two(_, value) | Few::Three(_, value, _) | Few::Four(_, value, _, _), 1) => Some(
            value,
        ),
        (Few::Three(_, _, value) | Few::Four(_, _, value, _), 2) => Some(value),
        (Few::Four(_, _, _, value), 3) => Some(value),
        _ => None,
    }
}

impl<T: Copy> Chunk<T> {
    /// This value alone.
    pub(crate) fn of(value: T) -> Chunk<T>
        ensures { result ≡ value ∷ [] }
    {
        Chunk {
            fours: Few::Zero,
            rest: Few::One(value),
        }
    }

    /// The value after those of this chunk.
    pub(crate) fn followed_by(self, value: T) -> Chunk<T>
        requires { length self < 16 }
        ensures { result ≡ self ++ value ∷ [] }
    {
        match self.rest {
            Few::Four(first, second, third, fourth) => Chunk {
                fours: with_last(self.fours, (first, second, third, fourth)),
                rest: Few::One(value),
            },
            rest => Chunk {
                fours: self.fours,
                rest: with_last(rest, value),
            },
        }
    }

    /// How many values it has: 1 to 16.
    pub fn len(&self) -> u32
        ensures count { result ≡ length self.now }
        ensures some { 0 < result }
        ensures bound { result ≤ 16 }
    {
        4 * count_of(&self.fours) + count_of(&self.rest)
    }

    /// The value at this index, counted from 0.
    pub fn get(&self, index: u32) -> Option<T>
        ensures { result ≡ slice_get self.now index }
    {
        match value_at(&self.fours, index / 4) {
            Some((first, second, third, fourth)) => match index % 4 {
                0 => Some(first),
                1 => Some(second),
                2 => Some(third),
                _ => Some(fourth),
            },
            None => value_at(&self.rest, index - 4 * count_of(&self.fours)),
        }
    }

    /// Appends its values to `items`, in order. Where memory lacks, `items` is as before.
    pub fn append_to<A: Allocator>(&self, items: &mut Vec<T, A>) -> Result<(), AllocError>
        ensures values { IfOk result (λ _. items.new.items ≡ items.old.items ++ self.now) }
        ensures kept { IfErr result (λ _. items.new.items ≡ items.old.items) }
    {
        let len = self.len();
        items.reserve(len as usize)?;
        for index in 0..len {
            let Some(value) = self.get(index) else {
                break;
            };
            items.push_reserved(value);
        }
        Ok(())
    }
}
