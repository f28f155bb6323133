//! Up to four values.

ghost use Rattle.std.specs.Prelude.{◌≡◌, ◌+◌, ◌≤◌, ⊤, IfNone, IfSome};
ghost use Rattle.flow_terms.specs.declared.few.Few.TheVariants.{Zero};
ghost use Rattle.flow_terms.specs.Few.{few_len, split};

use std::alloc::AllocError;

/// Up to four values, in order: what a `transform` makes of one.
#[derive(Copy)]
pub enum Few<U> {
    /// None.
    Zero,
    /// One.
    One(U),
    /// Two.
    Two(U, U),
    /// Three.
    Three(U, U, U),
    /// Four.
    Four(U, U, U, U),
}

impl<U: Copy> Clone for Few<U> {
    ghost is_clone = { λ it copy. copy ≡ it };

    ghost is_infallible = { λ _. ⊤ };

    fn clone(&self) -> Result<Few<U>, AllocError> {
        Ok(*self)
    }
}

impl<U: Copy> Few<U> {
    /// The first value and those after it, if there is one.
    pub fn split_first(self) -> Option<(U, Few<U>)>
        ensures split { result ≡ split self }
        ensures empty { IfNone result (self ≡ Zero) }
        ensures shorter { IfSome result (λ parts. (few_len self ≡ few_len parts.1 + 1) × (few_len parts.1 ≤ 3)) }
    {
        match self {
            Few::Zero => None,
            Few::One(first) => Some((first, Few::Zero)),
            Few::Two(first, second) => Some((first, Few::One(second))),
            Few::Three(first, second, third) => Some((first, Few::Two(second, third))),
            Few::Four(first, second, third, fourth) => Some((
                first,
                Few::Three(second, third, fourth),
            )),
        }
    }
}
