//! Functions as values.

ghost use Rattle.std.specs.Prelude.{◌≡◌};

/// A function as a value: what an operator is given in place of Kotlin's lambda.
///
/// Its answer follows from what the value holds and from the argument alone, which `gives` names. It takes no memory.
pub trait Apply<T>: Copy {
    /// What it answers.
    type Out;

    // The answer.
    ghost gives: { Self → T → Self.Out };

    /// The answer at `argument`.
    fn apply(&self, argument: T) -> Self::Out
        ensures { result ≡ gives self.now argument };
}
