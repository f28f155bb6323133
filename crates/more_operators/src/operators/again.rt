//! Whether another run follows a failure, as values.

ghost use Rattle.std.specs.Prelude.{◌≡◌, ℕ, Bool};

/// Whether another run follows a failure: Kotlin's lambda of `retryWhen`, whose `attempt` is `before`.
pub trait Again<E>: Copy {
    // Whether one follows this fault, where so many followed before.
    ghost follows: { Self → E → ℕ → Bool };

    /// Whether another run follows a failure with `fault`, after `before` runs that followed one.
    fn is_followed(&self, fault: E, before: u32) -> bool
        ensures { result ≡ follows self.now fault before };
}
