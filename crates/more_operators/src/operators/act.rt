//! Actions as values.

/// What `on_each` does at a value: Kotlin's lambda, which answers nothing. It may change what it holds.
pub trait Act<T>: Copy {
    // It acted at this value, and then stood so.
    ghost acts: { Self → T → Self → Type 0 };

    /// Acts at `value`.
    fn act(&mut self, value: T)
        ensures { acts self.old value self.new };
}
