//! What shows the values of a source, beside what feeds it.

/// A flow or a state, and the sharing of the source that feeds it. It must be spent.
pub struct Sourced<V, H> {
    /// What a script's parties know of it.
    pub shown: V,
    /// What is told the time.
    pub source: H,
}
