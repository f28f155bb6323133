//! What two collectors were given.

/// What the collectors of two states were given by one ask of each: at least one value.
#[derive(Drop)]
pub struct Fresh<T, U> {
    /// The first state's value, where it differs from the last one given.
    pub first: Option<T>,
    /// The second state's.
    pub second: Option<U>,
}
