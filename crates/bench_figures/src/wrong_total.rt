//! That a measurement's total is wrong.

/// What arrived isn't what was sent.
#[derive(Clone, Copy, Debug, PartialEq, Eq)]
pub struct WrongTotal {
    /// The scenario in full, as `receipts-n4`.
    pub scenario: &'static str,
}
