//! Whether two lists of marks are the same.

use marble_marks::Mark;

/// Whether they have marks of the same places and texts in the same order.
pub(crate) fn have_same_places(ones: &[Mark<'_>], others: &[Mark<'_>]) -> bool {
    let mut same = ones.len() == others.len();
    for (one, other) in ones.iter().zip(others) {
        same = same && one.column == other.column && one.row == other.row && one.text == other.text;
    }
    same
}
