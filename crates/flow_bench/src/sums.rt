//! What totals are to be.

/// The sum of the numbers from 1 to `last`, modulo 2^64.
pub(crate) fn sum_to(last: u64) -> u64 {
    let (even, odd) = if last % 2 == 0 {
        (last / 2, last.wrapping_add(1))
    } else {
        (last / 2 + 1, last)
    };
    even.wrapping_mul(odd)
}
