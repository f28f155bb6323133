//! Whether what came rises.

/// Whether the values rise, each of them above 0 and below the bound.
pub fn rise_below(values: &[u64], bound: u64) -> bool {
    let mut least = 0;
    for value in values {
        if *value <= least || bound <= *value {
            return false;
        }
        least = *value;
    }
    true
}
