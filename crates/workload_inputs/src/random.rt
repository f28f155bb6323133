//! Numbers that follow from a seed.

ghost use Rattle.std.specs.Prelude.{◌<◌};

/// Numbers that look random, and are the same for the same seed. The method is SplitMix64.
#[derive(Clone, Copy)]
pub struct Random {
    state: u64,
}

impl Random {
    /// Those of a seed.
    pub fn new(seed: u64) -> Random {
        Random { state: seed }
    }

    /// The next number.
    pub fn next(&mut self) -> u64 {
        self.state = self.state.wrapping_add(0x9e37_79b9_7f4a_7c15);
        let once = (self.state ^ (self.state >> 30)).wrapping_mul(0xbf58_476d_1ce4_e5b9);
        let twice = (once ^ (once >> 27)).wrapping_mul(0x94d0_49bb_1331_11eb);
        twice ^ (twice >> 31)
    }

    /// The next number below `limit`.
    pub fn below(&mut self, limit: u64) -> u64
        requires { 0 < limit }
        ensures { result < limit }
    {
        self.next() % limit
    }

    /// Whether the next number is one of `count` in `all`.
    pub fn is_one_of(&mut self, count: u64, all: u64) -> bool
        requires { 0 < all }
    {
        self.below(all) < count
    }
}

/// The seed that a word says.
pub fn seed_in(word: &str) -> Option<u64> {
    match word.parse::<u32>() {
        Ok(seed) => Some(u64::from(seed)),
        Err(_) => None,
    }
}
