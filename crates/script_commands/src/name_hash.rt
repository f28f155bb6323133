//! How the names of a script are hashed: with chance, so that who writes a script can't choose names that share a place.

ghost use Rattle.script_commands.specs.Hashes.{in_eights, eights};

use std::hash::{BuildHasher, FoldHasher, Hasher};
use std::random::RandomSource;

/// How many bytes are taken at a time.
const EIGHT: usize = 8;

/// Takes bytes as `FoldHasher` does, but eight at a time. What that one makes of more at once may be the same whatever it
/// took before, and so without chance.
#[derive(Clone, Copy)]
pub struct NameHasher {
    taken: FoldHasher,
}

impl Hasher for NameHasher {
    ghost write = { λ hasher bytes. record { taken = in_eights ⟦<FoldHasher as Hasher>⟧.write (eights bytes) hasher.taken bytes } };

    ghost finish = { λ hasher. ⟦<FoldHasher as Hasher>⟧.finish hasher.taken };

    fn finish(&self) -> u64 {
        self.taken.finish()
    }

    fn write(&mut self, bytes: &[u8]) {
        let mut taken = self.taken;
        let mut left = bytes;
        let mut eights = bytes.len().saturating_sub(1) / EIGHT;
        while eights > 0 {
            let (front, back) = left.split_at(EIGHT);
            taken.write(front);
            left = back;
            eights -= 1;
        }
        taken.write(left);
        self.taken = taken;
    }
}

/// Begins each hash of a script's names with the same eight bytes of chance.
#[derive(Clone, Copy)]
pub struct NameHash {
    begun: NameHasher,
}

impl NameHash {
    /// With the system's chance, or without any where the system has none.
    pub fn new(rt: &impl RandomSource) -> NameHash {
        let mut chance = [0; EIGHT];
        let _ = rt.fill_bytes(&mut chance);
        let mut taken = FoldHasher::default();
        taken.write(&chance);
        NameHash {
            begun: NameHasher { taken },
        }
    }
}

impl BuildHasher for NameHash {
    type Hasher = NameHasher;

    ghost build_hasher = { λ hash. hash.begun };

    fn build_hasher(&self) -> NameHasher {
        self.begun
    }
}
