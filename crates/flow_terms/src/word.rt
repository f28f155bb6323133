//! Values that fit one 64-bit word, as flows that threads share keep them.
ghost use Rattle.std.specs.Prelude.{◌≡◌, ◌<◌, ◌%◌, ◌^◌, ◌↔◌, ℕ, true, refl};
ghost use Rattle.std.proofs.Common.{arith, rules};
ghost use Rattle.std.proofs.lemmas.Grind.{common_steps};

/// A value that fits one 64-bit word: what a state flow holds, and a shared flow between threads. Kotlin's flows hold any
/// value, by a reference.
///
/// Reading a word back undoes writing it, and two values are equal exactly where their words are. Both laws speak of the
/// values that occur in code.
pub trait Word: Copy + Eq {
    // The word of a value.
    ghost word: { Self → ℕ };

    // The value that a word is read as.
    ghost read_as: { ℕ → Self };

    // What is so of each value in code: contracts see an integer as a number without a bound.
    ghost fits: { Self → Type 0 } = { λ _. Unit {0} };

    /// The word that stands for this value.
    fn to_word(self) -> u64
        ensures word { result ≡ word self }
        ensures fits { fits self };

    /// The value for which a word stands. Of a word that stands for none it gives some value.
    fn from_word(stored: u64) -> Self
        ensures { result ≡ read_as stored };

    ghost undoes: { (x : Self) → fits x → read_as (word x) ≡ x };

    ghost tells_apart: { (x y : Self) → fits x → fits y → (Self.eq x y ≡ true) ↔ (word x ≡ word y) };
}

impl Word for u64 {
    ghost word = { λ x. x };

    ghost read_as = { λ stored. stored };

    ghost fits = { λ x. x < 2 ^ 64 };

    fn to_word(self) -> u64 {
        self
    }

    fn from_word(stored: u64) -> u64 {
        stored
    }

    ghost undoes = { λ x _. refl };

    ghost tells_apart = { λ x y _ _. Prim.search (rules, common_steps) };
}

impl Word for u32 {
    ghost word = { λ x. x };

    ghost read_as = { λ stored. stored % 2 ^ 32 };

    ghost fits = { λ x. x < 2 ^ 32 };

    fn to_word(self) -> u64 {
        u64::from(self)
    }

    fn from_word(stored: u64) -> u32 {
        // No word above 2^32 is ever stored for a u32.
        (stored % 0x1_0000_0000) as u32
    }

    ghost undoes = { λ x small. Prim.omega arith };

    ghost tells_apart = { λ x y _ _. Prim.search (rules, common_steps) };
}
