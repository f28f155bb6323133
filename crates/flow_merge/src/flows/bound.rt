//! How many polls the inner runs of a flat map take.

ghost use Rattle.std.specs.Iterator.{Count, IsFinite, endless};

/// A number of polls in which any inner run of a flat map has ended, known to proofs alone.
pub trait Bound {
    // No inner run takes more polls.
    ghost most: { Count };
}

/// One that is indeed a number.
pub trait KnownBound: Bound {
    ghost known: { IsFinite Self.most };
}

/// No number is known.
#[derive(Clone, Copy)]
pub struct Unbounded;

impl Bound for Unbounded {
    ghost most = { endless };
}
