//! How large a measurement is.

ghost use Rattle.std.specs.Prelude.{◌≡◌, ◌/◌};
ghost use Rattle.bench_figures.specs.declared.size.Size.TheVariants.{Small, Full};

/// How large a measurement is.
#[derive(Clone, Copy, Debug, PartialEq, Eq)]
pub enum Size {
    /// A thousandth: enough to check every total.
    Small,
    /// As large as the figures want it.
    Full,
}

impl Size {
    /// So many operations of a measurement that has `full` at its full size.
    pub fn of(self, full: u64) -> u64
        ensures small { self ≡ Small → result ≡ full / 1000 }
        ensures whole { self ≡ Full → result ≡ full }
    {
        match self {
            Size::Small => full / 1000,
            Size::Full => full,
        }
    }
}
