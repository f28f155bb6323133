//! How large a workload is.

ghost use Rattle.std.specs.Prelude.{◌<◌};

/// How large a workload is.
#[derive(Clone, Copy)]
pub enum Scale {
    /// As it is timed.
    Full,
    /// A thousandth, for a run that only shows that it runs.
    Small,
}

impl Scale {
    /// So many of something at this scale, at least one.
    pub fn of(self, count: u64) -> u64
        ensures { 0 < result }
    {
        match self {
            Scale::Full => count.max(1),
            Scale::Small => (count / 1000).max(1),
        }
    }
}
