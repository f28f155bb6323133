//! Whose turn it is.

ghost use Rattle.std.specs.Prelude.{◌≡◌};
ghost use Rattle.flow_merge.specs.Combine.{turn_to};

/// The side of a `combine` that is asked next.
#[derive(Clone, Copy)]
pub enum Turn {
    Left,
    Right,
}

impl Turn {
    // This side, or the other one where this has finished.
    pub(crate) fn unless(self, finished: bool) -> Turn
        ensures { result ≡ turn_to self finished }
    {
        if !finished {
            return self;
        }
        match self {
            Turn::Left => Turn::Right,
            Turn::Right => Turn::Left,
        }
    }
}
