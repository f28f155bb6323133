//! What follows where a state has all its seats.
ghost use Rattle.script_engines.specs.Watching.{ActsAsKept};

/// A law, with nothing to run. Where the seat of a state has all seats of it, as one that `Watched::new` made has, what each call
/// answers is a function of the calls before it, memory for a collector aside.
pub fn acts_as_kept()
    ensures { ActsAsKept }
{}
