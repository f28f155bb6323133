//! A caller of `state_flow`: a lamp whose light is a state, with a value type of its own.
ghost use Rattle.std.specs.Prelude.{◌≡◌, ◌≢◌, ℕ, IsSome, Some};
ghost use Rattle.state_flow.specs.declared.view.View.{View};
ghost use Rattle.state_flow.specs.Calls.{Sets, Counts};
ghost use Rattle.hot_callers.specs.LightLaws.{tells};
ghost use Rattle.hot_callers.specs.Lights.{word_of, light_of, light_of-word_of};

use cold_flow::Word;
use state_flow::{Collector, StateSeat};

/// A light that fits a word.
#[derive(Clone, Copy, Debug, PartialEq, Eq)]
pub enum Light {
    Off,
    On,
}

impl Word for Light {
    ghost word = { word_of };

    ghost read_as = { light_of };

    fn to_word(self) -> u64 {
        match self {
            Light::Off => 0,
            Light::On => 1,
        }
    }

    fn from_word(stored: u64) -> Light {
        if stored == 0 { Light::Off } else { Light::On }
    }

    ghost undoes = { λ x _. light_of-word_of x };

    ghost tells_apart = { λ x y _ _. tells x y };
}

/// Sets the light from one thread, while others watch it.
#[derive(Drop)]
pub struct Dimmer {
    seat: StateSeat<Light>,
}

impl Dimmer {
    /// Over a seat of the light that it sets.
    pub fn new(seat: StateSeat<Light>) -> Dimmer
        ensures { result.seat ≡ seat }
    {
        Dimmer { seat }
    }

    /// Sets the light, and says how many watched it right after.
    pub fn switch(&mut self, light: Light) -> u32
        ensures { (set : View Light) × (Sets self.old.seat.view light set × Counts set result self.new.seat.view) }
    {
        self.seat.set(light);
        self.seat.collectors()
    }
}

/// A new collector's first ask gives a value, whatever other threads do, and the second never the same again.
pub fn asked_twice(seat: StateSeat<u64>) -> (Collector<u64>, Option<u64>, Option<u64>)
    ensures first { IsSome result.1 }
    ensures differs { (x : ℕ) → result.1 ≡ Some x → result.2 ≢ Some x }
{
    let mut collector = seat.collect();
    let first = collector.try_next();
    let second = collector.try_next();
    (collector, first, second)
}
