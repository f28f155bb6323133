//! The law of a flag: a word that says whether an emission may have to wait for a receipt. It is 1 where the flag is up, and else 0.
ghost use Rattle.std.specs.Prelude.{ℕ};
ghost use Rattle.shared_rounds.specs.Flags.{FlagLaw, SetFlag, RaisedAfter, LookedAt, keeper_first, looker_first};

use atomic_table::{Play, Seat, Split, TableRule};
use std::marker::{Brand, Model, PhantomData};

mod view;

pub use view::{FlagLook, FlagView};

/// The law: its keeper, of which there is one at most, knows what the word is.
pub struct FlagRule;

impl TableRule<(), FlagView, ()> for FlagRule {
    ghost holds = { λ key. FlagLaw };

    ghost first = { λ key. keeper_first };
}

/// The keeper sets the flag.
pub struct Sets;

impl<S> Play<S, FlagView> for Sets {
    ghost then = { SetFlag };
}

/// How many words the lane's sequencer has loaded as the flag is raised: that picks it, since it has no operand that carries it.
pub trait Loads {
    ghost loads: { ℕ };
}

impl Loads for Brand {
    ghost loads = { 0 };
}

/// The keeper raises the flag for an emission that begins to wait.
pub struct Raises<M> {
    of: PhantomData<M>,
}

impl<S, M: Loads> Play<S, FlagView> for Raises<M> {
    ghost then = { RaisedAfter M.loads };
}

/// Where the reader stands for whom a look is made, and how many rounds its party has made: the look picks them, since it has no operand
/// that carries them.
pub trait Stands {
    ghost position: { ℕ };

    ghost rounds: { ℕ };
}

impl Stands for Brand {
    ghost position = { 0 };

    ghost rounds = { 0 };
}

/// A looker looks at it.
pub struct Looks<M> {
    of: PhantomData<M>,
}

impl<S, M: Stands> Play<S, FlagView> for Looks<M> {
    ghost then = { LookedAt M.position M.rounds };
}

/// Another looker.
pub struct Another;

impl Split<FlagView> for Another {
    ghost left = { λ v. v };

    ghost right = { λ _. looker_first };
}

/// Who sets the flag. Contracts see which flag it is, whether it is up, and what the lane's sequencer had loaded as it was raised for an
/// emission that begins to wait.
#[derive(Drop)]
pub(crate) struct Keeper {
    pub(crate) seat: Seat<(), FlagView>,
    pub(crate) is_up: bool,
}

impl Model for Keeper {
    ghost use Rattle.std.specs.Prelude.{◌≡◌, true};
    ghost use Rattle.shared_rounds.specs.Flags.{Keeping, number_of};

    ghost Value = { Keeping };

    ghost view = { λ k. record { table = k.seat.table_id; flag = k.seat.me.0.flag; raised = k.seat.me.0.raised } };

    ghost invariant = { λ k. (k.seat.me.0.keeps ≡ true) × (k.seat.me.0.flag ≡ number_of k.is_up) };
}

/// Who looks at the flag. Contracts see which flag it is, and its looks.
#[derive(Drop)]
pub struct Looker {
    pub(crate) seat: Seat<(), FlagView>,
}

impl Model for Looker {
    ghost use Rattle.std.specs.Prelude.{◌≡◌, false};
    ghost use Rattle.shared_rounds.specs.Flags.{Looking};

    ghost Value = { Looking };

    ghost view = { λ l. record { table = l.seat.table_id; looks = l.seat.me.0.looks } };

    ghost invariant = { λ l. l.seat.me.0.keeps ≡ false };
}
